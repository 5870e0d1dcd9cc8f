//! The transition tables of a trigger.

ghost use Rattle.std.specs.Prelude.{◌≡◌, [], ◌∷◌, IfOk};
ghost use Rattle.aq_grammar.specs.Reading.{read_other};
ghost use Rattle.aq_grammar.specs.Terminals.{Keyword};
ghost use Rattle.aq_grammar.specs.Nonterminals.{reads};
ghost use Rattle.aq_grammar.specs.Steps.{Gives};
ghost use Rattle.aq_grammar.specs.Triggers.{table_as, transitions_of, transition_tables, referencing};
ghost use Rattle.aq_parse_triggers.specs.Triggers.{version_word, tables_from};

use aq_base::{List, NoMemory, TextVal, Transition, TransitionTable};
use aq_grammar::{Read, is_word, name, name_but, word};
use aq_lex::Lexed;
use std::alloc::Global;

/// The word of a transition table.
fn version_word(version: Transition) -> &'static [u8]
    ensures { result.now ≡ version_word version }
{
    match version {
        Transition::Old => b"old",
        Transition::New => b"new",
    }
}

/// `OLD TABLE AS`
fn table_as<'a>(version: &[u8], tokens: &Lexed<'a>) -> Read<'a, ()>
    ensures { Gives (λ x. tt) result (reads (table_as version.now) tokens.now) }
{
    let ((), rest) = word(tokens, version)?;
    let ((), rest) = word(&rest, b"table")?;
    if !is_word(&rest, b"as") {
        return Ok(((), rest));
    }
    word(&rest, b"as")
}

/// The name of a second transition table, where there is one. It differs from that of the first.
fn other_name<'a>(
    alloc: Global,
    version: &[u8],
    name: &TextVal,
    tokens: &Lexed<'a>,
) -> Read<'a, Option<TextVal>>
    ensures { Gives (λ x. x) result (read_other (Keyword version.now ∷ []) (reads (table_as version.now)) name.now tokens.now) }
{
    if !is_word(tokens, version) {
        return Ok((None, tokens.copied()));
    }
    let ((), rest) = table_as(version, tokens)?;
    let (other, rest) = name_but(alloc, &rest, name.bytes())?;
    Ok((Some(other), rest))
}

/// The name of a second transition table of this version, where there is one.
fn second_name<'a>(
    alloc: Global,
    second: Transition,
    name: &TextVal,
    tokens: &Lexed<'a>,
) -> Read<'a, Option<TextVal>>
    ensures { Gives (λ x. x) result (read_other (Keyword (version_word second) ∷ []) (reads (table_as (version_word second))) name.now tokens.now) }
{
    other_name(alloc, version_word(second), name, tokens)
}

/// The transition tables of these names.
fn transitions_of(
    alloc: Global,
    first: Transition,
    second: Transition,
    name: TextVal,
    other: Option<TextVal>,
) -> Result<List<TransitionTable>, NoMemory>
    ensures { IfOk result (λ tables. tables ≡ transitions_of first second name other) }
{
    let mut tables = List::new(alloc);
    tables.push(TransitionTable {
        transition: first,
        name,
    })?;
    if let Some(other) = other {
        tables.push(TransitionTable {
            transition: second,
            name: other,
        })?;
    }
    Ok(tables)
}

/// A transition table, and perhaps a second with another name.
fn tables_from<'a>(
    alloc: Global,
    first: Transition,
    second: Transition,
    tokens: &Lexed<'a>,
) -> Read<'a, List<TransitionTable>>
    ensures { Gives (λ x. x) result (reads (tables_from first second) tokens.now) }
{
    let ((), rest) = table_as(version_word(first), tokens)?;
    let (name, rest) = name(alloc, &rest)?;
    let (other, rest) = second_name(alloc, second, &name, &rest)?;
    let tables = transitions_of(alloc, first, second, name, other)?;
    Ok((tables, rest))
}

/// The transition tables of a trigger.
#[tactic(auto, unfolding(aq_grammar::specs::Triggers::transition_tables))]
fn transition_tables<'a>(alloc: Global, tokens: &Lexed<'a>) -> Read<'a, List<TransitionTable>>
    ensures { Gives (λ x. x) result (reads transition_tables tokens.now) }
{
    if is_word(tokens, b"old") {
        tables_from(alloc, Transition::Old, Transition::New, tokens)
    } else if is_word(tokens, b"new") {
        tables_from(alloc, Transition::New, Transition::Old, tokens)
    } else {
        Ok((List::new(alloc), tokens.copied()))
    }
}

/// REFERENCING, where it is said.
#[tactic(auto, unfolding(aq_grammar::specs::Triggers::referencing))]
pub fn referencing<'a>(alloc: Global, tokens: &Lexed<'a>) -> Read<'a, Option<List<TransitionTable>>>
    ensures { Gives (λ x. x) result (reads referencing tokens.now) }
{
    if !is_word(tokens, b"referencing") {
        return Ok((None, tokens.copied()));
    }
    let ((), rest) = word(tokens, b"referencing")?;
    let (tables, rest) = transition_tables(alloc, &rest)?;
    Ok((Some(tables), rest))
}
