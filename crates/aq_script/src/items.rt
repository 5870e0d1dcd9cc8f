//! The schedule section.

ghost use Rattle.aq_grammar.specs.Nonterminals.{reads};
ghost use Rattle.aq_grammar.specs.Steps.{Gives};
ghost use Rattle.aq_script.specs.Sections.{item, items, schedule};

use aq_base::{Item, List};
use aq_grammar::{Read, count, heading, is_heading, is_plain_name, is_symbol, plain_name, sign};
use aq_lex::{Directive, Lexed, Symbol};
use std::alloc::Global;

/// A session's name, and how many of its steps follow one another.
#[tactic(auto, unfolding(crate::specs::Sections::item))]
fn item<'a>(alloc: Global, tokens: &Lexed<'a>) -> Read<'a, Item>
    ensures { Gives (λ x. x) result (reads item tokens.now) }
{
    let (name, rest) = plain_name(alloc, tokens)?;
    if !is_symbol(&rest, Symbol::Times) {
        return Ok((Item { name, count: 1 }, rest));
    }
    let ((), rest) = sign(&rest, Symbol::Times)?;
    let (count, rest) = count(&rest)?;
    Ok((Item { name, count }, rest))
}

/// The items of a schedule, as many as stand there.
fn items<'a>(alloc: Global, tokens: &Lexed<'a>) -> Read<'a, List<Item>>
    ensures { Gives (λ x. x) result (reads items tokens.now) }
{
    let mut found = List::new(alloc);
    let mut rest = tokens.copied();
    'items: while is_plain_name(&rest) {
        let (next, behind) = item(alloc, &rest)?;
        found.push(next)?;
        rest = behind;
    }
    Ok((found, rest))
}

/// The schedule section, where there is one.
#[tactic(auto, unfolding(crate::specs::Sections::schedule))]
pub(crate) fn schedule<'a>(alloc: Global, tokens: &Lexed<'a>) -> Read<'a, Option<List<Item>>>
    ensures { Gives (λ x. x) result (reads schedule tokens.now) }
{
    if !is_heading(tokens, Directive::Schedule) {
        return Ok((None, tokens.copied()));
    }
    let ((), rest) = heading(tokens, Directive::Schedule)?;
    let (found, rest) = items(alloc, &rest)?;
    Ok((Some(found), rest))
}
