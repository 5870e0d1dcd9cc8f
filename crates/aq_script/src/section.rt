//! The statements of a section.

ghost use Rattle.std.specs.Prelude.{◌≡◌, ◌&&◌, None, nat_le};
ghost use Rattle.aq_lex.specs.declared.token.Symbol.TheVariants.{Semicolon};
ghost use Rattle.aq_grammar.specs.Terminals.{begins};
ghost use Rattle.aq_grammar.specs.Rules.{refused};
ghost use Rattle.aq_grammar.specs.Forms.{sign};
ghost use Rattle.aq_grammar.specs.Nonterminals.{reads};
ghost use Rattle.aq_grammar.specs.Reading.{Read, read_both};
ghost use Rattle.aq_grammar.specs.Steps.{Gives, RefusesSo};
ghost use Rattle.aq_script.specs.Sections.{statement_limit, kinds_of, refused_statements};
ghost use Rattle.aq_script.specs.Parsing.{section_of, read_placed, refused_behind, read_all_statements};

use aq_base::{List, Placed};
use aq_grammar::{
    Read, ReadFault, is_one_of, is_session_word, passes_limit, refuse_in_session, refuse_in_setup,
    sign,
};
use aq_lex::{Lexed, Symbol};
use aq_parse::{Place, statement};
use std::alloc::Global;

/// The number of statements that a script may have.
const MAX_STATEMENTS: usize = 65536;

/// Whether a statement of the section begins the tokens.
fn begins_statement(place: Place, tokens: &Lexed<'_>) -> bool
    ensures { result ≡ begins (kinds_of (section_of place)) tokens.now }
{
    match place {
        Place::Setup => is_one_of(tokens, &["create", "alter"]),
        Place::Session => is_session_word(tokens),
    }
}

/// Whether the tokens begin one statement more than there may be, behind so many.
fn passes_statements(place: Place, statements: usize, tokens: &Lexed<'_>) -> bool
    ensures { result ≡ (nat_le statement_limit statements && begins (kinds_of (section_of place)) tokens.now) }
{
    statements >= MAX_STATEMENTS && begins_statement(place, tokens)
}

/// No statement comes behind as many as a script may have.
fn refuse_statements(
    alloc: Global,
    place: Place,
    statements: usize,
    tokens: &Lexed<'_>,
) -> Result<(), ReadFault>
    ensures { RefusesSo (refused_statements statements (section_of place)) result tokens.now }
{
    if passes_statements(place, statements, tokens) {
        return Err(passes_limit(alloc, tokens, "more than 65536 statements"));
    }
    Ok(())
}

/// What is refused in place of a statement.
fn refuse_others(alloc: Global, place: Place, tokens: &Lexed<'_>) -> Result<(), ReadFault>
    ensures { RefusesSo (section_of place).refused result tokens.now }
{
    match place {
        Place::Setup => refuse_in_setup(alloc, tokens),
        Place::Session => refuse_in_session(alloc, tokens),
    }
}

/// What is refused where a statement may begin, behind so many of them.
fn refuse_behind(
    alloc: Global,
    place: Place,
    statements: usize,
    tokens: &Lexed<'_>,
) -> Result<(), ReadFault>
    ensures { RefusesSo (refused_behind (section_of place) statements) result tokens.now }
{
    refuse_statements(alloc, place, statements, tokens)?;
    refuse_others(alloc, place, tokens)
}

/// What was read, where a semicolon stands behind it.
// It is of any type, so that dropping it is one call: the check runs out of memory on all the parts of a statement.
fn ended<'a, T: Drop>(x: T, tokens: &Lexed<'a>) -> Read<'a, T>
    ensures { Gives (λ x. x) result (read_both (λ said y. y) (reads (sign Semicolon)) (λ said rest. Read x rest) tokens.now) }
{
    let ((), rest) = sign(tokens, Symbol::Semicolon)?;
    Ok((x, rest))
}

/// A statement with its semicolon, and the line on which it begins, where it isn't refused.
fn placed<'a>(alloc: Global, place: Place, tokens: &Lexed<'a>) -> Read<'a, Placed>
    ensures { refused (section_of place).refused tokens.now ≡ None → Gives (λ x. x) result (read_placed (section_of place) tokens.now) }
{
    let line = tokens.line().unwrap_or(0);
    let (statement, rest) = statement(alloc, place, tokens)?;
    ended(Placed { line, statement }, &rest)
}

/// The statements of a section, as many as stand there, behind so many of those before it.
pub(crate) fn statements<'a>(
    alloc: Global,
    place: Place,
    before: usize,
    tokens: &Lexed<'a>,
) -> Read<'a, List<Placed>>
    ensures { Gives (λ x. x) result (read_all_statements (section_of place) before tokens.now) }
{
    let mut found = List::new(alloc);
    let mut count = before;
    let mut rest = tokens.copied();
    'statements: loop {
        refuse_behind(alloc, place, count, &rest)?;
        if !begins_statement(place, &rest) {
            return Ok((found, rest));
        }
        let (next, behind) = placed(alloc, place, &rest)?;
        found.push(next)?;
        count += 1;
        rest = behind;
    }
}
