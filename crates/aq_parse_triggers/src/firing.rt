//! For each what a trigger fires.

ghost use Rattle.aq_grammar.specs.Nonterminals.{reads};
ghost use Rattle.aq_grammar.specs.Steps.{Gives};
ghost use Rattle.aq_grammar.specs.Triggers.{fires_for};
ghost use Rattle.aq_parse_triggers.specs.Triggers.{each, row_or_statement, for_each_row};

use aq_base::Each;
use aq_grammar::{Read, is_word, says, word};
use aq_lex::Lexed;

/// `EACH`, where it is said.
fn each<'a>(tokens: &Lexed<'a>) -> Read<'a, Option<()>>
    ensures { Gives (λ x. x) result (reads each tokens.now) }
{
    if !is_word(tokens, b"each") {
        return Ok((None, tokens.copied()));
    }
    let ((), rest) = word(tokens, b"each")?;
    Ok((Some(()), rest))
}

/// `ROW` or `STATEMENT`
fn row_or_statement<'a>(tokens: &Lexed<'a>) -> Read<'a, Each>
    ensures { Gives (λ x. x) result (reads row_or_statement tokens.now) }
{
    if is_word(tokens, b"row") {
        says(tokens, b"row", Each::Row)
    } else {
        says(tokens, b"statement", Each::Statement)
    }
}

/// For each what a trigger fires.
#[tactic(auto, unfolding(aq_grammar::specs::Triggers::fires_for))]
pub fn fires_for<'a>(tokens: &Lexed<'a>) -> Read<'a, Each>
    ensures { Gives (λ x. x) result (reads fires_for tokens.now) }
{
    if !is_word(tokens, b"for") {
        return Ok((Each::Statement, tokens.copied()));
    }
    let ((), rest) = word(tokens, b"for")?;
    let (_, rest) = each(&rest)?;
    row_or_statement(&rest)
}

/// `FOR EACH ROW`
pub fn for_each_row<'a>(tokens: &Lexed<'a>) -> Read<'a, ()>
    ensures { Gives (λ x. tt) result (reads for_each_row tokens.now) }
{
    let ((), rest) = word(tokens, b"for")?;
    let (_, rest) = each(&rest)?;
    word(&rest, b"row")
}
