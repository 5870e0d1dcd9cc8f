//! The place that is refused where reading stops.

ghost use Rattle.std.specs.Prelude.{◌≡◌, IfOk};
ghost use Rattle.aq_lex.specs.Lexemes.{first_text, first_integer};
ghost use Rattle.aq_grammar.specs.Places.{syntax_error, long_name, out_of_range, long_text, begins_subquery, subquery_fault};
ghost use Rattle.aq_grammar.specs.Stopping.{name_fault, text_fault, integer_fault, first_fault, syntax_fault, reason_of, fault_of, last_tokens, refused_place, IsPlace};

use crate::refused::{naming_fault, plain_fault};
use crate::terminals::{MAX_NAME, MAX_TEXT, is_symbol, is_word};
use aq_base::{NoMemory, SqlFault, TextVal};
use aq_lex::{Lexed, Symbol, TokenKind};
use std::alloc::Global;

/// A place in tokens that is refused, and why.
#[derive(Drop)]
pub struct RefusedPlace {
    /// The number of tokens from the refused one on: 0 at the end of the tokens.
    pub left: usize,
    pub fault: SqlFault,
}

fn syntax_error(alloc: Global) -> Result<SqlFault, NoMemory>
    ensures { IfOk result (λ fault. fault ≡ syntax_error) }
{
    plain_fault(alloc, b"42601", "syntax error")
}

fn subquery_fault(alloc: Global) -> Result<SqlFault, NoMemory>
    ensures { IfOk result (λ fault. fault ≡ subquery_fault) }
{
    plain_fault(alloc, b"0A000", "subqueries are not supported")
}

fn out_of_range(alloc: Global) -> Result<SqlFault, NoMemory>
    ensures { IfOk result (λ fault. fault ≡ out_of_range) }
{
    plain_fault(alloc, b"22003", "bigint out of range")
}

fn long_text(alloc: Global) -> Result<SqlFault, NoMemory>
    ensures { IfOk result (λ fault. fault ≡ long_text) }
{
    plain_fault(alloc, b"54000", "more than 1000 bytes in a text")
}

fn long_name(alloc: Global, name: &TextVal) -> Result<SqlFault, NoMemory>
    ensures { IfOk result (λ fault. fault ≡ long_name name.now) }
{
    naming_fault(alloc, b"42622", "name ", name, " is too long")
}

fn name_fault(alloc: Global, name: Option<TextVal>) -> Result<Option<SqlFault>, NoMemory>
    ensures { IfOk result (λ fault. fault ≡ name_fault name) }
{
    match name {
        Some(name) if name.bytes().len() > MAX_NAME => Ok(Some(long_name(alloc, &name)?)),
        _ => Ok(None),
    }
}

fn text_fault(alloc: Global, tokens: &Lexed<'_>) -> Result<Option<SqlFault>, NoMemory>
    ensures { IfOk result (λ fault. fault ≡ text_fault (first_text tokens.now)) }
{
    match tokens.text_len() {
        Some(len) if len > MAX_TEXT => Ok(Some(long_text(alloc)?)),
        _ => Ok(None),
    }
}

fn integer_fault(alloc: Global, tokens: &Lexed<'_>) -> Result<Option<SqlFault>, NoMemory>
    ensures { IfOk result (λ fault. fault ≡ integer_fault (first_integer tokens.now)) }
{
    match tokens.integer() {
        Some(_) => Ok(None),
        None => Ok(Some(out_of_range(alloc)?)),
    }
}

/// The fault of a first token that is too long or too large.
#[tactic(auto, using(crate::proofs::OwnFault::fault_by_kind))]
fn first_fault(alloc: Global, tokens: &Lexed<'_>) -> Result<Option<SqlFault>, NoMemory>
    ensures { IfOk result (λ fault. fault ≡ first_fault tokens.now) }
{
    match tokens.kind() {
        Some(TokenKind::Word) => name_fault(alloc, tokens.text(alloc)?),
        Some(TokenKind::QuotedName) => name_fault(alloc, tokens.text(alloc)?),
        Some(TokenKind::Integer) => integer_fault(alloc, tokens),
        Some(TokenKind::Text) => text_fault(alloc, tokens),
        _ => Ok(None),
    }
}

/// Whether the tokens begin with `(` and SELECT.
fn begins_subquery(tokens: &Lexed<'_>) -> bool
    ensures { result ≡ begins_subquery tokens.now }
{
    is_symbol(tokens, Symbol::OpenParen) && is_word(&tokens.rest(), b"select")
}

/// The fault of tokens with which no form goes on.
fn syntax_fault(alloc: Global, tokens: &Lexed<'_>) -> Result<SqlFault, NoMemory>
    ensures { IfOk result (λ fault. fault ≡ syntax_fault tokens.now) }
{
    match first_fault(alloc, tokens)? {
        Some(fault) => Ok(fault),
        None if begins_subquery(tokens) => subquery_fault(alloc),
        None => syntax_error(alloc),
    }
}

fn fault_of(
    alloc: Global,
    tokens: &Lexed<'_>,
    refusal: Option<SqlFault>,
) -> Result<SqlFault, NoMemory>
    ensures { IfOk result (λ fault. fault ≡ fault_of (reason_of refusal) tokens.now) }
{
    match refusal {
        Some(fault) => Ok(fault),
        None => syntax_fault(alloc, tokens),
    }
}

/// The place that is refused where reading stops before the last `left` tokens: because of a refusal, or since no rule goes on.
pub fn refused_place(
    alloc: Global,
    tokens: &Lexed<'_>,
    left: usize,
    refusal: Option<SqlFault>,
) -> Result<RefusedPlace, NoMemory>
    ensures { IfOk result (λ found. IsPlace found (refused_place tokens.now (reason_of refusal) (last_tokens left tokens.now))) }
{
    let rest = tokens.behind(tokens.len().saturating_sub(left));
    let read = tokens.len().saturating_sub(rest.len());
    let before = tokens.behind(read.saturating_sub(1));
    if read > 0 && begins_subquery(&before) {
        return Ok(RefusedPlace {
            left: before.len(),
            fault: subquery_fault(alloc)?,
        });
    }
    Ok(RefusedPlace {
        left: rest.len(),
        fault: fault_of(alloc, &rest, refusal)?,
    })
}
