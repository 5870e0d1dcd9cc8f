//! One statement from a list of tokens.

ghost use Rattle.std.specs.Prelude.{◌≡◌, ◌≤◌, ◌↔◌, IfErr, IfOk, IsTrue, drop, length};
ghost use Rattle.aq_lex.specs.Lexemes.{lexemes};
ghost use Rattle.aq_lex.specs.Tokens.{Lexes};
ghost use Rattle.aq_grammar.specs.Forms.{unsupported};
ghost use Rattle.aq_grammar.specs.Places.{syntax_error};
ghost use Rattle.aq_grammar.specs.Stopping.{reason_of, last_tokens, refused_place};
ghost use Rattle.aq_parse.specs.Statements.{statement_of};
ghost use Rattle.aq_parse.specs.declared.parsing.ParseFault.TheVariants.{NoMemory};
ghost use Rattle.aq_parse.specs.Parsed.{IsParsed, IsParseFault, IsPlaceTold, IsToldAs};

use crate::statements::{Place, statement};
use aq_base::{Code, NoMemory, SqlFault, Statement, TextVal};
use aq_grammar::{ReadFault, refused_place};
use aq_lex::{Lexed, Token};
use std::alloc::{AllocError, Global};
use thiserror::Error;

/// A statement with the number of the token behind it.
#[derive(Drop)]
pub struct Parsed {
    pub statement: Statement,
    pub next: usize,
}

/// Why no statement could be read. Places are numbers of tokens, counted from 0; the number of all tokens is their end.
#[derive(Debug, Drop, Error)]
pub enum ParseFault {
    /// Memory ran out.
    #[error("out of memory")]
    NoMemory,
    /// A limit is passed at the token: too many tokens in an expression, too many open IFs, or a name, text or integer that is too long or too large.
    #[error("token {at} passes a limit")]
    Limit { at: usize, fault: SqlFault },
    /// A form that is known and not supported begins at the token; `name` is the text of its fault, as `BEFORE triggers are not supported`.
    #[error("a form that is not supported begins at token {at}")]
    Unsupported { at: usize, name: TextVal },
    /// No statement goes on with the token, or the tokens end too early.
    #[error("no statement goes on with token {at}")]
    Syntax { at: usize },
}

impl From<AllocError> for ParseFault {
    ghost from_gives = { λ _ fault. fault ≡ NoMemory };

    fn from(_error: AllocError) -> ParseFault {
        ParseFault::NoMemory
    }
}

fn is_unsupported(fault: &SqlFault) -> bool
    ensures { IsTrue result ↔ (fault.now ≡ unsupported fault.now.text) }
{
    fault.code == Code(*b"0A000") && fault.detail.is_none()
}

fn is_syntax_error(fault: &SqlFault) -> bool
    ensures { IsTrue result ↔ (fault.now ≡ syntax_error) }
{
    fault.code == Code(*b"42601")
        && fault.text.bytes() == b"syntax error".as_slice()
        && fault.detail.is_none()
}

/// Sorts the fault of a place.
fn told(at: usize, fault: SqlFault) -> ParseFault
    ensures { IsToldAs at fault result }
{
    if is_syntax_error(&fault) {
        ParseFault::Syntax { at }
    } else if is_unsupported(&fault) {
        ParseFault::Unsupported {
            at,
            name: fault.text,
        }
    } else {
        ParseFault::Limit { at, fault }
    }
}

/// The fault of the place that is refused where reading the tokens behind `from` stops before the last `left`.
fn stopped(
    alloc: Global,
    tokens: &Lexed<'_>,
    from: usize,
    left: usize,
    refusal: Option<SqlFault>,
) -> Result<ParseFault, NoMemory>
    ensures { IfOk result (λ told. IsPlaceTold (length tokens.now)
        (refused_place (drop from tokens.now) (reason_of refusal) (last_tokens left (drop from tokens.now))) told) }
{
    let found = refused_place(alloc, &tokens.behind(from), left, refusal)?;
    Ok(told(tokens.len().saturating_sub(found.left), found.fault))
}

/// Reads one statement, which ends before its semicolon, from the token with the number `from` on, by the rules of its place.
pub fn parse(
    alloc: Global,
    bytes: &[u8],
    tokens: &[Token],
    from: usize,
    place: Place,
) -> Result<Parsed, ParseFault>
    requires lexed { Lexes bytes.now tokens.now }
    requires within { from ≤ length tokens.now }
    ensures parsed { IfOk result (λ parsed. IsParsed (statement_of place) (lexemes bytes.now tokens.now) from parsed) }
    ensures refused { IfErr result (λ fault. IsParseFault (statement_of place) (lexemes bytes.now tokens.now) from fault) }
{
    let all = Lexed::new(bytes, tokens);
    match statement(alloc, place, &all.behind(from)) {
        Ok((statement, rest)) => Ok(Parsed {
            statement,
            next: all.len().saturating_sub(rest.len()),
        }),
        Err(ReadFault::NoMemory) => Err(ParseFault::NoMemory),
        Err(ReadFault::Syntax { left }) => Err(stopped(alloc, &all, from, left, None)?),
        Err(ReadFault::Refused { left, fault }) => {
            Err(stopped(alloc, &all, from, left, Some(fault))?)
        }
    }
}
