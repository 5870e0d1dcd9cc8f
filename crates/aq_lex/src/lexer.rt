//! From bytes to tokens.

ghost use Rattle.std.specs.Prelude.{◌≡◌, ◌++◌, OnOk, IfOk, IfErr};
ghost use Rattle.aq_lex.specs.Tokens.{Lexes, NoTokenAt, IfBadToken};
ghost use Rattle.aq_lex.specs.Lexing.{is_first_behind, tokens_of};

use crate::fault::LexFault;
use crate::piece::Piece;
use crate::scan::piece_at;
use crate::token::Token;
use aq_base::{List, NoMemory};
use std::alloc::Global;

fn is_first_behind(is_first: bool, piece: Piece, byte: u8) -> bool
    ensures { result ≡ is_first_behind is_first piece byte }
{
    match piece {
        Piece::Blank => is_first || byte == b'\n',
        Piece::Comment => is_first,
        Piece::Token(_) => false,
    }
}

fn add(tokens: &mut List<Token>, piece: Piece, from: usize, to: usize) -> Result<(), NoMemory>
    ensures { OnOk result (tokens.new ≡ tokens.old ++ tokens_of piece from to) }
{
    if let Piece::Token(kind) = piece {
        tokens.push(Token { kind, from, to })?;
    }
    Ok(())
}

/// The tokens of a script, or the first byte at which no token begins, no blank and no comment.
pub fn lex(alloc: Global, bytes: &[u8]) -> Result<List<Token>, LexFault>
    ensures tokens { IfOk result (λ tokens. Lexes bytes.now tokens) }
    ensures fault { IfErr result (λ fault. IfBadToken fault (λ at. NoTokenAt bytes.now at)) }
{
    let mut tokens = List::new(alloc);
    let mut at: usize = 0;
    let mut is_first = true;
    let mut rest = bytes;
    'pieces: while let Some((byte, _)) = rest.split_first() {
        let Some((piece, len)) = piece_at(is_first, rest) else {
            return Err(LexFault::BadToken { at });
        };
        let end = at + len;
        add(&mut tokens, piece, at, end)?;
        is_first = is_first_behind(is_first, piece, *byte);
        at = end;
        rest = &rest[len..];
    }
    Ok(tokens)
}
