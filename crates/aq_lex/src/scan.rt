//! What bytes begin with.

ghost use Rattle.std.specs.Prelude.{◌≡◌, ◌<◌, ◌≤◌, false, ◌∷◌, length, IfSome};
ghost use Rattle.std.specs.Str.{is_utf8};
ghost use Rattle.aq_lex.specs.Tokens.{is_blank, begins_word, goes_on_in_word};
ghost use Rattle.aq_lex.specs.Lexing.{is_of_class, front_len, quote_end, literal_len, name_at, text_at, comment_at, directive_at, long_symbol, short_symbol, long_symbol_at, longer_symbol, begins_with, mark_at, literal_at, piece_at};

use crate::piece::{Class, Piece};
use crate::token::{Directive, Symbol, TokenKind};

fn is_blank(byte: u8) -> bool
    ensures { result ≡ is_blank byte }
{
    byte == b' ' || byte == b'\t' || byte == b'\r' || byte == b'\n'
}

fn begins_word(byte: u8) -> bool
    ensures { result ≡ begins_word byte }
{
    byte.is_ascii_alphabetic() || byte == b'_'
}

fn goes_on_in_word(byte: u8) -> bool
    ensures { result ≡ goes_on_in_word byte }
{
    byte.is_ascii_alphanumeric() || byte == b'_' || byte == b'$'
}

fn is_of_class(class: Class, byte: u8) -> bool
    ensures { result ≡ is_of_class class byte }
{
    match class {
        Class::InWord => goes_on_in_word(byte),
        Class::Digit => byte.is_ascii_digit(),
        Class::InLine => byte != b'\n',
    }
}

/// The number of bytes before the first that is not of the class.
fn front_len(class: Class, bytes: &[u8]) -> usize
    ensures value { result ≡ front_len (is_of_class class) bytes.now }
    ensures within { result ≤ length bytes.now }
{
    let mut len: usize = 0;
    let mut rest = bytes;
    'bytes: while let Some((byte, behind)) = rest.split_first() {
        if !is_of_class(class, *byte) {
            break;
        }
        len += 1;
        rest = behind;
    }
    len
}

/// The number of bytes up to the quote that ends a text, and that quote.
fn quote_end(quote: u8, bytes: &[u8]) -> Option<usize>
    ensures value { result ≡ quote_end quote false bytes.now }
    ensures within { IfSome result (λ len. (0 < len) × (len ≤ length bytes.now)) }
{
    let mut after_quote = false;
    let mut len: usize = 0;
    let mut rest = bytes;
    'bytes: while let Some((byte, behind)) = rest.split_first() {
        if after_quote && *byte != quote {
            return Some(len);
        }
        after_quote = !after_quote && *byte == quote;
        len += 1;
        rest = behind;
    }
    if after_quote { Some(len) } else { None }
}

#[tactic(auto, using(crate::proofs::Bytes::utf8_test, crate::proofs::Bytes::no_utf8_test))]
fn is_utf8(bytes: &[u8]) -> bool
    ensures { result ≡ is_utf8 bytes.now }
{
    match std::str::from_utf8(bytes) {
        Ok(_) => true,
        Err(_) => false,
    }
}

/// The length of a text between quotes, from the bytes behind the first quote.
fn literal_len(quote: u8, bytes: &[u8]) -> Option<usize>
    ensures { result ≡ literal_len quote bytes.now }
{
    let len = quote_end(quote, bytes)?;
    if is_utf8(&bytes[..len - 1]) {
        Some(len + 1)
    } else {
        None
    }
}

fn name_at(bytes: &[u8]) -> Option<(Piece, usize)>
    ensures { result ≡ name_at bytes.now }
{
    let len = literal_len(b'"', bytes)?;
    if len == 2 {
        None
    } else {
        Some((Piece::Token(TokenKind::QuotedName), len))
    }
}

fn text_at(bytes: &[u8]) -> Option<(Piece, usize)>
    ensures { result ≡ text_at bytes.now }
{
    let len = literal_len(b'\'', bytes)?;
    Some((Piece::Token(TokenKind::Text), len))
}

fn comment_at(bytes: &[u8]) -> Option<(Piece, usize)>
    ensures { result ≡ comment_at bytes.now }
{
    let len = front_len(Class::InLine, bytes);
    if is_utf8(&bytes[..len]) {
        Some((Piece::Comment, len + 2))
    } else {
        None
    }
}

fn directive_at(bytes: &[u8]) -> Option<(Piece, usize)>
    ensures { result ≡ directive_at bytes.now }
{
    if bytes.starts_with(b"\\setup") {
        Some((Piece::Token(TokenKind::Directive(Directive::Setup)), 6))
    } else if bytes.starts_with(b"\\session") {
        Some((Piece::Token(TokenKind::Directive(Directive::Session)), 8))
    } else if bytes.starts_with(b"\\schedule") {
        Some((Piece::Token(TokenKind::Directive(Directive::Schedule)), 9))
    } else {
        None
    }
}

fn long_symbol(byte: u8, next: u8) -> Option<Symbol>
    ensures { result ≡ long_symbol byte next }
{
    match (byte, next) {
        (b'<', b'=') => Some(Symbol::AtMost),
        (b'<', b'>') => Some(Symbol::Unequal),
        (b'>', b'=') => Some(Symbol::AtLeast),
        (b'!', b'=') => Some(Symbol::Unequal),
        (b'$', b'$') => Some(Symbol::DollarQuote),
        _ => None,
    }
}

fn short_symbol(byte: u8) -> Option<Symbol>
    ensures { result ≡ short_symbol byte }
{
    match byte {
        b'(' => Some(Symbol::OpenParen),
        b')' => Some(Symbol::CloseParen),
        b',' => Some(Symbol::Comma),
        b';' => Some(Symbol::Semicolon),
        b'.' => Some(Symbol::Dot),
        b'+' => Some(Symbol::Plus),
        b'-' => Some(Symbol::Minus),
        b'*' => Some(Symbol::Times),
        b'=' => Some(Symbol::Equal),
        b'<' => Some(Symbol::Less),
        b'>' => Some(Symbol::Greater),
        _ => None,
    }
}

fn long_symbol_at(byte: u8, bytes: &[u8]) -> Option<Symbol>
    ensures { result ≡ long_symbol_at byte bytes.now }
{
    let (next, _) = bytes.split_first()?;
    long_symbol(byte, *next)
}

fn symbol_at(byte: u8, bytes: &[u8]) -> Option<(Piece, usize)>
    ensures { result ≡ longer_symbol (long_symbol_at byte bytes.now) (short_symbol byte) }
{
    if let Some(symbol) = long_symbol_at(byte, bytes) {
        return Some((Piece::Token(TokenKind::Symbol(symbol)), 2));
    }
    let symbol = short_symbol(byte)?;
    Some((Piece::Token(TokenKind::Symbol(symbol)), 1))
}

fn begins_with(first: u8, bytes: &[u8]) -> bool
    ensures { result ≡ begins_with first bytes.now }
{
    match bytes.split_first() {
        Some((byte, _)) => *byte == first,
        None => false,
    }
}

fn mark_at(byte: u8, bytes: &[u8]) -> Option<(Piece, usize)>
    ensures { result ≡ mark_at byte bytes.now }
{
    if byte == b'-' && begins_with(b'-', bytes) {
        comment_at(&bytes[1..])
    } else {
        symbol_at(byte, bytes)
    }
}

fn literal_at(is_first: bool, bytes: &[u8], byte: u8, behind: &[u8]) -> Option<(Piece, usize)>
    requires { bytes.now ≡ byte ∷ behind.now }
    ensures { result ≡ literal_at is_first byte behind.now }
{
    match byte {
        b'"' => name_at(behind),
        b'\'' => text_at(behind),
        b'\\' if is_first => directive_at(bytes),
        b'\\' => None,
        _ => mark_at(byte, behind),
    }
}

#[tactic(auto, unfolding(crate::specs::Lexing::piece_at))]
fn found_at(is_first: bool, bytes: &[u8]) -> Option<(Piece, usize)>
    ensures { result ≡ piece_at is_first bytes.now }
{
    let (byte, behind) = bytes.split_first()?;
    if is_blank(*byte) {
        Some((Piece::Blank, 1))
    } else if begins_word(*byte) {
        Some((
            Piece::Token(TokenKind::Word),
            front_len(Class::InWord, bytes),
        ))
    } else if byte.is_ascii_digit() {
        Some((
            Piece::Token(TokenKind::Integer),
            front_len(Class::Digit, bytes),
        ))
    } else {
        literal_at(is_first, bytes, *byte, behind)
    }
}

/// What the bytes begin with, and its length.
pub fn piece_at(is_first: bool, bytes: &[u8]) -> Option<(Piece, usize)>
    ensures value { result ≡ piece_at is_first bytes.now }
    ensures within { IfSome result (λ found. (0 < found.1) × (found.1 ≤ length bytes.now)) }
{
    found_at(is_first, bytes)
}
