//! The values of tokens, by their bytes.

ghost use Rattle.std.specs.Prelude.{◌≡◌, ◌-◌, ◌≤◌, map, length, take, drop, count_by, ◌==◌, Some, None, IfOk, option_map};
ghost use Rattle.std.specs.Char.{to_ascii_lowercase};
ghost use Rattle.aq_base.specs.Names.{same_text};
ghost use Rattle.aq_lex.specs.Lexemes.{unquoted, number_of, token_bytes, line_at, small, lexeme, text_of, integer_of, is_word, is_symbol, is_directive, symbol_number, directive_number, IsText, IsFirstLine};
ghost use Rattle.aq_lex.specs.Lexing.{past_quote};

use crate::token::{Directive, Symbol, Token, TokenKind};
use aq_base::{NoMemory, TextVal};
use std::alloc::Global;

/// The bytes of a token among all bytes.
pub fn token_bytes<'a>(bytes: &'a [u8], token: &Token) -> &'a [u8]
    ensures { result.now ≡ token_bytes bytes.now token.now }
{
    let to = token.to.min(bytes.len());
    bytes.get(token.from..to).unwrap_or(&[])
}

/// The number of LFs.
fn lines_in(bytes: &[u8]) -> u64
    ensures value { result ≡ count_by (λ byte. byte == 10) bytes.now }
    ensures within { result ≤ length bytes.now }
{
    bytes.iter().filter(|byte| **byte == b'\n').count() as u64
}

/// The line of a place, counted from 1.
pub fn line_at(bytes: &[u8], at: usize) -> u64
    ensures { result ≡ line_at bytes.now at }
{
    lines_in(&bytes[..at.min(bytes.len())]) + 1
}

/// The line of a place, from that of another place.
fn line_on(bytes: &[u8], line: u64, from: usize, to: usize) -> u64
    requires { line ≡ line_at bytes.now from }
    ensures { result ≡ line_at bytes.now to }
{
    match bytes.get(from..to) {
        Some(between) => line + lines_in(between),
        None => line_at(bytes, to),
    }
}

/// The line on which the first of several tokens begins.
pub fn first_line(bytes: &[u8], tokens: &[Token]) -> u64
    ensures { IsFirstLine bytes.now tokens.now result }
{
    match tokens.first() {
        Some(token) => line_at(bytes, token.from),
        None => 1,
    }
}

/// The line on which the first of several tokens begins, from the line of another place.
pub fn next_line(bytes: &[u8], line: u64, from: usize, tokens: &[Token]) -> u64
    requires { line ≡ line_at bytes.now from }
    ensures { IsFirstLine bytes.now tokens.now result }
{
    match tokens.first() {
        Some(token) => line_on(bytes, line, from, token.from),
        None => line,
    }
}

/// The bytes with each upper case letter as its lower case letter.
pub fn folded(alloc: Global, bytes: &[u8]) -> Result<Vec<u8>, NoMemory>
    ensures { IfOk result (λ text. text.items ≡ map to_ascii_lowercase bytes.now) }
{
    let mut text = Vec::new(alloc);
    for byte in bytes {
        text.push(byte.to_ascii_lowercase())?;
    }
    Ok(text)
}

/// Whether the bytes, folded to lower case, are a word.
pub fn folds_to(bytes: &[u8], word: &[u8]) -> bool
    ensures { result ≡ same_text (map to_ascii_lowercase bytes.now) word.now }
{
    let mut left = bytes;
    let mut right = word;
    'bytes: while let (Some((a, more)), Some((b, others))) = (
        left.split_first(),
        right.split_first(),
    ) {
        if a.to_ascii_lowercase() != *b {
            return false;
        }
        left = more;
        right = others;
    }
    left.is_empty() && right.is_empty()
}

/// The bytes between the quotes.
fn inside(bytes: &[u8]) -> &[u8]
    ensures { result.now ≡ take (length bytes.now - 2) (drop 1 bytes.now) }
{
    if bytes.len() < 2 {
        return &[];
    }
    &bytes[1..bytes.len() - 1]
}

/// What goes on behind a byte: where it is the first of two quotes, the other is passed over.
fn past_quote(quote: u8, byte: u8, behind: &[u8]) -> &[u8]
    ensures value { result.now ≡ past_quote quote byte behind.now }
    ensures within { length result.now ≤ length behind.now }
{
    match behind.split_first() {
        Some((_, after)) if byte == quote => after,
        _ => behind,
    }
}

/// The text between two quotes.
pub fn unquoted(alloc: Global, quote: u8, bytes: &[u8]) -> Result<Vec<u8>, NoMemory>
    ensures { IfOk result (λ text. text.items ≡ unquoted quote bytes.now) }
{
    let mut text = Vec::new(alloc);
    let mut rest = inside(bytes);
    'bytes: while let Some((byte, behind)) = rest.split_first() {
        text.push(*byte)?;
        rest = past_quote(quote, *byte, behind);
    }
    Ok(text)
}

/// The length of the text between two quotes.
pub fn unquoted_len(quote: u8, bytes: &[u8]) -> usize
    ensures { result ≡ length (unquoted quote bytes.now) }
{
    let mut len: usize = 0;
    let mut rest = inside(bytes);
    'bytes: while let Some((byte, behind)) = rest.split_first() {
        len += 1;
        rest = past_quote(quote, *byte, behind);
    }
    len
}

/// The number that digits write, unless it is above what 64 bits with a sign have.
pub fn number_of(digits: &[u8]) -> Option<i64>
    ensures { result ≡ small (number_of digits.now) }
{
    const LIMIT: u64 = 9223372036854775807;
    let mut number: u64 = 0;
    let mut rest = digits;
    'digits: while let Some((digit, behind)) = rest.split_first() {
        let value = u64::from(digit.saturating_sub(b'0'));
        number = number.saturating_mul(10).saturating_add(value);
        rest = behind;
    }
    if number <= LIMIT {
        Some(number as i64)
    } else {
        None
    }
}

/// Whether a token is this word, in lower case.
pub fn is_word(bytes: &[u8], token: &Token, word: &[u8]) -> bool
    ensures { result ≡ is_word word.now (lexeme bytes.now token.now) }
{
    match token.kind {
        TokenKind::Word => folds_to(token_bytes(bytes, token), word),
        _ => false,
    }
}

fn same_symbol(a: Symbol, b: Symbol) -> bool
    ensures { result ≡ (symbol_number a == symbol_number b) }
{
    a == b
}

fn same_directive(a: Directive, b: Directive) -> bool
    ensures { result ≡ (directive_number a == directive_number b) }
{
    a == b
}

/// Whether a token is this symbol.
pub fn is_symbol(bytes: &[u8], token: &Token, symbol: Symbol) -> bool
    ensures { result ≡ is_symbol symbol (lexeme bytes.now token.now) }
{
    match token.kind {
        TokenKind::Symbol(found) => same_symbol(found, symbol),
        _ => false,
    }
}

/// Whether a token is this directive.
pub fn is_directive(bytes: &[u8], token: &Token, directive: Directive) -> bool
    ensures { result ≡ is_directive directive (lexeme bytes.now token.now) }
{
    match token.kind {
        TokenKind::Directive(found) => same_directive(found, directive),
        _ => false,
    }
}

/// The number that a token is, where it is an integer that 64 bits with a sign have.
pub fn integer_of(bytes: &[u8], token: &Token) -> Option<i64>
    ensures { result ≡ integer_of (lexeme bytes.now token.now) }
{
    match token.kind {
        TokenKind::Integer => number_of(token_bytes(bytes, token)),
        _ => None,
    }
}

/// The length of a token's text, where it has one.
pub fn text_len(bytes: &[u8], token: &Token) -> Option<usize>
    ensures { result ≡ option_map length (text_of (lexeme bytes.now token.now)) }
{
    let found = token_bytes(bytes, token);
    match token.kind {
        TokenKind::Word => Some(found.len()),
        TokenKind::QuotedName => Some(unquoted_len(b'"', found)),
        TokenKind::Text => Some(unquoted_len(b'\'', found)),
        _ => None,
    }
}

/// The bytes of a token's text, where it has one.
fn text_bytes(alloc: Global, bytes: &[u8], token: &Token) -> Result<Option<Vec<u8>>, NoMemory>
    ensures { IfOk result (λ text. option_map (λ v. v.items) text ≡ text_of (lexeme bytes.now token.now)) }
{
    let found = token_bytes(bytes, token);
    match token.kind {
        TokenKind::Word => Ok(Some(folded(alloc, found)?)),
        TokenKind::QuotedName => Ok(Some(unquoted(alloc, b'"', found)?)),
        TokenKind::Text => Ok(Some(unquoted(alloc, b'\'', found)?)),
        _ => Ok(None),
    }
}

/// The text of a word, of a quoted name or of a text.
pub fn text_of(alloc: Global, bytes: &[u8], token: &Token) -> Result<Option<TextVal>, NoMemory>
    requires { IsText (text_of (lexeme bytes.now token.now)) }
    ensures { IfOk result (λ text. text ≡ text_of (lexeme bytes.now token.now)) }
{
    let Some(text) = text_bytes(alloc, bytes, token)? else {
        return Ok(None);
    };
    match String::from_utf8(text) {
        Ok(text) => Ok(Some(TextVal::from_string(text))),
        Err(_) => unreachable!(),
    }
}
