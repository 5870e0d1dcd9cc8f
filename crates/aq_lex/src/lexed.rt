//! Tokens with the bytes that they stand for.

ghost use Rattle.std.specs.Prelude.{◌≡◌, [], ◌↔◌, length, take, drop, IsTrue, IfOk, option_map};
ghost use Rattle.std.specs.List.{list_any};
ghost use Rattle.aq_base.specs.Names.{reserved_words};
ghost use Rattle.aq_lex.specs.Tokens.{Lexes};
ghost use Rattle.aq_lex.specs.Lexemes.{lexemes, first_line, first_kind, first_text, first_integer, first_is_word, first_is_symbol, first_is_directive};

use crate::reserved::RESERVED_WORDS;
use crate::token::{Directive, Symbol, Token, TokenKind};
use crate::value::{
    first_line, integer_of, is_directive, is_symbol, is_word, next_line, text_len, text_of,
};
use aq_base::{NoMemory, TextVal};
use std::alloc::Global;
use std::marker::Model;

/// Tokens of a script with its bytes. Contracts see the lexemes with their lines.
#[derive(Drop)]
pub struct Lexed<'a> {
    bytes: &'a [u8],
    tokens: &'a [Token],
    /// The line on which the first token begins.
    line: u64,
}

impl<'a> Model for Lexed<'a> {
    ghost use Rattle.std.specs.Prelude.{List};
    ghost use Rattle.aq_lex.specs.Lexemes.{PlacedLexeme};
    ghost use Rattle.aq_lex.specs.Lexed.{lexed_view, IsLexed};

    ghost Value = { List PlacedLexeme };

    ghost view = { lexed_view };

    ghost invariant = { IsLexed };
}

fn first_tokens(tokens: &[Token], most: usize) -> &[Token]
    ensures { result.now ≡ take most tokens.now }
{
    tokens.get(..most).unwrap_or(tokens)
}

fn tokens_behind(tokens: &[Token], count: usize) -> &[Token]
    ensures { result.now ≡ drop count tokens.now }
{
    tokens.get(count..).unwrap_or(&[])
}

/// Whether one of the words, in lower case, is the first token.
fn is_among(tokens: &Lexed<'_>, words: &[&str]) -> bool
    ensures { result ≡ list_any (λ word. first_is_word word.now tokens.now) words.now }
{
    words.iter().any(|word| tokens.is_word(word.as_bytes()))
}

impl<'a> Lexed<'a> {
    /// The tokens that `lex` gave for bytes.
    pub fn new(bytes: &'a [u8], tokens: &'a [Token]) -> Lexed<'a>
        requires { Lexes bytes.now tokens.now }
        ensures { result ≡ lexemes bytes.now tokens.now }
    {
        let line = first_line(bytes, tokens);
        Lexed {
            bytes,
            tokens,
            line,
        }
    }

    /// The number of tokens.
    pub fn len(&self) -> usize
        ensures { result ≡ length self.now }
    {
        self.tokens.len()
    }

    /// Whether there is no token.
    pub fn is_empty(&self) -> bool
        ensures { IsTrue result ↔ (self.now ≡ []) }
    {
        self.tokens.is_empty()
    }

    /// What the first token is.
    pub fn kind(&self) -> Option<TokenKind>
        ensures { result ≡ first_kind self.now }
    {
        match self.tokens.first() {
            Some(token) => Some(token.kind),
            None => None,
        }
    }

    /// The line on which the first token begins, counted from 1.
    pub fn line(&self) -> Option<u64>
        ensures { result ≡ first_line self.now }
    {
        if self.tokens.is_empty() {
            None
        } else {
            Some(self.line)
        }
    }

    /// The same tokens again.
    pub fn copied(&self) -> Lexed<'a>
        ensures { result ≡ self.now }
    {
        Lexed {
            bytes: self.bytes,
            tokens: self.tokens,
            line: self.line,
        }
    }

    /// The tokens behind the first.
    pub fn rest(&self) -> Lexed<'a>
        ensures { result ≡ drop 1 self.now }
    {
        let Some((first, others)) = self.tokens.split_first() else {
            return self.copied();
        };
        Lexed {
            bytes: self.bytes,
            tokens: others,
            line: next_line(self.bytes, self.line, first.from, others),
        }
    }

    /// The first tokens, so many at the most.
    pub fn front(&self, most: usize) -> Lexed<'a>
        ensures { result ≡ take most self.now }
    {
        Lexed {
            bytes: self.bytes,
            tokens: first_tokens(self.tokens, most),
            line: self.line,
        }
    }

    /// The tokens behind so many.
    pub fn behind(&self, count: usize) -> Lexed<'a>
        ensures { result ≡ drop count self.now }
    {
        let Some(first) = self.tokens.first() else {
            return self.copied();
        };
        let others = tokens_behind(self.tokens, count);
        Lexed {
            bytes: self.bytes,
            tokens: others,
            line: next_line(self.bytes, self.line, first.from, others),
        }
    }

    /// Whether the first token is this word, in lower case.
    pub fn is_word(&self, word: &[u8]) -> bool
        ensures { result ≡ first_is_word word.now self.now }
    {
        match self.tokens.first() {
            Some(token) => is_word(self.bytes, token, word),
            None => false,
        }
    }

    /// Whether the first token is one of these words, in lower case.
    pub fn is_one_of(&self, words: &[&str]) -> bool
        ensures { result ≡ list_any (λ word. first_is_word word.now self.now) words.now }
    {
        is_among(self, words)
    }

    /// Whether the first token is a word that is no name.
    pub fn is_reserved(&self) -> bool
        ensures { result ≡ list_any (λ word. first_is_word word self.now) reserved_words }
    {
        is_among(self, &RESERVED_WORDS)
    }

    /// Whether the first token is this symbol.
    pub fn is_symbol(&self, symbol: Symbol) -> bool
        ensures { result ≡ first_is_symbol symbol self.now }
    {
        match self.tokens.first() {
            Some(token) => is_symbol(self.bytes, token, symbol),
            None => false,
        }
    }

    /// Whether the first token is this directive.
    pub fn is_directive(&self, directive: Directive) -> bool
        ensures { result ≡ first_is_directive directive self.now }
    {
        match self.tokens.first() {
            Some(token) => is_directive(self.bytes, token, directive),
            None => false,
        }
    }

    /// The number that the first token is, where it is an integer that 64 bits with a sign have.
    pub fn integer(&self) -> Option<i64>
        ensures { result ≡ first_integer self.now }
    {
        let token = self.tokens.first()?;
        integer_of(self.bytes, token)
    }

    /// The length of the first token's text, where it has one.
    pub fn text_len(&self) -> Option<usize>
        ensures { result ≡ option_map length (first_text self.now) }
    {
        let token = self.tokens.first()?;
        text_len(self.bytes, token)
    }

    /// The text of the first token, where it is a word, a quoted name or a text.
    pub fn text(&self, alloc: Global) -> Result<Option<TextVal>, NoMemory>
        ensures { IfOk result (λ text. text ≡ first_text self.now) }
    {
        match self.tokens.first() {
            Some(token) => text_of(alloc, self.bytes, token),
            None => Ok(None),
        }
    }
}
