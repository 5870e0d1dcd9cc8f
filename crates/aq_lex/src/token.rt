//! Tokens, as the places of their bytes.

/// A symbol (PostgreSQL manual, section "Lexical Structure").
#[derive(Clone, Copy, PartialEq, Eq)]
pub enum Symbol {
    OpenParen,
    CloseParen,
    Comma,
    Semicolon,
    Dot,
    Plus,
    Minus,
    Times,
    Equal,
    Unequal,
    Less,
    AtMost,
    Greater,
    AtLeast,
    DollarQuote,
}

/// A directive, with which a section of a script begins.
#[derive(Clone, Copy, PartialEq, Eq)]
pub enum Directive {
    Setup,
    Session,
    Schedule,
}

/// What a token is.
#[derive(Clone, Copy, PartialEq, Eq)]
pub enum TokenKind {
    /// A word in letters of either case.
    Word,
    /// A name between double quotes.
    QuotedName,
    /// Digits.
    Integer,
    /// A text between single quotes.
    Text,
    Symbol(Symbol),
    Directive(Directive),
}

/// A token: its bytes are those of the script from `from` to before `to`.
#[derive(Clone, Copy)]
pub struct Token {
    pub kind: TokenKind,
    pub from: usize,
    pub to: usize,
}
