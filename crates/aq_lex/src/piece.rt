//! The pieces of which a script is put together.

use crate::token::TokenKind;

/// What stands at a place of a script.
#[derive(Clone, Copy)]
pub enum Piece {
    /// A space, a tab, a CR or an LF.
    Blank,
    /// A comment.
    Comment,
    /// A token.
    Token(TokenKind),
}

/// A piece that goes on as long as its bytes are of one class.
#[derive(Clone, Copy)]
pub enum Class {
    /// A letter, a digit, `_` or `$`.
    InWord,
    /// A digit.
    Digit,
    /// Any byte but an LF.
    InLine,
}
