//! The tokens of a script, from its bytes.
#![tactic(auto)]

mod fault;
mod laws;
mod lexed;
mod lexer;
mod piece;
mod reserved;
mod scan;
mod token;
mod value;

pub use fault::LexFault;
pub use laws::{never_both, one_list, one_place, text_is_value, tokens_before, tokens_spelled};
pub use lexed::Lexed;
pub use lexer::lex;
pub use reserved::is_reserved;
pub use token::{Directive, Symbol, Token, TokenKind};
pub use value::line_at;
