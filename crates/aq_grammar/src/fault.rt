//! Why a form could not be read.

ghost use Rattle.std.specs.Prelude.{◌≡◌, length};
ghost use Rattle.aq_grammar.specs.declared.fault.ReadFault.TheVariants.{NoMemory, Syntax};

use aq_base::SqlFault;
use aq_lex::Lexed;
use std::alloc::{AllocError, AllocFailed};

/// Why a form could not be read, with the number of tokens from the refused one on.
#[derive(Drop)]
pub enum ReadFault {
    /// Memory ran out.
    NoMemory,
    /// No form goes on with the token, or the tokens end too early.
    Syntax { left: usize },
    /// A form that is known and not supported begins there, or a limit is passed.
    Refused { left: usize, fault: SqlFault },
}

impl From<AllocError> for ReadFault {
    ghost from_gives = { λ _ fault. fault ≡ NoMemory };

    fn from(_error: AllocError) -> ReadFault {
        ReadFault::NoMemory
    }
}

impl<T: Drop> From<AllocFailed<T>> for ReadFault {
    ghost from_gives = { λ _ fault. fault ≡ NoMemory };

    fn from(_error: AllocFailed<T>) -> ReadFault {
        ReadFault::NoMemory
    }
}

/// No form goes on with the first of the tokens.
pub fn syntax(tokens: &Lexed<'_>) -> ReadFault
    ensures { result ≡ Syntax (length tokens.now) }
{
    ReadFault::Syntax { left: tokens.len() }
}
