//! Why bytes are not all tokens.

ghost use Rattle.std.specs.Prelude.{◌≡◌};
ghost use Rattle.aq_lex.specs.declared.fault.LexFault.TheVariants.{NoMemory};

use std::alloc::AllocError;
use thiserror::Error;

/// Why no tokens were given.
#[derive(Debug, Drop, Error)]
pub enum LexFault {
    /// Memory ran out.
    #[error("out of memory")]
    NoMemory,
    /// At the byte at this place, counted from 0, no token begins.
    #[error("no token begins at byte {at}")]
    BadToken { at: usize },
}

impl From<AllocError> for LexFault {
    ghost from_gives = { λ _ fault. fault ≡ NoMemory };

    fn from(_error: AllocError) -> LexFault {
        LexFault::NoMemory
    }
}
