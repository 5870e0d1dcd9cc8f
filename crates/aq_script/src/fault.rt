//! Why bytes are no script.

ghost use Rattle.std.specs.Prelude.{◌≡◌};
ghost use Rattle.aq_script.specs.declared.fault.ScriptFault.TheVariants.{NoMemory};

use aq_base::SqlFault;
use std::alloc::AllocError;
use thiserror::Error;

/// Why no script was read.
#[derive(Debug, Drop, Error)]
pub enum ScriptFault {
    /// Memory ran out.
    #[error("out of memory")]
    NoMemory,
    /// The bytes are no script: the line that is refused, counted from 1, and why.
    #[error("line {line} is refused")]
    Refused { line: u64, fault: SqlFault },
}

impl From<AllocError> for ScriptFault {
    ghost from_gives = { λ _ fault. fault ≡ NoMemory };

    fn from(_error: AllocError) -> ScriptFault {
        ScriptFault::NoMemory
    }
}
