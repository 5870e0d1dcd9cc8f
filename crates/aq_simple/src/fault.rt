//! Why there is no script of the forms that the machine runs.

ghost use Rattle.std.specs.Prelude.{◌≡◌};
ghost use Rattle.aq_simple.specs.declared.fault.FormFault.TheVariants.{NoMemory};

use std::alloc::{AllocError, AllocFailed};
use thiserror::Error;

/// Why a script is none of those that the machine runs.
#[derive(Debug, Drop, Error)]
pub enum SimpleFault {
    /// Memory ran out.
    #[error("out of memory")]
    NoMemory,
    /// The script leaves the forms that the machine runs: at which line, counted from 1.
    #[error("line {line} is not built")]
    NotBuilt { line: u64 },
}

/// Why a part of a script has no form that the machine runs.
#[derive(Debug, Drop)]
pub enum FormFault {
    /// Memory ran out.
    NoMemory,
    /// The part has another form.
    NotSimple,
}

impl From<AllocError> for FormFault {
    ghost from_gives = { λ _ fault. fault ≡ NoMemory };

    fn from(_error: AllocError) -> FormFault {
        FormFault::NoMemory
    }
}

impl<T: Drop> From<AllocFailed<T>> for FormFault {
    ghost from_gives = { λ _ fault. fault ≡ NoMemory };

    fn from(_error: AllocFailed<T>) -> FormFault {
        FormFault::NoMemory
    }
}
