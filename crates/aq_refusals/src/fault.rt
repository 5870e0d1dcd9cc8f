//! Why a statement is refused.

ghost use Rattle.std.specs.Prelude.{◌≡◌};
ghost use Rattle.aq_refusals.specs.declared.fault.CatFault.TheVariants.{NoMemory};

use aq_base::SqlFault;
use std::alloc::{AllocError, AllocFailed};
use thiserror::Error;

/// Why a statement is refused.
#[derive(Debug, Drop, Error)]
pub enum CatFault {
    /// Memory ran out.
    #[error("out of memory")]
    NoMemory,
    /// The statement names what is not there, or contradicts what is there.
    #[error("refused")]
    Sql(SqlFault),
}

impl From<AllocError> for CatFault {
    ghost from_gives = { λ _ fault. fault ≡ NoMemory };

    fn from(_error: AllocError) -> CatFault {
        CatFault::NoMemory
    }
}

impl<T: Drop> From<AllocFailed<T>> for CatFault {
    ghost from_gives = { λ _ fault. fault ≡ NoMemory };

    fn from(_error: AllocFailed<T>) -> CatFault {
        CatFault::NoMemory
    }
}
