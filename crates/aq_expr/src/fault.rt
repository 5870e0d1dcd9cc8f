//! Why an expression has no value.

ghost use Rattle.std.specs.Prelude.{◌≡◌};
ghost use Rattle.aq_expr.specs.declared.fault.EvalFault.TheVariants.{NoMemory};

use aq_base::{Kind, Value};
use std::alloc::AllocError;
use std::fmt;
use thiserror::Error;

/// Why an expression has no value.
#[derive(Drop, Error)]
pub enum EvalFault {
    /// Memory ran out.
    #[error("out of memory")]
    NoMemory,
    /// A number is out of the range of a kind, integer or bigint.
    #[error("out of range")]
    OutOfRange { kind: Kind },
}

/// The text of the fault.
impl fmt::Debug for EvalFault {
    fn fmt<W: fmt::Write>(&self, f: &mut fmt::Formatter<W>) -> fmt::Result {
        write!(f, "{self}")
    }
}

impl From<AllocError> for EvalFault {
    ghost from_gives = { λ _ fault. fault ≡ NoMemory };

    fn from(_error: AllocError) -> EvalFault {
        EvalFault::NoMemory
    }
}

/// A value, or the kind of which a number is out of range.
pub(crate) type Answer = Result<Value, Kind>;
