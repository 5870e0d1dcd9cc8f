//! Why bytes have no text.

ghost use Rattle.std.specs.Prelude.{◌≡◌};
ghost use Rattle.aqueue.specs.Faults as faults;

use aq_base::SqlFault;
use aq_define::BuildFault;
use aq_script::ScriptFault;
use thiserror::Error;

/// Why bytes have no text of a run, and no canonical text.
#[derive(Debug, Drop, Error)]
pub enum RunFault {
    /// Want of memory.
    #[error("out of memory")]
    NoMemory,
    /// The bytes are no script, a statement of its setup is refused, or it isn't run yet: the line that is refused, counted
    /// from 1, and why.
    #[error("line {line} is refused")]
    Script { line: u64, fault: SqlFault },
}

pub(crate) fn unread(fault: ScriptFault) -> RunFault
    ensures { result ≡ faults.unread fault }
{
    match fault {
        ScriptFault::NoMemory => RunFault::NoMemory,
        ScriptFault::Refused { line, fault } => RunFault::Script { line, fault },
    }
}

pub(crate) fn not_set_up(fault: BuildFault) -> RunFault
    ensures { result ≡ faults.not_set_up fault }
{
    match fault {
        BuildFault::NoMemory => RunFault::NoMemory,
        BuildFault::Setup { line, fault } => RunFault::Script { line, fault },
    }
}
