//! The script that bytes are, where no statement of its setup is refused.

ghost use Rattle.std.specs.Prelude.{IfOk, IfErr};
ghost use Rattle.aqueue.specs.declared.task.Task.{Task};
ghost use Rattle.aqueue.specs.Answers.{IsSetUp, IsRefusal, CannotBeDone};
ghost use Rattle.aqueue.specs.Faults.{IfScript};

use crate::fault::{RunFault, not_set_up, unread};
use aq_base::Script;
use aq_define::build;
use aq_script::{one_reading, read_script};
use std::alloc::Global;

/// The script that the bytes are, or the line that is refused.
pub(crate) fn set_up(alloc: Global, bytes: &[u8]) -> Result<Script, RunFault>
    ensures set_up { IfOk result (IsSetUp bytes.now) }
    ensures refused { IfErr result (λ fault. IfScript fault (λ line why. (task : Task) → IsRefusal bytes.now task line why)) }
    ensures none { IfErr result (λ fault. IfScript fault (λ line why. (task : Task) → CannotBeDone task bytes.now)) }
{
    one_reading();
    match read_script(alloc, bytes) {
        Ok(script) => match build(alloc, &script, &[]) {
            Ok(_) => Ok(script),
            Err(fault) => Err(not_set_up(fault)),
        },
        Err(fault) => Err(unread(fault)),
    }
}
