//! Scripts in canonical form.

ghost use Rattle.std.specs.Prelude.{IfOk, IfErr};
ghost use Rattle.aqueue.specs.declared.task.Task.TheVariants.{Check};
ghost use Rattle.aqueue.specs.Answers.{IsChecked, IsRefusal, CannotBeDone};
ghost use Rattle.aqueue.specs.Faults.{IfScript};

use crate::fault::RunFault;
use crate::setup::set_up;
use aq_base::List;
use aq_print::print_script;
use std::alloc::Global;

/// The script that the bytes are, in canonical form. Its setup is defined, and nothing runs.
pub fn check_script(alloc: Global, bytes: &[u8]) -> Result<List<u8>, RunFault>
    ensures checked { IfOk result (IsChecked bytes.now) }
    ensures refused { IfErr result (λ fault. IfScript fault (IsRefusal bytes.now Check)) }
    ensures none { IfErr result (λ fault. IfScript fault (λ line why. CannotBeDone Check bytes.now)) }
{
    match set_up(alloc, bytes) {
        Ok(script) => print_script(alloc, &script).map_err(|_| RunFault::NoMemory),
        Err(fault) => Err(fault),
    }
}
