//! Replaying a script by the default schedule.

ghost use Rattle.std.specs.Prelude.{◌≡◌, true, IfOk, IfErr};
ghost use Rattle.aq_first_base.specs.Scripts.{fits_first_language};
ghost use Rattle.aq_first_base.specs.declared.simple.SimpleScript.{SimpleScript};
ghost use Rattle.aq_simple.specs.Simple.{Runs, not_built_line};
ghost use Rattle.aqueue.specs.declared.task.Task.TheVariants.{Replay};
ghost use Rattle.aqueue.specs.Answers.{RunsAs, IsReplay, IsTextOf, IsRefusal, CannotBeDone, not_built};
ghost use Rattle.aqueue.specs.Faults.{IfScript};

use crate::fault::RunFault;
use crate::setup::set_up;
use aq_base::{Code, List, NoMemory, Script, SqlFault, TextVal};
use aq_first_base::SimpleScript;
use aq_first_journal::Shared;
use aq_first_machine::Machine;
use aq_script::one_reading;
use aq_simple::{SimpleFault, simple_script};
use std::alloc::Global;

fn replayed(alloc: Global, script: SimpleScript) -> Result<List<u8>, NoMemory>
    requires { fits_first_language script ≡ true }
    ensures { IfOk result (IsTextOf script) }
{
    let mut shared = Shared::new(alloc, Machine::open(alloc, script)?);
    shared.finish()?;
    shared.text()
}

fn not_built(alloc: Global) -> Result<SqlFault, NoMemory>
    ensures { IfOk result (λ fault. fault ≡ not_built) }
{
    Ok(SqlFault {
        code: Code(*b"0A000"),
        text: TextVal::new(alloc, "this form is not built")?,
        detail: None,
    })
}

/// What runs of a script, or the first line with which it leaves what runs.
fn running(alloc: Global, script: &Script) -> Result<SimpleScript, RunFault>
    ensures runs { IfOk result (λ simple. Runs script.now simple) }
    ensures line { IfErr result (λ fault. IfScript fault (λ line why. (line ≡ not_built_line script.now) × (why ≡ not_built))) }
    ensures none { IfErr result (λ fault. IfScript fault (λ line why. (simple : SimpleScript) → Runs script.now simple → ⊥)) }
{
    match simple_script(alloc, script) {
        Ok(simple) => Ok(simple),
        Err(SimpleFault::NoMemory) => Err(RunFault::NoMemory),
        Err(SimpleFault::NotBuilt { line }) => match not_built(alloc) {
            Ok(fault) => Err(RunFault::Script { line, fault }),
            Err(_) => Err(RunFault::NoMemory),
        },
    }
}

/// What runs of the script that bytes are, or the first line that is refused.
fn read_running(alloc: Global, bytes: &[u8]) -> Result<SimpleScript, RunFault>
    ensures runs { IfOk result (RunsAs bytes.now) }
    ensures refused { IfErr result (λ fault. IfScript fault (IsRefusal bytes.now Replay)) }
    ensures none { IfErr result (λ fault. IfScript fault (λ line why. CannotBeDone Replay bytes.now)) }
{
    one_reading();
    match set_up(alloc, bytes) {
        Ok(script) => running(alloc, &script),
        Err(fault) => Err(fault),
    }
}

/// The text of the script's run by the default schedule. It waits for nobody and always returns.
pub fn replay_script(alloc: Global, bytes: &[u8]) -> Result<List<u8>, RunFault>
    ensures replayed { IfOk result (IsReplay bytes.now) }
    ensures refused { IfErr result (λ fault. IfScript fault (IsRefusal bytes.now Replay)) }
    ensures none { IfErr result (λ fault. IfScript fault (λ line why. CannotBeDone Replay bytes.now)) }
{
    match read_running(alloc, bytes) {
        Ok(simple) => replayed(alloc, simple).map_err(|_| RunFault::NoMemory),
        Err(fault) => Err(fault),
    }
}
