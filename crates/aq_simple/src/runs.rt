//! Scripts of the whole grammar that the machine runs.

ghost use Rattle.std.specs.Prelude.{◌≡◌, None, IfOk, IfErr};
ghost use Rattle.aq_base.specs.declared.script.Script.{Script};
ghost use Rattle.aq_first_base.specs.declared.simple.SimpleScript.{SimpleScript};
ghost use Rattle.aq_simple.specs.Simple.{Runs, running, statement_line, not_built_line};
ghost use Rattle.aq_simple.specs.Steps.{Gives, IfNotBuilt};

use crate::conditions::fits_first_language;
use crate::fault::{FormFault, SimpleFault};
use crate::forms;
use crate::lines::refusal;
use aq_base::Script;
use aq_first_base::SimpleScript;
use std::alloc::Global;

fn running(alloc: Global, script: &Script) -> Result<SimpleScript, FormFault>
    ensures { Gives result (running script.now) }
{
    let simple = forms::simple_script(alloc, script)?;
    if !fits_first_language(&simple) {
        return Err(FormFault::NotSimple);
    }
    Ok(simple)
}

/// The script as the machine runs it, or the line of the first statement that leaves what the machine
/// runs. The line is 1 where no statement leaves it by itself.
pub fn simple_script(alloc: Global, script: &Script) -> Result<SimpleScript, SimpleFault>
    ensures runs { IfOk result (λ simple. Runs script.now simple) }
    ensures none { IfErr result (λ fault. IfNotBuilt fault (λ line. (simple : SimpleScript) → Runs script.now simple → ⊥)) }
    ensures line { IfErr result (λ fault. IfNotBuilt fault (λ line. line ≡ not_built_line script.now)) }
{
    match running(alloc, script) {
        Ok(simple) => Ok(simple),
        Err(FormFault::NoMemory) => Err(SimpleFault::NoMemory),
        Err(FormFault::NotSimple) => Err(refusal(alloc, script)),
    }
}

/// A script runs as one simple script at the most.
pub fn one_simple_script()
    ensures { (script : Script) (a b : SimpleScript) → Runs script a → Runs script b → a ≡ b }
{}

/// A script that runs has no statement with which it leaves what the machine runs.
pub fn no_line_leaves()
    ensures { (script : Script) (simple : SimpleScript) → Runs script simple → statement_line script ≡ None }
{}
