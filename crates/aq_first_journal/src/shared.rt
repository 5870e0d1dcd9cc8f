//! A machine with the schedule that it has run.

ghost use Rattle.std.specs.Prelude.{◌≡◌, ℕ, ◌<◌, ◌^◌, length, [], ◌∷◌, ◌++◌, true, false, IfOk, OnOk, OnErr, MatchOption};
ghost use Rattle.aq_first_base.specs.Setup.{program_of};
ghost use Rattle.aq_first_run.specs.States.{opening};
ghost use Rattle.aq_first_run.specs.Steps.{step, is_enabled};
ghost use Rattle.aq_first_run.specs.Runs.{IsLeastEnabled, run, IsSchedule};
ghost use Rattle.aq_first_run.specs.Texts.{text as run_text};
ghost use Rattle.aq_first_journal.specs.Journals.{Journal, IsJournal, Finishes, GoesOn};

use crate::text::text;
use aq_base::{List, NoMemory};
use aq_first_machine::Machine;
use aq_print::Runs;
use aq_xids::SessNo;
use std::alloc::Global;
use std::marker::Model;

/// A machine and its schedule. Its type keeps that the machine stands for the run of its own script by this schedule.
#[derive(Drop)]
pub struct Shared {
    machine: Machine,
    schedule: Runs,
    alloc: Global,
}

impl Model for Shared {
    ghost use Rattle.aq_first_journal.specs.Journals.{Journal, IsJournal};

    ghost Value = { Journal };

    ghost view = { λ s. record { script = s.machine.script; state = s.machine.state; schedule = s.schedule } };

    ghost invariant = { λ s. IsJournal s.machine.script s.machine.state s.schedule };
}

fn least_enabled(machine: &Machine) -> Option<SessNo>
    ensures { MatchOption result ((s : ℕ) → is_enabled machine.now.state s ≡ false) (λ s. IsLeastEnabled machine.now.state s.0) }
{
    for s in 0..machine.sessions() {
        if machine.enabled(SessNo(s)) {
            return Some(SessNo(s));
        }
    }
    None
}

impl Shared {
    /// A machine as it was opened, with no step yet.
    pub fn new(alloc: Global, machine: Machine) -> Shared
        requires { machine.state ≡ opening (program_of machine.script) }
        ensures { result ≡ record { script = machine.script; state = machine.state; schedule = [] } }
    {
        Shared {
            machine,
            schedule: Runs::new(alloc),
            alloc,
        }
    }

    /// One step of a session, which joins the schedule. The error is want of memory.
    pub fn advance(&mut self, s: SessNo) -> Result<(), NoMemory>
        requires { is_enabled self.old.state s.0 ≡ true }
        ensures ok { OnOk result (self.new ≡ record self.old { state = step (program_of self.old.script) self.old.state s.0; schedule = self.old.schedule ++ s.0 ∷ [] }) }
        ensures err { OnErr result (self.new ≡ self.old) }
    {
        self.schedule.push(s)?;
        if let Err(fault) = self.machine.step(s) {
            self.schedule.pop();
            return Err(fault);
        }
        Ok(())
    }

    /// Steps the least enabled session until all have ended. After want of memory the steps taken so far stand.
    pub fn finish(&mut self) -> Result<(), NoMemory>
        ensures ok { OnOk result (Finishes self.old self.new) }
        ensures err { OnErr result (GoesOn self.old self.new) }
    {
        'steps: while let Some(s) = least_enabled(&self.machine) {
            self.advance(s)?;
        }
        Ok(())
    }

    /// The machine, which stands for the run of its script by the schedule.
    pub fn machine(&self) -> &Machine
        ensures state { result.now.state ≡ self.now.state }
        ensures script { result.now.script ≡ self.now.script }
        ensures replay { self.now.state ≡ run (program_of self.now.script) self.now.schedule }
        ensures can_run { IsSchedule (program_of self.now.script) self.now.schedule }
    {
        &self.machine
    }

    /// The sessions that stepped, in order.
    pub fn schedule(&self) -> &Runs
        ensures { result.now ≡ self.now.schedule }
    {
        &self.schedule
    }

    /// The text of the run. The error is want of memory.
    pub fn text(&self) -> Result<List<u8>, NoMemory>
        ensures text { IfOk result (λ output. output ≡ run_text (program_of self.now.script) self.now.schedule) }
        ensures short { length self.now.schedule < 2 ^ 64 }
    {
        text(self.alloc, &self.machine, self.schedule.as_slice())
    }
}
