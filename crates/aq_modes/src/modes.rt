ghost use Rattle.std.specs.Prelude.{◌≡◌, ◌∷◌, ◌++◌, ◌<◌, [], IfOk, OnOk, OnErr, length};
ghost use Rattle.aq_base.specs.ConstraintModes.{no_modes, is_deferred_mode, with_all, with_some};
ghost use Rattle.aq_modes.specs.Settings.{saving, returned};

use crate::log::{Entry, Present, back_to_last_mark, replace_each};
use aq_base::{ConNo, Decl, NoMemory};
use std::alloc::Global;
use std::collections::BTreeMap;
use std::marker::Model;
use std::mem;

/// A place among what a transaction has saved, counted from 0.
#[derive(Clone, Copy)]
pub struct ModeMark {
    number: usize,
}

impl Model for ModeMark {
    ghost use Rattle.std.specs.Prelude.{ℕ};

    ghost Value = { ℕ };

    ghost view = { λ mark. mark.number };

    ghost inverse = { λ n. record { number = n } };
}

/// The settings of a transaction's constraints, and those that it has saved. A return takes no memory.
#[derive(Drop)]
pub struct Modes {
    alloc: Global,
    present: Present,
    log: Vec<Entry>,
    marks: usize,
}

impl Model for Modes {
    ghost use Rattle.std.specs.Prelude.{◌≡◌, length};
    ghost use Rattle.aq_modes.specs.Settings.{Settings};

    ghost Value = { Settings };

    ghost use Rattle.aq_modes.specs.Log.{modes_of, saved_from};

    ghost view = { λ m. record { modes = modes_of m.present; saved = saved_from m.log.items (modes_of m.present) } };

    ghost invariant = { λ m. m.marks ≡ length (saved_from m.log.items (modes_of m.present)) };
}

impl Modes {
    /// No setting, so that declarations hold.
    pub fn new(alloc: Global) -> Modes
        ensures { result ≡ record { modes = no_modes; saved = [] } }
    {
        Modes {
            alloc,
            present: Present {
                all: None,
                own: BTreeMap::new(alloc),
            },
            log: Vec::new(alloc),
            marks: 0,
        }
    }

    /// Whether the events of a constraint are deferred now.
    pub fn mode(&self, con: ConNo, decl: Decl) -> bool
        ensures { result ≡ is_deferred_mode self.now.modes con decl }
    {
        if !decl.deferrable {
            return false;
        }
        match self.present.own.get(&con.get()) {
            Some(deferred) => *deferred,
            None => self.present.all.unwrap_or(decl.deferred),
        }
    }

    /// Sets ALL, which drops the settings of single constraints. The error is want of memory.
    pub fn set_all(&mut self, deferred: bool) -> Result<(), NoMemory>
        ensures ok { OnOk result (self.new ≡ record self.old { modes = with_all deferred self.old.modes }) }
        ensures err { OnErr result (self.new ≡ self.old) }
    {
        self.log.reserve(1)?;
        let next = Present {
            all: Some(deferred),
            own: BTreeMap::new(self.alloc),
        };
        let replaced = mem::replace(&mut self.present, next);
        self.log.push_reserved(Entry::All(replaced));
        Ok(())
    }

    /// Sets some constraints. The error is want of memory.
    pub fn set_some(&mut self, cons: &[ConNo], deferred: bool) -> Result<(), NoMemory>
        ensures ok { OnOk result (self.new ≡ record self.old { modes = with_some cons.now deferred self.old.modes }) }
        ensures err { OnErr result (self.new ≡ self.old) }
    {
        self.log.reserve(1)?;
        let before = replace_each(self.alloc, &mut self.present.own, cons, deferred)?;
        self.log.push_reserved(Entry::Each(before));
        Ok(())
    }

    /// Saves the settings, and answers the mark to return by. The error is want of memory.
    pub fn save(&mut self) -> Result<ModeMark, NoMemory>
        ensures ok { OnOk result (self.new ≡ saving self.old) }
        ensures mark { IfOk result (λ mark. mark ≡ length self.old.saved) }
        ensures err { OnErr result (self.new ≡ self.old) }
    {
        let number = self.marks;
        let Some(marks) = number.checked_add(1) else {
            return Err(NoMemory);
        };
        self.log.push(Entry::Mark)?;
        self.marks = marks;
        Ok(ModeMark { number })
    }

    /// Returns to the settings at a mark. What was saved later is dropped, and the mark stays.
    pub fn restore(&mut self, mark: ModeMark)
        requires { mark < length self.old.saved }
        ensures { self.new ≡ returned mark self.old }
    {
        back_to_last_mark(&mut self.present, &mut self.log);
        let mut marks = self.marks - 1;
        'marks: while marks > mark.number {
            back_to_last_mark(&mut self.present, &mut self.log);
            marks -= 1;
        }
        self.log.push_reserved(Entry::Mark);
        self.marks = marks + 1;
    }
}
