ghost use Rattle.std.specs.Prelude.{◌≡◌, ◌≤◌, ◌<◌, ◌∷◌, ◌++◌, ◌↔◌, ◌-◌, [], OnOk, OnErr, IfOk, IsErrOf, length, take, slice_get};
ghost use Rattle.std.specs.Borrow.{sem};
ghost use Rattle.std.specs.Option.{option_copied};
ghost use Rattle.aq_base.specs.Limits.{level_limit};
ghost use Rattle.aq_events.specs.Entries.{waiting_entry};
ghost use Rattle.aq_levels.specs.Stacks.{with_statement_event, cancelled_on_top, count_on_top, top_of};
ghost use Rattle.aq_levels.specs.declared.levels.LevelFault.TheVariants.{Limit};

use aq_base::{EventNo, NoMemory, Op, TabNo};
use aq_events::{Event, EventList};
use std::alloc::Global;
use std::marker::Model;

/// Why no level was opened.
#[derive(Clone, Copy, PartialEq, Eq)]
pub enum LevelFault {
    NoMemory,
    /// As many levels as may be are open.
    Limit,
}

/// The lists of the levels that are open, the first opened first.
#[derive(Drop)]
pub struct Levels {
    alloc: Global,
    lists: Vec<EventList>,
}

impl Model for Levels {
    ghost use Rattle.std.specs.Prelude.{List, length, ◌≤◌};
    ghost use Rattle.aq_events.specs.declared.entries.Entry.{Entry};
    ghost use Rattle.aq_base.specs.Limits.{level_limit};

    ghost Value = { List (List Entry) };

    ghost view = { λ levels. levels.lists.items };

    ghost invariant = { λ levels. length levels.lists.items ≤ level_limit };
}

impl Levels {
    ghost use Rattle.std.specs.Prelude.{◌≡◌, ◌≤◌, ◌<◌, ◌∷◌, ◌++◌, ◌↔◌, ◌-◌, [], OnOk, OnErr, IfOk, IsErrOf, length, take, slice_get};
    ghost use Rattle.std.specs.Borrow.{sem};
    ghost use Rattle.std.specs.Option.{option_copied};
    ghost use Rattle.aq_base.specs.Limits.{level_limit};
    ghost use Rattle.aq_events.specs.Entries.{waiting_entry};
    ghost use Rattle.aq_levels.specs.Stacks.{with_statement_event, cancelled_on_top, count_on_top, top_of};
    ghost use Rattle.aq_levels.specs.Lending.{LendsTop};
    ghost use Rattle.aq_levels.specs.declared.levels.LevelFault.TheVariants.{Limit};

    /// No level is open.
    pub fn new(alloc: Global) -> Levels
        ensures { result ≡ [] }
    {
        Levels {
            alloc,
            lists: Vec::new(alloc),
        }
    }

    /// Opens a level, and answers its number, counted from 1.
    pub fn push(&mut self) -> Result<u8, LevelFault>
        ensures ok { OnOk result (self.new ≡ self.old ++ [] ∷ []) }
        ensures number { IfOk result (λ number. number ≡ length self.new) }
        ensures err { OnErr result (self.new ≡ self.old) }
        ensures limit { IsErrOf result Limit ↔ (level_limit ≤ length self.old) }
    {
        if self.lists.len() >= 64 {
            return Err(LevelFault::Limit);
        }
        match self.lists.push(EventList::new(self.alloc)) {
            Ok(()) => Ok(self.lists.len() as u8),
            Err(_) => Err(LevelFault::NoMemory),
        }
    }

    /// Closes the level that was opened last, and drops its list.
    pub fn pop(&mut self)
        requires { 0 < length self.old }
        ensures { self.new ≡ take (length self.old - 1) self.old }
    {
        let _ = self.lists.pop();
    }

    /// Closes the levels above the given number of them.
    pub fn cut(&mut self, depth: u8)
        ensures { self.new ≡ take depth self.old }
    {
        self.lists.truncate(usize::from(depth));
    }

    /// The number of levels that are open.
    pub fn depth(&self) -> u8
        ensures { result ≡ length self.now }
    {
        self.lists.len() as u8
    }

    /// The list of the level that was opened last.
    pub fn newest(&self) -> Option<&EventList>
        ensures { option_copied result ≡ top_of self.now }
    {
        self.lists.last()
    }

    /// The list of the level that was opened last, to be changed.
    pub fn top(&mut self) -> Option<&mut EventList>
        ensures* writes_back { sem 𝓛 (LendsTop self.entry result) }
    {
        self.lists.last_mut()
    }

    /// Queues an event of a statement at the level that was opened last. The error is want of memory.
    pub fn stmt_event(&mut self, event: Event) -> Result<(), NoMemory>
        requires { 0 < length self.old }
        ensures ok { OnOk result (self.new ≡ with_statement_event event self.old) }
        ensures err { OnErr result (self.new ≡ self.old) }
    {
        let last = self.lists.len() - 1;
        self.lists[last].append(event)?;
        Ok(())
    }

    /// Drops the events of statements of a table and an operation from a number on that stand in the list of the
    /// level that was opened last, unless they are done. Answers how many it was.
    pub fn cancel(&mut self, table: TabNo, op: Op, from: EventNo) -> u64
        ensures levels { self.new ≡ cancelled_on_top table op from self.old }
        ensures count { result ≡ count_on_top table op from self.old }
    {
        if self.lists.len() == 0 {
            return 0;
        }
        let last = self.lists.len() - 1;
        self.lists[last].cancel_from(0, table, op, from)
    }
}
