ghost use Rattle.std.specs.Prelude.{◌≡◌, ◌≤◌, ◌<◌, ◌+◌, ◌∷◌, ◌++◌, [], OnOk, OnErr, IfSome, length, drop, take, slice_get};
ghost use Rattle.std.specs.Option.{option_copied};
ghost use Rattle.aq_events.specs.Entries.{waiting_entry, events_of, round_of, first_place, done_at, finished, removed, without_waiting_from, unmarked_from, cancelled_from, count_cancelled, marked_from, count_marked};
ghost use Rattle.std.specs.declared.option.Option.TheVariants.{Some};

use crate::entries::{Entry, Fate, Turn, done, mark_from, place_from, turn_from};
use crate::event::Event;
use aq_base::{EventNo, NoMemory, Op, TabNo};
use std::alloc::Global;
use std::marker::Model;

/// A list of events, each with what has become of it. An event stays at its place until the list is cut.
#[derive(Drop)]
pub struct EventList {
    entries: Vec<Entry>,
}

impl Model for EventList {
    ghost use Rattle.std.specs.Prelude.{List};
    ghost use Rattle.aq_events.specs.declared.entries.Entry.{Entry as Kept};

    ghost Value = { List Kept };

    ghost view = { λ list. list.entries.items };
}

impl EventList {
    /// The empty list.
    pub fn new(alloc: Global) -> EventList
        ensures { result ≡ [] }
    {
        EventList {
            entries: Vec::new(alloc),
        }
    }

    /// Puts an event at the end, where it waits. The error is want of memory.
    pub fn append(&mut self, event: Event) -> Result<(), NoMemory>
        ensures ok { OnOk result (self.new ≡ self.old ++ waiting_entry event ∷ []) }
        ensures err { OnErr result (self.new ≡ self.old) }
    {
        self.entries.push(Entry {
            event,
            fate: Fate::Waiting,
        })?;
        Ok(())
    }

    /// The number of events, with those that are done or dropped.
    pub fn len(&self) -> u64
        ensures { result ≡ length self.now }
    {
        self.entries.len() as u64
    }

    /// The event at a place, counted from 0.
    pub fn at(&self, place: u64) -> &Event
        requires { place < length self.now }
        ensures { slice_get (events_of self.now) place ≡ Some result.now }
    {
        &self.entries[place as usize].event
    }

    /// Lets a firing take the events that are picked, of those that wait. Answers how many it was.
    pub fn mark(&mut self, pick: &[bool], firing: u32) -> u64
        requires { length pick.now ≡ length self.old }
        ensures list { self.new ≡ marked_from 0 pick.now firing self.old }
        ensures count { result ≡ count_marked pick.now self.old }
    {
        mark_from(&mut self.entries, 0, pick, firing)
    }

    /// As `mark`, for the events from a place on.
    pub fn mark_from(&mut self, from: u64, pick: &[bool], firing: u32) -> u64
        requires place { from ≤ length self.old }
        requires picks { length pick.now ≡ length (drop from self.old) }
        ensures list { self.new ≡ marked_from from pick.now firing self.old }
        ensures count { result ≡ count_marked pick.now (drop from self.old) }
    {
        mark_from(&mut self.entries, from as usize, pick, firing)
    }

    /// The first event that a firing has taken and that is not done.
    pub fn next(&self, firing: u32) -> Option<&Event>
        ensures { option_copied result ≡ slice_get (round_of firing self.now) 0 }
    {
        let place = place_from(&self.entries, 0, firing);
        match self.entries.get(place) {
            None => None,
            Some(entry) => Some(&entry.event),
        }
    }

    /// The place of the first event from a place on that a firing has taken and that is not done, or the length.
    pub fn place_from(&self, from: u64, firing: u32) -> u64
        requires { from ≤ length self.now }
        ensures { result ≡ from + first_place firing (drop from self.now) }
    {
        place_from(&self.entries, from as usize, firing) as u64
    }

    /// The event with this number is done, if a firing has taken it.
    pub fn done(&mut self, n: EventNo)
        ensures { self.new ≡ finished n self.old }
    {
        let _ = turn_from(&mut self.entries, 0, &Turn::Finish(n));
    }

    /// The event at a place is done, if a firing has taken it.
    pub fn done_at(&mut self, place: u64)
        requires { place < length self.old }
        ensures { self.new ≡ done_at place self.old }
    {
        let entry = &mut self.entries[place as usize];
        entry.fate = done(entry.fate);
    }

    /// Drops the event with this number, unless it is done.
    pub fn drop_event(&mut self, n: EventNo)
        ensures { self.new ≡ removed n self.old }
    {
        let _ = turn_from(&mut self.entries, 0, &Turn::Remove(n));
    }

    /// Drops the events from a place on that wait: they have gone elsewhere.
    pub fn drop_waiting_from(&mut self, from: u64)
        requires { from ≤ length self.old }
        ensures { self.new ≡ without_waiting_from from self.old }
    {
        let _ = turn_from(&mut self.entries, from as usize, &Turn::RemoveWaiting);
    }

    /// Drops a statement's events for a table and an operation that have this number or a higher one and stand
    /// at a place or behind it, unless they are done. Answers how many it was.
    pub fn cancel_from(&mut self, from: u64, table: TabNo, op: Op, n: EventNo) -> u64
        requires { from ≤ length self.old }
        ensures list { self.new ≡ cancelled_from from table op n self.old }
        ensures count { result ≡ count_cancelled table op n (drop from self.old) }
    {
        turn_from(
            &mut self.entries,
            from as usize,
            &Turn::Cancel { table, op, from: n },
        )
    }

    /// Cuts the list back to an earlier length.
    pub fn cut(&mut self, len: u64)
        ensures { self.new ≡ take len self.old }
    {
        self.entries.truncate(len as usize);
    }

    /// What a firing from this number on has taken waits again, done or not.
    pub fn unmark_from(&mut self, firing: u32)
        ensures { self.new ≡ unmarked_from 0 firing self.old }
    {
        let _ = turn_from(&mut self.entries, 0, &Turn::Unmark(firing));
    }

    /// As `unmark_from`, for the events from a place on.
    pub fn unmark_behind(&mut self, from: u64, firing: u32)
        requires { from ≤ length self.old }
        ensures { self.new ≡ unmarked_from from firing self.old }
    {
        let _ = turn_from(&mut self.entries, from as usize, &Turn::Unmark(firing));
    }
}
