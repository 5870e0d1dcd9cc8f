//! What becomes of the entries of a list, one after the other.

ghost use Rattle.std.specs.Prelude.{◌≡◌, ◌≤◌, ◌+◌, length, drop, if◌then◌else◌};
ghost use Rattle.aq_events.specs.Entries.{waits, is_in, is_owed, done, first_place, is_taken_since, is_cancelled, turns, target, turned, turned_from, count_turned, marks, marked_as, marked_from, count_marked};

use crate::event::Event;
use aq_base::{EventNo, Op, TabNo};

/// What has become of an event: it waits, a firing has taken it, it is done, or it was dropped.
#[derive(Clone, Copy, PartialEq, Eq)]
pub enum Fate {
    Waiting,
    Taken(u32),
    Done(u32),
    Dropped,
}

/// An event and what has become of it.
#[derive(Drop)]
pub struct Entry {
    pub event: Event,
    pub fate: Fate,
}

/// What happens to entries.
#[derive(Clone, Copy)]
pub(crate) enum Turn {
    /// The event with this number is done, if a firing has taken it.
    Finish(EventNo),
    /// The event with this number is dropped, unless it is done.
    Remove(EventNo),
    /// What waits is dropped.
    RemoveWaiting,
    /// What a firing from this number on has taken waits again.
    Unmark(u32),
    /// A statement's events for a table and an operation, from this number on, are dropped, unless they are done.
    Cancel { table: TabNo, op: Op, from: EventNo },
}

fn is_owed(fate: Fate) -> bool
    ensures { result ≡ is_owed fate }
{
    match fate {
        Fate::Waiting | Fate::Taken(_) => true,
        Fate::Done(_) | Fate::Dropped => false,
    }
}

fn is_in(fate: Fate, firing: u32) -> bool
    ensures { result ≡ is_in firing fate }
{
    match fate {
        Fate::Taken(by) => by == firing,
        Fate::Waiting | Fate::Done(_) | Fate::Dropped => false,
    }
}

fn is_taken_since(fate: Fate, firing: u32) -> bool
    ensures { result ≡ is_taken_since firing fate }
{
    match fate {
        Fate::Taken(by) | Fate::Done(by) => firing <= by,
        Fate::Waiting | Fate::Dropped => false,
    }
}

pub(crate) fn is_cancelled(entry: &Entry, table: TabNo, op: Op, from: EventNo) -> bool
    ensures { result ≡ is_cancelled table op from entry.now }
{
    let event = &entry.event;
    event.row.is_none()
        && event.table == table
        && event.op == op
        && from <= event.no
        && is_owed(entry.fate)
}

fn turns(entry: &Entry, turn: &Turn) -> bool
    ensures { result ≡ turns turn.now entry.now }
{
    match *turn {
        Turn::Finish(no) => entry.event.no == no && matches!(entry.fate, Fate::Taken(_)),
        Turn::Remove(no) => entry.event.no == no && is_owed(entry.fate),
        Turn::RemoveWaiting => entry.fate == Fate::Waiting,
        Turn::Unmark(firing) => is_taken_since(entry.fate, firing),
        Turn::Cancel { table, op, from } => is_cancelled(entry, table, op, from),
    }
}

/// What is taken is done.
pub(crate) fn done(fate: Fate) -> Fate
    ensures { result ≡ done fate }
{
    match fate {
        Fate::Taken(firing) => Fate::Done(firing),
        _ => fate,
    }
}

fn target(fate: Fate, turn: &Turn) -> Fate
    ensures { result ≡ target turn.now fate }
{
    match turn {
        Turn::Finish(_) => done(fate),
        Turn::Unmark(_) => Fate::Waiting,
        _ => Fate::Dropped,
    }
}

fn turn_one(entry: &mut Entry, turn: &Turn) -> u64
    ensures entry { entry.new ≡ turned turn.now entry.old }
    ensures counts { result ≡ (if turns turn.now entry.old then 1 else 0) }
{
    if !turns(entry, turn) {
        return 0;
    }
    entry.fate = target(entry.fate, turn);
    1
}

/// Turns the entries from a place on, and answers how many it was.
pub(crate) fn turn_from(entries: &mut [Entry], from: usize, turn: &Turn) -> u64
    requires { from ≤ length entries.old }
    ensures entries { entries.new ≡ turned_from from turn.now entries.old }
    ensures count { result ≡ count_turned turn.now (drop from entries.old) }
{
    let mut count = 0;
    'places: for place in from..entries.len() {
        count += turn_one(&mut entries[place], turn);
    }
    count
}

fn mark_one(entry: &mut Entry, pick: bool, firing: u32) -> u64
    ensures entry { entry.new ≡ marked_as pick firing entry.old }
    ensures counts { result ≡ (if marks pick entry.old then 1 else 0) }
{
    if !pick || entry.fate != Fate::Waiting {
        return 0;
    }
    entry.fate = Fate::Taken(firing);
    1
}

/// Lets a firing take those of the entries from a place on that are picked and wait, and answers how many it was.
pub(crate) fn mark_from(entries: &mut [Entry], from: usize, picks: &[bool], firing: u32) -> u64
    requires place { from ≤ length entries.old }
    requires picks { length picks.now ≡ length (drop from entries.old) }
    ensures entries { entries.new ≡ marked_from from picks.now firing entries.old }
    ensures count { result ≡ count_marked picks.now (drop from entries.old) }
{
    let mut count = 0;
    'places: for place in from..entries.len() {
        let pick = picks[place - from];
        count += mark_one(&mut entries[place], pick, firing);
    }
    count
}

/// The place of the first event from a place on that a firing has taken and that is not done, or the length.
pub(crate) fn place_from(entries: &[Entry], from: usize, firing: u32) -> usize
    requires { from ≤ length entries.now }
    ensures { result ≡ from + first_place firing (drop from entries.now) }
{
    let mut place = from;
    'places: while place < entries.len() {
        if is_in(entries[place].fate, firing) {
            return place;
        }
        place += 1;
    }
    place
}
