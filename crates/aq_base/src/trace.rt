//! The lines of a trace, as data: what the steps of a run did, in order.

use crate::fault::Code;
use crate::list::List;
use crate::modes::ConstraintMode;
use crate::statement::Isolation;
use crate::text::TextVal;
use crate::value::Row;

/// An event that a row change queued: its number within its transaction, counted from 1, and its trigger.
#[derive(Drop)]
pub struct TraceEvent {
    pub no: u64,
    pub trigger: TextVal,
}

/// How an event ended.
#[derive(Clone, Copy, PartialEq, Eq)]
pub enum Ending {
    /// A check found nothing wrong.
    Passed,
    /// A check had nothing to do any more.
    Skipped,
    /// A foreign key action changed so many rows.
    Acted(u64),
    /// The body of a trigger ran to its end.
    Ran,
}

/// The constraints whose mode a SET CONSTRAINTS set.
#[derive(Drop)]
pub enum ModeOf {
    All,
    Named(TextVal),
}

/// One line of a trace. Each names the session that took the step; levels and statements are counted from 1.
#[derive(Drop)]
pub enum TraceLine {
    /// A transaction began.
    Begin {
        session: TextVal,
        isolation: Isolation,
    },
    /// A query level opened.
    Open {
        session: TextVal,
        level: u64,
    },
    /// A query level closed.
    Close {
        session: TextVal,
        level: u64,
    },
    /// A row of a table changed, and these events were queued. A row that was or is not there is `None`.
    Change {
        session: TextVal,
        table: TextVal,
        row: u64,
        old: Option<Row>,
        new: Option<Row>,
        events: List<TraceEvent>,
    },
    /// A statement event was replaced.
    Dropped {
        session: TextVal,
        event: u64,
    },
    /// A statement event was queued.
    Queue {
        session: TextVal,
        event: u64,
        trigger: TextVal,
    },
    /// A round with at least one event was taken.
    Round {
        session: TextVal,
    },
    /// An event fired.
    Fire {
        session: TextVal,
        event: u64,
    },
    /// An event ended.
    Done {
        session: TextVal,
        event: u64,
        ending: Ending,
    },
    /// A SET CONSTRAINTS set modes.
    Mode {
        session: TextVal,
        of: ModeOf,
        mode: ConstraintMode,
    },
    /// A savepoint was made.
    Savepoint {
        session: TextVal,
        name: TextVal,
    },
    /// A savepoint was released.
    Release {
        session: TextVal,
        name: TextVal,
    },
    /// The state at a savepoint was put back.
    Back {
        session: TextVal,
        name: TextVal,
    },
    /// A block with handlers of a body was entered: the number of the transaction's blocks that are open with it.
    Block {
        session: TextVal,
        block: u64,
    },
    /// The blocks with this number and more were left without an error.
    Unblock {
        session: TextVal,
        block: u64,
    },
    /// A block caught an error.
    Caught {
        session: TextVal,
        block: u64,
        code: Code,
    },
    /// A wait for these sessions began.
    Wait {
        session: TextVal,
        blockers: List<TextVal>,
    },
    /// A wait would have closed this cycle of sessions.
    Victim {
        session: TextVal,
        cycle: List<TextVal>,
    },
    /// A key was not found in the view of the database with this number.
    Missing {
        session: TextVal,
        key: Row,
        database: u64,
    },
    /// A parent row is still referenced by a child row: the numbers of the two.
    Pair {
        session: TextVal,
        parent: u64,
        child: u64,
    },
    /// A step ended in an error.
    Fail {
        session: TextVal,
        code: Code,
    },
    /// The deferred events of a transaction begin to fire.
    Drain {
        session: TextVal,
    },
    /// A transaction committed the database with this number.
    Commit {
        session: TextVal,
        database: u64,
    },
    /// A transaction was rolled back.
    Abort {
        session: TextVal,
    },
    /// A statement has its reply.
    Reply {
        session: TextVal,
        statement: u64,
    },
    /// A session has ended.
    End {
        session: TextVal,
    },
}
