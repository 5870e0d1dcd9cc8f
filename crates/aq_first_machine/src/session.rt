ghost use Rattle.std.specs.Prelude.{◌≡◌};
ghost use Rattle.aq_first_run.specs.States.{at_start};
ghost use Rattle.aq_first_machine.specs.Shown.{waiting, nothing_held};

use crate::writes::{Event, Write};
use aq_base::{Row, RowNo, TabNo};
use std::alloc::Global;
use std::collections::VecDeque;
use std::marker::Model;

/// What a statement answers when it succeeds.
#[derive(Clone, Copy, PartialEq, Eq)]
pub(crate) enum Answer {
    Inserted(u64),
    Deleted(u64),
    Began,
    Committed,
    RolledBack,
}

/// The state of a session's transaction block (PostgreSQL source, xact.c, TBlockState).
#[derive(Clone, Copy, PartialEq, Eq)]
pub(crate) enum Block {
    /// Each statement is a transaction of its own.
    Idle,
    Open,
    /// A statement of the block was refused.
    Failed,
}

/// An INSERT: the rows left, and how many were inserted.
#[derive(Drop)]
pub(crate) struct NewRows {
    pub(crate) table: TabNo,
    pub(crate) left: VecDeque<Row>,
    pub(crate) done: u64,
}

/// A DELETE: the rows left, and how many were deleted.
#[derive(Drop)]
pub(crate) struct OldRows {
    pub(crate) table: TabNo,
    pub(crate) left: VecDeque<RowNo>,
    pub(crate) done: u64,
}

/// What is in progress in a transaction.
#[derive(Drop)]
pub(crate) enum Task {
    /// Nothing: its block waits for the next statement.
    Between,
    Inserting(NewRows),
    Deleting(OldRows),
    /// The rounds of the statement's level, and then its answer.
    Rounds(Answer),
    /// The deferred events fire, the transaction commits, and then the answer is given.
    Committing(Answer),
}

/// What a transaction has written, in the order of the row numbers, and the events that it owes, the first one first:
/// those that wait for the commit, those queued at the level, and those of the round in progress.
#[derive(Drop)]
pub(crate) struct Work {
    pub(crate) writes: Vec<Write>,
    pub(crate) deferred: VecDeque<Event>,
    pub(crate) queued: VecDeque<Event>,
    pub(crate) round: VecDeque<Event>,
}

impl Model for Work {
    ghost use Rattle.std.specs.Prelude.{map};
    ghost use Rattle.aq_first_machine.specs.Shown.{Held};
    ghost use Rattle.aq_first_machine.specs.Versions.{write_entry};

    ghost Value = { Held };

    ghost view = { λ w. record { writes = map write_entry w.writes.items; deferred = w.deferred.items; queued = w.queued.items; round = w.round.items } };
}

/// A transaction, and what is in progress in it.
#[derive(Drop)]
pub(crate) struct Transaction {
    pub(crate) work: Work,
    pub(crate) task: Task,
}

impl Model for Transaction {
    ghost use Rattle.aq_first_machine.specs.Shown.{InProgress, progress_shown};

    ghost Value = { InProgress };

    ghost view = { λ t. progress_shown t.work t.task };
}

/// A session: how many statements it has taken, its block and its transaction.
#[derive(Drop)]
pub(crate) struct Session {
    pub(crate) next: u32,
    pub(crate) block: Block,
    pub(crate) transaction: Option<Transaction>,
    pub(crate) ended: bool,
}

impl Model for Session {
    ghost use Rattle.aq_first_run.specs.States.{Session as Seen};
    ghost use Rattle.aq_first_machine.specs.Shown.{block_shown, tasks_of, transaction_of};

    ghost Value = { Seen };

    ghost view = { λ s. record {
      next = s.next;
      block = block_shown s.block;
      transaction = transaction_of s.transaction;
      tasks = tasks_of s.transaction;
      ended = s.ended;
    } };
}

impl Session {
    /// A session before its first statement.
    pub(crate) fn at_start() -> Session
        ensures { result ≡ at_start }
    {
        Session {
            next: 0,
            block: Block::Idle,
            transaction: None,
            ended: false,
        }
    }
}

impl Work {
    /// Nothing written, and nothing owed.
    pub(crate) fn new(alloc: Global) -> Work
        ensures { result ≡ nothing_held }
    {
        Work {
            writes: Vec::new(alloc),
            deferred: VecDeque::new(alloc),
            queued: VecDeque::new(alloc),
            round: VecDeque::new(alloc),
        }
    }
}

impl Transaction {
    /// A transaction that has done nothing.
    pub(crate) fn begin(alloc: Global) -> Transaction
        ensures { result ≡ waiting nothing_held }
    {
        Transaction {
            work: Work::new(alloc),
            task: Task::Between,
        }
    }
}
