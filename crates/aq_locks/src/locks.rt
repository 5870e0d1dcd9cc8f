//! The locks of all sessions.

ghost use Rattle.std.specs.Prelude.{◌≡◌, ◌<◌, [], IfOk, OnOk, OnErr, length, map, unwrap_or, IsSome, IsSomeAnd, replicate};
ghost use Rattle.aq_base.specs.Blockers.{row_blockers};
ghost use Rattle.aq_xids.specs.Sets.{members};
ghost use Rattle.aq_xids.specs.Subtransactions.{owner};
ghost use Rattle.aq_locks.specs.Logs.{Logs, all_holdings, log_of, with_log, got, returned, counts, with_kept, undone};
ghost use Rattle.aq_locks.specs.Answers.{IsAnswer};
ghost use Rattle.aq_locks.specs.Rows.{items_of, locks_shown};

use crate::log::{Taken, return_all, return_one, take_lock};
use crate::rows::{Holders, blockers_among};
use aq_base::{LockMode, RowNo};
use aq_xids::{SessNo, SessSet, SubNo, Xids};
use std::alloc::{AllocError, Global};
use std::collections::BTreeMap;
use std::marker::Model;

/// What each session holds: the holders of each row, and for each session the log of the locks that it took.
#[derive(Drop)]
pub struct Locks {
    rows: BTreeMap<u64, Holders>,
    logs: [Vec<Taken>; 16],
    kept: Option<[usize; 16]>,
}

/// How many locks a session had taken.
#[derive(Clone, Copy)]
pub struct LockMark {
    len: usize,
}

impl Model for LockMark {
    ghost use Rattle.std.specs.Prelude.{ℕ};

    ghost Value = { ℕ };

    ghost view = { λ m. m.len };

    ghost inverse = { λ n. record { len = n } };
}

/// The answer to a session that asks for a row.
#[derive(Clone, Copy)]
pub enum Asked {
    Got,
    Held { by: SessSet },
}

impl Model for Locks {
    ghost use Rattle.aq_locks.specs.Logs.{Logs};

    ghost Value = { Logs };

    ghost use Rattle.aq_locks.specs.Rows.{items_of, locks_shown, IsLocks};

    ghost view = { λ l. record { logs = locks_shown l.logs; kept = l.kept } };

    ghost invariant = { λ l. IsLocks l.rows (items_of l.logs) };
}

impl Locks {
    /// Nobody holds anything.
    pub fn new(alloc: Global) -> Locks
        ensures { result ≡ record { logs = replicate 16 []; kept = None } }
    {
        Locks {
            rows: BTreeMap::new(alloc),
            logs: no_logs(alloc),
            kept: None,
        }
    }

    /// Those other than a session who hold a row in a mode that conflicts. The holders are kept by session, so that the
    /// subtransactions aren't looked at.
    pub fn blockers(&self, _x: &Xids, row: RowNo, mode: LockMode, session: SessNo) -> SessSet
        ensures { members result.0 ≡ row_blockers session.0 (all_holdings self.now) row mode }
    {
        match self.rows.get(&row.get()) {
            None => SessSet::empty(),
            Some(modes) => blockers_among(modes, session, mode),
        }
    }

    /// The session of a subtransaction asks for a row: it gets the row where nobody stands in its way. The error is want of memory.
    pub fn want(
        &mut self,
        x: &Xids,
        row: RowNo,
        mode: LockMode,
        own: SubNo,
    ) -> Result<Asked, AllocError>
        requires { IsSomeAnd (owner own.0 x.now) (λ s. s < 16) }
        ensures ok { IfOk result (λ asked. let s = unwrap_or (owner own.0 x.now) 0 in IsAnswer (row_blockers s (all_holdings self.old) row mode) self.old (got s row mode self.old) self.new asked) }
        ensures err { OnErr result (self.new ≡ self.old) }
    {
        let Some(session) = x.owner(own) else {
            return Err(AllocError);
        };
        let by = self.blockers(x, row, mode, session);
        if !by.is_empty() {
            return Ok(Asked::Held { by });
        }
        take_lock(&mut self.rows, &mut self.logs, session.0, row.get(), mode)?;
        Ok(Asked::Got)
    }

    /// A mark to which `back_to` returns. It takes no memory.
    pub fn mark(&mut self, session: SessNo) -> Result<LockMark, AllocError>
        requires { session.0 < 16 }
        ensures ok { IfOk result (λ mark. mark ≡ length (log_of self.old session.0)) }
        ensures same { self.new ≡ self.old }
    {
        Ok(LockMark {
            len: self.logs[session.0 as usize].len(),
        })
    }

    /// The session holds again what it held at the mark: a lock that was made stronger since is as weak as it was.
    pub fn back_to(&mut self, session: SessNo, mark: LockMark)
        requires { session.0 < 16 }
        ensures { self.new ≡ returned session.0 mark self.old }
    {
        let len = mark.len;
        return_one(&mut self.rows, &mut self.logs, session.0, len);
    }

    /// The session holds nothing any more.
    pub fn release_all(&mut self, session: SessNo)
        requires { session.0 < 16 }
        ensures { self.new ≡ with_log session.0 [] self.old }
    {
        return_one(&mut self.rows, &mut self.logs, session.0, 0);
    }

    /// Holds the present state. It takes no memory.
    pub fn hold(&mut self) -> Result<(), AllocError>
        ensures ok { OnOk result (self.new ≡ with_kept (Some (counts self.old)) self.old) }
        ensures err { OnErr result (self.new ≡ self.old) }
    {
        self.kept = Some(lengths(&self.logs));
        Ok(())
    }

    /// Puts the held state back, of which each log is the front of the present one, and gives the hold up.
    pub fn undo(&mut self)
        requires { IsSome self.old.kept }
        ensures { self.new ≡ undone self.old }
    {
        if let Some(lens) = self.kept {
            return_all(&mut self.rows, &mut self.logs, &lens);
            self.kept = None;
        }
    }
}

fn lengths(logs: &[Vec<Taken>; 16]) -> [usize; 16]
    requires { length (items_of logs.now) ≡ 16 }
    ensures { result ≡ map length (locks_shown logs.now) }
{
    let mut lens = [0; 16];
    for n in 0..16usize {
        lens[n] = logs[n].len();
    }
    lens
}

fn no_logs(alloc: Global) -> [Vec<Taken>; 16]
    ensures { items_of result ≡ replicate 16 [] }
{
    std::array::from_fn(
        |_place: usize| -> Vec<Taken>
            ensures { result.items ≡ [] }
        { Vec::new(alloc) },
    )
}
