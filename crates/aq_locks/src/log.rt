//! The log of a session: the locks that it took, in order.

ghost use Rattle.std.specs.Prelude.{◌≡◌, ◌<◌, [], ◌∷◌, ◌++◌, take, slice_set, slice_index_or, OnOk, OnErr};
ghost use Rattle.aq_locks.specs.Logs.{cut, with_lock};
ghost use Rattle.aq_locks.specs.Rows.{IsHeldBy, IsLogged, IsLocks, KeepsOthers, items_of, locks_shown, returned_items};

use crate::modes::covers;
use crate::rows::{Holders, add_row, drop_free, mode_of, set_mode};
use aq_base::LockMode;
use aq_xids::SESSIONS;
use std::alloc::AllocError;
use std::collections::BTreeMap;

/// A lock that was taken, with the mode in which the row was held before.
#[derive(Clone, Copy)]
pub struct Taken {
    pub row: u64,
    pub mode: LockMode,
    pub before: Option<LockMode>,
}

/// Gives back the locks that were taken behind the first ones of the log. It takes no memory.
pub fn return_to(rows: &mut BTreeMap<u64, Holders>, log: &mut Vec<Taken>, session: u8, len: usize)
    requires session { session < 16 }
    requires held { IsHeldBy rows.old session log.old.items }
    requires logged { IsLogged log.old.items }
    ensures log { log.new.items ≡ take len log.old.items }
    ensures held { IsHeldBy rows.new session log.new.items }
    ensures others { KeepsOthers rows.old rows.new session }
{
    'locks: while log.len() > len {
        if let Some(taken) = log.pop() {
            set_mode(rows, taken.row, session, taken.before);
        }
    }
}

/// The same with the log of one of the sessions.
pub fn return_one(
    rows: &mut BTreeMap<u64, Holders>,
    logs: &mut [Vec<Taken>; 16],
    session: u8,
    len: usize,
)
    requires session { session < 16 }
    requires locks { IsLocks rows.old (items_of logs.old) }
    ensures locks { IsLocks rows.new (items_of logs.new) }
    ensures logs { items_of logs.new ≡ returned_items session len (items_of logs.old) }
{
    return_to(rows, &mut logs[session as usize], session, len);
}

/// The same with all logs.
pub fn return_all(
    rows: &mut BTreeMap<u64, Holders>,
    logs: &mut [Vec<Taken>; 16],
    lens: &[usize; 16],
)
    requires { IsLocks rows.old (items_of logs.old) }
    ensures locks { IsLocks rows.new (items_of logs.new) }
    ensures logs { items_of logs.new ≡ cut lens.now (items_of logs.old) }
{
    for session in 0..SESSIONS {
        return_one(rows, logs, session, lens[session as usize]);
    }
}

/// One entry more in the log of a session. After want of memory all is as before.
fn push_to(logs: &mut [Vec<Taken>; 16], session: u8, taken: Taken) -> Result<(), AllocError>
    requires { session < 16 }
    ensures ok { OnOk result (items_of logs.new ≡ slice_set (items_of logs.old) session (slice_index_or (items_of logs.old) session [] ++ taken ∷ [])) }
    ensures err { OnErr result (items_of logs.new ≡ items_of logs.old) }
{
    match logs[session as usize].push(taken) {
        Ok(()) => Ok(()),
        Err(_) => Err(AllocError),
    }
}

/// Takes a lock where none as strong is held. After want of memory all is as before.
pub fn take_lock(
    rows: &mut BTreeMap<u64, Holders>,
    logs: &mut [Vec<Taken>; 16],
    session: u8,
    row: u64,
    mode: LockMode,
) -> Result<(), AllocError>
    requires session { session < 16 }
    requires locks { IsLocks rows.old (items_of logs.old) }
    ensures locks { IsLocks rows.new (items_of logs.new) }
    ensures ok { OnOk result (locks_shown logs.new ≡ with_lock session row mode (locks_shown logs.old)) }
    ensures err { OnErr result (items_of logs.new ≡ items_of logs.old) }
{
    let before = mode_of(rows, row, session);
    if covers(before, mode) {
        return Ok(());
    }
    add_row(rows, row)?;
    match push_to(logs, session, Taken { row, mode, before }) {
        Ok(()) => {
            set_mode(rows, row, session, Some(mode));
            Ok(())
        }
        Err(_) => {
            drop_free(rows, row);
            Err(AllocError)
        }
    }
}
