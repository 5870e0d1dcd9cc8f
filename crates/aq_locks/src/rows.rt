//! The holders of rows.

ghost use Rattle.std.specs.Prelude.{◌≡◌, ◌≢◌, ℕ, ◌<◌, ◌&&◌, ◌==◌, not, true, is_some, filter, slice_index_or, IsSome, OnOk, OnErr};
ghost use Rattle.std.specs.BTreeMap.{get};
ghost use Rattle.std.specs.Ordering.{nat_cmp};
ghost use Rattle.aq_base.specs.LockModes.{conflicts_with};
ghost use Rattle.aq_xids.specs.Sets.{members, all_sessions};
ghost use Rattle.aq_locks.specs.Rows.{mode_in, SetsMode, KeepsModes};

use crate::modes::conflicts;
use aq_base::LockMode;
use aq_xids::{SESSIONS, SessNo, SessSet};
use std::alloc::AllocError;
use std::collections::BTreeMap;

/// For each session the mode in which it holds a row.
pub type Holders = [Option<LockMode>; 16];

/// The mode in which a session holds a row.
pub fn mode_of(rows: &BTreeMap<u64, Holders>, row: u64, session: u8) -> Option<LockMode>
    requires { session < 16 }
    ensures { result ≡ mode_in rows.now row session }
{
    match rows.get(&row) {
        None => None,
        Some(modes) => modes[session as usize],
    }
}

fn write_mode(modes: &mut Holders, session: u8, mode: Option<LockMode>)
    requires { session < 16 }
    ensures here { slice_index_or modes.new session None ≡ mode }
    ensures elsewhere { (s : ℕ) → s ≢ session → slice_index_or modes.new s None ≡ slice_index_or modes.old s None }
{
    modes[session as usize] = mode;
}

/// Whether nobody holds the row.
fn is_free(modes: &Holders) -> bool
    ensures { result ≡ true → (s : ℕ) → slice_index_or modes.now s None ≡ None }
{
    modes.iter().all(|mode| mode.is_none())
}

/// A session holds a row, which somebody may hold already, in another mode or no more. It takes no memory.
pub fn set_mode(rows: &mut BTreeMap<u64, Holders>, row: u64, session: u8, mode: Option<LockMode>)
    requires session { session < 16 }
    requires there { IsSome (get nat_cmp rows.old row) }
    ensures { SetsMode rows.old rows.new row session mode }
{
    let Some(found) = rows.get(&row) else {
        return;
    };
    let mut modes = *found;
    write_mode(&mut modes, session, mode);
    if is_free(&modes) {
        let _ = rows.remove(&row);
    } else {
        let _ = rows.insert(row, modes);
    }
}

/// Makes room for the holders of a row. The error is want of memory.
pub fn add_row(rows: &mut BTreeMap<u64, Holders>, row: u64) -> Result<(), AllocError>
    ensures ok { OnOk result (IsSome (get nat_cmp rows.new row)) }
    ensures keeps { KeepsModes rows.old rows.new }
{
    if rows.get(&row).is_none() {
        let _ = rows.insert(row, [None; 16])?;
    }
    Ok(())
}

/// Takes the room away again where nobody holds the row.
pub fn drop_free(rows: &mut BTreeMap<u64, Holders>, row: u64)
    ensures { KeepsModes rows.old rows.new }
{
    let free = match rows.get(&row) {
        None => false,
        Some(modes) => is_free(modes),
    };
    if free {
        let _ = rows.remove(&row);
    }
}

/// Whether a session, which is not the one that asks, holds the row in a mode that conflicts.
fn stands_in_way(modes: &Holders, own: SessNo, mode: LockMode, session: u8) -> bool
    requires { session < 16 }
    ensures { result ≡ (not (session == own.0) && conflicts_with mode (slice_index_or modes.now session None)) }
{
    session != own.0 && conflicts(modes[session as usize], mode)
}

/// Those other than a session who hold the row in a mode that conflicts.
pub fn blockers_among(modes: &Holders, own: SessNo, mode: LockMode) -> SessSet
    ensures { members result.0 ≡ filter (λ n. not (n == own.0) && conflicts_with mode (slice_index_or modes.now n None)) all_sessions }
{
    let mut found = SessSet::empty();
    for n in 0..SESSIONS {
        if stands_in_way(modes, own, mode, n) {
            found = found.with(SessNo(n));
        }
    }
    found
}
