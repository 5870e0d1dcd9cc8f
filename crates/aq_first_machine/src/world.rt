ghost use Rattle.std.specs.Prelude.{◌≡◌, ◌&&◌, ◌==◌, ◌++◌, ◌∷◌, ◌+◌, ◌≤◌, [], map, filter, vec_len, vec_capacity, option_map, OnOk, OnErr, IfOk};
ghost use Rattle.std.specs.List.{list_any};
ghost use Rattle.aq_base.specs.Maps.{at};
ghost use Rattle.aq_first_base.specs.Databases.{has_key, rows_of};
ghost use Rattle.aq_first_run.specs.States.{last_database};
ghost use Rattle.aq_first_run.specs.Texts.{table_rows};
ghost use Rattle.aq_first_machine.specs.Givens.{given_shown};
ghost use Rattle.aq_first_machine.specs.Orders.{IsOrdered, view_with};
ghost use Rattle.aq_first_machine.specs.Versions.{write_entry, has_left, is_left, is_standing, stored_entry, with_deletion, versions_made, unwritten};

use crate::keys::row_has_key;
use crate::replies::Given;
use crate::writes::{Write, leaves_row};
use aq_base::{ColNo, Copies, List, NoMemory, Row, RowNo, TabNo, Value};
use std::alloc::Global;
use std::collections::VecDeque;
use std::marker::Model;

/// A committed version of a row.
#[derive(Drop)]
pub(crate) struct Version {
    pub(crate) row: RowNo,
    pub(crate) table: TabNo,
    pub(crate) values: Row,
    /// The number of the commit that made it.
    pub(crate) commit: u64,
    /// The number of the commit that deleted it, if one did.
    pub(crate) deleted: Option<u64>,
}

/// What all sessions share: the committed versions, the counters and the replies.
#[derive(Drop)]
pub(crate) struct World {
    pub(crate) versions: Vec<Version>,
    pub(crate) commits: u64,
    pub(crate) rows: u64,
    pub(crate) writes: u64,
    pub(crate) replies: List<Given>,
}

impl Model for World {
    ghost use Rattle.std.specs.Prelude.{map};
    ghost use Rattle.aq_first_run.specs.States.{World as Seen};
    ghost use Rattle.aq_first_machine.specs.Givens.{given_shown};
    ghost use Rattle.aq_first_machine.specs.Versions.{databases, AreCommitted};

    ghost Value = { Seen };

    ghost view = { λ w. record { history = databases w.commits w.versions.items; rows = w.rows; writes = w.writes; replies = map given_shown w.replies } };

    ghost invariant = { λ w. AreCommitted w.commits w.versions.items };
}

/// Whether one of the versions is standing, is left by the writes, is in the table and has the key.
fn some_version_has(
    versions: &[Version],
    writes: &[Write],
    table: TabNo,
    cols: &[ColNo],
    key: &[Value],
) -> bool
    ensures { result ≡ list_any (has_left (map write_entry writes.now) table cols.now key.now) versions.now }
{
    versions.iter().any(|v| {
        v.deleted.is_none()
            && v.table == table
            && row_has_key(&v.values, cols, key)
            && leaves_row(writes, v.row)
    })
}

/// The values of a row in the standing version of it, if there is one.
fn standing_row(versions: &[Version], row: RowNo) -> Option<&Row>
    ensures { option_map (λ values. values.now) result ≡ option_map (λ stored. stored.values) (at row (map stored_entry (filter is_standing versions.now))) }
{
    'versions: for v in versions {
        if v.deleted.is_none() && v.row == row {
            return Some(&v.values);
        }
    }
    None
}

/// The numbers of the rows of a table that are standing and left by the writes.
fn rows_left(
    alloc: Global,
    versions: &[Version],
    writes: &[Write],
    table: TabNo,
) -> Result<VecDeque<RowNo>, NoMemory>
    ensures { IfOk result (λ rows. rows.items ≡ map (λ v. v.row) (filter (is_left (map write_entry writes.now) table) versions.now)) }
{
    let mut rows = VecDeque::new(alloc);
    'versions: for v in versions {
        if v.deleted.is_none() && v.table == table && leaves_row(writes, v.row) {
            rows.push_back(v.row)?;
        }
    }
    Ok(rows)
}

/// The rows of a table in their standing versions.
fn rows_among(alloc: Global, versions: &[Version], t: TabNo) -> Result<List<Row>, NoMemory>
    ensures { IfOk result (λ rows. rows ≡ table_rows t (map stored_entry (filter is_standing versions.now))) }
{
    let mut rows = List::new(alloc);
    'versions: for v in versions {
        if v.deleted.is_none() && v.table == t {
            rows.push(v.values.copy()?)?;
        }
    }
    Ok(rows)
}

/// Marks a standing version of which the row is written as deleted by the commit.
fn mark_version(v: &mut Version, writes: &[Write], commit: u64)
    ensures { v.new ≡ with_deletion commit (map write_entry writes.now) v.old }
{
    if v.deleted.is_none() && !leaves_row(writes, v.row) {
        v.deleted = Some(commit);
    }
}

/// Marks each standing version of which the row is written as deleted by the commit.
fn mark_deleted(versions: &mut Vec<Version>, writes: &[Write], commit: u64)
    ensures items { versions.new.items ≡ map (with_deletion commit (map write_entry writes.now)) versions.old.items }
    ensures len { vec_len versions.new ≡ vec_len versions.old }
    ensures capacity { vec_capacity versions.new ≡ vec_capacity versions.old }
{
    for v in versions.iter_mut() {
        mark_version(v, writes, commit);
    }
}

/// Moves the written versions to the end of the committed ones, which have room for them.
fn append_versions(versions: &mut Vec<Version>, writes: Vec<Write>, commit: u64)
    requires { vec_len versions.old + vec_len writes ≤ vec_capacity versions.old }
    ensures { versions.new.items ≡ versions.old.items ++ versions_made commit writes.items }
{
    'writes: for w in writes {
        let Write {
            row,
            table,
            image,
            ..
        } = w;
        if let Some(values) = image {
            versions.push_reserved(Version {
                row,
                table,
                values,
                commit,
                deleted: None,
            });
        }
    }
}

impl World {
    /// Before the first commit: database 0 is empty.
    #[tactic(auto, unfolding(crate::specs::Versions::databases))]
    pub(crate) fn new(alloc: Global) -> World
        ensures { result ≡ record { history = [] ∷ []; rows = 0; writes = 0; replies = [] } }
    {
        World {
            versions: Vec::new(alloc),
            commits: 0,
            rows: 0,
            writes: 0,
            replies: List::new(alloc),
        }
    }

    /// The rows of a table in the last database, in the order of their row numbers.
    pub(crate) fn table_rows(&self, alloc: Global, t: TabNo) -> Result<List<Row>, NoMemory>
        ensures { IfOk result (λ rows. rows ≡ table_rows t (last_database self.now)) }
    {
        rows_among(alloc, self.versions.as_slice(), t)
    }

    /// Whether a row of the last database that the writes leave is in the table and has the key.
    pub(crate) fn has_row_left(
        &self,
        writes: &[Write],
        table: TabNo,
        cols: &[ColNo],
        key: &[Value],
    ) -> bool
        ensures { result ≡ list_any (λ entry. has_key table cols.now key.now entry.1) (unwritten (map write_entry writes.now) (last_database self.now)) }
    {
        some_version_has(self.versions.as_slice(), writes, table, cols, key)
    }

    /// The values of a row of the last database, if there is one with that number.
    pub(crate) fn row(&self, row: RowNo) -> Option<&Row>
        ensures { option_map (λ values. values.now) result ≡ option_map (λ stored. stored.values) (at row (last_database self.now)) }
    {
        standing_row(self.versions.as_slice(), row)
    }

    /// The numbers of the rows of a table that the last database has and the writes leave, in their order.
    pub(crate) fn numbers_left(
        &self,
        alloc: Global,
        writes: &[Write],
        table: TabNo,
    ) -> Result<VecDeque<RowNo>, NoMemory>
        ensures { IfOk result (λ rows. rows.items ≡ map (λ entry. entry.0) (rows_of table (unwritten (map write_entry writes.now) (last_database self.now)))) }
    {
        rows_left(alloc, self.versions.as_slice(), writes, table)
    }

    /// Adds lines to the replies.
    pub(crate) fn give(&mut self, lines: List<Given>) -> Result<(), NoMemory>
        ensures ok { OnOk result (self.new ≡ record self.old { replies = self.old.replies ++ map given_shown lines }) }
        ensures err { OnErr result (self.new ≡ self.old) }
    {
        self.replies.append(lines)
    }

    /// The next database is the last one with the writes. The lines are added to the replies.
    /// At success the writes are taken out.
    pub(crate) fn commit(
        &mut self,
        writes: &mut Vec<Write>,
        lines: List<Given>,
    ) -> Result<(), NoMemory>
        requires { IsOrdered (last_database self.old) (map write_entry writes.old.items) self.old.rows }
        ensures ok { OnOk result (self.new ≡ record self.old {
          history = self.old.history ++ view_with self.old (map write_entry writes.old.items) ∷ [];
          replies = self.old.replies ++ map given_shown lines;
        }) }
        ensures err { OnErr result ((self.new ≡ self.old) × (writes.new ≡ writes.old)) }
    {
        let commit = self.commits.checked_add(1).ok_or(NoMemory)?;
        self.versions.reserve(writes.len())?;
        self.replies.append(lines)?;
        mark_deleted(&mut self.versions, writes.as_slice(), commit);
        let alloc = *writes.allocator();
        append_versions(
            &mut self.versions,
            std::mem::replace(writes, Vec::new(alloc)),
            commit,
        );
        self.commits = commit;
        Ok(())
    }
}
