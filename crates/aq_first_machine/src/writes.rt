ghost use Rattle.std.specs.Prelude.{◌≡◌, ◌<◌, ◌==◌, ◌&&◌, map, option_map, vec_len, vec_capacity, filter, slice_get, OnOk, ◌++◌};
ghost use Rattle.std.specs.List.{list_any};
ghost use Rattle.aq_base.specs.Maps.{at, with_at};
ghost use Rattle.aq_first_machine.specs.Versions.{write_entry, write_shown, write_has, image_has, is_new_in, is_unwritten, place_in, is_of_row};

use crate::keys::row_has_key;
use aq_base::{ColNo, NoMemory, Row, RowNo, TabNo, Value};
use std::collections::VecDeque;
use std::marker::Model;

/// The newest version that a transaction has of a row.
#[derive(Drop)]
pub(crate) struct Write {
    pub(crate) row: RowNo,
    pub(crate) table: TabNo,
    /// None where the row is deleted.
    pub(crate) image: Option<Row>,
    /// The number of the change that made it.
    pub(crate) number: u64,
}

/// An event that a row change queued.
#[derive(Drop)]
pub(crate) struct Event {
    /// The trigger's place in the catalog.
    pub(crate) trigger: usize,
    pub(crate) row: RowNo,
    /// The number of the change.
    pub(crate) write: u64,
    /// The row's version before the change.
    pub(crate) old: Option<Row>,
    /// The row's version behind the change.
    pub(crate) new: Option<Row>,
}

impl Model for Event {
    ghost use Rattle.aq_first_base.specs.Works.{Event as Seen};

    ghost Value = { Seen };

    ghost view = { λ e. record { trigger = e.trigger; row = e.row; write = e.write; old = e.old; new = e.new } };
}

/// The version that a transaction wrote of a row, if it did.
pub(crate) fn write_at(writes: &[Write], row: RowNo) -> Option<&Write>
    ensures { option_map (λ w. write_shown w.now) result ≡ at row (map write_entry writes.now) }
{
    'writes: for w in writes {
        if w.row == row {
            return Some(w);
        }
    }
    None
}

/// The number of the change that made the transaction's newest version of a row.
pub(crate) fn newest_write(writes: &[Write], row: RowNo) -> Option<u64>
    ensures { result ≡ option_map (λ write. write.number) (at row (map write_entry writes.now)) }
{
    match write_at(writes, row) {
        None => None,
        Some(w) => Some(w.number),
    }
}

/// Whether the writes leave a row as it was.
pub(crate) fn leaves_row(writes: &[Write], row: RowNo) -> bool
    ensures { result ≡ is_unwritten (map write_entry writes.now) row }
{
    write_at(writes, row).is_none()
}

fn has_in_image(image: &Option<Row>, cols: &[ColNo], key: &[Value]) -> bool
    ensures { result ≡ image_has cols.now key.now image.now }
{
    match image {
        None => false,
        Some(values) => row_has_key(values, cols, key),
    }
}

/// Whether one of the written versions is in the table and has the key.
pub(crate) fn some_write_has(writes: &[Write], table: TabNo, cols: &[ColNo], key: &[Value]) -> bool
    ensures { result ≡ list_any (write_has table cols.now key.now) writes.now }
{
    writes
        .iter()
        .any(|w| w.table == table && has_in_image(&w.image, cols, key))
}

/// Adds the numbers of the rows of a table that the writes have in a new version.
pub(crate) fn push_new_rows(
    rows: &mut VecDeque<RowNo>,
    writes: &[Write],
    table: TabNo,
) -> Result<(), NoMemory>
    ensures { OnOk result (rows.new.items ≡ rows.old.items ++ map (λ w. w.row) (filter (is_new_in table) writes.now)) }
{
    'writes: for w in writes {
        if w.table == table && w.image.is_some() {
            rows.push_back(w.row)?;
        }
    }
    Ok(())
}

/// The place of the first write of this row or of a later one.
fn place_of(writes: &[Write], row: RowNo) -> usize
    ensures { result ≡ place_in row writes.now }
{
    'writes: for (place, w) in writes.iter().enumerate() {
        if row <= w.row {
            return place;
        }
    }
    writes.len()
}

/// Whether the write at a place is of the row.
fn is_of_row_at(writes: &[Write], place: usize, row: RowNo) -> bool
    ensures { result ≡ is_of_row row (slice_get writes.now place) }
{
    match writes.get(place) {
        None => false,
        Some(w) => w.row == row,
    }
}

/// Enters the newest version of a row among the writes, which have room for one more.
pub(crate) fn put(writes: &mut Vec<Write>, write: Write)
    requires { vec_len writes.old < vec_capacity writes.old }
    ensures { map write_entry writes.new.items ≡ with_at write.row (write_shown write) (map write_entry writes.old.items) }
{
    let place = place_of(writes.as_slice(), write.row);
    if is_of_row_at(writes.as_slice(), place, write.row) {
        if let Some(w) = writes.get_mut(place) {
            *w = write;
        }
    } else {
        let _ = writes.insert(place, write);
    }
}
