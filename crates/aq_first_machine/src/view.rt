ghost use Rattle.std.specs.Prelude.{◌≡◌, map, option_map, IfOk};
ghost use Rattle.std.specs.List.{list_any};
ghost use Rattle.aq_base.specs.Maps.{at};
ghost use Rattle.aq_first_base.specs.Databases.{has_key, rows_of};
ghost use Rattle.aq_first_run.specs.States.{last_database};
ghost use Rattle.aq_first_machine.specs.Orders.{IsOrdered, view_with};
ghost use Rattle.aq_first_machine.specs.Versions.{write_entry};

use crate::world::World;
use crate::writes::{Write, push_new_rows, some_write_has, write_at};
use aq_base::{ColNo, NoMemory, Row, RowNo, TabNo, Value};
use std::alloc::Global;
use std::collections::VecDeque;

/// Whether a row of the last database with the writes is in the table and has the key.
pub(crate) fn view_has_row(
    world: &World,
    writes: &[Write],
    table: TabNo,
    cols: &[ColNo],
    key: &[Value],
) -> bool
    requires { IsOrdered (last_database world.now) (map write_entry writes.now) world.now.rows }
    ensures { result ≡ list_any (λ entry. has_key table cols.now key.now entry.1) (view_with world.now (map write_entry writes.now)) }
{
    world.has_row_left(writes, table, cols, key) || some_write_has(writes, table, cols, key)
}

/// The values of a row in the last database with the writes, if it has a row with that number.
pub(crate) fn row_in_view<'a>(world: &'a World, writes: &'a [Write], row: RowNo) -> Option<&'a Row>
    requires { IsOrdered (last_database world.now) (map write_entry writes.now) world.now.rows }
    ensures { option_map (λ values. values.now) result ≡ option_map (λ stored. stored.values) (at row (view_with world.now (map write_entry writes.now))) }
{
    match write_at(writes, row) {
        None => world.row(row),
        Some(w) => w.image.as_ref(),
    }
}

/// The numbers of the rows of a table in the last database with the writes, in their order.
pub(crate) fn rows_in_view(
    alloc: Global,
    world: &World,
    writes: &[Write],
    table: TabNo,
) -> Result<VecDeque<RowNo>, NoMemory>
    requires { IsOrdered (last_database world.now) (map write_entry writes.now) world.now.rows }
    ensures { IfOk result (λ rows. rows.items ≡ map (λ entry. entry.0) (rows_of table (view_with world.now (map write_entry writes.now)))) }
{
    let mut rows = world.numbers_left(alloc, writes, table)?;
    push_new_rows(&mut rows, writes, table)?;
    Ok(rows)
}
