ghost use Rattle.std.specs.Prelude.{◌≡◌, List as Items, [], map, find, slice_get, Some, None, IfOk, option_map, not, if◌then◌else◌};
ghost use Rattle.aq_base.specs.Values.{has_no_null, is_null, values_at};
ghost use Rattle.aq_first_outcomes.specs.Rows.{insert_fault, duplicate_fault, is_taken, holds_null, not_null_cols};
ghost use Rattle.aq_first_outcomes.specs.Faults.Fault.{Duplicate};
ghost use Rattle.aq_first_outcomes.specs.References.{is_live, child_check, look_for_parent, parent_check, key_in};
ghost use Rattle.aq_base.specs.Maps.{at};
ghost use Rattle.aq_first_run.specs.States.{last_database};
ghost use Rattle.aq_first_run.specs.Steps.{check_plan, event_plan};
ghost use Rattle.aq_first_machine.specs.Orders.{IsOrdered, view_with};
ghost use Rattle.aq_first_machine.specs.Versions.{write_entry};
ghost use Rattle.aq_first_base.specs.Works.{Event as Queued, Opened};
ghost use Rattle.aq_first_machine.specs.Found.{fault_shown, event_done};

use crate::catalog::Catalog;
use crate::view::view_has_row;
use crate::world::World;
use crate::writes::{Event, Write, newest_write};
use aq_base::{ColNo, Copies, Key, List, NoMemory, Row, TabNo, Value, key_of};
use aq_first_base::{Does, ForeignKey, UniqueKey};

/// Why a step is refused, with what it found.
#[derive(Drop)]
pub(crate) enum Fault<'a> {
    /// Another row has these values of the unique key.
    Duplicate {
        key: &'a UniqueKey,
        values: Key,
    },
    /// The row holds a null in a column of its table that holds none.
    NullValue {
        table: TabNo,
        col: ColNo,
        values: Row,
    },
    /// No row of the parent table has these values of the foreign key.
    Missing {
        fk: &'a ForeignKey,
        values: Key,
    },
    /// The parent row with these values is gone, and a child row still refers to it.
    Referenced {
        fk: &'a ForeignKey,
        values: Key,
    },
}

fn is_value(v: &Value) -> bool
    ensures { result ≡ not (is_null v.now) }
{
    !matches!(v, Value::Null)
}

fn all_are_values(key: &[Value]) -> bool
    ensures { result ≡ has_no_null key.now }
{
    key.iter().all(is_value)
}

fn holds_null_at(row: &Row, col: ColNo) -> bool
    ensures { result ≡ holds_null row.now col }
{
    match row.get(usize::from(col.get())) {
        None => true,
        Some(v) => !is_value(v),
    }
}

/// The first of the columns in which the row holds a null.
fn null_col(row: &Row, cols: &[ColNo]) -> Option<ColNo>
    ensures { result ≡ find (holds_null row.now) cols.now }
{
    'cols: for col in cols {
        if holds_null_at(row, *col) {
            return Some(*col);
        }
    }
    None
}

/// The first column that holds no null in which a new row of the table holds one.
fn null_col_of(catalog: &Catalog, table: TabNo, row: &Row) -> Option<ColNo>
    ensures { result ≡ find (holds_null row.now) (not_null_cols (slice_get catalog.now.tables table)) }
{
    match catalog.tables.get(usize::from(table.get())) {
        None => None,
        Some(found) => null_col(row, found.not_null.as_slice()),
    }
}

/// What a unique key has against a new row: another row of its table with the same values.
fn key_fault<'a>(
    key: &'a UniqueKey,
    world: &World,
    writes: &[Write],
    row: &Row,
) -> Result<Option<Fault<'a>>, NoMemory>
    requires { IsOrdered (last_database world.now) (map write_entry writes.now) world.now.rows }
    ensures { IfOk result (λ found. option_map fault_shown found
        ≡ (if is_taken (view_with world.now (map write_entry writes.now)) row.now key.now then Some (Duplicate key.now (values_at key.now.cols row.now)) else None)) }
{
    let values = key_of(row, key.cols.as_slice())?;
    if view_has_row(
        world,
        writes,
        key.table,
        key.cols.as_slice(),
        values.as_slice(),
    ) {
        Ok(Some(Fault::Duplicate { key, values }))
    } else {
        Ok(None)
    }
}

/// The first unique key of the table that another row has.
fn duplicate_fault_of<'a>(
    catalog: &'a Catalog,
    world: &World,
    writes: &[Write],
    table: TabNo,
    row: &Row,
) -> Result<Option<Fault<'a>>, NoMemory>
    requires { IsOrdered (last_database world.now) (map write_entry writes.now) world.now.rows }
    ensures { IfOk result (λ found. option_map fault_shown found ≡ duplicate_fault catalog.now (view_with world.now (map write_entry writes.now)) table row.now) }
{
    let keys = catalog.keys.as_slice();
    'keys: for key in keys {
        if key.table == table {
            if let Some(fault) = key_fault(key, world, writes, row)? {
                return Ok(Some(fault));
            }
        }
    }
    Ok(None)
}

/// What refuses a new row: a null in the first column that holds none, or the first unique key of its table that another row has.
pub(crate) fn insert_fault_of<'a>(
    catalog: &'a Catalog,
    world: &World,
    writes: &[Write],
    table: TabNo,
    row: &Row,
) -> Result<Option<Fault<'a>>, NoMemory>
    requires { IsOrdered (last_database world.now) (map write_entry writes.now) world.now.rows }
    ensures { IfOk result (λ found. option_map fault_shown found ≡ insert_fault catalog.now (view_with world.now (map write_entry writes.now)) table row.now) }
{
    match null_col_of(catalog, table, row) {
        None => duplicate_fault_of(catalog, world, writes, table, row),
        Some(col) => Ok(Some(Fault::NullValue {
            table,
            col,
            values: row.copy()?,
        })),
    }
}

/// Whether the version of the event is still the newest one that the transaction has of the row.
fn is_event_live(writes: &[Write], event: &Event) -> bool
    ensures { result ≡ is_live event.now (at event.now.row (map write_entry writes.now)) }
{
    match newest_write(writes, event.row) {
        None => false,
        Some(write) => write == event.write,
    }
}

/// The key of a version at some columns.
fn key_in_image(cols: &List<ColNo>, image: &Option<Row>) -> Result<Key, NoMemory>
    ensures { IfOk result (λ key. key ≡ key_in cols.now image.now) }
{
    match image {
        None => key_of(&cols.empty_like(), &[]),
        Some(values) => key_of(values, cols.as_slice()),
    }
}

/// What a foreign key has against a child row with this key: no row of the parent table has it. A key with a null refers to none.
fn missing_fault<'a>(
    fk: &'a ForeignKey,
    values: Key,
    world: &World,
    writes: &[Write],
) -> Option<Fault<'a>>
    requires { IsOrdered (last_database world.now) (map write_entry writes.now) world.now.rows }
    ensures { check_plan (look_for_parent fk.now values (view_with world.now (map write_entry writes.now))) ≡ event_done (option_map fault_shown result) }
{
    if !all_are_values(values.as_slice())
        || view_has_row(
            world,
            writes,
            fk.parent,
            fk.parent_cols.as_slice(),
            values.as_slice(),
        )
    {
        None
    } else {
        Some(Fault::Missing { fk, values })
    }
}

/// What a foreign key has against a new version of a child row: no row of the parent table has its values.
/// A version that is no longer the newest is not looked at.
fn child_fault<'a>(
    fk: &'a ForeignKey,
    event: &Event,
    world: &World,
    writes: &[Write],
) -> Result<Option<Fault<'a>>, NoMemory>
    requires { IsOrdered (last_database world.now) (map write_entry writes.now) world.now.rows }
    ensures { IfOk result (λ found. check_plan (child_check fk.now event.now (map write_entry writes.now) (view_with world.now (map write_entry writes.now))) ≡ event_done (option_map fault_shown found)) }
{
    if !is_event_live(writes, event) {
        return Ok(None);
    }
    let values = key_in_image(&fk.child_cols, &event.new)?;
    Ok(missing_fault(fk, values, world, writes))
}

/// What a foreign key has against an old version of a parent row: a child row still has its key, and no other parent row does.
fn parent_fault<'a>(
    fk: &'a ForeignKey,
    event: &Event,
    world: &World,
    writes: &[Write],
) -> Result<Option<Fault<'a>>, NoMemory>
    requires { IsOrdered (last_database world.now) (map write_entry writes.now) world.now.rows }
    ensures { IfOk result (λ found. check_plan (parent_check fk.now event.now (view_with world.now (map write_entry writes.now))) ≡ event_done (option_map fault_shown found)) }
{
    let values = key_in_image(&fk.parent_cols, &event.old)?;
    let key = values.as_slice();
    if view_has_row(world, writes, fk.parent, fk.parent_cols.as_slice(), key)
        || !view_has_row(world, writes, fk.child, fk.child_cols.as_slice(), key)
    {
        Ok(None)
    } else {
        Ok(Some(Fault::Referenced { fk, values }))
    }
}

/// What refuses an event, by its trigger.
pub(crate) fn event_fault<'a>(
    catalog: &'a Catalog,
    event: &Event,
    world: &World,
    writes: &[Write],
) -> Result<Option<Fault<'a>>, NoMemory>
    requires { IsOrdered (last_database world.now) (map write_entry writes.now) world.now.rows }
    ensures { IfOk result (λ found. (deferred : Items Queued) (opened : Items Opened) → event_plan catalog.now world.now (record { writes = map write_entry writes.now; deferred = deferred; opened = opened }) event.now ≡ event_done (option_map fault_shown found)) }
{
    let Some(trigger) = catalog.triggers.get(event.trigger) else {
        return Ok(None);
    };
    match trigger.does {
        Does::Check(fk) => match catalog.fks.get(usize::from(fk.get())) {
            None => Ok(None),
            Some(fk) => child_fault(fk, event, world, writes),
        },
        Does::Parent(fk) => match catalog.fks.get(usize::from(fk.get())) {
            None => Ok(None),
            Some(fk) => parent_fault(fk, event, world, writes),
        },
    }
}
