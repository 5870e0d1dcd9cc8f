ghost use Rattle.std.specs.Prelude.{◌≡◌, [], OnOk, OnErr, IfOk};
ghost use Rattle.aq_first_outcomes.specs.Rows.{fires_on, same_op};
ghost use Rattle.std.specs.List.{list_any};
ghost use Rattle.aq_first_run.specs.States.{last_database};
ghost use Rattle.aq_first_machine.specs.Orders.{IsOrdered};
ghost use Rattle.aq_first_machine.specs.Shown.{in_level, inserting, deleting};
ghost use Rattle.aq_first_machine.specs.Advances.{Advances, InsertsRow, change_events, changed};

use crate::catalog::Catalog;
use crate::checks::{Fault, insert_fault_of};
use crate::rounds::Advanced;
use crate::session::{NewRows, OldRows, Work};
use crate::view::row_in_view;
use crate::world::World;
use crate::writes::{Event, Write, put};
use aq_base::{Copies, NoMemory, Op, Row, RowNo, TabNo};
use aq_first_base::Trigger;
use std::alloc::Global;
use std::collections::VecDeque;

fn ops_match(a: Op, b: Op) -> bool
    ensures { result ≡ same_op a b }
{
    match a {
        Op::Insert => matches!(b, Op::Insert),
        Op::Update => matches!(b, Op::Update),
        Op::Delete => matches!(b, Op::Delete),
    }
}

fn has_op(ops: &[Op], op: Op) -> bool
    ensures { result ≡ list_any (same_op op) ops.now }
{
    'ops: for other in ops {
        if ops_match(op, *other) {
            return true;
        }
    }
    false
}

fn fires(trigger: &Trigger, table: TabNo, op: Op) -> bool
    ensures { result ≡ fires_on table op trigger.now }
{
    trigger.table == table && has_op(trigger.ops.as_slice(), op)
}

/// The events that a change queues: one for each trigger of its table that fires on it, in their order.
fn events_of(
    alloc: Global,
    catalog: &Catalog,
    op: Op,
    old: &Option<Row>,
    write: &Write,
) -> Result<VecDeque<Event>, NoMemory>
    ensures { IfOk result (λ events. events.items ≡ change_events catalog.now op old.now write.now) }
{
    let mut events = VecDeque::new(alloc);
    'triggers: for (number, trigger) in catalog.triggers.as_slice().iter().enumerate() {
        if fires(trigger, write.table, op) {
            events.push_back(Event {
                trigger: number,
                row: write.row,
                write: write.number,
                old: old.copy()?,
                new: write.image.copy()?,
            })?;
        }
    }
    Ok(events)
}

/// Enters the version that a change made of a row, and queues the events of the change.
fn change(
    alloc: Global,
    catalog: &Catalog,
    work: &mut Work,
    op: Op,
    old: Option<Row>,
    write: Write,
) -> Result<(), NoMemory>
    ensures ok { OnOk result (work.new ≡ changed catalog.now op old write work.old) }
    ensures err { OnErr result (work.new ≡ work.old) }
{
    let mut events = events_of(alloc, catalog, op, &old, &write)?;
    work.writes.reserve(1)?;
    work.queued.append(&mut events)?;
    put(&mut work.writes, write);
    Ok(())
}

/// Inserts a row with the next numbers, or tells what refuses it. A counter at its end is want of memory.
fn insert_row<'a>(
    alloc: Global,
    catalog: &'a Catalog,
    world: &mut World,
    work: &mut Work,
    table: TabNo,
    values: &Row,
) -> Result<Option<Fault<'a>>, NoMemory>
    requires { IsOrdered (last_database world.old) work.old.writes world.old.rows }
    ensures ok { IfOk result (InsertsRow catalog.now world.old work.old table values.now world.new work.new) }
    ensures err { OnErr result ((world.new ≡ world.old) × (work.new ≡ work.old)) }
{
    if let Some(fault) = insert_fault_of(catalog, world, work.writes.as_slice(), table, values)? {
        return Ok(Some(fault));
    }
    let row = world.rows.checked_add(1).ok_or(NoMemory)?;
    let number = world.writes.checked_add(1).ok_or(NoMemory)?;
    let write = Write {
        row: RowNo::new(row),
        table,
        image: Some(values.copy()?),
        number,
    };
    change(alloc, catalog, work, Op::Insert, None, write)?;
    world.rows = row;
    world.writes = number;
    Ok(None)
}

/// Inserts the first of the rows left.
pub(crate) fn insert_step<'a>(
    alloc: Global,
    catalog: &'a Catalog,
    world: &mut World,
    work: &mut Work,
    rows: &mut NewRows,
) -> Result<Advanced<'a>, NoMemory>
    requires order { IsOrdered (last_database world.old) work.old.writes world.old.rows }
    requires some { rows.old.left.items ≡ [] → ⊥ }
    ensures ok { IfOk result (Advances catalog.now world.old (in_level work.old (inserting rows.old)) world.new (in_level work.new (inserting rows.new))) }
    ensures err { OnErr result ((world.new ≡ world.old) × (work.new ≡ work.old) × (inserting rows.new ≡ inserting rows.old)) }
{
    let Some(values) = rows.left.front() else {
        return Ok(Advanced::Further);
    };
    let done = rows.done.checked_add(1).ok_or(NoMemory)?;
    if let Some(fault) = insert_row(alloc, catalog, world, work, rows.table, values)? {
        return Ok(Advanced::Refused(fault));
    }
    rows.left.pop_front();
    rows.done = done;
    Ok(Advanced::Further)
}

/// Deletes the first of the rows left. A row that is gone is passed over.
pub(crate) fn delete_step<'a>(
    alloc: Global,
    catalog: &'a Catalog,
    world: &mut World,
    work: &mut Work,
    rows: &mut OldRows,
) -> Result<Advanced<'a>, NoMemory>
    requires order { IsOrdered (last_database world.old) work.old.writes world.old.rows }
    requires some { rows.old.left.items ≡ [] → ⊥ }
    ensures ok { IfOk result (Advances catalog.now world.old (in_level work.old (deleting rows.old)) world.new (in_level work.new (deleting rows.new))) }
    ensures err { OnErr result ((world.new ≡ world.old) × (work.new ≡ work.old) × (deleting rows.new ≡ deleting rows.old)) }
{
    let Some(row) = rows.left.front() else {
        return Ok(Advanced::Further);
    };
    let row = *row;
    let Some(values) = row_in_view(world, work.writes.as_slice(), row) else {
        rows.left.pop_front();
        return Ok(Advanced::Further);
    };
    let old = Some(values.copy()?);
    let done = rows.done.checked_add(1).ok_or(NoMemory)?;
    let number = world.writes.checked_add(1).ok_or(NoMemory)?;
    let write = Write {
        row,
        table: rows.table,
        image: None,
        number,
    };
    change(alloc, catalog, work, Op::Delete, old, write)?;
    world.writes = number;
    rows.left.pop_front();
    rows.done = done;
    Ok(Advanced::Further)
}
