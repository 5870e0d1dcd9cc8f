//! What each table has, under the table's number. A table of which nothing is kept has nothing.

ghost use Rattle.std.specs.Prelude.{◌≡◌, ◌<◌, ◌==◌, ℕ, OnOk, OnErr, if◌then◌else◌, slice_get, vec_len};
ghost use Rattle.std.specs.Option.{option_copied};
ghost use Rattle.aq_catalog.specs.Listed.{listed_at, listed_on, with_key_listed, with_trigger_listed, listed_below};

use crate::of_table::OfTable;
use aq_base::{KeyNo, Op, TrigNo, Trigger};
use std::alloc::AllocError;

/// Room for a table's lists. The error is want of memory.
fn reach(rows: &mut Vec<OfTable>, table: usize) -> Result<(), AllocError>
    ensures same { (t : ℕ) → listed_at rows.new.items t ≡ listed_at rows.old.items t }
    ensures ok { OnOk result (table < vec_len rows.new) }
{
    let alloc = *rows.allocator();
    'rows: while rows.len() <= table {
        rows.push(OfTable::new(alloc))?;
    }
    Ok(())
}

/// One key more of a table. The error is want of memory.
pub(crate) fn add_key(rows: &mut Vec<OfTable>, table: usize, key: KeyNo) -> Result<(), AllocError>
    ensures ok { OnOk result ((t : ℕ) → listed_at rows.new.items t ≡ (if table == t then with_key_listed key (listed_at rows.old.items t) else listed_at rows.old.items t)) }
    ensures err { OnErr result ((t : ℕ) → listed_at rows.new.items t ≡ listed_at rows.old.items t) }
{
    reach(rows, table)?;
    let row = &mut rows[table];
    row.push_key(key)?;
    Ok(())
}

/// One trigger more of a table, behind all of the catalog. The error is want of memory.
pub(crate) fn add_trigger(
    rows: &mut Vec<OfTable>,
    table: usize,
    triggers: &[Trigger],
    trigger: &Trigger,
    number: TrigNo,
) -> Result<(), AllocError>
    ensures ok { OnOk result ((t : ℕ) → listed_at rows.new.items t ≡ (if table == t then with_trigger_listed triggers.now trigger.now number (listed_at rows.old.items t) else listed_at rows.old.items t)) }
    ensures err { OnErr result ((t : ℕ) → listed_at rows.new.items t ≡ listed_at rows.old.items t) }
{
    reach(rows, table)?;
    let row = &mut rows[table];
    row.put_trigger(triggers, trigger, number)?;
    Ok(())
}

/// The keys and triggers of a catalog that has so many. It takes no memory.
pub(crate) fn keep(rows: &mut Vec<OfTable>, keys: usize, triggers: usize)
    ensures { (t : ℕ) → listed_at rows.new.items t ≡ listed_below keys triggers (listed_at rows.old.items t) }
{
    for row in rows.iter_mut() {
        row.keep(keys, triggers);
    }
}

fn row(rows: &[OfTable], table: usize) -> Option<&OfTable>
    ensures { option_copied result ≡ slice_get rows.now table }
{
    rows.get(table)
}

/// The keys of a table.
pub(crate) fn keys(rows: &[OfTable], table: usize) -> &[KeyNo]
    ensures { let l = listed_at rows.now table in result.now ≡ l.keys }
{
    match row(rows, table) {
        None => &[],
        Some(row) => row.keys(),
    }
}

/// The triggers that a change of a table fires.
pub(crate) fn triggers(rows: &[OfTable], table: usize, op: Op) -> &[TrigNo]
    ensures { result.now ≡ listed_on op (listed_at rows.now table) }
{
    match row(rows, table) {
        None => &[],
        Some(row) => row.triggers(op),
    }
}
