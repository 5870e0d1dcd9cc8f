//! What a catalog has under a name or a number.

ghost use Rattle.std.specs.Prelude.{◌≡◌, ◌&&◌, ◌==◌, IfOk, find, map, option_map, slice_get};
ghost use Rattle.std.specs.List.{enumerate_from, list_any};
ghost use Rattle.std.specs.Option.{option_copied};
ghost use Rattle.aq_base.specs.Names.{same_text as same};
ghost use Rattle.aq_catalog.specs.Catalogs as catalogs;
ghost use Rattle.aq_catalog.specs.Indexed.{passes};

use crate::catalog::{Catalog, in_16_bits};
use aq_base::{ColNo, Column, Constraint, KeyNo, Kind, List, Same, TextVal, UniqueKey};
use std::alloc::{AllocError, Global};

/// The place of the column with a name.
pub fn column_at(cols: &[Column], name: &TextVal) -> Option<usize>
    ensures { result ≡ catalogs.column_number cols.now name.now }
{
    cols.iter().position(|col| col.name.same(name))
}

/// The number of a table that is there.
pub fn number_of_table(catalog: &Catalog, name: &TextVal) -> usize
    ensures { result ≡ catalogs.number_of_table catalog.now name.now }
{
    catalog.table_at(name).unwrap_or(0)
}

/// The number of a column that is there.
pub fn number_of_column(cols: &[Column], name: &TextVal) -> usize
    ensures { result ≡ catalogs.number_of_column cols.now name.now }
{
    column_at(cols, name).unwrap_or(0)
}

/// The numbers of columns that are there.
pub fn numbers_of_columns(
    alloc: Global,
    cols: &[Column],
    names: &[TextVal],
) -> Result<List<ColNo>, AllocError>
    ensures { IfOk result (λ made. made ≡ map (catalogs.number_of_column cols.now) names.now) }
{
    let mut made = List::new(alloc);
    for name in names {
        made.push(ColNo::new(in_16_bits(number_of_column(cols, name))?))?;
    }
    Ok(made)
}

/// The kind of the column with a number.
pub fn kind_at(cols: &[Column], number: usize) -> Option<Kind>
    ensures { result ≡ option_map (λ col. col.kind) (slice_get cols.now number) }
{
    cols.get(number).map(|col| col.kind)
}

/// Whether a number is that of one of the columns.
pub fn is_column_in(cols: &[ColNo], number: usize) -> bool
    ensures { result ≡ catalogs.is_number_in cols.now number }
{
    cols.iter().any(|col| usize::from(col.get()) == number)
}

fn is_key_in(keys: &[KeyNo], number: usize) -> bool
    ensures { result ≡ catalogs.is_number_in keys.now number }
{
    keys.iter().any(|key| usize::from(key.get()) == number)
}

fn first_primary<'a>(
    primaries: &[KeyNo],
    keys: &'a [UniqueKey],
    table: usize,
) -> Option<&'a List<ColNo>>
    ensures { option_copied result ≡ option_map (λ entry. entry.1.cols) (find (λ entry. catalogs.is_number_in primaries.now entry.0 && entry.1.table == table) (enumerate_from 0 keys.now)) }
{
    for (number, key) in keys.iter().enumerate() {
        if is_key_in(primaries, number) && usize::from(key.table.get()) == table {
            return Some(&key.cols);
        }
    }
    None
}

/// The columns of a table's primary key.
pub fn primary_cols(catalog: &Catalog, table: usize) -> Option<&List<ColNo>>
    ensures { option_copied result ≡ catalogs.primary_cols catalog.now table }
{
    first_primary(catalog.primaries.as_slice(), catalog.keys.as_slice(), table)
}

/// A list of columns with the same numbers. The error is want of memory.
pub fn copied_cols(alloc: Global, cols: &[ColNo]) -> Result<List<ColNo>, AllocError>
    ensures { IfOk result (λ made. made ≡ cols.now) }
{
    let mut made = List::new(alloc);
    for col in cols {
        made.push(*col)?;
    }
    Ok(made)
}

fn is_of(constraint: &Constraint, table: usize) -> bool
    ensures { result ≡ (constraint.now.table == table) }
{
    usize::from(constraint.table.get()) == table
}

/// Whether a constraint of the table stands at a place.
pub(crate) fn is_of_at(made: &[Constraint], place: usize, table: usize) -> bool
    ensures { result ≡ passes (λ con. con.table == table) (slice_get made.now place) }
{
    match made.get(place) {
        None => false,
        Some(constraint) => is_of(constraint, table),
    }
}

/// Whether one of the constraints at some places is one of the table.
fn has_one_of(made: &[Constraint], places: &[u16], table: usize) -> bool
    ensures { result ≡ list_any (λ place. passes (λ con. con.table == table) (slice_get made.now place)) places.now }
{
    places
        .iter()
        .any(|place| is_of_at(made, usize::from(*place), table))
}

impl Catalog {
    fn has_constraint(&self, table: usize, name: &TextVal) -> bool
        ensures { result ≡ list_any (same name.now) (catalogs.constraint_names self.now table) }
    {
        has_one_of(
            self.constraints.as_slice(),
            self.constraint_names.all(name),
            table,
        )
    }
}

/// Whether a constraint of the table has the name.
pub fn is_taken(catalog: &Catalog, table: Option<usize>, name: &TextVal) -> bool
    ensures { result ≡ list_any (same name.now) (catalogs.names_taken catalog.now table) }
{
    match table {
        None => false,
        Some(table) => catalog.has_constraint(table, name),
    }
}

fn is_key_of(keys: &[UniqueKey], number: usize, table: usize) -> bool
    ensures { result ≡ passes (λ key. key.table == table) (slice_get keys.now number) }
{
    match keys.get(number) {
        None => false,
        Some(key) => usize::from(key.table.get()) == table,
    }
}

/// Whether one of the keys with some numbers is one of the table.
fn has_key_of(keys: &[UniqueKey], numbers: &[KeyNo], table: usize) -> bool
    ensures { result ≡ list_any (λ number. passes (λ key. key.table == table) (slice_get keys.now number)) numbers.now }
{
    numbers
        .iter()
        .any(|number| is_key_of(keys, usize::from(number.get()), table))
}

/// Whether there is a table with a primary key under a number.
pub fn has_primary(catalog: &Catalog, table: Option<usize>) -> bool
    ensures { result ≡ catalogs.has_primary catalog.now table }
{
    match table {
        None => false,
        Some(table) => has_key_of(catalog.keys.as_slice(), catalog.primaries.as_slice(), table),
    }
}
