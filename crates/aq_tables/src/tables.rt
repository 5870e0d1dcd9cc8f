//! The table that a CREATE TABLE makes, and the faults of its columns (PostgreSQL manual, page CREATE TABLE).

ghost use Rattle.std.specs.Prelude.{◌≡◌, [], ◌∷◌, ◌++◌, if◌then◌else◌, codes, map, nat_le, IfOk};
ghost use Rattle.std.specs.List.{flat_map};
ghost use Rattle.aq_setup.specs.Kinds as kinds;
ghost use Rattle.aq_refusals.specs.Faults as faults;
ghost use Rattle.aq_setup.specs.Scopes.{repeats_behind};
ghost use Rattle.aq_setup.specs.Tables as tables;
ghost use Rattle.aq_setup.specs.Constraints as constraints;
ghost use Rattle.aq_refusals.specs.Answers.{Tells, Gives};

use crate::added::listed_twice;
use aq_additions::{columns_twice, push_of_item};
use aq_base::{Column, Copies, Kind, List, TableConstraint, TableItem, TextVal};
use aq_binder::{constant_kind, same_kind};
use aq_catalog::Catalog;
use aq_refusals::{CatFault, over_limit, relation_exists, wrong_default};
use std::alloc::{AllocError, Global};

/// 54000
pub fn table_limit(alloc: Global, catalog: &Catalog) -> Result<(), CatFault>
    ensures { Tells (tables.table_limit catalog.now) result }
{
    if catalog.tables() < 64 {
        Ok(())
    } else {
        Err(over_limit(alloc, "64 tables"))
    }
}

fn is_within(count: usize) -> bool
    ensures { result ≡ nat_le count 32 }
{
    count <= 32
}

/// 54000, of a number of columns.
pub fn column_limit(alloc: Global, count: usize) -> Result<(), CatFault>
    ensures { Tells (if nat_le count 32 then [] else faults.over_limit (codes "32 columns") ∷ []) result }
{
    if is_within(count) {
        Ok(())
    } else {
        Err(over_limit(alloc, "32 columns"))
    }
}

/// 42P07
pub fn table_exists(alloc: Global, catalog: &Catalog, table: &TextVal) -> Result<(), CatFault>
    ensures { Tells (tables.table_exists catalog.now table.now) result }
{
    match catalog.table_at(table) {
        None => Ok(()),
        Some(_) => Err(relation_exists(alloc, table)),
    }
}

fn item_name(alloc: Global, item: &TableItem) -> Result<List<TextVal>, AllocError>
    ensures { IfOk result (λ made. made ≡ map (λ col. col.name) (tables.item_columns item.now)) }
{
    let mut names = List::new(alloc);
    if let TableItem::Column { name, .. } = item {
        names.push(name.copy()?)?;
    }
    Ok(names)
}

fn all_listed_twice(alloc: Global, all: &[TableConstraint]) -> Result<(), CatFault>
    ensures { Tells (flat_map tables.listed_twice all.now) result }
{
    for c in all {
        listed_twice(alloc, c)?;
    }
    Ok(())
}

fn item_listed_twice(alloc: Global, item: &TableItem) -> Result<(), CatFault>
    ensures { Tells (flat_map tables.listed_twice (constraints.of_item item.now)) result }
{
    let mut all = List::new(alloc);
    push_of_item(alloc, &mut all, item)?;
    all_listed_twice(alloc, all.as_slice())
}

// the names of the item's columns, unless one stands twice
fn item_twice(
    alloc: Global,
    before: &[TextVal],
    item: &TableItem,
) -> Result<List<TextVal>, CatFault>
    ensures { Gives (map faults.column_twice (repeats_behind before.now (map (λ col. col.name) (tables.item_columns item.now))) ++ flat_map tables.listed_twice (constraints.of_item item.now)) (map (λ col. col.name) (tables.item_columns item.now)) result }
{
    let names = item_name(alloc, item)?;
    columns_twice(alloc, before, names.as_slice())?;
    item_listed_twice(alloc, item)?;
    Ok(names)
}

/// 42701: a column that stands before, or a list of columns with one twice.
#[tactic(auto, using(aq_refusals::proofs::Telling::memory_ran_out, crate::proofs::Items::items_told))]
pub fn items_twice(alloc: Global, items: &[TableItem]) -> Result<(), CatFault>
    ensures { Tells (tables.items_twice [] items.now) result }
{
    let mut before = List::new(alloc);
    for item in items {
        let names = item_twice(alloc, before.as_slice(), item)?;
        before.append(names)?;
    }
    Ok(())
}

fn default_fits(alloc: Global, found: Kind, col: &Column) -> Result<(), CatFault>
    ensures { Tells (if kinds.same_kind col.now.kind found then [] else faults.wrong_default col.now.name col.now.kind found ∷ []) result }
{
    if same_kind(col.kind, found) {
        Ok(())
    } else {
        Err(wrong_default(alloc, &col.name, col.kind, found))
    }
}

fn default_faults(alloc: Global, col: &Column) -> Result<(), CatFault>
    ensures { Tells (tables.default_faults col.now) result }
{
    match constant_kind(&col.default) {
        None => Ok(()),
        Some(found) => default_fits(alloc, found, col),
    }
}

/// 42804 of DEFAULT.
pub fn defaults_fit(alloc: Global, cols: &[Column]) -> Result<(), CatFault>
    ensures { Tells (flat_map tables.default_faults cols.now) result }
{
    for col in cols {
        default_faults(alloc, col)?;
    }
    Ok(())
}
