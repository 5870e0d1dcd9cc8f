//! What a foreign key refers to, and its faults (PostgreSQL source, tablecmds.c, ATAddForeignKeyConstraint). The catalog has the keys of
//! the statement itself.

ghost use Rattle.std.specs.Prelude.{◌≡◌, [], ◌∷◌, if◌then◌else◌, unwrap_or, zip};
ghost use Rattle.std.specs.List.{list_all, list_any};
ghost use Rattle.aq_base.specs.Names.{same_text};
ghost use Rattle.aq_catalog.specs.Catalogs.{number_of_column, is_number_in};
ghost use Rattle.aq_setup.specs.References as references;
ghost use Rattle.aq_refusals.specs.Faults as faults;
ghost use Rattle.aq_refusals.specs.Answers.{Tells};
ghost use Rattle.aq_tables.specs.Pairs.{fit_at};

use aq_additions::parent_cols;
use aq_base::{ColNo, Column, Kind, List, Reference, TextVal};
use aq_binder::{is_in, same_kind};
use aq_catalog::{Catalog, is_column_in, kind_at, number_of_column, number_of_table};
use aq_refusals::{
    CatFault, no_key_column, no_primary_key, no_such_key, unequal_columns, unequal_kinds,
};
use std::alloc::Global;

fn are_all_in(a: &[ColNo], b: &[ColNo]) -> bool
    ensures { result ≡ list_all (is_number_in b.now) a.now }
{
    a.iter().all(|col| is_column_in(b, usize::from(col.get())))
}

fn same_columns(a: &[ColNo], b: &[ColNo]) -> bool
    ensures { result ≡ references.same_columns a.now b.now }
{
    a.len() == b.len() && are_all_in(a, b)
}

/// Whether a table has a key of these columns, in any order.
pub(crate) fn is_key(catalog: &Catalog, table: usize, cols: &[ColNo]) -> bool
    ensures { result ≡ references.is_key catalog.now table cols.now }
{
    catalog.all_keys().iter().any(|key| {
        usize::from(key.table.get()) == table && same_columns(key.cols.as_slice(), cols)
    })
}

/// A foreign key of so many columns refers to as many.
pub(crate) fn count_faults(
    alloc: Global,
    catalog: &Catalog,
    count: usize,
    r: &Reference,
) -> Result<(), CatFault>
    ensures { Tells (references.count_faults catalog.now count r.now) result }
{
    match parent_cols(alloc, catalog, r)? {
        None => Ok(()),
        Some(cols) => {
            if cols.len() == count {
                Ok(())
            } else {
                Err(unequal_columns(alloc))
            }
        }
    }
}

/// What is referred to is a key.
pub(crate) fn key_faults(alloc: Global, catalog: &Catalog, r: &Reference) -> Result<(), CatFault>
    ensures { Tells (references.key_faults catalog.now r.now) result }
{
    match parent_cols(alloc, catalog, r)? {
        None => Ok(()),
        Some(cols) => {
            if is_key(catalog, number_of_table(catalog, &r.table), cols.as_slice()) {
                Ok(())
            } else {
                Err(no_such_key(alloc, &r.table))
            }
        }
    }
}

/// A table that is referred to without columns has a primary key.
pub(crate) fn primary_faults(
    alloc: Global,
    catalog: &Catalog,
    r: &Reference,
) -> Result<(), CatFault>
    ensures { Tells (references.primary_faults catalog.now r.now) result }
{
    match parent_cols(alloc, catalog, r)? {
        None => Err(no_primary_key(alloc, &r.table)),
        Some(_) => Ok(()),
    }
}

fn set_columns(r: &Reference) -> &[TextVal]
    ensures { result.now ≡ unwrap_or r.now.set_columns [] }
{
    match &r.set_columns {
        None => &[],
        Some(names) => names.as_slice(),
    }
}

fn set_column(alloc: Global, cols: &[TextVal], name: &TextVal) -> Result<(), CatFault>
    ensures { Tells (if list_any (same_text name.now) cols.now then [] else faults.no_key_column name.now ∷ []) result }
{
    if is_in(cols, name) {
        Ok(())
    } else {
        Err(no_key_column(alloc, name))
    }
}

/// The columns of the list behind ON DELETE are columns of the foreign key.
pub(crate) fn set_faults(alloc: Global, cols: &[TextVal], r: &Reference) -> Result<(), CatFault>
    ensures { Tells (references.set_faults cols.now r.now) result }
{
    for name in set_columns(r) {
        set_column(alloc, cols, name)?;
    }
    Ok(())
}

fn kinds_fit(a: Option<Kind>, b: Option<Kind>) -> bool
    ensures { result ≡ references.kinds_fit a b }
{
    match (a, b) {
        (Some(a), Some(b)) => same_kind(a, b),
        _ => true,
    }
}

fn kinds_fit_at(child: &[Column], name: &TextVal, parent: &[Column], number: ColNo) -> bool
    ensures { result ≡ fit_at child.now parent.now (name.now, number) }
{
    kinds_fit(
        kind_at(child, number_of_column(child, name)),
        kind_at(parent, usize::from(number.get())),
    )
}

fn all_fit(child: &[Column], names: &[TextVal], parent: &[Column], numbers: &[ColNo]) -> bool
    ensures { result ≡ list_all (fit_at child.now parent.now) (zip names.now numbers.now) }
{
    names.iter().zip(numbers.iter()).all(|(name, number)| kinds_fit_at(
        child, name, parent, *number,
    ))
}

#[tactic(auto, using(crate::proofs::Pairs::all_fit_as_kinds))]
fn all_kinds_fit(child: &[Column], names: &[TextVal], parent: &[Column], numbers: &[ColNo]) -> bool
    ensures { result ≡ references.all_kinds_fit child.now names.now parent.now numbers.now }
{
    all_fit(child, names, parent, numbers)
}

/// Each column of a foreign key has the kind of the one that it refers to.
pub(crate) fn kind_faults(
    alloc: Global,
    catalog: &Catalog,
    table: &TextVal,
    name: &TextVal,
    cols: &List<TextVal>,
    r: &Reference,
) -> Result<(), CatFault>
    ensures { Tells (references.kind_faults catalog.now table.now name.now cols.now r.now) result }
{
    match parent_cols(alloc, catalog, r)? {
        None => Ok(()),
        Some(numbers) => {
            let child = catalog.columns_of(table);
            let parent = catalog.columns_of(&r.table);
            if all_kinds_fit(child, cols.as_slice(), parent, numbers.as_slice()) {
                Ok(())
            } else {
                Err(unequal_kinds(alloc, name))
            }
        }
    }
}
