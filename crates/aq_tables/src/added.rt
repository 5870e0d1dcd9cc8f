//! The faults of the constraints that a CREATE TABLE or an ALTER TABLE adds (PostgreSQL manual, pages CREATE TABLE and ALTER TABLE).

ghost use Rattle.std.specs.Prelude.{◌≡◌, ◌+◌, [], ◌∷◌, if◌then◌else◌, codes, filter, map, length, nat_le, not, unwrap_or};
ghost use Rattle.std.specs.List.{flat_map};
ghost use Rattle.aq_base.specs.Names.{is_short as short};
ghost use Rattle.aq_setup.specs.Names.{table_faults as absent};
ghost use Rattle.aq_setup.specs.References as references;
ghost use Rattle.aq_setup.specs.Scopes.{repeats_behind};
ghost use Rattle.aq_setup.specs.Tables as tables;
ghost use Rattle.aq_setup.specs.Constraints as constraints;
ghost use Rattle.aq_refusals.specs.Faults as faults;
ghost use Rattle.aq_refusals.specs.Answers.{Tells};
ghost use Rattle.aq_tables.specs.References.{reference_faults};

use crate::references::{count_faults, key_faults, kind_faults, primary_faults, set_faults};
use aq_additions::{NamedConstraint, NamesTaken, Referring, columns_twice};
use aq_base::{Reference, TableConstraint, TextVal};
use aq_binder::{columns_known, in_session, table_faults};
use aq_catalog::Catalog;
use aq_refusals::{CatFault, constraint_exists, long_name, many_primary_keys, over_limit};
use std::alloc::Global;

fn is_short(name: &TextVal) -> bool
    ensures { result ≡ short name.now }
{
    name.bytes().len() <= 63
}

fn name_length(alloc: Global, name: &TextVal) -> Result<(), CatFault>
    ensures { Tells (if short name.now then [] else faults.long_name name.now ∷ []) result }
{
    if is_short(name) {
        Ok(())
    } else {
        Err(long_name(alloc, name))
    }
}

fn length_of(alloc: Global, n: &NamedConstraint) -> Result<(), CatFault>
    ensures { Tells (if short n.now.name then [] else faults.long_name n.now.name ∷ []) result }
{
    name_length(alloc, &n.name)
}

/// 42622
pub fn long_names(alloc: Global, all: &[NamedConstraint]) -> Result<(), CatFault>
    ensures { Tells (flat_map (λ n. if short n.name then [] else faults.long_name n.name ∷ []) all.now) result }
{
    for n in all {
        length_of(alloc, n)?;
    }
    Ok(())
}

fn is_within(fks: usize, added: usize) -> bool
    ensures { result ≡ nat_le (fks + added) 128 }
{
    match 128usize.checked_sub(added) {
        None => false,
        Some(left) => fks <= left,
    }
}

/// 54000: a number of foreign keys, and of those that are added.
pub fn reference_limit(alloc: Global, fks: usize, added: usize) -> Result<(), CatFault>
    ensures { Tells (if nat_le (fks + added) 128 then [] else faults.over_limit (codes "128 foreign keys") ∷ []) result }
{
    if is_within(fks, added) {
        Ok(())
    } else {
        Err(over_limit(alloc, "128 foreign keys"))
    }
}

/// 42710: a name that a constraint of the table has that stands before.
pub fn constraints_exist(
    alloc: Global,
    table: &TextVal,
    mut taken: NamesTaken<'_>,
    all: &[NamedConstraint],
) -> Result<(), CatFault>
    ensures { Tells (map (faults.constraint_exists table.now) (repeats_behind taken.entry (map (λ n. n.name) all.now))) result }
{
    for n in all {
        if taken.has(&n.name) {
            return Err(constraint_exists(alloc, table, &n.name));
        }
        taken.add(&n.name)?;
    }
    Ok(())
}

fn constrained_columns(c: &TableConstraint) -> &[TextVal]
    ensures { result.now ≡ constraints.constrained_columns c.now }
{
    let (TableConstraint::PrimaryKey { columns, .. }
    | TableConstraint::Unique { columns, .. }
    | TableConstraint::ForeignKey { columns, .. }) = c;
    columns.as_slice()
}

fn columns_named(r: &Reference) -> &[TextVal]
    ensures { result.now ≡ unwrap_or r.now.columns [] }
{
    match &r.columns {
        None => &[],
        Some(columns) => columns.as_slice(),
    }
}

fn referred_names(c: &TableConstraint) -> &[TextVal]
    ensures { result.now ≡ tables.referred_names (constraints.reference_of c.now) }
{
    match c {
        TableConstraint::PrimaryKey { .. } | TableConstraint::Unique { .. } => &[],
        TableConstraint::ForeignKey { reference, .. } => columns_named(reference),
    }
}

/// 42701: in the columns of a key, of a foreign key and of what it refers to.
pub fn listed_twice(alloc: Global, c: &TableConstraint) -> Result<(), CatFault>
    ensures { Tells (tables.listed_twice c.now) result }
{
    columns_twice(alloc, &[], constrained_columns(c))?;
    columns_twice(alloc, &[], referred_names(c))
}

fn is_primary(n: &NamedConstraint) -> bool
    ensures { result ≡ constraints.is_primary n.now.constraint }
{
    matches!(n.constraint, TableConstraint::PrimaryKey { .. })
}

fn is_over_one(had: bool, all: &[NamedConstraint]) -> bool
    ensures { result ≡ not (nat_le ((if had then 1 else 0) + length (filter (λ n. constraints.is_primary n.constraint) all.now)) 1) }
{
    let mut has = had;
    for n in all {
        if is_primary(n) {
            if has {
                return true;
            }
            has = true;
        }
    }
    false
}

/// 42P16: the table has a primary key, or gets a second.
pub fn second_primary(
    alloc: Global,
    table: &TextVal,
    had: bool,
    all: &[NamedConstraint],
) -> Result<(), CatFault>
    ensures { Tells (if nat_le ((if had then 1 else 0) + length (filter (λ n. constraints.is_primary n.constraint) all.now)) 1 then [] else faults.many_primary_keys table.now ∷ []) result }
{
    if is_over_one(had, all) {
        Err(many_primary_keys(alloc, table))
    } else {
        Ok(())
    }
}

fn missing_parent(alloc: Global, catalog: &Catalog, f: &Referring<'_>) -> Result<(), CatFault>
    ensures { Tells (absent catalog.now f.now.reference.table) result }
{
    table_faults(alloc, &in_session(catalog), &f.reference.table)
}

/// 42P01
pub fn missing_parents(
    alloc: Global,
    catalog: &Catalog,
    found: &[Referring<'_>],
) -> Result<(), CatFault>
    ensures { Tells (flat_map (λ f. absent catalog.now f.reference.table) found.now) result }
{
    for f in found {
        missing_parent(alloc, catalog, f)?;
    }
    Ok(())
}

fn missing_referred(alloc: Global, catalog: &Catalog, c: &TableConstraint) -> Result<(), CatFault>
    ensures { Tells (map faults.no_column (tables.referred_unknown catalog.now (constraints.reference_of c.now))) result }
{
    match c {
        TableConstraint::PrimaryKey { .. } | TableConstraint::Unique { .. } => Ok(()),
        TableConstraint::ForeignKey { reference, .. } => columns_known(
            alloc,
            catalog.columns_of(&reference.table),
            columns_named(reference),
        ),
    }
}

fn missing_of(
    alloc: Global,
    catalog: &Catalog,
    table: &TextVal,
    n: &NamedConstraint,
) -> Result<(), CatFault>
    ensures { Tells (map faults.no_column (tables.constraint_unknown catalog.now table.now n.now.constraint)) result }
{
    columns_known(
        alloc,
        catalog.columns_of(table),
        constrained_columns(&n.constraint),
    )?;
    missing_referred(alloc, catalog, &n.constraint)
}

/// 42703
pub fn missing_columns(
    alloc: Global,
    catalog: &Catalog,
    table: &TextVal,
    all: &[NamedConstraint],
) -> Result<(), CatFault>
    ensures { Tells (map faults.no_column (flat_map (λ n. tables.constraint_unknown catalog.now table.now n.constraint) all.now)) result }
{
    for n in all {
        missing_of(alloc, catalog, table, n)?;
    }
    Ok(())
}

fn count_of(alloc: Global, keyed: &Catalog, f: &Referring<'_>) -> Result<(), CatFault>
    ensures { Tells (references.count_faults keyed.now (length f.now.cols) f.now.reference) result }
{
    count_faults(alloc, keyed, f.cols.len(), f.reference)
}

fn unequal_counts(alloc: Global, keyed: &Catalog, found: &[Referring<'_>]) -> Result<(), CatFault>
    ensures { Tells (flat_map (λ f. references.count_faults keyed.now (length f.cols) f.reference) found.now) result }
{
    for f in found {
        count_of(alloc, keyed, f)?;
    }
    Ok(())
}

fn key_of(alloc: Global, keyed: &Catalog, f: &Referring<'_>) -> Result<(), CatFault>
    ensures { Tells (references.key_faults keyed.now f.now.reference) result }
{
    key_faults(alloc, keyed, f.reference)
}

fn without_key(alloc: Global, keyed: &Catalog, found: &[Referring<'_>]) -> Result<(), CatFault>
    ensures { Tells (flat_map (λ f. references.key_faults keyed.now f.reference) found.now) result }
{
    for f in found {
        key_of(alloc, keyed, f)?;
    }
    Ok(())
}

fn primary_of(alloc: Global, keyed: &Catalog, f: &Referring<'_>) -> Result<(), CatFault>
    ensures { Tells (references.primary_faults keyed.now f.now.reference) result }
{
    primary_faults(alloc, keyed, f.reference)
}

fn without_primary(alloc: Global, keyed: &Catalog, found: &[Referring<'_>]) -> Result<(), CatFault>
    ensures { Tells (flat_map (λ f. references.primary_faults keyed.now f.reference) found.now) result }
{
    for f in found {
        primary_of(alloc, keyed, f)?;
    }
    Ok(())
}

fn outside_of(alloc: Global, f: &Referring<'_>) -> Result<(), CatFault>
    ensures { Tells (references.set_faults f.now.cols f.now.reference) result }
{
    set_faults(alloc, f.cols.as_slice(), f.reference)
}

fn outside_keys(alloc: Global, found: &[Referring<'_>]) -> Result<(), CatFault>
    ensures { Tells (flat_map (λ f. references.set_faults f.cols f.reference) found.now) result }
{
    for f in found {
        outside_of(alloc, f)?;
    }
    Ok(())
}

fn kinds_of(
    alloc: Global,
    keyed: &Catalog,
    table: &TextVal,
    f: &Referring<'_>,
) -> Result<(), CatFault>
    ensures { Tells (references.kind_faults keyed.now table.now f.now.name f.now.cols f.now.reference) result }
{
    kind_faults(alloc, keyed, table, f.name, f.cols, f.reference)
}

fn unequal_references(
    alloc: Global,
    keyed: &Catalog,
    table: &TextVal,
    found: &[Referring<'_>],
) -> Result<(), CatFault>
    ensures { Tells (flat_map (λ f. references.kind_faults keyed.now table.now f.name f.cols f.reference) found.now) result }
{
    for f in found {
        kinds_of(alloc, keyed, table, f)?;
    }
    Ok(())
}

/// 42830, 42704, 42P10 and 42804 of foreign keys, in a catalog with the keys of the statement.
pub fn reference_faults(
    alloc: Global,
    keyed: &Catalog,
    table: &TextVal,
    found: &[Referring<'_>],
) -> Result<(), CatFault>
    ensures { Tells (reference_faults keyed.now table.now found.now) result }
{
    unequal_counts(alloc, keyed, found)?;
    without_key(alloc, keyed, found)?;
    without_primary(alloc, keyed, found)?;
    outside_keys(alloc, found)?;
    unequal_references(alloc, keyed, table, found)
}
