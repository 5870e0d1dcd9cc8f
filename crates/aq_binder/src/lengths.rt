//! The faults of the lengths in a statement whose names are there (PostgreSQL source, analyze.c, transformInsertStmt).

ghost use Rattle.std.specs.Prelude.{◌≡◌, ◌==◌, length};
ghost use Rattle.std.specs.List.{list_all, list_any};
ghost use Rattle.aq_base.specs.Names.{same_text};
ghost use Rattle.aq_setup.specs.Lengths as lengths;
ghost use Rattle.aq_refusals.specs.Answers.{Tells};
ghost use Rattle.aq_binder.specs.Repeating.{assignment_repeated};

use crate::scopes::Setting;
use aq_base::{Assignment, Column, Given, Insert, List, Same, Source, TextVal, Update};
use aq_refusals::{CatFault, assigned_twice, few_values, many_values, unequal_rows};
use std::alloc::Global;

fn are_as_long(first: &List<Given>, others: &[List<Given>]) -> bool
    ensures { result ≡ list_all (λ row. length row == length first.now) others.now }
{
    others.iter().all(|row| row.len() == first.len())
}

/// A row of VALUES that is not as long as the first.
fn row_lengths(alloc: Global, rows: &[List<Given>]) -> Result<(), CatFault>
    ensures { Tells (lengths.row_lengths rows.now) result }
{
    match rows.split_first() {
        Some((first, others)) if !are_as_long(first, others) => Err(unequal_rows(alloc)),
        _ => Ok(()),
    }
}

fn first_length(rows: &[List<Given>]) -> usize
    ensures { result ≡ lengths.first_length rows.now }
{
    match rows.first() {
        None => 0,
        Some(first) => first.len(),
    }
}

/// More values than columns, or fewer than the columns that are named.
fn value_count(
    alloc: Global,
    cols: &[Column],
    names: &Option<List<TextVal>>,
    count: usize,
) -> Result<(), CatFault>
    ensures { Tells (lengths.value_count cols.now names.now count) result }
{
    match names {
        None if cols.len() < count => Err(many_values(alloc)),
        Some(names) if names.len() < count => Err(many_values(alloc)),
        Some(names) if count < names.len() => Err(few_values(alloc)),
        _ => Ok(()),
    }
}

fn source_lengths(
    alloc: Global,
    cols: &[Column],
    names: &Option<List<TextVal>>,
    source: &Source,
) -> Result<(), CatFault>
    ensures { Tells (lengths.source_lengths cols.now names.now source.now) result }
{
    match source {
        Source::Values(rows) => {
            row_lengths(alloc, rows.as_slice())?;
            value_count(alloc, cols, names, first_length(rows.as_slice()))
        }
        Source::Query { values, .. } => value_count(alloc, cols, names, values.len()),
    }
}

/// Rows of unequal length, more values than columns, fewer values than named columns.
pub(crate) fn insert_lengths(
    alloc: Global,
    setting: &Setting<'_>,
    s: &Insert,
) -> Result<(), CatFault>
    ensures { Tells (lengths.insert_lengths setting.now s.now) result }
{
    source_lengths(
        alloc,
        setting.catalog.columns_of(&s.table),
        &s.columns,
        &s.source,
    )
}

fn is_assigned(assignments: &[Assignment], column: &TextVal) -> bool
    ensures { result ≡ list_any (λ a. same_text column.now a.column) assignments.now }
{
    assignments.iter().any(|a| column.same(&a.column))
}

/// A column that is assigned before, too.
fn assigned_before(alloc: Global, before: &[Assignment], a: &Assignment) -> Result<(), CatFault>
    ensures { Tells (assignment_repeated before.now a.now) result }
{
    if is_assigned(before, &a.column) {
        return Err(assigned_twice(alloc, &a.column));
    }
    Ok(())
}

/// Columns that are assigned twice.
pub(crate) fn update_lengths(alloc: Global, s: &Update) -> Result<(), CatFault>
    ensures { Tells (lengths.update_lengths s.now) result }
{
    let assignments = s.assignments.as_slice();
    'assignments: for (at, a) in assignments.iter().enumerate() {
        assigned_before(alloc, &assignments[..at], a)?;
    }
    Ok(())
}
