//! The faults of the names in a statement, from left to right (PostgreSQL source, parse_relation.c, parse_target.c).

ghost use Rattle.std.specs.Prelude.{◌≡◌, [], ◌++◌, map};
ghost use Rattle.std.specs.List.{flat_map, list_any};
ghost use Rattle.aq_base.specs.Names.{same_text};
ghost use Rattle.aq_refusals.specs.Faults as faults;
ghost use Rattle.aq_setup.specs.Names as names;
ghost use Rattle.aq_setup.specs.Scopes.{query_scope};
ghost use Rattle.aq_refusals.specs.Answers.{Tells};
ghost use Rattle.aq_binder.specs.Repeating.{repeated, column_faults};

use crate::scopes::{
    Scope, Setting, is_transition, no_row, qualified_cols, query_scope, table_scope,
};
use aq_base::{
    Assignment, Column, Columns, Delete, Expr, Given, Insert, List, Same, Select, Source, TextVal,
    Update,
};
use aq_catalog::column_at;
use aq_refusals::{CatFault, column_twice, no_column, no_relation, no_target};
use std::alloc::Global;

/// Whether a text is in a list.
pub fn is_in(names: &[TextVal], name: &TextVal) -> bool
    ensures { result ≡ list_any (same_text name.now) names.now }
{
    names.iter().any(|other| name.same(other))
}

/// A table that is not there.
pub fn table_faults(alloc: Global, setting: &Setting<'_>, table: &TextVal) -> Result<(), CatFault>
    ensures { Tells (names.table_faults setting.now.catalog table.now) result }
{
    match setting.catalog.table_at(table) {
        Some(_) => Ok(()),
        None => Err(no_relation(alloc, table)),
    }
}

/// A column that is not there.
fn known(alloc: Global, cols: &[Column], name: &TextVal) -> Result<(), CatFault>
    ensures { Tells (map faults.no_column (names.unknown cols.now name.now)) result }
{
    match column_at(cols, name) {
        Some(_) => Ok(()),
        None => Err(no_column(alloc, name)),
    }
}

/// The columns of an expression that are not there.
pub(crate) fn expression_names(alloc: Global, scope: &Scope<'_>, e: &Expr) -> Result<(), CatFault>
    ensures { Tells (names.expression_names scope.now e.now) result }
{
    match e {
        Expr::Constant(_) | Expr::Operation => Ok(()),
        Expr::Column(column) => known(alloc, scope.cols, column),
        Expr::Qualified { table, column } => known(alloc, qualified_cols(scope, table), column),
        Expr::Old(column) | Expr::New(column) => known(alloc, scope.changed, column),
        Expr::Unary { operand, .. } => expression_names(alloc, scope, operand.get()),
        Expr::Binary { left, right, .. } => {
            expression_names(alloc, scope, left.get())?;
            expression_names(alloc, scope, right.get())
        }
    }
}

fn condition_names(
    alloc: Global,
    scope: &Scope<'_>,
    condition: &Option<Expr>,
) -> Result<(), CatFault>
    ensures { Tells (names.condition_names scope.now condition.now) result }
{
    match condition {
        None => Ok(()),
        Some(e) => expression_names(alloc, scope, e),
    }
}

fn given_names(alloc: Global, scope: &Scope<'_>, given: &Given) -> Result<(), CatFault>
    ensures { Tells (names.given_names scope.now given.now) result }
{
    match given {
        Given::Value(e) => expression_names(alloc, scope, e),
        Given::Default => Ok(()),
    }
}

/// A target column that is not there.
fn target(alloc: Global, table: &TextVal, cols: &[Column], column: &TextVal) -> Result<(), CatFault>
    ensures { Tells (names.target_faults table.now cols.now column.now) result }
{
    match column_at(cols, column) {
        Some(_) => Ok(()),
        None => Err(no_target(alloc, table, column)),
    }
}

/// A target column that stands before, too.
fn named_before(alloc: Global, before: &[TextVal], column: &TextVal) -> Result<(), CatFault>
    ensures { Tells (repeated faults.column_twice before.now column.now) result }
{
    if is_in(before, column) {
        return Err(column_twice(alloc, column));
    }
    Ok(())
}

/// A target column of an INSERT behind those before it.
fn insert_column(
    alloc: Global,
    table: &TextVal,
    cols: &[Column],
    before: &[TextVal],
    column: &TextVal,
) -> Result<(), CatFault>
    ensures { Tells (column_faults table.now cols.now before.now column.now) result }
{
    target(alloc, table, cols, column)?;
    named_before(alloc, before, column)
}

/// The target columns of an INSERT.
fn insert_columns(
    alloc: Global,
    table: &TextVal,
    cols: &[Column],
    columns: &[TextVal],
) -> Result<(), CatFault>
    ensures { Tells (names.insert_columns table.now cols.now [] columns.now) result }
{
    'columns: for (at, column) in columns.iter().enumerate() {
        insert_column(alloc, table, cols, &columns[..at], column)?;
    }
    Ok(())
}

fn named_columns(
    alloc: Global,
    table: &TextVal,
    cols: &[Column],
    columns: &Option<List<TextVal>>,
) -> Result<(), CatFault>
    ensures { Tells (names.named_columns table.now cols.now columns.now) result }
{
    match columns {
        None => Ok(()),
        Some(columns) => insert_columns(alloc, table, cols, columns.as_slice()),
    }
}

fn row_names(alloc: Global, scope: &Scope<'_>, row: &[Given]) -> Result<(), CatFault>
    ensures { Tells (flat_map (names.given_names scope.now) row.now) result }
{
    'values: for given in row {
        given_names(alloc, scope, given)?;
    }
    Ok(())
}

fn rows_names(alloc: Global, scope: &Scope<'_>, rows: &[List<Given>]) -> Result<(), CatFault>
    ensures { Tells (flat_map (λ row. flat_map (names.given_names scope.now) row) rows.now) result }
{
    'rows: for row in rows {
        row_names(alloc, scope, row.as_slice())?;
    }
    Ok(())
}

fn values_names(alloc: Global, scope: &Scope<'_>, values: &[Expr]) -> Result<(), CatFault>
    ensures { Tells (flat_map (names.expression_names scope.now) values.now) result }
{
    'values: for e in values {
        expression_names(alloc, scope, e)?;
    }
    Ok(())
}

/// A table behind FROM that is not there. A transition table always is.
fn from_faults(alloc: Global, setting: &Setting<'_>, table: &TextVal) -> Result<(), CatFault>
    ensures { Tells (names.from_faults setting.now table.now) result }
{
    if is_transition(setting, table) {
        return Ok(());
    }
    table_faults(alloc, setting, table)
}

/// A query behind INSERT INTO.
fn query_names<'a>(
    alloc: Global,
    setting: &Setting<'a>,
    values: &List<Expr>,
    table: &'a TextVal,
    condition: &Option<Expr>,
) -> Result<(), CatFault>
    ensures { Tells (names.from_faults setting.now table.now ++ (flat_map (names.expression_names (query_scope setting.now table.now)) values.now ++ names.condition_names (query_scope setting.now table.now) condition.now)) result }
{
    let scope = query_scope(setting, table);
    from_faults(alloc, setting, table)?;
    values_names(alloc, &scope, values.as_slice())?;
    condition_names(alloc, &scope, condition)
}

fn source_names<'a>(
    alloc: Global,
    setting: &Setting<'a>,
    source: &'a Source,
) -> Result<(), CatFault>
    ensures { Tells (names.source_names setting.now source.now) result }
{
    match source {
        Source::Values(rows) => rows_names(alloc, &no_row(setting.changed), rows.as_slice()),
        Source::Query {
            values,
            table,
            condition,
        } => query_names(alloc, setting, values, table, condition),
    }
}

pub(crate) fn insert_names<'a>(
    alloc: Global,
    setting: &Setting<'a>,
    s: &'a Insert,
) -> Result<(), CatFault>
    ensures { Tells (names.insert_names setting.now s.now) result }
{
    let cols = setting.catalog.columns_of(&s.table);
    table_faults(alloc, setting, &s.table)?;
    named_columns(alloc, &s.table, cols, &s.columns)?;
    source_names(alloc, setting, &s.source)
}

fn assignment_names(
    alloc: Global,
    table: &TextVal,
    scope: &Scope<'_>,
    a: &Assignment,
) -> Result<(), CatFault>
    ensures { Tells (names.assignment_names table.now scope.now a.now) result }
{
    target(alloc, table, scope.cols, &a.column)?;
    given_names(alloc, scope, &a.value)
}

fn assignments_names(
    alloc: Global,
    table: &TextVal,
    scope: &Scope<'_>,
    assignments: &[Assignment],
) -> Result<(), CatFault>
    ensures { Tells (flat_map (names.assignment_names table.now scope.now) assignments.now) result }
{
    'assignments: for assignment in assignments {
        assignment_names(alloc, table, scope, assignment)?;
    }
    Ok(())
}

pub(crate) fn update_names<'a>(
    alloc: Global,
    setting: &Setting<'a>,
    s: &'a Update,
) -> Result<(), CatFault>
    ensures { Tells (names.update_names setting.now s.now) result }
{
    let scope = table_scope(setting, &s.table);
    table_faults(alloc, setting, &s.table)?;
    assignments_names(alloc, &s.table, &scope, s.assignments.as_slice())?;
    condition_names(alloc, &scope, &s.condition)
}

pub(crate) fn delete_names<'a>(
    alloc: Global,
    setting: &Setting<'a>,
    s: &'a Delete,
) -> Result<(), CatFault>
    ensures { Tells (names.delete_names setting.now s.now) result }
{
    table_faults(alloc, setting, &s.table)?;
    condition_names(alloc, &table_scope(setting, &s.table), &s.condition)
}

/// Columns that are not there, in the order of the text.
pub fn columns_known(alloc: Global, cols: &[Column], columns: &[TextVal]) -> Result<(), CatFault>
    ensures { Tells (map faults.no_column (flat_map (names.unknown cols.now) columns.now)) result }
{
    'columns: for column in columns {
        known(alloc, cols, column)?;
    }
    Ok(())
}

/// The columns that a SELECT shows.
fn shown_names(alloc: Global, cols: &[Column], columns: &Columns) -> Result<(), CatFault>
    ensures { Tells (names.shown_names cols.now columns.now) result }
{
    match columns {
        Columns::All => Ok(()),
        Columns::Named(columns) => columns_known(alloc, cols, columns.as_slice()),
    }
}

pub(crate) fn select_names<'a>(
    alloc: Global,
    setting: &Setting<'a>,
    s: &'a Select,
) -> Result<(), CatFault>
    ensures { Tells (names.select_names setting.now s.now) result }
{
    table_faults(alloc, setting, &s.table)?;
    shown_names(alloc, setting.catalog.columns_of(&s.table), &s.columns)?;
    condition_names(alloc, &table_scope(setting, &s.table), &s.condition)
}
