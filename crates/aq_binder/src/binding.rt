//! Numbers for names, where each name is there.

ghost use Rattle.std.specs.Prelude.{◌≡◌, IfOk, map, option_map};
ghost use Rattle.aq_catalog.specs.Catalogs as catalogs;
ghost use Rattle.aq_setup.specs.Binding as binding;
ghost use Rattle.aq_base.specs.declared.bound_data.BoundSource.TheVariants.{Query};

use crate::scopes::{Scope, Setting, is_text, no_row, query_scope, table_scope};
use aq_base::{
    Assignment, BoundAssignment, BoundColumns, BoundDelete, BoundExpr, BoundFrom, BoundGiven,
    BoundInsert, BoundSelect, BoundSource, BoundUpdate, Boxed, ColNo, Column, Columns, Copies,
    Delete, Expr, Given, Insert, List, Select, Source, TabNo, TextVal, Update,
};
use aq_catalog::{Catalog, in_16_bits, number_of_column, number_of_table, numbers_of_columns};
use std::alloc::{AllocError, Global};

/// The number of the column with a name, and 0 where there is none. The error is that it has no room in 16 bits.
fn bound_column(cols: &[Column], name: &TextVal) -> Result<ColNo, AllocError>
    ensures { IfOk result (λ no. no ≡ catalogs.number_of_column cols.now name.now) }
{
    Ok(ColNo::new(in_16_bits(number_of_column(cols, name))?))
}

/// The number of the table with a name, and 0 where there is none. The error is that it has no room in 16 bits.
pub fn bound_table(catalog: &Catalog, name: &TextVal) -> Result<TabNo, AllocError>
    ensures { IfOk result (λ no. no ≡ catalogs.number_of_table catalog.now name.now) }
{
    Ok(TabNo::new(in_16_bits(number_of_table(catalog, name))?))
}

#[cycle(bound)]
fn bound_operand(
    alloc: Global,
    scope: &Scope<'_>,
    operand: &Boxed<Expr>,
) -> Result<Boxed<BoundExpr>, AllocError>
    ensures { IfOk result (λ made. made ≡ binding.bound_expression scope.now operand.now) }
{
    Boxed::new(alloc, bound_expression(alloc, scope, operand.get())?)
}

#[cycle(bound)]
pub(crate) fn bound_expression(
    alloc: Global,
    scope: &Scope<'_>,
    e: &Expr,
) -> Result<BoundExpr, AllocError>
    ensures { IfOk result (λ made. made ≡ binding.bound_expression scope.now e.now) }
{
    match e {
        Expr::Constant(value) => Ok(BoundExpr::Constant(value.copy()?)),
        Expr::Column(column) => Ok(BoundExpr::Column(bound_column(scope.cols, column)?)),
        Expr::Qualified { column, .. } => {
            Ok(BoundExpr::Column(bound_column(scope.cols, column)?))
        }
        Expr::Old(column) => Ok(BoundExpr::Old(bound_column(scope.changed, column)?)),
        Expr::New(column) => Ok(BoundExpr::New(bound_column(scope.changed, column)?)),
        Expr::Operation => Ok(BoundExpr::Operation),
        Expr::Unary { operator, operand } => Ok(BoundExpr::Unary {
            operator: *operator,
            operand: bound_operand(alloc, scope, operand)?,
        }),
        Expr::Binary {
            left,
            operator,
            right,
        } => Ok(BoundExpr::Binary {
            left: bound_operand(alloc, scope, left)?,
            operator: *operator,
            right: bound_operand(alloc, scope, right)?,
        }),
    }
}

/// The condition of a statement, if it has one.
pub fn bound_condition(
    alloc: Global,
    scope: &Scope<'_>,
    condition: &Option<Expr>,
) -> Result<Option<BoundExpr>, AllocError>
    ensures { IfOk result (λ made. made ≡ binding.bound_condition scope.now condition.now) }
{
    match condition {
        None => Ok(None),
        Some(e) => Ok(Some(bound_expression(alloc, scope, e)?)),
    }
}

fn bound_given(alloc: Global, scope: &Scope<'_>, given: &Given) -> Result<BoundGiven, AllocError>
    ensures { IfOk result (λ made. made ≡ binding.bound_given scope.now given.now) }
{
    match given {
        Given::Value(e) => Ok(BoundGiven::Value(bound_expression(alloc, scope, e)?)),
        Given::Default => Ok(BoundGiven::Default),
    }
}

fn bound_row(
    alloc: Global,
    scope: &Scope<'_>,
    row: &[Given],
) -> Result<List<BoundGiven>, AllocError>
    ensures { IfOk result (λ made. made ≡ map (binding.bound_given scope.now) row.now) }
{
    let mut made = List::new(alloc);
    for given in row {
        made.push(bound_given(alloc, scope, given)?)?;
    }
    Ok(made)
}

fn bound_rows(
    alloc: Global,
    scope: &Scope<'_>,
    rows: &[List<Given>],
) -> Result<List<List<BoundGiven>>, AllocError>
    ensures { IfOk result (λ made. made ≡ map (λ row. map (binding.bound_given scope.now) row) rows.now) }
{
    let mut made = List::new(alloc);
    for row in rows {
        made.push(bound_row(alloc, scope, row.as_slice())?)?;
    }
    Ok(made)
}

fn bound_values(
    alloc: Global,
    scope: &Scope<'_>,
    values: &[Expr],
) -> Result<List<BoundExpr>, AllocError>
    ensures { IfOk result (λ made. made ≡ map (binding.bound_expression scope.now) values.now) }
{
    let mut made = List::new(alloc);
    for value in values {
        made.push(bound_expression(alloc, scope, value)?)?;
    }
    Ok(made)
}

fn bound_from(setting: &Setting<'_>, name: &TextVal) -> Result<BoundFrom, AllocError>
    ensures { IfOk result (λ made. made ≡ binding.bound_from setting.now name.now) }
{
    if is_text(setting.old_table, name) {
        Ok(BoundFrom::OldTable)
    } else if is_text(setting.new_table, name) {
        Ok(BoundFrom::NewTable)
    } else {
        Ok(BoundFrom::Table(bound_table(setting.catalog, name)?))
    }
}

/// A query over the rows of a table, whose expressions stand in a scope.
fn bound_query(
    alloc: Global,
    setting: &Setting<'_>,
    scope: &Scope<'_>,
    values: &[Expr],
    table: &TextVal,
    condition: &Option<Expr>,
) -> Result<BoundSource, AllocError>
    ensures { IfOk result (λ made. made ≡ Query (map (binding.bound_expression scope.now) values.now) (binding.bound_from setting.now table.now) (binding.bound_condition scope.now condition.now)) }
{
    Ok(BoundSource::Query {
        values: bound_values(alloc, scope, values)?,
        rows: bound_from(setting, table)?,
        condition: bound_condition(alloc, scope, condition)?,
    })
}

fn bound_source(
    alloc: Global,
    setting: &Setting<'_>,
    source: &Source,
) -> Result<BoundSource, AllocError>
    ensures { IfOk result (λ made. made ≡ binding.bound_source setting.now source.now) }
{
    match source {
        Source::Values(rows) => Ok(BoundSource::Values(bound_rows(
            alloc,
            &no_row(setting.changed),
            rows.as_slice(),
        )?)),
        Source::Query {
            values,
            table,
            condition,
        } => bound_query(
            alloc,
            setting,
            &query_scope(setting, table),
            values.as_slice(),
            table,
            condition,
        ),
    }
}

fn bound_targets(
    alloc: Global,
    cols: &[Column],
    columns: &Option<List<TextVal>>,
) -> Result<Option<List<ColNo>>, AllocError>
    ensures { IfOk result (λ made. made ≡ option_map (λ names. map (catalogs.number_of_column cols.now) names) columns.now) }
{
    match columns {
        None => Ok(None),
        Some(names) => Ok(Some(numbers_of_columns(alloc, cols, names.as_slice())?)),
    }
}

pub(crate) fn bound_insert(
    alloc: Global,
    setting: &Setting<'_>,
    s: &Insert,
) -> Result<BoundInsert, AllocError>
    ensures { IfOk result (λ made. made ≡ binding.bound_insert setting.now s.now) }
{
    Ok(BoundInsert {
        table: bound_table(setting.catalog, &s.table)?,
        columns: bound_targets(alloc, setting.catalog.columns_of(&s.table), &s.columns)?,
        source: bound_source(alloc, setting, &s.source)?,
    })
}

fn bound_assignment(
    alloc: Global,
    scope: &Scope<'_>,
    assignment: &Assignment,
) -> Result<BoundAssignment, AllocError>
    ensures { IfOk result (λ made. made ≡ binding.bound_assignment scope.now assignment.now) }
{
    Ok(BoundAssignment {
        column: bound_column(scope.cols, &assignment.column)?,
        value: bound_given(alloc, scope, &assignment.value)?,
    })
}

fn bound_assignments(
    alloc: Global,
    scope: &Scope<'_>,
    assignments: &[Assignment],
) -> Result<List<BoundAssignment>, AllocError>
    ensures { IfOk result (λ made. made ≡ map (binding.bound_assignment scope.now) assignments.now) }
{
    let mut made = List::new(alloc);
    for assignment in assignments {
        made.push(bound_assignment(alloc, scope, assignment)?)?;
    }
    Ok(made)
}

pub(crate) fn bound_update(
    alloc: Global,
    setting: &Setting<'_>,
    s: &Update,
) -> Result<BoundUpdate, AllocError>
    ensures { IfOk result (λ made. made ≡ binding.bound_update setting.now s.now) }
{
    let scope = table_scope(setting, &s.table);
    Ok(BoundUpdate {
        table: bound_table(setting.catalog, &s.table)?,
        assignments: bound_assignments(alloc, &scope, s.assignments.as_slice())?,
        condition: bound_condition(alloc, &scope, &s.condition)?,
    })
}

pub(crate) fn bound_delete(
    alloc: Global,
    setting: &Setting<'_>,
    s: &Delete,
) -> Result<BoundDelete, AllocError>
    ensures { IfOk result (λ made. made ≡ binding.bound_delete setting.now s.now) }
{
    Ok(BoundDelete {
        table: bound_table(setting.catalog, &s.table)?,
        condition: bound_condition(alloc, &table_scope(setting, &s.table), &s.condition)?,
    })
}

fn bound_columns(
    alloc: Global,
    cols: &[Column],
    columns: &Columns,
) -> Result<BoundColumns, AllocError>
    ensures { IfOk result (λ made. made ≡ binding.bound_columns cols.now columns.now) }
{
    match columns {
        Columns::All => Ok(BoundColumns::All),
        Columns::Named(names) => Ok(BoundColumns::Named(numbers_of_columns(
            alloc,
            cols,
            names.as_slice(),
        )?)),
    }
}

pub(crate) fn bound_select(
    alloc: Global,
    setting: &Setting<'_>,
    s: &Select,
) -> Result<BoundSelect, AllocError>
    ensures { IfOk result (λ made. made ≡ binding.bound_select setting.now s.now) }
{
    Ok(BoundSelect {
        columns: bound_columns(alloc, setting.catalog.columns_of(&s.table), &s.columns)?,
        table: bound_table(setting.catalog, &s.table)?,
        condition: bound_condition(alloc, &table_scope(setting, &s.table), &s.condition)?,
        lock: s.lock,
    })
}
