//! INSERT and DELETE of the forms that the machine runs.

ghost use Rattle.aq_simple.specs.Forms.{simple_constant, simple_expr, simple_given, simple_row, simple_source, simple_insert, simple_delete, all_of};
ghost use Rattle.aq_simple.specs.Steps.{Gives};

use crate::fault::FormFault;
use aq_base::{Copies, Delete, Expr, Given, Insert, List, Row, Source, Value};
use aq_first_base::SimpleStatement;
use std::alloc::Global;

fn simple_constant(value: &Value) -> Result<Value, FormFault>
    ensures { Gives result (simple_constant value.now) }
{
    match value {
        Value::Null => Ok(Value::Null),
        Value::Int(number) if 0 <= *number && *number <= 2147483647 => Ok(Value::Int(*number)),
        _ => Err(FormFault::NotSimple),
    }
}

fn simple_expr(expr: &Expr) -> Result<Value, FormFault>
    ensures { Gives result (simple_expr expr.now) }
{
    match expr {
        Expr::Constant(value) => simple_constant(value),
        _ => Err(FormFault::NotSimple),
    }
}

fn simple_given(given: &Given) -> Result<Value, FormFault>
    ensures { Gives result (simple_given given.now) }
{
    match given {
        Given::Value(expr) => simple_expr(expr),
        Given::Default => Err(FormFault::NotSimple),
    }
}

fn simple_row(alloc: Global, row: &[Given]) -> Result<Row, FormFault>
    ensures { Gives result (simple_row row.now) }
{
    let mut simple = List::new(alloc);
    for given in row {
        simple.push(simple_given(given)?)?;
    }
    Ok(simple)
}

fn simple_rows(alloc: Global, rows: &[List<Given>]) -> Result<List<Row>, FormFault>
    ensures { Gives result (all_of simple_row rows.now) }
{
    let mut simple = List::new(alloc);
    for row in rows {
        simple.push(simple_row(alloc, row.as_slice())?)?;
    }
    Ok(simple)
}

fn simple_source(alloc: Global, source: &Source) -> Result<List<Row>, FormFault>
    ensures { Gives result (simple_source source.now) }
{
    match source {
        Source::Values(rows) => simple_rows(alloc, rows.as_slice()),
        Source::Query { .. } => Err(FormFault::NotSimple),
    }
}

/// An INSERT of values, without a list of columns.
pub fn simple_insert(alloc: Global, insert: &Insert) -> Result<SimpleStatement, FormFault>
    ensures { Gives result (simple_insert insert.now) }
{
    if insert.columns.is_some() {
        return Err(FormFault::NotSimple);
    }
    let rows = simple_source(alloc, &insert.source)?;
    Ok(SimpleStatement::Insert {
        table: insert.table.copy()?,
        rows,
    })
}

/// A DELETE of all rows.
pub fn simple_delete(delete: &Delete) -> Result<SimpleStatement, FormFault>
    ensures { Gives result (simple_delete delete.now) }
{
    if delete.condition.is_some() {
        return Err(FormFault::NotSimple);
    }
    Ok(SimpleStatement::Delete {
        table: delete.table.copy()?,
    })
}
