//! The table that a CREATE TABLE makes (PostgreSQL manual, page CREATE TABLE).

ghost use Rattle.std.specs.Prelude.{◌≡◌, ◌++◌, IfOk, OnOk};
ghost use Rattle.std.specs.List.{flat_map, list_any};
ghost use Rattle.aq_catalog.specs.Catalogs.{places};
ghost use Rattle.aq_setup.specs.Tables as tables;

use aq_base::{
    ColNo, Column, ColumnConstraint, Copies, CreateTable, List, Table, TableItem, Value,
};
use aq_catalog::in_16_bits;
use std::alloc::{AllocError, Global};

fn default_in(found: &[ColumnConstraint]) -> Result<Value, AllocError>
    ensures { IfOk result (λ made. made ≡ tables.default_in found.now) }
{
    for constraint in found {
        if let ColumnConstraint::Default(value) = constraint {
            return value.copy();
        }
    }
    Ok(Value::Null)
}

fn is_not_null(constraint: &ColumnConstraint) -> bool
    ensures { result ≡ tables.is_not_null constraint.now }
{
    matches!(constraint, ColumnConstraint::NotNull)
}

fn has_not_null(found: &[ColumnConstraint]) -> bool
    ensures { result ≡ list_any tables.is_not_null found.now }
{
    found.iter().any(|constraint| is_not_null(constraint))
}

fn push_item_columns(out: &mut List<Column>, item: &TableItem) -> Result<(), AllocError>
    ensures { OnOk result (out.new ≡ out.old ++ tables.item_columns item.now) }
{
    match item {
        TableItem::Column {
            name,
            kind,
            constraints,
        } => out.push(Column {
            name: name.copy()?,
            kind: *kind,
            default: default_in(constraints.as_slice())?,
        }),
        TableItem::Constraint(_) => Ok(()),
    }
}

/// The columns of a CREATE TABLE.
pub fn declared_columns(alloc: Global, items: &[TableItem]) -> Result<List<Column>, AllocError>
    ensures { IfOk result (λ made. made ≡ tables.declared_columns items.now) }
{
    let mut made = List::new(alloc);
    for item in items {
        push_item_columns(&mut made, item)?;
    }
    Ok(made)
}

fn push_item_nulls(out: &mut List<bool>, item: &TableItem) -> Result<(), AllocError>
    ensures { OnOk result (out.new ≡ out.old ++ tables.item_nulls item.now) }
{
    match item {
        TableItem::Column { constraints, .. } => out.push(has_not_null(constraints.as_slice())),
        TableItem::Constraint(_) => Ok(()),
    }
}

fn declared_nulls(alloc: Global, items: &[TableItem]) -> Result<List<bool>, AllocError>
    ensures { IfOk result (λ made. made ≡ flat_map tables.item_nulls items.now) }
{
    let mut made = List::new(alloc);
    for item in items {
        push_item_nulls(&mut made, item)?;
    }
    Ok(made)
}

fn true_places(alloc: Global, tests: &[bool]) -> Result<List<ColNo>, AllocError>
    ensures { IfOk result (λ made. made ≡ places (λ b. b) tests.now) }
{
    let mut made = List::new(alloc);
    for (number, test) in tests.iter().enumerate() {
        if *test {
            made.push(ColNo::new(in_16_bits(number)?))?;
        }
    }
    Ok(made)
}

/// The table that a CREATE TABLE makes.
pub fn declared_table(alloc: Global, s: &CreateTable) -> Result<Table, AllocError>
    ensures { IfOk result (λ made. made ≡ tables.declared_table s.now) }
{
    let nulls = declared_nulls(alloc, s.items.as_slice())?;
    Ok(Table {
        name: s.table.copy()?,
        cols: declared_columns(alloc, s.items.as_slice())?,
        not_null: true_places(alloc, nulls.as_slice())?,
    })
}
