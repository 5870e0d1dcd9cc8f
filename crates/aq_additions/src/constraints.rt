//! The constraints that a CREATE TABLE or an ALTER TABLE adds, and their names
//! (PostgreSQL source, indexcmds.c, ChooseIndexName; tablecmds.c, ChooseForeignKeyConstraintNameAddition).

ghost use Rattle.std.specs.Prelude.{◌≡◌, ◌++◌, [], ◌∷◌, IfOk, OnOk, string_bytes, codes};
ghost use Rattle.std.specs.List.{flat_map};
ghost use Rattle.aq_setup.specs.Constraints as constraints;

use crate::taken::NamesTaken;
use aq_base::{AlterTable, ColumnConstraint, Copies, List, TableConstraint, TableItem, TextVal};
use aq_catalog::Catalog;
use std::alloc::{AllocError, Global};
use std::marker::Model;

/// A constraint with its name.
#[derive(Drop)]
pub struct NamedConstraint {
    pub name: TextVal,
    pub constraint: TableConstraint,
}

impl Model for NamedConstraint {
    ghost use Rattle.aq_setup.specs.Constraints.{NamedConstraint as Named};
    ghost use Rattle.std.specs.Coded.{codes};

    ghost Value = { Named };

    ghost coded = { Prim.hlevel codes };

    ghost view = { λ n. record { name = n.name; constraint = n.constraint } };
}

fn alone(alloc: Global, column: &TextVal) -> Result<List<TextVal>, AllocError>
    ensures { IfOk result (λ made. made ≡ column.now ∷ []) }
{
    let mut columns = List::new(alloc);
    columns.push(column.copy()?)?;
    Ok(columns)
}

fn push_of_column(
    alloc: Global,
    out: &mut List<TableConstraint>,
    column: &TextVal,
    found: &ColumnConstraint,
) -> Result<(), AllocError>
    ensures { OnOk result (out.new ≡ out.old ++ constraints.of_column column.now found.now) }
{
    match found {
        ColumnConstraint::NotNull | ColumnConstraint::Default(_) => Ok(()),
        ColumnConstraint::PrimaryKey { name } => out.push(TableConstraint::PrimaryKey {
            name: name.copy()?,
            columns: alone(alloc, column)?,
        }),
        ColumnConstraint::Unique { name } => out.push(TableConstraint::Unique {
            name: name.copy()?,
            columns: alone(alloc, column)?,
        }),
        ColumnConstraint::References { name, reference } => {
            out.push(TableConstraint::ForeignKey {
                name: name.copy()?,
                columns: alone(alloc, column)?,
                reference: reference.copy()?,
            })
        }
    }
}

fn push_of_columns(
    alloc: Global,
    out: &mut List<TableConstraint>,
    column: &TextVal,
    all: &[ColumnConstraint],
) -> Result<(), AllocError>
    ensures { OnOk result (out.new ≡ out.old ++ flat_map (constraints.of_column column.now) all.now) }
{
    for found in all {
        push_of_column(alloc, out, column, found)?;
    }
    Ok(())
}

/// Adds the constraints of an item to others.
pub fn push_of_item(
    alloc: Global,
    out: &mut List<TableConstraint>,
    item: &TableItem,
) -> Result<(), AllocError>
    ensures { OnOk result (out.new ≡ out.old ++ constraints.of_item item.now) }
{
    match item {
        TableItem::Column {
            name,
            constraints,
            ..
        } => { push_of_columns(alloc, out, name, constraints.as_slice()) }
        TableItem::Constraint(constraint) => out.push(constraint.copy()?),
    }
}

/// The constraints of a CREATE TABLE, in the order of the text.
pub fn of_items(alloc: Global, items: &[TableItem]) -> Result<List<TableConstraint>, AllocError>
    ensures { IfOk result (λ made. made ≡ flat_map constraints.of_item items.now) }
{
    let mut made = List::new(alloc);
    for item in items {
        push_of_item(alloc, &mut made, item)?;
    }
    Ok(made)
}

fn push_underscored(out: &mut String, names: &[TextVal]) -> Result<(), AllocError>
    ensures { OnOk result (string_bytes out.new ≡ string_bytes out.old ++ constraints.underscored names.now) }
{
    for name in names {
        out.push_str("_")?;
        out.push_str(name.as_str())?;
    }
    Ok(())
}

fn of_columns(
    alloc: Global,
    table: &TextVal,
    columns: &List<TextVal>,
    ending: &str,
) -> Result<TextVal, AllocError>
    ensures { IfOk result (λ made. made ≡ table.now ++ constraints.underscored columns.now ++ ending.now) }
{
    let mut text = String::from_str(alloc, table.as_str())?;
    push_underscored(&mut text, columns.as_slice())?;
    text.push_str(ending)?;
    Ok(TextVal::from_string(text))
}

fn primary_name(alloc: Global, table: &TextVal) -> Result<TextVal, AllocError>
    ensures { IfOk result (λ made. made ≡ table.now ++ codes "_pkey") }
{
    let mut text = String::from_str(alloc, table.as_str())?;
    text.push_str("_pkey")?;
    Ok(TextVal::from_string(text))
}

fn default_name(
    alloc: Global,
    table: &TextVal,
    constraint: &TableConstraint,
) -> Result<TextVal, AllocError>
    ensures { IfOk result (λ made. made ≡ constraints.default_name table.now constraint.now) }
{
    match constraint {
        TableConstraint::PrimaryKey { .. } => primary_name(alloc, table),
        TableConstraint::Unique { columns, .. } => of_columns(alloc, table, columns, "_key"),
        TableConstraint::ForeignKey { columns, .. } => of_columns(alloc, table, columns, "_fkey"),
    }
}

fn name_of(
    alloc: Global,
    taken: &mut NamesTaken<'_>,
    table: &TextVal,
    constraint: &TableConstraint,
) -> Result<TextVal, AllocError>
    ensures made { IfOk result (λ made. made ≡ constraints.name_of taken.old table.now constraint.now) }
    ensures kept { taken.new ≡ taken.old }
{
    let (TableConstraint::PrimaryKey { name, .. }
    | TableConstraint::Unique { name, .. }
    | TableConstraint::ForeignKey { name, .. }) = constraint;
    match name {
        Some(name) => name.copy(),
        None => taken.free_name(alloc, default_name(alloc, table, constraint)?),
    }
}

/// Constraints with their names, where the table's constraints have some names.
pub fn named(
    alloc: Global,
    mut taken: NamesTaken<'_>,
    table: &TextVal,
    all: &[TableConstraint],
) -> Result<List<NamedConstraint>, AllocError>
    ensures { IfOk result (λ made. made ≡ constraints.named taken.entry table.now all.now) }
{
    let mut made = List::new(alloc);
    for constraint in all {
        let name = name_of(alloc, &mut taken, table, constraint)?;
        taken.add(&name)?;
        made.push(NamedConstraint {
            name,
            constraint: constraint.copy()?,
        })?;
    }
    Ok(made)
}

/// Remembers in the catalog where the search for another default name begins, for a constraint that a statement gives no name. The
/// error is want of memory.
pub fn settle_default_name(
    catalog: &mut Catalog,
    alloc: Global,
    s: &AlterTable,
) -> Result<(), AllocError>
    ensures { catalog.new ≡ catalog.old }
{
    let (TableConstraint::PrimaryKey { name, .. }
    | TableConstraint::Unique { name, .. }
    | TableConstraint::ForeignKey { name, .. }) = &s.constraint;
    match name {
        Some(_) => Ok(()),
        None => {
            let name = default_name(alloc, &s.table, &s.constraint)?;
            let table = catalog.table_at(&s.table);
            catalog.settle_number(alloc, table, &name)
        }
    }
}
