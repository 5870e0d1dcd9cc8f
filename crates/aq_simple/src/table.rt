//! CREATE TABLE of the forms that the machine runs.

ghost use Rattle.std.specs.Prelude.{◌≡◌};
ghost use Rattle.aq_simple.specs.Forms.{is_integer, is_simple_match, is_no_action, simple_reference, simple_constraint, simple_constraints, simple_column, simple_item, simple_create, all_of};
ghost use Rattle.aq_simple.specs.Steps.{Gives};

use crate::fault::FormFault;
use aq_base::{
    Action, ColumnConstraint, Copies, CreateTable, Kind, List, Match, Reference, TableItem, TextVal,
};
use aq_first_base::{SimpleColumn, SimpleConstraint, SimpleStatement};
use std::alloc::Global;

fn is_integer(kind: Kind) -> bool
    ensures { result ≡ is_integer kind }
{
    matches!(kind, Kind::Integer)
}

fn is_simple_match(matching: Match) -> bool
    ensures { result ≡ is_simple_match matching }
{
    matches!(matching, Match::Simple)
}

fn is_no_action(action: Action) -> bool
    ensures { result ≡ is_no_action action }
{
    matches!(action, Action::NoAction)
}

fn simple_reference(reference: &Reference) -> Result<SimpleConstraint, FormFault>
    ensures { Gives result (simple_reference reference.now) }
{
    if reference.columns.is_none()
        && is_simple_match(reference.matching)
        && is_no_action(reference.on_delete)
        && is_no_action(reference.on_update)
    {
        return Ok(SimpleConstraint::References {
            table: reference.table.copy()?,
            decl: reference.timing,
        });
    }
    Err(FormFault::NotSimple)
}

fn simple_constraint(constraint: &ColumnConstraint) -> Result<SimpleConstraint, FormFault>
    ensures { Gives result (simple_constraint constraint.now) }
{
    match constraint {
        ColumnConstraint::PrimaryKey { name: None } => Ok(SimpleConstraint::PrimaryKey),
        ColumnConstraint::References {
            name: None,
            reference,
        } => simple_reference(reference),
        _ => Err(FormFault::NotSimple),
    }
}

/// The constraint of a column, where there is one.
fn simple_constraints(
    constraints: &[ColumnConstraint],
) -> Result<Option<SimpleConstraint>, FormFault>
    ensures { Gives result (simple_constraints constraints.now) }
{
    match constraints {
        [] => Ok(None),
        [constraint] => Ok(Some(simple_constraint(constraint)?)),
        _ => Err(FormFault::NotSimple),
    }
}

fn simple_column(
    name: &TextVal,
    kind: Kind,
    constraints: &[ColumnConstraint],
) -> Result<SimpleColumn, FormFault>
    ensures { Gives result (simple_column name.now kind constraints.now) }
{
    if !is_integer(kind) {
        return Err(FormFault::NotSimple);
    }
    let constraint = simple_constraints(constraints)?;
    Ok(SimpleColumn {
        name: name.copy()?,
        kind,
        constraint,
    })
}

fn simple_item(item: &TableItem) -> Result<SimpleColumn, FormFault>
    ensures { Gives result (simple_item item.now) }
{
    match item {
        TableItem::Column {
            name,
            kind,
            constraints,
        } => simple_column(name, *kind, constraints.as_slice()),
        TableItem::Constraint(_) => Err(FormFault::NotSimple),
    }
}

fn simple_items(alloc: Global, items: &[TableItem]) -> Result<List<SimpleColumn>, FormFault>
    ensures { Gives result (all_of simple_item items.now) }
{
    let mut simple = List::new(alloc);
    for item in items {
        simple.push(simple_item(item)?)?;
    }
    Ok(simple)
}

/// A CREATE TABLE of integer columns.
pub fn simple_create(alloc: Global, create: &CreateTable) -> Result<SimpleStatement, FormFault>
    ensures { Gives result (simple_create create.now) }
{
    let items = simple_items(alloc, create.items.as_slice())?;
    Ok(SimpleStatement::CreateTable {
        table: create.table.copy()?,
        items,
    })
}
