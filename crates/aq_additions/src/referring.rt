//! The foreign keys among the constraints that a CREATE TABLE or an ALTER TABLE adds.

ghost use Rattle.std.specs.Prelude.{◌≡◌, ◌++◌, IfOk, OnOk};
ghost use Rattle.std.specs.List.{flat_map};
ghost use Rattle.aq_setup.specs.Tables as tables;

use crate::constraints::NamedConstraint;
use aq_base::{List, Reference, TableConstraint, TextVal};
use std::alloc::{AllocError, Global};
use std::marker::Model;

/// A foreign key among the constraints that are added.
#[derive(Drop)]
pub struct Referring<'a> {
    pub name: &'a TextVal,
    pub cols: &'a List<TextVal>,
    pub reference: &'a Reference,
}

impl<'a> Model for Referring<'a> {
    ghost use Rattle.aq_setup.specs.Tables.{Referring as Of};
    ghost use Rattle.std.specs.Coded.{codes};

    ghost Value = { Of };

    ghost coded = { Prim.hlevel codes };

    ghost view = { λ f. record { name = f.name.now; cols = f.cols.now; reference = f.reference.now } };
}

/// Adds what a constraint refers to, if it is a foreign key.
pub fn push_referring<'a>(
    out: &mut List<Referring<'a>>,
    n: &'a NamedConstraint,
) -> Result<(), AllocError>
    ensures { OnOk result (out.new ≡ out.old ++ tables.referring_of n.now) }
{
    match &n.constraint {
        TableConstraint::PrimaryKey { .. } | TableConstraint::Unique { .. } => Ok(()),
        TableConstraint::ForeignKey {
            columns,
            reference,
            ..
        } => {
            out.push(Referring {
                name: &n.name,
                cols: columns,
                reference,
            })?;
            Ok(())
        }
    }
}

/// The foreign keys among some constraints.
pub fn foreign_keys_of<'a>(
    alloc: Global,
    constraints: &'a [NamedConstraint],
) -> Result<List<Referring<'a>>, AllocError>
    ensures { IfOk result (λ made. made ≡ flat_map tables.referring_of constraints.now) }
{
    let mut made = List::new(alloc);
    for n in constraints {
        push_referring(&mut made, n)?;
    }
    Ok(made)
}
