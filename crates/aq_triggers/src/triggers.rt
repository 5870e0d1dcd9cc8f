//! What CREATE TRIGGER and CREATE CONSTRAINT TRIGGER make.

ghost use Rattle.std.specs.Prelude.{◌≡◌, ◌++◌, [], ◌∷◌, IfOk, OnOk, OnErr, length, map, option_map};
ghost use Rattle.std.specs.Option.{option_copied};
ghost use Rattle.aq_catalog.specs.Catalogs as catalogs;
ghost use Rattle.aq_setup.specs.Scopes as scopes;
ghost use Rattle.aq_setup.specs.Binding as binding;
ghost use Rattle.aq_setup.specs.Triggers as triggers;
ghost use Rattle.aq_setup.specs.Order.{in_order};
ghost use Rattle.aq_refusals.specs.Answers.{Tells};
ghost use Rattle.aq_triggers.specs.TriggerLines.{constraint_of};

use crate::trigger_faults::{trigger_faults, trigger_setting};
use crate::wanted::Wanted;
use aq_base::{
    BoundExpr, ColNo, Column, ConNo, Constraint, Copies, Decl, Does, Expr, List, NativeName, TabNo,
    TextVal, Trigger,
};
use aq_binder::{bound_body, bound_condition, bound_table, no_row};
use aq_catalog::{Catalog, in_16_bits, numbers_of_columns};
use aq_refusals::CatFault;
use std::alloc::{AllocError, Global};

/// A function's body, or else the native check of that name.
fn does_of(alloc: Global, catalog: &Catalog, w: &Wanted<'_>) -> Result<Does, AllocError>
    ensures { IfOk result (λ made. made ≡ triggers.does_of catalog.now w.now) }
{
    match catalog.function(w.function) {
        None => Ok(Does::Native(w.function.copy()?)),
        Some(found) => Ok(Does::Body(bound_body(
            alloc,
            &trigger_setting(catalog, w),
            &found.body,
        )?)),
    }
}

/// The number of the constraint that a constraint trigger is.
fn constraint_of_trigger(catalog: &Catalog, w: &Wanted<'_>) -> Result<Option<ConNo>, AllocError>
    ensures { IfOk result (λ made. made ≡ option_map (λ decl. length catalog.now.constraints) w.now.timing) }
{
    match w.timing {
        None => Ok(None),
        Some(_) => Ok(Some(ConNo::new(in_16_bits(catalog.all_constraints().len())?))),
    }
}

fn copied(name: Option<&TextVal>) -> Result<Option<TextVal>, AllocError>
    ensures { IfOk result (λ made. made ≡ option_copied name.entry) }
{
    match name {
        None => Ok(None),
        Some(name) => Ok(Some(name.copy()?)),
    }
}

fn name_of(w: &Wanted<'_>) -> Result<TextVal, AllocError>
    ensures { IfOk result (λ made. made ≡ w.now.name) }
{
    w.name.copy()
}

fn table_of(catalog: &Catalog, w: &Wanted<'_>) -> Result<TabNo, AllocError>
    ensures { IfOk result (λ made. made ≡ catalogs.number_of_table catalog.now w.now.table) }
{
    bound_table(catalog, w.table)
}

fn cols_of(alloc: Global, catalog: &Catalog, w: &Wanted<'_>) -> Result<List<ColNo>, AllocError>
    ensures { IfOk result (λ made. made ≡ map (catalogs.number_of_column (catalogs.table_columns catalog.now w.now.table)) (triggers.update_columns w.now)) }
{
    let columns = w.update_columns(alloc)?;
    numbers_of_columns(alloc, catalog.columns_of(w.table), columns.as_slice())
}

fn condition_over(
    alloc: Global,
    cols: &[Column],
    condition: &Option<Expr>,
) -> Result<Option<BoundExpr>, AllocError>
    ensures { IfOk result (λ made. made ≡ binding.bound_condition (scopes.no_row cols.now) condition.now) }
{
    bound_condition(alloc, &no_row(cols), condition)
}

fn condition_of(
    alloc: Global,
    catalog: &Catalog,
    w: &Wanted<'_>,
) -> Result<Option<BoundExpr>, AllocError>
    ensures { IfOk result (λ made. made ≡ binding.bound_condition (scopes.no_row (catalogs.table_columns catalog.now w.now.table)) w.now.condition) }
{
    condition_over(alloc, catalog.columns_of(w.table), w.condition)
}

fn old_table_of(w: &Wanted<'_>) -> Result<Option<TextVal>, AllocError>
    ensures { IfOk result (λ made. made ≡ triggers.first_text (triggers.old_tables w.now)) }
{
    copied(w.old_table())
}

fn new_table_of(w: &Wanted<'_>) -> Result<Option<TextVal>, AllocError>
    ensures { IfOk result (λ made. made ≡ triggers.first_text (triggers.new_tables w.now)) }
{
    copied(w.new_table())
}

fn made_trigger(alloc: Global, catalog: &Catalog, w: &Wanted<'_>) -> Result<Trigger, AllocError>
    ensures { IfOk result (λ made. made ≡ triggers.made_trigger catalog.now w.now) }
{
    Ok(Trigger {
        name: name_of(w)?,
        table: table_of(catalog, w)?,
        ops: w.ops(alloc)?,
        cols: cols_of(alloc, catalog, w)?,
        level: w.level,
        con: constraint_of_trigger(catalog, w)?,
        old_table: old_table_of(w)?,
        new_table: new_table_of(w)?,
        condition: condition_of(alloc, catalog, w)?,
        does: does_of(alloc, catalog, w)?,
    })
}

fn made_constraint(catalog: &Catalog, w: &Wanted<'_>, decl: Decl) -> Result<Constraint, AllocError>
    ensures { IfOk result (λ made. made ≡ constraint_of catalog.now w.now decl) }
{
    Ok(Constraint {
        name: name_of(w)?,
        table: table_of(catalog, w)?,
        decl,
    })
}

/// Adds a trigger and its constraint, or nothing where memory runs out.
fn push_both(
    catalog: &mut Catalog,
    trigger: Trigger,
    constraint: Constraint,
) -> Result<(), AllocError>
    ensures ok { OnOk result (catalog.new ≡ record catalog.old { triggers = catalog.old.triggers ++ trigger ∷ []; constraints = catalog.old.constraints ++ constraint ∷ [] }) }
    ensures err { OnErr result (catalog.new ≡ catalog.old) }
{
    let mark = catalog.mark();
    catalog.push_trigger(trigger)?;
    match catalog.push_constraint(constraint) {
        Ok(()) => Ok(()),
        Err(error) => {
            catalog.back_to(&mark);
            Err(error)
        }
    }
}

/// Adds a trigger that is not refused, and for a constraint trigger its constraint. The error is want of memory, and
/// leaves all as it was.
pub(crate) fn add_trigger(
    catalog: &mut Catalog,
    alloc: Global,
    w: &Wanted<'_>,
) -> Result<(), AllocError>
    ensures ok { OnOk result (catalog.new ≡ triggers.with_trigger w.now catalog.old) }
    ensures err { OnErr result (catalog.new ≡ catalog.old) }
{
    let trigger = made_trigger(alloc, catalog, w)?;
    match w.timing {
        None => catalog.push_trigger(trigger),
        Some(decl) => {
            let constraint = made_constraint(catalog, w, decl)?;
            push_both(catalog, trigger, constraint)
        }
    }
}

/// CREATE TRIGGER or CREATE CONSTRAINT TRIGGER. Where it is refused, the first fault is told and all is as it was.
pub fn create_trigger(
    catalog: &mut Catalog,
    alloc: Global,
    natives: &[NativeName],
    w: &Wanted<'_>,
) -> Result<(), CatFault>
    ensures told { Tells (in_order (triggers.create_trigger_faults catalog.old natives.now w.now)) result }
    ensures ok { OnOk result (catalog.new ≡ triggers.with_trigger w.now catalog.old) }
    ensures err { OnErr result (catalog.new ≡ catalog.old) }
{
    trigger_faults(alloc, catalog, natives, w)?;
    add_trigger(catalog, alloc, w)?;
    Ok(())
}
