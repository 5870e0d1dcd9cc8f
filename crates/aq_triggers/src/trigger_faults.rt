//! The faults of CREATE TRIGGER and CREATE CONSTRAINT TRIGGER, in the order in which they are tried
//! (PostgreSQL source, trigger.c, CreateTriggerFiringOn).

ghost use Rattle.std.specs.Prelude.{◌≡◌, ◌==◌, ◌&&◌, map, filter, length, nat_lt, codes};
ghost use Rattle.std.specs.Option.{option_copied};
ghost use Rattle.std.specs.List.{list_any, flat_map};
ghost use Rattle.aq_base.specs.Names.{same_text};
ghost use Rattle.aq_catalog.specs.Catalogs as catalogs;
ghost use Rattle.aq_refusals.specs.Faults as faults;
ghost use Rattle.aq_setup.specs.Names as names;
ghost use Rattle.aq_setup.specs.Names.{unknown};
ghost use Rattle.aq_setup.specs.Order.{in_order};
ghost use Rattle.aq_setup.specs.Scopes as scopes;
ghost use Rattle.aq_setup.specs.Scopes.{repeats};
ghost use Rattle.aq_setup.specs.Binding as binding;
ghost use Rattle.aq_setup.specs.Triggers as triggers;
ghost use Rattle.aq_refusals.specs.Answers.{Tells};
ghost use Rattle.aq_triggers.specs.TriggerLines.{trigger_named, constraint_named, when_of, missing, of_form, of_bodies};

use crate::old_new::{uses_new, uses_old};
use crate::wanted::Wanted;
use aq_additions::columns_twice;
use aq_base::{Column, Does, Expr, NativeName, Same, TextVal, Trigger};
use aq_binder::{
    Setting, body_faults, columns_known, condition_faults, in_session, no_row, table_faults,
};
use aq_catalog::{Catalog, is_taken};
use aq_refusals::{
    CatFault, constraint_exists, native_misused, no_function, no_new_table, no_old_or_new,
    no_old_table, over_limit, transition_columns, transition_events, trigger_exists,
    trigger_reserved,
};
use std::alloc::Global;

const MAX_TRIGGERS: usize = 256;

/// Where the statements of a trigger's function stand.
pub(crate) fn trigger_setting<'a>(catalog: &'a Catalog, w: &Wanted<'a>) -> Setting<'a>
    ensures { result ≡ triggers.trigger_setting catalog.now w.now }
{
    Setting {
        catalog,
        changed: catalog.columns_of(w.table),
        old_table: w.old_table(),
        new_table: w.new_table(),
    }
}

fn is_of_statement(does: &Does) -> bool
    ensures { result ≡ triggers.is_of_statement does.now }
{
    match does {
        Does::Check(_) => false,
        Does::Parent(_) => false,
        Does::Body(_) => true,
        Does::Native(_) => true,
    }
}

fn has_statements(trigger: &Trigger) -> bool
    ensures { result ≡ triggers.is_of_statement trigger.now.does }
{
    is_of_statement(&trigger.does)
}

/// The triggers of foreign keys don't count.
fn count_of_triggers(made: &[Trigger]) -> usize
    ensures { result ≡ length (filter (λ t. triggers.is_of_statement t.does) made.now) }
{
    let mut count = 0;
    for trigger in made {
        count += usize::from(has_statements(trigger));
    }
    count
}

fn trigger_limit(alloc: Global, catalog: &Catalog) -> Result<(), CatFault>
    ensures { Tells (triggers.trigger_limit catalog.now) result }
{
    if count_of_triggers(catalog.all_triggers()) < MAX_TRIGGERS {
        Ok(())
    } else {
        Err(over_limit(alloc, "256 triggers"))
    }
}

fn has_trigger(made: &[Trigger], table: usize, name: &TextVal) -> bool
    ensures { result ≡ list_any (λ t. t.table == table && same_text name.now t.name) made.now }
{
    made.iter().any(|trigger| usize::from(trigger.table.get()) == table && name.same(&trigger.name))
}

/// Whether a trigger of the table has the name.
fn trigger_taken(catalog: &Catalog, table: Option<usize>, name: &TextVal) -> bool
    ensures { result ≡ list_any (same_text name.now) (triggers.triggers_taken catalog.now table) }
{
    match table {
        None => false,
        Some(table) => has_trigger(catalog.all_triggers(), table, name),
    }
}

fn trigger_name_fault(alloc: Global, catalog: &Catalog, w: &Wanted<'_>) -> Result<(), CatFault>
    ensures { Tells (trigger_named catalog.now w.now) result }
{
    if trigger_taken(catalog, catalog.table_at(w.table), w.name) {
        Err(trigger_exists(alloc, w.table, w.name))
    } else {
        Ok(())
    }
}

fn constraint_name_fault(alloc: Global, catalog: &Catalog, w: &Wanted<'_>) -> Result<(), CatFault>
    ensures { Tells (constraint_named catalog.now w.now) result }
{
    if w.timing.is_some() && is_taken(catalog, catalog.table_at(w.table), w.name) {
        Err(constraint_exists(alloc, w.table, w.name))
    } else {
        Ok(())
    }
}

fn trigger_name_faults(alloc: Global, catalog: &Catalog, w: &Wanted<'_>) -> Result<(), CatFault>
    ensures { Tells (triggers.trigger_name_faults catalog.now w.now) result }
{
    trigger_name_fault(alloc, catalog, w)?;
    constraint_name_fault(alloc, catalog, w)
}

/// A column that stands twice in UPDATE OF.
fn updated_twice(alloc: Global, names: &[TextVal]) -> Result<(), CatFault>
    ensures { Tells (map faults.column_twice (repeats names.now)) result }
{
    columns_twice(alloc, &[], names)
}

/// The native check of a name.
pub fn native_named<'a>(natives: &'a [NativeName], name: &TextVal) -> Option<&'a NativeName>
    ensures { option_copied result ≡ catalogs.native_named natives.now name.now }
{
    natives.iter().find(|native| native.name.same(name))
}

fn function_faults(
    alloc: Global,
    catalog: &Catalog,
    natives: &[NativeName],
    w: &Wanted<'_>,
) -> Result<(), CatFault>
    ensures { Tells (triggers.function_faults catalog.now natives.now w.now) result }
{
    if catalog.function(w.function).is_some() || native_named(natives, w.function).is_some() {
        Ok(())
    } else {
        Err(no_function(alloc, w.function))
    }
}

fn transition_faults(alloc: Global, w: &Wanted<'_>, columns: &[TextVal]) -> Result<(), CatFault>
    requires { columns.now ≡ triggers.update_columns w.now }
    ensures { Tells (triggers.transition_faults w.now) result }
{
    if !w.transitions.is_empty() && w.events.len() > 1 {
        return Err(transition_events(alloc));
    }
    if !w.transitions.is_empty() && !columns.is_empty() {
        return Err(transition_columns(alloc));
    }
    Ok(())
}

fn has_old_table(w: &Wanted<'_>) -> bool
    ensures { result ≡ nat_lt 0 (length (triggers.old_tables w.now)) }
{
    w.old_table().is_some()
}

fn has_new_table(w: &Wanted<'_>) -> bool
    ensures { result ≡ nat_lt 0 (length (triggers.new_tables w.now)) }
{
    w.new_table().is_some()
}

fn transition_op_faults(alloc: Global, w: &Wanted<'_>) -> Result<(), CatFault>
    ensures { Tells (triggers.transition_op_faults w.now) result }
{
    if has_old_table(w) && w.on_insert() {
        return Err(no_old_table(alloc));
    }
    if has_new_table(w) && w.on_delete() {
        return Err(no_new_table(alloc));
    }
    Ok(())
}

/// An INSERT has no OLD, a DELETE no NEW, and a statement neither.
fn row_missing(w: &Wanted<'_>, e: &Expr) -> bool
    ensures { result ≡ triggers.row_missing w.now e.now }
{
    (uses_old(e) && (w.on_insert() || w.is_statement()))
        || (uses_new(e) && (w.on_delete() || w.is_statement()))
}

fn when_row_faults(alloc: Global, w: &Wanted<'_>) -> Result<(), CatFault>
    ensures { Tells (triggers.when_row_faults w.now) result }
{
    match w.condition {
        None => Ok(()),
        Some(e) => {
            if row_missing(w, e) {
                Err(no_old_or_new(alloc, w.name))
            } else {
                Ok(())
            }
        }
    }
}

/// A native check is AFTER INSERT OR UPDATE, FOR EACH ROW, without columns and WHEN, on a table of as many columns as it wants.
fn native_fits(catalog: &Catalog, w: &Wanted<'_>, columns: &[TextVal], native: &NativeName) -> bool
    requires { columns.now ≡ triggers.update_columns w.now }
    ensures { result ≡ triggers.native_fits catalog.now w.now native.now }
{
    w.on_insert()
        && w.on_update()
        && !w.on_delete()
        && !w.is_statement()
        && columns.is_empty()
        && w.condition.is_none()
        && catalog.columns_of(w.table).len() == usize::from(native.arity)
}

fn native_faults(
    alloc: Global,
    catalog: &Catalog,
    natives: &[NativeName],
    w: &Wanted<'_>,
    columns: &[TextVal],
) -> Result<(), CatFault>
    requires { columns.now ≡ triggers.update_columns w.now }
    ensures { Tells (triggers.native_faults catalog.now natives.now w.now) result }
{
    match native_named(natives, w.function) {
        None => Ok(()),
        Some(native) => {
            if native_fits(catalog, w, columns, native) {
                Ok(())
            } else {
                Err(native_misused(alloc, &native.name))
            }
        }
    }
}

fn reserved_faults(alloc: Global, w: &Wanted<'_>) -> Result<(), CatFault>
    ensures { Tells (triggers.reserved_faults w.now) result }
{
    if w.name.bytes().starts_with(b"RI_ConstraintTrigger_") {
        Err(trigger_reserved(alloc, w.name))
    } else {
        Ok(())
    }
}

fn when_fault(alloc: Global, cols: &[Column], e: &Expr) -> Result<(), CatFault>
    ensures { Tells (binding.condition_faults (codes "WHEN") (scopes.no_row cols.now) e.now) result }
{
    condition_faults(alloc, "WHEN", &no_row(cols), e)
}

fn when_faults_of(alloc: Global, cols: &[Column], condition: &Option<Expr>) -> Result<(), CatFault>
    ensures { Tells (when_of cols.now condition.now) result }
{
    match condition {
        None => Ok(()),
        Some(e) => when_fault(alloc, cols, e),
    }
}

fn when_faults(alloc: Global, catalog: &Catalog, w: &Wanted<'_>) -> Result<(), CatFault>
    ensures { Tells (triggers.when_faults catalog.now w.now) result }
{
    when_faults_of(alloc, catalog.columns_of(w.table), w.condition)
}

fn function_body_faults(alloc: Global, catalog: &Catalog, w: &Wanted<'_>) -> Result<(), CatFault>
    ensures { Tells (triggers.function_body_faults catalog.now w.now) result }
{
    match catalog.function(w.function) {
        None => Ok(()),
        Some(found) => body_faults(alloc, &trigger_setting(catalog, w), &found.body),
    }
}

fn missing_table(alloc: Global, catalog: &Catalog, w: &Wanted<'_>) -> Result<(), CatFault>
    ensures { Tells (names.table_faults catalog.now w.now.table) result }
{
    table_faults(alloc, &in_session(catalog), w.table)
}

fn missing_columns(
    alloc: Global,
    catalog: &Catalog,
    w: &Wanted<'_>,
    columns: &[TextVal],
) -> Result<(), CatFault>
    ensures { Tells (map faults.no_column (flat_map (unknown (catalogs.table_columns catalog.now w.now.table)) columns.now)) result }
{
    columns_known(alloc, catalog.columns_of(w.table), columns)
}

/// What is not there: the table, the columns of UPDATE OF, the function.
fn missing_faults(
    alloc: Global,
    catalog: &Catalog,
    natives: &[NativeName],
    w: &Wanted<'_>,
    columns: &[TextVal],
) -> Result<(), CatFault>
    requires { columns.now ≡ triggers.update_columns w.now }
    ensures { Tells (missing catalog.now natives.now w.now) result }
{
    missing_table(alloc, catalog, w)?;
    missing_columns(alloc, catalog, w, columns)?;
    function_faults(alloc, catalog, natives, w)
}

/// What CREATE TRIGGER forbids by its form, and what the function's statements are refused for.
fn form_faults(
    alloc: Global,
    catalog: &Catalog,
    natives: &[NativeName],
    w: &Wanted<'_>,
    columns: &[TextVal],
) -> Result<(), CatFault>
    requires { columns.now ≡ triggers.update_columns w.now }
    ensures { Tells (of_form catalog.now natives.now w.now) result }
{
    transition_op_faults(alloc, w)?;
    when_row_faults(alloc, w)?;
    native_faults(alloc, catalog, natives, w, columns)
}

fn body_line_faults(alloc: Global, catalog: &Catalog, w: &Wanted<'_>) -> Result<(), CatFault>
    ensures { Tells (of_bodies catalog.now w.now) result }
{
    when_faults(alloc, catalog, w)?;
    function_body_faults(alloc, catalog, w)
}

/// The first fault, line by line.
pub(crate) fn trigger_faults(
    alloc: Global,
    catalog: &Catalog,
    natives: &[NativeName],
    w: &Wanted<'_>,
) -> Result<(), CatFault>
    ensures { Tells (in_order (triggers.create_trigger_faults catalog.now natives.now w.now)) result }
{
    let columns = w.update_columns(alloc)?;
    trigger_limit(alloc, catalog)?;
    trigger_name_faults(alloc, catalog, w)?;
    updated_twice(alloc, columns.as_slice())?;
    missing_faults(alloc, catalog, natives, w, columns.as_slice())?;
    transition_faults(alloc, w, columns.as_slice())?;
    form_faults(alloc, catalog, natives, w, columns.as_slice())?;
    reserved_faults(alloc, w)?;
    body_line_faults(alloc, catalog, w)
}
