//! What the statements of a setup make (PostgreSQL manual, chapter "Data Definition").

ghost use Rattle.std.specs.Prelude.{◌≡◌, ◌||◌, [], ◌∷◌, ◌++◌, Some, Ok, if◌then◌else◌, is_some, length, IfOk, IfErr, OnOk, OnErr};
ghost use Rattle.std.specs.List.{flat_map};
ghost use Rattle.aq_catalog.specs.Catalogs as catalogs;
ghost use Rattle.aq_catalog.specs.Catalogs.{function_named};
ghost use Rattle.aq_refusals.specs.Faults as faults;
ghost use Rattle.aq_setup.specs.Names.{table_faults as absent};
ghost use Rattle.aq_setup.specs.Order.{in_order};
ghost use Rattle.aq_setup.specs.Setup as setup;
ghost use Rattle.aq_setup.specs.Tables as tables;
ghost use Rattle.aq_setup.specs.Triggers as triggers;
ghost use Rattle.aq_refusals.specs.Answers.{Tells, IsFault, IsRefusal};
ghost use Rattle.aq_tables.specs.References.{reference_faults};
ghost use Rattle.aq_define.specs.Stages as stages;
ghost use Rattle.aq_define.specs.Stages.{IsBehind};
ghost use Rattle.aq_additions.specs.Steps.{Follows, Extends};

use aq_additions::{
    NamedConstraint, NamesTaken, add_constraint_key, add_keys, add_references, declared_columns,
    declared_table, foreign_keys_of, named, of_items, push_referring, settle_default_name,
};
use aq_base::{
    AlterTable, Copies, CreateConstraintTrigger, CreateFunction, CreateTable, CreateTrigger,
    Function, List, NativeName, Statement, Table, TableConstraint, TextVal,
};
use aq_binder::{in_session, table_faults};
use aq_catalog::{Catalog, has_primary, number_of_table};
use aq_refusals::{CatFault, function_exists};
use aq_tables::{
    column_limit, constraints_exist, defaults_fit, items_twice, listed_twice, long_names,
    missing_columns, missing_parents, reference_faults, reference_limit, second_primary,
    table_exists, table_limit,
};
use aq_triggers::{constraint_trigger, create_trigger, native_named, plain_trigger};
use std::alloc::{AllocError, Global};

fn created_constraints(
    alloc: Global,
    catalog: &Catalog,
    s: &CreateTable,
) -> Result<List<NamedConstraint>, AllocError>
    ensures { IfOk result (λ made. made ≡ (tables.created catalog.now s.now).constraints) }
{
    let taken = NamesTaken::new(alloc, catalog, Some(usize::from(catalog.tables())));
    let all = of_items(alloc, s.items.as_slice())?;
    named(alloc, taken, &s.table, all.as_slice())
}

fn create_limits(
    alloc: Global,
    catalog: &Catalog,
    count: usize,
    all: &[NamedConstraint],
) -> Result<(), CatFault>
    ensures { Tells (stages.limits_of catalog.now count all.now) result }
{
    let found = foreign_keys_of(alloc, all)?;
    table_limit(alloc, catalog)?;
    column_limit(alloc, count)?;
    reference_limit(alloc, usize::from(catalog.fks()), found.len())?;
    long_names(alloc, all)
}

fn create_first(
    alloc: Global,
    catalog: &Catalog,
    s: &CreateTable,
    all: &[NamedConstraint],
) -> Result<(), CatFault>
    ensures { Tells (stages.create_first catalog.now s.now all.now) result }
{
    let cols = declared_columns(alloc, s.items.as_slice())?;
    create_limits(alloc, catalog, cols.len(), all)?;
    table_exists(alloc, catalog, &s.table)
}

fn missing(
    alloc: Global,
    catalog: &Catalog,
    table: &TextVal,
    all: &[NamedConstraint],
) -> Result<(), CatFault>
    ensures { Tells (stages.missing_of catalog.now table.now all.now) result }
{
    let found = foreign_keys_of(alloc, all)?;
    missing_parents(alloc, catalog, found.as_slice())?;
    missing_columns(alloc, catalog, table, all)
}

fn exist_already(
    alloc: Global,
    catalog: &Catalog,
    number: Option<usize>,
    table: &TextVal,
    all: &[NamedConstraint],
) -> Result<(), CatFault>
    ensures { Tells (stages.exist_of catalog.now number table.now all.now) result }
{
    constraints_exist(alloc, table, NamesTaken::new(alloc, catalog, number), all)
}

fn primary_twice(
    alloc: Global,
    catalog: &Catalog,
    number: Option<usize>,
    table: &TextVal,
    all: &[NamedConstraint],
) -> Result<(), CatFault>
    ensures { Tells (stages.primary_of catalog.now number table.now all.now) result }
{
    second_primary(alloc, table, has_primary(catalog, number), all)
}

fn create_second(
    alloc: Global,
    catalog: &Catalog,
    number: usize,
    s: &CreateTable,
    all: &[NamedConstraint],
) -> Result<(), CatFault>
    ensures { Tells (stages.create_second catalog.now number s.now all.now) result }
{
    exist_already(alloc, catalog, Some(number), &s.table, all)?;
    items_twice(alloc, s.items.as_slice())?;
    primary_twice(alloc, catalog, Some(number), &s.table, all)?;
    missing(alloc, catalog, &s.table, all)
}

fn create_third(
    alloc: Global,
    keyed: &Catalog,
    s: &CreateTable,
    all: &[NamedConstraint],
) -> Result<(), CatFault>
    ensures { Tells (stages.create_third keyed.now s.now all.now) result }
{
    let found = foreign_keys_of(alloc, all)?;
    reference_faults(alloc, keyed, &s.table, found.as_slice())?;
    let cols = declared_columns(alloc, s.items.as_slice())?;
    defaults_fit(alloc, cols.as_slice())
}

fn altered_constraints(
    alloc: Global,
    catalog: &Catalog,
    s: &AlterTable,
) -> Result<List<NamedConstraint>, AllocError>
    ensures { IfOk result (λ made. made ≡ (tables.altered catalog.now s.now).constraints) }
{
    let taken = NamesTaken::new(alloc, catalog, catalog.table_at(&s.table));
    let mut all = List::new(alloc);
    all.push(s.constraint.copy()?)?;
    named(alloc, taken, &s.table, all.as_slice())
}

fn alter_limits(alloc: Global, catalog: &Catalog, all: &[NamedConstraint]) -> Result<(), CatFault>
    ensures { Tells (stages.alter_limits_of catalog.now all.now) result }
{
    let found = foreign_keys_of(alloc, all)?;
    reference_limit(alloc, usize::from(catalog.fks()), found.len())?;
    long_names(alloc, all)
}

fn no_table(alloc: Global, catalog: &Catalog, table: &TextVal) -> Result<(), CatFault>
    ensures { Tells (absent catalog.now table.now) result }
{
    table_faults(alloc, &in_session(catalog), table)
}

fn alter_twice(
    alloc: Global,
    catalog: &Catalog,
    number: Option<usize>,
    s: &AlterTable,
    all: &[NamedConstraint],
) -> Result<(), CatFault>
    ensures { Tells (tables.listed_twice s.now.constraint ++ stages.primary_of catalog.now number s.now.table all.now) result }
{
    listed_twice(alloc, &s.constraint)?;
    primary_twice(alloc, catalog, number, &s.table, all)
}

fn alter_missing(
    alloc: Global,
    catalog: &Catalog,
    table: &TextVal,
    all: &[NamedConstraint],
) -> Result<(), CatFault>
    ensures { Tells (absent catalog.now table.now ++ stages.missing_of catalog.now table.now all.now) result }
{
    no_table(alloc, catalog, table)?;
    missing(alloc, catalog, table, all)
}

fn alter_at(
    alloc: Global,
    catalog: &Catalog,
    number: Option<usize>,
    s: &AlterTable,
    all: &[NamedConstraint],
) -> Result<(), CatFault>
    ensures { Tells (stages.alter_at catalog.now number s.now all.now) result }
{
    alter_limits(alloc, catalog, all)?;
    exist_already(alloc, catalog, number, &s.table, all)?;
    alter_twice(alloc, catalog, number, s, all)?;
    alter_missing(alloc, catalog, &s.table, all)
}

fn alter_first(
    alloc: Global,
    catalog: &Catalog,
    s: &AlterTable,
    all: &[NamedConstraint],
) -> Result<(), CatFault>
    ensures { Tells (stages.alter_first catalog.now s.now all.now) result }
{
    alter_at(alloc, catalog, catalog.table_at(&s.table), s, all)
}

fn fill_table(
    catalog: &mut Catalog,
    alloc: Global,
    number: usize,
    s: &CreateTable,
    all: &[NamedConstraint],
) -> Result<(), CatFault>
    ensures told { Tells (stages.create_second catalog.old number s.now all.now ++ stages.create_third (tables.with_keys number all.now catalog.old) s.now all.now) result }
    ensures made { OnOk result (catalog.new ≡ tables.with_references number (flat_map tables.referring_of all.now) (tables.with_keys number all.now catalog.old)) }
    ensures kept { Follows number catalog.old catalog.new }
{
    let found = foreign_keys_of(alloc, all)?;
    create_second(alloc, catalog, number, s, all)?;
    add_keys(catalog, alloc, number, all)?;
    create_third(alloc, catalog, s, all)?;
    add_references(catalog, alloc, number, found.as_slice())?;
    Ok(())
}

fn count_of_tables(catalog: &Catalog) -> usize
    ensures { result ≡ length catalog.now.tables }
{
    usize::from(catalog.tables())
}

fn put_table(
    catalog: &mut Catalog,
    alloc: Global,
    s: &CreateTable,
    table: Table,
    all: &[NamedConstraint],
) -> Result<(), CatFault>
    ensures told { Tells (stages.create_rest (record catalog.old { tables = catalog.old.tables ++ table ∷ [] }) (length catalog.old.tables) s.now all.now) result }
    ensures made { OnOk result (catalog.new ≡ stages.filled (record catalog.old { tables = catalog.old.tables ++ table ∷ [] }) (length catalog.old.tables) all.now) }
    ensures kept { IsBehind catalog.old catalog.new }
{
    let number = count_of_tables(catalog);
    catalog.push_table(table)?;
    fill_table(catalog, alloc, number, s, all)?;
    Ok(())
}

fn create_table(catalog: &mut Catalog, alloc: Global, s: &CreateTable) -> Result<(), CatFault>
    ensures told { Tells (stages.create_faults catalog.old s.now) result }
    ensures made { OnOk result (catalog.new ≡ tables.with_added (tables.created catalog.old s.now)) }
    ensures kept { IsBehind catalog.old catalog.new }
{
    let all = created_constraints(alloc, catalog, s)?;
    create_first(alloc, catalog, s, all.as_slice())?;
    let table = declared_table(alloc, s)?;
    put_table(catalog, alloc, s, table, all.as_slice())?;
    Ok(())
}

fn created(catalog: &mut Catalog, alloc: Global, s: &CreateTable) -> Result<(), CatFault>
    ensures told { Tells (in_order (tables.create_table_faults catalog.old s.now)) result }
    ensures made { OnOk result (catalog.new ≡ tables.with_added (tables.created catalog.old s.now)) }
    ensures kept { IsBehind catalog.old catalog.new }
{
    create_table(catalog, alloc, s)
}

fn alter_reference(
    catalog: &mut Catalog,
    alloc: Global,
    number: usize,
    table: &TextVal,
    n: &NamedConstraint,
) -> Result<(), CatFault>
    ensures told { Tells (reference_faults catalog.old table.now (tables.referring_of n.now)) result }
    ensures made { OnOk result (catalog.new ≡ tables.with_references number (tables.referring_of n.now) catalog.old) }
    ensures kept { Extends catalog.old catalog.new }
{
    let mut found = List::new(alloc);
    push_referring(&mut found, n)?;
    reference_faults(alloc, catalog, table, found.as_slice())?;
    add_references(catalog, alloc, number, found.as_slice())?;
    Ok(())
}

fn alter_key(
    catalog: &mut Catalog,
    alloc: Global,
    number: usize,
    n: &NamedConstraint,
) -> Result<(), CatFault>
    ensures made { OnOk result (catalog.new ≡ tables.with_constraint_key number n.now.name n.now.constraint catalog.old) }
    ensures fault { IfErr result (λ e. IsFault [] e) }
    ensures kept { OnErr result (Extends catalog.old catalog.new) }
{
    add_constraint_key(catalog, alloc, number, n)?;
    Ok(())
}

fn alter_rest(
    catalog: &mut Catalog,
    alloc: Global,
    number: usize,
    table: &TextVal,
    n: &NamedConstraint,
) -> Result<(), CatFault>
    ensures told { Tells (reference_faults (tables.with_constraint_key number n.now.name n.now.constraint catalog.old) table.now (tables.referring_of n.now)) result }
    ensures made { OnOk result (catalog.new ≡ tables.with_references number (tables.referring_of n.now) (tables.with_constraint_key number n.now.name n.now.constraint catalog.old)) }
    ensures kept { OnErr result (Extends catalog.old catalog.new) }
{
    match &n.constraint {
        TableConstraint::ForeignKey { .. } => alter_reference(catalog, alloc, number, table, n),
        TableConstraint::PrimaryKey { .. } | TableConstraint::Unique { .. } => {
            alter_key(catalog, alloc, number, n)
        }
    }
}

fn alter_table(catalog: &mut Catalog, alloc: Global, s: &AlterTable) -> Result<(), CatFault>
    ensures told { Tells (stages.alter_faults catalog.old s.now) result }
    ensures made { OnOk result (catalog.new ≡ tables.with_added (tables.altered catalog.old s.now)) }
    ensures kept { OnErr result (Extends catalog.old catalog.new) }
{
    let all = altered_constraints(alloc, catalog, s)?;
    alter_first(alloc, catalog, s, all.as_slice())?;
    let number = number_of_table(catalog, &s.table);
    match all.get(0) {
        None => Err(CatFault::NoMemory),
        Some(n) => alter_rest(catalog, alloc, number, &s.table, n),
    }
}

fn altered(catalog: &mut Catalog, alloc: Global, s: &AlterTable) -> Result<(), CatFault>
    ensures told { Tells (in_order (tables.alter_table_faults catalog.old s.now)) result }
    ensures made { OnOk result (catalog.new ≡ tables.with_added (tables.altered catalog.old s.now)) }
    ensures kept { OnErr result (IsBehind catalog.old catalog.new) }
{
    settle_default_name(catalog, alloc, s)?;
    alter_table(catalog, alloc, s)
}

fn define_trigger(
    catalog: &mut Catalog,
    alloc: Global,
    natives: &[NativeName],
    s: &CreateTrigger,
) -> Result<(), CatFault>
    ensures told { Tells (in_order (triggers.create_trigger_faults catalog.old natives.now (triggers.plain_trigger s.now))) result }
    ensures made { OnOk result (catalog.new ≡ triggers.with_trigger (triggers.plain_trigger s.now) catalog.old) }
    ensures kept { OnErr result (IsBehind catalog.old catalog.new) }
{
    create_trigger(catalog, alloc, natives, &plain_trigger(s))
}

fn define_constraint_trigger(
    catalog: &mut Catalog,
    alloc: Global,
    natives: &[NativeName],
    s: &CreateConstraintTrigger,
) -> Result<(), CatFault>
    ensures told { Tells (in_order (triggers.create_trigger_faults catalog.old natives.now (triggers.constraint_trigger s.now))) result }
    ensures made { OnOk result (catalog.new ≡ triggers.with_trigger (triggers.constraint_trigger s.now) catalog.old) }
    ensures kept { OnErr result (IsBehind catalog.old catalog.new) }
{
    create_trigger(catalog, alloc, natives, &constraint_trigger(s))
}

fn define_function(
    catalog: &mut Catalog,
    alloc: Global,
    natives: &[NativeName],
    s: &CreateFunction,
) -> Result<(), CatFault>
    ensures told { Tells (in_order (setup.create_function_faults catalog.old natives.now s.now)) result }
    ensures made { OnOk result (catalog.new ≡ setup.with_function s.now catalog.old) }
    ensures kept { OnErr result (IsBehind catalog.old catalog.new) }
{
    is_free(alloc, catalog, natives, &s.name)?;
    let function = Function {
        name: s.name.copy()?,
        body: s.body.copy()?,
    };
    catalog.push_function(function)?;
    Ok(())
}

fn make(
    catalog: &mut Catalog,
    alloc: Global,
    s: &Statement,
    natives: &[NativeName],
) -> Result<(), CatFault>
    ensures told { Tells (in_order (setup.setup_faults natives.now catalog.old s.now)) result }
    ensures made { OnOk result (catalog.new ≡ setup.defined catalog.old s.now) }
    ensures kept { OnErr result (IsBehind catalog.old catalog.new) }
{
    match s {
        Statement::CreateTable(s) => created(catalog, alloc, s),
        Statement::AlterTable(s) => altered(catalog, alloc, s),
        Statement::CreateFunction(s) => define_function(catalog, alloc, natives, s),
        Statement::CreateTrigger(s) => define_trigger(catalog, alloc, natives, s),
        Statement::CreateConstraintTrigger(s) => {
            define_constraint_trigger(catalog, alloc, natives, s)
        }
        Statement::Insert(_)
        | Statement::Update(_)
        | Statement::Delete(_)
        | Statement::Select(_)
        | Statement::SetConstraints(_)
        | Statement::Begin(_)
        | Statement::StartTransaction(_)
        | Statement::Commit
        | Statement::Rollback
        | Statement::Savepoint(_)
        | Statement::Release(_)
        | Statement::RollbackTo(_) => Ok(()),
    }
}

/// What makes a catalog, statement by statement.
pub trait Define {
    ghost use Rattle.aq_catalog.specs.Catalogs.{Catalog as Made};

    /// The catalog that it is.
    ghost made: { Self → Made };

    /// Makes what a statement of a setup says. Where it is refused, or memory runs out, the catalog is as it was. A statement of a session
    /// makes nothing.
    fn define(
        &mut self,
        alloc: Global,
        s: &Statement,
        natives: &[NativeName],
    ) -> Result<(), CatFault>
        ensures ok { OnOk result (setup.define natives.now (made self.old) s.now ≡ Ok (made self.new)) }
        ensures err { IfErr result (IsRefusal (setup.define natives.now (made self.old) s.now)) }
        ensures kept { OnErr result (self.new ≡ self.old) };
}

impl Define for Catalog {
    ghost made = { λ cat. cat };

    fn define(
        &mut self,
        alloc: Global,
        s: &Statement,
        natives: &[NativeName],
    ) -> Result<(), CatFault> {
        let mark = self.mark();
        match make(self, alloc, s, natives) {
            Ok(()) => Ok(()),
            Err(fault) => {
                self.back_to(&mark);
                Err(fault)
            }
        }
    }
}

fn is_native(natives: &[NativeName], name: &TextVal) -> bool
    ensures { result ≡ is_some (catalogs.native_named natives.now name.now) }
{
    native_named(natives, name).is_some()
}

fn is_function(catalog: &Catalog, name: &TextVal) -> bool
    ensures { result ≡ is_some (function_named catalog.now name.now) }
{
    catalog.function(name).is_some()
}

fn is_free(
    alloc: Global,
    catalog: &Catalog,
    natives: &[NativeName],
    name: &TextVal,
) -> Result<(), CatFault>
    ensures { Tells (if is_some (function_named catalog.now name.now) || is_some (catalogs.native_named natives.now name.now) then faults.function_exists name.now ∷ [] else []) result }
{
    if is_function(catalog, name) || is_native(natives, name) {
        Err(function_exists(alloc, name))
    } else {
        Ok(())
    }
}
