//! The faults of a statement, and what it says once its names are numbers. All of its names come before its lengths, and these
//! before its kinds (PostgreSQL source, analyze.c).

ghost use Rattle.std.specs.Prelude.{◌≡◌, IfOk, [], ◌∷◌, map, if◌then◌else◌};
ghost use Rattle.std.specs.List.{flat_map, list_any};
ghost use Rattle.aq_refusals.specs.Faults as faults;
ghost use Rattle.aq_catalog.specs.Catalogs as catalogs;
ghost use Rattle.aq_setup.specs.Binding as binding;
ghost use Rattle.aq_refusals.specs.Answers.{Tells, IsAnswer};

use crate::binding::{bound_delete, bound_insert, bound_select, bound_update};
use crate::kinds::{boolean_kinds, delete_kinds, insert_kinds, select_kinds, update_kinds};
use crate::lengths::{insert_lengths, update_lengths};
use crate::names::{delete_names, expression_names, insert_names, select_names, update_names};
use crate::scopes::{Scope, Setting, in_session};
use aq_base::{
    Bound, BoundConstraints, BoundSet, ConNo, ConstraintMode, Constraints, Copies, Delete, Expr,
    Insert, List, Select, SetConstraints, Statement, TextVal, Update,
};
use aq_catalog::Catalog;
use aq_refusals::{CatFault, no_constraint, not_deferrable};
use std::alloc::{AllocError, Global};

pub(crate) fn insert_faults(
    alloc: Global,
    setting: &Setting<'_>,
    s: &Insert,
) -> Result<(), CatFault>
    ensures { Tells (binding.insert_faults setting.now s.now) result }
{
    insert_names(alloc, setting, s)?;
    insert_lengths(alloc, setting, s)?;
    insert_kinds(alloc, setting, s)
}

pub(crate) fn update_faults(
    alloc: Global,
    setting: &Setting<'_>,
    s: &Update,
) -> Result<(), CatFault>
    ensures { Tells (binding.update_faults setting.now s.now) result }
{
    update_names(alloc, setting, s)?;
    update_lengths(alloc, s)?;
    update_kinds(alloc, setting, s)
}

pub(crate) fn delete_faults(
    alloc: Global,
    setting: &Setting<'_>,
    s: &Delete,
) -> Result<(), CatFault>
    ensures { Tells (binding.delete_faults setting.now s.now) result }
{
    delete_names(alloc, setting, s)?;
    delete_kinds(alloc, setting, s)
}

pub(crate) fn select_faults(
    alloc: Global,
    setting: &Setting<'_>,
    s: &Select,
) -> Result<(), CatFault>
    ensures { Tells (binding.select_faults setting.now s.now) result }
{
    select_names(alloc, setting, s)?;
    select_kinds(alloc, setting, s)
}

/// Whether a constraint can't be deferred.
fn is_fixed(catalog: &Catalog, con: ConNo) -> bool
    ensures { result ≡ binding.is_fixed catalog.now con }
{
    match catalog.all_constraints().get(usize::from(con.get())) {
        None => false,
        Some(found) => !found.decl.deferrable,
    }
}

/// Whether one of these constraints can't be deferred.
fn has_fixed(catalog: &Catalog, found: &[ConNo]) -> bool
    ensures { result ≡ list_any (binding.is_fixed catalog.now) found.now }
{
    found.iter().any(|con| is_fixed(catalog, *con))
}

/// A constraint that SET CONSTRAINTS defers and that can't be.
fn deferred_faults(
    alloc: Global,
    catalog: &Catalog,
    name: &TextVal,
    found: &[ConNo],
) -> Result<(), CatFault>
    ensures { Tells (if list_any (binding.is_fixed catalog.now) found.now then faults.not_deferrable name.now ∷ [] else []) result }
{
    if has_fixed(catalog, found) {
        return Err(not_deferrable(alloc, name));
    }
    Ok(())
}

/// A name in SET CONSTRAINTS, with the constraints that have it.
fn set_found(
    alloc: Global,
    catalog: &Catalog,
    mode: ConstraintMode,
    name: &TextVal,
    found: &[ConNo],
) -> Result<(), CatFault>
    ensures { Tells (binding.set_name_faults catalog.now mode name.now found.now) result }
{
    match found {
        [] => Err(no_constraint(alloc, name)),
        [_, ..] => match mode {
            ConstraintMode::Immediate => Ok(()),
            ConstraintMode::Deferred => deferred_faults(alloc, catalog, name, found),
        },
    }
}

fn set_name_faults(
    alloc: Global,
    catalog: &Catalog,
    mode: ConstraintMode,
    name: &TextVal,
) -> Result<(), CatFault>
    ensures { Tells (binding.set_name_faults catalog.now mode name.now (catalogs.constraints_named catalog.now name.now)) result }
{
    let found = catalog.named(alloc, name)?;
    set_found(alloc, catalog, mode, name, found.as_slice())
}

#[tactic(auto, using(aq_refusals::proofs::Loops::fault_at, aq_refusals::proofs::Loops::left_at))]
fn set_names_faults(
    alloc: Global,
    catalog: &Catalog,
    mode: ConstraintMode,
    names: &[TextVal],
) -> Result<(), CatFault>
    ensures { Tells (flat_map (λ name. binding.set_name_faults catalog.now mode name (catalogs.constraints_named catalog.now name)) names.now) result }
{
    for name in names {
        set_name_faults(alloc, catalog, mode, name)?;
    }
    Ok(())
}

/// SET CONSTRAINTS
pub(crate) fn set_faults(
    alloc: Global,
    catalog: &Catalog,
    s: &SetConstraints,
) -> Result<(), CatFault>
    ensures { Tells (binding.set_faults catalog.now s.now) result }
{
    match &s.constraints {
        Constraints::All => Ok(()),
        Constraints::Named(names) => set_names_faults(alloc, catalog, s.mode, names.as_slice()),
    }
}

/// The faults of a statement of a session.
pub(crate) fn statement_faults(
    alloc: Global,
    catalog: &Catalog,
    s: &Statement,
) -> Result<(), CatFault>
    ensures { Tells (binding.statement_faults catalog.now s.now) result }
{
    let setting = in_session(catalog);
    match s {
        Statement::Insert(s) => insert_faults(alloc, &setting, s),
        Statement::Update(s) => update_faults(alloc, &setting, s),
        Statement::Delete(s) => delete_faults(alloc, &setting, s),
        Statement::Select(s) => select_faults(alloc, &setting, s),
        Statement::SetConstraints(s) => set_faults(alloc, catalog, s),
        _ => Ok(()),
    }
}

/// The condition of IF or WHEN.
pub fn condition_faults(
    alloc: Global,
    word: &str,
    scope: &Scope<'_>,
    e: &Expr,
) -> Result<(), CatFault>
    ensures { Tells (binding.condition_faults word.now scope.now e.now) result }
{
    expression_names(alloc, scope, e)?;
    boolean_kinds(alloc, word, scope, e)
}

fn constraints_named(
    alloc: Global,
    catalog: &Catalog,
    names: &[TextVal],
) -> Result<List<List<ConNo>>, AllocError>
    ensures { IfOk result (λ made. made ≡ map (catalogs.constraints_named catalog.now) names.now) }
{
    let mut made = List::new(alloc);
    for name in names {
        made.push(catalog.named(alloc, name)?)?;
    }
    Ok(made)
}

fn bound_constraints(
    alloc: Global,
    catalog: &Catalog,
    constraints: &Constraints,
) -> Result<BoundConstraints, AllocError>
    ensures { IfOk result (λ made. made ≡ binding.bound_constraints catalog.now constraints.now) }
{
    match constraints {
        Constraints::All => Ok(BoundConstraints::All),
        Constraints::Named(names) => Ok(BoundConstraints::Named(constraints_named(
            alloc,
            catalog,
            names.as_slice(),
        )?)),
    }
}

fn bound_set(alloc: Global, catalog: &Catalog, s: &SetConstraints) -> Result<BoundSet, AllocError>
    ensures { IfOk result (λ made. made ≡ binding.bound_set catalog.now s.now) }
{
    Ok(BoundSet {
        constraints: bound_constraints(alloc, catalog, &s.constraints)?,
        mode: s.mode,
    })
}

/// A statement with numbers in place of names. One of the setup, which is none of a session, is as COMMIT.
fn bound(alloc: Global, catalog: &Catalog, s: &Statement) -> Result<Bound, AllocError>
    ensures { IfOk result (λ made. made ≡ binding.bound catalog.now s.now) }
{
    let setting = in_session(catalog);
    match s {
        Statement::Insert(s) => Ok(Bound::Insert(bound_insert(alloc, &setting, s)?)),
        Statement::Update(s) => Ok(Bound::Update(bound_update(alloc, &setting, s)?)),
        Statement::Delete(s) => Ok(Bound::Delete(bound_delete(alloc, &setting, s)?)),
        Statement::Select(s) => Ok(Bound::Select(bound_select(alloc, &setting, s)?)),
        Statement::SetConstraints(s) => Ok(Bound::SetConstraints(bound_set(alloc, catalog, s)?)),
        Statement::Begin(isolation) => Ok(Bound::Begin(*isolation)),
        Statement::StartTransaction(isolation) => Ok(Bound::StartTransaction(*isolation)),
        Statement::Rollback => Ok(Bound::Rollback),
        Statement::Savepoint(name) => Ok(Bound::Savepoint(name.copy()?)),
        Statement::Release(name) => Ok(Bound::Release(name.copy()?)),
        Statement::RollbackTo(name) => Ok(Bound::RollbackTo(name.copy()?)),
        _ => Ok(Bound::Commit),
    }
}

/// What statements are bound with.
pub trait Bind {
    ghost use Rattle.aq_catalog.specs.Catalogs.{Catalog as Made};

    /// The catalog that it is.
    ghost made: { Self → Made };

    /// What a statement of a session says once its names are numbers, or the first of its faults. One of the setup, which is none of a
    /// session, is as COMMIT.
    fn bind(&self, alloc: Global, s: &Statement) -> Result<Bound, CatFault>
        ensures { IsAnswer (binding.bind (made self.now) s.now) result };
}

impl Bind for Catalog {
    ghost made = { λ cat. cat };

    #[tactic(auto, using(crate::proofs::BoundAnswers::fault_refused, crate::proofs::BoundAnswers::memory_refused, crate::proofs::BoundAnswers::none_refused))]
    fn bind(&self, alloc: Global, s: &Statement) -> Result<Bound, CatFault> {
        statement_faults(alloc, self, s)?;
        Ok(bound(alloc, self, s)?)
    }
}
