//! Statements of a session bound over a catalog of two tables, and constraints found by their names.

use crate::table::{Subject, first_wrong};
use aq_base::{
    Bound, BoundColumns, BoundConstraints, BoundExpr, BoundGiven, BoundInsert, BoundSelect,
    BoundSet, BoundSource, BoundUpdate, ConNo, ConstraintMode, List, NoMemory, Script, Statement,
    TextVal, UnaryOperator, Value,
};
use aq_binder::Bind;
use aq_catalog::Catalog;
use aq_define::Define;
use aq_refusals::CatFault;
use aq_script::read_script;
use std::alloc::Global;
use std::test::Fail;

const SETUP: &str = "\\setup
CREATE TABLE p (a integer, b integer UNIQUE);
CREATE TABLE c (a integer, b integer UNIQUE);
";

// The catalog of a setup; `None` where one of its statements is refused.
fn catalog_of(alloc: Global, setup: &Script) -> Option<Catalog> {
    let mut catalog = Catalog::new(alloc);
    for placed in setup.setup.as_slice() {
        if catalog.define(alloc, &placed.statement, &[]).is_err() {
            return None;
        }
    }
    Some(catalog)
}

// The catalog that a script's setup makes.
fn made(alloc: Global, script: &str) -> Option<Catalog> {
    match read_script(alloc, script.as_bytes()) {
        Ok(setup) => catalog_of(alloc, &setup),
        Err(_) => None,
    }
}

/// The script of one session with a statement.
pub(crate) fn session_of(alloc: Global, statement: &str) -> Option<Script> {
    let Ok(text) = format!(in alloc; "\\session a {statement};") else {
        return None;
    };
    read_script(alloc, text.as_bytes()).ok()
}

/// The first statement of the first session.
pub(crate) fn first_statement(script: &Script) -> Option<&Statement> {
    let session = script.sessions.as_slice().first()?;
    let placed = session.statements.as_slice().first()?;
    Some(&placed.statement)
}

fn given_told(given: &BoundGiven) -> &'static str {
    match given {
        BoundGiven::Value(BoundExpr::Constant(Value::Int(7))) => "7",
        BoundGiven::Value(_) => "another value",
        BoundGiven::Default => "default",
    }
}

fn condition_told(condition: &Option<BoundExpr>) -> &'static str {
    match condition {
        None => "everywhere",
        Some(
            BoundExpr::Unary {
                operator: UnaryOperator::IsNull,
                operand,
            },
        ) => match operand.get() {
            BoundExpr::Column(column) if column.get() == 0 => "where column 0 is null",
            _ => "where another is null",
        },
        Some(_) => "elsewhere",
    }
}

fn insert_told(alloc: Global, insert: &BoundInsert) -> Result<String, NoMemory> {
    let mut told = format!(in alloc; "insert {}", insert.table.get())?;
    match &insert.columns {
        Some(columns) => {
            for column in columns.as_slice() {
                told.push_str(format!(in alloc; " column {}", column.get())?.as_str())?;
            }
        }
        None => told.push_str(" no columns")?,
    }
    match &insert.source {
        BoundSource::Values(rows) => {
            for row in rows.as_slice() {
                told.push_str(" row")?;
                for given in row.as_slice() {
                    told.push(' ')?;
                    told.push_str(given_told(given))?;
                }
            }
        }
        BoundSource::Query { .. } => told.push_str(" query")?,
    }
    Ok(told)
}

fn update_told(alloc: Global, update: &BoundUpdate) -> Result<String, NoMemory> {
    let mut told = format!(in alloc; "update {}", update.table.get())?;
    for assignment in update.assignments.as_slice() {
        let (column, value) = (assignment.column.get(), given_told(&assignment.value));
        told.push_str(format!(in alloc; " column {column} {value}")?.as_str())?;
    }
    told.push(' ')?;
    told.push_str(condition_told(&update.condition))?;
    Ok(told)
}

fn select_told(alloc: Global, select: &BoundSelect) -> Result<String, NoMemory> {
    let mut told = format!(in alloc; "select {}", select.table.get())?;
    match &select.columns {
        BoundColumns::Named(columns) => {
            for column in columns.as_slice() {
                told.push_str(format!(in alloc; " column {}", column.get())?.as_str())?;
            }
        }
        BoundColumns::All => told.push_str(" all columns")?,
    }
    Ok(told)
}

fn constraints_told(alloc: Global, constraints: &[ConNo]) -> Result<String, NoMemory> {
    let mut told = "constraints".to_string(alloc)?;
    for constraint in constraints {
        told.push_str(format!(in alloc; " {}", constraint.get())?.as_str())?;
    }
    Ok(told)
}

fn set_told(alloc: Global, set: &BoundSet) -> Result<String, NoMemory> {
    let mode = if set.mode == ConstraintMode::Immediate {
        "immediate"
    } else {
        "deferred"
    };
    let mut told = format!(in alloc; "set {mode}")?;
    match &set.constraints {
        BoundConstraints::Named(found) => {
            for constraints in found.as_slice() {
                told.push(' ')?;
                told.push_str(constraints_told(alloc, constraints.as_slice())?.as_str())?;
            }
        }
        BoundConstraints::All => told.push_str(" all")?,
    }
    Ok(told)
}

fn bound_told(alloc: Global, bound: &Bound) -> Result<String, NoMemory> {
    match bound {
        Bound::Insert(insert) => insert_told(alloc, insert),
        Bound::Update(update) => update_told(alloc, update),
        Bound::Delete(delete) => {
            let condition = condition_told(&delete.condition);
            format!(in alloc; "delete {} {condition}", delete.table.get())
        }
        Bound::Select(select) => select_told(alloc, select),
        Bound::SetConstraints(set) => set_told(alloc, set),
        Bound::Commit => "commit".to_string(alloc),
        Bound::Rollback => "rollback".to_string(alloc),
        _ => "another form".to_string(alloc),
    }
}

// What a statement of a session is bound to.
fn bound(alloc: Global, catalog: &Catalog, statement: &str) -> Option<Result<Bound, CatFault>> {
    let script = session_of(alloc, statement)?;
    let statement = first_statement(&script)?;
    Some(catalog.bind(alloc, statement))
}

/// What a statement of a session is bound to over the catalog of a setup.
pub(crate) fn bound_over(
    alloc: Global,
    setup: &str,
    statement: &str,
) -> Option<Result<Bound, CatFault>> {
    let catalog = made(alloc, setup)?;
    bound(alloc, &catalog, statement)
}

fn answer_told(alloc: Global, answer: &Result<Bound, CatFault>) -> Result<String, NoMemory> {
    match answer {
        Ok(bound) => bound_told(alloc, bound),
        Err(CatFault::Sql(fault)) => fault.text.as_str().to_string(alloc),
        Err(CatFault::NoMemory) => Err(NoMemory),
    }
}

struct Binding;

impl Subject for Binding {
    fn answer(&self, alloc: Global, question: &str) -> Result<String, NoMemory> {
        let Some(answer) = bound_over(alloc, SETUP, question) else {
            return "no statement".to_string(alloc);
        };
        answer_told(alloc, &answer)
    }
}

const BINDING: &str = "\
==== DELETE FROM c
---- delete 1 everywhere
==== INSERT INTO c (b) VALUES (7)
---- insert 1 column 1 row 7
==== UPDATE c SET b = DEFAULT WHERE a IS NULL
---- update 1 column 1 default where column 0 is null
==== SELECT b FROM c
---- select 1 column 1
==== SET CONSTRAINTS c_b_key IMMEDIATE
---- set immediate constraints 1
==== COMMIT
---- commit
==== ROLLBACK
---- rollback
==== DELETE FROM t
---- relation \"t\" does not exist
==== UPDATE c SET b = DEFAULT WHERE x IS NULL
---- column \"x\" does not exist
==== SET CONSTRAINTS k IMMEDIATE
---- constraint \"k\" does not exist
";

struct Named;

impl Subject for Named {
    fn answer(&self, alloc: Global, question: &str) -> Result<String, NoMemory> {
        let Some(catalog) = made(alloc, SETUP) else {
            return "no catalog".to_string(alloc);
        };
        let found = catalog.named(alloc, &TextVal::new(alloc, question)?)?;
        constraints_told(alloc, found.as_slice())
    }
}

const NAMED: &str = "\
==== c_b_key
---- constraints 1
==== c_b_key1
---- constraints
";

#[test]
fn statements_are_bound(rt: HostRuntime) -> Result<(), Fail> {
    assert_eq!(rt; first_wrong(rt.alloc(), &Binding, BINDING)?, None);
    assert_eq!(rt; first_wrong(rt.alloc(), &Named, NAMED)?, None);
    Ok(())
}
