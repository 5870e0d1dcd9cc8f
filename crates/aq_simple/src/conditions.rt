//! What a script keeps beside its form: names and limits.

ghost use Rattle.std.specs.Prelude.{◌≡◌, ◌-◌, ◌^◌, [], Some, map, min, sum_by};
ghost use Rattle.std.specs.List.{list_all, list_any};
ghost use Rattle.std.specs.Option.{option_copied};
ghost use Rattle.aq_base.specs.Names.{same_text, is_short, is_apart_from, all_differ, primary_key_name, foreign_key_name};
ghost use Rattle.aq_first_base.specs.Setup.{is_primary};
ghost use Rattle.aq_first_base.specs.Scripts.{is_reference, rows_in, rows_in_session, fits_first_language};
ghost use Rattle.aq_simple.specs.Conditions.{items_named, primaries_in, references_in, has_primary, items_with, constraint_kept, column_kept, statement_references, references_before, create_kept, definition_kept, setup_kept, rows_kept, run_kept, session_kept, statements_in, script_kept};

use crate::names::{is_name, same_text};
use aq_base::{List, Row, TextVal};
use aq_first_base::{
    SimpleColumn, SimpleConstraint, SimplePlaced, SimpleScript, SimpleSession, SimpleStatement,
};

/// The columns of the first table of a name that statements create.
fn items_named<'a>(earlier: &'a [SimplePlaced], name: &TextVal) -> Option<&'a List<SimpleColumn>>
    ensures { option_copied result ≡ items_named earlier.now name.now }
{
    let mut rest = earlier;
    'statements: while let Some((placed, others)) = rest.split_first() {
        if let SimpleStatement::CreateTable { table, items } = &placed.statement {
            if same_text(table.bytes(), name.bytes()) {
                return Some(items);
            }
        }
        rest = others;
    }
    None
}

fn is_primary(item: &SimpleColumn) -> bool
    ensures { result ≡ is_primary item.now.constraint }
{
    matches!(&item.constraint, Some(SimpleConstraint::PrimaryKey))
}

fn is_reference(item: &SimpleColumn) -> bool
    ensures { result ≡ is_reference item.now.constraint }
{
    matches!(&item.constraint, Some(SimpleConstraint::References { .. }))
}

fn primaries_in(items: &[SimpleColumn]) -> usize
    ensures { result ≡ primaries_in items.now }
{
    items.iter().filter(|item| is_primary(item)).count()
}

fn references_in(items: &[SimpleColumn]) -> usize
    ensures { result ≡ references_in items.now }
{
    items.iter().filter(|item| is_reference(item)).count()
}

fn any_primary(items: &[SimpleColumn]) -> bool
    ensures { result ≡ list_any (λ item. is_primary item.constraint) items.now }
{
    items.iter().any(|item| is_primary(item))
}

/// The columns of the first table of a name, where a table comes next.
fn items_with<'a>(
    earlier: &'a [SimplePlaced],
    table: &TextVal,
    items: &'a List<SimpleColumn>,
    name: &TextVal,
) -> Option<&'a List<SimpleColumn>>
    ensures { option_copied result ≡ items_with earlier.now table.now items.now name.now }
{
    match items_named(earlier, name) {
        Some(found) => Some(found),
        None if same_text(table.bytes(), name.bytes()) => Some(items),
        None => None,
    }
}

/// Whether the first table of a name has a primary key, where a table comes next.
fn has_primary(
    earlier: &[SimplePlaced],
    table: &TextVal,
    items: &List<SimpleColumn>,
    name: &TextVal,
) -> bool
    ensures { result ≡ has_primary (items_with earlier.now table.now items.now name.now) }
{
    match items_with(earlier, table, items, name) {
        None => false,
        Some(found) => any_primary(found.as_slice()),
    }
}

fn primary_key_is_short(table: &TextVal) -> bool
    ensures { result ≡ is_short (primary_key_name table.now) }
{
    table.bytes().len() <= 63 - 5
}

fn foreign_key_is_short(table: &TextVal, col: &TextVal) -> bool
    ensures { result ≡ is_short (foreign_key_name table.now col.now) }
{
    let table_len = table.bytes().len();
    table_len <= 63 - 6 && col.bytes().len() <= 63 - 6 - table_len
}

fn constraint_kept(
    earlier: &[SimplePlaced],
    table: &TextVal,
    items: &List<SimpleColumn>,
    col: &TextVal,
    constraint: &Option<SimpleConstraint>,
) -> bool
    ensures { result ≡ constraint_kept earlier.now table.now items.now col.now constraint.now }
{
    match constraint {
        None => true,
        Some(SimpleConstraint::PrimaryKey) => primary_key_is_short(table),
        Some(SimpleConstraint::References { table: parent, .. }) => {
            has_primary(earlier, table, items, parent) && foreign_key_is_short(table, col)
        }
    }
}

fn column_kept(
    earlier: &[SimplePlaced],
    table: &TextVal,
    items: &List<SimpleColumn>,
    item: &SimpleColumn,
) -> bool
    ensures { result ≡ column_kept earlier.now table.now items.now item.now }
{
    constraint_kept(earlier, table, items, &item.name, &item.constraint)
}

fn columns_kept(earlier: &[SimplePlaced], table: &TextVal, items: &List<SimpleColumn>) -> bool
    ensures { result ≡ list_all (column_kept earlier.now table.now items.now) items.now }
{
    items
        .as_slice()
        .iter()
        .all(|item| column_kept(earlier, table, items, item))
}

fn any_named(items: &[SimpleColumn], name: &TextVal) -> bool
    ensures { result ≡ list_any (λ item. same_text name.now item.name) items.now }
{
    items
        .iter()
        .any(|item| same_text(name.bytes(), item.name.bytes()))
}

#[tactic(auto, using(crate::proofs::Kept::any_mapped))]
fn is_apart_from(items: &[SimpleColumn], name: &TextVal) -> bool
    ensures { result ≡ is_apart_from (map (λ item. item.name) items.now) name.now }
{
    !any_named(items, name)
}

fn names_differ(items: &[SimpleColumn]) -> bool
    ensures { result ≡ all_differ (map (λ item. item.name) items.now) }
{
    let mut rest = items;
    'items: while let Some((item, others)) = rest.split_first() {
        if !is_apart_from(others, &item.name) {
            return false;
        }
        rest = others;
    }
    true
}

fn statement_references(statement: &SimpleStatement) -> usize
    ensures { result ≡ statement_references statement.now }
{
    match statement {
        SimpleStatement::CreateTable { items, .. } => references_in(items.as_slice()),
        _ => 0,
    }
}

/// The number of foreign keys that statements make, as far as a number can be.
fn references_before(earlier: &[SimplePlaced]) -> usize
    ensures { result ≡ min (references_before earlier.now) (2 ^ 64 - 1) }
{
    let mut total: usize = 0;
    for placed in earlier {
        total = total.saturating_add(statement_references(&placed.statement));
    }
    total
}

fn create_kept(earlier: &[SimplePlaced], table: &TextVal, items: &List<SimpleColumn>) -> bool
    ensures { result ≡ create_kept earlier.now table.now items.now }
{
    items_named(earlier, table).is_none()
        && earlier.len() < 64
        && items.len() <= 32
        && names_differ(items.as_slice())
        && columns_kept(earlier, table, items)
        && primaries_in(items.as_slice()) <= 1
        && references_before(earlier).saturating_add(references_in(items.as_slice())) <= 128
}

/// Whether a statement may be defined after others.
pub fn definition_kept(earlier: &[SimplePlaced], statement: &SimpleStatement) -> bool
    ensures { result ≡ definition_kept earlier.now statement.now }
{
    match statement {
        SimpleStatement::CreateTable { table, items } => create_kept(earlier, table, items),
        _ => false,
    }
}

fn setup_kept(setup: &[SimplePlaced]) -> bool
    ensures { result ≡ setup_kept [] setup.now }
{
    'setup: for (at, placed) in setup.iter().enumerate() {
        if !definition_kept(&setup[..at], &placed.statement) {
            return false;
        }
    }
    true
}

fn rows_kept(items: &List<SimpleColumn>, rows: &[Row]) -> bool
    ensures { result ≡ rows_kept (Some items.now) rows.now }
{
    rows.iter().all(|row| row.len() == items.len())
}

/// Whether a statement of a session runs on a setup.
pub fn run_kept(setup: &[SimplePlaced], statement: &SimpleStatement) -> bool
    ensures { result ≡ run_kept setup.now statement.now }
{
    match statement {
        SimpleStatement::CreateTable { .. } => false,
        SimpleStatement::Insert { table, rows } => match items_named(setup, table) {
            None => false,
            Some(items) => rows_kept(items, rows.as_slice()),
        },
        SimpleStatement::Delete { table } => items_named(setup, table).is_some(),
        SimpleStatement::Begin | SimpleStatement::Commit | SimpleStatement::Rollback => true,
    }
}

fn statements_kept(setup: &[SimplePlaced], statements: &[SimplePlaced]) -> bool
    ensures { result ≡ list_all (λ placed. run_kept setup.now placed.statement) statements.now }
{
    statements
        .iter()
        .all(|placed| run_kept(setup, &placed.statement))
}

fn session_kept(setup: &[SimplePlaced], session: &SimpleSession) -> bool
    ensures { result ≡ session_kept setup.now session.now }
{
    is_name(&session.name) && statements_kept(setup, session.statements.as_slice())
}

/// The rows of values of a statement.
pub fn rows_in(statement: &SimpleStatement) -> usize
    ensures { result ≡ rows_in statement.now }
{
    match statement {
        SimpleStatement::Insert { rows, .. } => rows.len(),
        _ => 0,
    }
}

fn rows_in_session(session: &SimpleSession) -> usize
    ensures { result ≡ min (rows_in_session session.now) (2 ^ 64 - 1) }
{
    let mut total: usize = 0;
    for placed in session.statements.as_slice() {
        total = total.saturating_add(rows_in(&placed.statement));
    }
    total
}

fn rows_in_sessions(sessions: &[SimpleSession]) -> usize
    ensures { result ≡ min (sum_by rows_in_session sessions.now) (2 ^ 64 - 1) }
{
    let mut total: usize = 0;
    for session in sessions {
        total = total.saturating_add(rows_in_session(session));
    }
    total
}

fn statements_in(script: &SimpleScript) -> usize
    ensures { result ≡ min (statements_in script.now) (2 ^ 64 - 1) }
{
    let mut total = script.setup.len();
    for session in script.sessions.as_slice() {
        total = total.saturating_add(session.statements.len());
    }
    total
}

fn sessions_kept(setup: &[SimplePlaced], sessions: &[SimpleSession]) -> bool
    ensures { result ≡ list_all (session_kept setup.now) sessions.now }
{
    sessions.iter().all(|session| session_kept(setup, session))
}

#[tactic(auto, unfolding(crate::specs::Conditions::script_kept))]
fn script_kept(script: &SimpleScript) -> bool
    ensures { result ≡ script_kept script.now }
{
    script.schedule.is_none()
        && script.sessions.len() <= 1
        && statements_in(script) <= 65536
        && rows_in_sessions(script.sessions.as_slice()) <= 1000
        && setup_kept(script.setup.as_slice())
        && sessions_kept(script.setup.as_slice(), script.sessions.as_slice())
}

/// Whether a script keeps the names and limits of the language.
#[tactic(auto, using(crate::proofs::Stands::script_kept_is))]
pub fn fits_first_language(script: &SimpleScript) -> bool
    ensures { result ≡ fits_first_language script.now }
{
    script_kept(script)
}
