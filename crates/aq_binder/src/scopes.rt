//! What the names in a statement and in its expressions may stand for (PostgreSQL manual, section "Column References").

ghost use Rattle.std.specs.Prelude.{◌≡◌};
ghost use Rattle.std.specs.Option.{option_copied};
ghost use Rattle.aq_setup.specs.Scopes as scopes;

use aq_base::{Column, Same, TextVal};
use aq_catalog::Catalog;
use std::marker::Model;

/// Where a statement stands. The columns of OLD and NEW are those of the trigger's table; a statement of a session has none, and no
/// transition tables either.
#[derive(Drop)]
pub struct Setting<'a> {
    pub catalog: &'a Catalog,
    pub changed: &'a [Column],
    pub old_table: Option<&'a TextVal>,
    pub new_table: Option<&'a TextVal>,
}

impl<'a> Model for Setting<'a> {
    ghost use Rattle.std.specs.Option.{option_copied};
    ghost use Rattle.aq_setup.specs.Scopes.{Setting as Of};
    ghost use Rattle.std.specs.Coded.{codes};
    ghost use Rattle.aq_base.specs.contracts.body.BodyStatement as statement;
    ghost use Rattle.aq_base.specs.contracts.bound_expr.BoundExpr as expr;
    ghost use Rattle.aq_base.specs.contracts.bound_body.BoundBodyStatement as bound_statement;

    ghost Value = { Of };

    ghost coded = { Prim.hlevel (codes, statement.the_row.coded, expr.the_row.coded, bound_statement.the_row.coded) };

    ghost view = { λ s. record { catalog = s.catalog.now; changed = s.changed.now; old_table = option_copied s.old_table; new_table = option_copied s.new_table } };
}

/// Whose columns an expression may name: those of the row at hand, also as `table.column`, and those of OLD and NEW.
/// The table has no name where there is no row at hand.
#[derive(Drop)]
pub struct Scope<'a> {
    pub(crate) table: &'a str,
    pub(crate) cols: &'a [Column],
    pub(crate) changed: &'a [Column],
}

impl<'a> Model for Scope<'a> {
    ghost use Rattle.aq_setup.specs.Scopes.{Scope as Of};

    ghost Value = { Of };

    ghost view = { λ s. record { table = s.table.now; cols = s.cols.now; changed = s.changed.now } };
}

/// A statement of a session.
pub fn in_session(catalog: &Catalog) -> Setting<'_>
    ensures { result ≡ scopes.in_session catalog.now }
{
    Setting {
        catalog,
        changed: &[],
        old_table: None,
        new_table: None,
    }
}

/// An expression with no row at hand.
pub fn no_row<'a>(changed: &'a [Column]) -> Scope<'a>
    ensures { result ≡ scopes.no_row changed.now }
{
    Scope {
        table: "",
        cols: &[],
        changed,
    }
}

/// An expression over the rows of a table.
pub(crate) fn table_scope<'a>(setting: &Setting<'a>, table: &'a TextVal) -> Scope<'a>
    ensures { result ≡ scopes.table_scope setting.now table.now }
{
    Scope {
        table: table.as_str(),
        cols: setting.catalog.columns_of(table),
        changed: setting.changed,
    }
}

/// Whether a name is this one, where there is one.
pub(crate) fn is_text(text: Option<&TextVal>, name: &TextVal) -> bool
    ensures { result ≡ scopes.is_text (option_copied text.entry) name.now }
{
    match text {
        None => false,
        Some(text) => text.same(name),
    }
}

/// Whether a name is that of a transition table.
pub(crate) fn is_transition(setting: &Setting<'_>, name: &TextVal) -> bool
    ensures { result ≡ scopes.is_transition setting.now name.now }
{
    is_text(setting.old_table, name) || is_text(setting.new_table, name)
}

/// An expression over the rows that a query reads. A transition table hides a table of the same name.
pub(crate) fn query_scope<'a>(setting: &Setting<'a>, name: &'a TextVal) -> Scope<'a>
    ensures { result ≡ scopes.query_scope setting.now name.now }
{
    if is_transition(setting, name) {
        Scope {
            table: name.as_str(),
            cols: setting.changed,
            changed: setting.changed,
        }
    } else {
        table_scope(setting, name)
    }
}

/// The columns that may stand behind `table.`.
pub(crate) fn qualified_cols<'a>(scope: &Scope<'a>, table: &TextVal) -> &'a [Column]
    ensures { result.now ≡ scopes.qualified_cols scope.now table.now }
{
    if scope.table == table.as_str() {
        scope.cols
    } else {
        &[]
    }
}
