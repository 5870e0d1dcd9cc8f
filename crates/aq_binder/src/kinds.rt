//! The kinds of expressions and the faults of kinds, from left to right, operands before their operator
//! (PostgreSQL manual, chapter "Type Conversion").

ghost use Rattle.std.specs.Prelude.{◌≡◌, ◌++◌, Some, codes};
ghost use Rattle.aq_base.specs.declared.script.Kind.TheVariants.{Bigint, Boolean};
ghost use Rattle.aq_catalog.specs.Catalogs as catalogs;
ghost use Rattle.aq_setup.specs.Kinds as kinds;
ghost use Rattle.std.specs.List.{flat_map};
ghost use Rattle.aq_refusals.specs.Answers.{Tells, Gives};
ghost use Rattle.aq_binder.specs.Targets.{targets_of};

use crate::scopes::{Scope, Setting, no_row, qualified_cols, query_scope, table_scope};
use aq_base::{
    Assignment, BinaryOperator, Column, Comparison, Delete, Expr, Given, Insert, Kind, List, Same,
    Select, Source, TextVal, UnaryOperator, Update, Value,
};
use aq_refusals::{CatFault, no_boolean, no_negation, no_operator, wrong_value};
use std::alloc::Global;

fn is_number(kind: Kind) -> bool
    ensures { result ≡ kinds.is_number kind }
{
    match kind {
        Kind::Integer | Kind::Bigint => true,
        Kind::Boolean | Kind::Text => false,
    }
}

/// Whether a value of one kind may stand where the other is wanted.
pub fn same_kind(a: Kind, b: Kind) -> bool
    ensures { result ≡ kinds.same_kind a b }
{
    match a {
        Kind::Integer | Kind::Bigint => is_number(b),
        Kind::Boolean => matches!(b, Kind::Boolean),
        Kind::Text => matches!(b, Kind::Text),
    }
}

/// The kind of a constant, none for that of NULL.
pub fn constant_kind(value: &Value) -> Option<Kind>
    ensures { result ≡ kinds.constant_kind value.now }
{
    match value {
        Value::Null => None,
        Value::Bool(_) => Some(Kind::Boolean),
        Value::Int(_) => Some(Kind::Integer),
        Value::Text(_) => Some(Kind::Text),
    }
}

fn column_kind(cols: &[Column], name: &TextVal) -> Option<Kind>
    ensures { result ≡ catalogs.column_kind cols.now name.now }
{
    match cols.iter().find(|col| col.name.same(name)) {
        None => None,
        Some(col) => Some(col.kind),
    }
}

/// The kinds of two operands: a NULL literal has that of the operand beside it.
fn operand_kinds(a: Option<Kind>, b: Option<Kind>) -> Option<(Kind, Kind)>
    ensures { result ≡ kinds.operand_kinds a b }
{
    match (a, b) {
        (Some(a), Some(b)) => Some((a, b)),
        (Some(only), None) | (None, Some(only)) => Some((only, only)),
        (None, None) => None,
    }
}

fn arithmetic(
    alloc: Global,
    sign: &str,
    a: Option<Kind>,
    b: Option<Kind>,
) -> Result<Option<Kind>, CatFault>
    ensures { Gives (kinds.number_faults sign.now a b) (Some Bigint) result }
{
    match operand_kinds(a, b) {
        Some((left, right)) if !(is_number(left) && is_number(right)) => {
            Err(no_operator(alloc, left, sign, right))
        }
        _ => Ok(Some(Kind::Bigint)),
    }
}

fn compared(
    alloc: Global,
    sign: &str,
    a: Option<Kind>,
    b: Option<Kind>,
) -> Result<Option<Kind>, CatFault>
    ensures { Gives (kinds.comparison_faults sign.now a b) (Some Boolean) result }
{
    match operand_kinds(a, b) {
        Some((left, right)) if !same_kind(left, right) => {
            Err(no_operator(alloc, left, sign, right))
        }
        _ => Ok(Some(Kind::Boolean)),
    }
}

fn comparison_sign(comparison: Comparison) -> &'static str
    ensures { result.now ≡ kinds.comparison_sign comparison }
{
    match comparison {
        Comparison::Equal => "=",
        Comparison::Unequal => "<>",
        Comparison::Less => "<",
        Comparison::AtMost => "<=",
        Comparison::Greater => ">",
        Comparison::AtLeast => ">=",
    }
}

fn negation(alloc: Global, a: Option<Kind>) -> Result<Option<Kind>, CatFault>
    ensures { Gives (kinds.negation_faults a) (Some Bigint) result }
{
    match a {
        Some(kind) if !is_number(kind) => Err(no_negation(alloc, kind)),
        _ => Ok(Some(Kind::Bigint)),
    }
}

/// The argument of WHERE, AND, OR, NOT, WHEN or IF is boolean.
fn argument(alloc: Global, word: &str, a: Option<Kind>) -> Result<(), CatFault>
    ensures { Tells (kinds.argument_faults word.now a) result }
{
    match a {
        Some(kind) if !matches!(kind, Kind::Boolean) => Err(no_boolean(alloc, word, kind)),
        _ => Ok(()),
    }
}

/// The operand of NOT.
fn denial(alloc: Global, a: Option<Kind>) -> Result<Option<Kind>, CatFault>
    ensures { Gives (kinds.argument_faults (codes "NOT") a) (Some Boolean) result }
{
    argument(alloc, "NOT", a)?;
    Ok(Some(Kind::Boolean))
}

/// Both operands of AND or OR.
fn joined(
    alloc: Global,
    word: &str,
    a: Option<Kind>,
    b: Option<Kind>,
) -> Result<Option<Kind>, CatFault>
    ensures { Gives (kinds.truth_faults word.now a b) (Some Boolean) result }
{
    argument(alloc, word, a)?;
    argument(alloc, word, b)?;
    Ok(Some(Kind::Boolean))
}

/// The kind of what an operator gives, from that of its operand.
fn of_unary(
    alloc: Global,
    operator: UnaryOperator,
    a: Option<Kind>,
) -> Result<Option<Kind>, CatFault>
    ensures { Gives (kinds.unary_faults operator a) (Some (kinds.unary_kind operator)) result }
{
    match operator {
        UnaryOperator::Negate => negation(alloc, a),
        UnaryOperator::Not => denial(alloc, a),
        UnaryOperator::IsNull | UnaryOperator::IsNotNull => Ok(Some(Kind::Boolean)),
    }
}

/// The kind of what an operator gives, from those of its operands.
fn of_binary(
    alloc: Global,
    a: Option<Kind>,
    operator: BinaryOperator,
    b: Option<Kind>,
) -> Result<Option<Kind>, CatFault>
    ensures { Gives (kinds.binary_faults operator a b) (Some (kinds.binary_kind operator)) result }
{
    match operator {
        BinaryOperator::Multiply => arithmetic(alloc, "*", a, b),
        BinaryOperator::Add => arithmetic(alloc, "+", a, b),
        BinaryOperator::Subtract => arithmetic(alloc, "-", a, b),
        BinaryOperator::Compare(comparison) => compared(alloc, comparison_sign(comparison), a, b),
        BinaryOperator::IsDistinct | BinaryOperator::IsNotDistinct => compared(alloc, "=", a, b),
        BinaryOperator::And => joined(alloc, "AND", a, b),
        BinaryOperator::Or => joined(alloc, "OR", a, b),
    }
}

/// The kind of an expression, none for that of a NULL literal.
pub(crate) fn kinded(alloc: Global, scope: &Scope<'_>, e: &Expr) -> Result<Option<Kind>, CatFault>
    ensures { Gives (kinds.kinded scope.now e.now).faults (kinds.kinded scope.now e.now).kind result }
{
    match e {
        Expr::Constant(value) => Ok(constant_kind(value)),
        Expr::Column(column) => Ok(column_kind(scope.cols, column)),
        Expr::Qualified { table, column } => Ok(column_kind(qualified_cols(scope, table), column)),
        Expr::Old(column) | Expr::New(column) => Ok(column_kind(scope.changed, column)),
        Expr::Operation => Ok(Some(Kind::Text)),
        Expr::Unary { operator, operand } => {
            let a = kinded(alloc, scope, operand.get())?;
            of_unary(alloc, *operator, a)
        }
        Expr::Binary {
            left,
            operator,
            right,
        } => {
            let a = kinded(alloc, scope, left.get())?;
            let b = kinded(alloc, scope, right.get())?;
            of_binary(alloc, a, *operator, b)
        }
    }
}

/// The argument of WHERE, WHEN or IF is boolean.
pub(crate) fn boolean_kinds(
    alloc: Global,
    word: &str,
    scope: &Scope<'_>,
    e: &Expr,
) -> Result<(), CatFault>
    ensures { Tells (kinds.boolean_kinds word.now scope.now e.now) result }
{
    let kind = kinded(alloc, scope, e)?;
    argument(alloc, word, kind)
}

fn where_kinds(alloc: Global, scope: &Scope<'_>, condition: &Option<Expr>) -> Result<(), CatFault>
    ensures { Tells (kinds.where_kinds scope.now condition.now) result }
{
    match condition {
        None => Ok(()),
        Some(e) => boolean_kinds(alloc, "WHERE", scope, e),
    }
}

/// Whether the kind of a value fits the column that it goes to.
fn stored(
    alloc: Global,
    column: &TextVal,
    wanted: Option<Kind>,
    found: Option<Kind>,
) -> Result<(), CatFault>
    ensures { Tells (kinds.stored_faults column.now wanted found) result }
{
    match (wanted, found) {
        (Some(wanted), Some(found)) if !same_kind(wanted, found) => {
            Err(wrong_value(alloc, column, wanted, found))
        }
        _ => Ok(()),
    }
}

fn value_kinds(
    alloc: Global,
    scope: &Scope<'_>,
    column: &TextVal,
    wanted: Option<Kind>,
    e: &Expr,
) -> Result<(), CatFault>
    ensures { Tells (kinds.value_kinds scope.now column.now wanted e.now) result }
{
    let found = kinded(alloc, scope, e)?;
    stored(alloc, column, wanted, found)
}

fn given_kinds(
    alloc: Global,
    scope: &Scope<'_>,
    column: &TextVal,
    wanted: Option<Kind>,
    given: &Given,
) -> Result<(), CatFault>
    ensures { Tells (kinds.given_kinds scope.now column.now wanted given.now) result }
{
    match given {
        Given::Value(e) => value_kinds(alloc, scope, column, wanted, e),
        Given::Default => Ok(()),
    }
}

/// What a value of an INSERT goes to: a column of the table, or the name of one.
trait Target {
    ghost use Rattle.std.specs.Prelude.{List, Option};
    ghost use Rattle.aq_base.specs.Names.{Text};
    ghost use Rattle.aq_base.specs.declared.script.Kind.{Kind};
    ghost use Rattle.aq_base.specs.declared.catalog.Column.{Column};

    ghost named: { Self → Text };

    ghost wanted: { List Column → Self → Option Kind };

    /// The name of the column.
    fn name(&self) -> &TextVal
        ensures { result.now ≡ named self.now };

    /// The kind of the column, which is one of these.
    fn kind(&self, cols: &[Column]) -> Option<Kind>
        ensures { result ≡ wanted cols.now self.now };
}

impl Target for Column {
    ghost use Rattle.std.specs.Prelude.{Some};

    ghost named = { λ col. col.name };

    ghost wanted = { λ _ col. Some col.kind };

    fn name(&self) -> &TextVal {
        &self.name
    }

    fn kind(&self, _cols: &[Column]) -> Option<Kind> {
        Some(self.kind)
    }
}

impl Target for TextVal {
    ghost use Rattle.aq_catalog.specs.Catalogs.{column_kind};

    ghost named = { λ name. name };

    ghost wanted = { λ cols name. column_kind cols name };

    fn name(&self) -> &TextVal {
        self
    }

    fn kind(&self, cols: &[Column]) -> Option<Kind> {
        column_kind(cols, self)
    }
}

/// A row of VALUES. Values that have no column are passed over.
fn row_kinds<T: Target>(
    alloc: Global,
    scope: &Scope<'_>,
    cols: &[Column],
    into: &[T],
    row: &[Given],
) -> Result<(), CatFault>
    ensures { Tells (kinds.row_kinds scope.now (targets_of T.named (T.wanted cols.now) into.now) row.now) result }
{
    let mut targets = into;
    let mut values = row;
    'values: while let (Some((target, later_targets)), Some((given, later_values))) = (
        targets.split_first(),
        values.split_first(),
    ) {
        given_kinds(alloc, scope, target.name(), target.kind(cols), given)?;
        targets = later_targets;
        values = later_values;
    }
    Ok(())
}

#[tactic(auto, using(aq_refusals::proofs::Loops::fault_at, aq_refusals::proofs::Loops::left_at))]
fn rows_kinds<T: Target>(
    alloc: Global,
    scope: &Scope<'_>,
    cols: &[Column],
    into: &[T],
    rows: &[List<Given>],
) -> Result<(), CatFault>
    ensures { Tells (flat_map (kinds.row_kinds scope.now (targets_of T.named (T.wanted cols.now) into.now)) rows.now) result }
{
    for row in rows {
        row_kinds(alloc, scope, cols, into, row.as_slice())?;
    }
    Ok(())
}

/// The values of a query. Those that have no column are passed over.
fn query_kinds<T: Target>(
    alloc: Global,
    scope: &Scope<'_>,
    cols: &[Column],
    into: &[T],
    found: &[Expr],
) -> Result<(), CatFault>
    ensures { Tells (kinds.query_kinds scope.now (targets_of T.named (T.wanted cols.now) into.now) found.now) result }
{
    let mut targets = into;
    let mut values = found;
    'values: while let (Some((target, later_targets)), Some((e, later_values))) = (
        targets.split_first(),
        values.split_first(),
    ) {
        value_kinds(alloc, scope, target.name(), target.kind(cols), e)?;
        targets = later_targets;
        values = later_values;
    }
    Ok(())
}

fn chosen_kinds<T: Target>(
    alloc: Global,
    scope: &Scope<'_>,
    cols: &[Column],
    into: &[T],
    found: &[Expr],
    condition: &Option<Expr>,
) -> Result<(), CatFault>
    ensures { Tells (kinds.query_kinds scope.now (targets_of T.named (T.wanted cols.now) into.now) found.now ++ kinds.where_kinds scope.now condition.now) result }
{
    query_kinds(alloc, scope, cols, into, found)?;
    where_kinds(alloc, scope, condition)
}

fn source_kinds<T: Target>(
    alloc: Global,
    setting: &Setting<'_>,
    cols: &[Column],
    into: &[T],
    source: &Source,
) -> Result<(), CatFault>
    ensures { Tells (kinds.source_kinds setting.now (targets_of T.named (T.wanted cols.now) into.now) source.now) result }
{
    match source {
        Source::Values(rows) => {
            rows_kinds(alloc, &no_row(setting.changed), cols, into, rows.as_slice())
        }
        Source::Query {
            values,
            table,
            condition,
        } => chosen_kinds(
            alloc,
            &query_scope(setting, table),
            cols,
            into,
            values.as_slice(),
            condition,
        ),
    }
}

fn kinds_into(
    alloc: Global,
    setting: &Setting<'_>,
    cols: &[Column],
    names: &Option<List<TextVal>>,
    source: &Source,
) -> Result<(), CatFault>
    ensures { Tells (kinds.source_kinds setting.now (kinds.targets cols.now names.now) source.now) result }
{
    match names {
        None => source_kinds(alloc, setting, cols, cols, source),
        Some(names) => source_kinds(alloc, setting, cols, names.as_slice(), source),
    }
}

pub(crate) fn insert_kinds(alloc: Global, setting: &Setting<'_>, s: &Insert) -> Result<(), CatFault>
    ensures { Tells (kinds.insert_kinds setting.now s.now) result }
{
    let cols = setting.catalog.columns_of(&s.table);
    kinds_into(alloc, setting, cols, &s.columns, &s.source)
}

#[tactic(auto, using(aq_refusals::proofs::Loops::fault_at, aq_refusals::proofs::Loops::left_at))]
fn assignments_kinds(
    alloc: Global,
    scope: &Scope<'_>,
    assignments: &[Assignment],
) -> Result<(), CatFault>
    ensures { Tells (flat_map (kinds.assignment_kinds scope.now) assignments.now) result }
{
    for assignment in assignments {
        let wanted = column_kind(scope.cols, &assignment.column);
        given_kinds(alloc, scope, &assignment.column, wanted, &assignment.value)?;
    }
    Ok(())
}

pub(crate) fn update_kinds(alloc: Global, setting: &Setting<'_>, s: &Update) -> Result<(), CatFault>
    ensures { Tells (kinds.update_kinds setting.now s.now) result }
{
    let scope = table_scope(setting, &s.table);
    assignments_kinds(alloc, &scope, s.assignments.as_slice())?;
    where_kinds(alloc, &scope, &s.condition)
}

pub(crate) fn delete_kinds(alloc: Global, setting: &Setting<'_>, s: &Delete) -> Result<(), CatFault>
    ensures { Tells (kinds.delete_kinds setting.now s.now) result }
{
    where_kinds(alloc, &table_scope(setting, &s.table), &s.condition)
}

pub(crate) fn select_kinds(alloc: Global, setting: &Setting<'_>, s: &Select) -> Result<(), CatFault>
    ensures { Tells (kinds.select_kinds setting.now s.now) result }
{
    where_kinds(alloc, &table_scope(setting, &s.table), &s.condition)
}
