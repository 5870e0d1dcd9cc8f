//! The steps by which a CREATE TABLE and an ALTER TABLE change the catalog.
#![tactic(auto, using(crate::proofs::Extending::extends_itself, crate::proofs::Extending::follows_extended, crate::proofs::Extending::follows_itself))]

ghost use Rattle.std.specs.Prelude.{◌≡◌, ◌+◌, ◌-◌, ◌||◌, [], ◌∷◌, ◌++◌, length, map, slice_get, string_bytes, unwrap_or, Some, IfOk, OnOk, OnErr};
ghost use Rattle.std.specs.List.{enumerate_from};
ghost use Rattle.aq_catalog.specs.Catalogs.{number_of_column};
ghost use Rattle.aq_catalog.specs.Catalogs as catalogs;
ghost use Rattle.aq_setup.specs.References as references;
ghost use Rattle.aq_setup.specs.Tables as tables;
ghost use Rattle.aq_base.specs.declared.catalog.Op.TheVariants as ops;
ghost use Rattle.aq_base.specs.declared.catalog.Does.TheVariants.{Check, Parent};
ghost use Rattle.aq_additions.specs.Steps.{Extends, Follows, nulls_in, made_fk, made_triggers, among_places};

use crate::constraints::NamedConstraint;
use crate::parents::parent_cols;
use crate::referring::Referring;
use crate::set_columns::set_numbers;
use aq_base::{
    Action, ColNo, ConNo, Constraint, Copies, Decl, Does, Each, FkNo, ForeignKey, KeyNo, List,
    Match, Op, Reference, TabNo, Table, TableConstraint, TextVal, Trigger, UniqueKey,
};
use aq_catalog::{Catalog, in_16_bits, is_column_in, number_of_table, numbers_of_columns};
use itoa::Buffer;
use std::alloc::{AllocError, Global};

fn key_of(
    alloc: Global,
    catalog: &Catalog,
    table: usize,
    name: &TextVal,
    cols: &[TextVal],
) -> Result<UniqueKey, AllocError>
    ensures { IfOk result (λ made. made ≡ record { name = name.now; table = table; cols = map (number_of_column (catalogs.columns_at catalog.now table)) cols.now }) }
{
    Ok(UniqueKey {
        name: name.copy()?,
        table: TabNo::new(in_16_bits(table)?),
        cols: numbers_of_columns(alloc, catalog.columns_at(table), cols)?,
    })
}

fn constraint_of(table: usize, name: &TextVal, decl: Decl) -> Result<Constraint, AllocError>
    ensures { IfOk result (λ made. made ≡ record { name = name.now; table = table; decl = decl }) }
{
    Ok(Constraint {
        name: name.copy()?,
        table: TabNo::new(in_16_bits(table)?),
        decl,
    })
}

fn put_key(catalog: &mut Catalog, key: UniqueKey, constraint: Constraint) -> Result<(), AllocError>
    ensures ok { OnOk result (catalog.new ≡ record catalog.old { keys = catalog.old.keys ++ key ∷ []; constraints = catalog.old.constraints ++ constraint ∷ [] }) }
    ensures kept { Extends catalog.old catalog.new }
{
    catalog.push_key(key)?;
    catalog.push_constraint(constraint)?;
    Ok(())
}

fn add_key(
    catalog: &mut Catalog,
    alloc: Global,
    table: usize,
    name: &TextVal,
    cols: &[TextVal],
) -> Result<(), AllocError>
    ensures ok { OnOk result (catalog.new ≡ tables.with_key table name.now cols.now catalog.old) }
    ensures kept { Extends catalog.old catalog.new }
{
    let key = key_of(alloc, catalog, table, name, cols)?;
    let never_deferred = Decl {
        deferrable: false,
        deferred: false,
    };
    let constraint = constraint_of(table, name, never_deferred)?;
    put_key(catalog, key, constraint)
}

fn put_primary(catalog: &mut Catalog) -> Result<(), AllocError>
    ensures ok { OnOk result (catalog.new ≡ record catalog.old { primaries = catalog.old.primaries ++ length catalog.old.keys ∷ [] }) }
    ensures kept { Extends catalog.old catalog.new }
{
    let number = KeyNo::new(in_16_bits(catalog.all_keys().len())?);
    catalog.push_primary(number)?;
    Ok(())
}

fn put_primary_key(
    catalog: &mut Catalog,
    alloc: Global,
    table: usize,
    name: &TextVal,
    cols: &[TextVal],
) -> Result<(), AllocError>
    ensures ok { OnOk result (catalog.new ≡ tables.with_key table name.now cols.now (record catalog.old { primaries = catalog.old.primaries ++ length catalog.old.keys ∷ [] })) }
    ensures kept { Extends catalog.old catalog.new }
{
    put_primary(catalog)?;
    add_key(catalog, alloc, table, name, cols)?;
    Ok(())
}

fn add_primary(
    catalog: &mut Catalog,
    alloc: Global,
    table: usize,
    name: &TextVal,
    cols: &[TextVal],
) -> Result<(), AllocError>
    ensures ok { OnOk result (catalog.new ≡ tables.with_not_null table cols.now (tables.with_key table name.now cols.now (record catalog.old { primaries = catalog.old.primaries ++ length catalog.old.keys ∷ [] }))) }
    ensures kept { Follows table catalog.old catalog.new }
    ensures err { OnErr result (Extends catalog.old catalog.new) }
{
    let nulls = nulls_at(alloc, catalog, table, cols)?;
    put_primary_key(catalog, alloc, table, name, cols)?;
    catalog.set_not_null(table, nulls);
    Ok(())
}

/// Adds the key of a constraint. A foreign key is none.
pub fn add_constraint_key(
    catalog: &mut Catalog,
    alloc: Global,
    table: usize,
    n: &NamedConstraint,
) -> Result<(), AllocError>
    ensures ok { OnOk result (catalog.new ≡ tables.with_constraint_key table n.now.name n.now.constraint catalog.old) }
    ensures kept { Follows table catalog.old catalog.new }
    ensures err { OnErr result (Extends catalog.old catalog.new) }
{
    match &n.constraint {
        TableConstraint::PrimaryKey { columns, .. } => {
            add_primary(catalog, alloc, table, &n.name, columns.as_slice())
        }
        TableConstraint::Unique { columns, .. } => {
            add_key(catalog, alloc, table, &n.name, columns.as_slice())
        }
        TableConstraint::ForeignKey { .. } => Ok(()),
    }
}

/// Adds the keys among some constraints.
pub fn add_keys(
    catalog: &mut Catalog,
    alloc: Global,
    table: usize,
    all: &[NamedConstraint],
) -> Result<(), AllocError>
    ensures ok { OnOk result (catalog.new ≡ tables.with_keys table all.now catalog.old) }
    ensures kept { Follows table catalog.old catalog.new }
{
    for n in all {
        add_constraint_key(catalog, alloc, table, n)?;
    }
    Ok(())
}

fn without_nulls(alloc: Global, table: &Table, cols: &[ColNo]) -> Result<List<ColNo>, AllocError>
    ensures { IfOk result (λ made. made ≡ among_places (λ n. catalogs.is_number_in table.now.not_null n || catalogs.is_number_in cols.now n) (enumerate_from 0 table.now.cols)) }
{
    let mut made = List::new(alloc);
    for (number, _) in table.cols.as_slice().iter().enumerate() {
        if is_column_in(table.not_null.as_slice(), number) || is_column_in(cols, number) {
            made.push(ColNo::new(in_16_bits(number)?))?;
        }
    }
    Ok(made)
}

#[tactic(auto, using(crate::proofs::Nulls::as_defined))]
fn nulls_of(alloc: Global, table: &Table, names: &[TextVal]) -> Result<List<ColNo>, AllocError>
    ensures { IfOk result (λ made. made ≡ (tables.without_nulls (map (number_of_column table.now.cols) names.now) table.now).not_null) }
{
    let cols = numbers_of_columns(alloc, table.cols.as_slice(), names)?;
    without_nulls(alloc, table, cols.as_slice())
}

fn nulls_at(
    alloc: Global,
    catalog: &Catalog,
    table: usize,
    names: &[TextVal],
) -> Result<List<ColNo>, AllocError>
    ensures { IfOk result (λ made. made ≡ nulls_in (slice_get catalog.now.tables table) names.now) }
{
    match catalog.all_tables().get(table) {
        None => Ok(List::new(alloc)),
        Some(table) => nulls_of(alloc, table, names),
    }
}

fn push_ten_digits(out: &mut String, n: u64) -> Result<(), AllocError>
    ensures { OnOk result (string_bytes out.new ≡ string_bytes out.old ++ tables.ten_digits n) }
{
    let mut buffer = Buffer::new();
    let digits = buffer.format(n);
    let missing = 10usize.saturating_sub(digits.len());
    'zeros: for _ in 0..missing {
        out.push_str("0")?;
    }
    out.push_str(digits)
}

fn trigger_name(alloc: Global, front: &str, fk: u16) -> Result<TextVal, AllocError>
    ensures { IfOk result (λ made. made ≡ front.now ++ tables.ten_digits (fk + 1)) }
{
    let mut text = String::from_str(alloc, front)?;
    push_ten_digits(&mut text, u64::from(fk) + 1)?;
    Ok(TextVal::from_string(text))
}

fn one_op(alloc: Global, op: Op) -> Result<List<Op>, AllocError>
    ensures { IfOk result (λ made. made ≡ op ∷ []) }
{
    let mut ops = List::new(alloc);
    ops.push(op)?;
    Ok(ops)
}

fn insert_or_update(alloc: Global) -> Result<List<Op>, AllocError>
    ensures { IfOk result (λ made. made ≡ ops.Insert ∷ ops.Update ∷ []) }
{
    let mut ops = one_op(alloc, Op::Insert)?;
    ops.push(Op::Update)?;
    Ok(ops)
}

fn action_con(action: Action, con: ConNo) -> Option<ConNo>
    ensures { result ≡ tables.action_con action con }
{
    match action {
        Action::NoAction => Some(con),
        Action::Restrict | Action::Cascade | Action::SetNull | Action::SetDefault => None,
    }
}

fn own_trigger(
    alloc: Global,
    name: TextVal,
    table: TabNo,
    fired: List<Op>,
    con: Option<ConNo>,
    does: Does,
) -> Trigger
    ensures { result ≡ tables.reference_trigger name table fired con does }
{
    Trigger {
        name,
        table,
        ops: fired,
        cols: List::new(alloc),
        level: Each::Row,
        condition: None,
        con,
        does,
        old_table: None,
        new_table: None,
    }
}

fn parent_trigger(
    alloc: Global,
    fk: u16,
    parent: TabNo,
    op: Op,
    con: Option<ConNo>,
) -> Result<Trigger, AllocError>
    ensures { IfOk result (λ made. made ≡ tables.reference_trigger (tables.parent_trigger_name fk) parent (op ∷ []) con (Parent fk)) }
{
    let name = trigger_name(alloc, "RI_ConstraintTrigger_a_", fk)?;
    let fired = one_op(alloc, op)?;
    let does = Does::Parent(FkNo::new(fk));
    Ok(own_trigger(alloc, name, parent, fired, con, does))
}

fn child_trigger(alloc: Global, fk: u16, child: TabNo, con: ConNo) -> Result<Trigger, AllocError>
    ensures { IfOk result (λ made. made ≡ tables.reference_trigger (tables.child_trigger_name fk) child (ops.Insert ∷ ops.Update ∷ []) (Some con) (Check fk)) }
{
    let name = trigger_name(alloc, "RI_ConstraintTrigger_c_", fk)?;
    let fired = insert_or_update(alloc)?;
    let does = Does::Check(FkNo::new(fk));
    Ok(own_trigger(alloc, name, child, fired, Some(con), does))
}

/// The triggers of a foreign key: for a DELETE of the parent table, for an UPDATE of it, and for the child table.
#[derive(Drop)]
struct OwnTriggers {
    on_delete: Trigger,
    on_update: Trigger,
    on_child: Trigger,
}

fn triggers_of(
    alloc: Global,
    catalog: &Catalog,
    child: usize,
    f: &Referring<'_>,
) -> Result<OwnTriggers, AllocError>
    ensures { IfOk result (λ made. made.on_delete ∷ made.on_update ∷ made.on_child ∷ [] ≡ made_triggers child f.now catalog.now) }
{
    let fk = catalog.fks();
    let con = ConNo::new(in_16_bits(catalog.all_constraints().len())?);
    let parent = TabNo::new(in_16_bits(number_of_table(catalog, &f.reference.table))?);
    let child = TabNo::new(in_16_bits(child)?);
    let r = f.reference;
    Ok(OwnTriggers {
        on_delete: parent_trigger(alloc, fk, parent, Op::Delete, action_con(r.on_delete, con))?,
        on_update: parent_trigger(alloc, fk, parent, Op::Update, action_con(r.on_update, con))?,
        on_child: child_trigger(alloc, fk, child, con)?,
    })
}

fn is_full(matching: Match) -> bool
    ensures { result ≡ tables.is_full matching }
{
    match matching {
        Match::Simple => false,
        Match::Full => true,
    }
}

fn parent_numbers(
    alloc: Global,
    catalog: &Catalog,
    r: &Reference,
) -> Result<List<ColNo>, AllocError>
    ensures { IfOk result (λ made. made ≡ unwrap_or (references.parent_cols catalog.now r.now) []) }
{
    match parent_cols(alloc, catalog, r)? {
        None => Ok(List::new(alloc)),
        Some(cols) => Ok(cols),
    }
}

fn set_cols_of(
    alloc: Global,
    catalog: &Catalog,
    child: usize,
    f: &Referring<'_>,
) -> Result<List<ColNo>, AllocError>
    ensures { IfOk result (λ made. made ≡ references.set_numbers (catalogs.columns_at catalog.now child) f.now.cols f.now.reference.set_columns) }
{
    set_numbers(
        alloc,
        catalog.columns_at(child),
        f.cols.as_slice(),
        &f.reference.set_columns,
    )
}

fn fk_of(
    alloc: Global,
    catalog: &Catalog,
    child: usize,
    f: &Referring<'_>,
) -> Result<ForeignKey, AllocError>
    ensures { IfOk result (λ made. made ≡ made_fk child f.now catalog.now) }
{
    let r = f.reference;
    Ok(ForeignKey {
        name: f.name.copy()?,
        child: TabNo::new(in_16_bits(child)?),
        child_cols: numbers_of_columns(alloc, catalog.columns_at(child), f.cols.as_slice())?,
        parent: TabNo::new(in_16_bits(number_of_table(catalog, &r.table))?),
        parent_cols: parent_numbers(alloc, catalog, r)?,
        full: is_full(r.matching),
        on_delete: r.on_delete,
        on_update: r.on_update,
        con: ConNo::new(in_16_bits(catalog.all_constraints().len())?),
        set_cols: set_cols_of(alloc, catalog, child, f)?,
    })
}

fn push_triggers(catalog: &mut Catalog, made: OwnTriggers) -> Result<(), AllocError>
    ensures ok { OnOk result (catalog.new ≡ record catalog.old { triggers = catalog.old.triggers ++ made.on_delete ∷ made.on_update ∷ made.on_child ∷ [] }) }
    ensures kept { Extends catalog.old catalog.new }
{
    catalog.push_trigger(made.on_delete)?;
    catalog.push_trigger(made.on_update)?;
    catalog.push_trigger(made.on_child)?;
    Ok(())
}

fn put_reference(
    catalog: &mut Catalog,
    fk: ForeignKey,
    constraint: Constraint,
    made: OwnTriggers,
) -> Result<(), AllocError>
    ensures ok { OnOk result (catalog.new ≡ record catalog.old { fks = catalog.old.fks ++ fk ∷ []; constraints = catalog.old.constraints ++ constraint ∷ []; triggers = catalog.old.triggers ++ made.on_delete ∷ made.on_update ∷ made.on_child ∷ [] }) }
    ensures kept { Extends catalog.old catalog.new }
{
    catalog.push_fk(fk)?;
    catalog.push_constraint(constraint)?;
    push_triggers(catalog, made)?;
    Ok(())
}

fn add_reference(
    catalog: &mut Catalog,
    alloc: Global,
    child: usize,
    f: &Referring<'_>,
) -> Result<(), AllocError>
    ensures ok { OnOk result (catalog.new ≡ tables.with_reference child f.now catalog.old) }
    ensures kept { Extends catalog.old catalog.new }
{
    let fk = fk_of(alloc, catalog, child, f)?;
    let constraint = constraint_of(child, f.name, f.reference.timing)?;
    let made = triggers_of(alloc, catalog, child, f)?;
    put_reference(catalog, fk, constraint, made)
}

/// Adds foreign keys with their constraints and triggers.
pub fn add_references(
    catalog: &mut Catalog,
    alloc: Global,
    child: usize,
    all: &[Referring<'_>],
) -> Result<(), AllocError>
    ensures ok { OnOk result (catalog.new ≡ tables.with_references child all.now catalog.old) }
    ensures kept { Extends catalog.old catalog.new }
{
    for f in all {
        add_reference(catalog, alloc, child, f)?;
    }
    Ok(())
}
