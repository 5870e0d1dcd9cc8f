ghost use Rattle.std.specs.Prelude.{◌≡◌, ◌+◌, ◌<◌, ◌≤◌, true, ◌==◌, Some, map, length, position, find, option_copied, IfSome, OnOk, IfOk};
ghost use Rattle.aq_base.specs.Names.{same_text, primary_key_name, foreign_key_name};
ghost use Rattle.aq_first_base.specs.Setup.{no_tables, table_number, primary_cols, referred, column_of, adds_table, adds_key, adds_keys, adds_foreign_key, adds_reference, adds_references, primary_items, is_primary, creates, defines, catalog_of, bound, bound_statements};
ghost use Rattle.aq_first_base.specs.declared.simple.SimpleStatement.TheVariants.{Insert, Delete};
ghost use Rattle.aq_first_base.specs.Scripts.{can_create, can_define, can_set_up};

use aq_base::{ColNo, Copies, Decl, FkNo, List, NoMemory, Op, Row, TabNo, TextVal};
use aq_first_base::{
    Bound, Column, Does, ForeignKey, SimpleColumn, SimpleConstraint, SimpleScript, SimpleSession,
    SimpleStatement, Table, Trigger, UniqueKey,
};
use std::alloc::Global;
use std::marker::Model;

/// What the setup of a script makes, in creation order.
#[derive(Drop)]
pub(crate) struct Catalog {
    pub(crate) tables: List<Table>,
    pub(crate) keys: List<UniqueKey>,
    pub(crate) fks: List<ForeignKey>,
    pub(crate) triggers: List<Trigger>,
}

impl Model for Catalog {
    ghost use Rattle.std.specs.Prelude.{◌<◌, ◌^◌, length};
    ghost use Rattle.aq_first_base.specs.Catalogs.{Catalog as Seen};

    ghost Value = { Seen };

    ghost view = { λ c. record { tables = c.tables; keys = c.keys; fks = c.fks; triggers = c.triggers } };

    ghost invariant = { λ c. (length c.tables < 2 ^ 16) × (length c.fks < 2 ^ 16) };
}

fn same_name(a: &TextVal, b: &TextVal) -> bool
    ensures { result ≡ same_text a.now b.now }
{
    a.bytes() == b.bytes()
}

fn table_at(tables: &[Table], name: &TextVal) -> Option<usize>
    ensures at { result ≡ position (λ table. same_text table.name name.now) tables.now }
    ensures within { IfSome result (λ at. at < length tables.now) }
{
    'tables: for (at, table) in tables.iter().enumerate() {
        if same_name(&table.name, name) {
            return Some(at);
        }
    }
    None
}

fn primary_key_of(keys: &[UniqueKey], table: TabNo) -> Option<&UniqueKey>
    ensures { option_copied result ≡ find (λ k. k.table == table) keys.now }
{
    'keys: for key in keys {
        if key.table == table {
            return Some(key);
        }
    }
    None
}

fn columns_of(alloc: Global, items: &[SimpleColumn]) -> Result<List<Column>, NoMemory>
    ensures { IfOk result (λ cols. cols ≡ map column_of items.now) }
{
    let mut cols = List::new(alloc);
    'items: for item in items {
        cols.push(Column {
            name: item.name.copy()?,
            kind: item.kind,
        })?;
    }
    Ok(cols)
}

fn is_primary_key(constraint: &Option<SimpleConstraint>) -> bool
    ensures { result ≡ is_primary constraint.now }
{
    matches!(constraint, Some(SimpleConstraint::PrimaryKey))
}

/// The columns that hold no null: those of the primary key.
fn not_null_of(alloc: Global, items: &[SimpleColumn]) -> Result<List<ColNo>, NoMemory>
    requires { length items.now ≤ 32 }
    ensures { IfOk result (λ cols. cols ≡ primary_items 0 items.now) }
{
    let mut cols = List::new(alloc);
    'items: for (col, item) in items.iter().enumerate() {
        if is_primary_key(&item.constraint) {
            cols.push(ColNo::new(col as u16))?;
        }
    }
    Ok(cols)
}

/// The name that a primary key gets.
fn name_of_primary_key(alloc: Global, table: &TextVal) -> Result<TextVal, NoMemory>
    ensures { IfOk result (λ name. name ≡ primary_key_name table.now) }
{
    let mut name = String::from_str(alloc, table.as_str())?;
    name.push_str("_pkey")?;
    Ok(TextVal::from_string(name))
}

/// The name that a foreign key gets.
fn name_of_foreign_key(alloc: Global, table: &TextVal, col: &TextVal) -> Result<TextVal, NoMemory>
    ensures { IfOk result (λ name. name ≡ foreign_key_name table.now col.now) }
{
    let mut name = String::from_str(alloc, table.as_str())?;
    name.push_str("_")?;
    name.push_str(col.as_str())?;
    name.push_str("_fkey")?;
    Ok(TextVal::from_string(name))
}

impl Catalog {
    fn new(alloc: Global) -> Catalog
        ensures { result ≡ no_tables }
    {
        Catalog {
            tables: List::new(alloc),
            keys: List::new(alloc),
            fks: List::new(alloc),
            triggers: List::new(alloc),
        }
    }

    /// The number of the table with a name.
    fn table_number(&self, name: &TextVal) -> Option<TabNo>
        ensures { result ≡ table_number name.now self.now }
    {
        match table_at(self.tables.as_slice(), name) {
            None => None,
            Some(at) => Some(TabNo::new(at as u16)),
        }
    }

    /// The columns of a table's primary key.
    fn primary_cols(&self, alloc: Global, table: TabNo) -> Result<Option<List<ColNo>>, NoMemory>
        ensures { IfOk result (λ found. found ≡ primary_cols table self.now) }
    {
        match primary_key_of(self.keys.as_slice(), table) {
            None => Ok(None),
            Some(key) => Ok(Some(List::from_vec(Vec::from_slice(alloc, key.cols.as_slice())?))),
        }
    }

    /// What REFERENCES of a table refers to.
    fn referred(
        &self,
        alloc: Global,
        parent: &TextVal,
    ) -> Result<Option<(TabNo, List<ColNo>)>, NoMemory>
        ensures { IfOk result (λ found. found ≡ referred parent.now self.now) }
    {
        let Some(number) = self.table_number(parent) else {
            return Ok(None);
        };
        match self.primary_cols(alloc, number)? {
            None => Ok(None),
            Some(cols) => Ok(Some((number, cols))),
        }
    }

    fn add_key(
        &mut self,
        alloc: Global,
        number: TabNo,
        table: &TextVal,
        col: ColNo,
        constraint: &Option<SimpleConstraint>,
    ) -> Result<(), NoMemory>
        ensures { OnOk result (self.new ≡ adds_key number table.now col constraint.now self.old) }
    {
        if let Some(SimpleConstraint::PrimaryKey) = constraint {
            self.keys.push(UniqueKey {
                name: name_of_primary_key(alloc, table)?,
                table: number,
                cols: List::from_vec(Vec::from_slice(alloc, &[col])?),
            })?;
        }
        Ok(())
    }

    fn add_keys(
        &mut self,
        alloc: Global,
        number: TabNo,
        table: &TextVal,
        items: &[SimpleColumn],
    ) -> Result<(), NoMemory>
        requires { length items.now ≤ 32 }
        ensures keys { OnOk result (self.new ≡ adds_keys number table.now 0 items.now self.old) }
    {
        'items: for (col, item) in items.iter().enumerate() {
            self.add_key(
                alloc,
                number,
                table,
                ColNo::new(col as u16),
                &item.constraint,
            )?;
        }
        Ok(())
    }

    fn add_foreign_key(
        &mut self,
        alloc: Global,
        number: TabNo,
        table: &TextVal,
        col: ColNo,
        name: &TextVal,
        decl: Decl,
        parent: (TabNo, List<ColNo>),
    ) -> Result<(), NoMemory>
        requires { length self.old.fks < 65535 }
        ensures { OnOk result (self.new ≡ adds_foreign_key number table.now col name.now decl (Some parent) self.old) }
    {
        let fk = FkNo::new(self.fks.len() as u16);
        let (parent, parent_cols) = parent;
        self.triggers.push(Trigger {
            table: parent,
            ops: List::from_vec(Vec::from_slice(alloc, &[Op::Update, Op::Delete])?),
            decl,
            does: Does::Parent(fk),
        })?;
        self.triggers.push(Trigger {
            table: number,
            ops: List::from_vec(Vec::from_slice(alloc, &[Op::Insert, Op::Update])?),
            decl,
            does: Does::Check(fk),
        })?;
        self.fks.push(ForeignKey {
            name: name_of_foreign_key(alloc, table, name)?,
            child: number,
            child_cols: List::from_vec(Vec::from_slice(alloc, &[col])?),
            parent,
            parent_cols,
        })
    }

    fn add_reference(
        &mut self,
        alloc: Global,
        number: TabNo,
        table: &TextVal,
        col: ColNo,
        name: &TextVal,
        constraint: &Option<SimpleConstraint>,
    ) -> Result<(), NoMemory>
        requires { length self.old.fks < 65535 }
        ensures added { OnOk result (self.new ≡ adds_reference number table.now col name.now constraint.now self.old) }
        ensures count { OnOk result (length self.new.fks ≤ length self.old.fks + 1) }
    {
        let Some(
            SimpleConstraint::References {
                table: parent,
                decl,
            },
        ) = constraint
        else {
            return Ok(());
        };
        match self.referred(alloc, parent)? {
            None => Ok(()),
            Some(parent) => self.add_foreign_key(alloc, number, table, col, name, *decl, parent),
        }
    }

    fn add_references(
        &mut self,
        alloc: Global,
        number: TabNo,
        table: &TextVal,
        items: &[SimpleColumn],
    ) -> Result<(), NoMemory>
        requires items { length items.now ≤ 32 }
        requires room { length self.old.fks ≤ 128 }
        ensures { OnOk result (self.new ≡ adds_references number table.now 0 items.now self.old) }
    {
        'items: for (col, item) in items.iter().enumerate() {
            self.add_reference(
                alloc,
                number,
                table,
                ColNo::new(col as u16),
                &item.name,
                &item.constraint,
            )?;
        }
        Ok(())
    }

    fn add_table(
        &mut self,
        alloc: Global,
        table: &TextVal,
        items: &[SimpleColumn],
    ) -> Result<(), NoMemory>
        requires room { length self.old.tables < 64 }
        requires items { length items.now ≤ 32 }
        ensures { OnOk result (self.new ≡ adds_table table.now items.now self.old) }
    {
        self.tables.push(Table {
            name: table.copy()?,
            cols: columns_of(alloc, items)?,
            not_null: not_null_of(alloc, items)?,
        })
    }

    fn create(
        &mut self,
        alloc: Global,
        table: &TextVal,
        items: &[SimpleColumn],
    ) -> Result<(), NoMemory>
        requires { can_create self.old table.now items.now ≡ true }
        ensures { OnOk result (self.new ≡ creates table.now items.now self.old) }
    {
        let number = TabNo::new(self.tables.len() as u16);
        self.add_table(alloc, table, items)?;
        self.add_keys(alloc, number, table, items)?;
        self.add_references(alloc, number, table, items)
    }

    fn define(&mut self, alloc: Global, statement: &SimpleStatement) -> Result<(), NoMemory>
        requires { can_define self.old statement.now ≡ true }
        ensures { OnOk result (self.new ≡ defines statement.now self.old) }
    {
        match statement {
            SimpleStatement::CreateTable { table, items } => self.create(
                alloc,
                table,
                items.as_slice(),
            ),
            SimpleStatement::Insert { .. }
            | SimpleStatement::Delete { .. }
            | SimpleStatement::Begin
            | SimpleStatement::Commit
            | SimpleStatement::Rollback => Ok(()),
        }
    }
}

/// What the setup of a script makes.
pub(crate) fn catalog_for(alloc: Global, script: &SimpleScript) -> Result<Catalog, NoMemory>
    requires { can_set_up no_tables script.now.setup ≡ true }
    ensures { IfOk result (λ c. c ≡ catalog_of script.now) }
{
    let mut catalog = Catalog::new(alloc);
    'setup: for placed in script.setup.as_slice() {
        catalog.define(alloc, &placed.statement)?;
    }
    Ok(catalog)
}

fn bound_insert(
    catalog: &Catalog,
    table: &TextVal,
    rows: &List<Row>,
) -> Result<Option<Bound>, NoMemory>
    ensures { IfOk result (λ found. found ≡ bound catalog.now (Insert table.now rows.now)) }
{
    match catalog.table_number(table) {
        None => Ok(None),
        Some(table) => Ok(Some(Bound::InsertRows {
            table,
            rows: rows.copy()?,
        })),
    }
}

fn bound_delete(catalog: &Catalog, table: &TextVal) -> Option<Bound>
    ensures { result ≡ bound catalog.now (Delete table.now) }
{
    match catalog.table_number(table) {
        None => None,
        Some(table) => Some(Bound::DeleteRows { table }),
    }
}

fn bound_of(catalog: &Catalog, statement: &SimpleStatement) -> Result<Option<Bound>, NoMemory>
    ensures { IfOk result (λ found. found ≡ bound catalog.now statement.now) }
{
    match statement {
        SimpleStatement::CreateTable { .. } => Ok(None),
        SimpleStatement::Insert { table, rows } => bound_insert(catalog, table, rows),
        SimpleStatement::Delete { table } => Ok(bound_delete(catalog, table)),
        SimpleStatement::Begin => Ok(Some(Bound::BeginBlock)),
        SimpleStatement::Commit => Ok(Some(Bound::CommitBlock)),
        SimpleStatement::Rollback => Ok(Some(Bound::RollbackBlock)),
    }
}

/// The statements of a session, with numbers in place of names.
pub(crate) fn statements_for(
    alloc: Global,
    catalog: &Catalog,
    session: &SimpleSession,
) -> Result<List<Bound>, NoMemory>
    ensures { IfOk result (λ statements. statements ≡ bound_statements catalog.now session.now) }
{
    let mut statements = List::new(alloc);
    'statements: for placed in session.statements.as_slice() {
        if let Some(statement) = bound_of(catalog, &placed.statement)? {
            statements.push(statement)?;
        }
    }
    Ok(statements)
}
