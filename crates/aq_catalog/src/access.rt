//! What is in a catalog, by its numbers.

ghost use Rattle.std.specs.Prelude.{◌≡◌, ◌<◌, Some, length, option_map, slice_get};
ghost use Rattle.aq_catalog.specs.Catalogs as catalogs;

use crate::catalog::Catalog;
use crate::of_tables;
use aq_base::{
    ConNo, Constraint, Decl, FkNo, ForeignKey, KeyNo, Op, TabNo, Table, TextVal, TrigNo, Trigger,
    UniqueKey,
};

impl Catalog {
    /// The table of a name.
    pub fn find(&self, name: &TextVal) -> Option<TabNo>
        ensures { result ≡ catalogs.table_number self.now name.now }
    {
        match self.table_names.first(name) {
            None => None,
            Some(place) => Some(TabNo::new(place)),
        }
    }

    /// The number of tables.
    pub fn tables(&self) -> u16
        ensures { result ≡ length self.now.tables }
    {
        self.tables.len() as u16
    }

    /// The number of foreign keys.
    pub fn fks(&self) -> u16
        ensures { result ≡ length self.now.fks }
    {
        self.fks.len() as u16
    }

    /// All tables, in the order in which they were made.
    pub fn all_tables(&self) -> &[Table]
        ensures { result.now ≡ self.now.tables }
    {
        self.tables.as_slice()
    }

    /// All keys, in the order in which they were made.
    pub fn all_keys(&self) -> &[UniqueKey]
        ensures { result.now ≡ self.now.keys }
    {
        self.keys.as_slice()
    }

    /// All constraints, in the order in which they were made.
    pub fn all_constraints(&self) -> &[Constraint]
        ensures { result.now ≡ self.now.constraints }
    {
        self.constraints.as_slice()
    }

    /// All triggers, in the order in which they were made.
    pub fn all_triggers(&self) -> &[Trigger]
        ensures { result.now ≡ self.now.triggers }
    {
        self.triggers.as_slice()
    }

    /// A table.
    pub fn table(&self, t: TabNo) -> &Table
        requires { t < length self.now.tables }
        ensures { slice_get self.now.tables t ≡ Some result.now }
    {
        &self.tables[usize::from(t.get())]
    }

    /// A primary key or a unique key.
    pub fn key(&self, k: KeyNo) -> &UniqueKey
        requires { k < length self.now.keys }
        ensures { slice_get self.now.keys k ≡ Some result.now }
    {
        &self.keys[usize::from(k.get())]
    }

    /// A foreign key.
    pub fn fk(&self, f: FkNo) -> &ForeignKey
        requires { f < length self.now.fks }
        ensures { slice_get self.now.fks f ≡ Some result.now }
    {
        &self.fks[usize::from(f.get())]
    }

    /// A trigger.
    pub fn trigger(&self, n: TrigNo) -> &Trigger
        requires { n < length self.now.triggers }
        ensures { slice_get self.now.triggers n ≡ Some result.now }
    {
        &self.triggers[usize::from(n.get())]
    }

    /// How a constraint may be deferred.
    pub fn decl(&self, c: ConNo) -> Decl
        requires { c < length self.now.constraints }
        ensures { option_map (λ con. con.decl) (slice_get self.now.constraints c) ≡ Some result }
    {
        self.constraints[usize::from(c.get())].decl
    }

    /// The keys of a table, in creation order.
    pub fn keys(&self, t: TabNo) -> &[KeyNo]
        ensures { result.now ≡ catalogs.keys_of self.now t }
    {
        of_tables::keys(self.by_table.as_slice(), usize::from(t.get()))
    }

    /// The triggers that a change of a table fires, in byte order of their names.
    pub fn triggers(&self, t: TabNo, op: Op) -> &[TrigNo]
        ensures { result.now ≡ catalogs.triggers_of self.now t op }
    {
        of_tables::triggers(self.by_table.as_slice(), usize::from(t.get()), op)
    }
}
