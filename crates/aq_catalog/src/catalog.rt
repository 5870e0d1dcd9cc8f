//! What a setup has made so far.

ghost use Rattle.std.specs.Prelude.{◌≡◌, ◌<◌, ◌≤◌, ◌^◌, IfOk, OnOk, OnErr, slice_get};
ghost use Rattle.std.specs.Option.{option_copied};
ghost use Rattle.aq_catalog.specs.Catalogs as catalogs;

use crate::name_index::NameIndex;
use crate::of_table::OfTable;
use aq_base::{
    Column, ConNo, Constraint, ForeignKey, Function, KeyNo, List, Table, TextVal, Trigger,
    UniqueKey,
};
use std::alloc::{AllocError, Global};
use std::marker::Model;

/// What a setup has made so far.
#[derive(Drop)]
pub struct Catalog {
    pub(crate) tables: Vec<Table>,
    pub(crate) keys: Vec<UniqueKey>,
    pub(crate) primaries: Vec<KeyNo>,
    pub(crate) fks: Vec<ForeignKey>,
    pub(crate) constraints: Vec<Constraint>,
    pub(crate) functions: Vec<Function>,
    pub(crate) triggers: Vec<Trigger>,
    /// The numbers of the keys and triggers of each table.
    pub(crate) by_table: Vec<OfTable>,
    pub(crate) table_names: NameIndex,
    pub(crate) constraint_names: NameIndex,
    pub(crate) function_names: NameIndex,
    /// For each constraint a number: its table has the constraint's name with each lesser one behind it.
    pub(crate) next_numbers: Vec<u64>,
}

impl Model for Catalog {
    ghost use Rattle.aq_catalog.specs.Catalogs.{Catalog as Made};
    ghost use Rattle.std.specs.Coded.{codes};
    ghost use Rattle.aq_base.specs.contracts.body.BodyStatement as statement;
    ghost use Rattle.aq_base.specs.contracts.bound_expr.BoundExpr as expr;
    ghost use Rattle.aq_base.specs.contracts.bound_body.BoundBodyStatement as bound_statement;

    ghost Value = { Made };

    ghost coded = { Prim.hlevel (codes, statement.the_row.coded, expr.the_row.coded, bound_statement.the_row.coded) };

    ghost view = { λ c. record { tables = c.tables.items; keys = c.keys.items; primaries = c.primaries.items; fks = c.fks.items; constraints = c.constraints.items; functions = c.functions.items; triggers = c.triggers.items } };

    ghost use Rattle.aq_catalog.specs.Listed.{IsKept};
    ghost use Rattle.aq_catalog.specs.Indexed.{IsIndexed};
    ghost use Rattle.aq_catalog.specs.Numbered.{IsNumbered};

    ghost invariant = { λ c. IsKept c.tables.items c.keys.items c.fks.items c.triggers.items c.by_table.items × IsIndexed (λ con. con.name) c.constraints.items c.constraint_names × IsIndexed (λ function. function.name) c.functions.items c.function_names × IsIndexed (λ table. table.name) c.tables.items c.table_names × IsNumbered c.constraints.items c.next_numbers.items };
}

impl Catalog {
    /// The catalog of no setup.
    pub fn new(alloc: Global) -> Catalog
        ensures { result ≡ catalogs.no_tables }
    {
        Catalog {
            tables: Vec::new(alloc),
            keys: Vec::new(alloc),
            primaries: Vec::new(alloc),
            fks: Vec::new(alloc),
            constraints: Vec::new(alloc),
            functions: Vec::new(alloc),
            triggers: Vec::new(alloc),
            by_table: Vec::new(alloc),
            table_names: NameIndex::new(alloc),
            constraint_names: NameIndex::new(alloc),
            function_names: NameIndex::new(alloc),
            next_numbers: Vec::new(alloc),
        }
    }

    /// The place of a table.
    pub fn table_at(&self, name: &TextVal) -> Option<usize>
        ensures { result ≡ catalogs.table_number self.now name.now }
    {
        match self.table_names.first(name) {
            None => None,
            Some(place) => Some(usize::from(place)),
        }
    }

    /// The columns of a table; none where there is no such table.
    #[tactic(auto, using(crate::proofs::Places::found_at, crate::proofs::Places::found_nowhere))]
    pub fn columns_of(&self, name: &TextVal) -> &[Column]
        ensures { result.now ≡ catalogs.table_columns self.now name.now }
    {
        match self.table_at(name) {
            None => &[],
            Some(place) => self.columns_at(place),
        }
    }

    /// The columns of the table with a number; none where there is no such table.
    pub fn columns_at(&self, table: usize) -> &[Column]
        ensures { result.now ≡ catalogs.columns_at self.now table }
    {
        match self.tables.get(table) {
            None => &[],
            Some(table) => table.cols.as_slice(),
        }
    }

    /// The function of a name.
    pub fn function(&self, name: &TextVal) -> Option<&Function>
        ensures { option_copied result ≡ catalogs.function_named self.now name.now }
    {
        match self.function_names.first(name) {
            None => None,
            Some(place) => function_at(self.functions.as_slice(), usize::from(place)),
        }
    }

    /// The constraints that have a name, whatever their tables. The error is want of memory.
    pub fn named(&self, alloc: Global, name: &TextVal) -> Result<List<ConNo>, AllocError>
        ensures { IfOk result (λ made. made ≡ catalogs.constraints_named self.now name.now) }
    {
        numbered(alloc, self.constraint_names.all(name))
    }
}

/// A number in 16 bits. The error is that it has no room there.
pub fn in_16_bits(place: usize) -> Result<u16, AllocError>
    ensures ok { IfOk result (λ n. n ≡ place) }
    ensures err { OnErr result (2 ^ 16 ≤ place) }
{
    u16::try_from(place).map_err(|_| AllocError)
}

/// Whether one more may be added to so many, all of which have numbers.
pub(crate) fn one_more(count: usize) -> Result<(), AllocError>
    ensures { OnOk result (count < 65535) }
{
    if count < usize::from(u16::MAX) {
        Ok(())
    } else {
        Err(AllocError)
    }
}

fn function_at(functions: &[Function], place: usize) -> Option<&Function>
    ensures { option_copied result ≡ slice_get functions.now place }
{
    functions.get(place)
}

/// Places as numbers of constraints. The error is want of memory.
fn numbered(alloc: Global, places: &[u16]) -> Result<List<ConNo>, AllocError>
    ensures { IfOk result (λ made. made ≡ places.now) }
{
    let mut made = List::new(alloc);
    for place in places {
        made.push(ConNo::new(*place))?;
    }
    Ok(made)
}
