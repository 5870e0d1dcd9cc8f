//! What a statement of a setup adds, and the way back where it fails.

ghost use Rattle.std.specs.Prelude.{◌≡◌, ◌++◌, [], ◌∷◌, OnOk, OnErr, length, min, replicate, take};
ghost use Rattle.aq_catalog.specs.Indexed.{IsIndexed};
ghost use Rattle.aq_catalog.specs.Marks.{mark_of, shortened, with_columns_at, with_columns_not_null};

use crate::catalog::{Catalog, in_16_bits, one_more};
use crate::mark::Mark;
use crate::name_index::NameIndex;
use crate::of_tables;
use aq_base::{
    ColNo, Constraint, ForeignKey, Function, KeyNo, List, Table, TrigNo, Trigger, UniqueKey,
};
use std::alloc::AllocError;

impl Catalog {
    /// How much there is.
    pub fn mark(&self) -> Mark
        ensures { result ≡ mark_of self.now }
    {
        Mark {
            tables: self.tables.len(),
            keys: self.keys.len(),
            primaries: self.primaries.len(),
            fks: self.fks.len(),
            constraints: self.constraints.len(),
            functions: self.functions.len(),
            triggers: self.triggers.len(),
        }
    }

    /// One table more. Where memory runs out, or there are 65,535, all is as it was.
    pub fn push_table(&mut self, table: Table) -> Result<(), AllocError>
        ensures ok { OnOk result (self.new ≡ record self.old { tables = self.old.tables ++ table ∷ [] }) }
        ensures err { OnErr result (self.new ≡ self.old) }
    {
        one_more(self.tables.len())?;
        let place = in_16_bits(self.tables.len())?;
        let alloc = *self.tables.allocator();
        self.tables.reserve(1)?;
        self.table_names.push(alloc, &table.name, place)?;
        self.tables.push_reserved(table);
        Ok(())
    }

    /// One key more. Where memory runs out, or there is no number left, all is as it was.
    pub fn push_key(&mut self, key: UniqueKey) -> Result<(), AllocError>
        ensures ok { OnOk result (self.new ≡ record self.old { keys = self.old.keys ++ key ∷ [] }) }
        ensures err { OnErr result (self.new ≡ self.old) }
    {
        let place = KeyNo::new(in_16_bits(self.keys.len())?);
        let table = usize::from(key.table.get());
        self.keys.reserve(1)?;
        of_tables::add_key(&mut self.by_table, table, place)?;
        self.keys.push_reserved(key);
        Ok(())
    }

    /// The number of a key that is a primary key. Where memory runs out all is as it was.
    pub fn push_primary(&mut self, primary: KeyNo) -> Result<(), AllocError>
        ensures ok { OnOk result (self.new ≡ record self.old { primaries = self.old.primaries ++ primary ∷ [] }) }
        ensures err { OnErr result (self.new ≡ self.old) }
    {
        self.primaries.push(primary)?;
        Ok(())
    }

    /// One foreign key more. Where memory runs out, or there are 65,535, all is as it was.
    pub fn push_fk(&mut self, fk: ForeignKey) -> Result<(), AllocError>
        ensures ok { OnOk result (self.new ≡ record self.old { fks = self.old.fks ++ fk ∷ [] }) }
        ensures err { OnErr result (self.new ≡ self.old) }
    {
        one_more(self.fks.len())?;
        self.fks.push(fk)?;
        Ok(())
    }

    /// One constraint more. Where memory runs out, or there is no number left, all is as it was.
    pub fn push_constraint(&mut self, constraint: Constraint) -> Result<(), AllocError>
        ensures ok { OnOk result (self.new ≡ record self.old { constraints = self.old.constraints ++ constraint ∷ [] }) }
        ensures err { OnErr result (self.new ≡ self.old) }
    {
        let place = in_16_bits(self.constraints.len())?;
        let alloc = *self.constraints.allocator();
        self.constraints.reserve(1)?;
        self.next_numbers.reserve(1)?;
        self.constraint_names.push(alloc, &constraint.name, place)?;
        self.constraints.push_reserved(constraint);
        self.next_numbers.push_reserved(1);
        Ok(())
    }

    /// One function more. Where memory runs out, or there is no number left, all is as it was.
    pub fn push_function(&mut self, function: Function) -> Result<(), AllocError>
        ensures ok { OnOk result (self.new ≡ record self.old { functions = self.old.functions ++ function ∷ [] }) }
        ensures err { OnErr result (self.new ≡ self.old) }
    {
        let place = in_16_bits(self.functions.len())?;
        let alloc = *self.functions.allocator();
        self.functions.reserve(1)?;
        self.function_names.push(alloc, &function.name, place)?;
        self.functions.push_reserved(function);
        Ok(())
    }

    /// One trigger more. Where memory runs out, or there is no number left, all is as it was.
    pub fn push_trigger(&mut self, trigger: Trigger) -> Result<(), AllocError>
        ensures ok { OnOk result (self.new ≡ record self.old { triggers = self.old.triggers ++ trigger ∷ [] }) }
        ensures err { OnErr result (self.new ≡ self.old) }
    {
        let place = TrigNo::new(in_16_bits(self.triggers.len())?);
        let table = usize::from(trigger.table.get());
        self.triggers.reserve(1)?;
        of_tables::add_trigger(
            &mut self.by_table,
            table,
            self.triggers.as_slice(),
            &trigger,
            place,
        )?;
        self.triggers.push_reserved(trigger);
        Ok(())
    }

    /// Takes away what was added behind a mark. It takes no memory.
    pub fn back_to(&mut self, mark: &Mark)
        ensures { self.new ≡ shortened mark.now self.old }
    {
        shorten_tables(&mut self.tables, &mut self.table_names, mark.tables);
        self.keys.truncate(mark.keys);
        self.primaries.truncate(mark.primaries);
        self.fks.truncate(mark.fks);
        shorten_constraints(
            &mut self.constraints,
            &mut self.constraint_names,
            mark.constraints,
        );
        restart_numbers(&mut self.next_numbers, mark.constraints);
        shorten_functions(
            &mut self.functions,
            &mut self.function_names,
            mark.functions,
        );
        self.triggers.truncate(mark.triggers);
        of_tables::keep(&mut self.by_table, mark.keys, mark.triggers);
    }

    /// Puts other columns in place of those of a table that hold no null. It takes no memory.
    pub fn set_not_null(&mut self, table: usize, cols: List<ColNo>)
        ensures { self.new ≡ with_columns_not_null table cols self.old }
    {
        put_columns(&mut self.tables, table, cols);
    }
}

/// Other columns that hold no null in a table, where there is such a table.
fn put_columns(tables: &mut Vec<Table>, table: usize, cols: List<ColNo>)
    ensures { tables.new.items ≡ with_columns_at table cols tables.old.items }
{
    if let Some(found) = tables.get_mut(table) {
        found.not_null = cols;
    }
}

/// As many tables as there were, and their names.
fn shorten_tables(tables: &mut Vec<Table>, names: &mut NameIndex, len: usize)
    requires { IsIndexed (λ table. table.name) tables.old.items names.old }
    ensures items { tables.new.items ≡ take len tables.old.items }
    ensures indexed { IsIndexed (λ table. table.name) tables.new.items names.new }
{
    'tables: while tables.len() > len {
        if let Some(last) = tables.pop() {
            names.pop(&last.name);
        }
    }
}

/// As many constraints as there were, and their names.
fn shorten_constraints(constraints: &mut Vec<Constraint>, names: &mut NameIndex, len: usize)
    requires { IsIndexed (λ con. con.name) constraints.old.items names.old }
    ensures items { constraints.new.items ≡ take len constraints.old.items }
    ensures indexed { IsIndexed (λ con. con.name) constraints.new.items names.new }
{
    'constraints: while constraints.len() > len {
        if let Some(last) = constraints.pop() {
            names.pop(&last.name);
        }
    }
}

/// As many numbers as there were constraints, each 1, since names behind the mark may have made them larger.
fn restart_numbers(numbers: &mut Vec<u64>, len: usize)
    ensures { numbers.new.items ≡ replicate (min len (length numbers.old.items)) 1 }
{
    numbers.truncate(len);
    numbers.as_mut_slice().fill(1);
}

/// As many functions as there were, and their names.
fn shorten_functions(functions: &mut Vec<Function>, names: &mut NameIndex, len: usize)
    requires { IsIndexed (λ function. function.name) functions.old.items names.old }
    ensures items { functions.new.items ≡ take len functions.old.items }
    ensures indexed { IsIndexed (λ function. function.name) functions.new.items names.new }
{
    'functions: while functions.len() > len {
        if let Some(last) = functions.pop() {
            names.pop(&last.name);
        }
    }
}
