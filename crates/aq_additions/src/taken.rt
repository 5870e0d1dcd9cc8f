//! The names of a table's constraints while a statement adds more
//! (PostgreSQL source, indexcmds.c, ChooseRelationName; pg_constraint.c, ChooseConstraintName).

ghost use Rattle.std.specs.Prelude.{◌≡◌, ◌≤◌, [], ◌∷◌, ◌++◌, true, false, IfOk, OnOk, OnErr};
ghost use Rattle.std.specs.Fmt.{decimal};
ghost use Rattle.std.specs.List.{list_any};
ghost use Rattle.std.specs.Map.{lookup};
ghost use Rattle.aq_base.specs.Names.{Text, same_text};
ghost use Rattle.aq_catalog.specs.Catalogs as catalogs;
ghost use Rattle.aq_setup.specs.Constraints as constraints;
ghost use Rattle.aq_catalog.specs.Numbered.{AreTaken};
ghost use Rattle.aq_additions.specs.Taken.{entered, renumbered};

use aq_base::{Copies, List, TextVal};
use aq_catalog::{Catalog, is_taken, with_number};
use indexmap::IndexMap;
use std::alloc::{AllocError, Global};
use std::marker::Model;

/// The names that the constraints of a table have, and those that a statement adds.
#[derive(Drop)]
pub struct NamesTaken<'a> {
    catalog: &'a Catalog,
    table: Option<usize>,
    added: List<TextVal>,
    /// The names that are added, each with a number such that the lesser ones behind it are taken.
    next: IndexMap<TextVal, u64>,
}

impl<'a> Model for NamesTaken<'a> {
    ghost use Rattle.std.specs.Prelude.{List as Items, ℕ, ◌++◌};
    ghost use Rattle.aq_catalog.specs.Catalogs.{names_taken};
    ghost use Rattle.aq_additions.specs.Taken.{HasAdded, IsSearched};

    ghost Value = { Items (Items ℕ) };

    ghost view = { λ n. names_taken n.catalog.now n.table ++ n.added };

    ghost invariant = { λ n. HasAdded n.next.entries n.added × IsSearched n.next.entries (names_taken n.catalog.now n.table ++ n.added) };
}

/// Puts a name with the number 1 into the index, unless it is there. The error is want of memory.
fn enter(next: &mut IndexMap<TextVal, u64>, name: &TextVal) -> Result<(), AllocError>
    ensures ok { OnOk result ((q : Text) → lookup (same_text q) next.new.entries ≡ entered name.now next.old.entries q) }
    ensures err { OnErr result (next.new.entries ≡ next.old.entries) }
{
    if !next.contains_key(name) {
        let _ = next.insert(name.copy()?, 1)?;
    }
    Ok(())
}

/// Adds a name to a list and to its index. Where memory runs out both are as they were.
fn add_to(
    added: &mut List<TextVal>,
    next: &mut IndexMap<TextVal, u64>,
    name: &TextVal,
) -> Result<(), AllocError>
    ensures ok { OnOk result (added.new ≡ added.old ++ name.now ∷ []) }
    ensures indexed { OnOk result ((q : Text) → lookup (same_text q) next.new.entries ≡ entered name.now next.old.entries q) }
    ensures err { OnErr result ((added.new ≡ added.old) × (next.new.entries ≡ next.old.entries)) }
{
    added.push(name.copy()?)?;
    match enter(next, name) {
        Ok(()) => Ok(()),
        Err(fault) => {
            let _ = added.pop();
            Err(fault)
        }
    }
}

/// Gives a name of the index another number.
fn renumber(next: &mut IndexMap<TextVal, u64>, name: &TextVal, number: u64)
    ensures { (q : Text) → lookup (same_text q) next.new.entries ≡ renumbered name.now number next.old.entries q }
{
    if let Some(found) = next.get_mut(name) {
        *found = number;
    }
}

impl<'a> NamesTaken<'a> {
    /// The names of a table's constraints, to which none is added yet.
    pub fn new(alloc: Global, catalog: &'a Catalog, table: Option<usize>) -> NamesTaken<'a>
        ensures { result ≡ catalogs.names_taken catalog.now table }
    {
        NamesTaken {
            catalog,
            table,
            added: List::new(alloc),
            next: IndexMap::new(alloc),
        }
    }

    /// Whether a name is taken.
    pub fn has(&self, name: &TextVal) -> bool
        ensures { result ≡ list_any (same_text name.now) self.now }
    {
        is_taken(self.catalog, self.table, name) || self.next.contains_key(name)
    }

    /// Adds a name. The error is want of memory.
    pub fn add(&mut self, name: &TextVal) -> Result<(), AllocError>
        ensures ok { OnOk result (self.new ≡ self.old ++ name.now ∷ []) }
    {
        add_to(&mut self.added, &mut self.next, name)
    }

    /// Where the search begins for a number to be put behind a name. With each lesser one the name is taken.
    fn start(&self, name: &TextVal) -> u64
        ensures positive { 1 ≤ result }
        ensures lesser { AreTaken self.now name.now result }
    {
        match self.next.get(name) {
            None => self.catalog.next_number(self.table, name),
            Some(number) => *number,
        }
    }

    /// The first number, `start` or above, such that the name with it behind is free. The error is want of memory.
    fn first_free(&self, alloc: Global, name: &TextVal, start: u64) -> Result<u64, AllocError>
        requires taken { list_any (same_text name.now) self.now ≡ true }
        requires positive { 1 ≤ start }
        requires lesser { AreTaken self.now name.now start }
        ensures positive { IfOk result (λ n. 1 ≤ n) }
        ensures lesser { IfOk result (AreTaken self.now name.now) }
        ensures free { IfOk result (λ n. list_any (same_text (name.now ++ decimal n)) self.now ≡ false) }
    {
        let mut n = start;
        'numbers: while self.has(&with_number(alloc, name, n)?) {
            n = n.checked_add(1).ok_or(AllocError)?;
        }
        Ok(n)
    }

    /// Has the next search for a number behind a name begin at this one, where the statement added the name.
    fn begin_at(&mut self, name: &TextVal, number: u64)
        requires positive { 1 ≤ number }
        requires lesser { AreTaken self.old name.now number }
        ensures { self.new ≡ self.old }
    {
        renumber(&mut self.next, name, number);
    }

    /// The name where it is free, or else with the first number behind it that makes it free. The error is want of memory.
    pub(crate) fn free_name(&mut self, alloc: Global, name: TextVal) -> Result<TextVal, AllocError>
        ensures made { IfOk result (λ made. made ≡ constraints.free_name self.old name) }
        ensures kept { self.new ≡ self.old }
    {
        if !self.has(&name) {
            return Ok(name);
        }
        let number = self.first_free(alloc, &name, self.start(&name))?;
        self.begin_at(&name, number);
        with_number(alloc, &name, number)
    }
}
