//! Where the search for a free name of a constraint begins (PostgreSQL source, indexcmds.c, ChooseRelationName).

ghost use Rattle.std.specs.Prelude.{◌≡◌, ◌++◌, ◌<◌, ◌≤◌, ℕ, true, IfOk, find, slice_index_or, slice_set};
ghost use Rattle.std.specs.Fmt.{decimal};
ghost use Rattle.std.specs.List.{list_any};
ghost use Rattle.aq_base.specs.Names.{same_text};
ghost use Rattle.aq_catalog.specs.Catalogs.{constraint_names, constraints_named, names_taken};
ghost use Rattle.aq_catalog.specs.Numbered.{AreTaken, is_of};

use crate::catalog::Catalog;
use crate::lookups::{is_of_at, is_taken};
use aq_base::{Constraint, TextVal};
use itoa::Buffer;
use std::alloc::{AllocError, Global};

/// A name with a number behind it.
pub fn with_number(alloc: Global, name: &TextVal, n: u64) -> Result<TextVal, AllocError>
    ensures { IfOk result (λ made. made ≡ name.now ++ decimal n) }
{
    let mut text = String::from_str(alloc, name.as_str())?;
    text.push_str(Buffer::new().format(n))?;
    Ok(TextVal::from_string(text))
}

impl Catalog {
    /// The place of a table's constraint of a name.
    fn place_in(&self, table: usize, name: &TextVal) -> Option<usize>
        ensures { result ≡ find (is_of self.now.constraints table) (constraints_named self.now name.now) }
    {
        first_of_table(
            self.constraints.as_slice(),
            table,
            self.constraint_names.all(name),
        )
    }

    /// A number such that the constraints of a table have the name with each lesser number behind it, counted from 1.
    pub fn next_number(&self, table: Option<usize>, name: &TextVal) -> u64
        ensures positive { 1 ≤ result }
        ensures lesser { (k : ℕ) → 1 ≤ k → k < result → list_any (same_text (name.now ++ decimal k)) (names_taken self.now table) ≡ true }
    {
        match table {
            None => 1,
            Some(table) => self.next_number_in(table, name),
        }
    }

    fn next_number_in(&self, table: usize, name: &TextVal) -> u64
        ensures positive { 1 ≤ result }
        ensures lesser { AreTaken (constraint_names self.now table) name.now result }
    {
        match self.place_in(table, name) {
            None => 1,
            Some(place) => number_at(self.next_numbers.as_slice(), place),
        }
    }

    /// The first number that no constraint of the table has behind the name. The error is want of memory.
    fn free_number(&self, alloc: Global, table: usize, name: &TextVal) -> Result<u64, AllocError>
        ensures positive { IfOk result (λ number. 1 ≤ number) }
        ensures lesser { IfOk result (λ number. AreTaken (constraint_names self.now table) name.now number) }
    {
        for number in self.next_number_in(table, name)..u64::MAX {
            let candidate = with_number(alloc, name, number)?;
            if !is_taken(self, Some(table), &candidate) {
                return Ok(number);
            }
        }
        Ok(u64::MAX)
    }

    /// Remembers where the search for another name like that of a table's constraint begins. The error is want of memory.
    pub fn settle_number(
        &mut self,
        alloc: Global,
        table: Option<usize>,
        name: &TextVal,
    ) -> Result<(), AllocError>
        ensures { self.new ≡ self.old }
    {
        match table {
            None => Ok(()),
            Some(table) => self.settle_number_in(alloc, table, name),
        }
    }

    fn settle_number_in(
        &mut self,
        alloc: Global,
        table: usize,
        name: &TextVal,
    ) -> Result<(), AllocError>
        ensures { self.new ≡ self.old }
    {
        match self.place_in(table, name) {
            None => Ok(()),
            Some(place) => {
                let number = self.free_number(alloc, table, name)?;
                keep_number(&mut self.next_numbers, place, number);
                Ok(())
            }
        }
    }
}

fn first_of_table(constraints: &[Constraint], table: usize, places: &[u16]) -> Option<usize>
    ensures { result ≡ find (is_of constraints.now table) places.now }
{
    places
        .iter()
        .map(|place| usize::from(*place))
        .find(|place| is_of_at(constraints, *place, table))
}

fn number_at(numbers: &[u64], place: usize) -> u64
    ensures { result ≡ slice_index_or numbers.now place 1 }
{
    numbers.get(place).copied().unwrap_or(1)
}

fn keep_number(numbers: &mut Vec<u64>, place: usize, number: u64)
    ensures { numbers.new.items ≡ slice_set numbers.old.items place number }
{
    if let Some(kept) = numbers.get_mut(place) {
        *kept = number;
    }
}
