//! The places of names, found by the name.

ghost use Rattle.std.specs.Prelude.{◌≡◌, [], ◌∷◌, ◌++◌, OnOk, OnErr, if◌then◌else◌, slice_get};
ghost use Rattle.aq_base.specs.Names.{Text, same_text};
ghost use Rattle.aq_catalog.specs.Indexed.{places_under, front};

use aq_base::{Copies, List, TextVal};
use indexmap::IndexMap;
use std::alloc::{AllocError, Global};
use std::marker::Model;

/// The places of names in a list, found by the name.
#[derive(Drop)]
pub(crate) struct NameIndex {
    places: IndexMap<TextVal, List<u16>>,
}

impl Model for NameIndex {
    ghost use Rattle.std.specs.Prelude.{List as Items, ℕ};

    ghost Value = { Items (Items ℕ × Items ℕ) };

    ghost view = { λ n. n.places.entries };
}

fn add(
    alloc: Global,
    places: &mut IndexMap<TextVal, List<u16>>,
    name: &TextVal,
    place: u16,
) -> Result<(), AllocError>
    ensures ok { OnOk result ((q : Text) → places_under places.new.entries q ≡ (if same_text name.now q then places_under places.old.entries q ++ place ∷ [] else places_under places.old.entries q)) }
    ensures err { OnErr result ((q : Text) → places_under places.new.entries q ≡ places_under places.old.entries q) }
{
    match places.get_mut(name) {
        Some(found) => found.push(place)?,
        None => {
            let mut found = List::new(alloc);
            found.push(place)?;
            let _ = places.insert(name.copy()?, found)?;
        }
    }
    Ok(())
}

fn take_last(places: &mut IndexMap<TextVal, List<u16>>, name: &TextVal)
    ensures { (q : Text) → places_under places.new.entries q ≡ (if same_text name.now q then front (places_under places.old.entries q) else places_under places.old.entries q) }
{
    if let Some(found) = places.get_mut(name) {
        let _ = found.pop();
    }
}

impl NameIndex {
    pub(crate) fn new(alloc: Global) -> NameIndex
        ensures { result ≡ [] }
    {
        NameIndex {
            places: IndexMap::new(alloc),
        }
    }

    /// The places of a name, in order.
    pub(crate) fn all(&self, name: &TextVal) -> &[u16]
        ensures { result.now ≡ places_under self.now name.now }
    {
        match self.places.get(name) {
            None => &[],
            Some(found) => found.as_slice(),
        }
    }

    /// The first place of a name.
    pub(crate) fn first(&self, name: &TextVal) -> Option<u16>
        ensures { result ≡ slice_get (places_under self.now name.now) 0 }
    {
        self.all(name).first().copied()
    }

    /// One place more of a name. The error is want of memory.
    pub(crate) fn push(
        &mut self,
        alloc: Global,
        name: &TextVal,
        place: u16,
    ) -> Result<(), AllocError>
        ensures ok { OnOk result ((q : Text) → places_under self.new q ≡ (if same_text name.now q then places_under self.old q ++ place ∷ [] else places_under self.old q)) }
        ensures err { OnErr result ((q : Text) → places_under self.new q ≡ places_under self.old q) }
    {
        add(alloc, &mut self.places, name, place)
    }

    /// Takes the last place of a name away.
    pub(crate) fn pop(&mut self, name: &TextVal)
        ensures { (q : Text) → places_under self.new q ≡ (if same_text name.now q then front (places_under self.old q) else places_under self.old q) }
    {
        take_last(&mut self.places, name)
    }
}
