//! Names, of which it is asked whether they are there.

ghost use Rattle.std.specs.Prelude.{◌≡◌, [], ◌∷◌, OnOk};
ghost use Rattle.std.specs.List.{list_any};
ghost use Rattle.aq_base.specs.Names.{Text, same_text};

use aq_base::{Copies, TextVal};
use indexmap::IndexSet;
use std::alloc::{AllocError, Global};
use std::marker::Model;

/// The names that were added.
#[derive(Drop)]
pub(crate) struct NameSet {
    names: IndexSet<TextVal>,
}

impl Model for NameSet {
    ghost use Rattle.std.specs.Prelude.{List as Items, ℕ};

    ghost Value = { Items (Items ℕ) };

    ghost view = { λ s. s.names.keys };
}

impl NameSet {
    pub(crate) fn new(alloc: Global) -> NameSet
        ensures { result ≡ [] }
    {
        NameSet {
            names: IndexSet::new(alloc),
        }
    }

    /// Whether a name was added.
    pub(crate) fn has(&self, name: &TextVal) -> bool
        ensures { result ≡ list_any (same_text name.now) self.now }
    {
        self.names.contains(name)
    }

    /// One name more. The error is want of memory.
    pub(crate) fn add(&mut self, name: &TextVal) -> Result<(), AllocError>
        ensures { OnOk result ((q : Text) → list_any (same_text q) self.new ≡ list_any (same_text q) (name.now ∷ self.old)) }
    {
        let _ = self.names.insert(name.copy()?)?;
        Ok(())
    }
}
