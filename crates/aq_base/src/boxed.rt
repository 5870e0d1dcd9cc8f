ghost use Rattle.std.specs.Prelude.{◌≡◌, IfOk};

use std::alloc::{AllocError, Global};
use std::marker::Model;

/// A `Box` that contracts see as its value, so that a copy of a tree equals the tree.
#[derive(Drop)]
pub struct Boxed<T> {
    kept: Box<T>,
}

impl<T> Model for Boxed<T> {
    ghost Value = { T };

    ghost coded = { T.code };

    ghost view = { λ boxed. boxed.kept.value };
}

impl<T> Boxed<T> {
    /// The value.
    pub fn get(&self) -> &T
        ensures { result.now ≡ self.now }
    {
        &self.kept
    }

    /// The value, out of its box.
    pub fn into_inner(self) -> T
        ensures { result ≡ self }
    {
        let Boxed { kept } = self;
        Box::into_inner(kept)
    }

    /// The allocator that the box keeps.
    pub(crate) fn allocator(&self) -> &Global {
        Box::allocator(&self.kept)
    }
}

impl<T: Drop> Boxed<T> {
    /// The value in a box. The error is want of memory.
    pub fn new(alloc: Global, value: T) -> Result<Boxed<T>, AllocError>
        ensures { IfOk result (λ made. made ≡ value) }
    {
        Ok(Boxed {
            kept: Box::new(alloc, value)?,
        })
    }
}
