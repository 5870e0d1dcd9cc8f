ghost use Rattle.std.specs.Prelude.{◌≡◌, ◌==◌, IfOk, string_bytes};
ghost use Rattle.std.proofs.Common.{rules};
ghost use Rattle.std.specs.Cmp.{partial_order_from_own_ties};
ghost use Rattle.std.specs.Cmp.Rules.{comparing, hashing};
ghost use Rattle.std.specs.Hash as fed;
ghost use Rattle.std.specs.Ordering.{nat_cmp, as_partial_cmp};
ghost use Rattle.std.specs.Cmp.Lexicographic.{pointwise, slice_cmp};

use crate::copies::Copies;
use std::alloc::{AllocError, Global};
use std::cmp::Ordering;
use std::convert::AsStr;
use std::hash::{Hash, Hasher};
use std::marker::Model;

/// A text. Contracts see it as the list of its bytes, which are UTF-8.
#[derive(Debug, Drop)]
pub struct TextVal {
    text: String,
}

impl Model for TextVal {
    ghost use Rattle.std.specs.Prelude.{ℕ, List, string_bytes};
    ghost use Rattle.std.specs.Coded.{coded_list, coded_ℕ};

    ghost Value = { List ℕ };

    ghost coded = { coded_list coded_ℕ };

    ghost view = { λ t. string_bytes t.text };
}

impl TextVal {
    /// A text of its own with the same bytes. The error is want of memory.
    pub fn new(alloc: Global, text: &str) -> Result<TextVal, AllocError>
        ensures { IfOk result (λ made. made ≡ text.now) }
    {
        Ok(TextVal {
            text: String::from_str(alloc, text)?,
        })
    }

    /// The text of a string. It takes no memory.
    pub fn from_string(text: String) -> TextVal
        ensures { result ≡ string_bytes text }
    {
        TextVal { text }
    }

    /// The bytes of the text.
    pub fn bytes(&self) -> &[u8]
        ensures bytes { result.now ≡ self.now }
    {
        self.text.as_bytes()
    }

    /// The text as Rust's.
    pub fn as_str(&self) -> &str
        ensures { result.now ≡ self.now }
    {
        self.text.as_str()
    }
}

impl Copies for TextVal {
    fn copy(&self) -> Result<Self, AllocError> {
        Ok(TextVal {
            text: self.text.clone()?,
        })
    }
}

impl PartialEq for TextVal {
    ghost eq = { pointwise ◌==◌ };

    ghost laws = { Prim.search (comparing, rules) };

    fn eq(&self, other: &Self) -> bool {
        self.text == other.text
    }
}

impl Eq for TextVal {
    ghost laws = { Prim.search (comparing, rules) };
}

impl PartialOrd for TextVal {
    ghost partial_cmp = { as_partial_cmp (slice_cmp nat_cmp) };

    ghost laws = { partial_order_from_own_ties (Prim.search (comparing, rules)) (Prim.search (comparing, rules)) };

    fn partial_cmp(&self, other: &Self) -> Option<Ordering> {
        self.text.partial_cmp(&other.text)
    }
}

/// Byte by byte.
impl Ord for TextVal {
    ghost cmp = { slice_cmp nat_cmp };

    ghost total = { Prim.search (comparing, rules) };

    ghost matches_partial_cmp = { Prim.search (comparing, rules) };

    ghost matches_eq = { Prim.search (comparing, rules) };

    fn cmp(&self, other: &Self) -> Ordering {
        self.text.cmp(&other.text)
    }
}

impl Hash for TextVal {
    ghost hash_input = { fed.str };

    ghost respects_eq = { Prim.search (hashing, rules) };

    fn hash<H: Hasher>(&self, state: &mut H) {
        self.text.hash(state);
    }
}

impl AsStr for TextVal {
    ghost text = { λ t. t };

    fn as_str(&self) -> &str {
        self.text.as_str()
    }
}
