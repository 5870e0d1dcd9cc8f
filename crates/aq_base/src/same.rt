ghost use Rattle.std.specs.Prelude.{◌≡◌, ◌↔◌, IsTrue};

use crate::boxed::Boxed;
use crate::list::List;
use crate::text::TextVal;
use crate::value::Value;

/// A value that can be compared with another, whatever it holds: two nulls are the same here.
pub trait Same {
    /// Whether the two are equal.
    fn same(&self, other: &Self) -> bool
        ensures { IsTrue result ↔ (self.now ≡ other.now) };
}

impl Same for TextVal {
    fn same(&self, other: &Self) -> bool {
        self.bytes() == other.bytes()
    }
}

impl Same for Value {
    fn same(&self, other: &Self) -> bool {
        match (self, other) {
            (Value::Null, Value::Null) => true,
            (Value::Bool(x), Value::Bool(y)) => *x == *y,
            (Value::Int(x), Value::Int(y)) => *x == *y,
            (Value::Text(x), Value::Text(y)) => x.same(y),
            _ => false,
        }
    }
}

impl<T: Same> Same for Boxed<T> {
    fn same(&self, other: &Self) -> bool {
        self.get().same(other.get())
    }
}

impl<T: Same> Same for Option<T> {
    fn same(&self, other: &Self) -> bool {
        match (self, other) {
            (None, None) => true,
            (Some(x), Some(y)) => x.same(y),
            _ => false,
        }
    }
}

impl<T: Same> Same for List<T> {
    fn same(&self, other: &Self) -> bool {
        let mut left = self.as_slice();
        let mut right = other.as_slice();
        'elements: while let (Some((x, xs)), Some((y, ys))) = (
            left.split_first(),
            right.split_first(),
        ) {
            if !x.same(y) {
                return false;
            }
            left = xs;
            right = ys;
        }
        left.is_empty() && right.is_empty()
    }
}
