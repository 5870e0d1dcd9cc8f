ghost use Rattle.std.specs.Prelude.{◌≡◌, IfOk, nat_eq, slice_get, unwrap_or};
ghost use Rattle.std.specs.Cmp.Lexicographic.{pointwise};
ghost use Rattle.aq_base.specs.declared.value.Value.TheVariants.{Null};
ghost use Rattle.aq_base.specs.Values.{values_at, values_match, keys_match};

use crate::copies::Copies;
use crate::list::List;
use crate::numbers::ColNo;
use crate::text::TextVal;
use smallvec::SmallVec;
use std::alloc::{AllocError, Global};
use std::marker::Model;

/// A value of a column.
#[derive(Drop)]
pub enum Value {
    /// The null value.
    Null,
    Bool(bool),
    /// A whole number, of the kinds integer and bigint.
    Int(i64),
    Text(TextVal),
}

/// The values of a row, in the order of the table's columns.
pub type Row = List<Value>;

/// The values of a key's columns. Most keys are short, and stay in the value.
#[derive(Drop)]
pub struct Key {
    values: SmallVec<Value, 2>,
}

impl Model for Key {
    ghost use Rattle.std.specs.Prelude.{List};
    ghost use Rattle.aq_base.specs.declared.value.Value.{Value as Cell};

    ghost Value = { List Cell };

    ghost view = { λ key. key.values.items };
}

impl Copies for Value {
    fn copy(&self) -> Result<Self, AllocError> {
        match self {
            Value::Null => Ok(Value::Null),
            Value::Bool(b) => Ok(Value::Bool(*b)),
            Value::Int(n) => Ok(Value::Int(*n)),
            Value::Text(text) => Ok(Value::Text(text.copy()?)),
        }
    }
}

impl Default for Value {
    fn default() -> Value
        ensures { result ≡ Null }
    {
        Value::Null
    }
}

impl Key {
    /// The values of the key.
    pub fn as_slice(&self) -> &[Value]
        ensures { result.now ≡ self.now }
    {
        self.values.as_slice()
    }
}

impl Copies for Key {
    fn copy(&self) -> Result<Self, AllocError> {
        Ok(Key {
            values: copies_of(*self.values.allocator(), self.values.as_slice())?,
        })
    }
}

fn copies_of(alloc: Global, items: &[Value]) -> Result<SmallVec<Value, 2>, AllocError>
    ensures { IfOk result (λ made. made.items ≡ items.now) }
{
    let mut made = SmallVec::new(alloc);
    for v in items {
        made.push(v.copy()?)?;
    }
    Ok(made)
}

fn same_text(a: &[u8], b: &[u8]) -> bool
    ensures { result ≡ pointwise nat_eq a.now b.now }
{
    a == b
}

/// Whether two values are the same, and not null.
pub fn value_eq(a: &Value, b: &Value) -> bool
    ensures { result ≡ values_match a.now b.now }
{
    match (a, b) {
        (Value::Bool(x), Value::Bool(y)) => *x == *y,
        (Value::Int(x), Value::Int(y)) => *x == *y,
        (Value::Text(x), Value::Text(y)) => same_text(x.bytes(), y.bytes()),
        _ => false,
    }
}

/// Whether two lists of values are the same key: equal, and none of the values is null.
pub fn key_eq(a: &[Value], b: &[Value]) -> bool
    ensures { result ≡ keys_match a.now b.now }
{
    let mut left = a;
    let mut right = b;
    'values: while let (Some((x, xs)), Some((y, ys))) = (left.split_first(), right.split_first()) {
        if !value_eq(x, y) {
            return false;
        }
        left = xs;
        right = ys;
    }
    left.is_empty() && right.is_empty()
}

fn value_at(row: &Row, col: ColNo) -> Result<Value, AllocError>
    ensures { IfOk result (λ v. v ≡ unwrap_or (slice_get row.now col) Null) }
{
    match row.get(usize::from(col.get())) {
        None => Ok(Value::Null),
        Some(v) => v.copy(),
    }
}

/// The values of a row at some columns, null where the row has no such column.
/// The error is want of memory.
pub fn key_of(row: &Row, cols: &[ColNo]) -> Result<Key, AllocError>
    ensures { IfOk result (λ key. key ≡ values_at cols.now row.now) }
{
    let mut values = SmallVec::new(*row.allocator());
    for col in cols {
        values.push(value_at(row, *col)?)?;
    }
    Ok(Key { values })
}
