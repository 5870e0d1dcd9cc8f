ghost use Rattle.std.specs.Prelude.{◌≡◌, unwrap_or, option_map};
ghost use Rattle.aq_base.specs.Values.{keys_match, values_at, values_match};
ghost use Rattle.aq_base.specs.declared.value.Value.TheVariants.{Null};

use aq_base::{ColNo, Row, Value, value_eq};

fn cell_matches(cell: Option<&Value>, value: &Value) -> bool
    ensures { result ≡ values_match (unwrap_or (option_map (λ v. v.now) cell.entry) Null) value.now }
{
    match cell {
        None => false,
        Some(own) => value_eq(own, value),
    }
}

/// Whether a row has these values at the columns, none of them null.
pub(crate) fn row_has_key(row: &Row, cols: &[ColNo], key: &[Value]) -> bool
    ensures { result ≡ keys_match (values_at cols.now row.now) key.now }
{
    let mut cols_left = cols;
    let mut values_left = key;
    'values: while let (Some((col, cols)), Some((value, values))) = (
        cols_left.split_first(),
        values_left.split_first(),
    ) {
        if !cell_matches(row.get(usize::from(col.get())), value) {
            return false;
        }
        cols_left = cols;
        values_left = values;
    }
    cols_left.is_empty() && values_left.is_empty()
}
