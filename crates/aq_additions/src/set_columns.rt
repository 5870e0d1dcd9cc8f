//! The columns that ON DELETE SET NULL and SET DEFAULT set (PostgreSQL source, tablecmds.c, validateFkOnDeleteSetColumns).

ghost use Rattle.std.specs.Prelude.{◌≡◌, IfOk};
ghost use Rattle.aq_setup.specs.References as references;

use aq_base::{ColNo, Column, List, TextVal};
use aq_catalog::{is_column_in, numbers_of_columns};
use std::alloc::{AllocError, Global};

/// Each number once, where it stands first.
fn each_once(alloc: Global, numbers: &[ColNo]) -> Result<List<ColNo>, AllocError>
    ensures { IfOk result (λ made. made ≡ references.each_once numbers.now) }
{
    let mut made: List<ColNo> = List::new(alloc);
    for number in numbers {
        if !is_column_in(made.as_slice(), usize::from(number.get())) {
            made.push(*number)?;
        }
    }
    Ok(made)
}

/// The columns of the list, or else all of the foreign key.
pub(crate) fn set_numbers(
    alloc: Global,
    child: &[Column],
    cols: &[TextVal],
    listed: &Option<List<TextVal>>,
) -> Result<List<ColNo>, AllocError>
    ensures { IfOk result (λ made. made ≡ references.set_numbers child.now cols.now listed.now) }
{
    match listed {
        None => numbers_of_columns(alloc, child, cols),
        Some(names) => {
            let numbers = numbers_of_columns(alloc, child, names.as_slice())?;
            each_once(alloc, numbers.as_slice())
        }
    }
}
