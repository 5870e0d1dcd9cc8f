//! Names of which one stands twice.
#![tactic(auto, using(aq_refusals::proofs::Telling::first_stays, aq_refusals::proofs::Telling::memory_ran_out, aq_refusals::proofs::Telling::fault_is_told, crate::proofs::Repeats::none_again, crate::proofs::Repeats::first_again))]

ghost use Rattle.std.specs.Prelude.{◌≡◌, IfOk, map};
ghost use Rattle.std.specs.List.{list_any};
ghost use Rattle.std.specs.Option.{option_copied};
ghost use Rattle.aq_base.specs.Names.{Text, same_text as same};
ghost use Rattle.aq_refusals.specs.Answers.{Tells};
ghost use Rattle.aq_refusals.specs.Faults as faults;
ghost use Rattle.aq_setup.specs.Scopes as scopes;
ghost use Rattle.aq_setup.specs.Scopes.{repeats_behind};
ghost use Rattle.aq_setup.specs.Triggers.{first_text};

use crate::name_set::NameSet;
use aq_base::TextVal;
use aq_refusals::{CatFault, column_twice};
use std::alloc::{AllocError, Global};

/// Names as a set. The error is want of memory.
fn set_of(alloc: Global, names: &[TextVal]) -> Result<NameSet, AllocError>
    ensures { IfOk result (λ made. (q : Text) → list_any (same q) made ≡ list_any (same q) names.now) }
{
    let mut made = NameSet::new(alloc);
    for name in names {
        made.add(name)?;
    }
    Ok(made)
}

/// The first name that is taken or stands before. The error is want of memory.
fn first_repeat<'a>(
    alloc: Global,
    taken: &[TextVal],
    names: &'a [TextVal],
) -> Result<Option<&'a TextVal>, AllocError>
    ensures { IfOk result (λ found. option_copied found ≡ first_text (scopes.repeats_behind taken.now names.now)) }
{
    let mut seen = set_of(alloc, taken)?;
    for name in names {
        if seen.has(name) {
            return Ok(Some(name));
        }
        seen.add(name)?;
    }
    Ok(None)
}

/// 42701: columns of which one stands before.
pub fn columns_twice(alloc: Global, before: &[TextVal], names: &[TextVal]) -> Result<(), CatFault>
    ensures { Tells (map faults.column_twice (repeats_behind before.now names.now)) result }
{
    match first_repeat(alloc, before, names)? {
        None => Ok(()),
        Some(name) => Err(column_twice(alloc, name)),
    }
}
