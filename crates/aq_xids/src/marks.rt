//! How subtransactions end: each call writes one mark.

ghost use Rattle.std.specs.Prelude.{◌≡◌, ◌+◌, true, false, map};
ghost use Rattle.aq_xids.specs.Kept.{all_shown, commits_in, undone_standing, IsTree};
ghost use Rattle.aq_xids.specs.Subtransactions.{fate_of, is_held_by, within_of, has_outer, outer_of, handed_over, undone, made_lasting};

use crate::kept::{Course, Kept, Phase, Standing, kept_of};

/// What the subtransaction holds goes to the one in which it was begun.
pub fn end_in(subs: &mut [Kept], number: u64)
    requires tree { IsTree subs.old }
    requires running { is_held_by number (fate_of number (all_shown subs.old)) ≡ true }
    requires inner { has_outer (within_of number (all_shown subs.old)) ≡ true }
    ensures shown { let all = all_shown subs.old in all_shown subs.new ≡ map (handed_over number (fate_of (outer_of (within_of number all)) all)) all }
    ensures tree { IsTree subs.new }
    ensures commits { commits_in subs.new ≡ commits_in subs.old }
{
    if let Some(sub) = kept_of(subs, number) {
        if let Standing::Inner(outer, _) = sub.standing {
            subs[(number - 1) as usize] = Kept {
                standing: Standing::Inner(outer, Phase::Ended),
                ..sub
            };
        }
    }
}

/// The mark of a subtransaction that is undone.
fn undone_by_itself(standing: Standing) -> Standing
    ensures { result ≡ undone_standing standing }
{
    match standing {
        Standing::Transaction(_) => Standing::Transaction(Course::Dropped),
        Standing::Inner(outer, _) => Standing::Inner(outer, Phase::Aborted),
    }
}

/// The subtransaction and all that were begun in it are undone.
pub fn abort_in(subs: &mut [Kept], number: u64)
    requires tree { IsTree subs.old }
    requires running { is_held_by number (fate_of number (all_shown subs.old)) ≡ true }
    ensures shown { all_shown subs.new ≡ map (undone number) (all_shown subs.old) }
    ensures tree { IsTree subs.new }
    ensures commits { commits_in subs.new ≡ commits_in subs.old }
{
    if let Some(sub) = kept_of(subs, number) {
        subs[(number - 1) as usize] = Kept {
            standing: undone_by_itself(sub.standing),
            ..sub
        };
    }
}

/// What the transaction holds is committed.
pub fn commit_in(subs: &mut [Kept], top: u64, number: u64)
    requires tree { IsTree subs.old }
    requires running { is_held_by top (fate_of top (all_shown subs.old)) ≡ true }
    requires transaction { has_outer (within_of top (all_shown subs.old)) ≡ false }
    ensures shown { all_shown subs.new ≡ map (made_lasting top number) (all_shown subs.old) }
    ensures tree { IsTree subs.new }
    ensures commits { commits_in subs.new ≡ commits_in subs.old + 1 }
{
    if let Some(sub) = kept_of(subs, top) {
        if let Standing::Transaction(_) = sub.standing {
            subs[(top - 1) as usize] = Kept {
                standing: Standing::Transaction(Course::Committed(number)),
                ..sub
            };
        }
    }
}
