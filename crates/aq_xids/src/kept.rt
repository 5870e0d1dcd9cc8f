//! Subtransactions as they are kept: each with the one in which it was begun, and how it ended by itself. What has become of it
//! follows from those in which it was begun (PostgreSQL source, subtrans.c and clog.c).

ghost use Rattle.std.specs.Prelude.{◌≡◌};
ghost use Rattle.aq_xids.specs.Kept.{kept_at, all_shown, held_in, IsTree};
ghost use Rattle.aq_xids.specs.Subtransactions.{fate_of};

use crate::fate::Fate;

/// How a transaction stands.
#[derive(Clone, Copy)]
pub enum Course {
    Running,
    Dropped,
    Committed(u64),
}

/// How a subtransaction that was begun in another one stands by itself.
#[derive(Clone, Copy)]
pub enum Phase {
    Running,
    /// What it did is part of what the one in which it was begun did.
    Ended,
    Aborted,
}

#[derive(Clone, Copy)]
pub enum Standing {
    Transaction(Course),
    /// begun in the subtransaction with this number
    Inner(u64, Phase),
}

#[derive(Clone, Copy)]
pub struct Kept {
    pub session: u8,
    /// The number of its transaction's own subtransaction.
    pub top: u64,
    pub standing: Standing,
}

/// The subtransaction with a number, or `None` where none has it.
pub fn kept_of(subs: &[Kept], number: u64) -> Option<Kept>
    ensures value { result ≡ kept_at subs.now number }
{
    let place = number.checked_sub(1)?;
    subs.get(place as usize).copied()
}

/// What becomes of the running subtransaction, if there is one, by what has become of those in which it was begun.
fn held_by(holder: Option<u64>, above: Fate) -> Fate
    ensures { result ≡ held_in holder above }
{
    match (holder, above) {
        (Some(number), Fate::Held(_)) => Fate::Held(number),
        (_, fate) => fate,
    }
}

/// What has become of the subtransaction with a number. It walks up those in which it was begun.
pub fn fate_in(subs: &[Kept], number: u64) -> Fate
    requires { IsTree subs.now }
    ensures { result ≡ fate_of number (all_shown subs.now) }
{
    let mut at = number;
    let mut holder = None;
    'up: while let Some(sub) = kept_of(subs, at) {
        match sub.standing {
            Standing::Transaction(Course::Running) => return held_by(holder, Fate::Held(at)),
            Standing::Transaction(Course::Dropped) => return Fate::Void,
            Standing::Transaction(Course::Committed(commit)) => return Fate::Committed(commit),
            Standing::Inner(_, Phase::Aborted) => return Fate::Void,
            Standing::Inner(outer, Phase::Ended) => at = outer,
            Standing::Inner(outer, Phase::Running) => {
                holder = holder.or(Some(at));
                at = outer;
            }
        }
    }
    Fate::Void
}
