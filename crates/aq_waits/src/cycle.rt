//! The cycle that a wait would close.

ghost use Rattle.std.specs.Prelude.{◌≡◌, ◌<◌, ◌+◌, [], ◌∷◌, ◌++◌, option_map};
ghost use Rattle.aq_base.specs.Cycles.{cycle_through, way};
ghost use Rattle.aq_xids.specs.Sets.{members, all_sessions};
ghost use Rattle.aq_waits.specs.Edges.{firsts, waits_for, sessions_of, AreLayers};

use crate::layers::{layers_to, least};
use aq_xids::{SessNo, SessSet};

/// Some sessions, of which each waits for the next one and the last for the first.
#[derive(Clone, Copy)]
pub struct Cycle {
    pub len: u8,
    /// Those behind `len` say nothing.
    pub items: [SessNo; 16],
}

fn set_of(edges: &[SessSet; 16], session: SessNo) -> SessSet
    requires { session.0 < 16 }
    ensures { members result.0 ≡ waits_for edges.now session.0 }
{
    edges[session.0 as usize]
}

/// Writes one session behind the first ones.
fn write_at(items: &mut [SessNo; 16], len: u8, session: SessNo)
    requires { len < 16 }
    ensures { firsts (len + 1) items.new ≡ firsts len items.old ++ session.0 ∷ [] }
{
    items[len as usize] = session;
}

/// The cycle along the layers, from one of the sessions on.
fn cycle_along(
    edges: &[SessSet; 16],
    layers: &[SessSet; 16],
    goal: SessNo,
    from: SessSet,
    waits: u8,
) -> Cycle
    requires goal { goal.0 < 16 }
    requires waits { waits < 16 }
    requires layers { AreLayers edges.now goal.0 layers.now 16 }
    ensures { sessions_of result ≡ goal.0 ∷ way (waits_for edges.now) all_sessions goal.0 waits (members from.0) }
{
    let mut items = [goal; 16];
    let mut len = 1;
    let mut from = from;
    let mut left = waits;
    'waits: while left > 0 {
        let Some(next) = from.first_common(layers[left as usize]) else {
            return Cycle { len, items };
        };
        write_at(&mut items, len, next);
        len += 1;
        from = set_of(edges, next);
        left -= 1;
    }
    Cycle { len, items }
}

/// The cycle that the waiter would close by waiting for these sessions, if it would close one: of those with the fewest
/// sessions the first in the order of their sessions, beginning with the waiter.
pub fn would_close(edges: &[SessSet; 16], waiter: SessNo, by: SessSet) -> Option<Cycle>
    requires { waiter.0 < 16 }
    ensures { option_map sessions_of result ≡ cycle_through (waits_for edges.now) all_sessions waiter.0 (members by.0) }
{
    let layers = layers_to(edges, waiter);
    let Some(waits) = least(&layers, by) else {
        return None;
    };
    Some(cycle_along(edges, &layers, waiter, by, waits))
}
