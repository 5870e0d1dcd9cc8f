//! From which sessions how many waits lead to one session.

ghost use Rattle.std.specs.Prelude.{◌≡◌, ◌<◌, ◌||◌, ◌==◌, filter, find, is_some, IfSome};
ghost use Rattle.std.specs.List.{list_any};
ghost use Rattle.aq_base.specs.Cycles.{is_in, shortest};
ghost use Rattle.aq_xids.specs.Sets.{has, members, all_sessions};
ghost use Rattle.aq_waits.specs.Edges.{waits_for, set_at, AreLayers};

use aq_xids::{SESSIONS, SessNo, SessSet};

/// Whether one of the first set is in the second.
fn meets(a: SessSet, b: SessSet) -> bool
    ensures { result ≡ is_some (find (is_in (members b.0)) (members a.0)) }
{
    a.first_common(b).is_some()
}

/// Whether a session is the goal, or waits for one that is among `fewer`.
fn goes_on(edges: &[SessSet; 16], goal: SessNo, fewer: SessSet, session: u8) -> bool
    requires { session < 16 }
    ensures { result ≡ ((session == goal.0) || list_any (is_in (members fewer.0)) (waits_for edges.now session)) }
{
    session == goal.0 || meets(edges[session as usize], fewer)
}

/// The goal, and those who wait for one that is among `fewer`.
fn one_more(edges: &[SessSet; 16], goal: SessNo, fewer: SessSet) -> SessSet
    ensures { members result.0 ≡ filter (λ k. (k == goal.0) || list_any (is_in (members fewer.0)) (waits_for edges.now k)) all_sessions }
{
    let mut found = SessSet::empty();
    for k in 0..SESSIONS {
        if goes_on(edges, goal, fewer, k) {
            found = found.with(SessNo(k));
        }
    }
    found
}

/// For each number of waits the sessions from which so many waits, or fewer, lead to the goal.
pub fn layers_to(edges: &[SessSet; 16], goal: SessNo) -> [SessSet; 16]
    requires { goal.0 < 16 }
    ensures { AreLayers edges.now goal.0 result 16 }
{
    let mut layers = [SessSet::empty().with(goal); 16];
    for n in 1..16usize {
        layers[n] = one_more(edges, goal, layers[n - 1]);
    }
    layers
}

/// The least number of waits by which one of the sessions leads to the goal.
pub fn least(layers: &[SessSet; 16], from: SessSet) -> Option<u8>
    ensures least { result ≡ find (λ n. is_some (find (is_in (members (set_at layers.now n))) (members from.0))) all_sessions }
    ensures within { IfSome result (λ n. n < 16) }
{
    for n in 0..SESSIONS {
        if meets(from, layers[n as usize]) {
            return Some(n);
        }
    }
    None
}
