//! Sets of sessions.

ghost use Rattle.std.specs.Prelude.{◌≡◌, ◌≢◌, ℕ, ◌<◌, ◌==◌, true, false, find, option_map, IfSome};
ghost use Rattle.std.specs.List.{list_any};
ghost use Rattle.aq_xids.specs.Sets.{has, members, is_nil};

use crate::{SessNo, SessSet};

/// How many sessions there are at the most.
pub const SESSIONS: u8 = 16;

impl SessSet {
    /// The set that nobody is in.
    pub fn empty() -> SessSet
        ensures none { (s : ℕ) → has result.0 s ≡ false }
    {
        SessSet(0)
    }

    pub fn has(self, session: SessNo) -> bool
        requires { session.0 < 16 }
        ensures { result ≡ has self.0 session.0 }
    {
        (self.0 >> session.0) & 1 == 1
    }

    /// The set with one session more, which may be in already.
    pub fn with(self, session: SessNo) -> SessSet
        requires { session.0 < 16 }
        ensures there { has result.0 session.0 ≡ true }
        ensures others { (s : ℕ) → s ≢ session.0 → has result.0 s ≡ has self.0 s }
    {
        SessSet(self.0 | (1 << session.0))
    }

    /// The lowest session that is in both sets.
    pub fn first_common(self, other: SessSet) -> Option<SessNo>
        ensures first { option_map (λ s. s.0) result ≡ find (λ s. list_any (λ m. m == s) (members other.0)) (members self.0) }
        ensures within { IfSome result (λ s. s.0 < 16) }
    {
        for s in 0..SESSIONS {
            let session = SessNo(s);
            if self.has(session) && other.has(session) {
                return Some(session);
            }
        }
        None
    }

    /// Whether nobody is in.
    pub fn is_empty(self) -> bool
        ensures { result ≡ is_nil (members self.0) }
    {
        match self.first_common(self) {
            Some(_) => false,
            None => true,
        }
    }
}
