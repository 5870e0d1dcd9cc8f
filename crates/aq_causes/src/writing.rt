ghost use Rattle.std.specs.Prelude.{◌≡◌, ◌≤◌, []};
ghost use Rattle.aq_causes.specs.Written.{WrittenCases};

use crate::sink::{Put, Sink};

/// What writing all bytes to a sink answers.
#[derive(Clone, Copy, PartialEq, Eq)]
pub enum Written {
    /// The sink took all of them.
    Done,
    /// A fault came first.
    Failed,
}

/// Writes all the bytes, or stops at the first fault. It takes no memory.
pub fn write_all<K: Sink>(output: &mut K, bytes: &[u8]) -> Written
    ensures cases { WrittenCases (K.faults output.old) (K.faults output.new)
        (K.written output.old) (K.written output.new) bytes.now result }
    ensures count { K.faults output.old ≤ K.faults output.new }
    ensures nothing { bytes.now ≡ [] → output.new ≡ output.old }
{
    let mut at = 0;
    'pieces: while at < bytes.len() {
        match output.write(&bytes[at..]) {
            Put::Took(count) => at += count,
            Put::Failed => return Written::Failed,
        }
    }
    Written::Done
}
