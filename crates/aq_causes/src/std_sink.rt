ghost use Rattle.std.specs.Prelude.{◌≡◌, ◌<◌, ◌≤◌, length};
ghost use Rattle.aq_causes.specs.Put.{PutCases, faults_after_write};

use crate::sink::{Put, Sink};
use std::io::Write;
use std::marker::Model;

/// A sink over a writer of std. Each error of the writer is a fault, also one by an interrupt, and
/// so is a write that takes nothing.
#[derive(Drop)]
pub struct StdSink<W> {
    inner: W,
    faults: u64,
}

impl<W> Model for StdSink<W> {
    ghost use Rattle.std.specs.Prelude.{ℕ};
    ghost use Rattle.std.specs.Coded.{coded×, coded_ℕ};

    ghost Value = { W × ℕ };

    ghost coded = { coded× W.code coded_ℕ };

    ghost view = { λ s. (s.inner, s.faults) };
}

impl<W> StdSink<W> {
    /// A sink with no fault so far. Contracts see the writer and the count of faults.
    pub fn new(inner: W) -> StdSink<W>
        ensures { result ≡ (inner, 0) }
    {
        StdSink { inner, faults: 0 }
    }

    /// The writer.
    pub fn into_inner(self) -> W
        ensures { result ≡ self.0 }
    {
        let StdSink { inner, faults: _ } = self;
        inner
    }
}

impl<W: Write> Sink for StdSink<W> {
    ghost written = { λ s. W.contents s.0 };

    ghost faults = { λ s. s.1 };

    fn write(&mut self, piece: &[u8]) -> Put
        requires { 0 < length piece.now }
        ensures cases { PutCases self.old.1 self.new.1
            (W.contents self.old.0) (W.contents self.new.0) piece.now result }
        ensures count { self.old.1 ≤ self.new.1 }
        ensures faults { self.new.1 ≡ faults_after_write self.old.1 result }
    {
        match self.inner.write(piece) {
            Ok(0) | Err(_) => {
                self.faults = self.faults.saturating_add(1);
                Put::Failed
            }
            Ok(count) => Put::Took(count),
        }
    }
}
