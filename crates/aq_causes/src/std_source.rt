ghost use Rattle.std.specs.Prelude.{◌≡◌, ◌<◌, ◌≤◌, length};
ghost use Rattle.aq_causes.specs.Taken.{TakenCases, faults_after_read};

use crate::source::{Source, Taken};
use std::io::Read;
use std::marker::Model;

/// A source over a reader of std. Each error of the reader is a fault, also one by an interrupt.
#[derive(Drop)]
pub struct StdSource<R> {
    inner: R,
    faults: u64,
}

impl<R> Model for StdSource<R> {
    ghost use Rattle.std.specs.Prelude.{ℕ};
    ghost use Rattle.std.specs.Coded.{coded×, coded_ℕ};

    ghost Value = { R × ℕ };

    ghost coded = { coded× R.code coded_ℕ };

    ghost view = { λ s. (s.inner, s.faults) };
}

impl<R> StdSource<R> {
    /// A source with no fault so far. Contracts see the reader and the count of faults.
    pub fn new(inner: R) -> StdSource<R>
        ensures { result ≡ (inner, 0) }
    {
        StdSource { inner, faults: 0 }
    }
}

impl<R: Read> Source for StdSource<R> {
    ghost left = { λ s. R.remaining s.0 };

    ghost faults = { λ s. s.1 };

    fn read(&mut self, buf: &mut [u8]) -> Taken
        requires { 0 < length buf.old }
        ensures cases { TakenCases self.old.1 self.new.1
            (R.remaining self.old.0) (R.remaining self.new.0) buf.new result }
        ensures count { self.old.1 ≤ self.new.1 }
        ensures faults { self.new.1 ≡ faults_after_read self.old.1 result }
    {
        match self.inner.read(buf) {
            Ok(0) => Taken::End,
            Ok(count) => Taken::Got(count),
            Err(_) => {
                self.faults = self.faults.saturating_add(1);
                Taken::Failed
            }
        }
    }
}
