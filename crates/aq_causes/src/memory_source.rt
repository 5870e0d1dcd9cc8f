ghost use Rattle.std.specs.Prelude.{◌≡◌, ◌<◌, ◌≤◌, ◌++◌, length, min, take, drop, Some};
ghost use Rattle.aq_causes.specs.Taken.{TakenCases};
ghost use Rattle.aq_causes.specs.MemorySource.{read_answer, after_read, buffer_after};

use crate::source::{Source, Taken};
use aq_base::List;
use std::marker::Model;

/// A source of given bytes, which fails at given calls.
#[derive(Drop)]
pub struct MemorySource {
    bytes: List<u8>,
    at: usize,
    piece: usize,
    fail: List<u64>,
    calls: u64,
    faults: u64,
}

impl Model for MemorySource {
    ghost use Rattle.std.specs.Prelude.{◌≤◌, length, drop};
    ghost use Rattle.aq_causes.specs.MemorySource.{SourceState};

    ghost Value = { SourceState };

    ghost view = { λ s. record {
      left = drop s.at s.bytes;
      piece = s.piece;
      fail = s.fail;
      calls = s.calls;
      faults = s.faults;
    } };

    ghost invariant = { λ s. (s.at ≤ length s.bytes) × (1 ≤ s.piece) };
}

impl MemorySource {
    /// A source that gives these bytes, at most `piece` in each call, and fails at the calls whose
    /// numbers are in `fail`. The first call is number 1. A call beyond number 2^64 - 1 has that
    /// number too.
    pub fn new(bytes: List<u8>, piece: usize, fail: List<u64>) -> MemorySource
        requires { 1 ≤ piece }
        ensures { result
            ≡ record { left = bytes; piece = piece; fail = fail; calls = 0; faults = 0 } }
    {
        MemorySource {
            bytes,
            at: 0,
            piece,
            fail,
            calls: 0,
            faults: 0,
        }
    }
}

// Copies the front of `from`, at most `most` bytes, to the front of `to`, and says how many.
fn copy_front(from: &[u8], most: usize, to: &mut [u8]) -> usize
    ensures count { result ≡ min most (min (length to.old) (length from.now)) }
    ensures front { take result to.new ≡ take result from.now }
    ensures copied { to.new ≡ take result from.now ++ drop result to.old }
{
    let count = most.min(to.len().min(from.len()));
    to[..count].copy_from_slice(&from[..count]);
    count
}

impl Source for MemorySource {
    ghost left = { λ s. Some s.left };

    ghost faults = { λ s. s.faults };

    /// Reads as many bytes as the piece, the buffer and what is left allow.
    fn read(&mut self, buf: &mut [u8]) -> Taken
        requires { 0 < length buf.old }
        ensures cases { TakenCases self.old.faults self.new.faults
            (Some self.old.left) (Some self.new.left) buf.new result }
        ensures count { self.old.faults ≤ self.new.faults }
        ensures answer { result ≡ read_answer self.old (length buf.old) }
        ensures after { self.new ≡ after_read self.old (read_answer self.old (length buf.old)) }
        ensures buffer { buf.new
            ≡ buffer_after self.old (read_answer self.old (length buf.old)) buf.old }
    {
        self.calls = self.calls.saturating_add(1);
        if self.fail.as_slice().contains(&self.calls) {
            self.faults = self.faults.saturating_add(1);
            return Taken::Failed;
        }
        let left = &self.bytes.as_slice()[self.at..];
        if left.is_empty() {
            return Taken::End;
        }
        let count = copy_front(left, self.piece, buf);
        self.at += count;
        Taken::Got(count)
    }
}
