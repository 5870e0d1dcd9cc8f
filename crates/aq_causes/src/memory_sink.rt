ghost use Rattle.std.specs.Prelude.{◌≡◌, ◌<◌, ◌≤◌, [], length, min, Some, IfOk};
ghost use Rattle.aq_causes.specs.Put.{PutCases};
ghost use Rattle.aq_causes.specs.MemorySink.{write_answer, after_write};

use crate::sink::{Put, Sink};
use aq_base::{List, NoMemory};
use std::alloc::Global;
use std::marker::Model;

/// A sink with room for a given number of bytes, which fails at given calls.
#[derive(Drop)]
pub struct MemorySink {
    bytes: Vec<u8>,
    room: usize,
    fail: List<u64>,
    calls: u64,
    faults: u64,
}

impl Model for MemorySink {
    ghost use Rattle.std.specs.Prelude.{◌≤◌, vec_len};
    ghost use Rattle.std.specs.Vec.{vec_capacity};
    ghost use Rattle.aq_causes.specs.MemorySink.{SinkState};

    ghost Value = { SinkState };

    ghost view = { λ s. record {
      written = s.bytes.items;
      room = s.room;
      fail = s.fail;
      calls = s.calls;
      faults = s.faults;
    } };

    ghost invariant = { λ s. (vec_len s.bytes ≤ s.room) × (s.room ≤ vec_capacity s.bytes) };
}

impl MemorySink {
    /// A sink that takes at most `room` bytes in all, whose memory is taken here, and that fails at
    /// the calls whose numbers are in `fail`. The first call is number 1. A call beyond number
    /// 2^64 - 1 has that number too. The error is want of memory.
    pub fn new(alloc: Global, room: usize, fail: List<u64>) -> Result<MemorySink, NoMemory>
        ensures { IfOk result (λ sink. sink
            ≡ record { written = []; room = room; fail = fail; calls = 0; faults = 0 }) }
    {
        Ok(MemorySink {
            bytes: Vec::with_capacity(alloc, room)?,
            room,
            fail,
            calls: 0,
            faults: 0,
        })
    }

    /// The bytes taken so far.
    pub fn bytes(&self) -> &[u8]
        ensures value { result.now ≡ self.now.written }
        ensures within { length result.now ≤ self.now.room }
    {
        &self.bytes
    }
}

impl Sink for MemorySink {
    ghost written = { λ s. Some s.written };

    ghost faults = { λ s. s.faults };

    /// Takes as many bytes as there is room for. It takes no memory.
    fn write(&mut self, piece: &[u8]) -> Put
        requires { 0 < length piece.now }
        ensures cases { PutCases self.old.faults self.new.faults
            (Some self.old.written) (Some self.new.written) piece.now result }
        ensures count { self.old.faults ≤ self.new.faults }
        ensures answer { result ≡ write_answer self.old piece.now }
        ensures after { self.new ≡ after_write self.old piece.now (write_answer self.old piece.now) }
    {
        self.calls = self.calls.saturating_add(1);
        let count = piece.len().min(self.room - self.bytes.len());
        if count == 0 || self.fail.as_slice().contains(&self.calls) {
            self.faults = self.faults.saturating_add(1);
            return Put::Failed;
        }
        match self.bytes.extend_from_slice(&piece[..count]) {
            Ok(()) => Put::Took(count),
            Err(_) => unreachable!(),
        }
    }
}
