ghost use Rattle.std.specs.Prelude.{ℕ, ◌<◌, ◌≤◌, List, length};
ghost use Rattle.std.specs.declared.option.Option.{Option};
ghost use Rattle.aq_causes.specs.Taken.{TakenCases};

/// What a read of a source answers.
#[derive(Clone, Copy, PartialEq, Eq)]
pub enum Taken {
    /// So many bytes, at least one, stand at the front of the buffer.
    Got(usize),
    /// Nothing is left.
    End,
    /// A fault came, and nothing was read.
    Failed,
}

/// What gives bytes, piece by piece, and counts its faults.
pub trait Source {
    // The bytes still to come, where the source tells them.
    ghost left: { Self → Option (List ℕ) };

    // How many faults there were. The count stays at 2^64 - 1, its last value.
    ghost faults: { Self → ℕ };

    /// Reads some bytes into the front of the buffer.
    fn read(&mut self, buf: &mut [u8]) -> Taken
        requires { 0 < length buf.old }
        ensures cases { TakenCases (faults self.old) (faults self.new)
            (left self.old) (left self.new) buf.new result }
        ensures count { faults self.old ≤ faults self.new };
}
