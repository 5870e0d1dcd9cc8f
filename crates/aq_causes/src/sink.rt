ghost use Rattle.std.specs.Prelude.{ℕ, ◌<◌, ◌≤◌, List, length};
ghost use Rattle.std.specs.declared.option.Option.{Option};
ghost use Rattle.aq_causes.specs.Put.{PutCases};

/// What a write to a sink answers.
#[derive(Clone, Copy, PartialEq, Eq)]
pub enum Put {
    /// So many bytes, at least one, were taken from the front of the piece.
    Took(usize),
    /// A fault came, and nothing was taken.
    Failed,
}

/// What takes bytes, piece by piece, and counts its faults.
pub trait Sink {
    // The bytes taken so far, where the sink tells them.
    ghost written: { Self → Option (List ℕ) };

    // How many faults there were. The count stays at 2^64 - 1, its last value.
    ghost faults: { Self → ℕ };

    /// Writes some bytes of the front of the piece.
    fn write(&mut self, piece: &[u8]) -> Put
        requires { 0 < length piece.now }
        ensures cases { PutCases (faults self.old) (faults self.new)
            (written self.old) (written self.new) piece.now result }
        ensures count { faults self.old ≤ faults self.new };
}
