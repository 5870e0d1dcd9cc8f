ghost use Rattle.std.specs.Prelude.{◌≡◌};

use std::marker::Model;

/// A table's number in creation order, from 0.
#[derive(Clone, Copy, PartialEq, Eq, PartialOrd, Ord, Hash)]
pub struct TabNo {
    number: u16,
}

impl Model for TabNo {
    ghost use Rattle.std.specs.Prelude.{ℕ};

    ghost Value = { ℕ };

    ghost view = { λ n. n.number };

    ghost inverse = { λ n. record { number = n } };
}

impl TabNo {
    /// The table with this number.
    pub fn new(number: u16) -> TabNo
        ensures { result ≡ number }
    {
        TabNo { number }
    }

    /// The number.
    pub fn get(self) -> u16
        ensures { result ≡ self }
    {
        self.number
    }
}

/// A column's number in its table, from 0.
#[derive(Clone, Copy, PartialEq, Eq, PartialOrd, Ord, Hash)]
pub struct ColNo {
    number: u16,
}

impl Model for ColNo {
    ghost use Rattle.std.specs.Prelude.{ℕ};

    ghost Value = { ℕ };

    ghost view = { λ n. n.number };

    ghost inverse = { λ n. record { number = n } };
}

impl ColNo {
    /// The column with this number.
    pub fn new(number: u16) -> ColNo
        ensures { result ≡ number }
    {
        ColNo { number }
    }

    /// The number.
    pub fn get(self) -> u16
        ensures { result ≡ self }
    {
        self.number
    }
}

/// A foreign key's number in creation order, from 0.
#[derive(Clone, Copy, PartialEq, Eq, PartialOrd, Ord, Hash)]
pub struct FkNo {
    number: u16,
}

impl Model for FkNo {
    ghost use Rattle.std.specs.Prelude.{ℕ};

    ghost Value = { ℕ };

    ghost view = { λ n. n.number };

    ghost inverse = { λ n. record { number = n } };
}

impl FkNo {
    /// The foreign key with this number.
    pub fn new(number: u16) -> FkNo
        ensures { result ≡ number }
    {
        FkNo { number }
    }

    /// The number.
    pub fn get(self) -> u16
        ensures { result ≡ self }
    {
        self.number
    }
}

/// A unique key's number in creation order, from 0.
#[derive(Clone, Copy, PartialEq, Eq, PartialOrd, Ord, Hash)]
pub struct KeyNo {
    number: u16,
}

impl Model for KeyNo {
    ghost use Rattle.std.specs.Prelude.{ℕ};

    ghost Value = { ℕ };

    ghost view = { λ n. n.number };

    ghost inverse = { λ n. record { number = n } };
}

impl KeyNo {
    /// The key with this number.
    pub fn new(number: u16) -> KeyNo
        ensures { result ≡ number }
    {
        KeyNo { number }
    }

    /// The number.
    pub fn get(self) -> u16
        ensures { result ≡ self }
    {
        self.number
    }
}

/// A constraint's number in creation order, from 0.
#[derive(Clone, Copy, PartialEq, Eq, PartialOrd, Ord, Hash)]
pub struct ConNo {
    number: u16,
}

impl Model for ConNo {
    ghost use Rattle.std.specs.Prelude.{ℕ};

    ghost Value = { ℕ };

    ghost view = { λ n. n.number };

    ghost inverse = { λ n. record { number = n } };
}

impl ConNo {
    /// The constraint with this number.
    pub fn new(number: u16) -> ConNo
        ensures { result ≡ number }
    {
        ConNo { number }
    }

    /// The number.
    pub fn get(self) -> u16
        ensures { result ≡ self }
    {
        self.number
    }
}

/// A trigger's number in creation order, from 0.
#[derive(Clone, Copy, PartialEq, Eq, PartialOrd, Ord, Hash)]
pub struct TrigNo {
    number: u16,
}

impl Model for TrigNo {
    ghost use Rattle.std.specs.Prelude.{ℕ};

    ghost Value = { ℕ };

    ghost view = { λ n. n.number };

    ghost inverse = { λ n. record { number = n } };
}

impl TrigNo {
    /// The trigger with this number.
    pub fn new(number: u16) -> TrigNo
        ensures { result ≡ number }
    {
        TrigNo { number }
    }

    /// The number.
    pub fn get(self) -> u16
        ensures { result ≡ self }
    {
        self.number
    }
}

/// A row's number: drawn from one counter at each inserted row, from 1, and never used again.
#[derive(Clone, Copy, PartialEq, Eq, PartialOrd, Ord, Hash)]
pub struct RowNo {
    number: u64,
}

impl Model for RowNo {
    ghost use Rattle.std.specs.Prelude.{ℕ};

    ghost Value = { ℕ };

    ghost view = { λ n. n.number };

    ghost inverse = { λ n. record { number = n } };
}

impl RowNo {
    /// The row with this number.
    pub fn new(number: u64) -> RowNo
        ensures { result ≡ number }
    {
        RowNo { number }
    }

    /// The number.
    pub fn get(self) -> u64
        ensures { result ≡ self }
    {
        self.number
    }
}

/// A write's number: drawn from one counter at each change of a row, from 1, and never used again.
#[derive(Clone, Copy, PartialEq, Eq, PartialOrd, Ord, Hash)]
pub struct WriteNo {
    number: u64,
}

impl Model for WriteNo {
    ghost use Rattle.std.specs.Prelude.{ℕ};

    ghost Value = { ℕ };

    ghost view = { λ n. n.number };

    ghost inverse = { λ n. record { number = n } };
}

impl WriteNo {
    /// The write with this number.
    pub fn new(number: u64) -> WriteNo
        ensures { result ≡ number }
    {
        WriteNo { number }
    }

    /// The number.
    pub fn get(self) -> u64
        ensures { result ≡ self }
    {
        self.number
    }
}

/// An event's number in its transaction, from 1, and never used again.
#[derive(Clone, Copy, PartialEq, Eq, PartialOrd, Ord, Hash)]
pub struct EventNo {
    number: u32,
}

impl Model for EventNo {
    ghost use Rattle.std.specs.Prelude.{ℕ};

    ghost Value = { ℕ };

    ghost view = { λ n. n.number };

    ghost inverse = { λ n. record { number = n } };
}

impl EventNo {
    /// The event with this number.
    pub fn new(number: u32) -> EventNo
        ensures { result ≡ number }
    {
        EventNo { number }
    }

    /// The number.
    pub fn get(self) -> u32
        ensures { result ≡ self }
    {
        self.number
    }
}
