//! Facts of all bytes.

ghost use Rattle.std.specs.Prelude.{◌≡◌, ℕ, List};
ghost use Rattle.aq_base.specs.declared.fault.SqlFault.{SqlFault};
ghost use Rattle.aq_base.specs.declared.script.Script.{Script};
ghost use Rattle.aq_script.specs.Reading.{Reads, IsRefusedLine};

/// Bytes are one script at the most.
pub fn one_reading()
    ensures { (bytes : List ℕ) (a b : Script) → Reads bytes a → Reads bytes b → a ≡ b }
{}

/// In bytes one line at the most is refused first, with one fault.
pub fn one_refusal()
    ensures { (bytes : List ℕ) (line other : ℕ) (a b : SqlFault) → IsRefusedLine bytes line a → IsRefusedLine bytes other b → (line ≡ other) × (a ≡ b) }
{}

/// No line is refused where bytes are a script.
pub fn never_both()
    ensures { (bytes : List ℕ) (script : Script) (line : ℕ) (fault : SqlFault) → Reads bytes script → IsRefusedLine bytes line fault → ⊥ }
{}
