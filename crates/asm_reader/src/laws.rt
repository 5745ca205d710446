//! What the definitions say of lines. The function has no body: it stands for its clause.

ghost use Rattle.std.specs.Prelude.{◌≡◌, ℕ, List};
ghost use Rattle.asm_reader.specs.declared.items.LineReading.{LineReading};
ghost use Rattle.asm_reader.specs.Readings.{AreReadings};

/// Lines have one reading.
pub fn one_reading()
    ensures { (lines : List (List ℕ)) (a : List LineReading) (b : List LineReading) → AreReadings lines a → AreReadings lines b
        → a ≡ b }
{}
