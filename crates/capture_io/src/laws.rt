//! A law of the format.
ghost use Rattle.std.specs.Prelude.{◌≡◌, ℕ, List};
ghost use Rattle.capture_io.specs.Capture.{Reading, IsReading};

/// Each list of bytes has exactly one reading.
pub fn one_reading()
    ensures some { (bytes : List ℕ) → (reading : Reading) × IsReading bytes reading }
    ensures only { (bytes : List ℕ) (a b : Reading) → IsReading bytes a → IsReading bytes b → a ≡ b }
{}
