//! Facts about the definitions. Each is the contract of a function that does nothing.
ghost use Rattle.std.specs.Prelude.{ℕ, List};
ghost use Rattle.base58.specs.Reading.{IsRead, IsText};

/// Just the texts of at most 78 bytes are read, each as its bytes.
pub fn texts_are_read()
    ensures written { (text payload : List ℕ) → IsText text payload → IsRead text payload }
    ensures read { (text payload : List ℕ) → IsRead text payload → IsText text payload }
{}
