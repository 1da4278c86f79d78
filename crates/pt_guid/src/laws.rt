//! What holds of texts, of stored bytes and of codes, whatever they are.

ghost use Rattle.std.specs.Prelude.{◌≡◌, ◌<◌, ℕ, List, All, Some, length, ◌≢◌, replicate};
ghost use Rattle.pt_guid.specs.Guids.{mixed, stored_of, text_of};
ghost use Rattle.pt_guid.specs.Codes.{type_of};

/// Sixteen bytes that are rearranged twice are as before.
pub fn mixed_twice()
    ensures { (bytes : List ℕ) → length bytes ≡ 16 → mixed (mixed bytes) ≡ bytes }
{}

/// A text stands for one GUID.
pub fn one_value()
    ensures { (text a b : List ℕ) → stored_of text ≡ Some a → stored_of text ≡ Some b → a ≡ b }
{}

/// The text of a GUID stands for it.
pub fn text_reads_back()
    ensures { (stored : List ℕ) → length stored ≡ 16 → All (λ byte. byte < 256) stored → stored_of (text_of stored) ≡ Some stored }
{}

/// No two codes stand for one type.
pub fn codes_differ()
    ensures { (a b : ℕ) (stored : List ℕ) → type_of a ≡ Some stored → type_of b ≡ Some stored → a ≡ b }
{}

/// No code stands for the type of an unused entry, which is zero.
pub fn types_are_used()
    ensures { (code : ℕ) → type_of code ≢ Some (replicate 16 0) }
{}
