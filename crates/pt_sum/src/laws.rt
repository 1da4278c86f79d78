//! What holds of CRC-32, whatever the bytes are.

ghost use Rattle.std.specs.Prelude.{◌≡◌, ◌+◌, ◌++◌, ℕ, List};
ghost use Rattle.pt_sum.specs.Sums.{after_bytes};

/// The register after two parts is that after the second, begun where the first ended.
pub fn sum_by_parts()
    ensures { (register : ℕ) (first second : List ℕ) → after_bytes register (first ++ second) ≡ after_bytes
        (after_bytes register first) second }
{}
