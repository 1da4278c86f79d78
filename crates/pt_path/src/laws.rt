//! Laws of texts. Each function does nothing: its contract is the law.

ghost use Rattle.std.specs.Prelude.{◌≡◌, ℕ, List};
ghost use Rattle.pt_path.specs.declared.path.Path.{Path};
ghost use Rattle.pt_path.specs.Paths.{IsNumber, IsPath};

/// A text is one number at most.
#[tactic(auto, using(crate::proofs::OneText::number_is_one_lem))]
pub fn number_is_one()
    ensures { (text : List ℕ) (m n : ℕ) → IsNumber text m → IsNumber text n → m ≡ n }
{}

/// A text is one path at most.
#[tactic(auto, using(crate::proofs::OneText::path_is_one_lem))]
pub fn path_is_one()
    ensures { (text : List ℕ) (p q : Path) → IsPath text p → IsPath text q → p ≡ q }
{}
