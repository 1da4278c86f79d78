//! What holds of texts, whatever they are.

ghost use Rattle.std.specs.Prelude.{ℕ, List};
ghost use Rattle.pt_words.specs.Words.{IsWordFault};
ghost use Rattle.pt_words.specs.declared.error.EditError.TheVariants.{Memory};

/// No text's fault is lack of memory: that error is the program's alone.
#[tactic(auto, using(crate::proofs::NoMemory::memory_is_no_fault_lem))]
pub fn memory_is_no_fault()
    ensures { (fs : List (List ℕ)) → ¬ IsWordFault fs Memory }
{}
