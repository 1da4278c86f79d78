//! What holds of texts, whatever they are. Each function does nothing: its contract is the law.

ghost use Rattle.std.specs.Prelude.{◌≡◌, ℕ, List};
ghost use Rattle.pt_sector.specs.Sectors.{Writes};
ghost use Rattle.pt_apply.specs.PlanTexts.{PlanText, IsTextFault};
ghost use Rattle.pt_apply.specs.declared.error.PlanTextError.{PlanTextError as ErrorValue};

/// A text is one plan's at most.
pub fn plan_is_one()
    ensures { (b : ℕ) (p q : List Writes) (text : List ℕ) → PlanText b p text → PlanText b q text → p ≡ q }
{}

/// A text that is a plan's has no fault.
pub fn plan_has_no_fault()
    ensures { (b : ℕ) (p : List Writes) (text : List ℕ) (e : ErrorValue) → PlanText b p text → ¬ IsTextFault b text e }
{}

/// A text has one fault at most.
pub fn text_fault_is_one()
    ensures { (b : ℕ) (text : List ℕ) (e f : ErrorValue) → IsTextFault b text e → IsTextFault b text f → e ≡ f }
{}
