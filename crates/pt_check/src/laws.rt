//! Laws of answers. The functions do nothing: their contracts are the laws.

ghost use Rattle.std.specs.Prelude.{ℕ, List, Option, length};
ghost use Rattle.pt_sector.specs.Sectors.{Sectors, Writes, after};
ghost use Rattle.pt_layout.specs.Healthy.{IsFinding, Healthy};
ghost use Rattle.pt_check.specs.Answers.{Answers, SameAnswer, Course, switch_number, InNoTable, InOwned, IsFit, Leads};
ghost use Rattle.pt_check.specs.declared.answer.Answer.{Answer as AnswerValue};
ghost use Rattle.pt_check.specs.declared.answer.Answer.TheVariants.{Yes};
ghost use Rattle.pt_recover.specs.Denotes.{Denotes, Reads};
ghost use Rattle.pt_members.specs.declared.layout.Layout.{Layout};
ghost use Rattle.pt_apply.specs.Plans.{writes_in, NoneIs};

/// One answer at most is right: a yes and a no exclude each other, two switches are the same, and two reasons differ at
/// most in the finding of the finished disk that they name.
#[tactic(auto, using(crate::proofs::Terms::answer_is_one_lem))]
pub fn answer_is_one()
    ensures { (b : ℕ) (d : Sectors) (phases : List Writes) (a c : AnswerValue) → Answers b d phases a → Answers b d phases c
        → SameAnswer (IsFinding b) (after phases d) a c }
{}

/// A plan is accepted that is fit, whose phases go from the old layout to the new one and touch nothing that is read
/// but one at a time, which writes in the tables alone and in no owned sector, and whose finished disk is healthy.
#[tactic(auto, using(crate::proofs::Accepted::accepted_lem))]
pub fn course_is_accepted()
    ensures { (b : ℕ) (d : Sectors) (phases : List Writes) (old new : Option Layout) (switch : Option ℕ) → IsFit d phases
        → Leads (Denotes b) d phases old new → Course (Denotes b) (Reads b) phases d old new (length phases) switch
        → NoneIs (InNoTable b old new) (writes_in phases) → NoneIs (InOwned b old new) (writes_in phases) → Healthy b (after phases d)
        → Answers b d phases (Yes (switch_number switch)) }
{}
