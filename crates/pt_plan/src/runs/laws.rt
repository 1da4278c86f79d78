//! Laws of several calls on one disk. Each function does nothing: its contract is the law.

ghost use Rattle.std.specs.Prelude.{◌≡◌, ◌⊎◌, ℕ, List, [], ◌∷◌, ◌++◌, Option, Some, Result, Ok, length, map};
ghost use Rattle.pt_sector.specs.Device.{Told};
ghost use Rattle.pt_sector.specs.Sectors.{Sectors, Writes};
ghost use Rattle.pt_apply.specs.Plans.{Settled};
ghost use Rattle.pt_recover.specs.Denotes.{Denotes};
ghost use Rattle.pt_members.specs.declared.layout.Layout.{Layout as LayoutValue};
ghost use Rattle.pt_cases.specs.declared.primary.Primary.{Primary as Choice};
ghost use Rattle.pt_plan.specs.Batches.{Words, Change, by_words, to_layout, ChangedBy, CommitsChange, CommitsAny, Repairs, RepairsAny};
ghost use Rattle.pt_plan.specs.Layouts.{BecomesLike};
ghost use Rattle.pt_plan.specs.Sessions.{SessionOf, RunOf, call_of, CallCarries, CallsCarry, RunKeepsHistory, Call, answered, Step};
ghost use Rattle.pt_plan.specs.Sessions.{a_commit, a_plan, nothing};
ghost use Rattle.pt_plan.specs.Sessions.{unchanged, AppliesPlan, IsPlanCall, Applies};
ghost use Rattle.pt_plan.specs.Sessions.{IsLeftBy, calls_of_all, OnlyFlushes, Lives, LivesKnown, calls_of};
ghost use Rattle.pt_plan.specs.Commits.{Past, Done, Unchanged, Either, Has, Holds};
ghost use Rattle.pt_plan.specs.declared.error.CommitError.{CommitError as CommitErrorValue};
ghost use Rattle.pt_plan.specs.declared.repair_error.RepairError.{RepairError as RepairErrorValue};
ghost use Rattle.pt_plan.specs.declared.like_error.LikeError.{LikeError as LikeErrorValue};
ghost use Rattle.pt_check.specs.declared.answer.Answer.{Answer};
ghost use Rattle.pt_plan.specs.declared.runs.sessions.Reply.{Reply as ReplyValue};

/// A history may begin on each disk on which nothing is pending, with what its durable sectors denote.
pub fn history_begins()
    ensures { (b n : ℕ) (now : Told) (d : Sectors) (o : Option LayoutValue) → Settled now d → Denotes b d o
        → Holds (Denotes b) (ChangedBy b n) o [] now }
{}

/// A commit, of words or of a layout, is a call that carries every history on.
pub fn commit_carries()
    ensures { (primary : Choice) (b n : ℕ) (change : Change) (result : Result Unit CommitErrorValue) (old new : Told)
        → CommitsChange primary b n change result old new → CallCarries b n (call_of change result) old new }
{}

/// A commit of another disk's layout is a commit of that layout, or nothing was done. The two disks have as many sectors.
pub fn commit_like_is_a_step()
    ensures { (primary : Choice) (b : ℕ) (e : Sectors) (result : Result Unit LikeErrorValue) (old new : Told)
        → BecomesLike primary b e result old new
        → RunOf b (length e) (nothing ∷ []) old new
        ⊎ ((l : LayoutValue) × (told : Result Unit CommitErrorValue) × Denotes b e (Some l)
        × RunOf b (length e) (a_commit (to_layout l) told ∷ []) old new) }
{}

/// A plan from elsewhere that is checked and applied is a call, too: a change to the layout that the plan makes, or none.
#[tactic(auto, using(crate::proofs::PlanCalls::plan_call_lem))]
pub fn apply_checked_is_a_step()
    ensures { (b : ℕ) (phases : List Writes) (result : Result Answer CommitErrorValue) (old new : Told)
        → AppliesPlan b phases result old new
        → (call : Call Change) × IsPlanCall b phases result old new call × RunOf b (length old.seen) (a_plan call ∷ []) old new }
{}

/// It carries every history on.
pub fn apply_checked_carries()
    ensures { (b n : ℕ) (call : Call Change) (old new : Told) → Applies b call old new → CallCarries b n call old new }
{}

/// No calls carry every history on.
#[tactic(auto, using(crate::proofs::RunsLemmas::none_carry_lem))]
pub fn no_calls_carry()
    ensures { (b n : ℕ) (now : Told) → CallsCarry b n [] now now }
{}

/// Calls that carry every history on do so with one more behind them, which begins on the disk that they left.
#[tactic(auto, using(crate::proofs::RunsLemmas::more_carry_lem))]
pub fn calls_carry_on()
    ensures { (b n : ℕ) (calls : List (Call Change)) (call : Call Change) (old mid new : Told) → CallsCarry b n calls old mid
        → CallCarries b n call mid new → CallsCarry b n (calls ++ call ∷ []) old new }
{}

/// So do two calls, of which the second begins on the disk that the first left.
#[tactic(auto, using(crate::proofs::RunsLemmas::two_carry_lem))]
pub fn two_calls_carry()
    ensures { (b n : ℕ) (first second : Call Change) (old mid new : Told) → CallCarries b n first old mid
        → CallCarries b n second mid new → CallsCarry b n (first ∷ second ∷ []) old new }
{}

/// A repair is a call that carries every history on, and changes nothing of it.
pub fn repair_carries()
    ensures { (primary : Choice) (b n : ℕ) (result : Result Unit RepairErrorValue) (old new : Told) → Repairs primary b n result old new
        → CallCarries b n unchanged old new }
{}

/// A session's batches, as calls, carry every history on.
pub fn session_carries()
    ensures { (primary : Choice) (b n : ℕ) (ws : List Words) (rs : List ReplyValue) (old new : Told) → SessionOf primary b n ws rs old new
        → CallsCarry b n (calls_of (map by_words ws) rs) old new }
{}

/// So do all the calls of a run, whatever they answered: commits of words, of layouts and of other disks' layouts, repairs, sessions,
/// and plans from elsewhere that are checked and applied.
pub fn run_carries()
    ensures { (b n : ℕ) (steps : List (Step Change)) (old new : Told) → RunOf b n steps old new
        → CallsCarry b n (calls_of_all steps) old new }
{}

/// Such a run, whatever its calls answered, on a disk on which nothing is pending and that denotes `o`: each disk that a crash may
/// leave, between its calls or inside one of them, denotes what the calls begun so far make of `o`. Each of them that had answered
/// is in as it answered, and the one in progress, if there is one, is done or not.
pub fn run_keeps_history()
    ensures { (b n : ℕ) (steps : List (Step Change)) (old new : Told) (d : Sectors) (o : Option LayoutValue)
        → RunOf b n steps old new → Settled old d → Denotes b d o → RunKeepsHistory b n o [] steps old new }
{}

/// The same of a run that begins where earlier calls left the disk, whatever is pending.
pub fn run_goes_on()
    ensures { (b n : ℕ) (steps : List (Step Change)) (old new : Told) (o : Option LayoutValue) (earlier : List (Past Change))
        → RunOf b n steps old new → Holds (Denotes b) (ChangedBy b n) o earlier old → RunKeepsHistory b n o earlier steps old new }
{}

/// So a crash inside a commit that follows a run leaves what the run's calls made, each as it answered, with that commit done
/// or not.
pub fn acknowledged_stays()
    ensures { (b n : ℕ) (steps : List (Step Change)) (change : Change) (result : Result Unit CommitErrorValue) (old mid new : Told)
        (d : Sectors) (o : Option LayoutValue) (c : Sectors) → RunOf b n steps old mid
        → CommitsAny b n change result mid new
        → Settled old d → Denotes b d o → IsLeftBy mid new c
        → Has (Denotes b) (ChangedBy b n) o (answered (calls_of_all steps) ++ Either change ∷ []) c }
{}

/// A disk that still denotes the first layout has no history by a commit that was acknowledged and changes it, nor by that
/// commit and a call that changes nothing behind it.
pub fn lost_commit_has_no_history()
    ensures { (b n : ℕ) (w : Change) (c : Sectors) (o : Option LayoutValue) → Denotes b c o
        → ((l : LayoutValue) → ChangedBy b n o w (Ok l) → o ≡ Some l → ⊥)
        → Has (Denotes b) (ChangedBy b n) o (Done w ∷ []) c ⊎ Has (Denotes b) (ChangedBy b n) o (Done w ∷ Unchanged ∷ []) c → ⊥ }
{}

/// A disk that a crash left goes on, as a device on which nothing is pending, with each history that it has.
pub fn crash_begins_again()
    ensures { (b n : ℕ) (now : Told) (d : Sectors) (o : Option LayoutValue) (calls : List (Past Change)) → Settled now d
        → Has (Denotes b) (ChangedBy b n) o calls d → Holds (Denotes b) (ChangedBy b n) o calls now }
{}

/// Runs with a crash in or after each: of the calls that were begun before each crash, something is known.
pub fn lives_are_known()
    ensures { (b n : ℕ) (runs : List (List (Step Change))) (d e : Sectors) (o : Option LayoutValue) → Denotes b d o
        → Lives (CommitsAny b n) (RepairsAny b n) (Applies b) runs d e
        → (known : List (Past Change)) × LivesKnown (CommitsAny b n) (RepairsAny b n) (Applies b) runs known d e }
{}

/// Whichever they are, what the last crash leaves denotes what they make, run by run, of what the first run began with. Each
/// that had answered before its run's crash is in as it answered. The one that a crash was inside of, if any, is done or not.
pub fn lives_keep_history()
    ensures { (b n : ℕ) (runs : List (List (Step Change))) (known : List (Past Change)) (d e : Sectors) (o : Option LayoutValue)
        → Denotes b d o → LivesKnown (CommitsAny b n) (RepairsAny b n) (Applies b) runs known d e
        → Has (Denotes b) (ChangedBy b n) o known e }
{}

/// After a commit or a repair that is done, the next repair calls one flush, and writes nothing.
pub fn second_repair_is_idle()
    ensures { (b n : ℕ) (change : Change) (result : Result Unit RepairErrorValue) (old mid new : Told)
        → CommitsAny b n change (Ok tt) old mid ⊎ RepairsAny b n (Ok tt) old mid → RepairsAny b n result mid new → OnlyFlushes mid new }
{}
