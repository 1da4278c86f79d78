//! Laws of plans, the checker, and what is left once a commit or a repair is done. The functions do nothing: their contracts are
//! the laws.

ghost use Rattle.std.specs.Prelude.{◌≡◌, ◌≤◌, ◌+◌, ℕ, List, All, Contains, length, Option, Some, Ok};
ghost use Rattle.pt_sector.specs.Device.{Told};
ghost use Rattle.pt_sector.specs.Sectors.{Sectors, IsSectorSize, Writes, sector, after};
ghost use Rattle.pt_apply.specs.Plans.{Keeps as StaysAs, StoppedIn, Switches};
ghost use Rattle.pt_recover.specs.Denotes.{Denotes};
ghost use Rattle.pt_members.specs.Members.{places_of};
ghost use Rattle.pt_gpt.specs.Copies.{Copy};
ghost use Rattle.pt_gpt.specs.declared.table.Side.TheVariants.{Primary};
ghost use Rattle.pt_gpt.specs.declared.table.Table.{Table};
ghost use Rattle.pt_members.specs.declared.layout.Body.TheVariants.{Gpt};
ghost use Rattle.pt_members.specs.declared.layout.Layout.{Layout};
ghost use Rattle.pt_members.specs.declared.layout.Slice.{Slice};
ghost use Rattle.pt_bsd.specs.declared.label.Label.{Label};
ghost use Rattle.pt_members.specs.Tables.{OwnedOf, TableOf};
ghost use Rattle.pt_layout.specs.Healthy.{IsHealthy, Healthy};
ghost use Rattle.pt_check.specs.Answers.{Answers, IsUnwritten};
ghost use Rattle.pt_check.specs.declared.answer.Answer.TheVariants.{No, Yes};
ghost use Rattle.pt_check.specs.declared.answer.Why.{Why};
ghost use Rattle.pt_cases.specs.Kept.{IsPlanBy, IsKept};
ghost use Rattle.pt_cases.specs.declared.primary.Primary.{Primary as Choice};
ghost use Rattle.pt_plan.specs.Batches.{Change, CommitsChange, Repairs, IsReadyChange, IsReadyToMend};
ghost use Rattle.pt_plan.specs.Commits.{HoldsTarget, Lands, IsPhase, turn_by};
ghost use Rattle.pt_plan.specs.Readers.{FollowsPrimary, Finds};

/// A plan of a disk for a layout is accepted with its switch, and the disk is healthy after it, with that layout.
#[tactic(auto, using(crate::proofs::EveryPlan::plan_lands))]
pub fn plan_is_accepted()
    ensures { (b : ℕ) (d : Sectors) (o : Option Layout) (p : Layout) (phases : List Writes) (primary : Choice) → IsSectorSize b
        → Denotes b d o → (is : IsPlanBy primary b d p phases) → Lands b d o p phases (turn_by primary b d p phases is) }
{}

/// The disk is healthy after a plan, with the layout that was wanted.
pub fn plan_ends_well()
    ensures { (b : ℕ) (d : Sectors) (p : Layout) (phases : List Writes) (primary : Choice)
        → IsSectorSize b → IsPlanBy primary b d p phases → IsHealthy b (after phases d) p }
{}

/// The checker refuses no plan.
pub fn plan_is_never_refused()
    ensures { (b : ℕ) (d : Sectors) (p : Layout) (phases : List Writes) (primary : Choice) (why : Why)
        → IsSectorSize b → IsPlanBy primary b d p phases → ¬ Answers b d phases (No why) }
{}

/// After a plan each label that is wanted stands at its place: the bytes that stood there where it was there already,
/// and else written over the label that was there, or over zeros.
pub fn plan_holds_labels()
    ensures { (b : ℕ) (d : Sectors) (o : Option Layout) (p : Layout) (phases : List Writes) (primary : Choice) (w : Slice) (l : Label)
        → IsSectorSize b → Denotes b d o → IsPlanBy primary b d p phases → Contains (places_of b p.sectors p.body) w
        → Contains p.labels (record { number = w.number; label = l }) → HoldsTarget b d o phases w l }
{}

/// Each phase of a plan has writes, and each of these is of a higher sector than the one before it.
pub fn plan_ascends()
    ensures { (b : ℕ) (d : Sectors) (p : Layout) (phases : List Writes) (primary : Choice) → IsSectorSize b → IsPlanBy primary b d p phases
        → All IsPhase phases }
{}

/// After a commit that is done, of words or of a layout, each sector that no write of its plan is of reads as before. So what was
/// pending there isn't lost.
pub fn commit_leaves_the_rest()
    ensures { (primary : Choice) (b n : ℕ) (change : Change) (old new : Told) → CommitsChange primary b n change (Ok tt) old new
        → (phases : List Writes) × IsReadyChange primary b n change old.seen phases
        × ((s : ℕ) → IsUnwritten phases s → sector new.seen s ≡ sector old.seen s) }
{}

/// Each sector in no table of the layouts before and after it reads as before, each that a partition of either owns, and the boot
/// code.
pub fn commit_keeps_what_must_stay()
    ensures { (primary : Choice) (b n : ℕ) (change : Change) (old new : Told) → CommitsChange primary b n change (Ok tt) old new
        → (o : Option Layout) × (l : Layout) × Denotes b old.seen o × Denotes b new.seen (Some l)
        × StaysAs (Denotes b) (Healthy b) (TableOf b) (OwnedOf b) o (Some l) old.seen new.seen }
{}

/// The same of a repair that is done.
pub fn repair_leaves_the_rest()
    ensures { (primary : Choice) (b n : ℕ) (old new : Told) → Repairs primary b n (Ok tt) old new
        → (phases : List Writes) × IsReadyToMend primary b old.seen phases
        × ((s : ℕ) → IsUnwritten phases s → sector new.seen s ≡ sector old.seen s) }
{}

/// And its one layout.
pub fn repair_keeps_what_must_stay()
    ensures { (primary : Choice) (b n : ℕ) (old new : Told) → Repairs primary b n (Ok tt) old new
        → (l : Layout) × Denotes b old.seen (Some l) × Denotes b new.seen (Some l)
        × StaysAs (Denotes b) (Healthy b) (TableOf b) (OwnedOf b) (Some l) (Some l) old.seen new.seen }
{}

/// The primary stays whole: where a reader of the primary copy alone finds the table that the disk denotes, it finds on each disk
/// that a stop of a plan with the primary copy kept may leave the old table before the switch, the new one after it, and one of the
/// two in it.
pub fn primary_stays_whole()
    ensures { (b : ℕ) (d : Sectors) (o p : Layout) (old new : Table) (phases : List Writes) (switch : ℕ) → IsSectorSize b
        → Denotes b d (Some o) → o.body ≡ Gpt old → FollowsPrimary b d old → p.body ≡ Gpt new → IsKept b d p phases
        → Answers b d phases (Yes switch)
        → (i : ℕ) → i ≤ length phases → (c : Sectors) → StoppedIn phases d i c
        → Switches (Finds b c) (Some old) (Some new) switch (i + 1) }
{}

/// Where the primary copy exists such a reader finds its table.
pub fn primary_copy_is_followed()
    ensures { (b : ℕ) (d : Sectors) (t : Table) → Copy b d Primary t → FollowsPrimary b d t }
{}

/// It finds one table at most.
pub fn followed_is_one()
    ensures { (b : ℕ) (d : Sectors) (t u : Table) → FollowsPrimary b d t → FollowsPrimary b d u → t ≡ u }
{}
