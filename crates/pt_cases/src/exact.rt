//! Which of the planner's errors can be reported: of the layout that a disk denotes, and of one that words make of it. The
//! functions do nothing: their contracts are the laws.

ghost use Rattle.std.specs.Prelude.{◌≡◌, ◌⊎◌, ℕ, List, Option, Some, length};
ghost use Rattle.pt_sector.specs.Sectors.{Sectors, IsSectorSize, Writes};
ghost use Rattle.pt_mbr.specs.declared.ebr.Ebr.{Ebr};
ghost use Rattle.pt_mbr.specs.declared.record.Record.{Record};
ghost use Rattle.pt_gpt.specs.declared.table.Table.{Table};
ghost use Rattle.pt_recover.specs.Denotes.{Denotes};
ghost use Rattle.pt_members.specs.declared.layout.Body.TheVariants.{Mbr, Gpt};
ghost use Rattle.pt_members.specs.declared.layout.Layout.{Layout};
ghost use Rattle.pt_layout.specs.Sound.{Sound};
ghost use Rattle.pt_layout.specs.declared.sound.finding.Finding.{Finding};
ghost use Rattle.pt_cases.specs.Keeps.{Keeps};
ghost use Rattle.pt_cases.specs.Kept.{IsKept, IsPlanBy};
ghost use Rattle.pt_cases.specs.NewMbr.{UnplannedBy};
ghost use Rattle.pt_cases.specs.declared.primary.Primary.TheVariants.{Kept};
ghost use Rattle.pt_cases.specs.Cases.{ChangesLabels, IsPlan, MayBePlanned, HadMbr};
ghost use Rattle.pt_cases.specs.Unplanned.{WritesBoth, SharesSector, IsReused, IsFailure, LabelsFit, HasUnreadable, HasUnmade};
ghost use Rattle.pt_cases.specs.Unplanned.{IsUnmendable, IsUnmendableBy, NoSwitch, Unplanned};
ghost use Rattle.pt_cases.specs.declared.targets.error.PlanError.{PlanError};
ghost use Rattle.pt_cases.specs.declared.targets.error.PlanError.TheVariants.{NeedsRepair, NotOneSwitch, ReusedInOneBatch, Unsound};

/// Where a disk's own layout has no plan, the cause is a finding that writing both copies anew can't mend, or a failure
/// of the device or of memory.
pub fn repair_is_planned()
    ensures { (b : ℕ) (d : Sectors) (o : Layout) (e : PlanError) → IsSectorSize b → Denotes b d (Some o)
        → Unplanned b d o e → IsUnmendableBy b d o e }
{}

/// And where it has a plan, no such finding is there.
pub fn mendable_by_plan()
    ensures { (b : ℕ) (d : Sectors) (o : Layout) (phases : List Writes) (f : Finding) → IsSectorSize b → Denotes b d (Some o)
        → IsPlan b d o phases → ¬ IsUnmendable b d o f }
{}

/// A layout that has a plan is sound, and no foreign label would remain.
pub fn planned_is_sound()
    ensures { (b : ℕ) (d : Sectors) (p : Layout) (phases : List Writes) (f : Finding) → IsPlan b d p phases
        → ¬ Unplanned b d p (Unsound f) }
{}

/// No repair has to come before its plan.
pub fn planned_needs_no_repair()
    ensures { (b : ℕ) (d : Sectors) (p : Layout) (phases : List Writes) → IsPlan b d p phases → ¬ Unplanned b d p NeedsRepair }
{}

/// It may be of its disk, its labels go with its slices, and each label would be read back from some bytes of its place.
pub fn planned_fits_its_disk()
    ensures body { (b : ℕ) (d : Sectors) (o : Option Layout) (p : Layout) (phases : List Writes) → Denotes b d o
        → IsPlan b d p phases → MayBePlanned b d o p }
    ensures labels { (b : ℕ) (d : Sectors) (o : Option Layout) (p : Layout) (phases : List Writes) → Denotes b d o
        → IsPlan b d p phases → LabelsFit b p }
    ensures readable { (b : ℕ) (d : Sectors) (o : Option Layout) (p : Layout) (phases : List Writes) → Denotes b d o
        → IsPlan b d p phases → ¬ HasUnreadable b d o p }
{}

/// A plan that writes both copies has one switch: nothing speaks against it.
pub fn both_copies_come_with_one_switch()
    ensures { (b : ℕ) (d : Sectors) (o : Option Layout) (p : Layout) (phases : List Writes) → Denotes b d o → IsPlan b d p phases
        → WritesBoth o p → ¬ Unplanned b d p NotOneSwitch }
{}

/// And no sector that would be written is owned.
pub fn both_copies_take_free_sectors()
    ensures { (b : ℕ) (d : Sectors) (o : Option Layout) (p : Layout) (phases : List Writes) → Denotes b d o → IsPlan b d p phases
        → WritesBoth o p → ¬ Unplanned b d p ReusedInOneBatch }
{}

/// A plan of a GPT whose labels alone change has one switch, and no sector that would be written is owned.
pub fn label_change_is_planned()
    ensures one_switch { (b : ℕ) (d : Sectors) (o : Option Layout) (p : Layout) (t : Table) (phases : List Writes) → Denotes b d o
        → IsPlan b d p phases → ChangesLabels o p → p.body ≡ Gpt t → ¬ Unplanned b d p NotOneSwitch }
    ensures free { (b : ℕ) (d : Sectors) (o : Option Layout) (p : Layout) (t : Table) (phases : List Writes) → Denotes b d o
        → IsPlan b d p phases → ChangesLabels o p → p.body ≡ Gpt t → ¬ Unplanned b d p ReusedInOneBatch }
{}

/// A layout that words make of what a disk denotes, or of nothing, meets none of the causes that only a caller's layout
/// can have. Where it is sound, the disk may have it; each label has its place; each sector that it needs would be read
/// back as it is written; and no two of them are one. So is the disk's own.
pub fn edits_fit_their_disk()
    ensures body { (b : ℕ) (d : Sectors) (o : Option Layout) (p : Layout) → IsSectorSize b → Denotes b d o
        → Keeps b (length d) o p → Sound b p → MayBePlanned b d o p }
    ensures labels { (b : ℕ) (d : Sectors) (o : Option Layout) (p : Layout) → IsSectorSize b → Denotes b d o
        → Keeps b (length d) o p → Sound b p → LabelsFit b p }
    ensures readable { (b : ℕ) (d : Sectors) (o : Option Layout) (p : Layout) → IsSectorSize b → Denotes b d o
        → Keeps b (length d) o p → Sound b p → ¬ HasUnreadable b d o p }
    ensures made { (b : ℕ) (d : Sectors) (o : Option Layout) (p : Layout) (records : List (Option Record)) (chain : List Ebr)
        → IsSectorSize b → Denotes b d o → Keeps b (length d) o p → Sound b p → p.body ≡ Mbr records chain → (was : HadMbr o)
        → ¬ HasUnmade b d was.records was.chain records chain }
    ensures apart { (b : ℕ) (d : Sectors) (o : Option Layout) (p : Layout) → IsSectorSize b → Denotes b d o
        → Keeps b (length d) o p → Sound b p → ¬ SharesSector b d o p }
{}

/// Such a layout never has a plan and an error: where there is a plan, what the planner may report is a failure of the
/// device or of memory.
pub fn planned_has_no_error()
    ensures { (b : ℕ) (d : Sectors) (o : Option Layout) (p : Layout) (phases : List Writes) (e : PlanError) → IsSectorSize b
        → Denotes b d o → Keeps b (length d) o p → IsPlan b d p phases → Unplanned b d p e → IsFailure e }
{}

/// Of several causes the first is reported: an unsound layout or a foreign label, then a sector in use, then that there isn't
/// one switch, and then that a repair has to come first.
pub fn errors_come_in_order()
    ensures unsound { (b : ℕ) (d : Sectors) (o : Option Layout) (p : Layout) (f : Finding) (e : PlanError) → IsSectorSize b → Denotes b d o
        → Keeps b (length d) o p → Unplanned b d p (Unsound f) → Unplanned b d p e → ¬ IsFailure e → e ≡ Unsound f }
    ensures reused { (b : ℕ) (d : Sectors) (o : Option Layout) (p : Layout) → IsSectorSize b → Denotes b d o
        → Keeps b (length d) o p → Unplanned b d p NotOneSwitch ⊎ Unplanned b d p NeedsRepair → ¬ IsReused b d o p }
    ensures switch { (b : ℕ) (d : Sectors) (o : Option Layout) (p : Layout) → IsSectorSize b → Denotes b d o
        → Keeps b (length d) o p → Unplanned b d p NeedsRepair → ¬ NoSwitch b d o p }
{}

/// So two errors of such a layout are one, but for failures.
pub fn error_is_one()
    ensures { (b : ℕ) (d : Sectors) (o : Option Layout) (p : Layout) (e f : PlanError) → IsSectorSize b → Denotes b d o
        → Keeps b (length d) o p → Unplanned b d p e → Unplanned b d p f → ¬ IsFailure e → ¬ IsFailure f → e ≡ f }
{}

/// Words make no MBR where none was: with the primary copy kept they have the plans and the errors that they have without one.
pub fn edits_make_no_new_mbr()
    ensures planned { (b : ℕ) (d : Sectors) (o : Option Layout) (p : Layout) (phases : List Writes) → Denotes b d o
        → Keeps b (length d) o p → IsPlanBy Kept b d p phases → IsKept b d p phases }
    ensures refused { (b : ℕ) (d : Sectors) (o : Option Layout) (p : Layout) (e : PlanError) → Denotes b d o
        → Keeps b (length d) o p → UnplannedBy Kept b d p e → ¬ IsFailure e → Unplanned b d p e }
{}
