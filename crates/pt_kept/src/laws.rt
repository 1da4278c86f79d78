//! What holds of every layout that words make.

ghost use Rattle.std.specs.Prelude.{◌*◌, ◌<◌, ◌≤◌, ◌^◌, ℕ, List, Option, Ok, IfSome, length, ◌≡◌};
ghost use Rattle.pt_guid.specs.declared.guid.Guid.{Guid};
ghost use Rattle.pt_sector.specs.Sectors.{Sectors, IsSectorSize, Writes};
ghost use Rattle.pt_recover.specs.Denotes.{Denotes, Numbers};
ghost use Rattle.pt_members.specs.declared.layout.Layout.{Layout};
ghost use Rattle.pt_words.specs.declared.word.Edit.{Edit};
ghost use Rattle.pt_edit.specs.Edited.{Edited};
ghost use Rattle.pt_cases.specs.Keeps.{Keeps};
ghost use Rattle.pt_kept.specs.Old.{MayBe};
ghost use Rattle.pt_cases.specs.Cases.{IsPlan};
ghost use Rattle.pt_cases.specs.Unplanned.{IsFailure, Unplanned};
ghost use Rattle.pt_cases.specs.declared.targets.error.PlanError.{PlanError};

/// What words make of a layout that a disk may denote, or of nothing, keeps of it what `Keeps` says.
pub fn edit_keeps()
    ensures { (b n : ℕ) (old : Option Layout) (words : List Edit) (guids : List Guid) (p : Layout) → n < 2 ^ 63 → MayBe b n old
        → Edited b n old words guids (Ok p) → Keeps b n old p }
{}

/// The same of what recovery gave, with no premise but what its contract and the disk's own law say: the disk has at most
/// 2^64 bytes and denotes the layout, whose records' numbers have 32 bits.
pub fn edit_of_disk_keeps()
    ensures { (b : ℕ) (d : Sectors) (old : Option Layout) (words : List Edit) (guids : List Guid) (p : Layout) → IsSectorSize b
        → length d * b ≤ 2 ^ 64
        → Denotes b d old → IfSome old Numbers → Edited b (length d) old words guids (Ok p) → Keeps b (length d) old p }
{}

/// What words make of the layout that a disk denotes, or of nothing, has a plan or an error and not both, and two errors
/// are one, but for failures of the device and of memory. The premises are what recovery and the disk's own law say: the
/// disk has at most 2^64 bytes and denotes the layout, whose records' numbers have 32 bits.
pub fn words_have_one_answer()
    ensures planned { (b : ℕ) (d : Sectors) (old : Option Layout) (words : List Edit) (guids : List Guid) (p : Layout)
        (phases : List Writes) (e : PlanError) → IsSectorSize b → length d * b ≤ 2 ^ 64 → Denotes b d old → IfSome old Numbers
        → Edited b (length d) old words guids (Ok p) → IsPlan b d p phases → Unplanned b d p e → IsFailure e }
    ensures refused { (b : ℕ) (d : Sectors) (old : Option Layout) (words : List Edit) (guids : List Guid) (p : Layout)
        (e f : PlanError) → IsSectorSize b → length d * b ≤ 2 ^ 64 → Denotes b d old → IfSome old Numbers
        → Edited b (length d) old words guids (Ok p) → Unplanned b d p e → Unplanned b d p f → ¬ IsFailure e → ¬ IsFailure f → e ≡ f }
{}
