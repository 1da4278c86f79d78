//! What holds of the meaning of disks, whatever they hold.

ghost use Rattle.std.specs.Prelude.{◌≡◌, ◌⊎◌, ℕ, List, Option, None, Some};
ghost use Rattle.pt_sector.specs.Sectors.{Sectors, Agrees, Writes, Stopped};
ghost use Rattle.pt_recover.specs.Denotes.{Denotes, Reads, SameMeaning, LeavesReads, IsReason};
ghost use Rattle.pt_recover.specs.declared.error.NoTable.{NoTable};
ghost use Rattle.pt_recover.specs.FromSides.{SideGives};
ghost use Rattle.pt_gpt.specs.declared.table.Side.{Side};
ghost use Rattle.pt_gpt.specs.declared.table.Side.TheVariants.{Primary, Backup};
ghost use Rattle.pt_gpt.specs.declared.table.Table.{Table};
ghost use Rattle.pt_members.specs.declared.layout.Body.TheVariants.{Gpt};
ghost use Rattle.pt_members.specs.declared.layout.Layout.{Layout};

/// The sectors that recovery reads decide what a disk denotes: who agrees with it on them denotes the same, by the
/// same sectors.
pub fn reads_decide()
    ensures { (b : ℕ) (c d : Sectors) → Agrees (Reads b d) c d → SameMeaning b c d }
{}

/// A disk denotes one layout at most, and none where it denotes nothing.
pub fn denotes_one()
    ensures { (b : ℕ) (d : Sectors) (o p : Option Layout) → Denotes b d o → Denotes b d p → o ≡ p }
{}

/// A stop within writes to sectors that recovery doesn't read leaves a disk of the same meaning.
pub fn stop_keeps()
    ensures { (b : ℕ) (d c : Sectors) (phase : Writes) → LeavesReads b d phase → Stopped d phase c → SameMeaning b c d }
{}

/// A disk has one reason at most to denote nothing.
#[tactic(auto, using(crate::proofs::Terms::reason_is_one_lem))]
pub fn reason_is_one()
    ensures { (b : ℕ) (d : Sectors) (e f : NoTable) → IsReason b d e → IsReason b d f → e ≡ f }
{}

/// A disk with a reason to denote nothing denotes nothing.
#[tactic(auto, using(crate::proofs::Terms::reason_is_nothing_lem))]
pub fn reason_is_nothing()
    ensures { (b : ℕ) (d : Sectors) (e : NoTable) → IsReason b d e → Denotes b d None }
{}

/// One side's copy gives one layout at most.
pub fn side_gives_one()
    ensures { (b : ℕ) (d : Sectors) (side : Side) (o p : Layout) → SideGives b d side o → SideGives b d side p → o ≡ p }
{}

/// What a disk with a GPT denotes, one of its two sides gives alone.
pub fn a_side_gives()
    ensures { (b : ℕ) (d : Sectors) (o : Layout) (t : Table) → Denotes b d (Some o) → o.body ≡ Gpt t
        → SideGives b d Primary o ⊎ SideGives b d Backup o }
{}
