//! Laws of layouts and disks. Each function does nothing: its contract is the law.

ghost use Rattle.std.specs.Prelude.{◌≡◌, ℕ};
ghost use Rattle.pt_sector.specs.Sectors.{Sectors};
ghost use Rattle.pt_members.specs.declared.layout.Layout.{Layout};
ghost use Rattle.pt_layout.specs.declared.sound.finding.Finding.{Finding as FindingValue};
ghost use Rattle.pt_path.specs.declared.path.Path.{Path as PathValue};
ghost use Rattle.pt_members.specs.Tables.{IsPlaceOf, OwnerIs, HasFour, IsTable, Owns};
ghost use Rattle.pt_layout.specs.Sound.{Sound, IsUnsound};
ghost use Rattle.pt_layout.specs.Healthy.{IsHealthy, Healthy, IsFinding, VerdictIs, HasEight};
ghost use Rattle.pt_layout.specs.declared.sound.finding.Verdict.{Verdict as VerdictValue};
ghost use Rattle.pt_members.specs.declared.ownership.Owner.{Owner as OwnerValue};

/// In a sound layout no partition owns a sector of a table.
#[tactic(auto, using(crate::proofs::Terms::sound_frees_tables_lem))]
pub fn sound_frees_tables()
    ensures { (b : ℕ) (o : Layout) (s : ℕ) → Sound b o → Owns b o s → ¬ IsTable b o s }
{}

/// A finding of `unsound` excludes soundness.
#[tactic(auto, using(crate::proofs::Terms::unsound_excludes_lem))]
pub fn unsound_excludes()
    ensures { (b : ℕ) (o : Layout) (f : FindingValue) → IsUnsound b o f → ¬ Sound b o }
{}

/// A finding of `verify` excludes health.
#[tactic(auto, using(crate::proofs::Terms::finding_excludes_lem))]
pub fn finding_excludes()
    ensures { (b : ℕ) (d : Sectors) (f : FindingValue) → IsFinding b d f → ¬ Healthy b d }
{}

/// A disk is healthy with one layout at most.
#[tactic(auto, using(crate::proofs::Terms::healthy_is_one_lem))]
pub fn healthy_is_one()
    ensures { (b : ℕ) (d : Sectors) (o p : Layout) → IsHealthy b d o → IsHealthy b d p → o ≡ p }
{}

/// In a sound layout a sector is one partition's at most, and at one place in it.
#[tactic(auto, using(crate::proofs::Terms::place_is_one_lem))]
pub fn place_is_one()
    ensures { (b : ℕ) (o : Layout) (p q : PathValue) (j k s : ℕ) → Sound b o → IsPlaceOf b o p j s → IsPlaceOf b o q k s
        → (p ≡ q) × (j ≡ k) }
{}

/// Sector `k` of the partition of a path is one sector, in a layout of an MBR with four records or of a GPT.
#[tactic(auto, using(crate::proofs::Terms::sector_is_one_lem))]
pub fn sector_is_one()
    ensures { (b : ℕ) (o : Layout) (p : PathValue) (k s t : ℕ) → HasFour o.body → IsPlaceOf b o p k s → IsPlaceOf b o p k t → s ≡ t }
{}

/// A layout whose labels have places for eight entries, as those of disks have, has one first finding at most.
#[tactic(auto, using(crate::proofs::OneFindingLemmas::unsound_one))]
pub fn unsound_is_one()
    ensures { (b : ℕ) (o : Layout) (f g : FindingValue) → HasEight o.labels → IsUnsound b o f → IsUnsound b o g → f ≡ g }
{}

/// A disk has one first finding at most.
#[tactic(auto, using(crate::proofs::OneFindingLemmas::finding_one))]
pub fn finding_is_one()
    ensures { (b : ℕ) (d : Sectors) (f g : FindingValue) → IsFinding b d f → IsFinding b d g → f ≡ g }
{}

/// A disk has one verdict at most: it is healthy with one layout, or has one first finding.
#[tactic(auto, using(crate::proofs::OneFindingLemmas::verdict_one))]
pub fn verdict_is_one()
    ensures { (b : ℕ) (d : Sectors) (v w : VerdictValue) → VerdictIs b d v → VerdictIs b d w → v ≡ w }
{}

/// In a sound layout a sector has one owner at most.
#[tactic(auto, using(crate::proofs::OneOwner::owner_one))]
pub fn owner_is_one()
    ensures { (b : ℕ) (o : Layout) (s : ℕ) (x y : OwnerValue) → Sound b o → OwnerIs b o s x → OwnerIs b o s y → x ≡ y }
{}
