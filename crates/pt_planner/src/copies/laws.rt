//! Laws of the phases that write both copies. The functions do nothing: their contracts are the laws.

ghost use Rattle.std.specs.Prelude.{◌≡◌, ◌+◌, ◌*◌, ◌<◌, ◌≤◌, ◌⊎◌, ◌++◌, ℕ, List, Option, Some};
ghost use Rattle.pt_sector.specs.Sectors.{Writes, Puts};
ghost use Rattle.pt_mbr.specs.Records.{IsProtective};
ghost use Rattle.pt_gpt.specs.Copies.{HasRoom};
ghost use Rattle.pt_gpt.specs.declared.table.Table.{Table};
ghost use Rattle.pt_apply.specs.Plans.{writes_in};
ghost use Rattle.pt_cases.specs.Writes.{closing, Protects};
ghost use Rattle.pt_cases.specs.Cases.{labels_and_backup, primary_and_labels, copies_and_labels, backup_first_phases};
ghost use Rattle.pt_cases.specs.Cases.{primary_first_phases, from_mbr_phases};
ghost use Rattle.pt_planner.specs.Phases.{Reaches, last_of};

/// Each write before the switch is of a copy or of a label.
pub fn first_writes_are_reached()
    ensures backup_first { (b n : ℕ) (t : Table) (backup : List ℕ) (labels : Writes) (s : ℕ) (v : List ℕ) → HasRoom b n
        → Puts (labels_and_backup b n t backup labels) s v → Reaches b n labels s v }
    ensures primary_first { (b n : ℕ) (t : Table) (labels : Writes) (s : ℕ) (v : List ℕ)
        → Puts (closing b ++ primary_and_labels b n t labels) s v → Reaches b n labels s v }
    ensures from_mbr { (b n : ℕ) (t : Table) (primary backup : List ℕ) (labels : Writes) (s : ℕ) (v : List ℕ)
        → HasRoom b n → Puts (copies_and_labels b n t primary backup labels) s v → Reaches b n labels s v }
{}

/// Each write is of a copy or of a label, but for those of the last phase.
pub fn all_writes_are_reached()
    ensures backup_first { (b n : ℕ) (t : Table) (primary backup : List ℕ) (labels : Writes) (last : List Writes) (s : ℕ) (v : List ℕ)
        → HasRoom b n → Puts (writes_in (backup_first_phases b n t primary backup labels last)) s v
        → Puts (writes_in last) s v ⊎ Reaches b n labels s v }
    ensures primary_first { (b n : ℕ) (t : Table) (primary backup : List ℕ) (labels : Writes) (last : List Writes) (s : ℕ)
        (v : List ℕ) → HasRoom b n → Puts (writes_in (primary_first_phases b n t primary backup labels last)) s v
        → Puts (writes_in last) s v ⊎ Reaches b n labels s v }
    ensures from_mbr { (b n : ℕ) (t : Table) (primary backup : List ℕ) (labels : Writes) (head : List ℕ) (s : ℕ) (v : List ℕ)
        → HasRoom b n → Puts (writes_in (from_mbr_phases b n t primary backup labels head)) s v
        → ((s ≡ 0) × (v ≡ head)) ⊎ Reaches b n labels s v }
{}

/// The last phase is of sector 0, and it is there only where that isn't protective yet.
pub fn last_writes_are_of_the_head()
    ensures one { (last : Option (List ℕ)) (s : ℕ) (v : List ℕ) → Puts (writes_in (last_of last)) s v → (s ≡ 0) × (last ≡ Some v) }
    ensures not_yet { (n : ℕ) (old : List ℕ) (last : List Writes) (s : ℕ) (v : List ℕ) → Protects n old last
        → Puts (writes_in last) s v → (s ≡ 0) × (¬ IsProtective n old) }
{}
