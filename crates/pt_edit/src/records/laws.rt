//! What holds of edits of an MBR, whatever they are of.

ghost use Rattle.std.specs.Prelude.{◌≡◌, ℕ, Option, List, ◌-◌, Some, Ok};
ghost use Rattle.pt_members.specs.declared.layout.Layout.{Layout};
ghost use Rattle.pt_words.specs.declared.asked.Asked.{Asked};
ghost use Rattle.pt_words.specs.declared.word.Code.{Code};
ghost use Rattle.pt_edit.specs.declared.space.Run.{Run};
ghost use Rattle.pt_edit.specs.Space.{placed};
ghost use Rattle.pt_edit.specs.MbrEdits.{record_new};
ghost use Rattle.pt_edit.specs.Chains.{LieApart, RecordsLieApart, logical_typed, logical_deleted, logical_new, logicals_of, IsLinked};
ghost use Rattle.pt_edit.specs.Chains.{len_of, record_for, labels_with, logical_area};
ghost use Rattle.pt_mbr.specs.declared.record.Record.{Record};
ghost use Rattle.pt_mbr.specs.declared.ebr.Ebr.{Ebr};
ghost use Rattle.std.specs.List.{insert, remove};
ghost use Rattle.pt_sector.specs.Sectors.{Sectors, Span};
ghost use Rattle.pt_sector.specs.declared.address.Lba.{Lba};
ghost use Rattle.pt_mbr.specs.Chain.{lba, Chain};
ghost use Rattle.pt_members.specs.declared.layout.Labelled.{Labelled};

/// Where no sector is in two records, none is sector 0 and all are on the disk, so it is after `n`.
#[tactic(auto, using(crate::proofs::Apart::new_apart_lem))]
pub fn new_stays_apart()
    ensures { (b : ℕ) (a : Asked) (records : List (Option Record)) (chain : List Ebr) (o p : Layout)
        → record_new b a records chain o ≡ Ok p → LieApart o.sectors records → RecordsLieApart p }
{}

/// The chain of a disk is linked upward from the extended partition's first sector.
pub fn chain_is_linked()
    ensures { (d : Sectors) (x : Span) (list : List Ebr) → Chain d x list → IsLinked (Some (lba x.first)) list }
{}

/// A linked chain stays one with another type of a logical partition.
pub fn logical_typed_is_linked()
    ensures { (b number : ℕ) (code : Code) (chain made : List Ebr) (from : Option Lba) → logical_typed b number code chain ≡ Ok made
        → IsLinked from chain → IsLinked from made }
{}

/// It stays one without a logical partition.
pub fn logical_deleted_is_linked()
    ensures { (number : ℕ) (chain : List Ebr) (labels : List Labelled) (made : List Ebr) (left : List Labelled) (from : Option Lba)
        → logical_deleted number chain labels ≡ Ok (made, left) → IsLinked from chain → IsLinked from made }
{}

/// And it stays one with a new logical partition, also where that takes an extended boot record more.
pub fn logical_new_is_linked()
    ensures { (b : ℕ) (x : Record) (chain : List Ebr) (labels : List Labelled) (a : Asked) (made : List Ebr) (left : List Labelled)
        → logical_new b (Some x) chain labels a ≡ Ok (made, left)
        → IsLinked (Some (lba x.start)) chain → IsLinked (Some (lba x.start)) made }
{}

/// A new logical partition comes between those of lower and of higher numbers, at its number, which counts from 5. Its record stands in
/// the sector before those where it is placed, and the labels move by its number.
pub fn logical_new_is_numbered()
    ensures { (b : ℕ) (x : Record) (chain : List Ebr) (labels : List Labelled) (a : Asked) (made : List Ebr) (left : List Labelled)
        → logical_new b (Some x) chain labels a ≡ Ok (made, left)
        → (kind number : ℕ) × (run : Run) × (placed (logical_area x chain) a.alignment a.start a.end ≡ Ok run)
        × (logicals_of made ≡ insert (logicals_of chain) (number - 5)
        (record { at = run.first - 1; partition = record_for kind (len_of run) }))
        × (left ≡ labels_with b kind (len_of run) number labels) }
{}

/// One that goes leaves the others in their order.
pub fn logical_deleted_is_numbered()
    ensures { (number : ℕ) (chain : List Ebr) (labels : List Labelled) (made : List Ebr) (left : List Labelled)
        → logical_deleted number chain labels ≡ Ok (made, left) → logicals_of made ≡ remove (logicals_of chain) (number - 5) }
{}
