//! What holds of words and of `g`, whatever the layout is.

ghost use Rattle.std.specs.Prelude.{◌≡◌, ℕ, List, Option, Err, filter, map};
ghost use Rattle.pt_guid.specs.declared.guid.Guid.{Guid};
ghost use Rattle.pt_members.specs.declared.layout.Layout.{Layout};
ghost use Rattle.pt_edit.specs.Edited.{Edited};
ghost use Rattle.pt_words.specs.declared.word.Edit.{Edit};
ghost use Rattle.pt_words.specs.declared.error.Refusal.TheVariants.{Memory};
ghost use Rattle.pt_mbr.specs.declared.record.Record.{Record};
ghost use Rattle.pt_mbr.specs.declared.ebr.Ebr.{Ebr};
ghost use Rattle.pt_members.specs.declared.layout.Body.TheVariants.{Mbr};
ghost use Rattle.pt_members.specs.Members.{present, slots};
ghost use Rattle.pt_edit.specs.Entries.{partitions, is_kept, member_of};

/// No words are refused for lack of memory: that refusal is the program's alone.
#[tactic(auto, using(crate::proofs::NoMemory::memory_is_no_answer_lem))]
pub fn memory_is_no_answer()
    ensures { (b n : ℕ) (old : Option Layout) (words : List Edit) (guids : List Guid) → ¬ Edited b n old words guids (Err Memory) }
{}

/// The partitions that are kept are the records and logical partitions of the layout, in order, but for the extended one.
#[tactic(auto, using(crate::proofs::Kept::kept_lem))]
pub fn partitions_kept()
    ensures { (b : ℕ) (records : List (Option Record)) (chain : List Ebr)
        → filter is_kept (present (slots b (Mbr records chain))) ≡ map (member_of b) (partitions (Mbr records chain)) }
{}
