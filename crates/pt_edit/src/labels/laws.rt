//! What holds of the words with a letter. The function does nothing: its contract is the law.

ghost use Rattle.std.specs.Prelude.{◌≡◌, ◌≢◌, ◌≤◌, ℕ, Some};
ghost use Rattle.pt_bsd.specs.declared.label.Label.{Label};
ghost use Rattle.pt_members.specs.declared.member.Member.{Member};
ghost use Rattle.pt_members.specs.Members.{part_of};
ghost use Rattle.pt_edit.specs.declared.space.Run.{Run};
ghost use Rattle.pt_edit.specs.SliceLabels.{raw, len_of, new_entry, offset_in, placed_part, with_part};

/// The entry that `new_part` makes is a partition of its label, in the sectors where it was placed.
#[tactic(auto, using(crate::proofs::LabelSteps::new_stands))]
pub fn part_new_stands()
    ensures { (l : Label) (slice : Member) (letter kind offset : ℕ) (run : Run) → letter ≢ raw → run.first ≤ run.last
        → offset_in l slice run ≡ Some offset
        → part_of (with_part l letter (new_entry (len_of run) offset kind)) slice letter (Some (new_entry (len_of run) offset kind))
        ≡ Some (placed_part slice letter run) }
{}
