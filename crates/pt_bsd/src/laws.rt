//! What holds of labels whatever the bytes are.

ghost use Rattle.std.specs.Prelude.{◌≡◌, ◌≢◌, ◌<◌, ℕ, List};
ghost use Rattle.pt_bsd.specs.Labels.{LabelBytes, HasLabel, IsLabelFault, counted_in, count_of, IsCounted, FitsSlice, with_entry};
ghost use Rattle.pt_bsd.specs.Labels.{empty_of, form_of, HasForm};
ghost use Rattle.pt_bsd.specs.declared.label.LabelEntry.{LabelEntry};
ghost use Rattle.pt_bsd.specs.declared.label.Label.{Label};
ghost use Rattle.pt_bsd.specs.declared.label.LabelError.{LabelError};

/// Bytes are one label at most, whatever the slice.
pub fn label_is_one()
    ensures { (l m : Label) (first len start count : ℕ) (bytes : List ℕ)
        → LabelBytes l first len bytes → LabelBytes m start count bytes → l ≡ m }
{}

/// Bytes that break a rule of labels are no label.
pub fn fault_is_no_label()
    ensures { (e : LabelError) (first len : ℕ) (bytes : List ℕ)
        → IsLabelFault e first len bytes → ¬ HasLabel first len bytes }
{}

/// Bytes break one rule of labels first, and no other.
pub fn label_fault_is_one()
    ensures { (e f : LabelError) (first len : ℕ) (bytes : List ℕ)
        → IsLabelFault e first len bytes → IsLabelFault f first len bytes → e ≡ f }
{}

/// A label that was read can be written again: it has as many entries as its bytes count, and its entry c fits the
/// slice.
pub fn read_label_fits()
    ensures { (l : Label) (first len : ℕ) (bytes : List ℕ) → LabelBytes l first len bytes
        → (count_of l.entries ≡ counted_in bytes) × IsCounted l × FitsSlice l first len }
{}

/// The empty label can be written in each slice of its length.
pub fn empty_label_fits()
    ensures { (n first : ℕ) → IsCounted (empty_of n) × FitsSlice (empty_of n) first n }
{}

/// A label with another entry in a counted place other than c's can be written where the label could, and keeps its
/// form.
pub fn changed_label_fits()
    ensures { (l : Label) (k first len : ℕ) (e : LabelEntry)
        → IsCounted l → k < count_of l.entries → k ≢ 2 → FitsSlice l first len
        → IsCounted (with_entry l k e) × FitsSlice (with_entry l k e) first len
        × (form_of (with_entry l k e) ≡ form_of l) }
{}

/// A label that fits a slice is of one form, and in either its entry c starts at the slice's first sector.
pub fn fitting_label_has_form()
    ensures { (l : Label) (first len : ℕ) → FitsSlice l first len → HasForm l first }
{}
