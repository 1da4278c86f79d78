//! The form of a label, and where its entries lie on the disk.

ghost use Rattle.std.specs.Prelude.{◌≡◌, ◌<◌, ◌^◌, ℕ, IfSome, IfNone};
ghost use Rattle.pt_bsd.specs.Labels.{entry_of, form_of, sector_by, entry_first_of};

use crate::label::{Label, LabelEntry, RAW};

/// What the offsets of a label's entries are counted from.
///
/// A label has its form by where entry c starts: at 0, or at its slice's first sector. Where a slice starts at
/// sector 0 both are the same, and the form is `Relative`.
#[derive(Clone, Copy)]
pub enum Form {
    /// From the slice's first sector.
    Relative,
    /// From the first sector of the disk.
    Absolute,
}

impl Form {
    /// The sector of the disk at an offset, in a slice that starts at `slice_first`.
    pub fn sector_at(self, slice_first: u128, offset: u32) -> u128
        requires { slice_first < 2 ^ 66 }
        ensures value { result ≡ sector_by self slice_first offset }
        ensures small { result < 2 ^ 67 }
    {
        match self {
            Form::Relative => slice_first + u128::from(offset),
            Form::Absolute => u128::from(offset),
        }
    }

    /// The offset that a label of a slice from `slice_first` on gives to a sector of the disk; none where it is
    /// below the slice's first sector in the relative form, or past 4294967295.
    pub fn offset_of(self, slice_first: u128, sector: u128) -> Option<u32>
        ensures some { IfSome result (λ offset. sector_by self slice_first offset ≡ sector) }
        ensures none { IfNone result ((offset : ℕ) → offset < 2 ^ 32 → ¬ (sector_by self slice_first offset ≡ sector)) }
    {
        let offset = match self {
            Form::Relative => sector.checked_sub(slice_first)?,
            Form::Absolute => sector,
        };
        u32::try_from(offset).ok()
    }
}

impl Label {
    /// The form of its offsets.
    pub fn form(&self) -> Form
        ensures { result ≡ form_of self.now }
    {
        match self.entries[RAW] {
            Some(raw) if raw.offset != 0 => Form::Absolute,
            _ => Form::Relative,
        }
    }

    /// The sector of the disk at which an entry of the label starts, `slice_first` being its slice's first sector.
    pub fn entry_first(&self, slice_first: u128, entry: &LabelEntry) -> u128
        requires { slice_first < 2 ^ 66 }
        ensures value { result ≡ entry_first_of self.now slice_first entry.now }
        ensures small { result < 2 ^ 67 }
    {
        self.form().sector_at(slice_first, entry.offset)
    }
}
