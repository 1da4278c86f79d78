//! The label of a new slice.

ghost use Rattle.std.specs.Prelude.{◌≡◌};
ghost use Rattle.pt_bsd.specs.Labels.{entry_of_size, empty_of};

use crate::label::{Label, LabelEntry};

fn entry_of(size: u32) -> LabelEntry
    ensures { result ≡ entry_of_size size }
{
    LabelEntry {
        size,
        offset: 0,
        fragment: 0,
        fstype: 0,
        frag: 0,
        cpg: 0,
    }
}

/// The label of a slice of `slice_len` sectors without partitions: eight entries in the relative form, of which c
/// alone isn't empty.
pub fn empty_label(slice_len: u32) -> Label
    ensures { result ≡ empty_of slice_len }
{
    let mut entries = [Some(entry_of(0)); 8];
    entries[2] = Some(entry_of(slice_len));
    Label {
        kind: 0,
        subtype: 0,
        type_name: [0; 16],
        pack_name: [0; 16],
        geometry: [0; 4],
        unit: slice_len,
        kept: [0; 68],
        bbsize: 8192,
        sbsize: 0,
        entries,
    }
}
