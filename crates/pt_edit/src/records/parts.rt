//! The layout of an MBR in its parts.

ghost use Rattle.std.specs.Prelude.{◌≡◌, true, IfSome};
ghost use Rattle.pt_edit.specs.Records.{layout_with, whole_of, is_primary, used_record, with_record};

use pt_mbr::Record;
use pt_members::{Body, Ebrs, Labels, Layout};

/// What the layout of an MBR has.
#[derive(Drop)]
pub struct MbrParts {
    /// The number of the disk's sectors.
    pub sectors: u64,
    /// The records of sector 0, an unused one being none.
    pub records: [Option<Record>; 4],
    /// The chain of the extended partition.
    pub chain: Ebrs,
    /// The labels of the slices.
    pub labels: Labels,
}

impl MbrParts {
    /// The layout of the parts.
    pub fn whole(self) -> Layout
        ensures { result ≡ whole_of self }
    {
        let MbrParts {
            sectors,
            records,
            chain,
            labels,
        } = self;
        layout_of(sectors, records, chain, labels)
    }
}

// The layout of an MBR.
pub(crate) fn layout_of(
    sectors: u64,
    records: [Option<Record>; 4],
    chain: Ebrs,
    labels: Labels,
) -> Layout
    ensures { result ≡ layout_with sectors records chain labels }
{
    Layout {
        sectors,
        body: Body::Mbr { records, chain },
        labels,
    }
}

// Whether a number is a record's.
pub(crate) fn is_primary(number: u64) -> bool
    ensures { result ≡ is_primary number }
{
    1 <= number && number <= 4
}

// The used record of a number.
pub(crate) fn used_record(records: &[Option<Record>; 4], number: u64) -> Option<Record>
    ensures value { result ≡ used_record records.now number }
    ensures primary { IfSome result (λ _. is_primary number ≡ true) }
{
    if !is_primary(number) {
        return None;
    }
    records[number as usize - 1]
}

// The records with another thing at a number.
pub(crate) fn put_record(
    mut records: [Option<Record>; 4],
    number: u64,
    new: Option<Record>,
) -> [Option<Record>; 4]
    requires { is_primary number ≡ true }
    ensures { result ≡ with_record records number new }
{
    records[number as usize - 1] = new;
    records
}
