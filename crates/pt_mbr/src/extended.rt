//! The extended ones of four records.

ghost use Rattle.std.specs.Prelude.{◌≡◌, ◌<◌, ◌+◌, ◌++◌, drop, option_to_list};
ghost use Rattle.pt_mbr.specs.Records.{extended_of, ExtendedIs};

use crate::record::{Record, is_extended_kind};

/// What the records of sector 0 have of extended ones.
#[derive(Clone, Copy)]
pub enum Extended {
    Nothing,
    /// The only one.
    One(Record),
    /// The first of two or more.
    More(Record),
}

// The record at a place, where it is extended.
#[tactic(auto, using(crate::proofs::Lone::none_here, crate::proofs::Lone::other_here, crate::proofs::Lone::one_here))]
fn extended_at(records: &[Option<Record>; 4], k: usize) -> Option<Record>
    requires { k < 4 }
    ensures { extended_of (drop k records.now) ≡ option_to_list result ++ extended_of (drop (k + 1) records.now) }
{
    let record = records[k];
    match record {
        Some(r) => {
            if is_extended_kind(r.kind) {
                Some(r)
            } else {
                None
            }
        }
        None => None,
    }
}

/// Which of the records of sector 0 are an extended partition's.
pub fn extended_of(records: &[Option<Record>; 4]) -> Extended
    ensures { ExtendedIs (extended_of records.now) result }
{
    let mut found = None;
    for k in 0..4usize {
        if let Some(r) = extended_at(records, k) {
            if let Some(first) = found {
                return Extended::More(first);
            }
            found = Some(r);
        }
    }
    match found {
        Some(r) => Extended::One(r),
        None => Extended::Nothing,
    }
}
