//! The type bytes of records.

ghost use Rattle.std.specs.Prelude.{◌≡◌};
ghost use Rattle.pt_edit.specs.Records.{record_type, new_type, is_slice, is_container};

use pt_mbr::{PROTECTIVE, SLICE_KIND, is_extended_kind};
use pt_words::Code;

/// The type of a new record without a code.
const LINUX: u8 = 0x83;

/// The type byte that a code gives a record: two digits, and neither 00 nor EE.
pub fn record_type_of(code: &Code) -> Option<u8>
    ensures { result ≡ record_type code.now }
{
    match code {
        Code::Two(kind) => {
            if *kind == 0 || *kind == PROTECTIVE {
                None
            } else {
                Some(*kind)
            }
        }
        Code::Four(_) => None,
    }
}

/// The type byte of a new record: 83 where no code is given.
pub fn new_type_of(code: &Option<Code>) -> Option<u8>
    ensures { result ≡ new_type code.now }
{
    match code {
        None => Some(LINUX),
        Some(code) => record_type_of(code),
    }
}

/// Whether a type is the slices', with sectors of `B` bytes.
pub fn is_slice_kind<const B: usize>(kind: u8) -> bool
    ensures { result ≡ is_slice B kind }
{
    B == 512 && kind == SLICE_KIND
}

/// Whether a type is that of records which hold other partitions: 05, 0F, and with sectors of 512 bytes A5.
#[tactic(auto, using(crate::proofs::TypesLemmas::told_extended))]
pub fn is_container_type<const B: usize>(kind: u8) -> bool
    ensures { result ≡ is_container B kind }
{
    is_extended_kind(kind) || is_slice_kind::<B>(kind)
}
