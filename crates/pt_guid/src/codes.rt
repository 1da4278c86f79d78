//! The type codes.

ghost use Rattle.std.specs.Prelude.{◌≡◌, ◌≢◌, ℕ, IfSome, IfNone, Some, None};
ghost use Rattle.pt_guid.specs.Codes.{type_of, type_of_record};

use crate::guid::Guid;

/// The codes with their types: what a disk stores of their GUIDs. Two types of one code, two codes of one type and the type
/// zero are refused by the proofs.
const TABLE: [(u16, Guid); 6] = [
    // EFI system
    (
        0xEF00,
        Guid([
            0x28, 0x73, 0x2A, 0xC1, 0x1F, 0xF8, 0xD2, 0x11, 0xBA, 0x4B, 0x00, 0xA0, 0xC9, 0x3E,
            0xC9, 0x3B,
        ]),
    ),
    // Linux filesystem
    (
        0x8300,
        Guid([
            0xAF, 0x3D, 0xC6, 0x0F, 0x83, 0x84, 0x72, 0x47, 0x8E, 0x79, 0x3D, 0x69, 0xD8, 0x47,
            0x7D, 0xE4,
        ]),
    ),
    // Linux swap
    (
        0x8200,
        Guid([
            0x6D, 0xFD, 0x57, 0x06, 0xAB, 0xA4, 0xC4, 0x43, 0x84, 0xE5, 0x09, 0x33, 0xC8, 0x4B,
            0x4F, 0x4F,
        ]),
    ),
    // Microsoft basic data
    (
        0x0700,
        Guid([
            0xA2, 0xA0, 0xD0, 0xEB, 0xE5, 0xB9, 0x33, 0x44, 0x87, 0xC0, 0x68, 0xB6, 0xB7, 0x26,
            0x99, 0xC7,
        ]),
    ),
    // FreeBSD, subdivided by a BSD label
    (
        0xA500,
        Guid([
            0xB4, 0x7C, 0x6E, 0x51, 0xCF, 0x6E, 0xD6, 0x11, 0x8F, 0xF8, 0x00, 0x02, 0x2D, 0x09,
            0x71, 0x2B,
        ]),
    ),
    // FreeBSD UFS
    (
        0xA503,
        Guid([
            0xB6, 0x7C, 0x6E, 0x51, 0xCF, 0x6E, 0xD6, 0x11, 0x8F, 0xF8, 0x00, 0x02, 0x2D, 0x09,
            0x71, 0x2B,
        ]),
    ),
];

/// The partition type that a code of four hexadecimal digits stands for. The codes, which docs/format.md lists, are this
/// project's choice, and there are no others.
pub fn type_of_code(code: u16) -> Option<Guid>
    ensures some { IfSome result (λ guid. type_of code ≡ Some guid.0) }
    ensures none { IfNone result (type_of code ≡ None) }
{
    for (known, guid) in &TABLE {
        if *known == code {
            return Some(*guid);
        }
    }
    None
}

/// The type of an entry in place of a record of this type (OSType): that of the code which has these two digits and 00.
pub fn type_of_record(kind: u8) -> Option<Guid>
    ensures some { IfSome result (λ guid. type_of_record kind ≡ Some guid.0) }
    ensures none { IfNone result (type_of_record kind ≡ None) }
{
    type_of_code(u16::from(kind) * 256)
}

/// The code that stands for a partition type, where one does.
pub fn code_of_type(guid: &Guid) -> Option<u16>
    ensures some { IfSome result (λ code. type_of code ≡ Some guid.now.0) }
    ensures none { IfNone result ((code : ℕ) → type_of code ≢ Some guid.now.0) }
{
    for (code, known) in &TABLE {
        if known == guid {
            return Some(*code);
        }
    }
    None
}
