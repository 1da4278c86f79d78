//! Texts, stored bytes and codes, as UEFI 2.10 and docs/format.md give them.

use pt_guid::{Guid, GuidError, code_of_type, parse};

#[test]
fn stored_order(rt: HostRuntime) {
    let stored = Guid([
        0x28, 0x73, 0x2A, 0xC1, 0x1F, 0xF8, 0xD2, 0x11, 0xBA, 0x4B, 0x00, 0xA0, 0xC9, 0x3E, 0xC9,
        0x3B,
    ]);
    assert!(rt; parse("C12A7328-F81F-11D2-BA4B-00A0C93EC93B") == Ok(stored));
}

#[test]
fn other_texts(rt: HostRuntime) {
    let text = "c12a7328-f81f-11d2-ba4b-00a0c93ec93g";
    assert!(rt; parse(text) == Err(GuidError::NotAGuid));
}

#[test]
fn other_codes(rt: HostRuntime) {
    let linux_filesystem = Guid([
        0xAF, 0x3D, 0xC6, 0x0F, 0x83, 0x84, 0x72, 0x47, 0x8E, 0x79, 0x3D, 0x69, 0xD8, 0x47, 0x7D,
        0xE4,
    ]);
    assert!(rt; code_of_type(&Guid([0; 16])) == None);
    assert!(rt; Guid([0; 16]).is_zero());
    assert!(rt; !linux_filesystem.is_zero());
}
