//! Sums that others publish, and the sum bit by bit.

use pt_resum::sum_of_both;
use pt_sum::{Crc, crc32, xor16};

// The sum of the bytes, a bit at a time.
fn sum_by_bits(bytes: &[u8]) -> u32 {
    let mut register = 0xFFFF_FFFFu32;
    for byte in bytes {
        register ^= *byte as u32;
        for _ in 0..8u32 {
            let falls_out = register % 2 == 1;
            register >>= 1;
            if falls_out {
                register ^= 0xEDB8_8320;
            }
        }
    }
    register ^ 0xFFFF_FFFF
}

#[test]
fn published_sums(rt: HostRuntime) {
    assert!(rt; crc32(b"") == 0x0000_0000);
    assert!(rt; crc32(b"123456789") == 0xCBF4_3926);
    assert!(rt; crc32(&[0; 4]) == 0x2144_DF1C);
    assert!(rt; crc32(b"a") == 0xE8B7_BE43);
    assert!(rt; crc32(&[0xFF; 4]) == 0xFFFF_FFFF);
}

#[test]
fn every_length_and_every_cut(rt: HostRuntime) {
    let mut bytes = [0u8; 40];
    for i in 0..40usize {
        bytes[i] = i as u8;
    }
    for length in 0..41usize {
        let taken = &bytes[..length];
        let expected = sum_by_bits(taken);
        assert!(rt; crc32(taken) == expected);
        for cut in 0..length + 1 {
            let mut sum = Crc::new();
            sum.update(&taken[..cut]);
            sum.update(&taken[cut..]);
            assert!(rt; sum.value() == expected);
        }
    }
}

/// What a register of zeros is after a byte: the byte's entry in the published table.
fn entry_of(byte: u8) -> u32 {
    crc32(&[byte ^ 0xFF]) ^ 0xFF00_0000
}

#[test]
fn published_table(rt: HostRuntime) {
    assert!(rt; entry_of(1) == 0x7707_3096);
    assert!(rt; entry_of(128) == 0xEDB8_8320);
    assert!(rt; entry_of(255) == 0x2D02_EF8D);
}

#[test]
fn words_without_carry(rt: HostRuntime) {
    assert!(rt; xor16(&[0x01, 0x02, 0x03, 0x04]) == 0x0602);
    assert!(rt; xor16(&[]) == 0);
}

// The sums are zlib's: of "jawefon", of the bytes 0 to 127, of the bytes 5 i of 512 and of the bytes 7 i + 3 of 16,256, and of "jawefon"
// with each of these behind it.
#[test]
fn sums_of_two_parts(rt: HostRuntime) {
    let first = crc32(b"jawefon");
    assert!(rt; first == 0x323D_A761);
    assert!(rt; sum_of_both(first, 0x0000_0000, 0) == first);
    assert!(rt; sum_of_both(first, 0x2465_0D57, 1) == 0xF770_6A44);
    assert!(rt; sum_of_both(first, 0x2E7D_A1CD, 4) == 0xCB29_7E92);
    assert!(rt; sum_of_both(first, 0xBFC7_A039, 127) == 0x30D2_057B);
    assert!(rt; sum_of_both(0x0000_0000, 0x2465_0D57, 1) == 0x2465_0D57);
}
