//! CRC-32, eight bytes a step by eight tables.

ghost use Rattle.std.specs.Prelude.{◌≡◌, ◌<◌, ◌+◌, ◌*◌, ℕ, length, fold, bit_xor};
ghost use Rattle.std.specs.List.{concat};
ghost use Rattle.pt_sum.specs.Sums.{bits, after_bit, after_bytes, crc_of};
ghost use Rattle.pt_sum.specs.inner.Sums.{moved};

use crate::tables::TABLES;
use std::marker::Model;

// A register begins with all ones, and is complemented at the end.
const ALL_ONES: u32 = 0xFFFF_FFFF;

// What a byte in an otherwise empty register becomes after `8 * k + 8` moves.
fn entry_at(k: usize, byte: u8) -> u32
    requires { k < 8 }
    ensures { result ≡ moved (8 * k + 8) byte }
{
    TABLES[k][byte as usize]
}

// The register after one more byte.
#[tactic(auto, using(crate::proofs::TableFacts::after_byte_by_entry))]
fn after_byte(register: u32, byte: u8) -> u32
    ensures { result ≡ fold after_bit register (bits 8 byte) }
{
    entry_at(0, ((register ^ (byte as u32)) & 0xFF) as u8) ^ (register >> 8)
}

// The word as a register, after `8 * k + 32` moves.
fn moved_word(k: usize, word: u32) -> u32
    requires { k < 5 }
    ensures { result ≡ moved (8 * k + 32) word }
{
    entry_at(k, (word >> 24) as u8)
        ^ entry_at(k + 3, (word & 0xFF) as u8)
        ^ entry_at(k + 2, ((word >> 8) & 0xFF) as u8)
        ^ entry_at(k + 1, ((word >> 16) & 0xFF) as u8)
}

// The register after eight more bytes. The last four come first, since their look-ups needn't wait for the register.
fn after_eight(register: u32, bytes: &[u8]) -> u32
    requires { length bytes.now ≡ 8 }
    ensures { result ≡ after_bytes register bytes.now }
{
    let last = moved_word(
        0,
        u32::from_le_bytes([bytes[4], bytes[5], bytes[6], bytes[7]]),
    );
    let first = register ^ u32::from_le_bytes([bytes[0], bytes[1], bytes[2], bytes[3]]);
    last ^ moved_word(4, first)
}

// The register after chunks of sixteen bytes, two steps for each. It isn't inlined: beside a caller's variables, the loop could run
// short of registers.
#[inline(never)]
fn after_chunks(register: u32, chunks: &[[u8; 16]]) -> u32
    ensures { result ≡ after_bytes register (concat chunks.now) }
{
    let mut sum = register;
    for chunk in chunks {
        let (front, back) = chunk.split_at(8);
        sum = after_eight(after_eight(sum, front), back);
    }
    sum
}

// The register after few bytes: one step where there are eight, and then byte by byte.
fn after_few(register: u32, bytes: &[u8]) -> u32
    ensures { result ≡ after_bytes register bytes.now }
{
    let mut sum = register;
    let mut rest = bytes;
    if rest.len() >= 8 {
        let (front, behind) = rest.split_at(8);
        sum = after_eight(sum, front);
        rest = behind;
    }
    for byte in rest {
        sum = after_byte(sum, *byte);
    }
    sum
}

// The register after these bytes.
fn after(register: u32, bytes: &[u8]) -> u32
    ensures { result ≡ after_bytes register bytes.now }
{
    let (chunks, rest) = bytes.as_chunks::<16>();
    after_few(after_chunks(register, chunks), rest)
}

/// The CRC-32 of the bytes.
pub fn crc32(bytes: &[u8]) -> u32
    ensures { result ≡ crc_of bytes.now }
{
    after(ALL_ONES, bytes) ^ ALL_ONES
}

/// The CRC-32 of bytes that come in parts. A contract sees it as its register.
#[derive(Clone, Copy)]
pub struct Crc {
    register: u32,
}

impl Model for Crc {
    ghost Value = { ℕ };

    ghost view = { λ c. c.register };

    ghost inverse = { λ register. record { register = register } };
}

impl Crc {
    /// The sum before the first byte.
    pub fn new() -> Crc
        ensures { result ≡ 0xFFFFFFFF }
    {
        Crc { register: ALL_ONES }
    }

    /// Takes the next bytes, as many as there are.
    pub fn update(&mut self, bytes: &[u8])
        ensures { self.new ≡ after_bytes self.old bytes.now }
    {
        self.register = after(self.register, bytes);
    }

    /// The CRC-32 of the bytes taken so far; more may follow.
    pub fn value(&self) -> u32
        ensures { result ≡ bit_xor self.now 0xFFFFFFFF }
    {
        self.register ^ ALL_ONES
    }
}
