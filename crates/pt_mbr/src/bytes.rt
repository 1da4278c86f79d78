ghost use Rattle.std.specs.Prelude.{◌≡◌, ◌+◌, ◌<◌, ◌≤◌, ◌^◌, ◌↔◌, IsTrue, ℕ, length, slice_index};
ghost use Rattle.byteorder.specs.Endian.{little_bytes};
ghost use Rattle.pt_mbr.specs.Records.{HasSignature, put_at};

use byteorder::{ByteOrder, LittleEndian};

#[tactic(auto, unfolding(crate::specs::Records::HasSignature))]
pub(crate) fn has_signature(bytes: &[u8]) -> bool
    requires { 512 ≤ length bytes.now }
    ensures { IsTrue result ↔ HasSignature bytes.now }
{
    bytes[510] == 0x55 && bytes[511] == 0xAA
}

#[tactic(auto, unfolding(crate::specs::Records::put_at))]
pub(crate) fn put_bytes(bytes: &mut [u8], at: usize, new: &[u8])
    requires { at + length new.now ≤ length bytes.old }
    ensures put { bytes.new ≡ put_at at new.now bytes.old }
    ensures fits { (i : ℕ) → slice_index bytes.old i < 256 }
{
    bytes[at..at + new.len()].copy_from_slice(new);
}

#[tactic(auto, unfolding(crate::specs::Records::put_at))]
pub(crate) fn put_u32(bytes: &mut [u8], at: usize, number: u32)
    requires { at + 4 ≤ length bytes.old }
    ensures put { bytes.new ≡ put_at at (little_bytes 4 number) bytes.old }
    ensures fits { number < 2 ^ 32 }
{
    LittleEndian::write_u32(&mut bytes[at..at + 4], number);
}
