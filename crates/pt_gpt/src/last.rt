//! The array that was read last.

ghost use Rattle.std.specs.Prelude.{◌≡◌, ◌↔◌, IsTrue};
ghost use Rattle.pt_sum.specs.Sums.{crc_of};

use pt_sum::crc32;
use std::alloc::Global;
use std::marker::Model;

/// The bytes of the array that was read last, with their sum. Both copies of a table mostly have the same ones, and they are summed
/// once. A clause sees it as the bytes.
#[derive(Drop)]
pub struct LastArray {
    bytes: Vec<u8>,
    crc: u32,
}

impl Model for LastArray {
    ghost use Rattle.std.specs.Prelude.{◌≡◌, ℕ, List};
    ghost use Rattle.pt_sum.specs.Sums.{crc_of};

    ghost Value = { List ℕ };

    ghost view = { λ a. a.bytes.items };

    ghost invariant = { λ a. a.crc ≡ crc_of a.bytes.items };
}

/// What is known of the next array's bytes once they are taken.
#[derive(Clone, Copy, Debug, PartialEq, Eq)]
pub struct Taken {
    /// Their CRC-32.
    pub crc: u32,
    /// Whether they are those of the array before.
    pub same: bool,
}

impl LastArray {
    /// Before the first one.
    pub fn new(alloc: Global) -> LastArray {
        LastArray {
            bytes: Vec::new(alloc),
            crc: crc32(&[]),
        }
    }

    /// Its bytes.
    pub fn as_slice(&self) -> &[u8]
        ensures { result.now ≡ self.now }
    {
        self.bytes.as_slice()
    }

    /// Takes the bytes of the next array. They are summed where they aren't those of this one.
    pub fn take(&mut self, bytes: Vec<u8>) -> Taken
        ensures value { result.crc ≡ crc_of bytes.items }
        ensures same { IsTrue result.same ↔ (bytes.items ≡ self.old) }
        ensures taken { self.new ≡ bytes.items }
    {
        let same = self.bytes.as_slice() == bytes.as_slice();
        if !same {
            self.crc = crc32(&bytes);
            self.bytes = bytes;
        }
        Taken {
            crc: self.crc,
            same,
        }
    }
}
