//! Bytes in memory.

ghost use Rattle.std.specs.Prelude.{◌≡◌, IfOk, []};
ghost use Rattle.pt_sector.specs.inner.ForFields.{stopped_same};
ghost use Rattle.std.proofs.Common.{refl};
ghost use Rattle.pt_disks.specs.Stores.{mem_bytes, sectors_of};

use crate::store::Store;
use pt_sector::Moments;
use std::io;

/// Bytes in memory. A write is durable at once, and a sync does nothing. No call fails; that isn't said by a clause.
#[derive(Drop)]
pub struct MemStore {
    bytes: Vec<u8>,
    past: Moments<Vec<u8>>,
}

impl MemStore {
    pub fn new(bytes: Vec<u8>) -> MemStore
        ensures bytes { result.bytes ≡ bytes }
        ensures past { result.past.items ≡ [] }
    {
        MemStore {
            bytes,
            past: Moments::new(),
        }
    }
}

impl<const B: usize> Store<B> for MemStore {
    ghost tells = { Unit {0} };

    ghost told = { λ s. mem_bytes s.bytes.items s.past.items };

    ghost same_length = { λ s tells. refl };

    ghost may_be_seen = { λ s tells n le. stopped_same (sectors_of B n s.bytes.items) [] };

    fn len(&self) -> io::Result<u64> {
        Ok(self.bytes.len() as u64)
    }

    fn read_at(&self, at: u64, into: &mut [u8]) -> io::Result<usize> {
        let start = (at as usize).min(self.bytes.len());
        let count = into.len().min(self.bytes.len() - start);
        into[..count].copy_from_slice(&self.bytes[start..start + count]);
        Ok(count)
    }

    fn write_at(&mut self, at: u64, bytes: &[u8; B]) -> io::Result<()> {
        self.past = self.past.and(&self.bytes);
        let start = at as usize;
        self.bytes[start..start + B].copy_from_slice(bytes);
        Ok(())
    }

    fn sync(&mut self) -> io::Result<()> {
        self.past = self.past.and(&self.bytes);
        Ok(())
    }
}
