ghost use Rattle.std.specs.Prelude.{◌≡◌, ◌≤◌, ◌<◌, ◌+◌, ◌↔◌, ℕ, List, [], slice_set, vec_len, vec_capacity, IfOk, IfErr, IsTrue, IsFalse};
ghost use Rattle.std.specs.Prelude.{true, false, if◌then◌else◌};
ghost use Rattle.pt_sector.specs.Sectors.{Sectors, IsSectorSize, written, IsAscending, IsWriteAt, Has, puts_as_writes, SlotsFit};
ghost use Rattle.pt_sector.specs.Sectors.{SlotsApart};
ghost use Rattle.pt_sector.specs.inner.Sectors.{value_after, IsGapFor};

use crate::address::Lba;
use std::alloc::{AllocError, Global};

/// A sector, and the place of its bytes among those that are kept.
#[derive(Clone, Copy)]
pub(crate) struct Put {
    pub(crate) lba: Lba,
    pub(crate) slot: usize,
}

/// The sectors of an overlay's own, each once and in order, in room for a fixed number of them. Their bytes stand in the
/// order in which the sectors came, so that a new one moves no bytes.
#[derive(Drop)]
pub struct Own<const B: usize> {
    pub(crate) puts: Vec<Put>,
    pub(crate) sectors: Vec<[u8; B]>,
    pub(crate) room: usize,
    ghost small: { B ≤ 4096 },
    ghost within: { vec_len puts ≤ room },
    ghost reserved: { room ≤ vec_capacity puts },
    ghost stored: { room ≤ vec_capacity sectors },
    ghost paired: { vec_len sectors ≡ vec_len puts },
    ghost slots: { SlotsFit puts.items (vec_len sectors) },
    ghost apart: { SlotsApart puts.items },
    ghost sorted: { IsAscending (puts_as_writes puts.items sectors.items) },
}

impl<const B: usize> Own<B> {
    pub(crate) fn new(alloc: Global, room: usize) -> Result<Own<B>, AllocError>
        requires { IsSectorSize B }
        ensures puts { IfOk result (λ own. own.puts.items ≡ []) }
        ensures room { IfOk result (λ own. own.room ≡ room) }
    {
        let puts = Vec::with_capacity(alloc, room)?;
        let sectors = Vec::with_capacity(alloc, room)?;
        Ok(Own {
            puts,
            sectors,
            room,
        })
    }

    /// Gives up all sectors, and keeps the room for them.
    pub(crate) fn clear(&mut self)
        ensures puts { self.new.puts.items ≡ [] }
        ensures room { self.new.room ≡ self.old.room }
    {
        self.puts.clear();
        self.sectors.clear();
    }

    /// The bytes of a sector, if it has some.
    pub(crate) fn get(&self, lba: Lba, into: &mut [u8; B]) -> bool
        ensures { (v : List ℕ) → value_after (puts_as_writes self.now.puts.items self.now.sectors.items) lba.0 v
            ≡ (if result then into.new else v) }
    {
        match place(&self.puts, lba) {
            Ok(at) => {
                *into = self.sectors[self.puts[at].slot];
                true
            }
            Err(_) => false,
        }
    }

    /// Puts bytes into a sector; false where that is a new one and no room is left for it.
    pub(crate) fn put(&mut self, lba: Lba, bytes: &[u8; B]) -> bool
        ensures put { IsTrue result → (d : Sectors) → written (puts_as_writes self.new.puts.items self.new.sectors.items) d
            ≡ slice_set (written (puts_as_writes self.old.puts.items self.old.sectors.items) d) lba.0 bytes.now }
        ensures refused { IsFalse result ↔ ((self.old.room ≤ vec_len self.old.puts)
            × (Has (puts_as_writes self.old.puts.items self.old.sectors.items) lba.0 → ⊥)) }
        ensures kept { IsFalse result → self.new ≡ self.old }
        ensures room { self.new.room ≡ self.old.room }
        ensures grows { vec_len self.new.puts ≤ vec_len self.old.puts + 1 }
    {
        match place(&self.puts, lba) {
            Ok(at) => {
                let slot = self.puts[at].slot;
                self.sectors[slot] = *bytes;
                true
            }
            Err(at) => {
                if self.puts.len() >= self.room {
                    return false;
                }
                let slot = self.sectors.len();
                self.sectors.push_reserved(*bytes);
                let _ = self.puts.insert(at, Put { lba, slot });
                true
            }
        }
    }
}

/// Where a sector is, or where it would go.
fn place(puts: &[Put], lba: Lba) -> Result<usize, usize>
    requires sorted { IsAscending (puts_as_writes puts.now []) }
    ensures found { IfOk result (IsWriteAt (puts_as_writes puts.now []) lba.0) }
    ensures absent { IfErr result (IsGapFor (puts_as_writes puts.now []) lba.0) }
{
    puts.binary_search_by_key(
        &lba.0,
        |put| -> u64
            ensures { result ≡ put.now.lba.0 }
        { put.lba.0 },
    )
}
