ghost use Rattle.std.specs.Prelude.{◌≡◌, ◌≤◌, ◌<◌, ◌*◌, ◌^◌, ◌++◌, ℕ, List, [], ◌∷◌, length, All, vec_len, vec_capacity, IfOk, IsTrue};
ghost use Rattle.std.specs.Prelude.{◌↔◌};
ghost use Rattle.pt_sector.specs.Sectors.{sector, IsSectorSize};
ghost use Rattle.pt_disks.specs.Memory.{reading};

use pt_sector::Lba;
use std::alloc::{AllocError, Global};

/// A write that is not durable yet.
#[derive(Clone, Copy)]
pub(crate) struct Pending<const B: usize> {
    pub(crate) lba: Lba,
    pub(crate) bytes: [u8; B],
    /// Whether a read gives it.
    pub(crate) reads: bool,
}

/// Durable sectors, and the writes that are pending over them, in order, in room for a fixed number.
#[derive(Drop)]
pub(crate) struct WriteCache<const B: usize> {
    pub(crate) durable: Vec<[u8; B]>,
    pub(crate) pending: Vec<Pending<B>>,
    pub(crate) room: usize,
    ghost small: { B ≤ 4096 },
    ghost fits: { length durable.items * B ≤ 2 ^ 64 },
    ghost in_range: { All (λ p. p.lba.0 < length durable.items) pending.items },
    ghost within: { vec_len pending ≤ room },
    ghost reserved: { room ≤ vec_capacity pending },
}

impl<const B: usize> WriteCache<B> {
    pub(crate) fn new(
        alloc: Global,
        durable: Vec<[u8; B]>,
        room: usize,
    ) -> Result<WriteCache<B>, AllocError>
        requires size { IsSectorSize B }
        requires count { length durable.items * B ≤ 2 ^ 64 }
        ensures durable { IfOk result (λ c. c.durable.items ≡ durable.entry.items) }
        ensures pending { IfOk result (λ c. c.pending.items ≡ []) }
        ensures room { IfOk result (λ c. c.room ≡ room) }
    {
        let pending = Vec::with_capacity(alloc, room)?;
        Ok(WriteCache {
            durable,
            pending,
            room,
        })
    }

    pub(crate) fn is_full(&self) -> bool
        ensures { IsTrue result ↔ (self.now.room ≤ vec_len self.now.pending) }
    {
        self.pending.len() >= self.room
    }

    /// Adds a pending write. Takes no memory.
    pub(crate) fn add(&mut self, write: Pending<B>)
        requires range { write.lba.0 < length self.old.durable.items }
        requires room { vec_len self.old.pending < self.old.room }
        ensures durable { self.new.durable.items ≡ self.old.durable.items }
        ensures pending { self.new.pending.items ≡ self.old.pending.items ++ write.entry ∷ [] }
        ensures room { self.new.room ≡ self.old.room }
    {
        let _ = self.pending.push(write);
    }

    pub(crate) fn read(&self, lba: Lba, into: &mut [u8; B])
        requires { lba.0 < length self.now.durable.items }
        ensures { into.new ≡ sector (reading self.now.pending.items self.now.durable.items) lba.0 }
    {
        *into = self.durable[lba.0 as usize];
        for write in &self.pending {
            if write.reads && write.lba == lba {
                *into = write.bytes;
            }
        }
    }

    pub(crate) fn flush(&mut self)
        ensures durable { self.new.durable.items ≡ reading self.old.pending.items self.old.durable.items }
        ensures pending { self.new.pending.items ≡ [] }
        ensures room { self.new.room ≡ self.old.room }
    {
        store(&mut self.durable, &self.pending);
        self.pending.clear();
    }
}

/// Writes what reads into the durable sectors.
fn store<const B: usize>(durable: &mut [[u8; B]], pending: &[Pending<B>])
    requires small { B ≤ 4096 }
    requires in_range { All (λ p. p.lba.0 < length durable.old) pending.now }
    ensures { durable.new ≡ reading pending.now durable.old }
{
    for write in pending {
        if write.reads {
            durable[write.lba.0 as usize] = write.bytes;
        }
    }
}
