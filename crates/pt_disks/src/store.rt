//! Bytes that are read and written at an offset.

ghost use Rattle.std.specs.Prelude.{◌≡◌, ◌≤◌, ◌<◌, ◌+◌, ◌*◌, ◌^◌, ℕ, length, take, drop, IfOk, OnOk, OnErr};
ghost use Rattle.std.specs.Io.{ReadsAtMost};
ghost use Rattle.pt_sector.specs.Device.{MayLeave};
ghost use Rattle.pt_disks.specs.Stores.{sectors_of, ToldBytes, IsBlock, Put, FailedPut, Synced, FailedSync, in_sectors, untold_bytes};

use std::fs::File;
use std::io;
use std::io::{Seek, SeekFrom};
use std::os::unix::fs::{FileExt, FileTypeExt};

/// Bytes that are read at any offset, and written in blocks of `B`, as those of a file.
///
/// Of its content a store tells all or nothing. A block that is written is whole after a crash: it holds what was durable,
/// or one of the values that were pending.
pub trait Store<const B: usize> {
    /// Whether stores of this type tell their content.
    ghost tells: { Type 0 };

    /// What one tells.
    ghost told: { Self → ToldBytes };

    /// How many bytes it has.
    fn len(&self) -> io::Result<u64>
        ensures { tells → IfOk result (λ n. n ≡ length (told self.now).seen) };

    /// Reads bytes from an offset on, maybe fewer than there is room for.
    fn read_at(&self, at: u64, into: &mut [u8]) -> io::Result<usize>
        ensures bound { ReadsAtMost result into.new }
        ensures bytes { tells → IfOk result (λ n. take n into.new ≡ take n (drop at (told self.now).seen)) };

    /// Writes one block that lies within the store, all of it. It may stay pending until a sync. After `Err` it reads as before or as
    /// written.
    fn write_at(&mut self, at: u64, bytes: &[u8; B]) -> io::Result<()>
        requires block { IsBlock B at }
        requires within { tells → at + B ≤ length (told self.old).seen }
        ensures done { tells → OnOk result (Put (told self.old) (told self.new) at bytes.now) }
        ensures failed { tells → OnErr result (FailedPut (told self.old) (told self.new) at bytes.now) };

    /// Makes all that was written durable.
    fn sync(&mut self) -> io::Result<()>
        ensures done { tells → OnOk result (Synced (told self.old) (told self.new)) }
        ensures failed { tells → OnErr result (FailedSync B (told self.old) (told self.new)) };

    /// What is durable has as many bytes as it has.
    ghost same_length: { (s : Self) → tells → length (told s).durable ≡ length (told s).seen };

    /// What a read gives is one of what a crash may leave.
    ghost may_be_seen: { (s : Self) → tells → (n : ℕ) → n * B ≤ length (told s).seen
        → MayLeave (in_sectors B n (told s)) (sectors_of B n (told s).seen) };
}

/// A plain file or a block device tells nothing of its content: that it keeps these clauses is a premise (docs/model.md).
impl<const B: usize> Store<B> for File {
    ghost tells = { ⊥ };

    ghost told = { λ f. untold_bytes };

    ghost same_length = { λ s tells. absurd tells };

    ghost may_be_seen = { λ s tells n le. absurd tells };

    /// A block device says its length only by where its end is.
    fn len(&self) -> io::Result<u64> {
        let found = self.metadata()?;
        if found.file_type().is_block_device() {
            let mut device = self;
            return device.seek(SeekFrom::End(0));
        }
        Ok(found.len())
    }

    fn read_at(&self, at: u64, into: &mut [u8]) -> io::Result<usize> {
        FileExt::read_at(self, into, at)
    }

    /// Calls that a signal interrupts or that take fewer bytes go on, as one write.
    fn write_at(&mut self, at: u64, bytes: &[u8; B]) -> io::Result<()> {
        self.write_all_at(bytes, at)
    }

    /// An fsync. For an fdatasync a file system may send the drive no flush, as ext4 without a journal has been seen to do.
    fn sync(&mut self) -> io::Result<()> {
        self.sync_all()
    }
}
