//! A disk in a file.

ghost use Rattle.std.specs.Prelude.{◌≡◌, ◌≤◌, ◌<◌, ◌*◌, ◌/◌, ◌+◌, ◌^◌, ◌∷◌, [], ◌++◌, length, take, drop, IfErr, IfOk, IfSome, IsTrue};
ghost use Rattle.pt_disks.specs.declared.open.Access.TheVariants.{Write};
ghost use Rattle.pt_disks.specs.declared.open.OpenError.TheVariants.{Locked};
ghost use Rattle.pt_disks.specs.inner.ForFields.{in_bound, length-sectors_of};
ghost use Rattle.pt_disks.specs.Stores.{in_sectors};
ghost use Rattle.pt_sector.specs.inner.ForFields.{untouched_same, untouched_on};

use crate::open::{Access, OpenError, open_plain};
use crate::store::Store;
use pt_sector::{Disk, Fault, Lba, Moments};
use std::fs::{File, Files};
use std::io::ErrorKind;

/// A store of bytes as a disk: sector k is the bytes from k * `B` up to (k + 1) * `B`. A tail shorter than a sector is
/// never touched.
///
/// It tells what its store tells. A flush syncs the store. Nothing is cached: each call reads or writes.
#[derive(Drop)]
pub struct StoreDisk<const B: usize, S: Store<B> + Drop> {
    store: S,
    sectors: u64,
    failed: Moments<Fault>,
    ghost positive: { 0 < B },
    ghost fits: { sectors * B < 2 ^ 63 },
    ghost whole: { S.tells → sectors * B ≤ length (S.told store).seen },
}

/// A plain file or a block device as a disk with sectors of `B` bytes.
///
/// It tells nothing of its content: that it keeps the clauses of a [`Store`] (docs/model.md) is a premise.
pub type FileDisk<const B: usize> = StoreDisk<B, File>;

impl<const B: usize, S: Store<B> + Drop> StoreDisk<B, S> {
    /// A disk with as many whole sectors as the store has bytes for; none where it can't say, or has 2^63 bytes or more.
    pub fn new(store: S) -> Option<StoreDisk<B, S>>
        requires size { 0 < B }
        ensures unfailed { IfSome result (λ disk. disk.failed.items ≡ []) }
        ensures store { IfSome result (λ disk. disk.store ≡ store) }
        ensures sectors { S.tells → IfSome result (λ disk. disk.sectors ≡ length (S.told store).seen / B) }
    {
        match store.len() {
            Ok(bytes) if bytes < 1 << 63 => Some(StoreDisk {
                store,
                sectors: bytes / B as u64,
                failed: Moments::new(),
            }),
            _ => None,
        }
    }
}

impl<const B: usize> StoreDisk<B, File> {
    /// Opens a plain file as a disk with as many whole sectors as the file has now. A lock that it takes lasts as long as
    /// the disk.
    ///
    /// `NoFile` for what isn't a plain file, can't be opened so, or has 2^63 bytes or more; `Locked` where the lock is held
    /// elsewhere, for `Access::Write` alone.
    pub fn open<R: Files<File = File>>(
        rt: &R,
        path: &str,
        access: Access,
    ) -> Result<FileDisk<B>, OpenError>
        requires size { 0 < B }
        ensures unfailed { IfOk result (λ disk. disk.failed.items ≡ []) }
        ensures locked { IfErr result (λ e. e ≡ Locked → access ≡ Write) }
    {
        match StoreDisk::new(open_plain(rt, path, access)?) {
            Some(disk) => Ok(disk),
            None => Err(OpenError::NoFile),
        }
    }
}

impl<const B: usize, S: Store<B> + Drop> Disk<B> for StoreDisk<B, S> {
    ghost tells = { S.tells };

    ghost told = { λ d. in_sectors B d.sectors (S.told d.store) };

    ghost count = { λ d. d.sectors };

    ghost faults = { λ d. d.failed.items };

    ghost name = { λ d. 0 };

    ghost reads = { λ a b. Unit {0} };

    ghost reads_same = { untouched_same _ _ _ _ _ _ (λ a. tt) };

    ghost reads_on = { untouched_on _ _ _ _ _ _ (λ a b c ab bc. tt) };

    ghost bounded = { λ d. in_bound (d.sectors * B) d.fits };

    ghost sized = { λ d tells. length-sectors_of B d.sectors (S.told d.store).seen };

    ghost may_be_seen = { λ d tells. S.may_be_seen d.store tells d.sectors (d.whole tells) };

    fn sectors(&self) -> u64 {
        self.sectors
    }

    fn read(&mut self, lba: Lba, into: &mut [u8; B]) -> Result<(), Fault> {
        if read_whole(&self.store, lba.0 * B as u64, into) {
            return Ok(());
        }
        self.failed = self.failed.and(&Fault::Read(lba));
        Err(Fault::Read(lba))
    }

    fn write(&mut self, lba: Lba, bytes: &[u8; B]) -> Result<(), Fault> {
        match self.store.write_at(lba.0 * B as u64, bytes) {
            Ok(()) => Ok(()),
            Err(_) => {
                self.failed = self.failed.and(&Fault::Write(lba));
                Err(Fault::Write(lba))
            }
        }
    }

    fn flush(&mut self) -> Result<(), Fault> {
        match self.store.sync() {
            Ok(()) => Ok(()),
            Err(_) => {
                self.failed = self.failed.and(&Fault::Flush);
                Err(Fault::Flush)
            }
        }
    }
}

/// Reads on until there is no more room; false where a read fails or gives nothing. A read that a signal interrupts is tried again.
fn read_whole<const B: usize, S: Store<B>>(store: &S, at: u64, into: &mut [u8]) -> bool
    requires fits { at + length into.old < 2 ^ 64 }
    ensures { S.tells → IsTrue result → into.new ≡ take (length into.new) (drop at (S.told store.now).seen) }
{
    let mut done = 0;
    for _ in 0..u64::MAX {
        if done == into.len() {
            return true;
        }
        match store.read_at(at + done as u64, &mut into[done..]) {
            Ok(0) => return false,
            Ok(n) => done += n,
            Err(e) if e.kind() == ErrorKind::Interrupted => {}
            Err(_) => return false,
        }
    }
    false
}
