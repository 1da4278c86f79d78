ghost use Rattle.std.specs.Prelude.{◌≡◌, ◌≤◌, ◌<◌, ◌-◌, ◌*◌, ◌^◌, ◌↔◌, ◌⊎◌, ℕ, List, [], ◌∷◌, ◌++◌, length, slice_set, Some};
ghost use Rattle.std.specs.Prelude.{if◌then◌else◌, true, IsTrue, IfOk, IfErr, OnOk, OnErr, IsErr, false};
ghost use Rattle.pt_sector.specs.declared.disk.Fault.TheVariants.{Read, Write, Flush};
ghost use Rattle.pt_sector.specs.Sectors.{IsSectorSize, sector};
ghost use Rattle.pt_sector.specs.Device.{MayLeave, Wrote, FailedWrite, Flushed, FailedFlush, Blames, told_of};
ghost use Rattle.pt_sector.specs.inner.ForFields.{untouched_same, untouched_on};
ghost use Rattle.pt_sector.specs.Overlays.{OnlyReads};
ghost use Rattle.pt_disks.specs.Memory.{zero_sectors};
ghost use Rattle.pt_disks.specs.inner.ForFields.{length-reading, stopped_reading};
ghost use Rattle.pt_disks.specs.Stops.{IsPicked, crash_told, content, sector_count, faults_of, pending_room, IsFull, fails_in};
ghost use Rattle.pt_disks.specs.Stops.{reads_failed, CallPasses, SameContent};

use crate::in_memory::cache::{Pending, WriteCache};
use crate::in_memory::memory::{MemDisk, zeroed};
use crate::in_memory::stop::pick_all;
use pt_sector::{Disk, Fault, Lba, Moments};
use std::alloc::{AllocError, Global};

/// A disk in memory with a write cache, that fails in a call of one's choice and stops where one likes.
///
/// A write stays pending until a flush, in room taken when the disk is made: none of its calls takes memory.
#[derive(Drop)]
pub struct CrashDisk<const B: usize> {
    cache: WriteCache<B>,
    past: Moments<WriteCache<B>>,
    failed: Moments<Fault>,
    fail_in: u64,
    kept: bool,
}

impl<const B: usize> CrashDisk<B> {
    /// A disk with this many sectors, all durable and zero (at most 2^55 of 512 bytes, or 2^52 of 4096), and room for
    /// this many pending writes. No call is set to fail.
    pub fn new(alloc: Global, sectors: u64, room: usize) -> Result<CrashDisk<B>, AllocError>
        requires size { IsSectorSize B }
        requires count { sectors * B ≤ 2 ^ 64 }
        ensures told { IfOk result (λ d. content d ≡ told_of (zero_sectors B sectors) (zero_sectors B sectors) [] []) }
        ensures count { IfOk result (λ d. sector_count d ≡ sectors) }
        ensures faults { IfOk result (λ d. faults_of d ≡ []) }
        ensures room { IfOk result (λ d. pending_room d ≡ room) }
        ensures never_fails { IfOk result (λ d. fails_in d ≡ 0) }
    {
        let durable = zeroed(alloc, sectors)?;
        Ok(CrashDisk {
            cache: WriteCache::new(alloc, durable, room)?,
            past: Moments::new(),
            failed: Moments::new(),
            fail_in: 0,
            kept: false,
        })
    }

    /// Sets the `k`-th read, write or flush from now on to fail, counted together from 1, and no other; 0 sets none.
    ///
    /// `kept` says whether a write that fails reads as written. Its value is pending either way, if there is room.
    pub fn fail_at(&mut self, k: u64, kept: bool)
        ensures fails { fails_in self.new ≡ k }
        ensures kept { reads_failed self.new ≡ kept }
        ensures told { content self.new ≡ content self.old }
        ensures count { sector_count self.new ≡ sector_count self.old }
        ensures faults { faults_of self.new ≡ faults_of self.old }
        ensures room { pending_room self.new ≡ pending_room self.old }
    {
        self.fail_in = k;
        self.kept = kept;
    }

    /// The disk that a crash leaves, by one choice for each sector with pending writes, in ascending order: 0 is the
    /// durable value, and j the j-th pending one in the order of writing. A missing choice is 0, a greater one the last.
    pub fn stop(self, choices: &[usize]) -> MemDisk<B>
        ensures picked { IsPicked (content self.entry).durable (content self.entry).pending choices.now
            (⟦<MemDisk<B> as Disk<B>>⟧.told result).seen }
        ensures may_leave { MayLeave (content self.entry) (⟦<MemDisk<B> as Disk<B>>⟧.told result).seen }
        ensures past { (⟦<MemDisk<B> as Disk<B>>⟧.told result).past ≡ [] }
        ensures count { ⟦<MemDisk<B> as Disk<B>>⟧.count result ≡ sector_count self.entry }
    {
        let CrashDisk {
            cache,
            past: _,
            failed: _,
            fail_in: _,
            kept: _,
        } = self;
        let WriteCache {
            mut durable,
            pending,
            room: _,
        } = cache;
        pick_all(&mut durable, &pending, choices);
        MemDisk::from_sectors(durable)
    }
}

impl<const B: usize> Disk<B> for CrashDisk<B> {
    ghost tells = { Unit {0} };

    ghost told = { content };

    ghost count = { sector_count };

    ghost faults = { faults_of };

    ghost name = { λ d. 0 };

    ghost reads = { λ a b. Unit {0} };

    ghost reads_same = { untouched_same _ _ _ _ _ _ (λ a. tt) };

    ghost reads_on = { untouched_on _ _ _ _ _ _ (λ a b c ab bc. tt) };

    ghost bounded = { λ d. d.cache.fits };

    ghost sized = { λ d tells. length-reading d.cache.pending.items d.cache.durable.items };

    ghost may_be_seen = { λ d tells. stopped_reading d.cache.pending.items d.cache.durable.items };

    fn sectors(&self) -> u64 {
        self.cache.durable.len() as u64
    }

    fn read(&mut self, lba: Lba, into: &mut [u8; B]) -> Result<(), Fault>
        requires { lba.0 < sector_count self.old }
        ensures same { OnlyReads ⟦<CrashDisk<B> as Disk<B>>⟧ self.old self.new }
        ensures blames { Blames Some result (faults_of self.old) (faults_of self.new) }
        ensures fault { IfErr result (λ e. e ≡ Read lba) }
        ensures bytes { OnOk result (into.new ≡ sector (content self.old).seen lba.0) }
        ensures fails { IsErr result ↔ (fails_in self.old ≡ 1) }
        ensures call { CallPasses self.old self.new }
    {
        if counts_down(&mut self.fail_in) {
            self.failed = self.failed.and(&Fault::Read(lba));
            return Err(Fault::Read(lba));
        }
        self.cache.read(lba, into);
        Ok(())
    }

    /// Fails where it is set to, and past the room, where it changes nothing.
    fn write(&mut self, lba: Lba, bytes: &[u8; B]) -> Result<(), Fault>
        requires { lba.0 < sector_count self.old }
        ensures count { sector_count self.new ≡ sector_count self.old }
        ensures blames { Blames Some result (faults_of self.old) (faults_of self.new) }
        ensures fault { IfErr result (λ e. e ≡ Write lba) }
        ensures done { OnOk result (Wrote (content self.old) (content self.new) lba.0 bytes.now) }
        ensures failed { OnErr result (FailedWrite (content self.old) (content self.new) lba.0 bytes.now) }
        ensures fails { IsErr result ↔ ((fails_in self.old ≡ 1) ⊎ IsFull self.old) }
        ensures past_room { IsFull self.old → SameContent (content self.old) (content self.new) }
        ensures pending { (IsFull self.old → ⊥) → (content self.new).pending ≡ (content self.old).pending ++ (lba.0, bytes.now) ∷ [] }
        ensures kept { (IsFull self.old → ⊥) → OnErr result ((content self.new).seen
            ≡ (if reads_failed self.old then slice_set (content self.old).seen lba.0 bytes.now else (content self.old).seen)) }
        ensures call { CallPasses self.old self.new }
    {
        self.past = self.past.and(&self.cache);
        let fails = counts_down(&mut self.fail_in);
        if self.cache.is_full() {
            self.failed = self.failed.and(&Fault::Write(lba));
            return Err(Fault::Write(lba));
        }
        let write = Pending {
            lba,
            bytes: *bytes,
            reads: !fails || self.kept,
        };
        self.cache.add(write);
        if fails {
            self.failed = self.failed.and(&Fault::Write(lba));
            return Err(Fault::Write(lba));
        }
        Ok(())
    }

    /// Fails where it is set to; then all stays pending.
    fn flush(&mut self) -> Result<(), Fault>
        ensures count { sector_count self.new ≡ sector_count self.old }
        ensures blames { Blames Some result (faults_of self.old) (faults_of self.new) }
        ensures fault { IfErr result (λ e. e ≡ Flush) }
        ensures done { OnOk result (Flushed (content self.old) (content self.new)) }
        ensures failed { OnErr result (FailedFlush (content self.old) (content self.new)) }
        ensures fails { IsErr result ↔ (fails_in self.old ≡ 1) }
        ensures kept { OnErr result (SameContent (content self.old) (content self.new)) }
        ensures call { CallPasses self.old self.new }
    {
        self.past = self.past.and(&self.cache);
        if counts_down(&mut self.fail_in) {
            self.failed = self.failed.and(&Fault::Flush);
            return Err(Fault::Flush);
        }
        self.cache.flush();
        Ok(())
    }
}

/// Counts a call, and says whether it is the one that fails.
fn counts_down(fail_in: &mut u64) -> bool
    ensures fails { IsTrue result ↔ (fail_in.old ≡ 1) }
    ensures sooner { fail_in.new ≡ fail_in.old - 1 }
{
    if *fail_in == 0 {
        return false;
    }
    *fail_in -= 1;
    *fail_in == 0
}
