//! A disk of 2^40 sectors, of which only what is written is kept.

ghost use Rattle.std.specs.Prelude.{◌*◌, ◌<◌, ◌^◌};
ghost use Rattle.pt_disks.specs.Stores.{untold};
ghost use Rattle.pt_disks.specs.inner.ForFields.{in_bound};
ghost use Rattle.pt_sector.specs.inner.ForFields.{untouched_same, untouched_on};

use pt_apply::Write;
use pt_layout::{Body, Verdict, verify};
use pt_plan::{CommitError, commit};
use pt_sector::{Disk, Fault, Lba, Moments};
use std::alloc::Global;
use std::test::Fail;
use test_samples::{guids, words};

/// A disk in memory that keeps the sectors that were written; all others are zeros. It tells nothing of its content.
#[derive(Drop)]
struct SparseDisk {
    sectors: u64,
    kept: Vec<Write<512>>,
    failed: Moments<Fault>,
    ghost fits: { sectors * 512 < 2 ^ 63 },
}

impl SparseDisk {
    fn new(alloc: Global) -> SparseDisk {
        SparseDisk {
            sectors: 1 << 40,
            kept: Vec::new(alloc),
            failed: Moments::new(),
        }
    }

    /// The place of a sector that was written.
    fn place(&self, lba: Lba) -> Option<usize> {
        for k in 0..self.kept.len() {
            if self.kept[k].lba == lba {
                return Some(k);
            }
        }
        None
    }

    fn kept_at(&self, lba: Lba) -> [u8; 512] {
        match self.place(lba) {
            Some(k) if k < self.kept.len() => self.kept[k].bytes,
            _ => [0; 512],
        }
    }
}

impl Disk<512> for SparseDisk {
    ghost tells = { ⊥ };

    ghost told = { λ d. untold };

    ghost count = { λ d. d.sectors };

    ghost faults = { λ d. d.failed.items };

    ghost name = { λ d. 0 };

    ghost reads = { λ a b. Unit {0} };

    ghost reads_same = { untouched_same _ _ _ _ _ _ (λ a. tt) };

    ghost reads_on = { untouched_on _ _ _ _ _ _ (λ a b c ab bc. tt) };

    ghost bounded = { λ d. in_bound (d.sectors * 512) d.fits };

    ghost sized = { λ d tells. absurd tells };

    ghost may_be_seen = { λ d tells. absurd tells };

    fn sectors(&self) -> u64 {
        self.sectors
    }

    fn read(&mut self, lba: Lba, into: &mut [u8; 512]) -> Result<(), Fault> {
        *into = self.kept_at(lba);
        Ok(())
    }

    fn write(&mut self, lba: Lba, bytes: &[u8; 512]) -> Result<(), Fault> {
        let write = Write { lba, bytes: *bytes };
        match self.place(lba) {
            Some(k) if k < self.kept.len() => self.kept[k] = write,
            _ => {
                if self.kept.push(write).is_err() {
                    self.failed = self.failed.and(&Fault::Write(lba));
                    return Err(Fault::Write(lba));
                }
            }
        }
        Ok(())
    }

    fn flush(&mut self) -> Result<(), Fault> {
        Ok(())
    }
}

/// The answer to a commit of an empty table.
fn emptied(alloc: Global, disk: &mut SparseDisk) -> Result<Result<(), CommitError>, Fail> {
    let words = words(alloc, &["o"])?;
    Ok(commit(alloc, disk, &words, &guids()))
}

/// The first and last usable sector of a healthy GPT disk.
fn usable(alloc: Global, disk: &mut SparseDisk) -> Result<Option<(u64, u64)>, Fail> {
    match verify(alloc, disk)? {
        Verdict::Yes(layout) => match &layout.body {
            Body::Gpt(table) => Ok(Some((table.first, table.last))),
            Body::Mbr { .. } => Ok(None),
        },
        Verdict::No(_) => Ok(None),
    }
}

#[test]
fn a_table_on_a_huge_disk(rt: HostRuntime) -> Result<(), Fail> {
    let mut disk = SparseDisk::new(rt.alloc());
    assert!(rt; emptied(rt.alloc(), &mut disk)? == Ok(()));
    assert!(rt; usable(rt.alloc(), &mut disk)? == Some((34, 1099511627742)));
    Ok(())
}
