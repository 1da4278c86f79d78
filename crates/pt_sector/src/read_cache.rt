ghost use Rattle.std.specs.Prelude.{◌≡◌};
ghost use Rattle.pt_sector.specs.inner.ForFields.{untouched_same, untouched_on};
ghost use Rattle.pt_sector.specs.Overlays.{OnlyReads, shown};
ghost use Rattle.pt_sector.specs.Sectors.{Sectors};

use crate::address::Lba;
use crate::disk::{Disk, Fault};
use crate::own::Own;
use crate::room::Room;

/// What keeps sectors of a disk.
pub trait KeepsSectors<const B: usize> {
    /// A disk with what it keeps written over it.
    ghost over: { Self → Sectors → Sectors };
}

impl<const B: usize> KeepsSectors<B> for Own<B> {
    ghost over = { λ own seen. shown seen own };
}

/// A disk that asks a borrowed one for each sector once, while it has room to keep what was read.
///
/// It shows what the borrowed disk shows. Writes and flushes go on to that one, and then all that was kept is forgotten.
/// `W` is always `Own<B>`.
pub struct ReadCache<'a, D: Disk<B>, const B: usize, W: KeepsSectors<B> + Drop = Own<B>> {
    disk: &'a mut D,
    kept: W,
    ghost same: { D.tells → W.over kept (D.told disk.now).seen ≡ (D.told disk.now).seen },
}

impl<D: Disk<B>, const B: usize, W: KeepsSectors<B> + Drop> Drop for ReadCache<'_, D, B, W> {
    fn drop(self)
        ensures { self.exit.0.now ≡ self.entry.disk.now }
    {
        let Self { disk: _, kept: _ } = self;
    }
}

impl<'a, D: Disk<B>, const B: usize> ReadCache<'a, D, B> {
    /// A cache that has kept nothing yet.
    pub fn new(disk: &'a mut D, room: Room<B>) -> ReadCache<'a, D, B>
        ensures same_reference { result.disk.ghost_name ≡ disk.entry.ghost_name }
        ensures disk { result.disk.now ≡ disk.old }
    {
        let Room { own } = room;
        ReadCache { disk, kept: own }
    }
}

impl<'a, D: Disk<B>, const B: usize> Disk<B> for ReadCache<'a, D, B> {
    ghost tells = { D.tells };

    ghost told = { λ o. D.told o.disk.now };

    ghost count = { λ o. D.count o.disk.now };

    ghost faults = { λ o. D.faults o.disk.now };

    ghost name = { λ o. o.disk.ghost_name };

    ghost reads = { λ o p. OnlyReads D.Disk o.disk.now p.disk.now };

    ghost reads_same = { untouched_same _ _ _ _ _ _ (λ o. D.reads_same o.disk.now) };

    ghost reads_on = { untouched_on _ _ _ _ _ _ (λ a b c ab bc. D.reads_on a.disk.now b.disk.now c.disk.now ab bc) };

    ghost bounded = { λ o. D.bounded o.disk.now };

    ghost sized = { λ o tells. D.sized o.disk.now tells };

    ghost may_be_seen = { λ o tells. D.may_be_seen o.disk.now tells };

    fn sectors(&self) -> u64 {
        self.disk.sectors()
    }

    /// Asks the borrowed disk only for a sector that isn't kept.
    fn read(&mut self, lba: Lba, into: &mut [u8; B]) -> Result<(), Fault> {
        if self.kept.get(lba, into) {
            return Ok(());
        }
        match self.disk.read(lba, into) {
            Ok(()) => {
                let _ = self.kept.put(lba, into);
                Ok(())
            }
            Err(fault) => Err(fault),
        }
    }

    fn write(&mut self, lba: Lba, bytes: &[u8; B]) -> Result<(), Fault> {
        self.kept.clear();
        self.disk.write(lba, bytes)
    }

    fn flush(&mut self) -> Result<(), Fault> {
        self.kept.clear();
        self.disk.flush()
    }
}
