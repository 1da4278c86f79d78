ghost use Rattle.std.specs.Prelude.{◌≡◌, ◌≤◌, ◌<◌, ◌+◌, ◌↔◌, ℕ, List, [], ◌∷◌, ◌++◌, Some, Ok, length, slice_set, IfErr, IsErr, OnOk};
ghost use Rattle.std.specs.Prelude.{OnErr};
ghost use Rattle.std.proofs.Common.{refl, ◌∙◌};
ghost use Rattle.pt_sector.specs.declared.disk.Fault.TheVariants.{Read, Write, Flush};
ghost use Rattle.pt_sector.specs.Device.{Wrote, FailedWrite, Flushed, Blames};
ghost use Rattle.pt_sector.specs.inner.ForFields.{untouched_same, untouched_on, through_same, through_on, stopped_same, length-shown};
ghost use Rattle.pt_sector.specs.inner.ForFields.{outside_same, outside_on};
ghost use Rattle.pt_sector.specs.Sectors.{Sectors};
ghost use Rattle.pt_sector.specs.Overlays.{ReadsThrough, content, IsOwnSector, shown, room_left, room_for, own_writes, CameOutside};

use crate::address::Lba;
use crate::disk::{Disk, Fault};
use crate::moments::Moments;
use crate::own::Own;
use crate::room::Room;

/// A disk that reads through to a borrowed one, and keeps what is written to it as sectors of its own.
///
/// A write is durable at once, and a flush does nothing. The borrowed disk stays as it was but for its faults, and those
/// are of reads of sectors that aren't the overlay's own.
/// `W` is always `Own<B>`.
pub struct Overlay<'a, D: Disk<B>, const B: usize, W: Drop = Own<B>> {
    disk: &'a mut D,
    own: W,
    past: Moments<W>,
    failed: Moments<Fault>,
}

impl<D: Disk<B>, const B: usize, W: Drop> Drop for Overlay<'_, D, B, W> {
    fn drop(self)
        ensures { self.exit.0.now ≡ self.entry.disk.now }
    {
        let Self {
            disk: _,
            own: _,
            past: _,
            failed: _,
        } = self;
    }
}

impl<'a, D: Disk<B>, const B: usize> Overlay<'a, D, B> {
    /// An overlay with no sectors of its own yet.
    pub fn new(disk: &'a mut D, room: Room<B>) -> Overlay<'a, D, B>
        ensures same_reference { result.disk.ghost_name ≡ disk.entry.ghost_name }
        ensures disk { result.disk.now ≡ disk.old }
        ensures seen { (content D.told result).seen ≡ (D.told disk.old).seen }
        ensures own { (d : Sectors) → shown d result.own ≡ d }
        ensures faults { result.failed.items ≡ [] }
        ensures room { room_left result.own ≡ room_for room.entry }
    {
        let Room { own } = room;
        Overlay {
            disk,
            own,
            past: Moments::new(),
            failed: Moments::new(),
        }
    }

    /// A write while there is room for another sector: it can't fail.
    pub fn put(&mut self, lba: Lba, bytes: &[u8; B])
        requires { 0 < room_left self.old.own }
        ensures same_reference { self.new.disk.ghost_name ≡ self.old.disk.ghost_name }
        ensures disk { self.new.disk.now ≡ self.old.disk.now }
        ensures faults { self.new.failed ≡ self.old.failed }
        ensures wrote { Wrote (content D.told self.old) (content D.told self.new) lba.0 bytes.now }
        ensures own { (d : Sectors) → shown d self.new.own ≡ slice_set (shown d self.old.own) lba.0 bytes.now }
        ensures room { room_left self.old.own ≤ room_left self.new.own + 1 }
    {
        self.past = self.past.and(&self.own);
        let _ = self.own.put(lba, bytes);
    }
}

impl<'a, D: Disk<B>, const B: usize> Disk<B> for Overlay<'a, D, B> {
    ghost tells = { D.tells };

    ghost told = { content D.told };

    ghost count = { λ o. D.count o.disk.now };

    ghost faults = { λ o. o.failed.items };

    ghost name = { λ o. o.disk.ghost_name };

    ghost reads = { λ o p. ReadsThrough D.Disk o.disk.now p.disk.now o.failed.items p.failed.items × (p.own ≡ o.own)
        × CameOutside (own_writes o.own) o.failed.items p.failed.items };

    ghost reads_same = { untouched_same _ _ _ _ _ _ (λ o. (
      through_same _ D.reads_same o.disk.now o.failed.items,
      refl,
      outside_same (own_writes o.own) o.failed.items,
    )) };

    ghost reads_on = { untouched_on _ _ _ _ _ _ (λ a b c ab bc. (
      through_on _ D.reads_on a.disk.now b.disk.now c.disk.now a.failed.items b.failed.items c.failed.items ab.0 bc.0,
      bc.1 ∙ ab.1,
      outside_on a.own b.own a.failed.items b.failed.items c.failed.items ab.1 ab.2 bc.2,
    )) };

    ghost bounded = { λ o. D.bounded o.disk.now };

    ghost sized = { λ o tells. length-shown (D.told o.disk.now).seen o.own ∙ D.sized o.disk.now tells };

    ghost may_be_seen = { λ o tells. stopped_same (shown (D.told o.disk.now).seen o.own) [] };

    fn sectors(&self) -> u64 {
        self.disk.sectors()
    }

    fn read(&mut self, lba: Lba, into: &mut [u8; B]) -> Result<(), Fault> {
        if self.own.get(lba, into) {
            return Ok(());
        }
        match self.disk.read(lba, into) {
            Ok(()) => Ok(()),
            Err(fault) => {
                self.failed = self.failed.and(&fault);
                Err(fault)
            }
        }
    }

    /// Fails for a sector that isn't its own where it has no room left for one, and only there.
    fn write(&mut self, lba: Lba, bytes: &[u8; B]) -> Result<(), Fault>
        ensures disk { self.new.disk.now ≡ self.old.disk.now }
        ensures name { self.new.disk.ghost_name ≡ self.old.disk.ghost_name }
        ensures blames { Blames Some result self.old.failed.items self.new.failed.items }
        ensures fault { IfErr result (λ e. e ≡ Write lba) }
        ensures done { OnOk result (Wrote (content D.told self.old) (content D.told self.new) lba.0 bytes.now) }
        ensures failed { OnErr result (FailedWrite (content D.told self.old) (content D.told self.new) lba.0 bytes.now) }
        ensures refused { IsErr result ↔ ((room_left self.old.own ≡ 0) × (IsOwnSector self.old lba.0 → ⊥)) }
        ensures kept { OnErr result (self.new.own ≡ self.old.own) }
        ensures room { room_left self.old.own ≤ room_left self.new.own + 1 }
    {
        self.past = self.past.and(&self.own);
        if self.own.put(lba, bytes) {
            return Ok(());
        }
        self.failed = self.failed.and(&Fault::Write(lba));
        Err(Fault::Write(lba))
    }

    /// It never fails, and leaves the borrowed disk and the sectors of its own as they are.
    fn flush(&mut self) -> Result<(), Fault>
        ensures ok { result ≡ Ok tt }
        ensures disk { self.new.disk.now ≡ self.old.disk.now }
        ensures name { self.new.disk.ghost_name ≡ self.old.disk.ghost_name }
        ensures own { self.new.own ≡ self.old.own }
        ensures faults { self.new.failed ≡ self.old.failed }
        ensures done { Flushed (content D.told self.old) (content D.told self.new) }
    {
        let moment = self.past.and(&self.own);
        self.past = moment;
        Ok(())
    }
}
