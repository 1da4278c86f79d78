//! A disk of which some sectors are known.

ghost use Rattle.std.specs.Prelude.{◌≡◌, ◌<◌, ◌≤◌, ◌*◌, ◌^◌, ℕ, List, [], ◌∷◌, length, IfSome, IfNone, is_some, refl};
ghost use Rattle.std.proofs.Common.{◌∙◌};
ghost use Rattle.std.proofs.lemmas.List.FromFn.{length-map-range_with_len};
ghost use Rattle.pt_sector.specs.Sectors.{IsSectorSize};
ghost use Rattle.pt_sector.specs.inner.ForFields.{stopped_same, untouched_same, untouched_on};
ghost use Rattle.pt_replay.specs.Wanted.{Leads, known_of, whole, replay_told, disk_of, IsView, Asks};
ghost use Rattle.pt_replay.specs.inner.Wanted.{AreOf};
ghost use Rattle.pt_replay.specs.inner.ForFields.{asks_same, asks_on};

use crate::index::Index;
use crate::view::View;
use pt_sector::{Disk, Fault, Lba, Moments};
use std::alloc::Global;

/// A disk that reads the known sectors, and fails at every other one and at every write.
///
/// What it tells is the whole disk: the known sectors, and what stands elsewhere.
#[derive(Drop)]
pub struct ReplayDisk<'a, const B: usize> {
    sectors: u64,
    numbers: &'a [u64],
    known: &'a [[u8; B]],
    index: Index,
    elsewhere: Moments<[u8; B]>,
    failed: Moments<Fault>,
    past: Moments<u64>,
    ghost paired: { length numbers.now ≡ length known.now },
    ghost fits: { sectors * B ≤ 2 ^ 64 },
    ghost indexed: { Leads numbers.now index },
}

impl<'a, const B: usize> ReplayDisk<'a, B> {
    /// None where there are not as many sectors as numbers, a sector isn't whole, the disk has 2^64 bytes, or the view's `primary`
    /// is none of its numbers.
    pub fn new(
        alloc: Global,
        view: &View<'a>,
        elsewhere: Moments<[u8; B]>,
    ) -> Option<ReplayDisk<'a, B>>
        requires { IsSectorSize B }
        ensures seen { IfSome result (λ d. (⟦<ReplayDisk<'a, B> as Disk<B>>⟧.told d).seen ≡ disk_of B view.now elsewhere.entry.items) }
        ensures view { IfSome result (λ d. AreOf B view.now d.sectors d.numbers.now d.known.now) }
        ensures is_view { IfSome result (λ d. IsView B view.now) }
        ensures none { IfNone result (¬ IsView B view.now) }
        ensures fresh { IfSome result (λ d. d.failed.items ≡ []) }
    {
        let (known, rest) = view.bytes.as_chunks::<B>();
        if rest.len() != 0 || view.numbers.len() != known.len() || view.primary > 2 {
            return None;
        }
        view.sectors.checked_mul(B as u64)?;
        Some(ReplayDisk {
            sectors: view.sectors,
            numbers: view.numbers,
            known,
            index: Index::new(alloc, view.numbers),
            elsewhere,
            failed: Moments::new(),
            past: Moments::new(),
        })
    }

    /// Whether a sector is known.
    pub fn is_known(&self, number: u64) -> bool
        requires { IsSectorSize B }
        ensures { result ≡ is_some (known_of self.now.numbers.now self.now.known.now number) }
    {
        known_at(&self.index, self.numbers, self.known, number).is_some()
    }
}

/// The sector of a number, where it is known.
#[tactic(auto, using(crate::proofs::FirstPlaces::known_none, crate::proofs::FirstPlaces::known_some))]
fn known_at<const B: usize>(
    index: &Index,
    numbers: &[u64],
    known: &[[u8; B]],
    number: u64,
) -> Option<[u8; B]>
    requires paired { length numbers.now ≡ length known.now }
    requires indexed { Leads numbers.now index.now }
    ensures { result ≡ known_of numbers.now known.now number }
{
    let place = match index.place(numbers, number) {
        Some(place) => place,
        None => return None,
    };
    if place < known.len() {
        return Some(known[place]);
    }
    None
}

impl<'a, const B: usize> Disk<B> for ReplayDisk<'a, B> {
    ghost tells = { Unit {0} };

    ghost told = { λ d. replay_told (whole d.sectors d.numbers.now d.known.now d.elsewhere.items) d.past.items };

    ghost count = { λ d. d.sectors };

    ghost faults = { λ d. d.failed.items };

    ghost name = { λ d. 0 };

    ghost reads = { λ a b. (b.sectors ≡ a.sectors)
        × Asks a.sectors a.numbers.now b.numbers.now a.known.now b.known.now a.failed.items b.failed.items };

    ghost reads_same = { untouched_same _ _ _ _ _ _ (λ a. (refl, asks_same _ _ _ _)) };

    ghost reads_on = { untouched_on _ _ _ _ _ _ (λ a b c ab bc. (bc.0 ∙ ab.0, asks_on _ _ _ _ _ _ _ _ _ _ _ ab.0 ab.1 bc.1)) };

    ghost bounded = { λ d. d.fits };

    ghost sized = { λ d tells. length-map-range_with_len _ 0 d.sectors };

    ghost may_be_seen = { λ d tells. stopped_same _ [] };

    fn sectors(&self) -> u64 {
        self.sectors
    }

    #[tactic(auto, using(crate::proofs::Walk::known_is_there))]
    fn read(&mut self, lba: Lba, into: &mut [u8; B]) -> Result<(), Fault> {
        match known_at(&self.index, self.numbers, self.known, lba.0) {
            Some(bytes) => {
                *into = bytes;
                Ok(())
            }
            None => {
                self.failed = self.failed.and(&Fault::Read(lba));
                Err(Fault::Read(lba))
            }
        }
    }

    #[tactic(auto, using(crate::proofs::ViewLemmas::moments_on))]
    fn write(&mut self, lba: Lba, _bytes: &[u8; B]) -> Result<(), Fault> {
        self.past = self.past.and(&lba.0);
        self.failed = self.failed.and(&Fault::Write(lba));
        Err(Fault::Write(lba))
    }

    #[tactic(auto, using(crate::proofs::ViewLemmas::moments_on))]
    fn flush(&mut self) -> Result<(), Fault> {
        self.past = self.past.and(&0);
        self.failed = self.failed.and(&Fault::Flush);
        Err(Fault::Flush)
    }
}
