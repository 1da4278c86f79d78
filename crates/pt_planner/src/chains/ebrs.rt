//! What an extended boot record must hold, and whether those of a wanted layout link on from the first sector of its
//! extended partition.

ghost use Rattle.std.specs.Prelude.{◌≡◌, ◌↔◌, ◌≤◌, ◌<◌, ◌%◌, ◌^◌, [], length, Some, IsTrue, ℕ, List, Option, IfSome, IfNone};
ghost use Rattle.pt_sector.specs.Sectors.{IsSectorSize};
ghost use Rattle.pt_sector.specs.declared.address.Lba.{Lba};
ghost use Rattle.pt_mbr.specs.Chain.{IsInside, IsUpward, lba, EbrBytes};
ghost use Rattle.pt_mbr.specs.Records.{extended_of, extent_of, record_bytes};
ghost use Rattle.pt_mbr.specs.Changes.{LinksTo, reach_of};
ghost use Rattle.pt_mbr.specs.declared.ebr.Ebr.{Ebr};
ghost use Rattle.pt_cases.specs.Writes.{IsLoneChain, LinkedOn, link_to, IsEbrOver, IsEbrMade};
ghost use Rattle.pt_cases.specs.Unplanned.{LeadsOn, FitsEbr};
ghost use Rattle.pt_planner.specs.inner.Places.{AreEbr};

use pt_mbr::{
    Ebr, Extended, FARTHEST, MOST_EBRS, Record, change_ebr, decode_ebr, extended_of, new_ebr,
};
use pt_recover::Ebrs;
use pt_sector::{Lba, Sector};

fn is_inside(extended: &Record, sectors: u64, at: Lba) -> bool
    ensures { IsTrue result ↔ IsInside (extent_of extended.now) sectors at }
{
    let first = u64::from(extended.start);
    let last = (first + u64::from(extended.size)).saturating_sub(1);
    first <= at.0 && at.0 <= last && at.0 < sectors
}

fn is_upward(ebr: &Ebr) -> bool
    ensures { IsTrue result ↔ IsUpward ebr.now.at ebr.now.next }
{
    match ebr.next {
        Some(next) => ebr.at.0 < next.0,
        None => true,
    }
}

// Whether the extended boot record stands at a place that leads to it, inside the extended partition, and links upward.
fn is_link(extended: &Record, sectors: u64, to: Option<Lba>, ebr: &Ebr) -> bool
    ensures { IsTrue result ↔ ((to ≡ Some ebr.now.at) × IsInside (extent_of extended.now) sectors ebr.now.at
        × IsUpward ebr.now.at ebr.now.next) }
{
    to == Some(ebr.at) && is_inside(extended, sectors, ebr.at) && is_upward(ebr)
}

// Whether these link on from the first sector of the extended partition, and the last links to none.
fn links_on(extended: &Record, sectors: u64, chain: &[Ebr]) -> bool
    ensures { IsTrue result ↔ LinkedOn (extent_of extended.now) sectors (Some (lba (extent_of extended.now).first)) chain.now }
{
    let mut to = Some(Lba(u64::from(extended.start)));
    for k in 0..chain.len() {
        let ebr = chain[k];
        if !is_link(extended, sectors, to, &ebr) {
            return false;
        }
        to = ebr.next;
    }
    to.is_none()
}

/// Whether these extended boot records are a chain of the lone extended one of these records, on a disk of so many
/// sectors: at most 128 of them, the first in the first sector of the extended partition, each in its extent and on the
/// disk, each linking upward to the next, the last to none. Without an extended record there are none; two have none.
pub fn is_linked(sectors: u64, records: &[Option<Record>; 4], chain: &Ebrs) -> bool
    ensures { IsTrue result ↔ IsLoneChain sectors (extended_of records.now) chain.now }
{
    let chain = chain.as_slice();
    match extended_of(records) {
        Extended::Nothing => chain.is_empty(),
        Extended::One(extended) => chain.len() <= MOST_EBRS && links_on(&extended, sectors, chain),
        Extended::More(_) => false,
    }
}

// How many sectors there are from an extended boot record to the end of its logical partition.
fn reach(logical: &Option<Record>) -> u64
    ensures { result ≡ reach_of logical.now }
{
    match logical {
        Some(part) => u64::from(part.start) + u64::from(part.size),
        None => 1,
    }
}

fn low_bits(number: u64) -> u32
    ensures { result ≡ number % 2 ^ 32 }
{
    (number % (1 << 32)) as u32
}

// The link to the first of these, none where there is none. Of a start and of a size it has the low 32 bits; what reads
// the sector back tells whether it leads there.
fn link_for(first: Lba, rest: &[Ebr]) -> Option<Record>
    ensures bytes { record_bytes result ≡ record_bytes (link_to first.0 rest.now) }
    ensures leads { (next : Option Lba) → LeadsOn first.0 next rest.now → LinksTo first.0 next result }
{
    if rest.is_empty() {
        return None;
    }
    let next = rest[0];
    Some(Record {
        boot: 0,
        start_chs: FARTHEST,
        kind: 0x05,
        end_chs: FARTHEST,
        start: low_bits(next.at.0.saturating_sub(first.0)),
        size: low_bits(reach(&next.logical)),
    })
}

// Whether the sector is this extended boot record.
fn reads_as<const B: usize>(sector: &Sector<B>, first: Lba, ebr: &Ebr) -> bool
    requires size { IsSectorSize B }
    requires small { first.0 < 2 ^ 63 }
    ensures { IsTrue result ↔ EbrBytes first.0 ebr.now.at ebr.now sector.now }
{
    match decode_ebr(sector, first, ebr.at) {
        Ok(read) => read == *ebr,
        Err(_) => false,
    }
}

// The sector of an extended boot record that stands there already, with what changes written; none where no bytes would
// do. The others of the chain are `rest`.
pub(crate) fn ebr_over<const B: usize>(
    under: &Sector<B>,
    first: Lba,
    ebr: &Ebr,
    rest: &[Ebr],
) -> Option<Sector<B>>
    requires size { IsSectorSize B }
    requires small { first.0 < 2 ^ 63 }
    ensures some { IfSome result (λ v. (w : Ebr) × IsEbrOver first.0 ebr.now w (link_to first.0 rest.now) under.now v) }
    ensures none { IfNone result ((w : Ebr) (v : List ℕ) → ¬ IsEbrOver first.0 ebr.now w (link_to first.0 rest.now) under.now v) }
    ensures unfit { IfNone result (¬ (FitsEbr first.0 ebr.now rest.now × AreEbr ebr.now under.now)) }
{
    let was = match decode_ebr(under, first, ebr.at) {
        Ok(was) => was,
        Err(_) => return None,
    };
    let changed = change_ebr(under, &was, ebr, &link_for(first, rest));
    if reads_as(&changed, first, ebr) {
        Some(changed)
    } else {
        None
    }
}

// The sector of an extended boot record where none stood; none where no bytes would do. The others of the chain are
// `rest`.
pub(crate) fn ebr_made<const B: usize>(first: Lba, ebr: &Ebr, rest: &[Ebr]) -> Option<Sector<B>>
    requires size { IsSectorSize B }
    requires small { first.0 < 2 ^ 63 }
    ensures some { IfSome result (λ v. IsEbrMade B first.0 ebr.now (link_to first.0 rest.now) v) }
    ensures none { IfNone result ((v : List ℕ) → ¬ IsEbrMade B first.0 ebr.now (link_to first.0 rest.now) v) }
    ensures unfit { IfNone result (¬ FitsEbr first.0 ebr.now rest.now) }
{
    let made = new_ebr(ebr, &link_for(first, rest));
    if reads_as(&made, first, ebr) {
        Some(made)
    } else {
        None
    }
}
