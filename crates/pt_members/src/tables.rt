//! The sectors that hold tables.

ghost use Rattle.std.specs.Prelude.{◌≡◌, ◌<◌, ◌+◌, ◌^◌, ◌↔◌, IfSome, IsTrue, filter, flat_map, option_to_list};
ghost use Rattle.pt_sector.specs.Sectors.{IsSectorSize};
ghost use Rattle.pt_mbr.specs.Chain.{StandsAt};
ghost use Rattle.pt_members.specs.Members.{places_of, IsPlace, entries_as, has_place, slice_in};
ghost use Rattle.pt_members.specs.Tables.{IsTable, IsEbr, IsBodyTable, IsGptTable, Lists, AreAlone, NextSectorIs, least_of};

use crate::alone::{Alone, next_among};
use crate::layout::{Body, Layout, Slice};
use crate::slices::{placed, placed_entry};
use pt_gpt::{Entry, first_usable};
use pt_mbr::Ebr;
use pt_sector::Lba;

// The lesser of two sectors.
pub fn least(a: Option<u64>, b: Option<u64>) -> Option<u64>
    ensures { result ≡ least_of a b }
{
    match (a, b) {
        (Some(x), Some(y)) => { if y < x { Some(y) } else { Some(x) } }
        (Some(x), None) => Some(x),
        (None, y) => y,
    }
}

// The sector, where it isn't below the other.
fn not_below(lba: u64, from: u64) -> Option<u64>
    ensures { NextSectorIs (λ s. s ≡ lba) from result }
{
    if from <= lba { Some(lba) } else { None }
}

fn next_ebr(chain: &[Ebr], from: u64) -> Option<u64>
    ensures { NextSectorIs (λ s. StandsAt s chain.now) from result }
{
    let mut next = None;
    for k in 0..chain.len() {
        next = least(next, not_below(chain[k].at.0, from));
    }
    next
}

fn next_of_gpt<const B: usize>(sectors: u64, from: u64) -> Option<u64>
    requires { IsSectorSize B }
    ensures { NextSectorIs (IsGptTable B sectors) from result }
{
    let edge = first_usable::<B>();
    if from < edge {
        return Some(from);
    }
    if from >= sectors {
        return None;
    }
    let end = sectors.saturating_sub(edge - 1);
    if from < end { Some(end) } else { Some(from) }
}

fn next_of_body<const B: usize>(sectors: u64, body: &Body, from: u64) -> Option<u64>
    requires { IsSectorSize B }
    ensures { NextSectorIs (IsBodyTable B sectors body.now) from result }
{
    match body {
        Body::Mbr { chain, .. } => least(not_below(0, from), next_ebr(chain.as_slice(), from)),
        Body::Gpt(_) => next_of_gpt::<B>(sectors, from),
    }
}

// The label place of a slice, where there is one that has it, and it isn't below a sector.
fn place_from(slice: Option<Slice>, from: u64) -> Option<u64>
    requires { IfSome slice (λ s. s.first + 1 < 2 ^ 64) }
    ensures { NextSectorIs (IsPlace (option_to_list slice)) from result }
{
    not_below(slice?.first + 1, from)
}

// The lowest label place of an entry's slice from a sector on.
#[tactic(auto, using(crate::proofs::ByPlace::entry_at, crate::proofs::ByPlace::entries_len))]
fn next_of_entries<const B: usize>(
    sectors: u64,
    entries: &[Option<Entry>],
    from: u64,
) -> Option<u64>
    ensures { NextSectorIs (IsPlace (filter (has_place sectors) (flat_map slice_in (entries_as B 1 entries.now)))) from result }
{
    let mut next = None;
    for k in 0..entries.len() {
        let slice = placed_entry::<B>(sectors, 1 + k as u64, &entries[k]);
        next = least(next, place_from(slice, from));
    }
    next
}

fn next_label<const B: usize>(sectors: u64, body: &Body, from: u64) -> Option<u64>
    ensures { NextSectorIs (IsPlace (places_of B sectors body.now)) from result }
{
    if let Body::Gpt(table) = body {
        return next_of_entries::<B>(sectors, table.entries.as_slice(), from);
    }
    let mut next = None;
    for member in body.members::<B>() {
        next = least(next, place_from(placed(sectors, &member), from));
    }
    next
}

// The lowest from one on that is a table's, of a kind of table whose extended boot records are these.
fn next_of_kind<const B: usize>(sectors: u64, body: &Body, ebrs: &[u64], from: u64) -> Option<u64>
    requires size { IsSectorSize B }
    requires ebrs { Lists (IsEbr body.now) ebrs.now }
    ensures { NextSectorIs (IsBodyTable B sectors body.now) from result }
{
    match body {
        Body::Mbr { .. } => least(not_below(0, from), next_among(ebrs, from)),
        Body::Gpt(_) => next_of_gpt::<B>(sectors, from),
    }
}

// The lowest table sector from one on, of a layout whose lone table sectors are these.
pub fn next_table<const B: usize>(layout: &Layout, alone: &Alone, from: u64) -> Option<u64>
    requires size { IsSectorSize B }
    requires all { AreAlone B layout.now alone.now }
    ensures { NextSectorIs (IsTable B layout.now) from result }
{
    let body = next_of_kind::<B>(layout.sectors, &layout.body, &alone.ebrs, from);
    let label = next_among(&alone.places, from);
    least(body, label)
}

fn is_body_table<const B: usize>(sectors: u64, body: &Body, lba: u64) -> bool
    requires { IsSectorSize B }
    ensures { IsTrue result ↔ IsBodyTable B sectors body.now lba }
{
    next_of_body::<B>(sectors, body, lba) == Some(lba)
}

fn is_label_place<const B: usize>(sectors: u64, body: &Body, lba: u64) -> bool
    ensures { IsTrue result ↔ IsPlace (places_of B sectors body.now) lba }
{
    next_label::<B>(sectors, body, lba) == Some(lba)
}

/// Whether a sector is one of the layout's tables.
///
/// Of a GPT these are sector 0, both headers and both arrays, counted or not; of an MBR sector 0 and the extended
/// boot records; of both the label places.
pub fn is_table<const B: usize>(layout: &Layout, lba: Lba) -> bool
    requires { IsSectorSize B }
    ensures { IsTrue result ↔ IsTable B layout.now lba.0 }
{
    if is_body_table::<B>(layout.sectors, &layout.body, lba.0) {
        return true;
    }
    is_label_place::<B>(layout.sectors, &layout.body, lba.0)
}

// Whether a sector is an extended boot record of a layout whose lone table sectors are these.
pub fn is_ebr<const B: usize>(layout: &Layout, alone: &Alone, lba: u64) -> bool
    requires { AreAlone B layout.now alone.now }
    ensures { IsTrue result ↔ IsEbr layout.now.body lba }
{
    next_among(&alone.ebrs, lba) == Some(lba)
}
