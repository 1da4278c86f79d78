//! Slices, and where their labels stand.

ghost use Rattle.std.specs.Prelude.{◌≡◌, ◌<◌, ◌+◌, ◌++◌, filter, flat_map, option_map, option_to_list, length, slice_index_or, None, IfOk};
ghost use Rattle.std.specs.Prelude.{OnOk, IfSome};
ghost use Rattle.pt_sector.specs.Sectors.{IsSectorSize};
ghost use Rattle.pt_members.specs.Members.{slots, number_at, has_place, slice_of, slice_in, places_of, entries_as, entry_member};
ghost use Rattle.pt_members.specs.Tables.{HasFour};
ghost use Rattle.pt_members.specs.inner.Members.{placed_in};

use crate::layout::{Body, Slice};
use crate::member::{Kind, Member};
use crate::slots::{count_slots, entry_of, is_slice_type};
use pt_gpt::Entry;
use std::alloc::{AllocError, Global};

// The slice that a member is, where it is one and has a label place on a disk of so many sectors.
#[tactic(auto, using(crate::proofs::LabelPlaces::no_slice))]
pub(crate) fn placed(sectors: u64, m: &Member) -> Option<Slice>
    ensures value { option_to_list result ≡ filter (has_place sectors) (slice_of m.now) }
    ensures within { IfSome result (λ s. s.first + 1 < sectors) }
{
    if m.kind != Kind::Slice || m.last >= 1 << 63 || m.last <= m.first {
        return None;
    }
    let first = m.first as u64;
    if first + 1 >= sectors {
        return None;
    }
    Some(Slice {
        number: m.path.number,
        first,
        len: m.last as u64 - first + 1,
    })
}

// The slice that an entry of this number is, where it is one and has a label place on a disk of so many sectors. Most are none,
// and no member is made to see it.
pub(crate) fn placed_entry<const B: usize>(
    sectors: u64,
    number: u64,
    entry: &Option<Entry>,
) -> Option<Slice>
    ensures value { option_to_list result ≡ placed_in sectors (option_map (entry_member B number) entry.now) }
    ensures within { IfSome result (λ s. s.first + 1 < sectors) }
{
    let entry = match entry {
        Some(entry) => entry,
        None => return None,
    };
    if B != 512 || !is_slice_type(&entry.kind) {
        return None;
    }
    placed(sectors, &entry_of::<B>(number, entry))
}

fn push_place(places: &mut Vec<Slice>, place: Option<Slice>) -> Result<(), AllocError>
    ensures { OnOk result (places.new.items ≡ places.old.items ++ option_to_list place) }
{
    if let Some(slice) = place {
        places.push(slice)?;
    }
    Ok(())
}

// The slices among entries that have a label place on a disk of so many sectors.
#[tactic(auto, using(crate::proofs::LabelPlaces::placed_more, crate::proofs::ByPlace::entry_at, crate::proofs::ByPlace::entries_len))]
fn entry_places<const B: usize>(
    alloc: Global,
    sectors: u64,
    entries: &[Option<Entry>],
) -> Result<Vec<Slice>, AllocError>
    ensures { IfOk result (λ v. v.items ≡ filter (has_place sectors) (flat_map slice_in (entries_as B 1 entries.now))) }
{
    let mut places = Vec::new(alloc);
    for k in 0..entries.len() {
        push_place(
            &mut places,
            placed_entry::<B>(sectors, 1 + k as u64, &entries[k]),
        )?;
    }
    Ok(places)
}

/// The slices that have a label place on a disk of so many sectors, in order of their numbers.
///
/// The second clause says what the type of a body does, since contracts see a body without types.
pub fn label_places<const B: usize>(
    alloc: Global,
    sectors: u64,
    body: &Body,
) -> Result<Vec<Slice>, AllocError>
    requires { IsSectorSize B }
    ensures value { IfOk result (λ v. v.items ≡ places_of B sectors body.now) }
    ensures four { HasFour body.now }
{
    if let Body::Gpt(table) = body {
        return entry_places::<B>(alloc, sectors, table.entries.as_slice());
    }
    let _four = count_slots::<B>(body);
    let mut places = Vec::new(alloc);
    for member in body.members::<B>() {
        push_place(&mut places, placed(sectors, &member))?;
    }
    Ok(places)
}
