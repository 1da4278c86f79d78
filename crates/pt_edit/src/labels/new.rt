//! The word `n` with a letter: a new partition of a slice's label.

ghost use Rattle.std.specs.Prelude.{◌≡◌, ◌≢◌, ◌<◌, ◌≤◌, ◌^◌, IfOk, IfErr, Ok, Err};
ghost use Rattle.pt_words.specs.declared.error.Refusal.TheVariants.{Memory};
ghost use Rattle.pt_edit.specs.Space.{area_of, placed};
ghost use Rattle.pt_edit.specs.SliceLabels.{unused_at, new_type, area_in, len_of, in_32_bits, offset_by, new_entry, part_new};

use crate::labels::parts::{PartEntry, entry_of, part_type_of, put_entry};
use crate::space::{Lead, Run, Space, place, taken_by_parts};
use pt_bsd::{Form, Label, LabelEntry};
use pt_members::{Layout, Member};
use pt_words::{Asked, Code, Refusal};
use std::alloc::{AllocError, Global};

/// The type of a new partition where no code is given: a fast file system.
const FAST_FILE_SYSTEM: u8 = 7;

/// How many sectors at a slice's start are reserved.
const RESERVED: u128 = 16;

// The entry of a letter of a slice's label, where it is counted, isn't c, and has no sectors.
#[tactic(auto, unfolding(crate::specs::SliceLabels::unused_at))]
fn unused_of<const B: usize>(layout: &Layout, number: u64, letter: u8) -> Result<PartEntry, Refusal>
    ensures value { result ≡ unused_at B layout.now number letter }
    ensures within { IfOk result (λ _. letter < 8) }
    ensures small { IfOk result (λ s. s.slice.first < 2 ^ 66) }
{
    let spot = entry_of::<B>(layout, number, letter)?;
    if spot.entry.size != 0 {
        return Err(Refusal::NumberTaken);
    }
    Ok(spot)
}

fn new_type_of(code: &Option<Code>) -> Option<u8>
    ensures { result ≡ new_type code.now }
{
    match code {
        Some(code) => part_type_of(code),
        None => Some(FAST_FILE_SYSTEM),
    }
}

// Where a partition of a slice may stand.
pub(crate) fn space_in(alloc: Global, label: Label, slice: &Member) -> Result<Space, AllocError>
    requires { slice.now.first < 2 ^ 66 }
    ensures { IfOk result (λ s. area_of s ≡ area_in label slice.now) }
{
    let taken = taken_by_parts(alloc, &label, slice)?;
    Ok(Space {
        low: slice.first + RESERVED,
        high: slice.last,
        taken,
        lead: Lead::None,
    })
}

// Where a partition of a slice is placed.
#[tactic(auto, using(crate::proofs::Placing::placed_some))]
fn place_in(alloc: Global, label: Label, slice: &Member, asked: &Asked) -> Result<Run, Refusal>
    requires { slice.now.first < 2 ^ 66 }
    ensures ok { IfOk result (λ run. placed (area_in label slice.now) asked.now.alignment asked.now.start asked.now.end ≡ Ok run) }
    ensures some { IfOk result (λ run. run.first ≤ run.last) }
    ensures err { IfErr result (λ refusal. refusal ≢ Memory
        → placed (area_in label slice.now) asked.now.alignment asked.now.start asked.now.end ≡ Err refusal) }
{
    let space = space_in(alloc, label, slice)?;
    place(space, asked.alignment, asked.start, asked.end)
}

// The offset that a form gives to a sector, in a slice with this first sector.
fn offset_of(form: Form, slice_first: u128, sector: u128) -> Option<u32>
    ensures { result ≡ offset_by form slice_first sector }
{
    let offset = match form {
        Form::Relative => sector.checked_sub(slice_first)?,
        Form::Absolute => sector,
    };
    u32::try_from(offset).ok()
}

// How many sectors there are.
fn len_in(run: Run) -> Option<u32>
    requires { run.first ≤ run.last }
    ensures { result ≡ in_32_bits (len_of run) }
{
    u32::try_from(run.last - run.first).ok()?.checked_add(1)
}

// The entry of a new partition.
fn entry_with(size: u32, offset: u32, kind: u8) -> LabelEntry
    ensures { result ≡ new_entry size offset kind }
{
    LabelEntry {
        size,
        offset,
        fragment: 0,
        fstype: kind,
        frag: 0,
        cpg: 0,
    }
}

/// `n` with a letter: the layout with a new partition, of a letter from 0 for a, in the label of the slice of the number
/// that is asked for. All else of it stays.
///
/// The alignment, the start and the end are in the disk's own sector numbers. A partition may stand from the slice's
/// seventeenth sector on, and in none of the label's other partitions. Its offset is written in the label's form. Its
/// type is 07 where no code is given.
///
/// Refused, the first of these, with `NoSuchPartition` where the number is no slice's (there are none with sectors of
/// 4096 bytes), `ForeignLabel` where the slice has no label, `ContainerType` for c, `NoSuchPartition` for a letter that
/// the label doesn't count, `NumberTaken` for one that has sectors, `UnknownCode` for a code of four digits or 00, what
/// `place` of pt_edit::space refuses, and `LabelOffset` where the offset or the number of sectors is 2^32 or more. `Memory` is
/// lack of memory.
#[tactic(auto, unfolding(crate::specs::SliceLabels::part_new))]
pub fn new_part<const B: usize>(
    alloc: Global,
    layout: Layout,
    letter: u8,
    asked: &Asked,
) -> Result<Layout, Refusal>
    ensures ok { IfOk result (λ made. part_new B letter asked.now layout ≡ Ok made) }
    ensures err { IfErr result (λ refusal. refusal ≢ Memory → part_new B letter asked.now layout ≡ Err refusal) }
{
    let number = asked.number;
    let spot = unused_of::<B>(&layout, number, letter)?;
    let kind = new_type_of(&asked.code).ok_or(Refusal::UnknownCode)?;
    let run = place_in(alloc, spot.label, &spot.slice, asked)?;
    let offset = offset_of(spot.label.form(), spot.slice.first, run.first);
    let offset = offset.ok_or(Refusal::LabelOffset)?;
    let size = len_in(run).ok_or(Refusal::LabelOffset)?;
    let entry = entry_with(size, offset, kind);
    Ok(put_entry(layout, number, letter, &spot.label, entry))
}
