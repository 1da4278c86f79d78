//! The words `t` and `d` with a letter, of a partition of a slice's label.

ghost use Rattle.std.specs.Prelude.{◌≡◌, ◌<◌, ◌^◌, IfSome, IfOk, slice_index_or, None};
ghost use Rattle.pt_edit.specs.SliceLabels.{is_slice, slice_numbered, entry_at, part_at, with_part, with_entry_of, part_type, part_typed};
ghost use Rattle.pt_edit.specs.SliceLabels.{part_deleted};

use crate::labels::lists::put_label;
use pt_bsd::{Label, LabelEntry, RAW};
use pt_members::{Body, Kind, Layout, Member, find_label};
use pt_words::{Code, Refusal};

fn is_slice_of(m: &Member, number: u64) -> bool
    ensures { result ≡ is_slice number m.now }
{
    m.kind == Kind::Slice && m.path.number == number
}

// The slice of a number.
#[tactic(auto, unfolding(crate::specs::SliceLabels::slice_numbered))]
fn slice_of<const B: usize>(body: &Body, number: u64) -> Option<Member>
    ensures value { result ≡ slice_numbered B body.now number }
    ensures small { IfSome result (λ m. m.first < 2 ^ 66) }
{
    for row in body.rows::<B>() {
        if is_slice_of(&row.member, number) {
            return Some(row.member);
        }
    }
    None
}

/// An entry of a slice's label, with both.
#[derive(Clone, Copy)]
pub(crate) struct PartEntry {
    pub(crate) slice: Member,
    pub(crate) label: Label,
    pub(crate) entry: LabelEntry,
}

// The entry of a letter, where the label counts it.
fn counted(label: &Label, letter: u8) -> Option<LabelEntry>
    ensures value { result ≡ slice_index_or label.now.entries letter None }
    ensures within { IfSome result (λ _. letter < 8) }
{
    match label.entries.get(letter as usize) {
        Some(entry) => *entry,
        None => None,
    }
}

// The entry of a letter of a slice's label, where it is counted and isn't c.
#[tactic(auto, unfolding(crate::specs::SliceLabels::entry_at))]
pub(crate) fn entry_of<const B: usize>(
    layout: &Layout,
    number: u64,
    letter: u8,
) -> Result<PartEntry, Refusal>
    ensures value { result ≡ entry_at B layout.now number letter }
    ensures within { IfOk result (λ _. letter < 8) }
    ensures small { IfOk result (λ s. s.slice.first < 2 ^ 66) }
{
    let slice = slice_of::<B>(&layout.body, number).ok_or(Refusal::NoSuchPartition)?;
    let label = find_label(&layout.labels, number).ok_or(Refusal::ForeignLabel)?;
    if letter as usize == RAW {
        return Err(Refusal::ContainerType);
    }
    let entry = counted(&label, letter).ok_or(Refusal::NoSuchPartition)?;
    Ok(PartEntry {
        slice,
        label,
        entry,
    })
}

// The partition of a letter of a slice's label.
#[tactic(auto, unfolding(crate::specs::SliceLabels::part_at))]
fn part_of<const B: usize>(layout: &Layout, number: u64, letter: u8) -> Result<PartEntry, Refusal>
    ensures value { result ≡ part_at B layout.now number letter }
    ensures within { IfOk result (λ _. letter < 8) }
{
    let spot = entry_of::<B>(layout, number, letter)?;
    if spot.entry.size == 0 {
        return Err(Refusal::NoSuchPartition);
    }
    Ok(spot)
}

// The label with another entry of a letter.
fn put_part(mut label: Label, letter: u8, entry: LabelEntry) -> Label
    requires { letter < 8 }
    ensures { result ≡ with_part label letter entry }
{
    label.entries[letter as usize] = Some(entry);
    label
}

// The layout with another entry of a letter in the label of a number.
pub(crate) fn put_entry(
    layout: Layout,
    number: u64,
    letter: u8,
    label: &Label,
    entry: LabelEntry,
) -> Layout
    requires { letter < 8 }
    ensures { result ≡ with_entry_of number label.now letter entry layout }
{
    let label = put_part(*label, letter, entry);
    let (sectors, body, labels) = layout.into_parts();
    Layout {
        sectors,
        body,
        labels: put_label(labels, number, &label),
    }
}

// The type of a label's partition by its code.
pub(crate) fn part_type_of(code: &Code) -> Option<u8>
    ensures { result ≡ part_type code.now }
{
    match code {
        Code::Two(code) if *code != 0 => Some(*code),
        _ => None,
    }
}

/// `t`: the layout with another type of the partition of a letter, from 0 for a, in the label of the slice of a
/// number. All else of it stays.
///
/// Refused, the first of these, with `NoSuchPartition` where the number is no slice's (there are none with sectors of
/// 4096 bytes), `ForeignLabel` where the slice has no label, `ContainerType` for c, `NoSuchPartition` for a letter that
/// the label doesn't count or that has no sectors, and `UnknownCode` for a code of four digits or 00.
#[tactic(auto, unfolding(crate::specs::SliceLabels::part_typed))]
pub fn set_part_kind<const B: usize>(
    layout: Layout,
    number: u64,
    letter: u8,
    code: &Code,
) -> Result<Layout, Refusal>
    ensures { result ≡ part_typed B number letter code.now layout }
{
    let spot = part_of::<B>(&layout, number, letter)?;
    let mut entry = spot.entry;
    entry.fstype = part_type_of(code).ok_or(Refusal::UnknownCode)?;
    Ok(put_entry(layout, number, letter, &spot.label, entry))
}

/// `d`: the layout with the entry of a letter, from 0 for a, all zero in the label of the slice of a number.
///
/// Refused as `set_part_kind`, but for the code.
#[tactic(auto, unfolding(crate::specs::SliceLabels::part_deleted))]
pub fn delete_part<const B: usize>(
    layout: Layout,
    number: u64,
    letter: u8,
) -> Result<Layout, Refusal>
    ensures { result ≡ part_deleted B number letter layout }
{
    let spot = part_of::<B>(&layout, number, letter)?;
    let zero = LabelEntry {
        size: 0,
        offset: 0,
        fragment: 0,
        fstype: 0,
        frag: 0,
        cpg: 0,
    };
    Ok(put_entry(layout, number, letter, &spot.label, zero))
}
