//! The words `c`, `u`, `A`, `t` and `d` of an entry of a GPT.

ghost use Rattle.std.specs.Prelude.{◌≡◌, ◌≤◌, ◌<◌, IfSome, IfNone, length, Some, None};
ghost use Rattle.pt_edit.specs.Entries.{units_of, padded, named, is_elsewhere, unique_set, with_bit, bit_set, is_slice, entry_type};
ghost use Rattle.pt_edit.specs.Entries.{entry_typed, entry_deleted};
ghost use Rattle.pt_edit.specs.inner.Entries.{whole_of};

use crate::gpt::{Gpt, used_entry};
use pt_gpt::Table;
use pt_guid::{Guid, type_of_code};
use pt_members::{Layout, is_slice_type};
use pt_words::{Code, Refusal};

/// How many UTF-16 units an entry's name has.
const NAME_UNITS: usize = 36;

// The name's units with zeros after them; none where there are more than 36.
fn padded_units(name: &str) -> Option<[u16; NAME_UNITS]>
    ensures short { IfSome result (λ units. length (units_of name.now) ≤ 36) }
    ensures some { IfSome result (λ units. units ≡ padded (units_of name.now)) }
    ensures none { IfNone result (36 < length (units_of name.now)) }
{
    let mut units = [0; NAME_UNITS];
    let mut count = 0;
    for unit in name.encode_utf16() {
        if count == NAME_UNITS {
            return None;
        }
        units[count] = unit;
        count += 1;
    }
    Some(units)
}

// The layout with another name of one entry.
#[tactic(auto, using(crate::proofs::EntrySteps::with_whole), unfolding(crate::specs::Entries::named))]
pub(crate) fn rename(layout: Layout, number: u64, name: &str) -> Result<Layout, Refusal>
    ensures { result ≡ named number name.now layout }
{
    let gpt = Gpt::of(layout)?;
    let mut entry = used_entry(&gpt.table, number).ok_or(Refusal::NoSuchPartition)?;
    entry.name = padded_units(name).ok_or(Refusal::NameTooLong)?;
    Ok(gpt.with_entry(number, entry))
}

// Whether a used entry of another number has this GUID.
pub(crate) fn is_elsewhere(table: &Table, number: u64, guid: &Guid) -> bool
    requires { 1 ≤ number }
    ensures { result ≡ is_elsewhere table.now number guid.now }
{
    for index in 0..table.entries.len() {
        if index as u64 + 1 != number {
            if let Some(entry) = table.entries.get(index) {
                if entry.unique == *guid {
                    return true;
                }
            }
        }
    }
    false
}

// The layout with another unique GUID of one entry.
#[tactic(auto, using(crate::proofs::EntrySteps::with_whole), unfolding(crate::specs::Entries::unique_set))]
pub(crate) fn set_unique(layout: Layout, number: u64, guid: &Guid) -> Result<Layout, Refusal>
    ensures { result ≡ unique_set number guid.now layout }
{
    let gpt = Gpt::of(layout)?;
    let mut entry = used_entry(&gpt.table, number).ok_or(Refusal::NoSuchPartition)?;
    if is_elsewhere(&gpt.table, number, guid) {
        return Err(Refusal::SameGuid);
    }
    entry.unique = *guid;
    Ok(gpt.with_entry(number, entry))
}

// A word of attributes with one bit set or cleared; there is no bit past 63.
fn put_bit(word: u64, bit: u8, value: bool) -> u64
    ensures { result ≡ with_bit word bit value }
{
    if bit >= 64 {
        return word;
    }
    let mask = 1 << bit;
    if value { word | mask } else { word & !mask }
}

// The layout with one attribute bit of one entry set or cleared.
#[tactic(auto, using(crate::proofs::EntrySteps::with_whole), unfolding(crate::specs::Entries::bit_set))]
pub(crate) fn set_bit(layout: Layout, number: u64, bit: u8, value: bool) -> Result<Layout, Refusal>
    ensures { result ≡ bit_set number bit value layout }
{
    let gpt = Gpt::of(layout)?;
    let mut entry = used_entry(&gpt.table, number).ok_or(Refusal::NoSuchPartition)?;
    entry.attributes = put_bit(entry.attributes, bit, value);
    Ok(gpt.with_entry(number, entry))
}

// Whether a type is the slices'.
pub(crate) fn is_slice_kind_of<const B: usize>(kind: &Guid) -> bool
    ensures { result ≡ is_slice B kind.now.0 }
{
    B == 512 && is_slice_type(kind)
}

// The type of an entry by its code.
pub(crate) fn entry_type_of(code: &Code) -> Option<Guid>
    ensures some { IfSome result (λ guid. entry_type code.now ≡ Some guid.0) }
    ensures none { IfNone result (entry_type code.now ≡ None) }
{
    match code {
        Code::Two(_) => None,
        Code::Four(code) => type_of_code(*code),
    }
}

// The layout with another type of an entry.
#[tactic(auto, unfolding(crate::specs::Entries::entry_typed))]
pub(crate) fn set_entry_kind<const B: usize>(
    gpt: Gpt,
    number: u64,
    code: &Code,
) -> Result<Layout, Refusal>
    ensures { result ≡ entry_typed B gpt.table number code.now (whole_of gpt) }
{
    let mut entry = used_entry(&gpt.table, number).ok_or(Refusal::NoSuchPartition)?;
    let kind = entry_type_of(code).ok_or(Refusal::UnknownCode)?;
    if is_slice_kind_of::<B>(&entry.kind) || is_slice_kind_of::<B>(&kind) {
        return Err(Refusal::ContainerType);
    }
    entry.kind = kind;
    Ok(gpt.with_entry(number, entry))
}

// The layout without an entry and its label.
#[tactic(auto, unfolding(crate::specs::Entries::entry_deleted))]
pub(crate) fn delete_entry(gpt: Gpt, number: u64) -> Result<Layout, Refusal>
    ensures { result ≡ entry_deleted gpt.table number (whole_of gpt) }
{
    used_entry(&gpt.table, number).ok_or(Refusal::NoSuchPartition)?;
    Ok(gpt.without_entry(number))
}
