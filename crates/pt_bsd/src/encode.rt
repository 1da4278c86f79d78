//! Writing a label over a slice's second sector.

ghost use Rattle.std.specs.Prelude.{◌≡◌, ◌<◌, ◌≤◌, ◌+◌, ◌*◌, ◌^◌, ℕ, List, [], ◌∷◌, ◌++◌, None, IfSome, IfNone, length, take, drop};
ghost use Rattle.std.specs.Prelude.{replicate, slice_index, slice_index_or};
ghost use Rattle.std.specs.List.{flat_map};
ghost use Rattle.byteorder.specs.Endian.{little_bytes};
ghost use Rattle.pt_sector.specs.Sectors.{IsSectorSize, number_at};
ghost use Rattle.pt_sum.specs.Sums.{xor_of};
ghost use Rattle.pt_bsd.specs.Labels.{LabelBytes, HasEntry, place_of, end_of, count_of, IsCounted, FitsSlice};
ghost use Rattle.pt_bsd.specs.inner.Labels.{put_at, ChangesOnly, head_from, HeadFits, tail_from, TailFits, entry_from, LabelEntryFits};
ghost use Rattle.pt_bsd.specs.inner.Labels.{HasFront, EntryIsPut, PutSoFar};

use crate::decode::{ENTRIES, ENTRY, MAGIC, decode_label};
use crate::label::{Label, LabelEntry};
use byteorder::{ByteOrder, LittleEndian};
use pt_sector::Sector;
use pt_sum::xor16;

#[tactic(auto, unfolding(crate::specs::inner::Labels::put_at))]
fn put(bytes: &mut [u8], at: usize, part: &[u8])
    requires { at + length part.now ≤ length bytes.old }
    ensures { bytes.new ≡ put_at at part.now bytes.old }
{
    bytes[at..at + part.len()].copy_from_slice(part);
}

fn put_name(bytes: &mut [u8], at: usize, name: &[u8; 16])
    requires { at + 16 ≤ length bytes.old }
    ensures put { bytes.new ≡ put_at at name.now bytes.old }
    ensures fits { length name.now ≡ 16 }
{
    put(bytes, at, &name[..]);
}

#[tactic(auto, unfolding(crate::specs::inner::Labels::put_at))]
fn put_u16(bytes: &mut [u8], at: usize, number: u16)
    requires { at + 2 ≤ length bytes.old }
    ensures put { bytes.new ≡ put_at at (little_bytes 2 number) bytes.old }
    ensures fits { number < 2 ^ 16 }
{
    LittleEndian::write_u16(&mut bytes[at..at + 2], number);
}

#[tactic(auto, unfolding(crate::specs::inner::Labels::put_at))]
fn put_u32(bytes: &mut [u8], at: usize, number: u32)
    requires { at + 4 ≤ length bytes.old }
    ensures put { bytes.new ≡ put_at at (little_bytes 4 number) bytes.old }
    ensures fits { number < 2 ^ 32 }
{
    LittleEndian::write_u32(&mut bytes[at..at + 4], number);
}

#[tactic(auto, unfolding(crate::specs::inner::Labels::put_at))]
fn put_geometry(bytes: &mut [u8], at: usize, numbers: &[u32; 4])
    requires { at + 16 ≤ length bytes.old }
    ensures put { bytes.new ≡ put_at at (flat_map (little_bytes 4) numbers.now) bytes.old }
    ensures fits { length numbers.now ≡ 4 }
    ensures small { (i : ℕ) → slice_index numbers.now i < 2 ^ 32 }
{
    LittleEndian::write_u32_into(numbers, &mut bytes[at..at + 16]);
}

// Bytes 0 to 63.
#[tactic(auto, unfolding(crate::specs::inner::Labels::head_from))]
fn head(label: &Label) -> [u8; 64]
    ensures bytes { result ≡ head_from label.now label.now.type_name label.now.pack_name label.now.geometry }
    ensures fits { HeadFits label.now }
{
    let mut bytes = [0; 64];
    put_u32(&mut bytes, 0, MAGIC);
    put_u16(&mut bytes, 4, label.kind);
    put_u16(&mut bytes, 6, label.subtype);
    put_name(&mut bytes, 8, &label.type_name);
    put_name(&mut bytes, 24, &label.pack_name);
    put_u32(&mut bytes, 40, 512);
    put_geometry(&mut bytes, 44, &label.geometry);
    put_u32(&mut bytes, 60, label.unit);
    bytes
}

// Bytes 132 to 147, with zeros in place of the sum.
#[tactic(auto, unfolding(crate::specs::inner::Labels::tail_from))]
fn tail(label: &Label, count: u16) -> [u8; 16]
    ensures bytes { result ≡ tail_from label.now count }
    ensures fits { TailFits label.now }
{
    let mut bytes = [0; 16];
    put_u32(&mut bytes, 0, MAGIC);
    put_u16(&mut bytes, 6, count);
    put_u32(&mut bytes, 8, label.bbsize);
    put_u32(&mut bytes, 12, label.sbsize);
    bytes
}

#[tactic(auto, unfolding(crate::specs::inner::Labels::entry_from))]
fn entry_bytes(entry: &LabelEntry) -> [u8; 16]
    ensures bytes { result ≡ entry_from entry.now }
    ensures fits { LabelEntryFits entry.now }
{
    let mut bytes = [0; 16];
    put_u32(&mut bytes, 0, entry.size);
    put_u32(&mut bytes, 4, entry.offset);
    put_u32(&mut bytes, 8, entry.fragment);
    put(&mut bytes, 12, &[entry.fstype, entry.frag]);
    put_u16(&mut bytes, 14, entry.cpg);
    bytes
}

fn put_kept(bytes: &mut [u8], at: usize, kept: &[u8; 68])
    requires { at + 68 ≤ length bytes.old }
    ensures put { bytes.new ≡ put_at at kept.now bytes.old }
    ensures fits { length kept.now ≡ 68 }
{
    put(bytes, at, &kept[..]);
}

// All but the entries, with zeros in place of the sum.
fn put_front(bytes: &mut [u8], label: &Label, count: u16)
    requires { 512 ≤ length bytes.old }
    ensures front { HasFront label.now count bytes.new }
    ensures only { ChangesOnly 0 148 bytes.old bytes.new }
{
    put(bytes, 0, &head(label)[..]);
    put_kept(bytes, 64, &label.kept);
    put(bytes, 132, &tail(label, count)[..]);
}

fn put_entry(bytes: &mut [u8], at: usize, entry: &LabelEntry)
    requires { at + 16 ≤ length bytes.old }
    ensures here { HasEntry entry.now at bytes.new }
    ensures only { ChangesOnly at (at + 16) bytes.old bytes.new }
{
    put(bytes, at, &entry_bytes(entry)[..]);
}

fn put_entries(bytes: &mut [u8], entries: &[Option<LabelEntry>; 8], count: usize)
    requires long { 512 ≤ length bytes.old }
    requires count { count ≤ 8 }
    ensures { PutSoFar entries.now count bytes.old bytes.new }
{
    for k in 0..count {
        if let Some(entry) = &entries[k] {
            put_entry(bytes, ENTRIES + ENTRY * k, entry);
        }
    }
}

fn count_in(entries: &[Option<LabelEntry>; 8]) -> usize
    ensures count { result ≡ count_of entries.now }
    ensures most { result ≤ 8 }
{
    let mut count = 0;
    while count < 8 && entries[count].is_some() {
        count += 1;
    }
    count
}

// The sum that makes the words through the last counted entry have none.
fn put_sum(bytes: &mut [u8], count: usize)
    requires long { 512 ≤ length bytes.old }
    requires count { count ≤ 8 }
    requires none_yet { number_at 136 2 bytes.old ≡ 0 }
    ensures sum { xor_of (take (place_of count) bytes.new) ≡ 0 }
    ensures only { ChangesOnly 136 138 bytes.old bytes.new }
{
    let end = ENTRIES + ENTRY * count;
    let sum = xor16(&bytes[..end]);
    put_u16(bytes, 136, sum);
}

fn write_label(bytes: &mut [u8], label: &Label)
    requires { 512 ≤ length bytes.old }
    ensures label { IsCounted label.now → (first len : ℕ) → FitsSlice label.now first len
        → LabelBytes label.now first len bytes.new }
    ensures rest { drop (end_of label.now) bytes.new ≡ drop (end_of label.now) bytes.old }
{
    let count = count_in(&label.entries);
    put_front(bytes, label, count as u16);
    put_entries(bytes, &label.entries, count);
    put_sum(bytes, count);
}

/// The sector `under` with the label in its place: a right checksum, and behind the last counted entry the bytes of
/// `under`.
///
/// Entries behind the first `None` are not written. A label of three to eight entries, with none behind the first
/// `None`, is read again, in each slice that its entry c fits; of another label's bytes nothing is promised but those
/// behind its last counted entry.
pub fn encode_label<const B: usize>(label: &Label, under: &Sector<B>) -> Sector<B>
    requires size { IsSectorSize B }
    ensures label { IsCounted label.now → (first len : ℕ) → FitsSlice label.now first len
        → LabelBytes label.now first len result }
    ensures again { (first len : ℕ) (bytes : List ℕ) → LabelBytes label.now first len bytes
        → LabelBytes label.now first len result }
    ensures rest { drop (end_of label.now) result ≡ drop (end_of label.now) under.now }
{
    let mut sector = *under;
    write_label(&mut sector[..], label);
    sector
}

/// The sector `under` with the label in its place, if it is read again there in a slice of these sectors.
///
/// A label of three to eight entries, with none behind the first `None`, whose entry c is that of the slice, always is.
pub fn encode_for<const B: usize>(
    label: &Label,
    slice_first: u64,
    slice_len: u64,
    under: &Sector<B>,
) -> Option<Sector<B>>
    requires size { IsSectorSize B }
    ensures some { IfSome result (λ s. LabelBytes label.now slice_first slice_len s) }
    ensures rest { IfSome result (λ s. drop (end_of label.now) s ≡ drop (end_of label.now) under.now) }
    ensures none { IfNone result (¬ (IsCounted label.now × FitsSlice label.now slice_first slice_len)) }
{
    let sector = encode_label(label, under);
    match decode_label(&sector, slice_first, slice_len) {
        Ok(found) => { if found == *label { Some(sector) } else { None } }
        Err(_) => None,
    }
}
