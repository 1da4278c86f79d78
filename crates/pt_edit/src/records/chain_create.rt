//! A new logical partition: where it is placed, and how it enters the chain.

ghost use Rattle.std.specs.Prelude.{◌≡◌, ◌≢◌, ◌≤◌, ◌<◌, ◌+◌, ◌-◌, ◌^◌, ◌++◌, IfOk, IfErr, OnOk, Ok, Err, flat_map, length, IfSome};
ghost use Rattle.pt_edit.specs.Space.{area_of, placed};
ghost use Rattle.pt_edit.specs.Chains.{own_sector, taken_of, empty_sector, logical_area, number_at, empty_at, place_for, link_at, linked};
ghost use Rattle.pt_edit.specs.Chains.{with_ebr, entered, record_for, is_misfit, labels_with, logical_new};

use crate::labels::{add_label, raise_labels};
use crate::records::chain_edit::put_logical;
use crate::records::types::{is_slice_kind, new_type_of};
use crate::space::{Lead, Run, Space, place, taken_by_logicals};
use pt_bsd::empty_label;
use pt_mbr::{Ebr, FARTHEST, MOST_EBRS, Record, is_extended_kind};
use pt_members::{Ebrs, Labels, logical_number};
use pt_sector::Lba;
use pt_words::{Asked, Refusal};
use std::alloc::{AllocError, Global};

// The last sector of an extended partition.
fn last_of(start: u32, size: u32) -> u128
    ensures { result ≡ start + size - 1 }
{
    (u128::from(start) + u128::from(size)).saturating_sub(1)
}

// Adds an extended boot record's own sector.
fn push_own(taken: &mut Vec<Run>, ebr: &Ebr) -> Result<(), AllocError>
    ensures { OnOk result (taken.new.items ≡ taken.old.items ++ own_sector ebr.now) }
{
    let at = u128::from(ebr.at.0);
    Ok(taken.push(Run {
        first: at,
        last: at,
    })?)
}

// What isn't free in a chain.
fn taken_in(alloc: Global, chain: &[Ebr]) -> Result<Vec<Run>, AllocError>
    ensures { IfOk result (λ v. v.items ≡ taken_of chain.now) }
{
    let mut taken = taken_by_logicals(alloc, chain)?;
    for ebr in chain {
        push_own(&mut taken, ebr)?;
    }
    Ok(taken)
}

// Adds the sector of an extended boot record, where it is empty.
fn push_empty(empties: &mut Vec<u64>, ebr: &Ebr) -> Result<(), AllocError>
    ensures { OnOk result (empties.new.items ≡ empties.old.items ++ empty_sector ebr.now) }
{
    if ebr.logical.is_none() {
        empties.push(ebr.at.0)?;
    }
    Ok(())
}

// The sectors of a chain's empty records.
fn empties_in(alloc: Global, chain: &[Ebr]) -> Result<Vec<u64>, AllocError>
    ensures { IfOk result (λ v. v.items ≡ flat_map empty_sector chain.now) }
{
    let mut empties = Vec::new(alloc);
    for ebr in chain {
        push_empty(&mut empties, ebr)?;
    }
    Ok(empties)
}

// Where logical partitions are placed in an extended one with this chain.
pub(crate) fn space_in(alloc: Global, extended: &Record, chain: &[Ebr]) -> Result<Space, AllocError>
    ensures area { IfOk result (λ space. area_of space ≡ logical_area extended.now chain.now) }
    ensures small { IfOk result (λ space. space.high < 2 ^ 64) }
{
    let taken = taken_in(alloc, chain)?;
    let empties = empties_in(alloc, chain)?;
    Ok(Space {
        low: u128::from(extended.start),
        high: last_of(extended.start, extended.size),
        taken,
        lead: Lead::Record(empties),
    })
}

// The sectors of a new logical partition. The one before them is in the extended partition too.
#[tactic(auto, using(crate::proofs::ChainWithin::placed_within))]
fn place_in(alloc: Global, extended: &Record, chain: &[Ebr], asked: &Asked) -> Result<Run, Refusal>
    ensures ok { IfOk result (λ r. placed (logical_area extended.now chain.now) asked.now.alignment asked.now.start asked.now.end ≡ Ok r) }
    ensures within { IfOk result (λ run.
        extended.now.start < run.first × run.first ≤ run.last × run.last < extended.now.start + extended.now.size) }
    ensures err { IfErr result (λ refusal. refusal ≢ Refusal.Memory
        → placed (logical_area extended.now chain.now) asked.now.alignment asked.now.start asked.now.end ≡ Err refusal) }
{
    let space = space_in(alloc, extended, chain)?;
    place(space, asked.alignment, asked.start, asked.end)
}

// The place of the first extended boot record that stands in a sector and is empty.
fn find_empty(chain: &[Ebr], at: Lba) -> Option<usize>
    ensures value { result ≡ empty_at chain.now at.0 }
    ensures within { IfSome result (λ k. k < length chain.now) }
{
    for k in 0..chain.len() {
        if chain[k].at == at && chain[k].logical.is_none() {
            return Some(k);
        }
    }
    None
}

// The place by its sector of one that isn't in the chain yet.
fn place_for(chain: &[Ebr], at: Lba) -> usize
    ensures value { result ≡ place_for chain.now at.0 }
    ensures within { result ≤ length chain.now }
{
    for k in 0..chain.len() {
        if chain[k].at.0 >= at.0 {
            return k;
        }
    }
    chain.len()
}

// Where the one that comes to a place links.
fn link_of(chain: &[Ebr], k: usize) -> Option<Lba>
    requires { k ≤ length chain.now }
    ensures { result ≡ link_at chain.now k }
{
    if k != 0 {
        return chain[k - 1].next;
    }
    Some(chain.first()?.at)
}

// The chain where the one before a place links to a sector.
fn link(chain: Ebrs, k: usize, at: Lba) -> Ebrs
    requires { k ≤ length chain }
    ensures { result ≡ linked chain k at.0 }
{
    if k == 0 {
        return chain;
    }
    let mut items = chain.into_vec();
    let mut before = items[k - 1];
    before.next = Some(at);
    items[k - 1] = before;
    Ebrs::new(items)
}

// The chain with one more at a place.
fn put_ebr(chain: Ebrs, k: usize, at: Lba, logical: Record) -> Result<Ebrs, Refusal>
    requires { k ≤ length chain }
    ensures ok { IfOk result (λ made. made ≡ with_ebr chain k at.0 logical) }
    ensures err { IfErr result (λ refusal. refusal ≡ Refusal.Memory) }
{
    let ebr = Ebr {
        at,
        logical: Some(logical),
        next: link_of(chain.as_slice(), k),
    };
    let mut items = link(chain, k, at).into_vec();
    match items.insert(k, ebr) {
        Ok(()) => Ok(Ebrs::new(items)),
        Err(_) => Err(Refusal::Memory),
    }
}

// The chain with one more logical partition behind a sector, and its number.
#[tactic(auto, unfolding(crate::specs::Chains::entered))]
fn enter(chain: Ebrs, at: Lba, logical: Record) -> Result<(Ebrs, u64), Refusal>
    ensures ok { IfOk result (λ made. entered chain at.0 logical ≡ Ok made) }
    ensures err { IfErr result (λ refusal. refusal ≢ Refusal.Memory → entered chain at.0 logical ≡ Err refusal) }
{
    if let Some(k) = find_empty(chain.as_slice(), at) {
        let number = logical_number(chain.as_slice(), k);
        return Ok((put_logical(chain, k, Some(logical)), number));
    }
    if chain.as_slice().len() >= MOST_EBRS {
        return Err(Refusal::NoSpace);
    }
    let k = place_for(chain.as_slice(), at);
    let number = logical_number(chain.as_slice(), k);
    Ok((put_ebr(chain, k, at, logical)?, number))
}

// The record of a new logical partition.
fn record_of(kind: u8, size: u32) -> Record
    ensures { result ≡ record_for kind size }
{
    Record {
        boot: 0,
        start_chs: FARTHEST,
        kind,
        end_chs: FARTHEST,
        start: 1,
        size,
    }
}

// Whether a slice has no sector for its label. Every number of 32 bits can be told by a label.
fn is_misfit<const B: usize>(kind: u8, size: u32) -> bool
    ensures { result ≡ is_misfit B kind size }
{
    is_slice_kind::<B>(kind) && size < 2
}

// The labels with a new logical partition's number, and its label where it is a slice.
fn move_labels<const B: usize>(
    alloc: Global,
    labels: Labels,
    number: u64,
    kind: u8,
    size: u32,
) -> Result<Labels, AllocError>
    ensures { IfOk result (λ left. left ≡ labels_with B kind size number labels) }
{
    let labels = raise_labels(labels, number);
    if is_slice_kind::<B>(kind) {
        add_label(alloc, labels, number, &empty_label(size))
    } else {
        Ok(labels)
    }
}

/// The chain and the labels with a new logical partition, in the extended partition of this record: the first one of
/// sector 0 that is used and of type 05 or 0F.
///
/// The number that is asked for isn't looked at: it is the partition's place in the chain. The alignment, the start and
/// the end are in the disk's own sector numbers. The partition's extended boot record stands in the sector before it: an
/// empty one that stands there is used, else a new one enters the chain at its place. The labels of it and the logical
/// partitions above it move to their new numbers, and a slice has the empty label. The first of these refusals is reported:
///
/// - `NoSuchPartition`: there is no extended partition.
/// - `UnknownCode`: the code isn't of two digits, or is 00 or EE; `ContainerType`: it is 05 or 0F.
/// - `NoSpace`, `OutsideUsable` and `Overlap` as `crate::space::place` reports them.
/// - `ContainerType`: a slice of fewer than two sectors.
/// - `NoSpace`: the chain has 128 extended boot records and would need another.
///
/// `Memory` is reported for lack of memory alone.
#[tactic(auto, using(crate::proofs::TypesLemmas::told_extended), unfolding(crate::specs::Chains::logical_new))]
pub fn new_logical<const B: usize>(
    alloc: Global,
    extended: Option<Record>,
    chain: Ebrs,
    labels: Labels,
    asked: &Asked,
) -> Result<(Ebrs, Labels), Refusal>
    ensures ok { IfOk result (λ made. logical_new B extended chain labels asked.now ≡ Ok made) }
    ensures err { IfErr result (λ refusal. refusal ≢ Refusal.Memory → logical_new B extended chain labels asked.now ≡ Err refusal) }
{
    let parent = extended.ok_or(Refusal::NoSuchPartition)?;
    let kind = new_type_of(&asked.code).ok_or(Refusal::UnknownCode)?;
    if is_extended_kind(kind) {
        return Err(Refusal::ContainerType);
    }
    let placed = place_in(alloc, &parent, chain.as_slice(), asked)?;
    let at = Lba((placed.first - 1) as u64);
    let size = (placed.last - placed.first + 1) as u32;
    if is_misfit::<B>(kind, size) {
        return Err(Refusal::ContainerType);
    }
    let (chain, number) = enter(chain, at, record_of(kind, size))?;
    let labels = move_labels::<B>(alloc, labels, number, kind, size)?;
    Ok((chain, labels))
}
