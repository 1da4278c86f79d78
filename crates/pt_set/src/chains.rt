//! The chain of extended boot records that the logical partitions of a draft become.

ghost use Rattle.std.specs.Prelude.{◌≡◌, ◌<◌, ◌^◌, ◌+◌, ◌-◌, ◌++◌, ◌∷◌, [], IfOk, IfErr, OnOk, Ok, Err, length, count_by};
ghost use Rattle.std.specs.Prelude.{drop, flat_map, nat_eq, nat_lt};
ghost use Rattle.std.specs.List.{list_any};
ghost use Rattle.pt_sector.specs.Sectors.{IsSectorSize};
ghost use Rattle.pt_set.specs.Chains.{AreEntered, IsEntered, at_for as at_spec, chain_of as chain_spec, first_row as first_spec};
ghost use Rattle.pt_set.specs.Chains.{from_on as from_on_spec, held_by as held_spec, is_chain as is_chain_spec, kept_for as kept_for_spec};
ghost use Rattle.pt_set.specs.Chains.{lead_of as lead_spec, links_for as links_spec, logical_at as logical_at_spec};
ghost use Rattle.pt_set.specs.Chains.{logical_in as logical_in_spec, logical_over as logical_over_spec};
ghost use Rattle.pt_set.specs.Chains.{new_at as new_at_spec, next_of as next_spec, own_sector as own_spec, rises as rises_spec};
ghost use Rattle.pt_set.specs.Chains.{stated_logicals as stated_spec, takes_record as takes_spec};
ghost use Rattle.pt_set.specs.Chains.{with_link as with_link_spec, with_logical};
ghost use Rattle.pt_set.specs.Places.{stated_by as stated_by_spec};
ghost use Rattle.pt_set.specs.inner.Made.{Tells};
ghost use Rattle.pt_set.specs.inner.Staged.{mbr_frame, row_of};

use crate::entries::put_label;
use crate::faults::{at, of};
use crate::past::{Logical, Was, kept, kept_at, was_logical};
use crate::places::{Bounds, length_of, place_in, stated_by};
use crate::records::{Later, MbrBasis, is_past_record, record_label, record_with};
use pt_bsd::Label;
use pt_drafts::{Chain, DraftError, Key};
use pt_edit::space::Run;
use pt_mbr::{Ebr, FIRST_LOGICAL, MOST_EBRS, Record};
use pt_members::{Ebrs, Labels, find_label};
use pt_sector::Lba;
use std::alloc::{AllocError, Global};

/// What is made of the first logical partitions of a draft.
#[derive(Drop)]
pub(crate) struct Entering {
    pub(crate) labels: Labels,
    /// The sectors that aren't free.
    pub(crate) runs: Vec<Run>,
    /// The lowest sector where the next one's extended boot record may stand.
    pub(crate) least: u128,
    /// The sectors of all extended boot records.
    pub(crate) links: Vec<u64>,
    pub(crate) logicals: Vec<Logical>,
}

// ---- the sectors of extended boot records

// Whether each is above the one before it.
#[tactic(auto, using(crate::proofs::Steps::rises_here, crate::proofs::Steps::rises_next, crate::proofs::Steps::rises_end))]
fn rises(first: u64, sectors: &[u64]) -> bool
    ensures { result ≡ rises_spec first sectors.now }
{
    let mut last = first;
    for k in 0..sectors.len() {
        if sectors[k] <= last {
            return false;
        }
        last = sectors[k];
    }
    true
}

fn is_chain(start: u32, sectors: &[u64]) -> bool
    ensures { result ≡ is_chain_spec start sectors.now }
{
    match sectors {
        [] => false,
        [first, rest @ ..] => {
            *first == u64::from(start) && rises(*first, rest) && rest.len() < MOST_EBRS
        }
    }
}

/// Those that there are before the logical partitions.
pub(crate) fn links_for(
    alloc: Global,
    extended: &Record,
    chain: &Option<Chain>,
) -> Result<Vec<u64>, DraftError>
    ensures ok { IfOk result (λ v. Ok v.items ≡ links_spec extended.now.start chain.now) }
    ensures err { IfErr result (Tells (λ e. Err e ≡ links_spec extended.now.start chain.now)) }
{
    let Some(chain) = chain else {
        return Ok(vec![in alloc; u64::from(extended.start)]?);
    };
    if !is_chain(extended.start, chain.as_slice()) {
        return Err(DraftError::Fault(of(Key::Chain)));
    }
    Ok(Vec::from_slice(alloc, chain.as_slice())?)
}

fn has_link(links: &[u64], sector: u64) -> bool
    ensures { result ≡ list_any (λ t. nat_eq t sector) links.now }
{
    links.iter().any(|link| *link == sector)
}

fn count_lower(links: &[u64], sector: u64) -> usize
    ensures { result ≡ count_by (λ t. nat_lt t sector) links.now }
{
    links.iter().filter(|link| **link < sector).count()
}

// One more of them.
fn put_link(mut links: Vec<u64>, sector: u64) -> Result<Vec<u64>, AllocError>
    ensures { IfOk result (λ v. v.items ≡ with_link_spec links.items sector) }
{
    if !has_link(&links, sector) {
        let place = count_lower(&links, sector);
        links.insert(place, sector)?;
    }
    Ok(links)
}

// ---- where a logical partition lies, and its extended boot record

fn own_sector(sector: u64) -> Run
    ensures { result ≡ own_spec sector }
{
    Run {
        first: u128::from(sector),
        last: u128::from(sector),
    }
}

fn from_on(least: u128, sector: Option<u64>) -> Option<u64>
    ensures { result ≡ from_on_spec least sector }
{
    match sector {
        Some(sector) => {
            if u128::from(sector) >= least {
                Some(sector)
            } else {
                None
            }
        }
        None => None,
    }
}

fn kept_for(logicals: &[Logical], start: Option<u64>) -> Option<u64>
    ensures { result ≡ kept_for_spec logicals.now start }
{
    match start {
        Some(start) => kept_at(logicals, u128::from(start)),
        None => None,
    }
}

// Where the record of a new one stands.
fn new_at(start: u32, least: u128, first: u64) -> u64
    ensures { result ≡ new_at_spec start least first }
{
    let start = u64::from(start);
    if least == u128::from(start) && start < first {
        start
    } else {
        first.saturating_sub(1)
    }
}

// Where the record of a partition stands.
fn at_for(logicals: &[Logical], start: u32, least: u128, logical: &Later, first: u64) -> u64
    ensures { result ≡ at_spec logicals.now start least logical.now first }
{
    let was = from_on(least, kept_for(logicals, logical.part.start));
    logical
        .part
        .at
        .or(was)
        .unwrap_or(new_at(start, least, first))
}

// Whether it may stand there.
fn takes_record(least: u128, first: u64, sector: u64) -> bool
    ensures { result ≡ takes_spec least first sector }
{
    u128::from(sector) >= least && sector <= first && first - sector <= u64::from(u32::MAX)
}

// ---- a logical partition

// Puts a logical partition behind the others.
fn put_logical(
    alloc: Global,
    entering: Entering,
    j: usize,
    sector: u64,
    partition: Record,
    label: Option<Label>,
    run: Run,
) -> Result<Entering, AllocError>
    requires few { j < 2 ^ 63 }
    ensures { IfOk result (λ m. row_of m ≡ with_logical (row_of entering) j sector partition label run) }
{
    let Entering {
        labels,
        mut runs,
        links,
        mut logicals,
        ..
    } = entering;
    runs.push(run)?;
    runs.push(own_sector(sector))?;
    logicals.push(Logical {
        at: sector,
        partition,
    })?;
    Ok(Entering {
        labels: put_label(alloc, labels, FIRST_LOGICAL + j as u64, label)?,
        runs,
        least: u128::from(sector) + 1,
        links: put_link(links, sector)?,
        logicals,
    })
}

// Makes a logical partition in its place, where this was there in it, with its record in a sector.
#[tactic(auto, unfolding(crate::specs::Chains::logical_over))]
fn logical_over<const B: usize>(
    alloc: Global,
    basis: &MbrBasis<'_>,
    j: usize,
    logical: &Later,
    entering: Entering,
    run: Run,
    was: &Option<Was>,
    sector: u64,
) -> Result<Entering, DraftError>
    requires few { j < 2 ^ 63 }
    requires first { run.first < 2 ^ 64 }
    requires last { run.last < 2 ^ 64 }
    ensures ok { IfOk result (λ m.
        Ok (row_of m) ≡ logical_over_spec (mbr_frame B basis.now) j logical.now (row_of entering) run was.now sector) }
    ensures err { IfErr result (Tells (λ e.
        Err e ≡ logical_over_spec (mbr_frame B basis.now) j logical.now (row_of entering) run was.now sector)) }
{
    let k = logical.place as usize;
    let first = run.first as u64;
    let length = length_of(run);
    if is_past_record(length) {
        return Err(DraftError::Fault(at(k, Key::Size)));
    }
    if !takes_record(entering.least, first, sector) {
        return Err(DraftError::Fault(at(k, Key::Record)));
    }
    let label = find_label(basis.past.labels, logical.number);
    let label = record_label::<B>(k, was, label, logical.kind, run, logical.part.bsd)?;
    let start = (first - sector) as u32;
    let partition = record_with(&logical.part, logical.kind, was, start, length as u32);
    Ok(put_logical(alloc, entering, j, sector, partition, label, run)?)
}

// Makes a logical partition in its place.
fn logical_at<const B: usize>(
    alloc: Global,
    basis: &MbrBasis<'_>,
    extended: &Record,
    j: usize,
    logical: &Later,
    entering: Entering,
    run: Run,
) -> Result<Entering, DraftError>
    requires few { j < 2 ^ 63 }
    requires first { run.first < 2 ^ 64 }
    requires last { run.last < 2 ^ 64 }
    ensures ok { IfOk result (λ m.
        Ok (row_of m) ≡ logical_at_spec (mbr_frame B basis.now) extended.now j logical.now (row_of entering) run) }
    ensures err { IfErr result (Tells (λ e.
        Err e ≡ logical_at_spec (mbr_frame B basis.now) extended.now j logical.now (row_of entering) run)) }
{
    let logicals = basis.past.logicals;
    let was = kept(was_logical(logicals, logical.number), run);
    let sector = at_for(
        logicals,
        extended.start,
        entering.least,
        logical,
        run.first as u64,
    );
    logical_over::<B>(alloc, basis, j, logical, entering, run, &was, sector)
}

// Makes a logical partition, which has this place among them.
fn add_logical<const B: usize>(
    alloc: Global,
    basis: &MbrBasis<'_>,
    extended: &Record,
    j: usize,
    logical: &Later,
    entering: Entering,
) -> Result<Entering, DraftError>
    requires size { IsSectorSize B }
    requires few { j < 2 ^ 63 }
    ensures ok { IfOk result (λ m. IsEntered (mbr_frame B basis.now) extended.now j logical.now (row_of entering) (Ok (row_of m))) }
    ensures err { IfErr result (Tells (λ e. IsEntered (mbr_frame B basis.now) extended.now j logical.now (row_of entering) (Err e))) }
{
    let end = u128::from(extended.start) + u128::from(extended.size);
    let bounds = Bounds {
        low: u128::from(extended.start),
        high: end.saturating_sub(1),
        leads: true,
    };
    let run = place_in::<B>(
        alloc,
        bounds,
        &entering.runs,
        logical.place as usize,
        &logical.part,
    )?;
    logical_at::<B>(alloc, basis, extended, j, logical, entering, run)
}

// Makes all of them, in order.
fn add_logicals<const B: usize>(
    alloc: Global,
    basis: &MbrBasis<'_>,
    extended: &Record,
    later: &[Later],
    first: Entering,
) -> Result<Entering, DraftError>
    requires size { IsSectorSize B }
    ensures ok { IfOk result (λ m. AreEntered (mbr_frame B basis.now) extended.now 0 later.now (row_of first) (Ok (row_of m))) }
    ensures err { IfErr result (Tells (λ e. AreEntered (mbr_frame B basis.now) extended.now 0 later.now (row_of first) (Err e))) }
{
    let mut entering = first;
    for j in 0..later.len() {
        entering = add_logical::<B>(alloc, basis, extended, j, &later[j], entering)?;
    }
    Ok(entering)
}

// ---- what isn't free before them

fn lead_of(logicals: &[Logical], given: Option<u64>, first: u128) -> u64
    requires { first < 2 ^ 64 }
    ensures { result ≡ lead_spec logicals.now given first }
{
    let new = first.saturating_sub(1) as u64;
    given.or(kept_at(logicals, first)).unwrap_or(new)
}

// Adds the sectors of one of which the text says both ends, and that of its record.
fn push_held<const B: usize>(
    runs: &mut Vec<Run>,
    logicals: &[Logical],
    logical: &Later,
) -> Result<(), AllocError>
    requires size { IsSectorSize B }
    ensures { OnOk result (runs.new.items
        ≡ runs.old.items ++ held_spec logicals.now logical.now.part.at
        (stated_by_spec B logical.now.part.start logical.now.part.extent)) }
{
    if let Some(run) = stated_by::<B>(&logical.part) {
        runs.push(run)?;
        runs.push(own_sector(lead_of(logicals, logical.part.at, run.first)))?;
    }
    Ok(())
}

fn push_own(runs: &mut Vec<Run>, sector: u64) -> Result<(), AllocError>
    ensures { OnOk result (runs.new.items ≡ runs.old.items ++ own_spec sector ∷ []) }
{
    runs.push(own_sector(sector))?;
    Ok(())
}

// The sectors of extended boot records.
fn own_sectors(alloc: Global, links: &[u64]) -> Result<Vec<Run>, AllocError>
    ensures { IfOk result (λ v. v.items ≡ flat_map (λ s. own_spec s ∷ []) links.now) }
{
    let mut runs = Vec::new(alloc);
    for link in links {
        push_own(&mut runs, *link)?;
    }
    Ok(runs)
}

// And those of all partitions of which the text says both ends.
fn push_stated<const B: usize>(
    runs: &mut Vec<Run>,
    logicals: &[Logical],
    later: &[Later],
) -> Result<(), AllocError>
    requires size { IsSectorSize B }
    ensures { OnOk result (runs.new.items ≡ runs.old.items ++ stated_spec B logicals.now later.now) }
{
    for k in 0..later.len() {
        push_held::<B>(runs, logicals, &later[k])?;
    }
    Ok(())
}

// What there is before the first logical partition.
fn first_row<const B: usize>(
    alloc: Global,
    basis: &MbrBasis<'_>,
    extended: &Record,
    labels: Labels,
    later: &[Later],
    links: Vec<u64>,
) -> Result<Entering, AllocError>
    requires size { IsSectorSize B }
    ensures { IfOk result (λ m. row_of m ≡ first_spec (mbr_frame B basis.now) extended.now labels later.now links.items) }
{
    let mut runs = own_sectors(alloc, &links)?;
    push_stated::<B>(&mut runs, basis.past.logicals, later)?;
    Ok(Entering {
        labels,
        runs,
        least: u128::from(extended.start),
        links,
        logicals: Vec::new(alloc),
    })
}

/// The logical partitions of an extended one.
pub(crate) fn entered<const B: usize>(
    alloc: Global,
    basis: &MbrBasis<'_>,
    extended: &Record,
    labels: Labels,
    later: &[Later],
    links: Vec<u64>,
) -> Result<Entering, DraftError>
    requires size { IsSectorSize B }
    ensures ok { IfOk result (λ m. AreEntered (mbr_frame B basis.now) extended.now 0 later.now
        (first_spec (mbr_frame B basis.now) extended.now labels later.now links.items) (Ok (row_of m))) }
    ensures err { IfErr result (Tells (λ e. AreEntered (mbr_frame B basis.now) extended.now 0 later.now
        (first_spec (mbr_frame B basis.now) extended.now labels later.now links.items) (Err e))) }
{
    let first = first_row::<B>(alloc, basis, extended, labels, later, links)?;
    add_logicals::<B>(alloc, basis, extended, later, first)
}

// ---- the chain

// The logical partition whose record stands in a sector.
#[tactic(auto, using(crate::proofs::Steps::logical_here, crate::proofs::Steps::logical_next, crate::proofs::Steps::logical_end))]
fn logical_in(logicals: &[Logical], sector: u64) -> Option<Record>
    ensures { result ≡ logical_in_spec logicals.now sector }
{
    for k in 0..logicals.len() {
        if logicals[k].at == sector {
            return Some(logicals[k].partition);
        }
    }
    None
}

// The sector behind a place of the list.
fn next_of(links: &[u64], k: usize) -> Option<Lba>
    requires { k < length links.now }
    ensures { result ≡ next_spec (drop (k + 1) links.now) }
{
    match links.get(k + 1) {
        Some(next) => Some(Lba(*next)),
        None => None,
    }
}

/// An extended boot record in each of the sectors.
pub(crate) fn chain_of(
    alloc: Global,
    logicals: &[Logical],
    links: &[u64],
) -> Result<Ebrs, AllocError>
    ensures { IfOk result (λ e. e ≡ chain_spec logicals.now links.now) }
{
    let mut chain = Vec::new(alloc);
    for k in 0..links.len() {
        chain.push(Ebr {
            at: Lba(links[k]),
            logical: logical_in(logicals, links[k]),
            next: next_of(links, k),
        })?;
    }
    Ok(Ebrs::new(chain))
}
