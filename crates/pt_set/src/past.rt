//! What a draft of an MBR keeps of the MBR that was there.

ghost use Rattle.std.specs.Prelude.{◌≡◌, ◌<◌, ◌≤◌, ◌^◌, ◌+◌, ◌++◌, IfOk, OnOk};
ghost use Rattle.pt_set.specs.Pasts.{end_chs_of as end_chs_spec, is_there as is_there_spec, kept as kept_spec, kept_at as kept_at_spec};
ghost use Rattle.pt_set.specs.Pasts.{logical_in, logicals_in as logicals_spec, start_chs_of as start_chs_spec, starts_at as starts_spec};
ghost use Rattle.pt_set.specs.Pasts.{was_logical as was_logical_spec, was_record as was_record_spec, was_slice as was_slice_spec};

use crate::places::length_of;
use pt_edit::records::is_slice_kind;
use pt_edit::space::Run;
use pt_mbr::{Ebr, FARTHEST, FIRST_LOGICAL, Record};
use pt_members::Labels;
use std::alloc::{AllocError, Global};

/// A logical partition with the sector of its extended boot record, from which its start counts.
#[derive(Clone, Copy)]
pub(crate) struct Logical {
    pub(crate) at: u64,
    pub(crate) partition: Record,
}

/// The MBR that was there.
#[derive(Clone, Copy)]
pub(crate) struct Past<'a> {
    pub(crate) records: &'a [Option<Record>; 4],
    /// In the order of their numbers.
    pub(crate) logicals: &'a [Logical],
    pub(crate) labels: &'a Labels,
}

/// What was there under a number.
#[derive(Clone, Copy)]
pub(crate) struct Was {
    /// Its first sector on the disk.
    pub(crate) first: u128,
    pub(crate) partition: Record,
}

// Adds the logical partition of an extended boot record, where it has one.
fn push_logical(logicals: &mut Vec<Logical>, ebr: &Ebr) -> Result<(), AllocError>
    ensures { OnOk result (logicals.new.items ≡ logicals.old.items ++ logical_in ebr.now.at.0 ebr.now.logical) }
{
    if let Some(partition) = ebr.logical {
        logicals.push(Logical {
            at: ebr.at.0,
            partition,
        })?;
    }
    Ok(())
}

/// The logical partitions of a chain.
pub(crate) fn logicals_in(alloc: Global, chain: &[Ebr]) -> Result<Vec<Logical>, AllocError>
    ensures { IfOk result (λ v. v.items ≡ logicals_spec chain.now) }
{
    let mut logicals = Vec::new(alloc);
    for ebr in chain {
        push_logical(&mut logicals, ebr)?;
    }
    Ok(logicals)
}

/// What was there as the record of a number.
pub(crate) fn was_record(records: &[Option<Record>; 4], number: u64) -> Option<Was>
    requires first { 1 ≤ number }
    requires last { number ≤ 4 }
    ensures { result ≡ was_record_spec records.now number }
{
    match records[number as usize - 1] {
        Some(partition) => Some(Was {
            first: u128::from(partition.start),
            partition,
        }),
        None => None,
    }
}

// The first sector of a logical partition on the disk.
fn first_of(logical: &Logical) -> u128
    ensures { result ≡ logical.now.at + logical.now.partition.start }
{
    u128::from(logical.at) + u128::from(logical.partition.start)
}

/// What was there as the logical partition of a number.
pub(crate) fn was_logical(logicals: &[Logical], number: u64) -> Option<Was>
    ensures { result ≡ was_logical_spec logicals.now number }
{
    match logicals.get(number.saturating_sub(FIRST_LOGICAL) as usize) {
        Some(logical) => Some(Was {
            first: first_of(logical),
            partition: logical.partition,
        }),
        None => None,
    }
}

fn is_there(was: &Was, run: Run) -> bool
    requires { run.last < 2 ^ 64 }
    ensures { result ≡ is_there_spec was.now run }
{
    was.first == run.first && u128::from(was.partition.size) == length_of(run)
}

/// It, where it was in these sectors.
pub(crate) fn kept(was: Option<Was>, run: Run) -> Option<Was>
    requires { run.last < 2 ^ 64 }
    ensures { result ≡ kept_spec was run }
{
    match was {
        Some(was) => { if is_there(&was, run) { Some(was) } else { None } }
        None => None,
    }
}

/// The CHS bytes of its first sector.
pub(crate) fn start_chs_of(was: &Option<Was>) -> [u8; 3]
    ensures { result ≡ start_chs_spec was.now }
{
    match was {
        Some(was) => was.partition.start_chs,
        None => FARTHEST,
    }
}

/// The CHS bytes of its last sector.
pub(crate) fn end_chs_of(was: &Option<Was>) -> [u8; 3]
    ensures { result ≡ end_chs_spec was.now }
{
    match was {
        Some(was) => was.partition.end_chs,
        None => FARTHEST,
    }
}

/// Whether it is a slice.
pub(crate) fn was_slice<const B: usize>(was: &Option<Was>) -> bool
    ensures { result ≡ was_slice_spec B was.now }
{
    match was {
        Some(was) => is_slice_kind::<B>(was.partition.kind),
        None => false,
    }
}

fn starts_at(logical: &Logical, start: u128) -> bool
    ensures { result ≡ starts_spec logical.now start }
{
    first_of(logical) == start
}

/// The sector of the extended boot record of the logical partition that started in a sector.
#[tactic(auto, using(crate::proofs::Steps::kept_here, crate::proofs::Steps::kept_next, crate::proofs::Steps::kept_end))]
pub(crate) fn kept_at(logicals: &[Logical], start: u128) -> Option<u64>
    ensures { result ≡ kept_at_spec logicals.now start }
{
    for k in 0..logicals.len() {
        if starts_at(&logicals[k], start) {
            return Some(logicals[k].at);
        }
    }
    None
}
