ghost use Rattle.std.specs.Prelude.{◌≡◌, ◌+◌, ◌<◌, ◌≤◌, ◌^◌, ◌↔◌, IfOk, IfErr, length, IsTrue};
ghost use Rattle.pt_sector.specs.Sectors.{IsSectorSize};
ghost use Rattle.pt_mbr.specs.Chain.{EbrBytes, IsEbrFault, HasZeros, HasBadLogical, HasBadLink, NextIs};

use crate::bytes::has_signature;
use crate::mbr::has_boot_indicators;
use crate::record::{PROTECTIVE, Record, is_extended_kind, is_used, record_at};
use pt_sector::{Lba, Sector};

/// An extended boot record: one link of an extended partition's chain.
#[derive(Clone, Copy, Debug, Default, PartialEq, Eq)]
pub struct Ebr {
    /// Where it stands on the disk.
    pub at: Lba,
    /// Its logical partition, whose start counts from `at`; none where its first record is unused.
    pub logical: Option<Record>,
    /// Where the next one stands on the disk; none where its second record is unused and the chain ends.
    pub next: Option<Lba>,
}

/// Why a sector is no extended boot record.
#[derive(Clone, Copy)]
pub enum EbrFault {
    /// Bytes 510 and 511 aren't 55 AA.
    NoSignature,
    /// A boot indicator isn't 00 or 80, records three and four aren't zero, the logical partition is of type 05, 0F or
    /// EE, or the link of another type than 05 and 0F.
    BadRecord,
}

#[tactic(auto, unfolding(crate::specs::Chain::HasZeros))]
fn has_zeros(bytes: &[u8]) -> bool
    requires { 512 ≤ length bytes.now }
    ensures { IsTrue result ↔ HasZeros bytes.now }
{
    bytes[478..510] == [0; 32]
}

#[tactic(auto, unfolding(crate::specs::Chain::HasBadLogical))]
fn has_bad_logical(bytes: &[u8]) -> bool
    requires { 512 ≤ length bytes.now }
    ensures { IsTrue result ↔ HasBadLogical bytes.now }
{
    is_used(bytes, 446) && (is_extended_kind(bytes[450]) || bytes[450] == PROTECTIVE)
}

#[tactic(auto, unfolding(crate::specs::Chain::HasBadLink))]
fn has_bad_link(bytes: &[u8]) -> bool
    requires { 512 ≤ length bytes.now }
    ensures { IsTrue result ↔ HasBadLink bytes.now }
{
    is_used(bytes, 462) && !is_extended_kind(bytes[466])
}

fn next_in(bytes: &[u8], first: u64) -> Option<Lba>
    requires long { 512 ≤ length bytes.now }
    requires small { first < 2 ^ 63 }
    ensures { NextIs first result bytes.now }
{
    match record_at(bytes, 462) {
        Some(record) => Some(Lba(first + u64::from(record.start))),
        None => None,
    }
}

fn ebr_in(bytes: &[u8], first: u64, at: Lba) -> Result<Ebr, EbrFault>
    requires long { 512 ≤ length bytes.now }
    requires small { first < 2 ^ 63 }
    ensures ok { IfOk result (λ e. EbrBytes first at e bytes.now) }
    ensures err { IfErr result (λ e. IsEbrFault e bytes.now) }
{
    if !has_signature(bytes) {
        return Err(EbrFault::NoSignature);
    }
    if !has_boot_indicators(bytes) {
        return Err(EbrFault::BadRecord);
    }
    if !has_zeros(bytes) {
        return Err(EbrFault::BadRecord);
    }
    if has_bad_logical(bytes) {
        return Err(EbrFault::BadRecord);
    }
    if has_bad_link(bytes) {
        return Err(EbrFault::BadRecord);
    }
    Ok(Ebr {
        at,
        logical: record_at(bytes, 446),
        next: next_in(bytes, first),
    })
}

/// The extended boot record that stands in `sector`, at `at`, of an extended partition whose first sector is `first`.
pub fn decode_ebr<const B: usize>(sector: &Sector<B>, first: Lba, at: Lba) -> Result<Ebr, EbrFault>
    requires size { IsSectorSize B }
    requires small { first.0 < 2 ^ 63 }
    ensures ok { IfOk result (λ e. EbrBytes first.0 at e sector.now) }
    ensures err { IfErr result (λ e. IsEbrFault e sector.now) }
{
    ebr_in(&sector[..], first.0, at)
}
