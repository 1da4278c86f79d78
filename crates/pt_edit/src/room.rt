//! Whether a layout leaves room for a GPT.

ghost use Rattle.std.specs.Prelude.{◌≡◌, ◌||◌, ℕ, length, nat_lt};
ghost use Rattle.std.specs.List.{list_any};
ghost use Rattle.pt_sector.specs.Sectors.{IsSectorSize};
ghost use Rattle.pt_members.specs.Members.{logicals_as, present};
ghost use Rattle.pt_members.specs.Rows.{members_of};
ghost use Rattle.pt_edit.specs.Entries.{lies_outside, is_outsider, is_ebr_outside, is_chain_in_way, no_room};

use pt_gpt::{first_usable, has_room};
use pt_mbr::{Ebr, FIRST_LOGICAL};
use pt_members::{Body, Kind, Layout, Member, logical_number};

/// How many numbers from 5 on a GPT of 128 entries has.
const LOGICALS: u64 = 124;

// Whether a new GPT can't use the first or the last of these sectors.
fn is_outside<const B: usize>(sectors: u64, first: u128, last: u128) -> bool
    requires size { IsSectorSize B }
    ensures { result ≡ lies_outside B sectors first last }
{
    let low = first_usable::<B>();
    first < u128::from(low) || u128::from(sectors.saturating_sub(low)) < last
}

// Whether a member but the extended partition lies outside.
fn is_outsider<const B: usize>(sectors: u64, m: &Member) -> bool
    requires size { IsSectorSize B }
    ensures { result ≡ is_outsider B sectors m.now }
{
    m.kind != Kind::Extended && is_outside::<B>(sectors, m.first, m.last)
}

// Whether a partition does.
fn has_outsider<const B: usize>(layout: &Layout) -> bool
    requires size { IsSectorSize B }
    ensures { result ≡ list_any (is_outsider B layout.now.sectors) (members_of B layout.now) }
{
    for row in layout.rows::<B>() {
        if is_outsider::<B>(layout.sectors, &row.member) {
            return true;
        }
    }
    false
}

// Whether an extended boot record does.
fn is_ebr_outside<const B: usize>(sectors: u64, ebr: &Ebr) -> bool
    requires size { IsSectorSize B }
    ensures { result ≡ is_ebr_outside B sectors ebr.now }
{
    let at = u128::from(ebr.at.0);
    is_outside::<B>(sectors, at, at)
}

// Whether one of a chain does.
fn has_ebr_outside<const B: usize>(sectors: u64, chain: &[Ebr]) -> bool
    requires size { IsSectorSize B }
    ensures { result ≡ list_any (is_ebr_outside B sectors) chain.now }
{
    for ebr in chain {
        if is_ebr_outside::<B>(sectors, ebr) {
            return true;
        }
    }
    false
}

// Whether a chain has more logical partitions than there are numbers for them.
#[tactic(auto, using(crate::proofs::Counts::logicals_counted))]
fn has_many<const B: usize>(chain: &[Ebr]) -> bool
    ensures { result ≡ nat_lt 124 (length (present (logicals_as B 5 chain.now))) }
{
    logical_number(chain, chain.len()) - FIRST_LOGICAL > LOGICALS
}

// Whether a chain stands in the way: by its places, or by too many logical partitions.
#[tactic(auto, unfolding(pt_members::specs::Members::logicals))]
fn is_chain_in_way<const B: usize>(sectors: u64, body: &Body) -> bool
    requires size { IsSectorSize B }
    ensures { result ≡ is_chain_in_way B sectors body.now }
{
    match body {
        Body::Mbr { chain, .. } => {
            has_ebr_outside::<B>(sectors, chain.as_slice()) || has_many::<B>(chain.as_slice())
        }
        Body::Gpt(_) => false,
    }
}

// Whether there is no room.
#[tactic(auto, unfolding(crate::specs::Entries::no_room))]
pub(crate) fn has_no_room<const B: usize>(layout: &Layout) -> bool
    requires size { IsSectorSize B }
    ensures { result ≡ no_room B layout.now }
{
    if !has_room::<B>(layout.sectors) {
        return true;
    }
    if has_outsider::<B>(layout) {
        return true;
    }
    is_chain_in_way::<B>(layout.sectors, &layout.body)
}
