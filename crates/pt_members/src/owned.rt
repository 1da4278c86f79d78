//! The sectors that partitions own.

ghost use Rattle.std.specs.Prelude.{◌≤◌, ◌↔◌, ℕ, IfSome, IsTrue};
ghost use Rattle.pt_members.specs.inner.Members.{IsLeafWith, Widens};
ghost use Rattle.pt_members.specs.Tables.{Owns, IsWithin};
ghost use Rattle.pt_members.specs.inner.Tables.{Spans, AllSpanned};

use crate::layout::{Body, Layout};
use crate::member::{Kind, Member};
use crate::search::{Wanted, exists, find};
use pt_gpt::Entry;
use pt_sector::Lba;

/// Whether a partition owns a sector.
///
/// Partitions that hold others, the extended one and slices, own nothing, also where a slice has no label. Nor does
/// the raw entry c of a label, nor a partition whose sectors don't exist: its first is past its last, or its last is
/// 2^63 or more.
pub fn is_owned<const B: usize>(layout: &Layout, lba: Lba) -> bool
    ensures { IsTrue result ↔ Owns B layout.now lba.0 }
{
    match find::<B>(layout, &Wanted::LeafWith(lba)) {
        Some(_) => true,
        None => false,
    }
}

/// Sectors in a row, from the lowest to the highest; none where `low` is above `high`.
#[derive(Clone, Copy)]
pub struct Reach {
    pub low: u64,
    pub high: u64,
}

impl Reach {
    /// Whether the sector is one of them.
    pub fn contains(&self, lba: Lba) -> bool
        ensures { IsTrue result ↔ IsWithin self.now lba.0 }
    {
        self.low <= lba.0 && lba.0 <= self.high
    }
}

// The reach, grown by the sectors of an entry that is used.
fn with_entry(reach: Reach, entry: &Option<Entry>) -> Reach
    ensures low { result.low ≤ reach.low }
    ensures high { reach.high ≤ result.high }
    ensures spans { IfSome entry.now (Spans result) }
{
    match entry {
        Some(e) => Reach {
            low: if e.first < reach.low {
                e.first
            } else {
                reach.low
            },
            high: if reach.high < e.last {
                e.last
            } else {
                reach.high
            },
        },
        None => reach,
    }
}

fn reach_of_entries(entries: &[Option<Entry>]) -> Reach
    ensures { AllSpanned result entries.now }
{
    let mut reach = Reach {
        low: u64::MAX,
        high: 0,
    };
    for k in 0..entries.len() {
        reach = with_entry(reach, &entries[k]);
    }
    reach
}

// The reach, grown by the sectors of a leaf that exist.
fn with_leaf(reach: Reach, m: &Member) -> Reach
    ensures { Widens (IsLeafWith m.now) reach result }
{
    if m.kind != Kind::Leaf || !exists(m) {
        return reach;
    }
    Reach {
        low: reach.low.min(m.first as u64),
        high: reach.high.max(m.last as u64),
    }
}

fn reach_of_members<const B: usize>(layout: &Layout) -> Reach
    ensures { (s : ℕ) → Owns B layout.now s → IsWithin result s }
{
    let mut reach = Reach {
        low: u64::MAX,
        high: 0,
    };
    for member in layout.members::<B>() {
        reach = with_leaf(reach, &member);
    }
    reach
}

/// Sectors among which are all that a partition owns: from the lowest first sector of a partition to the highest last one, of a
/// GPT without labels from that of an entry to that of an entry. So a sector that isn't one of them is owned by no partition,
/// and none has to be searched for.
pub fn reach_of<const B: usize>(layout: &Layout) -> Reach
    ensures { (s : ℕ) → Owns B layout.now s → IsWithin result s }
{
    if !layout.labels.as_slice().is_empty() {
        return reach_of_members::<B>(layout);
    }
    match &layout.body {
        Body::Mbr { .. } => reach_of_members::<B>(layout),
        Body::Gpt(table) => reach_of_entries(table.entries.as_slice()),
    }
}
