//! The groups of siblings of a layout.

ghost use Rattle.std.specs.Prelude.{◌≡◌, ◌<◌, ◌≤◌, ◌+◌, ◌^◌, ◌++◌, ◌↔◌, IsTrue, IfOk, OnOk, Some, count_by, flat_map};
ghost use Rattle.std.specs.Prelude.{is_some, length, option_to_list};
ghost use Rattle.pt_mbr.specs.Records.{extended_of};
ghost use Rattle.pt_layout.specs.inner.Sound.{has_any};
ghost use Rattle.pt_members.specs.Members.{Group as GroupValue, group_of, groups_of, group_in, top_group, strays, slots, tops};
ghost use Rattle.pt_members.specs.Members.{logicals as logicals_spec, parts, parts_in, present};
ghost use Rattle.pt_layout.specs.Sound.{LiesInside};

use pt_bsd::{Label, RESERVED};
use pt_mbr::{Extended, Record, extended_of};
use pt_members::{Body, Kind, LETTERS, Layout, Member, find_label, part_slot};
use std::alloc::{AllocError, Global};
use std::marker::Model;

/// Siblings, and the sectors from `low` to `high` that are usable to them.
#[derive(Drop)]
pub struct Siblings {
    pub(crate) low: u128,
    pub(crate) high: u128,
    pub(crate) members: Vec<Member>,
}

impl Model for Siblings {
    ghost Value = { GroupValue };

    ghost view = { λ g. group_of g.low g.high g.members.items };
}

impl Siblings {
    // Some members, and the sectors that are usable to them.
    fn of(alloc: Global, low: u128, high: u128, members: &[Member]) -> Result<Siblings, AllocError>
        ensures { IfOk result (λ g. g ≡ group_of low high members.now) }
    {
        let mut own = Vec::new(alloc);
        own.extend_from_slice(members)?;
        Ok(Siblings {
            low,
            high,
            members: own,
        })
    }

    /// Their number.
    pub(crate) fn len(&self) -> usize
        ensures { result ≡ length self.now.members }
    {
        self.members.len()
    }

    /// All of them.
    pub(crate) fn as_slice(&self) -> &[Member]
        ensures { result.now ≡ self.now.members }
    {
        &self.members
    }

    /// Whether the sectors of a member exist and are usable here.
    pub(crate) fn has_inside(&self, m: &Member) -> bool
        ensures { IsTrue result ↔ LiesInside self.now m.now }
    {
        m.first <= m.last && m.last < 1 << 63 && self.low <= m.first && m.last <= self.high
    }
}

// The members in a table's own places: the records or entries, and behind them the logical partitions.
fn members<const B: usize>(alloc: Global, body: &Body) -> Result<Vec<Member>, AllocError>
    ensures { IfOk result (λ v. v.items ≡ present (slots B body.now)) }
{
    body.members::<B>().collect(alloc)
}

fn used(records: &[Option<Record>; 4]) -> usize
    ensures { result ≡ count_by is_some «records».now }
{
    records.iter().filter(|record| record.is_some()).count()
}

// How many of them are records or entries.
#[tactic(auto, using(crate::proofs::Presence::used_records, crate::proofs::Presence::all_entries))]
fn top_count<const B: usize>(body: &Body, members: &[Member]) -> usize
    requires { members.now ≡ present (slots B body.now) }
    ensures { result ≡ length (present (tops B body.now)) }
{
    match body {
        Body::Mbr { records, .. } => used(records),
        Body::Gpt(_) => members.len(),
    }
}

fn push_member(members: &mut Vec<Member>, m: Option<Member>) -> Result<(), AllocError>
    ensures { OnOk result (members.new.items ≡ members.old.items ++ option_to_list m) }
{
    if let Some(m) = m {
        members.push(m)?;
    }
    Ok(())
}

fn label_parts(alloc: Global, label: &Label, slice: &Member) -> Result<Vec<Member>, AllocError>
    requires small { slice.now.first < 2 ^ 66 }
    requires counted { length label.now.entries ≡ 8 }
    ensures { IfOk result (λ v. v.items ≡ present (parts_in (Some label.now) slice.now)) }
{
    let mut members = Vec::new(alloc);
    for k in 0..LETTERS {
        push_member(&mut members, part_slot(label, slice, k))?;
    }
    Ok(members)
}

#[tactic(auto, using(crate::proofs::Presence::no_parts))]
fn slice_parts(alloc: Global, layout: &Layout, slice: &Member) -> Result<Vec<Member>, AllocError>
    requires small { slice.now.first < 2 ^ 66 }
    ensures { IfOk result (λ v. v.items ≡ present (parts layout.now slice.now)) }
{
    match find_label(&layout.labels, slice.path.number) {
        Some(label) => label_parts(alloc, &label, slice),
        None => Ok(Vec::new(alloc)),
    }
}

// The records or entries, in the sectors that are usable on the disk.
#[tactic(auto, unfolding(pt_members::specs::Members::top_group))]
fn top_siblings<const B: usize>(
    alloc: Global,
    layout: &Layout,
    members: &[Member],
) -> Result<Siblings, AllocError>
    requires { members.now ≡ present (tops B layout.now.body) }
    ensures { IfOk result (λ g. g ≡ top_group B layout.now.sectors layout.now.body) }
{
    let (low, high) = match &layout.body {
        Body::Mbr { .. } => (1, layout.sectors.saturating_sub(1)),
        Body::Gpt(table) => (table.first, table.last),
    };
    Siblings::of(alloc, u128::from(low), u128::from(high), members)
}

// What a member holds, if it holds others.
#[tactic(auto, unfolding(pt_members::specs::Members::group_in))]
fn held<const B: usize>(
    alloc: Global,
    layout: &Layout,
    logicals: &[Member],
    m: &Member,
) -> Result<Option<Siblings>, AllocError>
    requires logicals { logicals.now ≡ present (logicals_spec B layout.now.body) }
    requires small { m.now.first < 2 ^ 66 }
    ensures { IfOk result (λ g. option_to_list g ≡ group_in B layout.now m.now) }
{
    match m.kind {
        Kind::Leaf => Ok(None),
        Kind::Slice => {
            let members = slice_parts(alloc, layout, m)?;
            Ok(Some(Siblings {
                low: m.first + u128::from(RESERVED),
                high: m.last,
                members,
            }))
        }
        Kind::Extended => {
            let group = Siblings::of(alloc, m.first, m.last, logicals)?;
            Ok(Some(group))
        }
    }
}

fn has_extended(records: &[Option<Record>; 4]) -> bool
    ensures { result ≡ has_any (extended_of «records».now) }
{
    match extended_of(records) {
        Extended::Nothing => false,
        Extended::One(_) | Extended::More(_) => true,
    }
}

// The logical partitions that no extended one holds.
#[tactic(auto, using(crate::proofs::Extended::stray_gpt, crate::proofs::Extended::stray_none, crate::proofs::Extended::stray_some))]
fn stray_siblings<const B: usize>(
    alloc: Global,
    body: &Body,
    logicals: &[Member],
) -> Result<Option<Siblings>, AllocError>
    requires { logicals.now ≡ present (logicals_spec B body.now) }
    ensures { IfOk result (λ g. option_to_list g ≡ strays B body.now) }
{
    let records = match body {
        Body::Mbr { records, .. } => records,
        Body::Gpt(_) => return Ok(None),
    };
    if has_extended(records) {
        return Ok(None);
    }
    let group = Siblings::of(alloc, 1, 0, logicals)?;
    Ok(Some(group))
}

fn push_group(groups: &mut Vec<Siblings>, group: Option<Siblings>) -> Result<(), AllocError>
    ensures { OnOk result (groups.new.items ≡ groups.old.items ++ option_to_list group) }
{
    if let Some(group) = group {
        groups.push(group)?;
    }
    Ok(())
}

// What the members in a table's own places hold, behind the groups that were there.
fn push_held<const B: usize>(
    alloc: Global,
    layout: &Layout,
    logicals: &[Member],
    groups: &mut Vec<Siblings>,
) -> Result<(), AllocError>
    requires { logicals.now ≡ present (logicals_spec B layout.now.body) }
    ensures { OnOk result (groups.new.items ≡ groups.old.items ++ flat_map (group_in B layout.now) (present (slots B layout.now.body))) }
{
    for member in layout.body.members::<B>() {
        let group = held::<B>(alloc, layout, logicals, &member)?;
        push_group(groups, group)?;
    }
    Ok(())
}

// All groups, in path order of what holds them, the top level first.
#[tactic(auto, unfolding(pt_members::specs::Members::groups_of), using(crate::proofs::Presence::split))]
pub(crate) fn groups<const B: usize>(
    alloc: Global,
    layout: &Layout,
) -> Result<Vec<Siblings>, AllocError>
    ensures { IfOk result (λ v. v.items ≡ groups_of B layout.now) }
{
    let members = members::<B>(alloc, &layout.body)?;
    let (tops, logicals) = members.split_at(top_count::<B>(&layout.body, &members));
    let mut groups = Vec::new(alloc);
    groups.push(top_siblings::<B>(alloc, layout, tops)?)?;
    push_held::<B>(alloc, layout, logicals, &mut groups)?;
    let group = stray_siblings::<B>(alloc, &layout.body, logicals)?;
    push_group(&mut groups, group)?;
    Ok(groups)
}
