//! The walk over the partitions of a layout, alone or each with what stands in its place.

ghost use Rattle.std.specs.Prelude.{◌≡◌, ◌<◌, ◌^◌, [], IfSome};
ghost use Rattle.std.specs.Iterator.{YieldsFirst, item_count};
ghost use Rattle.pt_members.specs.Members.{present, slots};
ghost use Rattle.pt_members.specs.inner.Members.{label_under};
ghost use Rattle.pt_members.specs.Rows.{body_rows, members_below, members_of, rows_below, rows_in, rows_of};

use crate::layout::{Body, Layout};
use crate::member::{Kind, Member};
use crate::row::{Row, numbered_row, part_row};
use crate::slots::{LETTERS, find_label, next_number, numbered_slot, part_slot, slot_count};
use pt_bsd::Label;
use pt_mbr::FIRST_LOGICAL;
use std::marker::Model;

/// The partitions that stand in the places of a table itself, and in none of a label, in the order of their numbers: from
/// [`Body::members`].
#[derive(Drop)]
pub struct BodyMembers<'a, const B: usize> {
    body: &'a Body,
    // The next place, and the number of the logical partition that would stand there.
    k: usize,
    number: u64,
}

impl<'a, const B: usize> Model for BodyMembers<'a, B> {
    ghost use Rattle.std.specs.Prelude.{◌≡◌, ◌≤◌, List, drop, flat_map, length, option_to_list};
    ghost use Rattle.pt_members.specs.Members.{number_at, slots};
    ghost use Rattle.pt_members.specs.declared.member.Member.{Member};

    ghost Value = { List Member };

    ghost view = { λ p. flat_map option_to_list (drop p.k (slots B p.body.now)) };

    ghost invariant = { λ p. (p.k ≤ length (slots B p.body.now)) × (p.number ≡ number_at p.body.now p.k) };
}

impl<'a, const B: usize> Iterator for BodyMembers<'a, B> {
    type Item = Member;

    ghost next_gives = { λ old member new. YieldsFirst (λ left. left) old member new × IfSome member (λ m. m.first < 2 ^ 66) };

    ghost remaining = { item_count (λ left. left) };

    fn next(&mut self) -> Option<Member> {
        while self.k < slot_count::<B>(self.body) {
            let member = numbered_slot::<B>(self.body, self.k, self.number);
            self.number = next_number::<B>(self.body, self.k, self.number);
            self.k += 1;
            if member.is_some() {
                return member;
            }
        }
        None
    }
}

// The entries of a slice's label that a walk has yet to come to, seen as those that are partitions.
#[derive(Drop)]
struct PartMembers {
    label: Option<Label>,
    slice: Member,
    // The next entry, from 0 for a.
    k: usize,
}

impl Model for PartMembers {
    ghost use Rattle.std.specs.Prelude.{◌<◌, ◌^◌, List};
    ghost use Rattle.pt_members.specs.inner.Members.{parts_from};
    ghost use Rattle.pt_members.specs.declared.member.Member.{Member};

    ghost Value = { List Member };

    ghost view = { λ p. parts_from p.label p.slice p.k };

    ghost invariant = { λ p. p.slice.first < 2 ^ 66 };
}

// The label of a slice; of what is none, none.
fn label_below(layout: &Layout, member: &Member) -> Option<Label>
    ensures { result ≡ label_under member.now.kind layout.now member.now }
{
    match member.kind {
        Kind::Slice => find_label(&layout.labels, member.path.number),
        Kind::Leaf | Kind::Extended => None,
    }
}

impl PartMembers {
    // None.
    fn none() -> PartMembers
        ensures { result ≡ [] }
    {
        PartMembers {
            label: None,
            slice: Member::default(),
            k: 0,
        }
    }

    // Those below a partition in its place.
    fn below(layout: &Layout, member: &Member) -> PartMembers
        requires { member.now.first < 2 ^ 66 }
        ensures { result ≡ members_below member.now.kind layout.now member.now }
    {
        PartMembers {
            label: label_below(layout, member),
            slice: *member,
            k: 0,
        }
    }

    // The next entry that is a partition.
    fn next(&mut self) -> Option<Member>
        ensures { YieldsFirst (λ left. left) self.old result self.new }
    {
        let label = match &self.label {
            Some(label) => label,
            None => return None,
        };
        while self.k < LETTERS {
            let part = part_slot(label, &self.slice, self.k);
            self.k += 1;
            if part.is_some() {
                return part;
            }
        }
        None
    }
}

/// The partitions of a layout in the order of their paths: from [`Layout::members`]. It takes no memory, and comes to each place once.
#[derive(Drop)]
pub struct Members<'a, const B: usize> {
    layout: &'a Layout,
    // Those of the slice that came last, and the places behind it.
    parts: PartMembers,
    places: BodyMembers<'a, B>,
}

impl<'a, const B: usize> Model for Members<'a, B> {
    ghost use Rattle.std.specs.Prelude.{◌++◌, ◌∷◌, List, flat_map};
    ghost use Rattle.pt_members.specs.Rows.{members_below};
    ghost use Rattle.pt_members.specs.declared.member.Member.{Member};

    ghost Value = { List Member };

    ghost view = { λ p. p.parts ++ flat_map (λ m. m ∷ members_below m.kind p.layout.now m) p.places };
}

impl<'a, const B: usize> Iterator for Members<'a, B> {
    type Item = Member;

    ghost next_gives = { YieldsFirst (λ left. left) };

    ghost remaining = { item_count (λ left. left) };

    fn next(&mut self) -> Option<Member> {
        if let Some(part) = self.parts.next() {
            return Some(part);
        }
        let member = self.places.next()?;
        self.parts = PartMembers::below(self.layout, &member);
        Some(member)
    }
}

/// The partitions that stand in the places of a table itself, and in none of a label, in the order of their numbers: from [`Body::rows`].
#[derive(Drop)]
pub struct BodyRows<'a, const B: usize> {
    body: &'a Body,
    // The next place, and the number of the logical partition that would stand there.
    k: usize,
    number: u64,
}

impl<'a, const B: usize> Model for BodyRows<'a, B> {
    ghost use Rattle.std.specs.Prelude.{◌≡◌, ◌≤◌, List, drop, flat_map, length, option_to_list};
    ghost use Rattle.pt_members.specs.Members.{number_at, rows, slots};
    ghost use Rattle.pt_members.specs.declared.row.Row.{Row};

    ghost Value = { List Row };

    ghost view = { λ p. flat_map option_to_list (drop p.k (rows B p.body.now)) };

    ghost invariant = { λ p. (p.k ≤ length (slots B p.body.now)) × (p.number ≡ number_at p.body.now p.k) };
}

impl<'a, const B: usize> Iterator for BodyRows<'a, B> {
    type Item = Row;

    ghost next_gives = { λ old row new. YieldsFirst (λ left. left) old row new × IfSome row (λ r. r.member.first < 2 ^ 66) };

    ghost remaining = { item_count (λ left. left) };

    fn next(&mut self) -> Option<Row> {
        while self.k < slot_count::<B>(self.body) {
            let row = numbered_row::<B>(self.body, self.k, self.number);
            self.number = next_number::<B>(self.body, self.k, self.number);
            self.k += 1;
            if row.is_some() {
                return row;
            }
        }
        None
    }
}

// The entries of a slice's label that a walk has yet to come to, seen as the rows of those that are partitions.
#[derive(Drop)]
struct Parts {
    label: Option<Label>,
    slice: Member,
    // The next entry, from 0 for a.
    k: usize,
}

impl Model for Parts {
    ghost use Rattle.std.specs.Prelude.{◌<◌, ◌^◌, List};
    ghost use Rattle.pt_members.specs.inner.Members.{parts_left};
    ghost use Rattle.pt_members.specs.declared.row.Row.{Row};

    ghost Value = { List Row };

    ghost view = { λ p. parts_left p.label p.slice p.k };

    ghost invariant = { λ p. p.slice.first < 2 ^ 66 };
}

impl Parts {
    // Those of a label, where there is one.
    fn of(label: Option<Label>, slice: Member) -> Parts
        requires { slice.first < 2 ^ 66 }
        ensures { result ≡ rows_in label slice }
    {
        Parts { label, slice, k: 0 }
    }

    // Those below a partition in its place.
    fn below(layout: &Layout, member: &Member) -> Parts
        requires { member.now.first < 2 ^ 66 }
        ensures { result ≡ rows_below member.now.kind layout.now member.now }
    {
        Parts::of(label_below(layout, member), *member)
    }

    // The row of the next entry that is a partition.
    fn next(&mut self) -> Option<Row>
        ensures { YieldsFirst (λ left. left) self.old result self.new }
    {
        let label = match &self.label {
            Some(label) => label,
            None => return None,
        };
        while self.k < LETTERS {
            let row = part_row(label, &self.slice, self.k);
            self.k += 1;
            if row.is_some() {
                return row;
            }
        }
        None
    }
}

/// The partitions of a layout in the order of their paths, each with what stands in its place: from [`Layout::rows`].
///
/// It takes no memory, and comes to each place once.
#[derive(Drop)]
pub struct Rows<'a, const B: usize> {
    layout: &'a Layout,
    // Those of the slice that came last, and the places behind it.
    parts: Parts,
    places: BodyRows<'a, B>,
}

impl<'a, const B: usize> Model for Rows<'a, B> {
    ghost use Rattle.std.specs.Prelude.{◌++◌, List, Some, flat_map};
    ghost use Rattle.pt_members.specs.Rows.{rows_at};
    ghost use Rattle.pt_members.specs.declared.row.Row.{Row};

    ghost Value = { List Row };

    ghost view = { λ r. r.parts ++ flat_map (λ row. rows_at r.layout.now (Some row)) r.places };
}

impl<'a, const B: usize> Iterator for Rows<'a, B> {
    type Item = Row;

    ghost next_gives = { YieldsFirst (λ left. left) };

    ghost remaining = { item_count (λ left. left) };

    fn next(&mut self) -> Option<Row> {
        if let Some(row) = self.parts.next() {
            return Some(row);
        }
        let row = self.places.next()?;
        self.parts = Parts::below(self.layout, &row.member);
        Some(row)
    }
}

impl Body {
    /// Its partitions in the order of their numbers: the used records or entries, and the logical partitions. Those of labels aren't
    /// among them; the extended partition and slices are.
    pub fn members<const B: usize>(&self) -> BodyMembers<'_, B>
        ensures { result ≡ present (slots B self.now) }
    {
        BodyMembers {
            body: self,
            k: 0,
            number: FIRST_LOGICAL,
        }
    }

    /// Its partitions in the order of their numbers, each with the record or entry that it stands in: the list `body_rows`. Those of
    /// labels aren't among them; the extended partition and slices are.
    pub fn rows<const B: usize>(&self) -> BodyRows<'_, B>
        ensures { result ≡ body_rows B self.now }
    {
        BodyRows {
            body: self,
            k: 0,
            number: FIRST_LOGICAL,
        }
    }
}

impl Layout {
    /// Its partitions in the order of their paths, a slice before those of its label. The items are the list `members_of`.
    ///
    /// Unused entries and records aren't among them, nor is the raw entry c of a label. The extended partition and slices are.
    pub fn members<const B: usize>(&self) -> Members<'_, B>
        ensures { result ≡ members_of B self.now }
    {
        Members {
            layout: self,
            parts: PartMembers::none(),
            places: self.body.members::<B>(),
        }
    }

    /// Its partitions in the order of their paths, each with the record or entry that it stands in, a slice before the partitions
    /// of its label. The items are the list `rows_of`.
    ///
    /// Unused entries and records aren't among them, nor is the raw entry c of a label. The extended partition and slices are.
    pub fn rows<const B: usize>(&self) -> Rows<'_, B>
        ensures { result ≡ rows_of B self.now }
    {
        Rows {
            layout: self,
            parts: Parts::of(None, Member::default()),
            places: self.body.rows::<B>(),
        }
    }
}
