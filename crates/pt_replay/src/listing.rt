//! The partitions of a layout, listed as rows.

ghost use Rattle.std.specs.Prelude.{◌≡◌, IfOk};
ghost use Rattle.pt_sector.specs.Sectors.{IsSectorSize};
ghost use Rattle.pt_replay.specs.Wanted.{disk_of};
ghost use Rattle.pt_replay.specs.Listed.{row_of_table, kind_code, narrowed, row_of_member, row_with, row_as, listing, rows_of};
ghost use Rattle.pt_replay.specs.Claims.{MembersFor};

use crate::answers::{Answer, Status, letter_of};
use crate::buffers::{counted, put};
use crate::recovered::recovered;
use crate::rows::{MemberRow, TableRow};
use crate::view::View;
use pt_bsd::LabelEntry;
use pt_gpt::Entry;
use pt_layout::{Body, Kind, Layout, Member, Row, Source};
use pt_mbr::Record;
use pt_sector::Moments;
use std::alloc::{AllocError, Global};

// A sector's number; 2^64 - 1 for what is past it.
fn narrow(sector: u128) -> u64
    ensures { result ≡ narrowed sector }
{
    match u64::try_from(sector) {
        Ok(sector) => sector,
        Err(_) => u64::MAX,
    }
}

fn kind_number(kind: Kind) -> u8
    ensures { result ≡ kind_code kind }
{
    match kind {
        Kind::Leaf => 0,
        Kind::Slice => 1,
        Kind::Extended => 2,
    }
}

// What every member has.
fn bare_row(member: &Member) -> MemberRow
    ensures { result ≡ row_of_member member.now }
{
    MemberRow {
        number: member.path.number,
        first: narrow(member.first),
        last: narrow(member.last),
        attributes: 0,
        letter: letter_of(member.path.letter),
        kind: kind_number(member.kind),
        type_byte: 0,
        boot: 0,
        type_guid: [0; 16],
        unique: [0; 16],
        name: [0; 36],
    }
}

// The member of a record.
fn record_row(member: &Member, from: &Record) -> MemberRow
    ensures { result ≡ row_with member.now (Source.Record from.now) }
{
    let mut row = bare_row(member);
    row.type_byte = from.kind;
    row.boot = from.boot;
    row
}

// The member of an entry.
fn entry_row(member: &Member, entry: &Entry) -> MemberRow
    ensures { result ≡ row_with member.now (Source.Entry entry.now) }
{
    let (type_guid, unique, name) = (entry.kind.0, entry.unique.0, entry.name);
    let mut row = bare_row(member);
    row.attributes = entry.attributes;
    row.type_guid = type_guid;
    row.unique = unique;
    row.name = name;
    row
}

// The member of an entry of a label.
fn part_row(member: &Member, entry: &LabelEntry) -> MemberRow
    ensures { result ≡ row_with member.now (Source.Part entry.now) }
{
    let mut row = bare_row(member);
    row.type_byte = entry.fstype;
    row
}

// The member of what stands in its place.
fn listed_row(row: &Row) -> MemberRow
    ensures { result ≡ row_as row.now }
{
    match &row.source {
        Source::Record(record) => record_row(&row.member, record),
        Source::Entry(entry) => entry_row(&row.member, entry),
        Source::Part(entry) => part_row(&row.member, entry),
    }
}

// The rows of a layout: its records or entries by number, each slice before the partitions of its label.
fn list<const B: usize>(alloc: Global, layout: &Layout) -> Result<Vec<MemberRow>, AllocError>
    ensures { IfOk result (λ rows. rows.items ≡ rows_of B layout.now) }
{
    let mut rows = Vec::new(alloc);
    for row in layout.rows::<B>() {
        rows.push(listed_row(&row))?;
    }
    Ok(rows)
}

// What a layout has but for its partitions.
fn table_row(layout: &Layout) -> TableRow
    ensures { result ≡ row_of_table layout.now layout.now.body }
{
    match &layout.body {
        Body::Mbr { .. } => TableRow {
            sectors: layout.sectors,
            first: 0,
            last: 0,
            kind: 1,
            disk: [0; 16],
        },
        Body::Gpt(table) => TableRow {
            sectors: layout.sectors,
            first: table.first,
            last: table.last,
            kind: 2,
            disk: table.disk.0,
        },
    }
}

/// Lists what a view's disk denotes, whatever stands elsewhere.
#[tactic(auto, using(crate::proofs::ListRows::members_not))]
pub fn members<const B: usize>(
    alloc: Global,
    view: &View<'_>,
    table: &mut TableRow,
    rows: &mut [MemberRow],
    elsewhere: Moments<[u8; B]>,
) -> Answer
    requires size { IsSectorSize B }
    ensures says { MembersFor B view.now (disk_of B view.now elsewhere.entry.items)
        (listing table.old rows.old) (listing table.new rows.new) result.status result.reply }
{
    let layout = match recovered::<B>(alloc, view, elsewhere) {
        Ok(layout) => layout,
        Err(answer) => return answer,
    };
    let listed = match list::<B>(alloc, &layout) {
        Ok(listed) => listed,
        Err(_) => return Answer::of(Status::Memory),
    };
    *table = table_row(&layout);
    if listed.len() > rows.len() {
        return counted(Status::Room, listed.len(), 0);
    }
    put(rows, listed.as_slice());
    counted(Status::Done, listed.len(), 0)
}
