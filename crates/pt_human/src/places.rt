//! Where a line stands on the page: what lies inside a partition stands below it, and all else goes by first sectors.

ghost use Rattle.std.specs.Prelude.{◌≡◌, ◌↔◌, IsTrue, find};
ghost use Rattle.pt_human.specs.Places.{comes_first, depth_of, extended_in, holder, inside_of, is_before, is_extended, is_numbered};
ghost use Rattle.pt_human.specs.Places.{numbered, place_in};

use pt_mbr::FIRST_LOGICAL;
use pt_members::{Kind, Row};
use pt_path::Path;

/// Where a line stands: by the first sectors of what it lies inside, the outermost first, and then by its own.
#[derive(Clone, Copy)]
pub struct Place {
    pub top: u128,
    /// Inside what begins at `top`.
    pub middle: Option<u128>,
    /// Inside what begins at `middle`.
    pub inner: Option<u128>,
}

fn is_extended(kind: Kind) -> bool
    ensures { result ≡ is_extended kind }
{
    match kind {
        Kind::Extended => true,
        Kind::Leaf | Kind::Slice => false,
    }
}

// The extended partition.
fn extended_in(rows: &[Row]) -> Option<Row>
    ensures { result ≡ extended_in rows.now }
{
    for row in rows {
        if is_extended(row.member.kind) {
            return Some(*row);
        }
    }
    None
}

// Whether it is the path of an entry, a record or a logical partition with this number.
fn is_numbered(path: &Path, number: u64) -> bool
    ensures { result ≡ is_numbered number path.now }
{
    path.number == number && path.letter.is_none()
}

// The entry, the record or the logical partition with this number.
fn numbered(rows: &[Row], number: u64) -> Option<Row>
    ensures { result ≡ numbered rows.now number }
{
    for row in rows {
        if is_numbered(&row.member.path, number) {
            return Some(*row);
        }
    }
    None
}

/// The number of what a partition lies inside: of a label's its slice's, of a logical partition the extended one's.
pub(crate) fn inside_of(rows: &[Row], path: &Path) -> Option<u64>
    ensures { result ≡ inside_of rows.now path.now }
{
    if path.letter.is_some() {
        return Some(path.number);
    }
    if path.number < FIRST_LOGICAL {
        return None;
    }
    match extended_in(rows) {
        Some(extended) => Some(extended.member.path.number),
        None => None,
    }
}

// The partition that has this number, if there is one.
fn holder(rows: &[Row], inside: Option<u64>) -> Option<Row>
    ensures { result ≡ holder rows.now inside }
{
    match inside {
        Some(number) => numbered(rows, number),
        None => None,
    }
}

/// The place of what begins at `first`, inside the partition with a number or in none.
pub(crate) fn place_in(rows: &[Row], inside: Option<u64>, first: u128) -> Place
    ensures { result ≡ place_in rows.now inside first }
{
    let Some(it) = holder(rows, inside) else {
        return Place {
            top: first,
            middle: None,
            inner: None,
        };
    };
    match holder(rows, inside_of(rows, &it.member.path)) {
        None => Place {
            top: it.member.first,
            middle: Some(first),
            inner: None,
        },
        Some(outer) => Place {
            top: outer.member.first,
            middle: Some(it.member.first),
            inner: Some(first),
        },
    }
}

// Whether one sector comes before another. What has none comes before what has one.
fn comes_first(one: Option<u128>, other: Option<u128>) -> bool
    ensures { result ≡ comes_first one other }
{
    match (one, other) {
        (None, Some(_)) => true,
        (Some(one), Some(other)) => one < other,
        (_, None) => false,
    }
}

/// Whether a place comes before another.
pub(crate) fn is_before(one: &Place, other: &Place) -> bool
    ensures { result ≡ is_before one.now other.now }
{
    if one.top != other.top {
        return one.top < other.top;
    }
    if comes_first(one.middle, other.middle) {
        return true;
    }
    if comes_first(other.middle, one.middle) {
        return false;
    }
    comes_first(one.inner, other.inner)
}

/// How many partitions it lies inside.
pub(crate) fn depth_of(place: &Place) -> usize
    ensures { result ≡ depth_of place.now }
{
    match (place.middle, place.inner) {
        (None, _) => 0,
        (Some(_), None) => 1,
        (Some(_), Some(_)) => 2,
    }
}
