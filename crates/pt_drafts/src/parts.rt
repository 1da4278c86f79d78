//! What an object of `partitions` says.

ghost use Rattle.std.specs.Prelude.{◌≡◌};
ghost use Rattle.serde_json.specs.View.{view};
ghost use Rattle.pt_drafts.specs.Parts.{attributes_from, attributes_in, boot_in, boot_mark, extent_in, identity_in, marks_in, name_in};
ghost use Rattle.pt_drafts.specs.Parts.{number_from, number_in, one_of, part_in, part_with, place_in};

use crate::attributes::{Words, are_worded};
use crate::draft::{Extent, NamedType, PartDraft};
use crate::fault::Key;
use crate::members::{check, given, has_only, is_text};
use crate::names::{NameText, NameUnits};
use crate::texts::Node;
use pt_bsd::Label;
use pt_guid::Guid;
use serde_json::Value;

// One of two at most.
fn one_of<T: Copy>(first: Option<T>, second: Option<T>, key: Key) -> Result<Option<T>, Key>
    ensures { result ≡ one_of key first second }
{
    match (first, second) {
        (None, second) => Ok(second),
        (Some(first), None) => Ok(Some(first)),
        (Some(_), Some(_)) => Err(key),
    }
}

// ---- where it is

fn number_from(number: Option<u64>, node: Option<Option<u64>>) -> Option<u64>
    ensures { result ≡ number_from number node }
{
    match (number, node) {
        (Some(number), _) => Some(number),
        (None, Some(number)) => number,
        (None, None) => None,
    }
}

fn number(part: &Value) -> Result<Option<u64>, Key>
    ensures { result ≡ number_in (view part.now) }
{
    let number = given::<u64>(part, "number", Key::Number)?;
    let node = given::<Node>(part, "node", Key::Node)?;
    Ok(number_from(number, node))
}

fn extent(part: &Value) -> Result<Option<Extent>, Key>
    ensures { result ≡ extent_in (view part.now) }
{
    let size = given::<Extent>(part, "size", Key::Size)?;
    let last = match given::<u64>(part, "last", Key::Last)? {
        Some(last) => Some(Extent::Last(last)),
        None => None,
    };
    one_of(size, last, Key::Last)
}

// Where a partition is.
#[derive(Clone, Copy)]
struct Place {
    number: Option<u64>,
    start: Option<u64>,
    extent: Option<Extent>,
    offset: Option<u64>,
}

fn place_of(part: &Value) -> Result<Place, Key>
    ensures { result ≡ place_in (view part.now) }
{
    let number = number(part)?;
    let start = given::<u64>(part, "start", Key::Start)?;
    let extent = extent(part)?;
    let offset = given::<u64>(part, "offset", Key::Offset)?;
    Ok(Place {
        number,
        start,
        extent,
        offset,
    })
}

// ---- what it is

fn name(part: &Value) -> Result<Option<[u16; 36]>, Key>
    ensures { result ≡ name_in (view part.now) }
{
    let name = given::<NameText>(part, "name", Key::Name)?;
    let units = given::<NameUnits>(part, "name_units", Key::NameUnits)?;
    one_of(name, units, Key::NameUnits)
}

fn attributes_from(number: Option<u64>, words: Option<Option<u64>>) -> Result<Option<u64>, Key>
    ensures { result ≡ attributes_from number words }
{
    match (number, words) {
        (number, None | Some(None)) => Ok(number),
        (None, Some(Some(bits))) => Ok(Some(bits)),
        (Some(number), Some(Some(bits))) => {
            check(are_worded(number, bits), Key::Attrs)?;
            Ok(Some(number))
        }
    }
}

fn attributes(part: &Value) -> Result<Option<u64>, Key>
    ensures { result ≡ attributes_in (view part.now) }
{
    let number = given::<u64>(part, "attributes", Key::Attributes)?;
    let words = given::<Option<Words>>(part, "attrs", Key::Attrs)?;
    attributes_from(number, words)
}

// What a partition is.
#[derive(Clone, Copy)]
struct Identity {
    kind: Option<NamedType>,
    unique: Option<Guid>,
    name: Option<[u16; 36]>,
    attributes: Option<u64>,
}

fn identity_of(part: &Value) -> Result<Identity, Key>
    ensures { result ≡ identity_in (view part.now) }
{
    let kind = given::<NamedType>(part, "type", Key::Type)?;
    check(is_text(part, "type_name"), Key::TypeName)?;
    let unique = given::<Guid>(part, "uuid", Key::Uuid)?;
    let name = name(part)?;
    let attributes = attributes(part)?;
    Ok(Identity {
        kind,
        unique,
        name,
        attributes,
    })
}

// ---- marks

fn boot_mark(bootable: bool) -> u8
    ensures { result ≡ boot_mark bootable }
{
    if bootable { 0x80 } else { 0 }
}

fn boot(part: &Value) -> Result<Option<u8>, Key>
    ensures { result ≡ boot_in (view part.now) }
{
    let bootable = match given::<bool>(part, "bootable", Key::Bootable)? {
        Some(bootable) => Some(boot_mark(bootable)),
        None => None,
    };
    let boot = given::<u8>(part, "boot", Key::Boot)?;
    one_of(bootable, boot, Key::Boot)
}

// What else stands in a record, or belongs to it.
#[derive(Clone, Copy)]
struct Marks {
    boot: Option<u8>,
    start_chs: Option<[u8; 3]>,
    end_chs: Option<[u8; 3]>,
    at: Option<u64>,
    bsd: Option<Option<Label>>,
}

fn marks_of(part: &Value) -> Result<Marks, Key>
    ensures { result ≡ marks_in (view part.now) }
{
    let boot = boot(part)?;
    let start_chs = given::<[u8; 3]>(part, "start_chs", Key::StartChs)?;
    let end_chs = given::<[u8; 3]>(part, "end_chs", Key::EndChs)?;
    let at = given::<u64>(part, "record", Key::Record)?;
    let bsd = given::<Option<Label>>(part, "bsd", Key::Bsd)?;
    Ok(Marks {
        boot,
        start_chs,
        end_chs,
        at,
        bsd,
    })
}

// ---- the whole object

const PART_NAMES: [&str; 19] = [
    "number",
    "node",
    "start",
    "size",
    "last",
    "offset",
    "type",
    "type_name",
    "uuid",
    "name",
    "name_units",
    "attributes",
    "attrs",
    "bootable",
    "boot",
    "start_chs",
    "end_chs",
    "record",
    "bsd",
];

fn part_with(place: Place, identity: Identity, marks: Marks) -> PartDraft
    ensures { result ≡ part_with place identity marks }
{
    PartDraft {
        number: place.number,
        start: place.start,
        extent: place.extent,
        kind: identity.kind,
        unique: identity.unique,
        name: identity.name,
        attributes: identity.attributes,
        boot: marks.boot,
        start_chs: marks.start_chs,
        end_chs: marks.end_chs,
        at: marks.at,
        offset: place.offset,
        bsd: marks.bsd,
    }
}

/// What an object says of a partition, or its first fault.
#[tactic(auto, unfolding(crate::specs::Parts::part_in))]
pub(crate) fn part(object: &Value) -> Result<PartDraft, Key>
    ensures { result ≡ part_in (view object.now) }
{
    check(object.is_object(), Key::Partitions)?;
    check(has_only(object, &PART_NAMES), Key::Unknown)?;
    let place = place_of(object)?;
    let identity = identity_of(object)?;
    let marks = marks_of(object)?;
    Ok(part_with(place, identity, marks))
}
