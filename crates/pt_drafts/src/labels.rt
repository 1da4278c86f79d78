//! The label of a slice.

ghost use Rattle.std.specs.Prelude.{◌≡◌};
ghost use Rattle.serde_json.specs.View.{view};
ghost use Rattle.pt_drafts.specs.Labels.{label_of, label_parts, part_numbers, part_of};
ghost use Rattle.pt_drafts.specs.Values.{exactly, if_not_null};

use crate::arrays::{fill, list};
use crate::members::{has_only, needed};
use crate::values::Stands;
use pt_bsd::{Label, LabelEntry};
use serde_json::Value;

const PART_NAMES: [&str; 6] = ["size", "offset", "fragment", "fstype", "frag", "cpg"];

fn part_numbers(part: &Value) -> Option<LabelEntry>
    ensures { result ≡ part_numbers (view part.now) }
{
    let size = needed::<u32>(part, "size")?;
    let offset = needed::<u32>(part, "offset")?;
    let fragment = needed::<u32>(part, "fragment")?;
    let fstype = needed::<u8>(part, "fstype")?;
    let frag = needed::<u8>(part, "frag")?;
    let cpg = needed::<u16>(part, "cpg")?;
    Some(LabelEntry {
        size,
        offset,
        fragment,
        fstype,
        frag,
        cpg,
    })
}

impl Stands for LabelEntry {
    type Out = LabelEntry;

    ghost stands_for = { part_of };

    #[tactic(auto, unfolding(crate::specs::Labels::part_of))]
    fn read(value: &Value) -> Option<LabelEntry> {
        if !has_only(value, &PART_NAMES) {
            return None;
        }
        part_numbers(value)
    }
}

impl Stands for [Option<LabelEntry>; 8] {
    type Out = [Option<LabelEntry>; 8];

    ghost stands_for = { exactly 8 (if_not_null part_of) };

    fn read(value: &Value) -> Option<[Option<LabelEntry>; 8]> {
        let values = list(value)?;
        if values.len() != 8 {
            return None;
        }
        let mut all = [None; 8];
        if fill::<Option<LabelEntry>>(values, &mut all) {
            Some(all)
        } else {
            None
        }
    }
}

const LABEL_NAMES: [&str; 10] = [
    "kind",
    "subtype",
    "type_name",
    "pack_name",
    "geometry",
    "unit",
    "kept",
    "bbsize",
    "sbsize",
    "entries",
];

fn label_parts(label: &Value) -> Option<Label>
    ensures { result ≡ label_parts (view label.now) }
{
    let kind = needed::<u16>(label, "kind")?;
    let subtype = needed::<u16>(label, "subtype")?;
    let type_name = needed::<[u8; 16]>(label, "type_name")?;
    let pack_name = needed::<[u8; 16]>(label, "pack_name")?;
    let geometry = needed::<[u32; 4]>(label, "geometry")?;
    let unit = needed::<u32>(label, "unit")?;
    let kept = needed::<[u8; 68]>(label, "kept")?;
    let bbsize = needed::<u32>(label, "bbsize")?;
    let sbsize = needed::<u32>(label, "sbsize")?;
    let entries = needed::<[Option<LabelEntry>; 8]>(label, "entries")?;
    Some(Label {
        kind,
        subtype,
        type_name,
        pack_name,
        geometry,
        unit,
        kept,
        bbsize,
        sbsize,
        entries,
    })
}

impl Stands for Label {
    type Out = Label;

    ghost stands_for = { label_of };

    #[tactic(auto, unfolding(crate::specs::Labels::label_of))]
    fn read(value: &Value) -> Option<Label> {
        if !has_only(value, &LABEL_NAMES) {
            return None;
        }
        label_parts(value)
    }
}
