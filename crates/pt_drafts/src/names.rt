//! Names of entries.

ghost use Rattle.std.specs.Prelude.{◌≡◌, ◌≤◌, ◌<◌, IfSome, IfNone, length};
ghost use Rattle.pt_drafts.specs.Names.{has_zero, name_of, padded, units_in, units_of};
ghost use Rattle.pt_drafts.specs.Texts.{by_text};

use crate::arrays::{fill, list};
use crate::values::Stands;
use serde_json::Value;

// How many UTF-16 units an entry's name has.
const NAME_UNITS: usize = 36;

// The units of a text with zeros behind them; none where there are more than 36.
fn padded_units(text: &str) -> Option<[u16; NAME_UNITS]>
    ensures short { IfSome result (λ units. length (units_of text.now) ≤ 36) }
    ensures some { IfSome result (λ units. units ≡ padded (units_of text.now)) }
    ensures none { IfNone result (36 < length (units_of text.now)) }
{
    let mut units = [0; NAME_UNITS];
    let mut count = 0;
    for unit in text.encode_utf16() {
        if count == NAME_UNITS {
            return None;
        }
        units[count] = unit;
        count += 1;
    }
    Some(units)
}

fn has_zero(text: &[u8]) -> bool
    ensures { result ≡ has_zero text.now }
{
    for byte in text {
        if *byte == 0 {
            return true;
        }
    }
    false
}

// The name that a text gives.
#[tactic(auto, unfolding(crate::specs::Names::name_of))]
fn padded_name(text: &str) -> Option<[u16; NAME_UNITS]>
    ensures { result ≡ name_of text.now }
{
    if has_zero(text.as_bytes()) {
        return None;
    }
    padded_units(text)
}

/// A name as a text.
pub(crate) enum NameText {}

impl Stands for NameText {
    type Out = [u16; NAME_UNITS];

    ghost stands_for = { by_text name_of };

    fn read(value: &Value) -> Option<[u16; NAME_UNITS]> {
        padded_name(value.as_str()?)
    }
}

/// A name as an array of its units.
pub(crate) enum NameUnits {}

impl Stands for NameUnits {
    type Out = [u16; NAME_UNITS];

    ghost stands_for = { units_in };

    fn read(value: &Value) -> Option<[u16; NAME_UNITS]> {
        let values = list(value)?;
        if values.len() > NAME_UNITS {
            return None;
        }
        let mut units = [0; NAME_UNITS];
        if fill::<u16>(values, &mut units) {
            Some(units)
        } else {
            None
        }
    }
}
