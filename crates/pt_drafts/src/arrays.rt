//! Arrays of JSON.

ghost use Rattle.std.specs.Prelude.{◌≡◌, ◌≤◌, ◌^◌, IfOk, Some, None, if◌then◌else◌, map, length};
ghost use Rattle.std.specs.Option.{option_map};
ghost use Rattle.serde_json.specs.View.{view};
ghost use Rattle.pt_drafts.specs.Values.{all_of, exactly, list_in, whole, whole_below};
ghost use Rattle.pt_drafts.specs.inner.Arrays.{filled};

use crate::draft::Chain;
use crate::values::Stands;
use serde_json::Value;
use std::alloc::{AllocError, Global};

/// The values of an array in order.
pub(crate) fn list(value: &Value) -> Option<&[Value]>
    ensures { option_map (λ vs. map view vs.now) result ≡ list_in (view value.now) }
{
    match value.as_array() {
        Some(values) => Some(values.as_slice()),
        None => None,
    }
}

/// Writes what values stand for over the beginning of a list, and says whether each of them stands for something.
pub(crate) fn fill<T: Stands>(values: &[Value], all: &mut [T::Out]) -> bool
where
    T::Out: Copy,
    requires { length values.now ≤ length all.old }
    ensures { (if result then Some all.new else None) ≡ filled all.old (all_of T.stands_for (map view values.now)) }
{
    for k in 0..values.len() {
        all[k] = match T::read(&values[k]) {
            Some(found) => found,
            None => return false,
        };
    }
    true
}

impl Stands for [u32; 4] {
    type Out = [u32; 4];

    ghost stands_for = { exactly 4 (whole_below (2 ^ 32)) };

    fn read(value: &Value) -> Option<[u32; 4]> {
        let values = list(value)?;
        if values.len() != 4 {
            return None;
        }
        let mut all = [0; 4];
        if fill::<u32>(values, &mut all) {
            Some(all)
        } else {
            None
        }
    }
}

/// What all values of an array stand for.
pub(crate) fn each(alloc: Global, values: &[Value]) -> Result<Option<Chain>, AllocError>
    ensures { IfOk result (λ o. o ≡ all_of whole (map view values.now)) }
{
    let mut all = Vec::new(alloc);
    for k in 0..values.len() {
        match u64::read(&values[k]) {
            Some(number) => all.push(number)?,
            None => return Ok(None),
        }
    }
    Ok(Some(Chain::new(all)))
}
