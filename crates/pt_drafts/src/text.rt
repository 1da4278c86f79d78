//! The draft of a text.

ghost use Rattle.std.specs.Prelude.{◌≡◌, IfOk, IfErr, Ok};
ghost use Rattle.std.specs.Option.{option_map};
ghost use Rattle.serde_json.specs.View.{view};
ghost use Rattle.pt_drafts.specs.Tables.{Tells, draft_of, of_table, only_table};

use crate::draft::Draft;
use crate::fault::{DraftError, Key, TextFault};
use crate::members::has_only;
use crate::table::table_draft;
use serde_json::Value;
use std::alloc::Global;

// The object under `partitiontable`, where a value is an object of it alone.
fn only_table(value: &Value) -> Option<&Value>
    ensures { option_map (λ v. view v.now) result ≡ only_table (view value.now) }
{
    if !has_only(value, &["partitiontable"]) {
        return None;
    }
    match value.get("partitiontable") {
        Some(table) => { if table.is_object() { Some(table) } else { None } }
        None => None,
    }
}

fn value_draft(alloc: Global, value: &Value) -> Result<Draft, DraftError>
    ensures ok { IfOk result (λ d. of_table (only_table (view value.now)) ≡ Ok d) }
    ensures err { IfErr result (Tells (of_table (only_table (view value.now)))) }
{
    match only_table(value) {
        Some(table) => table_draft(alloc, table),
        None => Err(DraftError::Fault(TextFault {
            key: Key::Table,
            part: None,
        })),
    }
}

/// All that a text says of a table, or its first fault. They are looked for in this order: in the text as a whole, in the names of the
/// table's members, in these members, and then in each object of `partitions`, first in its names too.
///
/// Of two members with one name the last counts. A text that nests deeper than 127 isn't read.
#[tactic(auto, unfolding(crate::specs::Tables::draft_of))]
pub fn read_draft(alloc: Global, text: &str) -> Result<Draft, DraftError>
    ensures ok { IfOk result (λ d. draft_of text.now ≡ Ok d) }
    ensures err { IfErr result (Tells (draft_of text.now)) }
{
    match Value::from_str(alloc, text) {
        Ok(value) => value_draft(alloc, &value),
        Err(error) => {
            if error.is_memory() {
                return Err(DraftError::Memory);
            }
            Err(DraftError::Fault(TextFault {
                key: Key::Text,
                part: None,
            }))
        }
    }
}
