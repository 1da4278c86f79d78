//! The text of all types.

ghost use Rattle.std.specs.Prelude.{◌≡◌, ◌++◌, map, flat_map, string_bytes, OnOk, IfOk};
ghost use Rattle.pt_types.specs.Listing.{entry_line, record_line, types_lines};
ghost use Rattle.pt_types.specs.Types.{entry_row, record_row};

use crate::entries::{EntryType, entry_types};
use crate::records::{RecordType, record_types};
use std::alloc::{AllocError, Global};
use std::fmt::Write;

#[tactic(auto, using(crate::proofs::Hex::hex_padded))]
fn push_entry(text: &mut String, row: &EntryType) -> Result<(), AllocError>
    ensures { OnOk result (string_bytes text.new ≡ string_bytes text.old ++ entry_line (entry_row row.now)) }
{
    match row.code {
        Some(code) => writeln!(text, "gpt {code:04X} {} {}", row.guid, row.name),
        None => writeln!(text, "gpt - {} {}", row.guid, row.name),
    }
}

fn push_entries(text: &mut String, rows: &[EntryType]) -> Result<(), AllocError>
    ensures { OnOk result (string_bytes text.new ≡ string_bytes text.old ++ flat_map entry_line (map entry_row rows.now)) }
{
    for row in rows {
        push_entry(text, row)?;
    }
    Ok(())
}

fn push_families(text: &mut String, families: &[&[EntryType]]) -> Result<(), AllocError>
    ensures { OnOk result (string_bytes text.new
        ≡ string_bytes text.old ++ flat_map entry_line (flat_map (λ rows. map entry_row rows.now) families.now)) }
{
    for rows in families {
        push_entries(text, rows)?;
    }
    Ok(())
}

#[tactic(auto, using(crate::proofs::Hex::hex_padded))]
fn push_record(text: &mut String, row: &RecordType) -> Result<(), AllocError>
    ensures { OnOk result (string_bytes text.new ≡ string_bytes text.old ++ record_line (record_row row.now)) }
{
    writeln!(text, "mbr {:02X} {}", row.kind, row.name)
}

fn push_records(text: &mut String, rows: &[RecordType]) -> Result<(), AllocError>
    ensures { OnOk result (string_bytes text.new ≡ string_bytes text.old ++ flat_map record_line (map record_row rows.now)) }
{
    for row in rows {
        push_record(text, row)?;
    }
    Ok(())
}

/// The text of all types, a line each: `gpt`, the code of four digits or a hyphen, the GUID and a name of each type of a GPT, and
/// then `mbr`, the number of two digits and a name of each type of an MBR.
pub fn types_text(alloc: Global) -> Result<String, AllocError>
    ensures { IfOk result (λ text. string_bytes text ≡ types_lines) }
{
    let mut text = String::new(alloc);
    push_families(&mut text, &entry_types())?;
    push_records(&mut text, record_types())?;
    Ok(text)
}
