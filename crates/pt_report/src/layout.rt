//! The lines that tell a layout.

ghost use Rattle.std.specs.Prelude.{◌≡◌, ◌++◌, codes, false, flat_map, OnOk};
ghost use Rattle.std.specs.Io.KnownBytes.{Appends};
ghost use Rattle.pt_guid.specs.Guids.{text_of};
ghost use Rattle.pt_members.specs.declared.layout.Body.TheVariants.{Gpt};
ghost use Rattle.pt_members.specs.Rows.{rows_of};
ghost use Rattle.pt_report.specs.Shown.{hex, line, code_of, entry_fields, layout_text, row_line, source_fields, table_fields, type_text};

use crate::name::print_name;
use crate::path::print_path;
use pt_gpt::{Entry, Table};
use pt_guid::{Guid, code_of_type};
use pt_layout::{Body, Layout, Row, Source};
use std::io;
use std::io::Write;

/// Prints a layout: a line for the table, then one a partition, by number, a slice before its letters.
pub fn print_layout<const B: usize, O: Write>(out: &mut O, layout: &Layout) -> io::Result<()>
    ensures { OnOk result (Appends (O.contents out.old) (O.contents out.new) (layout_text B layout.now)) }
{
    print_head(out, layout)?;
    print_rows::<B, O>(out, layout)
}

fn print_head<O: Write>(out: &mut O, layout: &Layout) -> io::Result<()>
    ensures { OnOk result (Appends (O.contents out.old) (O.contents out.new) (line (table_fields layout.now.sectors layout.now.body))) }
{
    match &layout.body {
        Body::Mbr { .. } => writeln!(out, "mbr {}", layout.sectors),
        Body::Gpt(table) => print_gpt(out, layout.sectors, table),
    }
}

fn print_gpt<O: Write>(out: &mut O, sectors: u64, table: &Table) -> io::Result<()>
    ensures { OnOk result (Appends (O.contents out.old) (O.contents out.new) (line (table_fields sectors (Gpt table.now)))) }
{
    let mut text = [0; 36];
    let disk = table.disk.to_text(&mut text);
    writeln!(out, "gpt {sectors} {} {} {disk}", table.first, table.last)
}

fn print_rows<const B: usize, O: Write>(out: &mut O, layout: &Layout) -> io::Result<()>
    ensures { OnOk result (Appends (O.contents out.old) (O.contents out.new) (flat_map row_line (rows_of B layout.now))) }
{
    for row in layout.rows::<B>() {
        print_row(out, &row)?;
    }
    Ok(())
}

// Prints a partition: its path and its sectors, then what its record or entry tells.
fn print_row<O: Write>(out: &mut O, row: &Row) -> io::Result<()>
    ensures { OnOk result (Appends (O.contents out.old) (O.contents out.new) (row_line row.now)) }
{
    let member = &row.member;
    print_path(out, &member.path)?;
    write!(out, " {} {} ", member.first, member.last)?;
    print_source(out, &row.source)
}

#[tactic(auto, using(crate::proofs::Hex::hex_padded))]
fn print_source<O: Write>(out: &mut O, source: &Source) -> io::Result<()>
    ensures { OnOk result (Appends (O.contents out.old) (O.contents out.new) (line (source_fields source.now))) }
{
    match source {
        Source::Record(record) => writeln!(out, "{:02X} {:02X}", record.kind, record.boot),
        Source::Entry(entry) => print_entry(out, entry),
        Source::Part(entry) => writeln!(out, "{:02X}", entry.fstype),
    }
}

fn print_entry<O: Write>(out: &mut O, entry: &Entry) -> io::Result<()>
    ensures { OnOk result (Appends (O.contents out.old) (O.contents out.new) (line (entry_fields entry.now))) }
{
    print_kind(out, &entry.kind)?;
    print_attributes(out, entry.attributes)?;
    print_guid(out, &entry.unique)?;
    print_name(out, &entry.name)
}

// Prints attributes between spaces.
#[tactic(auto, using(crate::proofs::Hex::hex_padded))]
fn print_attributes<O: Write>(out: &mut O, attributes: u64) -> io::Result<()>
    ensures { OnOk result (Appends (O.contents out.old) (O.contents out.new) (codes " " ++ (hex false 16 attributes ++ codes " "))) }
{
    write!(out, " {attributes:016x} ")
}

// The code of a type.
fn code(kind: &Guid) -> Option<u16>
    ensures { result ≡ code_of kind.now.0 }
{
    code_of_type(kind)
}

#[tactic(auto, using(crate::proofs::Hex::hex_padded))]
fn print_kind<O: Write>(out: &mut O, kind: &Guid) -> io::Result<()>
    ensures { OnOk result (Appends (O.contents out.old) (O.contents out.new) (type_text kind.now)) }
{
    match code(kind) {
        Some(code) => write!(out, "{code:04X}"),
        None => print_guid(out, kind),
    }
}

fn print_guid<O: Write>(out: &mut O, guid: &Guid) -> io::Result<()>
    ensures { OnOk result (Appends (O.contents out.old) (O.contents out.new) (text_of guid.now.0)) }
{
    let mut text = [0; 36];
    out.write_all(guid.to_text(&mut text).as_bytes())
}
