//! The sectors of tables, in one list of runs: to ask for many of them.

ghost use Rattle.std.specs.Prelude.{◌≡◌, ◌<◌, ◌+◌, ◌^◌, ◌↔◌, ◌⊎◌, ℕ, All, IfOk, OnOk};
ghost use Rattle.pt_sector.specs.Sectors.{IsSectorSize};
ghost use Rattle.pt_mbr.specs.Chain.{StandsAt};
ghost use Rattle.pt_members.specs.Members.{IsPlace};
ghost use Rattle.pt_members.specs.Tables.{IsTable, IsBodyTable, IsGptTable, TableOf};
ghost use Rattle.pt_recover.specs.Spans.{IsIn, Adds};

use crate::denoted::same_layout;
use crate::trial::Layouts;
use pt_gpt::first_usable;
use pt_mbr::Ebr;
use pt_members::{Body, Layout, Slice, label_places};
use pt_recover::Trace;
use std::alloc::{AllocError, Global};

// Those of a GPT: from sector 0 to the first usable one, and as many at the end but for sector 0.
fn add_gpt<const B: usize>(tables: &mut Trace, sectors: u64) -> Result<(), AllocError>
    requires { IsSectorSize B }
    ensures { OnOk result (Adds tables.old tables.new (IsGptTable B sectors)) }
{
    let edge = first_usable::<B>();
    tables.add(0, edge - 1)?;
    if sectors == 0 {
        return Ok(());
    }
    tables.add(sectors.saturating_sub(edge - 1), sectors - 1)
}

// The extended boot records.
fn add_chain(tables: &mut Trace, chain: &[Ebr]) -> Result<(), AllocError>
    ensures { OnOk result (Adds tables.old tables.new (λ s. StandsAt s chain.now)) }
{
    for k in 0..chain.len() {
        tables.add_one(chain[k].at.0)?;
    }
    Ok(())
}

// Those of an MBR: sector 0 and the extended boot records.
fn add_mbr(tables: &mut Trace, chain: &[Ebr]) -> Result<(), AllocError>
    ensures { OnOk result (Adds tables.old tables.new (λ s. (s ≡ 0) ⊎ StandsAt s chain.now)) }
{
    tables.add_one(0)?;
    add_chain(tables, chain)
}

fn add_body<const B: usize>(tables: &mut Trace, sectors: u64, body: &Body) -> Result<(), AllocError>
    requires { IsSectorSize B }
    ensures { OnOk result (Adds tables.old tables.new (IsBodyTable B sectors body.now)) }
{
    match body {
        Body::Mbr { chain, .. } => add_mbr(tables, chain.as_slice()),
        Body::Gpt(_) => add_gpt::<B>(tables, sectors),
    }
}

// The label places of slices.
pub(crate) fn add_labels(tables: &mut Trace, slices: &[Slice]) -> Result<(), AllocError>
    requires { All (λ p. p.first + 1 < 2 ^ 64) slices.now }
    ensures { OnOk result (Adds tables.old tables.new (IsPlace slices.now)) }
{
    for k in 0..slices.len() {
        tables.add_one(slices[k].first + 1)?;
    }
    Ok(())
}

fn add_tables<const B: usize>(
    alloc: Global,
    tables: &mut Trace,
    layout: &Layout,
) -> Result<(), AllocError>
    requires { IsSectorSize B }
    ensures { OnOk result (Adds tables.old tables.new (IsTable B layout.now)) }
{
    add_body::<B>(tables, layout.sectors, &layout.body)?;
    let slices = label_places::<B>(alloc, layout.sectors, &layout.body)?;
    add_labels(tables, &slices)
}

// Nothing has none.
fn add_tables_of<const B: usize>(
    alloc: Global,
    tables: &mut Trace,
    layout: &Option<Layout>,
) -> Result<(), AllocError>
    requires { IsSectorSize B }
    ensures { OnOk result (Adds tables.old tables.new (TableOf B layout.now)) }
{
    match layout {
        Some(layout) => add_tables::<B>(alloc, tables, layout),
        None => Ok(()),
    }
}

/// The sectors in the tables of either layout.
pub(crate) fn tables_in_either<const B: usize>(
    alloc: Global,
    layouts: &Layouts,
) -> Result<Trace, AllocError>
    requires { IsSectorSize B }
    ensures { IfOk result (λ t. (s : ℕ) → IsIn t s ↔ (TableOf B layouts.now.old s ⊎ TableOf B layouts.now.new s)) }
{
    let mut tables = Trace::new(alloc);
    add_tables_of::<B>(alloc, &mut tables, &layouts.old)?;
    if same_layout(&layouts.old, &layouts.new) {
        return Ok(tables);
    }
    add_tables_of::<B>(alloc, &mut tables, &layouts.new)?;
    Ok(tables)
}
