//! Both copies of a table: whether it fits a disk, sector 0 with the protective record, and the phases of a plan that writes
//! them, and labels with them.
pub mod laws;
mod parts;

ghost use Rattle.std.specs.Prelude.{◌≡◌, ◌<◌, ◌≤◌, ◌↔◌, ◌∷◌, ◌++◌, IsTrue, length, Option, [], ℕ, All, IfOk, OnOk};
ghost use Rattle.pt_sector.specs.Sectors.{IsSectorSize};
ghost use Rattle.pt_gpt.specs.Copies.{AllTyped, HasRoom, IsEncoded};
ghost use Rattle.pt_gpt.specs.declared.table.Side.TheVariants.{Primary};
ghost use Rattle.pt_gpt.specs.declared.table.Table.{Table as TableValue};
ghost use Rattle.pt_apply.specs.Plans.{writes_of, phases_of, InRange, PhaseInRange, writes_in};
ghost use Rattle.pt_apply.specs.inner.Plans.{phases_in};
ghost use Rattle.pt_cases.specs.Writes.{FitsTable, IsProtectedFrom, Protects, array_phase, one_write};
ghost use Rattle.pt_cases.specs.Cases.{backup_first_phases, primary_first_phases, from_mbr_phases, primary_and_labels};
ghost use Rattle.pt_cases.specs.Keeps.{copies_bound};
ghost use Rattle.pt_planner.specs.Phases.{last_of, WroteCopies};
ghost use Rattle.pt_planner.specs.inner.Phases.{ArePrimary};

use crate::copies::parts::{header_sector, push_array, push_backup};
pub(crate) use parts::single;
use pt_apply::{Plan, Write};
use pt_gpt::{
    EncodedArray, Entry, MOST_ENTRIES, Side, Table, encode_array, first_usable, has_room,
};
use pt_mbr::{is_protective, protective};
use pt_sector::Sector;
use std::alloc::{AllocError, Global};

/// The first sector of the primary array.
const PRIMARY_ARRAY: u64 = 2;

/// Whether each used entry has a type.
fn all_typed(entries: &[Option<Entry>]) -> bool
    ensures { IsTrue result ↔ AllTyped entries.now }
{
    for k in 0..entries.len() {
        if let Some(entry) = &entries[k] {
            if entry.kind.0 == [0; 16] {
                return false;
            }
        }
    }
    true
}

/// Whether a GPT of so many sectors may have the table.
pub fn fits_table<const B: usize>(sectors: u64, table: &Table) -> bool
    requires { IsSectorSize B }
    ensures { IsTrue result ↔ FitsTable B sectors table.now }
{
    let count = table.entries.len();
    if !has_room::<B>(sectors) || count < 1 || count > MOST_ENTRIES {
        return false;
    }
    let edge = first_usable::<B>();
    if table.first < edge || table.first > table.last || table.last > sectors - edge {
        return false;
    }
    all_typed(table.entries.as_slice())
}

/// Sector 0 with the protective record put over it; the boot code stays.
pub fn protected_head<const B: usize>(sectors: u64, head: &Sector<B>) -> Sector<B>
    requires { IsSectorSize B }
    ensures { IsProtectedFrom sectors head.now result }
{
    protective(sectors, head)
}

/// The sector 0 to be written, none where it is protective already.
pub fn protecting<const B: usize>(sectors: u64, head: &Sector<B>) -> Option<Sector<B>>
    requires { IsSectorSize B }
    ensures { Protects sectors head.now (last_of result) }
{
    if is_protective(sectors, head) {
        return None;
    }
    Some(protected_head(sectors, head))
}

/// The primary array.
fn primary_array<const B: usize>(
    alloc: Global,
    array: &EncodedArray,
) -> Result<Vec<Write<B>>, AllocError>
    requires size { IsSectorSize B }
    requires long { length array.now.bytes.items ≡ 16384 }
    ensures { IfOk result (λ ws. (n : ℕ) (t : TableValue) → IsEncoded t.entries array.now
        → writes_of ws.items ≡ array_phase B n t Primary) }
{
    let mut writes = Vec::new(alloc);
    push_array(&mut writes, array, PRIMARY_ARRAY)?;
    Ok(writes)
}

/// The primary array, and labels after it.
fn array_and_labels<const B: usize>(
    alloc: Global,
    array: &EncodedArray,
    labels: &[Write<B>],
) -> Result<Vec<Write<B>>, AllocError>
    requires size { IsSectorSize B }
    requires long { length array.now.bytes.items ≡ 16384 }
    ensures { IfOk result (λ ws. (n : ℕ) (t : TableValue) → IsEncoded t.entries array.now
        → writes_of ws.items ≡ primary_and_labels B n t (writes_of labels.now)) }
{
    let mut writes = primary_array(alloc, array)?;
    writes.extend_from_slice(labels)?;
    Ok(writes)
}

/// Adds a phase.
fn push_phase<const B: usize>(
    phases: &mut Vec<Vec<Write<B>>>,
    phase: Vec<Write<B>>,
) -> Result<(), AllocError>
    ensures { OnOk result (phases_in phases.new.items ≡ phases_in phases.old.items ++ writes_of phase.entry.items ∷ []) }
{
    phases.push(phase)?;
    Ok(())
}

/// Adds a phase of one write.
fn push_single<const B: usize>(
    phases: &mut Vec<Vec<Write<B>>>,
    alloc: Global,
    lba: u64,
    bytes: &Sector<B>,
) -> Result<(), AllocError>
    requires { IsSectorSize B }
    ensures { OnOk result (phases_in phases.new.items ≡ phases_in phases.old.items ++ one_write lba bytes.now ∷ []) }
{
    push_phase(phases, single(alloc, lba, bytes)?)
}

/// Adds the phases of the primary copy: its header zeroed, a phase that has its array, and its header.
fn push_primary<const B: usize>(
    phases: &mut Vec<Vec<Write<B>>>,
    writes: Vec<Write<B>>,
    alloc: Global,
    sectors: u64,
    table: &Table,
    array: &EncodedArray,
) -> Result<(), AllocError>
    requires size { IsSectorSize B }
    requires room { HasRoom B sectors }
    requires few { length table.now.entries ≤ 128 }
    requires array { IsEncoded table.now.entries array.now }
    ensures { OnOk result (ArePrimary B sectors table.now (writes_of writes.entry.items) (phases_in phases.old.items)
        (phases_in phases.new.items)) }
{
    push_single(phases, alloc, 1, &[0; B])?;
    push_phase(phases, writes)?;
    push_single(
        phases,
        alloc,
        1,
        &header_sector(sectors, table, array, Side::Primary),
    )?;
    Ok(())
}

/// Adds the phase of sector 0, if it is written.
fn push_last<const B: usize>(
    phases: &mut Vec<Vec<Write<B>>>,
    alloc: Global,
    last: &Option<Sector<B>>,
) -> Result<(), AllocError>
    requires { IsSectorSize B }
    ensures { OnOk result (phases_in phases.new.items ≡ phases_in phases.old.items ++ last_of last.now) }
{
    match last {
        Some(bytes) => push_single(phases, alloc, 0, bytes),
        None => Ok(()),
    }
}

/// The plan where a primary copy stands: the labels and the backup copy; sector 1 zeroed; the primary array; the primary
/// header; sector 0, if it is written.
pub fn backup_first<const B: usize>(
    alloc: Global,
    sectors: u64,
    table: &Table,
    labels: Vec<Write<B>>,
    last: &Option<Sector<B>>,
) -> Result<Plan<B>, AllocError>
    requires size { IsSectorSize B }
    requires room { HasRoom B sectors }
    requires few { length table.now.entries ≤ 128 }
    requires labels_in_range { PhaseInRange sectors labels.items }
    ensures phases { IfOk result (λ plan. WroteCopies B sectors table.now
        (λ p k. backup_first_phases B sectors table.now p k (writes_of labels.entry.items) (last_of last.now)) (phases_of plan)) }
    ensures in_range { IfOk result (InRange sectors) }
    ensures some { IfOk result (λ plan. All (λ p. 0 < length p.items) plan.phases.items) }
    ensures count { IfOk result (λ plan. length (writes_in (phases_of plan)) ≤ copies_bound B (length labels.entry.items)) }
{
    let array = encode_array(alloc, table.entries.as_slice())?;
    let mut front = labels;
    push_backup(&mut front, sectors, table, &array)?;
    let writes = primary_array(alloc, &array)?;
    let mut phases = Vec::new(alloc);
    push_phase(&mut phases, front)?;
    push_primary(&mut phases, writes, alloc, sectors, table, &array)?;
    push_last(&mut phases, alloc, last)?;
    Ok(Plan { phases })
}

/// The plan where no primary copy stands: sector 1 zeroed; the primary array and the labels; the primary header; the
/// backup copy; sector 0, if it is written.
pub fn primary_first<const B: usize>(
    alloc: Global,
    sectors: u64,
    table: &Table,
    labels: Vec<Write<B>>,
    last: &Option<Sector<B>>,
) -> Result<Plan<B>, AllocError>
    requires size { IsSectorSize B }
    requires room { HasRoom B sectors }
    requires few { length table.now.entries ≤ 128 }
    requires labels_in_range { PhaseInRange sectors labels.items }
    ensures phases { IfOk result (λ plan. WroteCopies B sectors table.now
        (λ p k. primary_first_phases B sectors table.now p k (writes_of labels.entry.items) (last_of last.now)) (phases_of plan)) }
    ensures in_range { IfOk result (InRange sectors) }
    ensures some { IfOk result (λ plan. All (λ p. 0 < length p.items) plan.phases.items) }
    ensures count { IfOk result (λ plan. length (writes_in (phases_of plan)) ≤ copies_bound B (length labels.entry.items)) }
{
    let array = encode_array(alloc, table.entries.as_slice())?;
    let writes = array_and_labels(alloc, &array, labels.as_slice())?;
    let mut backup = Vec::new(alloc);
    push_backup(&mut backup, sectors, table, &array)?;
    let mut phases = Vec::new(alloc);
    push_primary(&mut phases, writes, alloc, sectors, table, &array)?;
    push_phase(&mut phases, backup)?;
    push_last(&mut phases, alloc, last)?;
    Ok(Plan { phases })
}

/// The plan from an MBR disk: both copies and the labels; sector 0.
pub fn from_mbr<const B: usize>(
    alloc: Global,
    sectors: u64,
    table: &Table,
    labels: Vec<Write<B>>,
    head: &Sector<B>,
) -> Result<Plan<B>, AllocError>
    requires size { IsSectorSize B }
    requires room { HasRoom B sectors }
    requires few { length table.now.entries ≤ 128 }
    requires labels_in_range { PhaseInRange sectors labels.items }
    ensures phases { IfOk result (λ plan. WroteCopies B sectors table.now
        (λ p k. from_mbr_phases B sectors table.now p k (writes_of labels.entry.items) head.now) (phases_of plan)) }
    ensures in_range { IfOk result (InRange sectors) }
    ensures some { IfOk result (λ plan. All (λ p. 0 < length p.items) plan.phases.items) }
    ensures count { IfOk result (λ plan. length (writes_in (phases_of plan)) ≤ copies_bound B (length labels.entry.items)) }
{
    let array = encode_array(alloc, table.entries.as_slice())?;
    let header = header_sector(sectors, table, &array, Side::Primary);
    let mut writes = single(alloc, 1, &header)?;
    push_array(&mut writes, &array, PRIMARY_ARRAY)?;
    writes.extend_from_slice(labels.as_slice())?;
    push_backup(&mut writes, sectors, table, &array)?;
    let mut phases = Vec::new(alloc);
    push_phase(&mut phases, writes)?;
    push_single(&mut phases, alloc, 0, head)?;
    Ok(Plan { phases })
}
