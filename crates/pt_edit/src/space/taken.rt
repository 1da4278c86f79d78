//! The sectors that partitions take.

ghost use Rattle.std.specs.Prelude.{◌≡◌, ◌<◌, ◌^◌, ◌++◌, IfOk, OnOk, length, Some};
ghost use Rattle.pt_members.specs.Members.{records_as, entries_as, logicals_as, parts_in};
ghost use Rattle.pt_edit.specs.Space.{run_of, span_of, taken_by, spanned_by};

use crate::space::Run;
use pt_bsd::Label;
use pt_gpt::Entry;
use pt_mbr::{Ebr, FIRST_LOGICAL, Record};
use pt_members::{
    LETTERS, Member, entry_slot, number_behind, numbered_logical, part_slot, record_slot,
};
use std::alloc::{AllocError, Global};

// Adds the sectors of what stands in a place, where they exist.
fn push_run(taken: &mut Vec<Run>, place: Option<Member>) -> Result<(), AllocError>
    ensures { OnOk result (taken.new.items ≡ taken.old.items ++ run_of place) }
{
    if let Some(m) = place {
        if m.first <= m.last && m.last < 1 << 63 {
            taken.push(Run {
                first: m.first,
                last: m.last,
            })?;
        }
    }
    Ok(())
}

// Adds the sectors of what stands in a place, where there are some.
fn push_span(taken: &mut Vec<Run>, place: Option<Member>) -> Result<(), AllocError>
    ensures { OnOk result (taken.new.items ≡ taken.old.items ++ span_of place) }
{
    if let Some(m) = place {
        if m.first <= m.last {
            taken.push(Run {
                first: m.first,
                last: m.last,
            })?;
        }
    }
    Ok(())
}

/// The sectors that the records of sector 0 take.
pub fn taken_by_records(
    alloc: Global,
    records: &[Option<Record>; 4],
) -> Result<Vec<Run>, AllocError>
    ensures { IfOk result (λ v. v.items ≡ spanned_by (records_as 512 1 «records».now)) }
{
    let mut taken = Vec::new(alloc);
    for k in 0..4usize {
        push_span(&mut taken, record_slot::<512>(records, k))?;
    }
    Ok(taken)
}

/// The sectors that the entries of a GPT take, where they exist.
pub fn taken_by_entries(alloc: Global, entries: &[Option<Entry>]) -> Result<Vec<Run>, AllocError>
    ensures { IfOk result (λ v. v.items ≡ taken_by (entries_as 512 1 entries.now)) }
{
    let mut taken = Vec::new(alloc);
    for k in 0..entries.len() {
        push_run(&mut taken, entry_slot::<512>(entries, k))?;
    }
    Ok(taken)
}

/// The sectors that the logical partitions of a chain take, where they exist.
pub fn taken_by_logicals(alloc: Global, chain: &[Ebr]) -> Result<Vec<Run>, AllocError>
    ensures { IfOk result (λ v. v.items ≡ taken_by (logicals_as 512 5 chain.now)) }
{
    let mut taken = Vec::new(alloc);
    let mut number = FIRST_LOGICAL;
    for k in 0..chain.len() {
        push_run(&mut taken, numbered_logical::<512>(chain, k, number))?;
        number = number_behind(chain, k, number);
    }
    Ok(taken)
}

/// The sectors that the partitions of a slice's label take, where they exist.
pub fn taken_by_parts(alloc: Global, label: &Label, slice: &Member) -> Result<Vec<Run>, AllocError>
    requires small { slice.now.first < 2 ^ 66 }
    requires counted { length label.now.entries ≡ 8 }
    ensures { IfOk result (λ v. v.items ≡ taken_by (parts_in (Some label.now) slice.now)) }
{
    let mut taken = Vec::new(alloc);
    for k in 0..LETTERS {
        push_run(&mut taken, part_slot(label, slice, k))?;
    }
    Ok(taken)
}
