//! The plans of both copies on a disk of 4096 sectors.

ghost use Rattle.std.specs.Prelude.{◌≡◌, ◌<◌, ◌≤◌, All, length, IfOk};

use crate::plans::targets::one_partition;
use pt_cases::targets::{PlanError, Target, TargetKind};
use pt_gpt::{Entries, Table};
use pt_guid::Guid;
use pt_layout::{Head, Layout, Survey, Trace};
use pt_planner::phases::{Order, both_copies};
use pt_sector::Lba;
use std::alloc::{AllocError, Global};
use std::test::Fail;

const SECTORS: u64 = 4096;

const ZEROS: [u8; 512] = [0; 512];

/// A table of 128 entries, all of them free.
fn table(alloc: Global) -> Result<Table, AllocError>
    ensures { IfOk result (λ t. length t.entries ≤ 128) }
{
    let entries = Vec::from_elem(alloc, None, 128)?;
    Ok(Table {
        disk: Guid([7; 16]),
        first: 34,
        last: SECTORS - 34,
        entries: Entries::new(entries),
    })
}

/// What a sector over zeros must hold.
fn target(at: u64, kind: TargetKind) -> Target<512>
    ensures { result.at.0 ≡ at }
{
    Target {
        at: Lba(at),
        bytes: [1; 512],
        under: ZEROS,
        kind,
    }
}

/// One target.
fn one(alloc: Global, at: u64, kind: TargetKind) -> Result<Vec<Target<512>>, AllocError>
    requires { at < 4096 }
    ensures { IfOk result (λ ts. All (λ t. t.at.0 < 4096) ts.items) }
{
    let mut places = Vec::new(alloc);
    places.push(target(at, kind))?;
    Ok(places)
}

/// Two targets of new labels.
fn two(alloc: Global, first: u64, second: u64) -> Result<Vec<Target<512>>, AllocError>
    requires first_in { first < 4096 }
    requires second_in { second < 4096 }
    ensures { IfOk result (λ ts. All (λ t. t.at.0 < 4096) ts.items) }
{
    let mut places = one(alloc, first, TargetKind::New)?;
    places.push(target(second, TargetKind::New))?;
    Ok(places)
}

/// How many writes each phase has.
fn counts(
    alloc: Global,
    order: &Order<512>,
    survey: &Survey,
    places: Vec<Target<512>>,
) -> Result<[usize; 5], PlanError>
    requires in_range { All (λ t. t.at.0 < 4096) places.items }
{
    let plan = both_copies(alloc, SECTORS, survey, order, &table(alloc)?, places)?;
    let mut counts = [0; 5];
    for i in 0..plan.phases.len() {
        if i < 5 {
            counts[i] = plan.phases[i].len();
        }
    }
    Ok(counts)
}

/// The survey of a protective disk that denotes this, with these guarded sectors.
fn survey(alloc: Global, layout: Option<Layout>, guarded: Trace) -> Survey {
    Survey {
        head: Head::Protected,
        layout,
        finding: None,
        primary: true,
        guarded,
        trace: Trace::new(alloc),
    }
}

/// The counts on a disk that denotes nothing.
fn counts_on_none(
    alloc: Global,
    order: &Order<512>,
    places: Vec<Target<512>>,
) -> Result<[usize; 5], PlanError>
    requires in_range { All (λ t. t.at.0 < 4096) places.items }
{
    let survey = survey(alloc, None, Trace::new(alloc));
    counts(alloc, order, &survey, places)
}

#[test]
fn orders_with_labels(rt: HostRuntime) -> Result<(), Fail> {
    let alloc = rt.alloc();
    let order = Order::BackupFirst(Some(ZEROS));
    let places = two(alloc, 200, 100)?;
    let with_labels = counts_on_none(alloc, &order, places);
    assert!(rt; with_labels == Ok([35, 1, 32, 1, 1]));
    Ok(())
}

/// The counts on a protective disk that denotes the partition, where sectors 1 and 50 are guarded.
fn counts_on_one(
    alloc: Global,
    places: Vec<Target<512>>,
) -> Result<Result<[usize; 5], PlanError>, Fail>
    requires in_range { All (λ t. t.at.0 < 4096) places.items }
{
    let mut guarded = Trace::new(alloc);
    guarded.add_one(1)?;
    guarded.add_one(50)?;
    let old = Some(one_partition(alloc, SECTORS));
    let on_one = survey(alloc, old, guarded);
    let order = Order::BackupFirst(None);
    Ok(counts(alloc, &order, &on_one, places))
}

#[test]
fn sectors_that_are_refused(rt: HostRuntime) -> Result<(), Fail> {
    let alloc = rt.alloc();
    let shared = counts_on_one(alloc, two(alloc, 100, 100)?)?;
    assert!(rt; shared == Err(PlanError::NotOneSwitch));
    Ok(())
}
