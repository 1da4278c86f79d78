//! The plan of both copies, and what there is against it.

ghost use Rattle.std.specs.Prelude.{◌≡◌, ◌<◌, ◌≤◌, IfErr, OnOk, length, All, IfOk, None};
ghost use Rattle.pt_sector.specs.Sectors.{Sectors, IsSectorSize};
ghost use Rattle.pt_gpt.specs.Copies.{HasRoom};
ghost use Rattle.pt_members.specs.declared.layout.Layout.{Layout};
ghost use Rattle.pt_apply.specs.Plans.{phases_of, writes_of, InRange, PhaseInRange, writes_in};
ghost use Rattle.pt_cases.specs.Cases.{IsPlan};
ghost use Rattle.pt_cases.specs.Keeps.{copies_bound};
ghost use Rattle.pt_cases.specs.Unplanned.{HasNoCopies, fault_in, StopsBy};
ghost use Rattle.pt_planner.specs.inner.Phases.{Passes, RefusedBy, phases_before, Arranged, Closes};
ghost use Rattle.pt_planner.specs.Phases.{CopiesStart, last_of};

use crate::copies::{backup_first, from_mbr, primary_first, protected_head, protecting};
use crate::phases::reserved::{Reserved, touches, touches_owned};
use pt_apply::{Plan, Write};
use pt_cases::targets::{
    PlanError, Target, TargetKind, first_change, first_owned_of_kind, in_order, new_writes,
};
use pt_gpt::Table;
use pt_layout::{Layout, Survey, Trace};
use pt_sector::Sector;
use std::alloc::{AllocError, Global};

/// In which order both copies of a table are written, with the sector 0 that they meet.
#[derive(Clone, Copy)]
pub enum Order<const B: usize> {
    /// The backup copy, then the primary one: the disk has a primary copy. Sector 0 is none where it is known to be
    /// protective.
    BackupFirst(Option<Sector<B>>),
    /// The primary copy, then the backup one: the disk has no primary copy. Sector 0 is none where it is known to be
    /// protective.
    PrimaryFirst(Option<Sector<B>>),
    /// Both before sector 0: the disk is an MBR disk.
    FromMbr(Sector<B>),
}

/// How many phases come before the one with which the disk turns.
fn phases_before_switch<const B: usize>(order: &Order<B>) -> usize
    ensures { result ≡ phases_before order.now }
{
    match order {
        Order::BackupFirst(_) => 1,
        Order::PrimaryFirst(_) => 2,
        Order::FromMbr(_) => 1,
    }
}

/// Whether there is nothing against the plan: no write of it and no label that changes is of an owned sector, no label
/// changes beside the switch, and no guarded sector is written before it.
fn accept<const B: usize>(
    order: &Order<B>,
    old: &Option<Layout>,
    guarded: &Trace,
    targets: &[Target<B>],
    plan: &Plan<B>,
) -> Result<(), PlanError>
    ensures ok { OnOk result (Passes old.now guarded.now order.now targets.now (phases_of plan.now)) }
    ensures err { IfErr result (RefusedBy old.now guarded.now order.now targets.now (phases_of plan.now)) }
{
    if touches_owned(old, &plan.phases) {
        return Err(PlanError::ReusedInOneBatch);
    }
    if let Some(_) = first_owned_of_kind(old, targets, TargetKind::Changes) {
        return Err(PlanError::ReusedInOneBatch);
    }
    if let Some(_) = first_change(targets) {
        return Err(PlanError::NotOneSwitch);
    }
    let count = phases_before_switch(order).min(plan.phases.len());
    if touches(&Reserved::Guarded(guarded), &plan.phases[..count]) {
        return Err(PlanError::NotOneSwitch);
    }
    Ok(())
}

/// The sector 0 to be written last, none where it is protective.
fn last_sector<const B: usize>(sectors: u64, head: &Option<Sector<B>>) -> Option<Sector<B>>
    requires { IsSectorSize B }
    ensures { Closes sectors head.now (last_of result) }
{
    match head {
        None => None,
        Some(head) => protecting(sectors, head),
    }
}

/// The phases of both copies and these labels.
fn arranged<const B: usize>(
    alloc: Global,
    sectors: u64,
    order: &Order<B>,
    table: &Table,
    labels: Vec<Write<B>>,
) -> Result<Plan<B>, AllocError>
    requires size { IsSectorSize B }
    requires room { HasRoom B sectors }
    requires few { length table.now.entries ≤ 128 }
    requires labels_in_range { PhaseInRange sectors labels.items }
    ensures phases { IfOk result (λ plan. Arranged B sectors table.now
        (writes_of labels.entry.items) order.now (phases_of plan)) }
    ensures in_range { IfOk result (InRange sectors) }
    ensures some { IfOk result (λ plan. All (λ p. 0 < length p.items) plan.phases.items) }
    ensures short { IfOk result (λ plan. length plan.phases.items ≤ 5) }
    ensures count { IfOk result (λ plan. length (writes_in (phases_of plan)) ≤ copies_bound B (length labels.entry.items)) }
{
    match order {
        Order::BackupFirst(head) => {
            let last = last_sector(sectors, head);
            backup_first(alloc, sectors, table, labels, &last)
        }
        Order::PrimaryFirst(head) => {
            let last = last_sector(sectors, head);
            primary_first(alloc, sectors, table, labels, &last)
        }
        Order::FromMbr(head) => {
            let head = protected_head(sectors, head);
            from_mbr(alloc, sectors, table, labels, &head)
        }
    }
}

/// The plan that writes both copies of a GPT's table, in the order that the disk asks for, and the new labels.
///
/// `sectors` is how many the disk has, and `survey` what it tells: its layout and its guarded sectors count here. `places` are
/// the targets of the wanted layout's label places, in any order. It is `NotOneSwitch` first where two of them are of one
/// sector, then `ReusedInOneBatch`, and then `NotOneSwitch` for a label that changes or a guarded sector.
pub fn both_copies<const B: usize>(
    alloc: Global,
    sectors: u64,
    survey: &Survey,
    order: &Order<B>,
    table: &Table,
    places: Vec<Target<B>>,
) -> Result<Plan<B>, PlanError>
    requires size { IsSectorSize B }
    requires room { HasRoom B sectors }
    requires few { length table.now.entries ≤ 128 }
    requires in_range { All (λ t. t.at.0 < sectors) places.items }
    ensures plan { IfOk result (λ plan. (d : Sectors) (p : Layout) → length d ≡ sectors
        → CopiesStart d survey.now.layout p table.now order.now survey.now.guarded places.entry.items
        → IsPlan B d p (phases_of plan)) }
    ensures err { IfErr result (λ e. (d : Sectors) (p : Layout) → length d ≡ sectors
        → CopiesStart d survey.now.layout p table.now order.now survey.now.guarded places.entry.items
        → StopsBy B d survey.now.layout p (HasNoCopies B d survey.now.layout p) e) }
    ensures in_range { IfOk result (InRange sectors) }
    ensures some { IfOk result (λ plan. All (λ p. 0 < length p.items) plan.phases.items) }
    ensures faultless { IfErr result (λ e. fault_in e ≡ None) }
    ensures short { IfOk result (λ plan. length plan.phases.items ≤ 5) }
    ensures count { IfOk result (λ plan. length (writes_in (phases_of plan)) ≤ copies_bound B (length places.entry.items)) }
{
    let targets = match in_order(places) {
        None => return Err(PlanError::NotOneSwitch),
        Some(targets) => targets,
    };
    let labels = new_writes(alloc, &targets, &survey.guarded)?;
    let plan = arranged(alloc, sectors, order, table, labels)?;
    accept(order, &survey.layout, &survey.guarded, &targets, &plan)?;
    Ok(plan)
}
