//! Plans that write no copy of a table: an MBR becomes another one, or one label of a GPT changes.

ghost use Rattle.std.specs.Prelude.{◌≡◌, ◌++◌, ◌∷◌, ◌+◌, ◌<◌, ◌≤◌, IfOk, IfErr, [], ℕ, All, None, length};
ghost use Rattle.pt_sector.specs.Sectors.{Sectors, IsSectorSize};
ghost use Rattle.pt_members.specs.declared.layout.Layout.{Layout};
ghost use Rattle.pt_apply.specs.Plans.{writes_of, phases_of, InRange, writes_in};
ghost use Rattle.pt_cases.specs.Cases.{within_mbr_phases, IsPlan};
ghost use Rattle.pt_cases.specs.Writes.{one_write};
ghost use Rattle.pt_cases.specs.Unplanned.{HasNoTurn, fault_in, StopsBy};
ghost use Rattle.pt_planner.specs.inner.Phases.{AreFree, NotFree, IsTurn, NoTurn, IsLoneTurn, NoLoneTurn};
ghost use Rattle.pt_planner.specs.Phases.{MbrStart, LabelStart};

use pt_apply::{Plan, Write};
use pt_cases::targets::{
    PlanError, Split, Target, first_owned_change, in_order, one_change, split_changes,
};
use pt_recover::{Layout, Trace};
use std::alloc::{AllocError, Global};

/// The targets of two lists as one.
fn joined<const B: usize>(
    first: Vec<Target<B>>,
    others: &[Target<B>],
) -> Result<Vec<Target<B>>, AllocError>
    ensures { IfOk result (λ ts. ts.items ≡ first.entry.items ++ others.now) }
{
    let mut targets = first;
    targets.extend_from_slice(others)?;
    Ok(targets)
}

/// The targets by ascending sector. `ReusedInOneBatch` where a partition owns one that changes, `NotOneSwitch` where two
/// are of one sector.
fn unowned_in_order<const B: usize>(
    old: &Option<Layout>,
    targets: Vec<Target<B>>,
) -> Result<Vec<Target<B>>, PlanError>
    ensures ok { IfOk result (λ ts. AreFree old.now targets.entry.items ts.items) }
    ensures err { IfErr result (NotFree old.now targets.entry.items) }
{
    match in_order(targets) {
        None => Err(PlanError::NotOneSwitch),
        Some(sorted) => {
            if first_owned_change(old, &sorted).is_some() {
                return Err(PlanError::ReusedInOneBatch);
            }
            Ok(sorted)
        }
    }
}

/// A plan of one write.
fn one_phase<const B: usize>(alloc: Global, loud: Write<B>) -> Result<Plan<B>, AllocError>
    ensures { IfOk result (λ plan. phases_of plan ≡ one_write loud.entry.lba.0 loud.entry.bytes ∷ []) }
{
    let phase = vec![in alloc; loud]?;
    Ok(Plan {
        phases: vec![in alloc; phase]?,
    })
}

/// A plan of quiet writes, if there are any, and then of the one that counts.
fn two_phases<const B: usize>(
    alloc: Global,
    quiet: Vec<Write<B>>,
    loud: Write<B>,
) -> Result<Plan<B>, AllocError>
    ensures { IfOk result (λ plan. within_mbr_phases (writes_of quiet.entry.items) (loud.entry.lba.0, loud.entry.bytes) (phases_of plan)) }
{
    if quiet.is_empty() {
        return one_phase(alloc, loud);
    }
    let phase = vec![in alloc; loud]?;
    Ok(Plan {
        phases: vec![in alloc; quiet, phase]?,
    })
}

/// The plan with which an MBR becomes another one: the sectors that recovery doesn't read first, if any change, and then
/// the one sector that it does read.
///
/// `heads` are what sector 0 and the chain must hold, `places` what the label places must hold; `guarded` has the
/// sectors that recovery of the disk reads. `ReusedInOneBatch` where a partition of `old` owns a sector that would
/// change; `NotOneSwitch` where two targets are of one sector, or where not just one guarded sector changes.
pub fn within_mbr<const B: usize>(
    alloc: Global,
    old: &Option<Layout>,
    guarded: &Trace,
    heads: Vec<Target<B>>,
    places: Vec<Target<B>>,
) -> Result<Plan<B>, PlanError>
    requires size { IsSectorSize B }
    ensures plan { IfOk result (λ plan. (d : Sectors) (p : Layout)
        → MbrStart d old.now p guarded.now heads.entry.items places.entry.items → IsPlan B d p (phases_of plan)) }
    ensures err { IfErr result (λ e. (d : Sectors) (p : Layout)
        → MbrStart d old.now p guarded.now heads.entry.items places.entry.items → StopsBy B d old.now p (HasNoTurn B d old.now p) e) }
    ensures in_range { IfOk result
        (λ plan. (n : ℕ) → All (λ t. t.at.0 < n) heads.entry.items → All (λ t. t.at.0 < n) places.entry.items → InRange n plan) }
    ensures some { IfOk result (λ plan. All (λ p. 0 < length p.items) plan.phases.items) }
    ensures faultless { IfErr result (λ e. fault_in e ≡ None) }
    ensures two { IfOk result (λ plan. length plan.phases.items ≤ 2) }
    ensures few { IfOk result (λ plan. length (writes_in (phases_of plan)) ≤ length heads.entry.items + length places.entry.items) }
{
    let targets = joined(heads, &places)?;
    turn(alloc, old, guarded, targets)
}

// The plan that meets these targets with one guarded sector.
fn turn<const B: usize>(
    alloc: Global,
    old: &Option<Layout>,
    guarded: &Trace,
    targets: Vec<Target<B>>,
) -> Result<Plan<B>, PlanError>
    ensures ok { IfOk result (λ plan. IsTurn old.now guarded.now targets.entry.items (phases_of plan)) }
    ensures err { IfErr result (NoTurn old.now guarded.now targets.entry.items) }
{
    let sorted = unowned_in_order(old, targets)?;
    match split_changes(alloc, &sorted, guarded)? {
        Split::NotOne => Err(PlanError::NotOneSwitch),
        Split::One { quiet, loud } => Ok(two_phases(alloc, quiet, loud)?),
    }
}

/// The plan with which one label of a GPT changes, and nothing else: one write.
///
/// `places` are what the label places must hold; `broken` says whether a copy of the GPT is broken. `ReusedInOneBatch`
/// where a partition of `old` owns the sector, `NotOneSwitch` where two targets are of one sector, or where no label
/// changes or more than one do, and else `NeedsRepair` where a copy is broken.
pub fn one_label<const B: usize>(
    alloc: Global,
    old: &Option<Layout>,
    broken: bool,
    places: Vec<Target<B>>,
) -> Result<Plan<B>, PlanError>
    requires size { IsSectorSize B }
    ensures plan { IfOk result (λ plan. (d : Sectors) (p : Layout) → LabelStart d old.now p broken places.entry.items
        → IsPlan B d p (phases_of plan)) }
    ensures err { IfErr result (λ e. (d : Sectors) (p : Layout) → LabelStart d old.now p broken places.entry.items
        → StopsBy B d old.now p (HasNoTurn B d old.now p) e) }
    ensures in_range { IfOk result (λ plan. (n : ℕ) → All (λ t. t.at.0 < n) places.entry.items → InRange n plan) }
    ensures some { IfOk result (λ plan. All (λ p. 0 < length p.items) plan.phases.items) }
    ensures faultless { IfErr result (λ e. fault_in e ≡ None) }
    ensures two { IfOk result (λ plan. length plan.phases.items ≤ 2) }
    ensures few { IfOk result (λ plan. length (writes_in (phases_of plan)) ≤ length places.entry.items) }
{
    let loud = lone_turn(old, places)?;
    if broken {
        return Err(PlanError::NeedsRepair);
    }
    Ok(one_phase(alloc, loud)?)
}

// The one write that meets these targets.
fn lone_turn<const B: usize>(
    old: &Option<Layout>,
    targets: Vec<Target<B>>,
) -> Result<Write<B>, PlanError>
    ensures ok { IfOk result (λ loud. IsLoneTurn old.now targets.entry.items (loud.lba.0, loud.bytes)) }
    ensures err { IfErr result (NoLoneTurn old.now targets.entry.items) }
{
    let sorted = unowned_in_order(old, targets)?;
    match one_change(&sorted) {
        None => Err(PlanError::NotOneSwitch),
        Some(loud) => Ok(loud),
    }
}
