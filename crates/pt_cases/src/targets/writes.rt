//! The writes that are left of some targets.

ghost use Rattle.std.specs.Prelude.{◌≡◌, ◌<◌, ◌≢◌, ℕ, Contains, IfOk, IfSome, IfNone, option_map};
ghost use Rattle.pt_apply.specs.Plans.{writes_of, PhaseInRange};
ghost use Rattle.pt_sector.specs.Sectors.{IsAscending, Sectors};
ghost use Rattle.pt_cases.specs.Targets.{Differs, targeted, TellDisk, IsOneChange, NotOneChange, AllBelow, AreNewWrites, SplitIs};
ghost use Rattle.pt_cases.specs.inner.Targets.{is_chosen, chosen_writes, only};

use crate::targets::target::{Target, is_change, is_unread_new};
use pt_apply::Write;
use pt_recover::Trace;
use std::alloc::{AllocError, Global};

/// Which targets are written.
#[derive(Clone, Copy)]
enum Choice<'a> {
    /// Those that aren't met yet.
    Unmet,
    /// Of these, those of a guarded sector.
    Loud(&'a Trace),
    /// And those of another sector.
    Quiet(&'a Trace),
    /// New labels, but for those that stand in a guarded sector already.
    UnreadNew(&'a Trace),
}

#[tactic(auto, using(crate::proofs::Chosen::means))]
fn is_chosen<const B: usize>(target: &Target<B>, choice: Choice) -> bool
    ensures { result ≡ is_chosen choice.entry target.now }
{
    match choice {
        Choice::Unmet => is_change(target),
        Choice::Loud(guarded) => is_change(target) && guarded.contains(target.at),
        Choice::Quiet(guarded) => is_change(target) && !guarded.contains(target.at),
        Choice::UnreadNew(guarded) => is_unread_new(target, guarded),
    }
}

// The write that meets it.
fn write_of<const B: usize>(target: &Target<B>) -> Write<B>
    ensures lba { result.lba ≡ target.now.at }
    ensures bytes { result.bytes ≡ target.now.bytes }
{
    Write {
        lba: target.at,
        bytes: target.bytes,
    }
}

// The writes of the targets that are chosen, in their order.
#[tactic(auto, using(crate::proofs::Steps::steps))]
fn chosen_writes<const B: usize>(
    alloc: Global,
    targets: &[Target<B>],
    choice: Choice,
) -> Result<Vec<Write<B>>, AllocError>
    ensures { IfOk result (λ ws. writes_of ws.items ≡ chosen_writes choice.entry targets.now) }
{
    let mut writes = Vec::new(alloc);
    for target in targets {
        if is_chosen(target, choice) {
            writes.push(write_of(target))?;
        }
    }
    Ok(writes)
}

// The write of the one target that is chosen; none where none is, or two are.
#[tactic(auto, using(crate::proofs::Steps::steps))]
fn lone_write<const B: usize>(targets: &[Target<B>], choice: Choice) -> Option<Write<B>>
    ensures { option_map (λ w. (w.lba.0, w.bytes)) result ≡ only (chosen_writes choice.entry targets.now) }
{
    let mut found = None;
    for target in targets {
        if is_chosen(target, choice) {
            if found.is_some() {
                return None;
            }
            found = Some(write_of(target));
        }
    }
    found
}

/// The write of the one target that isn't met yet; none where all are met, or two aren't.
///
/// The targets ascend by their sectors.
#[tactic(auto, using(crate::proofs::Steps::change_some, crate::proofs::Steps::change_none))]
pub fn one_change<const B: usize>(targets: &[Target<B>]) -> Option<Write<B>>
    requires { IsAscending (targeted targets.now) }
    ensures one { IfSome result (λ w. (d : Sectors) → TellDisk d targets.now → IsOneChange d targets.now (w.lba.0, w.bytes)) }
    ensures other { IfNone result (NotOneChange targets.now) }
{
    lone_write(targets, Choice::Unmet)
}

/// The writes of the new labels, but for those that stand in a guarded sector already.
///
/// The targets ascend by their sectors, and so do the writes.
pub fn new_writes<const B: usize>(
    alloc: Global,
    targets: &[Target<B>],
    guarded: &Trace,
) -> Result<Vec<Write<B>>, AllocError>
    requires { IsAscending (targeted targets.now) }
    ensures new { IfOk result (λ ws. AreNewWrites guarded.now targets.now (writes_of ws.items)) }
    ensures in_range { IfOk result (λ ws. (n : ℕ) → AllBelow n targets.now → PhaseInRange n ws.items) }
{
    chosen_writes(alloc, targets, Choice::UnreadNew(guarded))
}

/// The writes that are left of some targets, where one of them is of a guarded sector.
#[derive(Drop)]
pub enum Split<const B: usize> {
    /// None is, or more than one.
    NotOne,
    /// One is.
    One {
        /// Those of other sectors, in ascending order.
        quiet: Vec<Write<B>>,
        /// The one of a guarded sector.
        loud: Write<B>,
    },
}

/// The writes of the targets that aren't met yet, parted by whether their sector is guarded.
///
/// The targets ascend by their sectors.
pub fn split_changes<const B: usize>(
    alloc: Global,
    targets: &[Target<B>],
    guarded: &Trace,
) -> Result<Split<B>, AllocError>
    requires { IsAscending (targeted targets.now) }
    ensures { IfOk result (λ s. SplitIs guarded.now targets.now s) }
{
    match lone_write(targets, Choice::Loud(guarded)) {
        None => Ok(Split::NotOne),
        Some(loud) => {
            let quiet = chosen_writes(alloc, targets, Choice::Quiet(guarded))?;
            Ok(Split::One { quiet, loud })
        }
    }
}
