//! The writes of a plan, one by one.

ghost use Rattle.std.specs.Prelude.{◌≡◌, ◌↔◌, ◌<◌, ◌≤◌, ◌+◌, ℕ, List, length, IfSome, IsNone, IsTrue};
ghost use Rattle.pt_sector.specs.Sectors.{IsSectorSize};
ghost use Rattle.pt_apply.specs.Plans.{writes_of, phases_of, writes_in};
ghost use Rattle.pt_check.specs.inner.Answers.{FirstIs, FirstWriteIs};

use pt_apply::{Plan, Write};
use pt_sector::Lba;

/// What may be said against single writes.
pub(crate) trait Objection<const B: usize> {
    /// It is against a write of these bytes to the sector of this number.
    ghost against: { Self → ℕ × List ℕ → Type 0 };

    fn objects(&self, write: &Write<B>) -> bool
        requires { IsSectorSize B }
        ensures { IsTrue result ↔ against self.now (write.now.lba.0, write.now.bytes) };
}

/// A write that was found: its number in the plan, from 1, and its sector.
#[derive(Clone, Copy)]
pub(crate) struct Found {
    pub number: u64,
    pub lba: Lba,
}

/// The first write of a phase that the objection is against, counted from 0.
pub(crate) fn first_in_phase<const B: usize, T: Objection<B>>(
    objection: &T,
    phase: &[Write<B>],
) -> Option<usize>
    requires { IsSectorSize B }
    ensures { FirstIs (T.against objection.now) (writes_of phase.now) result }
{
    for k in 0..phase.len() {
        if objection.objects(&phase[k]) {
            return Some(k);
        }
    }
    None
}

/// The first write of a plan that the objection is against.
pub(crate) fn first_in_plan<const B: usize, T: Objection<B>>(
    objection: &T,
    plan: &Plan<B>,
) -> Option<Found>
    requires size { IsSectorSize B }
    requires few { length (writes_in (phases_of plan.now)) ≤ 4096 }
    ensures { FirstWriteIs (T.against objection.now) (writes_in (phases_of plan.now)) result }
{
    let mut before = 0;
    for phase in &plan.phases {
        if let Some(k) = first_in_phase(objection, phase) {
            return Some(Found {
                number: before + k as u64 + 1,
                lba: phase[k].lba,
            });
        }
        before += phase.len() as u64;
    }
    None
}

/// How many writes a plan may have.
pub(crate) const MOST_WRITES: usize = 4096;

/// How many writes the plan has, or none where they are more than [`MOST_WRITES`].
pub(crate) fn count_writes<const B: usize>(plan: &Plan<B>) -> Option<usize>
    ensures few { IfSome result (λ n. (n ≡ length (writes_in (phases_of plan.now))) × (n ≤ 4096)) }
    ensures many { IsNone result → 4096 < length (writes_in (phases_of plan.now)) }
{
    let mut count = 0;
    for phase in &plan.phases {
        if phase.len() > MOST_WRITES - count {
            return None;
        }
        count += phase.len();
    }
    Some(count)
}
