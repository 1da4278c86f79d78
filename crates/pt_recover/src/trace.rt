//! The sectors that a recovery read.

ghost use Rattle.std.specs.Prelude.{◌≡◌, ◌≤◌, ◌↔◌, ℕ, List, length, IsTrue, IfOk, OnOk};
ghost use Rattle.pt_recover.specs.Spans.{IsIn, Apart, Adds};
ghost use Rattle.pt_recover.specs.inner.Spans.{hull, joined, StandsAs, StandsBefore};
ghost use Rattle.pt_recover.specs.declared.trace.TracedRun.{TracedRun};

use pt_sector::Lba;
use std::alloc::{AllocError, Global};
use std::marker::Model;

/// Consecutive sectors.
#[derive(Clone, Copy)]
pub(crate) struct TracedRun {
    first: u64,
    last: u64,
}

/// Where a run stands to another: all below it or all above it with a gap, or touching it.
#[derive(Clone, Copy)]
enum Order {
    Below,
    Above,
    Touching,
}

impl TracedRun {
    fn order(&self, other: &TracedRun) -> Order
        ensures { StandsAs self.now other.now result }
    {
        if self.last < other.first && other.first - self.last > 1 {
            return Order::Below;
        }
        if other.last < self.first && self.first - other.last > 1 {
            return Order::Above;
        }
        Order::Touching
    }

    fn hull(&self, other: &TracedRun) -> TracedRun
        ensures { result ≡ hull self.now other.now }
    {
        TracedRun {
            first: self.first.min(other.first),
            last: self.last.max(other.last),
        }
    }
}

// The place before the first run that doesn't end below another one. That before it may touch it, and none further down.
fn place_below(runs: &[TracedRun], new: &TracedRun) -> usize
    requires { Apart runs.now }
    ensures within { result ≤ length runs.now }
    ensures stands { StandsBefore (joined new.now runs.now) runs.now result new.now }
{
    let first = new.first;
    let ended = runs.partition_point(|run| run.last < first);
    ended.saturating_sub(1)
}

// From which place on a run is to be compared with others, which ascend: from none on where the last one ends below it,
// as it does where sectors are read in their order.
#[tactic(auto, using(crate::proofs::Joined::stands_first, crate::proofs::Joined::stands_last))]
fn place_of(runs: &[TracedRun], new: &TracedRun) -> usize
    requires { Apart runs.now }
    ensures within { result ≤ length runs.now }
    ensures stands { StandsBefore (joined new.now runs.now) runs.now result new.now }
{
    let count = runs.len();
    if count == 0 {
        return 0;
    }
    match runs[count - 1].order(new) {
        Order::Below => count,
        _ => place_below(runs, new),
    }
}

// Puts a run among others, which ascend, and joins it with those that it touches. They are emptied where memory is
// wanted.
fn join(runs: &mut Vec<TracedRun>, new: TracedRun) -> Result<(), AllocError>
    requires some { new.first ≤ new.last }
    requires apart { Apart runs.old.items }
    ensures ok { OnOk result (runs.new.items ≡ joined new runs.old.items) }
    ensures apart { Apart runs.new.items }
{
    let mut run = new;
    let mut at = place_of(runs, &new);
    while at < runs.len() {
        let here = runs[at];
        match here.order(&run) {
            Order::Below => at += 1,
            Order::Above => break,
            Order::Touching => {
                runs.remove(at);
                run = run.hull(&here);
            }
        }
    }
    match runs.insert(at, run) {
        Ok(()) => Ok(()),
        Err(e) => {
            runs.clear();
            Err(e.into())
        }
    }
}

/// Sectors, as those that a recovery read: runs in order that don't touch.
#[derive(Drop)]
pub struct Trace {
    runs: Vec<TracedRun>,
}

impl Model for Trace {
    ghost Value = { List TracedRun };

    ghost view = { λ t. t.runs.items };

    ghost invariant = { λ t. Apart t.runs.items };
}

impl Trace {
    /// No sectors.
    #[tactic(auto, using(crate::proofs::Traces::in_none))]
    pub fn new(alloc: Global) -> Trace
        ensures { (s : ℕ) → ¬ IsIn result s }
    {
        Trace {
            runs: Vec::new(alloc),
        }
    }

    /// An equal one.
    pub fn copy(&self, alloc: Global) -> Result<Trace, AllocError>
        ensures { IfOk result (λ t. t ≡ self.now) }
    {
        let mut runs = Vec::new(alloc);
        runs.extend_from_slice(&self.runs)?;
        Ok(Trace { runs })
    }

    /// Whether the sector is one of them.
    pub fn contains(&self, lba: Lba) -> bool
        ensures { IsTrue result ↔ IsIn self.now lba.0 }
    {
        let at = self.runs.partition_point(|run| run.last < lba.0);
        match self.runs.get(at) {
            Some(run) => run.first <= lba.0,
            None => false,
        }
    }

    /// Adds the sectors from a first to a last.
    pub fn add(&mut self, first: u64, last: u64) -> Result<(), AllocError>
        requires { first ≤ last }
        ensures { OnOk result (Adds self.old self.new (λ s. (first ≤ s) × (s ≤ last))) }
    {
        join(&mut self.runs, TracedRun { first, last })?;
        Ok(())
    }

    /// Adds one sector.
    #[tactic(auto, using(crate::proofs::Traces::adds_one))]
    pub fn add_one(&mut self, lba: u64) -> Result<(), AllocError>
        ensures { OnOk result (Adds self.old self.new (λ s. s ≡ lba)) }
    {
        self.add(lba, lba)
    }
}
