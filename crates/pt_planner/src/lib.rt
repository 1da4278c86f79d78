//! The planner: plans that lead from what a disk denotes to another layout.
#![tactic(auto)]

pub mod chains;
pub mod copies;
mod kept;
mod new_mbr;
pub mod phases;
pub mod places;
mod planner;
mod plans;
mod state;

pub use planner::{make_plan, make_plan_by, plan_by, plan_from};
pub use pt_cases::Primary;
pub use pt_cases::targets::PlanError;
