//! Commits of edits and of layouts to a disk, repairs, and plans from anywhere that are checked and applied. The checker takes
//! every plan of the planner. Plans, their texts, the planner, the checker and `apply` are of the crates below, and are shown here.
#![tactic(auto)]

mod checked;
mod commits;
mod error;
pub mod laws;
mod layouts;
mod like;
mod like_error;
mod prepare;
mod repair_error;
mod repairs;
pub mod runs;
mod wanted;
mod writing;

pub use checked::{After, apply_checked, layout_after};
pub use commits::{checked_plan_for, commit, plan_for};
pub use error::CommitError;
pub use layouts::{checked_plan_for_layout, commit_layout, plan_for_layout};
pub use like::{
    checked_plan_like, checked_plan_like_by, commit_like, commit_like_by, plan_like, plan_like_by,
};
pub use like_error::LikeError;
pub use prepare::{checked_plan_wanted, plan_wanted};
pub use pt_apply::{Plan, PlanTextError, Write, apply, plan_text, read_plan};
pub use pt_check::{Answer, CheckError, Why, check};
pub use pt_planner::{PlanError, Primary, make_plan, make_plan_by};
pub use repair_error::RepairError;
pub use repairs::{
    checked_plan_for_repair, checked_plan_for_repair_by, plan_for_repair, plan_for_repair_by,
    repair, repair_by,
};
pub use wanted::Wanted;
pub use writing::commit_wanted;
