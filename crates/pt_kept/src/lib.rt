//! What every edit keeps of the layout before it, and what becomes of words on a disk: laws, no code.
//!
//! One law over all words, for the planner's promises; its relation is `pt_cases`'s `Keeps`. Then words have a plan, or one
//! refusal of the planner, the first whose cause holds.
#![tactic(auto)]

pub mod laws;
