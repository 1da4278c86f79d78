//! What a disk denotes: layouts, their recovery, and the sectors that decide them.
//!
//! An MBR disk denotes its records, the chain of its lone extended partition and its labels; every other disk the
//! table of its primary copy, or else of its backup, and its labels. docs/model.md tells it in words, specs/Denotes.antt
//! exactly. The laws of src/laws.rt stand as terms in proofs/Terms.antt, for contracts above to cite.
#![tactic(auto)]

mod alike;
mod body;
mod error;
mod extended;
mod labels;
pub mod laws;
mod numbers;
mod recovery;
mod side;
mod tables;
mod trace;

pub use alike::{alike_decides, is_alike};
pub use body::{body_of, records_of};
pub use error::{NoTable, Reason};
pub use labels::traced_labels;
pub use pt_members::{Body, Ebrs, Labelled, Labels, Layout, Slice, is_slice_type, label_places};
pub use recovery::{read_layout, recover, recover_traced};
pub use side::{SideError, recover_from};
pub use tables::{FoundCopy, read_either};
pub use trace::Trace;
