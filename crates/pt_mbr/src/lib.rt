//! Master boot records: partition records, the protective record and chains of extended boot records.
//!
//! The layouts stand in docs/format.md. A boot record stands in the first 512 bytes of its sector, whatever the
//! sector's size; no call looks at the bytes past them, and those that write keep them.
#![tactic(auto)]

mod bytes;
mod chain;
mod change;
mod ebr;
mod encode;
mod extended;
pub mod laws;
mod mbr;
mod protection;
mod record;

pub use chain::{ChainError, MOST_EBRS, read_chain, walk_chain};
pub use change::{change_ebr, change_records, link_to, new_ebr, reach_of};
pub use ebr::{Ebr, EbrFault, decode_ebr};
pub use encode::encode_mbr;
pub use extended::{Extended, extended_of};
pub use mbr::{Mbr, bears_protective, decode_mbr, put_record};
pub use protection::{is_protective, protective};
pub use record::{FARTHEST, FIRST_LOGICAL, PROTECTIVE, Record, SLICE_KIND, is_extended_kind};
