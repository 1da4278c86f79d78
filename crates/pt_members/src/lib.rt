//! What a layout is, and its partitions listed once.
//!
//! A place is a record of sector 0, an entry of a GPT or an extended boot record; a slice's label has eight more. The walk comes
//! to each place once, and gives the partitions alone ([`Layout::members`]) or each with what stands there ([`Layout::rows`]).
//! What else is said of partitions comes from this list, and stands for every layout, whatever disk denotes it.
#![tactic(auto)]

mod alone;
mod layout;
mod member;
mod owned;
mod ownership;
mod places;
mod row;
mod search;
mod slices;
mod slots;
mod tables;
mod walk;

pub use alone::{Alone, alone_sectors};
pub use layout::{Body, Ebrs, Labelled, Labels, Layout, Slice};
pub use member::{Kind, Member};
pub use owned::{Reach, is_owned, reach_of};
pub use ownership::Owner;
pub use places::{locate, owner};
pub use row::{Row, Source};
pub use search::exists;
pub use slices::label_places;
pub use slots::{
    LETTERS, entry_slot, find_label, is_slice_type, logical_number, number_behind,
    numbered_logical, part_slot, record_slot, top_count,
};
pub use tables::{is_ebr, is_table, least, next_table};
pub use walk::{Members, Rows};
