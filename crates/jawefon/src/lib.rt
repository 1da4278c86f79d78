//! Partition tables that a power cut can't break: GPT, MBR with extended partitions, and BSD labels in slices.
//!
//! This crate is the whole surface under one name. `B` is the size of a sector, 512 or 4096 bytes.
//!
//! - **A disk** is anything that implements [`Disk`]; docs/own_disk.md shows how. [`FileDisk::open`] makes one of a plain file, under
//!   its lock where the access is [`Access::Write`], and [`FileDisk::open_device`] one of a block device, refused as [`NoDevice`] has
//!   it where it is in use and [`InUse`] doesn't allow that; [`device_sector_size`] says which `B` it takes. [`MemDisk::new`] makes one
//!   in memory, and [`CrashDisk::new`] one that fails and stops as a test likes. An [`Overlay`] keeps what is written over a disk that
//!   it borrows, a [`ReadCache`] asks one for each sector once, and both take their [`Room`] beforehand. [`Moments`] are what a disk of
//!   one's own keeps for the proofs.
//! - **Look**: [`recover`] gives the [`Layout`], [`members`] lists its partitions, and [`Layout::rows`] walks over them, each with its
//!   record or entry. [`free_blocks`] lists where a new one may lie, as [`Run`]s, and [`all_free_blocks`]
//!   also what is free inside the extended partition and slices, as [`FreeBlock`]s. [`locate`] and [`owner`] lead from a partition to a
//!   sector and back, [`verify`] says whether the disk is healthy or what is wrong. [`recover_traced`] also gives the sectors that
//!   decide the layout, and [`recover_from`] the layout of one copy of a GPT alone. Of a layout alone [`unsound`] tells what is wrong
//!   with it, [`is_table`] and [`is_owned`] whose a sector is.
//! - **Change**: [`parse_edit`] reads a word such as `n:1:0:+204800:EF00`, and [`commit`] does a list of words, all of them or none.
//!   A word is a value too, as [`Edit::New`] with its [`End`] and [`Code`]. New GUIDs are made by [`fresh`] of 16 random bytes.
//!   [`session`] commits several lists, [`repair`] mends what is damaged, and [`edit`] makes a layout of a layout and touches no disk.
//!   [`commit_layout`] commits a layout from anywhere, [`commit_like`] the layout of another disk, as of a copy that another tool
//!   changed, and [`commit_like_with`] that with data which the tool wrote to sectors that no partition owned ([`Extent`]), carried over
//!   first.
//! - **Plan**: [`plan_for`], [`plan_for_layout`], [`plan_like`] and [`plan_for_repair`] give the writes and write nothing,
//!   [`plan_text`] and [`read_plan`] turn them into text and back. [`check`] says whether a plan from anywhere is safe, and
//!   [`layout_after`] what it would make of the disk; [`apply_checked`] applies it only where it is safe. [`make_plan`] and [`apply`]
//!   are the steps alone.
//! - **The primary copy**: a plan that writes a GPT's table zeroes the primary header meanwhile, or keeps a reader of the primary copy
//!   alone on a table at every moment ([`Primary`], docs/readers.md). Words, repairs and [`make_plan`] zero it; layouts from anywhere
//!   keep it. [`plan_wanted`] and [`commit_wanted`] take what is [`Wanted`] and the choice; so do [`make_plan_by`],
//!   [`plan_for_repair_by`], [`repair_by`], [`plan_like_by`] and [`commit_like_by`].
//! - **Text**: [`table_text`] is a layout as JSON, in the manner of `sfdisk --json`, and [`free_text`] free blocks. [`entry_type`] and
//!   [`record_type`] read the names of partition types, [`entry_type_name`] and [`record_type_name`] give them, and [`types_text`] lists
//!   them. [`read_draft`] reads what a text says of a table, [`table_for`] makes a layout of it, with what the text leaves out, and
//!   [`plan_draft`] and [`commit_draft`] plan and commit that; the types of a draft are in the module [`drafts`].
//! - **Formats**: the modules [`mbr`], [`gpt`], [`bsd`] and [`sums`] read and write single records, headers, entries and labels, and
//!   have the types that a layout is built of.
//!
//! Every error prints a sentence, and has the number that the command `ptab` prints. Nobody but this library may write the disk
//! during a call. What is proved of each call stands at it, and in words in docs/model.md.
#![tactic(auto)]

pub mod bsd;
pub mod drafts;
pub mod gpt;
mod listing;
pub mod mbr;
pub mod sums;
#[cfg(test)]
mod surface;

pub use listing::members;
pub use pt_apply::Plan;
pub use pt_apply::PlanTextError;
pub use pt_apply::Write;
pub use pt_apply::apply;
pub use pt_apply::plan_text;
pub use pt_apply::read_plan;
pub use pt_carry::CarryError;
pub use pt_carry::Unfit;
pub use pt_carry::commit_like_with;
pub use pt_check::Answer;
pub use pt_check::CheckError;
pub use pt_check::Why;
pub use pt_check::check;
pub use pt_disks::Access;
pub use pt_disks::FileDisk;
pub use pt_disks::InUse;
pub use pt_disks::MemStore;
pub use pt_disks::NoDevice;
pub use pt_disks::OpenError;
pub use pt_disks::Store;
pub use pt_disks::StoreDisk;
pub use pt_disks::device_sector_size;
pub use pt_disks::in_memory::CrashDisk;
pub use pt_disks::in_memory::MemDisk;
pub use pt_disks::open_plain;
pub use pt_drafts::read_draft;
pub use pt_edit::Code;
pub use pt_edit::Edit;
pub use pt_edit::EditError;
pub use pt_edit::End;
pub use pt_edit::FreeBlock;
pub use pt_edit::Refusal;
pub use pt_edit::all_free_blocks;
pub use pt_edit::edit;
pub use pt_edit::free_blocks;
pub use pt_edit::guids_for;
pub use pt_edit::parse_edit;
pub use pt_edit::space::Run;
pub use pt_guid::Guid;
pub use pt_guid::GuidError;
pub use pt_guid::code_of_type;
pub use pt_guid::fresh;
pub use pt_guid::parse as parse_guid;
pub use pt_guid::type_of_code;
pub use pt_guid::type_of_record;
pub use pt_layout::Body;
pub use pt_layout::Ebrs;
pub use pt_layout::Finding;
pub use pt_layout::Kind;
pub use pt_layout::Labelled;
pub use pt_layout::Labels;
pub use pt_layout::Layout;
pub use pt_layout::Member;
pub use pt_layout::NoTable;
pub use pt_layout::Owner;
pub use pt_layout::Path;
pub use pt_layout::Row;
pub use pt_layout::Rows;
pub use pt_layout::SideError;
pub use pt_layout::Source;
pub use pt_layout::Trace;
pub use pt_layout::Verdict;
pub use pt_layout::VerifyError;
pub use pt_layout::is_owned;
pub use pt_layout::is_table;
pub use pt_layout::locate;
pub use pt_layout::owner;
pub use pt_layout::parse_path;
pub use pt_layout::recover;
pub use pt_layout::recover_from;
pub use pt_layout::recover_traced;
pub use pt_layout::unsound;
pub use pt_layout::verify;
pub use pt_plan::After;
pub use pt_plan::CommitError;
pub use pt_plan::LikeError;
pub use pt_plan::PlanError;
pub use pt_plan::Primary;
pub use pt_plan::RepairError;
pub use pt_plan::Wanted;
pub use pt_plan::apply_checked;
pub use pt_plan::commit;
pub use pt_plan::commit_layout;
pub use pt_plan::commit_like;
pub use pt_plan::commit_like_by;
pub use pt_plan::commit_wanted;
pub use pt_plan::layout_after;
pub use pt_plan::make_plan;
pub use pt_plan::make_plan_by;
pub use pt_plan::plan_for;
pub use pt_plan::plan_for_layout;
pub use pt_plan::plan_for_repair;
pub use pt_plan::plan_for_repair_by;
pub use pt_plan::plan_like;
pub use pt_plan::plan_like_by;
pub use pt_plan::plan_wanted;
pub use pt_plan::repair;
pub use pt_plan::repair_by;
pub use pt_plan::runs::Batch;
pub use pt_plan::runs::Reply;
pub use pt_plan::runs::session;
pub use pt_recover::Reason;
pub use pt_sector::Disk;
pub use pt_sector::Extent;
pub use pt_sector::Fault;
pub use pt_sector::Lba;
pub use pt_sector::Moments;
pub use pt_sector::Overlay;
pub use pt_sector::ReadCache;
pub use pt_sector::Room;
pub use pt_sector::Sector;
pub use pt_set::SetError;
pub use pt_set::commit_draft;
pub use pt_set::plan_draft;
pub use pt_set::table_for;
pub use pt_tables::free_text;
pub use pt_tables::table_text;
pub use pt_types::EntryType;
pub use pt_types::RecordType;
pub use pt_types::entry_type;
pub use pt_types::entry_type_name;
pub use pt_types::entry_types;
pub use pt_types::record_type;
pub use pt_types::record_type_name;
pub use pt_types::record_types;
pub use pt_types::types_text;
