//! What a text says of a table: the types of a draft, and of its first fault.

pub use pt_drafts::{
    Chain, DiskId, Draft, DraftError, Extent, Key, NamedType, PartDraft, Parts, TableKind,
    TextFault,
};
