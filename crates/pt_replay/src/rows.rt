//! What stands in the rows that C gives and gets.

/// One write of a plan; its bytes stand at the same place of the bytes.
#[repr(C)]
#[derive(Clone, Copy)]
pub struct WriteRow {
    pub sector: u64,
    /// From 1 on.
    pub phase: u64,
}

/// What a disk denotes, but for its partitions.
#[repr(C)]
#[derive(Clone, Copy)]
pub struct TableRow {
    pub sectors: u64,
    /// The usable sectors of a GPT.
    pub first: u64,
    pub last: u64,
    /// 1 an MBR, 2 a GPT.
    pub kind: u32,
    /// The GUID of a GPT's disk.
    pub disk: [u8; 16],
}

/// A partition. What its kind of table doesn't have is 0.
#[repr(C)]
#[derive(Clone, Copy)]
pub struct MemberRow {
    pub number: u64,
    pub first: u64,
    pub last: u64,
    pub attributes: u64,
    /// The letter of a label's entry, a to h, or 0.
    pub letter: u8,
    /// 0 a partition without others, 1 a slice, 2 the extended partition.
    pub kind: u8,
    /// The type byte of a record or of a label's entry.
    pub type_byte: u8,
    /// The boot indicator of a record.
    pub boot: u8,
    pub type_guid: [u8; 16],
    pub unique: [u8; 16],
    pub name: [u16; 36],
}

/// A block of free sectors.
#[repr(C)]
#[derive(Clone, Copy)]
pub struct FreeRow {
    pub first: u64,
    pub last: u64,
    /// The number of the extended partition or of the slice that it lies inside; 0 at the table's own level.
    pub inside: u64,
}

/// A GUID, by its sixteen bytes as a disk stores them.
#[repr(C)]
#[derive(Clone, Copy)]
pub struct GuidBytes {
    pub bytes: [u8; 16],
}

/// The text of a GUID.
#[repr(C)]
#[derive(Clone, Copy)]
pub struct GuidText {
    pub bytes: [u8; 36],
}
