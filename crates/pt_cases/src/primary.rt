//! What becomes of the primary copy while a table is written.

/// What a plan that writes a GPT's table does with the header in sector 1 while the primary array behind it is written
/// (docs/model.md, "The primary copy").
#[derive(Clone, Copy, Debug, PartialEq, Eq)]
pub enum Primary {
    /// It is zeroed: firmware that looks at the backup copy finds the table, and mends the disk.
    Zeroed,
    /// It leads to the backup's array meanwhile: every reader of the primary copy finds a table at each moment. Phases
    /// whose sectors hold already what they would write are left out.
    Kept,
}
