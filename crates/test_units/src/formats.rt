//! Tests of disks, GUIDs, sums, boot records, labels and copies of a GPT. They stand in a crate of their own, so that
//! what they test isn't proved twice.
#[cfg(test)]
mod bsd;
#[cfg(test)]
mod gpt;
#[cfg(test)]
mod guid;
#[cfg(test)]
mod mbr;
#[cfg(test)]
mod sector;
#[cfg(test)]
mod sum;
