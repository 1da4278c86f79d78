//! Tests of what a disk denotes, of its health, of plans that are applied and checked, and of their texts. They stand in a crate of
//! their own, so that what they test isn't proved twice.
#[cfg(test)]
mod apply;
#[cfg(test)]
mod check;
#[cfg(test)]
mod layout;
#[cfg(test)]
mod recover;
#[cfg(test)]
mod text;
