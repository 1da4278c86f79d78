//! Tests of what the planner is made of, and of what callers of the library alone can ask for: plans for layouts that they
//! build, commits of a layout and of another disk's, also with data, repairs with their findings, sessions, and commits on a disk of 2^40
//! sectors and on bytes in memory. They stand in a crate of their own, so that what they test isn't proved twice. Commits and
//! repairs are tried on the built command, and call by call by `test_faults`.
#[cfg(test)]
mod built;
#[cfg(test)]
mod carried;
#[cfg(test)]
mod chains;
#[cfg(test)]
mod copies;
#[cfg(test)]
mod huge;
#[cfg(test)]
mod layouts;
#[cfg(test)]
mod new_mbr;
#[cfg(test)]
mod places;
#[cfg(test)]
mod repairs;
#[cfg(test)]
mod sessions;
#[cfg(test)]
mod stores;
#[cfg(test)]
mod tables;
#[cfg(test)]
mod targets;
#[cfg(test)]
mod turns;
