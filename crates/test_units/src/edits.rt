//! Tests of words and of what they make of layouts. They stand in a crate of their own, so that
//! what they test isn't proved twice.
#[cfg(test)]
mod convert;
#[cfg(test)]
mod edit;
#[cfg(test)]
mod labels;
#[cfg(test)]
mod logicals;
#[cfg(test)]
mod records;
#[cfg(test)]
mod space;
#[cfg(test)]
mod words;
