//! Tests of reading the boxes of MP4 files. They stand apart, since a crate with tests is proved twice.
#![tactic(auto)]

#[cfg(test)]
mod boxes;
#[cfg(test)]
mod file;
#[cfg(test)]
mod refusals;
