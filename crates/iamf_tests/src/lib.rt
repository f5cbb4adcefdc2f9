//! Tests of the rules of a sequence, of the admission of OBUs, of sequences, of streams and of the report. They stand apart, since
//! a crate with tests is proved twice.
#![tactic(auto)]

#[cfg(test)]
mod admission;
#[cfg(test)]
mod report;
#[cfg(test)]
mod rules;
#[cfg(test)]
mod sequences;
#[cfg(test)]
mod streams;
