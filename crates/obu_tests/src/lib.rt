//! Tests of the crates that read and write the payloads of OBUs. They stand apart, since a crate with tests is proved twice.
#![tactic(auto)]

#[cfg(test)]
mod audio_elements;
#[cfg(test)]
mod changed;
#[cfg(test)]
mod data;
#[cfg(test)]
mod descriptors;
#[cfg(test)]
mod mixes;
#[cfg(test)]
mod tags;
#[cfg(test)]
mod whole_obus;
