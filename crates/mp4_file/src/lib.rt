//! The MP4 file of an IAMF sequence's descriptors and units, and the bare sequence of such a file's track.
#![tactic(auto)]

mod bare;
mod containers;
mod description;
mod fields;
mod file;
mod media_header;
mod movie;
mod movie_header;
mod sample_tables;
mod sizes;
#[cfg(test)]
mod tests;
mod track_header;

pub use bare::{DELIMITER, rebuild};
pub use file::{write_front, write_movie};
pub use movie::Movie;
