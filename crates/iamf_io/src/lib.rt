//! Where bytes come from and where they go: sources and sinks that count their faults.
//!
//! [`Source`] and [`Sink`] are what the rest of the program sees of the outside. An implementation may tell
//! which bytes it will still give, or which it has taken; each counts how often it failed, and its count tells
//! apart a fault of the outside from a caller that gives up.
//!
//! - [`MemorySource`] and [`MemorySink`] work on bytes in memory, give and take them in pieces of stated
//!   lengths, and fail at stated calls.
//! - [`StdSource`] and [`StdSink`] stand over any reader and writer of the standard library.
//! - [`read_all`] and [`write_all`] are the two calls that the program makes of them.
#![tactic(auto)]

mod memory_sink;
mod memory_source;
mod standard;
#[cfg(test)]
mod tests;
mod traits;
mod whole;

pub use memory_sink::MemorySink;
pub use memory_source::MemorySource;
pub use standard::{StdSink, StdSource};
pub use traits::{Failed, Sink, Source};
pub use whole::{ReadError, read_all, write_all};
