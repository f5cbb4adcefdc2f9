//! Fields that are read from a part of a buffer, and fields that are written, from bit to bit.
#![tactic(auto)]

mod bytes;
mod front;
mod out;
mod planes;
mod shortest_leb;
#[cfg(test)]
mod tests;
mod unread;
mod view;

pub use bytes::as_bytes_below_256;
pub use out::Out;
pub use planes::Planes;
pub use shortest_leb::ShortestLeb;
pub use spec_bits::FieldFault;
pub use unread::Unread;
pub use view::View;
