//! The layouts that a sub-mix is measured in, and how loud it is there.
#![tactic(auto)]

mod loudness;

pub use loudness::{Anchor, LayoutLoudness, loudness_of, put_layouts};
