//! The boxes of an MP4 file (ISO/IEC 14496-12), and the IAMF track of one (IAMF 1.0.0, "ISOBMFF IAMF
//! Encapsulation"). All is views of the file; no memory is taken.
#![tactic(auto)]

mod audio;
mod box_view;
mod boxes;
mod cursor;
mod elst;
mod fits;
mod full_box;
mod groups;
mod iacb;
mod numbers;
mod obus;
mod path;
mod samples;
mod sbgp;
mod sgpd;
mod stco;
mod stsc;
mod stsd;
mod stsz;
mod stts;
mod tables;
mod track;

pub use audio::{audio_track, track_of};
pub use box_view::{BoxView, read_box};
pub use boxes::Boxes;
pub use samples::Samples;
pub use spec_boxes::{BoxFault, BoxRefusal};
pub use track::Track;
