//! IAMF sequences: read from bytes with their temporal units, written canonically, and reported on.
#![tactic(auto)]

mod contents;
mod decoding;
mod draft;
mod encoding;
mod parts;
mod pieces;
mod reading;
mod refusal;
mod respelling;
mod sequence;
mod spelling;
mod summarizing;
mod unit;
mod walking;

pub use decoding::decode;
pub use encoding::{encode, encode_obu};
pub use iamf_admission::{Admission, AdmitError, Admitted};
pub use iamf_report::{Summary, report};
pub use pieces::CanonicalParts;
pub use refusal::{DecodeError, Refusal};
pub use respelling::{canonical_parts, respell};
pub use sequence::Sequence;
pub use spec_values::Fault;
pub use summarizing::{summarize, summary};
pub use unit::Unit;
pub use walking::{Gather, walk};
