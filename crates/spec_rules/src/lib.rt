//! The rules of IAMF sequences, over what they look at in each OBU: what descriptors say together, which mixes fit a
//! profile, how OBUs fall into temporal units, and what is tested in which order.
#![tactic(auto)]

mod codec;
mod codec_role;

pub use codec::Codec;
pub use codec_role::CodecRole;
