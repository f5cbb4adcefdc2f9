//! Parameter blocks, read by the definitions before them and written canonically, and audio frames.
#![tactic(auto)]

mod definition;
mod definitions;
mod frame;
mod gain_part;
mod parameter_block;
mod recon_part;

pub use definition::{Definition, Shape};
pub use definitions::{DefinitionError, Definitions};
pub use frame::{FrameView, read_frame};
pub use gain_part::GainPart;
pub use parameter_block::{
    BlockContent, ParameterBlock, read_block, write_block, write_block_fields,
};
pub use recon_part::ReconPart;
pub use spec_blocks::BlockFault;

/// Why a parameter block is not read.
pub type BlockError = iamf_bits::Unread<BlockFault>;

/// What a parameter block holds, by the name that says less.
pub type Content<'a> = BlockContent<'a>;
