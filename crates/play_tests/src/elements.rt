//! Layers and gain blocks that a mix is not played with, and what is just within.
use iamf_elements::{
    goes_above, has_bezier, has_high_gain, has_recon, layers_up_to, need_parameters,
};
use obu_data::{BlockContent, GainPart, ParameterBlock};
use obu_descriptors::{Layer, OutputGain};
use smallvec::SmallVec;
use spec_layouts::Layout;
use std::alloc::{AllocError, Global};
use std::test::Fail;

/// A layer with an output gain in 1/256 dB.
fn layer(layout: Layout, recon: bool, gain: i16) -> Layer {
    Layer {
        layout,
        gain: Some(OutputGain { flags: 32, gain }),
        recon,
        substreams: 1,
        coupled: 0,
    }
}

#[test]
fn layers_up_to_that_of_a_layout(rt: HostRuntime) {
    let layers = [
        layer(Layout::Stereo, true, 8192),
        layer(Layout::L312, false, 0),
        layer(Layout::L512, true, 8193),
    ];
    let used = layers_up_to(Layout::L312, &layers);
    assert_eq!(rt; used.len(), 2);
    assert!(rt; !has_recon(used));
    assert!(rt; !need_parameters(used));
    assert!(rt; !has_high_gain(used));
    assert!(rt; has_recon(&layers));
    assert!(rt; need_parameters(&layers));
    assert!(rt; has_high_gain(&layers));
}

/// What is said of a block of one part: whether it is animated by a Bezier curve, and whether it goes above 32 dB.
fn said_of(alloc: Global, part: GainPart) -> Result<(bool, bool), AllocError> {
    let block = ParameterBlock {
        id: 7,
        content: BlockContent::Gain {
            timing: None,
            parts: SmallVec::from_slice(alloc, &[part])?,
        },
        tail: &[],
    };
    Ok((has_bezier(&block), goes_above(&block)))
}

#[test]
fn blocks_of_gains(rt: HostRuntime) -> Result<(), Fail> {
    let end_above = GainPart::Linear {
        start: 0,
        end: 8193,
    };
    let curve = GainPart::Bezier {
        start: 8192,
        end: -8192,
        control: 0,
        time: 128,
    };
    assert_eq!(rt;
        said_of(rt.alloc(), GainPart::Step { start: 8192 })?,
        (false, false)
    );
    assert_eq!(rt; said_of(rt.alloc(), end_above)?, (false, true));
    assert_eq!(rt; said_of(rt.alloc(), curve)?, (true, false));
    Ok(())
}
