//! A player over a sequence of one unit.

use iamf_play::Player;
use iamf_select::{Target, select};
use iamf_sequence::decode;
use spec_layouts::Layout;
use std::test::Fail;

/// A sequence header, LPCM of 16 bits at 48 kHz in frames of 8 samples with the least significant byte first, the stereo element
/// 1 of substream 0, mix 2 of it at 0 dB, and a unit of one frame with 5 samples left out at its start.
const STEREO: &[u8] = b"\xf8\x06iamf\x01\x00\x00\x0e\x00ipcm\x08\x00\x00\x01\x10\x00\x00\xbb\x80\
    \x08\x0a\x01\x00\x00\x01\x00\x00\x20\x10\x01\x01\
    \x10\x1c\x02\x00\x01\x01\x01\x00\x00\x64\x80\xf7\x02\x80\x00\x00\
    \x65\x80\xf7\x02\x80\x00\x00\x01\x80\x00\x00\x00\x00\x00\
    \x20\x00\x32\x22\x00\x05abcdefghijklmnopqrstuvwxyzABCDEF";

/// 60 bytes and 12 of samples follow the size; 16 bits in two channels for the front left and right at 48 kHz.
const HEAD: &[u8] = b"RIFF\x48\x00\x00\x00WAVEfmt \x28\x00\x00\x00\xfe\xff\x02\x00\x80\xbb\x00\x00\
    \x00\xee\x02\x00\x04\x00\x10\x00\x16\x00\x10\x00\x03\x00\x00\x00\
    \x01\x00\x00\x00\x00\x00\x10\x00\x80\x00\x00\xaa\x00\x38\x9b\x71data\x0c\x00\x00\x00";

#[test]
fn a_unit_is_played_as_it_was_coded(rt: HostRuntime) -> Result<(), Fail> {
    let sequence = decode(rt.alloc(), STEREO)?;
    let plan = select(&sequence, 2, Target::Layer(Layout::Stereo)).expect(&rt, "a plan");
    let mut player = Player::new(rt.alloc(), plan)?;
    assert_eq!(rt; player.wave_head().as_slice(), HEAD);
    assert_eq!(rt; player.pad(), 0);
    assert_eq!(rt; player.unit_count(), 1);
    player.play(0);
    assert_eq!(rt; player.bytes(), b"uvwxyzABCDEF".as_slice());
    Ok(())
}
