//! Each call once, on the worked numbers of the standard's units.
use iamf_bits::Planes;
use iamf_mixing::{GainTrack, fill_block, index_after, parameters, read_lpcm};
use obu_data::GainPart;
use obu_descriptors::Fixed;
use smallvec::SmallVec;
use std::test::Fail;

const ONE: u64 = 1_000_000_000_000;

// From 0 dB to -6 dB in eight ticks, from tick 2 of a unit that begins at tick 100.
#[test]
fn a_line_from_its_start_to_its_end(rt: HostRuntime) -> Result<(), Fail> {
    let fixed = Fixed {
        duration: 8,
        constant: 8,
        durations: SmallVec::new(rt.alloc()),
    };
    let parts = [GainPart::Linear {
        start: 0,
        end: -1536,
    }];
    let mut row = [7u64; 12];
    fill_block(&mut row, 100, 102, &fixed, &parts);
    for (tick, gain) in [(1, 7), (2, ONE), (6, 750_593_616_813), (10, 7)] {
        assert!(rt; tick < 12);
        assert_eq!(rt; row[tick], gain);
    }
    Ok(())
}

#[test]
fn an_index_is_stepped_by_modes(rt: HostRuntime) {
    for (mode, before, after) in [(2, 5, 4), (0, 0, 0), (4, 5, 6), (6, 10, 10), (7, 5, 5)] {
        assert!(rt; mode < 8);
        assert!(rt; before <= 10);
        assert_eq!(rt; index_after(Some(mode), before), after);
    }
    assert_eq!(rt; index_after(None, 5), 5);
}

#[test]
fn parameters_of_a_mode_and_an_index(rt: HostRuntime) {
    assert_eq!(rt; parameters(4, 5).map(|p| p.weight), Some(2500));
    assert_eq!(rt; parameters(3, 5).map(|p| p.weight), None);
}

// Two samples of two channels of 16 bits, the most significant byte first.
#[test]
fn a_frame_of_two_channels(rt: HostRuntime) -> Result<(), Fail> {
    let bytes = [0x00, 0x01, 0xff, 0xfe, 0x03, 0x00, 0xfc, 0x00];
    let mut rows = Planes::new(rt.alloc(), 2, 2)?;
    read_lpcm(&bytes, false, 16, &mut rows);
    for (channel, tick, sample) in [(0, 0, 1), (1, 0, -2), (0, 1, 768), (1, 1, -1024)] {
        assert!(rt; channel < 2);
        assert!(rt; tick < 2);
        assert_eq!(rt; rows.at(channel, tick), sample);
    }
    Ok(())
}

// A block of 12 ticks at -6 dB from the start of the first of two units of 8 ticks.
#[test]
fn a_block_reaches_into_the_next_unit(rt: HostRuntime) -> Result<(), Fail> {
    let fixed = Fixed {
        duration: 12,
        constant: 12,
        durations: SmallVec::new(rt.alloc()),
    };
    let parts = [GainPart::Step { start: -1536 }];
    let mut track = GainTrack::new();
    let mut row = [0u64; 8];
    track.begin(0, &mut row);
    assert!(rt; !track.write(0, &fixed, &parts, &mut row));
    assert_eq!(rt; row, [501_187_233_627; 8]);
    track.begin(0, &mut row);
    assert!(rt; track.end <= 16);
    assert!(rt; track.write(1, &fixed, &parts, &mut row));
    assert_eq!(rt; row[3], 501_187_233_627);
    assert_eq!(rt; row[4], ONE);
    Ok(())
}
