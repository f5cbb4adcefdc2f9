use crate::{WaveShape, header, put_sample};

#[test]
fn a_header_has_each_field(rt: HostRuntime) {
    let shape = WaveShape {
        channels: 2,
        mask: 3,
        rate: 48000,
        depth: 16,
        frames: 8,
    };
    assert_eq!(rt;
        header(shape),
        *b"RIFF\x5c\x00\x00\x00WAVEfmt \x28\x00\x00\x00\xfe\xff\x02\x00\x80\xbb\x00\x00\x00\xee\x02\x00\
          \x04\x00\x10\x00\x16\x00\x10\x00\x03\x00\x00\x00\
          \x01\x00\x00\x00\x00\x00\x10\x00\x80\x00\x00\xaa\x00\x38\x9b\x71data\x20\x00\x00\x00"
    );
}

#[test]
fn samples_are_put_in_their_depth(rt: HostRuntime) {
    let mut bytes = [9; 11];
    put_sample(&mut bytes, 1, -2, 16);
    put_sample(&mut bytes, 3, -8388608, 24);
    put_sample(&mut bytes, 6, 0x0102_0304, 32);
    assert_eq!(rt;
        bytes,
        [9, 0xfe, 0xff, 0x00, 0x00, 0x80, 0x04, 0x03, 0x02, 0x01, 9]
    );
}
