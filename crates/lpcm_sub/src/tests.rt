use super::*;

#[test]
fn samples_of_16_bits(rt: HostRuntime) {
    assert_eq!(rt; sample(&[0x01, 0x02], false, 16, 1, 0, 0), 258);
    assert_eq!(rt; sample(&[0x01, 0x02], true, 16, 1, 0, 0), 513);
    assert_eq!(rt; sample(&[0x7f, 0xff], false, 16, 1, 0, 0), 32767);
    assert_eq!(rt; sample(&[0xff, 0x7f], true, 16, 1, 0, 0), 32767);
    assert_eq!(rt; sample(&[0x80, 0x00], false, 16, 1, 0, 0), -32768);
    assert_eq!(rt; sample(&[0x00, 0x80], true, 16, 1, 0, 0), -32768);
    assert_eq!(rt; sample(&[0xff, 0xff], false, 16, 1, 0, 0), -1);
}

#[test]
fn samples_of_24_bits(rt: HostRuntime) {
    assert_eq!(rt; sample(&[0x01, 0x02, 0x03], false, 24, 1, 0, 0), 66051);
    assert_eq!(rt; sample(&[0x01, 0x02, 0x03], true, 24, 1, 0, 0), 197121);
    assert_eq!(rt; sample(&[0x7f, 0xff, 0xff], false, 24, 1, 0, 0), 8388607);
    assert_eq!(rt; sample(&[0xff, 0xff, 0x7f], true, 24, 1, 0, 0), 8388607);
    assert_eq!(rt; sample(&[0x80, 0x00, 0x00], false, 24, 1, 0, 0), -8388608);
    assert_eq!(rt; sample(&[0x00, 0x00, 0x80], true, 24, 1, 0, 0), -8388608);
    assert_eq!(rt; sample(&[0xff, 0xff, 0xff], false, 24, 1, 0, 0), -1);
}

#[test]
fn samples_of_32_bits(rt: HostRuntime) {
    assert_eq!(rt;
        sample(&[0x01, 0x02, 0x03, 0x04], false, 32, 1, 0, 0),
        16909060
    );
    assert_eq!(rt;
        sample(&[0x01, 0x02, 0x03, 0x04], true, 32, 1, 0, 0),
        67305985
    );
    assert_eq!(rt;
        sample(&[0x7f, 0xff, 0xff, 0xff], false, 32, 1, 0, 0),
        2147483647
    );
    assert_eq!(rt;
        sample(&[0xff, 0xff, 0xff, 0x7f], true, 32, 1, 0, 0),
        2147483647
    );
    assert_eq!(rt;
        sample(&[0x80, 0x00, 0x00, 0x00], false, 32, 1, 0, 0),
        -2147483648
    );
    assert_eq!(rt;
        sample(&[0x00, 0x00, 0x00, 0x80], true, 32, 1, 0, 0),
        -2147483648
    );
    assert_eq!(rt; sample(&[0xff, 0xff, 0xff, 0xff], false, 32, 1, 0, 0), -1);
}

// Two samples of two channels: 1 and -2, then 768 and -262144.
const FRAME: [u8; 12] = [
    0x00, 0x00, 0x01, 0xff, 0xff, 0xfe, 0x00, 0x03, 0x00, 0xfc, 0x00, 0x00,
];

#[test]
fn channels_of_one_sample_stand_side_by_side(rt: HostRuntime) {
    assert_eq!(rt; sample(&FRAME, false, 24, 2, 0, 0), 1);
    assert_eq!(rt; sample(&FRAME, false, 24, 2, 0, 1), -2);
    assert_eq!(rt; sample(&FRAME, false, 24, 2, 1, 0), 768);
    assert_eq!(rt; sample(&FRAME, false, 24, 2, 1, 1), -262144);
    assert_eq!(rt; sample(&FRAME, true, 24, 2, 0, 0), 65536);
    assert_eq!(rt; sample(&FRAME, true, 24, 2, 1, 1), 252);
}

#[test]
fn frames_of_the_right_size_fit(rt: HostRuntime) {
    assert!(rt; fits_frame(16, 8, 2, 32));
    assert!(rt; !fits_frame(16, 8, 2, 31));
    assert!(rt; !fits_frame(16, 8, 2, 33));
    assert!(rt; fits_frame(24, 1024, 1, 3072));
    assert!(rt; fits_frame(32, 960, 2, 7680));
}

// (2^32 - 1) * 2^31 samples of 2 bytes are 2^64 - 2^32 bytes. (2^32 - 1)^2 samples of 4 bytes are
// 2^64 - 2^35 + 4 bytes only where 2^64 counts as 0.
#[test]
fn sizes_do_not_wrap(rt: HostRuntime) {
    assert!(rt; fits_frame(16, u32::MAX, 1 << 31, 18446744069414584320));
    assert!(rt; !fits_frame(32, u32::MAX, u32::MAX, 18446744039349813252));
}
