use super::*;

// A constant subframe of 16 bits.
const CONSTANT: [Part; 2] = [Bits(8, 0), Bits(16, 0xfff9)];

#[test]
fn each_block_size_code(rt: HostRuntime) -> Result<(), Fail> {
    let rows: [(u64, u32, u64, u32); 18] = [
        (1, 0, 0, 192),
        (2, 0, 0, 576),
        (3, 0, 0, 1152),
        (4, 0, 0, 2304),
        (5, 0, 0, 4608),
        (6, 8, 0, 1),
        (6, 8, 255, 256),
        (7, 16, 7, 8),
        (7, 16, 65534, 65535),
        (8, 0, 0, 256),
        (9, 0, 0, 512),
        (10, 0, 0, 1024),
        (11, 0, 0, 2048),
        (12, 0, 0, 4096),
        (13, 0, 0, 8192),
        (14, 0, 0, 16384),
        (15, 0, 0, 32768),
        (15, 0, 0, 32768),
    ];
    for (code, width, field, length) in rows {
        let front = [
            Bits(16, 0xfff8),
            Bits(4, code),
            Bits(4, 10),
            Bits(4, 0),
            Bits(4, 8),
            Bits(8, 0),
            Bits(width, field),
            Crc8,
        ];
        let bytes = spelled(rt.alloc(), &front, &CONSTANT, &[End])?;
        let (planes, answer) = decoded(&rt, rt.alloc(), &bytes, shape(16, 1, length))?;
        assert_eq!(rt; answer, Ok(()), "code {code}");
        assert!(rt; planes.channels() > 0 && planes.length() > 0);
        assert_eq!(rt; planes.at(0, planes.length() - 1), -7, "code {code}");
        let mismatch = FlacFault::Mismatch {
            field: crate::FlacField::Length,
            found: length,
            wanted: length.wrapping_add(1) % 65536,
        };
        let other = shape(16, 1, length.wrapping_add(1) % 65536);
        expect_fault(&rt, rt.alloc(), "another length", &bytes, other, mismatch)?;
    }
    Ok(())
}

#[test]
fn each_rate_code(rt: HostRuntime) -> Result<(), Fail> {
    let rows: [(u64, u32, u64, u32); 18] = [
        (0, 0, 0, 12345),
        (1, 0, 0, 88200),
        (2, 0, 0, 176400),
        (3, 0, 0, 192000),
        (4, 0, 0, 8000),
        (5, 0, 0, 16000),
        (6, 0, 0, 22050),
        (7, 0, 0, 24000),
        (8, 0, 0, 32000),
        (9, 0, 0, 44100),
        (10, 0, 0, 48000),
        (11, 0, 0, 96000),
        (12, 8, 96, 96000),
        (12, 8, 255, 255000),
        (13, 16, 44100, 44100),
        (13, 16, 65535, 65535),
        (14, 16, 4800, 48000),
        (14, 16, 65535, 655350),
    ];
    for (code, width, field, rate) in rows {
        let front = [
            Bits(16, 0xfff8),
            Bits(4, 1),
            Bits(4, code),
            Bits(4, 0),
            Bits(4, 8),
            Bits(8, 0),
            Bits(width, field),
            Crc8,
        ];
        let bytes = spelled(rt.alloc(), &front, &CONSTANT, &[End])?;
        let mut planes = Planes::new(rt.alloc(), 1, 192)?;
        let right = FlacShape {
            depth: 16,
            rate,
            channels: 1,
            length: 192,
        };
        assert_eq!(rt;
            decode_frame(bytes.as_slice(), right, &mut planes),
            Ok(()),
            "code {code}"
        );
        let wrong = FlacShape {
            depth: 16,
            rate: rate ^ 1,
            channels: 1,
            length: 192,
        };
        let mismatch = FlacFault::Mismatch {
            field: crate::FlacField::Rate,
            found: rate,
            wanted: rate ^ 1,
        };
        let answer = decode_frame(bytes.as_slice(), wrong, &mut planes);
        if code == 0 {
            assert_eq!(rt; answer, Ok(()), "the rate of the stream's description");
        } else {
            assert_eq!(rt; answer, Err(mismatch), "code {code}");
        }
    }
    Ok(())
}

#[test]
fn coded_numbers_of_one_to_seven_bytes_and_both_strategies(rt: HostRuntime) -> Result<(), Fail> {
    let rows: [(u32, u64, u64, Result<(), FlacFault>); 16] = [
        (8, 0x7f, 0, Ok(())),
        (16, 0xc280, 1, Ok(())),
        (24, 0xe08080, 0, Ok(())),
        (32, 0xf0808080, 1, Ok(())),
        (40, 0xf8bfbfbfbf, 0, Ok(())),
        (48, 0xfdbfbfbfbfbf, 0, Ok(())),
        (56, 0xfebfbfbfbfbfbf, 1, Ok(())),
        // Not the shortest, which is not asked for.
        (16, 0xc080, 0, Ok(())),
        (8, 0x80, 0, Err(FlacFault::Header)),
        (8, 0xbf, 0, Err(FlacFault::Header)),
        (8, 0xff, 1, Err(FlacFault::Header)),
        (16, 0xc2c0, 0, Err(FlacFault::Header)),
        (16, 0xc27f, 0, Err(FlacFault::Header)),
        (56, 0xfebfbfbfbfbf00, 0, Err(FlacFault::Header)),
        (24, 0xe0bfff, 1, Err(FlacFault::Header)),
        (48, 0xfc80808080c0, 0, Err(FlacFault::Header)),
    ];
    for (width, number, strategy, want) in rows {
        let front = [
            Bits(15, 0x7ffc),
            Bits(1, strategy),
            Bits(8, 0x1a),
            Bits(4, 0),
            Bits(4, 8),
            Bits(width, number),
            Crc8,
        ];
        let bytes = spelled(rt.alloc(), &front, &CONSTANT, &[End])?;
        let (_planes, answer) = decoded(&rt, rt.alloc(), &bytes, shape(16, 1, 192))?;
        assert_eq!(rt; answer, want, "number {number:x}");
    }
    Ok(())
}

#[test]
fn depth_codes_and_channel_codes(rt: HostRuntime) -> Result<(), Fail> {
    // Code, depth and channels of the shape; all but the code of the stream's description have one depth.
    let rows: [(u64, u64, u8, u8, Option<(crate::FlacField, u32, u32)>); 15] = [
        (0, 0, 16, 1, None),
        (0, 0, 20, 1, None),
        (0, 4, 16, 1, None),
        (0, 6, 24, 1, None),
        (0, 7, 32, 1, None),
        (0, 5, 20, 1, None),
        (0, 2, 12, 1, None),
        (0, 1, 8, 1, None),
        (0, 4, 24, 1, Some((crate::FlacField::Depth, 16, 24))),
        (0, 7, 24, 1, Some((crate::FlacField::Depth, 32, 24))),
        (1, 4, 16, 1, Some((crate::FlacField::Channels, 2, 1))),
        (0, 4, 16, 2, Some((crate::FlacField::Channels, 1, 2))),
        (7, 4, 16, 2, Some((crate::FlacField::Channels, 8, 2))),
        (10, 4, 16, 1, Some((crate::FlacField::Channels, 2, 1))),
        // Channels are tested before the depth.
        (2, 4, 24, 2, Some((crate::FlacField::Channels, 3, 2))),
    ];
    for (channels_code, depth_code, depth, channels, want) in rows {
        let head = header(channels_code, depth_code, 8);
        let parts = [Bits(8, 0), Bits(u32::from(depth), 5)];
        let answer = match want {
            None => Ok(()),
            Some((field, found, wanted)) => Err(FlacFault::Mismatch {
                field,
                found,
                wanted,
            }),
        };
        let bytes = spelled(rt.alloc(), &head, &parts, &[End])?;
        let mut planes = Planes::new(rt.alloc(), 2, 8)?;
        assert!(rt; channels == 1 || channels == 2);
        assert!(rt; depth >= 1 && depth <= 32);
        let shape = shape(depth, channels, 8);
        assert!(rt; shape.channels == 1 || shape.channels == 2);
        assert!(rt; shape.depth >= 1 && shape.depth <= 32);
        assert!(rt; shape.length <= 8);
        assert_eq!(rt;
            decode_frame(bytes.as_slice(), shape, &mut planes),
            answer,
            "code {depth_code}"
        );
    }
    Ok(())
}
