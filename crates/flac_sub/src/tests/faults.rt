use super::*;

const SIXTEEN: Part = Bits(16, 0);

#[test]
fn faults_of_headers(rt: HostRuntime) -> Result<(), Fail> {
    let rows: [(&str, &[Part], FlacFault); 12] = [
        ("nothing", &[], FlacFault::Short),
        ("half a sync code", &[Bits(8, 0xff)], FlacFault::Short),
        (
            "a wrong sync code",
            &[Bits(14, 0x3fff), Bits(58, 0)],
            FlacFault::Header,
        ),
        ("no sync code", &[Bits(64, 0)], FlacFault::Header),
        (
            "a reserved bit",
            &[Bits(16, 0xfffa), Bits(56, 0)],
            FlacFault::Header,
        ),
        (
            "block size code 0",
            &[Bits(16, 0xfff8), Bits(56, 0x0a08_0000_0000_00)],
            FlacFault::Header,
        ),
        (
            "rate code 15",
            &[Bits(16, 0xfff8), Bits(56, 0x1f08_0000_0000_00)],
            FlacFault::Header,
        ),
        (
            "channels code 11",
            &[Bits(16, 0xfff8), Bits(56, 0x1ab8_0000_0000_00)],
            FlacFault::Header,
        ),
        (
            "channels code 15",
            &[Bits(16, 0xfff8), Bits(56, 0x1af8_0000_0000_00)],
            FlacFault::Header,
        ),
        (
            "depth code 3",
            &[Bits(16, 0xfff8), Bits(56, 0x1a06_0000_0000_00)],
            FlacFault::Header,
        ),
        (
            "the other reserved bit",
            &[Bits(16, 0xfff8), Bits(56, 0x1a09_0000_0000_00)],
            FlacFault::Header,
        ),
        (
            "a header that is cut",
            &[Bits(16, 0xfff8), Bits(24, 0x6a08_00)],
            FlacFault::Short,
        ),
    ];
    for (name, parts, fault) in rows {
        let bytes = spelled(rt.alloc(), parts, &[], &[])?;
        expect_fault(&rt, rt.alloc(), name, &bytes, shape(16, 1, 8), fault)?;
    }
    // The header's checksum, and another number that goes with it.
    let bytes = spelled(
        rt.alloc(),
        &header(0, 4, 8),
        &[Bits(8, 0), Bits(16, 0)],
        &[End],
    )?;
    for at in 0..8usize {
        let mut changed = Vec::new(rt.alloc());
        for (i, byte) in bytes.iter().enumerate() {
            changed.push(if i == 6 { *byte ^ (1u8 << at) } else { *byte })?;
        }
        expect_fault(
            &rt,
            rt.alloc(),
            "the checksum",
            &changed,
            shape(16, 1, 8),
            FlacFault::Crc8,
        )?;
    }
    let number = [
        Bits(16, 0xfff8),
        Bits(32, 0x6a08_0107),
        Bits(8, 0xc4),
        Bits(24, 0),
    ];
    let bytes = spelled(rt.alloc(), &number, &[], &[])?;
    expect_fault(
        &rt,
        rt.alloc(),
        "the coded number",
        &bytes,
        shape(16, 1, 8),
        FlacFault::Crc8,
    )?;
    Ok(())
}

#[test]
fn faults_of_subframes(rt: HostRuntime) -> Result<(), Fail> {
    let rows: [(&str, &[Part], FlacFault); 26] = [
        (
            "a first bit",
            &[Bits(8, 0x80), SIXTEEN],
            FlacFault::Subframe,
        ),
        ("type 2", &[Bits(8, 0x04), SIXTEEN], FlacFault::Subframe),
        ("type 7", &[Bits(8, 0x0e), SIXTEEN], FlacFault::Subframe),
        ("type 13", &[Bits(8, 0x1a), SIXTEEN], FlacFault::Subframe),
        ("type 31", &[Bits(8, 0x3e), SIXTEEN], FlacFault::Subframe),
        (
            "order 13 of 12",
            &[Bits(8, 0x58), SIXTEEN],
            FlacFault::Subframe,
        ),
        (
            "order 32 of 12",
            &[Bits(8, 0x7e), SIXTEEN],
            FlacFault::Subframe,
        ),
        (
            "precision 15",
            &[Bits(8, 0x40), SIXTEEN, Bits(4, 15), SIXTEEN],
            FlacFault::Subframe,
        ),
        (
            "a shift below zero",
            &[Bits(8, 0x40), SIXTEEN, Bits(4, 1), Bits(5, 16), SIXTEEN],
            FlacFault::Subframe,
        ),
        (
            "a shift of -1",
            &[Bits(8, 0x40), SIXTEEN, Bits(4, 14), Bits(5, 31), SIXTEEN],
            FlacFault::Subframe,
        ),
        ("wasted bits without end", &[Bits(8, 1)], FlacFault::Short),
        ("no value", &[Bits(8, 0), Bits(15, 0)], FlacFault::Short),
        (
            "verbatim, one short",
            &[Bits(8, 2), Bits(64, 0), Bits(64, 0), Bits(56, 0)],
            FlacFault::Short,
        ),
        (
            "no warm-up",
            &[Bits(8, 0x18), Bits(56, 0)],
            FlacFault::Short,
        ),
        (
            "method 2",
            &[Bits(8, 0x10), Bits(2, 2), SIXTEEN],
            FlacFault::Residual,
        ),
        (
            "method 3",
            &[Bits(8, 0x12), SIXTEEN, Bits(2, 3), SIXTEEN],
            FlacFault::Residual,
        ),
        (
            "12 is no multiple of 8",
            &[Bits(8, 0x10), Bits(6, 3), SIXTEEN],
            FlacFault::Residual,
        ),
        (
            "12 is no multiple of 2^15",
            &[Bits(8, 0x10), Bits(6, 31), SIXTEEN],
            FlacFault::Residual,
        ),
        (
            "partitions of 3, order 4",
            &[Bits(8, 0x18), Bits(64, 0), Bits(6, 2), SIXTEEN],
            FlacFault::Residual,
        ),
        (
            "partitions of 3, linear order 5",
            &[
                Bits(8, 0x48),
                Bits(64, 0),
                Bits(16, 0),
                Bits(14, 0),
                Bits(6, 18),
                SIXTEEN,
            ],
            FlacFault::Residual,
        ),
        (
            "four zeros, 30 low bits",
            &[
                Bits(8, 0x10),
                Bits(6, 16),
                Bits(5, 30),
                Zeros(4),
                Bits(30, 0),
                SIXTEEN,
            ],
            FlacFault::Residual,
        ),
        (
            "zeros to the end",
            &[
                Bits(8, 0x10),
                Bits(10, 0),
                Bits(64, 0),
                Bits(64, 0),
                Bits(62, 0),
            ],
            FlacFault::Short,
        ),
        (
            "low bits that are cut",
            &[
                Bits(8, 0x10),
                Bits(6, 0),
                Bits(4, 14),
                Bits(1, 1),
                Bits(13, 0),
            ],
            FlacFault::Short,
        ),
        (
            "32767 and 1",
            &[
                Bits(8, 0x12),
                Bits(16, 32767),
                Bits(10, 0),
                Zeros(2),
                SIXTEEN,
            ],
            FlacFault::Range,
        ),
        (
            "-32768 and -1",
            &[
                Bits(8, 0x12),
                Bits(16, 0x8000),
                Bits(10, 0),
                Zeros(1),
                SIXTEEN,
            ],
            FlacFault::Range,
        ),
        // 2 * 32767 - 0: the prediction itself may be out of range.
        (
            "a prediction out of range",
            &[
                Bits(8, 0x14),
                Bits(32, 0x0000_7fff),
                Bits(10, 0),
                Zeros(0),
                SIXTEEN,
            ],
            FlacFault::Range,
        ),
    ];
    for (name, parts, fault) in rows {
        let bytes = spelled(rt.alloc(), &header(0, 4, 12), parts, &[])?;
        expect_fault(&rt, rt.alloc(), name, &bytes, shape(16, 1, 12), fault)?;
        // The same in the second subframe.
        let bytes = spelled(rt.alloc(), &header_and_threes(12), parts, &[])?;
        expect_fault(&rt, rt.alloc(), name, &bytes, shape(16, 2, 12), fault)?;
    }
    Ok(())
}

#[test]
fn orders_up_to_the_block_size(rt: HostRuntime) -> Result<(), Fail> {
    let four = [Bits(8, 0x18), Bits(64, 0x0001_0002_0003_0004), Bits(10, 0)];
    let whole = spelled(rt.alloc(), &header(0, 4, 4), &four, &[End])?;
    expect_rows(
        &rt,
        rt.alloc(),
        "4 of 4",
        &whole,
        shape(16, 1, 4),
        &[1, 2, 3, 4],
        &[],
    )?;
    let above = spelled(rt.alloc(), &header(0, 4, 3), &four, &[End])?;
    expect_fault(
        &rt,
        rt.alloc(),
        "4 of 3",
        &above,
        shape(16, 1, 3),
        FlacFault::Subframe,
    )?;
    let one = [
        Bits(8, 0x40),
        Bits(16, 9),
        Bits(4, 0),
        Bits(5, 0),
        Bits(1, 0),
        Bits(10, 0),
    ];
    let whole = spelled(rt.alloc(), &header(0, 4, 1), &one, &[End])?;
    expect_rows(
        &rt,
        rt.alloc(),
        "1 of 1",
        &whole,
        shape(16, 1, 1),
        &[9],
        &[],
    )?;
    Ok(())
}

#[test]
fn faults_of_the_end(rt: HostRuntime) -> Result<(), Fail> {
    // One sample of left and side at 16 bits: seven bits are missing to a byte.
    let head = header(8, 4, 1);
    let value = [Bits(8, 0), Bits(16, 40), Bits(8, 0), Bits(17, 3)];
    let shape = shape(16, 2, 1);
    for padding in 1..128u64 {
        let bytes = spelled(rt.alloc(), &head, &value, &[Bits(7, padding), Bits(16, 0)])?;
        expect_fault(
            &rt,
            rt.alloc(),
            "padding",
            &bytes,
            shape,
            FlacFault::Padding,
        )?;
    }
    let rows: [(&str, &[Part], FlacFault); 5] = [
        ("no padding", &[], FlacFault::Short),
        ("no checksum", &[Bits(15, 0)], FlacFault::Short),
        ("another checksum", &[Bits(23, 0)], FlacFault::Crc16),
        ("a tail", &[End, Bits(8, 0)], FlacFault::Tail),
        (
            "a long tail",
            &[End, Bits(64, 0), Bits(64, 0)],
            FlacFault::Tail,
        ),
    ];
    for (name, end, fault) in rows {
        let bytes = spelled(rt.alloc(), &head, &value, end)?;
        expect_fault(&rt, rt.alloc(), name, &bytes, shape, fault)?;
    }
    let whole = spelled(rt.alloc(), &head, &value, &[End])?;
    expect_rows(&rt, rt.alloc(), "whole", &whole, shape, &[40], &[37])?;
    Ok(())
}

#[test]
fn hostile_frames_are_short(rt: HostRuntime) -> Result<(), Fail> {
    // 65535 samples in a few bytes, and a run of a million zeros.
    let front = [
        Bits(16, 0xfff8),
        Bits(8, 0x7a),
        Bits(8, 0x08),
        Bits(8, 0),
        Bits(16, 65534),
        Crc8,
        Bits(8, 0x10),
        Bits(10, 0),
    ];
    let mut bytes = spelled(rt.alloc(), &front, &[Bits(6, 0)], &[])?;
    let shape = shape(16, 1, 65535);
    expect_fault(
        &rt,
        rt.alloc(),
        "few bytes",
        &bytes,
        shape,
        FlacFault::Short,
    )?;
    for _ in 0..125000u32 {
        bytes.push(0)?;
    }
    expect_fault(&rt, rt.alloc(), "zeros", &bytes, shape, FlacFault::Short)?;
    Ok(())
}
