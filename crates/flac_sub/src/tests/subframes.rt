use super::*;

#[test]
fn each_kind_of_subframe(rt: HostRuntime) -> Result<(), Fail> {
    let rows: [(&str, &[Part], &[i64; 8]); 9] = [
        ("constant", &[Bits(8, 0), Bits(16, 0x8000)], &[-32768; 8]),
        (
            "verbatim",
            &[
                Bits(8, 2),
                Bits(64, 0x0000_0001_ffff_7fff),
                Bits(64, 0x8000_0003_0004_0005),
            ],
            &[0, 1, -1, 32767, -32768, 3, 4, 5],
        ),
        // Residuals 0, 1, -1, 2, -2, 3, -3, 4 with one low bit.
        (
            "fixed of order 0",
            &[
                Bits(8, 0x10),
                Bits(6, 0),
                Bits(4, 1),
                Zeros(0),
                Bits(1, 0),
                Zeros(1),
                Bits(1, 0),
                Zeros(0),
                Bits(1, 1),
                Zeros(2),
                Bits(1, 0),
                Zeros(1),
                Bits(1, 1),
                Zeros(3),
                Bits(1, 0),
                Zeros(2),
                Bits(1, 1),
                Zeros(4),
                Bits(1, 0),
            ],
            &[0, 1, -1, 2, -2, 3, -3, 4],
        ),
        // Residuals 1, -1, 1, -1, 0, 0, 0 with no low bits.
        (
            "fixed of order 1",
            &[
                Bits(8, 0x12),
                Bits(16, 10),
                Bits(6, 0),
                Bits(4, 0),
                Zeros(2),
                Zeros(1),
                Zeros(2),
                Zeros(1),
                Zeros(0),
                Zeros(0),
                Zeros(0),
            ],
            &[10, 11, 10, 11, 10, 10, 10, 10],
        ),
        // Residuals 0: a line, squares and cubes go on.
        (
            "fixed of order 2",
            &[
                Bits(8, 0x14),
                Bits(32, 0xfffd_0002),
                Bits(6, 0),
                Bits(4, 0),
                Bits(6, 63),
            ],
            &[-3, 2, 7, 12, 17, 22, 27, 32],
        ),
        (
            "fixed of order 3",
            &[
                Bits(8, 0x16),
                Bits(48, 0x0000_0001_0004),
                Bits(6, 0),
                Bits(4, 0),
                Bits(5, 31),
            ],
            &[0, 1, 4, 9, 16, 25, 36, 49],
        ),
        (
            "fixed of order 4",
            &[
                Bits(8, 0x18),
                Bits(64, 0x0000_0001_0008_001b),
                Bits(6, 0),
                Bits(4, 0),
                Bits(4, 15),
            ],
            &[0, 1, 8, 27, 64, 125, 216, 343],
        ),
        // Coefficients 7 and -4 of 5 bits, shift 2, residuals 0: sums are floored.
        (
            "linear of order 2",
            &[
                Bits(8, 0x42),
                Bits(32, 0x000a_0014),
                Bits(4, 4),
                Bits(5, 2),
                Bits(10, 0b00111_11100),
                Bits(6, 0),
                Bits(4, 0),
                Bits(6, 63),
            ],
            &[10, 20, 25, 23, 15, 3, -10, -21],
        ),
        // The same in a subframe with three wasted bits.
        (
            "linear of order 2 with wasted bits",
            &[
                Bits(8, 0x43),
                Zeros(2),
                Bits(26, 0x1_4014),
                Bits(4, 4),
                Bits(5, 2),
                Bits(10, 0b00111_11100),
                Bits(6, 0),
                Bits(4, 0),
                Bits(6, 63),
            ],
            &[80, 160, 200, 184, 120, 24, -80, -168],
        ),
    ];
    for (name, parts, samples) in rows {
        let bytes = spelled(rt.alloc(), &header(0, 4, 8), parts, &[End])?;
        expect_rows(&rt, rt.alloc(), name, &bytes, shape(16, 1, 8), samples, &[])?;
        // The same in the second subframe.
        let bytes = spelled(rt.alloc(), &header_and_threes(8), parts, &[End])?;
        expect_rows(
            &rt,
            rt.alloc(),
            name,
            &bytes,
            shape(16, 2, 8),
            &[3; 8],
            samples,
        )?;
    }
    Ok(())
}

#[test]
fn each_order_of_linear_subframes(rt: HostRuntime) -> Result<(), Fail> {
    // Coefficients 0 but for the oldest sample's, which is 1: the warm-up samples repeat.
    for order in 1..33u32 {
        let mut parts = Vec::new(rt.alloc());
        let mut samples = Vec::new(rt.alloc());
        parts.push(Bits(8, 0x40 + 2 * (u64::from(order) - 1)))?;
        for i in 0..order {
            parts.push(Bits(24, u64::from(i) * 3))?;
        }
        parts.push(Bits(4, 1))?;
        parts.push(Bits(5, 0))?;
        for i in 0..order {
            parts.push(Bits(2, if i == order - 1 { 1 } else { 0 }))?;
        }
        parts.push(Bits(6, 0))?;
        parts.push(Bits(4, 0))?;
        for _ in order..40 {
            parts.push(Zeros(0))?;
        }
        for i in 0..40u32 {
            samples.push(i64::from(i % order) * 3)?;
        }
        let bytes = spelled(rt.alloc(), &header(0, 6, 40), &parts, &[End])?;
        expect_rows(
            &rt,
            rt.alloc(),
            "warm-up samples repeat",
            &bytes,
            shape(24, 1, 40),
            &samples,
            &[],
        )?;
    }
    Ok(())
}

#[test]
fn partitions_of_each_order(rt: HostRuntime) -> Result<(), Fail> {
    // 256 samples of fixed order 1, each one more than the one before, with other low bits in each partition.
    let mut samples = Vec::new(rt.alloc());
    for i in 0..256i64 {
        samples.push(i.wrapping_sub(100))?;
    }
    for order in 0..9u32 {
        for method in 0..2u64 {
            let mut parts = Vec::new(rt.alloc());
            parts.push(Bits(8, 0x12))?;
            parts.push(Bits(16, 0xff9c))?;
            parts.push(Bits(2, method))?;
            parts.push(Bits(4, u64::from(order)))?;
            for partition in 0..(1u32 << order) {
                let parameter = partition % 4;
                parts.push(Bits(if method == 0 { 4 } else { 5 }, u64::from(parameter)))?;
                let count = if partition == 0 {
                    (256u32 >> order) - 1
                } else {
                    256u32 >> order
                };
                for _ in 0..count {
                    // The folded number of the residual 1 is 2.
                    parts.push(Zeros(2u32 >> parameter))?;
                    parts.push(Bits(
                        parameter,
                        if parameter == 0 {
                            0
                        } else {
                            2 % (1u64 << parameter)
                        },
                    ))?;
                }
            }
            let bytes = spelled(rt.alloc(), &header(0, 4, 256), &parts, &[End])?;
            expect_rows(
                &rt,
                rt.alloc(),
                "partitions",
                &bytes,
                shape(16, 1, 256),
                &samples,
                &[],
            )?;
        }
    }
    Ok(())
}

// The header of two samples of 32 bits, and the front of a fixed subframe of order 1 whose first sample is the least.
fn start(alloc: Global) -> Result<Spelling, AllocError> {
    let mut spelling = Spelling {
        bits: Vec::new(alloc),
    };
    spelling.put(&header(0, 7, 2))?;
    spelling.put(&[Bits(8, 0x12), Bits(32, 0x8000_0000)])?;
    Ok(spelling)
}

#[test]
fn escapes_and_the_largest_residuals(rt: HostRuntime) -> Result<(), Fail> {
    const LEAST: i64 = -2147483648;
    // The second sample is the first and the residual.
    let rows: [(&str, &[Part], i64); 6] = [
        ("width 0", &[Bits(6, 0), Bits(4, 15), Bits(5, 0)], 0),
        (
            "width 0, five bits",
            &[Bits(6, 16), Bits(5, 31), Bits(5, 0)],
            0,
        ),
        (
            "width 31",
            &[Bits(6, 0), Bits(4, 15), Bits(5, 31), Bits(31, 0x3fff_ffff)],
            1073741823,
        ),
        // The folded number 2^32 - 2.
        (
            "2^31 - 1",
            &[Bits(6, 16), Bits(5, 30), Zeros(3), Bits(30, 0x3fff_fffe)],
            2147483647,
        ),
        (
            "a code longer than a word",
            &[Bits(6, 0), Bits(4, 2), Zeros(500), Bits(2, 2)],
            1001,
        ),
        (
            "a code that a word just holds",
            &[Bits(6, 0), Bits(4, 14), Zeros(49), Bits(14, 2)],
            401409,
        ),
    ];
    for (name, parts, residual) in rows {
        let samples = [LEAST, LEAST.wrapping_add(residual)];
        let mut spelling = start(rt.alloc())?;
        spelling.put(parts)?;
        spelling.put(&[End])?;
        let bytes = spelling.bytes(rt.alloc())?;
        expect_rows(
            &rt,
            rt.alloc(),
            name,
            &bytes,
            shape(32, 1, 2),
            &samples,
            &[],
        )?;
    }
    let refused: [(&str, &[Part], FlacFault); 3] = [
        (
            "a sample below the depth",
            &[Bits(6, 0), Bits(4, 15), Bits(5, 31), Bits(31, 0x7fff_ffff)],
            FlacFault::Range,
        ),
        (
            "-2^31",
            &[Bits(6, 16), Bits(5, 30), Zeros(3), Bits(30, 0x3fff_ffff)],
            FlacFault::Residual,
        ),
        (
            "2^31",
            &[Bits(6, 16), Bits(5, 30), Zeros(4), Bits(30, 0)],
            FlacFault::Residual,
        ),
    ];
    for (name, parts, fault) in refused {
        let mut spelling = start(rt.alloc())?;
        spelling.put(parts)?;
        spelling.put(&[End])?;
        let bytes = spelling.bytes(rt.alloc())?;
        expect_fault(&rt, rt.alloc(), name, &bytes, shape(32, 1, 2), fault)?;
    }
    Ok(())
}

#[test]
fn wasted_bits_below_the_depth(rt: HostRuntime) -> Result<(), Fail> {
    let mono = shape(16, 1, 8);
    let one = [Bits(8, 1), Zeros(14), Bits(1, 1)];
    let bytes = spelled(rt.alloc(), &header(0, 4, 8), &one, &[End])?;
    expect_rows(&rt, rt.alloc(), "15 of 16", &bytes, mono, &[-32768; 8], &[])?;
    let none = [Bits(8, 1), Zeros(15), Bits(1, 1)];
    let bytes = spelled(rt.alloc(), &header(0, 4, 8), &none, &[End])?;
    expect_fault(
        &rt,
        rt.alloc(),
        "16 of 16",
        &bytes,
        mono,
        FlacFault::Subframe,
    )?;
    // A side has one more bit, and as many may be wasted.
    let stereo = shape(32, 2, 8);
    let left = [Bits(8, 0), Bits(32, 0)];
    let zero = [Bits(8, 1), Zeros(31), Bits(1, 0), End];
    let bytes = spelled(rt.alloc(), &header(8, 7, 8), &left, &zero)?;
    expect_rows(
        &rt,
        rt.alloc(),
        "32 of 33",
        &bytes,
        stereo,
        &[0; 8],
        &[0; 8],
    )?;
    let least = [Bits(8, 1), Zeros(31), Bits(1, 1), End];
    let bytes = spelled(rt.alloc(), &header(8, 7, 8), &left, &least)?;
    expect_fault(
        &rt,
        rt.alloc(),
        "right is 2^32",
        &bytes,
        stereo,
        FlacFault::Range,
    )?;
    let none = [Bits(8, 1), Zeros(32), Bits(1, 0), End];
    let bytes = spelled(rt.alloc(), &header(8, 7, 8), &left, &none)?;
    expect_fault(
        &rt,
        rt.alloc(),
        "33 of 33",
        &bytes,
        stereo,
        FlacFault::Subframe,
    )?;
    Ok(())
}
