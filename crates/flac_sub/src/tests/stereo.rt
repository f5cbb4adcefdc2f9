use super::*;

const MOST: i64 = 2147483647;

const LEAST: i64 = -2147483648;

// 2^32 - 1 and -2^32 + 1 in 33 bits.
const WIDE: u64 = 0xffff_ffff;

const WIDE_BELOW: u64 = 0x1_0000_0001;

#[test]
fn sides_of_33_bits(rt: HostRuntime) -> Result<(), Fail> {
    let rows: [(u64, u32, u64, u32, u64, i64, i64); 6] = [
        (8, 32, 0x7fff_ffff, 33, WIDE, MOST, LEAST),
        (8, 32, 0x8000_0000, 33, WIDE_BELOW, LEAST, MOST),
        (9, 33, WIDE, 32, 0x8000_0000, MOST, LEAST),
        (9, 33, WIDE_BELOW, 32, 0x7fff_ffff, LEAST, MOST),
        // The middle is -1/2, floored, and the side is odd.
        (10, 32, 0xffff_ffff, 33, WIDE, MOST, LEAST),
        (10, 32, 0xffff_ffff, 33, WIDE_BELOW, LEAST, MOST),
    ];
    for (code, first, a, second, b, left, right) in rows {
        let parts = [Bits(8, 0), Bits(first, a), Bits(8, 0), Bits(second, b)];
        let bytes = spelled(rt.alloc(), &header(code, 7, 3), &parts, &[End])?;
        let name = "a side of 33 bits";
        expect_rows(
            &rt,
            rt.alloc(),
            name,
            &bytes,
            shape(32, 2, 3),
            &[left; 3],
            &[right; 3],
        )?;
    }
    Ok(())
}

#[test]
fn left_and_right_have_to_fit_the_depth(rt: HostRuntime) -> Result<(), Fail> {
    // Left/side: right is 32767 + 1 and -32768 - 1; side/right: left likewise; mid/side: each of both.
    let rows: [(u64, u32, u64, u32, u64); 8] = [
        (8, 16, 32767, 17, 0x1_ffff),
        (8, 16, 0x8000, 17, 1),
        (9, 17, 1, 16, 32767),
        (9, 17, 0x1_ffff, 16, 0x8000),
        (10, 16, 32767, 17, 1),
        (10, 16, 32767, 17, 0x1_fffe),
        (10, 16, 0x8000, 17, 2),
        (10, 16, 0x8000, 17, 0x1_fffe),
    ];
    for (code, first, a, second, b) in rows {
        let parts = [Bits(8, 0), Bits(first, a), Bits(8, 0), Bits(second, b)];
        let bytes = spelled(rt.alloc(), &header(code, 4, 8), &parts, &[End])?;
        expect_fault(
            &rt,
            rt.alloc(),
            "out of range",
            &bytes,
            shape(16, 2, 8),
            FlacFault::Range,
        )?;
    }
    // The last sample alone, and a fault that comes before it.
    let front = [
        Bits(8, 2),
        Bits(16, 0),
        Bits(16, 32767),
        Bits(8, 2),
        Bits(17, 0),
    ];
    let last = spelled(
        rt.alloc(),
        &header(8, 4, 2),
        &front,
        &[Bits(17, 0x1_ffff), End],
    )?;
    expect_fault(
        &rt,
        rt.alloc(),
        "the last sample",
        &last,
        shape(16, 2, 2),
        FlacFault::Range,
    )?;
    let cut = spelled(rt.alloc(), &header(8, 4, 2), &front, &[])?;
    expect_fault(
        &rt,
        rt.alloc(),
        "cut before",
        &cut,
        shape(16, 2, 2),
        FlacFault::Short,
    )?;
    Ok(())
}

#[test]
fn eight_samples_of_left_and_side_at_32_bits(rt: HostRuntime) -> Result<(), Fail> {
    // Left: verbatim with three wasted bits. Side: constant.
    let left = [
        Bits(8, 3),
        Zeros(2),
        Bits(29, 0),
        Bits(29, 1),
        Bits(29, 0x1fff_ffff),
        Bits(29, 0x0fff_ffff),
        Bits(29, 0x1000_0000),
        Bits(29, 100),
        Bits(29, 0),
        Bits(29, 7),
    ];
    let side = [Bits(8, 0), Bits(33, 0x1_ffff_fffb), End];
    let bytes = spelled(rt.alloc(), &header(8, 7, 8), &left, &side)?;
    let shape = shape(32, 2, 8);
    expect_rows(
        &rt,
        rt.alloc(),
        "whole",
        &bytes,
        shape,
        &[0, 8, -8, 2147483640, -2147483648, 800, 0, 56],
        &[5, 13, -3, 2147483645, -2147483643, 805, 5, 61],
    )?;
    for length in 0..bytes.len() {
        expect_fault(
            &rt,
            rt.alloc(),
            "cut",
            &bytes[..length],
            shape,
            FlacFault::Short,
        )?;
    }
    let mut longer = Vec::from_slice(rt.alloc(), bytes.as_slice())?;
    longer.push(0)?;
    expect_fault(&rt, rt.alloc(), "longer", &longer, shape, FlacFault::Tail)?;
    let mut changed = Vec::from_slice(rt.alloc(), bytes.as_slice())?;
    if let Some(last) = changed.pop() {
        changed.push(last ^ 1)?;
    }
    expect_fault(
        &rt,
        rt.alloc(),
        "changed",
        &changed,
        shape,
        FlacFault::Crc16,
    )?;
    Ok(())
}
