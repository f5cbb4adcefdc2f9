use crate::{FieldFault, Out, ShortestLeb, Unread, View};
use spec_bits::{plain_leb, plain_text};
use std::alloc::AllocError;
use std::test::*;

// The leb128 at the front, and how many bytes it takes.
fn leb_of(bytes: &[u8]) -> Result<(u32, usize), FieldFault> {
    let mut view = View::whole(bytes);
    let value = view.take_leb()?;
    Ok((value, view.at()))
}

// The text at the front, and how many bytes it takes.
fn text_of(bytes: &[u8]) -> Result<(&[u8], usize), FieldFault> {
    let mut view = View::whole(bytes);
    let text = view.take_text()?;
    Ok((text, view.at()))
}

#[test]
fn bits_go_on_across_bytes(rt: HostRuntime) {
    let mut view = View::new(&[0xac, 0x53, 0xff], 0, 3);
    assert_eq!(rt; view.take_bits(3), Ok(0b101));
    assert_eq!(rt; view.take_bits(7), Ok(0b0110001));
    assert_eq!(rt; view.at(), 1);
    assert_eq!(rt; view.take_bits(15), Err(FieldFault::Short));
    assert_eq!(rt; view.at(), 1);
    assert_eq!(rt; view.skip_bits(6), Ok(()));
    assert_eq!(rt; view.take_bits(8), Ok(255));
    assert_eq!(rt; view.take_bits(1), Err(FieldFault::Short));

    let mut view = View::new(&[0x01, 0x23, 0x45, 0x67, 0x89], 0, 5);
    assert_eq!(rt; view.skip_bits(4), Ok(()));
    assert_eq!(rt; view.take_bits(32), Ok(0x12345678));
}

#[test]
fn sixteen_bits_have_a_sign(rt: HostRuntime) {
    for (bytes, value) in [
        ([0x00, 0x01], 1),
        ([0x7f, 0xff], 32767),
        ([0x80, 0x00], -32768),
        ([0xff, 0xfe], -2),
    ] {
        assert_eq!(rt;
            View::new(&bytes, 0, 2).take_i16(),
            Ok(value),
            "at {bytes:?}"
        );
    }
    assert_eq!(rt; View::new(&[0x7f], 0, 1).take_i16(), Err(FieldFault::Short));
}

#[test]
fn numbers_take_seven_bits_a_byte(rt: HostRuntime) {
    let rows: [(&[u8], Result<(u32, usize), FieldFault>); 9] = [
        (&[0x7f], Ok((127, 1))),
        (&[0xac, 0x02], Ok((300, 2))),
        (
            &[0x81, 0x80, 0x80, 0x80, 0x80, 0x80, 0x80, 0x00],
            Ok((1, 8)),
        ),
        (&[0xff, 0xff, 0xff, 0xff, 0x0f], Ok((4294967295, 5))),
        (&[0x80, 0x80, 0x80, 0x80, 0x10], Err(FieldFault::Leb)),
        (
            &[0x80, 0x80, 0x80, 0x80, 0x80, 0x80, 0x80, 0x80, 0x00],
            Err(FieldFault::Leb),
        ),
        (&[], Err(FieldFault::Short)),
        (&[0x80, 0x80], Err(FieldFault::Short)),
        (
            &[0x80, 0x80, 0x80, 0x80, 0x80, 0x80, 0x80],
            Err(FieldFault::Short),
        ),
    ];
    for (bytes, want) in rows {
        assert_eq!(rt; leb_of(bytes), want, "at {bytes:?}");
    }
}

#[test]
fn plain_readings_agree(rt: HostRuntime) {
    let letters = [0x61u8; 129];
    let mut longest = letters;
    longest[127] = 0;
    let mut late = letters;
    late[128] = 0;
    let rows: [&[u8]; 14] = [
        b"",
        b"\0",
        b"\x7f\0",
        b"\x80",
        b"\x80\x01",
        b"\xff\xff\xff\xff\x0f\0",
        b"\xff\xff\xff\xff\x10\0",
        b"\xc3\xa9\0",
        b"\x80\x80\x80\x80\x80\x80\x80",
        b"\x80\x80\x80\x80\x80\x80\x80\0",
        b"\x80\x80\x80\x80\x80\x80\x80\x80\0",
        &letters[..127],
        &longest,
        &late,
    ];
    for bytes in rows {
        assert_eq!(rt; leb_of(bytes), plain_leb(bytes), "at {bytes:?}");
        assert_eq!(rt;
            text_of(bytes).map(|text| text.1),
            plain_text(bytes),
            "at {bytes:?}"
        );
    }
}

#[test]
fn texts_end_at_a_zero_byte(rt: HostRuntime) {
    let mut longest = [0x61u8; 128];
    longest[127] = 0;
    let none = [0x61u8; 128];
    let rows: [(&[u8], Result<(&[u8], usize), FieldFault>); 7] = [
        (b"en-us\0x", Ok((b"en-us", 6))),
        (b"\0", Ok((b"", 1))),
        (b"\xc3\xa9\0", Ok((b"\xc3\xa9", 3))),
        (&longest, Ok((&none[..127], 128))),
        (&none, Err(FieldFault::Text)),
        (b"\xff\0", Err(FieldFault::Text)),
        (b"en-us", Err(FieldFault::Short)),
    ];
    for (bytes, want) in rows {
        assert_eq!(rt; text_of(bytes), want, "at {bytes:?}");
    }
}

#[test]
fn a_view_is_a_part_of_its_buffer(rt: HostRuntime) -> Result<(), Fail> {
    let buffer = [0, 1, 2, 3, 4, 5, 6];
    let mut view = View::new(&buffer, 1, 6);
    assert_eq!(rt; (view.at(), view.left()), (1, 5));
    assert_eq!(rt; view.take_bytes(2)?, [1, 2].as_slice());
    assert!(rt; matches!(view.take_bytes(4), Err(FieldFault::Short)));
    assert_eq!(rt; view.at(), 3);
    Ok(())
}

#[test]
fn inside_a_byte_the_whole_bytes_after_it_are_left(rt: HostRuntime) {
    let mut view = View::whole(&[0xac, 0x53, 0xff]);
    for (bits, left) in [(7, 2), (1, 2), (1, 1), (14, 0), (1, 0)] {
        assert_eq!(rt; view.skip_bits(bits), Ok(()));
        assert_eq!(rt; view.left(), left);
    }
}

#[test]
fn the_rest_ends_with_the_part(rt: HostRuntime) -> Result<(), Fail> {
    let buffer = [0, 1, 2, 3, 4, 5, 6];
    let mut view = View::new(&buffer, 1, 6);
    view.take_bytes(2)?;
    assert_eq!(rt; view.since(1), [1, 2].as_slice());
    assert_eq!(rt; view.since(3), [].as_slice());
    assert_eq!(rt; view.rest(), [3, 4, 5].as_slice());
    assert_eq!(rt; view.at(), 6);
    Ok(())
}

#[test]
fn fields_are_put_one_after_the_other(rt: HostRuntime) -> Result<(), Fail> {
    let mut out = Out::new(rt.alloc());
    out.put_bits(0b101, 3)?;
    out.put_zeros(2)?;
    out.put_bits(0b111, 3)?;
    out.put_i16(-2)?;
    out.put_leb(300)?;
    out.put_bytes(&[1, 2])?;
    out.put_text(b"en")?;
    assert_eq!(rt;
        out.finish().as_slice(),
        b"\xa7\xff\xfe\xac\x02\x01\x02en\0".as_slice()
    );
    Ok(())
}

#[test]
fn slices_are_put_one_after_the_other(rt: HostRuntime) -> Result<(), Fail> {
    let mut out = Out::new(rt.alloc());
    out.put_leb(300)?;
    let number = ShortestLeb::new(128);
    let none = ShortestLeb::none();
    out.put_slices(&[number.as_slice(), b"ab", none.as_slice(), b"c"])?;
    assert_eq!(rt; out.finish().as_slice(), b"\xac\x02\x80\x01abc".as_slice());
    Ok(())
}

#[test]
fn an_error_keeps_its_cause(rt: HostRuntime) {
    let fault: Unread<FieldFault> = Unread::Fault(FieldFault::Leb);
    assert!(rt; matches!(fault.map_fault(Some), Unread::Fault(Some(FieldFault::Leb))));
    let memory: Unread<FieldFault> = Unread::from(AllocError);
    assert!(rt; matches!(memory.map_fault(Some), Unread::Memory(_)));
}

#[test]
fn bits_are_put_across_bytes(rt: HostRuntime) -> Result<(), Fail> {
    let mut out = Out::new(rt.alloc());
    out.put_bits(0b1010101, 7)?;
    out.put_bits(4294967295, 32)?;
    out.put_zeros(1)?;
    assert_eq!(rt;
        out.finish().as_slice(),
        [0xab, 0xff, 0xff, 0xff, 0xfe].as_slice()
    );
    Ok(())
}

#[test]
fn numbers_are_put_shortest(rt: HostRuntime) -> Result<(), Fail> {
    let mut out = Out::new(rt.alloc());
    out.put_leb(0)?;
    out.put_leb(127)?;
    out.put_leb(128)?;
    out.put_leb(4294967295)?;
    assert_eq!(rt;
        out.finish().as_slice(),
        b"\x00\x7f\x80\x01\xff\xff\xff\xff\x0f".as_slice()
    );
    Ok(())
}
