use super::*;
use iamf_bits::Out;
use spec_obu::plain_fault;
use std::test::Fail;

#[test]
fn a_trimmed_frame_with_an_extension_reads_whole(rt: HostRuntime) -> Result<(), Fail> {
    // Substream 0, end 3, start 200 in two bytes, an extension of two bytes, a payload of three; then a delimiter.
    let buffer = b"\x20\x00\x33\x09\x03\xc8\x01\x02\xaa\xbb\x01\x02\x03\x20\x00";
    let obu = read_obu(buffer, 2)?;
    assert_eq!(rt; obu.at, 2);
    assert_eq!(rt; obu.end, 13);
    assert_eq!(rt; obu.head.kind, 6);
    assert!(rt; !obu.head.redundant);
    assert_eq!(rt; obu.head.trim, Some(Trim { end: 3, start: 200 }));
    assert!(rt; matches!(obu.head.extension, Some(b"\xaa\xbb")));
    assert_eq!(rt; obu.payload, b"\x01\x02\x03".as_slice());
    let delimiter = read_obu(buffer, 13)?;
    assert_eq!(rt; delimiter.end, 15);
    assert_eq!(rt; delimiter.payload, b"".as_slice());
    Ok(())
}

#[test]
fn faults_come_in_their_order(rt: HostRuntime) {
    let cases: [(&[u8], HeaderFault); 9] = [
        (
            b"\xf8\x86\x80\x80\x80\x80\x80\x80\x80\x00",
            HeaderFault::Leb,
        ),
        (b"\xf8\x80\x80\x80\x80\x10", HeaderFault::Leb),
        (b"\xf8\xff\xff\xff\xff\x0f", HeaderFault::ObuSize),
        (b"\xfa\x06", HeaderFault::Flags),
        (b"\xfa", HeaderFault::Flags),
        (b"\xfa\xff\xff\xff\x0f", HeaderFault::ObuSize),
        (b"\xf8\x06\x69\x61\x6d\x66\x00", HeaderFault::Cut),
        (b"\xf8", HeaderFault::Cut),
        (b"\x32\x01\x03", HeaderFault::HeaderSize),
    ];
    for (bytes, fault) in cases {
        assert!(rt; bytes.len() > 0);
        assert!(rt;
            matches!(read_obu(bytes, 0), Err(found) if found == fault),
            "{bytes:?}"
        );
        assert_eq!(rt; plain_fault(bytes), Some(fault), "{bytes:?}");
    }
}

#[test]
fn a_type_has_its_numbers(rt: HostRuntime) {
    let rows = [
        (0, ObuType::CodecConfig),
        (1, ObuType::AudioElement),
        (2, ObuType::MixPresentation),
        (3, ObuType::ParameterBlock),
        (4, ObuType::TemporalDelimiter),
        (5, ObuType::AudioFrame),
        (23, ObuType::AudioFrame),
        (24, ObuType::Reserved),
        (30, ObuType::Reserved),
        (31, ObuType::SequenceHeader),
    ];
    for (kind, obu_type) in rows {
        let head = ObuHead {
            kind,
            redundant: true,
            trim: None,
            extension: None,
        };
        assert_eq!(rt; head.obu_type(), obu_type, "at {kind}");
        assert_eq!(rt; head.is_copy(), obu_type != ObuType::Reserved, "at {kind}");
    }
}

// An audio frame of substream 0 with both trims, a size of 9, and an extension of one byte.
const FRAME: &[u8; 8] = b"\x33\x06\x01\x02\x01\x09\x01\x02";

#[test]
fn an_obu_is_written_canonically(rt: HostRuntime) -> Result<(), Fail> {
    let head = ObuHead {
        kind: 6,
        redundant: false,
        trim: Some(Trim { end: 1, start: 2 }),
        extension: Some(&[9]),
    };
    let mut out = Out::new(rt.alloc());
    write_obu(rt.alloc(), &mut out, &head, &[1, 2])?;
    put_obu(&mut out, &head, &[1], &[2])?;
    let written = out.finish();
    assert_eq!(rt; written.len(), 16);
    assert_eq!(rt; &written[..8], FRAME.as_slice());
    let obu = read_obu(written.as_slice(), 8)?;
    assert_eq!(rt; obu.end, 16);
    assert_eq!(rt; obu.head.trim, head.trim);
    assert_eq!(rt; obu.payload, [1, 2].as_slice());
    Ok(())
}
