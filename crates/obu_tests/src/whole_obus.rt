use iamf_bits::{Out, Unread, as_bytes_below_256};
use iamf_obu::*;
use obu_data::Definitions;
use obu_header::read_obu;
use spec_values::Fault;
use std::alloc::{AllocError, Global};
use std::test::Fail;

// A stereo element of codec config 0 with substream 0: its id, type and codec, the substream, no parameter, and one layer.
const ELEMENT: &[u8] = b"\x08\x0d\x01\x00\x00\x01\x00\x00\x20\x10\x01\x01\xa1\xa2\xa3";

// Mix 2 of element 1, in stereo, with a tag and a byte after it.
const MIX: &[u8] =
    b"\x10\x26\x02\x00\x01\x01\x01\x00\x00\x64\x80\xf7\x02\x80\x00\x00\x65\x80\xf7\x02\x80\x00\x00\x01\x80\x00\x00\x00\x00\x00\x01lang\0en\0\x07";

// What is read of the first OBU, written again.
fn respelled(alloc: Global, bytes: &[u8]) -> Result<Vec<u8>, ContentError> {
    let mut out = Out::new(alloc);
    if bytes.len() == 0 {
        return Ok(out.finish());
    }
    let view = match read_obu(bytes, 0) {
        Ok(view) => view,
        Err(fault) => return Err(Unread::Fault(Fault::Header(fault))),
    };
    let _payload = as_bytes_below_256(view.payload);
    let definitions = Definitions::new(alloc);
    let content = match read_content(alloc, &view, 8, &definitions) {
        Ok(content) => content,
        Err(error) => return Err(error),
    };
    if let Err(error) = write_obu_of(alloc, &mut out, &view.head, &content, &definitions) {
        return Err(Unread::Memory(error));
    }
    Ok(out.finish())
}

// An OBU, and how what is read of it is written; nothing where it is written as it is.
const WRITTEN: &[(&[u8], &[u8])] = &[
    // A sequence header of the base profile, with a tail.
    (b"\xf8\x07iamf\x01\x01\x09", b""),
    // A codec config: 16 bits little-endian at 48 kHz, in frames of 8 samples.
    (b"\x00\x0e\x00ipcm\x08\x00\x00\x01\x10\x00\x00\xbb\x80", b""),
    (ELEMENT, b""),
    (MIX, b""),
    // A block of a parameter that no definition has.
    (b"\x18\x04\x64\x01\x02\x03", b""),
    // A delimiter, and one with bytes, which say nothing.
    (b"\x20\x00", b""),
    (b"\x20\x02\x01\x02", b""),
    // A frame of substream 300, with both trims, and one of substream 2.
    (b"\x2a\x06\x02\x01\xac\x02\x0a\x0b", b""),
    (b"\x40\x02\x0a\x0b", b""),
    // A reserved OBU with an extension, and a redundant one.
    (b"\xc1\x05\x02\x11\x22\x01\x02", b""),
    (b"\xcc\x01\x00", b""),
    // The size and the substream in two bytes more than needed.
    (
        b"\x28\x85\x80\x00\x81\x80\x00\x0a\x0b",
        b"\x28\x03\x01\x0a\x0b",
    ),
    // The trims.
    (b"\x32\x05\x81\x00\x82\x00\x0a", b"\x32\x03\x01\x02\x0a"),
    // The id of an element, and its reserved bits.
    (
        b"\x08\x0e\x81\x00\x1f\x00\x01\x00\x00\x3f\x13\x01\x01\xa1\xa2\xa3",
        ELEMENT,
    ),
];

#[test]
fn obus_are_written_canonically(rt: HostRuntime) -> Result<(), Fail> {
    for (bytes, other) in WRITTEN {
        let wanted = if other.is_empty() { *bytes } else { *other };
        let found = respelled(rt.alloc(), bytes)?;
        assert_eq!(rt; found.as_slice(), wanted);
    }
    Ok(())
}

/// The number of the fault, and 0 where there is none.
fn fault_of(alloc: Global, bytes: &[u8]) -> u32 {
    match respelled(alloc, bytes) {
        Err(Unread::Fault(fault)) => fault.code(),
        _ => 0,
    }
}

const FAULTS: &[(&[u8], u32)] = &[
    (b"\xf8\x06iamg\x00\x00", 11),
    (b"\xf8\x06iamf\x03\x00", 12),
    (b"\x00\x05\x00Opus", 13),
    (b"\x08\x01\x80", 10),
    (b"\x10\x00", 10),
    (b"\x18\x00", 10),
    (b"\x28\x05\xff\xff\xff\xff\x7f", 10),
];

#[test]
fn each_payload_has_its_fault(rt: HostRuntime) {
    for (bytes, code) in FAULTS {
        assert_eq!(rt; (*bytes, fault_of(rt.alloc(), bytes)), (*bytes, *code));
    }
}
