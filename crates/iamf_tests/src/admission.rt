use iamf_admission::*;
use iamf_bits::Unread;
use iamf_report::report;
use obu_header::read_obu;
use spec_values::Fault;
use std::test::Fail;

/// A sequence header of the profile Base.
const HEADER: &[u8] = b"\xf8\x06iamf\x01\x01";

/// A redundant copy of it, and one with another byte.
const COPY: &[u8] = b"\xfc\x06iamf\x01\x01";

const OTHER_COPY: &[u8] = b"\xfc\x06iamf\x01\x02";

/// LPCM of 16 bits at 48 kHz, in frames of 8 samples.
const CODEC: &[u8] = b"\x00\x0e\x00ipcm\x08\x00\x00\x01\x10\x00\x00\xbb\x80";

/// FLAC of 16 bits at 48 kHz, in frames of 16 samples.
const FLAC: &[u8] = b"\x00\x2e\x00fLaC\x10\x00\x00\x80\x00\x00\x22\
    \x00\x10\x00\x10\x00\x00\x00\x00\x00\x00\x0b\xb8\x00\xf0\x00\x00\x00\x10\
    \0\0\0\0\0\0\0\0\0\0\0\0\0\0\0\0";

/// The stereo element 1 of substream 0, and element 1 of mono.
const STEREO: &[u8] = b"\x08\x0a\x01\x00\x00\x01\x00\x00\x20\x10\x01\x01";

const MONO: &[u8] = b"\x08\x0a\x01\x00\x00\x01\x00\x00\x20\x00\x01\x00";

/// Element 2 of substreams 5 and 0, mono and what makes stereo of it. Substream 0 is known once element 1 is there.
const REPEATED: &[u8] = b"\x08\x0e\x02\x00\x00\x02\x05\x00\x00\x40\x00\x01\x00\x10\x01\x00";

/// Element 2 of substream 5.
const SECOND: &[u8] = b"\x08\x0a\x02\x00\x00\x01\x05\x00\x20\x00\x01\x00";

/// Mix 2 of element 1. Its gains are 100 and 101, with blocks that have their own timing.
const MIX: &[u8] = b"\x10\x1c\x02\x00\x01\x01\x01\x00\x00\x64\x80\xf7\x02\x80\x00\x00\
    \x65\x80\xf7\x02\x80\x00\x00\x01\x80\x00\x00\x00\x00\x00";

/// The same with gain 100 at another rate in the second place, so that its two definitions clash.
const CLASHING_MIX: &[u8] = b"\x10\x1c\x03\x00\x01\x01\x01\x00\x00\x66\x80\xf7\x02\x80\x00\x00\
    \x66\x81\xf7\x02\x80\x00\x00\x01\x80\x00\x00\x00\x00\x00";

/// Mix 3 of element 1 with gain 102 at that other rate.
const OTHER_RATE: &[u8] = b"\x10\x1c\x03\x00\x01\x01\x01\x00\x00\x66\x81\xf7\x02\x80\x00\x00\
    \x65\x80\xf7\x02\x80\x00\x00\x01\x80\x00\x00\x00\x00\x00";

const DELIMITER: &[u8] = b"\x20\x00";

/// A frame of substream 0 of 8 stereo samples of 16 bits, and one that is too short.
const FRAME: &[u8] = b"\x30\x20abcdefghijklmnopqrstuvwxyzABCDEF";

const SHORT_FRAME: &[u8] = b"\x30\x02ab";

/// A frame of FLAC of 16 samples, as a stock encoder writes 16 times -32768, and the same without its last byte.
const FLAC_FRAME: &[u8] = b"\x30\x0c\xff\xf8\x6a\x08\x00\x0f\x0a\x01\x00\x03\xbe\x9d";

const CUT_FRAME: &[u8] = b"\x30\x0b\xff\xf8\x6a\x08\x00\x0f\x0a\x01\x00\x03\xbe";

/// What is answered of the one OBU of the bytes: the number of its fault, and 0 where it is admitted.
fn admitted(admission: &mut Admission, bytes: &[u8]) -> u32 {
    if bytes.len() == 0 || admission.admitted() >= 1000 {
        return 1;
    }
    let obu = match read_obu(bytes, 0) {
        Ok(obu) => obu,
        Err(fault) => return Fault::Header(fault).code(),
    };
    match admission.admit(&obu) {
        Ok(()) => 0,
        Err(Unread::Fault(fault)) => fault.code(),
        Err(Unread::Memory(_)) => 1,
    }
}

// OBUs one after the other: what is answered, and how many are admitted after it.
const ROWS: &[(&[u8], u32, u64)] = &[
    (COPY, 34, 0),
    (FRAME, 35, 0),
    (HEADER, 0, 1),
    (COPY, 0, 2),
    (OTHER_COPY, 34, 2),
    (HEADER, 37, 2),
    (CODEC, 0, 3),
    (CODEC, 31, 3),
    (STEREO, 0, 4),
    (REPEATED, 31, 4),
    // Substream 5 of the element that was refused is not known.
    (SECOND, 0, 5),
    (CLASHING_MIX, 33, 5),
    // Gain 102 of the mix that was refused is not defined.
    (OTHER_RATE, 0, 6),
    (MIX, 0, 7),
    (DELIMITER, 0, 8),
    (SHORT_FRAME, 43, 8),
    (FRAME, 0, 9),
    (FRAME, 38, 9),
    (COPY, 0, 10),
];

#[test]
fn a_fault_leaves_all_as_it_was(rt: HostRuntime) {
    let mut admission = Admission::new(rt.alloc());
    for (row, (bytes, code, count)) in ROWS.iter().enumerate() {
        let answer = admitted(&mut admission, bytes);
        assert_eq!(rt; (row, answer, admission.admitted()), (row, *code, *count));
    }
}

/// The number of the first fault of the OBUs, and 0 where they are all admitted.
fn first_fault(admission: &mut Admission, parts: &[&[u8]]) -> u32 {
    for bytes in parts {
        let answer = admitted(admission, bytes);
        if answer != 0 {
            return answer;
        }
    }
    0
}

#[test]
fn flac_frames_are_decoded(rt: HostRuntime) {
    let mut admission = Admission::new(rt.alloc());
    let before = first_fault(&mut admission, &[HEADER, FLAC, MONO, MIX]);
    let cut = admitted(&mut admission, CUT_FRAME);
    let whole = admitted(&mut admission, FLAC_FRAME);
    assert_eq!(rt; [before, cut, whole], [0, 44, 0]);
    assert!(rt; admission.end_fault().is_none());
}

#[test]
fn the_end_has_a_summary_or_a_fault(rt: HostRuntime) -> Result<(), Fail> {
    let mut admission = Admission::new(rt.alloc());
    assert!(rt; first_fault(&mut admission, &[HEADER, CODEC, STEREO]) == 0);
    assert!(rt; matches!(admission.end_fault(), Some(Fault::Incomplete)));
    assert!(rt; first_fault(&mut admission, &[MIX, FRAME, FRAME]) == 0);
    let text = report(rt.alloc(), &admission.end()?)?;
    assert_eq!(rt;
        text.as_slice(),
        b"profile 1 1\ncodec 0 ipcm 8 48000 16\nelement 1 scalable 1 2\nmix 2 1 1 fits\nunits 2\nsamples 16\n".as_slice()
    );
    Ok(())
}

// OBUs one after the other: whether each is handed out, and its unit.
const TAKEN: &[(&[u8], bool, Option<u64>)] = &[
    (HEADER, true, None),
    (COPY, false, None),
    (CODEC, true, None),
    (STEREO, true, None),
    (MIX, true, None),
    (DELIMITER, true, Some(0)),
    (FRAME, true, Some(0)),
    (DELIMITER, true, Some(1)),
];

#[test]
fn what_was_read_is_handed_out(rt: HostRuntime) -> Result<(), Fail> {
    let mut admission = Admission::new(rt.alloc());
    for (row, (bytes, says, unit)) in TAKEN.iter().enumerate() {
        assert!(rt; bytes.len() > 0 && admission.admitted() < 1000);
        let obu = read_obu(bytes, 0)?;
        let answer = admission.take(&obu)?;
        assert_eq!(rt;
            (row, answer.content.is_some(), answer.unit),
            (row, *says, *unit)
        );
    }
    Ok(())
}
