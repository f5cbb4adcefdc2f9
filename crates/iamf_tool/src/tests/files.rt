//! `mux` and `demux`.
use super::case::{Case, PLAIN, whole};
use super::parts::{DELIMITER, DESCRIPTORS, HEAD, SAMPLES};
use crate::status::Status;
use std::test::Fail;

const ONE_UNIT: &[&[u8]] = &[DESCRIPTORS, DELIMITER, HEAD, SAMPLES];

#[test]
fn a_file_gives_its_sequence_again(rt: HostRuntime) -> Result<(), Fail> {
    let written = Case::writes(&["mux"], ONE_UNIT, &[]).came(rt.alloc())?;
    assert_eq!(rt; (written.status, written.out.len()), (Status::Done, 683));
    Case::writes(&["demux"], &[&written.out], ONE_UNIT).check(&rt, rt.alloc())?;
    Ok(())
}

#[test]
fn what_has_no_file_or_no_sequence_is_refused(rt: HostRuntime) -> Result<(), Fail> {
    Case::refuses(&["mux"], &[], b"refused 0 35\n").check(&rt, rt.alloc())?;
    // A box that is too small for its header.
    Case::refuses(&["demux"], &[b"\x00\x00\x00\x07mdat"], b"refused 0 70\n").check(
        &rt,
        rt.alloc(),
    )?;
    Ok(())
}

/// Which call of a sink that takes 10 bytes fails, and how many bytes of the bare sequence it then has. The last is a flush.
const FAILING: &[(u64, usize)] = &[(0, 0), (3, 30), (10, 100), (11, 102)];

/// A run of `demux` into a sink that takes 10 bytes at a time, of whose calls these fail.
fn cut<'a>(input: &'a [&'a [u8]], write_fails: &'a [u64], out: &'a [&'a [u8]]) -> Case<'a> {
    Case {
        words: &["demux"],
        input,
        most: 10,
        write_fails,
        status: Status::WriteFault,
        out,
        notes: b"write failed\n",
        ..PLAIN
    }
}

#[test]
fn a_sink_that_fails_has_a_front_of_the_sequence(rt: HostRuntime) -> Result<(), Fail> {
    let written = Case::writes(&["mux"], ONE_UNIT, &[]).came(rt.alloc())?;
    let bare = whole(rt.alloc(), ONE_UNIT)?;
    for (call, count) in FAILING {
        assert!(rt; *count <= bare.len());
        cut(&[&written.out], &[*call], &[&bare[..*count]]).check(&rt, rt.alloc())?;
    }
    Ok(())
}
