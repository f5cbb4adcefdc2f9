use obu_mix::{MixPresentation, Tag};
use std::alloc::{AllocError, Global};
use std::test::Fail;

// Mix 2: one sub-mix of element 1 with gain 100 under output gain 101, both of mode 1 at 48 kHz, and stereo.
const FIELDS: &[u8] = b"\x02\x00\x01\x01\x01\x00\x00\x64\x80\xf7\x02\x80\x00\x00\
    \x65\x80\xf7\x02\x80\x00\x00\x01\x80\x00\x00\x00\x00\x00";

// The mix with these bytes after its fields.
fn with_tail(alloc: Global, tail: &[u8]) -> Result<Vec<u8>, AllocError> {
    let mut payload = Vec::from_slice(alloc, FIELDS)?;
    payload.extend_from_slice(tail)?;
    Ok(payload)
}

// Whether these tags were found, and no others.
fn are_tags(found: &[Tag<'_>], tags: &[Tag<'_>]) -> bool {
    for (other, tag) in found.iter().zip(tags) {
        if *other != *tag {
            return false;
        }
    }
    found.len() == tags.len()
}

// Whether the mix has these tags, or none.
fn has_tags(mix: &MixPresentation<'_>, tags: Option<&[Tag<'_>]>) -> bool {
    match (&mix.tags, tags) {
        (Some(found), Some(tags)) => are_tags(found.as_slice(), tags),
        (None, None) => true,
        _ => false,
    }
}

// Whether the mix with this tail is read with these tags, and these bytes after them.
fn reads_tags(
    alloc: Global,
    tail: &[u8],
    tags: Option<&[Tag<'_>]>,
    rest: &[u8],
) -> Result<bool, Fail> {
    let payload = with_tail(alloc, tail)?;
    let mix = MixPresentation::read(alloc, payload.as_slice())?;
    Ok(has_tags(&mix, tags) && mix.tail == rest)
}

// What is read of the payload, written again.
fn written(alloc: Global, payload: &[u8]) -> Result<Vec<u8>, Fail> {
    let mix = MixPresentation::read(alloc, payload)?;
    Ok(mix.write(alloc)?)
}

// How many bytes its fields and its tags have.
fn fields_length(alloc: Global, payload: &[u8]) -> Result<usize, Fail> {
    let mix = MixPresentation::read(alloc, payload)?;
    Ok(mix.write_fields(alloc)?.len())
}

// Whether the mix with this tail is written as it is, of which so many bytes are neither fields nor tags.
fn is_written_again(alloc: Global, tail: &[u8], rest: usize) -> Result<bool, Fail> {
    let payload = with_tail(alloc, tail)?;
    let written = written(alloc, &payload)?;
    let fields = fields_length(alloc, &payload)?;
    Ok(written.as_slice() == payload.as_slice() && fields == payload.len().saturating_sub(rest))
}

const LANGUAGE: Tag<'static> = Tag {
    name: b"lang",
    value: b"en",
};

const SPACED: Tag<'static> = Tag {
    name: b"a b",
    value: b"",
};

// Texts are kept as they are.
const ODD: Tag<'static> = Tag {
    name: b"\x01\x09 \x20\x7f\\",
    value: b"\xc3\xa9\x1f",
};

// A tail, the tags, and the bytes after them.
const TAILS: &[(&[u8], Option<&[Tag<'static>]>, &[u8])] = &[
    (b"\x01lang\0en\0", Some(&[LANGUAGE]), b""),
    (b"\x01lang\0en\0rest", Some(&[LANGUAGE]), b"rest"),
    (b"\x01a b\0\0", Some(&[SPACED]), b""),
    (
        b"\x02lang\0en\0a b\0\0\x07",
        Some(&[LANGUAGE, SPACED]),
        b"\x07",
    ),
    (
        b"\x01\x01\x09 \x20\x7f\\\0\xc3\xa9\x1f\0",
        Some(&[ODD]),
        b"",
    ),
    // No bytes, and no tags.
    (b"", None, b""),
    (b"\0", Some(&[]), b""),
    (b"\0\x01\x02", Some(&[]), b"\x01\x02"),
    // The count passes the tail: in a value that is not whole, and in a name that is not there.
    (b"\x01lang\0en", None, b"\x01lang\0en"),
    (b"\x02lang\0en\0", None, b"\x02lang\0en\0"),
    // Bytes that are not UTF-8 are no text.
    (b"\x01\xff\0a\0", None, b"\x01\xff\0a\0"),
];

#[test]
fn tails_with_tags_and_without(rt: HostRuntime) -> Result<(), Fail> {
    for (row, (tail, tags, rest)) in TAILS.iter().enumerate() {
        let is_read = reads_tags(rt.alloc(), tail, *tags, rest)?;
        let is_written = is_written_again(rt.alloc(), tail, rest.len())?;
        assert_eq!(rt; (row, is_read, is_written), (row, true, true));
    }
    Ok(())
}

/// How many tags are read of the mix with this tail; none where it has none.
fn tag_count(alloc: Global, tail: &[u8]) -> Result<Option<usize>, Fail> {
    let payload = with_tail(alloc, tail)?;
    let mix = MixPresentation::read(alloc, payload.as_slice())?;
    Ok(match &mix.tags {
        Some(tags) => Some(tags.len()),
        None => None,
    })
}

/// A tail of one tag whose name has so many letters.
fn named(alloc: Global, letters: usize) -> Result<Vec<u8>, AllocError> {
    let mut tail = Vec::from_slice(alloc, b"\x01")?;
    for _ in 0..letters {
        tail.push(b'a')?;
    }
    tail.extend_from_slice(b"\0v\0")?;
    Ok(tail)
}

#[test]
fn the_longest_text_has_127_bytes(rt: HostRuntime) -> Result<(), Fail> {
    for (letters, count) in [(127, Some(1)), (128, None)] {
        let tail = named(rt.alloc(), letters)?;
        let found = tag_count(rt.alloc(), &tail)?;
        assert_eq!(rt; found, count);
    }
    Ok(())
}

/// A tail of 255 tags.
fn most_tags(alloc: Global) -> Result<Vec<u8>, AllocError> {
    let mut tail = Vec::from_slice(alloc, b"\xff")?;
    for _ in 0..255 {
        tail.extend_from_slice(b"n\0v\0")?;
    }
    Ok(tail)
}

#[test]
fn there_are_at_most_255_tags(rt: HostRuntime) -> Result<(), Fail> {
    let tail = most_tags(rt.alloc())?;
    let count = tag_count(rt.alloc(), &tail)?;
    assert!(rt; count == Some(255));
    assert!(rt; is_written_again(rt.alloc(), &tail, 0)?);
    Ok(())
}
