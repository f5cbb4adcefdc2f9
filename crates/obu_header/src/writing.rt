ghost use Rattle.std.specs.Prelude.{◌≡◌, ◌<◌, ◌≤◌, ◌^◌, ◌++◌, length, is_some, IsTrue, OnOk, OnErr};
ghost use Rattle.std.specs.Option.{option_copied};
ghost use Rattle.spec_bits.specs.Bits.{all_bits};
ghost use Rattle.spec_obu.specs.Kinds.{obu_type_of};
ghost use Rattle.spec_obu.specs.Header.{are_allowed};
ghost use Rattle.spec_obu.specs.Canonical.{canonical_trim, canonical_extension, canonical_header};
ghost use Rattle.obu_header.specs.View.{head_of, IsReadBack};
ghost use Rattle.obu_header.specs.HeaderParts.{TrimsFit, parts_of};

use crate::head::ObuHead;
use iamf_bits::{Out, ShortestLeb};
use spec_obu::Trim;
use std::alloc::{AllocError, Global};

// The bytes of a header but those of the extension.
#[derive(Drop)]
struct HeaderBytes {
    first: [u8; 1],
    size: ShortestLeb,
    trim_end: ShortestLeb,
    trim_start: ShortestLeb,
    extension_size: ShortestLeb,
}

// The two numbers of the trims, or none.
fn trim_numbers(trim: Option<Trim>) -> (ShortestLeb, ShortestLeb)
    ensures bytes { result.0 ++ result.1 ≡ canonical_trim trim }
    ensures fit { TrimsFit trim }
{
    match trim {
        Some(trim) => (ShortestLeb::new(trim.end), ShortestLeb::new(trim.start)),
        None => (ShortestLeb::none(), ShortestLeb::none()),
    }
}

// The size of the extension and its bytes, or none.
fn extension_parts(extension: Option<&[u8]>) -> (ShortestLeb, &[u8])
    requires { length (canonical_extension (option_copied extension)) ≤ 2 ^ 21 }
    ensures { result.0 ++ result.1.now ≡ canonical_extension (option_copied extension.entry) }
{
    match extension {
        Some(bytes) => (ShortestLeb::new(bytes.len() as u32), bytes),
        None => (ShortestLeb::none(), &[]),
    }
}

// Puts the parts of an OBU in their order.
fn put_parts<'a>(
    out: &mut Out,
    header: &'a HeaderBytes,
    extension: &'a [u8],
    front: &'a [u8],
    rest: &'a [u8],
) -> Result<(), AllocError>
    requires used { out.old.used ≡ 0 }
    requires few { length (parts_of header.now extension.now front.now rest.now) < 2 ^ 63 }
    ensures bits { OnOk result (out.new.bits ≡ out.old.bits ++ all_bits (parts_of header.now extension.now front.now rest.now)) }
    ensures used { OnOk result (out.new.used ≡ 0) }
    ensures unchanged { OnErr result (out.new ≡ out.old) }
{
    out.put_slices(&[
        &header.first,
        header.size.as_slice(),
        header.trim_end.as_slice(),
        header.trim_start.as_slice(),
        header.extension_size.as_slice(),
        extension,
        front,
        rest,
    ])
}

/// Puts an OBU with this head and a payload of two parts in its canonical spelling, each number in the shortest leb128
/// (IAMF 1.0.0, "OBU Header Syntax and Semantics"). Each byte goes straight into `out`, which has whole bytes. The kind is
/// below 32, the flags are those that the type may have, and the whole OBU has at most 2^21 bytes. `read_obu` gives the head
/// and the payload back.
///
/// An `Err` comes only where memory runs out, and leaves `out` unchanged.
pub fn put_obu(
    out: &mut Out,
    head: &ObuHead<'_>,
    front: &[u8],
    rest: &[u8],
) -> Result<(), AllocError>
    requires used { out.old.used ≡ 0 }
    requires kind { head.now.kind < 32 }
    requires allowed { let h = head_of head.now in IsTrue (are_allowed (obu_type_of h.kind) h.redundant (is_some h.trim)) }
    requires short { length (canonical_header (head_of head.now) (front.now ++ rest.now)) ≤ 2 ^ 21 }
    ensures bits { OnOk result (out.new.bits ≡ out.old.bits ++ all_bits (canonical_header (head_of head.now) (front.now ++ rest.now))) }
    ensures used { OnOk result (out.new.used ≡ 0) }
    ensures read_back { IsReadBack (head_of head.now) (front.now ++ rest.now) }
    ensures unchanged { OnErr result (out.new ≡ out.old) }
{
    let (trim_end, trim_start) = trim_numbers(head.trim);
    let (extension_size, extension) = extension_parts(head.extension);
    let size = trim_end.as_slice().len()
        + trim_start.as_slice().len()
        + extension_size.as_slice().len()
        + extension.len()
        + front.len()
        + rest.len();
    let header = HeaderBytes {
        first: [head.first_byte()],
        size: ShortestLeb::new(size as u32),
        trim_end,
        trim_start,
        extension_size,
    };
    put_parts(out, &header, extension, front, rest)
}

/// Puts an OBU as `put_obu` does, with a payload that is whole. No memory is taken but by `out`.
pub fn write_obu(
    _alloc: Global,
    out: &mut Out,
    head: &ObuHead<'_>,
    payload: &[u8],
) -> Result<(), AllocError>
    requires used { out.old.used ≡ 0 }
    requires kind { head.now.kind < 32 }
    requires allowed { let h = head_of head.now in IsTrue (are_allowed (obu_type_of h.kind) h.redundant (is_some h.trim)) }
    requires short { length (canonical_header (head_of head.now) payload.now) ≤ 2 ^ 21 }
    ensures bits { OnOk result (out.new.bits ≡ out.old.bits ++ all_bits (canonical_header (head_of head.now) payload.now)) }
    ensures used { OnOk result (out.new.used ≡ 0) }
    ensures read_back { IsReadBack (head_of head.now) payload.now }
    ensures unchanged { OnErr result (out.new ≡ out.old) }
{
    put_obu(out, head, &[], payload)
}
