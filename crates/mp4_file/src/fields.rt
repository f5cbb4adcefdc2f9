//! The fields of boxes, the most significant byte first.

ghost use Rattle.std.specs.Prelude.{◌≡◌, ◌++◌, OnOk};
ghost use Rattle.std.specs.List.{flat_map};
ghost use Rattle.spec_bits.specs.Leb.{leb_bytes};
ghost use Rattle.spec_files.specs.Pieces.{half, word, long};
ghost use Rattle.mp4_file.specs.Slices.{joined};

use std::alloc::AllocError;

pub fn put_half(out: &mut Vec<u8>, x: u16) -> Result<(), AllocError>
    ensures { OnOk result (out.new.items ≡ out.old.items ++ half x) }
{
    out.extend_from_slice(&x.to_be_bytes())
}

pub fn put_word(out: &mut Vec<u8>, x: u32) -> Result<(), AllocError>
    ensures { OnOk result (out.new.items ≡ out.old.items ++ word x) }
{
    out.extend_from_slice(&x.to_be_bytes())
}

pub fn put_long(out: &mut Vec<u8>, x: u64) -> Result<(), AllocError>
    ensures { OnOk result (out.new.items ≡ out.old.items ++ long x) }
{
    out.extend_from_slice(&x.to_be_bytes())
}

/// A number in the shortest leb128.
#[tactic(auto, unfolding(spec_bits::specs::Leb::leb_bytes))]
pub fn put_leb(out: &mut Vec<u8>, x: u32) -> Result<(), AllocError>
    ensures { OnOk result (out.new.items ≡ out.old.items ++ leb_bytes x) }
{
    let mut rest = x;
    for _i in 0..4u32 {
        if rest < 0x80 {
            out.push(rest as u8)?;
            return Ok(());
        }
        out.push((0x80 + rest % 0x80) as u8)?;
        rest /= 0x80;
    }
    out.push(rest as u8)?;
    Ok(())
}

/// Bytes that lie in several slices.
pub fn put_pieces(out: &mut Vec<u8>, pieces: &[&[u8]]) -> Result<(), AllocError>
    ensures { OnOk result (out.new.items ≡ out.old.items ++ joined pieces.now) }
{
    for piece in pieces {
        out.extend_from_slice(piece)?;
    }
    Ok(())
}

/// The size and the kind of a box.
#[tactic(auto, using(std::proofs::Common::append_assoc))]
pub fn put_head(out: &mut Vec<u8>, size: u32, kind: &[u8; 4]) -> Result<(), AllocError>
    ensures { OnOk result (out.new.items ≡ out.old.items ++ (word size ++ kind.now)) }
{
    put_word(out, size)?;
    out.extend_from_slice(kind)
}

/// The size, the kind, and the version and flags of a box.
#[tactic(auto, using(std::proofs::Common::append_assoc))]
pub fn put_full(
    out: &mut Vec<u8>,
    size: u32,
    kind: &[u8; 4],
    version_and_flags: u32,
) -> Result<(), AllocError>
    ensures { OnOk result (out.new.items ≡ out.old.items ++ (word size ++ (kind.now ++ word version_and_flags))) }
{
    put_head(out, size, kind)?;
    put_word(out, version_and_flags)
}
