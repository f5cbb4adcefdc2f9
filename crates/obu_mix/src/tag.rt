//! Tags, which a tail may begin with (IAMF 1.1.0, "mix_presentation_tags()").

ghost use Rattle.std.specs.Prelude.{◌≡◌, ◌++◌, map, option_map, IfOk, OnOk};
ghost use Rattle.std.specs.List.{All, flat_map};
ghost use Rattle.spec_bits.specs.Bits.{all_bits};
ghost use Rattle.spec_bits.specs.Cursor.{IsOnByte, bytes_left};
ghost use Rattle.spec_descriptors.specs.Tags.{IsTag, tag_bytes, tags_at};
ghost use Rattle.obu_mix.specs.TagView.{view_tag, GivesTags, IsTagged};

use iamf_bits::{Out, View};
use smallvec::SmallVec;
use std::alloc::{AllocError, Global};

/// A name and a value that a mix presentation is given.
#[derive(Clone, Copy, Debug, Default, PartialEq, Eq)]
pub struct Tag<'a> {
    /// `tag_name`: UTF-8 without zero bytes, of at most 127 bytes.
    pub name: &'a [u8],
    /// `tag_value`: UTF-8 without zero bytes, of at most 127 bytes.
    pub value: &'a [u8],
}

/// So many tags, or `None` where one of them is not whole.
fn tags_of<'a>(
    alloc: Global,
    view: &mut View<'a>,
    count: u8,
) -> Result<Option<SmallVec<Tag<'a>, 2>>, AllocError>
    requires { IsOnByte view.old }
    ensures gives { GivesTags (λ ts. map view_tag ts.items) result (bytes_left view.new) (tags_at count (bytes_left view.old)) }
    ensures on_byte { OnOk result (IsOnByte view.new) }
{
    let mut tags = SmallVec::new(alloc);
    for _ in 0..count {
        let name = match view.take_text() {
            Ok(name) => name,
            Err(_) => return Ok(None),
        };
        let value = match view.take_text() {
            Ok(value) => value,
            Err(_) => return Ok(None),
        };
        if let Err(_) = tags.push(Tag { name, value }) {
            return Err(AllocError);
        }
    }
    Ok(Some(tags))
}

/// The tags that a tail begins with and the bytes after them, or `None` and the tail.
pub(crate) fn split_tags<'a>(
    alloc: Global,
    tail: &'a [u8],
) -> Result<(Option<SmallVec<Tag<'a>, 2>>, &'a [u8]), AllocError>
    ensures { IfOk result (λ r. IsTagged (option_map (λ ts. map view_tag ts.items) r.0) r.1.now tail.now) }
{
    let [count, rest @ ..] = tail else {
        return Ok((None, tail));
    };
    let mut view = View::whole(rest);
    match tags_of(alloc, &mut view, *count)? {
        Some(tags) => Ok((Some(tags), view.rest())),
        None => Ok((None, tail)),
    }
}

/// Puts a tag: the name and the value, each with a zero byte after it.
#[tactic(auto, unfolding(spec_bits::specs::Form::canonical))]
fn put_tag(out: &mut Out, tag: &Tag<'_>) -> Result<(), AllocError>
    requires used { out.old.used ≡ 0 }
    requires texts { IsTag (view_tag tag.now) }
    ensures bits { OnOk result (out.new.bits ≡ out.old.bits ++ all_bits (tag_bytes (view_tag tag.now))) }
    ensures used { OnOk result (out.new.used ≡ 0) }
{
    out.put_text(tag.name)?;
    out.put_text(tag.value)?;
    Ok(())
}

/// Puts the tags one after the other.
pub(crate) fn put_tags(out: &mut Out, tags: &[Tag<'_>]) -> Result<(), AllocError>
    requires used { out.old.used ≡ 0 }
    requires texts { All IsTag (map view_tag tags.now) }
    ensures bits { OnOk result (out.new.bits ≡ out.old.bits ++ all_bits (flat_map (λ t. tag_bytes (view_tag t)) tags.now)) }
    ensures used { OnOk result (out.new.used ≡ 0) }
{
    for tag in tags {
        put_tag(out, tag)?;
    }
    Ok(())
}
