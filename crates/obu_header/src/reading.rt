ghost use Rattle.std.specs.Prelude.{◌≡◌, ℕ, ◌<◌, ◌≤◌, ◌-◌, length, take, drop, IfOk, IfErr};
ghost use Rattle.std.specs.Option.{option_copied};
ghost use Rattle.spec_bits.specs.Cursor.{IsOnByte, bytes_left};
ghost use Rattle.iamf_bits.specs.View.{TakesBytes};
ghost use Rattle.spec_obu.specs.Header.{Header};
ghost use Rattle.spec_obu.specs.Faults.{IsFirstFault};
ghost use Rattle.spec_obu.specs.Reading.{trim_at, extension_at, fields_at, header_at};
ghost use Rattle.spec_obu.specs.Reading;
ghost use Rattle.obu_header.specs.FirstByte.{Decodes};
ghost use Rattle.obu_header.specs.View.{head_of, ReadsFields, ReadsAt};

use crate::first_byte::FirstByte;
use crate::head::ObuHead;
use crate::view::ObuView;
use iamf_bits::{FieldFault, View};
use spec_obu::{HeaderFault, Trim};

// The most bytes that an OBU has.
const MAX_OBU: usize = 2097152;

#[tactic(auto, unfolding(spec_obu::specs::Reading::trim_at))]
fn read_trim(view: &mut View<'_>, trimmed: bool) -> Result<Option<Trim>, FieldFault>
    requires { IsOnByte view.old }
    ensures exact { TakesBytes (λ t. t) result (bytes_left view.new) (trim_at trimmed (bytes_left view.old)) }
    ensures on_byte { IsOnByte view.new }
{
    if !trimmed {
        return Ok(None);
    }
    let end = view.take_leb()?;
    let start = view.take_leb()?;
    Ok(Some(Trim { end, start }))
}

#[tactic(auto, unfolding(spec_obu::specs::Reading::extension_at))]
fn read_extension<'a>(view: &mut View<'a>, extended: bool) -> Result<Option<&'a [u8]>, FieldFault>
    requires { IsOnByte view.old }
    ensures exact { TakesBytes option_copied result (bytes_left view.new) (extension_at extended (bytes_left view.old)) }
    ensures on_byte { IsOnByte view.new }
{
    if !extended {
        return Ok(None);
    }
    let size = view.take_leb()?;
    let bytes = view.take_bytes(size as usize)?;
    Ok(Some(bytes))
}

// The head and the payload, where the bytes after the size are these.
#[tactic(auto, unfolding(spec_obu::specs::Reading::fields_at))]
fn read_fields(first: FirstByte, part: &[u8]) -> Result<(ObuHead<'_>, &[u8]), FieldFault>
    ensures { (byte : ℕ) → Decodes first byte → ReadsFields result (fields_at byte part.now) }
{
    let mut view = View::whole(part);
    let trim = read_trim(&mut view, first.trimmed)?;
    let extension = read_extension(&mut view, first.extended)?;
    let head = ObuHead {
        kind: first.kind,
        redundant: first.redundant,
        trim,
        extension,
    };
    Ok((head, view.rest()))
}

// The fault where the size cannot be read.
fn unread(fault: FieldFault, allowed: bool) -> HeaderFault
    ensures { result ≡ Reading.unread fault allowed }
{
    match fault {
        FieldFault::Leb => HeaderFault::Leb,
        FieldFault::Short | FieldFault::Text => {
            if allowed {
                HeaderFault::Cut
            } else {
                HeaderFault::Flags
            }
        }
    }
}

fn read_at<'a>(buffer: &'a [u8], at: usize) -> Result<ObuView<'a>, HeaderFault>
    requires { at < length buffer.now }
    ensures exact { ReadsAt at result (header_at (drop at buffer.now)) }
    ensures at { IfOk result (λ o. o.at ≡ at) }
    ensures begins { IfOk result (λ o. at < o.end) }
    ensures within { IfOk result (λ o. o.end ≤ length buffer.now) }
{
    let first = FirstByte::of(buffer[at]);
    let allowed = first.is_allowed();
    let mut view = View::new(buffer, at + 1, buffer.len());
    let size = match view.take_leb() {
        Ok(size) => size as usize,
        Err(fault) => return Err(unread(fault, allowed)),
    };
    if view.at() - at + size > MAX_OBU {
        return Err(HeaderFault::ObuSize);
    }
    if !allowed {
        return Err(HeaderFault::Flags);
    }
    let part = match view.take_bytes(size) {
        Ok(part) => part,
        Err(_) => return Err(HeaderFault::Cut),
    };
    let (head, payload) = match read_fields(first, part) {
        Ok(fields) => fields,
        Err(_) => return Err(HeaderFault::HeaderSize),
    };
    let end = view.at();
    Ok(ObuView {
        at,
        end,
        head,
        payload,
    })
}

/// Reads the header of the OBU that begins at the place `at` of the buffer, and finds its payload and its end.
/// Nothing is copied, and no memory is taken.
///
/// # Errors
///
/// The first fault, in the order of the tests, exactly where no header stands at the place:
///
/// - `Leb`: `obu_size` has 8 bytes that all say that another follows, or its value is 2^32 or more.
/// - `ObuSize`: the whole OBU would have more than 2^21 bytes.
/// - `Flags`: a flag stands on a type that may not have it.
/// - `Cut`: the buffer ends in `obu_size` or before the OBU's end.
/// - `HeaderSize`: the trims or the extension do not read within `obu_size` bytes.
#[inline]
pub fn read_obu<'a>(buffer: &'a [u8], at: usize) -> Result<ObuView<'a>, HeaderFault>
    requires { at < length buffer.now }
    // From `at` to `end` stands a header with this payload, which is the last bytes before `end`.
    ensures header { IfOk result (λ o. Header (head_of o.head) o.payload.now (take (o.end - at) (drop at buffer.now))) }
    ensures at { IfOk result (λ o. o.at ≡ at) }
    ensures begins { IfOk result (λ o. at < o.end) }
    ensures within { IfOk result (λ o. o.end ≤ length buffer.now) }

    // Else no header stands there, and this is the first fault.
    ensures fault { IfErr result (λ f. IsFirstFault f (drop at buffer.now)) }

    // Either way it is what reading the bytes gives.
    ensures exact { ReadsAt at result (header_at (drop at buffer.now)) }
{
    read_at(buffer, at)
}
