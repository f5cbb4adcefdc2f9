//! The loudness of a sub-mix in a layout (IAMF 1.0.0, "Layout Syntax and Semantics" and "Loudness Info Syntax and
//! Semantics").

ghost use Rattle.std.specs.Prelude.{◌≡◌, [], map};
ghost use Rattle.spec_bits.specs.Cursor.{IsOnByte};
ghost use Rattle.spec_syntax.specs.Syntax.{each};
ghost use Rattle.spec_syntax.specs.Reading.{read};
ghost use Rattle.spec_descriptors.specs.MixPresentation.{loudness_layout, anchor, anchored_loudness, info_type_extension, maybe_true_peak, maybe_anchors, maybe_extension, loudness, loudness_in};
ghost use Rattle.iamf_bits.specs.Outcome.{ReadsPart, TakesPart};
ghost use Rattle.obu_loudness.specs.LoudnessView.{view_anchor, view_loudness};
ghost use Rattle.spec_syntax.specs.Repetition.{joined};
ghost use Rattle.spec_descriptors.specs.MixFields.{layout_fields, levels_fields, true_peak_fields, anchor_fields, anchors_fields, extension_fields, loudness_fields, layouts_fields};
ghost use Rattle.spec_syntax.specs.Fitting.{AllFit};
ghost use Rattle.obu_timing.specs.Writing.{Puts};

use iamf_bits::{Out, Unread, View};
use smallvec::SmallVec;
use spec_descriptors::MixFault;
use std::alloc::{AllocError, Global};
use std::default::MadeWith;

/// The loudness of a part of the sound.
#[derive(Clone, Copy, Debug, Default, PartialEq, Eq)]
pub struct Anchor {
    /// `anchor_element`: which part.
    pub kind: u8,
    /// `anchored_loudness` in 1/256 LKFS.
    pub loudness: i16,
}

/// A layout, and how loud the sub-mix is in it.
#[derive(Debug, Drop)]
pub struct LayoutLoudness<'a> {
    /// `sound_system`, below 16, or `None` for binaural.
    pub system: Option<u8>,
    /// `info_type`, whose bits say which of the fields below there are.
    pub info: u8,
    /// `integrated_loudness` in 1/256 LKFS.
    pub integrated: i16,
    /// `digital_peak` in 1/256 dBFS.
    pub peak: i16,
    /// `true_peak` in 1/256 dBFS, where bit 0 of `info` is set.
    pub true_peak: Option<i16>,
    /// The anchored loudnesses, where bit 1 of `info` is set, and else none.
    pub anchors: SmallVec<Anchor, 2>,
    /// `info_type_bytes`, where a higher bit of `info` is set, and else none.
    pub extra: &'a [u8],
}

impl<'a> MadeWith<Global> for LayoutLoudness<'a> {
    fn made_with(alloc: Global) -> LayoutLoudness<'a> {
        LayoutLoudness {
            system: None,
            info: 0,
            integrated: 0,
            peak: 0,
            true_peak: None,
            anchors: SmallVec::new(alloc),
            extra: &[],
        }
    }
}

/// The sound system of a layout, or `None` for binaural.
#[tactic(auto, unfolding(spec_descriptors::specs::MixPresentation::loudness_layout))]
fn system_of(view: &mut View<'_>) -> Result<Option<u8>, MixFault>
    requires { IsOnByte view.old }
    ensures { TakesPart (λ s. s) result view.new (read (λ f. MixFault.Field f) loudness_layout view.old) }
{
    let kind = view.take_bits(2)?;
    if kind < 2 {
        return Err(MixFault::LayoutType);
    }
    if kind == 2 {
        let system = view.take_bits(4)? as u8;
        view.skip_bits(2)?;
        return Ok(Some(system));
    }
    view.skip_bits(6)?;
    Ok(None)
}

/// The true peak, where bit 0 of the type says that there is one.
#[tactic(auto, unfolding(spec_descriptors::specs::MixPresentation::maybe_true_peak))]
fn true_peak_of(view: &mut View<'_>, info: u8) -> Result<Option<i16>, MixFault>
    requires { IsOnByte view.old }
    ensures { TakesPart (λ p. p) result view.new (read (λ f. MixFault.Field f) (maybe_true_peak info) view.old) }
{
    if info % 2 == 0 {
        return Ok(None);
    }
    let true_peak = view.take_i16()?;
    Ok(Some(true_peak))
}

/// An anchored loudness.
#[tactic(auto, unfolding(spec_descriptors::specs::MixPresentation::anchor))]
fn anchor_of(view: &mut View<'_>) -> Result<Anchor, MixFault>
    requires { IsOnByte view.old }
    ensures { TakesPart view_anchor result view.new (read (λ f. MixFault.Field f) anchor view.old) }
{
    let kind = view.take_bits(8)? as u8;
    let loudness = view.take_i16()?;
    Ok(Anchor { kind, loudness })
}

/// The anchored loudnesses.
#[tactic(auto, using(spec_syntax::proofs::Reading::each_steps), unfolding(spec_descriptors::specs::MixPresentation::anchored_loudness))]
fn all_anchors_of(
    alloc: Global,
    view: &mut View<'_>,
) -> Result<SmallVec<Anchor, 2>, Unread<MixFault>>
    requires { IsOnByte view.old }
    ensures { ReadsPart (λ v. map view_anchor v.items) result view.new (read (λ f. MixFault.Field f) anchored_loudness view.old) }
{
    let count = view.take_bits(8)?;
    let mut anchors = SmallVec::new(alloc);
    for _ in 0..count {
        let anchor = match anchor_of(view) {
            Ok(anchor) => anchor,
            Err(fault) => return Err(Unread::Fault(fault)),
        };
        anchors.push(anchor)?;
    }
    Ok(anchors)
}

/// The anchored loudnesses, where bit 1 of the type says that there are some.
#[tactic(auto, unfolding(spec_descriptors::specs::MixPresentation::maybe_anchors))]
fn anchors_of(
    alloc: Global,
    view: &mut View<'_>,
    info: u8,
) -> Result<SmallVec<Anchor, 2>, Unread<MixFault>>
    requires { IsOnByte view.old }
    ensures { ReadsPart (λ v. map view_anchor v.items) result view.new (read (λ f. MixFault.Field f) (maybe_anchors info) view.old) }
{
    if info / 2 % 2 == 0 {
        return Ok(SmallVec::new(alloc));
    }
    all_anchors_of(alloc, view)
}

/// The bytes that are kept unread, where a bit above 1 of the type says that there are some.
#[tactic(auto, unfolding(spec_descriptors::specs::MixPresentation::maybe_extension, spec_descriptors::specs::MixPresentation::info_type_extension))]
fn extra_of<'a>(view: &mut View<'a>, info: u8) -> Result<&'a [u8], MixFault>
    requires { IsOnByte view.old }
    ensures { TakesPart (λ b. b.now) result view.new (read (λ f. MixFault.Field f) (maybe_extension info) view.old) }
{
    if info < 4 {
        return Ok(&[]);
    }
    let size = view.take_leb()?;
    let extra = view.take_bytes(size as usize)?;
    Ok(extra)
}

/// A layout and its loudness.
#[tactic(auto, using(spec_syntax::proofs::Reading::read_bind), unfolding(spec_descriptors::specs::MixPresentation::loudness))]
fn loudness_in<'a>(
    alloc: Global,
    view: &mut View<'a>,
) -> Result<LayoutLoudness<'a>, Unread<MixFault>>
    requires { IsOnByte view.old }
    ensures { ReadsPart view_loudness result view.new (read (λ f. MixFault.Field f) loudness view.old) }
{
    let system = system_of(view).map_err(Unread::Fault)?;
    let info = view.take_bits(8)? as u8;
    let integrated = view.take_i16()?;
    let peak = view.take_i16()?;
    let true_peak = true_peak_of(view, info).map_err(Unread::Fault)?;
    let anchors = match anchors_of(alloc, view, info) {
        Ok(anchors) => anchors,
        Err(error) => return Err(error),
    };
    let extra = extra_of(view, info).map_err(Unread::Fault)?;
    Ok(LayoutLoudness {
        system,
        info,
        integrated,
        peak,
        true_peak,
        anchors,
        extra,
    })
}

/// Reads so many layouts and their loudnesses.
///
/// `Fault` comes exactly where the payload does not go on with these, and is the first fault; `Memory` only where memory
/// runs out.
#[tactic(auto, using(spec_syntax::proofs::Reading::each_steps))]
pub fn loudness_of<'a>(
    alloc: Global,
    view: &mut View<'a>,
    count: u32,
) -> Result<SmallVec<LayoutLoudness<'a>, 2>, Unread<MixFault>>
    requires { IsOnByte view.old }
    ensures { ReadsPart (λ v. map view_loudness v.items) result view.new (read (λ f. MixFault.Field f) (each count loudness_in []) view.old) }
{
    let mut layouts = SmallVec::new(alloc);
    for _ in 0..count {
        let layout = match loudness_in(alloc, view) {
            Ok(layout) => layout,
            Err(error) => return Err(error),
        };
        layouts.push(layout)?;
    }
    Ok(layouts)
}

/// Puts a layout.
#[tactic(auto, using(spec_bits::proofs::JoinLaws::joins))]
fn put_system(out: &mut Out, system: Option<u8>) -> Result<(), AllocError>
    requires used { out.old.used ≡ 0 }
    requires fits { AllFit (layout_fields system) }
    ensures { Puts result out.old out.new (layout_fields system) }
{
    match system {
        Some(system) => {
            out.put_bits(2, 2)?;
            out.put_bits(u32::from(system), 4)?;
            out.put_zeros(2)?;
        }
        None => {
            out.put_bits(3, 2)?;
            out.put_zeros(6)?;
        }
    }
    Ok(())
}

/// Puts the type, the loudness and the peak.
#[tactic(auto, using(spec_bits::proofs::JoinLaws::joins))]
fn put_levels(out: &mut Out, layout: &LayoutLoudness<'_>) -> Result<(), AllocError>
    requires { out.old.used ≡ 0 }
    ensures { Puts result out.old out.new (levels_fields (view_loudness layout.now)) }
{
    out.put_bits(u32::from(layout.info), 8)?;
    out.put_i16(layout.integrated)?;
    out.put_i16(layout.peak)?;
    Ok(())
}

/// Puts the true peak, where there is one.
#[tactic(auto, using(spec_bits::proofs::JoinLaws::joins))]
fn put_true_peak(out: &mut Out, true_peak: Option<i16>) -> Result<(), AllocError>
    requires { out.old.used ≡ 0 }
    ensures { Puts result out.old out.new (true_peak_fields true_peak) }
{
    match true_peak {
        Some(true_peak) => out.put_i16(true_peak)?,
        None => {}
    }
    Ok(())
}

/// Puts an anchored loudness.
#[tactic(auto, using(spec_bits::proofs::JoinLaws::joins))]
fn put_anchor(out: &mut Out, anchor: &Anchor) -> Result<(), AllocError>
    requires { out.old.used ≡ 0 }
    ensures { Puts result out.old out.new (anchor_fields (view_anchor anchor.now)) }
{
    out.put_bits(u32::from(anchor.kind), 8)?;
    out.put_i16(anchor.loudness)?;
    Ok(())
}

/// Puts the anchored loudnesses.
fn put_all_anchors(out: &mut Out, anchors: &[Anchor]) -> Result<(), AllocError>
    requires { out.old.used ≡ 0 }
    ensures { Puts result out.old out.new (joined (λ a. anchor_fields (view_anchor a)) anchors.now) }
{
    for anchor in anchors {
        put_anchor(out, anchor)?;
    }
    Ok(())
}

/// Puts the anchored loudnesses, where the type says that there are some.
#[tactic(auto, using(spec_bits::proofs::JoinLaws::joins, spec_syntax::proofs::Writing::views))]
fn put_anchors(out: &mut Out, layout: &LayoutLoudness<'_>) -> Result<(), AllocError>
    requires used { out.old.used ≡ 0 }
    requires fits { AllFit (anchors_fields layout.now.info (view_loudness layout.now).anchors) }
    ensures { Puts result out.old out.new (anchors_fields layout.now.info (view_loudness layout.now).anchors) }
{
    if layout.info / 2 % 2 == 1 {
        out.put_bits(layout.anchors.len() as u32, 8)?;
        put_all_anchors(out, layout.anchors.as_slice())?;
    }
    Ok(())
}

/// Puts the bytes that are kept unread, where the type says that there are some.
#[tactic(auto, using(spec_bits::proofs::JoinLaws::joins))]
fn put_extra(out: &mut Out, info: u8, extra: &[u8]) -> Result<(), AllocError>
    requires used { out.old.used ≡ 0 }
    requires fits { AllFit (extension_fields info extra.now) }
    ensures { Puts result out.old out.new (extension_fields info extra.now) }
{
    if info > 3 {
        out.put_leb(extra.len() as u32)?;
        out.put_bytes(extra)?;
    }
    Ok(())
}

/// Puts a layout and its loudness.
#[tactic(auto, using(spec_bits::proofs::JoinLaws::joins, spec_syntax::proofs::Writing::canon_append, spec_syntax::proofs::Fitting::fit_front, spec_syntax::proofs::Fitting::fit_rest), unfolding(spec_descriptors::specs::MixFields::loudness_fields))]
fn put_layout(out: &mut Out, layout: &LayoutLoudness<'_>) -> Result<(), AllocError>
    requires used { out.old.used ≡ 0 }
    requires fits { AllFit (loudness_fields (view_loudness layout.now)) }
    ensures { Puts result out.old out.new (loudness_fields (view_loudness layout.now)) }
{
    put_system(out, layout.system)?;
    put_levels(out, layout)?;
    put_true_peak(out, layout.true_peak)?;
    put_anchors(out, layout)?;
    put_extra(out, layout.info, layout.extra)?;
    Ok(())
}

/// Puts the layouts and their loudnesses one after the other.
fn put_all_layouts(out: &mut Out, layouts: &[LayoutLoudness<'_>]) -> Result<(), AllocError>
    requires used { out.old.used ≡ 0 }
    requires fits { AllFit (joined (λ y. loudness_fields (view_loudness y)) layouts.now) }
    ensures { Puts result out.old out.new (joined (λ y. loudness_fields (view_loudness y)) layouts.now) }
{
    for layout in layouts {
        put_layout(out, layout)?;
    }
    Ok(())
}

/// Puts how many layouts there are, and these. An error only where memory runs out.
#[tactic(auto, using(spec_bits::proofs::JoinLaws::joins, spec_syntax::proofs::Writing::views))]
pub fn put_layouts(out: &mut Out, layouts: &[LayoutLoudness<'_>]) -> Result<(), AllocError>
    requires used { out.old.used ≡ 0 }
    requires fits { AllFit (layouts_fields (map view_loudness layouts.now)) }
    ensures { Puts result out.old out.new (layouts_fields (map view_loudness layouts.now)) }
{
    out.put_leb(layouts.len() as u32)?;
    put_all_layouts(out, layouts)?;
    Ok(())
}
