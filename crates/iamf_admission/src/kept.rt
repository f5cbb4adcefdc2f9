//! What is kept of OBUs, to read, test and sum up the next one.
ghost use Rattle.std.specs.Prelude.{◌≡◌, ◌<◌, ◌^◌, ◌∷◌, ◌++◌, true, false, ℕ, List, [], length, OnOk, IfOk};
ghost use Rattle.spec_obu.specs.Header.{Header, is_copy};
ghost use Rattle.spec_obu.specs.Kinds.{obu_type_of, is_descriptor};
ghost use Rattle.spec_values.specs.Content as said;
ghost use Rattle.spec_rules.specs.declared.codec.Codec.TheVariants.{Flac};
ghost use Rattle.spec_sequence.specs.Reading.{Entry, roles, values_of};
ghost use Rattle.spec_sequence.specs.ValueRole as value_role;
ghost use Rattle.obu_header.specs.View.{head_of};
ghost use Rattle.iamf_obu.specs.ContentView.{IsValidContent};
ghost use Rattle.iamf_rules.specs.Standing.{Stands as RulesStand};
ghost use Rattle.iamf_rules.specs.RoleView.{view_role, CanDefine};
ghost use Rattle.iamf_rules.specs.Coding.{HasRoom};
ghost use Rattle.iamf_report.specs.TallyView.{Stands as TallyStands};
ghost use Rattle.iamf_copies.specs.Standing.{Stands as CopiesStand};
ghost use Rattle.iamf_admission.specs.PartsView.{HasParts};
ghost use Rattle.iamf_admission.specs.Taking.{IsNext, IsSaid, MakesRoom};
ghost use Rattle.iamf_admission.specs.Numbers.{number_between};

use crate::AdmitError;
use crate::admitted::Admitted;
use crate::parts::{Parts, parts_of};
use crate::role::role_of;
use iamf_bits::{Planes, Unread, as_bytes_below_256};
use iamf_copies::{Copies, other_obus_law as other_copies_law};
use iamf_obu::{Content, read_content};
use iamf_report::{Summary, Tally, other_obus_law};
use iamf_rules::{Role, Rules};
use obu_header::{ObuType, ObuView};
use spec_rules::{Codec, CodecRole};
use spec_values::Fault;
use std::alloc::{AllocError, Global};

/// What is kept of OBUs that were admitted.
#[derive(Drop)]
pub(crate) struct Kept {
    pub(crate) rules: Rules,
    pub(crate) copies: Copies,
    pub(crate) tally: Tally,
    /// Room for the samples of a frame, where frames are decoded to be tested.
    pub(crate) planes: Option<Planes>,
}

impl Kept {
    ghost use Rattle.iamf_admission.specs.Standing.{IsSound, Stands, Steps, Ends};

    /// Of no OBU.
    pub(crate) fn new(alloc: Global) -> Kept
        ensures { Stands result [] }
    {
        Kept {
            rules: Rules::new(alloc),
            copies: Copies::new(alloc),
            tally: Tally::new(alloc),
            planes: None,
        }
    }

    /// Reads and tests the next OBU and takes it in. After want of memory nothing is known.
    pub(crate) fn take<'a>(
        &mut self,
        alloc: Global,
        obu: &ObuView<'a>,
    ) -> Result<Admitted<'a>, AdmitError>
        requires spelled { (piece : List ℕ) × Header (head_of obu.now.head) obu.now.payload.now piece }
        requires stands { (past : List Entry) × Stands self.old past × (length past < 2 ^ 40) }
        ensures { (past : List Entry) → Stands self.old past → length past < 2 ^ 40 → Steps self.new result past obu.now }
    {
        if obu.head.is_copy() {
            return self.take_copy(obu);
        }
        self.take_plain(alloc, obu)
    }

    /// Tests a redundant copy. It adds nothing.
    fn take_copy<'a>(&self, obu: &ObuView<'a>) -> Result<Admitted<'a>, AdmitError>
        requires copy { is_copy (head_of obu.now.head) ≡ true }
        requires spelled { (piece : List ℕ) × Header (head_of obu.now.head) obu.now.payload.now piece }
        ensures { (past : List Entry) → Stands self.now past → length past < 2 ^ 40 → Steps self.now result past obu.now }
    {
        other_copies_law();
        other_obus_law();
        if self.copies.has(obu.head.kind, obu.payload) {
            return Ok(Admitted {
                content: None,
                unit: None,
            });
        }
        Err(Unread::Fault(Fault::Redundant))
    }

    /// Reads another OBU, tests it and takes it in. Nothing is changed before all tests are passed.
    fn take_plain<'a>(
        &mut self,
        alloc: Global,
        obu: &ObuView<'a>,
    ) -> Result<Admitted<'a>, AdmitError>
        requires plain { is_copy (head_of obu.now.head) ≡ false }
        requires stands { (past : List Entry) × Stands self.old past × (length past < 2 ^ 40) }
        ensures { (past : List Entry) → Stands self.old past → length past < 2 ^ 40 → Steps self.new result past obu.now }
    {
        let obu_type = obu.head.obu_type();
        if let Some(fault) = self.rules.fault_before(obu_type) {
            return Err(Unread::Fault(fault));
        }
        // Its bytes are below 256, which is seen of an argument and not of a field.
        let _ = as_bytes_below_256(obu.payload);
        let length = self.rules.frame_length();
        let content = match read_content(alloc, obu, u32::from(length), self.rules.definitions()) {
            Ok(content) => content,
            Err(error) => return Err(error),
        };
        let parts = match parts_of(alloc, &content, length) {
            Ok(parts) => parts,
            Err(error) => return Err(Unread::Memory(error)),
        };
        let role = role_of(&content, &parts);
        match self.rules.fault_after(alloc, &role, &mut self.planes) {
            Ok(Some(fault)) => return Err(Unread::Fault(fault)),
            Ok(None) => {}
            Err(error) => return Err(Unread::Memory(error)),
        }
        // A frame may end its unit, and a delimiter begin the next one.
        let before = self.rules.unit_number();
        match self.add(alloc, obu, &content, &parts, &role) {
            Ok(()) => {}
            Err(error) => return Err(Unread::Memory(error)),
        }
        let unit = unit_of(obu_type, before, self.rules.unit_number());
        Ok(Admitted {
            content: Some(content),
            unit,
        })
    }

    /// Takes in an OBU that has no fault. After an `Err`, which comes only where memory runs out, nothing is known.
    fn add(
        &mut self,
        alloc: Global,
        obu: &ObuView<'_>,
        content: &Content<'_>,
        parts: &Parts,
        role: &Role<'_>,
    ) -> Result<(), AllocError>
        requires defines { CanDefine role.now }
        requires valid { (context : said.Context) × (kind : ℕ) × IsValidContent context kind content.now }
        ensures { OnOk result ((past : List Entry) (e : Entry) (frame_length : ℕ) → Stands self.old past → length past < 2 ^ 40 → HasParts frame_length content.now parts.now
            → IsNext past obu.now e → IsSaid content.now past e → IsSound (value_role.role e.value) → view_role role.now ≡ value_role.role e.value → Stands self.new (past ++ e ∷ [])) }
    {
        add_line(alloc, &mut self.tally, &self.rules, content, parts)?;
        add_payload(alloc, &mut self.copies, obu)?;
        make_room(alloc, &mut self.planes, role)?;
        self.rules.add(alloc, role)?;
        Ok(())
    }

    /// What the report says of the OBUs, or why they are no sequence.
    pub(crate) fn end(self) -> Result<Summary, AdmitError>
        ensures { (past : List Entry) → Stands self past → Ends result past }
    {
        let Kept {
            rules,
            copies: _,
            tally,
            planes: _,
        } = self;
        if let Some(fault) = rules.end_fault() {
            return Err(Unread::Fault(fault));
        }
        Ok(tally.finish(rules.units(), rules.samples()))
    }
}

/// Adds the line of the report on a descriptor. The rules are those before it.
fn add_line(
    alloc: Global,
    tally: &mut Tally,
    rules: &Rules,
    content: &Content<'_>,
    parts: &Parts,
) -> Result<(), AllocError>
    requires { (context : said.Context) × (kind : ℕ) × IsValidContent context kind content.now }
    ensures { OnOk result ((past : List Entry) (e : Entry) (frame_length : ℕ) → TallyStands tally.old (values_of past) → RulesStand rules.now (roles past) → IsSaid content.now past e
        → HasParts frame_length content.now parts.now → TallyStands tally.new (values_of (past ++ e ∷ []))) }
{
    match content {
        Content::SequenceHeader(header) => {
            tally.add_header(header);
            Ok(())
        }
        Content::CodecConfig(config) => {
            tally.add_codec(config);
            Ok(())
        }
        Content::AudioElement(element) => {
            tally.add_element(element)?;
            Ok(())
        }
        Content::MixPresentation(mix) => {
            let fits = rules.fits(parts.elements.as_slice(), mix.sub_mixes.len());
            tally.add_mix(alloc, mix, fits)?;
            Ok(())
        }
        _ => {
            other_obus_law();
            Ok(())
        }
    }
}

/// Adds the payload of a descriptor, which redundant copies may repeat.
fn add_payload(alloc: Global, copies: &mut Copies, obu: &ObuView<'_>) -> Result<(), AllocError>
    ensures { OnOk result ((past : List Entry) (e : Entry) → CopiesStand copies.old past → IsNext past obu.now e → is_copy e.value.head ≡ false
        → CopiesStand copies.new (past ++ e ∷ [])) }
{
    if !obu.head.obu_type().is_descriptor() {
        other_copies_law();
        return Ok(());
    }
    copies.add(alloc, obu.head.kind, obu.payload)?;
    Ok(())
}

/// Takes the memory in which frames of the codec are decoded to be tested, where they are.
fn make_room_for(
    alloc: Global,
    planes: &mut Option<Planes>,
    codec: &CodecRole,
) -> Result<(), AllocError>
    ensures { OnOk result (codec.now.codec ≡ Flac → HasRoom planes.new codec.now.frame_length) }
{
    match codec.codec {
        Codec::Lpcm => Ok(()),
        Codec::Flac => {
            *planes = Some(Planes::new(alloc, 2, usize::from(codec.frame_length))?);
            Ok(())
        }
    }
}

/// Takes that memory once, with the codec config.
fn make_room(alloc: Global, planes: &mut Option<Planes>, role: &Role<'_>) -> Result<(), AllocError>
    ensures { OnOk result (MakesRoom planes.old planes.new (view_role role.now)) }
{
    match role {
        Role::CodecConfig(codec) => {
            make_room_for(alloc, planes, codec)?;
            Ok(())
        }
        _ => Ok(()),
    }
}

/// The unit of an OBU of the type, of the units that are open before and after it: `None` where it is no data OBU.
fn unit_of(obu_type: ObuType, before: u64, after: u64) -> Option<u64>
    ensures { result ≡ number_between obu_type before after }
{
    match obu_type {
        ObuType::TemporalDelimiter => Some(after),
        ObuType::ParameterBlock | ObuType::AudioFrame => Some(before),
        _ => None,
    }
}
