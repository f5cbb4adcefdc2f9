//! The rules of sequences by four calls: what is wrong with an OBU before its payload is read, what is wrong after it, what
//! an OBU that has no fault adds, and what is wrong with the end.
ghost use Rattle.std.specs.Prelude.{◌≡◌, ℕ, ◌+◌, ◌^◌, ◌<◌, ◌||◌, map, max, true, false, length, List, [], ◌∷◌, ◌++◌, Some, None, OnOk, OnErr, IfOk};
ghost use Rattle.std.specs.List.{All};
ghost use Rattle.std.specs.Option.{option_map};
ghost use Rattle.spec_obu.specs.Kinds.{is_descriptor};
ghost use Rattle.spec_rules.specs.Role as specs;
ghost use Rattle.spec_rules.specs.Descriptors.{frame_length, definitions};
ghost use Rattle.spec_rules.specs.Profile.{fits};
ghost use Rattle.spec_rules.specs.Units.{open_unit, unit_count};
ghost use Rattle.spec_rules.specs.Rules.{first_of, fault_before, fault_after, end_fault};
ghost use Rattle.spec_rules.specs.Admitted.{type_of_role, HasNoFault};
ghost use Rattle.spec_rules.specs.Samples.{kept};
ghost use Rattle.obu_data.specs.ShapeView.{MayDefine};
ghost use Rattle.obu_data.specs.DefinitionView.{view_definition};
ghost use Rattle.iamf_rules.specs.RoleView.{view_role, CanDefine};
ghost use Rattle.iamf_rules.specs.Coding.{IsCoded, CanDecodeOf, KeepsRoom};

use crate::blocks::{Blocks, UnitTime};
use crate::clashing::clashing;
use crate::descriptors::Descriptors;
use crate::finding::{repeated, unknown};
use crate::open_unit::OpenUnit;
use crate::role::Role;
use crate::substreams::Substreams;
use iamf_bits::Planes;
use obu_data::{Definition, Definitions};
use spec_obu::{ObuType, Trim};
use spec_values::Fault;
use std::alloc::{AllocError, Global};

/// What is kept of a list of OBUs, to test the next one by the rules (IAMF 1.0.0, "IA Sequence Structure", "Temporal Unit"
/// and "IA Profiles").
///
/// The tests change nothing. Each call takes logarithmic time for each id that its OBU names. Memory is taken for
/// descriptors alone, and after want of it nothing is known of the rules.
#[derive(Drop)]
pub struct Rules {
    pub(crate) descriptors: Descriptors,
    pub(crate) substreams: Substreams,
    pub(crate) unit: OpenUnit,
    pub(crate) blocks: Blocks,
}

impl Rules {
    ghost use Rattle.iamf_rules.specs.RulesSteps.{start_fault_of, early_of, frame_fault_of, block_fault_of, last_fault_of, time_of, AddsFrame, AddsDelimiter, AddsBlock};
    ghost use Rattle.iamf_rules.specs.DescriptorSteps.{raised};
    ghost use Rattle.iamf_rules.specs.Standing.{Stands, element_tests, mix_tests};
    ghost use Rattle.iamf_rules.specs.DescriptorAdding.{AddsElement, AddsMix};

    /// Stands for the empty list.
    pub fn new(alloc: Global) -> Rules
        ensures { Stands result [] }
    {
        Rules {
            descriptors: Descriptors::new(alloc),
            substreams: Substreams::new(alloc),
            unit: OpenUnit::new(),
            blocks: Blocks::new(alloc),
        }
    }

    fn start_fault(&self) -> Option<Fault>
        ensures { result ≡ start_fault_of self.now }
    {
        if self.unit.delimited.is_some() {
            return None;
        }
        self.descriptors.whole_fault()
    }

    fn early_fault(&self, obu_type: ObuType) -> Option<Fault>
        ensures { result ≡ early_of self.now obu_type }
    {
        match obu_type {
            ObuType::SequenceHeader => self.descriptors.header_fault(),
            ObuType::CodecConfig => self.descriptors.order_fault(2),
            ObuType::AudioElement => self.descriptors.order_fault(3),
            ObuType::MixPresentation => self.descriptors.order_fault(4),
            ObuType::ParameterBlock => self.start_fault(),
            ObuType::TemporalDelimiter => self.start_fault(),
            ObuType::AudioFrame => self.start_fault(),
            ObuType::Reserved => None,
        }
    }

    /// What is wrong with an OBU of the type, before its payload is read.
    pub fn fault_before(&self, obu_type: ObuType) -> Option<Fault>
        ensures { (l : List specs.Role) → Stands self.now l → result ≡ fault_before l obu_type }
    {
        self.early_fault(obu_type)
    }

    /// Where the open unit stands in time.
    fn time(&self) -> UnitTime
        ensures { result ≡ time_of self.now }
    {
        UnitTime {
            number: self.unit.number,
            frame_length: self.descriptors.length(),
            rate: self.descriptors.rate(),
        }
    }

    fn frame_fault(
        &self,
        substream: u32,
        trim: Trim,
        bytes: &[u8],
        planes: &mut Option<Planes>,
    ) -> Option<Fault>
        ensures fault { CanDecodeOf self.now substream planes.old → result ≡ frame_fault_of self.now substream trim bytes.now }
        ensures room { KeepsRoom planes.old planes.new }
    {
        let slot = match self.substreams.find(substream) {
            Some(slot) => slot,
            None => return Some(Fault::UnitFrame),
        };
        if self.unit.number < slot.frames {
            return Some(Fault::UnitFrame);
        }
        if self.unit.has_bad_trim(self.descriptors.length(), trim) {
            return Some(Fault::Trim);
        }
        self.descriptors.coded_fault(slot.channels, bytes, planes)
    }

    fn block_fault(&self, id: u32) -> Option<Fault>
        ensures { result ≡ block_fault_of self.now id }
    {
        if self.blocks.is_late(id, self.time()) {
            return Some(Fault::BlockTime);
        }
        None
    }

    fn element_fault(
        &self,
        alloc: Global,
        id: u32,
        codec: u32,
        substreams: &[u32],
        definitions: &[Definition],
    ) -> Result<Option<Fault>, AllocError>
        requires { All (λ d. MayDefine d.shape) definitions.now }
        ensures { (l : List specs.Role) → Stands self.now l → IfOk result (λ fault. fault ≡ element_tests l id codec substreams.now (map view_definition definitions.now)) }
    {
        if self.descriptors.elements.contains_key(&id) {
            return Ok(Some(Fault::Repeated(id)));
        }
        let again = repeated(alloc, &self.substreams.slots, substreams)?;
        if again.is_some() {
            return Ok(again);
        }
        let unknown = self.descriptors.codec_unknown(codec);
        if unknown.is_some() {
            return Ok(unknown);
        }
        clashing(alloc, &self.blocks.definitions, definitions)
    }

    fn mix_fault(
        &self,
        alloc: Global,
        id: u32,
        elements: &[u32],
        definitions: &[Definition],
    ) -> Result<Option<Fault>, AllocError>
        requires { All (λ d. MayDefine d.shape) definitions.now }
        ensures { (l : List specs.Role) → Stands self.now l → IfOk result (λ fault. fault ≡ mix_tests l id elements.now (map view_definition definitions.now)) }
    {
        if self.descriptors.mixes.contains(&id) {
            return Ok(Some(Fault::Repeated(id)));
        }
        let unknown = unknown(&self.descriptors.elements, elements);
        if unknown.is_some() {
            return Ok(unknown);
        }
        clashing(alloc, &self.blocks.definitions, definitions)
    }

    /// What is wrong with an OBU, after those before it. An `Err` comes only for an audio element and a mix presentation,
    /// where memory runs out.
    ///
    /// To be tested, frames of FLAC are decoded into the planes, which have two rows of a frame's length where the codec is
    /// FLAC; they keep their size.
    #[tactic(auto, unfolding(spec_rules::specs::Rules::fault_after))]
    pub fn fault_after(
        &self,
        alloc: Global,
        role: &Role<'_>,
        planes: &mut Option<Planes>,
    ) -> Result<Option<Fault>, AllocError>
        requires { CanDefine role.now }
        ensures fault { (l : List specs.Role) → Stands self.now l → IsCoded planes.old l → IfOk result (λ fault. fault ≡ fault_after l (view_role role.now)) }
        ensures room { KeepsRoom planes.old planes.new }
        ensures memory { OnErr result (is_descriptor (type_of_role (view_role role.now)) ≡ true) }
    {
        match role {
            Role::Ignored => Ok(None),
            Role::SequenceHeader { .. } => Ok(None),
            Role::CodecConfig(codec) => Ok(self.descriptors.codec_fault(codec.id)),
            Role::AudioElement {
                id,
                codec,
                substreams,
                definitions,
                ..
            } => self.element_fault(alloc, *id, *codec, substreams, definitions),
            Role::MixPresentation {
                id,
                elements,
                definitions,
                ..
            } => self.mix_fault(alloc, *id, elements, definitions),
            Role::Delimiter => Ok(self.unit.delimiter_fault(self.substreams.len())),
            Role::ParameterBlock { id, .. } => Ok(self.block_fault(*id)),
            Role::AudioFrame {
                substream,
                trim,
                bytes,
            } => Ok(self.frame_fault(*substream, *trim, bytes, planes)),
        }
    }

    fn raise_to_data(&mut self)
        ensures { self.new ≡ record self.old { descriptors = raised self.old.descriptors 5 } }
    {
        self.descriptors.raise(5);
    }

    fn add_frame(&mut self, substream: u32, trim: Trim)
        ensures { AddsFrame self.old self.new substream trim }
    {
        let count = self.substreams.len();
        let length = self.descriptors.length();
        let frames = self.unit.number.saturating_add(1);
        self.substreams.fill(substream, frames);
        self.unit.add_frame(count, length, trim);
        self.raise_to_data();
    }

    fn add_delimiter(&mut self)
        ensures { AddsDelimiter self.old self.new }
    {
        let length = self.descriptors.length();
        self.unit.add_delimiter(length);
        self.raise_to_data();
    }

    fn add_block(&mut self, id: u32, own: Option<u32>)
        ensures { AddsBlock self.old self.new id own }
    {
        let time = self.time();
        self.blocks.add(id, own, time);
        self.unit.begin();
        self.raise_to_data();
    }

    fn add_element(
        &mut self,
        alloc: Global,
        id: u32,
        substreams: &[u32],
        channels: Option<&[u32]>,
        definitions: &[Definition],
    ) -> Result<(), AllocError>
        requires { All (λ d. MayDefine d.shape) definitions.now }
        ensures { OnOk result (AddsElement self.old self.new id substreams.now (option_map (λ b. b.now) channels.entry) (map view_definition definitions.now)) }
    {
        self.descriptors.add_element(id, channels)?;
        self.substreams.add(substreams, channels)?;
        self.blocks.define(alloc, definitions)?;
        Ok(())
    }

    fn add_mix(
        &mut self,
        alloc: Global,
        id: u32,
        elements: &[u32],
        sub_mixes: usize,
        definitions: &[Definition],
    ) -> Result<(), AllocError>
        requires { All (λ d. MayDefine d.shape) definitions.now }
        ensures { OnOk result (AddsMix self.old self.new id elements.now sub_mixes (map view_definition definitions.now)) }
    {
        self.descriptors.add_mix(id, elements, sub_mixes)?;
        self.blocks.define(alloc, definitions)?;
        Ok(())
    }

    /// Adds an OBU that has no fault. An `Err` comes only for an audio element and a mix presentation, where memory runs out,
    /// and leaves the rules standing for nothing.
    pub fn add(&mut self, alloc: Global, role: &Role<'_>) -> Result<(), AllocError>
        requires { CanDefine role.now }
        ensures stands { (l : List specs.Role) → Stands self.old l → length l < 2 ^ 40 → HasNoFault l (view_role role.now)
            → OnOk result (Stands self.new (l ++ view_role role.now ∷ [])) }
        ensures memory { OnErr result (is_descriptor (type_of_role (view_role role.now)) ≡ true) }
    {
        match role {
            Role::Ignored => Ok(()),
            Role::SequenceHeader { primary_profile } => {
                self.descriptors.add_header(*primary_profile);
                Ok(())
            }
            Role::CodecConfig(codec) => {
                self.descriptors.add_codec(*codec);
                Ok(())
            }
            Role::AudioElement {
                id,
                substreams,
                channels,
                definitions,
                ..
            } => {
                self.add_element(alloc, *id, substreams, *channels, definitions)?;
                Ok(())
            }
            Role::MixPresentation {
                id,
                elements,
                sub_mixes,
                definitions,
            } => {
                self.add_mix(alloc, *id, elements, *sub_mixes, definitions)?;
                Ok(())
            }
            Role::Delimiter => {
                self.add_delimiter();
                Ok(())
            }
            Role::ParameterBlock { id, duration } => {
                self.add_block(*id, *duration);
                Ok(())
            }
            Role::AudioFrame {
                substream,
                trim,
                ..
            } => {
                self.add_frame(*substream, *trim);
                Ok(())
            }
        }
    }

    /// What is wrong with a list that ends here.
    pub fn end_fault(&self) -> Option<Fault>
        ensures { (l : List specs.Role) → Stands self.now l → result ≡ end_fault l }
    {
        self.last_fault()
    }

    fn last_fault(&self) -> Option<Fault>
        ensures { result ≡ last_fault_of self.now }
    {
        let start = self.start_fault();
        if start.is_some() {
            return start;
        }
        self.unit.end_fault(self.substreams.len())
    }

    /// The number of samples of a channel in a frame, and 0 before the codec config.
    pub fn frame_length(&self) -> u16
        ensures { (l : List specs.Role) → Stands self.now l → result ≡ frame_length l }
    {
        self.descriptors.length()
    }

    /// The parameter definitions that blocks are read by.
    pub fn definitions(&self) -> &Definitions
        ensures { (l : List specs.Role) → Stands self.now l → result.now ≡ definitions l }
    {
        &self.blocks.definitions
    }

    /// The number of the temporal unit that is open, counted from 0: that of a frame or a block that comes next.
    pub fn unit_number(&self) -> u64
        ensures { (l : List specs.Role) → Stands self.now l → result ≡ open_unit l }
    {
        self.unit.number
    }

    /// How many temporal units are begun.
    pub fn units(&self) -> u64
        ensures { (l : List specs.Role) → Stands self.now l → result ≡ unit_count l }
    {
        self.unit.units()
    }

    /// The samples of a channel that all units keep.
    pub fn samples(&self) -> u64
        ensures { (l : List specs.Role) → Stands self.now l → result ≡ kept l }
    {
        self.unit.samples(self.descriptors.length())
    }

    /// Whether a mix of so many sub-mixes, which name these elements one sub-mix after the other, fits the primary profile.
    pub fn fits(&self, elements: &[u32], sub_mixes: usize) -> bool
        ensures { (l : List specs.Role) (m : specs.MixRole) → Stands self.now l → m.elements ≡ elements.now → m.sub_mixes ≡ sub_mixes
            → result ≡ fits l m }
    {
        sub_mixes == 1 && self.descriptors.fits(elements)
    }
}
