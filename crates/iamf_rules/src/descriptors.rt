ghost use Rattle.std.specs.Prelude.{◌≡◌, ℕ, ◌+◌, ◌^◌, ◌<◌, ◌==◌, ◌&&◌, ◌||◌, max, true, false, length, Some, None, OnOk, List};
ghost use Rattle.std.specs.Option.{option_map};
ghost use Rattle.std.specs.Ordering.{nat_cmp};
ghost use Rattle.std.specs.BTreeMap.{get, btree_map_len, Updates};
ghost use Rattle.std.specs.BTreeSet as set;
ghost use Rattle.spec_rules.specs.Role.{ElementRole};
ghost use Rattle.spec_rules.specs.Profile.{fits_channels, channels_of_sub_mix};
ghost use Rattle.iamf_rules.specs.Totals.{total_of, HasTotals};
ghost use Rattle.iamf_rules.specs.Coding.{CanDecodeFor, KeepsRoom};

use crate::channels;
use crate::coded::coded_fault;
use crate::finding::unknown;
use iamf_bits::Planes;
use spec_rules::CodecRole;
use spec_values::Fault;
use std::alloc::{AllocError, Global};
use std::collections::{BTreeMap, BTreeSet};

/// What the descriptors of a list say, but for their substreams and parameters.
#[derive(Drop)]
pub(crate) struct Descriptors {
    /// The primary profile of the sequence header.
    pub(crate) profile: Option<u8>,
    /// The highest rank of an OBU: 1 to 4 for the types of descriptors in their order, and 5 for data OBUs.
    pub(crate) rank: u8,
    pub(crate) codec: Option<CodecRole>,
    /// The numbers of coded channels of the elements, where they are known.
    pub(crate) elements: BTreeMap<u32, Option<u32>>,
    pub(crate) mixes: BTreeSet<u32>,
    /// Whether one of the mixes fits the profile.
    pub(crate) has_fit: bool,
}

impl Descriptors {
    ghost use Rattle.iamf_rules.specs.DescriptorSteps.{primary_of, length_of, rate_of, whole_fault_of, order_fault_of, header_fault_of, codec_fault_of, unknown_codec, coded_fault_of, raised, with_header, with_codec};

    /// Of no OBU.
    pub(crate) fn new(alloc: Global) -> Descriptors
        ensures profile { result.profile ≡ None }
        ensures rank { result.rank ≡ 0 }
        ensures codec { result.codec ≡ None }
        ensures elements { (id : ℕ) → get nat_cmp result.elements id ≡ None }
        ensures element_count { btree_map_len result.elements ≡ 0 }
        ensures mixes { (id : ℕ) → set.contains nat_cmp result.mixes id ≡ false }
        ensures mix_count { set.btree_set_len result.mixes ≡ 0 }
        ensures fit { result.has_fit ≡ false }
    {
        Descriptors {
            profile: None,
            rank: 0,
            codec: None,
            elements: BTreeMap::new(alloc),
            mixes: BTreeSet::new(alloc),
            has_fit: false,
        }
    }

    /// The primary profile, and 0 without a sequence header.
    fn primary(&self) -> u8
        ensures { result ≡ primary_of self.now }
    {
        match self.profile {
            Some(profile) => profile,
            None => 0,
        }
    }

    /// The frame length, and 0 without a codec config.
    pub(crate) fn length(&self) -> u16
        ensures { result ≡ length_of self.now }
    {
        match self.codec {
            Some(codec) => codec.frame_length,
            None => 0,
        }
    }

    /// The samples of a channel in a second, and 0 without a codec config.
    pub(crate) fn rate(&self) -> u32
        ensures { result ≡ rate_of self.now }
    {
        match self.codec {
            Some(codec) => codec.rate,
            None => 0,
        }
    }

    /// What is missing before a data OBU.
    pub(crate) fn whole_fault(&self) -> Option<Fault>
        ensures { result ≡ whole_fault_of self.now }
    {
        if self.profile.is_none()
            || self.codec.is_none()
            || self.elements.is_empty()
            || self.mixes.is_empty()
        {
            return Some(Fault::Incomplete);
        }
        if !self.has_fit {
            return Some(Fault::NoMixFits);
        }
        None
    }

    /// Whether a descriptor of the rank stands out of its place.
    pub(crate) fn order_fault(&self, rank: u8) -> Option<Fault>
        ensures { result ≡ order_fault_of self.now rank }
    {
        if self.profile.is_none() || rank < self.rank {
            return Some(Fault::Order);
        }
        None
    }

    /// Whether a sequence header would be a second one.
    pub(crate) fn header_fault(&self) -> Option<Fault>
        ensures { result ≡ header_fault_of self.now }
    {
        if self.profile.is_some() {
            return Some(Fault::SecondSequence);
        }
        None
    }

    /// What is wrong with a codec config.
    pub(crate) fn codec_fault(&self, id: u32) -> Option<Fault>
        ensures { result ≡ codec_fault_of self.now id }
    {
        if self.codec.is_some() {
            return Some(Fault::Repeated(id));
        }
        None
    }

    /// Whether an element names another codec config.
    pub(crate) fn codec_unknown(&self, codec: u32) -> Option<Fault>
        ensures { result ≡ unknown_codec self.now.codec codec }
    {
        match self.codec {
            Some(known) if known.id == codec => None,
            _ => Some(Fault::Unknown(codec)),
        }
    }

    /// What is wrong with the bytes of a frame, of a substream whose number of channels may be known.
    pub(crate) fn coded_fault(
        &self,
        channels: Option<u32>,
        bytes: &[u8],
        planes: &mut Option<Planes>,
    ) -> Option<Fault>
        ensures fault { CanDecodeFor self.now.codec channels planes.old → result ≡ coded_fault_of self.now channels bytes.now }
        ensures room { KeepsRoom planes.old planes.new }
    {
        match self.codec {
            Some(codec) => coded_fault(&codec, channels, bytes, planes),
            None => None,
        }
    }

    /// Whether elements in one sub-mix fit the profile.
    pub(crate) fn fits(&self, elements: &[u32]) -> bool
        ensures { (es : List ElementRole) → HasTotals self.now.elements es
            → result ≡ fits_channels (primary_of self.now) (length elements.now) (channels_of_sub_mix es elements.now) }
    {
        match channels::of_elements(&self.elements, elements) {
            Some(total) => channels::is_within(self.primary(), elements.len(), total),
            None => false,
        }
    }

    /// Raises the rank.
    pub(crate) fn raise(&mut self, rank: u8)
        ensures { self.new ≡ raised self.old rank }
    {
        self.rank = self.rank.max(rank);
    }

    /// Adds a sequence header.
    pub(crate) fn add_header(&mut self, primary_profile: u8)
        ensures { self.new ≡ with_header self.old primary_profile }
    {
        self.profile = Some(primary_profile);
        self.raise(1);
    }

    /// Adds a codec config.
    pub(crate) fn add_codec(&mut self, codec: CodecRole)
        ensures added { self.new ≡ with_codec self.old codec }
        ensures short { codec.frame_length < 2 ^ 16 }
    {
        self.codec = Some(codec);
        self.raise(2);
    }

    /// Adds an element. `channels` are those of its substreams, where they are known. An `Err` comes only where memory
    /// runs out.
    pub(crate) fn add_element(
        &mut self,
        id: u32,
        channels: Option<&[u32]>,
    ) -> Result<(), AllocError>
        ensures rest { OnOk result (self.new ≡ record self.old { elements = self.new.elements; rank = max self.old.rank 3 }) }
        ensures elements { OnOk result (Updates nat_cmp self.old.elements self.new.elements id (Some (option_map (λ b. total_of b.now) channels.entry))) }
        ensures count { OnOk result (get nat_cmp self.old.elements id ≡ None → btree_map_len self.new.elements ≡ btree_map_len self.old.elements + 1) }
    {
        match self.elements.insert(id, channels::of_element(channels)) {
            Ok(_) => {}
            Err(_) => return Err(AllocError),
        }
        self.raise(3);
        Ok(())
    }

    /// Adds a mix of so many sub-mixes, which name these elements. An `Err` comes only where memory runs out.
    pub(crate) fn add_mix(
        &mut self,
        id: u32,
        elements: &[u32],
        sub_mixes: usize,
    ) -> Result<(), AllocError>
        ensures rest { OnOk result (self.new ≡ record self.old { mixes = self.new.mixes; has_fit = self.new.has_fit; rank = max self.old.rank 4 }) }
        ensures mixes { OnOk result (set.Updates nat_cmp self.old.mixes self.new.mixes id true) }
        ensures count { OnOk result (set.contains nat_cmp self.old.mixes id ≡ false → set.btree_set_len self.new.mixes ≡ set.btree_set_len self.old.mixes + 1) }
        ensures fit { OnOk result ((es : List ElementRole) → HasTotals self.old.elements es
            → self.new.has_fit ≡ (self.old.has_fit || (sub_mixes == 1 && fits_channels (primary_of self.old) (length elements.now) (channels_of_sub_mix es elements.now)))) }
    {
        let fits = sub_mixes == 1 && self.fits(elements);
        match self.mixes.insert(id) {
            Ok(_) => {}
            Err(_) => return Err(AllocError),
        }
        self.has_fit = self.has_fit || fits;
        self.raise(4);
        Ok(())
    }
}
