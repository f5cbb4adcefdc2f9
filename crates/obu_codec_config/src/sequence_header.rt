ghost use Rattle.std.specs.Prelude.{◌≡◌, ◌++◌, IfOk};
ghost use Rattle.spec_bits.specs.Bits.{AreBytes, all_bits};
ghost use Rattle.spec_bits.specs.Cursor.{IsOnByte};
ghost use Rattle.spec_syntax.specs.Payload.{IsValid, canon};
ghost use Rattle.spec_syntax.specs.Reading.{read, start_of};
ghost use Rattle.spec_descriptors.specs.SequenceHeader.{sequence_header};
ghost use Rattle.spec_descriptors.specs.DescriptorFields.{sequence_header_fields};
ghost use Rattle.obu_codec_config.specs.Payloads.{GivesPayload};
ghost use Rattle.obu_codec_config.specs.HeaderView.{view_header};
ghost use Rattle.obu_timing.specs.Writing.{Puts};
ghost use Rattle.obu_codec_config.specs.WrittenPayloads.{AnswersHeader};

use iamf_bits::{Out, View};
use spec_descriptors::DescriptorFault;
use std::alloc::{AllocError, Global};

/// A sequence header (IAMF 1.0.0, "IA Sequence Header OBU Syntax and Semantics").
#[derive(Clone, Copy, Debug, PartialEq, Eq)]
pub struct SequenceHeader<'a> {
    /// `primary_profile`, which a reader must support: 0 is simple, 1 is base, and 2 is this project's own wide profile.
    pub primary: u8,
    /// `additional_profile`: another profile that the sequence meets.
    pub additional: u8,
    /// The bytes of the payload after the known fields.
    pub tail: &'a [u8],
}

impl<'a> SequenceHeader<'a> {
    /// Reads a payload. An error exactly where the payload begins with no sequence header: the fault of its
    /// first field that cannot be read or is not allowed.
    pub fn read(payload: &'a [u8]) -> Result<SequenceHeader<'a>, DescriptorFault>
        ensures exact { AnswersHeader result payload.now }
        ensures valid { IfOk result (λ h. IsValid sequence_header sequence_header_fields (view_header h)) }
        ensures reads { GivesPayload view_header (λ h. h.tail.now) result (read (λ f. DescriptorFault.Field f) sequence_header (start_of payload.now)) }
        ensures tail { IfOk result (λ h. AreBytes h.tail.now) }
    {
        SequenceHeader::read_from(&mut View::whole(payload))
    }

    #[tactic(auto, unfolding(spec_descriptors::specs::SequenceHeader::sequence_header))]
    fn read_from(view: &mut View<'a>) -> Result<SequenceHeader<'a>, DescriptorFault>
        requires { IsOnByte view.old }
        ensures gives { GivesPayload view_header (λ h. h.tail.now) result (read (λ f. DescriptorFault.Field f) sequence_header view.old) }
        ensures tail { IfOk result (λ h. AreBytes h.tail.now) }
    {
        if view.take_bits(32)? != 0x6961_6d66 {
            return Err(DescriptorFault::Code);
        }
        let primary = view.take_bits(8)? as u8;
        if primary > 2 {
            return Err(DescriptorFault::Profile);
        }
        let additional = view.take_bits(8)? as u8;
        Ok(SequenceHeader {
            primary,
            additional,
            tail: view.rest(),
        })
    }

    #[tactic(auto, using(spec_bits::proofs::JoinLaws::joins))]
    fn put_fields(&self, out: &mut Out) -> Result<(), AllocError>
        requires { out.old.used ≡ 0 }
        ensures { Puts result out.old out.new (sequence_header_fields (view_header self.now)) }
    {
        out.put_bits(0x6961_6d66, 32)?;
        out.put_bits(u32::from(self.primary), 8)?;
        out.put_bits(u32::from(self.additional), 8)?;
        Ok(())
    }

    /// Writes the fields of a record canonically, without the tail. An error only where memory runs out.
    pub fn write_fields(&self, alloc: Global) -> Result<Vec<u8>, AllocError>
        ensures { IfOk result (λ v. all_bits v.items ≡ canon (sequence_header_fields (view_header self.now))) }
    {
        let mut out = Out::new(alloc);
        self.put_fields(&mut out)?;
        Ok(out.finish())
    }

    /// Writes the canonical payload of a valid record: the fields in their shortest spelling, and then the tail.
    /// An error only where memory runs out.
    #[tactic(auto, using(obu_timing::proofs::Spelling::bytes_spelled))]
    pub fn write(&self, alloc: Global) -> Result<Vec<u8>, AllocError>
        requires { IsValid sequence_header sequence_header_fields (view_header self.now) }
        ensures { IfOk result (λ v. all_bits v.items ≡ canon (sequence_header_fields (view_header self.now)) ++ all_bits self.now.tail.now) }
    {
        let mut out = Out::new(alloc);
        self.put_fields(&mut out)?;
        out.put_bytes(self.tail)?;
        Ok(out.finish())
    }
}
