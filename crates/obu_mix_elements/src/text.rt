//! Labels in several languages (IAMF 1.0.0, "Mix Presentation OBU Syntax and Semantics").

ghost use Rattle.std.specs.Prelude.{◌≡◌, [], map};
ghost use Rattle.spec_bits.specs.Cursor.{IsOnByte};
ghost use Rattle.spec_syntax.specs.Reading.{read};
ghost use Rattle.spec_descriptors.specs.MixPresentation.{texts};
ghost use Rattle.iamf_bits.specs.Outcome.{ReadsPart};
ghost use Rattle.spec_syntax.specs.Repetition.{joined};
ghost use Rattle.spec_descriptors.specs.MixFields.{text_fields};
ghost use Rattle.spec_syntax.specs.Fitting.{AllFit};
ghost use Rattle.obu_timing.specs.Writing.{Puts};

use crate::MixError;
use iamf_bits::{Out, View};
use smallvec::SmallVec;
use spec_descriptors::MixFault;
use std::alloc::{AllocError, Global};

/// Reads so many texts, each without the zero byte that ends it.
///
/// `Fault` comes exactly where the payload does not go on with these, and is the first fault; `Memory` only where memory
/// runs out.
#[tactic(auto, using(spec_syntax::proofs::Reading::each_steps), unfolding(spec_descriptors::specs::MixPresentation::texts))]
pub fn texts_of<'a>(
    alloc: Global,
    view: &mut View<'a>,
    count: u32,
) -> Result<SmallVec<&'a [u8], 2>, MixError>
    requires { IsOnByte view.old }
    ensures { ReadsPart (λ v. map (λ t. t.now) v.items) result view.new (read (λ f. MixFault.Field f) (texts count) view.old) }
{
    let mut texts = SmallVec::new(alloc);
    for _ in 0..count {
        let text = view.take_text()?;
        texts.push(text)?;
    }
    Ok(texts)
}

/// Puts the texts, each with a zero byte after it. An error only where memory runs out.
pub fn put_texts(out: &mut Out, texts: &[&[u8]]) -> Result<(), AllocError>
    requires used { out.old.used ≡ 0 }
    requires fits { AllFit (joined (λ t. text_fields t.now) texts.now) }
    ensures { Puts result out.old out.new (joined (λ t. text_fields t.now) texts.now) }
{
    for text in texts {
        out.put_text(text)?;
    }
    Ok(())
}
