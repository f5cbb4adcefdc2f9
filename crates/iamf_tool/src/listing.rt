ghost use Rattle.std.specs.Prelude.{[], ◌∷◌, ◌≡◌, ◌≤◌, ◌-◌, ◌++◌, IfOk, OnOk};
ghost use Rattle.std.specs.Fmt.{decimal};
ghost use Rattle.spec_obu.specs.Listing.{line, mark};
ghost use Rattle.obu_header.specs.View.{head_of};
ghost use Rattle.iamf_tool.specs.Outcome.{ListingGives};
ghost use Rattle.iamf_tool.specs.Answers.{view_answer};

use crate::answer::Answer;
use itoa::Buffer;
use obu_header::{ObuView, read_obu};
use std::alloc::{AllocError, Global};

// The letter where there is the flag, else a dash.
fn mark(letter: u8, there: bool) -> u8
    ensures { result ∷ [] ≡ mark letter there }
{
    if there { letter } else { b'-' }
}

// Appends the number and a space.
fn push_number(text: &mut Vec<u8>, number: usize) -> Result<(), AllocError>
    ensures { OnOk result (text.new.items ≡ text.old.items ++ (decimal number ++ 32 ∷ [])) }
{
    let mut digits = Buffer::new();
    text.extend_from_slice(digits.format(number).as_bytes())?;
    text.push(b' ')?;
    Ok(())
}

// Appends the line of one OBU.
fn push_line(text: &mut Vec<u8>, obu: &ObuView<'_>) -> Result<(), AllocError>
    requires { obu.now.at ≤ obu.now.end }
    ensures { OnOk result (text.new.items
        ≡ text.old.items ++ line obu.now.at (head_of obu.now.head) (obu.now.end - obu.now.at)) }
{
    push_number(text, obu.at)?;
    push_number(text, usize::from(obu.head.kind))?;
    push_number(text, obu.end - obu.at)?;
    let redundant = mark(b'r', obu.head.redundant);
    let trimmed = mark(b't', obu.head.trim.is_some());
    let extended = mark(b'x', obu.head.extension.is_some());
    text.extend_from_slice(&[redundant, trimmed, extended, b'\n'])?;
    Ok(())
}

/// One line for each OBU, or the first faulty header.
pub fn list_lines(alloc: Global, bytes: &[u8]) -> Result<Answer, AllocError>
    ensures { IfOk result (λ a. ListingGives bytes.now (view_answer a)) }
{
    let mut text = Vec::new(alloc);
    let mut at = 0usize;
    while at < bytes.len() {
        let obu = match read_obu(bytes, at) {
            Ok(obu) => obu,
            Err(fault) => {
                let code = u32::from(fault.code());
                return Ok(Answer::Refusal {
                    at: at as u64,
                    code,
                });
            }
        };
        push_line(&mut text, &obu)?;
        at = obu.end;
    }
    Ok(Answer::Output(text))
}
