//! The ways in which residuals are coded (RFC 9639, section 9.2.7).
ghost use Rattle.std.specs.Prelude.{◌≡◌, ◌^◌, ◌<◌, ℤ, unsigned_abs, IfOk};
ghost use Rattle.spec_syntax.specs.Syntax.{Syntax};
ghost use Rattle.spec_syntax.specs.Reading.{read, Answers};
ghost use Rattle.spec_flac.specs.declared.fault.FlacFault.{FlacFault};
ghost use Rattle.spec_flac.specs.Faults.{short};
ghost use Rattle.spec_flac.specs.Residual.{coded_residual, plain_residual};

use flac_bits::Reader;
use spec_flac::FlacFault;

/// How a residual is coded.
pub trait Code {
    ghost residual: { Self → Syntax FlacFault ℤ };

    /// The next residual.
    fn residual_from(&self, reader: &mut Reader<'_>) -> Result<i64, FlacFault>
        ensures gives { Answers (λ r. (r, reader.new)) result (read short (residual self.now) reader.old) }
        ensures small { IfOk result (λ r. unsigned_abs r < 2 ^ 31) };
}

/// Rice codes with so many low bits.
#[derive(Drop)]
pub struct Rice {
    pub parameter: u32,
    ghost few: { parameter < 31 },
}

/// Numbers of so many bits.
#[derive(Drop)]
pub struct Plain {
    pub width: u32,
    ghost few: { width < 32 },
}

impl Code for Rice {
    ghost residual = { λ c. coded_residual c.parameter };

    #[inline(always)]
    fn residual_from(&self, reader: &mut Reader<'_>) -> Result<i64, FlacFault> {
        reader.take_residual(self.parameter)
    }
}

impl Code for Plain {
    ghost residual = { λ c. plain_residual c.width };

    #[inline(always)]
    fn residual_from(&self, reader: &mut Reader<'_>) -> Result<i64, FlacFault> {
        plain_residual_from(reader, self.width)
    }
}

// A number of so many bits.
#[inline(always)]
fn plain_residual_from(reader: &mut Reader<'_>, width: u32) -> Result<i64, FlacFault>
    requires { width < 32 }
    ensures gives { Answers (λ r. (r, reader.new)) result (read short (plain_residual width) reader.old) }
    ensures small { IfOk result (λ r. unsigned_abs r < 2 ^ 31) }
{
    match reader.take_signed(width) {
        Ok(value) => Ok(value),
        Err(fault) => Err(fault),
    }
}
