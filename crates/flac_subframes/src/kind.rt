//! Headers of subframes.
ghost use Rattle.std.specs.Prelude.{◌≡◌, ℕ, ◌+◌, ◌-◌, ◌^◌, ◌<◌, ◌≤◌, false, length, IfOk};
ghost use Rattle.spec_syntax.specs.Reading.{read, Answers};
ghost use Rattle.spec_flac.specs.Faults.{short};
ghost use Rattle.spec_flac.specs.Subframe as table;

use flac_bits::Reader;
use spec_flac::FlacFault;

/// Whether no subframe is of the kind.
fn reserved(kind: u64) -> bool
    ensures { result ≡ table.is_reserved kind }
{
    1 < kind && kind < 8 || 12 < kind && kind < 32
}

/// How many warm-up samples a subframe of the kind has.
pub fn order(kind: u64) -> u64
    ensures { result ≡ table.order_of kind }
{
    if kind < 8 {
        0
    } else if kind < 32 {
        kind - 8
    } else {
        kind - 31
    }
}

/// The kind of a subframe of so many samples.
#[tactic(auto, unfolding(spec_flac::specs::Subframe::subframe_kind))]
pub fn kind_from(reader: &mut Reader<'_>, block_size: usize) -> Result<u64, FlacFault>
    ensures gives { Answers (λ k. (k, reader.new)) result (read short (table.subframe_kind block_size) reader.old) }
    ensures few { IfOk result (λ k. k < 64) }
    ensures known { IfOk result (λ k. table.is_reserved k ≡ false) }
    ensures order { IfOk result (λ k. table.order_of k ≤ block_size) }
{
    let zero = match reader.take(1) {
        Ok(zero) => zero,
        Err(fault) => return Err(fault),
    };
    if zero != 0 {
        return Err(FlacFault::Subframe);
    }
    let kind = match reader.take(6) {
        Ok(kind) => kind,
        Err(fault) => return Err(fault),
    };
    if reserved(kind) {
        return Err(FlacFault::Subframe);
    }
    if (block_size as u64) < order(kind) {
        return Err(FlacFault::Subframe);
    }
    Ok(kind)
}

/// How many bits of each sample are wasted.
#[tactic(auto, unfolding(spec_flac::specs::Subframe::wasted_bits))]
pub fn wasted_from(reader: &mut Reader<'_>, depth: u32) -> Result<u32, FlacFault>
    requires low { 1 ≤ depth }
    requires high { depth ≤ 33 }
    ensures gives { Answers (λ k. (k, reader.new)) result (read short (table.wasted_bits depth) reader.old) }
    ensures below { IfOk result (λ k. k < depth) }
{
    let flag = match reader.take(1) {
        Ok(flag) => flag,
        Err(fault) => return Err(fault),
    };
    if flag != 1 {
        return Ok(0);
    }
    let zeros = match reader.take_zeros() {
        Ok(zeros) => zeros,
        Err(fault) => return Err(fault),
    };
    if zeros >= u64::from(depth) - 1 {
        return Err(FlacFault::Subframe);
    }
    Ok(zeros as u32 + 1)
}
