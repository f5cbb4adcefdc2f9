//! Partitions of coded residuals, and the samples that they give.
ghost use Rattle.std.specs.Prelude.{◌≡◌, ℕ, ◌+◌, ◌-◌, ◌*◌, ◌/◌, ◌%◌, ◌^◌, ◌<◌, ◌≤◌, ℤ, pos, ◌≤ℤ◌, length, take, unsigned_abs, OnOk, IfOk};
ghost use Rattle.spec_bits.specs.Form.{Number};
ghost use Rattle.spec_bits.specs.Cursor.{field_at};
ghost use Rattle.spec_syntax.specs.Reading.{read, Answers};
ghost use Rattle.spec_flac.specs.Faults.{short};
ghost use Rattle.spec_flac.specs.Residual.{samples, partition, partitions, residual};
ghost use Rattle.flac_bits.specs.Places.{Takes};
ghost use Rattle.flac_subframes.specs.Rows.{AreWithin};

use crate::code::{Code, Plain, Rice};
use crate::predictor::Predictor;
use crate::row::{rice_samples_from, samples_from};
use flac_bits::Reader;
use spec_flac::FlacFault;

/// The most low bits with which most codes are short.
const MOST_SHORT: u32 = 24;

/// A number of at most five bits.
fn small_from(reader: &mut Reader<'_>, count: u32) -> Result<u32, FlacFault>
    requires { count ≤ 5 }
    ensures takes { Takes (λ v. v) result reader.new (field_at (Number count) reader.old) }
    ensures fits { IfOk result (λ v. v < 2 ^ count) }
    ensures small { IfOk result (λ v. v < 32) }
{
    match reader.take(count) {
        Ok(value) => Ok(value as u32),
        Err(fault) => Err(fault),
    }
}

/// The parameter that says that the residuals are not in Rice codes.
fn escape(count: u32) -> u32
    requires { count ≤ 5 }
    ensures is { result ≡ 2 ^ count - 1 }
    ensures small { result < 32 }
{
    (1u32 << count) - 1
}

/// The samples of a partition.
fn partition_from<P: Predictor>(
    reader: &mut Reader<'_>,
    predictor: &P,
    half: i64,
    count: u32,
    row: &mut [i64],
    from: usize,
    to: usize,
) -> Result<(), FlacFault>
    requires count { count ≤ 5 }
    requires positive { pos 0 ≤ℤ half }
    requires half { unsigned_abs half ≤ 2 ^ 32 }
    requires order { P.order predictor.now ≤ from }
    requires range { from ≤ to }
    requires row { to ≤ length row.old }
    requires small { AreWithin half (take from row.old) }
    ensures gives { Answers (λ _. (take to row.new, reader.new)) result (read short (partition half (P.next predictor.now) count to (take from row.old)) reader.old) }
    ensures small { OnOk result (AreWithin half (take to row.new)) }
{
    let parameter = match small_from(reader, count) {
        Ok(parameter) => parameter,
        Err(fault) => return Err(fault),
    };
    if parameter == escape(count) {
        let width = match small_from(reader, 5) {
            Ok(width) => width,
            Err(fault) => return Err(fault),
        };
        return samples_from(reader, &Plain { width }, predictor, half, row, from, to);
    }
    if parameter <= MOST_SHORT {
        return rice_samples_from(reader, parameter, predictor, half, row, from, to);
    }
    samples_from(reader, &Rice { parameter }, predictor, half, row, from, to)
}

/// The samples of so many partitions, each up to a multiple of its size.
fn partitions_from<P: Predictor>(
    reader: &mut Reader<'_>,
    predictor: &P,
    half: i64,
    bits: u32,
    size: usize,
    count: usize,
    row: &mut [i64],
    from: usize,
) -> Result<(), FlacFault>
    requires bits { bits ≤ 5 }
    requires positive { pos 0 ≤ℤ half }
    requires half { unsigned_abs half ≤ 2 ^ 32 }
    requires order { P.order predictor.now ≤ from }
    requires some { 1 ≤ count }
    requires first { from ≤ size }
    requires row { size * count ≡ length row.old }
    requires small { AreWithin half (take from row.old) }
    ensures gives { Answers (λ _. (row.new, reader.new)) result (read short (partitions half (P.next predictor.now) bits size count (take from row.old)) reader.old) }
    ensures small { OnOk result (AreWithin half row.new) }
{
    let mut start = from;
    for i in 0..count {
        let end = size * (i + 1);
        match partition_from(reader, predictor, half, bits, row, start, end) {
            Ok(()) => start = end,
            Err(fault) => return Err(fault),
        }
    }
    Ok(())
}

/// How many partitions there are.
fn partition_count(order: u32) -> usize
    requires { order < 16 }
    ensures { result ≡ 2 ^ order }
{
    1usize << order
}

/// The samples of a row after its first, which are so many.
pub fn residual_from<P: Predictor>(
    reader: &mut Reader<'_>,
    predictor: &P,
    half: i64,
    row: &mut [i64],
    from: usize,
) -> Result<(), FlacFault>
    requires positive { pos 0 ≤ℤ half }
    requires half { unsigned_abs half ≤ 2 ^ 32 }
    requires order { P.order predictor.now ≤ from }
    requires row { from ≤ length row.old }
    requires small { AreWithin half (take from row.old) }
    ensures gives { Answers (λ _. (row.new, reader.new)) result (read short (residual half (P.next predictor.now) (length row.old) (take from row.old)) reader.old) }
    ensures small { OnOk result (AreWithin half row.new) }
{
    let method = match small_from(reader, 2) {
        Ok(method) => method,
        Err(fault) => return Err(fault),
    };
    if method > 1 {
        return Err(FlacFault::Residual);
    }
    let order = match small_from(reader, 4) {
        Ok(order) => order,
        Err(fault) => return Err(fault),
    };
    let count = partition_count(order);
    if row.len() % count != 0 {
        return Err(FlacFault::Residual);
    }
    let size = row.len() / count;
    if size < from {
        return Err(FlacFault::Residual);
    }
    partitions_from(reader, predictor, half, method + 4, size, count, row, from)
}
