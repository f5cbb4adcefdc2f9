//! Frames that are spelled field by field, in the order of RFC 9639, section 9.

use crate::{FlacFault, FlacShape, decode_frame};
use iamf_bits::Planes;
use std::alloc::{AllocError, Global};
use std::process::Abort;
use std::test::*;

mod faults;
mod headers;
mod stereo;
mod stock;
mod subframes;

/// A field, or a checksum over the bits before it.
#[derive(Clone, Copy)]
enum Part {
    /// A number of so many bits.
    Bits(u32, u64),
    /// So many zeros and a one.
    Zeros(u32),
    Crc8,
    /// Zeros up to a byte, and the checksum of the frame.
    End,
}

use Part::{Bits, Crc8, End, Zeros};

/// The remainder of bits by x^8 + x^2 + x + 1, one bit after the other.
fn crc8(bits: &[u8]) -> u64 {
    let mut register = 0u64;
    for bit in bits {
        let differs = register / 128 % 2 != u64::from(*bit);
        register = register.wrapping_mul(2) % 256;
        if differs {
            register ^= 0x07;
        }
    }
    register
}

/// The remainder of bits by x^16 + x^15 + x^2 + 1, one bit after the other.
fn crc16(bits: &[u8]) -> u64 {
    let mut register = 0u64;
    for bit in bits {
        let differs = register / 32768 % 2 != u64::from(*bit);
        register = register.wrapping_mul(2) % 65536;
        if differs {
            register ^= 0x8005;
        }
    }
    register
}

/// The bits of a frame, one a byte.
#[derive(Drop)]
struct Spelling {
    bits: Vec<u8>,
}

impl Spelling {
    fn put_bits(&mut self, count: u32, value: u64) -> Result<(), AllocError> {
        for i in (0..count.min(64)).rev() {
            self.bits.push(((value >> i) % 2) as u8)?;
        }
        Ok(())
    }

    fn put_zeros(&mut self, count: u32) -> Result<(), AllocError> {
        for _ in 0..count {
            self.bits.push(0)?;
        }
        Ok(())
    }

    fn put(&mut self, parts: &[Part]) -> Result<(), AllocError> {
        for part in parts {
            match *part {
                Bits(count, value) => self.put_bits(count, value)?,
                Zeros(count) => {
                    self.put_zeros(count)?;
                    self.bits.push(1)?;
                }
                Crc8 => {
                    let crc = crc8(self.bits.as_slice());
                    self.put_bits(8, crc)?;
                }
                End => {
                    let missing = (8 - (self.bits.len() % 8) as u32) % 8;
                    self.put_zeros(missing)?;
                    let crc = crc16(self.bits.as_slice());
                    self.put_bits(16, crc)?;
                }
            }
        }
        Ok(())
    }

    /// The whole bytes.
    fn bytes(&self, alloc: Global) -> Result<Vec<u8>, AllocError> {
        let mut bytes = Vec::new(alloc);
        let mut byte = 0u8;
        let mut count = 0u8;
        for bit in &self.bits {
            byte = byte.wrapping_mul(2).wrapping_add(*bit);
            count = count.wrapping_add(1);
            if count == 8 {
                bytes.push(byte)?;
                byte = 0;
                count = 0;
            }
        }
        Ok(bytes)
    }
}

/// The bytes of a frame whose header is `head`.
fn spelled(
    alloc: Global,
    head: &[Part],
    parts: &[Part],
    end: &[Part],
) -> Result<Vec<u8>, AllocError> {
    let mut spelling = Spelling {
        bits: Vec::new(alloc),
    };
    spelling.put(head)?;
    spelling.put(parts)?;
    spelling.put(end)?;
    spelling.bytes(alloc)
}

/// A shape at 48000 samples a second.
fn shape(depth: u8, channels: u8, length: u32) -> FlacShape {
    FlacShape {
        depth,
        rate: 48000,
        channels,
        length,
    }
}

/// The header of a frame of at most 256 samples at 48000 samples a second, with a channels code and a depth code.
fn header(channels: u64, depth: u64, length: u64) -> [Part; 9] {
    [
        Bits(14, 0x3ffe),
        Bits(2, 0),
        Bits(8, 0x6a),
        Bits(4, channels),
        Bits(3, depth),
        Bits(1, 0),
        Bits(8, 0),
        Bits(8, length.wrapping_sub(1)),
        Crc8,
    ]
}

/// The same with a first subframe of 16 bits after it, all of whose samples are 3.
fn header_and_threes(length: u64) -> [Part; 11] {
    [
        Bits(14, 0x3ffe),
        Bits(2, 0),
        Bits(8, 0x6a),
        Bits(4, 1),
        Bits(3, 4),
        Bits(1, 0),
        Bits(8, 0),
        Bits(8, length.wrapping_sub(1)),
        Crc8,
        Bits(8, 0),
        Bits(16, 3),
    ]
}

/// Planes of the shape's size, and what decoding the bytes into them answers.
fn decoded(
    rt: &impl Abort,
    alloc: Global,
    bytes: &[u8],
    shape: FlacShape,
) -> Result<(Planes, Result<(), FlacFault>), AllocError> {
    assert!(rt; shape.channels == 1 || shape.channels == 2);
    assert!(rt; shape.depth >= 1 && shape.depth <= 32);
    assert!(rt; shape.length <= 65535);
    let mut planes = Planes::new(alloc, shape.channels as usize, shape.length as usize)?;
    let answer = decode_frame(bytes, shape, &mut planes);
    Ok((planes, answer))
}

fn expect_row(rt: &impl Abort, name: &str, planes: &Planes, c: usize, row: &[i64]) {
    assert!(rt; c < planes.channels(), "{name}");
    assert_eq!(rt; row.len(), planes.length(), "{name}");
    for (n, sample) in row.iter().enumerate() {
        assert!(rt; c < planes.channels() && n < planes.length());
        assert_eq!(rt; planes.at(c, n), *sample, "{name}, row {c}, sample {n}");
    }
}

/// The bytes are a frame with these samples; `right` is empty where there is one channel.
fn expect_rows(
    rt: &impl Abort,
    alloc: Global,
    name: &str,
    bytes: &[u8],
    shape: FlacShape,
    left: &[i64],
    right: &[i64],
) -> Result<(), AllocError> {
    let (planes, answer) = decoded(rt, alloc, bytes, shape)?;
    assert_eq!(rt; answer, Ok(()), "{name}");
    expect_row(rt, name, &planes, 0, left);
    if shape.channels == 2 {
        expect_row(rt, name, &planes, 1, right);
    }
    Ok(())
}

/// The bytes have this first fault.
fn expect_fault(
    rt: &impl Abort,
    alloc: Global,
    name: &str,
    bytes: &[u8],
    shape: FlacShape,
    fault: FlacFault,
) -> Result<(), AllocError> {
    let (_planes, answer) = decoded(rt, alloc, bytes, shape)?;
    assert_eq!(rt; answer, Err(fault), "{name}");
    Ok(())
}
