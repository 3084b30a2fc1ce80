// Multi-byte integers, WAP 4.3.1: seven payload bits a byte, most significant first; bit 7 says that more follow.
#![tactic(auto)]

ghost use Rattle.std.specs.Prelude.{◌≡◌, true, false, ◌&&◌, length, ◌==◌};
ghost use Rattle.error.specs.Answer.{answered, gives, written};
ghost use Rattle.error.specs.Emits.{Emits};
ghost use Rattle.mbi.specs.Bytes.{mbi_bytes};
ghost use Rattle.mbi.specs.Read.{read_mbi};
ghost use Rattle.mbi.specs.Internal.Step.{MbiStepped};

use error::{Refusal, Result, WbmpError};
use std::ops::ControlFlow;

// What one byte more does to an integer: it goes on with a value, or ends with it.
pub type MbiStep = ControlFlow<u32, u32>;

// An integer has at most this many bytes: the five of the largest, and two 0x80s before them.
pub const MAX_MBI_BYTES: u8 = 7;

// The byte at an offset, where `count` bytes before it have given `value`. `after` wraps only at the last `usize`, where no byte stands.
#[tactic(auto, using(std::proofs::lemmas::Bool::Decides::nat_tests), unfolding(crate::specs::Read::read_byte))]
pub fn mbi_step(strict: bool, at: usize, value: u32, count: u8, byte: u8) -> Result<MbiStep>
    ensures { MbiStepped strict at value count byte result }
{
    if strict && count == 0 && byte == 128 {
        return Err(WbmpError::new(Refusal::MbiNotShortest, at));
    }
    let after = at.wrapping_add(1);
    let value = u64::from(value) * 128 + u64::from(byte % 128);
    // No `try_from`: what it returns would make the compiler keep the low byte of each value apart.
    if value > u64::from(u32::MAX) {
        return Err(WbmpError::new(Refusal::MbiOverflow, after));
    }
    if count >= MAX_MBI_BYTES {
        return Err(WbmpError::new(Refusal::MbiTooLong, after));
    }
    let value = value as u32;
    Ok(if byte < 128 {
        ControlFlow::Break(value)
    } else {
        ControlFlow::Continue(value)
    })
}

// The integer at any offset, also one past the end of the bytes; strict asks for its smallest encoding.
pub fn read_mbi(strict: bool, bytes: &[u8], offset: usize) -> Result<(u32, usize)>
    ensures { answered result ≡ read_mbi strict bytes.now offset }
{
    let mut value: u32 = 0;
    // Not `enumerate`: `mbi_step` takes the u8 that a reader byte by byte keeps.
    let mut count: u8 = 0;
    for at in offset..bytes.len() {
        match mbi_step(strict, at, value, count, bytes[at])? {
            ControlFlow::Continue(v) => value = v,
            ControlFlow::Break(v) => return Ok((v, at + 1)),
        }
        count += 1;
    }
    Err(WbmpError::new(Refusal::MbiTruncated, offset.max(bytes.len())))
}

// An integer of at most 7 bytes; leading 0x80s are accepted. A name of the Rust ("names included", the tender).
pub fn read_mbi_u32(bytes: &[u8], offset: usize) -> Result<(u32, usize)>
    ensures { answered result ≡ read_mbi false bytes.now offset }
{
    read_mbi(false, bytes, offset)
}

// An integer in its smallest encoding. A name of the Rust, as above.
pub fn read_mbi_u32_strict(bytes: &[u8], offset: usize) -> Result<(u32, usize)>
    ensures { answered result ≡ read_mbi true bytes.now offset }
{
    read_mbi(true, bytes, offset)
}

// How many bytes the writer writes: one for each seven bits or the rest of them, and one for 0.
#[tactic(auto, using(crate::proofs::Length::length_bits))]
pub fn mbi_u32_len(value: u32) -> usize
    ensures { result ≡ length (mbi_bytes value) }
{
    1 + value.max(1).ilog2() as usize / 7
}

// The smallest encoding, at the front of the output; nothing is written where it does not fit.
#[tactic(auto, using(crate::proofs::Length::bytes_one))]
pub fn write_mbi_u32(value: u32, out: &mut [u8]) -> Result<usize>
    ensures { Emits (gives (mbi_bytes value)) (written result) out.old out.new }
{
    let n = mbi_u32_len(value);
    if out.len() < n {
        return Err(WbmpError::new(Refusal::OutputTooShort, 0));
    }
    out[n - 1] = (value % 128) as u8;
    let mut v = value / 128;
    // By index: over `iter_mut().rev()` the proof needs the items so far, where `k` alone says how far the writing is.
    for k in (0..n - 1).rev() {
        out[k] = (128 + v % 128) as u8;
        v /= 128;
    }
    Ok(n)
}
