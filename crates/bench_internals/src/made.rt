//! Pseudorandom words and bits, which are the same in each run.

ghost use Rattle.std.specs.Prelude.{◌+◌, ◌≤◌, length, IfOk};

use sel_bits::bitmap::Bitmap;
use sel_bits::faults::{PolarsError, PolarsResult};
use std::alloc::Global;

/// The seeds of the left and the right side.
pub const LEFT: u64 = 1;

pub const RIGHT: u64 = 2;

fn next(state: u64) -> u64 {
    state
        .wrapping_mul(6_364_136_223_846_793_005)
        .wrapping_add(1_442_695_040_888_963_407)
}

/// Returns a pseudorandom word.
fn word_of(state: u64) -> u64 {
    let folded = (state ^ (state >> 32)).wrapping_mul(0xD6E8_FEB8_6659_FD93);
    folded ^ (folded >> 32)
}

/// Returns a word with one set bit in each of its four quarters.
fn word_of_four(word: u64) -> u64 {
    (1 << (word & 15))
        | (1 << (16 + (word >> 4 & 15)))
        | (1 << (32 + (word >> 8 & 15)))
        | (1 << (48 + (word >> 12 & 15)))
}

/// Returns `count` words.
pub fn words(alloc: Global, seed: u64, count: usize) -> PolarsResult<Vec<u64>> {
    let mut state = seed;
    let mut words = Vec::new(alloc);
    for _ in 0..count {
        state = next(state);
        words.push(word_of(state))?;
    }
    Ok(words)
}

/// Returns `count` words with four set bits each.
pub fn words_of_four(alloc: Global, seed: u64, count: usize) -> PolarsResult<Vec<u64>> {
    let mut state = seed;
    let mut words = Vec::new(alloc);
    for _ in 0..count {
        state = next(state);
        words.push(word_of_four(word_of(state)))?;
    }
    Ok(words)
}

/// Returns the bytes of `count` words in little-endian order.
fn bytes(alloc: Global, seed: u64, count: usize) -> PolarsResult<Vec<u8>> {
    let mut state = seed;
    let mut bytes = Vec::new(alloc);
    for _ in 0..count {
        state = next(state);
        for byte in word_of(state).to_le_bytes() {
            bytes.push(byte)?;
        }
    }
    Ok(bytes)
}

/// Returns the bits of one side, with 64 more bits for the odd repeats.
pub fn side(alloc: Global, seed: u64, offset: usize, rows: usize) -> PolarsResult<Bitmap>
    requires rows { rows ≤ 67108864 }
    requires offset { offset ≤ 64 }
    ensures { IfOk result (λ bitmap. offset + rows + 64 ≤ length bitmap.bits) }
{
    let len = offset + rows + 64;
    let bytes = bytes(alloc, seed, len / 64 + 1)?;
    if bytes.len() < len / 8 + 1 {
        return Err(PolarsError::OutOfMemory);
    }
    Bitmap::from_u8_vec(bytes, len)
}
