//! Little-endian loads, prefix parities, and indices that count from the end.

ghost use Rattle.std.specs.Prelude.{◌≡◌, ℕ, ◌/◌, ◌%◌, ◌<◌, get_or};
ghost use Rattle.std.specs.Int.{bit_at};
ghost use Rattle.sel_bits.specs.Place.{place};
ghost use Rattle.sel_bits.specs.Words.{padded_word, ones_below};

/// Returns the first eight bytes as a little-endian integer; missing bytes count as 0.
#[inline]
pub fn load_padded_le_u64(bytes: &[u8]) -> u64
    ensures value { result ≡ padded_word bytes.now }
    ensures bits { (i : ℕ) → i < 64 →
        bit_at result i ≡ bit_at (get_or bytes.now (i / 8) 0) (i % 8) }
{
    match bytes.split_first_chunk::<8>() {
        Some((eight, _)) => u64::from_le_bytes(*eight),
        None => load_few(bytes),
    }
}

/// Returns the same as `load_padded_le_u64`, by a copy of up to eight bytes.
#[tactic(auto, using(crate::proofs::Padded::padded_of, crate::proofs::Padded::bit_at_padded))]
fn load_few(bytes: &[u8]) -> u64
    ensures value { result ≡ padded_word bytes.now }
    ensures bits { (i : ℕ) → i < 64 →
        bit_at result i ≡ bit_at (get_or bytes.now (i / 8) 0) (i % 8) }
{
    let mut eight = [0u8; 8];
    let count = bytes.len().min(8);
    eight[..count].copy_from_slice(&bytes[..count]);
    u64::from_le_bytes(eight)
}

/// Returns the position of `index` in a list of `len` entries, or `None` if it is out of bounds.
///
/// A negative index counts from the end.
pub fn negative_to_usize(index: i64, len: usize) -> Option<usize>
    ensures { result ≡ place index len }
{
    if index < 0 {
        return len.checked_sub(index.unsigned_abs() as usize);
    }
    let at = index as usize;
    if at < len { Some(at) } else { None }
}

/// Returns the word whose bit p is the parity of the bits of `x` below bit p.
#[tactic(auto, using(crate::proofs::Prefix::shift_fits, crate::proofs::Prefix::summed_first, crate::proofs::Prefix::summed_step, crate::proofs::Prefix::summed_last))]
pub fn prefix_xorsum(x: u64) -> u64
    ensures { (p : ℕ) → p < 64 → bit_at result p ≡ ones_below x p % 2 }
{
    let mut sum = x;
    for i in 0u32..6 {
        sum ^= sum << (1u32 << i);
    }
    sum << 1
}
