//! Words of up to 64 bits from any bit of a byte slice, and the number of set bits of a slice.

ghost use Rattle.std.specs.Prelude.{◌≡◌, ℕ, ◌+◌, ◌*◌, ◌%◌, ◌^◌, ◌<◌, ◌≤◌, length, drop};
ghost use Rattle.sel_bits.specs.Bits.{bits_from, count_true};
ghost use Rattle.sel_bits.specs.Words.{padded_word, word_of};

use crate::number::load_padded_le_u64;

/// Returns the number of true bits among the `len` bits from bit `shift` of the first byte on.
pub(crate) fn count_set(bytes: &[u8], shift: usize, len: usize) -> usize
    requires shift { shift < 8 }
    requires within { shift + len ≤ 8 * length bytes.now }
    ensures { result ≡ count_true (bits_from bytes.now shift len) }
{
    let mut count = 0;
    for block in 0..len / 64 {
        count += whole_word(bytes, 8 * block, shift).count_ones() as usize;
    }
    let done = len / 64 * 8;
    count + first_word(&bytes[done..], shift, len % 64).count_ones() as usize
}

/// Returns the word of the 64 bits from bit `shift` of byte `at` on.
///
/// # Requires
/// `shift` is less than 8, and the 64 bits are within `bytes`.
#[inline]
pub fn whole_word(bytes: &[u8], at: usize, shift: usize) -> u64
    requires shift { shift < 8 }
    requires within { 8 * at + shift + 64 ≤ 8 * length bytes.now }
    ensures { result ≡ word_of (bits_from (drop at bytes.now) shift 64) }
{
    let low = load_eight(bytes, at);
    if shift == 0 {
        return low;
    }
    (low >> shift) | (u64::from(bytes[at + 8]) << (64 - shift))
}

/// Returns the eight bytes from byte `at` on as a little-endian integer.
#[tactic(auto, using(crate::proofs::Loads::eight_bytes))]
#[inline]
fn load_eight(bytes: &[u8], at: usize) -> u64
    requires { at + 8 ≤ length bytes.now }
    ensures { result ≡ padded_word (drop at bytes.now) }
{
    u64::from_le_bytes([
        bytes[at],
        bytes[at + 1],
        bytes[at + 2],
        bytes[at + 3],
        bytes[at + 4],
        bytes[at + 5],
        bytes[at + 6],
        bytes[at + 7],
    ])
}

/// Returns the word of the `len` bits from bit `shift` of the first byte on, with zeros above them.
/// Missing bytes count as 0.
///
/// # Requires
/// `shift` is less than 8, and `len` is at most 64.
#[inline]
#[tactic(auto, using(std::proofs::lemmas::Grind::common_steps, crate::proofs::Loads::low_word))]
pub fn first_word(bytes: &[u8], shift: usize, len: usize) -> u64
    requires shift { shift < 8 }
    requires len { len ≤ 64 }
    ensures { result ≡ word_of (bits_from bytes.now shift len) }
{
    let low = load_padded_le_u64(bytes);
    let high = if bytes.len() > 8 { bytes[8] } else { 0 };
    low_bits(
        (low >> shift) | ((u64::from(high) << 1) << (63 - shift)),
        len,
    )
}

/// Returns the `len` lowest bits of a word, with zeros above them.
#[inline(always)]
#[tactic(auto, using(std::proofs::lemmas::Grind::common_steps, std::proofs::lemmas::Nat::one_shl, std::proofs::lemmas::Nat::and_mask))]
pub(crate) fn low_bits(word: u64, len: usize) -> u64
    requires { len ≤ 64 }
    ensures { result ≡ word % 2 ^ len }
{
    if len == 64 {
        word
    } else {
        word & ((1 << len) - 1)
    }
}
