//! The bits of a bitmap for loops that read one bit at a time.
#![tactic(auto, using(sel_bits::proofs::BitLists::length_bits_from))]

ghost use Rattle.std.specs.Prelude.{◌≡◌, ◌+◌, ◌*◌, ◌<◌, ◌≤◌, length, false, slice_index_or};
ghost use Rattle.std.specs.Option.{ForSome, option_map};
ghost use Rattle.sel_bits.specs.Limits.{max_rows};
ghost use Rattle.sel_kernels.specs.ValidPicks.{bit_or_true};

use sel_bits::bitmap::Bitmap;
use std::marker::Model;

/// The bits of a bitmap. Their bytes are found once, and not again for each bit.
///
/// Contract model: the list of the bits.
#[derive(Drop)]
pub(crate) struct BitSlice<'a> {
    bytes: &'a [u8],
    shift: usize,
    len: usize,
}

impl<'a> Model for BitSlice<'a> {
    ghost use Rattle.std.specs.Prelude.{Bool, List, ◌<◌, ◌≤◌, ◌+◌, ◌*◌, length};
    ghost use Rattle.sel_bits.specs.Bits.{bits_from};

    ghost Value = { List Bool };

    ghost view = { λ b. bits_from b.bytes.now b.shift b.len };

    ghost invariant = { λ b. (b.shift < 8) × (b.shift + b.len ≤ 8 * length b.bytes.now) };
}

impl BitSlice<'_> {
    /// Returns the bits of a bitmap.
    pub(crate) fn of(bitmap: &Bitmap) -> BitSlice<'_>
        ensures { result ≡ bitmap.now.bits }
    {
        let (bytes, shift, len) = bitmap.as_slice();
        BitSlice { bytes, shift, len }
    }

    /// Returns the bits of a validity, if there is one.
    pub(crate) fn of_validity(validity: &Option<Bitmap>) -> Option<BitSlice<'_>>
        ensures { result ≡ option_map (λ v. v.bits) validity.now }
    {
        match validity {
            None => None,
            Some(bitmap) => Some(BitSlice::of(bitmap)),
        }
    }

    /// Returns bit `i`.
    ///
    /// # Requires
    /// `i` is less than the number of bits, and at most 2^32 - 1.
    #[inline(always)]
    #[tactic(auto, using(sel_bits::proofs::BitLists::read_bit, sel_bits::proofs::BitLists::length_bits_from))]
    pub(crate) fn get(&self, i: usize) -> bool
        requires inside { i < length self.now }
        requires few { i ≤ max_rows }
        ensures { result ≡ slice_index_or self.now i false }
    {
        let at = self.shift + i;
        (self.bytes[at / 8] >> (at % 8)) & 1 == 1
    }
}

/// Returns bit `i`, or true without bits.
///
/// # Requires
/// `i` is less than the number of bits, and the position of a row.
#[inline(always)]
pub(crate) fn bit_or_true(bits: &Option<BitSlice<'_>>, i: usize) -> bool
    requires inside { ForSome bits.now (λ b. i < length b) }
    requires few { i < max_rows }
    ensures { result ≡ bit_or_true bits.now i }
{
    match bits {
        None => true,
        Some(bits) => bits.get(i),
    }
}
