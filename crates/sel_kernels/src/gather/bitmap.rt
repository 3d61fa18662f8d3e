//! Gather for bitmaps.

ghost use Rattle.std.specs.Prelude.{◌≡◌, ◌+◌, ◌*◌, ◌<◌, ◌≤◌, IsTrue, Some, length, pos, [], ◌∷◌, map, false, slice_index_or, IfOk, IfErr};
ghost use Rattle.sel_bits.specs.Faults.{IsOutOfMemory};
ghost use Rattle.sel_bits.specs.Bits.{bits_from};
ghost use Rattle.sel_bits.specs.Words.{word_of};
ghost use Rattle.sel_arrow.specs.Columns.{primitive_rows};
ghost use Rattle.sel_arrow.specs.Masked.{number_rows};
ghost use Rattle.sel_kernels.specs.Pick.{all_within, all_below, pick, pick_of, place_pick};

use crate::gather::near::{Near, PlaceRule, Unchanged};
use sel_arrow::primitive::IdxArr;
use sel_bits::bitmap::Bitmap;
use sel_bits::faults::PolarsResult;
use sel_bits::packer::{BitPacker, MOST_BITS};
use std::alloc::Global;

/// Returns the bits of `values` at `indices`.
///
/// # Requires
/// Every index is less than `values.len()`; check with `gather::idx_slice_in_bounds`.
///
/// # Errors
/// `OutOfMemory` if an allocation fails.
#[tactic(auto, using(crate::proofs::Takes::unchanged))]
pub fn take_bitmap_unchecked(
    alloc: Global,
    values: &Bitmap,
    indices: &[u32],
) -> PolarsResult<Bitmap>
    requires { IsTrue (all_below (length values.now.bits) indices.now) }
    ensures bits { IfOk result (λ taken. taken.bits ≡
        pick false (values.now.bits ∷ []) (map place_pick indices.now)) }
    ensures refusal { IfErr result IsOutOfMemory }
{
    take_bits_at::<Unchanged>(alloc, values, indices)
}

/// Returns the bits of `values` at the positions of `indices`.
fn take_bits_at<R: PlaceRule>(
    alloc: Global,
    values: &Bitmap,
    indices: &[u32],
) -> PolarsResult<Bitmap>
    requires { IsTrue (all_below (length values.now.bits)
        (map (R.position (length values.now.bits)) indices.now)) }
    ensures bits { IfOk result (λ taken. taken.bits ≡ pick false (values.now.bits ∷ [])
        (map place_pick (map (R.position (length values.now.bits)) indices.now))) }
    ensures refusal { IfErr result IsOutOfMemory }
{
    let (bytes, shift, len) = values.as_slice();
    let mut taken = BitPacker::with_capacity(alloc, indices.len())?;
    let mut rest = indices;
    while !rest.is_empty() {
        let (places, others) = rest.split_at(rest.len().min(MOST_BITS));
        taken.append(
            word_of_places::<R>(bytes, shift, len, places),
            places.len() as u32,
        )?;
        rest = others;
    }
    taken.into_bitmap(indices.len())
}

/// Packs the bits at the positions of `indices` into a word; bit 0 is bit `shift` of the first
/// byte.
#[inline]
#[tactic(auto, using(crate::proofs::Takes::word_ends))]
fn word_of_places<R: PlaceRule>(bytes: &[u8], shift: usize, len: usize, indices: &[u32]) -> u64
    requires few { length indices.now ≤ 64 }
    requires shift { shift < 8 }
    requires within { shift + len ≤ 8 * length bytes.now }
    requires inside { IsTrue (all_below len (map (R.position len) indices.now)) }
    ensures { result ≡ word_of (pick false (bits_from bytes.now shift len ∷ [])
        (map place_pick (map (R.position len) indices.now))) }
{
    // From the last bit to the first, each one place up: without a shift by the position, which the
    // compiler would make a vector of.
    let mut word = 0;
    let mut left = indices.len();
    while left > 0 {
        left -= 1;
        let place = R::place_at(indices[left], len);
        word = 2 * word + u64::from(bit_in(bytes, shift, len, place));
    }
    word
}

/// Returns the bit at `place`; bit 0 is bit `shift` of the first byte.
#[inline(always)]
#[tactic(auto, using(sel_bits::proofs::BitLists::read_bit))]
fn bit_in(bytes: &[u8], shift: usize, len: usize, place: u32) -> bool
    requires shift { shift < 8 }
    requires within { shift + len ≤ 8 * length bytes.now }
    requires inside { place < len }
    ensures { result ≡ slice_index_or (bits_from bytes.now shift len) place false }
{
    let at = shift + place as usize;
    (bytes[at / 8] >> (at % 8)) & 1 == 1
}

/// Returns the bits of `values` at `indices`.
///
/// A null index gives the first bit of `values`, or false if `values` is empty. The values in null
/// slots of `indices` are ignored.
///
/// # Requires
/// Every non-null index is less than `values.len()`; check with `gather::indices_in_bounds`.
///
/// # Errors
/// `OutOfMemory` if an allocation fails.
pub fn take_bitmap_nulls_unchecked(
    alloc: Global,
    values: &Bitmap,
    indices: &IdxArr,
) -> PolarsResult<Bitmap>
    requires { IsTrue (all_within (length values.now.bits) (primitive_rows indices.now)) }
    ensures bits { IfOk result (λ taken. taken.bits ≡
        pick (slice_index_or values.now.bits 0 false) (values.now.bits ∷ [])
        (map pick_of (primitive_rows indices.now))) }
    ensures refusal { IfErr result IsOutOfMemory }
{
    take_bits_or(alloc, values, indices, first_bit(values))
}

/// Returns the bits of `values` at `indices`, and `filler` for a null index.
pub(crate) fn take_bits_or(
    alloc: Global,
    values: &Bitmap,
    indices: &IdxArr,
    filler: bool,
) -> PolarsResult<Bitmap>
    requires { IsTrue (all_within (length values.now.bits) (primitive_rows indices.now)) }
    ensures bits { IfOk result (λ taken. taken.bits ≡
        pick filler (values.now.bits ∷ []) (map pick_of (primitive_rows indices.now))) }
    ensures refusal { IfErr result IsOutOfMemory }
{
    let places = indices.values.as_slice();
    match &indices.validity {
        None => take_bitmap_unchecked(alloc, values, places),
        Some(valid) => take_valid_bits(alloc, values, places, valid, filler),
    }
}

/// Returns the bit of `values` at each index whose bit is set in `valid`, and `filler` for the
/// others.
///
/// Takes the bits at all indices, then sets those of null indices a word at a time.
#[tactic(auto, using(crate::proofs::Takes::near_below))]
fn take_valid_bits(
    alloc: Global,
    values: &Bitmap,
    places: &[u32],
    valid: &Bitmap,
    filler: bool,
) -> PolarsResult<Bitmap>
    requires long { length valid.now.bits ≡ length places.now }
    requires within { IsTrue (all_within (length values.now.bits)
        (number_rows pos places.now (Some valid.now))) }
    ensures bits { IfOk result (λ taken. taken.bits ≡ pick filler (values.now.bits ∷ [])
        (map pick_of (number_rows pos places.now (Some valid.now)))) }
    ensures refusal { IfErr result IsOutOfMemory }
{
    if values.is_empty() {
        return Bitmap::new_with_value(alloc, filler, places.len());
    }
    let taken = take_bits_at::<Near>(alloc, values, places)?;
    if filler {
        return taken.or_not(alloc, valid);
    }
    taken.and(alloc, valid)
}

/// Returns the first bit, or false if there is none.
fn first_bit(values: &Bitmap) -> bool
    ensures { result ≡ slice_index_or values.now.bits 0 false }
{
    if values.is_empty() {
        return false;
    }
    values.get_bit(0)
}
