//! Filters for bitmaps.

ghost use Rattle.std.specs.Prelude.{◌≡◌, length, IfOk, IfErr};
ghost use Rattle.std.specs.Option.{option_copied, option_map};
ghost use Rattle.sel_bits.specs.Faults.{IsOutOfMemory};
ghost use Rattle.sel_bits.specs.Bits.{count_true};
ghost use Rattle.sel_bits.specs.Validity.{Covers};
ghost use Rattle.sel_kernels.specs.Select.{select};

use sel_bits::bitmap::Bitmap;
use sel_bits::faults::PolarsResult;
use sel_filter::boolean::filter_counted_bits;
pub use sel_filter::boolean::{
    filter_boolean_kernel, filter_boolean_kernel_pext, filter_boolean_kernel_sparse,
    pext64_polyfill, pext64_rounds,
};
use std::alloc::Global;

/// Returns the bits of `values` where `mask` is true, and likewise those of `validity` if given.
///
/// # Requires
/// `values`, and `validity` if given, have the same length as `mask`.
///
/// # Errors
/// `OutOfMemory` if an allocation fails.
pub fn filter_bitmap_and_validity(
    alloc: Global,
    values: &Bitmap,
    validity: Option<&Bitmap>,
    mask: &Bitmap,
) -> PolarsResult<(Bitmap, Option<Bitmap>)>
    requires values { length values.now.bits ≡ length mask.now.bits }
    requires validity { Covers (option_copied validity) (length mask.now.bits) }
    ensures values { IfOk result (λ kept. kept.0.bits ≡ select values.now.bits mask.now.bits) }
    ensures validity { IfOk result (λ kept. option_map (λ v. v.bits) kept.1 ≡
        option_map (λ v. select v.bits mask.now.bits) (option_copied validity.entry)) }
    ensures refusal { IfErr result IsOutOfMemory }
{
    filter_counted_booleans(alloc, values, validity, mask, mask.set_bits())
}

/// Returns what `filter_bitmap_and_validity` does; `count` is the number of set bits of `mask`.
pub(crate) fn filter_counted_booleans(
    alloc: Global,
    values: &Bitmap,
    validity: Option<&Bitmap>,
    mask: &Bitmap,
    count: usize,
) -> PolarsResult<(Bitmap, Option<Bitmap>)>
    requires values { length values.now.bits ≡ length mask.now.bits }
    requires validity { Covers (option_copied validity) (length mask.now.bits) }
    requires count { count ≡ count_true mask.now.bits }
    ensures values { IfOk result (λ kept. kept.0.bits ≡ select values.now.bits mask.now.bits) }
    ensures validity { IfOk result (λ kept. option_map (λ v. v.bits) kept.1 ≡
        option_map (λ v. select v.bits mask.now.bits) (option_copied validity.entry)) }
    ensures refusal { IfErr result IsOutOfMemory }
{
    let kept = filter_counted_bits(alloc, values, mask, count)?;
    let kept_validity = filter_validity(alloc, validity, mask, count)?;
    Ok((kept, kept_validity))
}

/// Returns the bits of `validity` where `mask` is true, if a validity is given; `count` is the
/// number of set bits of `mask`.
pub(crate) fn filter_validity(
    alloc: Global,
    validity: Option<&Bitmap>,
    mask: &Bitmap,
    count: usize,
) -> PolarsResult<Option<Bitmap>>
    requires validity { Covers (option_copied validity) (length mask.now.bits) }
    requires count { count ≡ count_true mask.now.bits }
    ensures validity { IfOk result (λ kept. option_map (λ v. v.bits) kept ≡
        option_map (λ v. select v.bits mask.now.bits) (option_copied validity.entry)) }
    ensures refusal { IfErr result IsOutOfMemory }
{
    match validity {
        None => Ok(None),
        Some(bits) => Ok(Some(filter_counted_bits(alloc, bits, mask, count)?)),
    }
}
