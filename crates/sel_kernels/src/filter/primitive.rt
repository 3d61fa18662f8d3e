//! Filters for slices of values.

ghost use Rattle.std.specs.Prelude.{◌≡◌, length, IfOk, IfErr};
ghost use Rattle.std.specs.Option.{option_copied, option_map};
ghost use Rattle.sel_bits.specs.Faults.{IsOutOfMemory};
ghost use Rattle.sel_bits.specs.Bits.{count_true};
ghost use Rattle.sel_bits.specs.Validity.{Covers};
ghost use Rattle.sel_kernels.specs.Select.{select};

use crate::filter::boolean::filter_validity;
use sel_bits::bitmap::Bitmap;
use sel_bits::buffer::Buffer;
use sel_bits::faults::PolarsResult;
use sel_filter::primitive::filter_counted_values;
pub use sel_filter::primitive::filter_values;
use std::alloc::Global;

/// Returns the values where `mask` is true, and likewise the bits of `validity` if given.
///
/// # Requires
/// `values`, and `validity` if given, have the same length as `mask`.
///
/// # Errors
/// `OutOfMemory` if an allocation fails.
pub fn filter_values_and_validity<T: Copy>(
    alloc: Global,
    values: &[T],
    validity: Option<&Bitmap>,
    mask: &Bitmap,
) -> PolarsResult<(Vec<T>, Option<Bitmap>)>
    requires values { length values.now ≡ length mask.now.bits }
    requires validity { Covers (option_copied validity) (length mask.now.bits) }
    ensures values { IfOk result (λ kept. kept.0.items ≡ select values.now mask.now.bits) }
    ensures validity { IfOk result (λ kept. option_map (λ v. v.bits) kept.1 ≡
        option_map (λ v. select v.bits mask.now.bits) (option_copied validity.entry)) }
    ensures refusal { IfErr result IsOutOfMemory }
{
    filter_counted_rows(alloc, values, validity, mask, mask.set_bits())
}

/// Returns what `filter_values_and_validity` does; `count` is the number of set bits of `mask`.
pub(crate) fn filter_counted_rows<T: Copy>(
    alloc: Global,
    values: &[T],
    validity: Option<&Bitmap>,
    mask: &Bitmap,
    count: usize,
) -> PolarsResult<(Vec<T>, Option<Bitmap>)>
    requires values { length values.now ≡ length mask.now.bits }
    requires validity { Covers (option_copied validity) (length mask.now.bits) }
    requires count { count ≡ count_true mask.now.bits }
    ensures values { IfOk result (λ kept. kept.0.items ≡ select values.now mask.now.bits) }
    ensures validity { IfOk result (λ kept. option_map (λ v. v.bits) kept.1 ≡
        option_map (λ v. select v.bits mask.now.bits) (option_copied validity.entry)) }
    ensures refusal { IfErr result IsOutOfMemory }
{
    let kept = filter_counted_values(alloc, values, mask, count)?;
    let kept_validity = filter_validity(alloc, validity, mask, count)?;
    Ok((kept, kept_validity))
}

/// Returns what `filter_counted_rows` does, for a buffer.
pub(crate) fn filter_counted_buffer<T: Copy + Drop>(
    alloc: Global,
    values: &Buffer<T>,
    validity: &Option<Bitmap>,
    mask: &Bitmap,
    count: usize,
) -> PolarsResult<(Buffer<T>, Option<Bitmap>)>
    requires values { length values.now ≡ length mask.now.bits }
    requires validity { Covers validity.now (length mask.now.bits) }
    requires count { count ≡ count_true mask.now.bits }
    ensures values { IfOk result (λ kept. kept.0 ≡ select values.now mask.now.bits) }
    ensures validity { IfOk result (λ kept. option_map (λ v. v.bits) kept.1 ≡
        option_map (λ v. select v.bits mask.now.bits) validity.now) }
    ensures refusal { IfErr result IsOutOfMemory }
{
    let (kept, kept_validity) = filter_counted_rows(
        alloc,
        values.as_slice(),
        validity.as_ref(),
        mask,
        count,
    )?;
    let kept = Buffer::from_vec(kept)?;
    Ok((kept, kept_validity))
}
