//! Propagation of null dictionary values to the keys.

ghost use Rattle.std.specs.Prelude.{◌≡◌, ◌≤◌, ◌<◌, ◌+◌, if◌then◌else◌, Some, None, length, map, take, count_by, IsTrue, IfSome, IfNone, IfOk, IfErr};
ghost use Rattle.std.specs.List.{range_with_len};
ghost use Rattle.sel_bits.specs.Faults.{IsOutOfMemory};
ghost use Rattle.sel_bits.specs.Limits.{max_rows};
ghost use Rattle.sel_bits.specs.Bits.{count_true};
ghost use Rattle.sel_arrow.specs.Columns.{primitive_rows, utf8view_rows};
ghost use Rattle.sel_arrow.specs.Value.{is_null};
ghost use Rattle.sel_kernels.specs.Dictionary.{propagated_keys, valid_values};
ghost use Rattle.sel_kernels.specs.Pick.{all_within};

use crate::filter::filter_texts;
use crate::gather::indices_in_bounds;
use crate::gather::primitive::take_primitive_unchecked;
use sel_arrow::array::Array;
use sel_arrow::binview::BinaryViewArray;
use sel_arrow::primitive::PrimitiveArray;
use sel_arrow::utf8view::Utf8ViewArray;
use sel_bits::bitmap::Bitmap;
use sel_bits::buffer::Buffer;
use sel_bits::faults::PolarsResult;
use std::alloc::Global;

/// Returns the keys and values of a dictionary without its null values.
///
/// The new values are the non-null values of `values`, in order, without a validity bitmap. Key j
/// is null if `keys[j]` is null or refers to a null value; otherwise it refers to the same value as
/// before. Without null values, the keys are unchanged. The values in null slots of `keys` are
/// ignored.
///
/// # Requires
/// Every non-null key is less than `values.len()`; check with [`keys_in_bounds`].
///
/// # Errors
/// `OutOfMemory` if an allocation fails.
#[tactic(auto, using(crate::proofs::Dictionaries::values_stay))]
pub fn propagate_dictionary_value_nulls(
    alloc: Global,
    keys: &PrimitiveArray<u32>,
    values: &Utf8ViewArray,
) -> PolarsResult<(PrimitiveArray<u32>, Utf8ViewArray)>
    requires { IsTrue (all_within (length (utf8view_rows values.now)) (primitive_rows keys.now)) }
    ensures keys { IfOk result (λ both. primitive_rows both.0 ≡
        propagated_keys (primitive_rows keys.now) (utf8view_rows values.now)) }
    ensures values { IfOk result (λ both. utf8view_rows both.1 ≡
        valid_values (utf8view_rows values.now)) }
    ensures bare { IfOk result (λ both. both.1.bytes.validity ≡ None) }
    ensures same { IfOk result (λ both. count_by is_null (utf8view_rows values.now) ≡ 0 →
        primitive_rows both.0 ≡ primitive_rows keys.now) }
    ensures refusal { IfErr result IsOutOfMemory }
{
    match validity_of_nulls(values) {
        None => {
            let keys = keys.try_clone(alloc)?;
            let values = values.try_clone(alloc)?;
            Ok((keys, without_validity(values)))
        }
        Some(validity) => {
            let ranks = ranks_of(alloc, validity)?;
            let keys = take_primitive_unchecked(alloc, &ranks, keys)?;
            let values = filter_texts(alloc, values, validity, validity.set_bits())?;
            Ok((keys, without_validity(values)))
        }
    }
}

/// Returns whether every non-null key is less than `len`.
pub fn keys_in_bounds(keys: &PrimitiveArray<u32>, len: usize) -> bool
    ensures { result ≡ all_within len (primitive_rows keys.now) }
{
    indices_in_bounds(keys, len)
}

// Returns the validity bitmap if some row is null.
fn validity_of_nulls(values: &Utf8ViewArray) -> Option<&Bitmap>
    ensures some { IfSome result (λ v. values.now.bytes.validity ≡ Some v.now) }
    ensures none { IfNone result (count_by is_null (utf8view_rows values.now) ≡ 0) }
{
    if values.has_nulls() {
        values.bytes.validity.as_ref()
    } else {
        None
    }
}

// Returns the same strings without a validity bitmap; no row may be null.
#[tactic(auto, using(crate::proofs::Dictionaries::bare_rows))]
fn without_validity(values: Utf8ViewArray) -> Utf8ViewArray
    requires { count_by is_null (utf8view_rows values) ≡ 0 }
    ensures rows { utf8view_rows result ≡ utf8view_rows values }
    ensures bare { result.bytes.validity ≡ None }
{
    let Utf8ViewArray { bytes } = values;
    let BinaryViewArray {
        views,
        buffers,
        validity: _,
    } = bytes;
    let bytes = BinaryViewArray {
        views,
        buffers,
        validity: None,
    };
    Utf8ViewArray { bytes }
}

// Returns the number of true bits before each bit, null where the bit is false.
#[tactic(auto, using(crate::proofs::Dictionaries::counts_long))]
fn ranks_of(alloc: Global, validity: &Bitmap) -> PolarsResult<PrimitiveArray<u32>>
    requires { length validity.now.bits ≤ max_rows }
    ensures values { IfOk result (λ ranks. ranks.values ≡ map (λ i. count_true
        (take i validity.now.bits)) (range_with_len 0 (length validity.now.bits))) }
    ensures validity { IfOk result (λ ranks. ranks.validity ≡ Some validity.now) }
    ensures refusal { IfErr result IsOutOfMemory }
{
    let ranks = counts_before(alloc, validity)?;
    let values = Buffer::from_vec(ranks)?;
    let validity = validity.try_clone()?;
    Ok(PrimitiveArray {
        values,
        validity: Some(validity),
    })
}

// Returns the number of true bits before each bit.
#[tactic(auto, using(crate::proofs::Dictionaries::counting))]
fn counts_before(alloc: Global, bits: &Bitmap) -> PolarsResult<Vec<u32>>
    requires { length bits.now.bits ≤ max_rows }
    ensures counts { IfOk result (λ counts. counts.items ≡
        map (λ i. count_true (take i bits.now.bits)) (range_with_len 0 (length bits.now.bits))) }
    ensures refusal { IfErr result IsOutOfMemory }
{
    let mut counts = Vec::with_capacity(alloc, bits.len())?;
    let mut count = 0;
    for i in 0..bits.len() {
        counts.push(count)?;
        count = counted(count, bits.get_bit(i));
    }
    Ok(counts)
}

// Returns `count` plus one if `bit` is true.
fn counted(count: u32, bit: bool) -> u32
    requires { count < max_rows }
    ensures { result ≡ count + (if bit then 1 else 0) }
{
    if bit { count + 1 } else { count }
}
