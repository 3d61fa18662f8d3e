//! Values and validity of columns, copied into slices of callers.

ghost use Rattle.std.specs.Prelude.{◌≡◌, ◌≢◌, ◌+◌, ◌/◌, ◌%◌, length, [], ◌∷◌, true, false, IfOk, Some};
ghost use Rattle.sel_bits.specs.Bits.{bits_from};
ghost use Rattle.sel_ffi.specs.Outputs.{CopiesBooleans, CopiesNumbers, CopiesValidity};
ghost use Rattle.sel_ffi.specs.Status.{ok, length_mismatch, ReturnsFirst};

use crate::status::{LENGTH_MISMATCH, OK, OUT_OF_MEMORY, UNSUPPORTED_TYPE};
use sel_arrow::array::Array;
use sel_arrow::array_ref::ArrayRef;
use sel_arrow::boolean::BooleanArray;
use sel_arrow::primitive::{ArrowPrimitive, PrimitiveArray};
use sel_bits::bitmap::Bitmap;
use sel_bits::faults::PolarsResult;
use sel_bits::packer::BitPacker;
use std::alloc::Global;

/// Copies the values, also those in null slots, into `out`.
///
/// Errors: `UNSUPPORTED_TYPE` if the column's type is not that of `T`; `LENGTH_MISMATCH` if the
/// length of `out` is not the number of rows; `OUT_OF_MEMORY`.
#[tactic(auto, using(crate::proofs::Shown::shows))]
pub fn numbers_into<T: ArrowPrimitive>(alloc: Global, column: &ArrayRef, out: &mut [T]) -> u32
    ensures { CopiesNumbers result (Some column.now) T.shape T.number out.old out.new }
{
    let Ok(copy) = column.try_clone(alloc) else {
        return OUT_OF_MEMORY;
    };
    match copy.into_array::<PrimitiveArray<T>>() {
        Ok(array) => {
            let values = array.values().as_slice();
            if out.len() != values.len() {
                return LENGTH_MISMATCH;
            }
            out.copy_from_slice(values);
            OK
        }
        Err(back) => {
            drop(back);
            UNSUPPORTED_TYPE
        }
    }
}

/// Copies the bits into `out`, least significant bit first. The bits after the last one are
/// unspecified.
///
/// Errors: `LENGTH_MISMATCH` if `out` does not have `(bits.len() + 7) / 8` bytes; `OUT_OF_MEMORY`.
pub fn bits_into(alloc: Global, bits: &Bitmap, out: &mut [u8]) -> u32
    ensures bits { result ≡ ok → bits_from out.new 0 (length bits.now.bits) ≡
        bits.now.bits }
    ensures unchanged { result ≢ ok → out.new ≡ out.old }
    ensures checks { ReturnsFirst result
        ((length_mismatch, length out.old ≡ (length bits.now.bits + 7) / 8) ∷ []) (result ≡ ok) }
{
    if out.len() != bits.len().div_ceil(8) {
        return LENGTH_MISMATCH;
    }
    let Ok(aligned) = moved_to_front(alloc, bits) else {
        return OUT_OF_MEMORY;
    };
    let (bytes, _, _) = aligned.as_slice();
    out.copy_from_slice(bytes);
    OK
}

/// Returns the same bits, starting at the first bit of a byte.
///
/// # Errors
/// `OutOfMemory`.
fn moved_to_front(alloc: Global, bits: &Bitmap) -> PolarsResult<Bitmap>
    ensures bits { IfOk result (λ moved. moved.bits ≡ bits.now.bits) }
    ensures place { IfOk result (λ moved. moved.offset % 8 ≡ 0) }
{
    let (_, place, len) = bits.as_slice();
    if place == 0 {
        return bits.try_clone();
    }
    let mut packer = BitPacker::with_capacity(alloc, len)?;
    packer.extend_from_bitmap(bits, 0, len)?;
    packer.into_bitmap(len)
}

/// Writes to `has` whether the column has a validity, and copies it into `out`, least significant
/// bit first. Without a validity `out` is unchanged.
///
/// Errors: `LENGTH_MISMATCH` if there is a validity and `out` does not have one byte for each eight
/// rows, rounded up; `OUT_OF_MEMORY`.
pub fn validity_into(alloc: Global, column: &ArrayRef, out: &mut [u8], has: &mut bool) -> u32
    ensures { CopiesValidity result (Some column.now) out.old out.new has.new }
{
    match column.validity() {
        None => {
            *has = false;
            OK
        }
        Some(bits) => {
            *has = true;
            bits_into(alloc, bits, out)
        }
    }
}

/// Copies the booleans, also those in null slots, into `out`, least significant bit first.
///
/// Errors: `UNSUPPORTED_TYPE` if the column is not boolean; `LENGTH_MISMATCH` if `out` does not
/// have one byte for each eight rows, rounded up; `OUT_OF_MEMORY`.
#[tactic(auto, using(crate::proofs::Shown::shows))]
pub fn booleans_into(alloc: Global, column: &ArrayRef, out: &mut [u8]) -> u32
    ensures { CopiesBooleans result (Some column.now) out.old out.new }
{
    let Ok(copy) = column.try_clone(alloc) else {
        return OUT_OF_MEMORY;
    };
    match copy.into_array::<BooleanArray>() {
        Ok(array) => bits_into(alloc, array.values(), out),
        Err(back) => {
            drop(back);
            UNSUPPORTED_TYPE
        }
    }
}
