//! Columns built from copies of the slices that callers pass.

ghost use Rattle.std.specs.Prelude.{◌≡◌, ◌≤◌, ◌*◌, IfOk, IfErr, length, None, Some, false, [], ◌∷◌};
ghost use Rattle.sel_bits.specs.Faults.{first_broken, IsFaultOrMemory};
ghost use Rattle.sel_bits.specs.Validity.{Covers};
ghost use Rattle.sel_arrow.specs.Masked.{number_rows, bool_rows};
ghost use Rattle.sel_bits.specs.Bits.{bits_from, unsliced};
ghost use Rattle.sel_arrow.specs.Shape.{of_boolean};
ghost use Rattle.sel_arrow.specs.Rows.{rows, type_of};
ghost use Rattle.sel_ffi.specs.Inputs.{validity_in, lacks_bits, flat_rules};

use sel_arrow::array::Array;
use sel_arrow::array_ref::ArrayRef;
use sel_arrow::boolean::BooleanArray;
use sel_arrow::primitive::{ArrowPrimitive, PrimitiveArray};
use sel_arrow::validity::MOST_ROWS;
use sel_bits::bitmap::Bitmap;
use sel_bits::buffer::Buffer;
use sel_bits::faults::{MakeError, Malformed};
use std::alloc::Global;

/// Copies values.
///
/// # Errors
/// `OutOfMemory` if an allocation fails.
pub fn copied_values<T: Copy + Drop>(alloc: Global, values: &[T]) -> Result<Buffer<T>, MakeError>
    ensures values { IfOk result (λ buffer. buffer ≡ values.now) }
    ensures refusal { IfErr result (λ error. error ≡ MakeError.OutOfMemory) }
{
    let Ok(copied) = Vec::from_slice(alloc, values) else {
        return Err(MakeError::OutOfMemory);
    };
    match Buffer::from_vec(copied) {
        Ok(buffer) => Ok(buffer),
        Err(_) => Err(MakeError::OutOfMemory),
    }
}

/// Copies the first `len` bits of `bytes`, least significant bit first.
///
/// # Requires
/// `len <= 8 * bytes.len()`.
///
/// # Errors
/// `OutOfMemory` if an allocation fails.
pub fn copied_bits(alloc: Global, bytes: &[u8], len: usize) -> Result<Bitmap, MakeError>
    requires { len ≤ 8 * length bytes.now }
    ensures value { IfOk result (λ bitmap. bitmap ≡ unsliced (bits_from bytes.now 0 len)) }
    ensures len { IfOk result (λ bitmap. length bitmap.bits ≡ len) }
    ensures refusal { IfErr result (λ error. error ≡ MakeError.OutOfMemory) }
{
    let Ok(copied) = Vec::from_slice(alloc, bytes) else {
        return Err(MakeError::OutOfMemory);
    };
    match Bitmap::from_u8_vec(copied, len) {
        Ok(bits) => Ok(bits),
        Err(_) => Err(MakeError::OutOfMemory),
    }
}

/// Copies the validity of `len` rows from `bytes`; returns none if `has` is false.
///
/// # Errors
/// `ValidityLength` if `bytes` has fewer than `len` bits; `OutOfMemory`.
pub fn validity_of(
    alloc: Global,
    bytes: &[u8],
    has: bool,
    len: usize,
) -> Result<Option<Bitmap>, MakeError>
    ensures value { IfOk result (λ validity. validity ≡ validity_in bytes.now has len) }
    ensures covers { IfOk result (λ validity. Covers validity len) }
    ensures accepted { IfOk result (λ _. lacks_bits bytes.now has len ≡ false) }
    ensures refused { IfErr result (IsFaultOrMemory
        (first_broken ((Malformed.ValidityLength, lacks_bits bytes.now has len) ∷ []))) }
{
    if !has {
        return Ok(None);
    }
    if bytes.len() < len.div_ceil(8) {
        return Err(MakeError::Malformed(Malformed::ValidityLength));
    }
    Ok(Some(copied_bits(alloc, bytes, len)?))
}

/// Builds a primitive column from copies of `values` and of the validity in `bytes`.
///
/// Without `has`, the column has no validity.
///
/// # Errors
/// `TooManyRows` if there are more than 4,294,967,295 values; `ValidityLength` if `bytes` has fewer
/// bits than there are values; `OutOfMemory`.
pub fn numbers_of<T: ArrowPrimitive>(
    alloc: Global,
    values: &[T],
    bytes: &[u8],
    has: bool,
) -> Result<ArrayRef, MakeError>
    ensures rows { IfOk result (λ made. rows made.column ≡ number_rows T.number values.now
        (validity_in bytes.now has (length values.now))) }
    ensures dtype { IfOk result (λ made. type_of made.column ≡ T.shape) }
    ensures accepted { IfOk result (λ _. flat_rules (length values.now) bytes.now has ≡ None) }
    ensures refused { IfErr result (IsFaultOrMemory
        (flat_rules (length values.now) bytes.now has)) }
{
    if values.len() > MOST_ROWS {
        return Err(MakeError::Malformed(Malformed::TooManyRows));
    }
    let validity = validity_of(alloc, bytes, has, values.len())?;
    let values = copied_values(alloc, values)?;
    Ok(PrimitiveArray { values, validity }.into_ref())
}

/// Builds a boolean column from copies of the first `len` bits of `values`, least significant bit
/// first, and of the validity in `bytes`.
///
/// Without `has`, the column has no validity.
///
/// # Requires
/// `len <= 8 * values.len()`.
///
/// # Errors
/// `TooManyRows` if `len` exceeds 4,294,967,295; `ValidityLength` if `bytes` has fewer than `len`
/// bits; `OutOfMemory`.
pub fn booleans_of(
    alloc: Global,
    values: &[u8],
    len: usize,
    bytes: &[u8],
    has: bool,
) -> Result<ArrayRef, MakeError>
    requires { len ≤ 8 * length values.now }
    ensures rows { IfOk result (λ made. rows made.column ≡ bool_rows
        (bits_from values.now 0 len) (validity_in bytes.now has len)) }
    ensures dtype { IfOk result (λ made. type_of made.column ≡ of_boolean) }
    ensures accepted { IfOk result (λ _. flat_rules len bytes.now has ≡ None) }
    ensures refused { IfErr result (IsFaultOrMemory (flat_rules len bytes.now has)) }
{
    if len > MOST_ROWS {
        return Err(MakeError::Malformed(Malformed::TooManyRows));
    }
    let validity = validity_of(alloc, bytes, has, len)?;
    let values = copied_bits(alloc, values, len)?;
    Ok(BooleanArray { values, validity }.into_ref())
}
