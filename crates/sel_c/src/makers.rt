//! Columns from arrays of values, which are copied.

ghost use Rattle.std.specs.Prelude.{◌≡◌, ◌≢◌, ◌≤◌, ◌*◌, [], ◌∷◌, length, pos, replicate};
ghost use Rattle.sel_bits.specs.Bits.{bits_from};
ghost use Rattle.sel_arrow.specs.Makers.{null_fault};
ghost use Rattle.sel_arrow.specs.Masked.{bool_rows};
ghost use Rattle.sel_arrow.specs.Rows.{rows, type_of};
ghost use Rattle.sel_arrow.specs.Shape.{of_null, of_boolean, of_int8, of_int16, of_int32, of_int64, of_uint8, of_uint16, of_uint32, of_uint64};
ghost use Rattle.sel_arrow.specs.Value.{Null};
ghost use Rattle.sel_ffi.specs.Inputs.{validity_in, flat_rules};
ghost use Rattle.sel_ffi.specs.Status.{length_mismatch, Makes, ReportsOnly, ReturnsFirst};
ghost use Rattle.sel_c.specs.Numbers.{MakesNumbers};

use sel_arrow::array::Array;
use sel_arrow::null::NullArray;
use sel_ffi::handle::Handle;
use sel_ffi::inputs::booleans_of;
use sel_ffi::numbers::make_numbers;
use sel_ffi::status::{LENGTH_MISMATCH, put, status_of_maker};
use std::alloc::Global;

/// Returns in `out` a column of `len` nulls.
///
/// Errors: SEL_ERROR_TOO_MANY_ROWS: `len` is more than 4,294,967,295.
#[unsafe(no_mangle)]
pub extern "C" fn sel_null_new(alloc: Global, len: usize, out: &mut Handle) -> u32
    ensures rows { Makes result out.old.tree out.new.tree
        (λ made. rows made.column ≡ replicate len Null) }
    ensures dtype { Makes result out.old.tree out.new.tree
        (λ made. type_of made.column ≡ of_null) }
    ensures status { ReportsOnly result (null_fault len) }
{
    match NullArray::try_new(len) {
        Ok(array) => put(alloc, array.into_ref(), out),
        Err(fault) => status_of_maker(fault),
    }
}

/// Returns in `out` the boolean column of `len` bits packed in `values`.
///
/// Errors: SEL_ERROR_LENGTH_MISMATCH: `values` has fewer than (len + 7) / 8 bytes.
/// SEL_ERROR_TOO_MANY_ROWS: `len` is more than 4,294,967,295. SEL_ERROR_VALIDITY_LENGTH: the
/// validity is too short.
#[unsafe(no_mangle)]
pub extern "C" fn sel_boolean_new(
    alloc: Global,
    values: &[u8],
    len: usize,
    bits: &[u8],
    has_bits: bool,
    out: &mut Handle,
) -> u32
    ensures rows { Makes result out.old.tree out.new.tree (λ made. rows made.column ≡
        bool_rows (bits_from values.now 0 len) (validity_in bits.now has_bits len)) }
    ensures dtype { Makes result out.old.tree out.new.tree
        (λ made. type_of made.column ≡ of_boolean) }
    ensures checks { ReturnsFirst result ((length_mismatch, len ≤ 8 * length values.now) ∷ [])
        (result ≢ length_mismatch) }
    ensures status { len ≤ 8 * length values.now →
        ReportsOnly result (flat_rules len bits.now has_bits) }
{
    if values.len() < len.div_ceil(8) {
        return LENGTH_MISMATCH;
    }
    match booleans_of(alloc, values, len, bits, has_bits) {
        Ok(column) => put(alloc, column, out),
        Err(fault) => status_of_maker(fault),
    }
}

/// Returns in `out` the column of these 8-bit integers.
///
/// Errors: SEL_ERROR_TOO_MANY_ROWS: more than 4,294,967,295 values. SEL_ERROR_VALIDITY_LENGTH: the
/// validity is too short.
#[unsafe(no_mangle)]
pub extern "C" fn sel_int8_new(
    alloc: Global,
    values: &[i8],
    bits: &[u8],
    has_bits: bool,
    out: &mut Handle,
) -> u32
    ensures { MakesNumbers result out.old.tree out.new.tree of_int8 (λ x. x)
        values.now bits.now has_bits }
{
    make_numbers::<i8>(alloc, values, bits, has_bits, out)
}

/// Returns in `out` the column of these 16-bit integers.
///
/// Errors: SEL_ERROR_TOO_MANY_ROWS: more than 4,294,967,295 values. SEL_ERROR_VALIDITY_LENGTH: the
/// validity is too short.
#[unsafe(no_mangle)]
pub extern "C" fn sel_int16_new(
    alloc: Global,
    values: &[i16],
    bits: &[u8],
    has_bits: bool,
    out: &mut Handle,
) -> u32
    ensures { MakesNumbers result out.old.tree out.new.tree of_int16 (λ x. x)
        values.now bits.now has_bits }
{
    make_numbers::<i16>(alloc, values, bits, has_bits, out)
}

/// Returns in `out` the column of these 32-bit integers.
///
/// Errors: SEL_ERROR_TOO_MANY_ROWS: more than 4,294,967,295 values. SEL_ERROR_VALIDITY_LENGTH: the
/// validity is too short.
#[unsafe(no_mangle)]
pub extern "C" fn sel_int32_new(
    alloc: Global,
    values: &[i32],
    bits: &[u8],
    has_bits: bool,
    out: &mut Handle,
) -> u32
    ensures { MakesNumbers result out.old.tree out.new.tree of_int32 (λ x. x)
        values.now bits.now has_bits }
{
    make_numbers::<i32>(alloc, values, bits, has_bits, out)
}

/// Returns in `out` the column of these 64-bit integers.
///
/// Errors: SEL_ERROR_TOO_MANY_ROWS: more than 4,294,967,295 values. SEL_ERROR_VALIDITY_LENGTH: the
/// validity is too short.
#[unsafe(no_mangle)]
pub extern "C" fn sel_int64_new(
    alloc: Global,
    values: &[i64],
    bits: &[u8],
    has_bits: bool,
    out: &mut Handle,
) -> u32
    ensures { MakesNumbers result out.old.tree out.new.tree of_int64 (λ x. x)
        values.now bits.now has_bits }
{
    make_numbers::<i64>(alloc, values, bits, has_bits, out)
}

/// Returns in `out` the column of these unsigned 8-bit integers.
///
/// Errors: SEL_ERROR_TOO_MANY_ROWS: more than 4,294,967,295 values. SEL_ERROR_VALIDITY_LENGTH: the
/// validity is too short.
#[unsafe(no_mangle)]
pub extern "C" fn sel_uint8_new(
    alloc: Global,
    values: &[u8],
    bits: &[u8],
    has_bits: bool,
    out: &mut Handle,
) -> u32
    ensures { MakesNumbers result out.old.tree out.new.tree of_uint8 pos
        values.now bits.now has_bits }
{
    make_numbers::<u8>(alloc, values, bits, has_bits, out)
}

/// Returns in `out` the column of these unsigned 16-bit integers.
///
/// Errors: SEL_ERROR_TOO_MANY_ROWS: more than 4,294,967,295 values. SEL_ERROR_VALIDITY_LENGTH: the
/// validity is too short.
#[unsafe(no_mangle)]
pub extern "C" fn sel_uint16_new(
    alloc: Global,
    values: &[u16],
    bits: &[u8],
    has_bits: bool,
    out: &mut Handle,
) -> u32
    ensures { MakesNumbers result out.old.tree out.new.tree of_uint16 pos
        values.now bits.now has_bits }
{
    make_numbers::<u16>(alloc, values, bits, has_bits, out)
}

/// Returns in `out` the column of these unsigned 32-bit integers.
///
/// Errors: SEL_ERROR_TOO_MANY_ROWS: more than 4,294,967,295 values. SEL_ERROR_VALIDITY_LENGTH: the
/// validity is too short.
#[unsafe(no_mangle)]
pub extern "C" fn sel_uint32_new(
    alloc: Global,
    values: &[u32],
    bits: &[u8],
    has_bits: bool,
    out: &mut Handle,
) -> u32
    ensures { MakesNumbers result out.old.tree out.new.tree of_uint32 pos
        values.now bits.now has_bits }
{
    make_numbers::<u32>(alloc, values, bits, has_bits, out)
}

/// Returns in `out` the column of these unsigned 64-bit integers.
///
/// Errors: SEL_ERROR_TOO_MANY_ROWS: more than 4,294,967,295 values. SEL_ERROR_VALIDITY_LENGTH: the
/// validity is too short.
#[unsafe(no_mangle)]
pub extern "C" fn sel_uint64_new(
    alloc: Global,
    values: &[u64],
    bits: &[u8],
    has_bits: bool,
    out: &mut Handle,
) -> u32
    ensures { MakesNumbers result out.old.tree out.new.tree of_uint64 pos
        values.now bits.now has_bits }
{
    make_numbers::<u64>(alloc, values, bits, has_bits, out)
}
