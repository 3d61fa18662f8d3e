//! Properties and values of a column.

ghost use Rattle.std.specs.Prelude.{◌≡◌, length, pos, count_by};
ghost use Rattle.sel_arrow.specs.Shape.{of_int8, of_int16, of_int32, of_int64, of_uint8, of_uint16, of_uint32, of_uint64};
ghost use Rattle.sel_arrow.specs.Value.{is_null};
ghost use Rattle.sel_ffi.specs.Kinds.{held_kind};
ghost use Rattle.sel_ffi.specs.Outputs.{CopiesBooleans, CopiesNumbers, CopiesValidity};
ghost use Rattle.sel_ffi.specs.Status.{held_rows};

use sel_arrow::array::Array;
use sel_ffi::column_ref::ColumnRef;
use sel_ffi::kinds::{NONE, kind_of};
use sel_ffi::numbers::held_numbers_into;
use sel_ffi::outputs::{booleans_into, validity_into};
use sel_ffi::status::NO_COLUMN;
use std::alloc::Global;

/// Returns the number of rows, or 0 if `of` is empty.
#[unsafe(no_mangle)]
pub extern "C" fn sel_len(of: &ColumnRef) -> usize
    ensures rows { result ≡ length (held_rows of.now.tree) }
{
    match of.column() {
        None => 0,
        Some(column) => column.len(),
    }
}

/// Returns the number of null rows, or 0 if `of` is empty.
#[unsafe(no_mangle)]
pub extern "C" fn sel_null_count(of: &ColumnRef) -> usize
    ensures rows { result ≡ count_by is_null (held_rows of.now.tree) }
{
    match of.column() {
        None => 0,
        Some(column) => column.null_count(),
    }
}

/// Returns the type of the column, one of `enum sel_type_id`, or SEL_TYPE_NONE if `of` is empty.
#[unsafe(no_mangle)]
pub extern "C" fn sel_type_of(of: &ColumnRef) -> u32
    ensures kind { result ≡ held_kind of.now.tree }
{
    match of.column() {
        None => NONE,
        Some(column) => kind_of(column.as_column()),
    }
}

/// Copies the validity to `out`, of (rows + 7) / 8 bytes, and returns in `has` whether the column
/// has one. If it has none, `out` is unchanged and may have any length: each row is valid, or, in
/// a column of SEL_TYPE_NULL, null.
///
/// Errors: SEL_ERROR_NO_COLUMN: `of` is empty. SEL_ERROR_LENGTH_MISMATCH: the column has a
/// validity, and `out_len` is not (rows + 7) / 8; `has` is true then. After another error `has` may
/// be either.
#[unsafe(no_mangle)]
pub extern "C" fn sel_validity(alloc: Global, of: &ColumnRef, out: &mut [u8], has: &mut bool) -> u32
    ensures { CopiesValidity result of.now.tree out.old out.new has.new }
{
    let Some(column) = of.column() else {
        return NO_COLUMN;
    };
    validity_into(alloc, column, out, has)
}

/// Copies the values, including those in null slots, as packed bits to `out`.
///
/// Errors: SEL_ERROR_NO_COLUMN: `of` is empty. SEL_ERROR_UNSUPPORTED_TYPE: its type is not
/// SEL_TYPE_BOOLEAN. SEL_ERROR_LENGTH_MISMATCH: `out_len` is not (rows + 7) / 8.
#[unsafe(no_mangle)]
pub extern "C" fn sel_boolean_values(alloc: Global, of: &ColumnRef, out: &mut [u8]) -> u32
    ensures { CopiesBooleans result of.now.tree out.old out.new }
{
    let Some(column) = of.column() else {
        return NO_COLUMN;
    };
    booleans_into(alloc, column, out)
}

/// Copies the values to `out`, including those in null slots.
///
/// Errors: SEL_ERROR_NO_COLUMN: `of` is empty. SEL_ERROR_UNSUPPORTED_TYPE: its type is not
/// SEL_TYPE_INT8. SEL_ERROR_LENGTH_MISMATCH: `out_len` is not the number of rows.
#[unsafe(no_mangle)]
pub extern "C" fn sel_int8_values(alloc: Global, of: &ColumnRef, out: &mut [i8]) -> u32
    ensures { CopiesNumbers result of.now.tree of_int8 (λ x. x) out.old out.new }
{
    held_numbers_into::<i8>(alloc, of, out)
}

/// Copies the values to `out`, including those in null slots.
///
/// Errors: SEL_ERROR_NO_COLUMN: `of` is empty. SEL_ERROR_UNSUPPORTED_TYPE: its type is not
/// SEL_TYPE_INT16. SEL_ERROR_LENGTH_MISMATCH: `out_len` is not the number of rows.
#[unsafe(no_mangle)]
pub extern "C" fn sel_int16_values(alloc: Global, of: &ColumnRef, out: &mut [i16]) -> u32
    ensures { CopiesNumbers result of.now.tree of_int16 (λ x. x) out.old out.new }
{
    held_numbers_into::<i16>(alloc, of, out)
}

/// Copies the values to `out`, including those in null slots.
///
/// Errors: SEL_ERROR_NO_COLUMN: `of` is empty. SEL_ERROR_UNSUPPORTED_TYPE: its type is not
/// SEL_TYPE_INT32. SEL_ERROR_LENGTH_MISMATCH: `out_len` is not the number of rows.
#[unsafe(no_mangle)]
pub extern "C" fn sel_int32_values(alloc: Global, of: &ColumnRef, out: &mut [i32]) -> u32
    ensures { CopiesNumbers result of.now.tree of_int32 (λ x. x) out.old out.new }
{
    held_numbers_into::<i32>(alloc, of, out)
}

/// Copies the values to `out`, including those in null slots.
///
/// Errors: SEL_ERROR_NO_COLUMN: `of` is empty. SEL_ERROR_UNSUPPORTED_TYPE: its type is not
/// SEL_TYPE_INT64. SEL_ERROR_LENGTH_MISMATCH: `out_len` is not the number of rows.
#[unsafe(no_mangle)]
pub extern "C" fn sel_int64_values(alloc: Global, of: &ColumnRef, out: &mut [i64]) -> u32
    ensures { CopiesNumbers result of.now.tree of_int64 (λ x. x) out.old out.new }
{
    held_numbers_into::<i64>(alloc, of, out)
}

/// Copies the values to `out`, including those in null slots.
///
/// Errors: SEL_ERROR_NO_COLUMN: `of` is empty. SEL_ERROR_UNSUPPORTED_TYPE: its type is not
/// SEL_TYPE_UINT8. SEL_ERROR_LENGTH_MISMATCH: `out_len` is not the number of rows.
#[unsafe(no_mangle)]
pub extern "C" fn sel_uint8_values(alloc: Global, of: &ColumnRef, out: &mut [u8]) -> u32
    ensures { CopiesNumbers result of.now.tree of_uint8 pos out.old out.new }
{
    held_numbers_into::<u8>(alloc, of, out)
}

/// Copies the values to `out`, including those in null slots.
///
/// Errors: SEL_ERROR_NO_COLUMN: `of` is empty. SEL_ERROR_UNSUPPORTED_TYPE: its type is not
/// SEL_TYPE_UINT16. SEL_ERROR_LENGTH_MISMATCH: `out_len` is not the number of rows.
#[unsafe(no_mangle)]
pub extern "C" fn sel_uint16_values(alloc: Global, of: &ColumnRef, out: &mut [u16]) -> u32
    ensures { CopiesNumbers result of.now.tree of_uint16 pos out.old out.new }
{
    held_numbers_into::<u16>(alloc, of, out)
}

/// Copies the values to `out`, including those in null slots.
///
/// Errors: SEL_ERROR_NO_COLUMN: `of` is empty. SEL_ERROR_UNSUPPORTED_TYPE: its type is not
/// SEL_TYPE_UINT32. SEL_ERROR_LENGTH_MISMATCH: `out_len` is not the number of rows.
#[unsafe(no_mangle)]
pub extern "C" fn sel_uint32_values(alloc: Global, of: &ColumnRef, out: &mut [u32]) -> u32
    ensures { CopiesNumbers result of.now.tree of_uint32 pos out.old out.new }
{
    held_numbers_into::<u32>(alloc, of, out)
}

/// Copies the values to `out`, including those in null slots.
///
/// Errors: SEL_ERROR_NO_COLUMN: `of` is empty. SEL_ERROR_UNSUPPORTED_TYPE: its type is not
/// SEL_TYPE_UINT64. SEL_ERROR_LENGTH_MISMATCH: `out_len` is not the number of rows.
#[unsafe(no_mangle)]
pub extern "C" fn sel_uint64_values(alloc: Global, of: &ColumnRef, out: &mut [u64]) -> u32
    ensures { CopiesNumbers result of.now.tree of_uint64 pos out.old out.new }
{
    held_numbers_into::<u64>(alloc, of, out)
}
