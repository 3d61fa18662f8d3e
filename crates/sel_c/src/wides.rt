//! Columns of 128-bit integers, passed as two words each.

ghost use Rattle.std.specs.Prelude.{◌≡◌, length};
ghost use Rattle.sel_arrow.specs.Masked.{number_rows};
ghost use Rattle.sel_arrow.specs.Rows.{rows, type_of};
ghost use Rattle.sel_arrow.specs.Shape.{of_int128, of_uint128};
ghost use Rattle.sel_c.specs.Wides.{signed_wide, unsigned_wide};
ghost use Rattle.sel_ffi.specs.Inputs.{validity_in, flat_rules};
ghost use Rattle.sel_ffi.specs.Outputs.{CopiesNumbers};
ghost use Rattle.sel_ffi.specs.Status.{Makes, ReportsExactly};

use crate::calls::wides::{Wide, wides_into, wides_of};
use sel_arrow::primitive::ArrowPrimitive;
use sel_ffi::column_ref::ColumnRef;
use sel_ffi::handle::Handle;
use sel_ffi::status::{NO_COLUMN, put, status_of_maker};
use std::alloc::Global;

/// Returns in `out` the column of these 128-bit integers in two's complement.
///
/// Errors: SEL_ERROR_TOO_MANY_ROWS: more than 4,294,967,295 values. SEL_ERROR_VALIDITY_LENGTH: the
/// validity is too short.
#[unsafe(no_mangle)]
pub extern "C" fn sel_int128_new(
    alloc: Global,
    values: &[Wide],
    bits: &[u8],
    has_bits: bool,
    out: &mut Handle,
) -> u32
    ensures rows { Makes result out.old.tree out.new.tree (λ made. rows made.column ≡
        number_rows signed_wide values.now (validity_in bits.now has_bits (length values.now))) }
    ensures dtype { Makes result out.old.tree out.new.tree
        (λ made. type_of made.column ≡ of_int128) }
    ensures status { ReportsExactly result (flat_rules (length values.now) bits.now has_bits) }
{
    match wides_of::<i128>(alloc, values, bits, has_bits) {
        Ok(column) => put(alloc, column, out),
        Err(fault) => status_of_maker(fault),
    }
}

/// Copies the values to `out`, including those in null slots.
///
/// Errors: SEL_ERROR_NO_COLUMN: `of` is empty. SEL_ERROR_UNSUPPORTED_TYPE: its type is not
/// SEL_TYPE_INT128. SEL_ERROR_LENGTH_MISMATCH: `out_len` is not the number of rows.
#[unsafe(no_mangle)]
pub extern "C" fn sel_int128_values(alloc: Global, of: &ColumnRef, out: &mut [Wide]) -> u32
    ensures { CopiesNumbers result of.now.tree of_int128 signed_wide out.old out.new }
{
    let Some(column) = of.column() else {
        return NO_COLUMN;
    };
    wides_into::<i128>(alloc, column, out)
}

/// Returns in `out` the column of these unsigned 128-bit integers.
///
/// Errors: SEL_ERROR_TOO_MANY_ROWS: more than 4,294,967,295 values. SEL_ERROR_VALIDITY_LENGTH: the
/// validity is too short.
#[unsafe(no_mangle)]
pub extern "C" fn sel_uint128_new(
    alloc: Global,
    values: &[Wide],
    bits: &[u8],
    has_bits: bool,
    out: &mut Handle,
) -> u32
    ensures rows { Makes result out.old.tree out.new.tree (λ made. rows made.column ≡
        number_rows unsigned_wide values.now (validity_in bits.now has_bits (length values.now))) }
    ensures dtype { Makes result out.old.tree out.new.tree
        (λ made. type_of made.column ≡ of_uint128) }
    ensures status { ReportsExactly result (flat_rules (length values.now) bits.now has_bits) }
{
    match wides_of::<u128>(alloc, values, bits, has_bits) {
        Ok(column) => put(alloc, column, out),
        Err(fault) => status_of_maker(fault),
    }
}

/// Copies the values to `out`, including those in null slots.
///
/// Errors: SEL_ERROR_NO_COLUMN: `of` is empty. SEL_ERROR_UNSUPPORTED_TYPE: its type is not
/// SEL_TYPE_UINT128. SEL_ERROR_LENGTH_MISMATCH: `out_len` is not the number of rows.
#[unsafe(no_mangle)]
pub extern "C" fn sel_uint128_values(alloc: Global, of: &ColumnRef, out: &mut [Wide]) -> u32
    ensures { CopiesNumbers result of.now.tree of_uint128 unsigned_wide out.old out.new }
{
    let Some(column) = of.column() else {
        return NO_COLUMN;
    };
    wides_into::<u128>(alloc, column, out)
}
