//! Primitive columns in handles: built from slices, and copied into slices.

ghost use Rattle.std.specs.Prelude.{◌≡◌, ◌≤◌, [], ◌∷◌, length};
ghost use Rattle.sel_arrow.specs.Depth.{depth};
ghost use Rattle.sel_arrow.specs.Masked.{number_rows};
ghost use Rattle.sel_arrow.specs.Rows.{rows, type_of};
ghost use Rattle.sel_ffi.specs.Inputs.{validity_in, flat_rules};
ghost use Rattle.sel_ffi.specs.Outputs.{CopiesNumbers};
ghost use Rattle.sel_ffi.specs.Status.{Makes, ReportsOnly};

use crate::column_ref::ColumnRef;
use crate::handle::Handle;
use crate::inputs::numbers_of;
use crate::outputs::numbers_into;
use crate::status::{NO_COLUMN, put, status_of_maker};
use sel_arrow::primitive::ArrowPrimitive;
use std::alloc::Global;

/// Builds a primitive column from copies of `values` and of the validity in `bits`, and stores it
/// in `out`.
///
/// # Requires
/// The type of `T` has at most 128 levels, as each integer type does.
///
/// Errors: `TOO_MANY_ROWS` if there are more than 4,294,967,295 values; `VALIDITY_LENGTH` if `bits`
/// has fewer bits than there are values; `OUT_OF_MEMORY`. On error `out` is unchanged.
pub fn make_numbers<T: ArrowPrimitive>(
    alloc: Global,
    values: &[T],
    bits: &[u8],
    has_bits: bool,
    out: &mut Handle,
) -> u32
    requires { depth T.shape ≤ 128 }
    ensures rows { Makes result out.old.tree out.new.tree (λ made. rows made.column ≡
        number_rows T.number values.now (validity_in bits.now has_bits (length values.now))) }
    ensures dtype { Makes result out.old.tree out.new.tree
        (λ made. type_of made.column ≡ T.shape) }
    ensures status { ReportsOnly result (flat_rules (length values.now) bits.now has_bits) }
{
    match numbers_of(alloc, values, bits, has_bits) {
        Ok(column) => put(alloc, column, out),
        Err(fault) => status_of_maker(fault),
    }
}

/// Copies the values of the column, also those in null slots, into `out`.
///
/// Errors: `NO_COLUMN` if the handle has no column; `UNSUPPORTED_TYPE` if its type is not that of
/// `T`; `LENGTH_MISMATCH` if the length of `out` is not the number of rows; `OUT_OF_MEMORY`.
pub fn held_numbers_into<T: ArrowPrimitive>(alloc: Global, of: &ColumnRef, out: &mut [T]) -> u32
    ensures { CopiesNumbers result of.now.tree T.shape T.number out.old out.new }
{
    let Some(column) = of.column() else {
        return NO_COLUMN;
    };
    numbers_into(alloc, column, out)
}
