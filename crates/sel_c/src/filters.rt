//! Filter.

ghost use Rattle.sel_c.specs.Filters.{Filters, FiltersByBits};

use crate::calls::filters::{filter_bits_into, filter_into};
use sel_ffi::column_ref::ColumnRef;
use sel_ffi::handle::Handle;
use sel_ffi::status::NO_COLUMN;
use std::alloc::Global;

/// Returns in `out` the rows of `of` where the boolean column `mask` is true. A null in the mask
/// counts as false.
///
/// Errors: SEL_ERROR_NO_COLUMN: `of` or `mask` is empty. SEL_ERROR_UNSUPPORTED_TYPE: the type of
/// `mask` is not SEL_TYPE_BOOLEAN. SEL_ERROR_LENGTH_MISMATCH: `of` and `mask` have different
/// lengths.
#[unsafe(no_mangle)]
pub extern "C" fn sel_filter(
    alloc: Global,
    of: &ColumnRef,
    mask: &ColumnRef,
    out: &mut Handle,
) -> u32
    ensures { Filters result of.now.tree mask.now.tree out.old.tree out.new.tree }
{
    let Some(column) = of.shared() else {
        return NO_COLUMN;
    };
    let Some(by) = mask.column() else {
        return NO_COLUMN;
    };
    filter_into(alloc, column, by, out)
}

/// Returns in `out` the rows of `of` whose bit is set in `mask`, which has `len` packed bits.
///
/// Errors: SEL_ERROR_NO_COLUMN: `of` is empty. SEL_ERROR_LENGTH_MISMATCH: `of` does not have `len`
/// rows, or `mask` has fewer than (len + 7) / 8 bytes.
#[unsafe(no_mangle)]
pub extern "C" fn sel_filter_bits(
    alloc: Global,
    of: &ColumnRef,
    mask: &[u8],
    len: usize,
    out: &mut Handle,
) -> u32
    ensures { FiltersByBits result of.now.tree out.old.tree out.new.tree mask.now len }
{
    let Some(column) = of.shared() else {
        return NO_COLUMN;
    };
    filter_bits_into(alloc, column, mask, len, out)
}
