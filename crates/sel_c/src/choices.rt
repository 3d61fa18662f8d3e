//! If-then-else.

ghost use Rattle.std.specs.Prelude.{◌≡◌, ◌++◌, ◌∷◌, length, true, false};
ghost use Rattle.sel_ternary.specs.Choose.{choose, broadcast_true, broadcast_false, broadcast_both};
ghost use Rattle.sel_ternary.specs.Chosen.{first_row};
ghost use Rattle.sel_ffi.specs.Status.{held_rows};
ghost use Rattle.sel_kernels.specs.Select.{effective_mask};
ghost use Rattle.sel_c.specs.Choices.{Chooses};

use crate::calls::choices::choose_handles;
use sel_ffi::column_ref::ColumnRef;
use sel_ffi::handle::Handle;
use std::alloc::Global;

/// Returns in `out` the column whose row k is row k of `if_true` where the boolean column `mask`
/// is true, else row k of `if_false`. A null in the mask counts as false.
///
/// Errors: SEL_ERROR_NO_COLUMN: `mask`, `if_true` or `if_false` is empty.
/// SEL_ERROR_UNSUPPORTED_TYPE: the type of `mask` is not SEL_TYPE_BOOLEAN. SEL_ERROR_TYPE_MISMATCH:
/// `if_true` and `if_false` have different types. SEL_ERROR_LENGTH_MISMATCH: `if_true` or
/// `if_false` does not have as many rows as `mask`. SEL_ERROR_ROW_LIMIT, SEL_ERROR_OFFSET_LIMIT,
/// SEL_ERROR_BUFFER_LIMIT: the result exceeds a size limit.
#[unsafe(no_mangle)]
pub extern "C" fn sel_if_then_else(
    alloc: Global,
    mask: &ColumnRef,
    if_true: &ColumnRef,
    if_false: &ColumnRef,
    out: &mut Handle,
) -> u32
    ensures { Chooses result mask.now.tree if_true.now.tree if_false.now.tree
        out.old.tree out.new.tree
        ((length (held_rows if_true.now.tree) ≡ length (held_rows mask.now.tree)) ×
        (length (held_rows if_false.now.tree) ≡ length (held_rows mask.now.tree)))
        (choose (effective_mask (held_rows mask.now.tree))
        (held_rows if_true.now.tree) (held_rows if_false.now.tree)) }
{
    choose_handles(alloc, mask, if_true, if_false, true, true, out)
}

/// As `sel_if_then_else`, with the true value broadcast: `if_true` has one row, which may be null.
///
/// Errors: SEL_ERROR_NO_COLUMN: `mask`, `if_true` or `if_false` is empty.
/// SEL_ERROR_UNSUPPORTED_TYPE: the type of `mask` is not SEL_TYPE_BOOLEAN. SEL_ERROR_TYPE_MISMATCH:
/// `if_true` and `if_false` have different types. SEL_ERROR_LENGTH_MISMATCH: `if_true` does not
/// have one row, or `if_false` does not have as many rows as `mask`. SEL_ERROR_ROW_LIMIT,
/// SEL_ERROR_OFFSET_LIMIT, SEL_ERROR_BUFFER_LIMIT: the result exceeds a size limit.
#[unsafe(no_mangle)]
pub extern "C" fn sel_if_then_else_broadcast_true(
    alloc: Global,
    mask: &ColumnRef,
    if_true: &ColumnRef,
    if_false: &ColumnRef,
    out: &mut Handle,
) -> u32
    ensures { Chooses result mask.now.tree if_true.now.tree if_false.now.tree
        out.old.tree out.new.tree
        ((length (held_rows if_true.now.tree) ≡ 1) ×
        (length (held_rows if_false.now.tree) ≡ length (held_rows mask.now.tree)))
        (broadcast_true (effective_mask (held_rows mask.now.tree))
        (first_row (held_rows if_true.now.tree)) (held_rows if_false.now.tree)) }
{
    choose_handles(alloc, mask, if_true, if_false, false, true, out)
}

/// As `sel_if_then_else`, with the false value broadcast: `if_false` has one row, which may be
/// null.
///
/// Errors: SEL_ERROR_NO_COLUMN: `mask`, `if_true` or `if_false` is empty.
/// SEL_ERROR_UNSUPPORTED_TYPE: the type of `mask` is not SEL_TYPE_BOOLEAN. SEL_ERROR_TYPE_MISMATCH:
/// `if_true` and `if_false` have different types. SEL_ERROR_LENGTH_MISMATCH: `if_false` does not
/// have one row, or `if_true` does not have as many rows as `mask`. SEL_ERROR_ROW_LIMIT,
/// SEL_ERROR_OFFSET_LIMIT, SEL_ERROR_BUFFER_LIMIT: the result exceeds a size limit.
#[unsafe(no_mangle)]
pub extern "C" fn sel_if_then_else_broadcast_false(
    alloc: Global,
    mask: &ColumnRef,
    if_true: &ColumnRef,
    if_false: &ColumnRef,
    out: &mut Handle,
) -> u32
    ensures { Chooses result mask.now.tree if_true.now.tree if_false.now.tree
        out.old.tree out.new.tree
        ((length (held_rows if_true.now.tree) ≡ length (held_rows mask.now.tree)) ×
        (length (held_rows if_false.now.tree) ≡ 1))
        (broadcast_false (effective_mask (held_rows mask.now.tree))
        (held_rows if_true.now.tree) (first_row (held_rows if_false.now.tree))) }
{
    choose_handles(alloc, mask, if_true, if_false, true, false, out)
}

/// As `sel_if_then_else`, with both values broadcast: `if_true` and `if_false` have one row each,
/// which may be null. The result has as many rows as `mask`.
///
/// Errors: SEL_ERROR_NO_COLUMN: `mask`, `if_true` or `if_false` is empty.
/// SEL_ERROR_UNSUPPORTED_TYPE: the type of `mask` is not SEL_TYPE_BOOLEAN. SEL_ERROR_TYPE_MISMATCH:
/// `if_true` and `if_false` have different types. SEL_ERROR_LENGTH_MISMATCH: `if_true` or
/// `if_false` does not have one row. SEL_ERROR_ROW_LIMIT, SEL_ERROR_OFFSET_LIMIT,
/// SEL_ERROR_BUFFER_LIMIT: the result exceeds a size limit.
#[unsafe(no_mangle)]
pub extern "C" fn sel_if_then_else_broadcast_both(
    alloc: Global,
    mask: &ColumnRef,
    if_true: &ColumnRef,
    if_false: &ColumnRef,
    out: &mut Handle,
) -> u32
    ensures { Chooses result mask.now.tree if_true.now.tree if_false.now.tree
        out.old.tree out.new.tree
        ((length (held_rows if_true.now.tree) ≡ 1) ×
        (length (held_rows if_false.now.tree) ≡ 1))
        (broadcast_both (effective_mask (held_rows mask.now.tree))
        (first_row (held_rows if_true.now.tree)) (first_row (held_rows if_false.now.tree))) }
{
    choose_handles(alloc, mask, if_true, if_false, false, false, out)
}
