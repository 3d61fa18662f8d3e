//! Columns: slice, share, free.

ghost use Rattle.std.specs.Prelude.{◌≡◌, ◌≤◌, ◌+◌, [], ◌∷◌, length, take, drop, None};
ghost use Rattle.sel_c.specs.Returns.{ReturnsColumn};
ghost use Rattle.sel_ffi.specs.Status.{ok, no_column, index_out_of_bounds, held_rows, held_type, HasColumn};

use sel_arrow::array::Array;
use sel_ffi::column_ref::ColumnRef;
use sel_ffi::handle::Handle;
use sel_ffi::status::{INDEX_OUT_OF_BOUNDS, NO_COLUMN, OUT_OF_MEMORY, put, put_again};
use std::alloc::Global;

/// Returns in `out` the `len` rows of `of` from row `off` on. The result shares the buffers of
/// `of`.
///
/// Errors: SEL_ERROR_NO_COLUMN: `of` is empty. SEL_ERROR_INDEX_OUT_OF_BOUNDS: `of` has fewer than
/// `off + len` rows.
#[unsafe(no_mangle)]
pub extern "C" fn sel_slice(
    alloc: Global,
    of: &ColumnRef,
    off: usize,
    len: usize,
    out: &mut Handle,
) -> u32
    ensures { ReturnsColumn result out.old.tree out.new.tree
        (take len (drop off (held_rows of.now.tree))) (held_type of.now.tree)
        ((no_column, HasColumn of.now.tree) ∷
        (index_out_of_bounds, off + len ≤ length (held_rows of.now.tree)) ∷ []) (result ≡ ok) }
{
    let Some(column) = of.column() else {
        return NO_COLUMN;
    };
    let all = column.len();
    if off > all || len > all - off {
        return INDEX_OUT_OF_BOUNDS;
    }
    match column.sliced(alloc, off, len) {
        Ok(part) => put(alloc, part, out),
        Err(_) => OUT_OF_MEMORY,
    }
}

/// Returns in `out` a second handle to the column of `of`. Copies nothing.
///
/// Errors: SEL_ERROR_NO_COLUMN: `of` is empty.
#[unsafe(no_mangle)]
pub extern "C" fn sel_share(alloc: Global, of: &ColumnRef, out: &mut Handle) -> u32
    ensures { ReturnsColumn result out.old.tree out.new.tree (held_rows of.now.tree)
        (held_type of.now.tree) ((no_column, HasColumn of.now.tree) ∷ []) (result ≡ ok) }
{
    let Some(shared) = of.shared() else {
        return NO_COLUMN;
    };
    put_again(alloc, shared, out)
}

/// Frees the column of `of`, if there is one. `of` is empty afterwards.
#[unsafe(no_mangle)]
pub extern "C" fn sel_free(alloc: Global, of: &mut Handle)
    ensures { of.new.tree ≡ None }
{
    *of = Handle::empty(alloc);
}
