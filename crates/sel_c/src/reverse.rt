//! Reversal.

ghost use Rattle.std.specs.Prelude.{◌≡◌, ◌∷◌, [], reverse};
ghost use Rattle.sel_c.specs.Returns.{ReturnsColumn};
ghost use Rattle.sel_ffi.specs.Status.{ok, no_column, held_rows, held_type, HasColumn};

use sel_ffi::column_ref::ColumnRef;
use sel_ffi::handle::Handle;
use sel_ffi::status::{NO_COLUMN, OUT_OF_MEMORY, put};
use sel_kernels::reverse::reverse;
use std::alloc::Global;

/// Returns in `out` the rows of `of` in reverse order.
///
/// Errors: SEL_ERROR_NO_COLUMN: `of` is empty.
#[unsafe(no_mangle)]
pub extern "C" fn sel_reverse(alloc: Global, of: &ColumnRef, out: &mut Handle) -> u32
    ensures { ReturnsColumn result out.old.tree out.new.tree (reverse (held_rows of.now.tree))
        (held_type of.now.tree) ((no_column, HasColumn of.now.tree) ∷ []) (result ≡ ok) }
{
    let Some(column) = of.column() else {
        return NO_COLUMN;
    };
    match reverse(alloc, column) {
        Ok(reversed) => put(alloc, reversed, out),
        Err(_) => OUT_OF_MEMORY,
    }
}
