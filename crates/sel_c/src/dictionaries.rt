//! Dictionaries.

ghost use Rattle.sel_c.specs.Dictionaries.{PropagatesNulls};

use crate::calls::dictionaries::propagate_columns_into;
use sel_ffi::column_ref::ColumnRef;
use sel_ffi::handle::Handle;
use sel_ffi::status::NO_COLUMN;
use std::alloc::Global;

/// Removes the null values of a dictionary: returns in `out_values` the values that are not null,
/// in order, and in `out_keys` the keys of these. A key is null if it was null or if its value was
/// null; else it refers to the same value as before.
///
/// Errors: SEL_ERROR_NO_COLUMN: `keys` or `values` is empty. SEL_ERROR_UNSUPPORTED_TYPE: the type
/// of `keys` is not SEL_TYPE_UINT32, or the type of `values` is not SEL_TYPE_STRING_VIEW.
/// SEL_ERROR_INDEX_OUT_OF_BOUNDS: a key that is not null is out of bounds.
#[unsafe(no_mangle)]
pub extern "C" fn sel_propagate_dictionary(
    alloc: Global,
    keys: &ColumnRef,
    values: &ColumnRef,
    out_keys: &mut Handle,
    out_values: &mut Handle,
) -> u32
    ensures { PropagatesNulls result keys.now.tree values.now.tree
        out_keys.old.tree out_keys.new.tree out_values.old.tree out_values.new.tree }
{
    let Some(at) = keys.column() else {
        return NO_COLUMN;
    };
    let Some(texts) = values.column() else {
        return NO_COLUMN;
    };
    propagate_columns_into(alloc, at, texts, out_keys, out_values)
}
