//! Dictionaries: keys into string values.

ghost use Rattle.std.specs.Prelude.{◌≡◌, ◌≤◌, [], ◌∷◌, IfSome, Some};
ghost use Rattle.sel_arrow.specs.Columns.{primitive_rows, utf8view_rows};
ghost use Rattle.sel_arrow.specs.Depth.{depth};
ghost use Rattle.sel_arrow.specs.Rows.{rows, type_of};
ghost use Rattle.sel_arrow.specs.Shape.{of_utf8_view};
ghost use Rattle.sel_c.specs.Dictionaries.{Propagates, PropagatesNulls};
ghost use Rattle.sel_ffi.specs.Status.{out_of_memory, unsupported_type, Makes};

use sel_arrow::array::Array;
use sel_arrow::array_ref::ArrayRef;
use sel_arrow::primitive::PrimitiveArray;
use sel_arrow::utf8view::Utf8ViewArray;
use sel_ffi::handle::Handle;
use sel_ffi::shared_column::SharedColumn;
use sel_ffi::status::{INDEX_OUT_OF_BOUNDS, OK, OUT_OF_MEMORY, UNSUPPORTED_TYPE};
use sel_kernels::propagate_dictionary::{keys_in_bounds, propagate_dictionary_value_nulls};
use std::alloc::Global;

/// Makes the keys of null values null, and drops the null values of a dictionary.
///
/// Stores in `out_keys` the keys, renumbered to the values that are left, and in `out_values` these
/// values. On error both are unchanged.
///
/// Errors: `UNSUPPORTED_TYPE` if the keys are not 32-bit unsigned integers or the values are not
/// string views; `INDEX_OUT_OF_BOUNDS` if a valid key is not less than the number of values;
/// `OUT_OF_MEMORY`.
pub fn propagate_columns_into(
    alloc: Global,
    keys: &ArrayRef,
    values: &ArrayRef,
    out_keys: &mut Handle,
    out_values: &mut Handle,
) -> u32
    ensures { PropagatesNulls result (Some keys.now) (Some values.now)
        out_keys.old.tree out_keys.new.tree out_values.old.tree out_values.new.tree }
{
    let Ok(copy) = keys.try_clone(alloc) else {
        return OUT_OF_MEMORY;
    };
    let at = match copy.into_array::<PrimitiveArray<u32>>() {
        Ok(at) => at,
        Err(back) => {
            drop(back);
            return UNSUPPORTED_TYPE;
        }
    };
    propagate_keys_into(alloc, &at, values, out_keys, out_values)
}

fn propagate_keys_into(
    alloc: Global,
    keys: &PrimitiveArray<u32>,
    values: &ArrayRef,
    out_keys: &mut Handle,
    out_values: &mut Handle,
) -> u32
    ensures { Propagates result (primitive_rows keys.now) (rows values.now.column)
        ((unsupported_type, type_of values.now.column ≡ of_utf8_view) ∷ [])
        out_keys.old.tree out_keys.new.tree out_values.old.tree out_values.new.tree }
{
    let Ok(copy) = values.try_clone(alloc) else {
        return OUT_OF_MEMORY;
    };
    let texts = match copy.into_array::<Utf8ViewArray>() {
        Ok(texts) => texts,
        Err(back) => {
            drop(back);
            return UNSUPPORTED_TYPE;
        }
    };
    propagate_texts_into(alloc, keys, &texts, out_keys, out_values)
}

fn propagate_texts_into(
    alloc: Global,
    keys: &PrimitiveArray<u32>,
    values: &Utf8ViewArray,
    out_keys: &mut Handle,
    out_values: &mut Handle,
) -> u32
    ensures { Propagates result (primitive_rows keys.now) (utf8view_rows values.now) []
        out_keys.old.tree out_keys.new.tree out_values.old.tree out_values.new.tree }
{
    if !keys_in_bounds(keys, values.len()) {
        return INDEX_OUT_OF_BOUNDS;
    }
    match propagate_dictionary_value_nulls(alloc, keys, values) {
        Ok((keys, values)) => put_both(
            alloc,
            keys.into_ref(),
            values.into_ref(),
            out_keys,
            out_values,
        ),
        Err(_) => OUT_OF_MEMORY,
    }
}

// Stores a column in each of two handles, or in neither if an allocation fails. Errors:
// `OUT_OF_MEMORY`.
fn put_both(
    alloc: Global,
    first: ArrayRef,
    second: ArrayRef,
    out_first: &mut Handle,
    out_second: &mut Handle,
) -> u32
    requires first { depth (type_of first.column) ≤ 128 }
    requires second { depth (type_of second.column) ≤ 128 }
    ensures first { Makes result out_first.old.tree out_first.new.tree (λ made. made ≡ first) }
    ensures second { Makes result out_second.old.tree out_second.new.tree
        (λ made. made ≡ second) }
    ensures status { result ≤ out_of_memory }
{
    let Some(first) = boxed(alloc, first) else {
        drop(second);
        return OUT_OF_MEMORY;
    };
    let Some(second) = boxed(alloc, second) else {
        drop(first);
        return OUT_OF_MEMORY;
    };
    *out_first = Handle::of(first);
    *out_second = Handle::of(second);
    OK
}

// Moves the column into a box; returns none and frees the column if an allocation fails.
fn boxed(alloc: Global, column: ArrayRef) -> Option<Box<SharedColumn>>
    requires { depth (type_of column.column) ≤ 128 }
    ensures { IfSome result (λ boxed. boxed.value ≡ column) }
{
    let Ok(shared) = SharedColumn::new(alloc, column) else {
        return None;
    };
    match Box::new(alloc, shared) {
        Ok(boxed) => Some(boxed),
        Err(failed) => {
            drop(failed.value);
            None
        }
    }
}
