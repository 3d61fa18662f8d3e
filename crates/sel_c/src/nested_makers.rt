//! Binary, list and struct columns, from offsets and child columns.

ghost use Rattle.std.specs.Prelude.{◌≡◌, ◌≢◌, ◌≤◌, ◌<◌, ◌⊎◌, [], ◌∷◌, All, None, map};
ghost use Rattle.sel_arrow.specs.Depth.{depth, deepest};
ghost use Rattle.sel_arrow.specs.Nested.{list_rows, block_rows, struct_rows};
ghost use Rattle.sel_arrow.specs.Pieces.{byte_rows, rows_between};
ghost use Rattle.sel_arrow.specs.Rows.{rows, type_of};
ghost use Rattle.sel_arrow.specs.Shape.{of_large_binary, of_large_list, of_fixed_size_list, of_struct, shapes_of};
ghost use Rattle.sel_ffi.specs.Inputs.{positions, validity_in, binary_rules, list_rules, block_rules, struct_rules};
ghost use Rattle.sel_ffi.specs.Status.{ok, out_of_memory, no_column, too_deep, held_count, held_rows, held_type, HasColumn, Makes, ReportsExactly, ReturnsFirst};

use sel_ffi::handle::Handle;
use sel_ffi::nested::binary_of;
use sel_ffi::nested_into::{fixed_size_list_into, list_into, struct_into};
use sel_ffi::several::{clone_all, empty_all};
use sel_ffi::status::{NO_COLUMN, OK, put, status_of_maker};
use std::alloc::Global;

/// Returns in `out` the binary column whose row i is the bytes of `values` from `offsets[i]` up to
/// `offsets[i + 1]`, exclusive.
///
/// Errors: SEL_ERROR_NO_OFFSETS, SEL_ERROR_NEGATIVE_OFFSET, SEL_ERROR_DECREASING_OFFSET,
/// SEL_ERROR_VALIDITY_LENGTH, SEL_ERROR_TOO_MANY_ROWS, SEL_ERROR_OFFSET_RANGE.
#[unsafe(no_mangle)]
pub extern "C" fn sel_binary_new(
    alloc: Global,
    offsets: &[i64],
    values: &[u8],
    bits: &[u8],
    has_bits: bool,
    out: &mut Handle,
) -> u32
    ensures rows { Makes result out.old.tree out.new.tree (λ made. rows made.column ≡
        byte_rows (positions offsets.now) values.now
        (validity_in bits.now has_bits (rows_between (positions offsets.now)))) }
    ensures dtype { Makes result out.old.tree out.new.tree
        (λ made. type_of made.column ≡ of_large_binary) }
    ensures status { ReportsExactly result (binary_rules offsets.now values.now bits.now has_bits) }
{
    match binary_of(alloc, offsets, values, bits, has_bits) {
        Ok(column) => put(alloc, column, out),
        Err(fault) => status_of_maker(fault),
    }
}

/// Returns in `out` the list column whose row i is the rows of `child` from `offsets[i]` up to
/// `offsets[i + 1]`, exclusive. Takes `child`: on success it is empty afterwards, on error it is
/// unchanged.
///
/// Errors: SEL_ERROR_NO_COLUMN: `child` is empty. SEL_ERROR_TOO_DEEP. SEL_ERROR_NO_OFFSETS,
/// SEL_ERROR_NEGATIVE_OFFSET, SEL_ERROR_DECREASING_OFFSET, SEL_ERROR_VALIDITY_LENGTH,
/// SEL_ERROR_TOO_MANY_ROWS, SEL_ERROR_OFFSET_RANGE.
#[unsafe(no_mangle)]
pub extern "C" fn sel_list_new(
    alloc: Global,
    offsets: &[i64],
    bits: &[u8],
    has_bits: bool,
    child: &mut Handle,
    out: &mut Handle,
) -> u32
    ensures rows { Makes result out.old.tree out.new.tree (λ made. rows made.column ≡
        list_rows (positions offsets.now) (held_rows child.old.tree)
        (validity_in bits.now has_bits (rows_between (positions offsets.now)))) }
    ensures dtype { Makes result out.old.tree out.new.tree
        (λ made. type_of made.column ≡ of_large_list (held_type child.old.tree)) }
    ensures checks { ReturnsFirst result ((no_column, HasColumn child.old.tree) ∷ [])
        (result ≢ no_column) }
    ensures deep { 128 ≤ depth (held_type child.old.tree) → result ≡ too_deep }
    ensures status { HasColumn child.old.tree → depth (held_type child.old.tree) < 128 →
        ReportsExactly result (list_rules offsets.now (held_count child.old.tree) bits.now
        has_bits) }
    ensures taken { result ≡ ok → child.new.tree ≡ None }
    ensures kept { result ≢ ok → child.new.tree ≡ child.old.tree }
{
    let Some(shared) = child.take(alloc) else {
        return NO_COLUMN;
    };
    let status = list_into(alloc, offsets, bits, has_bits, shared.column(), out);
    if status == OK {
        drop(shared);
    } else {
        *child = Handle::of(shared);
    }
    status
}

/// Returns in `out` the column of `len` fixed-size lists of `width` rows of `child` each, one list
/// after the other. Takes `child`: on success it is empty afterwards, on error it is unchanged.
///
/// Errors: SEL_ERROR_NO_COLUMN: `child` is empty. SEL_ERROR_TOO_DEEP. SEL_ERROR_VALIDITY_LENGTH,
/// SEL_ERROR_TOO_MANY_ROWS, SEL_ERROR_LIST_SIZE, SEL_ERROR_CHILD_LENGTH.
#[unsafe(no_mangle)]
pub extern "C" fn sel_fixed_size_list_new(
    alloc: Global,
    width: usize,
    len: usize,
    bits: &[u8],
    has_bits: bool,
    child: &mut Handle,
    out: &mut Handle,
) -> u32
    ensures rows { Makes result out.old.tree out.new.tree (λ made. rows made.column ≡
        block_rows width len (held_rows child.old.tree) (validity_in bits.now has_bits len)) }
    ensures dtype { Makes result out.old.tree out.new.tree
        (λ made. type_of made.column ≡ of_fixed_size_list (held_type child.old.tree) width) }
    ensures checks { ReturnsFirst result ((no_column, HasColumn child.old.tree) ∷ [])
        (result ≢ no_column) }
    ensures deep { 128 ≤ depth (held_type child.old.tree) → result ≡ too_deep }
    ensures status { HasColumn child.old.tree → depth (held_type child.old.tree) < 128 →
        ReportsExactly result (block_rules width len (held_count child.old.tree) bits.now
        has_bits) }
    ensures taken { result ≡ ok → child.new.tree ≡ None }
    ensures kept { result ≢ ok → child.new.tree ≡ child.old.tree }
{
    let Some(shared) = child.take(alloc) else {
        return NO_COLUMN;
    };
    let status = fixed_size_list_into(alloc, width, len, bits, has_bits, shared.column(), out);
    if status == OK {
        drop(shared);
    } else {
        *child = Handle::of(shared);
    }
    status
}

/// Returns in `out` the struct column of `len` rows with these fields, in order. Takes the fields:
/// on success each of them is empty afterwards, on error they are unchanged.
///
/// Errors: SEL_ERROR_NO_COLUMN: a field is empty. SEL_ERROR_TOO_DEEP. SEL_ERROR_VALIDITY_LENGTH,
/// SEL_ERROR_TOO_MANY_ROWS, SEL_ERROR_FIELD_LENGTH.
#[unsafe(no_mangle)]
pub extern "C" fn sel_struct_new(
    alloc: Global,
    len: usize,
    bits: &[u8],
    has_bits: bool,
    fields: &mut [Handle],
    out: &mut Handle,
) -> u32
    ensures rows { Makes result out.old.tree out.new.tree
        (λ made. rows made.column ≡ struct_rows len
        (map (λ field. held_rows field.tree) fields.old) (validity_in bits.now has_bits len)) }
    ensures dtype { Makes result out.old.tree out.new.tree (λ made. type_of made.column ≡
        of_struct (shapes_of (map (λ field. held_type field.tree) fields.old))) }
    ensures checks { ReturnsFirst result
        ((no_column, All (λ field. HasColumn field.tree) fields.old) ∷ []) (result ≢ no_column) }
    ensures deep { All (λ field. HasColumn field.tree) fields.old →
        128 ≤ deepest (shapes_of (map (λ field. held_type field.tree) fields.old)) →
        (result ≡ too_deep) ⊎ (result ≡ out_of_memory) }
    ensures status { All (λ field. HasColumn field.tree) fields.old →
        deepest (shapes_of (map (λ field. held_type field.tree) fields.old)) < 128 →
        ReportsExactly result (struct_rules len
        (map (λ field. held_count field.tree) fields.old) bits.now has_bits) }
    ensures taken { result ≡ ok → All (λ field. field.tree ≡ None) fields.new }
    ensures kept { result ≢ ok →
        map (λ field. field.tree) fields.new ≡ map (λ field. field.tree) fields.old }
{
    let columns = match clone_all(alloc, fields) {
        Ok(columns) => columns,
        Err(status) => return status,
    };
    let status = struct_into(alloc, len, bits, has_bits, columns, out);
    if status == OK {
        empty_all(alloc, fields);
    }
    status
}
