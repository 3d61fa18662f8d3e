//! List, fixed-size list and struct columns over existing columns, stored in handles.

ghost use Rattle.std.specs.Prelude.{◌≡◌, ◌≤◌, ◌<◌, ◌≢◌, map};
ghost use Rattle.sel_arrow.specs.Depth.{depth, deepest};
ghost use Rattle.sel_arrow.specs.Nested.{list_rows, block_rows, struct_rows};
ghost use Rattle.sel_arrow.specs.Pieces.{rows_between};
ghost use Rattle.sel_arrow.specs.Rows.{rows, row_count, type_of};
ghost use Rattle.sel_arrow.specs.Shape.{of_large_list, of_fixed_size_list, of_struct, shapes_of};
ghost use Rattle.sel_ffi.specs.Inputs.{positions, validity_in, list_rules, block_rules, struct_rules};
ghost use Rattle.sel_ffi.specs.Status.{ok, no_column, too_deep, Makes, ReportsExactly};

use crate::depth::{MAX_DEPTH, arrays_are_within, is_within};
use crate::handle::Handle;
use crate::nested::{blocks_of, lists_of, struct_of};
use crate::status::{OUT_OF_MEMORY, TOO_DEEP, put, status_of_maker};
use sel_arrow::array::Array;
use sel_arrow::array_ref::ArrayRef;
use std::alloc::Global;

/// Stores in `out` a column of lists with 64-bit offsets over a column, whose buffers it shares.
///
/// Errors: `TOO_DEEP` if the column has 128 levels; the status of the first broken rule of
/// [`lists_of`]; `OUT_OF_MEMORY`. On error `out` is unchanged.
#[tactic(auto, using(crate::proofs::Reported::same_count))]
pub fn list_into(
    alloc: Global,
    offsets: &[i64],
    bits: &[u8],
    has_bits: bool,
    child: &ArrayRef,
    out: &mut Handle,
) -> u32
    ensures rows { Makes result out.old.tree out.new.tree (λ made. rows made.column ≡
        list_rows (positions offsets.now) (rows child.now.column)
        (validity_in bits.now has_bits (rows_between (positions offsets.now)))) }
    ensures dtype { Makes result out.old.tree out.new.tree
        (λ made. type_of made.column ≡ of_large_list (type_of child.now.column)) }
    ensures deep { 128 ≤ depth (type_of child.now.column) → result ≡ too_deep }
    ensures status { depth (type_of child.now.column) < 128 → ReportsExactly result
        (list_rules offsets.now (row_count child.now.column) bits.now has_bits) }
    ensures column { result ≢ no_column }
{
    if !is_within(child.as_column(), MAX_DEPTH - 1) {
        return TOO_DEEP;
    }
    let Ok(copy) = child.try_clone(alloc) else {
        return OUT_OF_MEMORY;
    };
    match lists_of(alloc, offsets, bits, has_bits, copy) {
        Ok(column) => put(alloc, column, out),
        Err(fault) => status_of_maker(fault),
    }
}

/// Stores in `out` a column of `len` fixed-size lists of `width` rows over a column, whose buffers
/// it shares.
///
/// Errors: `TOO_DEEP` if the column has 128 levels; the status of the first broken rule of
/// [`blocks_of`]; `OUT_OF_MEMORY`. On error `out` is unchanged.
#[tactic(auto, using(crate::proofs::Reported::same_count))]
pub fn fixed_size_list_into(
    alloc: Global,
    width: usize,
    len: usize,
    bits: &[u8],
    has_bits: bool,
    child: &ArrayRef,
    out: &mut Handle,
) -> u32
    ensures rows { Makes result out.old.tree out.new.tree (λ made. rows made.column ≡
        block_rows width len (rows child.now.column) (validity_in bits.now has_bits len)) }
    ensures dtype { Makes result out.old.tree out.new.tree
        (λ made. type_of made.column ≡ of_fixed_size_list (type_of child.now.column) width) }
    ensures deep { 128 ≤ depth (type_of child.now.column) → result ≡ too_deep }
    ensures status { depth (type_of child.now.column) < 128 → ReportsExactly result
        (block_rules width len (row_count child.now.column) bits.now has_bits) }
    ensures column { result ≢ no_column }
{
    if !is_within(child.as_column(), MAX_DEPTH - 1) {
        return TOO_DEEP;
    }
    let Ok(copy) = child.try_clone(alloc) else {
        return OUT_OF_MEMORY;
    };
    match blocks_of(alloc, width, len, bits, has_bits, copy) {
        Ok(column) => put(alloc, column, out),
        Err(fault) => status_of_maker(fault),
    }
}

/// Stores in `out` a struct column of `len` rows with these fields.
///
/// Errors: `TOO_DEEP` if a field has 128 levels; the status of the first broken rule of
/// [`struct_of`]; `OUT_OF_MEMORY`. On error `out` is unchanged and the fields are freed.
pub fn struct_into(
    alloc: Global,
    len: usize,
    bits: &[u8],
    has_bits: bool,
    fields: Vec<ArrayRef>,
    out: &mut Handle,
) -> u32
    ensures rows { Makes result out.old.tree out.new.tree
        (λ made. rows made.column ≡ struct_rows len
        (map (λ field. rows field.column) fields.items) (validity_in bits.now has_bits len)) }
    ensures dtype { Makes result out.old.tree out.new.tree (λ made. type_of made.column ≡
        of_struct (shapes_of (map (λ field. type_of field.column) fields.items))) }
    ensures deep { 128 ≤ deepest
        (shapes_of (map (λ field. type_of field.column) fields.items)) → result ≡ too_deep }
    ensures status { deepest (shapes_of (map (λ field. type_of field.column) fields.items)) <
        128 → ReportsExactly result
        (struct_rules len (map (λ field. row_count field.column) fields.items) bits.now has_bits) }
    ensures column { result ≢ no_column }
{
    if !arrays_are_within(&fields, MAX_DEPTH - 1) {
        drop(fields);
        return TOO_DEEP;
    }
    match struct_of(alloc, len, bits, has_bits, fields) {
        Ok(column) => put(alloc, column, out),
        Err(fault) => status_of_maker(fault),
    }
}
