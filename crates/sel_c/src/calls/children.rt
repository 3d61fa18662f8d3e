//! List children and struct fields as columns, which share the buffers of their parent.

ghost use Rattle.std.specs.Prelude.{◌≡◌, ◌<◌, ◌≤◌, length, IfSome, IfNone, true, false, [], Some};
ghost use Rattle.sel_arrow.specs.Depth.{depth};
ghost use Rattle.sel_arrow.specs.Rows.{type_of, IsWellFormed};
ghost use Rattle.sel_arrow.specs.Shape.{is_struct_shape};
ghost use Rattle.sel_c.specs.Below.{ReturnsChild, ReturnsField, ReturnsFieldCount, ReturnsListSize};
ghost use Rattle.sel_gather.specs.Children.{child, field, fields_of, is_listing};

use sel_arrow::array_ref::ArrayRef;
use sel_arrow::column::Column;
use sel_ffi::handle::Handle;
use sel_ffi::status::{INDEX_OUT_OF_BOUNDS, OK, OUT_OF_MEMORY, UNSUPPORTED_TYPE, put};
use std::alloc::Global;

/// Stores the child of a list or fixed-size list column in `out`.
///
/// Errors: `UNSUPPORTED_TYPE` if the column has another type; `OUT_OF_MEMORY`.
pub fn child_into(alloc: Global, column: &ArrayRef, out: &mut Handle) -> u32
    requires { depth (type_of column.now.column) ≤ 128 }
    ensures { ReturnsChild result (Some column.now) out.old.tree out.new.tree }
{
    let Some(entries) = child_of(column) else {
        return UNSUPPORTED_TYPE;
    };
    match entries.try_clone(alloc) {
        Ok(column) => put(alloc, ArrayRef { column }, out),
        Err(_) => OUT_OF_MEMORY,
    }
}

/// Returns the child of a list or fixed-size list column, or none for another type.
#[tactic(auto, using(crate::proofs::Below::below))]
fn child_of(column: &ArrayRef) -> Option<&Column>
    ensures child { IfSome result (λ entries. entries.now ≡ child column.now.column) }
    ensures formed { IfSome result (λ entries. IsWellFormed entries.now) }
    ensures some { IfSome result (λ _. is_listing (type_of column.now.column) ≡ true) }
    ensures none { IfNone result (is_listing (type_of column.now.column) ≡ false) }
{
    match column.as_column() {
        Column::LargeList { values, .. } => Some(values),
        Column::FixedSizeList { values, .. } => Some(values),
        _ => None,
    }
}

/// Writes the list size of a fixed-size list column to `width`.
///
/// Errors: `UNSUPPORTED_TYPE` if the column has another type.
pub fn width_into(column: &ArrayRef, width: &mut usize) -> u32
    ensures { ReturnsListSize result (Some column.now) width.old width.new }
{
    match column.as_column() {
        Column::FixedSizeList { size, .. } => {
            *width = *size;
            OK
        }
        _ => UNSUPPORTED_TYPE,
    }
}

/// Writes the number of fields of a struct column to `count`.
///
/// Errors: `UNSUPPORTED_TYPE` if the column has another type.
pub fn field_count_into(column: &ArrayRef, count: &mut usize) -> u32
    ensures { ReturnsFieldCount result (Some column.now) count.old count.new }
{
    let Some(fields) = struct_fields(column) else {
        return UNSUPPORTED_TYPE;
    };
    *count = fields.len();
    OK
}

/// Returns the fields of a struct column, or none for another type.
fn struct_fields(column: &ArrayRef) -> Option<&[Column]>
    ensures fields { IfSome result (λ fields. fields.now ≡ fields_of column.now.column) }
    ensures some { IfSome result (λ _. is_struct_shape (type_of column.now.column) ≡ true) }
    ensures none { IfNone result (is_struct_shape (type_of column.now.column) ≡ false) }
    ensures empty { IfNone result (fields_of column.now.column ≡ []) }
    ensures formed { IsWellFormed column.now.column }
{
    match column.as_column() {
        Column::Struct { fields, .. } => Some(fields.as_slice()),
        _ => None,
    }
}

/// Stores field `i` of a struct column in `out`.
///
/// Errors: `INDEX_OUT_OF_BOUNDS` if the column has no field `i`, or is not a struct column;
/// `OUT_OF_MEMORY`.
#[tactic(auto, using(crate::proofs::Below::below))]
pub fn field_into(alloc: Global, column: &ArrayRef, i: usize, out: &mut Handle) -> u32
    requires { depth (type_of column.now.column) ≤ 128 }
    ensures { ReturnsField result (Some column.now) i out.old.tree out.new.tree }
{
    let Some(part) = field_of(column, i) else {
        return INDEX_OUT_OF_BOUNDS;
    };
    match part.try_clone(alloc) {
        Ok(column) => put(alloc, ArrayRef { column }, out),
        Err(_) => OUT_OF_MEMORY,
    }
}

/// Returns field `i` of a struct column; none if it has fewer fields, or for another type.
fn field_of(column: &ArrayRef, i: usize) -> Option<&Column>
    ensures field { IfSome result (λ part. part.now ≡ field i column.now.column) }
    ensures some { IfSome result (λ _. i < length (fields_of column.now.column)) }
    ensures formed { IsWellFormed column.now.column }
    ensures none { IfNone result (length (fields_of column.now.column) ≤ i) }
{
    let fields = struct_fields(column)?;
    if i < fields.len() {
        Some(&fields[i])
    } else {
        None
    }
}
