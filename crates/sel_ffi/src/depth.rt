//! The nesting depth of a column.

ghost use Rattle.std.specs.Prelude.{◌≤◌, ◌↔◌, map, IsTrue};
ghost use Rattle.sel_arrow.specs.Depth.{depth, deepest};
ghost use Rattle.sel_arrow.specs.Rows.{type_of};
ghost use Rattle.sel_arrow.specs.Shape.{shapes_of};

use sel_arrow::array_ref::ArrayRef;
use sel_arrow::column::Column;

/// The greatest nesting depth of a column that a handle can have.
pub const MAX_DEPTH: usize = 128;

/// Returns whether at most `levels` lists, fixed-size lists and structs are nested in one another.
///
/// Recurses at most `levels` times.
#[cycle(is_within)]
pub fn is_within(column: &Column, levels: usize) -> bool
    ensures { IsTrue result ↔ depth (type_of column.now) ≤ levels }
{
    match column {
        Column::LargeList { values, .. } => levels > 0 && is_within(values, levels - 1),
        Column::FixedSizeList { values, .. } => levels > 0 && is_within(values, levels - 1),
        Column::Struct { fields, .. } => levels > 0 && are_within(fields, levels - 1),
        _ => true,
    }
}

// Returns whether each of the columns is nested at most `levels` deep.
#[cycle(is_within)]
fn are_within(columns: &[Column], levels: usize) -> bool
    ensures { IsTrue result ↔ deepest (shapes_of (map type_of columns.now)) ≤ levels }
{
    for column in columns {
        if !is_within(column, levels) {
            return false;
        }
    }
    true
}

/// Returns whether each of the columns is nested at most `levels` deep.
pub fn arrays_are_within(arrays: &[ArrayRef], levels: usize) -> bool
    ensures { IsTrue result ↔
        deepest (shapes_of (map (λ array. type_of array.column) arrays.now)) ≤ levels }
{
    for array in arrays {
        if !is_within(array.as_column(), levels) {
            return false;
        }
    }
    true
}
