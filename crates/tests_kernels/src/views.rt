//! The views and data buffers of an if-then-else of view columns; its rows are tested as data.

use crate::masks::{is_as_long, made};
use sel_arrow::array::Array;
use sel_arrow::binview::BinaryViewArray;
use sel_arrow::view::View;
use sel_bits::bitmap::Bitmap;
use sel_bits::buffer::Buffer;
use sel_bits::faults::{PolarsError, PolarsResult};
use sel_ternary::if_then_else::IfThenElseKernel;
use std::alloc::Global;
use tests_bits::column_fixtures::{has_bytes_at, one_buffer};
use tests_bits::fixtures::{both, buffer, same};

const LONG: &[u8; 13] = b"abcdefghijklm";

const OTHER: &[u8; 13] = b"nopqrstuvwxyz";

// Returns a column of 13 bytes in a data buffer.
fn far_bytes(alloc: Global, bytes: &[u8; 13]) -> PolarsResult<BinaryViewArray> {
    let view = View::new_from_bytes(bytes, 0, 0);
    let (views, data) = both(buffer(alloc, &[view]), one_buffer(alloc, bytes))?;
    made(BinaryViewArray::try_new(views, data, None))
}

// Returns a column of only this inline view.
fn near_bytes(alloc: Global, view: View) -> PolarsResult<BinaryViewArray> {
    let (views, none) = both(buffer(alloc, &[view]), Buffer::from_vec(Vec::new(alloc)))?;
    made(BinaryViewArray::try_new(views, none, None))
}

// Returns the only row of an if-then-else whose only mask bit is false.
fn otherwise(
    alloc: Global,
    if_true: &BinaryViewArray,
    if_false: &BinaryViewArray,
) -> PolarsResult<BinaryViewArray> {
    let mask = Bitmap::from_bools(alloc, &[false])?;
    if !is_as_long(if_true, &mask) || !is_as_long(if_false, &mask) {
        return Err(PolarsError::ComputeError);
    }
    BinaryViewArray::if_then_else(alloc, &mask, if_true, if_false)
}

// Returns whether the only view is this one, has these bytes, and the number of data buffers is
// right.
fn is_view(
    alloc: Global,
    chosen: &BinaryViewArray,
    view: View,
    bytes: &[u8],
    buffers: usize,
) -> PolarsResult<bool> {
    let has_bytes = has_bytes_at(alloc, chosen, 0, Some(bytes))?;
    Ok(
        has_bytes
            & same(chosen.views().as_slice(), &[view])
            & (chosen.data_buffers().len() == buffers),
    )
}

// Returns whether an if-then-else of a long row and this column, whose mask bit is false, is this
// view.
fn chooses(
    alloc: Global,
    if_false: PolarsResult<BinaryViewArray>,
    view: View,
    bytes: &[u8],
    buffers: usize,
) -> PolarsResult<bool> {
    let (if_true, if_false) = both(far_bytes(alloc, LONG), if_false)?;
    let chosen = otherwise(alloc, &if_true, &if_false);
    drop(if_true);
    drop(if_false);
    let chosen = chosen?;
    let is_so = is_view(alloc, &chosen, view, bytes, buffers);
    drop(chosen);
    is_so
}

// Returns whether the view of the false values refers to the second data buffer.
fn names_the_second_buffer(alloc: Global) -> PolarsResult<bool> {
    let view = View::new_from_bytes(OTHER, 1, 0);
    chooses(alloc, far_bytes(alloc, OTHER), view, OTHER, 2)
}

#[test]
fn view_of_false_values_refers_to_second_buffer(rt: HostRuntime) {
    assert!(rt; names_the_second_buffer(rt.alloc()) == Ok(true));
}

// Four letters in an inline view with an arbitrary buffer index and offset.
const FOUR: View = View {
    length: 4,
    prefix: 1684234849,
    buffer_idx: 4294967295,
    offset: 0,
};

// Returns whether an inline view is unchanged.
fn stays(alloc: Global, view: View, bytes: &[u8]) -> PolarsResult<bool> {
    chooses(alloc, near_bytes(alloc, view), view, bytes, 1)
}

#[test]
fn inline_views_are_unchanged(rt: HostRuntime) {
    let eight = View::new_from_bytes(b"abcdefgh", 0, 0);
    assert!(rt; stays(rt.alloc(), eight, b"abcdefgh") == Ok(true));
    assert!(rt; stays(rt.alloc(), FOUR, b"abcd") == Ok(true));
}

// Returns the number of data buffers of an if-then-else of binary views and a scalar.
fn buffers_beside_a_value(
    alloc: Global,
    column: &BinaryViewArray,
    scalar: &Vec<u8>,
) -> PolarsResult<usize> {
    let mask = Bitmap::from_bools(alloc, &[true])?;
    if !is_as_long(column, &mask) {
        return Err(PolarsError::ComputeError);
    }
    let chosen = BinaryViewArray::if_then_else_broadcast_true(alloc, &mask, scalar, column)?;
    let buffers = chosen.data_buffers().len();
    drop(chosen);
    Ok(buffers)
}

// Returns the number of data buffers for a column of a long row and a scalar.
fn buffers_beside(alloc: Global, scalar: &[u8]) -> PolarsResult<usize> {
    let scalar = Vec::from_slice(alloc, scalar)?;
    let column = far_bytes(alloc, LONG)?;
    let buffers = buffers_beside_a_value(alloc, &column, &scalar);
    drop(column);
    buffers
}

#[test]
fn long_scalar_has_its_own_data_buffer(rt: HostRuntime) {
    assert!(rt; buffers_beside(rt.alloc(), OTHER) == Ok(2));
}
