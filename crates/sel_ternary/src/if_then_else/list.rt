//! If-then-else for list columns with 64-bit offsets.

use crate::if_then_else::IfThenElseKernel;
use crate::if_then_else::lists::{
    choose_lists, choose_lists_or_one, choose_one_or_lists, choose_ones,
};
use sel_arrow::array_ref::ArrayRef;
use sel_arrow::datatype::ArrowDataType;
use sel_arrow::list::ListArray;
use sel_bits::bitmap::Bitmap;
use sel_bits::faults::PolarsResult;
use std::alloc::Global;

/// If-then-else for list columns; a scalar is an array with the elements of one list.
impl IfThenElseKernel for ListArray<i64> {
    ghost use Rattle.std.specs.Prelude.{◌≡◌, true};
    ghost use Rattle.sel_arrow.specs.Nested.{list_of};
    ghost use Rattle.sel_arrow.specs.Rows.{rows, type_of};
    ghost use Rattle.sel_arrow.specs.Shape.{is_list_shape, of_large_list};
    ghost use Rattle.sel_ternary.specs.ListSides.{list_child, exceeded_lists};

    type Scalar = ArrayRef;

    ghost scalar_row = { λ scalar. list_of (rows scalar.column) };

    ghost fits = { λ scalar type. type ≡ of_large_list (type_of scalar.column) };

    ghost is_own = { λ type. is_list_shape type ≡ true };

    ghost exceeded = { λ type if_true if_false chosen limit.
        exceeded_lists list_child type if_true if_false chosen limit };

    fn if_then_else(
        alloc: Global,
        mask: &Bitmap,
        if_true: &ListArray<i64>,
        if_false: &ListArray<i64>,
    ) -> PolarsResult<ListArray<i64>> {
        choose_lists(alloc, mask, if_true, if_false)
    }

    fn if_then_else_broadcast_true(
        alloc: Global,
        mask: &Bitmap,
        if_true: &ArrayRef,
        if_false: &ListArray<i64>,
    ) -> PolarsResult<ListArray<i64>> {
        choose_one_or_lists(alloc, mask, if_true, if_false)
    }

    fn if_then_else_broadcast_false(
        alloc: Global,
        mask: &Bitmap,
        if_true: &ListArray<i64>,
        if_false: &ArrayRef,
    ) -> PolarsResult<ListArray<i64>> {
        choose_lists_or_one(alloc, mask, if_true, if_false)
    }

    fn if_then_else_broadcast_both(
        alloc: Global,
        _dtype: ArrowDataType,
        mask: &Bitmap,
        if_true: &ArrayRef,
        if_false: &ArrayRef,
    ) -> PolarsResult<ListArray<i64>> {
        choose_ones(alloc, mask, if_true, if_false)
    }
}
