//! Columns of every type may be sent to other threads and read in several threads at once. The
//! prover checks the bounds `Send` and `Sync` for each type; nothing runs.

ghost use denote.Param.Send.{IsSend, IsSync};

use sel_arrow::array_ref::ArrayRef;
use sel_arrow::binary::BinaryArray;
use sel_arrow::binview::BinaryViewArray;
use sel_arrow::boolean::BooleanArray;
use sel_arrow::fixed_size_list::FixedSizeListArray;
use sel_arrow::list::ListArray;
use sel_arrow::null::NullArray;
use sel_arrow::primitive::PrimitiveArray;
use sel_arrow::structure::StructArray;
use sel_arrow::utf8view::Utf8ViewArray;

// A value of a type that may be sent to another thread and read in several threads.
fn may_cross<T: Send + Sync>(_value: &T)
    ensures send { IsSend T.row }
    ensures sync { IsSync T.row }
{}

/// Accepts columns of any type.
#[tactic(auto, using(sel_arrow::proofs::Crossing::columns_cross))]
pub fn any_column_may_cross(column: &ArrayRef) {
    may_cross(column);
}

/// Accepts the arrays without children.
pub fn flat_arrays_may_cross(
    nulls: &NullArray,
    booleans: &BooleanArray,
    integers: &PrimitiveArray<i64>,
    wide_integers: &PrimitiveArray<u128>,
    binary: &BinaryArray<i64>,
    binary_views: &BinaryViewArray,
    strings: &Utf8ViewArray,
) {
    may_cross(nulls);
    may_cross(booleans);
    may_cross(integers);
    may_cross(wide_integers);
    may_cross(binary);
    may_cross(binary_views);
    may_cross(strings);
}

/// Accepts the arrays with children.
#[tactic(auto, using(sel_arrow::proofs::Crossing::columns_cross))]
pub fn nested_arrays_may_cross(
    lists: &ListArray<i64>,
    fixed_size_lists: &FixedSizeListArray,
    structs: &StructArray,
) {
    may_cross(lists);
    may_cross(fixed_size_lists);
    may_cross(structs);
}
