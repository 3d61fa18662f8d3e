//! If-then-else of columns of lists, by row references.

ghost use Rattle.std.specs.Prelude.{◌≡◌, ◌≤◌, ◌∷◌, [], Bool, true, length, IfOk, IfErr, Ok};
ghost use Rattle.sel_bits.specs.Faults.{IsOutOfMemory};
ghost use Rattle.sel_bits.specs.Limits.{max_rows};
ghost use Rattle.sel_arrow.specs.Nested.{list_of};
ghost use Rattle.sel_arrow.specs.Rows.{rows as column_rows, type_of};
ghost use Rattle.sel_arrow.specs.Shape.{Shape, is_list_shape, is_block_shape, of_large_list, of_fixed_size_list};
ghost use Rattle.sel_arrow.specs.declared.column.Column.{Column};
ghost use Rattle.sel_ternary.specs.Choose.{choose, broadcast_true, broadcast_false, broadcast_both};
ghost use Rattle.sel_ternary.specs.Chosen.{chosen_rows, AreSides};
ghost use Rattle.sel_ternary.specs.ListSides.{exceeded_lists, list_child, block_child};
ghost use Rattle.sel_ternary.specs.Steps.{IsBelow};
ghost use Rattle.sel_ternary.specs.Sides.{column, scalar, IsLimitOrMemory, ExceedsNone};
ghost use Rattle.sel_gather.specs.Need.{exceeded_taken};

use crate::if_then_else::any::picked_choice;
use sel_arrow::array::Array;
use sel_arrow::array_ref::ArrayRef;
use sel_arrow::fixed_size_list::FixedSizeListArray;
use sel_arrow::list::ListArray;
use sel_arrow::validity::MOST_ROWS;
use sel_bits::bitmap::Bitmap;
use sel_bits::faults::{Limit, PolarsError, PolarsResult};
use sel_bits::offsets::OffsetsBuffer;
use std::alloc::Global;

/// Columns of lists over one child: with offsets, or of one list size.
pub(crate) trait Lists: Array + Drop {
    /// The child column.
    ghost child: { Self → Column };

    /// The type is one of such columns.
    ghost is_kind: { Shape → Bool };

    /// The type of a column with one list, which has these entries.
    ghost one_type: { Column → Shape };

    /// Returns the column as an array of this kind.
    fn from_any(column: ArrayRef) -> Self
        requires { is_kind (type_of column.column) ≡ true }
        ensures rows { Self.rows result ≡ column_rows column.column }
        ensures dtype { Self.shape result ≡ type_of column.column };

    /// Returns the array as a column, which shares its buffers.
    fn shared(&self, alloc: Global) -> PolarsResult<ArrayRef>
        ensures rows { IfOk result (λ lists. column_rows lists.column ≡ Self.rows self.now) }
        ensures dtype { IfOk result (λ lists. type_of lists.column ≡ Self.shape self.now) }
        ensures kind { IfOk result (λ lists. is_kind (type_of lists.column) ≡ true) }
        ensures below { IfOk result (λ lists.
            IsBelow (type_of lists.column) lists.column (child self.now)) }
        ensures refusal { IfErr result IsOutOfMemory };

    /// Returns a column with one list, which has these entries and shares their buffers.
    fn of_one(alloc: Global, entries: &ArrayRef) -> PolarsResult<ArrayRef>
        ensures rows { IfOk result (λ lists. column_rows lists.column ≡
            list_of (column_rows entries.now.column) ∷ []) }
        ensures dtype { IfOk result (λ lists. type_of lists.column ≡
            one_type entries.now.column) }
        ensures kind { IfOk result (λ lists. is_kind (type_of lists.column) ≡ true) }
        ensures below { IfOk result (λ lists.
            IsBelow (type_of lists.column) lists.column entries.now.column) }
        ensures refusal { IfErr result IsOutOfMemory };
}

impl Lists for ListArray<i64> {
    ghost child = { λ lists. list_child lists };

    ghost is_kind = { λ type. is_list_shape type };

    ghost one_type = { λ entries. of_large_list (type_of entries) };

    fn from_any(column: ArrayRef) -> ListArray<i64> {
        match column.into_array::<ListArray<i64>>() {
            Ok(lists) => lists,
            Err(_) => unreachable!(),
        }
    }

    fn shared(&self, alloc: Global) -> PolarsResult<ArrayRef> {
        Ok(self.try_clone(alloc)?.into_ref())
    }

    fn of_one(alloc: Global, entries: &ArrayRef) -> PolarsResult<ArrayRef> {
        let offsets = one_end(alloc, entries.len())?;
        let values = Box::new(alloc, entries.as_column().try_clone(alloc)?)?;
        let lists = ListArray {
            offsets,
            values,
            validity: None,
        };
        Ok(lists.into_ref())
    }
}

impl Lists for FixedSizeListArray {
    ghost use Rattle.std.specs.Prelude.{length};
    ghost use Rattle.sel_arrow.specs.Rows.{rows};

    ghost child = { λ lists. block_child lists };

    ghost is_kind = { λ type. is_block_shape type };

    ghost one_type = { λ entries. of_fixed_size_list (type_of entries) (length (rows entries)) };

    fn from_any(column: ArrayRef) -> FixedSizeListArray {
        match column.into_array::<FixedSizeListArray>() {
            Ok(lists) => lists,
            Err(_) => unreachable!(),
        }
    }

    fn shared(&self, alloc: Global) -> PolarsResult<ArrayRef> {
        Ok(self.try_clone(alloc)?.into_ref())
    }

    fn of_one(alloc: Global, entries: &ArrayRef) -> PolarsResult<ArrayRef> {
        let values = Box::new(alloc, entries.as_column().try_clone(alloc)?)?;
        let lists = FixedSizeListArray {
            size: entries.len(),
            len: 1,
            values,
            validity: None,
        };
        Ok(lists.into_ref())
    }
}

// Returns the offsets of one list with this many entries.
fn one_end(alloc: Global, len: usize) -> PolarsResult<OffsetsBuffer<i64>>
    requires { len ≤ max_rows }
    ensures offsets { IfOk result (λ offsets. offsets ≡ 0 ∷ len ∷ []) }
    ensures refusal { IfErr result IsOutOfMemory }
{
    let mut ends = Vec::with_capacity(alloc, 2)?;
    ends.push(0)?;
    ends.push(len as i64)?;
    OffsetsBuffer::of_rising(ends)
}

// Returns both columns, or the first error.
fn both(
    first: PolarsResult<ArrayRef>,
    second: PolarsResult<ArrayRef>,
) -> PolarsResult<(ArrayRef, ArrayRef)>
    ensures found { IfOk result (λ pair. (first ≡ Ok pair.0) × (second ≡ Ok pair.1)) }
    ensures refusal { IfErr first IsOutOfMemory → IfErr second IsOutOfMemory →
        IfErr result IsOutOfMemory }
{
    match (first, second) {
        (Ok(first), Ok(second)) => Ok((first, second)),
        (Ok(first), Err(fault)) => {
            drop(first);
            Err(fault)
        }
        (Err(fault), Ok(second)) => {
            drop(second);
            Err(fault)
        }
        (Err(fault), Err(_)) => Err(fault),
    }
}

/// Returns the if-then-else of two columns.
#[tactic(auto, using(crate::proofs::ListChoices::few_bits))]
pub(crate) fn choose_lists<L: Lists>(
    alloc: Global,
    mask: &Bitmap,
    if_true: &L,
    if_false: &L,
) -> PolarsResult<L>
    requires true_side { length (L.rows if_true.now) ≡ length mask.now.bits }
    requires false_side { length (L.rows if_false.now) ≡ length mask.now.bits }
    requires alike { L.shape if_true.now ≡ L.shape if_false.now }
    ensures rows { IfOk result (λ chosen. L.rows chosen ≡
        choose mask.now.bits (L.rows if_true.now) (L.rows if_false.now)) }
    ensures dtype { IfOk result (λ chosen. L.shape chosen ≡ L.shape if_true.now) }
    ensures within { IfOk result (λ _. ExceedsNone (exceeded_lists L.child
        (L.shape if_true.now) (column if_true.now) (column if_false.now)
        (choose mask.now.bits (L.rows if_true.now) (L.rows if_false.now)))) }
    ensures refusal { IfErr result (IsLimitOrMemory (exceeded_lists L.child
        (L.shape if_true.now) (column if_true.now) (column if_false.now)
        (choose mask.now.bits (L.rows if_true.now) (L.rows if_false.now)))) }
{
    let pair = both(if_true.shared(alloc), if_false.shared(alloc))?;
    choose_shared(alloc, mask, pair.0, pair.1, true, true)
}

/// Returns the if-then-else of one list and a column.
#[tactic(auto, using(crate::proofs::ListChoices::few_bits))]
pub(crate) fn choose_one_or_lists<L: Lists>(
    alloc: Global,
    mask: &Bitmap,
    if_true: &ArrayRef,
    if_false: &L,
) -> PolarsResult<L>
    requires false_side { length (L.rows if_false.now) ≡ length mask.now.bits }
    requires fits { L.shape if_false.now ≡ L.one_type if_true.now.column }
    ensures rows { IfOk result (λ chosen. L.rows chosen ≡ broadcast_true mask.now.bits
        (list_of (column_rows if_true.now.column)) (L.rows if_false.now)) }
    ensures dtype { IfOk result (λ chosen. L.shape chosen ≡ L.shape if_false.now) }
    ensures within { IfOk result (λ _. ExceedsNone (exceeded_lists L.child
        (L.shape if_false.now) (scalar if_true.now) (column if_false.now)
        (broadcast_true mask.now.bits (list_of (column_rows if_true.now.column))
        (L.rows if_false.now)))) }
    ensures refusal { IfErr result (IsLimitOrMemory (exceeded_lists L.child
        (L.shape if_false.now) (scalar if_true.now) (column if_false.now)
        (broadcast_true mask.now.bits (list_of (column_rows if_true.now.column))
        (L.rows if_false.now)))) }
{
    let pair = both(L::of_one(alloc, if_true), if_false.shared(alloc))?;
    choose_shared(alloc, mask, pair.0, pair.1, false, true)
}

/// Returns the if-then-else of a column and one list.
#[tactic(auto, using(crate::proofs::ListChoices::few_bits))]
pub(crate) fn choose_lists_or_one<L: Lists>(
    alloc: Global,
    mask: &Bitmap,
    if_true: &L,
    if_false: &ArrayRef,
) -> PolarsResult<L>
    requires true_side { length (L.rows if_true.now) ≡ length mask.now.bits }
    requires fits { L.shape if_true.now ≡ L.one_type if_false.now.column }
    ensures rows { IfOk result (λ chosen. L.rows chosen ≡ broadcast_false mask.now.bits
        (L.rows if_true.now) (list_of (column_rows if_false.now.column))) }
    ensures dtype { IfOk result (λ chosen. L.shape chosen ≡ L.shape if_true.now) }
    ensures within { IfOk result (λ _. ExceedsNone (exceeded_lists L.child
        (L.shape if_true.now) (column if_true.now) (scalar if_false.now)
        (broadcast_false mask.now.bits (L.rows if_true.now)
        (list_of (column_rows if_false.now.column))))) }
    ensures refusal { IfErr result (IsLimitOrMemory (exceeded_lists L.child
        (L.shape if_true.now) (column if_true.now) (scalar if_false.now)
        (broadcast_false mask.now.bits (L.rows if_true.now)
        (list_of (column_rows if_false.now.column))))) }
{
    let pair = both(if_true.shared(alloc), L::of_one(alloc, if_false))?;
    choose_shared(alloc, mask, pair.0, pair.1, true, false)
}

/// Returns the if-then-else of two lists.
#[tactic(auto, using(crate::proofs::Validities::sides))]
pub(crate) fn choose_ones<L: Lists>(
    alloc: Global,
    mask: &Bitmap,
    if_true: &ArrayRef,
    if_false: &ArrayRef,
) -> PolarsResult<L>
    requires alike { L.one_type if_true.now.column ≡ L.one_type if_false.now.column }
    ensures rows { IfOk result (λ chosen. L.rows chosen ≡ broadcast_both mask.now.bits
        (list_of (column_rows if_true.now.column)) (list_of (column_rows if_false.now.column))) }
    ensures dtype { IfOk result (λ chosen. L.shape chosen ≡ L.one_type if_true.now.column) }
    ensures within { IfOk result (λ _. ExceedsNone (exceeded_lists L.child
        (L.one_type if_true.now.column) (scalar if_true.now) (scalar if_false.now)
        (broadcast_both mask.now.bits (list_of (column_rows if_true.now.column))
        (list_of (column_rows if_false.now.column))))) }
    ensures refusal { IfErr result (IsLimitOrMemory (exceeded_lists L.child
        (L.one_type if_true.now.column) (scalar if_true.now) (scalar if_false.now)
        (broadcast_both mask.now.bits (list_of (column_rows if_true.now.column))
        (list_of (column_rows if_false.now.column))))) }
{
    if mask.len() > MOST_ROWS {
        return Err(PolarsError::SizeLimit(Limit::Rows));
    }
    let pair = both(L::of_one(alloc, if_true), L::of_one(alloc, if_false))?;
    choose_shared(alloc, mask, pair.0, pair.1, false, false)
}

// Returns the if-then-else of columns of this kind. If its flag is false, a column has one row,
// which is broadcast.
fn choose_shared<L: Lists>(
    alloc: Global,
    mask: &Bitmap,
    if_true: ArrayRef,
    if_false: ArrayRef,
    true_column: bool,
    false_column: bool,
) -> PolarsResult<L>
    requires kind { L.is_kind (type_of if_true.column) ≡ true }
    requires sides { AreSides true_column false_column mask.now.bits if_true.column
        if_false.column }
    ensures rows { IfOk result (λ chosen. L.rows chosen ≡ chosen_rows true_column false_column
        mask.now.bits (column_rows if_true.column) (column_rows if_false.column)) }
    ensures dtype { IfOk result (λ chosen. L.shape chosen ≡ type_of if_true.column) }
    ensures within { IfOk result (λ _. ExceedsNone (exceeded_taken (type_of if_true.column)
        (if_true.column ∷ if_false.column ∷ []) (chosen_rows true_column false_column
        mask.now.bits (column_rows if_true.column) (column_rows if_false.column)))) }
    ensures refusal { IfErr result (IsLimitOrMemory (exceeded_taken (type_of if_true.column)
        (if_true.column ∷ if_false.column ∷ []) (chosen_rows true_column false_column
        mask.now.bits (column_rows if_true.column) (column_rows if_false.column)))) }
{
    let chosen = picked_choice(alloc, mask, &if_true, &if_false, true_column, false_column)?;
    Ok(L::from_any(chosen))
}
