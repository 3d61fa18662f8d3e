//! If-then-else between two columns or scalars by a boolean mask.

ghost use Rattle.std.specs.Prelude.{◌≡◌, ◌≢◌, ◌≤◌, ◌⊎◌, ◌∷◌, [], length, true, false, List, IfOk, IfErr, IfSome, Some};
ghost use Rattle.sel_bits.specs.Limits.{max_rows};
ghost use Rattle.sel_arrow.specs.Columns.{boolean_rows};
ghost use Rattle.sel_arrow.specs.Depth.{depth};
ghost use Rattle.sel_arrow.specs.Rows.{rows, type_of};
ghost use Rattle.sel_arrow.specs.Shape.{of_boolean};
ghost use Rattle.sel_arrow.specs.Value.{Value};
ghost use Rattle.sel_arrow.specs.declared.column.Column.{Column};
ghost use Rattle.sel_bits.specs.Choose.{choose};
ghost use Rattle.sel_ternary.specs.Chosen.{chosen_rows, SideFits};
ghost use Rattle.sel_c.specs.Choices.{ChoosesFrom};
ghost use Rattle.sel_ffi.specs.Status.{out_of_memory, unsupported_type, IsOneOf};
ghost use Rattle.sel_gather.specs.Need.{exceeded_limits, exceeded_taken, ExceedsNone, IsLimitOrMemory};
ghost use Rattle.sel_kernels.specs.Select.{effective_mask};

use sel_arrow::array::Array;
use sel_arrow::array_ref::ArrayRef;
use sel_arrow::boolean::BooleanArray;
use sel_arrow::column::Column;
use sel_arrow::match_numbers;
use sel_bits::bitmap::Bitmap;
use sel_bits::faults::PolarsResult;
use sel_ffi::column_ref::ColumnRef;
use sel_ffi::handle::Handle;
use sel_ffi::shared_column::SharedColumn;
use sel_ffi::status::{
    LENGTH_MISMATCH, NO_COLUMN, OUT_OF_MEMORY, TYPE_MISMATCH, UNSUPPORTED_TYPE, put, put_again,
    status_of,
};
use sel_ternary::if_then_else::any::{
    if_then_else_any, if_then_else_any_broadcast_both, if_then_else_any_broadcast_false,
    if_then_else_any_broadcast_true,
};
use std::alloc::Global;

/// Stores in `out` the row of `if_true` where the mask is true and valid, else the row of
/// `if_false`.
///
/// If `true_column` is false, `if_true` has one row, which is broadcast; likewise for
/// `false_column` and `if_false`.
///
/// Errors: `NO_COLUMN` if a handle has no column; `UNSUPPORTED_TYPE` if the mask is not boolean;
/// `TYPE_MISMATCH` if `if_true` and `if_false` have different types; `LENGTH_MISMATCH` if a column
/// does not have as many rows as the mask, or a scalar does not have one row; `OUT_OF_MEMORY`; a
/// `_LIMIT` status if the result would exceed a limit.
pub fn choose_handles(
    alloc: Global,
    mask: &ColumnRef,
    if_true: &ColumnRef,
    if_false: &ColumnRef,
    true_column: bool,
    false_column: bool,
    out: &mut Handle,
) -> u32
    ensures { ChoosesFrom result mask.now.tree if_true.now.tree if_false.now.tree
        true_column false_column out.old.tree out.new.tree }
{
    let Some(by) = mask.column() else {
        return NO_COLUMN;
    };
    let Some(first) = if_true.shared() else {
        return NO_COLUMN;
    };
    let Some(second) = if_false.shared() else {
        return NO_COLUMN;
    };
    choose_shared(alloc, by, first, second, true_column, false_column, out)
}

// Stores the if-then-else in `out`; shares a side if all rows come from it. A mask of one row has
// as many rows as a scalar.
fn choose_shared(
    alloc: Global,
    mask: &ArrayRef,
    if_true: &SharedColumn,
    if_false: &SharedColumn,
    true_column: bool,
    false_column: bool,
    out: &mut Handle,
) -> u32
    ensures { ChoosesFrom result (Some mask.now) (Some if_true.now) (Some if_false.now)
        true_column false_column out.old.tree out.new.tree }
{
    if has_all_rows(true_column, mask) && has_all_rows(false_column, mask) {
        if let Some(side) = whole_side(mask, if_true, if_false) {
            return put_again(alloc, side, out);
        }
    }
    let (trues, falses) = (if_true.column(), if_false.column());
    choose_into(alloc, mask, trues, falses, true_column, false_column, out)
}

// Returns whether a side that fits has as many rows as the mask: it is a column, or a scalar for
// one row.
fn has_all_rows(is_column: bool, mask: &ArrayRef) -> bool
    ensures { result ≡ true → is_column ≡ true ⊎ length (rows mask.now.column) ≡ 1 }
{
    is_column || mask.len() == 1
}

// Returns the side that all rows come from. None if both sides have some, the mask has a validity,
// rows of this type could exceed a limit, or the types or lengths do not fit.
#[tactic(auto, using(sel_kernels::proofs::Selects::effective_masks, crate::proofs::AllKept::all_chosen, crate::proofs::AllKept::none_chosen))]
fn whole_side<'a>(
    mask: &ArrayRef,
    if_true: &'a SharedColumn,
    if_false: &'a SharedColumn,
) -> Option<&'a SharedColumn>
    ensures rows { IfSome result (λ side. rows side.now.column ≡ choose
        (effective_mask (rows mask.now.column)) (rows if_true.now.column)
        (rows if_false.now.column)) }
    ensures dtype { IfSome result (λ side. type_of side.now.column ≡
        type_of if_true.now.column) }
    ensures alike { IfSome result (λ _. type_of if_true.now.column ≡
        type_of if_false.now.column) }
    ensures true_side { IfSome result (λ _. length (rows if_true.now.column) ≡
        length (rows mask.now.column)) }
    ensures false_side { IfSome result (λ _. length (rows if_false.now.column) ≡
        length (rows mask.now.column)) }
    ensures kind { IfSome result (λ _. type_of mask.now.column ≡ of_boolean) }
    ensures within { IfSome result (λ _. (columns : List Column) (values : List Value) →
        ExceedsNone (exceeded_taken (type_of if_true.now.column) columns values)) }
{
    let Column::Boolean(truths) = mask.as_column() else {
        return None;
    };
    let (trues, falses) = (if_true.column(), if_false.column());
    if truths.validity.is_some() || !exceeds_none(trues.as_column()) {
        return None;
    }
    if !trues.same_dtype(falses) || trues.len() != truths.len() || falses.len() != truths.len() {
        return None;
    }
    // (both stop at the first word that has true and false bits)
    if truths.values.is_all_true() {
        return Some(if_true);
    }
    if truths.values.is_all_false() {
        return Some(if_false);
    }
    None
}

// Returns whether no rows of the column's type can exceed a limit, as integers and booleans cannot.
pub(crate) fn exceeds_none(column: &Column) -> bool
    ensures taken { result ≡ true → (columns : List Column) (values : List Value) →
        ExceedsNone (exceeded_taken (type_of column.now) columns values) }
    ensures own { result ≡ true → (values : List Value) →
        ExceedsNone (exceeded_limits (type_of column.now) values) }
{
    match_numbers! { column, _numbers => true,
        Column::Null(_) | Column::Boolean(_) => true,
        Column::LargeBinary(_) | Column::BinaryView(_) | Column::Utf8View(_) => false,
        Column::LargeList { .. } | Column::FixedSizeList { .. } | Column::Struct { .. } => false,
    }
}

fn choose_into(
    alloc: Global,
    mask: &ArrayRef,
    if_true: &ArrayRef,
    if_false: &ArrayRef,
    true_column: bool,
    false_column: bool,
    out: &mut Handle,
) -> u32
    requires { depth (type_of if_true.now.column) ≤ 128 }
    ensures { ChoosesFrom result (Some mask.now) (Some if_true.now) (Some if_false.now)
        true_column false_column out.old.tree out.new.tree }
{
    let bits = match bits_of_mask(alloc, mask) {
        Ok(bits) => bits,
        Err(status) => return status,
    };
    if !if_true.same_dtype(if_false) {
        return TYPE_MISMATCH;
    }
    if !side_fits(if_true, true_column, bits.len()) {
        return LENGTH_MISMATCH;
    }
    if !side_fits(if_false, false_column, bits.len()) {
        return LENGTH_MISMATCH;
    }
    match choice(alloc, &bits, if_true, if_false, true_column, false_column) {
        Ok(chosen) => put(alloc, chosen, out),
        Err(fault) => status_of(fault),
    }
}

// Returns the if-then-else. If its flag is false, a column has one row, which is broadcast.
fn choice(
    alloc: Global,
    mask: &Bitmap,
    if_true: &ArrayRef,
    if_false: &ArrayRef,
    true_column: bool,
    false_column: bool,
) -> PolarsResult<ArrayRef>
    requires alike { type_of if_true.now.column ≡ type_of if_false.now.column }
    requires true_side { SideFits true_column (length (rows if_true.now.column))
        (length mask.now.bits) }
    requires false_side { SideFits false_column (length (rows if_false.now.column))
        (length mask.now.bits) }
    requires few { length mask.now.bits ≤ max_rows }
    ensures rows { IfOk result (λ chosen. rows chosen.column ≡
        chosen_rows true_column false_column mask.now.bits (rows if_true.now.column)
        (rows if_false.now.column)) }
    ensures dtype { IfOk result (λ chosen. type_of chosen.column ≡ type_of if_true.now.column) }
    ensures within { IfOk result (λ _. ExceedsNone (exceeded_taken (type_of if_true.now.column)
        (if_true.now.column ∷ if_false.now.column ∷ []) (chosen_rows true_column false_column
        mask.now.bits (rows if_true.now.column) (rows if_false.now.column)))) }
    ensures refusal { IfErr result (IsLimitOrMemory (exceeded_taken (type_of if_true.now.column)
        (if_true.now.column ∷ if_false.now.column ∷ []) (chosen_rows true_column false_column
        mask.now.bits (rows if_true.now.column) (rows if_false.now.column)))) }
{
    if true_column {
        if false_column {
            return if_then_else_any(alloc, mask, if_true, if_false);
        }
        return if_then_else_any_broadcast_false(alloc, mask, if_true, if_false);
    }
    if false_column {
        return if_then_else_any_broadcast_true(alloc, mask, if_true, if_false);
    }
    if_then_else_any_broadcast_both(alloc, mask, if_true, if_false)
}

// Returns whether a column has as many rows as the mask, or a scalar has one row.
fn side_fits(side: &ArrayRef, is_column: bool, len: usize) -> bool
    ensures right { result ≡ true → SideFits is_column (length (rows side.now.column)) len }
    ensures wrong { result ≡ false → SideFits is_column (length (rows side.now.column)) len →
        ⊥ }
{
    if is_column {
        side.len() == len
    } else {
        side.len() == 1
    }
}

// Returns the effective mask: the bits that are true where the mask is true and valid.
//
// Errors: `UNSUPPORTED_TYPE` if the mask is not boolean; `OUT_OF_MEMORY`.
fn bits_of_mask(alloc: Global, mask: &ArrayRef) -> Result<Bitmap, u32>
    ensures bits { IfOk result (λ bits. bits.bits ≡ effective_mask (rows mask.now.column)) }
    ensures len { IfOk result (λ bits. length bits.bits ≡ length (rows mask.now.column)) }
    ensures few { IfOk result (λ bits. length bits.bits ≤ max_rows) }
    ensures kind { IfOk result (λ _. type_of mask.now.column ≡ of_boolean) }
    ensures other { IfErr result (λ status. status ≡ unsupported_type →
        type_of mask.now.column ≢ of_boolean) }
    ensures refusal { IfErr result
        (λ status. IsOneOf status (out_of_memory ∷ unsupported_type ∷ [])) }
{
    let Column::Boolean(truths) = mask.as_column() else {
        return Err(UNSUPPORTED_TYPE);
    };
    match effective_bits(alloc, truths) {
        Ok(bits) => Ok(bits),
        Err(_) => Err(OUT_OF_MEMORY),
    }
}

// Returns the effective mask. Errors: `OutOfMemory`.
#[tactic(auto, using(sel_kernels::proofs::Selects::effective_masks))]
fn effective_bits(alloc: Global, mask: &BooleanArray) -> PolarsResult<Bitmap>
    ensures bits { IfOk result (λ bits. bits.bits ≡ effective_mask (boolean_rows mask.now)) }
    ensures len { IfOk result (λ bits. length bits.bits ≡ length (boolean_rows mask.now)) }
    ensures few { IfOk result (λ bits. length bits.bits ≤ max_rows) }
{
    match &mask.validity {
        None => mask.values.try_clone(),
        Some(validity) => mask.values.and(alloc, validity),
    }
}
