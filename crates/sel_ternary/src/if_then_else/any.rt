//! If-then-else for columns of any type.

ghost use Rattle.std.specs.Prelude.{◌≡◌, ◌≤◌, ◌<◌, ◌+◌, ◌∷◌, [], All, length, map, true, IfOk, IfErr};
ghost use Rattle.sel_bits.specs.Limits.{max_buffers, max_rows};
ghost use Rattle.sel_arrow.specs.Rows.{rows, type_of, IsField};
ghost use Rattle.sel_arrow.specs.Shape.{of_struct, shapes_of};
ghost use Rattle.sel_arrow.specs.Value.{Null};
ghost use Rattle.sel_ternary.specs.Choose.{choose, broadcast_true, broadcast_false, broadcast_both};
ghost use Rattle.sel_ternary.specs.Chosen.{chosen_rows, first_row, AreSides};
ghost use Rattle.sel_ternary.specs.ChosenPicks.{bit_pick, chosen_picks, place_on};
ghost use Rattle.sel_ternary.specs.Structs.{is_bare};
ghost use Rattle.sel_ternary.specs.WordKernels.{has_word_kernel, ChoosesSome};
ghost use Rattle.sel_gather.specs.Children.{field, fields_of, part_at};
ghost use Rattle.sel_gather.specs.Gathers.{Collects, GathersFrom};
ghost use Rattle.sel_gather.specs.Need.{buffer_count, exceeded_in_fields, ExceedsNone, IsLimitOrMemory};
ghost use Rattle.sel_gather.specs.Steps.{parts_of};

use crate::if_then_else::by_words::choose_by_words;
use crate::if_then_else::lanes::ChooseLanes;
use sel_arrow::array::Array;
use sel_arrow::array_ref::ArrayRef;
use sel_arrow::binview::{BinaryViewArray, MOST_BUFFERS};
use sel_arrow::boolean::BooleanArray;
use sel_arrow::column::Column;
use sel_arrow::primitive::{ArrowPrimitive, PrimitiveArray};
use sel_arrow::utf8view::Utf8ViewArray;
use sel_bits::bitmap::Bitmap;
use sel_bits::faults::{Limit, PolarsError, PolarsResult};
use sel_gather::copy::collect_runs;
use sel_gather::gather::collect_rising;
use sel_gather::match_number_types;
use sel_runs::row_refs::{Places, Walk};
use sel_runs::runs::Run;
use std::alloc::Global;

/// Returns a column with row k of `if_true` where bit k of `mask` is set, else row k of `if_false`.
///
/// # Requires
/// Both columns have the same type (check with `same_dtype`), and a row for each bit of `mask`.
///
/// # Errors
/// `OutOfMemory` if an allocation fails; `SizeLimit` if the result exceeds a limit of
/// `collect_rows`.
#[tactic(auto, using(crate::proofs::ListChoices::few_bits))]
pub fn if_then_else_any(
    alloc: Global,
    mask: &Bitmap,
    if_true: &ArrayRef,
    if_false: &ArrayRef,
) -> PolarsResult<ArrayRef>
    requires alike { type_of if_true.now.column ≡ type_of if_false.now.column }
    requires true_side { length (rows if_true.now.column) ≡ length mask.now.bits }
    requires false_side { length (rows if_false.now.column) ≡ length mask.now.bits }
    ensures { GathersFrom result (if_true.now.column ∷ if_false.now.column ∷ [])
        (choose mask.now.bits (rows if_true.now.column) (rows if_false.now.column)) }
{
    choice(alloc, mask, if_true, if_false, true, true)
}

/// Returns a column with the row of `if_true` where bit k of `mask` is set, else row k of
/// `if_false`.
///
/// # Requires
/// Both columns have the same type (check with `same_dtype`). `if_true` has one row, which may be
/// null, and `if_false` a row for each bit of `mask`.
///
/// # Errors
/// `OutOfMemory` if an allocation fails; `SizeLimit` if the result exceeds a limit of
/// `collect_rows`.
#[tactic(auto, using(crate::proofs::ListChoices::few_bits))]
pub fn if_then_else_any_broadcast_true(
    alloc: Global,
    mask: &Bitmap,
    if_true: &ArrayRef,
    if_false: &ArrayRef,
) -> PolarsResult<ArrayRef>
    requires alike { type_of if_true.now.column ≡ type_of if_false.now.column }
    requires true_side { length (rows if_true.now.column) ≡ 1 }
    requires false_side { length (rows if_false.now.column) ≡ length mask.now.bits }
    ensures { GathersFrom result (if_true.now.column ∷ if_false.now.column ∷ [])
        (broadcast_true mask.now.bits (first_row (rows if_true.now.column))
        (rows if_false.now.column)) }
{
    choice(alloc, mask, if_true, if_false, false, true)
}

/// Returns a column with row k of `if_true` where bit k of `mask` is set, else the row of
/// `if_false`.
///
/// # Requires
/// Both columns have the same type (check with `same_dtype`). `if_true` has a row for each bit of
/// `mask`, and `if_false` one row, which may be null.
///
/// # Errors
/// `OutOfMemory` if an allocation fails; `SizeLimit` if the result exceeds a limit of
/// `collect_rows`.
#[tactic(auto, using(crate::proofs::ListChoices::few_bits))]
pub fn if_then_else_any_broadcast_false(
    alloc: Global,
    mask: &Bitmap,
    if_true: &ArrayRef,
    if_false: &ArrayRef,
) -> PolarsResult<ArrayRef>
    requires alike { type_of if_true.now.column ≡ type_of if_false.now.column }
    requires true_side { length (rows if_true.now.column) ≡ length mask.now.bits }
    requires false_side { length (rows if_false.now.column) ≡ 1 }
    ensures { GathersFrom result (if_true.now.column ∷ if_false.now.column ∷ [])
        (broadcast_false mask.now.bits (rows if_true.now.column)
        (first_row (rows if_false.now.column))) }
{
    choice(alloc, mask, if_true, if_false, true, false)
}

/// Returns a column with the row of `if_true` where bit k of `mask` is set, else that of
/// `if_false`.
///
/// # Requires
/// Both columns have the same type (check with `same_dtype`) and one row, which may be null. `mask`
/// has at most 4,294,967,295 bits.
///
/// # Errors
/// `OutOfMemory` if an allocation fails; `SizeLimit` if the result exceeds a limit of
/// `collect_rows`.
pub fn if_then_else_any_broadcast_both(
    alloc: Global,
    mask: &Bitmap,
    if_true: &ArrayRef,
    if_false: &ArrayRef,
) -> PolarsResult<ArrayRef>
    requires alike { type_of if_true.now.column ≡ type_of if_false.now.column }
    requires true_side { length (rows if_true.now.column) ≡ 1 }
    requires false_side { length (rows if_false.now.column) ≡ 1 }
    requires few { length mask.now.bits ≤ max_rows }
    ensures { GathersFrom result (if_true.now.column ∷ if_false.now.column ∷ [])
        (broadcast_both mask.now.bits (first_row (rows if_true.now.column))
        (first_row (rows if_false.now.column))) }
{
    choice(alloc, mask, if_true, if_false, false, false)
}

// Returns the if-then-else by the words of the mask if the type has such a kernel, field by field
// for structs without a validity, else by row references. If its flag is false, a column has one
// row, which is broadcast.
#[cycle(choosing)]
fn choice(
    alloc: Global,
    mask: &Bitmap,
    if_true: &ArrayRef,
    if_false: &ArrayRef,
    true_column: bool,
    false_column: bool,
) -> PolarsResult<ArrayRef>
    requires { AreSides true_column false_column mask.now.bits if_true.now.column
        if_false.now.column }
    ensures { GathersFrom result (if_true.now.column ∷ if_false.now.column ∷ [])
        (chosen_rows true_column false_column mask.now.bits (rows if_true.now.column)
        (rows if_false.now.column)) }
{
    if !true_column && !false_column && if_true.has_nulls() && if_false.has_nulls() {
        return null_choice(alloc, mask, if_true, if_false);
    }
    if is_bare_struct(if_true.as_column()) && is_bare_struct(if_false.as_column()) {
        return struct_choice(alloc, mask, if_true, if_false, true_column, false_column);
    }
    let quick = word_choice(alloc, mask, if_true, if_false, true_column, false_column)?;
    if let Some(chosen) = quick {
        return Ok(chosen);
    }
    picked_choice(alloc, mask, if_true, if_false, true_column, false_column)
}

// Returns the if-then-else of two null rows, as one run of nulls.
fn null_choice(
    alloc: Global,
    mask: &Bitmap,
    if_true: &ArrayRef,
    if_false: &ArrayRef,
) -> PolarsResult<ArrayRef>
    requires alike { type_of if_true.now.column ≡ type_of if_false.now.column }
    requires few { length mask.now.bits ≤ max_rows }
    ensures { GathersFrom result (if_true.now.column ∷ if_false.now.column ∷ [])
        (broadcast_both mask.now.bits Null Null) }
{
    let sources = [if_true.as_column(), if_false.as_column()];
    let run = Run {
        source: None,
        start: 0,
        len: mask.len() as u32,
    };
    let column = collect_runs(alloc, &sources, &[run], mask.len())?;
    Ok(ArrayRef { column })
}

// Returns whether a column is a struct column without a validity.
fn is_bare_struct(column: &Column) -> bool
    ensures { result ≡ is_bare column.now }
{
    match column {
        Column::Struct { validity, .. } => validity.is_none(),
        _ => false,
    }
}

// Returns the if-then-else of struct columns without a validity, field by field.
#[cycle(choosing)]
fn struct_choice(
    alloc: Global,
    mask: &Bitmap,
    if_true: &ArrayRef,
    if_false: &ArrayRef,
    true_column: bool,
    false_column: bool,
) -> PolarsResult<ArrayRef>
    requires true_bare { is_bare if_true.now.column ≡ true }
    requires false_bare { is_bare if_false.now.column ≡ true }
    requires sides { AreSides true_column false_column mask.now.bits if_true.now.column
        if_false.now.column }
    ensures { GathersFrom result (if_true.now.column ∷ if_false.now.column ∷ [])
        (chosen_rows true_column false_column mask.now.bits (rows if_true.now.column)
        (rows if_false.now.column)) }
{
    let Column::Struct { fields: firsts, .. } = if_true.as_column() else {
        unreachable!()
    };
    let fields = field_choices(
        alloc,
        mask,
        firsts,
        if_true,
        if_false,
        true_column,
        false_column,
    )?;
    let column = Column::Struct {
        len: mask.len(),
        fields,
        validity: None,
    };
    Ok(ArrayRef { column })
}

// Returns the fields of the if-then-else of struct columns without a validity; `firsts` have their
// types.
#[cycle(choosing)]
fn field_choices(
    alloc: Global,
    mask: &Bitmap,
    firsts: &[Column],
    if_true: &ArrayRef,
    if_false: &ArrayRef,
    true_column: bool,
    false_column: bool,
) -> PolarsResult<Vec<Column>>
    requires true_bare { is_bare if_true.now.column ≡ true }
    requires false_bare { is_bare if_false.now.column ≡ true }
    requires dtypes { type_of if_true.now.column ≡
        of_struct (shapes_of (map type_of firsts.now)) }
    requires sides { AreSides true_column false_column mask.now.bits if_true.now.column
        if_false.now.column }
    ensures parts { IfOk result (λ fields. map rows fields.items ≡
        parts_of (length firsts.now) (chosen_rows true_column false_column mask.now.bits
        (rows if_true.now.column) (rows if_false.now.column))) }
    ensures dtypes { IfOk result (λ fields. map type_of fields.items ≡ map type_of firsts.now) }
    ensures formed { IfOk result (λ fields. All (IsField (length mask.now.bits)) fields.items) }
    ensures within { IfOk result (λ _. ExceedsNone
        (exceeded_in_fields (shapes_of (map type_of firsts.now)) 0
        (if_true.now.column ∷ if_false.now.column ∷ []) (chosen_rows true_column false_column
        mask.now.bits (rows if_true.now.column) (rows if_false.now.column)))) }
    ensures refusal { IfErr result (IsLimitOrMemory
        (exceeded_in_fields (shapes_of (map type_of firsts.now)) 0
        (if_true.now.column ∷ if_false.now.column ∷ []) (chosen_rows true_column false_column
        mask.now.bits (rows if_true.now.column) (rows if_false.now.column)))) }
{
    let count = firsts.len();
    let mut fields = Vec::with_capacity(alloc, count)?;
    for j in 0..count {
        let field = field_choice(alloc, mask, if_true, if_false, true_column, false_column, j)?;
        fields.push(field)?;
    }
    Ok(fields)
}

// Returns field `j` of the if-then-else of struct columns without a validity.
#[cycle(choosing)]
fn field_choice(
    alloc: Global,
    mask: &Bitmap,
    if_true: &ArrayRef,
    if_false: &ArrayRef,
    true_column: bool,
    false_column: bool,
    j: usize,
) -> PolarsResult<Column>
    requires true_bare { is_bare if_true.now.column ≡ true }
    requires false_bare { is_bare if_false.now.column ≡ true }
    requires inside { j < length (fields_of if_true.now.column) }
    requires sides { AreSides true_column false_column mask.now.bits if_true.now.column
        if_false.now.column }
    ensures { Collects result (type_of (field j if_true.now.column))
        (field j if_true.now.column ∷ field j if_false.now.column ∷ [])
        (map (part_at j) (chosen_rows true_column false_column mask.now.bits
        (rows if_true.now.column) (rows if_false.now.column))) }
{
    let column = field_of(if_true.as_column(), j).try_clone(alloc)?;
    let first = ArrayRef { column };
    let column = field_of(if_false.as_column(), j).try_clone(alloc)?;
    let second = ArrayRef { column };
    let ArrayRef { column } = choice(alloc, mask, &first, &second, true_column, false_column)?;
    Ok(column)
}

// Returns field `j` of a column, or the column itself if there is none.
fn field_of(column: &Column, j: usize) -> &Column
    ensures { result.now ≡ field j column.now }
{
    if let Column::Struct { fields, .. } = column {
        if j < fields.len() {
            return &fields[j];
        }
    }
    column
}

// Returns the if-then-else by the words of the mask. Returns none if the type has no such kernel.
fn word_choice(
    alloc: Global,
    mask: &Bitmap,
    if_true: &ArrayRef,
    if_false: &ArrayRef,
    true_column: bool,
    false_column: bool,
) -> PolarsResult<Option<ArrayRef>>
    requires { AreSides true_column false_column mask.now.bits if_true.now.column
        if_false.now.column }
    ensures { ChoosesSome result (type_of if_true.now.column)
        (if_true.now.column ∷ if_false.now.column ∷ [])
        (chosen_rows true_column false_column mask.now.bits (rows if_true.now.column)
        (rows if_false.now.column)) }
{
    if buffers_in(if_true.as_column()) + buffers_in(if_false.as_column()) > MOST_BUFFERS {
        return Err(PolarsError::SizeLimit(Limit::Buffers));
    }
    macro_rules! choose {
        ($array:ty) => {
            choose_by_words::<$array>(alloc, mask, if_true, if_false, true_column, false_column)
        };
    }
    macro_rules! choose_numbers {
        ($number:ty) => {
            number_choice::<$number>(alloc, mask, if_true, if_false, true_column, false_column)
        };
    }
    match_number_types! { if_true.as_column(), choose_numbers,
        Column::Boolean(_) => choose!(BooleanArray),
        Column::BinaryView(_) => choose!(BinaryViewArray),
        Column::Utf8View(_) => choose!(Utf8ViewArray),
        _ => Ok(None),
    }
}

// The same for columns of one type of integers. Each arm of a match on types names an integer type
// alone, which is proved faster than an array type.
fn number_choice<T: ArrowPrimitive + ChooseLanes>(
    alloc: Global,
    mask: &Bitmap,
    if_true: &ArrayRef,
    if_false: &ArrayRef,
    true_column: bool,
    false_column: bool,
) -> PolarsResult<Option<ArrayRef>>
    requires kernel { has_word_kernel (type_of if_true.now.column) ≡ true }
    requires sides { AreSides true_column false_column mask.now.bits if_true.now.column
        if_false.now.column }
    requires room { buffer_count if_true.now.column + buffer_count if_false.now.column ≤
        max_buffers }
    ensures { ChoosesSome result (type_of if_true.now.column)
        (if_true.now.column ∷ if_false.now.column ∷ [])
        (chosen_rows true_column false_column mask.now.bits (rows if_true.now.column)
        (rows if_false.now.column)) }
{
    choose_by_words::<PrimitiveArray<T>>(alloc, mask, if_true, if_false, true_column, false_column)
}

// Returns the number of data buffers of a view column; 0 for any other column.
fn buffers_in(column: &Column) -> usize
    ensures count { result ≡ buffer_count column.now }
    ensures few { result ≤ max_buffers }
{
    match column {
        Column::BinaryView(array) => array.buffers.len(),
        Column::Utf8View(array) => array.bytes.buffers.len(),
        _ => 0,
    }
}

/// Returns the if-then-else of columns of any type, by row references. If its flag is false, a
/// column has one row, which is broadcast.
#[tactic(auto, using(crate::proofs::ChosenPicks::choices))]
pub(crate) fn picked_choice(
    alloc: Global,
    mask: &Bitmap,
    if_true: &ArrayRef,
    if_false: &ArrayRef,
    true_column: bool,
    false_column: bool,
) -> PolarsResult<ArrayRef>
    requires { AreSides true_column false_column mask.now.bits if_true.now.column
        if_false.now.column }
    ensures { GathersFrom result (if_true.now.column ∷ if_false.now.column ∷ [])
        (chosen_rows true_column false_column mask.now.bits (rows if_true.now.column)
        (rows if_false.now.column)) }
{
    let sources = [if_true.as_column(), if_false.as_column()];
    let places = MaskPlaces {
        mask,
        true_column,
        false_column,
    };
    let column = collect_rising(alloc, &sources, &Walk { places, at: 0 })?;
    Ok(ArrayRef { column })
}

/// The row references of an if-then-else between columns or scalars.
#[derive(Drop)]
struct MaskPlaces<'a> {
    mask: &'a Bitmap,
    true_column: bool,
    false_column: bool,
    ghost few: { length mask.now.bits ≤ max_rows },
}

#[tactic(auto, using(crate::proofs::ChosenPicks::picks))]
impl Places for MaskPlaces<'_> {
    ghost picks = { λ places. chosen_picks places.true_column places.false_column 0
        places.mask.now.bits };

    #[inline(always)]
    fn len(&self) -> usize {
        self.mask.len()
    }

    #[inline(always)]
    fn get(&self, k: usize) -> Option<(u32, u32)> {
        pick_by(self.mask.get_bit(k), self.true_column, self.false_column, k)
    }

    #[inline(always)]
    fn again(&self) -> Self {
        MaskPlaces {
            mask: self.mask,
            true_column: self.true_column,
            false_column: self.false_column,
        }
    }

    #[inline(always)]
    fn has_nulls(&self) -> bool {
        false
    }

    #[inline(always)]
    fn is_in_runs(&self) -> bool {
        true
    }
}

// Returns the row reference that bit `i` of the mask gives.
#[inline(always)]
fn pick_by(bit: bool, true_column: bool, false_column: bool, i: usize) -> Option<(u32, u32)>
    requires { i ≤ max_rows }
    ensures { result ≡ bit_pick true_column false_column bit i }
{
    if bit {
        Some((0, place_of(true_column, i)))
    } else {
        Some((1, place_of(false_column, i)))
    }
}

// Returns the row that position `i` takes: `i` of a column, 0 of a scalar.
#[inline(always)]
fn place_of(is_column: bool, i: usize) -> u32
    requires { i ≤ max_rows }
    ensures { result ≡ place_on is_column i }
{
    if is_column { i as u32 } else { 0 }
}
