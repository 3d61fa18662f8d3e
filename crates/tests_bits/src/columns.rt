//! Each public function once, against rows that are worked out by hand.

ghost use Rattle.sel_bits.specs.Validity.{Covers};
ghost use Rattle.sel_arrow.specs.Rows.{IsWellFormed};

use crate::column_fixtures::{
    has_bytes, has_bytes_at, has_numbers, numbers, offsets, one_buffer, truths, validity,
};
use crate::fixtures::{both, buffer, same};
use sel_arrow::array::Array;
use sel_arrow::array_ref::ArrayRef;
use sel_arrow::binary::BinaryArray;
use sel_arrow::binview::BinaryViewArray;
use sel_arrow::boolean::BooleanArray;
use sel_arrow::column::Column;
use sel_arrow::datatype::ArrowDataType;
use sel_arrow::empty::new_empty_array;
use sel_arrow::from_column::FromColumn;
use sel_arrow::null::NullArray;
use sel_arrow::primitive::{ArrowPrimitive, PrimitiveArray};
use sel_arrow::utf8view::Utf8ViewArray;
use sel_arrow::validity::{clone_validity, has_other_length, is_valid_at, sliced_validity};
use sel_arrow::view::View;
use sel_bits::bitmap::Bitmap;
use sel_bits::buffer::Buffer;
use sel_bits::faults::{MakeError, Malformed, PolarsError, PolarsResult};
use std::alloc::Global;
use std::fmt::Debug;
use std::process::Abort;
use std::test::Fail;

const WHOLE: View = View {
    length: 13,
    prefix: 0x64636261,
    buffer_idx: 0,
    offset: 0,
};

const SHORT: View = View {
    length: 4,
    prefix: 0x64636261,
    buffer_idx: 4294967295,
    offset: 7,
};

// A byte that is not UTF-8.
const BROKEN: View = View {
    length: 1,
    prefix: 0xFF,
    ..SHORT
};

/// Returns a column of these views over a buffer of the first thirteen letters, or the rule that
/// they break.
fn views_of(
    alloc: Global,
    views: &[View],
    valid: &[bool],
) -> PolarsResult<Result<BinaryViewArray, MakeError>> {
    let buffers = one_buffer(alloc, b"abcdefghijklm")?;
    let (views, valid) = both(buffer(alloc, views), validity(alloc, valid))?;
    Ok(BinaryViewArray::try_new(views, buffers, valid))
}

/// Returns the rule that one row of this view breaks.
fn fault_of_view(alloc: Global, view: View, valid: bool) -> PolarsResult<Option<MakeError>> {
    Ok(views_of(alloc, &[view], &[valid])?.err())
}

/// Returns the rule that one row of this inline view breaks in a string column.
fn fault_of_text(alloc: Global, view: View, valid: bool) -> PolarsResult<Option<MakeError>> {
    let views = buffer(alloc, &[view])?;
    let buffers = one_buffer(alloc, &[])?;
    Ok(Utf8ViewArray::try_new(views, buffers, validity(alloc, &[valid])?).err())
}

fn malformed(rule: Malformed) -> Option<MakeError> {
    Some(MakeError::Malformed(rule))
}

fn fault_of_nulls(rows: usize) -> Option<MakeError> {
    NullArray::try_new(rows).err()
}

#[test]
fn null_column_row_limit(rt: HostRuntime) {
    assert!(rt; fault_of_nulls(4294967295).is_none());
    assert!(rt; fault_of_nulls(4294967296) == malformed(Malformed::TooManyRows));
}

/// Returns the rule that two booleans with a validity of one row break.
fn fault_of_truths(alloc: Global) -> PolarsResult<Option<MakeError>> {
    let bits = Bitmap::from_bools(alloc, &[true, false])?;
    Ok(BooleanArray::try_new(bits, validity(alloc, &[true])?).err())
}

/// Returns the rule that one number with a validity of no rows breaks.
fn fault_of_numbers(alloc: Global) -> PolarsResult<Option<MakeError>> {
    let values = buffer(alloc, &[1i8])?;
    Ok(PrimitiveArray::try_new(values, validity(alloc, &[])?).err())
}

#[test]
fn validity_length_mismatch(rt: HostRuntime) {
    let fault = Ok(malformed(Malformed::ValidityLength));
    assert!(rt; fault_of_truths(rt.alloc()) == fault);
    assert!(rt; fault_of_numbers(rt.alloc()) == fault);
}

/// Returns a column of rows of the bytes `_abcde`, or the rule that the offsets break.
fn pieces_of(
    alloc: Global,
    bounds: &[i64],
    valid: &[bool],
) -> Result<Result<BinaryArray<i64>, MakeError>, Fail> {
    let bounds = offsets(alloc, bounds)?;
    let (bytes, valid) = both(buffer(alloc, b"_abcde"), validity(alloc, valid))?;
    Ok(BinaryArray::try_new(bounds, bytes, valid))
}

#[test]
fn offsets_out_of_range(rt: HostRuntime) -> Result<(), Fail> {
    let fault = pieces_of(rt.alloc(), &[0, 7], &[])?.err();
    assert!(rt; fault == malformed(Malformed::OffsetRange));
    Ok(())
}

#[test]
fn view_range_and_prefix(rt: HostRuntime) {
    let range = malformed(Malformed::ViewRange);
    let prefix = malformed(Malformed::ViewPrefix);
    let far = View {
        offset: 4294967295,
        ..WHOLE
    };
    let late = View { offset: 1, ..WHOLE };
    let elsewhere = View {
        buffer_idx: 5,
        ..WHOLE
    };
    let other = View { prefix: 0, ..WHOLE };
    for (view, valid, wanted) in [
        (WHOLE, true, None),
        (SHORT, true, None),
        (far, true, range),
        (late, true, range),
        (elsewhere, false, range),
        (other, true, prefix),
        (other, false, prefix),
    ] {
        let fault = fault_of_view(rt.alloc(), view, valid);
        assert!(rt; fault == Ok(wanted), "at {view:?}");
    }
}

#[test]
fn string_views_must_be_utf8(rt: HostRuntime) {
    for (view, valid, wanted) in [
        (SHORT, true, None),
        (BROKEN, true, malformed(Malformed::Utf8)),
        (BROKEN, false, None),
    ] {
        let fault = fault_of_text(rt.alloc(), view, valid);
        assert!(rt; fault == Ok(wanted), "at {view:?}");
    }
}

#[test]
fn view_from_bytes(rt: HostRuntime) {
    let table: [(&[u8], u32, u32, u32); 3] = [
        (b"abcdefgh", 8, 1684234849, 1751606885),
        (b"abcdefghijklm", 13, 1684234849, 0),
        (b"nopqrstuvwxyz", 13, 1903193966, 0),
    ];
    for (bytes, length, prefix, buffer_idx) in table {
        let offset = 0;
        let wanted = View {
            length,
            prefix,
            buffer_idx,
            offset,
        };
        assert!(rt; bytes.len() < 100 && View::new_from_bytes(bytes, 0, 0) == wanted);
    }
}

/// Returns whether a column has three rows, `nulls` of them null, and this type.
fn has_properties<A: Array>(column: &A, dtype: &ArrowDataType, nulls: usize) -> bool {
    (column.len() == 3)
        & !column.is_empty()
        & (column.null_count() == nulls)
        & (column.has_nulls() == (nulls > 0))
        & (column.validity().is_some() == (nulls == 1))
        & column.has_dtype(dtype)
}

/// Returns whether the type that a column returns is its type.
fn has_own_dtype<A: Array>(alloc: Global, column: &A) -> PolarsResult<bool> {
    let dtype = column.dtype(alloc)?;
    let is_own = column.has_dtype(&dtype);
    drop(dtype);
    Ok(is_own)
}

/// Returns whether `nulls` of the two rows after the first are null.
fn part_has_nulls<A: Array + Drop>(alloc: Global, column: &A, nulls: usize) -> PolarsResult<bool> {
    if column.len() != 3 {
        return Ok(false);
    }
    let part = column.sliced(alloc, 1, 2)?;
    Ok(part.len() == 2 && part.null_count() == nulls)
}

/// Checks the properties of the column, its slice and its clone, and returns the clone as a column
/// of any type.
///
/// It is generic, so that the proof does not depend on how the type is dropped.
fn check_column<A: Array + Drop>(
    rt: &(impl Abort + Alloc<A = Global>),
    column: A,
    dtype: &ArrowDataType,
    nulls: (usize, usize),
) -> PolarsResult<ArrayRef> {
    assert!(rt; has_properties(&column, dtype, nulls.0));
    assert!(rt; has_own_dtype(rt.alloc(), &column) == Ok(true));
    assert!(rt; part_has_nulls(rt.alloc(), &column, nulls.1) == Ok(true));
    let copy = column.try_clone(rt.alloc())?;
    assert!(rt; has_properties(&copy, dtype, nulls.0) && copy.same_dtype(&column));
    Ok(copy.into_ref())
}

/// Checks the same of the column, and of it as a column of any type.
fn check_erased<A: Array + Drop>(
    rt: &(impl Abort + Alloc<A = Global>),
    column: A,
    dtype: &ArrowDataType,
    nulls: (usize, usize),
) -> PolarsResult<ArrayRef> {
    let erased = check_column(rt, column, dtype, nulls)?;
    assert!(rt; is_like_empty(rt.alloc(), erased.as_column(), dtype) == Ok(true));
    check_column(rt, erased, dtype, nulls)
}

// Columns of every type are dropped by a call: an implicit drop is proved type by type.

/// Returns whether the empty column of the type has no rows and the type of the column.
fn is_like_empty(alloc: Global, column: &Column, dtype: &ArrowDataType) -> PolarsResult<bool>
    requires { IsWellFormed column.now }
{
    if !dtype.widths_fit() {
        return Ok(false);
    }
    let empty = new_empty_array(alloc, dtype)?;
    let is_like = empty.is_empty() && column.same_dtype(empty.as_column());
    drop(empty);
    Ok(is_like)
}

/// Returns the typed array in a column of any type, after a conversion to another type, which
/// fails and returns the column.
fn again<A: FromColumn, B: FromColumn>(erased: ArrayRef) -> Result<A, ArrayRef> {
    match erased.into_array::<B>() {
        Ok(other) => Err(other.into_ref()),
        Err(back) => back.into_array::<A>(),
    }
}

/// Returns the typed array of a successful conversion.
fn taken<A>(found: Result<A, ArrayRef>) -> Result<A, Fail> {
    match found {
        Ok(column) => Ok(column),
        Err(back) => {
            drop(back);
            Err(Fail::from("another type"))
        }
    }
}

/// Checks a column of three rows, the second one null, its conversion to a column of any type, and
/// the conversion back, and returns the latter.
fn converted<A: Array + FromColumn + Drop, B: FromColumn>(
    rt: &(impl Abort + Alloc<A = Global>),
    column: A,
    dtype: &ArrowDataType,
) -> Result<A, Fail> {
    taken(again::<A, B>(check_erased(rt, column, dtype, (1, 1))?))
}

/// Checks a column of three numbers, its conversion to a column of any type, and the conversion
/// back.
fn check_numbers<T: ArrowPrimitive + Debug + PartialEq + Drop>(
    rt: &(impl Abort + Alloc<A = Global>),
    values: &[T; 3],
    dtype: &ArrowDataType,
) -> Result<(), Fail> {
    let bits = validity(rt.alloc(), &[false, true, true])?;
    let column = numbers_again(rt, values, dtype)?;
    assert!(rt; same(column.values().as_slice(), values.as_slice()));
    assert!(rt; keeps_numbers(column, bits, values));
    Ok(())
}

/// Returns a column of three numbers, the second one null, that was converted to a column of any
/// type and back.
fn numbers_again<T: ArrowPrimitive + Drop>(
    rt: &(impl Abort + Alloc<A = Global>),
    values: &[T; 3],
    dtype: &ArrowDataType,
) -> Result<PrimitiveArray<T>, Fail> {
    let column = numbers(rt.alloc(), values.as_slice(), &[true, false, true])?;
    converted::<PrimitiveArray<T>, NullArray>(rt, column, dtype)
}

/// Returns whether the row at a position is this one.
fn has_row<T: ArrowPrimitive + PartialEq>(
    column: &PrimitiveArray<T>,
    at: usize,
    row: Option<T>,
) -> bool {
    at < column.len() && column.get(at) == row
}

/// Returns whether the column has these three rows.
fn holds<T: ArrowPrimitive + PartialEq>(
    column: &PrimitiveArray<T>,
    first: Option<T>,
    second: Option<T>,
    third: Option<T>,
) -> bool {
    (column.len() == 3)
        & has_row(column, 0, first)
        & has_row(column, 1, second)
        & has_row(column, 2, third)
}

/// Returns whether the column has these numbers, the second one null, and keeps them without a
/// validity and with this one.
fn keeps_numbers<T: ArrowPrimitive + PartialEq>(
    column: PrimitiveArray<T>,
    bits: Option<Bitmap>,
    values: &[T; 3],
) -> bool
    requires { Covers bits 3 }
{
    let is_masked = holds(&column, Some(values[0]), None, Some(values[2]));
    let column = column.with_validity(None);
    let is_whole = holds(&column, Some(values[0]), Some(values[1]), Some(values[2]));
    if column.len() != 3 {
        return false;
    }
    let column = column.with_validity(bits);
    is_masked && is_whole && holds(&column, None, Some(values[1]), Some(values[2]))
}

#[test]
fn signed_integer_columns(rt: HostRuntime) -> Result<(), Fail> {
    check_numbers(&rt, &[-128i8, 0, 127], &ArrowDataType::Int8)?;
    check_numbers(&rt, &[-32768i16, 0, 32767], &ArrowDataType::Int16)?;
    check_numbers(&rt, &[-2147483648i32, 0, 2147483647], &ArrowDataType::Int32)?;
    check_numbers(&rt, &[i64::MIN, 0, i64::MAX], &ArrowDataType::Int64)?;
    check_numbers(&rt, &[i128::MIN, 0, i128::MAX], &ArrowDataType::Int128)
}

#[test]
fn unsigned_integer_columns(rt: HostRuntime) -> Result<(), Fail> {
    check_numbers(&rt, &[1u8, 0, 255], &ArrowDataType::UInt8)?;
    check_numbers(&rt, &[1u16, 0, 65535], &ArrowDataType::UInt16)?;
    check_numbers(&rt, &[1u32, 0, 4294967295], &ArrowDataType::UInt32)?;
    check_numbers(&rt, &[1u64, 0, u64::MAX], &ArrowDataType::UInt64)?;
    check_numbers(&rt, &[1u128, 0, u128::MAX], &ArrowDataType::UInt128)
}

/// Returns whether a call returned an error.
fn is_error<T: Drop, E: Drop>(answer: Result<T, E>) -> bool {
    answer.is_err()
}

#[test]
fn conversion_to_another_integer_type_fails(rt: HostRuntime) -> Result<(), Fail> {
    let values = buffer(rt.alloc(), &[5u32])?;
    assert!(rt; values.len() == 1);
    assert!(rt; is_error(i64::from_column(u32::into_column(values, None))));
    Ok(())
}

#[test]
fn null_columns(rt: HostRuntime) -> Result<(), Fail> {
    let erased = check_column(&rt, NullArray::try_new(3)?, &ArrowDataType::Null, (3, 2))?;
    assert!(rt; taken(again::<NullArray, BooleanArray>(erased))?.len() == 3);
    Ok(())
}

/// Returns whether the boolean column has these rows.
fn has_truths(column: &BooleanArray, rows: &[Option<bool>]) -> bool {
    if column.len() != rows.len() {
        return false;
    }
    for (i, row) in rows.iter().enumerate() {
        if column.get(i) != *row {
            return false;
        }
    }
    true
}

/// Returns whether the rows are these booleans, and the second one is true without the validity.
fn are_truths(column: BooleanArray) -> bool {
    let is_masked = has_truths(&column, &[Some(true), None, Some(false)]);
    let is_counted = column.values().set_bits() == 2;
    let column = column.with_validity(None);
    is_masked && is_counted && has_truths(&column, &[Some(true), Some(true), Some(false)])
}

#[test]
fn boolean_columns(rt: HostRuntime) -> Result<(), Fail> {
    let column = truths(rt.alloc(), &[true, true, false], &[true, false, true])?;
    let column = converted::<BooleanArray, NullArray>(&rt, column, &ArrowDataType::Boolean)?;
    assert!(rt; are_truths(column));
    Ok(())
}

/// Returns whether a slice of three rows shares their bytes.
fn shares_bytes(alloc: Global, column: &BinaryArray<i64>) -> PolarsResult<bool> {
    if column.len() != 3 {
        return Ok(false);
    }
    let part = column.sliced(alloc, 1, 1)?;
    let are_shared = part.values().len() == 6;
    let are_none = part.offsets().as_slice() == [3i64, 3].as_slice();
    drop(part);
    Ok(are_shared && are_none)
}

/// Returns whether the rows are these bytes, and the third one is not null without the validity.
fn are_pieces(column: BinaryArray<i64>) -> bool {
    let is_masked = has_bytes(&column, &[Some(b"ab"), Some(b""), None]);
    let column = column.with_validity(None);
    let is_whole = has_bytes(&column, &[Some(b"ab"), Some(b""), Some(b"cde")]);
    drop(column);
    is_masked & is_whole
}

#[test]
fn binary_columns(rt: HostRuntime) -> Result<(), Fail> {
    let column = pieces_of(rt.alloc(), &[1, 3, 3, 6], &[true, true, false])??;
    let dtype = &ArrowDataType::LargeBinary;
    let column = converted::<BinaryArray<i64>, BinaryViewArray>(&rt, column, dtype)?;
    assert!(rt; shares_bytes(rt.alloc(), &column) == Ok(true));
    assert!(rt; are_pieces(column));
    Ok(())
}

// A long string, a short one, and a null with a byte that is not UTF-8 in its slot.
const VIEWS: [View; 3] = [WHOLE, SHORT, BROKEN];

const VALID: [bool; 3] = [true, true, false];

/// Returns whether there are three views of strings over one data buffer.
fn are_views(column: &BinaryViewArray) -> bool {
    column.views().len() == 3 && column.data_buffers().len() == 1 && column.is_utf8()
}

/// Returns whether without the validity no row is null, and the last one is the byte that is not
/// UTF-8.
fn are_all_views(alloc: Global, column: BinaryViewArray) -> bool {
    let column = column.with_validity(None);
    let is_byte = has_bytes_at(alloc, &column, 2, Some(&[0xFF])) == Ok(true);
    let are_bytes = !column.has_nulls() & !column.is_utf8();
    drop(column);
    is_byte & are_bytes
}

#[test]
fn binary_view_columns(rt: HostRuntime) -> Result<(), Fail> {
    let views = views_of(rt.alloc(), &VIEWS, &VALID)??;
    let dtype = &ArrowDataType::BinaryView;
    let column = converted::<BinaryViewArray, Utf8ViewArray>(&rt, views, dtype)?;
    assert!(rt; are_views(&column));
    assert!(rt; are_all_views(rt.alloc(), column));
    Ok(())
}

/// Returns the column of strings.
fn some_texts(alloc: Global) -> Result<Utf8ViewArray, Fail> {
    let views = views_of(alloc, &VIEWS, &VALID)??;
    let texts = texts_of(alloc, &views);
    drop(views);
    Ok(texts?)
}

/// Returns views of strings as a string column.
fn texts_of(alloc: Global, views: &BinaryViewArray) -> PolarsResult<Utf8ViewArray> {
    if !views.is_utf8() {
        return Err(PolarsError::ComputeError);
    }
    views.to_utf8view_unchecked(alloc)
}

/// Returns whether the rows after the first are a short string and a null.
fn has_texts(alloc: Global, texts: &Utf8ViewArray) -> PolarsResult<bool> {
    if texts.len() != 3 {
        return Ok(false);
    }
    let is_short = texts
        .get(alloc, 1)?
        .is_some_and(|text| text.as_str() == "abcd");
    Ok(is_short && texts.get(alloc, 2)?.is_none())
}

/// Returns whether the rows are the bytes of a long string, of a short one, and a null, over one
/// data buffer.
fn are_bytes_of_texts(alloc: Global, bytes: &BinaryViewArray) -> PolarsResult<bool> {
    Ok(
        bytes.len() == 3
            && bytes.data_buffers().len() == 1
            && has_bytes_at(alloc, bytes, 0, Some(b"abcdefghijklm"))?
            && has_bytes_at(alloc, bytes, 1, Some(b"abcd"))?
            && has_bytes_at(alloc, bytes, 2, None)?,
    )
}

/// Returns whether a string column and its bytes have these rows.
fn are_texts(alloc: Global, texts: &Utf8ViewArray) -> PolarsResult<bool> {
    let bytes = texts.to_binview(alloc)?;
    let are_bytes = are_bytes_of_texts(alloc, &bytes) == Ok(true);
    drop(bytes);
    Ok(are_bytes & has_texts(alloc, texts)?)
}

#[test]
fn string_columns(rt: HostRuntime) -> Result<(), Fail> {
    let alloc = rt.alloc();
    let texts = some_texts(alloc)?;
    assert!(rt; (texts.views().len() == 3) & (texts.data_buffers().len() == 1));
    let dtype = &ArrowDataType::Utf8View;
    let texts = converted::<Utf8ViewArray, BinaryArray<i64>>(&rt, texts, dtype)?;
    let are_texts = are_texts(alloc, &texts);
    drop(texts);
    assert!(rt; are_texts == Ok(true));
    Ok(())
}

/// Returns whether each row is valid without a validity, in a slice and in a clone too.
fn missing_is_valid() -> bool {
    !has_other_length(&None, 2)
        && is_valid_at(&None, 1)
        && sliced_validity(&None, 1, 2).is_ok_and(|part| part.is_none())
        && clone_validity(&None).is_ok_and(|copy| copy.is_none())
}

#[test]
fn missing_validity(rt: HostRuntime) -> Result<(), Fail> {
    let bits = validity(rt.alloc(), &[true, false, true])?;
    assert!(rt; has_other_length(&bits, 2) && !has_other_length(&bits, 3));
    assert!(rt; missing_is_valid());
    Ok(())
}

/// Returns whether numbers and a null, and no numbers, become columns of them.
fn are_number_options(alloc: Global) -> Result<bool, MakeError> {
    let rows = [Some(5i16), None, Some(-3)];
    let none: [Option<u128>; 0] = [];
    let numbers = PrimitiveArray::from_options(alloc, &rows)?;
    let is_empty = PrimitiveArray::from_options(alloc, &none)?.is_empty();
    Ok(is_empty && has_numbers(&numbers, &rows))
}

/// Returns whether booleans and a null become a column of them.
fn are_truth_options(alloc: Global) -> Result<bool, MakeError> {
    let rows = [None, Some(true), Some(false), Some(true)];
    Ok(has_truths(&BooleanArray::from_options(alloc, &rows)?, &rows))
}

#[test]
fn columns_from_options(rt: HostRuntime) {
    assert!(rt; are_number_options(rt.alloc()) == Ok(true));
    assert!(rt; are_truth_options(rt.alloc()) == Ok(true));
}
