//! Shared by several files and crates: columns built from rows, and columns compared with rows.

ghost use Rattle.std.specs.Prelude.{length, IfOk};
ghost use Rattle.sel_bits.specs.Validity.{Covers};

use crate::fixtures::{both, buffer};
use sel_arrow::array::Array;
use sel_arrow::array_ref::ArrayRef;
use sel_arrow::binary::BinaryArray;
use sel_arrow::binview::BinaryViewArray;
use sel_arrow::boolean::BooleanArray;
use sel_arrow::null::NullArray;
use sel_arrow::primitive::{ArrowPrimitive, PrimitiveArray};
use sel_bits::bitmap::Bitmap;
use sel_bits::buffer::Buffer;
use sel_bits::faults::PolarsResult;
use sel_bits::native::{NativeType, Offset};
use sel_bits::offsets::OffsetsBuffer;
use std::alloc::Global;
use std::test::Fail;

/// Returns these offsets.
pub fn offsets(alloc: Global, offsets: &[i64]) -> Result<OffsetsBuffer<i64>, Fail> {
    Ok(OffsetsBuffer::try_from(Vec::from_slice(alloc, offsets)?)?)
}

/// Returns these bits as a validity.
pub fn validity(alloc: Global, bits: &[bool]) -> PolarsResult<Option<Bitmap>>
    ensures { IfOk result (λ validity. Covers validity (length bits.now)) }
{
    Ok(Some(Bitmap::from_bools(alloc, bits)?))
}

/// Returns a null column.
pub fn nulls(rows: usize) -> Result<ArrayRef, Fail> {
    Ok(NullArray::try_new(rows)?.into_ref())
}

/// Returns a column of these numbers with this validity.
pub fn numbers<T: NativeType>(
    alloc: Global,
    values: &[T],
    validity: &[bool],
) -> Result<PrimitiveArray<T>, Fail> {
    let (values, validity) = both(buffer(alloc, values), Bitmap::from_bools(alloc, validity))?;
    Ok(PrimitiveArray::try_new(values, Some(validity))?)
}

/// Returns one data buffer of these bytes.
pub fn one_buffer(alloc: Global, bytes: &[u8]) -> PolarsResult<Buffer<Buffer<u8>>> {
    let buffers = vec![in alloc; buffer(alloc, bytes)?]?;
    Buffer::from_vec(buffers)
}

/// Returns a column of numbers, with the given number in null slots.
pub fn column<T: NativeType>(
    alloc: Global,
    rows: &[Option<T>],
    hidden: T,
) -> Result<PrimitiveArray<T>, Fail> {
    let (values, validity) = both(values_of(alloc, rows, hidden), flags_of(alloc, rows))?;
    numbers(alloc, &values, &validity)
}

/// Returns the numbers, with the given number for nulls.
fn values_of<T: NativeType>(alloc: Global, rows: &[Option<T>], hidden: T) -> PolarsResult<Vec<T>> {
    let mut values = Vec::with_capacity(alloc, rows.len())?;
    for row in rows {
        values.push(row.unwrap_or(hidden))?;
    }
    Ok(values)
}

/// Returns whether each row is not null.
fn flags_of<T: NativeType>(alloc: Global, rows: &[Option<T>]) -> PolarsResult<Vec<bool>> {
    let mut flags = Vec::with_capacity(alloc, rows.len())?;
    for row in rows {
        flags.push(row.is_some())?;
    }
    Ok(flags)
}

/// Returns a boolean column with a validity.
pub fn truths(alloc: Global, values: &[bool], validity: &[bool]) -> Result<BooleanArray, Fail> {
    let values = Bitmap::from_bools(alloc, values);
    let (values, validity) = both(values, Bitmap::from_bools(alloc, validity))?;
    Ok(BooleanArray::try_new(values, Some(validity))?)
}

/// Returns whether the column has these numbers as rows.
pub fn has_numbers<T: ArrowPrimitive + PartialEq>(
    column: &PrimitiveArray<T>,
    rows: &[Option<T>],
) -> bool {
    if column.len() != rows.len() {
        return false;
    }
    for (i, row) in rows.iter().enumerate() {
        if column.get(i) != *row {
            return false;
        }
    }
    true
}

/// Returns whether the binary column has these rows.
pub fn has_bytes<O: Offset>(column: &BinaryArray<O>, rows: &[Option<&[u8]>]) -> bool {
    if column.len() != rows.len() {
        return false;
    }
    for (i, row) in rows.iter().enumerate() {
        if column.get(i) != *row {
            return false;
        }
    }
    true
}

/// Returns whether the row at a position has these bytes.
pub fn has_bytes_at(
    alloc: Global,
    column: &BinaryViewArray,
    at: usize,
    bytes: Option<&[u8]>,
) -> PolarsResult<bool> {
    if at >= column.len() {
        return Ok(false);
    }
    Ok(match column.get(alloc, at)? {
        Some(row) => bytes == Some(row.as_slice()),
        None => bytes.is_none(),
    })
}
