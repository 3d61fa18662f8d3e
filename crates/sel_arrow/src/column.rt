//! Columns of every type.

ghost use Rattle.std.specs.Prelude.{◌≡◌, ◌≤◌, ◌+◌, ◌↔◌, [], length, take, drop, map, All, IfOk, IfErr, IsTrue};
ghost use Rattle.std.specs.Option.{option_copied};
ghost use Rattle.sel_bits.specs.Faults.{IsOutOfMemory};
ghost use Rattle.sel_bits.specs.Limits.{max_rows};
ghost use Rattle.sel_arrow.specs.DataType.{shape_of};
ghost use Rattle.sel_arrow.specs.Made.{MakesRows};
ghost use Rattle.sel_arrow.specs.Masked.{number_rows};
ghost use Rattle.sel_arrow.specs.Nulls.{IsValidityOf};
ghost use Rattle.sel_arrow.specs.Rows.{rows, type_of, well_formed, IsField, IsWellFormed, buffers_held};

use crate::array::Array;
use crate::array_ref::ArrayRef;
use crate::binary::BinaryArray;
use crate::binview::BinaryViewArray;
use crate::boolean::BooleanArray;
use crate::datatype::ArrowDataType;
use crate::fixed_size_list::FixedSizeListArray;
use crate::list::ListArray;
use crate::null::NullArray;
use crate::primitive::{ArrowPrimitive, PrimitiveArray};
use crate::rules::{fault_of_blocks, fault_of_lists, fault_of_struct};
use crate::structure::StructArray;
use crate::utf8view::Utf8ViewArray;
use sel_bits::bitmap::Bitmap;
use sel_bits::faults::PolarsResult;
use sel_bits::offsets::OffsetsBuffer;
use std::alloc::Global;

/// A column, by the layout of its parts. (Arrow columnar format.)
#[derive(Drop)]
pub enum Column {
    Null(NullArray),
    Boolean(BooleanArray),
    Int8(PrimitiveArray<i8>),
    Int16(PrimitiveArray<i16>),
    Int32(PrimitiveArray<i32>),
    Int64(PrimitiveArray<i64>),
    Int128(PrimitiveArray<i128>),
    UInt8(PrimitiveArray<u8>),
    UInt16(PrimitiveArray<u16>),
    UInt32(PrimitiveArray<u32>),
    UInt64(PrimitiveArray<u64>),
    UInt128(PrimitiveArray<u128>),
    LargeBinary(BinaryArray<i64>),
    BinaryView(BinaryViewArray),
    Utf8View(Utf8ViewArray),
    LargeList {
        offsets: OffsetsBuffer<i64>,
        values: Box<Column>,
        validity: Option<Bitmap>,
    },
    FixedSizeList {
        size: usize,
        len: usize,
        values: Box<Column>,
        validity: Option<Bitmap>,
    },
    Struct {
        len: usize,
        fields: Vec<Column>,
        validity: Option<Bitmap>,
    },
}

/// Matches a column: `$each` for integers of every width, whose array is `$numbers`, and an arm for
/// each other column.
#[macro_export]
macro_rules! match_numbers {
    ($column:expr, $numbers:ident => $each:expr, $($others:tt)+) => {
        match $column {
            Column::Int8($numbers) => $each,
            Column::Int16($numbers) => $each,
            Column::Int32($numbers) => $each,
            Column::Int64($numbers) => $each,
            Column::Int128($numbers) => $each,
            Column::UInt8($numbers) => $each,
            Column::UInt16($numbers) => $each,
            Column::UInt32($numbers) => $each,
            Column::UInt64($numbers) => $each,
            Column::UInt128($numbers) => $each,
            $($others)+
        }
    };
}

/// Matches a column: `$each` for columns without children, whose array is `$array`, and an arm for
/// each other column. Integers may have an expression of their own: a call that names the type of
/// the integers alone is proved faster than one that names the type of the array.
macro_rules! match_column {
    ($column:expr, $array:ident => $each:expr, $($nested:tt)+) => {
        match_column! { $column, of numbers: $array => $each, others: $array => $each, $($nested)+ }
    };
    ($column:expr, of numbers: $numbers:ident => $number:expr,
     others: $array:ident => $each:expr, $($nested:tt)+) => {
        match_numbers! { $column, $numbers => $number,
            Column::Null($array) => $each,
            Column::Boolean($array) => $each,
            Column::LargeBinary($array) => $each,
            Column::BinaryView($array) => $each,
            Column::Utf8View($array) => $each,
            $($nested)+
        }
    };
}

impl Column {
    /// Returns the number of rows, at most 4,294,967,295 if the column is well-formed.
    #[tactic(auto, using(crate::proofs::NestedRows::row_counts))]
    pub fn len(&self) -> usize
        ensures len { result ≡ length (rows self.now) }
        ensures few { IsWellFormed self.now → result ≤ max_rows }
    {
        match_column! { self, column => column.len(),
            Column::LargeList { offsets, .. } => offsets.len_proxy(),
            Column::FixedSizeList { len, .. } => *len,
            Column::Struct { len, .. } => *len,
        }
    }

    /// Returns the validity bitmap. Without one every row is valid, except in a null column, where
    /// no row is.
    ///
    /// # Requires
    /// The column is well-formed; check with `is_well_formed`.
    #[tactic(auto, using(crate::proofs::NestedRows::telling))]
    pub fn validity(&self) -> Option<&Bitmap>
        requires { IsWellFormed self.now }
        ensures { IsValidityOf (type_of self.now) (option_copied result) (rows self.now) }
    {
        match_column! { self, column => column.validity(),
            Column::LargeList { validity, .. } => validity.as_ref(),
            Column::FixedSizeList { validity, .. } => validity.as_ref(),
            Column::Struct { validity, .. } => validity.as_ref(),
        }
    }

    /// Returns whether the column is well-formed.
    ///
    /// At every depth: there are at most 4,294,967,295 rows, and a validity has one bit for each;
    /// offsets do not decrease, and end within the child; the list size of a fixed-size list is at
    /// most 4,294,967,295, and its child has one row for each entry; each field of a struct has as
    /// many rows as the struct.
    #[cycle(forming)]
    pub fn is_well_formed(&self) -> bool
        ensures { result ≡ well_formed self.now }
    {
        match self {
            Column::LargeList {
                offsets,
                values,
                validity,
            } => values.is_well_formed()
                && fault_of_lists(offsets, values.len(), validity).is_none(),
            Column::FixedSizeList {
                size,
                len,
                values,
                validity,
            } => values.is_well_formed()
                && fault_of_blocks(*size, *len, values.len(), validity).is_none(),
            Column::Struct {
                len,
                fields,
                validity,
            } => are_fields(fields, *len) && fault_of_struct(*len, true, validity).is_none(),
            _ => true,
        }
    }

    /// Returns whether the column has the type `dtype`.
    #[cycle(has_dtype)]
    pub fn has_dtype(&self, dtype: &ArrowDataType) -> bool
        ensures { IsTrue result ↔ (type_of self.now ≡ shape_of dtype.now) }
    {
        match_column! { self, column => column.has_dtype(dtype),
            Column::LargeList { values, .. } => match dtype {
                ArrowDataType::LargeList(child) => values.has_dtype(child),
                _ => false,
            },
            Column::FixedSizeList { size, values, .. } => match dtype {
                ArrowDataType::FixedSizeList(child, width) => {
                    *size == *width && values.has_dtype(child)
                }
                _ => false,
            },
            Column::Struct { fields, .. } => match dtype {
                ArrowDataType::Struct(dtypes) => have_dtypes(fields, dtypes),
                _ => false,
            },
        }
    }

    /// Returns whether both columns have the same type.
    #[cycle(same_dtype)]
    pub fn same_dtype(&self, other: &Column) -> bool
        ensures { IsTrue result ↔ (type_of self.now ≡ type_of other.now) }
    {
        match self {
            Column::Null(_) => is_type_of(&ArrowDataType::Null, other),
            Column::Boolean(_) => is_type_of(&ArrowDataType::Boolean, other),
            Column::Int8(_) => is_type_of(&ArrowDataType::Int8, other),
            Column::Int16(_) => is_type_of(&ArrowDataType::Int16, other),
            Column::Int32(_) => is_type_of(&ArrowDataType::Int32, other),
            Column::Int64(_) => is_type_of(&ArrowDataType::Int64, other),
            Column::Int128(_) => is_type_of(&ArrowDataType::Int128, other),
            Column::UInt8(_) => is_type_of(&ArrowDataType::UInt8, other),
            Column::UInt16(_) => is_type_of(&ArrowDataType::UInt16, other),
            Column::UInt32(_) => is_type_of(&ArrowDataType::UInt32, other),
            Column::UInt64(_) => is_type_of(&ArrowDataType::UInt64, other),
            Column::UInt128(_) => is_type_of(&ArrowDataType::UInt128, other),
            Column::LargeBinary(_) => is_type_of(&ArrowDataType::LargeBinary, other),
            Column::BinaryView(_) => is_type_of(&ArrowDataType::BinaryView, other),
            Column::Utf8View(_) => is_type_of(&ArrowDataType::Utf8View, other),
            Column::LargeList { values, .. } => match other {
                Column::LargeList { values: others, .. } => values.same_dtype(others),
                _ => false,
            },
            Column::FixedSizeList { size, values, .. } => match other {
                Column::FixedSizeList {
                    size: width,
                    values: others,
                    ..
                } => *size == *width && values.same_dtype(others),
                _ => false,
            },
            Column::Struct { fields, .. } => match other {
                Column::Struct { fields: others, .. } => same_dtypes(fields, others),
                _ => false,
            },
        }
    }

    /// Returns the type of the column.
    ///
    /// # Errors
    /// `OutOfMemory` if an allocation fails.
    #[tactic(auto, using(crate::proofs::Types::struct_types))]
    #[cycle(dtype)]
    pub fn dtype(&self, alloc: Global) -> PolarsResult<ArrowDataType>
        ensures dtype { IfOk result (λ dtype. shape_of dtype ≡ type_of self.now) }
        ensures refusal { IfErr result IsOutOfMemory }
    {
        match_column! { self, column => column.dtype(alloc),
            Column::LargeList { values, .. } => {
                let child = Box::new(alloc, values.dtype(alloc)?)?;
                Ok(ArrowDataType::LargeList(child))
            }
            Column::FixedSizeList { size, values, .. } => {
                let child = Box::new(alloc, values.dtype(alloc)?)?;
                Ok(ArrowDataType::FixedSizeList(child, *size))
            }
            Column::Struct { fields, .. } => {
                let dtypes = dtypes_of(alloc, fields)?;
                Ok(ArrowDataType::Struct(dtypes))
            }
        }
    }

    /// Returns the `len` rows from row `off` on. Keeps all data buffers.
    ///
    /// # Requires
    /// The column is well-formed (check with `is_well_formed`), and `off + len` is at most the
    /// number of rows.
    ///
    /// # Errors
    /// `OutOfMemory` if an allocation fails.
    #[cycle(slicing)]
    pub fn sliced(&self, alloc: Global, off: usize, len: usize) -> PolarsResult<Column>
        requires formed { IsWellFormed self.now }
        requires inside { off + len ≤ length (rows self.now) }
        ensures { MakesRows result (take len (drop off (rows self.now)))
            (type_of self.now) (buffers_held self.now) }
    {
        match_column! { self, of numbers: column => numbers_part(column, alloc, off, len),
            others: column => part_of(column, alloc, off, len),
            Column::LargeList {
                offsets,
                values,
                validity,
            } => {
                let part = ListArray::part_of(offsets, values, validity, alloc, off, len)?;
                Ok(part.into_column())
            }
            Column::FixedSizeList {
                size,
                len: count,
                values,
                validity,
            } => {
                let part = FixedSizeListArray::part_of(
                    *size, *count, values, validity, alloc, off, len,
                )?;
                Ok(part.into_column())
            }
            Column::Struct {
                len: count,
                fields,
                validity,
            } => {
                let part = StructArray::part_of(*count, fields, validity, alloc, off, len)?;
                Ok(part.into_column())
            }
        }
    }

    /// Returns a column with the same rows, type and data buffers.
    ///
    /// # Requires
    /// The column is well-formed; check with `is_well_formed`.
    ///
    /// # Errors
    /// `OutOfMemory` if an allocation fails.
    #[cycle(copying)]
    pub fn try_clone(&self, alloc: Global) -> PolarsResult<Column>
        requires { IsWellFormed self.now }
        ensures { MakesRows result (rows self.now) (type_of self.now) (buffers_held self.now) }
    {
        match_column! { self, of numbers: column => numbers_copy(column, alloc),
            others: column => copy_of(column, alloc),
            Column::LargeList {
                offsets,
                values,
                validity,
            } => Ok(ListArray::copy_of(offsets, values, validity, alloc)?.into_column()),
            Column::FixedSizeList {
                size,
                len,
                values,
                validity,
            } => Ok(FixedSizeListArray::copy_of(
                *size, *len, values, validity, alloc,
            )?.into_column()),
            Column::Struct {
                len,
                fields,
                validity,
            } => Ok(StructArray::copy_of(*len, fields, validity, alloc)?.into_column()),
        }
    }
}

/// Returns whether `dtype` is the type of the column.
fn is_type_of(dtype: &ArrowDataType, column: &Column) -> bool
    ensures { IsTrue result ↔ (shape_of dtype.now ≡ type_of column.now) }
{
    column.has_dtype(dtype)
}

/// Returns whether there are as many columns as types, and each column has the type at its
/// position.
#[cycle(has_dtype)]
#[tactic(auto, using(crate::proofs::Types::both_lists))]
pub(crate) fn have_dtypes(columns: &[Column], dtypes: &[ArrowDataType]) -> bool
    ensures { IsTrue result ↔ (map type_of columns.now ≡ map shape_of dtypes.now) }
{
    if columns.len() != dtypes.len() {
        return false;
    }
    for (i, column) in columns.iter().enumerate() {
        if !column.has_dtype(&dtypes[i]) {
            return false;
        }
    }
    true
}

/// Returns whether both slices have the same length, and the same types in the same order.
#[cycle(same_dtype)]
#[tactic(auto, using(crate::proofs::Types::both_lists))]
pub(crate) fn same_dtypes(columns: &[Column], others: &[Column]) -> bool
    ensures { IsTrue result ↔ (map type_of columns.now ≡ map type_of others.now) }
{
    if columns.len() != others.len() {
        return false;
    }
    for (i, column) in columns.iter().enumerate() {
        if !column.same_dtype(&others[i]) {
            return false;
        }
    }
    true
}

/// Returns the types of the columns, in order. Fails only with `OutOfMemory`.
#[cycle(dtype)]
pub(crate) fn dtypes_of(alloc: Global, columns: &[Column]) -> PolarsResult<Vec<ArrowDataType>>
    ensures dtypes { IfOk result (λ dtypes. map shape_of dtypes.items ≡
        map type_of columns.now) }
    ensures refusal { IfErr result IsOutOfMemory }
{
    let mut dtypes = Vec::with_capacity(alloc, columns.len())?;
    for column in columns {
        dtypes.push(column.dtype(alloc)?)?;
    }
    Ok(dtypes)
}

/// Returns a slice of a column of one type as a `Column`. Fails only with `OutOfMemory`.
fn part_of<A: Array + Drop>(
    column: &A,
    alloc: Global,
    off: usize,
    len: usize,
) -> PolarsResult<Column>
    requires inside { off + len ≤ length (A.rows column.now) }
    ensures { MakesRows result (take len (drop off (A.rows column.now)))
        (A.shape column.now) (A.held column.now) }
{
    let ArrayRef { column } = column.sliced(alloc, off, len)?.into_ref();
    Ok(column)
}

/// Returns a copy of a column of one type as a `Column`. Fails only with `OutOfMemory`.
fn copy_of<A: Array + Drop>(column: &A, alloc: Global) -> PolarsResult<Column>
    ensures { MakesRows result (A.rows column.now) (A.shape column.now) (A.held column.now) }
{
    let ArrayRef { column } = column.try_clone(alloc)?.into_ref();
    Ok(column)
}

/// Returns a slice of a column of integers as a `Column`. Fails only with `OutOfMemory`.
fn numbers_part<T: ArrowPrimitive>(
    column: &PrimitiveArray<T>,
    alloc: Global,
    off: usize,
    len: usize,
) -> PolarsResult<Column>
    requires inside { off + len ≤ length
        (number_rows T.number column.now.values column.now.validity) }
    ensures { MakesRows result (take len (drop off
        (number_rows T.number column.now.values column.now.validity))) T.shape [] }
{
    part_of(column, alloc, off, len)
}

/// Returns a copy of a column of integers as a `Column`. Fails only with `OutOfMemory`.
fn numbers_copy<T: ArrowPrimitive>(
    column: &PrimitiveArray<T>,
    alloc: Global,
) -> PolarsResult<Column>
    ensures { MakesRows result (number_rows T.number column.now.values column.now.validity)
        T.shape [] }
{
    copy_of(column, alloc)
}

/// Returns whether each column is well-formed and has `len` rows.
#[cycle(forming)]
fn are_fields(columns: &[Column], len: usize) -> bool
    ensures { IsTrue result ↔ All (IsField len) columns.now }
{
    for column in columns {
        if !column.is_well_formed() {
            return false;
        }
        if column.len() != len {
            return false;
        }
    }
    true
}
