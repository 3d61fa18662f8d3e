//! The primitive types that have a `Column` variant.

ghost use Rattle.std.specs.Prelude.{◌≡◌, ◌≤◌, [], length, pos};
ghost use Rattle.sel_bits.specs.Limits.{max_rows};
ghost use Rattle.sel_bits.specs.Validity.{Covers};
ghost use Rattle.sel_arrow.specs.Masked.{number_rows};

use crate::column::Column;
use crate::datatype::ArrowDataType;
use crate::primitive::{ArrowPrimitive, PrimitiveArray};
use sel_bits::bitmap::Bitmap;
use sel_bits::buffer::Buffer;

/// Returns references to the values and the validity of a variant, or `None` if it is another.
macro_rules! values_of {
    ($variant:ident, $column:ident) => {
        match $column {
            Column::$variant(array) => Some((array.values.as_slice(), array.validity.as_ref())),
            _ => None,
        }
    };
}

/// Returns the values and the validity of a variant, or the column as it was if it is another.
macro_rules! parts_of {
    ($variant:ident, $column:ident) => {
        match $column {
            Column::$variant(array) => {
                let PrimitiveArray { values, validity } = array;
                Ok((values, validity))
            }
            other => Err(other),
        }
    };
}

impl ArrowPrimitive for i8 {
    ghost use Rattle.sel_arrow.specs.Rows.{rows, buffers_held, type_of, IsWellFormed};
    ghost use Rattle.sel_arrow.specs.Shape.{of_int8};

    ghost shape = { of_int8 };

    ghost no_null = { λ same. Prim.cc };

    fn column_dtype() -> ArrowDataType {
        ArrowDataType::Int8
    }

    fn is_column_dtype(dtype: &ArrowDataType) -> bool {
        matches!(dtype, ArrowDataType::Int8)
    }

    fn into_column(values: Buffer<i8>, validity: Option<Bitmap>) -> Column
        requires few { length values ≤ max_rows }
        requires covers { Covers validity (length values) }
        ensures rows { rows result ≡ number_rows (λ x. x) values validity }
        ensures dtype { type_of result ≡ of_int8 }
        ensures buffers { buffers_held result ≡ [] }
        ensures formed { IsWellFormed result }
    {
        Column::Int8(PrimitiveArray { values, validity })
    }

    fn of_column(column: &Column) -> Option<(&[i8], Option<&Bitmap>)> {
        values_of!(Int8, column)
    }

    fn from_column(column: Column) -> Result<(Buffer<i8>, Option<Bitmap>), Column> {
        parts_of!(Int8, column)
    }
}

impl ArrowPrimitive for i16 {
    ghost use Rattle.sel_arrow.specs.Rows.{rows, buffers_held, type_of, IsWellFormed};
    ghost use Rattle.sel_arrow.specs.Shape.{of_int16};

    ghost shape = { of_int16 };

    ghost no_null = { λ same. Prim.cc };

    fn column_dtype() -> ArrowDataType {
        ArrowDataType::Int16
    }

    fn is_column_dtype(dtype: &ArrowDataType) -> bool {
        matches!(dtype, ArrowDataType::Int16)
    }

    fn into_column(values: Buffer<i16>, validity: Option<Bitmap>) -> Column
        requires few { length values ≤ max_rows }
        requires covers { Covers validity (length values) }
        ensures rows { rows result ≡ number_rows (λ x. x) values validity }
        ensures dtype { type_of result ≡ of_int16 }
        ensures buffers { buffers_held result ≡ [] }
        ensures formed { IsWellFormed result }
    {
        Column::Int16(PrimitiveArray { values, validity })
    }

    fn of_column(column: &Column) -> Option<(&[i16], Option<&Bitmap>)> {
        values_of!(Int16, column)
    }

    fn from_column(column: Column) -> Result<(Buffer<i16>, Option<Bitmap>), Column> {
        parts_of!(Int16, column)
    }
}

impl ArrowPrimitive for i32 {
    ghost use Rattle.sel_arrow.specs.Rows.{rows, buffers_held, type_of, IsWellFormed};
    ghost use Rattle.sel_arrow.specs.Shape.{of_int32};

    ghost shape = { of_int32 };

    ghost no_null = { λ same. Prim.cc };

    fn column_dtype() -> ArrowDataType {
        ArrowDataType::Int32
    }

    fn is_column_dtype(dtype: &ArrowDataType) -> bool {
        matches!(dtype, ArrowDataType::Int32)
    }

    fn into_column(values: Buffer<i32>, validity: Option<Bitmap>) -> Column
        requires few { length values ≤ max_rows }
        requires covers { Covers validity (length values) }
        ensures rows { rows result ≡ number_rows (λ x. x) values validity }
        ensures dtype { type_of result ≡ of_int32 }
        ensures buffers { buffers_held result ≡ [] }
        ensures formed { IsWellFormed result }
    {
        Column::Int32(PrimitiveArray { values, validity })
    }

    fn of_column(column: &Column) -> Option<(&[i32], Option<&Bitmap>)> {
        values_of!(Int32, column)
    }

    fn from_column(column: Column) -> Result<(Buffer<i32>, Option<Bitmap>), Column> {
        parts_of!(Int32, column)
    }
}

impl ArrowPrimitive for i64 {
    ghost use Rattle.sel_arrow.specs.Rows.{rows, buffers_held, type_of, IsWellFormed};
    ghost use Rattle.sel_arrow.specs.Shape.{of_int64};

    ghost shape = { of_int64 };

    ghost no_null = { λ same. Prim.cc };

    fn column_dtype() -> ArrowDataType {
        ArrowDataType::Int64
    }

    fn is_column_dtype(dtype: &ArrowDataType) -> bool {
        matches!(dtype, ArrowDataType::Int64)
    }

    fn into_column(values: Buffer<i64>, validity: Option<Bitmap>) -> Column
        requires few { length values ≤ max_rows }
        requires covers { Covers validity (length values) }
        ensures rows { rows result ≡ number_rows (λ x. x) values validity }
        ensures dtype { type_of result ≡ of_int64 }
        ensures buffers { buffers_held result ≡ [] }
        ensures formed { IsWellFormed result }
    {
        Column::Int64(PrimitiveArray { values, validity })
    }

    fn of_column(column: &Column) -> Option<(&[i64], Option<&Bitmap>)> {
        values_of!(Int64, column)
    }

    fn from_column(column: Column) -> Result<(Buffer<i64>, Option<Bitmap>), Column> {
        parts_of!(Int64, column)
    }
}

impl ArrowPrimitive for i128 {
    ghost use Rattle.sel_arrow.specs.Rows.{rows, buffers_held, type_of, IsWellFormed};
    ghost use Rattle.sel_arrow.specs.Shape.{of_int128};

    ghost shape = { of_int128 };

    ghost no_null = { λ same. Prim.cc };

    fn column_dtype() -> ArrowDataType {
        ArrowDataType::Int128
    }

    fn is_column_dtype(dtype: &ArrowDataType) -> bool {
        matches!(dtype, ArrowDataType::Int128)
    }

    fn into_column(values: Buffer<i128>, validity: Option<Bitmap>) -> Column
        requires few { length values ≤ max_rows }
        requires covers { Covers validity (length values) }
        ensures rows { rows result ≡ number_rows (λ x. x) values validity }
        ensures dtype { type_of result ≡ of_int128 }
        ensures buffers { buffers_held result ≡ [] }
        ensures formed { IsWellFormed result }
    {
        Column::Int128(PrimitiveArray { values, validity })
    }

    fn of_column(column: &Column) -> Option<(&[i128], Option<&Bitmap>)> {
        values_of!(Int128, column)
    }

    fn from_column(column: Column) -> Result<(Buffer<i128>, Option<Bitmap>), Column> {
        parts_of!(Int128, column)
    }
}

impl ArrowPrimitive for u8 {
    ghost use Rattle.sel_arrow.specs.Rows.{rows, buffers_held, type_of, IsWellFormed};
    ghost use Rattle.sel_arrow.specs.Shape.{of_uint8};

    ghost shape = { of_uint8 };

    ghost no_null = { λ same. Prim.cc };

    fn column_dtype() -> ArrowDataType {
        ArrowDataType::UInt8
    }

    fn is_column_dtype(dtype: &ArrowDataType) -> bool {
        matches!(dtype, ArrowDataType::UInt8)
    }

    fn into_column(values: Buffer<u8>, validity: Option<Bitmap>) -> Column
        requires few { length values ≤ max_rows }
        requires covers { Covers validity (length values) }
        ensures rows { rows result ≡ number_rows pos values validity }
        ensures dtype { type_of result ≡ of_uint8 }
        ensures buffers { buffers_held result ≡ [] }
        ensures formed { IsWellFormed result }
    {
        Column::UInt8(PrimitiveArray { values, validity })
    }

    fn of_column(column: &Column) -> Option<(&[u8], Option<&Bitmap>)> {
        values_of!(UInt8, column)
    }

    fn from_column(column: Column) -> Result<(Buffer<u8>, Option<Bitmap>), Column> {
        parts_of!(UInt8, column)
    }
}

impl ArrowPrimitive for u16 {
    ghost use Rattle.sel_arrow.specs.Rows.{rows, buffers_held, type_of, IsWellFormed};
    ghost use Rattle.sel_arrow.specs.Shape.{of_uint16};

    ghost shape = { of_uint16 };

    ghost no_null = { λ same. Prim.cc };

    fn column_dtype() -> ArrowDataType {
        ArrowDataType::UInt16
    }

    fn is_column_dtype(dtype: &ArrowDataType) -> bool {
        matches!(dtype, ArrowDataType::UInt16)
    }

    fn into_column(values: Buffer<u16>, validity: Option<Bitmap>) -> Column
        requires few { length values ≤ max_rows }
        requires covers { Covers validity (length values) }
        ensures rows { rows result ≡ number_rows pos values validity }
        ensures dtype { type_of result ≡ of_uint16 }
        ensures buffers { buffers_held result ≡ [] }
        ensures formed { IsWellFormed result }
    {
        Column::UInt16(PrimitiveArray { values, validity })
    }

    fn of_column(column: &Column) -> Option<(&[u16], Option<&Bitmap>)> {
        values_of!(UInt16, column)
    }

    fn from_column(column: Column) -> Result<(Buffer<u16>, Option<Bitmap>), Column> {
        parts_of!(UInt16, column)
    }
}

impl ArrowPrimitive for u32 {
    ghost use Rattle.sel_arrow.specs.Rows.{rows, buffers_held, type_of, IsWellFormed};
    ghost use Rattle.sel_arrow.specs.Shape.{of_uint32};

    ghost shape = { of_uint32 };

    ghost no_null = { λ same. Prim.cc };

    fn column_dtype() -> ArrowDataType {
        ArrowDataType::UInt32
    }

    fn is_column_dtype(dtype: &ArrowDataType) -> bool {
        matches!(dtype, ArrowDataType::UInt32)
    }

    fn into_column(values: Buffer<u32>, validity: Option<Bitmap>) -> Column
        requires few { length values ≤ max_rows }
        requires covers { Covers validity (length values) }
        ensures rows { rows result ≡ number_rows pos values validity }
        ensures dtype { type_of result ≡ of_uint32 }
        ensures buffers { buffers_held result ≡ [] }
        ensures formed { IsWellFormed result }
    {
        Column::UInt32(PrimitiveArray { values, validity })
    }

    fn of_column(column: &Column) -> Option<(&[u32], Option<&Bitmap>)> {
        values_of!(UInt32, column)
    }

    fn from_column(column: Column) -> Result<(Buffer<u32>, Option<Bitmap>), Column> {
        parts_of!(UInt32, column)
    }
}

impl ArrowPrimitive for u64 {
    ghost use Rattle.sel_arrow.specs.Rows.{rows, buffers_held, type_of, IsWellFormed};
    ghost use Rattle.sel_arrow.specs.Shape.{of_uint64};

    ghost shape = { of_uint64 };

    ghost no_null = { λ same. Prim.cc };

    fn column_dtype() -> ArrowDataType {
        ArrowDataType::UInt64
    }

    fn is_column_dtype(dtype: &ArrowDataType) -> bool {
        matches!(dtype, ArrowDataType::UInt64)
    }

    fn into_column(values: Buffer<u64>, validity: Option<Bitmap>) -> Column
        requires few { length values ≤ max_rows }
        requires covers { Covers validity (length values) }
        ensures rows { rows result ≡ number_rows pos values validity }
        ensures dtype { type_of result ≡ of_uint64 }
        ensures buffers { buffers_held result ≡ [] }
        ensures formed { IsWellFormed result }
    {
        Column::UInt64(PrimitiveArray { values, validity })
    }

    fn of_column(column: &Column) -> Option<(&[u64], Option<&Bitmap>)> {
        values_of!(UInt64, column)
    }

    fn from_column(column: Column) -> Result<(Buffer<u64>, Option<Bitmap>), Column> {
        parts_of!(UInt64, column)
    }
}

impl ArrowPrimitive for u128 {
    ghost use Rattle.sel_arrow.specs.Rows.{rows, buffers_held, type_of, IsWellFormed};
    ghost use Rattle.sel_arrow.specs.Shape.{of_uint128};

    ghost shape = { of_uint128 };

    ghost no_null = { λ same. Prim.cc };

    fn column_dtype() -> ArrowDataType {
        ArrowDataType::UInt128
    }

    fn is_column_dtype(dtype: &ArrowDataType) -> bool {
        matches!(dtype, ArrowDataType::UInt128)
    }

    fn into_column(values: Buffer<u128>, validity: Option<Bitmap>) -> Column
        requires few { length values ≤ max_rows }
        requires covers { Covers validity (length values) }
        ensures rows { rows result ≡ number_rows pos values validity }
        ensures dtype { type_of result ≡ of_uint128 }
        ensures buffers { buffers_held result ≡ [] }
        ensures formed { IsWellFormed result }
    {
        Column::UInt128(PrimitiveArray { values, validity })
    }

    fn of_column(column: &Column) -> Option<(&[u128], Option<&Bitmap>)> {
        values_of!(UInt128, column)
    }

    fn from_column(column: Column) -> Result<(Buffer<u128>, Option<Bitmap>), Column> {
        parts_of!(UInt128, column)
    }
}
