//! The types of columns, as numbers.

ghost use Rattle.std.specs.Prelude.{◌≡◌};
ghost use Rattle.sel_arrow.specs.Rows.{type_of};
ghost use Rattle.sel_ffi.specs.Kinds.{kind_number};

use sel_arrow::column::Column;

/// Nulls only.
pub const NULL: u32 = 0;

/// Booleans.
pub const BOOLEAN: u32 = 1;

/// 8-bit signed integers.
pub const INT8: u32 = 2;

/// 16-bit signed integers.
pub const INT16: u32 = 3;

/// 32-bit signed integers.
pub const INT32: u32 = 4;

/// 64-bit signed integers.
pub const INT64: u32 = 5;

/// 128-bit signed integers.
pub const INT128: u32 = 6;

/// 8-bit unsigned integers.
pub const UINT8: u32 = 7;

/// 16-bit unsigned integers.
pub const UINT16: u32 = 8;

/// 32-bit unsigned integers.
pub const UINT32: u32 = 9;

/// 64-bit unsigned integers.
pub const UINT64: u32 = 10;

/// 128-bit unsigned integers.
pub const UINT128: u32 = 11;

/// Binary with 64-bit offsets.
pub const BINARY: u32 = 12;

/// Binary views.
pub const BINARY_VIEW: u32 = 13;

/// UTF-8 string views.
pub const STRING_VIEW: u32 = 14;

/// Lists with 64-bit offsets.
pub const LIST: u32 = 15;

/// Fixed-size lists.
pub const FIXED_SIZE_LIST: u32 = 16;

/// Structs.
pub const STRUCT: u32 = 17;

/// The handle has no column.
pub const NONE: u32 = 18;

/// Returns the number of the column's type.
pub fn kind_of(column: &Column) -> u32
    ensures { result ≡ kind_number (type_of column.now) }
{
    match column {
        Column::Null(_) => NULL,
        Column::Boolean(_) => BOOLEAN,
        Column::Int8(_) => INT8,
        Column::Int16(_) => INT16,
        Column::Int32(_) => INT32,
        Column::Int64(_) => INT64,
        Column::Int128(_) => INT128,
        Column::UInt8(_) => UINT8,
        Column::UInt16(_) => UINT16,
        Column::UInt32(_) => UINT32,
        Column::UInt64(_) => UINT64,
        Column::UInt128(_) => UINT128,
        Column::LargeBinary(_) => BINARY,
        Column::BinaryView(_) => BINARY_VIEW,
        Column::Utf8View(_) => STRING_VIEW,
        Column::LargeList { .. } => LIST,
        Column::FixedSizeList { .. } => FIXED_SIZE_LIST,
        Column::Struct { .. } => STRUCT,
    }
}
