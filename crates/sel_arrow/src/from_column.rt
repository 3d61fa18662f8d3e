//! Columns of any type as arrays of one type.

ghost use Rattle.std.specs.Prelude.{◌≡◌, ◌≢◌, false, IfOk, IfErr};
ghost use Rattle.sel_arrow.specs.Rows.{rows as column_rows, type_of, IsWellFormed, buffers_held};
ghost use Rattle.sel_arrow.specs.Shape.{Shape};
ghost use Rattle.sel_arrow.specs.Shape.{of_null, of_boolean, of_large_binary, of_binary_view, of_utf8_view};
ghost use Rattle.sel_arrow.specs.Shape.{is_list_shape, is_block_shape, is_struct_shape};

use crate::array::Array;
use crate::binary::BinaryArray;
use crate::binview::BinaryViewArray;
use crate::boolean::BooleanArray;
use crate::column::Column;
use crate::fixed_size_list::FixedSizeListArray;
use crate::list::ListArray;
use crate::null::NullArray;
use crate::primitive::{ArrowPrimitive, PrimitiveArray};
use crate::structure::StructArray;
use crate::utf8view::Utf8ViewArray;

/// An array type that columns of its type are converted to.
pub trait FromColumn: Array {
    /// A type is another than that of such arrays.
    ghost is_other_type: { Shape → Type 0 };

    /// Returns the column as an array.
    ///
    /// # Requires
    /// The column is well-formed (`Column::is_well_formed`).
    ///
    /// # Errors
    /// Returns the column unchanged if it is of another type.
    fn from_column(column: Column) -> Result<Self, Column>
        requires { IsWellFormed column }
        ensures rows { IfOk result (λ array. Self.rows array ≡ column_rows column) }
        ensures dtype { IfOk result (λ array. Self.shape array ≡ type_of column) }
        ensures buffers { IfOk result (λ array. Self.held array ≡ buffers_held column) }
        ensures back { IfErr result (λ back. back ≡ column) }
        ensures other { IfErr result (λ _. is_other_type (type_of column)) };
}

impl FromColumn for NullArray {
    ghost is_other_type = { λ type. type ≢ of_null };

    fn from_column(column: Column) -> Result<NullArray, Column> {
        match column {
            Column::Null(array) => Ok(array),
            other => Err(other),
        }
    }
}

impl FromColumn for BooleanArray {
    ghost is_other_type = { λ type. type ≢ of_boolean };

    fn from_column(column: Column) -> Result<BooleanArray, Column> {
        match column {
            Column::Boolean(array) => Ok(array),
            other => Err(other),
        }
    }
}

impl<T: ArrowPrimitive> FromColumn for PrimitiveArray<T> {
    ghost is_other_type = { λ type. type ≢ T.shape };

    fn from_column(column: Column) -> Result<PrimitiveArray<T>, Column> {
        match T::from_column(column) {
            Ok((values, validity)) => Ok(PrimitiveArray { values, validity }),
            Err(other) => Err(other),
        }
    }
}

impl FromColumn for BinaryArray<i64> {
    ghost is_other_type = { λ type. type ≢ of_large_binary };

    fn from_column(column: Column) -> Result<BinaryArray<i64>, Column> {
        match column {
            Column::LargeBinary(array) => Ok(array),
            other => Err(other),
        }
    }
}

impl FromColumn for BinaryViewArray {
    ghost is_other_type = { λ type. type ≢ of_binary_view };

    fn from_column(column: Column) -> Result<BinaryViewArray, Column> {
        match column {
            Column::BinaryView(array) => Ok(array),
            other => Err(other),
        }
    }
}

impl FromColumn for Utf8ViewArray {
    ghost is_other_type = { λ type. type ≢ of_utf8_view };

    fn from_column(column: Column) -> Result<Utf8ViewArray, Column> {
        match column {
            Column::Utf8View(array) => Ok(array),
            other => Err(other),
        }
    }
}

impl FromColumn for ListArray<i64> {
    ghost is_other_type = { λ type. is_list_shape type ≡ false };

    fn from_column(column: Column) -> Result<ListArray<i64>, Column> {
        match column {
            Column::LargeList {
                offsets,
                values,
                validity,
            } => {
                let lists = ListArray {
                    offsets,
                    values,
                    validity,
                };
                Ok(lists)
            }
            other => Err(other),
        }
    }
}

impl FromColumn for FixedSizeListArray {
    ghost is_other_type = { λ type. is_block_shape type ≡ false };

    fn from_column(column: Column) -> Result<FixedSizeListArray, Column> {
        match column {
            Column::FixedSizeList {
                size,
                len,
                values,
                validity,
            } => {
                let blocks = FixedSizeListArray {
                    size,
                    len,
                    values,
                    validity,
                };
                Ok(blocks)
            }
            other => Err(other),
        }
    }
}

impl FromColumn for StructArray {
    ghost is_other_type = { λ type. is_struct_shape type ≡ false };

    fn from_column(column: Column) -> Result<StructArray, Column> {
        match column {
            Column::Struct {
                len,
                fields,
                validity,
            } => {
                let tuples = StructArray {
                    len,
                    fields,
                    validity,
                };
                Ok(tuples)
            }
            other => Err(other),
        }
    }
}
