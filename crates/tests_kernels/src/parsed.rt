//! Columns parsed from their rows, and results compared with rows.
//!
//! Columns of every type are dropped by a call: an implicit drop is proved type by type.

use sel_arrow::array::Array;
use sel_arrow::array_ref::ArrayRef;
use sel_arrow::fixed_size_list::FixedSizeListArray;
use sel_arrow::list::ListArray;
use sel_arrow::structure::StructArray;
use sel_bits::faults::PolarsResult;
use sel_text::build::NullSlots;
use sel_text::parse::parse_column;
use sel_text::print::print_rows;
use sel_text::read_type::parse_dtype;
use std::alloc::Global;
use std::test::Fail;

/// Returns the column of a type with these rows.
pub fn parsed(alloc: Global, dtype: &str, rows: &str) -> Result<ArrayRef, Fail> {
    let Ok(dtype) = parse_dtype(alloc, dtype) else {
        return Err(Fail::from("not a type"));
    };
    let column = parse_column(alloc, &dtype, rows, NullSlots::Others);
    drop(dtype);
    match column {
        Ok(column) => Ok(column),
        Err(_) => Err(Fail::from("not rows of the type")),
    }
}

/// Returns whether a column prints as these rows, and drops the column.
pub fn prints(alloc: Global, column: ArrayRef, rows: &str) -> Result<bool, Fail> {
    let printed = print_rows(alloc, column.as_column());
    drop(column);
    Ok(printed?.as_str() == rows)
}

/// Returns whether a call returned a column with these rows.
pub fn returns<A: Array>(alloc: Global, made: PolarsResult<A>, rows: &str) -> Result<bool, Fail> {
    prints(alloc, made?.into_ref(), rows)
}

/// Returns the column of a type, or an error if it has another.
pub fn of_type<A>(found: Result<A, ArrayRef>) -> Result<A, Fail> {
    match found {
        Ok(found) => Ok(found),
        Err(back) => {
            drop(back);
            Err(Fail::from("a column of another type"))
        }
    }
}

/// Returns a column of lists.
pub fn lists(alloc: Global, dtype: &str, rows: &str) -> Result<ListArray<i64>, Fail> {
    of_type(parsed(alloc, dtype, rows)?.into_array::<ListArray<i64>>())
}

/// Returns a column of fixed-size lists.
pub fn fixed_lists(alloc: Global, dtype: &str, rows: &str) -> Result<FixedSizeListArray, Fail> {
    of_type(parsed(alloc, dtype, rows)?.into_array::<FixedSizeListArray>())
}

/// Returns a column of structs.
pub fn structs(alloc: Global, dtype: &str, rows: &str) -> Result<StructArray, Fail> {
    of_type(parsed(alloc, dtype, rows)?.into_array::<StructArray>())
}
