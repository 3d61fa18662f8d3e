//! Parsed rows of a column, and the columns built from them.
ghost use Rattle.std.specs.Prelude.{◌≡◌, ◌+◌, ◌≤◌, length, IfOk, IfErr};
ghost use Rattle.sel_bits.specs.Faults.{IsOutOfMemory};
ghost use Rattle.sel_arrow.specs.Columns.{boolean_rows, primitive_rows};
ghost use Rattle.sel_arrow.specs.Value.{Number, Truth};
ghost use Rattle.sel_lines.specs.Lines.{longest_line};

use sel_arrow::boolean::BooleanArray;
use sel_arrow::primitive::PrimitiveArray;
use sel_bits::bitmap::Bitmap;
use sel_bits::buffer::Buffer;
use sel_bits::faults::PolarsResult;
use sel_bits::native::NativeType;
use std::alloc::Global;

/// The values and the validity of parsed rows.
#[derive(Drop)]
pub struct Rows<T> {
    pub values: Vec<T>,
    pub validity: Vec<bool>,
    ghost paired: { length validity.items ≡ length values.items },
    ghost few: { length values.items ≤ longest_line + 1 },
}

impl<T: NativeType> Rows<T> {
    ghost use Rattle.sel_lines.specs.Rows.{parsed_rows};

    /// Returns the primitive column of these rows.
    ///
    /// # Errors
    /// `OutOfMemory` if an allocation fails.
    pub fn into_primitive(self, alloc: Global) -> PolarsResult<PrimitiveArray<T>>
        ensures rows { IfOk result (λ column. primitive_rows column ≡
            parsed_rows (λ x. Number (T.number x)) self) }
        ensures refusal { IfErr result IsOutOfMemory }
    {
        let Rows { values, validity } = self;
        let validity = Bitmap::from_bools(alloc, &validity)?;
        let values = Buffer::from_vec(values)?;
        match PrimitiveArray::try_new(values, Some(validity)) {
            Ok(column) => Ok(column),
            Err(_) => unreachable!(),
        }
    }
}

impl Rows<bool> {
    ghost use Rattle.sel_lines.specs.Rows.{parsed_rows};

    /// Returns the boolean column of these rows.
    ///
    /// # Errors
    /// `OutOfMemory` if an allocation fails.
    pub fn into_boolean(self, alloc: Global) -> PolarsResult<BooleanArray>
        ensures rows { IfOk result (λ column. boolean_rows column ≡ parsed_rows Truth self) }
        ensures refusal { IfErr result IsOutOfMemory }
    {
        let Rows { values, validity } = self;
        let validity = Bitmap::from_bools(alloc, &validity)?;
        let values = Bitmap::from_bools(alloc, &values)?;
        match BooleanArray::try_new(values, Some(validity)) {
            Ok(column) => Ok(column),
            Err(_) => unreachable!(),
        }
    }
}
