//! References to single rows of a column of any type.

ghost use Rattle.std.specs.Prelude.{◌≡◌, ◌<◌, ◌≤◌, ◌↔◌, ℕ, List, length, slice_index_or, IsTrue, true, false};
ghost use Rattle.std.specs.List.{slice_range};
ghost use Rattle.std.specs.Option.{option_copied};
ghost use Rattle.sel_arrow.specs.Columns.{binview_rows, utf8view_rows};
ghost use Rattle.sel_arrow.specs.Masked.{bytes_value, number_value, bool_value};
ghost use Rattle.sel_arrow.specs.Rows.{rows, type_of, IsWellFormed};
ghost use Rattle.sel_arrow.specs.Shape.{Shape};
ghost use Rattle.sel_arrow.specs.Value.{Null};
ghost use Rattle.sel_arrow.specs.declared.column.Column.{Column};
ghost use Rattle.sel_text.specs.Texts.{is_text_shape};
ghost use Rattle.sel_text.specs.Cells.{cell_value, whole_number, CellFits, CellKind, HasCellRow, IsBelow};

use sel_arrow::binview::BinaryViewArray;
use sel_arrow::column::Column;
use sel_arrow::match_numbers;
use sel_arrow::utf8view::Utf8ViewArray;
use sel_arrow::validity::is_valid_at;
use sel_arrow::view::View;
use sel_bits::buffer::Buffer;
use sel_bits::native::NativeType;

/// An integer value of any of the ten integer types.
#[derive(Clone, Copy)]
pub(crate) enum Whole {
    Signed(i128),
    Unsigned(u128),
}

/// A reference to the value of a row: for a list the child and a range of its rows, for a struct
/// the fields and a row index.
#[derive(Clone, Copy)]
pub(crate) enum Cell<'a> {
    Null,
    Truth(bool),
    Whole(Whole),
    Bytes(&'a [u8]),
    View(&'a [Buffer<u8>], View),
    Text(&'a [Buffer<u8>], View),
    Items(&'a Column, usize, usize),
    Parts(&'a [Column], usize),
}

/// An integer type that converts to `Whole`.
pub(crate) trait ToWhole: NativeType {
    fn to_whole(self) -> Whole
        ensures { whole_number result ≡ Self.number self };
}

impl ToWhole for i8 {
    fn to_whole(self) -> Whole {
        Whole::Signed(i128::from(self))
    }
}

impl ToWhole for i16 {
    fn to_whole(self) -> Whole {
        Whole::Signed(i128::from(self))
    }
}

impl ToWhole for i32 {
    fn to_whole(self) -> Whole {
        Whole::Signed(i128::from(self))
    }
}

impl ToWhole for i64 {
    fn to_whole(self) -> Whole {
        Whole::Signed(i128::from(self))
    }
}

impl ToWhole for i128 {
    fn to_whole(self) -> Whole {
        Whole::Signed(self)
    }
}

impl ToWhole for u8 {
    fn to_whole(self) -> Whole {
        Whole::Unsigned(u128::from(self))
    }
}

impl ToWhole for u16 {
    fn to_whole(self) -> Whole {
        Whole::Unsigned(u128::from(self))
    }
}

impl ToWhole for u32 {
    fn to_whole(self) -> Whole {
        Whole::Unsigned(u128::from(self))
    }
}

impl ToWhole for u64 {
    fn to_whole(self) -> Whole {
        Whole::Unsigned(u128::from(self))
    }
}

impl ToWhole for u128 {
    fn to_whole(self) -> Whole {
        Whole::Unsigned(self)
    }
}

/// Returns row `i` of a column.
pub(crate) fn cell_at(column: &Column, i: usize) -> Cell<'_>
    requires { HasCellRow i column.now }
    ensures value { cell_value result ≡ slice_index_or (rows column.now) i Null }
    ensures fits { CellFits result }
    ensures kind { CellKind (type_of column.now) result }
    ensures below { IsBelow column.now result }
{
    match_numbers! { column, array => of_number(array.get(i)),
        Column::Null(_) => Cell::Null,
        Column::Boolean(array) => of_boolean_value(array.get(i)),
        Column::LargeBinary(array) => of_bytes(array.get(i)),
        Column::BinaryView(array) => of_view(array, i),
        Column::Utf8View(array) => of_text(array, i),
        Column::LargeList {
            offsets,
            values,
            validity,
        } => {
            if is_valid_at(validity, i) {
                Cell::Items(values, offsets.at(i), offsets.at(i + 1))
            } else {
                Cell::Null
            }
        }
        Column::FixedSizeList {
            size,
            values,
            validity,
            ..
        } => {
            if is_valid_at(validity, i) {
                Cell::Items(values, i * *size, i * *size + *size)
            } else {
                Cell::Null
            }
        }
        Column::Struct {
            fields,
            validity,
            ..
        } => {
            if is_valid_at(validity, i) {
                Cell::Parts(fields, i)
            } else {
                Cell::Null
            }
        }
    }
}

fn of_boolean_value(row: Option<bool>) -> Cell<'static>
    ensures value { cell_value result ≡ bool_value row }
    ensures below { (column : Column) → IsBelow column result }
    ensures fits { CellFits result }
    ensures kind { (shape : Shape) → is_text_shape shape ≡ false → CellKind shape result }
{
    match row {
        None => Cell::Null,
        Some(truth) => Cell::Truth(truth),
    }
}

fn of_number<T: ToWhole>(row: Option<T>) -> Cell<'static>
    ensures value { cell_value result ≡ number_value T.number row }
    ensures below { (column : Column) → IsBelow column result }
    ensures fits { CellFits result }
    ensures kind { (shape : Shape) → is_text_shape shape ≡ false → CellKind shape result }
{
    match row {
        None => Cell::Null,
        Some(number) => Cell::Whole(number.to_whole()),
    }
}

fn of_bytes(row: Option<&[u8]>) -> Cell<'_>
    ensures value { cell_value result ≡ bytes_value (option_copied row.entry) }
    ensures below { (column : Column) → IsBelow column result }
    ensures fits { CellFits result }
    ensures kind { (shape : Shape) → is_text_shape shape ≡ false → CellKind shape result }
{
    match row {
        None => Cell::Null,
        Some(bytes) => Cell::Bytes(bytes),
    }
}

fn of_view(array: &BinaryViewArray, i: usize) -> Cell<'_>
    requires { i < length (binview_rows array.now) }
    ensures value { cell_value result ≡ slice_index_or (binview_rows array.now) i Null }
    ensures below { (column : Column) → IsBelow column result }
    ensures fits { CellFits result }
    ensures kind { (shape : Shape) → is_text_shape shape ≡ false → CellKind shape result }
{
    if is_valid_at(&array.validity, i) {
        Cell::View(array.buffers.as_slice(), array.views.as_slice()[i])
    } else {
        Cell::Null
    }
}

fn of_text(array: &Utf8ViewArray, i: usize) -> Cell<'_>
    requires { i < length (utf8view_rows array.now) }
    ensures value { cell_value result ≡ slice_index_or (utf8view_rows array.now) i Null }
    ensures below { (column : Column) → IsBelow column result }
    ensures fits { CellFits result }
    ensures kind { (shape : Shape) → is_text_shape shape ≡ true → CellKind shape result }
{
    let views = &array.bytes;
    if is_valid_at(&views.validity, i) {
        Cell::Text(views.buffers.as_slice(), views.views.as_slice()[i])
    } else {
        Cell::Null
    }
}
