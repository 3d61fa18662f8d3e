//! Columns as arrays of their physical layout.

ghost use Rattle.std.specs.Prelude.{◌≡◌, All, length, map, IfOk, IfErr, IsTrue};
ghost use Rattle.sel_bits.specs.Faults.{IsOutOfMemory};
ghost use Rattle.sel_arrow.specs.Columns.{binary_rows, binview_rows};
ghost use Rattle.sel_arrow.specs.Rows.{rows, type_of};
ghost use Rattle.sel_arrow.specs.Shape.{of_large_binary, of_binary_view, of_utf8_view};
ghost use Rattle.sel_arrow.specs.Texts.{all_text};
ghost use Rattle.sel_gather.specs.Need.{buffer_count};
ghost use Rattle.sel_gather.specs.Sources.{rows_of};

use sel_arrow::binary::BinaryArray;
use sel_arrow::binview::BinaryViewArray;
use sel_arrow::column::Column;
use sel_bits::faults::PolarsResult;
use sel_runs::each::read_each;
use std::alloc::Global;

/// Returns the binary array of each column.
///
/// # Requires
/// All sources are binary columns.
///
/// # Errors
/// `OutOfMemory` if an allocation fails.
pub fn binaries_of<'a>(
    alloc: Global,
    sources: &'a [&'a Column],
) -> PolarsResult<Vec<&'a BinaryArray<i64>>>
    requires { All (λ c. type_of c.now ≡ of_large_binary) sources.now }
    ensures rows { IfOk result (λ found. map (λ s. binary_rows s.now) found.items ≡
        rows_of sources.now) }
    ensures refusal { IfErr result IsOutOfMemory }
{
    read_each(alloc, sources, binary_of)
}

/// Returns the array of a binary column.
pub(crate) fn binary_of<'a>(column: &'a Column) -> &'a BinaryArray<i64>
    requires { type_of column.now ≡ of_large_binary }
    ensures { binary_rows result.now ≡ rows column.now }
{
    let Column::LargeBinary(array) = column else {
        unreachable!()
    };
    array
}

/// Returns the view array of each column.
///
/// # Requires
/// All sources are binary view columns.
///
/// # Errors
/// `OutOfMemory` if an allocation fails.
pub fn views_of<'a>(
    alloc: Global,
    sources: &'a [&'a Column],
) -> PolarsResult<Vec<&'a BinaryViewArray>>
    requires { All (λ c. type_of c.now ≡ of_binary_view) sources.now }
    ensures rows { IfOk result (λ found. map (λ s. binview_rows s.now) found.items ≡
        rows_of sources.now) }
    ensures buffers { IfOk result (λ found. map (λ s. length s.now.buffers) found.items ≡
        map (λ c. buffer_count c.now) sources.now) }
    ensures refusal { IfErr result IsOutOfMemory }
{
    read_each(alloc, sources, view_of)
}

// Returns the array of a binary view column.
fn view_of<'a>(column: &'a Column) -> &'a BinaryViewArray
    requires { type_of column.now ≡ of_binary_view }
    ensures rows { binview_rows result.now ≡ rows column.now }
    ensures buffers { length result.now.buffers ≡ buffer_count column.now }
{
    let Column::BinaryView(array) = column else {
        unreachable!()
    };
    array
}

/// Returns the view array of each string view column.
///
/// # Requires
/// All sources are string view columns.
///
/// # Errors
/// `OutOfMemory` if an allocation fails.
pub fn texts_of<'a>(
    alloc: Global,
    sources: &'a [&'a Column],
) -> PolarsResult<Vec<&'a BinaryViewArray>>
    requires { All (λ c. type_of c.now ≡ of_utf8_view) sources.now }
    ensures rows { IfOk result (λ found. map (λ s. binview_rows s.now) found.items ≡
        rows_of sources.now) }
    ensures texts { IfOk result (λ found. All
        (λ s. IsTrue (all_text (binview_rows s.now))) found.items) }
    ensures buffers { IfOk result (λ found. map (λ s. length s.now.buffers) found.items ≡
        map (λ c. buffer_count c.now) sources.now) }
    ensures refusal { IfErr result IsOutOfMemory }
{
    read_each(alloc, sources, text_of)
}

// Returns the array of a string view column.
fn text_of<'a>(column: &'a Column) -> &'a BinaryViewArray
    requires { type_of column.now ≡ of_utf8_view }
    ensures rows { binview_rows result.now ≡ rows column.now }
    ensures texts { IsTrue (all_text (binview_rows result.now)) }
    ensures buffers { length result.now.buffers ≡ buffer_count column.now }
{
    let Column::Utf8View(array) = column else {
        unreachable!()
    };
    &array.bytes
}
