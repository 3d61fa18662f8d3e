//! Columns without rows.

ghost use Rattle.std.specs.Prelude.{◌≡◌, ◌≤◌, [], ◌∷◌, map, IfOk, IfErr, IsTrue};
ghost use Rattle.std.specs.List.{All, list_all};
ghost use Rattle.sel_bits.specs.Faults.{IsOutOfMemory};
ghost use Rattle.sel_bits.specs.Limits.{max_rows};
ghost use Rattle.sel_arrow.specs.Columns.{binview_rows};
ghost use Rattle.sel_arrow.specs.DataType.{shape_of, widths_fit};
ghost use Rattle.sel_arrow.specs.Empty.{MakesEmpty};
ghost use Rattle.sel_arrow.specs.Rows.{rows, type_of, IsField, IsWellFormed};
ghost use Rattle.sel_arrow.specs.Shape.{of_boolean, of_large_binary, of_binary_view, of_utf8_view, of_large_list, of_fixed_size_list, of_struct, shapes_of};

use crate::array_ref::ArrayRef;
use crate::binary::BinaryArray;
use crate::binview::BinaryViewArray;
use crate::boolean::BooleanArray;
use crate::column::Column;
use crate::datatype::ArrowDataType;
use crate::null::NullArray;
use crate::primitive::ArrowPrimitive;
use crate::utf8view::Utf8ViewArray;
use sel_bits::bitmap::Bitmap;
use sel_bits::buffer::Buffer;
use sel_bits::faults::PolarsResult;
use sel_bits::offsets::OffsetsBuffer;
use std::alloc::Global;

/// Returns a column of type `dtype` without rows.
///
/// # Requires
/// Every list size in `dtype` is at most 4,294,967,295; check with `ArrowDataType::widths_fit`.
///
/// # Errors
/// `OutOfMemory` if an allocation fails.
pub fn new_empty_array(alloc: Global, dtype: &ArrowDataType) -> PolarsResult<ArrayRef>
    requires { IsTrue (widths_fit dtype.now) }
    ensures rows { IfOk result (λ array. rows array.column ≡ []) }
    ensures dtype { IfOk result (λ array. type_of array.column ≡ shape_of dtype.now) }
    ensures refusal { IfErr result IsOutOfMemory }
{
    let column = empty_column(alloc, dtype)?;
    Ok(ArrayRef { column })
}

/// Returns a column of type `dtype` without rows, as a `Column`. Fails only with `OutOfMemory`.
#[cycle(empty_column)]
fn empty_column(alloc: Global, dtype: &ArrowDataType) -> PolarsResult<Column>
    requires { IsTrue (widths_fit dtype.now) }
    ensures { MakesEmpty result (shape_of dtype.now) }
{
    match dtype {
        ArrowDataType::Null => Ok(Column::Null(NullArray { length: 0 })),
        ArrowDataType::Boolean => empty_booleans(alloc),
        ArrowDataType::Int8 => empty_numbers::<i8>(alloc),
        ArrowDataType::Int16 => empty_numbers::<i16>(alloc),
        ArrowDataType::Int32 => empty_numbers::<i32>(alloc),
        ArrowDataType::Int64 => empty_numbers::<i64>(alloc),
        ArrowDataType::Int128 => empty_numbers::<i128>(alloc),
        ArrowDataType::UInt8 => empty_numbers::<u8>(alloc),
        ArrowDataType::UInt16 => empty_numbers::<u16>(alloc),
        ArrowDataType::UInt32 => empty_numbers::<u32>(alloc),
        ArrowDataType::UInt64 => empty_numbers::<u64>(alloc),
        ArrowDataType::UInt128 => empty_numbers::<u128>(alloc),
        ArrowDataType::LargeBinary => empty_bytes(alloc),
        ArrowDataType::BinaryView => empty_binary_views(alloc),
        ArrowDataType::Utf8View => empty_texts(alloc),
        ArrowDataType::LargeList(child) => {
            let offsets = first_offset(alloc)?;
            no_lists(alloc, offsets, empty_column(alloc, child)?)
        }
        ArrowDataType::FixedSizeList(child, size) => {
            no_blocks(alloc, *size, empty_column(alloc, child)?)
        }
        ArrowDataType::Struct(dtypes) => Ok(no_struct_rows(empty_columns(alloc, dtypes)?)),
    }
}

/// Returns one column without rows for each type. Fails only with `OutOfMemory`.
#[cycle(empty_column)]
#[tactic(auto, using(crate::proofs::Lists::all_at))]
fn empty_columns(alloc: Global, dtypes: &[ArrowDataType]) -> PolarsResult<Vec<Column>>
    requires { IsTrue (list_all widths_fit dtypes.now) }
    ensures dtypes { IfOk result (λ columns. map type_of columns.items ≡
        map shape_of dtypes.now) }
    ensures fields { IfOk result (λ columns. All (IsField 0) columns.items) }
    ensures refusal { IfErr result IsOutOfMemory }
{
    let mut columns = Vec::with_capacity(alloc, dtypes.len())?;
    for dtype in dtypes {
        columns.push(empty_column(alloc, dtype)?)?;
    }
    Ok(columns)
}

/// Returns a list column without rows over `child`. Fails only with `OutOfMemory`.
fn no_lists(alloc: Global, offsets: OffsetsBuffer<i64>, child: Column) -> PolarsResult<Column>
    requires alone { offsets ≡ 0 ∷ [] }
    requires formed { IsWellFormed child }
    ensures { MakesEmpty result (of_large_list (type_of child)) }
{
    let values = Box::new(alloc, child)?;
    Ok(Column::LargeList {
        offsets,
        values,
        validity: None,
    })
}

/// Returns a fixed-size list column without rows, of list size `size`, over an empty child. Fails
/// only with `OutOfMemory`.
#[tactic(auto, using(crate::proofs::NoRows::blocks_of_none))]
fn no_blocks(alloc: Global, size: usize, child: Column) -> PolarsResult<Column>
    requires narrow { size ≤ max_rows }
    requires formed { IsWellFormed child }
    requires empty { rows child ≡ [] }
    ensures { MakesEmpty result (of_fixed_size_list (type_of child) size) }
{
    let values = Box::new(alloc, child)?;
    Ok(Column::FixedSizeList {
        size,
        len: 0,
        values,
        validity: None,
    })
}

/// Returns a struct column without rows over empty fields.
#[tactic(auto, using(crate::proofs::NoRows::no_tuples))]
fn no_struct_rows(fields: Vec<Column>) -> Column
    requires { All (IsField 0) fields.items }
    ensures rows { rows result ≡ [] }
    ensures dtype { type_of result ≡ of_struct (shapes_of (map type_of fields.items)) }
    ensures formed { IsWellFormed result }
{
    Column::Struct {
        len: 0,
        fields,
        validity: None,
    }
}

/// Returns a primitive column without rows. Fails only with `OutOfMemory`.
fn empty_numbers<T: ArrowPrimitive>(alloc: Global) -> PolarsResult<Column>
    ensures { MakesEmpty result T.shape }
{
    let values = Buffer::from_vec(Vec::new(alloc))?;
    Ok(T::into_column(values, None))
}

/// Returns a boolean column without rows. Fails only with `OutOfMemory`.
fn empty_booleans(alloc: Global) -> PolarsResult<Column>
    ensures { MakesEmpty result of_boolean }
{
    let values = Bitmap::new(alloc)?;
    Ok(Column::Boolean(BooleanArray {
        values,
        validity: None,
    }))
}

/// Returns the offsets of a column without rows: the single offset 0. Fails only with
/// `OutOfMemory`.
#[tactic(auto, using(crate::proofs::NoRows::no_bytes))]
fn first_offset(alloc: Global) -> PolarsResult<OffsetsBuffer<i64>>
    ensures offsets { IfOk result (λ offsets. offsets ≡ 0 ∷ []) }
    ensures refusal { IfErr result IsOutOfMemory }
{
    Ok(OffsetsBuffer::of_rising(vec![in alloc; 0]?)?)
}

/// Returns a binary column without rows. Fails only with `OutOfMemory`.
#[tactic(auto, using(crate::proofs::NoRows::no_bytes))]
fn empty_bytes(alloc: Global) -> PolarsResult<Column>
    ensures { MakesEmpty result of_large_binary }
{
    let offsets = first_offset(alloc)?;
    let values = Buffer::from_vec(Vec::new(alloc))?;
    Ok(Column::LargeBinary(BinaryArray {
        offsets,
        values,
        validity: None,
    }))
}

/// Returns a binary view array without rows. Fails only with `OutOfMemory`.
fn empty_views(alloc: Global) -> PolarsResult<BinaryViewArray>
    ensures rows { IfOk result (λ column. binview_rows column ≡ []) }
    ensures refusal { IfErr result IsOutOfMemory }
{
    let views = Buffer::from_vec(Vec::new(alloc))?;
    let buffers = Buffer::from_vec(Vec::new(alloc))?;
    Ok(BinaryViewArray {
        views,
        buffers,
        validity: None,
    })
}

/// Returns a binary view column without rows. Fails only with `OutOfMemory`.
fn empty_binary_views(alloc: Global) -> PolarsResult<Column>
    ensures { MakesEmpty result of_binary_view }
{
    Ok(Column::BinaryView(empty_views(alloc)?))
}

/// Returns a string view column without rows. Fails only with `OutOfMemory`.
fn empty_texts(alloc: Global) -> PolarsResult<Column>
    ensures { MakesEmpty result of_utf8_view }
{
    let bytes = empty_views(alloc)?;
    Ok(Column::Utf8View(Utf8ViewArray { bytes }))
}
