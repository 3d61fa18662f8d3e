//! Printing of data types.

ghost use Rattle.std.specs.Prelude.{◌≡◌, ◌++◌, ◌∷◌, [], map, string_bytes, IfOk, IfErr, OnOk};
ghost use Rattle.sel_bits.specs.Faults.{IsOutOfMemory};
ghost use Rattle.sel_arrow.specs.DataType.{shape_of};
ghost use Rattle.sel_text.specs.Types.{angled, type_text};

use sel_arrow::datatype::ArrowDataType;
use sel_bits::faults::PolarsResult;
use std::alloc::{AllocError, Global};

/// Returns the notation of a data type, as in `struct<list<i8>,fixed<2,utf8>>`, without spaces.
///
/// # Errors
/// `OutOfMemory` if an allocation fails.
pub fn print_dtype(alloc: Global, dtype: &ArrowDataType) -> PolarsResult<String>
    ensures text { IfOk result (λ text. string_bytes text ≡ type_text (shape_of dtype.now)) }
    ensures refusal { IfErr result IsOutOfMemory }
{
    let mut text = String::new(alloc);
    push_dtype(dtype, &mut text)?;
    Ok(text)
}

/// Appends the notation of a data type to `text`.
#[cycle(naming)]
fn push_dtype(dtype: &ArrowDataType, text: &mut String) -> Result<(), AllocError>
    ensures { OnOk result (string_bytes text.new ≡
        string_bytes text.old ++ type_text (shape_of dtype.now)) }
{
    match dtype {
        ArrowDataType::Null => text.push_str("null"),
        ArrowDataType::Boolean => text.push_str("bool"),
        ArrowDataType::Int8 => text.push_str("i8"),
        ArrowDataType::Int16 => text.push_str("i16"),
        ArrowDataType::Int32 => text.push_str("i32"),
        ArrowDataType::Int64 => text.push_str("i64"),
        ArrowDataType::Int128 => text.push_str("i128"),
        ArrowDataType::UInt8 => text.push_str("u8"),
        ArrowDataType::UInt16 => text.push_str("u16"),
        ArrowDataType::UInt32 => text.push_str("u32"),
        ArrowDataType::UInt64 => text.push_str("u64"),
        ArrowDataType::UInt128 => text.push_str("u128"),
        ArrowDataType::LargeBinary => text.push_str("binary"),
        ArrowDataType::BinaryView => text.push_str("binview"),
        ArrowDataType::Utf8View => text.push_str("utf8"),
        ArrowDataType::LargeList(child) => {
            text.push_str("list<")?;
            push_child(child, text)
        }
        ArrowDataType::FixedSizeList(child, size) => {
            write!(text, "fixed<{},", *size)?;
            push_child(child, text)
        }
        ArrowDataType::Struct(fields) => {
            text.push_str("struct")?;
            push_dtypes(fields, text)
        }
    }
}

/// Appends the notation of the child of a list type and the closing bracket to `text`.
#[cycle(naming)]
fn push_child(dtype: &ArrowDataType, text: &mut String) -> Result<(), AllocError>
    ensures { OnOk result (string_bytes text.new ≡
        string_bytes text.old ++ type_text (shape_of dtype.now) ++ 62 ∷ []) }
{
    push_dtype(dtype, text)?;
    text.push('>')?;
    Ok(())
}

/// Appends the notations of data types between angle brackets to `text`.
#[cycle(naming)]
fn push_dtypes(dtypes: &[ArrowDataType], text: &mut String) -> Result<(), AllocError>
    ensures { OnOk result (string_bytes text.new ≡ string_bytes text.old ++
        angled (map (λ dtype. type_text (shape_of dtype)) dtypes.now)) }
{
    text.push('<')?;
    for (k, dtype) in dtypes.iter().enumerate() {
        if k > 0 {
            text.push(',')?;
        }
        push_dtype(dtype, text)?;
    }
    text.push('>')?;
    Ok(())
}
