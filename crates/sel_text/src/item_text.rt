//! The text of parsed rows, to tell a size limit from a value that does not fit its type.

ghost use Rattle.std.specs.Prelude.{◌≡◌, ◌++◌, false, true, IfOk, IfErr, IsTrue, map, string_bytes};
ghost use Rattle.std.specs.List.{list_all};
ghost use Rattle.std.specs.Str.{is_utf8};
ghost use Rattle.sel_arrow.specs.DataType.{shape_of};
ghost use Rattle.sel_arrow.specs.Shape.{shapes_of};
ghost use Rattle.sel_arrow.specs.Value.{Bytes, Number, Truth, values_of};
ghost use Rattle.sel_text.specs.Cells.{whole_number};
ghost use Rattle.sel_text.specs.Fits.{are_bytes, fields_fit, fits, fits_number};
ghost use Rattle.sel_text.specs.ItemValues.{item_value};
ghost use Rattle.sel_text.specs.Texts.{hex_text, parenthesized, part_texts, quoted, text_of, value_text};

use crate::cell::Whole;
use crate::fit::law_bytes_fit;
use crate::item::Item;
use crate::print::{push_hex, push_quoted};
use crate::whole::FromWhole;
use sel_arrow::datatype::ArrowDataType;
use std::alloc::{AllocError, Global};
use std::fmt::Write;
use std::str;

/// Returns whether rows fit the type, and `bytes` is their text.
pub(crate) fn have_text(
    dtype: &ArrowDataType,
    alloc: Global,
    bytes: &[u8],
    items: &[Item],
) -> Result<bool, AllocError>
    ensures fit { IfOk result (λ same.
        IsTrue same → IsTrue (list_all (fits (shape_of dtype.now)) (map item_value items.now))) }
    ensures text { IfOk result (λ same.
        IsTrue same → bytes.now ≡ text_of (shape_of dtype.now) (map item_value items.now)) }
    ensures whole { IsTrue (list_all (fits (shape_of dtype.now)) (map item_value items.now)) →
        bytes.now ≡ text_of (shape_of dtype.now) (map item_value items.now) →
        IfOk result (λ same. IsTrue same) }
{
    let mut text = String::new(alloc);
    let fit = push_list(dtype, items, &mut text)?;
    Ok(fit && text.as_bytes() == bytes)
}

/// Appends the notation of a row to `text`; `false` if it does not fit the type.
#[cycle(writing_items)]
fn push_item(dtype: &ArrowDataType, item: &Item, text: &mut String) -> Result<bool, AllocError>
    ensures fit { IfOk result (λ fit. fit ≡ fits (shape_of dtype.now) (item_value item.now)) }
    ensures text { IfOk result (λ fit. IsTrue fit → string_bytes text.new ≡
        string_bytes text.old ++ value_text (shape_of dtype.now) (item_value item.now)) }
{
    match item {
        Item::Null => {
            text.push_str("null")?;
            Ok(true)
        }
        Item::Truth(truth) => push_truth(dtype, *truth, text),
        Item::Number(whole) => push_number(dtype, *whole, text),
        Item::Bytes(bytes) => push_bytes(dtype, bytes, text),
        Item::Items(items) => match dtype {
            ArrowDataType::LargeList(child) => push_list(child, items, text),
            ArrowDataType::FixedSizeList(child, size) => {
                if items.len() != *size {
                    return Ok(false);
                }
                push_list(child, items, text)
            }
            _ => Ok(false),
        },
        Item::Parts(parts) => match dtype {
            ArrowDataType::Struct(dtypes) => push_fields(dtypes, parts, text),
            ArrowDataType::LargeList(_) | ArrowDataType::FixedSizeList(_, _) => Ok(false),
            ArrowDataType::Null | ArrowDataType::Boolean => Ok(false),
            ArrowDataType::Int8 | ArrowDataType::Int16 | ArrowDataType::Int32 => Ok(false),
            ArrowDataType::Int64 | ArrowDataType::Int128 | ArrowDataType::UInt8 => Ok(false),
            ArrowDataType::UInt16 | ArrowDataType::UInt32 | ArrowDataType::UInt64 => Ok(false),
            ArrowDataType::UInt128 | ArrowDataType::LargeBinary => Ok(false),
            ArrowDataType::BinaryView | ArrowDataType::Utf8View => Ok(false),
        },
    }
}

/// Appends the notation of the rows of a list to `text`; `false` if one does not fit the type.
#[cycle(writing_items)]
fn push_list(dtype: &ArrowDataType, items: &[Item], text: &mut String) -> Result<bool, AllocError>
    ensures fit { IfOk result (λ fit. fit ≡
        list_all (fits (shape_of dtype.now)) (map item_value items.now)) }
    ensures text { IfOk result (λ fit. IsTrue fit → string_bytes text.new ≡
        string_bytes text.old ++ text_of (shape_of dtype.now) (map item_value items.now)) }
{
    text.push('[')?;
    for (k, item) in items.iter().enumerate() {
        if k > 0 {
            text.push(',')?;
        }
        let fit = push_item(dtype, item, text)?;
        if !fit {
            return Ok(false);
        }
    }
    text.push(']')?;
    Ok(true)
}

/// Appends the notation of a struct value to `text`; `false` if it does not fit the field types.
#[cycle(writing_items)]
fn push_fields(
    dtypes: &[ArrowDataType],
    parts: &[Item],
    text: &mut String,
) -> Result<bool, AllocError>
    ensures fit { IfOk result (λ fit. fit ≡ fields_fit (shapes_of (map shape_of dtypes.now))
        (values_of (map item_value parts.now))) }
    ensures text { IfOk result (λ fit. IsTrue fit → string_bytes text.new ≡
        string_bytes text.old ++ parenthesized (part_texts (shapes_of (map shape_of dtypes.now))
        (values_of (map item_value parts.now)))) }
{
    if dtypes.len() != parts.len() {
        return Ok(false);
    }
    text.push('(')?;
    for (k, part) in parts.iter().enumerate() {
        if k > 0 {
            text.push(',')?;
        }
        let fit = push_item(&dtypes[k], part, text)?;
        if !fit {
            return Ok(false);
        }
    }
    text.push(')')?;
    Ok(true)
}

/// Appends a boolean to `text`; `false` if the type has none.
fn push_truth(dtype: &ArrowDataType, truth: bool, text: &mut String) -> Result<bool, AllocError>
    ensures fit { IfOk result (λ fit. fit ≡ fits (shape_of dtype.now) (Truth truth)) }
    ensures text { IfOk result (λ fit. IsTrue fit → string_bytes text.new ≡
        string_bytes text.old ++ value_text (shape_of dtype.now) (Truth truth)) }
{
    let ArrowDataType::Boolean = dtype else {
        return Ok(false);
    };
    text.push_str(if truth { "true" } else { "false" })?;
    Ok(true)
}

/// Appends an integer to `text`; `false` if it does not fit the type.
fn push_number(dtype: &ArrowDataType, whole: Whole, text: &mut String) -> Result<bool, AllocError>
    ensures fit { IfOk result (λ fit. fit ≡
        fits (shape_of dtype.now) (Number (whole_number whole))) }
    ensures text { IfOk result (λ fit. IsTrue fit → string_bytes text.new ≡
        string_bytes text.old ++ value_text (shape_of dtype.now) (Number (whole_number whole))) }
{
    if !is_in_range(dtype, whole) {
        return Ok(false);
    }
    match whole {
        Whole::Signed(number) => write!(text, "{number}")?,
        Whole::Unsigned(number) => write!(text, "{number}")?,
    }
    Ok(true)
}

/// Returns whether an integer fits the type.
fn is_in_range(dtype: &ArrowDataType, whole: Whole) -> bool
    ensures { result ≡ fits_number (shape_of dtype.now) (whole_number whole) }
{
    match dtype {
        ArrowDataType::Int8 => converts::<i8>(whole),
        ArrowDataType::Int16 => converts::<i16>(whole),
        ArrowDataType::Int32 => converts::<i32>(whole),
        ArrowDataType::Int64 => converts::<i64>(whole),
        ArrowDataType::Int128 => converts::<i128>(whole),
        ArrowDataType::UInt8 => converts::<u8>(whole),
        ArrowDataType::UInt16 => converts::<u16>(whole),
        ArrowDataType::UInt32 => converts::<u32>(whole),
        ArrowDataType::UInt64 => converts::<u64>(whole),
        ArrowDataType::UInt128 => converts::<u128>(whole),
        _ => false,
    }
}

/// Returns whether an integer fits a type of integers.
fn converts<T: FromWhole>(whole: Whole) -> bool
    ensures { result ≡ fits_number T.shape (whole_number whole) }
{
    match T::from_whole(whole) {
        Some(_) => true,
        None => false,
    }
}

/// Appends bytes or a string to `text`; `false` if they do not fit the type.
#[tactic(auto, using(crate::proofs::ItemTexts::no_bytes))]
fn push_bytes(dtype: &ArrowDataType, bytes: &[u8], text: &mut String) -> Result<bool, AllocError>
    ensures fit { IfOk result (λ fit. fit ≡ fits (shape_of dtype.now) (Bytes bytes.now)) }
    ensures text { IfOk result (λ fit. IsTrue fit → string_bytes text.new ≡
        string_bytes text.old ++ value_text (shape_of dtype.now) (Bytes bytes.now)) }
{
    match dtype {
        ArrowDataType::LargeBinary => push_binary(bytes, text),
        ArrowDataType::BinaryView => push_binary(bytes, text),
        ArrowDataType::Utf8View => push_string(bytes, text),
        _ => Ok(false),
    }
}

/// Appends bytes in hexadecimal to `text`; they fit any type of bytes.
fn push_binary(bytes: &[u8], text: &mut String) -> Result<bool, AllocError>
    ensures fit { IfOk result (λ fit. fit ≡ are_bytes bytes.now) }
    ensures text { IfOk result (λ _. string_bytes text.new ≡
        string_bytes text.old ++ hex_text bytes.now) }
{
    law_bytes_fit(bytes);
    push_hex(bytes, text)?;
    Ok(true)
}

/// Appends a string in quotes to `text`; `false` if the bytes are no UTF-8.
#[tactic(auto, using(crate::proofs::ItemTexts::strings))]
fn push_string(bytes: &[u8], text: &mut String) -> Result<bool, AllocError>
    ensures fit { IfOk result (λ fit. fit ≡ is_utf8 bytes.now) }
    ensures text { IfOk result (λ fit. IsTrue fit → string_bytes text.new ≡
        string_bytes text.old ++ quoted bytes.now) }
{
    match str::from_utf8(bytes) {
        Ok(_) => {
            push_quoted(bytes, text)?;
            Ok(true)
        }
        Err(_) => Ok(false),
    }
}
