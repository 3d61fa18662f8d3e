//! Parsing of rows.

ghost use Rattle.std.specs.Prelude.{◌≡◌, ◌≢◌, ◌<◌, ◌∷◌, ◌++◌, ℕ, ℤ, pos, negsuc, suc, Bool, List, MatchResult, IfOk, IfErr, IsTrue, length, map, nat_lt};
ghost use Rattle.std.specs.Fmt.{decimal, signed_decimal};
ghost use Rattle.std.specs.List.{list_all};
ghost use Rattle.sel_arrow.specs.DataType.{shape_of};
ghost use Rattle.sel_arrow.specs.Shape.{shapes_of};
ghost use Rattle.sel_arrow.specs.Value.{Value, Truth, Number, Bytes, Values, listed};
ghost use Rattle.sel_text.specs.Digits.{NoDigit};
ghost use Rattle.sel_text.specs.Fits.{all_fit, fits_number, fields_fit};
ghost use Rattle.sel_text.specs.Readings.{BeginsWith};
ghost use Rattle.sel_text.specs.ItemValues.{item_value};
ghost use Rattle.sel_text.specs.Steps.{IsMemoryFault};
ghost use Rattle.sel_text.specs.Texts.{bracketed, hex_text, item_texts, parenthesized, part_texts, quoted, bool_text};

use crate::cell::Whole;
use crate::numerals::{behind, expect, number_of, read_digits};
use crate::strings::{read_hex, read_quoted};
use crate::text_error::Fault;
use crate::whole::FromWhole;
use sel_arrow::datatype::ArrowDataType;
use std::alloc::Global;

/// A parsed row.
#[derive(Drop)]
pub(crate) enum Item {
    Null,
    Truth(bool),
    Number(Whole),
    Bytes(Vec<u8>),
    Items(Vec<Item>),
    Parts(Vec<Item>),
}

/// Parses a row of type `dtype` at the front, and returns it with the rest of the input.
#[cycle(reading_rows)]
pub(crate) fn read_item<'a>(
    dtype: &ArrowDataType,
    alloc: Global,
    bytes: &'a [u8],
) -> Result<(Item, &'a [u8]), Fault>
    ensures { (value : Value) (more : List ℕ) → BeginsWith (shape_of dtype.now) value bytes.now
        more → MatchResult result (λ read. (item_value read.0 ≡ value) ×
        (read.1.now ≡ more)) IsMemoryFault }
{
    if let Some(rest) = behind(bytes, b"null") {
        return Ok((Item::Null, rest));
    }
    match dtype {
        ArrowDataType::Null => Err(mismatch(bytes)),
        ArrowDataType::Boolean => read_boolean(bytes),
        ArrowDataType::Int8 => read_number::<i8>(bytes),
        ArrowDataType::Int16 => read_number::<i16>(bytes),
        ArrowDataType::Int32 => read_number::<i32>(bytes),
        ArrowDataType::Int64 => read_number::<i64>(bytes),
        ArrowDataType::Int128 => read_number::<i128>(bytes),
        ArrowDataType::UInt8 => read_number::<u8>(bytes),
        ArrowDataType::UInt16 => read_number::<u16>(bytes),
        ArrowDataType::UInt32 => read_number::<u32>(bytes),
        ArrowDataType::UInt64 => read_number::<u64>(bytes),
        ArrowDataType::UInt128 => read_number::<u128>(bytes),
        ArrowDataType::LargeBinary => read_bytes(alloc, bytes),
        ArrowDataType::BinaryView => read_bytes(alloc, bytes),
        ArrowDataType::Utf8View => read_text(alloc, bytes),
        ArrowDataType::LargeList(child) => match read_items(child, alloc, bytes) {
            Ok((items, rest)) => Ok((Item::Items(items), rest)),
            Err(fault) => Err(fault),
        },
        ArrowDataType::FixedSizeList(child, size) => match read_items(child, alloc, bytes) {
            Ok((items, rest)) => {
                if items.len() != *size {
                    return Err(Fault::Type(bytes.len()));
                }
                Ok((Item::Items(items), rest))
            }
            Err(fault) => Err(fault),
        },
        ArrowDataType::Struct(fields) => match read_parts(fields, alloc, bytes) {
            Ok((parts, rest)) => Ok((Item::Parts(parts), rest)),
            Err(fault) => Err(of_value(fault, bytes)),
        },
    }
}

/// Returns the error for input that starts no row of the type.
fn mismatch(bytes: &[u8]) -> Fault {
    Fault::Type(bytes.len())
}

/// Returns the error for an error in the struct value at the front: a wrong number of fields is an
/// error of the value.
fn of_value(fault: Fault, bytes: &[u8]) -> Fault
    ensures { IsMemoryFault fault → IsMemoryFault result }
{
    match fault {
        Fault::Syntax(_) => Fault::Type(bytes.len()),
        Fault::Type(_) if bytes.starts_with(b"()") => Fault::Type(bytes.len()),
        _ => fault,
    }
}

/// Returns the input after the token `word`, which starts a row of the type.
fn opened<'a>(bytes: &'a [u8], word: &[u8]) -> Result<&'a [u8], Fault>
    ensures rest { IfOk result (λ rest. bytes.now ≡ word.now ++ rest.now) }
    ensures refused { IfErr result (λ _. (more : List ℕ) → bytes.now ≢ word.now ++ more) }
{
    match behind(bytes, word) {
        Some(rest) => Ok(rest),
        None => Err(mismatch(bytes)),
    }
}

/// Parses a boolean at the front.
fn read_boolean(bytes: &[u8]) -> Result<(Item, &[u8]), Fault>
    ensures { (truth : Bool) (more : List ℕ) → bytes.now ≡ bool_text truth ++ more →
        MatchResult result (λ read. (item_value read.0 ≡ Truth truth) × (read.1.now ≡ more))
        IsMemoryFault }
{
    if let Some(rest) = behind(bytes, b"true") {
        return Ok((Item::Truth(true), rest));
    }
    match opened(bytes, b"false") {
        Ok(rest) => Ok((Item::Truth(false), rest)),
        Err(fault) => Err(fault),
    }
}

/// Parses hexadecimal bytes at the front.
fn read_bytes(alloc: Global, bytes: &[u8]) -> Result<(Item, &[u8]), Fault>
    ensures { (value more : List ℕ) → IsTrue (list_all (λ byte. nat_lt byte 256) value) →
        bytes.now ≡ hex_text value ++ more →
        MatchResult result (λ read. (item_value read.0 ≡ Bytes value) × (read.1.now ≡ more))
        IsMemoryFault }
{
    let rest = match opened(bytes, b"h\"") {
        Ok(rest) => rest,
        Err(fault) => return Err(fault),
    };
    match read_hex(alloc, rest) {
        Ok((value, rest)) => Ok((Item::Bytes(value), rest)),
        Err(fault) => Err(fault),
    }
}

/// Parses a quoted string at the front.
fn read_text(alloc: Global, bytes: &[u8]) -> Result<(Item, &[u8]), Fault>
    ensures { (value more : List ℕ) → bytes.now ≡ quoted value ++ more →
        MatchResult result (λ read. (item_value read.0 ≡ Bytes value) × (read.1.now ≡ more))
        IsMemoryFault }
{
    let rest = match opened(bytes, b"\"") {
        Ok(rest) => rest,
        Err(fault) => return Err(fault),
    };
    match read_quoted(alloc, rest) {
        Ok((value, rest)) => Ok((Item::Bytes(value), rest)),
        Err(fault) => Err(fault),
    }
}

/// Parses an integer at the front, which must fit the type.
fn read_number<T: FromWhole>(bytes: &[u8]) -> Result<(Item, &[u8]), Fault>
    ensures { (number : ℤ) (more : List ℕ) → IsTrue (fits_number T.shape number) →
        NoDigit more → bytes.now ≡ signed_decimal number ++ more →
        MatchResult result (λ read. (item_value read.0 ≡ Number number) × (read.1.now ≡ more))
        IsMemoryFault }
{
    match behind(bytes, b"-") {
        Some(numeral) => read_negative::<T>(numeral, bytes.len()),
        None => read_positive::<T>(bytes),
    }
}

/// Parses an integer without a minus sign at the front.
fn read_positive<T: FromWhole>(bytes: &[u8]) -> Result<(Item, &[u8]), Fault>
    ensures { (number : ℕ) (more : List ℕ) → IsTrue (fits_number T.shape (pos number)) →
        NoDigit more → bytes.now ≡ decimal number ++ more →
        MatchResult result (λ read. (item_value read.0 ≡ Number (pos number)) ×
        (read.1.now ≡ more)) IsMemoryFault }
{
    let (digits, rest) = match read_digits(bytes) {
        Ok(read) => read,
        Err(_) => return Err(mismatch(bytes)),
    };
    let Some(number) = number_of(digits) else {
        return Err(Fault::Type(bytes.len()));
    };
    let whole = Whole::Unsigned(number);
    match T::from_whole(whole) {
        Some(_) => Ok((Item::Number(whole), rest)),
        None => Err(Fault::Type(bytes.len())),
    }
}

/// Parses a negative integer after its minus sign; `left` is the error position for a value that
/// does not fit.
fn read_negative<T: FromWhole>(bytes: &[u8], left: usize) -> Result<(Item, &[u8]), Fault>
    ensures { (number : ℕ) (more : List ℕ) → IsTrue (fits_number T.shape (negsuc number)) →
        NoDigit more → bytes.now ≡ decimal (suc number) ++ more →
        MatchResult result (λ read. (item_value read.0 ≡ Number (negsuc number)) ×
        (read.1.now ≡ more)) IsMemoryFault }
{
    let (digits, rest) = match read_digits(bytes) {
        Ok(read) => read,
        Err(fault) => return Err(fault),
    };
    let Some(size) = number_of(digits) else {
        return Err(Fault::Type(left));
    };
    if size == 0 {
        return Err(Fault::Syntax(bytes.len()));
    }
    let Some(number) = 0i128.checked_sub_unsigned(size) else {
        return Err(Fault::Type(left));
    };
    let whole = Whole::Signed(number);
    match T::from_whole(whole) {
        Some(_) => Ok((Item::Number(whole), rest)),
        None => Err(Fault::Type(left)),
    }
}

/// Parses the rows between brackets at the front, and returns them with the rest of the input.
#[cycle(reading_rows)]
pub(crate) fn read_items<'a>(
    dtype: &ArrowDataType,
    alloc: Global,
    bytes: &'a [u8],
) -> Result<(Vec<Item>, &'a [u8]), Fault>
    ensures { (entries : Values) (more : List ℕ) →
        IsTrue (all_fit (shape_of dtype.now) entries) →
        bytes.now ≡ bracketed (item_texts (shape_of dtype.now) entries) ++ more →
        MatchResult result (λ read. (map item_value read.0.items ≡ listed entries) ×
        (read.1.now ≡ more)) IsMemoryFault }
{
    let mut items = Vec::new(alloc);
    let mut rest = match opened(bytes, b"[") {
        Ok(rest) => rest,
        Err(fault) => return Err(fault),
    };
    if let Some(end) = behind(rest, b"]") {
        return Ok((items, end));
    }
    for _ in 0..bytes.len() {
        let (item, more) = match read_item(dtype, alloc, rest) {
            Ok(read) => read,
            Err(fault) => return Err(fault),
        };
        items.push(item)?;
        if let Some(end) = behind(more, b"]") {
            return Ok((items, end));
        }
        rest = match expect(more, b",") {
            Ok(next) => next,
            Err(fault) => return Err(fault),
        };
    }
    Err(Fault::Syntax(rest.len()))
}

/// Parses the struct fields between parentheses at the front, and returns them with the rest of the
/// input.
#[cycle(reading_rows)]
fn read_parts<'a>(
    dtypes: &[ArrowDataType],
    alloc: Global,
    bytes: &'a [u8],
) -> Result<(Vec<Item>, &'a [u8]), Fault>
    ensures { (entries : Values) (more : List ℕ) →
        let shapes = shapes_of (map shape_of dtypes.now) in IsTrue (fields_fit shapes entries) →
        bytes.now ≡ parenthesized (part_texts shapes entries) ++ more →
        MatchResult result (λ read. (map item_value read.0.items ≡ listed entries) ×
        (read.1.now ≡ more)) IsMemoryFault }
{
    let mut parts = Vec::with_capacity(alloc, dtypes.len())?;
    let mut rest = match opened(bytes, b"(") {
        Ok(rest) => rest,
        Err(fault) => return Err(fault),
    };
    for (k, dtype) in dtypes.iter().enumerate() {
        let next = match part_begun(rest, k) {
            Ok(next) => next,
            Err(fault) => return Err(fault),
        };
        let (part, more) = match read_item(dtype, alloc, next) {
            Ok(read) => read,
            Err(fault) => return Err(fault),
        };
        parts.push(part)?;
        rest = more;
    }
    match expect(rest, b")") {
        Ok(rest) => Ok((parts, rest)),
        Err(fault) => Err(fault),
    }
}

/// Returns the input after the comma that precedes each field but the first.
fn part_begun(bytes: &[u8], place: usize) -> Result<&[u8], Fault>
    ensures first { IfOk result (λ next. place ≡ 0 → next.now ≡ bytes.now) }
    ensures other { IfOk result (λ next. 0 < place → bytes.now ≡ 44 ∷ next.now) }
    ensures refused { IfErr result (λ _. 0 < place) }
    ensures comma { IfErr result (λ _. (more : List ℕ) → bytes.now ≢ 44 ∷ more) }
{
    if place == 0 {
        return Ok(bytes);
    }
    expect(bytes, b",")
}
