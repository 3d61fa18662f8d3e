//! Parsing of data types.

ghost use Rattle.std.specs.Prelude.{◌≡◌, ◌≢◌, ◌<◌, ◌≤◌, ◌∷◌, ◌++◌, ◌^◌, ℕ, List, true, IfOk, IfErr, IfSome, IfNone, IsOkAnd, MatchResult, IsTrue, ◌-◌, map, length, nat_lt, codes};
ghost use Rattle.std.specs.Fmt.{decimal};
ghost use Rattle.sel_arrow.specs.DataType.{shape_of};
ghost use Rattle.sel_text.specs.Notation.{is_type_notation};
ghost use Rattle.sel_text.specs.Spelling.{spelled};
ghost use Rattle.sel_arrow.specs.Shape.{Shape, Shapes, next_shape, shapes_of, of_struct};
ghost use Rattle.sel_text.specs.Digits.{NoDigit};
ghost use Rattle.sel_text.specs.Steps.{ReportsLimit};
ghost use Rattle.sel_text.specs.TextErrors.{IsLimitOrMemoryError, IsOffsetWithin, IsTypeTextError};
ghost use Rattle.sel_arrow.specs.Depth.{deepest, depth};
ghost use Rattle.sel_text.specs.Written.{all_widths_written, widths_written};
ghost use Rattle.sel_text.specs.Steps.{is_plain};
ghost use Rattle.sel_text.specs.Types.{angled, type_text, type_texts};

use crate::numerals::{behind, expect, number_of, read_digits};
use crate::spelling::spelling;
use crate::syntax::find_type_error;
use crate::text_error::{Fault, TextError};
use sel_arrow::datatype::ArrowDataType;
use std::alloc::Global;

/// The maximum nesting depth of types with children.
pub const DEEPEST: usize = 64;

/// Parses a data type, as in `struct<list<i8>, fixed<2, utf8>>`.
///
/// White space may stand between tokens: `print_dtype` prints the result as the canonical spelling
/// of `text`.
///
/// # Errors
/// `Syntax` if `text` is not the notation of a type, with the position of the first byte with which
/// no such text goes on, or the length of `text` if it ends too soon. Otherwise `Limit` if the type
/// is nested more than 64 levels deep or has a list size above 18,446,744,073,709,551,615.
/// `OutOfMemory` if an allocation fails. Never `Type`.
#[tactic(auto, using(crate::proofs::Respelled::type_respelled))]
pub fn parse_dtype(alloc: Global, text: &str) -> Result<ArrowDataType, TextError>
    ensures text { IfOk result (λ dtype. spelled text.now ≡ Some (type_text (shape_of dtype))) }
    ensures levels { IfOk result (λ dtype. depth (shape_of dtype) ≤ 64) }
    ensures widths { IfOk result (λ dtype. IsTrue (widths_written (shape_of dtype))) }
    ensures notation { IfOk result (λ _. is_type_notation text.now ≡ true) }
    ensures refused { IfErr result (λ error. (shape : Shape) → IsTrue (widths_written shape) →
        spelled text.now ≡ Some (type_text shape) → IsLimitOrMemoryError error) }
    ensures limit { IfErr result (λ error. error ≡ TextError.Limit → (shape : Shape) →
        IsTrue (widths_written shape) → spelled text.now ≡ Some (type_text shape) →
        64 < depth shape) }
    ensures syntax { IfErr result (IsTypeTextError text.now) }
    ensures place { IfErr result (IsOffsetWithin (length text.now)) }
{
    let bytes = match spelling(alloc, text) {
        Ok(bytes) => bytes,
        Err(error) => return Err(located(alloc, text, error)),
    };
    match read_whole(alloc, &bytes) {
        Ok(dtype) => Ok(dtype),
        Err(fault) => Err(located(alloc, text, fault.placed(text, bytes.len()))),
    }
}

/// Returns the error of a text that is not read as a type: a syntax error with its position
/// wherever there is one, else that of a limit.
fn located(alloc: Global, text: &str, error: TextError) -> TextError
    ensures syntax { IsTypeTextError text.now result }
    ensures place { IsOffsetWithin (length text.now) result }
    ensures short { is_type_notation text.now ≡ true → IsLimitOrMemoryError result }
    ensures limit { result ≡ TextError.Limit → IsLimitOrMemoryError error →
        error ≡ TextError.Limit }
{
    if let TextError::OutOfMemory = error {
        return error;
    }
    match find_type_error(alloc, text.as_bytes()) {
        Ok(Some(at)) => TextError::Syntax { at },
        Ok(None) => TextError::Limit,
        Err(_) => TextError::OutOfMemory,
    }
}

/// Parses a type that is the whole input.
fn read_whole(alloc: Global, bytes: &[u8]) -> Result<ArrowDataType, Fault>
    ensures text { IfOk result (λ dtype. type_text (shape_of dtype) ≡ bytes.now) }
    ensures levels { IfOk result (λ dtype. depth (shape_of dtype) ≤ 64) }
    ensures widths { IfOk result (λ dtype. IsTrue (widths_written (shape_of dtype))) }
    ensures refused { IfErr result (λ fault. (shape : Shape) → IsTrue (widths_written shape) →
        bytes.now ≡ type_text shape → ReportsLimit (nat_lt 64 (depth shape)) fault) }
{
    let (dtype, rest) = match read_type(alloc, bytes, DEEPEST) {
        Ok(read) => read,
        Err(fault) => return Err(fault),
    };
    if !rest.is_empty() {
        return Err(Fault::Syntax(rest.len()));
    }
    Ok(dtype)
}

/// Parses a type of at most `levels` levels at the front, and returns it with the rest of the
/// input.
#[cycle(reading_types)]
fn read_type(alloc: Global, bytes: &[u8], levels: usize) -> Result<(ArrowDataType, &[u8]), Fault>
    ensures text { IfOk result (λ read. bytes.now ≡ type_text (shape_of read.0) ++ read.1.now) }
    ensures levels { IfOk result (λ read. depth (shape_of read.0) ≤ levels) }
    ensures widths { IfOk result (λ read. IsTrue (widths_written (shape_of read.0))) }
    ensures whole { (shape : Shape) (more : List ℕ) → IsTrue (widths_written shape) →
        bytes.now ≡ type_text shape ++ more →
        MatchResult result (λ read. (shape_of read.0 ≡ shape) × (read.1.now ≡ more))
        (ReportsLimit (nat_lt levels (depth shape))) }
{
    if let Some(read) = read_plain(bytes) {
        return Ok(read);
    }
    if levels == 0 {
        return Err(Fault::Limit);
    }
    if let Some(rest) = behind(bytes, b"list") {
        return read_list(alloc, rest, levels);
    }
    if let Some(rest) = behind(bytes, b"fixed") {
        return read_blocks(alloc, rest, levels);
    }
    if let Some(rest) = behind(bytes, b"struct") {
        return read_struct_type(alloc, rest, levels);
    }
    Err(Fault::Syntax(bytes.len()))
}

/// Parses a type without children at the front, and returns it with the rest of the input.
#[tactic(auto, using(crate::proofs::TypesTold::no_plain))]
fn read_plain(bytes: &[u8]) -> Option<(ArrowDataType, &[u8])>
    ensures text { IfSome result (λ read.
        bytes.now ≡ type_text (shape_of read.0) ++ read.1.now) }
    ensures plain { IfSome result (λ read. is_plain (shape_of read.0) ≡ true) }
    ensures none { IfNone result ((shape : Shape) (more : List ℕ) → is_plain shape ≡ true →
        bytes.now ≢ type_text shape ++ more) }
{
    if let Some(rest) = behind(bytes, b"i") {
        return read_signed(rest);
    }
    if let Some(rest) = behind(bytes, b"null") {
        return Some((ArrowDataType::Null, rest));
    }
    if let Some(rest) = behind(bytes, b"bool") {
        return Some((ArrowDataType::Boolean, rest));
    }
    if let Some(rest) = behind(bytes, b"binary") {
        return Some((ArrowDataType::LargeBinary, rest));
    }
    if let Some(rest) = behind(bytes, b"binview") {
        return Some((ArrowDataType::BinaryView, rest));
    }
    match behind(bytes, b"u") {
        Some(rest) => read_unsigned(rest),
        None => None,
    }
}

/// Parses the bit width of a signed integer type, after its `i`.
#[tactic(auto, using(crate::proofs::TypesTold::no_signed))]
fn read_signed(bytes: &[u8]) -> Option<(ArrowDataType, &[u8])>
    ensures text { IfSome result (λ read.
        105 ∷ bytes.now ≡ type_text (shape_of read.0) ++ read.1.now) }
    ensures plain { IfSome result (λ read. is_plain (shape_of read.0) ≡ true) }
    ensures none { IfNone result ((shape : Shape) (more : List ℕ) →
        105 ∷ bytes.now ≢ type_text shape ++ more) }
{
    if let Some(rest) = behind(bytes, b"8") {
        return Some((ArrowDataType::Int8, rest));
    }
    if let Some(rest) = behind(bytes, b"16") {
        return Some((ArrowDataType::Int16, rest));
    }
    if let Some(rest) = behind(bytes, b"32") {
        return Some((ArrowDataType::Int32, rest));
    }
    if let Some(rest) = behind(bytes, b"64") {
        return Some((ArrowDataType::Int64, rest));
    }
    match behind(bytes, b"128") {
        Some(rest) => Some((ArrowDataType::Int128, rest)),
        None => None,
    }
}

/// Parses the rest of `utf8`, or the bit width of an unsigned integer type, after its `u`.
#[tactic(auto, using(crate::proofs::TypesTold::no_unsigned))]
fn read_unsigned(bytes: &[u8]) -> Option<(ArrowDataType, &[u8])>
    ensures text { IfSome result (λ read.
        117 ∷ bytes.now ≡ type_text (shape_of read.0) ++ read.1.now) }
    ensures plain { IfSome result (λ read. is_plain (shape_of read.0) ≡ true) }
    ensures none { IfNone result ((shape : Shape) (more : List ℕ) →
        117 ∷ bytes.now ≢ type_text shape ++ more) }
{
    if let Some(rest) = behind(bytes, b"8") {
        return Some((ArrowDataType::UInt8, rest));
    }
    if let Some(rest) = behind(bytes, b"16") {
        return Some((ArrowDataType::UInt16, rest));
    }
    if let Some(rest) = behind(bytes, b"32") {
        return Some((ArrowDataType::UInt32, rest));
    }
    if let Some(rest) = behind(bytes, b"64") {
        return Some((ArrowDataType::UInt64, rest));
    }
    if let Some(rest) = behind(bytes, b"tf8") {
        return Some((ArrowDataType::Utf8View, rest));
    }
    match behind(bytes, b"128") {
        Some(rest) => Some((ArrowDataType::UInt128, rest)),
        None => None,
    }
}

/// Parses a list type, after its name.
#[cycle(reading_types)]
fn read_list(alloc: Global, bytes: &[u8], levels: usize) -> Result<(ArrowDataType, &[u8]), Fault>
    requires { 0 < levels }
    ensures text { IfOk result (λ read.
        codes "list" ++ bytes.now ≡ type_text (shape_of read.0) ++ read.1.now) }
    ensures levels { IfOk result (λ read. depth (shape_of read.0) ≤ levels) }
    ensures widths { IfOk result (λ read. IsTrue (widths_written (shape_of read.0))) }
    ensures whole { (shape : Shape) (more : List ℕ) → IsTrue (widths_written shape) →
        codes "list" ++ bytes.now ≡ type_text shape ++ more →
        MatchResult result (λ read. (shape_of read.0 ≡ shape) × (read.1.now ≡ more))
        (ReportsLimit (nat_lt levels (depth shape))) }
{
    let rest = match expect(bytes, b"<") {
        Ok(rest) => rest,
        Err(fault) => return Err(fault),
    };
    match read_child(alloc, rest, levels) {
        Ok((child, rest)) => Ok((ArrowDataType::LargeList(child), rest)),
        Err(fault) => Err(fault),
    }
}

/// Parses the child of a list type and the closing bracket.
#[cycle(reading_types)]
fn read_child(
    alloc: Global,
    bytes: &[u8],
    levels: usize,
) -> Result<(Box<ArrowDataType>, &[u8]), Fault>
    requires { 0 < levels }
    ensures text { IfOk result (λ read.
        bytes.now ≡ type_text (shape_of read.0.value) ++ 62 ∷ read.1.now) }
    ensures levels { IfOk result (λ read. depth (shape_of read.0.value) < levels) }
    ensures widths { IfOk result (λ read. IsTrue (widths_written (shape_of read.0.value))) }
    ensures whole { (shape : Shape) (more : List ℕ) → IsTrue (widths_written shape) →
        bytes.now ≡ type_text shape ++ 62 ∷ more →
        MatchResult result (λ read. (shape_of read.0.value ≡ shape) × (read.1.now ≡ more))
        (ReportsLimit (nat_lt (levels - 1) (depth shape))) }
{
    let (child, rest) = match read_type(alloc, bytes, levels - 1) {
        Ok(read) => read,
        Err(fault) => return Err(fault),
    };
    let rest = match expect(rest, b">") {
        Ok(rest) => rest,
        Err(fault) => {
            drop(child);
            return Err(fault);
        }
    };
    match Box::new(alloc, child) {
        Ok(child) => Ok((child, rest)),
        Err(failed) => Err(Fault::from(failed)),
    }
}

/// Parses a fixed-size list type, after its name.
#[cycle(reading_types)]
fn read_blocks(alloc: Global, bytes: &[u8], levels: usize) -> Result<(ArrowDataType, &[u8]), Fault>
    requires { 0 < levels }
    ensures text { IfOk result (λ read.
        codes "fixed" ++ bytes.now ≡ type_text (shape_of read.0) ++ read.1.now) }
    ensures levels { IfOk result (λ read. depth (shape_of read.0) ≤ levels) }
    ensures widths { IfOk result (λ read. IsTrue (widths_written (shape_of read.0))) }
    ensures whole { (shape : Shape) (more : List ℕ) → IsTrue (widths_written shape) →
        codes "fixed" ++ bytes.now ≡ type_text shape ++ more →
        MatchResult result (λ read. (shape_of read.0 ≡ shape) × (read.1.now ≡ more))
        (ReportsLimit (nat_lt levels (depth shape))) }
{
    let (size, rest) = match read_width(bytes) {
        Ok(read) => read,
        Err(fault) => return Err(fault),
    };
    match read_child(alloc, rest, levels) {
        Ok((child, rest)) => Ok((ArrowDataType::FixedSizeList(child, size), rest)),
        Err(fault) => Err(fault),
    }
}

/// Parses the opening bracket, the list size and the comma of a fixed-size list type.
fn read_width(bytes: &[u8]) -> Result<(usize, &[u8]), Fault>
    ensures text { IfOk result (λ read. bytes.now ≡ 60 ∷ decimal read.0 ++ 44 ∷ read.1.now) }
    ensures whole { (size : ℕ) (more : List ℕ) → size < 2 ^ 64 →
        bytes.now ≡ 60 ∷ decimal size ++ 44 ∷ more →
        IsOkAnd result (λ read. (read.0 ≡ size) × (read.1.now ≡ more)) }
{
    let rest = match expect(bytes, b"<") {
        Ok(rest) => rest,
        Err(fault) => return Err(fault),
    };
    let (size, rest) = match read_size(rest) {
        Ok(read) => read,
        Err(fault) => return Err(fault),
    };
    match expect(rest, b",") {
        Ok(rest) => Ok((size, rest)),
        Err(fault) => Err(fault),
    }
}

/// Parses a list size at the front.
fn read_size(bytes: &[u8]) -> Result<(usize, &[u8]), Fault>
    ensures text { IfOk result (λ read. bytes.now ≡ decimal read.0 ++ read.1.now) }
    ensures whole { (size : ℕ) (more : List ℕ) → size < 2 ^ 64 → NoDigit more →
        bytes.now ≡ decimal size ++ more →
        IsOkAnd result (λ read. (read.0 ≡ size) × (read.1.now ≡ more)) }
{
    let (digits, rest) = read_digits(bytes)?;
    let Some(number) = number_of(digits) else {
        return Err(Fault::Limit);
    };
    match usize::try_from(number) {
        Ok(size) => Ok((size, rest)),
        Err(_) => Err(Fault::Limit),
    }
}

/// Parses a struct type, after its name.
#[cycle(reading_types)]
fn read_struct_type(
    alloc: Global,
    bytes: &[u8],
    levels: usize,
) -> Result<(ArrowDataType, &[u8]), Fault>
    requires { 0 < levels }
    ensures text { IfOk result (λ read.
        codes "struct" ++ bytes.now ≡ type_text (shape_of read.0) ++ read.1.now) }
    ensures levels { IfOk result (λ read. depth (shape_of read.0) ≤ levels) }
    ensures widths { IfOk result (λ read. IsTrue (widths_written (shape_of read.0))) }
    ensures whole { (shape : Shape) (more : List ℕ) → IsTrue (widths_written shape) →
        codes "struct" ++ bytes.now ≡ type_text shape ++ more →
        MatchResult result (λ read. (shape_of read.0 ≡ shape) × (read.1.now ≡ more))
        (ReportsLimit (nat_lt levels (depth shape))) }
{
    let rest = match expect(bytes, b"<") {
        Ok(rest) => rest,
        Err(fault) => return Err(fault),
    };
    if let Some(rest) = behind(rest, b">") {
        return Ok((ArrowDataType::Struct(Vec::new(alloc)), rest));
    }
    match read_fields(alloc, rest, levels) {
        Ok((fields, rest)) => Ok((ArrowDataType::Struct(fields), rest)),
        Err(fault) => Err(fault),
    }
}

/// Parses field types up to the closing bracket; there is at least one.
#[cycle(reading_types)]
fn read_fields(
    alloc: Global,
    bytes: &[u8],
    levels: usize,
) -> Result<(Vec<ArrowDataType>, &[u8]), Fault>
    requires { 0 < levels }
    ensures text { IfOk result (λ read. 60 ∷ bytes.now ≡
        angled (map (λ dtype. type_text (shape_of dtype)) read.0.items) ++ read.1.now) }
    ensures levels { IfOk result (λ read.
        deepest (shapes_of (map shape_of read.0.items)) < levels) }
    ensures widths { IfOk result (λ read.
        all_widths_written (shapes_of (map shape_of read.0.items)) ≡ true) }
    ensures whole { (first : Shape) (others : Shapes) (more : List ℕ) →
        all_widths_written (next_shape first others) ≡ true →
        60 ∷ bytes.now ≡ angled (type_texts (next_shape first others)) ++ more →
        MatchResult result (λ read. (shapes_of (map shape_of read.0.items) ≡
        next_shape first others) × (read.1.now ≡ more))
        (ReportsLimit (nat_lt levels (depth (of_struct (next_shape first others))))) }
{
    let mut fields = Vec::new(alloc);
    let mut rest = bytes;
    for _ in 0..bytes.len() {
        let (field, more) = match read_type(alloc, rest, levels - 1) {
            Ok(read) => read,
            Err(fault) => return Err(fault),
        };
        fields.push(field)?;
        if let Some(end) = behind(more, b">") {
            return Ok((fields, end));
        }
        let Some(next) = behind(more, b",") else {
            return Err(Fault::Syntax(more.len()));
        };
        rest = next;
    }
    Err(Fault::Syntax(rest.len()))
}
