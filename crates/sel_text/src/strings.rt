//! Parsing of hexadecimal bytes and quoted strings.

ghost use Rattle.std.specs.Prelude.{◌≡◌, ◌<◌, ◌∷◌, ◌++◌, ℕ, List, IfOk, MatchResult, IsTrue, length, nat_lt};
ghost use Rattle.std.specs.Char.{digit_char};
ghost use Rattle.std.specs.List.{flat_map, list_all};
ghost use Rattle.sel_text.specs.Steps.{IsMemoryFault};
ghost use Rattle.sel_text.specs.Texts.{escaped, hex_byte};

use crate::numerals::behind;
use crate::text_error::Fault;
use std::alloc::Global;

/// Parses hexadecimal bytes after the opening quote, and returns them with the input after the
/// closing quote.
pub(crate) fn read_hex(alloc: Global, bytes: &[u8]) -> Result<(Vec<u8>, &[u8]), Fault>
    ensures whole { (value more : List ℕ) → IsTrue
        (list_all (λ byte. nat_lt byte 256) value) → bytes.now ≡ flat_map hex_byte value ++
        (34 ∷ more) → MatchResult result (λ read. (read.0.items ≡ value) ×
        (read.1.now ≡ more)) IsMemoryFault }
{
    let mut value = Vec::new(alloc);
    let mut rest = bytes;
    loop {
        if let Some(end) = behind(rest, b"\"") {
            return Ok((value, end));
        }
        let (byte, more) = match read_hex_byte(rest) {
            Ok(read) => read,
            Err(fault) => return Err(fault),
        };
        value.push(byte)?;
        rest = more;
    }
}

/// Parses a byte of two hexadecimal digits, and returns it with the rest of the input.
fn read_hex_byte(bytes: &[u8]) -> Result<(u8, &[u8]), Fault>
    ensures shorter { IfOk result (λ read. length read.1.now < length bytes.now) }
    ensures whole { (byte : ℕ) (more : List ℕ) → byte < 256 →
        bytes.now ≡ hex_byte byte ++ more →
        MatchResult result (λ read. (read.0 ≡ byte) × (read.1.now ≡ more)) IsMemoryFault }
{
    if bytes.len() < 2 {
        return Err(Fault::Syntax(bytes.len()));
    }
    let high = match hex_digit(bytes[0], bytes.len()) {
        Ok(high) => high,
        Err(fault) => return Err(fault),
    };
    let low = match hex_digit(bytes[1], bytes.len() - 1) {
        Ok(low) => low,
        Err(fault) => return Err(fault),
    };
    Ok((16 * high + low, &bytes[2..]))
}

/// Returns the value of a lower-case hexadecimal digit; `left` is the error position.
#[tactic(auto, using(crate::proofs::Quotes::hex_digits))]
fn hex_digit(digit: u8, left: usize) -> Result<u8, Fault>
    ensures small { IfOk result (λ value. value < 16) }
    ensures whole { (value : ℕ) → value < 16 → digit ≡ digit_char value →
        MatchResult result (λ read. read ≡ value) IsMemoryFault }
{
    match digit {
        b'0'..=b'9' => Ok(digit - b'0'),
        b'a'..=b'f' => Ok(digit - b'a' + 10),
        _ => Err(Fault::Syntax(left)),
    }
}

/// Parses a string after the opening quote, and returns it with the input after the closing quote.
pub(crate) fn read_quoted(alloc: Global, bytes: &[u8]) -> Result<(Vec<u8>, &[u8]), Fault>
    ensures whole { (value more : List ℕ) → bytes.now ≡ flat_map escaped value ++
        (34 ∷ more) → MatchResult result (λ read. (read.0.items ≡ value) ×
        (read.1.now ≡ more)) IsMemoryFault }
{
    let mut value = Vec::new(alloc);
    let mut rest = bytes;
    loop {
        if let Some(end) = behind(rest, b"\"") {
            return Ok((value, end));
        }
        let (byte, more) = match read_byte(rest) {
            Ok(read) => read,
            Err(fault) => return Err(fault),
        };
        value.push(byte)?;
        rest = more;
    }
}

/// Parses one byte of a string before its closing quote: a literal byte of at least 32, or an
/// escape.
fn read_byte(bytes: &[u8]) -> Result<(u8, &[u8]), Fault>
    ensures shorter { IfOk result (λ read. length read.1.now < length bytes.now) }
    ensures whole { (byte : ℕ) (more : List ℕ) → bytes.now ≡ escaped byte ++ more →
        MatchResult result (λ read. (read.0 ≡ byte) × (read.1.now ≡ more)) IsMemoryFault }
{
    if let Some(rest) = behind(bytes, b"\\") {
        return read_escape(rest);
    }
    if bytes.is_empty() {
        return Err(Fault::Syntax(bytes.len()));
    }
    if bytes[0] < 32 {
        return Err(Fault::Syntax(bytes.len()));
    }
    Ok((bytes[0], &bytes[1..]))
}

/// Parses an escape after its backslash. Accepts only the escape that is printed for the byte.
#[tactic(auto, using(crate::proofs::Quotes::escape_told))]
fn read_escape(bytes: &[u8]) -> Result<(u8, &[u8]), Fault>
    ensures shorter { IfOk result (λ read. length read.1.now < length bytes.now) }
    ensures whole { (byte : ℕ) (more : List ℕ) → 92 ∷ bytes.now ≡ escaped byte ++ more →
        MatchResult result (λ read. (read.0 ≡ byte) × (read.1.now ≡ more)) IsMemoryFault }
{
    if let Some(rest) = behind(bytes, b"\"") {
        return Ok((b'"', rest));
    }
    if let Some(rest) = behind(bytes, b"\\") {
        return Ok((b'\\', rest));
    }
    if let Some(rest) = behind(bytes, b"n") {
        return Ok((b'\n', rest));
    }
    if let Some(rest) = behind(bytes, b"r") {
        return Ok((b'\r', rest));
    }
    if let Some(rest) = behind(bytes, b"t") {
        return Ok((b'\t', rest));
    }
    if let Some(rest) = behind(bytes, b"b") {
        return Ok((8, rest));
    }
    if let Some(rest) = behind(bytes, b"f") {
        return Ok((12, rest));
    }
    match behind(bytes, b"u00") {
        Some(rest) => read_control(rest, bytes.len()),
        None => Err(Fault::Syntax(bytes.len())),
    }
}

/// Parses the two digits of a control byte after `\u00`; `left` is the error position. Rejects a
/// byte that has a one-letter escape.
fn read_control(bytes: &[u8], left: usize) -> Result<(u8, &[u8]), Fault>
    ensures shorter { IfOk result (λ read. length read.1.now < length bytes.now) }
    ensures whole { (byte : ℕ) (more : List ℕ) →
        92 ∷ 117 ∷ 48 ∷ 48 ∷ bytes.now ≡ escaped byte ++ more →
        MatchResult result (λ read. (read.0 ≡ byte) × (read.1.now ≡ more)) IsMemoryFault }
{
    let (byte, rest) = match read_hex_byte(bytes) {
        Ok(read) => read,
        Err(fault) => return Err(fault),
    };
    match byte {
        8..=10 => Err(Fault::Syntax(left)),
        12..=13 => Err(Fault::Syntax(left)),
        32..=255 => Err(Fault::Syntax(left)),
        _ => Ok((byte, rest)),
    }
}
