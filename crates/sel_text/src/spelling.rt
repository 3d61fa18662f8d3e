//! The canonical spelling of texts: without white space between tokens, strings as they are
//! printed.

ghost use Rattle.std.specs.Prelude.{◌≡◌, ◌≢◌, ◌≤◌, ◌<◌, ◌⊎◌, ◌++◌, Some, None, SomeIff, IfSome, IfOk, IfErr, OnOk, length, true, option_and_then};
ghost use Rattle.std.specs.Char.{digit_value};
ghost use Rattle.sel_text.specs.Spelling.{byte_spelled, escape_at, escape_spelled, is_high, is_low, is_mark, is_space, next_place, next_unit, paired, place_after_space, place_in_word, spelled, unit_at, unit_escape};
ghost use Rattle.sel_text.specs.TextErrors.{IsOffsetWithin};

use crate::print::push_escaped;
use crate::text_error::TextError;
use std::alloc::{AllocError, Global};

/// The lexical state of a byte.
#[derive(Clone, Copy)]
pub(crate) enum Place {
    /// At the start, or after a mark and white space, if any.
    Between,
    /// After a byte of a word, or after a closing quote.
    Word,
    /// After an `h`, with which bytes in hexadecimal begin.
    Prefix,
    /// After white space that follows a word.
    Gap,
    /// In a string.
    Quoted,
    /// In bytes in hexadecimal, after their quote.
    Hexadecimal,
}

impl Place {
    /// Returns the state after a byte, and how many bytes of `rest` belong to it; `None` if no
    /// token continues so.
    fn next(self, byte: u8, rest: &[u8]) -> Option<(Place, usize)>
        ensures { result ≡ next_place self byte rest.now }
    {
        match self {
            Place::Quoted => match byte {
                b'"' => Some((Place::Word, 0)),
                b'\\' => match escape(rest) {
                    Some((_, count)) => Some((Place::Quoted, count)),
                    None => None,
                },
                0..=31 => None,
                _ => Some((Place::Quoted, 0)),
            },
            Place::Hexadecimal if byte == b'"' => Some((Place::Word, 0)),
            Place::Hexadecimal => Some((Place::Hexadecimal, 0)),
            _ if is_white(byte) => Some((self.after_space(), 0)),
            _ if is_token(byte) => Some((Place::Between, 0)),
            Place::Gap => None,
            _ => Some((self.in_word(byte), 0)),
        }
    }

    /// Returns the state after white space.
    fn after_space(self) -> Place
        ensures { result ≡ place_after_space self }
    {
        match self {
            Place::Between => Place::Between,
            _ => Place::Gap,
        }
    }

    /// Returns the state after a byte of a word, or a quote.
    fn in_word(self, byte: u8) -> Place
        ensures { result ≡ place_in_word self byte }
    {
        match byte {
            b'"' => match self {
                Place::Prefix => Place::Hexadecimal,
                _ => Place::Quoted,
            },
            b'h' => Place::Prefix,
            _ => Place::Word,
        }
    }

    /// Returns the number of bytes of the canonical spelling of a byte.
    fn count_spelled(self, byte: u8, rest: &[u8]) -> usize {
        match self {
            Place::Quoted if byte == b'\\' => match escape(rest) {
                Some((letter, _)) => count_letter(letter),
                None => 0,
            },
            Place::Quoted | Place::Hexadecimal => 1,
            _ if is_white(byte) => 0,
            _ => 1,
        }
    }

    /// Appends the canonical spelling of a byte to `spelling`.
    fn push(
        self,
        alloc: Global,
        byte: u8,
        rest: &[u8],
        spelling: &mut Vec<u8>,
    ) -> Result<(), AllocError>
        ensures { OnOk result (spelling.new.items ≡
            spelling.old.items ++ byte_spelled self byte rest.now) }
    {
        match self {
            Place::Quoted if byte == b'\\' => push_escape(alloc, rest, spelling),
            Place::Quoted | Place::Hexadecimal => Ok(spelling.push(byte)?),
            _ if is_white(byte) => Ok(()),
            _ => Ok(spelling.push(byte)?),
        }
    }
}

/// Returns the number of bytes of the canonical spelling of a character in a string.
fn count_letter(letter: char) -> usize {
    match letter {
        '"' | '\\' | '\n' | '\r' | '\t' | '\u{8}' | '\u{c}' => 2,
        '\0'..='\u{1f}' => 6,
        _ => letter.len_utf8(),
    }
}

/// Appends the canonical spelling of the escape at the front, without its backslash.
fn push_escape(alloc: Global, bytes: &[u8], spelling: &mut Vec<u8>) -> Result<(), AllocError>
    ensures { OnOk result (spelling.new.items ≡
        spelling.old.items ++ escape_spelled (escape_at bytes.now)) }
{
    let Some((letter, _)) = escape(bytes) else {
        return Ok(());
    };
    let mut text = String::new(alloc);
    push_escaped(letter, &mut text)?;
    spelling.extend_from_slice(text.as_bytes())
}

/// Returns whether a byte is white space.
pub(crate) fn is_white(byte: u8) -> bool
    ensures { result ≡ is_space byte }
{
    matches!(byte, b' ' | b'\t' | b'\n' | b'\r')
}

/// Returns whether a byte is a token of its own.
fn is_token(byte: u8) -> bool
    ensures { result ≡ is_mark byte }
{
    matches!(byte, b'[' | b']' | b'(' | b')' | b',' | b'<' | b'>')
}

/// Returns the character of the escape at the front, and its length, both without the backslash.
fn escape(bytes: &[u8]) -> Option<(char, usize)>
    ensures { result ≡ escape_at bytes.now }
{
    if bytes.is_empty() {
        return None;
    }
    match bytes[0] {
        b'u' => unicode_escape(&bytes[1..]),
        b'"' => Some(('"', 1)),
        b'\\' => Some(('\\', 1)),
        b'/' => Some(('/', 1)),
        b'b' => Some(('\u{8}', 1)),
        b'f' => Some(('\u{c}', 1)),
        b'n' => Some(('\n', 1)),
        b'r' => Some(('\r', 1)),
        b't' => Some(('\t', 1)),
        _ => None,
    }
}

/// Returns the character of the escape whose digits are at the front, and its length with the `u`.
fn unicode_escape(bytes: &[u8]) -> Option<(char, usize)>
    ensures { result ≡ option_and_then (unit_escape bytes.now) (unit_at bytes.now) }
{
    let Some(unit) = unit(bytes) else {
        return None;
    };
    if is_first(unit) {
        return pair(unit, &bytes[4..]);
    }
    if is_second(unit) {
        return None;
    }
    match char::from_u32(unit) {
        Some(letter) => Some((letter, 5)),
        None => None,
    }
}

/// Returns whether a number is the first of a surrogate pair.
fn is_first(unit: u32) -> bool
    ensures { result ≡ is_high unit }
{
    unit >= 0xd800 && unit < 0xdc00
}

/// Returns whether a number is the second of a surrogate pair.
fn is_second(unit: u32) -> bool
    ensures { result ≡ is_low unit }
{
    unit >= 0xdc00 && unit < 0xe000
}

/// Returns the character of a surrogate pair whose second escape is at the front, and the length of
/// both escapes without the first backslash.
fn pair(high: u32, bytes: &[u8]) -> Option<(char, usize)>
    requires { is_high high ≡ true }
    ensures { result ≡ option_and_then (paired high) (next_unit bytes.now) }
{
    if bytes.len() < 2 || bytes[0] != b'\\' || bytes[1] != b'u' {
        return None;
    }
    let Some(low) = unit(&bytes[2..]) else {
        return None;
    };
    if !is_second(low) {
        return None;
    }
    match char::from_u32(0x10000 + (high - 0xd800) * 1024 + (low - 0xdc00)) {
        Some(letter) => Some((letter, 11)),
        None => None,
    }
}

/// Returns the number of the four hexadecimal digits at the front.
fn unit(bytes: &[u8]) -> Option<u32>
    ensures value { result ≡ unit_at bytes.now }
    ensures small { IfSome result (λ unit. unit < 0x10000) }
{
    if bytes.len() < 4 {
        return None;
    }
    let (Some(a), Some(b), Some(c), Some(d)) = (
        digit(bytes[0]),
        digit(bytes[1]),
        digit(bytes[2]),
        digit(bytes[3]),
    ) else {
        return None;
    };
    Some(a * 4096 + b * 256 + c * 16 + d)
}

/// Returns the value of a hexadecimal digit.
fn digit(byte: u8) -> Option<u32>
    ensures value { SomeIff result (digit_value byte < 16) (digit_value byte) }
{
    char::from(byte).to_digit(16)
}

/// Returns the canonical spelling of a text.
///
/// # Errors
/// `Syntax` with the position of a byte where no token continues; `OutOfMemory`.
pub(crate) fn spelling(alloc: Global, text: &str) -> Result<Vec<u8>, TextError>
    ensures spelled { IfOk result (λ bytes. spelled text.now ≡ Some bytes.items) }
    ensures refused { IfErr result (λ error.
        (error ≡ TextError.OutOfMemory) ⊎ (spelled text.now ≡ None)) }
    ensures limit { IfErr result (λ error. error ≢ TextError.Limit) }
    ensures place { IfErr result (IsOffsetWithin (length text.now)) }
{
    let bytes = text.as_bytes();
    let Ok(mut spelling) = Vec::with_capacity(alloc, bytes.len()) else {
        return Err(TextError::OutOfMemory);
    };
    let mut place = Place::Between;
    let mut skipped = 0;
    for (i, byte) in bytes.iter().enumerate() {
        if skipped > 0 {
            skipped -= 1;
            continue;
        }
        let rest = &bytes[i + 1..];
        let Some((next, count)) = place.next(*byte, rest) else {
            return Err(TextError::Syntax { at: i });
        };
        let Ok(()) = place.push(alloc, *byte, rest, &mut spelling) else {
            return Err(TextError::OutOfMemory);
        };
        place = next;
        skipped = count;
    }
    Ok(spelling)
}

/// Returns the position in `text` of the token that has byte `at` of the canonical spelling, or the
/// length of `text` if there is no such byte.
pub(crate) fn place_in(text: &str, at: usize) -> usize
    ensures { result ≤ length text.now }
{
    let bytes = text.as_bytes();
    let mut left = at;
    let mut place = Place::Between;
    let mut skipped = 0;
    for (i, byte) in bytes.iter().enumerate() {
        if skipped > 0 {
            skipped -= 1;
            continue;
        }
        let rest = &bytes[i + 1..];
        let Some((next, count)) = place.next(*byte, rest) else {
            return i;
        };
        let spelled = place.count_spelled(*byte, rest);
        if left < spelled {
            return i;
        }
        left -= spelled;
        place = next;
        skipped = count;
    }
    bytes.len()
}
