//! The notation of rows and of types, byte by byte: what the next byte of a text may be.

ghost use Rattle.std.specs.Prelude.{◌≡◌};
ghost use Rattle.sel_text.specs.Notation.{after_byte, after_comma, closes, closing, digit_byte, first_name_byte, first_value_byte, hex_byte_begins, is_last, is_lower, item_byte, kept, name_byte, opened, size_byte, size_comma_byte, size_digit_byte, value_byte};
ghost use Rattle.sel_text.specs.Tokens.{when};

use crate::spelling::is_white;
use crate::tokens::{TypeWord, Within, Word, if_between, if_byte};

/// What the next byte of a text may be, other than white space where a token may begin.
#[derive(Clone, Copy)]
pub(crate) enum Next {
    /// The opening bracket of the rows.
    Rows,
    /// A value, or the closing bracket.
    FirstValue,
    /// A value.
    Value,
    /// The name of a type, or the closing bracket.
    FirstName,
    /// The name of a type.
    Name,
    /// The opening bracket after `list`, `fixed` or `struct`.
    ListBracket,
    FixedBracket,
    StructBracket,
    /// The size of a fixed-size list.
    Size,
    /// A further digit of the size, or the comma after it.
    SizeDigit,
    /// The comma after the size.
    SizeComma,
    /// After a value or a type: a comma or the closing bracket, or the end if no bracket is open.
    After,
    /// The first digit of a negative number.
    Negative,
    /// A further digit of a number, or what follows it.
    Digit,
    /// The quote after `h`.
    HexQuote,
    /// The first digit of a byte in hexadecimal, or the closing quote.
    HexFirst,
    /// The second digit of a byte in hexadecimal.
    HexSecond,
    /// A further byte of a word of rows.
    Word(Word),
    /// A further byte of the name of a type.
    TypeWord(TypeWord),
    /// A further byte of a string.
    Quoted(Within),
}

/// An open bracket.
#[derive(Clone, Copy)]
pub(crate) enum Bracket {
    /// `[`, of the rows or of a list.
    Square,
    /// `(`, of a struct value.
    Round,
    /// `<`, of a type of lists, which has one child.
    Child,
    /// `<`, of a struct type, which has any number of fields.
    Fields,
}

/// What a byte does to the open brackets.
#[derive(Clone, Copy)]
pub(crate) enum Change {
    Keep,
    Open(Bracket),
    Close,
}

impl Bracket {
    /// Returns the closing bracket.
    fn closing(self) -> u8
        ensures { result ≡ closing self }
    {
        match self {
            Bracket::Square => b']',
            Bracket::Round => b')',
            Bracket::Child | Bracket::Fields => b'>',
        }
    }

    /// Returns what may follow a comma; `None` if there is only one item.
    fn comma(self) -> Option<(Next, Change)>
        ensures { result ≡ after_comma self }
    {
        match self {
            Bracket::Square | Bracket::Round => Some((Next::Value, Change::Keep)),
            Bracket::Child => None,
            Bracket::Fields => Some((Next::Name, Change::Keep)),
        }
    }
}

impl Next {
    /// Returns what may follow a byte, and what it does to the open brackets, of which `top` is the
    /// innermost one; `None` if no text goes on with it.
    pub(crate) fn after(self, top: Option<Bracket>, byte: u8) -> Option<(Next, Change)>
        ensures { result ≡ after_byte self top byte }
    {
        match self {
            Next::Rows => open_at(self, byte, b'[', Next::FirstValue, Bracket::Square),
            Next::FirstValue => first_value_at(top, byte),
            Next::Value => value_at(Next::Value, byte),
            Next::FirstName => first_name_at(top, byte),
            Next::Name => name_at(Next::Name, byte),
            Next::ListBracket => open_at(self, byte, b'<', Next::Name, Bracket::Child),
            Next::FixedBracket => open_at(self, byte, b'<', Next::Size, Bracket::Child),
            Next::StructBracket => open_at(self, byte, b'<', Next::FirstName, Bracket::Fields),
            Next::Size => size_at(byte),
            Next::SizeDigit => after_size_digit(byte),
            Next::SizeComma => after_size(byte),
            Next::After => after_item(top, byte),
            Next::Negative => inside(if_between(byte, b'1', b'9', Next::Digit)),
            Next::Digit => after_digit(top, byte),
            Next::HexQuote => inside(if_byte(byte, b'"', Next::HexFirst)),
            Next::HexFirst => inside(after_hexadecimal(byte)),
            Next::HexSecond => inside(if_lower(byte, Next::HexFirst)),
            Next::Word(word) => inside(word.next(byte)),
            Next::TypeWord(word) => inside(word.next(byte)),
            Next::Quoted(within) => inside(within.next(byte)),
        }
    }

    /// Returns whether a text may end here, if no bracket is open.
    pub(crate) fn ends(self) -> bool
        ensures { result ≡ is_last self }
    {
        matches!(self, Next::After)
    }
}

/// Returns what follows a byte inside of a token, which leaves the open brackets as they are.
fn inside(next: Option<Next>) -> Option<(Next, Change)>
    ensures { result ≡ kept next }
{
    match next {
        Some(next) => Some((next, Change::Keep)),
        None => None,
    }
}

/// Returns what follows the opening bracket `expected`, or white space before it.
fn open_at(
    before: Next,
    byte: u8,
    expected: u8,
    next: Next,
    bracket: Bracket,
) -> Option<(Next, Change)>
    ensures { result ≡ opened before byte expected next bracket }
{
    if is_white(byte) {
        Some((before, Change::Keep))
    } else if byte == expected {
        Some((next, Change::Open(bracket)))
    } else {
        None
    }
}

/// Returns whether a byte is the closing bracket of the innermost open bracket.
fn is_closing(top: Option<Bracket>, byte: u8) -> bool
    ensures { result ≡ closes top byte }
{
    match top {
        Some(bracket) => byte == bracket.closing(),
        None => false,
    }
}

/// Returns what follows a byte after an opening bracket of values.
fn first_value_at(top: Option<Bracket>, byte: u8) -> Option<(Next, Change)>
    ensures { result ≡ first_value_byte top byte }
{
    if is_closing(top, byte) {
        Some((Next::After, Change::Close))
    } else {
        value_at(Next::FirstValue, byte)
    }
}

/// Returns what follows the first byte of a value, or white space before it.
fn value_at(before: Next, byte: u8) -> Option<(Next, Change)>
    ensures { result ≡ value_byte before byte }
{
    match byte {
        b' ' | b'\t' | b'\n' | b'\r' => Some((before, Change::Keep)),
        b'[' => Some((Next::FirstValue, Change::Open(Bracket::Square))),
        b'(' => Some((Next::FirstValue, Change::Open(Bracket::Round))),
        b'n' => Some((Next::Word(Word::N), Change::Keep)),
        b't' => Some((Next::Word(Word::T), Change::Keep)),
        b'f' => Some((Next::Word(Word::F), Change::Keep)),
        b'h' => Some((Next::HexQuote, Change::Keep)),
        b'"' => Some((Next::Quoted(Within::Text), Change::Keep)),
        b'-' => Some((Next::Negative, Change::Keep)),
        b'0' => Some((Next::After, Change::Keep)),
        b'1'..=b'9' => Some((Next::Digit, Change::Keep)),
        _ => None,
    }
}

/// Returns what follows a byte after the opening bracket of the fields of a struct type.
fn first_name_at(top: Option<Bracket>, byte: u8) -> Option<(Next, Change)>
    ensures { result ≡ first_name_byte top byte }
{
    if is_closing(top, byte) {
        Some((Next::After, Change::Close))
    } else {
        name_at(Next::FirstName, byte)
    }
}

/// Returns what follows the first byte of the name of a type, or white space before it.
fn name_at(before: Next, byte: u8) -> Option<(Next, Change)>
    ensures { result ≡ name_byte before byte }
{
    match byte {
        b' ' | b'\t' | b'\n' | b'\r' => Some((before, Change::Keep)),
        b'b' => Some((Next::TypeWord(TypeWord::B), Change::Keep)),
        b'f' => Some((Next::TypeWord(TypeWord::F), Change::Keep)),
        b'i' => Some((Next::TypeWord(TypeWord::I), Change::Keep)),
        b'l' => Some((Next::TypeWord(TypeWord::L), Change::Keep)),
        b'n' => Some((Next::Word(Word::N), Change::Keep)),
        b's' => Some((Next::TypeWord(TypeWord::S), Change::Keep)),
        b'u' => Some((Next::TypeWord(TypeWord::U), Change::Keep)),
        _ => None,
    }
}

/// Returns what follows the first digit of the size of a fixed-size list, or white space before it.
fn size_at(byte: u8) -> Option<(Next, Change)>
    ensures { result ≡ size_byte byte }
{
    match byte {
        b' ' | b'\t' | b'\n' | b'\r' => Some((Next::Size, Change::Keep)),
        b'0' => Some((Next::SizeComma, Change::Keep)),
        b'1'..=b'9' => Some((Next::SizeDigit, Change::Keep)),
        _ => None,
    }
}

/// Returns what follows a further digit of such a size, or a byte after it.
fn after_size_digit(byte: u8) -> Option<(Next, Change)>
    ensures { result ≡ size_digit_byte byte }
{
    match byte {
        b'0'..=b'9' => Some((Next::SizeDigit, Change::Keep)),
        _ => after_size(byte),
    }
}

/// Returns what follows the comma after such a size, or white space before it.
fn after_size(byte: u8) -> Option<(Next, Change)>
    ensures { result ≡ size_comma_byte byte }
{
    match byte {
        b' ' | b'\t' | b'\n' | b'\r' => Some((Next::SizeComma, Change::Keep)),
        b',' => Some((Next::Name, Change::Keep)),
        _ => None,
    }
}

/// Returns what follows a further digit of a number, or a byte after it.
fn after_digit(top: Option<Bracket>, byte: u8) -> Option<(Next, Change)>
    ensures { result ≡ digit_byte top byte }
{
    match byte {
        b'0'..=b'9' => Some((Next::Digit, Change::Keep)),
        _ => after_item(top, byte),
    }
}

/// Returns what follows a byte after a value or a type.
fn after_item(top: Option<Bracket>, byte: u8) -> Option<(Next, Change)>
    ensures { result ≡ item_byte top byte }
{
    if is_white(byte) {
        return Some((Next::After, Change::Keep));
    }
    if is_closing(top, byte) {
        return Some((Next::After, Change::Close));
    }
    match top {
        Some(bracket) if byte == b',' => bracket.comma(),
        _ => None,
    }
}

/// Returns what follows the first digit of a byte in hexadecimal, or the closing quote.
fn after_hexadecimal(byte: u8) -> Option<Next>
    ensures { result ≡ hex_byte_begins byte }
{
    match byte {
        b'"' => Some(Next::After),
        _ => if_lower(byte, Next::HexSecond),
    }
}

/// Returns `next` if a byte is a hexadecimal digit in lower case.
fn if_lower(byte: u8, next: Next) -> Option<Next>
    ensures { result ≡ when (is_lower byte) next }
{
    match byte {
        b'0'..=b'9' | b'a'..=b'f' => Some(next),
        _ => None,
    }
}
