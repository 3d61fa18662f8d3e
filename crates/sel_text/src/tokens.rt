//! The bytes inside of words, of names of types and of strings.

ghost use Rattle.std.specs.Prelude.{◌≡◌, ◌==◌};
ghost use Rattle.sel_text.specs.Tokens.{after_name_byte, after_string_byte, after_word_byte, b_byte, bin_byte, escape_byte, i1_byte, i_byte, is_between, is_hexadecimal, low_first_byte, low_second_byte, text_byte, u_byte, unit_first_byte, unit_second_byte, when};

use crate::notation::Next;

/// The bytes so far of a word of rows.
#[derive(Clone, Copy)]
pub(crate) enum Word {
    N,
    Nu,
    Nul,
    T,
    Tr,
    Tru,
    F,
    Fa,
    Fal,
    Fals,
}

impl Word {
    /// Returns what may follow a further byte, or `None` if the word does not go on with it.
    pub(crate) fn next(self, byte: u8) -> Option<Next>
        ensures { result ≡ after_word_byte self byte }
    {
        match self {
            Word::N => if_byte(byte, b'u', Next::Word(Word::Nu)),
            Word::Nu => if_byte(byte, b'l', Next::Word(Word::Nul)),
            Word::Nul => if_byte(byte, b'l', Next::After),
            Word::T => if_byte(byte, b'r', Next::Word(Word::Tr)),
            Word::Tr => if_byte(byte, b'u', Next::Word(Word::Tru)),
            Word::Tru => if_byte(byte, b'e', Next::After),
            Word::F => if_byte(byte, b'a', Next::Word(Word::Fa)),
            Word::Fa => if_byte(byte, b'l', Next::Word(Word::Fal)),
            Word::Fal => if_byte(byte, b's', Next::Word(Word::Fals)),
            Word::Fals => if_byte(byte, b'e', Next::After),
        }
    }
}

/// The bytes so far of the name of a type.
#[derive(Clone, Copy)]
pub(crate) enum TypeWord {
    B,
    Bo,
    Boo,
    Bi,
    Bin,
    Bina,
    Binar,
    Binv,
    Binvi,
    Binvie,
    F,
    Fi,
    Fix,
    Fixe,
    I,
    I1,
    I12,
    I3,
    I6,
    L,
    Li,
    Lis,
    S,
    St,
    Str,
    Stru,
    Struc,
    U,
    Ut,
    Utf,
}

impl TypeWord {
    /// Returns what may follow a further byte, or `None` if no name goes on with it.
    pub(crate) fn next(self, byte: u8) -> Option<Next>
        ensures { result ≡ after_name_byte self byte }
    {
        match self {
            TypeWord::B => after_b(byte),
            TypeWord::Bin => after_bin(byte),
            TypeWord::I => after_i(byte),
            TypeWord::I1 => after_i1(byte),
            TypeWord::U => after_u(byte),
            TypeWord::Bo => if_byte(byte, b'o', Next::TypeWord(TypeWord::Boo)),
            TypeWord::Boo => if_byte(byte, b'l', Next::After),
            TypeWord::Bi => if_byte(byte, b'n', Next::TypeWord(TypeWord::Bin)),
            TypeWord::Bina => if_byte(byte, b'r', Next::TypeWord(TypeWord::Binar)),
            TypeWord::Binar => if_byte(byte, b'y', Next::After),
            TypeWord::Binv => if_byte(byte, b'i', Next::TypeWord(TypeWord::Binvi)),
            TypeWord::Binvi => if_byte(byte, b'e', Next::TypeWord(TypeWord::Binvie)),
            TypeWord::Binvie => if_byte(byte, b'w', Next::After),
            TypeWord::F => if_byte(byte, b'i', Next::TypeWord(TypeWord::Fi)),
            TypeWord::Fi => if_byte(byte, b'x', Next::TypeWord(TypeWord::Fix)),
            TypeWord::Fix => if_byte(byte, b'e', Next::TypeWord(TypeWord::Fixe)),
            TypeWord::Fixe => if_byte(byte, b'd', Next::FixedBracket),
            TypeWord::I12 => if_byte(byte, b'8', Next::After),
            TypeWord::I3 => if_byte(byte, b'2', Next::After),
            TypeWord::I6 => if_byte(byte, b'4', Next::After),
            TypeWord::L => if_byte(byte, b'i', Next::TypeWord(TypeWord::Li)),
            TypeWord::Li => if_byte(byte, b's', Next::TypeWord(TypeWord::Lis)),
            TypeWord::Lis => if_byte(byte, b't', Next::ListBracket),
            TypeWord::S => if_byte(byte, b't', Next::TypeWord(TypeWord::St)),
            TypeWord::St => if_byte(byte, b'r', Next::TypeWord(TypeWord::Str)),
            TypeWord::Str => if_byte(byte, b'u', Next::TypeWord(TypeWord::Stru)),
            TypeWord::Stru => if_byte(byte, b'c', Next::TypeWord(TypeWord::Struc)),
            TypeWord::Struc => if_byte(byte, b't', Next::StructBracket),
            TypeWord::Ut => if_byte(byte, b'f', Next::TypeWord(TypeWord::Utf)),
            TypeWord::Utf => if_byte(byte, b'8', Next::After),
        }
    }
}

/// Returns what may follow the byte after `b` in the name of a type.
fn after_b(byte: u8) -> Option<Next>
    ensures { result ≡ b_byte byte }
{
    match byte {
        b'o' => Some(Next::TypeWord(TypeWord::Bo)),
        b'i' => Some(Next::TypeWord(TypeWord::Bi)),
        _ => None,
    }
}

/// Returns what may follow the byte after `bin`.
fn after_bin(byte: u8) -> Option<Next>
    ensures { result ≡ bin_byte byte }
{
    match byte {
        b'a' => Some(Next::TypeWord(TypeWord::Bina)),
        b'v' => Some(Next::TypeWord(TypeWord::Binv)),
        _ => None,
    }
}

/// Returns what may follow the byte after `i`.
fn after_i(byte: u8) -> Option<Next>
    ensures { result ≡ i_byte byte }
{
    match byte {
        b'8' => Some(Next::After),
        b'1' => Some(Next::TypeWord(TypeWord::I1)),
        b'3' => Some(Next::TypeWord(TypeWord::I3)),
        b'6' => Some(Next::TypeWord(TypeWord::I6)),
        _ => None,
    }
}

/// Returns what may follow the byte after `i1` or `u1`.
fn after_i1(byte: u8) -> Option<Next>
    ensures { result ≡ i1_byte byte }
{
    match byte {
        b'6' => Some(Next::After),
        b'2' => Some(Next::TypeWord(TypeWord::I12)),
        _ => None,
    }
}

/// Returns what may follow the byte after `u`.
fn after_u(byte: u8) -> Option<Next>
    ensures { result ≡ u_byte byte }
{
    match byte {
        b't' => Some(Next::TypeWord(TypeWord::Ut)),
        _ => after_i(byte),
    }
}

/// Returns `next` if a byte is the expected one.
pub(crate) fn if_byte(byte: u8, expected: u8, next: Next) -> Option<Next>
    ensures { result ≡ when (byte == expected) next }
{
    if byte == expected { Some(next) } else { None }
}

/// What the next byte of a string may be.
#[derive(Clone, Copy)]
pub(crate) enum Within {
    /// A character, an escape, or the closing quote.
    Text,
    /// The letter of an escape.
    Escape,
    /// The first digit of a `\u` escape.
    UnitFirst,
    /// The second digit of a `\u` escape that begins with `d`.
    UnitSecond,
    /// One of the last three, two or one digits of a `\u` escape.
    LastThree,
    LastTwo,
    LastOne,
    /// One of the last two digits, or the last one, of the first escape of a surrogate pair.
    HighTwo,
    HighOne,
    /// The backslash, the `u`, and the first two digits of the second escape of a pair.
    LowBackslash,
    LowLetter,
    LowFirst,
    LowSecond,
    /// The last byte, or one of the last two or three bytes, of a character.
    ByteOne,
    ByteTwo,
    ByteThree,
    /// The second byte of a character, after a first byte that permits only some.
    AfterE0,
    AfterEd,
    AfterF0,
    AfterF4,
}

impl Within {
    /// Returns what may follow a further byte, or `None` if no string goes on with it.
    pub(crate) fn next(self, byte: u8) -> Option<Next>
        ensures { result ≡ after_string_byte self byte }
    {
        match self {
            Within::Text => after_text(byte),
            Within::Escape => after_backslash(byte),
            Within::UnitFirst => after_unit_first(byte),
            Within::UnitSecond => after_unit_second(byte),
            Within::LastThree => if_hexadecimal(byte, Next::Quoted(Within::LastTwo)),
            Within::LastTwo => if_hexadecimal(byte, Next::Quoted(Within::LastOne)),
            Within::LastOne => if_hexadecimal(byte, Next::Quoted(Within::Text)),
            Within::HighTwo => if_hexadecimal(byte, Next::Quoted(Within::HighOne)),
            Within::HighOne => if_hexadecimal(byte, Next::Quoted(Within::LowBackslash)),
            Within::LowBackslash => if_byte(byte, b'\\', Next::Quoted(Within::LowLetter)),
            Within::LowLetter => if_byte(byte, b'u', Next::Quoted(Within::LowFirst)),
            Within::LowFirst => after_low_first(byte),
            Within::LowSecond => after_low_second(byte),
            Within::ByteOne => if_between(byte, 0x80, 0xbf, Next::Quoted(Within::Text)),
            Within::ByteTwo => if_between(byte, 0x80, 0xbf, Next::Quoted(Within::ByteOne)),
            Within::ByteThree => if_between(byte, 0x80, 0xbf, Next::Quoted(Within::ByteTwo)),
            Within::AfterE0 => if_between(byte, 0xa0, 0xbf, Next::Quoted(Within::ByteOne)),
            Within::AfterEd => if_between(byte, 0x80, 0x9f, Next::Quoted(Within::ByteOne)),
            Within::AfterF0 => if_between(byte, 0x90, 0xbf, Next::Quoted(Within::ByteTwo)),
            Within::AfterF4 => if_between(byte, 0x80, 0x8f, Next::Quoted(Within::ByteTwo)),
        }
    }
}

/// Returns `next` if a byte is `low` to `high`.
pub(crate) fn if_between(byte: u8, low: u8, high: u8, next: Next) -> Option<Next>
    ensures { result ≡ when (is_between byte low high) next }
{
    if byte >= low && byte <= high {
        Some(next)
    } else {
        None
    }
}

/// Returns `next` if a byte is a hexadecimal digit, of either case.
fn if_hexadecimal(byte: u8, next: Next) -> Option<Next>
    ensures { result ≡ when (is_hexadecimal byte) next }
{
    match byte {
        b'0'..=b'9' | b'a'..=b'f' | b'A'..=b'F' => Some(next),
        _ => None,
    }
}

/// Returns what may follow a byte between quotes.
fn after_text(byte: u8) -> Option<Next>
    ensures { result ≡ text_byte byte }
{
    match byte {
        b'"' => Some(Next::After),
        b'\\' => Some(Next::Quoted(Within::Escape)),
        0x20..=0x7f => Some(Next::Quoted(Within::Text)),
        0xc2..=0xdf => Some(Next::Quoted(Within::ByteOne)),
        0xe0 => Some(Next::Quoted(Within::AfterE0)),
        0xed => Some(Next::Quoted(Within::AfterEd)),
        0xe1..=0xef => Some(Next::Quoted(Within::ByteTwo)),
        0xf0 => Some(Next::Quoted(Within::AfterF0)),
        0xf1..=0xf3 => Some(Next::Quoted(Within::ByteThree)),
        0xf4 => Some(Next::Quoted(Within::AfterF4)),
        _ => None,
    }
}

/// Returns what may follow the byte after a backslash.
fn after_backslash(byte: u8) -> Option<Next>
    ensures { result ≡ escape_byte byte }
{
    match byte {
        b'"' | b'\\' | b'/' | b'b' | b'f' | b'n' | b'r' | b't' => {
            Some(Next::Quoted(Within::Text))
        }
        b'u' => Some(Next::Quoted(Within::UnitFirst)),
        _ => None,
    }
}

/// Returns what may follow the first digit of a `\u` escape: a surrogate begins with `d`.
fn after_unit_first(byte: u8) -> Option<Next>
    ensures { result ≡ unit_first_byte byte }
{
    match byte {
        b'd' | b'D' => Some(Next::Quoted(Within::UnitSecond)),
        _ => if_hexadecimal(byte, Next::Quoted(Within::LastThree)),
    }
}

/// Returns what may follow the second digit of a `\u` escape that begins with `d`: after 8 to b the
/// second escape of a pair is needed, and c to f begin no escape alone.
fn after_unit_second(byte: u8) -> Option<Next>
    ensures { result ≡ unit_second_byte byte }
{
    match byte {
        b'0'..=b'7' => Some(Next::Quoted(Within::LastTwo)),
        b'8' | b'9' | b'a' | b'b' | b'A' | b'B' => Some(Next::Quoted(Within::HighTwo)),
        _ => None,
    }
}

/// Returns what may follow the first digit of the second escape of a pair.
fn after_low_first(byte: u8) -> Option<Next>
    ensures { result ≡ low_first_byte byte }
{
    match byte {
        b'd' | b'D' => Some(Next::Quoted(Within::LowSecond)),
        _ => None,
    }
}

/// Returns what may follow the second digit of the second escape of a pair.
fn after_low_second(byte: u8) -> Option<Next>
    ensures { result ≡ low_second_byte byte }
{
    match byte {
        b'c'..=b'f' | b'C'..=b'F' => Some(Next::Quoted(Within::LastTwo)),
        _ => None,
    }
}
