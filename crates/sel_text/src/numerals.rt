//! Tokens and unsigned integers at the front of the input.

ghost use Rattle.std.specs.Prelude.{◌≡◌, ◌≢◌, ◌≤◌, ◌<◌, ◌++◌, ◌^◌, ℕ, List, MatchOption, IfOk, IfErr, length, take, drop, slice_index};
ghost use Rattle.std.specs.Fmt.{decimal};
ghost use Rattle.std.specs.Str.Parse.{AllDigits, digits_value};
ghost use Rattle.sel_text.specs.Digits.{NoDigit};

use crate::text_error::Fault;

/// Returns the input after `word`, or `None` if it does not start with `word`.
pub(crate) fn behind<'a>(bytes: &'a [u8], word: &[u8]) -> Option<&'a [u8]>
    ensures { MatchOption result ((more : List ℕ) → bytes.now ≢ word.now ++ more)
        (λ rest. bytes.now ≡ word.now ++ rest.now) }
{
    bytes.strip_prefix(word)
}

/// Returns the input after `word`.
///
/// # Errors
/// `Syntax` if the input does not start with `word`.
pub(crate) fn expect<'a>(bytes: &'a [u8], word: &[u8]) -> Result<&'a [u8], Fault>
    ensures rest { IfOk result (λ rest. bytes.now ≡ word.now ++ rest.now) }
    ensures refused { IfErr result (λ _. (more : List ℕ) → bytes.now ≢ word.now ++ more) }
{
    match behind(bytes, word) {
        Some(rest) => Ok(rest),
        None => Err(Fault::Syntax(bytes.len())),
    }
}

/// Returns the digits at the front and the rest of the input.
///
/// # Errors
/// `Syntax` if there is no digit, or if a leading zero is followed by a digit.
#[tactic(auto, using(crate::proofs::Ends::no_numeral, crate::proofs::Ends::zero_first))]
pub(crate) fn read_digits(bytes: &[u8]) -> Result<(&[u8], &[u8]), Fault>
    ensures parts { IfOk result (λ read. bytes.now ≡ read.0.now ++ read.1.now) }
    ensures some { IfOk result (λ read. 0 < length read.0.now) }
    ensures digits { IfOk result (λ read. AllDigits 10 read.0.now) }
    ensures zero { IfOk result (λ read.
        slice_index read.0.now 0 ≡ 48 → length read.0.now ≡ 1) }
    ensures end { IfOk result (λ read. NoDigit read.1.now) }
    ensures refused { IfErr result (λ _. (n : ℕ) (more : List ℕ) → n < 2 ^ 128 →
        NoDigit more → bytes.now ≢ decimal n ++ more) }
{
    let count = count_digits(bytes);
    if count == 0 {
        return Err(Fault::Syntax(bytes.len()));
    }
    if count > 1 {
        if bytes[0] == b'0' {
            return Err(Fault::Syntax(bytes.len() - 1));
        }
    }
    Ok(bytes.split_at(count))
}

/// Returns the number of digits at the front.
#[tactic(auto, using(crate::proofs::Decimals::all_digits))]
fn count_digits(bytes: &[u8]) -> usize
    ensures inside { result ≤ length bytes.now }
    ensures digits { AllDigits 10 (take result bytes.now) }
    ensures end { NoDigit (drop result bytes.now) }
{
    for (i, byte) in bytes.iter().enumerate() {
        if !byte.is_ascii_digit() {
            return i;
        }
    }
    bytes.len()
}

/// Returns the value of the digits, or `None` if it does not fit in 128 bits.
#[tactic(auto, using(crate::proofs::Decimals::digits_more))]
pub(crate) fn number_of(digits: &[u8]) -> Option<u128>
    requires { AllDigits 10 digits.now }
    ensures { MatchOption result (2 ^ 128 ≤ digits_value 10 digits.now)
        (λ number. number ≡ digits_value 10 digits.now) }
{
    let mut number: u128 = 0;
    for digit in digits {
        let value = u128::from(*digit - b'0');
        let Some(tenfold) = number.checked_mul(10) else {
            return None;
        };
        let Some(next) = tenfold.checked_add(value) else {
            return None;
        };
        number = next;
    }
    Some(number)
}
