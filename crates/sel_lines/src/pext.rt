//! The command `pext V M`.
ghost use Rattle.std.specs.Prelude.{◌≡◌, IfOk, map, option_map, string_bytes};
ghost use Rattle.std.specs.List.{list_all};
ghost use Rattle.sel_lines.specs.Pext.{is_hex_digit, is_hex_word, word_of_hex, pext_words};

use sel_kernels::filter::boolean::pext64_polyfill;
use std::alloc::{AllocError, Global};

const MOST_DIGITS: usize = 16;

/// Returns the output of `pext` for `words`, or `None` if they are invalid.
///
/// # Errors
/// `AllocError` if an allocation fails.
pub fn answer_pext(alloc: Global, words: &[&str]) -> Result<Option<String>, AllocError>
    ensures { IfOk result (λ answer.
        option_map string_bytes answer ≡ pext_words (map (λ word. word.now) words.now)) }
{
    if words.len() != 2 {
        return Ok(None);
    }
    let Some(value) = parse_hex(words[0]) else {
        return Ok(None);
    };
    let Some(mask) = parse_hex(words[1]) else {
        return Ok(None);
    };
    let packed = pext64_polyfill(value, mask, mask.count_ones());
    Ok(Some(format!(in alloc; "{packed:x}")?))
}

// Parses hexadecimal digits as a 64-bit integer.
#[tactic(auto, using(crate::proofs::Hex::hex_parsed, crate::proofs::Hex::hex_refused))]
fn parse_hex(word: &str) -> Option<u64>
    ensures { result ≡ word_of_hex word.now }
{
    if is_hex(word) {
        u64::from_str_radix(word, 16).ok()
    } else {
        None
    }
}

// Returns whether the word is 1 to 16 lower-case hexadecimal digits; `from_str_radix` accepts more:
// signs and upper-case digits.
fn is_hex(word: &str) -> bool
    ensures { result ≡ is_hex_word word.now }
{
    !word.is_empty() && word.len() <= MOST_DIGITS && has_hex_digits(word.as_bytes())
}

fn has_hex_digits(bytes: &[u8]) -> bool
    ensures { result ≡ list_all is_hex_digit bytes.now }
{
    bytes
        .iter()
        .all(|byte| matches!(*byte, b'0'..=b'9' | b'a'..=b'f'))
}
