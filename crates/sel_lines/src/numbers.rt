//! Parsing of integers and booleans.
ghost use Rattle.std.specs.Prelude.{◌≡◌, ℕ, pos, List, Option, option_map, Decides};
ghost use Rattle.sel_arrow.specs.Value.{Value, Number, Truth};
ghost use Rattle.sel_lines.specs.Numbers.{number_of, index_of, size_of, truth_of};
ghost use Rattle.sel_lines.specs.Parts.{HasOneSpelling};

/// A value of a non-null row.
pub trait Item: Copy {
    /// The value that a word is parsed to.
    ghost value_of: { List ℕ → Option Value };

    /// The value of an item.
    ghost shown: { Self → Value };

    /// The item in null slots.
    const BENEATH_NULL: Self;

    /// Parses an item, or returns `None` if `word` is invalid.
    fn parse(word: &str) -> Option<Self>
        ensures { option_map shown result ≡ value_of word.now };
}

impl Item for i64 {
    ghost value_of = { number_of };

    ghost shown = { Number };

    const BENEATH_NULL: i64 = 0;

    #[tactic(auto, using(crate::proofs::Printed::integer_parsed, crate::proofs::Printed::integer_refused))]
    fn parse(word: &str) -> Option<i64> {
        if has_one_spelling(word) {
            word.parse::<i64>().ok()
        } else {
            None
        }
    }
}

impl Item for u32 {
    ghost value_of = { index_of };

    ghost shown = { λ n. Number (pos n) };

    const BENEATH_NULL: u32 = 0;

    #[tactic(auto, using(crate::proofs::Printed::unsigned_parsed, crate::proofs::Printed::unsigned_refused))]
    fn parse(word: &str) -> Option<u32> {
        if has_one_spelling(word) {
            word.parse::<u32>().ok()
        } else {
            None
        }
    }
}

impl Item for bool {
    ghost value_of = { truth_of };

    ghost shown = { Truth };

    const BENEATH_NULL: bool = false;

    #[tactic(auto, unfolding(crate::specs::Numbers::truth_of))]
    fn parse(word: &str) -> Option<bool> {
        match word.as_bytes() {
            [b't'] => Some(true),
            [b'f'] => Some(false),
            _ => None,
        }
    }
}

/// Parses an unsigned 64-bit integer, or returns `None` if `word` is invalid.
#[tactic(auto, using(crate::proofs::Printed::unsigned_parsed, crate::proofs::Printed::unsigned_refused))]
pub fn parse_size(word: &str) -> Option<usize>
    ensures { result ≡ size_of word.now }
{
    if has_one_spelling(word) {
        word.parse::<usize>().ok()
    } else {
        None
    }
}

// Returns whether the word has no plus sign, no leading zero and no zero after a minus sign.
// `parse` accepts these, and formatting never produces them.
fn has_one_spelling(word: &str) -> bool
    ensures { Decides result (HasOneSpelling word.now) }
{
    match word.as_bytes() {
        [b'+', ..] | [b'-', b'0', ..] | [b'0', _, ..] => false,
        _ => true,
    }
}
