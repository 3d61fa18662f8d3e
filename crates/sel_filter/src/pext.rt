//! Parallel bit extract: the bits of a word selected by a mask, packed from bit 0.

ghost use Rattle.std.specs.Prelude.{◌≡◌, ℕ, ◌%◌, ◌<◌, ◌≤◌, count_ones};
ghost use Rattle.std.specs.Int.{bit_at};
ghost use Rattle.sel_bits.specs.Words.{ones_below};
ghost use Rattle.sel_filter.specs.Compress.{compress};

use sel_bits::moving_word::MovingWord;
use sel_bits::number::prefix_xorsum;

/// The largest number of set mask bits that are read one by one.
const FEW_BITS: u32 = 4;

/// Returns the bits of `v` where `m` has a set bit, packed from bit 0 and followed by zeros.
///
/// # Requires
/// `m_popcnt` is the number of set bits of `m`.
#[tactic(auto, using(crate::proofs::Shortcuts::shortcuts))]
pub fn pext64_polyfill(v: u64, m: u64, m_popcnt: u32) -> u64
    requires { m_popcnt ≡ count_ones m }
    ensures { result ≡ compress v m }
{
    if m_popcnt <= FEW_BITS {
        return pext64_few(v, m);
    }
    let kept = v & m;
    if kept == 0 {
        return 0;
    }
    if kept == m {
        return u64::MAX >> (64 - m_popcnt);
    }
    let mut word = MovingWord::new(v);
    pext64_rounds(&mut word, m);
    word.word()
}

/// Replaces the word by its bits where `m` has a set bit, packed from bit 0, in at most six moves.
///
/// The remaining bits are zero. Each kept bit must move down by the number of clear mask bits below
/// it. Round i moves it down by `2^i` if the number of whole blocks of `2^i` clear bits below it is
/// odd; `blocks` has one set bit for each such block.
///
/// # Requires
/// The word has not been moved or changed.
pub fn pext64_rounds(word: &mut MovingWord, m: u64)
    requires unmoved { word.old.moves ≡ 0 }
    requires whole { word.old.word ≡ word.old.source }
    ensures compressed { word.new.word ≡ compress word.old.source m }
    ensures moves { word.new.moves ≤ 6 }
    ensures source { word.new.source ≡ word.old.source }
{
    word.keep(m);
    let mut blocks = !m;
    for i in 0u32..6 {
        let odd = if i < 5 {
            prefix_xorsum(blocks)
        } else {
            above_single(blocks)
        };
        word.move_down(odd, 1u32 << i);
        blocks &= odd;
    }
}

/// Returns the bits above the set bit of a word with at most one set bit, or 0 without one.
fn above_single(x: u64) -> u64
    ensures { ones_below x 64 ≤ 1 → (p : ℕ) → p < 64 → bit_at result p ≡
        ones_below x p % 2 }
{
    x.wrapping_neg() << 1
}

/// Returns the bits of `v` where `m` has a set bit, packed from bit 0, one set bit at a time.
#[tactic(auto, using(crate::proofs::Few::few_steps))]
#[inline]
pub(crate) fn pext64_few(v: u64, m: u64) -> u64
    ensures { result ≡ compress v m }
{
    let mut packed = 0u64;
    let mut place = 0u32;
    let mut marks = m;
    while marks != 0 {
        let bit = (v >> marks.trailing_zeros()) & 1;
        packed |= bit << place;
        place += 1;
        marks &= marks - 1;
    }
    packed
}
