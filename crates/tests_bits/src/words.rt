//! The bits of a word under a mask, compared with an extraction bit by bit.

use sel_bits::moving_word::MovingWord;
use sel_filter::boolean::{pext64_polyfill, pext64_rounds};

/// Extracts the bits of `v` where `m` has a set bit, one by one from the lowest on.
fn extracted(v: u64, m: u64) -> u64 {
    let mut bits = 0;
    let mut place = 0u32;
    for i in 0..64u32 {
        if (m >> i) & 1 == 1 && place < 64 {
            bits |= ((v >> i) & 1) << place;
            place += 1;
        }
    }
    bits
}

/// Returns the result of the rounds for `v` under `m`; `None` if they take more than six moves or
/// change the source.
fn by_rounds(v: u64, m: u64) -> Option<u64> {
    let mut word = MovingWord::new(v);
    pext64_rounds(&mut word, m);
    if word.source() == v && word.moves() <= 6 {
        Some(word.word())
    } else {
        None
    }
}

#[test]
fn moving_word_of_single_bit(rt: HostRuntime) {
    assert!(rt; by_rounds(0x80, 0x80) == Some(1));
    assert!(rt; by_rounds(0x80, 0) == Some(0));
}

/// Returns whether a moving word keeps and moves the bits under its masks, and counts the move.
fn moves_once() -> bool {
    let mut word = MovingWord::new(0b1101_0110);
    word.keep(0b1111_0000);
    let kept = word.word();
    word.move_down(0b0101_0000, 3);
    (word.source(), kept, word.word(), word.moves()) == (0b1101_0110, 0b1101_0000, 0b1000_1010, 1)
}

#[test]
fn moving_word_counts_moves(rt: HostRuntime) {
    assert!(rt; moves_once());
}

/// Returns whether both functions return the bits that are extracted one by one.
fn agrees(v: u64, m: u64) -> bool {
    let bits = extracted(v, m);
    by_rounds(v, m) == Some(bits) && pext64_polyfill(v, m, m.count_ones()) == bits
}

/// Returns the `count` lowest set bits of a word; all of them if it has fewer.
fn lowest_bits(word: u64, count: u32) -> u64 {
    let mut rest = word;
    for _ in 0..count {
        rest &= rest.wrapping_sub(1);
    }
    word ^ rest
}

/// Returns whether both functions are right for these words: `x` under `y`, under no bits, under
/// all bits and under the `count` lowest bits of `y`; no bits and all bits under `y`.
fn agrees_for(x: u64, y: u64, count: u32) -> bool {
    agrees(x, y)
        && agrees(x, 0)
        && agrees(x, u64::MAX)
        && agrees(x, lowest_bits(y, count))
        && agrees(0, y)
        && agrees(u64::MAX, y)
}

/// Returns the word that follows another one in the sequence.
fn after(x: u64) -> u64 {
    x.wrapping_mul(6364136223846793005)
        .wrapping_add(1442695040888963407)
}

#[test]
fn pext_equals_extraction_for_100_pairs(rt: HostRuntime) {
    let mut x = 1;
    for n in 0..100u32 {
        let v = after(x);
        let m = after(v);
        assert!(rt; agrees_for(v, m, n % 9));
        x = m;
    }
}
