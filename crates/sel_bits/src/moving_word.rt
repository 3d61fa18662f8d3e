//! A word with counted shifts of its bits.

ghost use Rattle.std.specs.Prelude.{◌≡◌, ◌<◌};
ghost use Rattle.sel_bits.specs.Moving.{kept_under, moved_down};

use std::marker::Model;

/// A word that changes only by masks and counted shifts, with the word that it started from.
///
/// Contract model: both words and the number of shifts.
#[derive(Drop)]
pub struct MovingWord {
    source: u64,
    word: u64,
    moves: u64,
}

impl Model for MovingWord {
    ghost use Rattle.sel_bits.specs.Moving.{Moving};

    ghost Value = { Moving };

    ghost view = { λ m. record { source = m.source; word = m.word; moves = m.moves } };
}

impl MovingWord {
    /// Returns this word, with no shifts.
    pub fn new(v: u64) -> MovingWord
        ensures { result ≡ record { source = v; word = v; moves = 0 } }
    {
        MovingWord {
            source: v,
            word: v,
            moves: 0,
        }
    }

    /// Returns the word that it started from.
    pub fn source(&self) -> u64
        ensures { result ≡ self.now.source }
    {
        self.source
    }

    /// Returns the current word.
    pub fn word(&self) -> u64
        ensures { result ≡ self.now.word }
    {
        self.word
    }

    /// Returns the number of shifts.
    pub fn moves(&self) -> u64
        ensures { result ≡ self.now.moves }
    {
        self.moves
    }

    /// Clears the bits that are not set in `m`. Not counted as a shift.
    pub fn keep(&mut self, m: u64)
        ensures { self.new ≡ kept_under self.old m }
    {
        self.word &= m;
    }

    /// Shifts the bits selected by `under` right by `by`, and ORs them with the other bits; bits
    /// shifted out are lost. Counted as one shift.
    ///
    /// # Requires
    /// `by` is less than 64, and the number of shifts is less than 2^64 - 1.
    pub fn move_down(&mut self, under: u64, by: u32)
        requires by { by < 64 }
        requires moves { self.old.moves < 18446744073709551615 }
        ensures { self.new ≡ moved_down self.old under by }
    {
        self.word = (self.word & !under) | ((self.word & under) >> by);
        self.moves += 1;
    }
}
