//! Runs without null rows, as an iterator.

ghost use Rattle.std.specs.Prelude.{◌≡◌, ◌≢◌, ℕ, ◌+◌, ◌<◌, ◌≤◌, ◌++◌, All, length, map};
ghost use Rattle.sel_bits.specs.Limits.{max_rows};
ghost use Rattle.sel_bits.specs.Words.{is_set};
ghost use Rattle.sel_arrow.specs.Rows.{type_of, IsWellFormed};
ghost use Rattle.sel_arrow.specs.Shape.{of_null};
ghost use Rattle.sel_gather.specs.Cleared.{cleared};
ghost use Rattle.sel_gather.specs.ItemPicks.{IsRow};
ghost use Rattle.sel_gather.specs.KeptPicks.{kept_by, AreEqualBits};
ghost use Rattle.sel_runs.specs.Picks.{PickFits};
ghost use Rattle.sel_runs.specs.Runs.{unrolled};
ghost use Rattle.sel_gather.specs.Sources.{rows_of};

use sel_arrow::column::Column;
use sel_bits::bitmap::Bitmap;
use sel_bits::packer::MOST_BITS;
use sel_bits::words::first_word;
use sel_runs::row_refs::Plan;
use sel_runs::run_refs::Runs;
use sel_runs::runs::{NO_ROWS, Run, nulls_of};

/// An iterator over the runs of the row references that are left of `run`, and those of `rest`,
/// with a run of nulls in place of null rows.
///
/// The validity of a row is read when its run is next, so that the runs are not listed.
#[derive(Drop)]
pub(crate) struct LiveRuns<'a, P: Plan> {
    pub sources: &'a [&'a Column],
    pub run: Run,
    pub rest: P,
    pub ghost known: { All (λ c. type_of c.now ≢ of_null) sources.now },
    pub ghost formed: { All (λ c. IsWellFormed c.now) sources.now },
    pub ghost fits: { All (IsRow (rows_of sources.now)) (unrolled run ++ P.picks rest) },
}

impl<P: Plan> LiveRuns<'_, P> {
    // Advances to the next run with rows, unless rows of the current one are left.
    fn ready(&mut self)
        requires { 0 < length (unrolled self.old.run ++ P.picks self.old.rest) }
        ensures picks { unrolled self.new.run ++ P.picks self.new.rest ≡
            unrolled self.old.run ++ P.picks self.old.rest }
        ensures some { 0 < self.new.run.len }
        ensures sources { self.new.sources ≡ self.old.sources }
    {
        if self.run.len == 0 {
            self.run = self.rest.next_run();
        }
    }
}

impl<P: Plan> Runs for LiveRuns<'_, P> {
    ghost picks = { λ runs. map (cleared (rows_of runs.sources.now))
        (unrolled runs.run ++ P.picks runs.rest) };

    fn next_run(&mut self) -> Run {
        self.ready();
        let (next, left) = split_live(self.sources, self.run);
        self.run = left;
        next
    }

    fn again(&self) -> Self {
        LiveRuns {
            sources: self.sources,
            run: self.run,
            rest: self.rest.again(),
        }
    }

    fn has_nulls(&self) -> bool {
        true
    }

    fn run_count(&self) -> usize {
        self.rest.run_count()
    }
}

// Returns the first rows of a run that are all valid, or nulls in place of its first rows that are
// all null, and the run of its other rows.
fn split_live(sources: &[&Column], run: Run) -> (Run, Run)
    requires some { 0 < run.len }
    requires known { All (λ c. type_of c.now ≢ of_null) sources.now }
    requires formed { All (λ c. IsWellFormed c.now) sources.now }
    requires fits { All (PickFits (rows_of sources.now)) (unrolled run) }
    ensures picks { map (cleared (rows_of sources.now)) (unrolled run) ≡
        unrolled result.0 ++ map (cleared (rows_of sources.now)) (unrolled result.1) }
    ensures some { 0 < result.0.len }
    ensures fits { All (PickFits (rows_of sources.now)) (unrolled result.1) }
{
    let Some(source) = run.source else {
        return (run, NO_ROWS);
    };
    match sources[source as usize].validity() {
        None => (run, NO_ROWS),
        Some(bits) => split_kept(bits, run),
    }
}

// Returns the first rows of a run whose bits are all true, or nulls in place of its first rows
// whose bits are all false, and the run of its other rows.
fn split_kept(bits: &Bitmap, run: Run) -> (Run, Run)
    requires some { 0 < run.len }
    requires inside { run.start + run.len ≤ length bits.now.bits }
    requires few { length bits.now.bits ≤ max_rows }
    ensures picks { map (kept_by bits.now.bits) (unrolled run) ≡
        unrolled result.0 ++ map (kept_by bits.now.bits) (unrolled result.1) }
    ensures some { 0 < result.0.len }
    ensures rest { unrolled run ≡
        unrolled (record { source = run.source; start = run.start; len = result.0.len }) ++
        unrolled result.1 }
    ensures source { result.1.source ≡ run.source }
{
    let start = run.start as usize;
    let len = equal_bits(bits, start, run.len as usize) as u32;
    let left = Run {
        start: run.start + len,
        len: run.len - len,
        ..run
    };
    if bits.get_bit(start) {
        (Run { len, ..run }, left)
    } else {
        (nulls_of(len), left)
    }
}

// Returns how many bits from bit `start` on are equal, `len` at most. Reads them by words.
fn equal_bits(bits: &Bitmap, start: usize, len: usize) -> usize
    requires some { 0 < len }
    requires inside { start + len ≤ length bits.now.bits }
    requires few { length bits.now.bits ≤ max_rows }
    ensures some { 0 < result }
    ensures within { result ≤ len }
    ensures equal { AreEqualBits bits.now.bits start result }
{
    let (bytes, offset, _) = bits.as_slice();
    let bit = bits.get_bit(start);
    let mut count = 1;
    while count < len {
        let at = offset + start + count;
        let most = (len - count).min(MOST_BITS);
        let word = first_word(&bytes[at / 8..], at % 8, most);
        let equal = equal_low_bits(word, bit, most);
        count += equal;
        if equal < most {
            return count;
        }
    }
    count
}

// Returns how many of the `len` lowest bits of a word, from the lowest on, are `bit`.
fn equal_low_bits(word: u64, bit: bool, len: usize) -> usize
    requires { len ≤ 64 }
    ensures within { result ≤ len }
    ensures equal { (i : ℕ) → i < result → is_set word i ≡ bit }
{
    let count = if bit {
        word.trailing_ones()
    } else {
        word.trailing_zeros()
    };
    (count as usize).min(len)
}
