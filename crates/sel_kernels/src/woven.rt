//! Row references of a horizontal flatten.

ghost use Rattle.std.specs.Prelude.{◌≡◌, ◌<◌, length};
ghost use Rattle.sel_kernels.specs.FlattenPicks.{woven_picks};
ghost use Rattle.sel_kernels.specs.Lanes.{HasLeft, picks_from, rows_picks};

use crate::lanes::{Lane, Woven};
use sel_runs::row_refs::Plan;
use sel_runs::runs::Run;

impl<'a> Woven<'a> {
    /// Returns an iterator over the row references of `rows` rows.
    ///
    /// # Requires
    /// There are `left` row references, at least one; no lane is empty, and each row reference is
    /// in range.
    pub fn of_rows(lanes: &'a [Lane], rows: u32, left: u32) -> Woven<'a>
        requires some { 0 < left }
        requires left { HasLeft lanes.now left (rows_picks 0 rows lanes.now) }
        ensures { woven_picks result ≡ rows_picks 0 rows lanes.now }
    {
        Woven {
            lanes,
            lane: 0,
            at: 0,
            part: lanes[0].width,
            row: 0,
            rows,
            left,
        }
    }

    // Advances to the next part, unless rows of this one are left.
    #[inline(always)]
    fn ready(&mut self)
        requires { 0 < self.old.left }
        ensures picks { woven_picks self.new ≡ woven_picks self.old }
        ensures some { 0 < self.new.part }
        ensures left { self.new.left ≡ self.old.left }
    {
        if self.part > 0 {
            return;
        }
        let (lane, row) = self.next_lane();
        let next = self.lanes[lane as usize];
        self.lane = lane;
        self.row = row;
        self.at = row * next.step;
        self.part = next.width;
    }

    // Returns the lane of the next part, and its row.
    #[inline(always)]
    fn next_lane(&self) -> (u32, u32)
        requires done { self.now.part ≡ 0 }
        requires some { 0 < self.now.left }
        ensures inside { result.0 < length self.now.lanes.now }
        ensures picks { picks_from result.0 result.1 self.now.rows self.now.lanes.now ≡
            woven_picks self.now }
    {
        if self.lane as usize + 1 < self.lanes.len() {
            (self.lane + 1, self.row)
        } else {
            (0, self.row + 1)
        }
    }
}

impl Plan for Woven<'_> {
    ghost picks = { woven_picks };

    #[inline(always)]
    fn len(&self) -> usize {
        self.left as usize
    }

    #[inline(always)]
    fn next(&mut self) -> Option<(u32, u32)> {
        self.ready();
        let next = Some((self.lane, self.at));
        self.at += 1;
        self.part -= 1;
        self.left -= 1;
        next
    }

    #[inline(always)]
    fn next_run(&mut self) -> Run {
        self.ready();
        let run = Run {
            source: Some(self.lane),
            start: self.at,
            len: self.part,
        };
        self.left -= self.part;
        self.part = 0;
        run
    }

    #[inline(always)]
    fn again(&self) -> Self {
        Woven {
            lanes: self.lanes,
            lane: self.lane,
            at: self.at,
            part: self.part,
            row: self.row,
            rows: self.rows,
            left: self.left,
        }
    }

    #[inline(always)]
    fn has_nulls(&self) -> bool {
        false
    }

    // Returns whether there are more rows left than parts of all rows.
    #[inline(always)]
    fn is_wide(&self) -> bool {
        self.left as usize > self.run_count()
    }

    // Returns the number of parts of all rows, a part being what one lane adds to one row.
    #[inline(always)]
    fn run_count(&self) -> usize {
        (self.rows as usize).saturating_mul(self.lanes.len())
    }
}
