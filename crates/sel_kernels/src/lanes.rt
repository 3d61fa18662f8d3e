//! The part of each column in a row of a horizontal flatten, and the place in such a row.

ghost use Rattle.sel_kernels.specs.Lanes.{HasLeft, left_picks};

/// The part of one column in each row: in row r, `width` rows from `r * step` on.
#[derive(Clone, Copy, Drop)]
pub struct Lane {
    pub width: u32,
    pub step: u32,
}

/// An iterator over the row references of a horizontal flatten of `rows` rows.
///
/// It has left `part` rows of column `lane` from row `at` on, then the parts of the later columns
/// in row `row` of the result, then the later rows of the result: `left` row references in total.
#[derive(Drop)]
pub struct Woven<'a> {
    pub lanes: &'a [Lane],
    pub lane: u32,
    pub at: u32,
    pub part: u32,
    pub row: u32,
    pub rows: u32,
    pub left: u32,
    pub ghost rest: { HasLeft lanes.now left (left_picks lane at part row rows lanes.now) },
}
