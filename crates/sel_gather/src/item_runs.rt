//! The runs of the items of lists, as an iterator.

ghost use Rattle.std.specs.Prelude.{◌≡◌, All, true};
ghost use Rattle.sel_arrow.specs.Rows.{type_of, IsWellFormed};
ghost use Rattle.sel_gather.specs.Children.{is_listing};
ghost use Rattle.sel_gather.specs.ItemPicks.{items_at, IsRow};
ghost use Rattle.sel_gather.specs.Sources.{rows_of};

use crate::lists::run_of_list;
use crate::validity::has_validity;
use sel_arrow::column::Column;
use sel_runs::row_refs::Plan;
use sel_runs::run_refs::Runs;
use sel_runs::runs::{NO_ROWS, Run};

/// An iterator over the runs of the items of the lists at the row references `lists`; a null list
/// has `width` nulls.
///
/// A list is read when its items are next, so that the runs of the items are not listed.
#[derive(Drop)]
pub(crate) struct ItemRuns<'a, P: Plan> {
    pub lists: P,
    pub sources: &'a [&'a Column],
    pub width: u32,
    pub ghost listing: { All (λ c. is_listing (type_of c.now) ≡ true) sources.now },
    pub ghost formed: { All (λ c. IsWellFormed c.now) sources.now },
    pub ghost fits: { All (IsRow (rows_of sources.now)) (P.picks lists) },
}

impl<P: Plan> Runs for ItemRuns<'_, P> {
    ghost picks = { λ runs. items_at runs.sources.now runs.width (P.picks runs.lists) };

    #[inline(always)]
    fn next_run(&mut self) -> Run {
        let mut run = NO_ROWS;
        while run.len == 0 {
            run = run_of_list(self.sources, self.lists.next(), self.width);
        }
        run
    }

    #[inline(always)]
    fn again(&self) -> Self {
        ItemRuns {
            lists: self.lists.again(),
            sources: self.sources,
            width: self.width,
        }
    }

    // (a null list with offsets has no items; one of a fixed size has nulls)
    #[inline(always)]
    fn has_nulls(&self) -> bool {
        self.width != 0 && (self.lists.has_nulls() || has_validity(self.sources))
    }

    #[inline(always)]
    fn run_count(&self) -> usize {
        self.lists.run_count()
    }
}
