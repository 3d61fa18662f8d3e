//! Theorems about filter, gather, if-then-else, dictionaries and equal columns.

ghost use Rattle.sel_arrow.specs.Value.{Value};
ghost use Rattle.polars_compute.specs.Meaning.{EqualMeaning, KeptNeedsNoMore, NeedsDecideLimits, NeedsWithinLimits};
ghost use Rattle.polars_compute.specs.Laws.{FilterIsTake, TakesCompose, KeepsThen, KeepsOtherwise, RepeatsThen, RepeatsOtherwise, RepeatsBoth, SelectedRowsAreTaken, PropagationDecodes, PropagationLeavesNoNull};

/// Proves that a filter equals the gather of the positions at which its mask is true.
///
/// Filters and joins depend on it.
pub fn law_filter_is_take()
    ensures { FilterIsTake Value }
{}

/// Proves that a gather of a gather equals one gather by the composed row references.
///
/// Filters and joins depend on it.
pub fn law_take_of_take()
    ensures { TakesCompose Value }
{}

/// Proves that a filter followed by a gather equals one gather of the source rows, by row
/// references that do not depend on the column.
///
/// Row k of all columns selected by one mask and the same indices therefore comes from one source
/// row. Batch executors depend on it.
#[tactic(auto, using(crate::proofs::LawProofs::selected_rows))]
pub fn law_select_rows()
    ensures { SelectedRowsAreTaken }
{}

/// Proves that an if-then-else filtered by its own mask equals its true values filtered by that
/// mask, and filtered by the complement of the mask equals its false values filtered likewise.
///
/// Evaluators of when-then-otherwise depend on it.
#[tactic(auto, using(crate::proofs::LawProofs::keeps_then, crate::proofs::LawProofs::keeps_otherwise))]
pub fn law_choice_filtered()
    ensures chosen { KeepsThen Value }
    ensures otherwise { KeepsOtherwise Value }
{}

/// Proves that an if-then-else with a broadcast true value, false value or both equals the
/// if-then-else with the value repeated to the length of the mask.
///
/// Evaluators of when-then-otherwise depend on it.
#[tactic(auto, using(sel_ternary::proofs::Chosen::repeated_then, sel_ternary::proofs::Chosen::repeated_otherwise, sel_ternary::proofs::Chosen::repeated_both))]
pub fn law_broadcast_is_repeat()
    ensures chosen { RepeatsThen Value }
    ensures otherwise { RepeatsOtherwise Value }
    ensures both { RepeatsBoth Value }
{}

/// Proves that propagating null values to the keys preserves the decoded dictionary and leaves no
/// null value.
///
/// Dictionary encoders depend on it.
#[tactic(auto, using(sel_kernels::proofs::Dictionaries::none_null))]
pub fn law_propagate()
    ensures decodes { PropagationDecodes }
    ensures valid { PropagationLeavesNoNull }
{}

/// Proves four facts about the rows of a column.
///
/// Two columns of one type with equal rows have equal size requirements and give equal results in
/// every kernel definition, whatever their layout. The rows that a mask keeps require no more than
/// all rows. The rows of a well-formed column exceed no limit. At most 4,294,967,295 rows exceed a
/// limit exactly if what they require is above it. Batch executors depend on it.
#[tactic(auto, using(sel_kernels::proofs::RowNeeds::kept_needs, sel_kernels::proofs::RowNeeds::needs_decide, sel_kernels::proofs::RowNeeds::needs_fit))]
pub fn law_equal_meaning()
    ensures alike { EqualMeaning }
    ensures kept { KeptNeedsNoMore }
    ensures within { NeedsWithinLimits }
    ensures decided { NeedsDecideLimits }
{}
