//! Validity of if-then-else results.
#![tactic(auto, using(crate::proofs::Validities::validities))]

ghost use Rattle.std.specs.Prelude.{◌≡◌, length, IfOk, IfErr};
ghost use Rattle.std.specs.Option.{option_copied, option_map};
ghost use Rattle.sel_bits.specs.Faults.{IsOutOfMemory};
ghost use Rattle.sel_bits.specs.Validity.{Covers};
ghost use Rattle.sel_ternary.specs.Validity.{chosen_validity};

use sel_bits::bitmap::Bitmap;
use sel_bits::faults::PolarsResult;
use std::alloc::Global;

/// Returns the validity of an if-then-else result, or `None` if both validities are `None`.
///
/// A validity of `None` counts as all true.
///
/// # Requires
/// Each validity has as many bits as `mask`.
///
/// # Errors
/// `OutOfMemory` if an allocation fails.
pub fn if_then_else_validity(
    alloc: Global,
    mask: &Bitmap,
    if_true: Option<&Bitmap>,
    if_false: Option<&Bitmap>,
) -> PolarsResult<Option<Bitmap>>
    requires true_side { Covers (option_copied if_true) (length mask.now.bits) }
    requires false_side { Covers (option_copied if_false) (length mask.now.bits) }
    ensures value { IfOk result (λ chosen. option_map (λ b. b.bits) chosen ≡ chosen_validity
        mask.now.bits (option_copied if_true.entry) (option_copied if_false.entry)) }
    ensures refusal { IfErr result IsOutOfMemory }
{
    match (if_true, if_false) {
        (None, None) => Ok(None),
        (None, Some(if_false)) => Ok(Some(mask.or(alloc, if_false)?)),
        (Some(if_true), None) => Ok(Some(if_true.or_not(alloc, mask)?)),
        (Some(if_true), Some(if_false)) => {
            Ok(Some(Bitmap::choose(alloc, mask, if_true, if_false)?))
        }
    }
}
