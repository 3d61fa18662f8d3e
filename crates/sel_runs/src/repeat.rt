//! Appends repeated values.

ghost use Rattle.std.specs.Prelude.{◌≡◌, ◌<◌, ◌≤◌, ◌+◌, ◌++◌, ◌^◌, length, replicate, vec_capacity, IfErr, OnOk};
ghost use Rattle.sel_bits.specs.Faults.{IsOutOfMemory};

use sel_bits::faults::PolarsResult;

/// Appends `value` `count` times.
///
/// # Requires
/// The resulting length is less than 2^64.
///
/// # Errors
/// `OutOfMemory` if an allocation fails.
#[tactic(auto, using(crate::proofs::Windows::resized))]
pub fn push_values<T: Copy>(items: &mut Vec<T>, value: T, count: usize) -> PolarsResult<()>
    requires { length items.old.items + count < 2 ^ 64 }
    ensures items { OnOk result (items.new.items ≡ items.old.items ++ replicate count value) }
    ensures capacity { vec_capacity items.old ≤ vec_capacity items.new }
    ensures refusal { IfErr result IsOutOfMemory }
{
    items.resize(items.len() + count, value)?;
    Ok(())
}
