//! What a function returns for each source.

ghost use Rattle.std.specs.Prelude.{All, IfOk, IfErr};
ghost use Rattle.std.specs.List.{AllZip};
ghost use Rattle.sel_bits.specs.Faults.{IsOutOfMemory};

use sel_bits::faults::PolarsResult;
use std::alloc::Global;

/// Returns what `read` returns for each item, in order.
///
/// # Requires
/// `read` can be called with each item.
///
/// # Errors
/// `OutOfMemory` if an allocation fails.
pub fn read_each<S: Copy, T: Drop, F: Fn(S) -> T>(
    alloc: Global,
    items: &[S],
    read: F,
) -> PolarsResult<Vec<T>>
    requires { All (F.pre read) items.now }
    ensures found { IfOk result (λ found. AllZip (F.post read) items.now found.items) }
    ensures refusal { IfErr result IsOutOfMemory }
{
    let mut found = Vec::with_capacity(alloc, items.len())?;
    for item in items {
        found.push(read(*item))?;
    }
    Ok(found)
}
