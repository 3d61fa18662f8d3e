//! Copies of blocks of values at indices.

ghost use Rattle.std.specs.Prelude.{◌≡◌, ◌≤◌, ◌++◌, All, IsTrue, length, pos, IfOk, IfErr, OnOk};
ghost use Rattle.sel_bits.specs.Faults.{IsOutOfMemory};
ghost use Rattle.sel_arrow.specs.Columns.{primitive_rows};
ghost use Rattle.sel_arrow.specs.Masked.{number_value};
ghost use Rattle.sel_kernels.specs.Blocks.{block_at, block_items, blocks_within, is_block_within};

use crate::gather::fixed_size_list::take_blocks;
use sel_arrow::array::Array;
use sel_arrow::primitive::IdxArr;
use sel_bits::block_copy::BlockCopy;
use sel_bits::faults::{PolarsError, PolarsResult};
use std::alloc::Global;

/// Returns the values from `i * size` to `(i + 1) * size` for each index `i`.
///
/// A null index gives `zero` `size` times. The values in null slots of `indices` are ignored.
/// Blocks of common sizes are copied by moves of a constant size.
pub(crate) fn take_block_values<T: Copy>(
    alloc: Global,
    values: &[T],
    size: usize,
    indices: &IdxArr,
    zero: T,
) -> PolarsResult<Vec<T>>
    requires inside { IsTrue
        (blocks_within size (length values.now) (primitive_rows indices.now)) }
    ensures items { IfOk result (λ taken. taken.items ≡
        block_items size zero values.now (primitive_rows indices.now)) }
    ensures refusal { IfErr result IsOutOfMemory }
{
    match size {
        1 => take_sized::<T, 1>(alloc, values, indices, zero),
        2 => take_sized::<T, 2>(alloc, values, indices, zero),
        3 => take_sized::<T, 3>(alloc, values, indices, zero),
        4 => take_sized::<T, 4>(alloc, values, indices, zero),
        8 => take_sized::<T, 8>(alloc, values, indices, zero),
        16 => take_sized::<T, 16>(alloc, values, indices, zero),
        32 => take_sized::<T, 32>(alloc, values, indices, zero),
        _ => {
            let mut out = BlockCopy::new(alloc, values);
            take_blocks(&mut out, size, indices, zero)?;
            Ok(out.into_vec())
        }
    }
}

/// Returns the blocks of `N` values at `indices`, and `zero` `N` times for a null index.
fn take_sized<T: Copy, const N: usize>(
    alloc: Global,
    values: &[T],
    indices: &IdxArr,
    zero: T,
) -> PolarsResult<Vec<T>>
    requires small { N ≤ 32 }
    requires inside { IsTrue (blocks_within N (length values.now) (primitive_rows indices.now)) }
    ensures items { IfOk result (λ taken. taken.items ≡
        block_items N zero values.now (primitive_rows indices.now)) }
    ensures refusal { IfErr result IsOutOfMemory }
{
    let count = indices.len();
    let mut taken = Vec::with_capacity(alloc, count * N)?;
    for k in 0..count {
        append_sized::<T, N>(&mut taken, values, indices.get(k), zero)?;
    }
    Ok(taken)
}

/// Appends the block of `N` values at an index, or `zero` `N` times if it is null.
#[inline(always)]
fn append_sized<T: Copy, const N: usize>(
    taken: &mut Vec<T>,
    values: &[T],
    index: Option<u32>,
    zero: T,
) -> PolarsResult<()>
    requires small { N ≤ 32 }
    requires inside { IsTrue (is_block_within N (length values.now) (number_value pos index)) }
    ensures appended { OnOk result (taken.new.items ≡
        taken.old.items ++ block_at N zero values.now (number_value pos index)) }
    ensures refusal { IfErr result IsOutOfMemory }
{
    match index {
        None => {
            let Some(end) = taken.len().checked_add(N) else {
                return Err(PolarsError::OutOfMemory);
            };
            taken.resize(end, zero)?;
        }
        Some(place) => {
            let at = place as usize * N;
            taken.extend_from_slice(&values[at..at + N])?;
        }
    }
    Ok(())
}
