//! The columns of several handles.

ghost use Rattle.std.specs.Prelude.{◌≡◌, ◌≢◌, ◌≤◌, All, None, map, IfOk, IfErr};
ghost use Rattle.sel_arrow.specs.Depth.{depth};
ghost use Rattle.sel_arrow.specs.Rows.{rows, type_of, buffers_held};
ghost use Rattle.sel_ffi.specs.Status.{ok, held_buffer_lists, held_rows, held_type, no_column, out_of_memory, HasColumn};

use crate::column_ref::ColumnRef;
use crate::handle::Handle;
use crate::status::{NO_COLUMN, OUT_OF_MEMORY};
use sel_arrow::array::Array;
use sel_arrow::array_ref::ArrayRef;
use std::alloc::Global;

/// Clones the columns of handles that a caller may write to, in order. A clone shares the buffers
/// of its column, and each handle keeps its column.
///
/// Errors: `NO_COLUMN` if a handle has no column; `OUT_OF_MEMORY`.
#[tactic(auto, using(crate::proofs::Cloned::kept))]
pub fn clone_all(alloc: Global, handles: &mut [Handle]) -> Result<Vec<ArrayRef>, u32>
    ensures rows { IfOk result (λ cloned. map (λ column. rows column.column) cloned.items ≡
        map (λ handle. held_rows handle.tree) handles.old) }
    ensures dtypes { IfOk result (λ cloned. map (λ column. type_of column.column) cloned.items ≡
        map (λ handle. held_type handle.tree) handles.old) }
    ensures full { IfOk result (λ _. All (λ handle. HasColumn handle.tree) handles.old) }
    ensures column { IfErr result (λ status. status ≡ no_column →
        All (λ handle. HasColumn handle.tree) handles.old → ⊥) }
    ensures refusal { IfErr result (λ status. (status ≢ ok) × (status ≤ no_column)) }
    ensures unchanged { map (λ handle. handle.tree) handles.new ≡
        map (λ handle. handle.tree) handles.old }
{
    let Ok(mut cloned) = Vec::with_capacity(alloc, handles.len()) else {
        return Err(OUT_OF_MEMORY);
    };
    let mut i = 0;
    while i < handles.len() {
        let column = match clone_one(alloc, &mut handles[i]) {
            Ok(column) => column,
            Err(status) => {
                drop(cloned);
                return Err(status);
            }
        };
        match cloned.push(column) {
            Ok(()) => {}
            Err(failed) => {
                drop(failed);
                drop(cloned);
                return Err(OUT_OF_MEMORY);
            }
        }
        i += 1;
    }
    Ok(cloned)
}

// Clones the column of a handle. The clone shares its buffers.
//
// Errors: `NO_COLUMN` if the handle has no column; `OUT_OF_MEMORY`.
fn clone_one(alloc: Global, handle: &mut Handle) -> Result<ArrayRef, u32>
    ensures rows { IfOk result (λ cloned. rows cloned.column ≡ held_rows handle.old.tree) }
    ensures dtype { IfOk result (λ cloned. type_of cloned.column ≡ held_type handle.old.tree) }
    ensures full { IfOk result (λ _. HasColumn handle.old.tree) }
    ensures column { IfErr result (λ status. status ≡ no_column → handle.old.tree ≡ None) }
    ensures refusal { IfErr result (λ status. (status ≢ ok) × (status ≤ no_column)) }
    ensures unchanged { handle.new.tree ≡ handle.old.tree }
{
    let Some(shared) = handle.take(alloc) else {
        return Err(NO_COLUMN);
    };
    let copy = shared.column().try_clone(alloc);
    *handle = Handle::of(shared);
    match copy {
        Ok(copy) => Ok(copy),
        Err(_) => Err(OUT_OF_MEMORY),
    }
}

/// Frees the columns of all handles, which are empty afterwards.
#[tactic(auto, using(crate::proofs::Emptied::emptied_more, crate::proofs::Emptied::emptied_all))]
pub fn empty_all(alloc: Global, handles: &mut [Handle])
    ensures { All (λ handle. handle.tree ≡ None) handles.new }
{
    let mut i = 0;
    while i < handles.len() {
        handles[i] = Handle::empty(alloc);
        i += 1;
    }
}

/// Clones the columns of all handles, in order. A clone shares the buffers of its column.
///
/// Errors: `NO_COLUMN` if a handle has no column; `OUT_OF_MEMORY`.
pub fn share_all(alloc: Global, handles: &[ColumnRef]) -> Result<Vec<ArrayRef>, u32>
    ensures rows { IfOk result (λ shared. map (λ column. rows column.column) shared.items ≡
        map (λ handle. held_rows handle.tree) handles.now) }
    ensures dtypes { IfOk result (λ shared. map (λ column. type_of column.column) shared.items ≡
        map (λ handle. held_type handle.tree) handles.now) }
    ensures buffers { IfOk result (λ shared. map (λ column. buffers_held column.column)
        shared.items ≡ map (λ handle. held_buffer_lists handle.tree) handles.now) }
    ensures full { IfOk result (λ _. All (λ handle. HasColumn handle.tree) handles.now) }
    ensures depth { IfOk result (λ shared.
        All (λ column. depth (type_of column.column) ≤ 128) shared.items) }
    ensures column { IfErr result (λ status. status ≡ no_column →
        All (λ handle. HasColumn handle.tree) handles.now → ⊥) }
    ensures refusal { IfErr result (λ status. (status ≢ ok) × (status ≤ no_column)) }
{
    let Ok(mut shared) = Vec::with_capacity(alloc, handles.len()) else {
        return Err(OUT_OF_MEMORY);
    };
    for handle in handles {
        let column = match share_one(alloc, handle) {
            Ok(column) => column,
            Err(status) => {
                drop(shared);
                return Err(status);
            }
        };
        match shared.push(column) {
            Ok(()) => {}
            Err(failed) => {
                drop(failed);
                drop(shared);
                return Err(OUT_OF_MEMORY);
            }
        }
    }
    Ok(shared)
}

// Clones the column of a handle. The clone shares its buffers.
//
// Errors: `NO_COLUMN` if the handle has no column; `OUT_OF_MEMORY`.
fn share_one(alloc: Global, handle: &ColumnRef) -> Result<ArrayRef, u32>
    ensures rows { IfOk result (λ shared. rows shared.column ≡ held_rows handle.now.tree) }
    ensures dtype { IfOk result (λ shared. type_of shared.column ≡ held_type handle.now.tree) }
    ensures buffers { IfOk result (λ shared.
        buffers_held shared.column ≡ held_buffer_lists handle.now.tree) }
    ensures full { IfOk result (λ _. HasColumn handle.now.tree) }
    ensures depth { IfOk result (λ shared. depth (type_of shared.column) ≤ 128) }
    ensures column { IfErr result (λ status. status ≡ no_column → handle.now.tree ≡ None) }
    ensures refusal { IfErr result (λ status. (status ≢ ok) × (status ≤ no_column)) }
{
    let Some(column) = handle.column() else {
        return Err(NO_COLUMN);
    };
    match column.try_clone(alloc) {
        Ok(copy) => Ok(copy),
        Err(_) => Err(OUT_OF_MEMORY),
    }
}
