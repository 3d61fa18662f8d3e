//! Parsing of lists, and the list columns built from them.
ghost use Rattle.std.specs.Prelude.{◌≡◌, ◌≤◌, ◌+◌, ◌++◌, ◌∷◌, [], List, All, length, map, option_map, IfOk, OnOk};
ghost use Rattle.sel_bits.specs.Bits.{unsliced};
ghost use Rattle.sel_arrow.specs.Masked.{hidden};
ghost use Rattle.sel_arrow.specs.NestedArrays.{list_column};
ghost use Rattle.sel_arrow.specs.Rows.{rows, type_of};
ghost use Rattle.sel_arrow.specs.Shape.{of_int64};
ghost use Rattle.sel_arrow.specs.Value.{Value, Number};
ghost use Rattle.sel_lines.specs.Columns.{all_some};
ghost use Rattle.sel_bits.specs.Limits.{max_rows};
ghost use Rattle.sel_lines.specs.Lines.{longest_line};
ghost use Rattle.sel_lines.specs.ListParts.{shown_list, AreKept, HasRead, IsReading};
ghost use Rattle.sel_lines.specs.Lists.{list_of_word, lists_of};

use crate::columns::parse_column;
use crate::line_errors::{memory_error, memory_error_after};
use crate::rows::Rows;
use crate::words::split_at_each;
use sel_arrow::array::Array;
use sel_arrow::array_ref::ArrayRef;
use sel_arrow::list::ListArray;
use sel_arrow::primitive::PrimitiveArray;
use sel_bits::bitmap::Bitmap;
use sel_bits::buffer::Buffer;
use sel_bits::offsets::OffsetsBuffer;
use std::alloc::{AllocError, Global};

/// Parsed lists: concatenated items and their validity, list offsets, and list validity.
#[derive(Drop)]
pub struct Lists {
    pub values: Vec<i64>,
    pub flags: Vec<bool>,
    pub ends: Vec<i64>,
    pub validity: Vec<bool>,
}

/// Parses lists, or returns `None` if `word` is invalid.
///
/// # Requires
/// `word` has at most `LONGEST_LINE` bytes.
///
/// # Errors
/// `AllocError` if an allocation fails.
pub fn parse_lists(alloc: Global, word: &str) -> Result<Option<Lists>, AllocError>
    requires { length word.now ≤ longest_line }
    ensures { IfOk result (IsReading (lists_of word.now)) }
{
    if word == "." {
        return Ok(Some(no_lists(alloc)?));
    }
    let words = split_at_each(alloc, word, '|')?;
    parse_each(alloc, &words)
}

#[tactic(auto, using(crate::proofs::RowLemmas::rows_none))]
fn parse_each(alloc: Global, words: &[&str]) -> Result<Option<Lists>, AllocError>
    requires { All (λ word. length word.now ≤ longest_line) words.now }
    ensures { IfOk result (IsReading (all_some (map (λ word. list_of_word word.now) words.now))) }
{
    let mut lists = no_lists(alloc)?;
    for word in words {
        let Some(row) = parse_row(alloc, word)? else {
            return Ok(None);
        };
        push_row(&mut lists, row)?;
    }
    Ok(Some(lists))
}

fn no_lists(alloc: Global) -> Result<Lists, AllocError>
    ensures { IfOk result (HasRead []) }
{
    Ok(Lists {
        values: Vec::new(alloc),
        flags: Vec::new(alloc),
        ends: vec![in alloc; 0]?,
        validity: Vec::new(alloc),
    })
}

/// Parses a list: `_` for null, or its items.
pub fn parse_row(alloc: Global, word: &str) -> Result<Option<Option<Rows<i64>>>, AllocError>
    requires { length word.now ≤ longest_line }
    ensures { IfOk result (λ row. option_map shown_list row ≡ list_of_word word.now) }
{
    if word == "_" {
        return Ok(Some(None));
    }
    match parse_column::<i64>(alloc, word)? {
        None => Ok(None),
        Some(items) => Ok(Some(Some(items))),
    }
}

fn push_row(lists: &mut Lists, row: Option<Rows<i64>>) -> Result<(), AllocError>
    ensures { (read : List Value) → HasRead read lists.old →
        OnOk result (HasRead (read ++ shown_list row ∷ []) lists.new) }
{
    match row {
        None => push_null(lists),
        Some(items) => push_list(lists, items),
    }
}

fn push_null(lists: &mut Lists) -> Result<(), AllocError>
    ensures { (read : List Value) → HasRead read lists.old →
        OnOk result (HasRead (read ++ shown_list None ∷ []) lists.new) }
{
    lists.ends.push(lists.values.len() as i64)?;
    lists.validity.push(false)?;
    Ok(())
}

fn push_list(lists: &mut Lists, items: Rows<i64>) -> Result<(), AllocError>
    ensures { (read : List Value) → HasRead read lists.old →
        OnOk result (HasRead (read ++ shown_list (Some items) ∷ []) lists.new) }
{
    let Rows { values, validity } = items;
    lists.values.extend_from_slice(&values)?;
    lists.flags.extend_from_slice(&validity)?;
    lists.ends.push(lists.values.len() as i64)?;
    lists.validity.push(true)?;
    Ok(())
}

impl Lists {
    /// Returns the list column of these lists.
    ///
    /// # Requires
    /// The parts are consistent and within the row limit.
    ///
    /// # Errors
    /// `AllocError` if an allocation fails.
    #[tactic(auto, using(crate::proofs::ReadLists::held_length))]
    pub fn into_array(self, alloc: Global) -> Result<ListArray<i64>, AllocError>
        requires { AreKept self }
        ensures rows { IfOk result (λ array. (read : List Value) →
            HasRead read self → rows (list_column array) ≡ read) }
        ensures dtype { IfOk result (λ array. type_of array.values.value ≡ of_int64) }
    {
        let Lists {
            values,
            flags,
            ends,
            validity,
        } = self;
        let offsets = match OffsetsBuffer::of_rising(ends) {
            Ok(offsets) => offsets,
            Err(fault) => return Err(memory_error(fault)),
        };
        let validity = bits_of(alloc, &validity)?;
        let items = items_of(alloc, values, &flags)?;
        match ListArray::try_new(alloc, offsets, items, Some(validity)) {
            Ok(array) => Ok(array),
            Err(fault) => Err(memory_error_after(fault)),
        }
    }
}

/// Returns the bitmap of `values`.
pub fn bits_of(alloc: Global, values: &[bool]) -> Result<Bitmap, AllocError>
    ensures { IfOk result (λ bitmap. bitmap ≡ unsliced values.now) }
{
    match Bitmap::from_bools(alloc, values) {
        Ok(bitmap) => Ok(bitmap),
        Err(fault) => Err(memory_error(fault)),
    }
}

/// Returns the int64 column of `values` with validity `flags`.
pub fn items_of(alloc: Global, values: Vec<i64>, flags: &[bool]) -> Result<ArrayRef, AllocError>
    requires paired { length flags.now ≡ length values.items }
    requires few { length values.items ≤ max_rows }
    ensures rows { IfOk result (λ items. rows items.column ≡
        hidden flags.now (map Number values.items)) }
    ensures dtype { IfOk result (λ items. type_of items.column ≡ of_int64) }
{
    let flags = bits_of(alloc, flags)?;
    let values = match Buffer::from_vec(values) {
        Ok(values) => values,
        Err(fault) => return Err(memory_error(fault)),
    };
    match PrimitiveArray::try_new(values, Some(flags)) {
        Ok(items) => Ok(items.into_ref()),
        Err(_) => unreachable!(),
    }
}
