//! Parsing of fixed-size lists, and the columns built from them.
ghost use Rattle.std.specs.Prelude.{◌≡◌, ℕ, ◌≤◌, ◌++◌, ◌∷◌, [], IsTrue, List, All, length, map, option_map, IfOk, OnOk};
ghost use Rattle.sel_arrow.specs.NestedArrays.{block_column};
ghost use Rattle.sel_arrow.specs.Rows.{rows, type_of};
ghost use Rattle.sel_arrow.specs.Shape.{of_int64};
ghost use Rattle.sel_arrow.specs.Value.{Value};
ghost use Rattle.sel_lines.specs.BlockParts.{AreKeptBlocks, HasBlocks, IsReadingBlocks};
ghost use Rattle.sel_lines.specs.Blocks.{blocks_of, block_of, is_block, parsed_width, widest};
ghost use Rattle.sel_lines.specs.Columns.{all_some};
ghost use Rattle.sel_lines.specs.Lines.{longest_line};
ghost use Rattle.sel_lines.specs.ListParts.{shown_list};

use crate::line_errors::memory_error_after;
use crate::lists::{bits_of, items_of, parse_row};
use crate::numbers::parse_size;
use crate::rows::Rows;
use crate::words::split_at_each;
use sel_arrow::fixed_size_list::FixedSizeListArray;
use std::alloc::{AllocError, Global};

/// The maximum list size.
pub const WIDEST: usize = 16;

/// Parsed fixed-size lists: concatenated items with zeros for a null list, and both validities.
#[derive(Drop)]
pub struct Blocks {
    pub values: Vec<i64>,
    pub flags: Vec<bool>,
    pub validity: Vec<bool>,
}

/// Parses a list size, or returns `None` if `word` is invalid or exceeds `WIDEST`.
pub fn parse_width(word: &str) -> Option<usize>
    ensures { result ≡ parsed_width word.now }
{
    let width = parse_size(word)?;
    if width > WIDEST {
        return None;
    }
    Some(width)
}

/// Parses lists of size `width`, or returns `None` if `word` is invalid.
///
/// # Requires
/// `word` has at most `LONGEST_LINE` bytes, and `width` is at most `WIDEST`.
///
/// # Errors
/// `AllocError` if an allocation fails.
pub fn parse_blocks(alloc: Global, word: &str, width: usize) -> Result<Option<Blocks>, AllocError>
    requires short { length word.now ≤ longest_line }
    requires narrow { width ≤ widest }
    ensures { IfOk result (IsReadingBlocks width (blocks_of width word.now)) }
{
    if word == "." {
        return Ok(Some(no_blocks(alloc)));
    }
    let words = split_at_each(alloc, word, '|')?;
    parse_each(alloc, &words, width)
}

#[tactic(auto, using(crate::proofs::RowLemmas::rows_none))]
fn parse_each(alloc: Global, words: &[&str], width: usize) -> Result<Option<Blocks>, AllocError>
    requires short { All (λ word. length word.now ≤ longest_line) words.now }
    requires narrow { width ≤ widest }
    ensures { IfOk result (IsReadingBlocks width
        (all_some (map (λ word. block_of width word.now) words.now))) }
{
    let mut blocks = no_blocks(alloc);
    for word in words {
        let Some(row) = parse_block(alloc, word, width)? else {
            return Ok(None);
        };
        push_row(&mut blocks, row, width)?;
    }
    Ok(Some(blocks))
}

fn no_blocks(alloc: Global) -> Blocks
    ensures { (width : ℕ) → HasBlocks width [] result }
{
    Blocks {
        values: Vec::new(alloc),
        flags: Vec::new(alloc),
        validity: Vec::new(alloc),
    }
}

// Parses a list of size `width`: `_` for null, or its items.
fn parse_block(
    alloc: Global,
    word: &str,
    width: usize,
) -> Result<Option<Option<Rows<i64>>>, AllocError>
    requires { length word.now ≤ longest_line }
    ensures { IfOk result (λ row. option_map shown_list row ≡ block_of width word.now) }
{
    let Some(row) = parse_row(alloc, word)? else {
        return Ok(None);
    };
    if has_width(&row, width) {
        return Ok(Some(row));
    }
    Ok(None)
}

#[tactic(auto, using(crate::proofs::ReadBlocks::width_is))]
fn has_width(row: &Option<Rows<i64>>, width: usize) -> bool
    ensures { result ≡ is_block width (shown_list row.now) }
{
    match row {
        None => true,
        Some(items) => items.values.len() == width,
    }
}

fn push_row(blocks: &mut Blocks, row: Option<Rows<i64>>, width: usize) -> Result<(), AllocError>
    requires narrow { width ≤ widest }
    requires wide { IsTrue (is_block width (shown_list row)) }
    ensures { (read : List Value) → HasBlocks width read blocks.old →
        OnOk result (HasBlocks width (read ++ shown_list row ∷ []) blocks.new) }
{
    match row {
        None => push_null(blocks, width),
        Some(items) => push_list(blocks, items, width),
    }
}

fn push_null(blocks: &mut Blocks, width: usize) -> Result<(), AllocError>
    requires { width ≤ widest }
    ensures { (read : List Value) → HasBlocks width read blocks.old →
        OnOk result (HasBlocks width (read ++ shown_list None ∷ []) blocks.new) }
{
    let count = blocks.values.len() + width;
    blocks.values.resize(count, 0)?;
    let count = blocks.flags.len() + width;
    blocks.flags.resize(count, true)?;
    blocks.validity.push(false)?;
    Ok(())
}

fn push_list(blocks: &mut Blocks, items: Rows<i64>, width: usize) -> Result<(), AllocError>
    requires { IsTrue (is_block width (shown_list (Some items))) }
    ensures { (read : List Value) → HasBlocks width read blocks.old →
        OnOk result (HasBlocks width (read ++ shown_list (Some items) ∷ []) blocks.new) }
{
    let Rows { values, validity } = items;
    blocks.values.extend_from_slice(&values)?;
    blocks.flags.extend_from_slice(&validity)?;
    blocks.validity.push(true)?;
    Ok(())
}

impl Blocks {
    /// Returns the fixed-size list column of these lists.
    ///
    /// # Requires
    /// The parts are consistent with list size `width` and within the row limit.
    ///
    /// # Errors
    /// `AllocError` if an allocation fails.
    #[tactic(auto, using(crate::proofs::ReadLists::held_length))]
    pub fn into_array(self, alloc: Global, width: usize) -> Result<FixedSizeListArray, AllocError>
        requires narrow { width ≤ widest }
        requires kept { AreKeptBlocks width self }
        ensures rows { IfOk result (λ array.
            (read : List Value) → HasBlocks width read self → rows (block_column array) ≡ read) }
        ensures size { IfOk result (λ array. array.size ≡ width) }
        ensures dtype { IfOk result (λ array. type_of array.values.value ≡ of_int64) }
    {
        let Blocks {
            values,
            flags,
            validity,
        } = self;
        let len = validity.len();
        let validity = bits_of(alloc, &validity)?;
        let items = items_of(alloc, values, &flags)?;
        match FixedSizeListArray::try_new(alloc, width, len, items, Some(validity)) {
            Ok(array) => Ok(array),
            Err(fault) => Err(memory_error_after(fault)),
        }
    }
}
