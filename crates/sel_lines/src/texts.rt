//! Parsing of string columns.
ghost use Rattle.std.specs.Prelude.{◌≡◌, ◌≤◌, ◌∷◌, [], IsTrue, IfOk, IfErr, length, map, option_map};
ghost use Rattle.sel_bits.specs.Faults.{IsOutOfMemory};
ghost use Rattle.sel_bits.specs.Limits.{max_buffer_bytes, max_rows};
ghost use Rattle.sel_arrow.specs.Columns.{utf8view_rows};
ghost use Rattle.sel_arrow.specs.Masked.{hidden};
ghost use Rattle.sel_arrow.specs.Texts.{all_text};
ghost use Rattle.sel_arrow.specs.Views.{all_placed, view_value};
ghost use Rattle.sel_gather.specs.Need.{bytes_needed};
ghost use Rattle.sel_lines.specs.Columns.{all_some, column_of, row_of};
ghost use Rattle.sel_lines.specs.Lines.{longest_line};
ghost use Rattle.sel_lines.specs.Texts.{string_value};
ghost use Rattle.sel_lines.specs.Parts.{text_row};

use crate::line_errors::memory_error;
use crate::words::split_at_each;
use sel_arrow::utf8view::Utf8ViewArray;
use sel_arrow::view::View;
use sel_bits::bitmap::Bitmap;
use sel_bits::buffer::Buffer;
use sel_bits::faults::PolarsResult;
use std::alloc::{AllocError, Global};

/// Parses a string column, or returns `None` if `word` is invalid.
///
/// # Requires
/// `word` has at most `LONGEST_LINE` bytes.
///
/// # Errors
/// `AllocError` if an allocation fails.
pub fn parse_texts(alloc: Global, word: &str) -> Result<Option<Utf8ViewArray>, AllocError>
    requires { length word.now ≤ longest_line }
    ensures { IfOk result (λ column. option_map utf8view_rows column ≡
        column_of string_value word.now) }
{
    let Some(rows) = parse_rows(alloc, word)? else {
        return Ok(None);
    };
    let texts = Texts::of_rows(alloc, &rows)?;
    match texts.into_column(alloc) {
        Ok(column) => Ok(Some(column)),
        Err(fault) => Err(memory_error(fault)),
    }
}

fn parse_rows(alloc: Global, word: &str) -> Result<Option<Vec<Option<&str>>>, AllocError>
    requires { length word.now ≤ longest_line }
    ensures { IfOk result (λ rows. option_map (λ rows. map text_row rows.items) rows ≡
        column_of string_value word.now) }
{
    if word == "-" {
        return Ok(Some(Vec::new(alloc)));
    }
    let words = split_at_each(alloc, word, ',')?;
    parse_words(alloc, &words)
}

#[tactic(auto, using(crate::proofs::RowLemmas::rows_none, crate::proofs::RowLemmas::rows_pushed))]
fn parse_words<'a>(
    alloc: Global,
    words: &[&'a str],
) -> Result<Option<Vec<Option<&'a str>>>, AllocError>
    ensures { IfOk result (λ rows. option_map (λ rows. map text_row rows.items) rows
        ≡ all_some (map (λ word. row_of string_value word.now) words.now)) }
{
    let mut rows = Vec::with_capacity(alloc, words.len())?;
    for word in words {
        let Some(row) = parse_row(word) else {
            return Ok(None);
        };
        rows.push(row)?;
    }
    Ok(Some(rows))
}

// Parses a row: `n` for null, or `=` followed by the string.
#[tactic(auto, using(crate::proofs::TextViews::text_some))]
fn parse_row(word: &str) -> Option<Option<&str>>
    ensures { option_map text_row result ≡ row_of string_value word.now }
{
    if word == "n" {
        return Some(None);
    }
    match word.strip_prefix('=') {
        Some(text) => Some(Some(text)),
        None => None,
    }
}

/// Views of strings, the data buffer with all their bytes, and their validity.
#[derive(Drop)]
pub struct Texts {
    pub views: Vec<View>,
    pub bytes: Vec<u8>,
    pub validity: Vec<bool>,
    ghost paired: { length validity.items ≡ length views.items },
    ghost few: { length views.items ≤ max_rows },
    ghost placed: { IsTrue (all_placed (bytes.items ∷ []) views.items) },
    ghost texts: { IsTrue (all_text
        (hidden validity.items (map (view_value (bytes.items ∷ [])) views.items))) },
}

impl Texts {
    ghost use Rattle.sel_lines.specs.ViewedTexts.{rows_of_texts};

    // Builds the views of the rows, with an empty string in null slots.
    #[tactic(auto, using(crate::proofs::TextViews::room))]
    fn of_rows(alloc: Global, rows: &[Option<&str>]) -> Result<Texts, AllocError>
        requires few { length rows.now ≤ max_rows }
        requires bytes { bytes_needed (map text_row rows.now) ≤ max_buffer_bytes }
        ensures { IfOk result (λ texts. rows_of_texts texts ≡ map text_row rows.now) }
    {
        let mut views = Vec::with_capacity(alloc, rows.len())?;
        let mut validity = Vec::with_capacity(alloc, rows.len())?;
        let mut bytes = Vec::new(alloc);
        for row in rows {
            let text = row.unwrap_or("").as_bytes();
            views.push(View::new_from_bytes(text, 0, bytes.len() as u32))?;
            bytes.extend_from_slice(text)?;
            validity.push(row.is_some())?;
        }
        Ok(Texts {
            views,
            bytes,
            validity,
        })
    }

    // Returns the string column of these views.
    fn into_column(self, alloc: Global) -> PolarsResult<Utf8ViewArray>
        ensures rows { IfOk result (λ column. utf8view_rows column ≡ rows_of_texts self) }
        ensures refusal { IfErr result IsOutOfMemory }
    {
        let Texts {
            views,
            bytes,
            validity,
        } = self;
        let validity = Bitmap::from_bools(alloc, &validity)?;
        let bytes = Buffer::from_vec(bytes)?;
        let buffers = Buffer::from_vec(vec![in alloc; bytes]?)?;
        let views = Buffer::from_vec(views)?;
        match Utf8ViewArray::try_new(views, buffers, Some(validity)) {
            Ok(column) => Ok(column),
            Err(_) => unreachable!(),
        }
    }
}
