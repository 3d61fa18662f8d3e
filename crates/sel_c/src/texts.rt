//! Comparison, printing and parsing.

ghost use Rattle.std.specs.Prelude.{◌≡◌, ◌≢◌, ◌↔◌, [], ◌∷◌, IsTrue};
ghost use Rattle.sel_c.specs.Parsed.{Parses};
ghost use Rattle.sel_c.specs.Printed.{held_text, held_type_text, Prints};
ghost use Rattle.sel_ffi.specs.Status.{ok, out_of_memory, no_column, held_rows, HasColumn, ReturnsFirst};

use crate::calls::texts::{parse_into, print_into, print_type_into};
use sel_ffi::column_ref::ColumnRef;
use sel_ffi::handle::Handle;
use sel_ffi::status::{NO_COLUMN, OK};
use sel_text::equal::equal_rows;
use std::alloc::Global;

/// Returns in `equal` whether two columns have the same rows. It compares values, not types: 1 is
/// equal to 1 in columns of any integer types. Values in null slots are ignored. Does not
/// allocate.
///
/// Errors: SEL_ERROR_NO_COLUMN: `of` or `other` is empty. Never returns SEL_ERROR_OUT_OF_MEMORY.
#[unsafe(no_mangle)]
pub extern "C" fn sel_equal_rows(of: &ColumnRef, other: &ColumnRef, equal: &mut bool) -> u32
    ensures told { result ≡ ok →
        (IsTrue equal.new ↔ (held_rows of.now.tree ≡ held_rows other.now.tree)) }
    ensures unchanged { result ≢ ok → equal.new ≡ equal.old }
    ensures checks { ReturnsFirst result
        ((no_column, HasColumn of.now.tree × HasColumn other.now.tree) ∷ []) (result ≡ ok) }
    ensures memory { result ≢ out_of_memory }
{
    let Some(first) = of.column() else {
        return NO_COLUMN;
    };
    let Some(second) = other.column() else {
        return NO_COLUMN;
    };
    *equal = equal_rows(first.as_column(), second.as_column());
    OK
}

/// Writes the rows as text, such as `[1,null,-3]`, without a terminating zero: as many bytes as
/// fit into `out`. Returns in `len` the number of bytes of the whole text. Strings are quoted as
/// in JSON; binary is written as `h"00ff"`, a list in brackets, a struct in parentheses.
///
/// Errors: SEL_ERROR_NO_COLUMN: `of` is empty.
#[unsafe(no_mangle)]
pub extern "C" fn sel_print(alloc: Global, of: &ColumnRef, out: &mut [u8], len: &mut usize) -> u32
    ensures { Prints result of.now.tree (held_text of.now.tree)
        out.old out.new len.old len.new }
{
    let Some(column) = of.column() else {
        return NO_COLUMN;
    };
    print_into(alloc, column, out, len)
}

/// Writes the type as text, such as `list<i64>`, without a terminating zero and without spaces: as
/// many bytes as fit into `out`. Returns in `len` the number of bytes of the whole text.
/// `sel_parse` reads the types of at most 64 levels of children.
///
/// Errors: SEL_ERROR_NO_COLUMN: `of` is empty.
#[unsafe(no_mangle)]
pub extern "C" fn sel_print_type(
    alloc: Global,
    of: &ColumnRef,
    out: &mut [u8],
    len: &mut usize,
) -> u32
    ensures { Prints result of.now.tree (held_type_text of.now.tree)
        out.old out.new len.old len.new }
{
    let Some(column) = of.column() else {
        return NO_COLUMN;
    };
    print_type_into(alloc, column, out, len)
}

/// Returns in `out` the column of the type `dtype`, such as `struct<list<i8>,fixed<2,utf8>>`, with
/// the rows of `text`, in the format that `sel_print` writes. Both are UTF-8. Between tokens there
/// may be white space as in JSON, and strings may have all of JSON's escapes. The types are null,
/// bool, i8 to i128, u8 to u128, binary (with offsets), binview and utf8 (views), list<..>,
/// fixed<n,..> and struct<..>.
///
/// Errors: SEL_ERROR_TYPE_SYNTAX: syntax error in `dtype`. SEL_ERROR_TEXT_LIMIT: the type has more
/// than 64 levels of children, or a list size of more than 4,294,967,295. SEL_ERROR_ROW_SYNTAX:
/// `text` is not that of rows of any type. SEL_ERROR_ROW_TYPE_MISMATCH: a value in `text` does not
/// fit the type; values are compared with their types as they end, so a list or struct of the wrong
/// length comes after its values. SEL_ERROR_TEXT_LIMIT: the column exceeds a size limit. After a
/// syntax error `at` is the index of the first byte with which no type or no rows go on, or the
/// length if the text ends too soon; after SEL_ERROR_ROW_TYPE_MISMATCH it is the index of the first
/// value that does not fit; with any other status it is unchanged.
#[unsafe(no_mangle)]
pub extern "C" fn sel_parse(
    alloc: Global,
    dtype: &[u8],
    text: &[u8],
    at: &mut usize,
    out: &mut Handle,
) -> u32
    ensures { Parses result dtype.now text.now at.old at.new out.old.tree out.new.tree }
{
    parse_into(alloc, dtype, text, at, out)
}
