//! Uniqueness of the notation, and that it is read as it is printed.

ghost use Rattle.sel_text.specs.Laws.{ColumnTypesAreWritten, RowTextIsSpelled, TextDeterminesRows, TextDeterminesType, RowTextIsNotation, TypeTextIsNotation, TypeTextIsSpelled};

/// Two lists of values that fit the same type are equal if their notations are equal: the type and
/// the notation of a column determine its rows. Tests that compare notations rely on this.
#[tactic(auto, using(crate::proofs::Told::texts_tell))]
pub fn law_text_determines_rows()
    ensures { TextDeterminesRows }
{}

/// Two types whose list sizes fit in 64 bits, as those of every column do, are equal if their
/// notations are equal. So if `parse_dtype` accepts the output of `print_dtype`, it returns the
/// same type.
pub fn law_text_determines_type()
    ensures { TextDeterminesType }
{}

/// The list sizes in the type of a well-formed column fit in 64 bits, as `parse_dtype` reads them.
#[tactic(auto, using(crate::proofs::ColumnTypes::column_written))]
pub fn law_column_types_are_written()
    ensures { ColumnTypesAreWritten }
{}

/// The text of a type whose list sizes fit in 64 bits, as those of every column do, is its own
/// canonical spelling: `parse_dtype` accepts the output of `print_dtype` and returns the same type,
/// unless the type is nested too deeply or memory is exhausted.
#[tactic(auto, using(crate::proofs::SpelledRows::type_spelled))]
pub fn law_type_text_is_spelled()
    ensures { TypeTextIsSpelled }
{}

/// The text of rows that fit their type is its own canonical spelling: `parse_column` accepts the
/// output of `print_rows`, unless the column would exceed a size limit or memory is exhausted.
#[tactic(auto, using(crate::proofs::SpelledRows::rows_spelled))]
pub fn law_row_text_is_spelled()
    ensures { RowTextIsSpelled }
{}

/// A text whose canonical spelling is the text of a type with list sizes that fit in 64 bits is in
/// the notation of types, in which `find_type_error` finds no error.
#[tactic(auto, using(crate::proofs::Respelled::type_respelled))]
pub fn law_type_text_is_notation()
    ensures { TypeTextIsNotation }
{}

/// A text whose canonical spelling is the text of rows that fit their type is in the notation of
/// rows, in which `find_row_error` finds no error.
#[tactic(auto, using(crate::proofs::Respelled::rows_respelled))]
pub fn law_row_text_is_notation()
    ensures { RowTextIsNotation }
{}
