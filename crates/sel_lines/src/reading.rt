//! Reads a line byte by byte, so that no byte of the next line is consumed.
ghost use Rattle.std.specs.Prelude.{◌≡◌, ◌≢◌, ℕ, List, is_err, IfOk, IfErr, OnErr, IfNone, None};
ghost use Rattle.std.specs.Option.{option_to_list};
ghost use Rattle.std.specs.Io.KnownBytes.{Consumes, Keeps, IsAtEnd};
ghost use Rattle.sel_lines.specs.Counted.{inner_of, failures_of, counted_up};
ghost use Rattle.sel_lines.specs.Lines.{HasNoFeed};
ghost use Rattle.sel_lines.specs.RunError.{is_input_fault};
ghost use Rattle.sel_lines.specs.Step.{piece, IsReadTo};

use crate::commands::LONGEST_LINE;
use crate::counted::Counted;
use crate::run::RunError;
use std::io::Read;

/// The end of a line.
#[derive(Clone, Copy, PartialEq)]
pub enum LineEnd {
    /// A line feed, which was consumed.
    Feed,
    /// The end of the input.
    Input,
    /// The line has one byte more than the longest allowed line; its rest is not read.
    TooLong,
}

/// Reads the next line into `line`, in place of its bytes and without the line feed, and returns
/// how it ends: `Input` at the end of the input, with no bytes if no line is left, and `TooLong`
/// after 1,048,577 bytes.
///
/// # Errors
/// `Input` if a read fails, which `reader` counts; `OutOfMemory` if an allocation fails. The bytes
/// that were read are consumed.
pub fn read_line<R: Read>(reader: &mut Counted<R>, line: &mut Vec<u8>) -> Result<LineEnd, RunError>
    ensures ok { IfOk result (λ end. HasNoFeed line.new.items
        × Consumes (R.remaining (inner_of reader.old)) (R.remaining (inner_of reader.new))
        (piece end line.new.items)
        × IsReadTo end line.new.items (R.remaining (inner_of reader.new))) }
    ensures err { OnErr result ((rest : List ℕ) × HasNoFeed rest
        × Consumes (R.remaining (inner_of reader.old)) (R.remaining (inner_of reader.new)) rest) }
    ensures fault { IfErr result (λ e. e ≢ RunError.Output) }
    ensures failures { failures_of reader.new ≡
        counted_up (is_input_fault result) (failures_of reader.old) }
{
    line.clear();
    for _ in 0..LONGEST_LINE + 1 {
        match read_byte(reader)? {
            None => return Ok(LineEnd::Input),
            Some(b'\n') => return Ok(LineEnd::Feed),
            Some(byte) => line.push(byte)?,
        }
    }
    Ok(LineEnd::TooLong)
}

// Returns the next byte, or `None` at the end of the input. Errors: `Input` if the read fails.
fn read_byte<R: Read>(reader: &mut Counted<R>) -> Result<Option<u8>, RunError>
    ensures ok { IfOk result (λ byte.
        Consumes (R.remaining (inner_of reader.old)) (R.remaining (inner_of reader.new))
        (option_to_list byte)) }
    ensures end { IfOk result (λ byte. IfNone byte (IsAtEnd (R.remaining (inner_of reader.new)))) }
    ensures err { OnErr result (Keeps (R.remaining (inner_of reader.old))
        (R.remaining (inner_of reader.new))) }
    ensures fault { IfErr result (λ e. e ≡ RunError.Input) }
    ensures failures { failures_of reader.new ≡
        counted_up (is_err result) (failures_of reader.old) }
{
    let mut byte = [0];
    match reader.read(&mut byte) {
        Ok(0) => Ok(None),
        Ok(_) => Ok(Some(byte[0])),
        Err(_) => Err(RunError::Input),
    }
}
