//! Runs the commands of an input, line by line.
ghost use Rattle.std.specs.Prelude.{◌≡◌, ℕ, List, [], ◌∷◌, IfOk, string_bytes, if◌then◌else◌, IfSome, true, None, Some, option_map};
ghost use Rattle.sel_lines.specs.Counted.{inner_of, failures_of, has_flushed, counted_up};
ghost use Rattle.sel_lines.specs.Output.{answer_at, output_from, first_bad_from, output};
ghost use Rattle.sel_lines.specs.RunError.{is_input_fault, is_output_fault};
ghost use Rattle.sel_lines.specs.Step.{Step, lines_in};
ghost use Rattle.sel_lines.specs.Run.{Runs};
ghost use Rattle.sel_lines.specs.declared.run.RunError.TheVariants.{OutOfMemory};

use crate::commands::answer_line;
use crate::counted::Counted;
use crate::reading::{LineEnd, read_line};
use crate::writing::{flush, send};
use std::alloc::{AllocError, AllocFailed, Global};
use std::io::{Read, Write};

/// The maximum line number.
pub const LAST_LINE: u64 = 4_294_967_295;

/// The end of a run: the end of the input, or the number of the first bad line.
#[derive(Clone, Copy, PartialEq, Eq)]
pub enum Done {
    End,
    BadLine(u64),
}

/// The error of a run: out of memory, or a failed read or write.
#[derive(Clone, Copy, PartialEq, Eq)]
pub enum RunError {
    OutOfMemory,
    Input,
    Output,
}

impl From<AllocError> for RunError {
    ghost from_gives = { λ _ e. e ≡ OutOfMemory };

    fn from(_error: AllocError) -> RunError {
        RunError::OutOfMemory
    }
}

impl<T: Drop> From<AllocFailed<T>> for RunError {
    ghost from_gives = { λ _ e. e ≡ OutOfMemory };

    fn from(_error: AllocFailed<T>) -> RunError {
        RunError::OutOfMemory
    }
}

/// Writes the answer to each line of the reader and a line feed to the writer.
///
/// For the first bad line it writes `bad line`, its number and a line feed, and returns
/// `Done::BadLine`; at the end of the input it returns `Done::End`. In both cases it has flushed
/// the writer after its last write. Reads nothing of the next line before the answer to a line is
/// written.
///
/// # Requires
/// The reader and the writer have counted no failures.
///
/// # Errors
/// `OutOfMemory` if an allocation fails; `Input` if a read fails; `Output` if a write or flush
/// fails, or a write accepts no bytes.
pub fn run<R: Read, W: Write>(
    alloc: Global,
    reader: &mut Counted<R>,
    writer: &mut Counted<W>,
) -> Result<Done, RunError>
    requires reader_whole { failures_of reader.old ≡ 0 }
    requires writer_whole { failures_of writer.old ≡ 0 }
    ensures runs { Runs result (R.remaining (inner_of reader.old))
        (R.remaining (inner_of reader.new))
        (W.contents (inner_of writer.old)) (W.contents (inner_of writer.new)) }
    ensures input { failures_of reader.new ≡ (if is_input_fault result then 1 else 0) }
    ensures output { failures_of writer.new ≡ (if is_output_fault result then 1 else 0) }
    ensures flushed { IfOk result (λ _. has_flushed writer.new ≡ true) }
{
    let mut line = Vec::new(alloc);
    let mut number = 1;
    'lines: loop {
        if let Some(done) = serve_line(alloc, number, &mut line, reader, writer)? {
            return Ok(done);
        }
        number += 1;
    }
}

// Reads one line and writes its result. Returns `None` if there may be more lines, and otherwise
// flushes the writer.
fn serve_line<R: Read, W: Write>(
    alloc: Global,
    number: u64,
    line: &mut Vec<u8>,
    reader: &mut Counted<R>,
    writer: &mut Counted<W>,
) -> Result<Option<Done>, RunError>
    ensures step { Step number result (R.remaining (inner_of reader.old))
        (R.remaining (inner_of reader.new))
        (W.contents (inner_of writer.old)) (W.contents (inner_of writer.new)) }
    ensures input { failures_of reader.new ≡
        counted_up (is_input_fault result) (failures_of reader.old) }
    ensures output { failures_of writer.new ≡
        counted_up (is_output_fault result) (failures_of writer.old) }
    ensures flushed { IfOk result (λ done. IfSome done (λ _. has_flushed writer.new ≡ true)) }
{
    let end = read_line(reader, line)?;
    let Reply { text, is_good } = reply_to(alloc, number, line, end)?;
    let sent = send(writer, text.as_bytes());
    drop(text);
    sent?;
    if !is_good {
        flush(writer)?;
        return Ok(Some(Done::BadLine(number)));
    }
    if end == LineEnd::Feed {
        return Ok(None);
    }
    flush(writer)?;
    Ok(Some(Done::End))
}

// The output for a line, and whether the line is good.
#[derive(Drop)]
struct Reply {
    text: String,
    is_good: bool,
}

// Returns the output for the bytes read, which are one line or none.
#[tactic(auto, unfolding(crate::specs::Output::output_from, crate::specs::Output::first_bad_from))]
fn reply_to(alloc: Global, number: u64, line: &[u8], end: LineEnd) -> Result<Reply, AllocError>
    ensures text { IfOk result (λ reply. string_bytes reply.text ≡
        output_from number (lines_in end line.now)) }
    ensures good { IfOk result (λ reply.
        first_bad_from number (lines_in end line.now) ≡
        (if reply.is_good then None else Some number)) }
{
    if line.is_empty() && end != LineEnd::Feed {
        return Ok(Reply {
            text: String::new(alloc),
            is_good: true,
        });
    }
    reply_to_line(alloc, number, line)
}

#[tactic(auto, unfolding(crate::specs::Output::output_from, crate::specs::Output::first_bad_from))]
fn reply_to_line(alloc: Global, number: u64, line: &[u8]) -> Result<Reply, AllocError>
    ensures text { IfOk result (λ reply. string_bytes reply.text ≡
        output_from number (line.now ∷ [])) }
    ensures good { IfOk result (λ reply.
        first_bad_from number (line.now ∷ []) ≡ (if reply.is_good then None else Some number)) }
{
    if let Some(mut text) = answer_numbered(alloc, number, line)? {
        text.push('\n')?;
        return Ok(Reply {
            text,
            is_good: true,
        });
    }
    let text = format!(in alloc; "bad line {number}\n")?;
    Ok(Reply {
        text,
        is_good: false,
    })
}

fn answer_numbered(alloc: Global, number: u64, line: &[u8]) -> Result<Option<String>, AllocError>
    ensures { IfOk result (λ answer. option_map string_bytes answer ≡
        answer_at number line.now) }
{
    if number > LAST_LINE {
        return Ok(None);
    }
    answer_line(alloc, line)
}
