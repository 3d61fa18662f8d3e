//! Writes bytes completely, in as many writes as needed.
ghost use Rattle.std.specs.Prelude.{◌≡◌, ℕ, is_err, is_ok, take, OnOk, OnErr, IfErr};
ghost use Rattle.std.specs.Io.KnownBytes.{Appends, Keeps};
ghost use Rattle.sel_lines.specs.Counted.{inner_of, failures_of, has_flushed, counted_up};

use crate::counted::Counted;
use crate::run::RunError;
use std::io::Write;

/// Writes all of `text`.
///
/// # Errors
/// `Output` if a write fails or accepts no bytes, which `writer` counts. A beginning of `text` may
/// have been written.
pub fn send<W: Write>(writer: &mut Counted<W>, text: &[u8]) -> Result<(), RunError>
    ensures ok { OnOk result (Appends (W.contents (inner_of writer.old))
        (W.contents (inner_of writer.new)) text.now) }
    ensures err { OnErr result ((sent : ℕ)
        × Appends (W.contents (inner_of writer.old)) (W.contents (inner_of writer.new))
        (take sent text.now)) }
    ensures fault { IfErr result (λ e. e ≡ RunError.Output) }
    ensures failures { failures_of writer.new ≡
        counted_up (is_err result) (failures_of writer.old) }
{
    let mut sent = 0;
    while sent < text.len() {
        let Ok(count) = writer.write(&text[sent..]) else {
            return Err(RunError::Output);
        };
        if count == 0 {
            return Err(RunError::Output);
        }
        sent += count;
    }
    Ok(())
}

/// Flushes the writer.
///
/// # Errors
/// `Output` if the flush fails.
pub fn flush<W: Write>(writer: &mut Counted<W>) -> Result<(), RunError>
    ensures bytes { Keeps (W.contents (inner_of writer.old)) (W.contents (inner_of writer.new)) }
    ensures fault { IfErr result (λ e. e ≡ RunError.Output) }
    ensures failures { failures_of writer.new ≡
        counted_up (is_err result) (failures_of writer.old) }
    ensures flushed { has_flushed writer.new ≡ is_ok result }
{
    match writer.flush() {
        Ok(()) => Ok(()),
        Err(_) => Err(RunError::Output),
    }
}
