//! `ScriptWriter`: writes the answers of a script to a writer.

ghost use Rattle.std.specs.Prelude.{◌≡◌, ℕ, ◌<◌, List, Option, length, is_ok, IfOk, IfErr, OnOk, OnErr};
ghost use Rattle.std.specs.Io.{WritesAtMost};
ghost use Rattle.std.specs.Io.KnownBytes.{WriteAppends};
ghost use Rattle.nd_script.specs.Lines.Ends.{counted_on, WriterState};
ghost use Rattle.nd_script.specs.Lines.Run.{Wrote};

use crate::lines::run_fault::RunFault;
use std::io;
use std::io::Write;
use std::marker::Model;

/// A writer that counts the writes that failed. A write of some bytes that takes none of them
/// counts as failed.
pub trait CountedWrite {
    /// The bytes that it holds, where they are known.
    ghost contents: { Self → Option (List ℕ) };

    /// The number of writes that failed or took nothing.
    ghost failures: { Self → ℕ };

    /// Writes the first bytes of the buffer, and returns how many.
    fn write_counted(&mut self, buffer: &[u8]) -> io::Result<usize>
        ensures bound { WritesAtMost result buffer.now }
        ensures bytes { WriteAppends (contents self.old) (contents self.new) result buffer.now }
        ensures kept { IfOk result (λ n. 0 < n → failures self.new ≡ failures self.old) }
        ensures kept_empty { OnOk result (length buffer.now ≡ 0
            → failures self.new ≡ failures self.old) }
        ensures took_none { IfOk result (λ n. n ≡ 0 → 0 < length buffer.now
            → failures self.new ≡ counted_on (failures self.old) 1) }
        ensures failed { OnErr result (failures self.new ≡ counted_on (failures self.old) 1) };
}

/// Counts the failed writes of any writer, which says itself which of them failed.
#[derive(Drop)]
pub struct ScriptWriter<W> {
    writer: W,
    failures: u64,
}

impl<W> Model for ScriptWriter<W> {
    ghost Value = { WriterState W };

    ghost view = { λ s. record { writer = s.writer; failures = s.failures } };
}

impl<W> ScriptWriter<W> {
    /// Returns a writer to which nothing is written yet.
    pub fn new(writer: W) -> ScriptWriter<W>
        ensures { result ≡ record { writer = writer; failures = 0 } }
    {
        ScriptWriter {
            writer,
            failures: 0,
        }
    }

    /// Returns the writer itself.
    pub fn into_inner(self) -> W
        ensures { result ≡ self.writer }
    {
        let ScriptWriter {
            writer,
            failures: _,
        } = self;
        writer
    }
}

impl<W: Write> CountedWrite for ScriptWriter<W> {
    ghost contents = { λ s. W.contents s.writer };

    ghost failures = { λ s. s.failures };

    fn write_counted(&mut self, buffer: &[u8]) -> io::Result<usize> {
        let result = self.writer.write(buffer);
        let took_none = matches!(result, Ok(0)) && !buffer.is_empty();
        if took_none || result.is_err() {
            self.failures = self.failures.saturating_add(1);
        }
        result
    }
}

/// Writes an answer, by as many calls as that takes. At a fault only its first bytes may be
/// written: of `ok` and a newline, none, one, or two.
pub fn write_answer<W: CountedWrite>(writer: &mut W, answer: &[u8]) -> Result<(), RunFault>
    ensures front { Wrote (W.contents writer.old) answer.now (is_ok result)
        (W.contents writer.new) }
    ensures kept { OnOk result (W.failures writer.new ≡ W.failures writer.old) }
    ensures fault { IfErr result (λ f. (f ≡ RunFault.WriteFault)
        × (W.failures writer.new ≡ counted_on (W.failures writer.old) 1)) }
{
    let mut rest = answer;
    while !rest.is_empty() {
        match writer.write_counted(rest) {
            Ok(0) | Err(_) => return Err(RunFault::WriteFault),
            Ok(n) => rest = &rest[n..],
        }
    }
    Ok(())
}
