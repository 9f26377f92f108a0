//! `Script`: a script under way, of which some bytes have come.

ghost use Rattle.std.specs.Prelude.{◌≡◌, ◌≢◌, ◌==◌, ◌++◌, [], ◌≤◌, length, position, OnOk, OnErr, IfErr, is_ok};
ghost use Rattle.nd_script.specs.Lines.Ends.{counted_on};
ghost use Rattle.nd_model.specs.Book.ScriptRuns.{most_line, IsInLine};
ghost use Rattle.nd_script.specs.Lines.Run.{Finishes, FitsLine, IsTooLong, LineRuns, Runs, Stops, StopsAtEnd, StopsInLine, WroteEnd};

use crate::lines::answer_writer::AnswerWriter;
use crate::lines::answerer::Answerer;
use crate::lines::output::CountedWrite;
use crate::lines::run_fault::RunFault;
use std::alloc::Global;

// The most bytes of a line.
const MOST_LINE: usize = 1 << 28;

/// The state of a script between two of its bytes, apart from what its answerer knows. Behind
/// `cou` it has the bytes of a line that has not ended.
#[derive(Drop)]
pub struct Script {
    /// The open line, without a newline.
    pub line: Vec<u8>,
}

// The index of the first newline.
fn newline_in(bytes: &[u8]) -> Option<usize>
    ensures { result ≡ position (λ c. c == 10) bytes.now }
{
    bytes.iter().position(|byte| *byte == b'\n')
}

// Answers the end of a script.
fn answer_end<A: Answerer, W: CountedWrite>(answerer: &A, writer: &mut W) -> Result<(), RunFault>
    ensures answer { WroteEnd A.language (A.stage answerer.now) (A.state answerer.now)
        (W.contents writer.old) (is_ok result) (W.contents writer.new) }
    ensures fault { IfErr result (λ f. f ≡ RunFault.WriteFault) }
    ensures kept { OnOk result (W.failures writer.new ≡ W.failures writer.old) }
    ensures failed { OnErr result (W.failures writer.new ≡ counted_on (W.failures writer.old) 1) }
{
    let mut out = AnswerWriter::new(writer);
    answerer.answer_end(&mut out);
    out.finish()
}

impl Script {
    /// Returns the state before the first byte.
    pub fn new(alloc: Global) -> Script
        ensures { result.line.items ≡ [] }
    {
        Script {
            line: Vec::new(alloc),
        }
    }

    // Adds bytes to the open line.
    fn extend_line(&mut self, part: &[u8]) -> Result<(), RunFault>
        requires { length self.old.line.items ≤ most_line }
        ensures line { OnOk result (self.new.line.items ≡ self.old.line.items ++ part.now) }
        ensures fits { OnOk result (length self.new.line.items ≤ most_line) }
        ensures fault { IfErr result (IsTooLong (self.old.line.items ++ part.now)) }
    {
        if part.len() > MOST_LINE - self.line.len() {
            return Err(RunFault::LineTooLong);
        }
        self.line.extend_from_slice(part)?;
        Ok(())
    }

    // Ends the open line: it is carried out and answered.
    fn end_line<A: Answerer, W: CountedWrite>(
        &mut self,
        answerer: &mut A,
        writer: &mut W,
    ) -> Result<(), RunFault>
        requires { IsInLine self.old.line.items }
        ensures ok { OnOk result (LineRuns A.language (A.stage answerer.old) self.old.line.items
            (A.stage answerer.new)
            (A.state answerer.old) (W.contents writer.old)
            (W.contents writer.new) (A.state answerer.new)) }
        ensures line { OnOk result (self.new.line.items ≡ []) }
        ensures err { IfErr result (λ f. StopsInLine A.language f (A.stage answerer.old)
            self.old.line.items
            (A.state answerer.old) (W.contents writer.old)
            (W.contents writer.new) (A.state answerer.new)) }
        ensures kept { OnOk result (W.failures writer.new ≡ W.failures writer.old) }
        ensures failed { IfErr result (λ f. f ≡ RunFault.WriteFault
            → W.failures writer.new ≡ counted_on (W.failures writer.old) 1) }
        ensures same_reference { A.reference answerer.new ≡ A.reference answerer.old }
        ensures same_meter { A.meter_reference answerer.new ≡ A.meter_reference answerer.old }
    {
        let mut out = AnswerWriter::new(writer);
        answerer.answer_line(&self.line, &mut out)?;
        self.line.clear();
        out.finish()
    }

    /// Runs the next bytes of the script.
    pub fn take_bytes<A: Answerer, W: CountedWrite>(
        &mut self,
        bytes: &[u8],
        answerer: &mut A,
        writer: &mut W,
    ) -> Result<(), RunFault>
        requires { FitsLine self.old.line.items }
        ensures ok { OnOk result (Runs A.language (A.stage answerer.old) self.old.line.items
            bytes.now (A.stage answerer.new) self.new.line.items
            (A.state answerer.old) (W.contents writer.old)
            (W.contents writer.new) (A.state answerer.new)) }
        ensures fits { OnOk result (FitsLine self.new.line.items) }
        ensures err { IfErr result (λ f. Stops A.language f (A.stage answerer.old)
            self.old.line.items bytes.now
            (A.state answerer.old) (W.contents writer.old)
            (W.contents writer.new) (A.state answerer.new)) }
        ensures kept { OnOk result (W.failures writer.new ≡ W.failures writer.old) }
        ensures unread { IfErr result (λ f. f ≢ RunFault.ReadFault) }
        ensures failed { IfErr result (λ f. f ≡ RunFault.WriteFault
            → W.failures writer.new ≡ counted_on (W.failures writer.old) 1) }
        ensures same_reference { A.reference answerer.new ≡ A.reference answerer.old }
        ensures same_meter { A.meter_reference answerer.new ≡ A.meter_reference answerer.old }
    {
        let mut rest = bytes;
        while let Some(end) = newline_in(rest) {
            self.extend_line(&rest[..end])?;
            self.end_line(answerer, writer)?;
            rest = &rest[end + 1..];
        }
        self.extend_line(rest)
    }

    /// Runs what is left at the end of the script.
    pub fn finish<A: Answerer, W: CountedWrite>(
        &mut self,
        answerer: &mut A,
        writer: &mut W,
    ) -> Result<(), RunFault>
        requires { IsInLine self.old.line.items }
        ensures ok { OnOk result (Finishes A.language (A.stage answerer.old) self.old.line.items
            (A.state answerer.old) (W.contents writer.old)
            (W.contents writer.new) (A.state answerer.new)) }
        ensures err { IfErr result (λ f. StopsAtEnd A.language f (A.stage answerer.old)
            self.old.line.items
            (A.state answerer.old) (W.contents writer.old)
            (W.contents writer.new) (A.state answerer.new)) }
        ensures kept { OnOk result (W.failures writer.new ≡ W.failures writer.old) }
        ensures failed { IfErr result (λ f. f ≡ RunFault.WriteFault
            → W.failures writer.new ≡ counted_on (W.failures writer.old) 1) }
        ensures same_reference { A.reference answerer.new ≡ A.reference answerer.old }
        ensures same_meter { A.meter_reference answerer.new ≡ A.meter_reference answerer.old }
    {
        if !self.line.is_empty() {
            self.end_line(answerer, writer)?;
        }
        answer_end(answerer, writer)
    }
}
