//! `AnswerWriter`: writes an answer piece by piece, through a buffer that never grows.

ghost use Rattle.std.specs.Prelude.{◌≡◌, is_err, IfErr};
ghost use Rattle.nd_script.specs.Lines.Answers.{AnswerState, begun, Ends, Pushes, SendsBy};
ghost use Rattle.nd_script.specs.Lines.Writers.{state_of};
ghost use Rattle.nd_script.specs.declared.lines.run_fault.RunFault.TheVariants as faults;

use crate::lines::output::{CountedWrite, write_answer};
use crate::lines::run_fault::RunFault;
use arrayvec::ArrayVec;

/// Takes the pieces of an answer in order, without memory of its own. That a write failed is told
/// at the end of the answer.
pub trait AnswerWrite {
    /// The writer, and the bytes that are pending.
    ghost state: { Self → AnswerState };

    /// Appends bytes to the answer.
    fn push_bytes(&mut self, bytes: &[u8])
        ensures { Pushes (state self.old) bytes.now (state self.new) };
}

/// Writes an answer, up to 8 KiB a write. A longer piece is written by itself. After a failed
/// write no other is tried.
#[derive(Drop)]
pub struct AnswerWriter<'a, W> {
    pub(crate) writer: &'a mut W,
    pub(crate) pending: ArrayVec<u8, 8192>,
    pub(crate) has_failed: bool,
}

// Sends bytes to a writer, unless a write had failed. Returns whether one has failed now.
fn send<W: CountedWrite>(writer: &mut W, had_failed: bool, bytes: &[u8]) -> bool
    ensures { SendsBy had_failed result bytes.now (W.contents writer.old) (W.contents writer.new)
        (W.failures writer.old) (W.failures writer.new) }
{
    had_failed || write_answer(writer, bytes).is_err()
}

impl<W: CountedWrite> AnswerWriter<'_, W> {
    /// Returns a writer for an answer of which no byte is written yet.
    pub fn new(writer: &mut W) -> AnswerWriter<'_, W>
        ensures { state_of W.contents W.failures result
            ≡ begun writer.entry.ghost_name (W.contents writer.old) (W.failures writer.old) }
    {
        AnswerWriter {
            writer,
            pending: ArrayVec::new(),
            has_failed: false,
        }
    }

    /// Writes what is pending, and tells whether a write failed.
    pub fn finish(&mut self) -> Result<(), RunFault>
        ensures ends { Ends (state_of W.contents W.failures self.old) (is_err result)
            (state_of W.contents W.failures self.new) }
        ensures fault { IfErr result (λ f. f ≡ faults.WriteFault) }
    {
        if send(self.writer, self.has_failed, self.pending.as_slice()) {
            Err(RunFault::WriteFault)
        } else {
            Ok(())
        }
    }
}

impl<W: CountedWrite> AnswerWrite for AnswerWriter<'_, W> {
    ghost state = { state_of W.contents W.failures };

    fn push_bytes(&mut self, bytes: &[u8]) {
        if self.pending.try_extend_from_slice(bytes).is_ok() {
            return;
        }
        self.has_failed = send(self.writer, self.has_failed, self.pending.as_slice());
        self.pending.clear();
        if self.pending.try_extend_from_slice(bytes).is_err() {
            self.has_failed = send(self.writer, self.has_failed, bytes);
        }
    }
}
