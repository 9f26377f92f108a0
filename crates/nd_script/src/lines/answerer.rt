//! `Answerer`: what answers the lines of a script, one by one.

ghost use Rattle.std.specs.Prelude.{◌≡◌, OnOk, OnErr};
ghost use Rattle.std.specs.Borrow.{GName};
ghost use Rattle.nd_model.specs.Book.ScriptRuns.{IsInLine};
ghost use Rattle.nd_script.specs.Lines.Language.{Language, OneByOne};
ghost use Rattle.nd_script.specs.Lines.Run.{Answered, Ended};

use crate::lines::answer_writer::AnswerWrite;
use std::alloc::AllocError;

/// Answers the lines of a script in a language of its own. It knows the notebook, and where the
/// script stands.
pub trait Answerer {
    /// The language: the commands that a line completes, and what each may answer.
    ghost language: { Language };

    /// Where the script stands: outside a source, or in one.
    ghost stage: { Self → language.Stage };

    /// What the commands change: a notebook with its meter, as they are.
    ghost state: { Self → language.State };

    /// The reference to the notebook that it holds, which stays the same.
    ghost reference: { Self → GName };

    /// The reference to the meter that it holds, which stays the same.
    ghost meter_reference: { Self → GName };

    /// Carries a line out, and appends its answer. Memory may be wanted for reading the line alone:
    /// then nothing is carried out.
    fn answer_line<O: AnswerWrite>(&mut self, line: &[u8], out: &mut O) -> Result<(), AllocError>
        requires { IsInLine line.now }
        ensures done { OnOk result (Answered language (stage self.old) line.now (stage self.new)
            (state self.old) (O.state out.old) (O.state out.new) (state self.new)) }
        ensures unread { OnErr result (state self.new ≡ state self.old) }
        ensures unwritten { OnErr result (O.state out.new ≡ O.state out.old) }
        ensures same_reference { reference self.new ≡ reference self.old }
        ensures same_meter { meter_reference self.new ≡ meter_reference self.old };

    /// Appends the answer to the end of the script, where a source that is still open is refused.
    /// It changes nothing.
    fn answer_end<O: AnswerWrite>(&self, out: &mut O)
        ensures { Ended language (stage self.now) (state self.now)
            (O.state out.old) (O.state out.new) };

    /// A line completes at most one command, and the end of a script makes at most one.
    ghost one_by_one: { OneByOne language };
}
