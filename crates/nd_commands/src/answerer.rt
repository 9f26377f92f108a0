//! `NotebookAnswerer`: answers the lines of a script on a notebook.

ghost use Rattle.nd_script.specs.Lines.Counts.{plain};
ghost use Rattle.nd_script.proofs.lines.Plain.{plain_one_by_one};
ghost use Rattle.nd_commands.specs.Run.{tally_of};
ghost use Rattle.nd_commands.specs.Source.{stage_of};

use crate::line::answer_line;
use crate::source::OpenText;
use nd_notebook::{Meter, Notebook};
use nd_script::lines::{AnswerWrite, Answerer};
use nd_script::words::push_text;
use std::alloc::{AllocError, Global};

/// Answers the lines of a script on a notebook, whose runs a meter counts.
#[derive(Drop)]
pub struct NotebookAnswerer<'a> {
    pub alloc: Global,
    pub meter: &'a mut Meter,
    pub notebook: &'a mut Notebook,
    /// The source that is open, if any.
    pub source: &'a mut Option<OpenText>,
    /// Room for the next source.
    pub room: &'a mut Vec<u8>,
    /// The places of the cells that ran in the last edit that was done.
    pub ran: &'a mut Vec<usize>,
}

impl Answerer for NotebookAnswerer<'_> {
    ghost language = { plain };

    ghost stage = { λ s. stage_of s.source.now };

    ghost state = { λ s. tally_of s.notebook.now s.meter.now };

    ghost reference = { λ s. s.notebook.ghost_name };

    ghost meter_reference = { λ s. s.meter.ghost_name };

    ghost one_by_one = { plain_one_by_one };

    fn answer_line<O: AnswerWrite>(&mut self, line: &[u8], out: &mut O) -> Result<(), AllocError> {
        let source = self.source.take();
        *self.source = answer_line(
            self.alloc,
            source,
            self.room,
            line,
            out,
            self.meter,
            self.notebook,
            self.ran,
        )?;
        Ok(())
    }

    fn answer_end<O: AnswerWrite>(&self, out: &mut O) {
        if self.source.is_some() {
            push_text(out, "bad command\n");
        }
    }
}
