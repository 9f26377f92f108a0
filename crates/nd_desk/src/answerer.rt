//! `DeskAnswerer`: answers the lines of a script with words for front ends.

ghost use Rattle.nd_commands.specs.Noted.{noted_of};
ghost use Rattle.nd_desk.specs.Answers.{desk};
ghost use Rattle.nd_desk.specs.Single.{desk_one_by_one};
ghost use Rattle.nd_desk.specs.Source.{stage_of};

use crate::line::{DeskSource, answer_desk_line};
use nd_notebook::{Meter, Notebook};
use nd_script::lines::{AnswerWrite, Answerer};
use nd_script::words::push_text;
use std::alloc::AllocError;

/// Answers the lines of a script with words for front ends, on a notebook whose runs a meter counts.
#[derive(Drop)]
pub struct DeskAnswerer<'a> {
    pub rt: &'a HostRuntime,
    pub meter: &'a mut Meter,
    pub notebook: &'a mut Notebook,
    /// What is open, if anything: a text, or edits that are to be made as one.
    pub source: &'a mut Option<DeskSource>,
    /// Room for the next text.
    pub room: &'a mut Vec<u8>,
    /// The places of the cells that ran in the last edit that was done.
    pub ran: &'a mut Vec<usize>,
}

impl Answerer for DeskAnswerer<'_> {
    ghost language = { desk };

    ghost stage = { λ s. stage_of s.source.now };

    ghost state = { λ s. noted_of s.notebook.now s.meter.now s.ran.now.items };

    ghost reference = { λ s. s.notebook.ghost_name };

    ghost meter_reference = { λ s. s.meter.ghost_name };

    ghost one_by_one = { desk_one_by_one };

    fn answer_line<O: AnswerWrite>(&mut self, line: &[u8], out: &mut O) -> Result<(), AllocError> {
        let source = self.source.take();
        *self.source = answer_desk_line(
            self.rt,
            source,
            self.room,
            line,
            out,
            self.meter,
            self.notebook,
            self.ran,
        )?;
        Ok(())
    }

    fn answer_end<O: AnswerWrite>(&self, out: &mut O) {
        if self.source.is_some() {
            push_text(out, "bad command\n");
        }
    }
}
