//! `answer_line`: a line of a script, carried out and answered.

ghost use Rattle.std.specs.Prelude.{◌≡◌, [], IfOk, OnErr};
ghost use Rattle.nd_model.specs.Book.Script as script;
ghost use Rattle.nd_script.specs.Words.Command.{line_of};
ghost use Rattle.nd_script.specs.Lines.Run.{Answered};
ghost use Rattle.nd_model.specs.Book.ScriptRuns.{IsInLine};
ghost use Rattle.nd_commands.specs.Carry.{CarriedLine};
ghost use Rattle.nd_commands.specs.Noted.{CarriedNoted, noted, noted_of};
ghost use Rattle.nd_commands.specs.Source.{lines_so_far, opening_of, stage_of};

use crate::carry::{
    make_edit, set_input, show_names, show_result, show_save, show_source, show_value,
};
use crate::source::{OpenText, Opening};
use nd_notebook::{CellRule, Edit, Meter, Notebook};
use nd_script::lines::AnswerWrite;
use nd_script::words::{LineCommand, command_of, is_end_of_source, push_count_line, push_text};
use std::alloc::{AllocError, Global};
use std::mem;

/// Carries a line out, and appends its answer. The source that is open behind the line is returned.
/// Memory may be wanted for an input, or for a source that the room does not hold: then nothing is
/// carried out. An edit that is done puts the places of the cells that it ran into `ran`.
pub fn answer_line<O: AnswerWrite>(
    alloc: Global,
    source: Option<OpenText>,
    room: &mut Vec<u8>,
    line: &[u8],
    out: &mut O,
    meter: &mut Meter,
    notebook: &mut Notebook,
    ran: &mut Vec<usize>,
) -> Result<Option<OpenText>, AllocError>
    requires { IsInLine line.now }
    ensures done { IfOk result (λ t. Answered noted (stage_of source) line.now (stage_of t)
        (noted_of notebook.old meter.old ran.old.items) (O.state out.old) (O.state out.new)
        (noted_of notebook.new meter.new ran.new.items)) }
    ensures unread { OnErr result (noted_of notebook.new meter.new ran.new.items
        ≡ noted_of notebook.old meter.old ran.old.items) }
    ensures unwritten { OnErr result (O.state out.new ≡ O.state out.old) }
{
    match source {
        None => answer_command(alloc, room, line, out, meter, notebook, ran),
        Some(source) => continue_source(source, room, line, out, meter, notebook, ran),
    }
}

// A line of a source, or its end.
fn continue_source<O: AnswerWrite>(
    source: OpenText,
    room: &mut Vec<u8>,
    line: &[u8],
    out: &mut O,
    meter: &mut Meter,
    notebook: &mut Notebook,
    ran: &mut Vec<usize>,
) -> Result<Option<OpenText>, AllocError>
    requires { IsInLine line.now }
    ensures done { IfOk result (λ t. Answered noted
        (script.Within (opening_of source.opening) (lines_so_far source)) line.now (stage_of t)
        (noted_of notebook.old meter.old ran.old.items) (O.state out.old) (O.state out.new)
        (noted_of notebook.new meter.new ran.new.items)) }
    ensures unread { OnErr result (noted_of notebook.new meter.new ran.new.items
        ≡ noted_of notebook.old meter.old ran.old.items) }
    ensures unwritten { OnErr result (O.state out.new ≡ O.state out.old) }
{
    if is_end_of_source(line) {
        close_source(&source, out, meter, notebook, ran);
        *room = source.text;
        Ok(None)
    } else {
        let source = source.with_line(line)?;
        Ok(Some(source))
    }
}

// Carries out the edit of a whole source.
fn close_source<O: AnswerWrite>(
    source: &OpenText,
    out: &mut O,
    meter: &mut Meter,
    notebook: &mut Notebook,
    ran: &mut Vec<usize>,
)
    ensures { CarriedNoted
        (script.closed (opening_of source.now.opening) (lines_so_far source.now))
        (noted_of notebook.old meter.old ran.old.items) (O.state out.old) (O.state out.new)
        (noted_of notebook.new meter.new ran.new.items) }
{
    match str::from_utf8(source.bytes()) {
        Ok(text) => make_edit(out, meter, notebook, ran, source.opening.edit(text)),
        Err(_) => push_text(out, "bad command\n"),
    }
}

// A line outside a source.
fn answer_command<O: AnswerWrite>(
    alloc: Global,
    room: &mut Vec<u8>,
    line: &[u8],
    out: &mut O,
    meter: &mut Meter,
    notebook: &mut Notebook,
    ran: &mut Vec<usize>,
) -> Result<Option<OpenText>, AllocError>
    ensures done { IfOk result (λ t. Answered noted script.Between line.now (stage_of t)
        (noted_of notebook.old meter.old ran.old.items) (O.state out.old) (O.state out.new)
        (noted_of notebook.new meter.new ran.new.items)) }
    ensures unread { OnErr result (noted_of notebook.new meter.new ran.new.items
        ≡ noted_of notebook.old meter.old ran.old.items) }
    ensures unwritten { OnErr result (O.state out.new ≡ O.state out.old) }
{
    let command = command_of(alloc, line)?;
    match command {
        LineCommand::Insert(at) => Ok(Some(open_source(alloc, room, Opening::Insert(at)))),
        LineCommand::Edit(at) => Ok(Some(open_source(alloc, room, Opening::Edit(at)))),
        _ => {
            answer_whole(alloc, command, out, meter, notebook, ran);
            Ok(None)
        }
    }
}

// A source without lines, for which the room is taken.
fn open_source(alloc: Global, room: &mut Vec<u8>, opening: Opening) -> OpenText
    ensures opening { result.opening ≡ opening }
    ensures lines { lines_so_far result ≡ [] }
{
    OpenText::new(opening, mem::replace(room, Vec::new(alloc)))
}

// Carries out a command of one line. One that opens a source has no answer yet.
fn answer_whole<O: AnswerWrite>(
    alloc: Global,
    command: LineCommand<'_>,
    out: &mut O,
    meter: &mut Meter,
    notebook: &mut Notebook,
    ran: &mut Vec<usize>,
)
    ensures { CarriedLine (line_of command.entry)
        (noted_of notebook.old meter.old ran.old.items) (O.state out.old) (O.state out.new)
        (noted_of notebook.new meter.new ran.new.items) }
{
    match command {
        LineCommand::Remove(at) => make_edit(out, meter, notebook, ran, Edit::Remove(at)),
        LineCommand::Move { from, to } => {
            make_edit(out, meter, notebook, ran, Edit::Move(from, to))
        }
        LineCommand::Show(at) => show_result(out, notebook, at),
        LineCommand::Source(at) => show_source(out, notebook, at),
        LineCommand::Names(at) => show_names(out, notebook, at),
        LineCommand::Value { at, name } => show_value(alloc, out, notebook, at, name),
        LineCommand::Saved { at, name } => show_save(out, notebook, at, name),
        LineCommand::SetInput { name, input } => set_input(out, meter, notebook, ran, name, input),
        LineCommand::DropInput(name) => make_edit(out, meter, notebook, ran, Edit::DropInput(name)),
        LineCommand::PythonRule => {
            make_edit(out, meter, notebook, ran, Edit::SetRule(CellRule::Python))
        }
        LineCommand::AtomicRule => {
            make_edit(out, meter, notebook, ran, Edit::SetRule(CellRule::Atomic))
        }
        LineCommand::Count => push_count_line(out, "count", notebook.count()),
        LineCommand::Bad => push_text(out, "bad command\n"),
        LineCommand::Insert(_) | LineCommand::Edit(_) | LineCommand::Silent => {}
    }
}
