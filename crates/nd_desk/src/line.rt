//! `answer_desk_line`: a line of a script with words for front ends, carried out and answered.

ghost use Rattle.std.specs.Prelude.{◌≡◌, ℕ, [], IfOk, List, OnErr};
ghost use Rattle.nd_model.specs.Book.Script.{Between};
ghost use Rattle.nd_model.specs.Book.ScriptRuns.{IsInLine};
ghost use Rattle.nd_script.specs.Lines.Run.{Answered};
ghost use Rattle.nd_commands.specs.Noted.{noted_of};
ghost use Rattle.nd_commands.specs.Source.{lines_so_far};
ghost use Rattle.nd_desk.specs.Answers.{desk};
ghost use Rattle.nd_desk.specs.Carry.{CarriedOut};
ghost use Rattle.nd_desk.specs.Lines.{command_of};
ghost use Rattle.nd_desk.specs.Source.{plain_source, stage_of};
ghost use Rattle.nd_desk.specs.Words.{Plainly, Trying, closed_try};

use crate::answer::{push_ran, push_words};
use crate::carry::{save_file, set_file, show_reads, show_type, try_cell};
use crate::gather::{answer_gathered, answer_gathered_text};
use crate::part::show_part;
use crate::word::{DeskLine, DeskWord, desk_line};
use nd_commands::{OpenText, Opening, answer_line};
use nd_notebook::{Meter, Notebook, OwnedEdit};
use nd_script::lines::AnswerWrite;
use nd_script::words::{is_end_of_source, push_text};
use std::alloc::{AllocError, Global};
use std::mem;

/// What is collected line by line: a text, or edits that are to be made as one.
#[derive(Drop)]
pub enum DeskSource {
    /// That of a cell to be inserted or changed.
    Plain(OpenText),
    /// That of a cell to be tried, as if it were inserted.
    Try(usize, OpenText),
    /// Edits that are to be made as one, of which no text is open.
    Edits(Vec<OwnedEdit>),
    /// Edits that are to be made as one, and the text of the next of them.
    EditText(Vec<OwnedEdit>, OpenText),
}

// The text of an edit that is open, or none.
fn plain(text: Option<OpenText>) -> Option<DeskSource>
    ensures { result ≡ plain_source text }
{
    match text {
        Some(text) => Some(DeskSource::Plain(text)),
        None => None,
    }
}

/// Carries a line out, and appends its answer. What is open behind the line is returned. Memory may
/// be wanted for an input, for a text that the room does not hold, or for keeping an edit: then
/// nothing is carried out. An edit that is done puts the places of the cells that it ran into `ran`.
pub fn answer_desk_line<O: AnswerWrite>(
    rt: &HostRuntime,
    source: Option<DeskSource>,
    room: &mut Vec<u8>,
    line: &[u8],
    out: &mut O,
    meter: &mut Meter,
    notebook: &mut Notebook,
    ran: &mut Vec<usize>,
) -> Result<Option<DeskSource>, AllocError>
    requires { IsInLine line.now }
    ensures done { IfOk result (λ t. Answered desk (stage_of source) line.now (stage_of t)
        (noted_of notebook.old meter.old ran.old.items) (O.state out.old) (O.state out.new)
        (noted_of notebook.new meter.new ran.new.items)) }
    ensures unread { OnErr result (noted_of notebook.new meter.new ran.new.items
        ≡ noted_of notebook.old meter.old ran.old.items) }
    ensures unwritten { OnErr result (O.state out.new ≡ O.state out.old) }
{
    match source {
        None => answer_command(rt, room, line, out, meter, notebook, ran),
        Some(DeskSource::Plain(text)) => {
            let text = Some(text);
            let open = answer_line(rt.alloc(), text, room, line, out, meter, notebook, ran)?;
            Ok(plain(open))
        }
        Some(DeskSource::Try(at, text)) => {
            continue_try(at, text, room, line, out, meter, notebook)
        }
        Some(DeskSource::Edits(edits)) => {
            answer_gathered(rt.alloc(), edits, room, line, out, meter, notebook, ran)
        }
        Some(DeskSource::EditText(edits, text)) => {
            answer_gathered_text(edits, text, room, line, out)
        }
    }
}

// A line of a text that is tried, or its end.
fn continue_try<O: AnswerWrite>(
    at: usize,
    text: OpenText,
    room: &mut Vec<u8>,
    line: &[u8],
    out: &mut O,
    meter: &mut Meter,
    notebook: &Notebook,
) -> Result<Option<DeskSource>, AllocError>
    requires { IsInLine line.now }
    ensures done { IfOk result (λ t. (held : List ℕ) → Answered desk
        (Trying at (lines_so_far text)) line.now (stage_of t)
        (noted_of notebook.now meter.old held) (O.state out.old) (O.state out.new)
        (noted_of notebook.now meter.new held)) }
    ensures unread { OnErr result (meter.new ≡ meter.old) }
    ensures unwritten { OnErr result (O.state out.new ≡ O.state out.old) }
{
    if is_end_of_source(line) {
        close_try(at, &text, out, meter, notebook);
        *room = text.text;
        Ok(None)
    } else {
        let text = text.with_line(line)?;
        Ok(Some(DeskSource::Try(at, text)))
    }
}

// Tries the cell of a whole text.
fn close_try<O: AnswerWrite>(
    at: usize,
    text: &OpenText,
    out: &mut O,
    meter: &mut Meter,
    notebook: &Notebook,
)
    ensures { (held : List ℕ) → CarriedOut (closed_try at (lines_so_far text.now))
        (noted_of notebook.now meter.old held) (O.state out.old) (O.state out.new)
        (noted_of notebook.now meter.new held) }
{
    match str::from_utf8(text.bytes()) {
        Ok(source) => try_cell(out, meter, notebook, at, source),
        Err(_) => push_text(out, "bad command\n"),
    }
}

// A line outside a text.
fn answer_command<O: AnswerWrite>(
    rt: &HostRuntime,
    room: &mut Vec<u8>,
    line: &[u8],
    out: &mut O,
    meter: &mut Meter,
    notebook: &mut Notebook,
    ran: &mut Vec<usize>,
) -> Result<Option<DeskSource>, AllocError>
    requires { IsInLine line.now }
    ensures done { IfOk result (λ t. Answered desk (Plainly Between) line.now (stage_of t)
        (noted_of notebook.old meter.old ran.old.items) (O.state out.old) (O.state out.new)
        (noted_of notebook.new meter.new ran.new.items)) }
    ensures unread { OnErr result (noted_of notebook.new meter.new ran.new.items
        ≡ noted_of notebook.old meter.old ran.old.items) }
    ensures unwritten { OnErr result (O.state out.new ≡ O.state out.old) }
{
    match desk_line(line) {
        None => {
            let open = answer_line(rt.alloc(), None, room, line, out, meter, notebook, ran)?;
            Ok(plain(open))
        }
        Some(DeskLine::Try(at)) => Ok(Some(DeskSource::Try(at, open_try(rt.alloc(), room, at)))),
        Some(DeskLine::Begin) => Ok(Some(DeskSource::Edits(Vec::new(rt.alloc())))),
        Some(DeskLine::Word(word)) => {
            answer_word(rt, word, out, meter, notebook, ran);
            Ok(None)
        }
    }
}

// A text without lines, for which the room is taken.
fn open_try(alloc: Global, room: &mut Vec<u8>, at: usize) -> OpenText
    ensures { lines_so_far result ≡ [] }
{
    OpenText::new(Opening::Insert(at), mem::replace(room, Vec::new(alloc)))
}

// Carries out a word of one line.
fn answer_word<O: AnswerWrite>(
    rt: &HostRuntime,
    word: DeskWord<'_>,
    out: &mut O,
    meter: &mut Meter,
    notebook: &mut Notebook,
    ran: &mut Vec<usize>,
)
    ensures { CarriedOut (command_of word.entry) (noted_of notebook.old meter.old ran.old.items)
        (O.state out.old) (O.state out.new) (noted_of notebook.new meter.new ran.new.items) }
{
    match word {
        DeskWord::Words => push_words(out),
        DeskWord::Ran => push_ran(out, ran),
        DeskWord::Reads(at) => show_reads(out, notebook, at),
        DeskWord::Dtype { at, name } => show_type(rt.alloc(), out, notebook, at, name),
        DeskWord::Part { at, name, index } => {
            show_part(rt.alloc(), out, notebook, at, name, index);
        }
        DeskWord::SetFile { name, path, form } => {
            set_file(rt, out, meter, notebook, ran, name, path, form);
        }
        DeskWord::SaveFile { at, name, path } => save_file(rt, out, notebook, at, name, path),
    }
}
