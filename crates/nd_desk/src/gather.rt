//! `answer_gathered`: a line between `begin` and `end`, whose edits are made as one.

ghost use Rattle.std.specs.Prelude.{◌≡◌, ◌∷◌, ◌++◌, [], IfOk, OnErr, Some, map, slice_get};
ghost use Rattle.nd_model.specs.Book.Book.{DropInput, SetInput};
ghost use Rattle.nd_model.specs.Book.Script.{Bad, closed, with_source};
ghost use Rattle.nd_model.specs.Book.ScriptRuns.{IsInLine};
ghost use Rattle.nd_input.specs.Sources.{source_of};
ghost use Rattle.nd_script.specs.Lines.Answers.{Pushes};
ghost use Rattle.nd_script.specs.Lines.Run.{Answered};
ghost use Rattle.nd_script.specs.Words.Command.{line_of};
ghost use Rattle.nd_notebook.specs.Together.{name_in_owned, owned_edit_of, refused_of};
ghost use Rattle.nd_commands.specs.Noted.{Noted, noted_of};
ghost use Rattle.nd_commands.specs.Source.{lines_so_far, opening_of};
ghost use Rattle.nd_desk.specs.Answers.{desk, refused_answer};
ghost use Rattle.nd_desk.specs.Carry.{CarriedOut};
ghost use Rattle.nd_desk.specs.Gather.{Gathers};
ghost use Rattle.nd_desk.specs.Source.{stage_of};
ghost use Rattle.nd_desk.specs.Words.{
  Gathering,
  GatheringText,
  Plain,
  Together,
  gathered,
  gathered_line,
  is_end,
};

use crate::line::DeskSource;
use nd_commands::{OpenText, Opening, push_edit_fault};
use nd_notebook::{CellRule, Input, Meter, Notebook, OwnedEdit, RefusedEdit};
use nd_script::lines::AnswerWrite;
use nd_script::words::{LineCommand, command_of, is_end_of_source, push_number, push_text};
use std::alloc::{AllocError, Global};
use std::mem;

/// Carries out a line behind edits that are to be made as one. An edit is kept with them, without an
/// answer; at `end` all are made, and answered by one line. Memory may be wanted for keeping an edit:
/// then nothing is carried out.
pub fn answer_gathered<O: AnswerWrite>(
    alloc: Global,
    edits: Vec<OwnedEdit>,
    room: &mut Vec<u8>,
    line: &[u8],
    out: &mut O,
    meter: &mut Meter,
    notebook: &mut Notebook,
    ran: &mut Vec<usize>,
) -> Result<Option<DeskSource>, AllocError>
    requires { IsInLine line.now }
    ensures done { IfOk result (λ t. Answered desk (Gathering (map owned_edit_of edits.items))
        line.now (stage_of t) (noted_of notebook.old meter.old ran.old.items)
        (O.state out.old) (O.state out.new) (noted_of notebook.new meter.new ran.new.items)) }
    ensures unread { OnErr result (noted_of notebook.new meter.new ran.new.items
        ≡ noted_of notebook.old meter.old ran.old.items) }
    ensures unwritten { OnErr result (O.state out.new ≡ O.state out.old) }
{
    if is_end_of_edits(line) {
        make_together(edits, out, meter, notebook, ran);
        return Ok(None);
    }
    let command = command_of(alloc, line)?;
    let source = gather_command(alloc, edits, room, command, out)?;
    Ok(Some(source))
}

// Whether a line ends edits that are made as one.
fn is_end_of_edits(line: &[u8]) -> bool
    ensures { result ≡ is_end line.now }
{
    matches!(line, b"end")
}

// Makes edits as one, where none is refused, and tells how that ended.
fn make_together<O: AnswerWrite>(
    edits: Vec<OwnedEdit>,
    out: &mut O,
    meter: &mut Meter,
    notebook: &mut Notebook,
    ran: &mut Vec<usize>,
)
    ensures { CarriedOut (Together (map owned_edit_of edits.items))
        (noted_of notebook.old meter.old ran.old.items) (O.state out.old) (O.state out.new)
        (noted_of notebook.new meter.new ran.new.items) }
{
    if let Some(refused) = notebook.first_refused(&edits) {
        push_refused(out, &edits, refused);
        return;
    }
    match notebook.apply_together(meter, edits) {
        Ok(places) => {
            *ran = places;
            push_text(out, "ok\n");
        }
        Err(_) => push_text(out, "refused OutOfMemory\n"),
    }
}

// Appends the number of an edit that is refused, and why it is.
fn push_refused<O: AnswerWrite>(out: &mut O, edits: &[OwnedEdit], refused: RefusedEdit)
    ensures { Pushes (O.state out.old) (refused_answer (refused_of edits.now refused))
        (O.state out.new) }
{
    push_text(out, "refused ");
    push_number(out, refused.number as u64);
    push_text(out, " ");
    push_edit_fault(out, name_at(edits, refused.number), refused.fault);
    push_text(out, "\n");
}

// The name of the input that an edit of some is of.
fn name_at(edits: &[OwnedEdit], number: usize) -> &str
    ensures { result.now ≡ name_in_owned (slice_get edits.now number) }
{
    match edits.get(number) {
        Some(edit) => edit.input_name(),
        None => "",
    }
}

// Keeps the edit of a command, or opens its text. A question has no place behind edits.
fn gather_command<O: AnswerWrite>(
    alloc: Global,
    edits: Vec<OwnedEdit>,
    room: &mut Vec<u8>,
    command: LineCommand<'_>,
    out: &mut O,
) -> Result<DeskSource, AllocError>
    ensures done { IfOk result (λ t. Gathers
        (gathered_line (map owned_edit_of edits.items) (line_of command.entry))
        (O.state out.old) (stage_of (Some t)) (O.state out.new)) }
    ensures unwritten { OnErr result (O.state out.new ≡ O.state out.old) }
{
    match command {
        LineCommand::Insert(at) => Ok(open_text(alloc, edits, room, Opening::Insert(at))),
        LineCommand::Edit(at) => Ok(open_text(alloc, edits, room, Opening::Edit(at))),
        LineCommand::Remove(at) => keep_edit(edits, OwnedEdit::Remove(at)),
        LineCommand::Move { from, to } => keep_edit(edits, OwnedEdit::Move(from, to)),
        LineCommand::SetInput { name, input } => keep_input(alloc, edits, name, input),
        LineCommand::DropInput(name) => keep_drop(alloc, edits, name),
        LineCommand::PythonRule => keep_edit(edits, OwnedEdit::SetRule(CellRule::Python)),
        LineCommand::AtomicRule => keep_edit(edits, OwnedEdit::SetRule(CellRule::Atomic)),
        LineCommand::Silent => Ok(DeskSource::Edits(edits)),
        LineCommand::Show(_) => Ok(refuse_line(edits, out)),
        LineCommand::Source(_) => Ok(refuse_line(edits, out)),
        LineCommand::Names(_) => Ok(refuse_line(edits, out)),
        LineCommand::Value { .. } => Ok(refuse_line(edits, out)),
        LineCommand::Saved { .. } => Ok(refuse_line(edits, out)),
        LineCommand::Count => Ok(refuse_line(edits, out)),
        LineCommand::Bad => Ok(refuse_line(edits, out)),
    }
}

// A line that has no place behind edits, which stay.
fn refuse_line<O: AnswerWrite>(edits: Vec<OwnedEdit>, out: &mut O) -> DeskSource
    ensures { Gathers (Plain Bad ∷ [], Gathering (map owned_edit_of edits.items))
        (O.state out.old) (stage_of (Some result)) (O.state out.new) }
{
    push_text(out, "bad command\n");
    DeskSource::Edits(edits)
}

// A text without lines, for which the room is taken.
fn open_text(
    alloc: Global,
    edits: Vec<OwnedEdit>,
    room: &mut Vec<u8>,
    opening: Opening,
) -> DeskSource
    ensures { stage_of (Some result)
        ≡ GatheringText (map owned_edit_of edits.items) (opening_of opening) [] }
{
    let text = OpenText::new(opening, mem::replace(room, Vec::new(alloc)));
    DeskSource::EditText(edits, text)
}

// Keeps an edit behind others.
fn keep_edit(mut edits: Vec<OwnedEdit>, edit: OwnedEdit) -> Result<DeskSource, AllocError>
    ensures { IfOk result (λ t. stage_of (Some t)
        ≡ Gathering (map owned_edit_of edits.items ++ owned_edit_of edit ∷ [])) }
{
    edits.push(edit)?;
    Ok(DeskSource::Edits(edits))
}

// Keeps that an input is set.
fn keep_input(
    alloc: Global,
    edits: Vec<OwnedEdit>,
    name: &str,
    input: Input,
) -> Result<DeskSource, AllocError>
    ensures { IfOk result (λ t. stage_of (Some t) ≡ Gathering
        (map owned_edit_of edits.items ++ SetInput name.now (source_of input) ∷ [])) }
{
    match String::from_str(alloc, name) {
        Ok(name) => keep_edit(edits, OwnedEdit::SetInput(name, input)),
        Err(error) => {
            drop(input);
            drop(edits);
            Err(error)
        }
    }
}

// Keeps that an input is dropped.
fn keep_drop(alloc: Global, edits: Vec<OwnedEdit>, name: &str) -> Result<DeskSource, AllocError>
    ensures { IfOk result (λ t. stage_of (Some t) ≡ Gathering
        (map owned_edit_of edits.items ++ DropInput name.now ∷ [])) }
{
    let name = String::from_str(alloc, name)?;
    keep_edit(edits, OwnedEdit::DropInput(name))
}

/// Takes a line of the text of an edit that is to be made with others, or its end.
pub fn answer_gathered_text<O: AnswerWrite>(
    edits: Vec<OwnedEdit>,
    text: OpenText,
    room: &mut Vec<u8>,
    line: &[u8],
    out: &mut O,
) -> Result<Option<DeskSource>, AllocError>
    requires { IsInLine line.now }
    ensures done { IfOk result (λ t. (held : Noted) → Answered desk
        (GatheringText (map owned_edit_of edits.items) (opening_of text.opening)
        (lines_so_far text)) line.now (stage_of t) held (O.state out.old) (O.state out.new) held) }
    ensures unwritten { OnErr result (O.state out.new ≡ O.state out.old) }
{
    if is_end_of_source(line) {
        let source = close_text(edits, &text, out)?;
        *room = text.text;
        Ok(Some(source))
    } else {
        let text = text.with_line(line)?;
        Ok(Some(DeskSource::EditText(edits, text)))
    }
}

// Keeps the edit of a whole text.
fn close_text<O: AnswerWrite>(
    edits: Vec<OwnedEdit>,
    text: &OpenText,
    out: &mut O,
) -> Result<DeskSource, AllocError>
    ensures done { IfOk result (λ t. Gathers (gathered (map owned_edit_of edits.items)
        (closed (opening_of text.now.opening) (lines_so_far text.now)))
        (O.state out.old) (stage_of (Some t)) (O.state out.new)) }
    ensures unwritten { OnErr result (O.state out.new ≡ O.state out.old) }
{
    match str::from_utf8(text.bytes()) {
        Ok(source) => keep_text(edits, text.opening, source),
        Err(_) => Ok(refuse_line(edits, out)),
    }
}

// Keeps the edit that a text makes.
fn keep_text(
    edits: Vec<OwnedEdit>,
    opening: Opening,
    source: &str,
) -> Result<DeskSource, AllocError>
    ensures { IfOk result (λ t. stage_of (Some t) ≡ Gathering
        (map owned_edit_of edits.items ++ with_source (opening_of opening) source.now ∷ [])) }
{
    let source = String::from_str(*edits.allocator(), source)?;
    match opening {
        Opening::Insert(at) => keep_edit(edits, OwnedEdit::Insert(at, source)),
        Opening::Edit(at) => keep_edit(edits, OwnedEdit::Change(at, source)),
    }
}
