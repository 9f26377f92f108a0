//! `try_cell` and the others: words for front ends, carried out and answered.

ghost use Rattle.std.specs.Prelude.{ℕ, List};
ghost use Rattle.nd_commands.specs.Noted.{noted_of};
ghost use Rattle.nd_script.specs.Lines.Answers.{Pushes};
ghost use Rattle.nd_desk.specs.Carry.{Asked, CarriedOut};
ghost use Rattle.nd_desk.specs.Files.{unhad_text};
ghost use Rattle.nd_desk.specs.Lines.{sets};
ghost use Rattle.nd_desk.specs.Words.{AsksReads, AsksType, SavesFile, Tries};

use crate::answer::{push_trial, push_type};
use crate::file::{FileCause, replace_file};
use crate::form::FileForm;
use crate::reads::push_reads;
use nd_commands::{push_edit_refusal, push_query_refusal, set_input};
use nd_notebook::{EditFault, Meter, Notebook, is_input_name};
use nd_script::lines::AnswerWrite;
use nd_script::words::push_text;
use std::alloc::Global;
use std::io::ErrorKind;

/// Tries a cell at a position, and tells what it gives. The notebook stays as it is.
pub fn try_cell<O: AnswerWrite>(
    out: &mut O,
    meter: &mut Meter,
    notebook: &Notebook,
    at: usize,
    source: &str,
)
    ensures { (held : List ℕ) → CarriedOut (Tries at source.now)
        (noted_of notebook.now meter.old held) (O.state out.old) (O.state out.new)
        (noted_of notebook.now meter.new held) }
{
    match notebook.try_cell(meter, at, source) {
        Ok(tried) => {
            push_trial(out, tried.result());
            drop(tried);
        }
        Err(fault) => push_edit_refusal(out, "", fault),
    }
}

/// Tells what a cell read, and of which cells.
pub fn show_reads<O: AnswerWrite>(out: &mut O, notebook: &Notebook, at: usize)
    ensures { Asked (AsksReads at) notebook.now (O.state out.old) (O.state out.new) }
{
    match notebook.reads(at) {
        Ok(reads) => {
            push_reads(out, &reads);
            drop(reads);
        }
        Err(fault) => push_query_refusal(out, "", fault),
    }
}

/// Tells the dtype and the shape of a name's value after a cell.
pub fn show_type<O: AnswerWrite>(
    alloc: Global,
    out: &mut O,
    notebook: &Notebook,
    at: usize,
    name: &str,
)
    ensures { Asked (AsksType at name.now) notebook.now (O.state out.old) (O.state out.new) }
{
    match notebook.value(at, name) {
        Ok(value) => {
            push_type(alloc, out, &value);
            drop(value);
        }
        Err(fault) => push_query_refusal(out, name, fault),
    }
}

// Appends why a file is not to be had, behind a word for what was tried.
fn push_cause<O: AnswerWrite>(out: &mut O, tried: &str, kind: ErrorKind)
    ensures { Pushes (O.state out.old) (unhad_text tried.now kind) (O.state out.new) }
{
    if let ErrorKind::OutOfMemory = kind {
        return push_text(out, "refused OutOfMemory\n");
    }
    push_text(out, "refused ");
    push_text(out, tried);
    push_text(out, FileCause::of_kind(kind).name());
    push_text(out, "\n");
}

/// Sets an input to the file at a path, in a form. A name that no input may have is refused before
/// the file is opened. Where it is set, `ran` is the places of the cells that ran.
pub fn set_file<O: AnswerWrite>(
    rt: &HostRuntime,
    out: &mut O,
    meter: &mut Meter,
    notebook: &mut Notebook,
    ran: &mut Vec<usize>,
    name: &str,
    path: &str,
    form: FileForm<'_>,
)
    ensures { CarriedOut (sets name.now path.now form.entry)
        (noted_of notebook.old meter.old ran.old.items) (O.state out.old) (O.state out.new)
        (noted_of notebook.new meter.new ran.new.items) }
{
    if !is_input_name(name) {
        push_edit_refusal(out, name, EditFault::BadInputName);
        return;
    }
    match form.read(rt, path) {
        Ok(input) => set_input(out, meter, notebook, ran, name, input),
        Err(error) => push_cause(out, "Unread ", error.kind()),
    }
}

/// Writes a file that a cell saved to a path.
pub fn save_file<O: AnswerWrite>(
    rt: &HostRuntime,
    out: &mut O,
    notebook: &Notebook,
    at: usize,
    name: &str,
    path: &str,
)
    ensures { Asked (SavesFile at name.now path.now) notebook.now
        (O.state out.old) (O.state out.new) }
{
    match notebook.file(at, name) {
        Ok(file) => match replace_file(rt, path, file) {
            Ok(()) => push_text(out, "ok\n"),
            Err(error) => push_cause(out, "Unwritten ", error.kind()),
        },
        Err(fault) => push_query_refusal(out, name, fault),
    }
}
