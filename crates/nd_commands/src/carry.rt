//! `make_edit` and the others: commands, carried out and answered.

ghost use Rattle.std.specs.Prelude.{◌≡◌, MatchResult, codes, length};
ghost use Rattle.nd_model.specs.Book.Book.{SetInput};
ghost use Rattle.nd_model.specs.Book.Script as script;
ghost use Rattle.nd_model.specs.Book.Notebook.{book_of};
ghost use Rattle.nd_notebook.specs.Edits.{edit_of};
ghost use Rattle.nd_notebook.specs.Sources.{source_of};
ghost use Rattle.nd_script.specs.Lines.Answers.{Pushes};
ghost use Rattle.nd_commands.specs.Answer.{edit_answer_of};
ghost use Rattle.nd_commands.specs.Carry.{Carried};
ghost use Rattle.nd_commands.specs.Noted.{CarriedNoted, noted_of};

use crate::answer::{
    push_edit_answer, push_names_answer, push_query_refusal, push_result_answer, push_save_answer,
    push_source_answer,
};
use crate::value::push_value;
use nd_notebook::{Edit, EditFault, Input, Meter, Notebook};
use nd_script::lines::AnswerWrite;
use std::alloc::Global;

// Answers an edit. Where it is done, `ran` becomes the places of the cells that it ran.
fn answer_edit<O: AnswerWrite>(
    out: &mut O,
    ran: &mut Vec<usize>,
    name: &str,
    done: Result<Vec<usize>, EditFault>,
)
    ensures pushed { Pushes (O.state out.old) (edit_answer_of name.now done) (O.state out.new) }
    ensures ran { MatchResult done (λ v. ran.new.items ≡ v.items)
        (λ _. ran.new.items ≡ ran.old.items) }
{
    push_edit_answer(out, name, &done);
    if let Ok(places) = done {
        *ran = places;
    }
}

/// Makes an edit, and answers it. Where it is done, `ran` becomes the places of the cells that it
/// ran.
pub fn make_edit<O: AnswerWrite>(
    out: &mut O,
    meter: &mut Meter,
    notebook: &mut Notebook,
    ran: &mut Vec<usize>,
    edit: Edit<'_>,
)
    ensures { CarriedNoted (script.Edits (edit_of edit.entry))
        (noted_of notebook.old meter.old ran.old.items) (O.state out.old) (O.state out.new)
        (noted_of notebook.new meter.new ran.new.items) }
{
    let done = notebook.apply(meter, edit);
    answer_edit(out, ran, edit.input_name(), done);
}

/// Sets an input, which the notebook keeps, and answers that. Where it is set, `ran` becomes the
/// places of the cells that ran.
pub fn set_input<O: AnswerWrite>(
    out: &mut O,
    meter: &mut Meter,
    notebook: &mut Notebook,
    ran: &mut Vec<usize>,
    name: &str,
    input: Input,
)
    ensures { CarriedNoted (script.Edits (SetInput name.now (source_of input)))
        (noted_of notebook.old meter.old ran.old.items) (O.state out.old) (O.state out.new)
        (noted_of notebook.new meter.new ran.new.items) }
{
    let done = notebook.set_input(meter, name, input);
    answer_edit(out, ran, name, done);
}

/// Shows what a cell gives.
pub fn show_result<O: AnswerWrite>(out: &mut O, notebook: &Notebook, at: usize)
    ensures { Carried (script.Asks (script.Shows at)) (book_of notebook.now)
        (O.state out.old) (O.state out.new) (book_of notebook.now) }
{
    match notebook.result(at) {
        Ok(shown) => push_result_answer(out, shown),
        Err(fault) => push_query_refusal(out, "", fault),
    }
}

/// Shows a cell's source.
pub fn show_source<O: AnswerWrite>(out: &mut O, notebook: &Notebook, at: usize)
    ensures { Carried (script.Asks (script.ShowsSource at)) (book_of notebook.now)
        (O.state out.old) (O.state out.new) (book_of notebook.now) }
{
    match notebook.source(at) {
        Ok(source) => push_source_answer(out, source),
        Err(fault) => push_query_refusal(out, "", fault),
    }
}

/// Shows the names that are bound after a cell.
pub fn show_names<O: AnswerWrite>(out: &mut O, notebook: &Notebook, at: usize)
    ensures { Carried (script.Asks (script.ShowsNames at)) (book_of notebook.now)
        (O.state out.old) (O.state out.new) (book_of notebook.now) }
{
    match notebook.names(at) {
        Ok(names) => push_names_answer(out, &names),
        Err(fault) => push_query_refusal(out, "", fault),
    }
}

/// Shows a name's value after a cell. Memory is taken for the text of its dtype and for an element.
pub fn show_value<O: AnswerWrite>(
    alloc: Global,
    out: &mut O,
    notebook: &Notebook,
    at: usize,
    name: &str,
)
    ensures { Carried (script.Asks (script.ShowsValue at name.now)) (book_of notebook.now)
        (O.state out.old) (O.state out.new) (book_of notebook.now) }
{
    match notebook.value(at, name) {
        Ok(value) => {
            push_value(alloc, out, &value);
            drop(value);
        }
        Err(fault) => push_query_refusal(out, name, fault),
    }
}

/// Shows a file that a cell saved.
pub fn show_save<O: AnswerWrite>(out: &mut O, notebook: &Notebook, at: usize, name: &str)
    ensures { Carried (script.Asks (script.ShowsSave at name.now)) (book_of notebook.now)
        (O.state out.old) (O.state out.new) (book_of notebook.now) }
{
    match notebook.file(at, name) {
        Ok(file) => push_save_answer(out, file),
        Err(fault) => push_query_refusal(out, name, fault),
    }
}
