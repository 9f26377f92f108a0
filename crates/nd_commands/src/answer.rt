//! `push_edit_answer` and the others: the answers to commands, as lines.

ghost use Rattle.std.specs.Prelude.{◌≡◌, ◌++◌, Some, codes, decimal, map, option_map, string_bytes};
ghost use Rattle.nd_model.specs.Text.FaultText as texts;
ghost use Rattle.nd_model.specs.Book.Script as script;
ghost use Rattle.nd_notebook.specs.Results.{refusal_of, saves_of};
ghost use Rattle.nd_notebook.specs.Edits.{edit_fault_of};
ghost use Rattle.nd_notebook.specs.Queries.{query_fault_of, result_of};
ghost use Rattle.nd_commands.specs.Answer.{edit_answer_of};
ghost use Rattle.nd_script.specs.Lines.Answers.{Pushes};

use crate::fault::push_cell_fault;
use indexmap::IndexMap;
use nd_notebook::{CellResult, EditFault, QueryFault, Refusal};
use nd_script::lines::AnswerWrite;
use nd_script::words::{push_count_line, push_hex, push_names, push_number, push_text};

/// Appends the answer to an edit of an input or a cell: `ok`, or the refusal, as
/// `refused NoCell 7 2` of a notebook of two cells.
pub fn push_edit_answer<O: AnswerWrite, T>(out: &mut O, name: &str, done: &Result<T, EditFault>)
    ensures { Pushes (O.state out.old) (edit_answer_of name.now done.now) (O.state out.new) }
{
    match done {
        Ok(_) => push_text(out, "ok\n"),
        Err(fault) => push_edit_refusal(out, name, *fault),
    }
}

/// Appends why an edit of an input or a cell is refused.
pub fn push_edit_refusal<O: AnswerWrite>(out: &mut O, name: &str, fault: EditFault)
    ensures { Pushes (O.state out.old)
        (script.edit_answer (Some (edit_fault_of name.now fault))) (O.state out.new) }
{
    push_text(out, "refused ");
    push_edit_fault(out, name, fault);
    push_text(out, "\n");
}

// A refusal with the name that it mentions.
fn push_words<O: AnswerWrite>(out: &mut O, refusal: &str, name: &str)
    ensures { Pushes (O.state out.old) (refusal.now ++ name.now) (O.state out.new) }
{
    push_text(out, refusal);
    push_text(out, name);
}

/// Appends the words of why an edit of an input or a cell is refused, such as `NoCell 7 2`.
pub fn push_edit_fault<O: AnswerWrite>(out: &mut O, name: &str, fault: EditFault)
    ensures { Pushes (O.state out.old) (texts.edit_fault_text (edit_fault_of name.now fault))
        (O.state out.new) }
{
    match fault {
        EditFault::NoCell(at, count) => push_no_cell(out, at, count),
        EditFault::TooManyCells => push_text(out, "TooManyCells"),
        EditFault::CellTooLong => push_text(out, "CellTooLong"),
        EditFault::BadInputName => push_text(out, "BadInputName"),
        EditFault::InputTooLarge => push_text(out, "InputTooLarge"),
        EditFault::NoInputNamed => push_words(out, "NoInputNamed ", name),
        EditFault::Memory(_) => push_text(out, "OutOfMemory"),
    }
}

/// Appends the refusal of a query for a name, such as `refused NoName x`.
pub fn push_query_refusal<O: AnswerWrite>(out: &mut O, name: &str, fault: QueryFault)
    ensures { Pushes (O.state out.old)
        (script.refused_line (texts.query_fault_text (query_fault_of name.now fault)))
        (O.state out.new) }
{
    push_text(out, "refused ");
    push_query_fault(out, name, fault);
    push_text(out, "\n");
}

fn push_query_fault<O: AnswerWrite>(out: &mut O, name: &str, fault: QueryFault)
    ensures { Pushes (O.state out.old) (texts.query_fault_text (query_fault_of name.now fault))
        (O.state out.new) }
{
    match fault {
        QueryFault::NoCell(at, count) => push_no_cell(out, at, count),
        QueryFault::NoName => push_words(out, "NoName ", name),
        QueryFault::NoSave => push_words(out, "NoSave ", name),
        QueryFault::Memory(_) => push_text(out, "OutOfMemory"),
    }
}

fn push_no_cell<O: AnswerWrite>(out: &mut O, at: usize, count: usize)
    ensures { Pushes (O.state out.old) (codes "NoCell " ++ decimal at ++ codes " " ++ decimal count)
        (O.state out.new) }
{
    push_text(out, "NoCell ");
    push_number(out, at as u64);
    push_text(out, " ");
    push_number(out, count as u64);
}

/// Appends the answer to `show`: a cell's text, refusal and files.
pub fn push_result_answer<O: AnswerWrite>(out: &mut O, shown: &CellResult)
    ensures { Pushes (O.state out.old) (script.result_answer (result_of shown.now))
        (O.state out.new) }
{
    push_count_line(out, "text", shown.text.len());
    push_text(out, shown.text.as_str());
    push_refusal(out, &shown.refusal);
    push_saves(out, &shown.saves);
    push_text(out, "end\n");
}

/// Appends how a cell ended: `ok`, or its refusal with the line, such as `refused 2 Stmt.NoName x`.
pub fn push_refusal<O: AnswerWrite>(out: &mut O, refusal: &Option<Refusal>)
    ensures { Pushes (O.state out.old) (script.ok_or_refused (option_map refusal_of refusal.now))
        (O.state out.new) }
{
    let Some(refusal) = refusal else {
        return push_text(out, "ok\n");
    };
    push_text(out, "refused ");
    push_number(out, refusal.line as u64);
    push_text(out, " ");
    push_cell_fault(out, &refusal.fault);
    push_text(out, "\n");
}

// A line for each file.
fn push_saves<O: AnswerWrite>(out: &mut O, saves: &IndexMap<String, Vec<u8>>)
    ensures { Pushes (O.state out.old) (script.save_lines (saves_of saves.now.entries))
        (O.state out.new) }
{
    for (name, bytes) in saves {
        push_text(out, "save ");
        push_count_line(out, name.as_str(), bytes.len());
    }
}

/// Appends the answer to `source`: a cell's text.
pub fn push_source_answer<O: AnswerWrite>(out: &mut O, source: &str)
    ensures { Pushes (O.state out.old) (script.source_answer source.now) (O.state out.new) }
{
    push_count_line(out, "source", source.len());
    push_text(out, source);
    push_text(out, "\n");
}

/// Appends the answer to `saved`: a file of a cell, in hex digits. An NPY file begins with
/// `saved 934e554d5059`.
pub fn push_save_answer<O: AnswerWrite>(out: &mut O, file: &[u8])
    ensures { Pushes (O.state out.old) (script.save_answer file.now) (O.state out.new) }
{
    push_text(out, "saved ");
    push_hex(out, file);
    push_text(out, "\n");
}

/// Appends the answer to `names`: those that are bound after a cell, a line each behind `names 2`.
pub fn push_names_answer<O: AnswerWrite>(out: &mut O, names: &[String])
    ensures { Pushes (O.state out.old) (script.names_answer (map string_bytes names.now))
        (O.state out.new) }
{
    push_count_line(out, "names", names.len());
    push_names(out, names);
}
