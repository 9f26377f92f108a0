//! `run_cell`: runs a cell's text over a session.

ghost use Rattle.std.specs.Prelude.{◌≡◌, ◌+◌, ◌-◌, ◌<◌, ◌≤◌, ◌^◌, ℕ, List, min, [], Ok, Some, IfOk, OnOk, option_map, string_bytes};
ghost use Rattle.nd_model.specs.Cells.Fault as refusals;
ghost use Rattle.nd_model.specs.Cells.Running as running;
ghost use Rattle.nd_model.specs.Cells.Running.{Running};
ghost use Rattle.nd_model.specs.Cells.Cell.{Ended, Saved, and_then, cell, ran, session_after, statement, statements, with_save};
ghost use Rattle.nd_model.specs.Cells.Footprint.{HasNone};
ghost use Rattle.nd_model.specs.Grammar.Tokens.{tokens_of_lines, tokens_of_stmt};
ghost use Rattle.nd_model.specs.Grammar.Reading.{reading};
ghost use Rattle.nd_reach.specs.Reach.{EndsInReach};
ghost use Rattle.nd_model.specs.Book.Records.{record_of};
ghost use Rattle.nd_syntax.specs.Trees.Syntax.{kind_of, lines_of, stmt_of};
ghost use Rattle.nd_model.specs.Cells.Session.{collected};
ghost use Rattle.nd_session.specs.Inputs.Values.{inputs_of, world_of};
ghost use Rattle.nd_session.specs.Session.Live.{live};
ghost use Rattle.nd_eval.specs.Done.{output_of};
ghost use Rattle.nd_cell.specs.Records.{recorded};
ghost use Rattle.nd_cell.specs.Results.{after_line, ended_of, refusal_of, saved_of, saves_of};

use crate::record::Record;
use crate::result::{CellFault, CellResult, Refusal};
use indexmap::IndexMap;
use nd_eval::{Output, StmtError, StmtFault, run_stmt};
use nd_meter::Meter;
use nd_parse::cells::{Line, ParseFault, parse_cell};
use nd_session::session::{CellRule, Inputs, OutOfMemory, Session};
use std::alloc::Global;

/// The most bytes of a cell's text.
const MOST_TEXT: usize = 1 << 20;

/// Keeps the file that a statement saves, if it saves one.
fn keep(
    saves: &mut IndexMap<String, Vec<u8>>,
    save: Option<(String, Vec<u8>)>,
) -> Result<(), OutOfMemory>
    ensures { OnOk result (saves_of saves.new.entries
        ≡ with_save (option_map saved_of save) (saves_of saves.old.entries)) }
{
    if let Some((name, file)) = save {
        saves.insert(name, file)?;
    }
    Ok(())
}

/// Adds the output of a statement to that of its cell. A text that gets too long refuses the line.
fn add_output(
    text: &mut String,
    saves: &mut IndexMap<String, Vec<u8>>,
    line: usize,
    output: Output,
) -> Result<Option<Refusal>, OutOfMemory>
    ensures { IfOk result (λ o. (x : Running) → (rest : List ℕ → Saved → Running → Ended)
        → and_then line (string_bytes text.old) (saves_of saves.old.entries)
        (Ok (output_of output), x) rest
        ≡ after_line o (string_bytes text.new) (saves_of saves.new.entries) x rest) }
{
    if text.len() + output.text.len() > MOST_TEXT {
        return Ok(Some(Refusal {
            line,
            fault: CellFault::Statement(StmtFault::Stmt(StmtError::TextTooLong)),
        }));
    }
    text.push_str(output.text.as_str())?;
    keep(saves, output.save)?;
    Ok(None)
}

/// Runs a line of a cell: its output is added to that of the lines before it, or it is refused.
fn run_line(
    session: &mut Session,
    inputs: &Inputs,
    line: &Line,
    text: &mut String,
    saves: &mut IndexMap<String, Vec<u8>>,
) -> Result<Option<Refusal>, OutOfMemory>
    requires { (live session.old).next + tokens_of_stmt (stmt_of line.now.stmt) < 2 ^ 64 }
    ensures meaning { IfOk result (λ o. (rest : List ℕ → Saved → Running → Ended)
        → and_then line.now.line (string_bytes text.old) (saves_of saves.old.entries)
        (statement (inputs_of inputs.now.entries) (stmt_of line.now.stmt) (live session.old)) rest
        ≡ after_line o (string_bytes text.new) (saves_of saves.new.entries) (live session.new)
        rest) }
    ensures numbers { OnOk result ((live session.new).next
        ≤ (live session.old).next + tokens_of_stmt (stmt_of line.now.stmt)) }
{
    match run_stmt(session, inputs, &line.stmt)? {
        Ok(output) => add_output(text, saves, line.line, output),
        Err(fault) => Ok(Some(Refusal {
            line: line.line,
            fault: CellFault::Statement(fault),
        })),
    }
}

/// Runs the lines of a cell, up to the first refusal. Between two lines, blocks that no later one
/// can come to are given up.
fn run_lines(
    session: &mut Session,
    inputs: &Inputs,
    lines: &[Line],
) -> Result<CellResult, OutOfMemory>
    requires { (live session.old).next + tokens_of_lines (lines_of lines.now) < 2 ^ 64 }
    ensures { IfOk result (λ r. EndsInReach
        (statements (inputs_of inputs.now.entries) (lines_of lines.now) [] [] (live session.old))
        (ended_of r (live session.new))) }
{
    let alloc = session.allocator();
    let mut text = String::new(alloc);
    let mut saves = IndexMap::new(alloc);
    for line in lines {
        let refusal = run_line(session, inputs, line, &mut text, &mut saves)?;
        if refusal.is_some() {
            return Ok(CellResult {
                text,
                refusal,
                saves,
            });
        }
        session.collect_due()?;
    }
    Ok(CellResult {
        text,
        refusal: None,
        saves,
    })
}

/// The result of a cell whose text does not parse: no text, no files, the fault.
fn unread(alloc: Global, fault: ParseFault) -> CellResult
    ensures text { string_bytes result.text ≡ [] }
    ensures refusal { option_map refusal_of result.refusal
        ≡ Some (fault.line, refusals.Parse (kind_of fault.kind) fault.column) }
    ensures saves { saves_of result.saves.entries ≡ [] }
{
    CellResult {
        text: String::new(alloc),
        refusal: Some(Refusal {
            line: fault.line,
            fault: CellFault::Parse(fault.kind, fault.column),
        }),
        saves: IndexMap::new(alloc),
    }
}

/// The result of a text, over a session in which its cell has begun. A text that does not parse
/// runs nothing.
fn run_text(session: &mut Session, inputs: &Inputs, text: &str) -> Result<CellResult, OutOfMemory>
    requires { (live session.old).next ≡ 0 }
    ensures { IfOk result (λ r. EndsInReach
        (ran (inputs_of inputs.now.entries) (reading text.now) (live session.old))
        (ended_of r (live session.new))) }
{
    // proof: the number of bytes is bounded, by the clause of as_bytes().
    let _bytes = text.as_bytes();
    match parse_cell(session.allocator(), text)? {
        Ok(lines) => run_lines(session, inputs, &lines),
        Err(fault) => Ok(unread(session.allocator(), fault)),
    }
}

/// Runs a cell of this label over a session, counts the run, and returns its record, with the
/// result. Where it is refused, the rule says what stands of it. After want of memory the session
/// may only be dropped.
///
/// The text `x = 1`, `print(x)`, `print(y)`, in three lines, gives the text `1` and a newline, and
/// the refusal `NoName y` at line 3. It has read that there is no `y`, and the rule: under `Python`
/// it binds `x`, under `Atomic` it binds nothing.
pub fn run_cell(
    meter: &mut Meter,
    session: &mut Session,
    inputs: &Inputs,
    rule: CellRule,
    label: u64,
    text: &str,
) -> Result<Record, OutOfMemory>
    requires { HasNone label (running.session_of (live session.old)) }
    ensures recorded { IfOk result (λ r. recorded r
        ≡ record_of label (reading text.now) (world_of (inputs_of inputs.now.entries) rule)
        (running.session_of (live session.old))) }
    ensures after { OnOk result (collected (running.session_of (live session.new))
        ≡ session_after (cell label (reading text.now)
        (world_of (inputs_of inputs.now.entries) rule) (running.session_of (live session.old)))) }
    ensures counted { meter.new ≡ min (meter.old + 1) (2 ^ 64 - 1) }
{
    meter.advance();
    session.soundness();
    session.start(label);
    let before = session.freeze()?;
    let gives = match run_text(session, inputs, text) {
        Ok(gives) => gives,
        Err(memory) => {
            drop(before);
            return Err(memory);
        }
    };
    let made = Record::of_run(session, before, inputs, rule, gives)?;
    Ok(made)
}
