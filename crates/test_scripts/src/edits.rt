//! `run_row`: makes a list of edits on a notebook without cells, with the meter.

use nd_notebook::{CellRule, Edit, EditFault, Input, Meter, Notebook};
use nd_script::words::{LineCommand, command_of};
use std::alloc::{AllocError, Global};
use std::io;
use test_rows::unescape;

/// The words of a line: what is done, to which cell or input, and the rest of the line.
fn words_of(line: &str) -> Option<(&str, &str, &str)> {
    let (word, rest) = line.split_once(' ')?;
    let (which, behind) = rest.split_once(' ').unwrap_or((rest, ""));
    Some((word, which, behind))
}

/// The edit that sets the rule of this word.
fn rule_of<'a>(word: &str) -> Option<Edit<'a>> {
    match word {
        "python" => Some(Edit::SetRule(CellRule::Python)),
        "atomic" => Some(Edit::SetRule(CellRule::Atomic)),
        _ => None,
    }
}

/// The edit that a line says: `insert AT SOURCE`, `change AT SOURCE`, `move FROM TO`, `remove AT`,
/// `input NAME ..`, `drop NAME`, `rule python` or `rule atomic`. The input that it sets stands beside it.
fn edit_of<'a>(line: &'a str, input: &'a Input) -> Option<Edit<'a>> {
    let (word, which, behind) = words_of(line)?;
    match word {
        "input" => return Some(Edit::SetInput(which, input)),
        "drop" => return Some(Edit::DropInput(which)),
        "rule" => return rule_of(which),
        _ => {}
    }
    let at = which.parse().ok()?;
    match word {
        "insert" => Some(Edit::Insert(at, behind)),
        "change" => Some(Edit::Change(at, behind)),
        "move" => Some(Edit::Move(at, behind.parse().ok()?)),
        "remove" => Some(Edit::Remove(at)),
        _ => None,
    }
}

/// The lines, with what their escapes stand for.
fn unescape_lines(alloc: Global, lines: &str) -> io::Result<Vec<String>> {
    let mut texts = Vec::new(alloc);
    for line in lines.lines() {
        match unescape(alloc, line) {
            Ok(text) => texts.push(text)?,
            Err(_) => return Err(io::ErrorKind::InvalidData.into()),
        }
    }
    Ok(texts)
}

/// The input that a line sets; of a line that sets none, one without bytes.
fn input_of(alloc: Global, line: &str) -> io::Result<Input> {
    match command_of(alloc, line.as_bytes())? {
        LineCommand::SetInput { input, .. } => Ok(input),
        _ => Ok(Input::Npy(Vec::new(alloc))),
    }
}

/// For each line the input that it sets.
fn inputs_of(alloc: Global, lines: &[String]) -> io::Result<Vec<Input>> {
    let mut inputs = Vec::new(alloc);
    for line in lines {
        inputs.push(input_of(alloc, line.as_str())?)?;
    }
    Ok(inputs)
}

/// The edits that the lines say, over the input of each line.
fn edits_of<'a>(
    alloc: Global,
    lines: &'a [String],
    inputs: &'a [Input],
) -> io::Result<Vec<Edit<'a>>> {
    let mut edits = Vec::new(alloc);
    for (line, input) in lines.iter().zip(inputs) {
        match edit_of(line.as_str(), input) {
            Some(edit) => edits.push(edit)?,
            None => return Err(io::ErrorKind::InvalidData.into()),
        }
    }
    Ok(edits)
}

/// Prints what each cell of a notebook printed.
fn print_texts(rt: &HostRuntime, notebook: &Notebook) -> io::Result<()> {
    for at in 0..notebook.count() {
        if let Ok(result) = notebook.result(at) {
            println!(rt; "{at} {:?}", result.text)?;
        }
    }
    Ok(())
}

/// Prints the answer to each edit.
fn print_answers(rt: &HostRuntime, answers: &[Result<(), EditFault>]) -> io::Result<()> {
    for answer in answers {
        match answer {
            Ok(()) => println!(rt; "ok")?,
            Err(fault) => println!(rt; "{fault:?}")?,
        }
    }
    Ok(())
}

/// Makes the edits, and prints the answer to each, the runs that they took, and what the cells printed.
fn print_edits(rt: &HostRuntime, notebook: &mut Notebook, edits: &[Edit]) -> io::Result<()> {
    let mut meter = Meter::new(rt);
    let answers = match notebook.apply_all(&mut meter, edits) {
        Ok(answers) => answers,
        Err(memory) => return Err(AllocError::from(memory).into()),
    };
    print_answers(rt, &answers)?;
    println!(rt; "{} runs", meter.runs())?;
    print_texts(rt, notebook)
}

/// Makes the edits that stand below a title on a notebook without cells, and prints what they give.
pub(crate) fn run_row(rt: &HostRuntime, title: &str, lines: &str) -> io::Result<()> {
    println!(rt; "= edits: {title}")?;
    let texts = unescape_lines(rt.alloc(), lines)?;
    let inputs = inputs_of(rt.alloc(), &texts)?;
    let edits = edits_of(rt.alloc(), &texts, &inputs)?;
    let mut notebook = Notebook::new(rt.alloc());
    let printed = print_edits(rt, &mut notebook, &edits);
    drop(notebook);
    printed
}
