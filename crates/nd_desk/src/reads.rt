//! `push_reads`: the answer to `reads`, which is what a cell read.

ghost use Rattle.std.specs.Prelude.{◌≡◌, ◌+◌, codes, length, map, pos};
ghost use Rattle.nd_desk.specs.Answers.{
  block_lines,
  cell_text,
  input_lines,
  name_lines,
  reads_answer,
};
ghost use Rattle.nd_notebook.specs.ReadsShown.{block_of, name_of, reads_of};
ghost use Rattle.nd_script.specs.Lines.Answers.{Pushes};

use nd_notebook::{BlockRead, CellReads, NameRead};
use nd_script::lines::AnswerWrite;
use nd_script::words::{push_integer, push_number, push_text};

/// Appends what a cell read: a line for each name, input and block, with the cells that they are of.
pub fn push_reads<O: AnswerWrite>(out: &mut O, reads: &CellReads<'_>)
    ensures { Pushes (O.state out.old) (reads_answer (reads_of reads.now)) (O.state out.new) }
{
    push_text(out, "reads ");
    push_integer(out, line_count(reads));
    push_text(out, "\n");
    push_names(out, &reads.names);
    push_inputs(out, &reads.inputs);
    push_blocks(out, &reads.blocks);
}

// How many lines there are. No `usize` may hold the sum.
fn line_count(reads: &CellReads<'_>) -> i128
    ensures { let r = reads_of reads.now in result
        ≡ pos (length r.names + length r.inputs + length r.blocks) }
{
    reads.names.len() as i128 + reads.inputs.len() as i128 + reads.blocks.len() as i128
}

// Each name, with the cell that last bound or unbound it.
fn push_names<O: AnswerWrite>(out: &mut O, names: &[NameRead<'_>])
    ensures { Pushes (O.state out.old) (name_lines (map name_of names.now)) (O.state out.new) }
{
    for read in names {
        push_text(out, "name ");
        push_text(out, read.name);
        push_text(out, " ");
        push_cell(out, read.cell);
        push_text(out, "\n");
    }
}

// Each input.
fn push_inputs<O: AnswerWrite>(out: &mut O, names: &[&str])
    ensures { Pushes (O.state out.old) (input_lines (map (λ n. n.now) names.now))
        (O.state out.new) }
{
    for name in names {
        push_text(out, "input ");
        push_text(out, name);
        push_text(out, "\n");
    }
}

// Each block, by the cell that made it and its number there, with the cell that last wrote it.
fn push_blocks<O: AnswerWrite>(out: &mut O, blocks: &[BlockRead])
    ensures { Pushes (O.state out.old) (block_lines (map block_of blocks.now)) (O.state out.new) }
{
    for read in blocks {
        push_text(out, "block ");
        push_cell(out, read.maker);
        push_text(out, " ");
        push_number(out, read.number);
        push_text(out, " ");
        push_cell(out, read.writer);
        push_text(out, "\n");
    }
}

// A cell by its position, or a dash where there is none.
fn push_cell<O: AnswerWrite>(out: &mut O, cell: Option<usize>)
    ensures { Pushes (O.state out.old) (cell_text cell) (O.state out.new) }
{
    match cell {
        Some(at) => push_number(out, at as u64),
        None => push_text(out, "-"),
    }
}
