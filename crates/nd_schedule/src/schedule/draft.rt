//! `Draft`: the cells of a notebook as several edits will leave them.

ghost use Rattle.std.specs.Prelude.{◌≡◌, ◌<◌, ◌≤◌, ℕ, IfOk, OnErr, OnOk, insert, length};
ghost use Rattle.nd_model.specs.Book.Book.{Change, Insert, Move, Remove, edited_cells};
ghost use Rattle.nd_schedule.specs.declared.schedule.draft.Hint.TheVariants as variants;

use crate::cells::{FreeLabel, KeptCell, fresh_label, make_room, move_item};
use crate::schedule::notebook::Schedule;
use crate::schedule::runner::CellRunner;
use std::alloc::{AllocError, Global};
use std::marker::Model;
use std::rc::Rc;

/// Where a cell of a draft stands in the notebook, as far as that is known. No answer depends on it.
#[derive(Clone, Copy, Drop)]
pub(crate) enum Hint {
    /// At this place, and no edit of the draft has moved it.
    At(usize),
    /// At this place, and an edit of the draft has moved it.
    Moved(usize),
    /// It is new.
    New,
}

impl Hint {
    /// Returns the hint of the cell once an edit has moved it.
    fn as_moved(self) -> Hint
        ensures at { (place : ℕ) → self ≡ variants.At place → result ≡ variants.Moved place }
        ensures moved { (place : ℕ) → self ≡ variants.Moved place → result ≡ self }
        ensures new { self ≡ variants.New → result ≡ self }
    {
        match self {
            Hint::At(place) | Hint::Moved(place) => Hint::Moved(place),
            Hint::New => Hint::New,
        }
    }
}

/// The cells of a notebook as several edits will leave them, none of which runs a cell.
#[derive(Drop)]
pub struct Draft {
    pub(crate) cells: Vec<Rc<KeptCell>>,
    pub(crate) hints: Vec<Hint>,
    // each number below it is the label of some cell
    pub(crate) least: usize,
    pub(crate) alloc: Global,
}

impl Model for Draft {
    ghost use Rattle.std.specs.Prelude.{◌≡◌, List, length};
    ghost use Rattle.nd_model.specs.Book.Book.{Cell, labels_of};
    ghost use Rattle.nd_model.specs.Book.Renaming.{AreDistinct};
    ghost use Rattle.nd_schedule.specs.Cells.Labels.{AreUsed};
    ghost use Rattle.nd_schedule.specs.Cells.Source.{cells_of};

    ghost Value = { List Cell };

    ghost view = { λ d. cells_of d.cells.items };

    ghost invariant = { λ d. AreDistinct (labels_of (cells_of d.cells.items))
        × (length d.hints.items ≡ length d.cells.items)
        × AreUsed d.least (cells_of d.cells.items) };
}

/// Puts a new cell at a place, with its hint. For want of memory both lists stay as they are.
fn put_new(
    cells: &mut Vec<Rc<KeptCell>>,
    hints: &mut Vec<Hint>,
    at: usize,
    cell: Rc<KeptCell>,
) -> Result<(), AllocError>
    requires cells { at ≤ length cells.old.items }
    requires hints { at ≤ length hints.old.items }
    ensures cells { OnOk result (cells.new.items ≡ insert cells.old.items at cell) }
    ensures hints { OnOk result (hints.new.items ≡ insert hints.old.items at variants.New) }
    ensures same_cells { OnErr result (cells.new.items ≡ cells.old.items) }
    ensures same_hints { OnErr result (hints.new.items ≡ hints.old.items) }
{
    make_room(cells, at, at, 1)?;
    make_room(hints, at, at, 1)?;
    // never fails, since there is room
    let _cell = cells.insert(at, cell);
    let _hint = hints.insert(at, Hint::New);
    Ok(())
}

impl<C: CellRunner> Schedule<C> {
    /// Returns a draft of the present cells, which shares their texts.
    pub fn draft(&self) -> Result<Draft, AllocError>
        ensures { IfOk result (λ d. d ≡ self.now.cells) }
    {
        let mut hints = Vec::with_capacity(self.alloc, self.cells.len())?;
        for place in 0..self.cells.len() {
            hints.push(Hint::At(place))?;
        }
        Ok(Draft {
            cells: self.cells.clone()?,
            hints,
            least: self.least,
            alloc: self.alloc,
        })
    }
}

impl Draft {
    /// Puts a new cell at the place, which may be behind the last one.
    pub fn insert(&mut self, at: usize, text: &str) -> Result<(), AllocError>
        requires { at ≤ length self.old }
        ensures ok { OnOk result (self.new ≡ edited_cells (Insert at text.now) self.old) }
        ensures err { OnErr result (self.new ≡ self.old) }
    {
        let FreeLabel { label, next } = fresh_label(self.alloc, &self.cells, self.least)?;
        let text = String::from_str(self.alloc, text)?;
        let cell = Rc::new(self.alloc, KeptCell { label, text })?;
        put_new(&mut self.cells, &mut self.hints, at, cell)?;
        self.least = next;
        Ok(())
    }

    /// Gives the cell at the place another text.
    pub fn edit(&mut self, at: usize, text: &str) -> Result<(), AllocError>
        requires { at < length self.old }
        ensures ok { OnOk result (self.new ≡ edited_cells (Change at text.now) self.old) }
        ensures err { OnErr result (self.new ≡ self.old) }
    {
        let label = self.cells[at].label;
        let text = String::from_str(self.alloc, text)?;
        self.cells[at] = Rc::new(self.alloc, KeptCell { label, text })?;
        Ok(())
    }

    /// Moves the cell at the first place, so that it stands at the second afterwards. It takes no memory.
    pub fn move_cell(&mut self, from: usize, to: usize)
        requires from { from < length self.old }
        requires to { to < length self.old }
        ensures { self.new ≡ edited_cells (Move from to) self.old }
    {
        if from == to {
            return;
        }
        self.hints[from] = self.hints[from].as_moved();
        move_item(&mut self.hints, from, to);
        move_item(&mut self.cells, from, to);
    }

    /// Takes the cell at the place out. It takes no memory.
    pub fn remove(&mut self, at: usize)
        requires { at < length self.old }
        ensures { self.new ≡ edited_cells (Remove at) self.old }
    {
        self.least = self.least.min(self.cells[at].label as usize);
        let _cell = self.cells.remove(at);
        let _hint = self.hints.remove(at);
    }
}
