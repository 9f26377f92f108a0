//! `OwnedEdit`: edits of a notebook that are gathered, and then made as one.

ghost use Rattle.std.specs.Prelude.{◌≡◌, IfOk, None, OnErr, OnOk, is_none, length, map, not, option_map};
ghost use Rattle.nd_model.specs.Cells.Session.{lookup};
ghost use Rattle.nd_model.specs.Book.Book as model;
ghost use Rattle.nd_model.specs.Book.Notebook.{Sheet, book_of, edited_sheet};
ghost use Rattle.nd_model.specs.Book.Stale.{CountsStale};
ghost use Rattle.nd_input.specs.Sources.{source_of};
ghost use Rattle.nd_session.specs.Inputs.Values.{rule_of};
ghost use Rattle.nd_schedule.specs.Schedule.Ran.{AreStale};
ghost use Rattle.nd_notebook.specs.Edits.{name_in};
ghost use Rattle.nd_notebook.specs.SoFar.{
  IsChecked,
  LeavesInput,
  fault_of,
  given_by,
  setting_of,
  so_far,
};
ghost use Rattle.nd_notebook.specs.Together.{
  edited_all,
  first_refused,
  owned_edit_of,
  refused_of,
};

use crate::edit::EditFault;
use crate::notebook::{MOST_CELLS, MOST_SOURCE, Notebook, check_input};
use crate::world::World;
use nd_cell::Meter;
use nd_schedule::schedule::Draft;
use nd_session::session::{
    CellRule, Input, OutOfMemory, has_input, is_input_name, with_input, without_input,
};

/// An edit that keeps its text or its input until it is made. Positions count from 0.
#[derive(Drop)]
pub enum OwnedEdit {
    /// A new cell at the position, which may be behind the last one.
    Insert(usize, String),
    /// Another text for the cell at the position.
    Change(usize, String),
    /// The cell at the first position goes to the second.
    Move(usize, usize),
    Remove(usize),
    /// An input under the name, in place of one that has it.
    SetInput(String, Input),
    /// The input of the name is dropped.
    DropInput(String),
    /// What stands of a cell that is refused.
    SetRule(CellRule),
}

impl OwnedEdit {
    /// Returns the name of the input that the edit is of; it is empty where the edit is of none.
    pub fn input_name(&self) -> &str
        ensures { result.now ≡ name_in (owned_edit_of self.now) }
    {
        match self {
            OwnedEdit::SetInput(name, _) | OwnedEdit::DropInput(name) => name.as_str(),
            _ => "",
        }
    }

    /// Whether an input has the name after the edit. It is `None` where that is as before the edit.
    fn leaves_input(&self, name: &str) -> Option<bool>
        ensures { LeavesInput name.now (owned_edit_of self.now) result }
    {
        match self {
            OwnedEdit::SetInput(set, _) => (name == set.as_str()).then_some(true),
            OwnedEdit::DropInput(dropped) => (name == dropped.as_str()).then_some(false),
            _ => None,
        }
    }
}

/// An edit of several that is refused: its number, from 0, and why it is.
#[derive(Clone, Copy, Debug)]
pub struct RefusedEdit {
    pub number: usize,
    pub fault: EditFault,
}

/// How many cells there are with a new one at a position, behind this many before.
fn check_insert(count: usize, at: usize, text: &str) -> Result<usize, EditFault>
    ensures { (s : Sheet) → count ≡ length s.cells
        → IsChecked (model.Insert at text.now) s result }
{
    if count < at {
        return Err(EditFault::NoCell(at, count));
    }
    if MOST_CELLS <= count {
        return Err(EditFault::TooManyCells);
    }
    if text.len() > MOST_SOURCE {
        return Err(EditFault::CellTooLong);
    }
    Ok(count + 1)
}

/// How many cells there are where one has another text.
fn check_change(count: usize, at: usize, text: &str) -> Result<usize, EditFault>
    ensures { (s : Sheet) → count ≡ length s.cells
        → IsChecked (model.Change at text.now) s result }
{
    if count <= at {
        return Err(EditFault::NoCell(at, count));
    }
    if text.len() > MOST_SOURCE {
        return Err(EditFault::CellTooLong);
    }
    Ok(count)
}

/// How many cells there are where one is moved. The position that it comes from is looked at first.
fn check_move(count: usize, from: usize, to: usize) -> Result<usize, EditFault>
    ensures { (s : Sheet) → count ≡ length s.cells → IsChecked (model.Move from to) s result }
{
    if count <= from {
        return Err(EditFault::NoCell(from, count));
    }
    if count <= to {
        return Err(EditFault::NoCell(to, count));
    }
    Ok(count)
}

/// How many cells there are without the one at a position.
fn check_remove(count: usize, at: usize) -> Result<usize, EditFault>
    ensures { (s : Sheet) → count ≡ length s.cells → IsChecked (model.Remove at) s result }
{
    if count <= at {
        return Err(EditFault::NoCell(at, count));
    }
    Ok(count - 1)
}

impl Notebook {
    /// Whether an input has the name after these edits, by the last of them that is of the name.
    fn has_input_after(&self, front: &[OwnedEdit], name: &str) -> bool
        ensures { is_none (lookup name.now
            (edited_all (map owned_edit_of front.now) self.now).given.inputs) ≡ not result }
    {
        for number in (0..front.len()).rev() {
            if let Some(has) = front[number].leaves_input(name) {
                return has;
            }
        }
        has_input(&self.schedule.world().inputs, name)
    }

    /// Refuses to drop an input after these edits, as no notebook does for want of memory.
    fn check_drop(&self, front: &[OwnedEdit], name: &str) -> Result<(), EditFault>
        ensures { model.refusal (model.DropInput name.now)
            (book_of (edited_all (map owned_edit_of front.now) self.now))
            ≡ fault_of (model.DropInput name.now) result }
    {
        if !is_input_name(name) {
            return Err(EditFault::BadInputName);
        }
        if !self.has_input_after(front, name) {
            return Err(EditFault::NoInputNamed);
        }
        Ok(())
    }

    /// How many cells there are after an edit, where the edits in front of it leave `count`.
    fn check_edit(
        &self,
        front: &[OwnedEdit],
        count: usize,
        edit: &OwnedEdit,
    ) -> Result<usize, EditFault>
        requires { count ≡ length (edited_all (map owned_edit_of front.now) self.now).cells }
        ensures { IsChecked (owned_edit_of edit.now)
            (edited_all (map owned_edit_of front.now) self.now) result }
    {
        match edit {
            OwnedEdit::Insert(at, text) => check_insert(count, *at, text.as_str()),
            OwnedEdit::Change(at, text) => check_change(count, *at, text.as_str()),
            OwnedEdit::Move(from, to) => check_move(count, *from, *to),
            OwnedEdit::Remove(at) => check_remove(count, *at),
            OwnedEdit::SetInput(name, input) => {
                check_input(name.as_str(), input)?;
                Ok(count)
            }
            OwnedEdit::DropInput(name) => {
                self.check_drop(front, name.as_str())?;
                Ok(count)
            }
            OwnedEdit::SetRule(_) => Ok(count),
        }
    }

    /// Returns the first of some edits that is refused where they are made one after another, want of
    /// memory aside. It takes no memory.
    ///
    /// On a notebook without cells, of `Insert(0, "x = 1")` and `Remove(7)` it is the second, number 1,
    /// for `NoCell(7, 1)`.
    pub fn first_refused(&self, edits: &[OwnedEdit]) -> Option<RefusedEdit>
        ensures { option_map (refused_of edits.now) result
            ≡ first_refused 0 (map owned_edit_of edits.now) (book_of self.now) }
    {
        let mut count = self.schedule.count();
        for (number, edit) in edits.iter().enumerate() {
            match self.check_edit(&edits[..number], count, edit) {
                Ok(then) => count = then,
                Err(fault) => return Some(RefusedEdit { number, fault }),
            }
        }
        None
    }
}

/// The cells, and what they are run by, as the edits so far will leave them.
#[derive(Drop)]
pub(crate) struct Gathered {
    draft: Draft,
    // where it is `None`, no edit so far was of an input or of the rule
    world: Option<World>,
}

impl Gathered {
    /// What the cells are to be run by.
    fn world<'a>(&'a self, notebook: &'a Notebook) -> &'a World
        ensures { setting_of result.now ≡ given_by notebook.now.given self.now.world }
    {
        match &self.world {
            Some(world) => world,
            None => notebook.schedule.world(),
        }
    }

    /// Sets an input, and copies no byte of it.
    fn set_input(
        &mut self,
        notebook: &Notebook,
        name: &str,
        input: Input,
    ) -> Result<(), OutOfMemory>
        ensures { OnOk result (so_far notebook.now self.new
            ≡ edited_sheet (model.SetInput name.now (source_of input))
            (so_far notebook.now self.old)) }
    {
        let world = self.world(notebook);
        let inputs = with_input(notebook.alloc, &world.inputs, name, input)?;
        let rule = world.rule;
        self.world = Some(World { inputs, rule });
        Ok(())
    }

    /// Drops the input of a name.
    fn drop_input(&mut self, notebook: &Notebook, name: &str) -> Result<(), OutOfMemory>
        ensures { OnOk result (so_far notebook.now self.new
            ≡ edited_sheet (model.DropInput name.now) (so_far notebook.now self.old)) }
    {
        let world = self.world(notebook);
        let inputs = without_input(&world.inputs, name)?;
        let rule = world.rule;
        self.world = Some(World { inputs, rule });
        Ok(())
    }

    /// Sets what stands of a cell that is refused.
    fn set_rule(&mut self, notebook: &Notebook, rule: CellRule) -> Result<(), OutOfMemory>
        ensures { OnOk result (so_far notebook.now self.new
            ≡ edited_sheet (model.SetRule (rule_of rule)) (so_far notebook.now self.old)) }
    {
        let inputs = self.world(notebook).inputs.clone()?;
        self.world = Some(World { inputs, rule });
        Ok(())
    }

    /// Makes an edit that is not refused. Want of memory alone stops it.
    fn make(&mut self, notebook: &Notebook, edit: OwnedEdit) -> Result<(), OutOfMemory>
        requires { model.refusal (owned_edit_of edit) (book_of (so_far notebook.now self.old))
            ≡ None }
        ensures { OnOk result (so_far notebook.now self.new
            ≡ edited_sheet (owned_edit_of edit) (so_far notebook.now self.old)) }
    {
        match edit {
            OwnedEdit::Insert(at, text) => Ok(self.draft.insert(at, text.as_str())?),
            OwnedEdit::Change(at, text) => Ok(self.draft.edit(at, text.as_str())?),
            OwnedEdit::Move(from, to) => {
                self.draft.move_cell(from, to);
                Ok(())
            }
            OwnedEdit::Remove(at) => {
                self.draft.remove(at);
                Ok(())
            }
            OwnedEdit::SetInput(name, input) => self.set_input(notebook, name.as_str(), input),
            OwnedEdit::DropInput(name) => self.drop_input(notebook, name.as_str()),
            OwnedEdit::SetRule(rule) => self.set_rule(notebook, rule),
        }
    }
}

impl Notebook {
    /// What edits of which none is refused leave. No cell runs.
    fn gather(&self, edits: Vec<OwnedEdit>) -> Result<Gathered, OutOfMemory>
        requires { first_refused 0 (map owned_edit_of edits.items) (book_of self.now) ≡ None }
        ensures { IfOk result (λ g. so_far self.now g
            ≡ edited_all (map owned_edit_of edits.items) self.now) }
    {
        let draft = self.schedule.draft()?;
        let mut gathered = Gathered { draft, world: None };
        for edit in edits {
            gathered.make(self, edit)?;
        }
        Ok(gathered)
    }

    /// Makes edits as one, of which none is refused, and returns the positions of the cells that ran,
    /// as they are then. Refused for want of memory alone; then no edit is made.
    ///
    /// What is stale after all of them runs, at most once each: a cell that is changed twice runs once.
    pub fn apply_together(
        &mut self,
        meter: &mut Meter,
        edits: Vec<OwnedEdit>,
    ) -> Result<Vec<usize>, OutOfMemory>
        requires { first_refused 0 (map owned_edit_of edits.items) (book_of self.old) ≡ None }
        ensures ok { OnOk result (self.new ≡ edited_all (map owned_edit_of edits.items) self.old) }
        ensures err { OnErr result (self.new ≡ self.old) }
        ensures counts { CountsStale (book_of self.old)
            (book_of (edited_all (map owned_edit_of edits.items) self.old)) meter.old meter.new }
        ensures ran { IfOk result (λ v. AreStale (book_of self.old)
            (book_of (edited_all (map owned_edit_of edits.items) self.old)) v.items) }
    {
        let Gathered { draft, world } = self.gather(edits)?;
        match world {
            Some(world) => Ok(self.schedule.replace(meter, draft, world)?),
            None => Ok(self.schedule.replace_cells(meter, draft)?),
        }
    }
}
