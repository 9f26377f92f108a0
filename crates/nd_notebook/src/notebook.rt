//! `Notebook`: cells that are edited, and whose answers are those of a fresh run.

ghost use Rattle.std.specs.Prelude.{◌≡◌, IfOk, OnErr, OnOk, length};
ghost use Rattle.nd_model.specs.Book.Book as model;
ghost use Rattle.nd_model.specs.Book.Notebook.{Answers, CountsRuns, no_sheet};
ghost use Rattle.nd_input.specs.Sources.{source_of};
ghost use Rattle.nd_session.specs.Inputs.Values.{rule_of};
ghost use Rattle.nd_notebook.specs.Edits.{IsRefusalOf, RanFor, outcome_of};
ghost use Rattle.nd_notebook.specs.SoFar.{fault_of};

use crate::edit::{Edit, EditFault};
use crate::kernel::SessionRunner;
use crate::query::{BoundValue, QueryFault, names_of};
use crate::world::World;
use indexmap::IndexMap;
use nd_cell::{CellResult, Meter};
use nd_schedule::schedule::Schedule;
use nd_session::session::{
    CellRule, Input, OutOfMemory, Version, has_input, is_input_name, with_input, without_input,
};
use std::alloc::Global;
use std::marker::Model;

/// The most cells of a notebook.
pub(crate) const MOST_CELLS: usize = 10_000;

/// The most bytes of a cell's text.
pub(crate) const MOST_SOURCE: usize = 65_536;

/// The most bytes that an input may take.
const MOST_INPUT: u128 = 67_108_864;

/// Refuses an input that no notebook takes under a name. Want of memory is none of its refusals.
pub(crate) fn check_input(name: &str, input: &Input) -> Result<(), EditFault>
    ensures refusal { IsRefusalOf (model.SetInput name.now (source_of input.now)) result }
    ensures fault { fault_of (model.SetInput name.now (source_of input.now)) result
        ≡ model.under_name name.now (model.fit_input (source_of input.now)) }
{
    if !is_input_name(name) {
        return Err(EditFault::BadInputName);
    }
    if MOST_INPUT < input.size() {
        return Err(EditFault::InputTooLarge);
    }
    Ok(())
}

/// The answer to an edit, without the positions of the cells that ran.
fn without_places(answer: Result<Vec<usize>, EditFault>) -> Result<(), EditFault>
    ensures { (e : model.Edit) → outcome_of e result ≡ outcome_of e answer }
{
    match answer {
        Ok(ran) => {
            drop(ran);
            Ok(())
        }
        Err(fault) => Err(fault),
    }
}

/// A list of cells under edits, with inputs and a rule, whose answers are those of running all cells
/// in order from nothing. Positions count from 0.
///
/// With the cells `x = np.arange(3)` and `print(x + 1)` the second one gives the text `[1 2 3]`.
/// After an edit of the first to `x = np.arange(2)` it gives `[1 2]`.
#[derive(Drop)]
pub struct Notebook {
    pub(crate) schedule: Schedule<SessionRunner>,
    pub(crate) alloc: Global,
}

impl Model for Notebook {
    ghost use Rattle.nd_model.specs.Book.Notebook.{Sheet};

    ghost Value = { Sheet };

    ghost view = { λ n. n.schedule };
}

impl Notebook {
    /// Returns a notebook without cells and inputs, under the rule `Python`. It takes no memory.
    pub fn new(alloc: Global) -> Notebook
        ensures { result ≡ no_sheet }
    {
        let world = World {
            inputs: IndexMap::new(alloc),
            rule: CellRule::Python,
        };
        let schedule = Schedule::new(alloc, world);
        Notebook { schedule, alloc }
    }

    /// Returns the number of cells.
    pub fn count(&self) -> usize
        ensures { result ≡ length self.now.cells }
    {
        self.schedule.count()
    }
}

impl Notebook {
    /// Inserts a cell at a position, which may be behind the last one, and returns the positions of
    /// the cells that ran: the new one, and those that it made stale.
    ///
    /// Refused in this order: no such position (`NoCell`), 10,000 cells already (`TooManyCells`), a
    /// text of more than 65,536 bytes (`CellTooLong`), want of memory.
    pub fn insert(
        &mut self,
        meter: &mut Meter,
        at: usize,
        source: &str,
    ) -> Result<Vec<usize>, EditFault>
        ensures answered { Answers (model.Insert at source.now) self.old
            (outcome_of (model.Insert at source.now) result) self.new }
        ensures counts { CountsRuns (model.Insert at source.now) self.old
            (outcome_of (model.Insert at source.now) result) meter.old meter.new }
        ensures ran { IfOk result (λ v. RanFor (model.Insert at source.now) self.old v.items) }
    {
        let count = self.schedule.count();
        if count < at {
            return Err(EditFault::NoCell(at, count));
        }
        if MOST_CELLS <= count {
            return Err(EditFault::TooManyCells);
        }
        if source.len() > MOST_SOURCE {
            return Err(EditFault::CellTooLong);
        }
        let ran = self.schedule.insert(meter, at, source)?;
        Ok(ran)
    }

    /// Gives the cell at a position another text, and returns the positions of the cells that ran.
    ///
    /// Refused in this order: no such cell (`NoCell`), a text of more than 65,536 bytes
    /// (`CellTooLong`), want of memory.
    pub fn edit(
        &mut self,
        meter: &mut Meter,
        at: usize,
        source: &str,
    ) -> Result<Vec<usize>, EditFault>
        ensures answered { Answers (model.Change at source.now) self.old
            (outcome_of (model.Change at source.now) result) self.new }
        ensures counts { CountsRuns (model.Change at source.now) self.old
            (outcome_of (model.Change at source.now) result) meter.old meter.new }
        ensures ran { IfOk result (λ v. RanFor (model.Change at source.now) self.old v.items) }
    {
        let count = self.schedule.count();
        if count <= at {
            return Err(EditFault::NoCell(at, count));
        }
        if source.len() > MOST_SOURCE {
            return Err(EditFault::CellTooLong);
        }
        let ran = self.schedule.edit(meter, at, source)?;
        Ok(ran)
    }

    /// Moves the cell at `from`, so that it is at `to` afterwards, and returns the positions of the
    /// cells that ran, as they are then.
    ///
    /// Refused where one of them has no cell, with the first such position (`NoCell`), and for want
    /// of memory.
    pub fn move_cell(
        &mut self,
        meter: &mut Meter,
        from: usize,
        to: usize,
    ) -> Result<Vec<usize>, EditFault>
        ensures answered { Answers (model.Move from to) self.old
            (outcome_of (model.Move from to) result) self.new }
        ensures counts { CountsRuns (model.Move from to) self.old
            (outcome_of (model.Move from to) result) meter.old meter.new }
        ensures ran { IfOk result (λ v. RanFor (model.Move from to) self.old v.items) }
    {
        let count = self.schedule.count();
        if count <= from {
            return Err(EditFault::NoCell(from, count));
        }
        if count <= to {
            return Err(EditFault::NoCell(to, count));
        }
        let ran = self.schedule.move_cell(meter, from, to)?;
        Ok(ran)
    }

    /// Removes the cell at a position, and returns the positions of the cells that ran. Refused where
    /// there is none (`NoCell`), and for want of memory.
    pub fn remove(&mut self, meter: &mut Meter, at: usize) -> Result<Vec<usize>, EditFault>
        ensures answered { Answers (model.Remove at) self.old
            (outcome_of (model.Remove at) result) self.new }
        ensures counts { CountsRuns (model.Remove at) self.old
            (outcome_of (model.Remove at) result) meter.old meter.new }
        ensures ran { IfOk result (λ v. RanFor (model.Remove at) self.old v.items) }
    {
        let count = self.schedule.count();
        if count <= at {
            return Err(EditFault::NoCell(at, count));
        }
        let ran = self.schedule.remove(meter, at)?;
        Ok(ran)
    }

    /// Sets the input under a name, in place of one that has it, and returns the positions of the cells
    /// that ran. The notebook keeps its bytes, and copies none. A refused input is dropped.
    ///
    /// Refused in this order: a name that no input may have (`BadInputName`), an input of more than
    /// 2^26 bytes (`InputTooLarge`), want of memory.
    pub fn set_input(
        &mut self,
        meter: &mut Meter,
        name: &str,
        input: Input,
    ) -> Result<Vec<usize>, EditFault>
        ensures answered { Answers (model.SetInput name.now (source_of input)) self.old
            (outcome_of (model.SetInput name.now (source_of input)) result) self.new }
        ensures counts { CountsRuns (model.SetInput name.now (source_of input)) self.old
            (outcome_of (model.SetInput name.now (source_of input)) result)
            meter.old meter.new }
        ensures ran { IfOk result
            (λ v. RanFor (model.SetInput name.now (source_of input)) self.old v.items) }
    {
        if let Err(fault) = check_input(name, &input) {
            return Err(fault);
        }
        let world = self.schedule.world();
        let inputs = with_input(self.alloc, &world.inputs, name, input)?;
        let rule = world.rule;
        let ran = self.schedule.set_world(meter, World { inputs, rule })?;
        Ok(ran)
    }

    /// Drops the input of a name, and returns the positions of the cells that ran.
    ///
    /// Refused in this order: a name that no input may have (`BadInputName`), no input of the name
    /// (`NoInputNamed`), want of memory.
    pub fn drop_input(&mut self, meter: &mut Meter, name: &str) -> Result<Vec<usize>, EditFault>
        ensures answered { Answers (model.DropInput name.now) self.old
            (outcome_of (model.DropInput name.now) result) self.new }
        ensures counts { CountsRuns (model.DropInput name.now) self.old
            (outcome_of (model.DropInput name.now) result) meter.old meter.new }
        ensures ran { IfOk result (λ v. RanFor (model.DropInput name.now) self.old v.items) }
    {
        if !is_input_name(name) {
            return Err(EditFault::BadInputName);
        }
        let world = self.schedule.world();
        if !has_input(&world.inputs, name) {
            return Err(EditFault::NoInputNamed);
        }
        let inputs = without_input(&world.inputs, name)?;
        let rule = world.rule;
        let ran = self.schedule.set_world(meter, World { inputs, rule })?;
        Ok(ran)
    }

    /// Sets what stands of a cell that is refused, and returns the positions of the cells that ran.
    /// Where the rule is another one, the cells that are refused run again, and those that read what
    /// they did. Where it is the present one, none does.
    ///
    /// Refused for want of memory alone.
    pub fn set_rule(&mut self, meter: &mut Meter, rule: CellRule) -> Result<Vec<usize>, EditFault>
        ensures answered { Answers (model.SetRule (rule_of rule)) self.old
            (outcome_of (model.SetRule (rule_of rule)) result) self.new }
        ensures counts { CountsRuns (model.SetRule (rule_of rule)) self.old
            (outcome_of (model.SetRule (rule_of rule)) result) meter.old meter.new }
        ensures ran { IfOk result (λ v. RanFor (model.SetRule (rule_of rule)) self.old v.items) }
    {
        let inputs = self.schedule.world().inputs.clone()?;
        let ran = self.schedule.set_world(meter, World { inputs, rule })?;
        Ok(ran)
    }
}

impl Notebook {
    ghost use Rattle.std.specs.Prelude.{◌+◌, ◌<◌, ◌≤◌, [], map, string_bytes};
    ghost use Rattle.nd_change.specs.Snapshots.{IsAlike};
    ghost use Rattle.nd_model.specs.Book.Entries.{session_before};
    ghost use Rattle.nd_model.specs.Book.Notebook.{book_of, Tells};
    ghost use Rattle.nd_session.specs.Session.Kept.{version_of};
    ghost use Rattle.nd_notebook.specs.Queries.{answer_of, bound_of, result_of};

    /// Returns the text of the cell at a position. Refused where no cell has it (`NoCell`). It
    /// takes no memory.
    pub fn source(&self, at: usize) -> Result<&str, QueryFault>
        ensures { answer_of [] (λ s. s.now) result ≡ model.source_at (book_of self.now) at }
    {
        let count = self.schedule.count();
        if count <= at {
            return Err(QueryFault::NoCell(at, count));
        }
        Ok(self.schedule.text(at))
    }

    /// Returns the result of the cell at a position. Refused where no cell has it (`NoCell`). It
    /// takes no memory.
    pub fn result(&self, at: usize) -> Result<&CellResult, QueryFault>
        ensures { answer_of [] (λ r. result_of r.now) result
            ≡ model.result_at (book_of self.now) at }
    {
        let count = self.schedule.count();
        if count <= at {
            return Err(QueryFault::NoCell(at, count));
        }
        Ok(self.schedule.record_at(at).result())
    }

    /// Returns the file that the cell at a position saved under this name. Refused in this order:
    /// no such cell (`NoCell`), no such file (`NoSave`). It takes no memory.
    pub fn file(&self, at: usize, name: &str) -> Result<&[u8], QueryFault>
        ensures { answer_of name.now (λ f. f.now) result
            ≡ model.saved_at (book_of self.now) at name.now }
    {
        match self.result(at) {
            Ok(shown) => shown.file(name).ok_or(QueryFault::NoSave),
            Err(fault) => Err(fault),
        }
    }

    /// A snapshot with the names, values and bytes before the cell at a position, or after the last
    /// one. Its names may stand in another order.
    fn version_like(&self, at: usize) -> Result<Version, OutOfMemory>
        requires { at ≤ length self.now.cells }
        ensures { IfOk result
            (λ v. IsAlike (version_of v) (session_before (book_of self.now) at)) }
    {
        let session = self.schedule.session_like(at)?;
        let frozen = session.freeze();
        drop(session);
        let version = frozen?;
        Ok(version)
    }

    /// Returns the names that are bound after the cell at a position, in the order in which they
    /// were bound first. After `x = 1`, `y = 2`, `x = 3` they are `x y`.
    ///
    /// Refused where no cell has the position (`NoCell`), and for want of memory.
    pub fn names(&self, at: usize) -> Result<Vec<String>, QueryFault>
        ensures { Tells (answer_of [] (λ v. map string_bytes v.items) result)
            (model.names_at (book_of self.now) at) }
    {
        let count = self.schedule.count();
        if count <= at {
            return Err(QueryFault::NoCell(at, count));
        }
        let order = self.schedule.names_before(at + 1)?;
        Ok(names_of(self.alloc, &order)?)
    }

    /// Returns the value of a name after the cell at a position. After `x = np.arange(3)`, `x` is
    /// an array of shape (3,) and `<i8`, with 24 bytes.
    ///
    /// Refused in this order: no such cell (`NoCell`), no such name (`NoName`), want of memory. No
    /// byte of an array is copied.
    pub fn value(&self, at: usize, name: &str) -> Result<BoundValue, QueryFault>
        ensures { Tells (answer_of name.now bound_of result)
            (model.value_at (book_of self.now) at name.now) }
    {
        let count = self.schedule.count();
        if count <= at {
            return Err(QueryFault::NoCell(at, count));
        }
        if !self.schedule.is_bound(at + 1, name) {
            return Err(QueryFault::NoName);
        }
        let version = self.version_like(at + 1)?;
        let value = match version.peek(name) {
            Some(value) => value.try_clone()?,
            None => return Err(QueryFault::NoName),
        };
        Ok(BoundValue { version, value })
    }
}

impl Notebook {
    ghost use Rattle.std.specs.Prelude.{map};
    ghost use Rattle.nd_model.specs.Book.Book.{AnswersUnderAnyLabels};
    ghost use Rattle.nd_model.specs.Book.Notebook.{book_of, AreAnswered};
    ghost use Rattle.nd_notebook.specs.Edits.{edit_of, outcomes_of};

    /// Sets a copy of an input that is lent. An input that is refused is not copied.
    fn set_copy(
        &mut self,
        meter: &mut Meter,
        name: &str,
        input: &Input,
    ) -> Result<Vec<usize>, EditFault>
        ensures answered { Answers (model.SetInput name.now (source_of input.now)) self.old
            (outcome_of (model.SetInput name.now (source_of input.now)) result) self.new }
        ensures counts { CountsRuns (model.SetInput name.now (source_of input.now)) self.old
            (outcome_of (model.SetInput name.now (source_of input.now)) result)
            meter.old meter.new }
        ensures ran { IfOk result
            (λ v. RanFor (model.SetInput name.now (source_of input.now)) self.old v.items) }
    {
        if let Err(fault) = check_input(name, input) {
            return Err(fault);
        }
        let copy = input.try_clone(self.alloc)?;
        self.set_input(meter, name, copy)
    }

    /// Makes an edit, or refuses it, and returns the positions of the cells that it ran. The input of
    /// an edit is lent, so the notebook keeps a copy.
    pub fn apply(&mut self, meter: &mut Meter, edit: Edit) -> Result<Vec<usize>, EditFault>
        ensures answered { Answers (edit_of edit.entry) self.old
            (outcome_of (edit_of edit.entry) result) self.new }
        ensures counts { CountsRuns (edit_of edit.entry) self.old
            (outcome_of (edit_of edit.entry) result) meter.old meter.new }
        ensures ran { IfOk result (λ v. RanFor (edit_of edit.entry) self.old v.items) }
    {
        match edit {
            Edit::Insert(at, source) => self.insert(meter, at, source),
            Edit::Change(at, source) => self.edit(meter, at, source),
            Edit::Move(from, to) => self.move_cell(meter, from, to),
            Edit::Remove(at) => self.remove(meter, at),
            Edit::SetInput(name, input) => self.set_copy(meter, name, input),
            Edit::DropInput(name) => self.drop_input(meter, name),
            Edit::SetRule(rule) => self.set_rule(meter, rule),
        }
    }

    /// Makes these edits one after another, and returns the answer to each; a refused one changes
    /// nothing. Without memory for the answers, no edit is made.
    ///
    /// On a notebook without cells, `Insert(0, "x = 1")` and `Remove(7)` are answered `Ok` and
    /// `NoCell(7, 1)`. Afterwards all queries answer what running all present cells in order from
    /// nothing gives, over the present inputs and under the present rule, whatever distinct labels
    /// the cells have.
    pub fn apply_all(
        &mut self,
        meter: &mut Meter,
        edits: &[Edit],
    ) -> Result<Vec<Result<(), EditFault>>, OutOfMemory>
        ensures answered { IfOk result (λ answers. AreAnswered
            (map edit_of edits.now) self.old meter.old
            (outcomes_of (map edit_of edits.now) answers.items) self.new meter.new) }
        ensures err { OnErr result (self.new ≡ self.old) }
        ensures err_counts { OnErr result (meter.new ≡ meter.old) }
        ensures any_labels { AnswersUnderAnyLabels (book_of self.new) }
    {
        self.schedule.distinctness();
        let mut answers = Vec::with_capacity(self.alloc, edits.len())?;
        for edit in edits {
            let answer = without_places(self.apply(meter, *edit));
            answers.push_reserved(answer);
        }
        self.schedule.distinctness();
        Ok(answers)
    }
}
