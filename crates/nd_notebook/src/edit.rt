//! `Edit` and `EditFault`: the edits of a notebook, and why they are refused.

ghost use Rattle.std.specs.Prelude.{◌≡◌};
ghost use Rattle.nd_memory.specs.Want.{out_of_memory};
ghost use Rattle.nd_notebook.specs.declared.edit.EditFault.TheVariants as edits;

use nd_session::session::{CellRule, Input, OutOfMemory};
use std::alloc::AllocError;

/// An edit of a notebook. Positions count from 0.
#[derive(Clone, Copy)]
pub enum Edit<'a> {
    /// A new cell at the position, which may be behind the last one.
    Insert(usize, &'a str),
    /// Another text for the cell at the position.
    Change(usize, &'a str),
    /// The cell at the first position goes to the second.
    Move(usize, usize),
    Remove(usize),
    /// An input under the name, in place of one that has it.
    SetInput(&'a str, &'a Input),
    /// The input of the name is dropped.
    DropInput(&'a str),
    /// What stands of a cell that is refused.
    SetRule(CellRule),
}

impl<'a> Edit<'a> {
    ghost use Rattle.nd_notebook.specs.Edits.{edit_of, name_in};

    /// Returns the name of the input that the edit is of; it is empty where the edit is of none.
    pub fn input_name(self) -> &'a str
        ensures { result.now ≡ name_in (edit_of self.entry) }
    {
        match self {
            Edit::SetInput(name, _) | Edit::DropInput(name) => name,
            _ => "",
        }
    }
}

/// Why an edit is refused. The first reason that holds is answered, and want of memory last.
#[derive(Clone, Copy, Debug)]
pub enum EditFault {
    /// No cell has the position; with the number of cells.
    NoCell(usize, usize),
    /// The notebook has 10,000 cells already.
    TooManyCells,
    /// The text has more than 65,536 bytes.
    CellTooLong,
    /// The name does not have 1 to 64 bytes, each a digit, letter, `-`, `.` or `_`.
    BadInputName,
    /// The input takes more than 67,108,864 bytes.
    InputTooLarge,
    /// No input has the name.
    NoInputNamed,
    /// Want of memory. The notebook is as it was.
    Memory(OutOfMemory),
}

impl From<OutOfMemory> for EditFault {
    ghost from_gives = { λ _ e. e ≡ edits.Memory out_of_memory };

    fn from(memory: OutOfMemory) -> EditFault {
        EditFault::Memory(memory)
    }
}

impl From<AllocError> for EditFault {
    ghost from_gives = { λ _ e. e ≡ edits.Memory out_of_memory };

    fn from(refused: AllocError) -> EditFault {
        EditFault::Memory(refused.into())
    }
}
