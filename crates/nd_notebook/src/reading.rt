//! `CellReads`: what a cell read, and the cells in front of it that did what it read.

ghost use Rattle.std.specs.Prelude.{◌≡◌, ◌↔◌, ◌<◌, ◌≤◌, ◌++◌, [], ◌∷◌, IfOk, IsTrue, OnOk, if◌then◌else◌, length, map};
ghost use Rattle.std.specs.List.{list_any};
ghost use Rattle.nd_model.specs.Book.Notebook.{book_of};
ghost use Rattle.nd_model.specs.Cells.Running.{Input};
ghost use Rattle.nd_heap.specs.Values.{base_of};
ghost use Rattle.nd_session.specs.Session.Changes.{writes_in};
ghost use Rattle.nd_session.specs.Session.Reads.{keys_of};
ghost use Rattle.nd_cell.specs.Records.{recorded};
ghost use Rattle.nd_notebook.specs.Readers.{AreAll, IsBlockRead, IsLast, IsNameRead, SetsName, TellsReads, WritesFor, run_at};
ghost use Rattle.nd_notebook.specs.ReadsShown.{block_of, name_of, reads_told};

use crate::notebook::Notebook;
use crate::query::QueryFault;
use nd_cell::Record;
use nd_session::session::{Base, Changes, Reads};
use std::alloc::AllocError;

/// A name that a cell read, and the last cell in front of it that bound or unbound the name. There is
/// none where the name was never bound.
#[derive(Clone, Copy, PartialEq, Eq, Drop)]
pub struct NameRead<'n> {
    pub name: &'n str,
    pub cell: Option<usize>,
}

/// A block of bytes that a cell read: the cell that made it, and which of that cell's blocks it is. The
/// writer is the last cell in front that made it, or wrote a byte of it that was read.
#[derive(Clone, Copy, PartialEq, Eq, Drop)]
pub struct BlockRead {
    pub maker: Option<usize>,
    pub number: u64,
    pub writer: Option<usize>,
}

/// What a cell read, by the record of its run: names, inputs and blocks, each once.
///
/// Names and inputs stand in the order of their first reads. Blocks of which a byte was read come before
/// those whose length alone was. No clause tells this order.
///
/// Behind `x = np.zeros(4)` and `x[1:] = 5` the cell `print(x[2])` has read the name `x` of cell 0. It
/// has read a block that cell 0 made and cell 1 wrote last.
#[derive(Drop)]
pub struct CellReads<'n> {
    pub names: Vec<NameRead<'n>>,
    pub inputs: Vec<&'n str>,
    pub blocks: Vec<BlockRead>,
}

/// Adds a value to a list, unless it is there.
fn note<T: Copy + Drop + PartialEq>(list: &mut Vec<T>, value: T) -> Result<(), AllocError>
    ensures { OnOk result (list.new.items ≡ (if list_any (λ y. T.eq y value) list.old.items
        then list.old.items else list.old.items ++ value ∷ [])) }
{
    if list.contains(&value) {
        return Ok(());
    }
    list.push(value)?;
    Ok(())
}

impl Notebook {
    /// The record of the run of the cell at a position.
    fn cell_record(&self, at: usize) -> &Record
        requires { at < length self.now.cells }
        ensures { recorded result.now ≡ run_at (book_of self.now) at }
    {
        self.schedule.record_at(at)
    }

    /// What the run of the cell at a position read.
    fn reads_at(&self, at: usize) -> &Reads
        requires { at < length self.now.cells }
        ensures { keys_of result.now ≡ (run_at (book_of self.now) at).read }
    {
        self.cell_record(at).reads()
    }

    /// What the run of the cell at a position did to its session.
    fn changes_at(&self, at: usize) -> &Changes
        requires { at < length self.now.cells }
        ensures label { result.now.label ≡ (run_at (book_of self.now) at).label }
        ensures writes { writes_in result.now ≡ (run_at (book_of self.now) at).effects.writes }
    {
        self.cell_record(at).changes()
    }

    /// Whether the run of the cell at a position bound or unbound a name.
    fn sets_name(&self, at: usize, name: &str) -> bool
        requires { at < length self.now.cells }
        ensures { IsTrue result ↔ SetsName name.now (run_at (book_of self.now) at) }
    {
        self.cell_record(at).last_of(name).is_some()
    }

    /// Whether the run of the cell at a position made a block.
    fn makes(&self, at: usize, base: Base) -> bool
        requires { at < length self.now.cells }
        ensures { IsTrue result ↔ ((base_of base).label ≡ (run_at (book_of self.now) at).label) }
    {
        base.label == self.changes_at(at).label()
    }

    /// Whether the run of the cell at a position made a block, or wrote a byte of it that the run of
    /// another cell read.
    fn writes_for(&self, reader: usize, base: Base, at: usize) -> bool
        requires reads { reader < length self.now.cells }
        requires writes { at < length self.now.cells }
        ensures { IsTrue result ↔ WritesFor (run_at (book_of self.now) reader) (base_of base)
            (run_at (book_of self.now) at) }
    {
        if self.makes(at, base) {
            return true;
        }
        self.reads_at(reader)
            .reads_written(self.changes_at(at), base)
    }

    /// The last cell in front of a position whose run bound or unbound a name.
    fn last_setter(&self, at: usize, name: &str) -> Option<usize>
        requires { at < length self.now.cells }
        ensures { IsLast (λ k. SetsName name.now (run_at (book_of self.now) k)) at result }
    {
        for place in (0..at).rev() {
            if self.sets_name(place, name) {
                return Some(place);
            }
        }
        None
    }

    /// The last cell in front of a position that made a block.
    fn maker_of(&self, at: usize, base: Base) -> Option<usize>
        requires { at < length self.now.cells }
        ensures { IsLast (λ k. (base_of base).label ≡ (run_at (book_of self.now) k).label)
            at result }
    {
        for place in (0..at).rev() {
            if self.makes(place, base) {
                return Some(place);
            }
        }
        None
    }

    /// The last cell in front of a position that made a block, or wrote a byte of it that the cell at
    /// the position read.
    fn writer_of(&self, at: usize, base: Base) -> Option<usize>
        requires { at < length self.now.cells }
        ensures { IsLast (λ k. WritesFor (run_at (book_of self.now) at) (base_of base)
            (run_at (book_of self.now) k)) at result }
    {
        for place in (0..at).rev() {
            if self.writes_for(at, base, place) {
                return Some(place);
            }
        }
        None
    }

    /// What is told of a block that the cell at a position read.
    fn block_read(&self, at: usize, base: Base) -> BlockRead
        requires { at < length self.now.cells }
        ensures maker { IsLast (λ k. (base_of base).label ≡ (run_at (book_of self.now) k).label)
            at result.maker }
        ensures number { result.number ≡ (base_of base).number }
        ensures writer { IsLast (λ k. WritesFor (run_at (book_of self.now) at) (base_of base)
            (run_at (book_of self.now) k)) at result.writer }
    {
        BlockRead {
            maker: self.maker_of(at, base),
            number: base.number,
            writer: self.writer_of(at, base),
        }
    }

    /// The names that the cell at a position read.
    fn names_read(&self, at: usize) -> Result<Vec<NameRead<'_>>, AllocError>
        requires { at < length self.now.cells }
        ensures { IfOk result
            (λ v. AreAll (IsNameRead (book_of self.now) at) (map name_of v.items)) }
    {
        let reads = self.reads_at(at);
        let mut names = Vec::new(self.alloc);
        for place in 0..reads.name_count() {
            let name = reads.name_at(place);
            let cell = self.last_setter(at, name);
            note(&mut names, NameRead { name, cell })?;
        }
        Ok(names)
    }

    /// The inputs that the cell at a position read.
    fn inputs_read(&self, at: usize) -> Result<Vec<&str>, AllocError>
        requires { at < length self.now.cells }
        ensures { IfOk result (λ v. AreAll (λ n.
            IsTrue ((run_at (book_of self.now) at).read (Input n))) (map (λ s. s.now) v.items)) }
    {
        let reads = self.reads_at(at);
        let mut inputs = Vec::new(self.alloc);
        for place in 0..reads.input_count() {
            note(&mut inputs, reads.input_at(place))?;
        }
        Ok(inputs)
    }

    /// The blocks that the cell at a position read: those of which it read a byte come before those
    /// of which it read the length alone.
    fn blocks_read(&self, at: usize) -> Result<Vec<BlockRead>, AllocError>
        requires { at < length self.now.cells }
        ensures { IfOk result
            (λ v. AreAll (IsBlockRead (book_of self.now) at) (map block_of v.items)) }
    {
        let reads = self.reads_at(at);
        let mut blocks = Vec::new(self.alloc);
        for place in 0..reads.block_count() {
            let base = reads.block_at(place);
            if reads.reads_bytes(base) {
                note(&mut blocks, self.block_read(at, base))?;
            }
        }
        for place in 0..reads.length_count() {
            note(&mut blocks, self.block_read(at, reads.length_at(place)))?;
        }
        Ok(blocks)
    }

    /// Returns what the cell at a position read, by its record. No cell runs.
    ///
    /// Refused where no cell has the position (`NoCell`), and for want of memory.
    pub fn reads(&self, at: usize) -> Result<CellReads<'_>, QueryFault>
        ensures { TellsReads (book_of self.now) at (reads_told result) }
    {
        let count = self.count();
        if count <= at {
            return Err(QueryFault::NoCell(at, count));
        }
        let names = self.names_read(at)?;
        let inputs = self.inputs_read(at)?;
        let blocks = self.blocks_read(at)?;
        Ok(CellReads {
            names,
            inputs,
            blocks,
        })
    }
}
