//! `CellResult`: the text, the files and the refusal of a cell.

ghost use Rattle.std.specs.Prelude.{◌≡◌, option_map};
ghost use Rattle.nd_model.specs.Cells.Session.{lookup};
ghost use Rattle.nd_cell.specs.Results.{saves_of};

use indexmap::IndexMap;
use nd_eval::StmtFault;
use nd_parse::cells::ParseKind;

/// Why a cell is refused.
#[derive(Drop)]
pub enum CellFault {
    /// The text is no cell. The column is in bytes, from 1.
    Parse(ParseKind, usize),
    /// A statement is refused; those before it stand.
    Statement(StmtFault),
}

/// The refusal of a cell: the line, from 1, on which the refused statement begins, or at which the
/// text is no cell.
#[derive(Drop)]
pub struct Refusal {
    pub line: usize,
    pub fault: CellFault,
}

/// What a cell gives: the text that it printed, its refusal if there is one, and the files that it
/// saved, by name.
#[derive(Drop)]
pub struct CellResult {
    pub text: String,
    pub refusal: Option<Refusal>,
    pub saves: IndexMap<String, Vec<u8>>,
}

impl CellResult {
    /// Returns the file that the cell saved under this name, or `None`. After `np.save('a', x)`,
    /// `file("a")` is the NPY file of `x`.
    pub fn file(&self, name: &str) -> Option<&[u8]>
        ensures { option_map (λ f. f.now) result
            ≡ lookup name.now (saves_of self.now.saves.entries) }
    {
        let file = self.saves.get(name)?;
        Some(file.as_slice())
    }
}
