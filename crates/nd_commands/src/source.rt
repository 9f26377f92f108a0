//! `OpenText`: the text of a cell, collected from the lines of an edit.

ghost use Rattle.std.specs.Prelude.{◌≡◌, [], ◌∷◌, ◌++◌, All, ◌≢◌, IfOk};
ghost use Rattle.nd_model.specs.Book.Script.{source_of};
ghost use Rattle.nd_commands.specs.Source.{lines_so_far, opening_of};

use nd_notebook::Edit;
use std::alloc::AllocError;

/// The edit that a source is for, with its position.
#[derive(Clone, Copy)]
pub enum Opening {
    Insert(usize),
    Edit(usize),
}

impl Opening {
    ghost use Rattle.nd_model.specs.Book.Script.{with_source};
    ghost use Rattle.nd_notebook.specs.Edits.{edit_of};

    /// Returns the edit that a text makes.
    pub fn edit(self, text: &str) -> Edit<'_>
        ensures { edit_of result ≡ with_source (opening_of self) text.now }
    {
        match self {
            Opening::Insert(at) => Edit::Insert(at, text),
            Opening::Edit(at) => Edit::Change(at, text),
        }
    }
}

/// A source, of which some lines have come.
#[derive(Drop)]
pub struct OpenText {
    pub opening: Opening,
    /// The lines, separated by newlines.
    pub text: Vec<u8>,
    /// Whether any line has come. Before the first one the text is without meaning.
    pub has_lines: bool,
}

impl OpenText {
    /// Returns a source without lines. They will be kept in `room`, as far as it goes without more
    /// memory.
    pub fn new(opening: Opening, room: Vec<u8>) -> OpenText
        ensures opening { result.opening ≡ opening }
        ensures lines { lines_so_far result ≡ [] }
    {
        OpenText {
            opening,
            text: room,
            has_lines: false,
        }
    }

    /// Adds a line.
    pub fn with_line(self, line: &[u8]) -> Result<OpenText, AllocError>
        requires { All (λ c. c ≢ 10) line.now }
        ensures lines { IfOk result (λ s. lines_so_far s ≡ lines_so_far self ++ line.now ∷ []) }
        ensures opening { IfOk result (λ s. s.opening ≡ self.opening) }
    {
        let OpenText {
            opening,
            mut text,
            has_lines,
        } = self;
        if has_lines {
            text.push(b'\n')?;
        } else {
            text.clear();
        }
        text.extend_from_slice(line)?;
        Ok(OpenText {
            opening,
            text,
            has_lines: true,
        })
    }

    /// Returns the bytes of the source.
    pub fn bytes(&self) -> &[u8]
        ensures { result.now ≡ source_of (lines_so_far self.now) }
    {
        if self.has_lines {
            self.text.as_slice()
        } else {
            &[]
        }
    }
}
