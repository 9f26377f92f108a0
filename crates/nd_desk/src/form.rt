//! `FileForm`: what the bytes of a file are as an input.

ghost use Rattle.std.specs.Prelude.{◌≡◌, IfOk};
ghost use Rattle.nd_input.specs.Sources.{source_of};
ghost use Rattle.nd_desk.specs.Lines.{IsOfForm, input_of, list_in};

use nd_commands::read_bytes;
use nd_input::Input;
use nd_script::words::{Numeral, numbers_of};
use std::alloc::{AllocError, Global};
use std::io;

/// What the bytes of a file are as an input.
#[derive(Clone, Copy)]
pub enum FileForm<'a> {
    Npy,
    /// The bytes of a strided buffer. Its lists stay as they are written.
    Raw {
        format: &'a str,
        itemsize: u64,
        shape: &'a str,
        strides: &'a str,
        offset: u64,
    },
}

// The numbers of a list, and none of a word that is no list.
fn list_of<N: Numeral>(alloc: Global, word: &str) -> Result<Vec<N>, AllocError>
    ensures { IfOk result (λ v. v.items ≡ list_in N.numeral word.now) }
{
    match numbers_of(alloc, word)? {
        Some(numbers) => Ok(numbers),
        None => Ok(Vec::new(alloc)),
    }
}

impl FileForm<'_> {
    // The input that bytes of this form are.
    fn with_bytes(self, alloc: Global, bytes: Vec<u8>) -> Result<Input, AllocError>
        ensures { IfOk result (λ input. source_of input ≡ input_of self.entry bytes.items) }
    {
        match self {
            FileForm::Npy => Ok(Input::Npy(bytes)),
            FileForm::Raw {
                format,
                itemsize,
                shape,
                strides,
                offset,
            } => Ok(Input::Buffer {
                format: String::from_str(alloc, format)?,
                itemsize,
                shape: list_of(alloc, shape)?,
                strides: list_of(alloc, strides)?,
                offset,
                bytes,
            }),
        }
    }

    /// Returns the input that the file at a path is. Of a large file as many bytes are read as are
    /// more than an input may take.
    pub(crate) fn read(self, rt: &HostRuntime, path: &str) -> io::Result<Input>
        ensures { IfOk result (λ input. IsOfForm self.entry (source_of input)) }
    {
        let bytes = read_bytes(rt, path)?;
        Ok(self.with_bytes(rt.alloc(), bytes)?)
    }
}
