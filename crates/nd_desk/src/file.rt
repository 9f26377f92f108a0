//! `replace_file`: files by their paths, and why they are not to be had.

ghost use Rattle.std.specs.Prelude.{◌≡◌};
ghost use Rattle.nd_desk.specs.Answers.{cause_text};
ghost use Rattle.nd_desk.specs.Files.{cause_of, cause_of_kind};

use std::alloc::Global;
use std::fs::{self, File};
use std::io::{self, ErrorKind, Write};

/// How many names are tried for a new file.
const MOST_PARTS: u8 = 100;

/// Why a file is not to be had.
#[derive(Clone, Copy)]
pub enum FileCause {
    NotFound,
    PermissionDenied,
    AlreadyExists,
    NotADirectory,
    IsADirectory,
    ReadOnlyFilesystem,
    StorageFull,
    InvalidFilename,
    /// Any other cause.
    Failed,
}

impl FileCause {
    /// Returns the cause of an error, which is no want of memory.
    pub(crate) fn of_kind(kind: ErrorKind) -> FileCause
        ensures { cause_of result ≡ cause_of_kind kind }
    {
        match kind {
            ErrorKind::NotFound => FileCause::NotFound,
            ErrorKind::PermissionDenied => FileCause::PermissionDenied,
            ErrorKind::AlreadyExists => FileCause::AlreadyExists,
            ErrorKind::NotADirectory => FileCause::NotADirectory,
            ErrorKind::IsADirectory => FileCause::IsADirectory,
            ErrorKind::ReadOnlyFilesystem => FileCause::ReadOnlyFilesystem,
            ErrorKind::StorageFull => FileCause::StorageFull,
            ErrorKind::InvalidFilename => FileCause::InvalidFilename,
            _ => FileCause::Failed,
        }
    }

    /// Returns the name of the cause, as an answer has it.
    pub fn name(self) -> &'static str
        ensures { result.now ≡ cause_text (cause_of self) }
    {
        match self {
            FileCause::NotFound => "NotFound",
            FileCause::PermissionDenied => "PermissionDenied",
            FileCause::AlreadyExists => "AlreadyExists",
            FileCause::NotADirectory => "NotADirectory",
            FileCause::IsADirectory => "IsADirectory",
            FileCause::ReadOnlyFilesystem => "ReadOnlyFilesystem",
            FileCause::StorageFull => "StorageFull",
            FileCause::InvalidFilename => "InvalidFilename",
            FileCause::Failed => "Failed",
        }
    }
}

// The path of a new file beside the one at a path.
fn path_beside(alloc: Global, path: &str, number: u8) -> io::Result<String> {
    Ok(format!(in alloc; "{path}.{number}.part")?)
}

// Makes a file that was not there, at one of these paths.
fn create_beside(rt: &HostRuntime, path: &str) -> io::Result<(String, File)> {
    for number in 0..MOST_PARTS {
        let beside = path_beside(rt.alloc(), path, number)?;
        match File::create_new(rt, beside.as_str()) {
            Ok(file) => return Ok((beside, file)),
            Err(error) if error.kind() == ErrorKind::AlreadyExists => {}
            Err(error) => return Err(error),
        }
    }
    Err(io::Error::from(ErrorKind::AlreadyExists))
}

// Writes a new file down to the disk, and lets it take the place of another.
fn write_over(
    rt: &HostRuntime,
    mut file: File,
    beside: &str,
    path: &str,
    bytes: &[u8],
) -> io::Result<()> {
    file.write_all(bytes)?;
    file.sync_all()?;
    fs::rename(rt, beside, path)
}

/// Writes bytes to a new file beside the one at a path, which then takes its place. Where that fails,
/// what stood at the path stays, and the new file goes.
pub(crate) fn replace_file(rt: &HostRuntime, path: &str, bytes: &[u8]) -> io::Result<()> {
    let (beside, file) = create_beside(rt, path)?;
    let ended = write_over(rt, file, beside.as_str(), path, bytes);
    if ended.is_err() {
        let _ = fs::remove_file(rt, beside.as_str());
    }
    ended
}
