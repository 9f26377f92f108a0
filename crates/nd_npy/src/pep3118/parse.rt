//! `parse_format`: reads a format string of PEP 3118 as a dtype.
ghost use Rattle.std.specs.Prelude.{◌≡◌, ◌+◌, ◌^◌, ◌<◌, ◌≤◌, IfOk, map, length};
ghost use Rattle.nd_model.specs.Formats.FormatGrammar.{byte_kind};
ghost use Rattle.nd_model.specs.Formats.FormatReading as model;
ghost use Rattle.nd_model.specs.Formats.FormatReading.{OneMeaning, ReadingIsExact};
ghost use Rattle.nd_npy.specs.Pep3118.Gives.{progress_of, GoesOn, Gives};

use crate::pep3118::fault::FormatError;
use crate::pep3118::grammar::{byte_kind, read_roles};
use crate::pep3118::progress::Progress;
use nd_types::ElemType;
use std::alloc::{AllocError, Global};

fn byte_kinds(alloc: Global, bytes: &[u8]) -> Result<Vec<u8>, AllocError>
    ensures { IfOk result (λ v. v.items ≡ map byte_kind bytes.now) }
{
    bytes.iter().map(|byte| byte_kind(*byte)).collect(alloc)
}

// Goes on by the bytes in their roles.
fn take_bytes(
    alloc: Global,
    roles: &[u8],
    bytes: &[u8],
    progress: &mut Progress,
) -> Result<(), FormatError>
    requires within { length roles.now ≤ length bytes.now }
    requires room { length bytes.now + 2 < 2 ^ 64 }
    ensures { GoesOn result (model.take_bytes (progress_of progress.old) 0 roles.now bytes.now)
        (progress_of progress.new) }
{
    for (at, role) in roles.iter().enumerate() {
        if let Err(error) = progress.take_byte(alloc, at, *role, bytes[at]) {
            return Err(error);
        }
    }
    Ok(())
}

// What the bytes mean in these roles, as a whole format or the longest front of one.
fn judge_roles(
    alloc: Global,
    roles: &[u8],
    whole: bool,
    bytes: &[u8],
    size: u64,
) -> Result<ElemType, FormatError>
    requires within { length roles.now ≤ length bytes.now }
    requires room { length bytes.now + 2 < 2 ^ 64 }
    ensures { Gives result (model.outcome roles.now whole bytes.now size) }
{
    let mut progress = Progress::start(alloc);
    if let Err(error) = take_bytes(alloc, roles, bytes, &mut progress) {
        return Err(error);
    }
    if whole {
        return progress.whole_type(alloc, size);
    }
    let next = bytes.get(roles.len()).copied();
    Err(FormatError::Fault(progress.stop_fault(roles.len(), next)))
}

/// Returns the dtype that a format string (PEP 3118) means for an item of `size` bytes, pad bytes
/// among them.
///
/// `T{<i:a:<H:b:}` with size 8 is a structure of two fields, with two pad bytes behind them.
/// Refused with the first fault from the left; the size is looked at last.
#[tactic(auto, unfolding(nd_model::specs::Formats::FormatReading::read_format))]
pub fn parse_format(alloc: Global, text: &str, size: u64) -> Result<ElemType, FormatError>
    ensures { Gives result (model.read_format text.now size) }
{
    let bytes = text.as_bytes();
    let kinds = byte_kinds(alloc, bytes)?;
    let reading = read_roles(alloc, &kinds)?;
    judge_roles(alloc, &reading.roles, reading.whole, bytes, size)
}

/// A law: no text means two dtypes, has two faults, or both.
pub fn one_meaning()
    ensures { OneMeaning }
{}

/// A law: what is computed of a text is what the grammar says, and all of it.
pub fn reading_is_exact()
    ensures { ReadingIsExact }
{}
