//! `read_npy`: reads an NPY file as a new array.
ghost use Rattle.std.specs.Prelude.{◌≡◌, IfOk};
ghost use Rattle.nd_model.specs.Formats.NpyHeader.{Utf8};
ghost use Rattle.nd_model.specs.Formats.NpyReading as npy;
ghost use Rattle.nd_model.specs.Arrays.Strides.{IsInLimits};
ghost use Rattle.nd_model.specs.Arrays.View.{item_size};
ghost use Rattle.nd_types.specs.Types.{type_of};
ghost use Rattle.nd_npy.specs.Header.Following.{RestIsIgnored};
ghost use Rattle.nd_npy.specs.Header.Gives.{bytes_given, encoding_of, parts_given, text_given, version_from, version_given, GivesArray, GivesHeader};

use crate::header::elements::elements_in;
use crate::header::fault::{NpyError, NpyFault};
use crate::header::header::{Encoding, Header};
use crate::header::literal::parse_header;
use crate::header::split::split;
use nd_block::RawBlock;
use nd_view::{View, limit_fault};
use std::alloc::Global;
use std::str;

/// The array of a file: a writable contiguous view that fills its block. A Boolean is 0 or 1, and
/// pad bytes are 0.
#[derive(Drop)]
pub struct NpyArray {
    pub view: View,
    pub block: RawBlock,
}

/// The version of the format that a file follows.
#[derive(Clone, Copy)]
pub enum NpyVersion {
    /// 1.0: two bytes for the length of the header, which is in Latin-1.
    First,
    /// 2.0: four bytes for the length.
    Second,
    /// 3.0: four bytes for the length of the header, which is in UTF-8.
    Third,
}

fn behind_magic(bytes: &[u8]) -> Result<&[u8], NpyFault>
    ensures { bytes_given result ≡ npy.behind_magic bytes.now }
{
    if !bytes.starts_with(b"\x93NUMPY") {
        return Err(NpyFault::BadMagic);
    }
    Ok(&bytes[6..])
}

fn version_in(bytes: &[u8]) -> Result<NpyVersion, NpyFault>
    ensures { version_given result ≡ npy.version_in bytes.now }
{
    match bytes {
        [1, 0] => Ok(NpyVersion::First),
        [2, 0] => Ok(NpyVersion::Second),
        [3, 0] => Ok(NpyVersion::Third),
        _ => Err(NpyFault::BadVersion),
    }
}

// The bytes of the header, and those behind it.
fn header_bytes(version: NpyVersion, bytes: &[u8]) -> Result<(&[u8], &[u8]), NpyFault>
    ensures { parts_given result ≡ npy.header_bytes (version_from version) bytes.now }
{
    match version {
        NpyVersion::First => {
            let (count, rest) = split(2, bytes)?;
            split(usize::from(u16::from_le_bytes([count[0], count[1]])), rest)
        }
        NpyVersion::Second | NpyVersion::Third => {
            let (count, rest) = split(4, bytes)?;
            let length = u32::from_le_bytes([count[0], count[1], count[2], count[3]]);
            split(length as usize, rest)
        }
    }
}

fn encoding_in(version: NpyVersion) -> Encoding
    ensures { encoding_of result ≡ npy.encoding_of (version_from version) }
{
    match version {
        NpyVersion::First | NpyVersion::Second => Encoding::Latin1,
        NpyVersion::Third => Encoding::Utf8,
    }
}

fn check_utf8(bytes: &[u8]) -> Result<(), NpyFault>
    ensures { text_given bytes.now result ≡ npy.text_in Utf8 bytes.now }
{
    match str::from_utf8(bytes) {
        Ok(_) => Ok(()),
        Err(error) => Err(NpyFault::NotText(error.valid_up_to())),
    }
}

// Refuses bytes that are no text in the header's encoding.
fn check_text(encoding: Encoding, bytes: &[u8]) -> Result<(), NpyFault>
    ensures { text_given bytes.now result ≡ npy.text_in (encoding_of encoding) bytes.now }
{
    match encoding {
        Encoding::Latin1 => Ok(()),
        Encoding::Utf8 => check_utf8(bytes),
    }
}

// The header of an array within the limits.
#[tactic(auto, unfolding(nd_model::specs::Formats::NpyReading::header_of))]
fn header_of(alloc: Global, version: NpyVersion, bytes: &[u8]) -> Result<Header, NpyError>
    ensures header { GivesHeader result (npy.header_of (version_from version) bytes.now) }
    ensures limits { IfOk result (λ h. IsInLimits (item_size (type_of h.elem)) h.shape.items) }
{
    let encoding = encoding_in(version);
    check_text(encoding, bytes)?;
    let header = parse_header(alloc, encoding, bytes)?;
    if limit_fault(header.elem.size(), &header.shape).is_some() {
        return Err(NpyError::Fault(NpyFault::TooLarge));
    }
    Ok(header)
}

fn read_version(alloc: Global, bytes: &[u8]) -> Result<NpyArray, NpyError>
    ensures { GivesArray result (npy.read_version bytes.now) }
{
    let (front, rest) = split(2, bytes)?;
    let version = version_in(front)?;
    let (header, rest) = header_bytes(version, rest)?;
    let header = header_of(alloc, version, header)?;
    elements_in(alloc, header, rest)
}

/// Returns the array of an NPY file of version 1.0, 2.0 or 3.0, in a new block (NumPy's description
/// of the format). Bytes behind the last element are ignored. NumPy's file of
/// `np.arange(2, dtype='>i2')` gives `[0 1]` of `>i2`.
///
/// Refused in this order: `BadMagic`, `BadVersion`, `Truncated` in the header, `NotText`,
/// `BadHeader`, `BadKeys`, `BadDescr`, `TooLarge`, `Truncated` in the elements.
#[tactic(auto, unfolding(nd_model::specs::Formats::NpyReading::read_npy))]
pub fn read_npy(alloc: Global, bytes: &[u8]) -> Result<NpyArray, NpyError>
    ensures { GivesArray result (npy.read_npy bytes.now) }
{
    read_version(alloc, behind_magic(bytes)?)
}

/// A law: a file is read as the same array whatever bytes follow it.
pub fn rest_is_ignored()
    ensures { RestIsIgnored }
{}
