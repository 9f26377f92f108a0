//! `Progress`: what the bytes of a format have said so far, each in its role.
ghost use Rattle.std.specs.Prelude.{◌≡◌, ◌+◌, ◌^◌, ◌<◌, ◌≤◌, IfSome, is_some, string_bytes};
ghost use Rattle.std.specs.Str.{is_utf8};
ghost use Rattle.nd_model.specs.Arrays.Structure as structure;
ghost use Rattle.nd_model.specs.Formats.FormatReading as model;
ghost use Rattle.nd_types.specs.Fields.{fields_of};
ghost use Rattle.nd_types.specs.Kinds.{kind_of};

use crate::pep3118::fault::{FormatError, FormatFault};
use crate::pep3118::grammar::Role;
use nd_types::{Elem, ElemType, Field, Kind, RecType};
use std::alloc::Global;
use std::mem;

// The bound above which all numbers count as one, since an itemsize is less.
const FAR: u128 = 1 << 64;

const MOST_FIELDS: usize = 256;

const LONGEST_NAME: usize = 64;

const LARGEST_STRUCTURE: u64 = 65536;

/// What has been read of a format so far.
#[derive(Drop)]
pub struct Progress {
    /// The order character in force.
    order: u8,
    fields: Vec<Field>,
    /// Where the last item ends, in bytes.
    behind: u128,
    count: u128,
    /// Where the count or the name begins in the text.
    place: usize,
    /// The code of the field that is read, or of a single number.
    code: u8,
    name: Vec<u8>,
    /// Whether the text is inside `T{`.
    inside: bool,
    /// The role of the last byte.
    last: u8,
    ghost behind_in_range: { behind ≤ 2 ^ 64 },
    ghost count_in_range: { count ≤ 2 ^ 64 },
}

// Whether `l` and `L` have 8 bytes, as under `@` and `^`, and not 4.
fn is_long(order: u8) -> bool
    ensures { result ≡ model.is_long order }
{
    order == b'@' || order == b'^'
}

// The kind of a code under an order character.
fn code_kind(order: u8, code: u8) -> Kind
    ensures { kind_of result ≡ model.code_kind order code }
{
    match code {
        b'?' => Kind::Bool,
        b'b' => Kind::I8,
        b'B' => Kind::U8,
        b'h' => Kind::I16,
        b'H' => Kind::U16,
        b'i' => Kind::I32,
        b'l' if !is_long(order) => Kind::I32,
        b'I' => Kind::U32,
        b'L' if !is_long(order) => Kind::U32,
        b'q' | b'l' => Kind::I64,
        _ => Kind::U64,
    }
}

fn code_elem(order: u8, code: u8) -> Elem
    ensures { result ≡ model.code_element order code }
{
    Elem::new(code_kind(order, code), order == b'>' || order == b'!')
}

// The byte offset of a number behind the last item: under `@` a multiple of its itemsize.
fn number_start(order: u8, behind: u128, size: u64) -> u128
    requires behind { behind ≤ 2 ^ 64 }
    requires size { (0 < size) × (size ≤ 8) }
    ensures value { result ≡ model.number_start order behind size }
    ensures range { result ≤ 2 ^ 64 + 8 }
{
    let size = u128::from(size);
    if order == b'@' {
        (behind + size - 1) / size * size
    } else {
        behind
    }
}

// The text of bytes, or `None` where they are no UTF-8.
fn text_of(bytes: Vec<u8>) -> Option<String>
    ensures text { IfSome result (λ t. string_bytes t ≡ bytes.items) }
    ensures valid { is_some result ≡ is_utf8 bytes.items }
{
    match String::from_utf8(bytes) {
        Ok(text) => Some(text),
        Err(_) => None,
    }
}

fn has_name(name: &str, fields: &[Field]) -> bool
    ensures { result ≡ structure.has_name name.now (fields_of fields.now) }
{
    for field in fields {
        if name == field.name.as_str() {
            return true;
        }
    }
    false
}

impl Progress {
    ghost use Rattle.nd_npy.specs.Pep3118.Gives.{fault_of, progress_of, GoesOn, Gives};

    /// Returns the state before the first byte.
    pub fn start(alloc: Global) -> Progress
        ensures { progress_of result ≡ model.start }
    {
        Progress {
            order: b'@',
            fields: Vec::new(alloc),
            behind: 0,
            count: 0,
            place: 0,
            code: 0,
            name: Vec::new(alloc),
            inside: false,
            last: Role::Space as u8,
        }
    }

    // Adds a digit to the count.
    fn add_digit(&mut self, at: usize, digit: u8)
        ensures { progress_of self.new ≡ model.add_digit (progress_of self.old) at digit }
    {
        let value = u128::from(digit.saturating_sub(b'0'));
        if self.last == Role::Digit as u8 {
            self.count = (10 * self.count + value).min(FAR);
        } else {
            self.count = value.min(FAR);
            self.place = at;
        }
        self.last = Role::Digit as u8;
    }

    // Adds pad bytes, one where there is no count.
    fn add_pad(&mut self)
        ensures { progress_of self.new ≡ model.add_pad (progress_of self.old) }
    {
        let count = if self.last == Role::Digit as u8 {
            self.count
        } else {
            1
        };
        self.behind = (self.behind + count).min(FAR);
        self.last = Role::Pad as u8;
    }

    // Begins the name of a field, behind its code and a colon.
    fn begin_field(&mut self, alloc: Global, at: usize, code: u8) -> Result<(), FormatError>
        requires { at + 2 < 2 ^ 64 }
        ensures { GoesOn result (model.begin_field (progress_of self.old) at code) (progress_of
            self.new) }
    {
        if self.fields.len() == MOST_FIELDS {
            return Err(FormatError::Fault(FormatFault::TooManyFields));
        }
        self.code = code;
        self.name = Vec::new(alloc);
        self.place = at + 2;
        self.last = Role::Code as u8;
        Ok(())
    }

    fn add_name_byte(&mut self, byte: u8) -> Result<(), FormatError>
        ensures { GoesOn result (model.add_name_byte (progress_of self.old) byte) (progress_of
            self.new) }
    {
        if self.name.len() == LONGEST_NAME {
            return Err(FormatError::Fault(FormatFault::NoName(self.place)));
        }
        self.name.push(byte)?;
        self.last = Role::Name as u8;
        Ok(())
    }

    fn end_name(&mut self, alloc: Global) -> Result<(), FormatError>
        ensures { GoesOn result (model.end_name (progress_of self.old)) (progress_of self.new) }
    {
        let bytes = mem::replace(&mut self.name, Vec::new(alloc));
        let name = match text_of(bytes) {
            Some(name) => name,
            None => return Err(FormatError::Fault(FormatFault::NoName(self.place))),
        };
        if has_name(&name, &self.fields) {
            return Err(FormatError::Fault(FormatFault::DoubleName(self.place)));
        }
        let elem = code_elem(self.order, self.code);
        let start = number_start(self.order, self.behind, elem.size());
        let at = start.min(u128::from(LARGEST_STRUCTURE)) as u32;
        self.fields.push(Field { name, at, elem })?;
        self.behind = (start + u128::from(elem.size())).min(FAR);
        self.last = Role::NameEnd as u8;
        Ok(())
    }

    /// Takes the byte at this index, in its role.
    pub fn take_byte(
        &mut self,
        alloc: Global,
        at: usize,
        role: u8,
        byte: u8,
    ) -> Result<(), FormatError>
        requires { at + 2 < 2 ^ 64 }
        ensures { GoesOn result (model.take_byte (progress_of self.old) at role byte) (progress_of
            self.new) }
    {
        if role == Role::Order as u8 {
            self.order = byte;
        } else if role == Role::Digit as u8 {
            self.add_digit(at, byte);
        } else if role == Role::Pad as u8 {
            self.add_pad();
        } else if role == Role::Open as u8 {
            self.inside = true;
        } else if role == Role::Close as u8 {
            self.inside = false;
        } else if role == Role::Single as u8 {
            self.code = byte;
        } else if role == Role::Code as u8 {
            return self.begin_field(alloc, at, byte);
        } else if role == Role::Name as u8 {
            return self.add_name_byte(byte);
        } else if role == Role::NameEnd as u8 {
            return self.end_name(alloc);
        }
        self.last = role;
        Ok(())
    }

    /// Returns the fault where the byte at this index continues no format, or the text ends there.
    pub fn stop_fault(&self, at: usize, next: Option<u8>) -> FormatFault
        ensures { fault_of result ≡ model.stop_fault (progress_of self.now) at next }
    {
        match next {
            None => {
                if self.inside {
                    FormatFault::Unclosed(at)
                } else {
                    FormatFault::UnknownCode(at)
                }
            }
            Some(byte) => {
                if self.last == Role::Digit as u8 {
                    FormatFault::CountNotHere(self.place)
                } else if self.last == Role::Code as u8 {
                    FormatFault::NoName(at)
                } else if self.last == Role::Colon as u8 || self.last == Role::Name as u8 {
                    FormatFault::NoName(self.place)
                } else if byte.is_ascii_digit() {
                    FormatFault::CountNotHere(at)
                } else {
                    FormatFault::UnknownCode(at)
                }
            }
        }
    }

    /// Returns the dtype of the whole format, for an item of `size` bytes.
    pub fn whole_type(self, alloc: Global, size: u64) -> Result<ElemType, FormatError>
        ensures { Gives result (model.whole_type (progress_of self) size) }
    {
        if self.last == Role::Single as u8 {
            let elem = code_elem(self.order, self.code);
            return if size < elem.size() {
                Err(FormatError::Fault(FormatFault::LargerThanItem))
            } else if size == elem.size() {
                Ok(ElemType::One(elem))
            } else {
                Err(FormatError::Fault(FormatFault::BadItemSize))
            };
        }
        if u128::from(size) < self.behind {
            return Err(FormatError::Fault(FormatFault::LargerThanItem));
        }
        if size > LARGEST_STRUCTURE {
            return Err(FormatError::Fault(FormatFault::BadItemSize));
        }
        match RecType::new(self.fields, size as u32) {
            Some(structure) => Ok(ElemType::of_structure(alloc, structure)?),
            None => Err(FormatError::Fault(FormatFault::BadItemSize)),
        }
    }
}
