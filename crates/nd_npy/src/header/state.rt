//! `State`: what the bytes of a header have said so far, each in its role.
ghost use Rattle.std.specs.Prelude.{◌≡◌, ◌-◌, ◌≤◌, ◌++◌, IfOk};
ghost use Rattle.std.specs.Option.{option_map};
ghost use Rattle.nd_types.specs.Fields.{fields_of};
ghost use Rattle.nd_types.specs.Types.{type_of};
ghost use Rattle.nd_model.specs.Formats.NpyHeader as header;

use crate::header::fault::{NpyError, NpyFault};
use crate::header::grammar::{
    DESCR_KEY, FALSE_START, FIRST_DIGIT, FORTRAN_KEY, FURTHER_DIGIT, LIST_START, NAME_BYTE,
    OTHER_KEY, PAIR_END, SHAPE_KEY, TRUE_START, TYPE_BYTE, TYPE_END,
};
use crate::header::header::{Encoding, Header};
use crate::header::texts::{capped_size, element_in, pad_in, text_of};
use nd_types::{Elem, ElemType, Field, RecType};
use std::alloc::{AllocError, Global};
use std::mem;

/// What has been read so far.
#[derive(Drop)]
pub struct State {
    /// How often each of the keys was read, up to 2.
    descrs: u8,
    orders: u8,
    shapes: u8,
    /// Whether another key was read.
    other: bool,
    /// Whether some type or name of `descr` is wrong.
    bad: bool,
    /// Whether `descr` is a list, not a single type.
    is_list: bool,
    single: Option<Elem>,
    /// The fields and pad bytes of the list.
    fields: Vec<Field>,
    size: u32,
    /// The texts of the pair or the type that is being read.
    name: Vec<u8>,
    type_text: Vec<u8>,
    fortran: bool,
    /// The lengths before the last one, and the last one, if any.
    shape: Vec<u64>,
    last: Option<u64>,
    ghost in_range: { size ≤ 65537 },
}

fn once_more(count: u8) -> u8
    ensures { result ≡ header.once_more count }
{
    count.saturating_add(1).min(2)
}

// The dtype that the parts of `descr` make.
fn type_in(
    alloc: Global,
    bad: bool,
    is_list: bool,
    single: Option<Elem>,
    fields: Vec<Field>,
    size: u32,
) -> Result<Option<ElemType>, AllocError>
    ensures { IfOk result (λ t. option_map type_of t
        ≡ header.type_of_parts bad is_list single (fields_of fields.items) size) }
{
    if bad {
        return Ok(None);
    }
    if !is_list {
        return Ok(match single {
            Some(elem) => Some(ElemType::One(elem)),
            None => None,
        });
    }
    match RecType::new(fields, size) {
        Some(structure) => Ok(Some(ElemType::of_structure(alloc, structure)?)),
        None => Ok(None),
    }
}

impl State {
    ghost use Rattle.nd_npy.specs.Header.Gives.{encoding_of, state_of, GivesHeader};

    /// Returns the state before the first byte.
    pub fn start(alloc: Global) -> State
        ensures { state_of result ≡ header.start }
    {
        State {
            descrs: 0,
            orders: 0,
            shapes: 0,
            other: false,
            bad: false,
            is_list: false,
            single: None,
            fields: Vec::new(alloc),
            size: 0,
            name: Vec::new(alloc),
            type_text: Vec::new(alloc),
            fortran: false,
            shape: Vec::new(alloc),
            last: None,
        }
    }

    // Adds a byte of a name, which is kept as UTF-8.
    fn push_name(&mut self, encoding: Encoding, byte: u8) -> Result<(), AllocError>
        ensures { IfOk result (λ _. state_of self.new ≡ record (state_of self.old) {
          name = self.old.name.items ++ header.in_utf8 (encoding_of encoding) byte;
        }) }
    {
        if encoding == Encoding::Utf8 || byte < 128 {
            self.name.push(byte)?;
            Ok(())
        } else {
            self.name
                .extend_from_slice(&[192 + byte / 64, 128 + byte % 64])
        }
    }

    // Ends a name and its type.
    fn end_pair(&mut self, alloc: Global) -> Result<(), AllocError>
        ensures { IfOk result (λ _. state_of self.new ≡ header.with_pair (state_of self.old)) }
    {
        let name = mem::replace(&mut self.name, Vec::new(alloc));
        let text = mem::replace(&mut self.type_text, Vec::new(alloc));
        if name.is_empty() {
            match pad_in(&text) {
                Some(count) => self.size = capped_size(self.size + count),
                None => self.bad = true,
            }
            return Ok(());
        }
        match element_in(&text) {
            Some(elem) => match text_of(name) {
                Some(name) => {
                    let at = self.size;
                    self.fields.push(Field { name, at, elem })?;
                    self.size = capped_size(at + elem.size() as u32);
                }
                None => self.bad = true,
            },
            None => self.bad = true,
        }
        Ok(())
    }

    // Ends a type that stands alone.
    fn end_type(&mut self, alloc: Global)
        ensures { state_of self.new
            ≡ header.with_type (state_of self.old) (header.element_in self.old.type_text.items) }
    {
        let text = mem::replace(&mut self.type_text, Vec::new(alloc));
        self.single = element_in(&text);
        if self.single.is_none() {
            self.bad = true;
        }
    }

    // Adds a further digit of a length.
    fn add_digit(&mut self, digit: u8)
        ensures { state_of self.new
            ≡ header.with_digit (state_of self.old) self.old.last (digit - 48) }
    {
        let number = self.last.unwrap_or(0);
        let value = u64::from(digit.saturating_sub(b'0'));
        self.last = Some(number.saturating_mul(10).saturating_add(value));
    }

    // Begins a length with its first digit.
    fn start_length(&mut self, digit: u8) -> Result<(), AllocError>
        ensures { IfOk result (λ _. state_of self.new
            ≡ header.step header.Utf8 (state_of self.old) header.first_digit digit) }
    {
        if let Some(length) = self.last {
            self.shape.push(length)?;
        }
        self.last = Some(u64::from(digit.saturating_sub(b'0')));
        Ok(())
    }

    /// Takes a byte in its role.
    pub fn step(
        &mut self,
        alloc: Global,
        encoding: Encoding,
        role: u8,
        byte: u8,
    ) -> Result<(), AllocError>
        ensures { IfOk result (λ _. state_of self.new
            ≡ header.step (encoding_of encoding) (state_of self.old) role byte) }
    {
        match role {
            DESCR_KEY => self.descrs = once_more(self.descrs),
            FORTRAN_KEY => self.orders = once_more(self.orders),
            SHAPE_KEY => self.shapes = once_more(self.shapes),
            OTHER_KEY => self.other = true,
            NAME_BYTE => self.push_name(encoding, byte)?,
            TYPE_BYTE => self.type_text.push(byte)?,
            LIST_START => self.is_list = true,
            PAIR_END => self.end_pair(alloc)?,
            TYPE_END => self.end_type(alloc),
            TRUE_START => self.fortran = true,
            FALSE_START => self.fortran = false,
            FIRST_DIGIT => self.start_length(byte)?,
            FURTHER_DIGIT => self.add_digit(byte),
            _ => {}
        }
        Ok(())
    }

    fn has_keys(&self) -> bool
        ensures { result ≡ header.has_keys (state_of self.now) }
    {
        !self.other && self.descrs == 1 && self.orders == 1 && self.shapes == 1
    }

    /// Returns the header of the whole literal, or its fault.
    pub fn finish(self, alloc: Global) -> Result<Header, NpyError>
        ensures { GivesHeader result (header.header_of (state_of self)) }
    {
        if !self.has_keys() {
            return Err(NpyError::Fault(NpyFault::BadKeys));
        }
        let fortran = self.fortran;
        let last = self.last;
        let mut shape = self.shape;
        let elem = match type_in(
            alloc,
            self.bad,
            self.is_list,
            self.single,
            self.fields,
            self.size,
        )? {
            Some(elem) => elem,
            None => return Err(NpyError::Fault(NpyFault::BadDescr)),
        };
        if let Some(length) = last {
            shape.push(length)?;
        }
        Ok(Header {
            elem,
            fortran,
            shape,
        })
    }
}
