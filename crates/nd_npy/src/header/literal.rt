//! `parse_header`: reads the header of an NPY file, a Python literal.
ghost use Rattle.std.specs.Prelude.{◌≡◌, ◌≤◌, IfOk, length};
ghost use Rattle.nd_model.specs.Formats.NpyHeader.{OneMeaning, HeaderIsRead};
ghost use Rattle.nd_model.specs.Formats.NpyHeader as header;
ghost use Rattle.nd_npy.specs.Header.Gives.{encoding_of, state_of, GivesHeader};

use crate::header::fault::{NpyError, NpyFault};
use crate::header::grammar::read_literal;
use crate::header::header::{Encoding, Header};
use crate::header::kinds::kinds_of;
use crate::header::state::State;
use std::alloc::{AllocError, Global};

// The state after all bytes, each in its role.
fn follow(
    alloc: Global,
    encoding: Encoding,
    roles: &[u8],
    bytes: &[u8],
) -> Result<State, AllocError>
    requires { length roles.now ≤ length bytes.now }
    ensures { IfOk result (λ s. state_of s
        ≡ header.steps (encoding_of encoding) header.start roles.now bytes.now) }
{
    let mut state = State::start(alloc);
    for (at, role) in roles.iter().enumerate() {
        state.step(alloc, encoding, *role, bytes[at])?;
    }
    Ok(state)
}

// What the bytes mean in these roles, as a whole header or the longest front of one.
fn judge_roles(
    alloc: Global,
    encoding: Encoding,
    roles: &[u8],
    whole: bool,
    bytes: &[u8],
) -> Result<Header, NpyError>
    requires { length roles.now ≤ length bytes.now }
    ensures { GivesHeader result
        (header.outcome (encoding_of encoding) roles.now whole bytes.now) }
{
    if !whole {
        return Err(NpyError::Fault(NpyFault::BadHeader(roles.len())));
    }
    follow(alloc, encoding, roles, bytes)?.finish(alloc)
}

/// Returns the header that the bytes are: `{'descr': '<i2', 'fortran_order': False, 'shape': (2,)}`
/// has dtype `<i2`, C order and shape (2,). The limits of arrays are not looked at.
#[tactic(auto, unfolding(nd_model::specs::Formats::NpyHeader::header_in))]
pub fn parse_header(alloc: Global, encoding: Encoding, bytes: &[u8]) -> Result<Header, NpyError>
    ensures { GivesHeader result (header.header_in (encoding_of encoding) bytes.now) }
{
    let kinds = kinds_of(alloc, bytes)?;
    let reading = read_literal(alloc, &kinds)?;
    judge_roles(alloc, encoding, &reading.roles, reading.whole, bytes)
}

/// A law: no bytes of a header mean two headers, have two faults, or both.
pub fn one_meaning()
    ensures { OneMeaning }
{}

/// A law: what is computed of a header is what the grammar says of its bytes.
pub fn header_is_read()
    ensures { HeaderIsRead }
{}
