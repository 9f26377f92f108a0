//! `integers_of` and `lengths_of`: the Python integers that calls take.

ghost use Rattle.std.specs.Prelude.{◌≡◌, map};
ghost use Rattle.nd_model.specs.Making.Creation as creation;
ghost use Rattle.nd_operation.specs.Operators.Contents.{unused_of};
ghost use Rattle.nd_operation.specs.Refusals.Ends.{Makes, Says};
ghost use Rattle.nd_operation.specs.Operators.New.{clip_length, clip_lengths};
ghost use Rattle.nd_operation.specs.declared.refusals.fault.StmtFault.TheVariants.{Stmt};
ghost use Rattle.nd_operation.specs.declared.refusals.fault.StmtError.TheVariants.{BadArgument};

use crate::refusals::{StmtError, StmtFault, Stop};
use nd_heap::Value;
use nd_types::Num;
use smallvec::SmallVec;
use std::alloc::Global;

/// Returns the refusal of a value that the call does not take.
pub fn bad_argument() -> StmtFault
    ensures { result ≡ Stmt BadArgument }
{
    StmtFault::Stmt(StmtError::BadArgument)
}

/// Returns the Python integer that a value is.
pub(crate) fn integer_of(value: &Value) -> Result<i128, StmtFault>
    ensures { Says (λ z. z) result (creation.integer_of (unused_of value.now)) }
{
    match value {
        Value::Number(Num::Int(int)) => Ok(*int),
        _ => Err(bad_argument()),
    }
}

/// Returns the Python integers that values are, or refuses the first that is none (`BadArgument`).
pub fn integers_of(alloc: Global, values: &[Value]) -> Result<SmallVec<i128, 32>, Stop>
    ensures { Makes (λ v. v.items) result (creation.integers_of (map unused_of values.now)) }
{
    let mut integers = SmallVec::new(alloc);
    for value in values {
        integers.push(integer_of(value)?)?;
    }
    Ok(integers)
}

/// The length that a value is. Above 64 bits, and so above every limit, it counts as the greatest
/// of 64 bits.
fn length_of(value: &Value) -> Result<u64, StmtFault>
    ensures { Says (λ n. n) result (clip_length (creation.length_of (unused_of value.now))) }
{
    let Value::Number(Num::Int(length)) = value else {
        return Err(bad_argument());
    };
    if *length < 0 {
        return Err(bad_argument());
    }
    if *length > i128::from(u64::MAX) {
        return Ok(u64::MAX);
    }
    Ok(*length as u64)
}

/// Returns the lengths of a shape, or refuses the first value that is none (`BadArgument`), as a
/// negative number. Above 64 bits, and so above every limit, a length counts as the greatest of 64
/// bits.
pub fn lengths_of(alloc: Global, values: &[Value]) -> Result<SmallVec<u64, 32>, Stop>
    ensures { Makes (λ v. v.items) result
        (clip_lengths (creation.lengths_of (map unused_of values.now))) }
{
    let mut lengths = SmallVec::new(alloc);
    for value in values {
        lengths.push(length_of(value)?)?;
    }
    Ok(lengths)
}
