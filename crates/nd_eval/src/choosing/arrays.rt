//! `array_of`: the array that a value is, or its refusal.

ghost use Rattle.std.specs.Prelude.{◌≡◌, IfOk};
ghost use Rattle.nd_model.specs.Indexing.Index as model;
ghost use Rattle.nd_heap.specs.Values.{geo_of};
ghost use Rattle.nd_heap.specs.declared.value.Value.TheVariants as values;
ghost use Rattle.nd_operation.specs.Operators.Contents.{unused_of};
ghost use Rattle.nd_operation.specs.Refusals.Ends.{Says};

use nd_heap::{Array, Value};
use nd_operation::operators::not_an_array;
use nd_operation::refusals::StmtFault;

/// Returns the array that a value is. A row is none (`NotAnArray`).
pub(crate) fn array_of(value: &Value) -> Result<&Array, StmtFault>
    ensures view { Says (λ a. geo_of a.now) result (model.array_of (unused_of value.now)) }
    ensures array { IfOk result (λ a. value.now ≡ values.Array a.now) }
{
    match value {
        Value::Array(array) => Ok(array),
        _ => Err(not_an_array()),
    }
}
