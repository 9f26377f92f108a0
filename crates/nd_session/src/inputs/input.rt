//! `Inputs`: the inputs of a notebook, files and buffers by name.

ghost use Rattle.std.specs.Prelude.{◌≡◌, ◌↔◌, IfOk, IsTrue, is_none, not, option_map};
ghost use Rattle.nd_model.specs.Cells.Session.{bind, unbind};
ghost use Rattle.nd_input.specs.Sources.{source_of};
ghost use Rattle.nd_session.specs.Inputs.Values.{given_of, inputs_of};

use indexmap::IndexMap;
use nd_heap::OutOfMemory;
use nd_input::Input;
use std::alloc::Global;
use std::rc::{Rc, RcStr};

/// The inputs of a notebook by name. A clone shares names and inputs.
pub type Inputs = IndexMap<RcStr, Rc<Input>>;

/// Returns the input of a name.
pub fn find_input<'a>(inputs: &'a Inputs, name: &str) -> Option<&'a Rc<Input>>
    ensures { option_map (λ x. source_of x.now.value) result
        ≡ inputs_of inputs.now.entries name.now }
{
    inputs.get(name)
}

/// Returns whether both are equal inputs, or both `None`.
pub fn are_same_inputs(a: Option<&Rc<Input>>, b: Option<&Rc<Input>>) -> bool
    ensures { IsTrue result ↔ (option_map (λ x. source_of x.now.value) a.entry
        ≡ option_map (λ x. source_of x.now.value) b.entry) }
{
    match (a, b) {
        (Some(a), Some(b)) => a.as_ref().is_same(b.as_ref()),
        (None, None) => true,
        _ => false,
    }
}

/// Returns whether some input has the name.
pub fn has_input(inputs: &Inputs, name: &str) -> bool
    ensures { is_none (inputs_of inputs.now.entries name.now) ≡ not result }
{
    find_input(inputs, name).is_some()
}

/// Returns the inputs with this one under a name, in place of one that has it. No byte is copied.
///
/// Of `a` and `b`, with an input under `a`, they are still two.
pub fn with_input(
    alloc: Global,
    inputs: &Inputs,
    name: &str,
    input: Input,
) -> Result<Inputs, OutOfMemory>
    ensures { IfOk result (λ all. given_of all.entries
        ≡ bind name.now (source_of input) (given_of inputs.now.entries)) }
{
    let shared = Rc::new(alloc, input)?;
    let key = RcStr::from_str(alloc, name)?;
    let mut all = inputs.clone()?;
    all.insert(key, shared)?;
    Ok(all)
}

/// Returns the inputs without the one of a name.
pub fn without_input(inputs: &Inputs, name: &str) -> Result<Inputs, OutOfMemory>
    ensures { IfOk result (λ all. given_of all.entries
        ≡ unbind name.now (given_of inputs.now.entries)) }
{
    let mut all = inputs.clone()?;
    // proof: where the name is among the inputs, by the clause of get_index_of().
    let _ = all.get_index_of(name);
    all.shift_remove(name);
    Ok(all)
}
