//! `has_power_below`: whether a power has a negative exponent, which integers refuse.
ghost use Rattle.std.specs.Prelude.{◌≡◌, ℤ, ◌&&◌};
ghost use Rattle.std.specs.List.{list_any};
ghost use Rattle.nd_model.specs.Making.Operators as operators;
ghost use Rattle.nd_element.specs.Elements.{AreHeld, numbers_at};
ghost use Rattle.nd_ufunc.specs.Scalar.Ufuncs.{ufunc_of};
ghost use Rattle.nd_ufunc.specs.Elementwise.Stretched.{IsHeld, stretched_numbers};

use crate::elementwise::stretched::Stretched;
use crate::scalar::{BinaryUfunc, is_negative};
use nd_block::value_at;
use nd_syntax::trees::BinaryOp;
use nd_types::Elem;
use nd_view::{Run, View};

// Whether a number of a run is negative.
fn has_negative(bytes: &[u8], elem: Elem, run: &Run) -> bool
    requires { AreHeld elem bytes.now run.now }
    ensures { result ≡ list_any operators.is_negative (numbers_at elem bytes.now run.now) }
{
    for number in 0..run.count() {
        if is_negative(value_at(bytes, run.place(number) as usize, elem)) {
            return true;
        }
    }
    false
}

// Whether a number of a view is negative.
fn has_negative_in(bytes: &[u8], elem: Elem, view: &View) -> bool
    requires { AreHeld elem bytes.now view.now.places }
    ensures { result ≡ list_any operators.is_negative (numbers_at elem bytes.now view.now.places) }
{
    let mut runs = view.runs();
    while let Some(run) = runs.next() {
        if has_negative(bytes, elem, &run) {
            return true;
        }
    }
    false
}

// Whether one of `count` numbers is negative.
fn is_any_negative(numbers: &Stretched<'_>, count: usize) -> bool
    requires { IsHeld numbers.now }
    ensures { result ≡ list_any operators.is_negative (stretched_numbers numbers.now count) }
{
    match numbers {
        Stretched::Number(number) => count > 0 && is_negative(*number),
        Stretched::Elements(view, elem, bytes) => has_negative_in(bytes, *elem, view),
    }
}

/// Returns whether a function is the power.
pub(crate) fn is_power(ufunc: BinaryUfunc) -> bool
    ensures { (z : ℤ) → operators.is_power_below (ufunc_of ufunc) z
        ≡ (result && operators.is_negative z) }
{
    match ufunc {
        BinaryUfunc::Operator(BinaryOp::Power) => true,
        _ => false,
    }
}

/// Returns whether a function is the power, and one of its `count` exponents negative.
pub(crate) fn has_power_below(ufunc: BinaryUfunc, exponents: &Stretched<'_>, count: usize) -> bool
    requires { IsHeld exponents.now }
    ensures { result ≡ list_any (operators.is_power_below (ufunc_of ufunc))
        (stretched_numbers exponents.now count) }
{
    is_power(ufunc) && is_any_negative(exponents, count)
}
