//! `sole_array`: the array of an index that has only one, so that nothing is added up.
ghost use Rattle.std.specs.Prelude.{◌≡◌, ◌≤◌, ⊤, MatchOption};
ghost use Rattle.std.specs.List.{list_any};
ghost use Rattle.nd_index.specs.Advanced.Takes.{axes_taken, is_spread, takes_of};
ghost use Rattle.nd_index.specs.Advanced.Sole.{IsSole};

use crate::advanced::arrays::is_same_shape;
use crate::advanced::spread::Spread;
use crate::advanced::takes::Take;

/// The only array of an index, and the first of its axes.
#[derive(Clone, Copy)]
pub(crate) struct SoleArray<'s, 't, 'i> {
    pub(crate) axis: usize,
    pub(crate) spread: &'s Spread<'t, 'i>,
}

fn has_spread(takes: &[Take<'_, '_>]) -> bool
    ensures { result ≡ list_any is_spread (takes_of takes.now) }
{
    for take in takes {
        if let Take::Spread(_) = take {
            return true;
        }
    }
    false
}

/// Returns the array of an index that has only one, where its shape is `many`, and `None`
/// otherwise.
pub(crate) fn sole_array<'s, 't, 'i>(
    takes: &'s [Take<'t, 'i>],
    many: &[u64],
) -> Option<SoleArray<'s, 't, 'i>>
    requires { axes_taken (takes_of takes.now) ≤ 64 }
    ensures { MatchOption result ⊤ (λ s. IsSole (takes_of takes.now) many.now s) }
{
    let mut axis = 0;
    for (number, take) in takes.iter().enumerate() {
        if let Take::Spread(spread) = take {
            if has_spread(&takes[number + 1..]) {
                return None;
            }
            if !is_same_shape(spread.shape.as_slice(), many) {
                return None;
            }
            return Some(SoleArray { axis, spread });
        }
        axis += take.axes();
    }
    None
}
