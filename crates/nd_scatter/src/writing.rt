//! `write_values`: writes prepared values to selected elements.
ghost use Rattle.std.specs.Prelude.{◌≡◌, ◌+◌, ◌^◌, ◌≤◌, false, length, IsTrue};
ghost use Rattle.std.specs.List.{All};
ghost use Rattle.nd_model.specs.Arrays.View.{item_size};
ghost use Rattle.nd_types.specs.Types.{type_of};
ghost use Rattle.nd_scatter.specs.Ready.{AreValues};
ghost use Rattle.nd_scatter.specs.Scattered.{scattered};

use crate::kernel::write_numbers;
use crate::masked::{assign_trues, inner_trues};
use crate::structures::write_structures;
use nd_places::PlaceList;
use nd_types::ElemType;

// How many byte offsets are worked out at a time.
const MANY: usize = 512;

// Writes the values to these byte offsets. The first value begins at byte `from`, each next one
// `step` bytes behind.
fn write_part(
    out: &mut [u8],
    elem: &ElemType,
    places: &[u64],
    values: &[u8],
    from: usize,
    step: usize,
)
    requires out { All (λ p. p + item_size (type_of elem.now) ≤ length out.old) places.now }
    requires held { AreValues (item_size (type_of elem.now)) from step (length places.now)
        (length values.now) }
    ensures { out.new ≡ scattered (type_of elem.now) values.now step from places.now out.old }
{
    match elem {
        ElemType::One(elem) => write_numbers(out, *elem, places, values, from, step),
        ElemType::Rec(structure) => write_structures(out, structure, places, values, from, step),
    }
}

// Writes the values, `step` bytes apart, while their byte offsets are worked out a part at a time.
fn write_found(out: &mut [u8], elem: &ElemType, places: &PlaceList, values: &[u8], step: usize)
    requires out { All (λ p. p + item_size (type_of elem.now) ≤ length out.old) places.now }
    requires held { AreValues (item_size (type_of elem.now)) 0 step (length places.now)
        (length values.now) }
    requires few { length places.now ≤ 2 ^ 24 }
    ensures { out.new ≡ scattered (type_of elem.now) values.now step 0 places.now out.old }
{
    let mut some = [0; MANY];
    let mut walk = places.walk();
    let mut done = 0;
    while let Some(part) = walk.next(&mut some) {
        write_part(out, elem, part, values, done * step, step);
        done += part.len();
    }
}

// Writes the values, `step` bytes apart, to the numbers that a mask selects, where their whole line
// lies in these bytes. Returns whether it wrote: otherwise the bytes stay as they are.
fn write_masked(
    out: &mut [u8],
    elem: &ElemType,
    places: &PlaceList,
    values: &[u8],
    step: usize,
) -> bool
    requires { AreValues (item_size (type_of elem.now)) 0 step (length places.now)
        (length values.now) }
    ensures written { IsTrue result
        → out.new ≡ scattered (type_of elem.now) values.now step 0 places.now out.old }
    ensures unwritten { result ≡ false → out.new ≡ out.old }
{
    let ElemType::One(elem) = elem else {
        return false;
    };
    let Some(trues) = inner_trues(*elem, places, out.len()) else {
        return false;
    };
    if step > elem.size() as usize {
        return false;
    }
    assign_trues(out, *elem, trues, values, step);
    true
}

/// Writes the values, `step` bytes apart, to their byte offsets in order.
pub(crate) fn write_values(
    out: &mut [u8],
    elem: &ElemType,
    places: &PlaceList,
    values: &[u8],
    step: usize,
)
    requires out { All (λ p. p + item_size (type_of elem.now) ≤ length out.old) places.now }
    requires held { AreValues (item_size (type_of elem.now)) 0 step (length places.now)
        (length values.now) }
    requires few { length places.now ≤ 2 ^ 24 }
    ensures { out.new ≡ scattered (type_of elem.now) values.now step 0 places.now out.old }
{
    if !write_masked(out, elem, places, values, step) {
        write_found(out, elem, places, values, step);
    }
}
