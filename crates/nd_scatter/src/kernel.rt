//! `write_numbers`: the scatter loops over numbers, one specialised for each itemsize.
ghost use Rattle.std.specs.Prelude.{◌≡◌, ◌+◌, ◌<◌, ◌≤◌, length};
ghost use Rattle.std.specs.List.{All};
ghost use Rattle.nd_model.specs.Arrays.Element.{bytes_at, size_of, with_bytes};
ghost use Rattle.nd_model.specs.Arrays.View.{One};
ghost use Rattle.nd_element.specs.Elements.{AreHeld};
ghost use Rattle.nd_scatter.specs.Ready.{AreValues};
ghost use Rattle.nd_scatter.specs.Scattered.{scattered};

use nd_types::{Elem, Kind};

/// proof: every byte is below 256.
#[inline(always)]
pub(crate) fn hold_bytes(bytes: &[u8])
    ensures { All (λ byte. byte < 256) bytes.now }
{
    let _len = bytes.len();
}

/// Copies `size` bytes from byte offset `from` of the values to byte offset `to`.
#[inline(always)]
pub(crate) fn copy_bytes(out: &mut [u8], to: usize, values: &[u8], from: usize, size: usize)
    requires out { to + size ≤ length out.old }
    requires held { from + size ≤ length values.now }
    ensures len { length out.new ≡ length out.old }
    ensures bytes { out.new ≡ with_bytes out.old to (bytes_at values.now from size) }
{
    let (_len, _from_len) = (out.len(), values.len());
    out[to..to + size].copy_from_slice(&values[from..from + size]);
}

// Writes the values to the byte offsets `places`. The first value begins at byte `from`, each next
// one `step` bytes behind.
#[inline(always)]
fn write_each(
    out: &mut [u8],
    elem: Elem,
    size: usize,
    places: &[u64],
    values: &[u8],
    from: usize,
    step: usize,
)
    requires size { size ≡ size_of elem.kind }
    requires out { AreHeld elem out.old places.now }
    requires held { AreValues size from step (length places.now) (length values.now) }
    ensures { out.new ≡ scattered (One elem) values.now step from places.now out.old }
{
    for (index, place) in places.iter().enumerate() {
        copy_bytes(out, *place as usize, values, from + index * step, size);
    }
}

/// Writes the values to the byte offsets `places` in order, by a loop specialised for the itemsize.
/// The first value begins at byte `from`, each next one `step` bytes behind.
pub(crate) fn write_numbers(
    out: &mut [u8],
    elem: Elem,
    places: &[u64],
    values: &[u8],
    from: usize,
    step: usize,
)
    requires out { AreHeld elem out.old places.now }
    requires held { AreValues (size_of elem.kind) from step (length places.now)
        (length values.now) }
    ensures { out.new ≡ scattered (One elem) values.now step from places.now out.old }
{
    match elem.kind() {
        Kind::Bool | Kind::I8 | Kind::U8 => write_each(out, elem, 1, places, values, from, step),
        Kind::I16 | Kind::U16 => write_each(out, elem, 2, places, values, from, step),
        Kind::I32 | Kind::U32 => write_each(out, elem, 4, places, values, from, step),
        Kind::I64 | Kind::U64 => write_each(out, elem, 8, places, values, from, step),
    }
}
