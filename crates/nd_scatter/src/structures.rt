//! `write_structures`: the scatter loop over structures, which writes their fields and leaves pad
//! bytes as they are.
ghost use Rattle.std.specs.Prelude.{◌≡◌, ◌+◌, ◌≤◌, length};
ghost use Rattle.std.specs.List.{All};
ghost use Rattle.nd_model.specs.Cells.Session.{put};
ghost use Rattle.nd_model.specs.Arrays.View.{Structure};
ghost use Rattle.nd_scatter.specs.Ready.{AreValues};
ghost use Rattle.nd_scatter.specs.Scattered.{byte_copies, scattered};

use crate::kernel::copy_bytes;
use nd_types::RecType;

// Copies the fields of one structure.
fn write_structure(out: &mut [u8], structure: &RecType, to: usize, values: &[u8], from: usize)
    requires out { to + structure.now.1 ≤ length out.old }
    requires held { from + structure.now.1 ≤ length values.now }
    ensures len { length out.new ≡ length out.old }
    ensures bytes { out.new ≡ put (byte_copies (Structure structure.now.0 structure.now.1)
        values.now to from) out.old }
{
    let (_len, _from_len) = (out.len(), values.len());
    for field in structure.fields() {
        let (at, size) = (field.at as usize, field.elem.size() as usize);
        copy_bytes(out, to + at, values, from + at, size);
    }
}

/// Writes the values to the byte offsets `places` in order. The first value begins at byte `from`,
/// each next one `step` bytes behind.
pub(crate) fn write_structures(
    out: &mut [u8],
    structure: &RecType,
    places: &[u64],
    values: &[u8],
    from: usize,
    step: usize,
)
    requires out { All (λ p. p + structure.now.1 ≤ length out.old) places.now }
    requires held { AreValues structure.now.1 from step (length places.now) (length values.now) }
    ensures { out.new ≡ scattered (Structure structure.now.0 structure.now.1) values.now step from
        places.now out.old }
{
    for (index, place) in places.iter().enumerate() {
        let at = from + index * step;
        write_structure(out, structure, *place as usize, values, at);
    }
}
