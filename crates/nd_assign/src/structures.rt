//! `copy_structures`: copies structures field by field, and leaves pad bytes as they are.
ghost use Rattle.std.specs.Prelude.{◌≡◌, ◌+◌, ◌≤◌, length};
ghost use Rattle.std.specs.List.{All};
ghost use Rattle.nd_model.specs.Arrays.Content.{content_at, writes};
ghost use Rattle.nd_model.specs.Cells.Session.{put};
ghost use Rattle.nd_model.specs.Arrays.View.{Structure};
ghost use Rattle.nd_assign.specs.Copies.{with_copies};

use nd_block::{store_at, value_at};
use nd_types::RecType;
use nd_view::Run;

// Copies the fields of one structure.
fn copy_structure(out: &mut [u8], structure: &RecType, place: u64, bytes: &[u8], from: u64)
    requires out { place + structure.now.1 ≤ length out.old }
    requires held { from + structure.now.1 ≤ length bytes.now }
    ensures len { length out.new ≡ length out.old }
    ensures bytes { out.new ≡ put (writes (Structure structure.now.0 structure.now.1) place
        (content_at (Structure structure.now.0 structure.now.1) bytes.now from)) out.old }
{
    let (_len, _from_len) = (out.len(), bytes.len());
    for field in structure.fields() {
        let at = field.at as usize;
        let number = value_at(bytes, from as usize + at, field.elem);
        store_at(out, place as usize + at, field.elem, number);
    }
}

/// Copies the structures of a run to another one.
pub(crate) fn copy_structures(
    out: &mut [u8],
    structure: &RecType,
    run: &Run,
    bytes: &[u8],
    from_run: &Run,
)
    requires counts { length from_run.now ≡ length run.now }
    requires out { All (λ p. p + structure.now.1 ≤ length out.old) run.now }
    requires held { All (λ p. p + structure.now.1 ≤ length bytes.now) from_run.now }
    ensures len { length out.new ≡ length out.old }
    ensures bytes { out.new ≡ with_copies (Structure structure.now.0 structure.now.1)
        (Structure structure.now.0 structure.now.1) bytes.now run.now from_run.now out.old }
{
    for index in 0..run.count() {
        copy_structure(
            out,
            structure,
            run.place(index),
            bytes,
            from_run.place(index),
        );
    }
}
