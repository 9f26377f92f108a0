//! `copy_view`: copies the structures of a view to contiguous ones.
ghost use Rattle.std.specs.Prelude.{◌≡◌, ◌+◌, ◌*◌, ◌≤◌, ◌^◌, length, replicate};
ghost use Rattle.std.specs.List.{All, flat_map};
ghost use Rattle.nd_model.specs.Arrays.View.{Structure};
ghost use Rattle.nd_element.specs.Elements.{canonical_structure};

use nd_element::write_structure;
use nd_types::RecType;
use nd_view::{Run, View};

// Writes the structures of a run one after another, over zeros that have room for them.
fn copy_run(out: &mut [u8], structure: &RecType, bytes: &[u8], run: &Run)
    requires zeros { out.old ≡ replicate (length run.now * structure.now.1) 0 }
    requires ends { All (λ p. p + structure.now.1 ≤ 2 ^ 64) run.now }
    ensures { out.new ≡ flat_map (canonical_structure structure.now bytes.now) run.now }
{
    let size = structure.size() as usize;
    for index in 0..run.count() {
        let at = index as usize * size;
        write_structure(&mut out[at..at + size], bytes, run.place(index), structure);
    }
}

/// Writes the structures of a view in C order, over zeros that have room for them, so that pad
/// bytes stay 0. A byte past the end reads as 0.
pub(crate) fn copy_view(out: &mut [u8], structure: &RecType, bytes: &[u8], view: &View)
    requires type_is { view.now.element ≡ Structure structure.now.0 structure.now.1 }
    requires zeros { out.old ≡ replicate (length view.now.places * structure.now.1) 0 }
    ensures { out.new ≡ flat_map (canonical_structure structure.now bytes.now) view.now.places }
{
    let size = structure.size() as usize;
    // proof: the number of elements is bounded, by the clause of count().
    let _count = view.count();
    let mut at = 0;
    let mut runs = view.runs();
    while let Some(run) = runs.next() {
        let next = at + run.count() as usize * size;
        copy_run(&mut out[at..next], structure, bytes, &run);
        at = next;
    }
}
