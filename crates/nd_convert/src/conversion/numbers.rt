//! `convert_view`: converts the numbers of a view into a filling block, a chunk at a time. A chunk
//! fits the nearest cache, and each byte of the block is written once.
ghost use Rattle.std.specs.Prelude.{◌≡◌, ◌+◌, ◌*◌, ◌≤◌, ◌++◌, length, IfOk};
ghost use Rattle.nd_model.specs.Arrays.Element.{size_of};
ghost use Rattle.nd_model.specs.Arrays.View.{One};
ghost use Rattle.nd_convert.specs.Conversion.Converted.{converted_bytes};

use crate::conversion::held::fill_held;
use crate::conversion::run::convert;
use nd_block::{Filling, RawBlock};
use nd_types::Elem;
use nd_view::{Run, View};
use std::alloc::{AllocError, Global};

/// The numbers that are converted at a time.
pub(crate) const CHUNK: u64 = 1024;

/// Appends the numbers of a run, converted. The buffer has room for a chunk.
#[inline(never)]
pub(crate) fn fill_run(
    out: &mut Filling,
    buffer: &mut [u8],
    to: Elem,
    bytes: &[u8],
    from: Elem,
    run: &Run,
)
    requires buffer { length buffer.old ≡ 8192 }
    requires room { length run.now * size_of to.kind ≤ out.old.1 }
    ensures buffer { length buffer.new ≡ length buffer.old }
    ensures left { out.new.1 + length run.now * size_of to.kind ≡ out.old.1 }
    ensures written { out.new.0 ≡ out.old.0 ++ converted_bytes to from bytes.now run.now }
{
    let size = to.size() as usize;
    let count = run.count();
    let mut at = 0;
    while at < count {
        let some = CHUNK.min(count - at);
        let part = run.part(at, some);
        let end = some as usize * size;
        convert(&mut buffer[..end], to, bytes, from, &part);
        out.push(&buffer[..end]);
        at += some;
    }
}

/// Appends the numbers of a view in C order, converted. A byte past the end reads as 0.
pub(crate) fn fill_view(out: &mut Filling, to: Elem, bytes: &[u8], from: Elem, view: &View)
    requires { length view.now.places * size_of to.kind ≡ out.old.1 }
    ensures left { out.new.1 ≡ 0 }
    ensures written { out.new.0 ≡ out.old.0
        ++ converted_bytes to from bytes.now view.now.places }
{
    let mut buffer = [0; 8192];
    let mut runs = view.runs();
    while let Some(run) = runs.next() {
        fill_run(out, &mut buffer, to, bytes, from, &run);
    }
}

/// Returns the block with the numbers of a view in C order, converted and contiguous. A byte past
/// the end reads as 0.
pub(crate) fn convert_view(
    alloc: Global,
    to: Elem,
    bytes: &[u8],
    from: Elem,
    view: &View,
) -> Result<RawBlock, AllocError>
    requires { view.now.element ≡ One from }
    ensures { IfOk result (λ b. b ≡ converted_bytes to from bytes.now view.now.places) }
{
    let mut out = Filling::with_room(alloc, view.count() * to.size() as usize)?;
    if view.lies_within(bytes.len() as u64) {
        fill_held(&mut out, to, bytes, from, view);
    } else {
        fill_view(&mut out, to, bytes, from, view);
    }
    Ok(out.finish())
}
