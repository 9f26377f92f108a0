//! `replace_numbers`: the loop that writes results over the left operand, a chunk at a time.
ghost use Rattle.std.specs.Prelude.{◌≡◌, ℕ, ℤ, List, ◌+◌, ◌*◌, ◌≤◌, ◌<◌, length, take, drop, slice_index, IfSome};
ghost use Rattle.std.specs.List.{flat_map};
ghost use Rattle.nd_model.specs.Arrays.Element.{bytes_of, size_of, with_bytes};
ghost use Rattle.nd_model.specs.Making.Elementwise.{little};
ghost use Rattle.nd_types.specs.Kinds.{kind_of};
ghost use Rattle.nd_view.specs.SideBySide.{side_by_side};
ghost use Rattle.nd_convert.specs.Conversion.Converted.{converted_bytes};
ghost use Rattle.nd_element.specs.Elements.{AreHeld, numbers_at};
ghost use Rattle.nd_ufunc.specs.Elementwise.Beside.{HeldBeside, StaysBeside, left_beside, size_beside};
ghost use Rattle.nd_ufunc.specs.Elementwise.Replaced.{AreValues, Wraps, replaced, written_numbers};
ghost use Rattle.nd_ufunc.specs.Loops.Results.{result_bytes};
ghost use Rattle.nd_ufunc.specs.Loops.Sides.{Keeps};

use crate::elementwise::beside::LeftBeside;
use crate::elementwise::stretched::side_kind;
use crate::loops::operation::Operation;
use crate::loops::{CHUNK, apply_sides, chunk_of, side_of};
use nd_assign::Walk;
use nd_block::{store_at, value_at};
use nd_convert::conversion::convert;
use nd_element::is_elem;
use nd_types::{Elem, Kind, wrap};
use nd_view::{Run, View};

// The target's dtype, and the kinds in which its numbers are read, the function is applied and
// results are worked out.
#[derive(Clone, Copy)]
struct Kinds {
    elem: Elem,
    own: Kind,
    operands: Kind,
    results: Kind,
}

// Writes contiguous numbers, converted, one by one.
fn convert_each(out: &mut [u8], to: Elem, bytes: &[u8], from: Elem, count: usize)
    requires out { length out.old ≡ count * size_of to.kind }
    requires bytes { length bytes.now ≡ count * size_of from.kind }
    ensures { out.new ≡ converted_bytes to from bytes.now
        (side_by_side (size_of from.kind) 0 count) }
{
    let (size, own_size) = (to.size() as usize, from.size() as usize);
    for index in 0..count {
        let number = value_at(bytes, index * own_size, from);
        store_at(out, index * size, to, wrap(to.kind(), number));
    }
}

// Writes contiguous results of a kind as elements of a dtype. They are converted by a fast loop
// where `places` has the byte offsets of results in a buffer.
fn write_numbers(
    out: &mut [u8],
    elem: Elem,
    to: Kind,
    results: &[u8],
    places: &Option<Run>,
    count: usize,
)
    requires some { 0 < count }
    requires out { length out.old ≡ count * size_of elem.kind }
    requires results { length results.now ≡ count * size_of (kind_of to) }
    requires few { count * size_of (kind_of to) ≤ 8192 }
    requires places { IfSome places.now (λ run. run
        ≡ side_by_side (size_of (kind_of to)) 0 8192) }
    ensures { (zs : List ℤ) → AreValues (kind_of to) zs → length zs ≡ count
        → results.now ≡ flat_map (bytes_of (little (kind_of to))) zs
        → out.new ≡ written_numbers elem zs }
{
    let own = Elem::little(to);
    if is_elem(elem, own) {
        out.copy_from_slice(results);
        return;
    }
    match places {
        Some(places) => convert(out, elem, results, own, &places.part(0, count as u64)),
        None => convert_each(out, elem, results, own, count),
    }
}

// Works out the results for a run of the target and the next numbers of the right operand.
// Converted numbers lie in the buffers.
fn find_results<'v, 'b, O: Operation>(
    out: &mut [u8],
    kinds: &Kinds,
    block: &'b [u8],
    part: &Run,
    beside: &mut LeftBeside<'v>,
    left_buffer: &'b mut [u8],
    right_buffer: &'b mut [u8; CHUNK],
)
where
    'v: 'b,
    requires out { length out.old ≡ length part.now * size_of (kind_of kinds.now.results) }
    requires held { AreHeld kinds.now.elem block.now part.now }
    requires enough { length part.now ≤ length (left_beside beside.old block.now) }
    requires beside_held { HeldBeside beside.old (length block.now) }
    requires keeps { Keeps kinds.now.elem.kind (kind_of kinds.now.own) }
    requires left_buffer { length part.now * size_of (kind_of kinds.now.own)
        ≤ length left_buffer.old }
    requires right_buffer { length part.now * size_beside beside.old ≤ 8192 }
    ensures out { out.new ≡ result_bytes (little (kind_of kinds.now.results))
        (O.gives (kind_of kinds.now.results)) (numbers_at kinds.now.elem block.now part.now)
        (take (length part.now) (left_beside beside.old block.now)) }
    ensures further { (bytes : List ℕ) → left_beside beside.new bytes
        ≡ drop (length part.now) (left_beside beside.old bytes) }
    ensures size { size_beside beside.new ≡ size_beside beside.old }
    ensures held { (len : ℕ) → HeldBeside beside.old len → HeldBeside beside.new len }
    ensures stays { (first step at : ℕ) → StaysBeside beside.old first step at
        → StaysBeside beside.new first step (at + length part.now) }
{
    let Kinds {
        elem,
        own,
        operands,
        results,
    } = *kinds;
    let count = part.count() as usize;
    let xs = side_of(left_buffer, own, block, elem, part);
    let ys = beside.take(right_buffer, block, count);
    apply_sides::<O>(operands, out, results, xs, ys, count);
}

// How the numbers of a target are replaced: the kinds, and the byte offsets of contiguous results in
// a buffer, where they are known.
#[derive(Clone, Copy)]
struct Plan<'p> {
    kinds: Kinds,
    places: &'p Option<Run>,
}

// Replaces the numbers of a contiguous part of the target, which fit a chunk, by the results for
// them and the next numbers of the right operand.
fn replace_chunk<O: Operation>(
    bytes: &mut [u8],
    plan: &Plan<'_>,
    part: &Run,
    beside: &mut LeftBeside<'_>,
    buffer: &mut [u8; CHUNK],
    left_buffer: &mut [u8; CHUNK],
    right_buffer: &mut [u8; CHUNK],
)
    requires held { AreHeld plan.now.kinds.elem bytes.old part.now }
    requires room { slice_index part.now 0 + length part.now * size_of plan.now.kinds.elem.kind
        ≤ length bytes.old }
    requires enough { length part.now ≤ length (left_beside beside.old bytes.old) }
    requires beside_held { HeldBeside beside.old (length bytes.old) }
    requires keeps { Keeps plan.now.kinds.elem.kind (kind_of plan.now.kinds.own) }
    requires wraps { Wraps (kind_of plan.now.kinds.results)
        (O.gives (kind_of plan.now.kinds.results)) }
    requires places { IfSome plan.now.places.now (λ run. run
        ≡ side_by_side (size_of (kind_of plan.now.kinds.results)) 0 8192) }
    requires results { length part.now * size_of (kind_of plan.now.kinds.results) ≤ 8192 }
    requires left { length part.now * size_of (kind_of plan.now.kinds.own) ≤ 8192 }
    requires right { length part.now * size_beside beside.old ≤ 8192 }
    ensures bytes { bytes.new ≡ with_bytes bytes.old (slice_index part.now 0)
        (replaced plan.now.kinds.elem (O.gives (kind_of plan.now.kinds.results))
        (numbers_at plan.now.kinds.elem bytes.old part.now)
        (take (length part.now) (left_beside beside.old bytes.old))) }
    ensures further { (bytes : List ℕ) → left_beside beside.new bytes
        ≡ drop (length part.now) (left_beside beside.old bytes) }
    ensures size { size_beside beside.new ≡ size_beside beside.old }
    ensures held { (len : ℕ) → HeldBeside beside.old len → HeldBeside beside.new len }
    ensures stays { (first step at : ℕ) → StaysBeside beside.old first step at
        → StaysBeside beside.new first step (at + length part.now) }
{
    let (elem, to) = (plan.kinds.elem, plan.kinds.results);
    let count = part.count() as usize;
    let len = count * to.size() as usize;
    find_results::<O>(
        &mut buffer[..len],
        &plan.kinds,
        bytes,
        part,
        beside,
        left_buffer,
        right_buffer,
    );
    let start = part.start() as usize;
    let end = start + count * elem.size() as usize;
    let out = &mut bytes[start..end];
    write_numbers(out, elem, to, &buffer[..len], plan.places, count);
}

/// Replaces the numbers of a contiguous target by the results for them and the right operand.
/// `places` are the byte offsets of contiguous results in a buffer, for faster conversion.
pub(crate) fn replace_numbers<O: Operation>(
    bytes: &mut [u8],
    elem: Elem,
    target: &View,
    to: Kind,
    kind: Kind,
    beside: &mut LeftBeside<'_>,
    places: &Option<Run>,
)
    requires held { AreHeld elem bytes.old target.now.places }
    requires gapless { target.now.places ≡ side_by_side (size_of elem.kind)
        (slice_index target.now.places 0) (length target.now.places) }
    requires beside { length (left_beside beside.old bytes.old) ≡ length target.now.places }
    requires beside_held { HeldBeside beside.old (length bytes.old) }
    requires stays { StaysBeside beside.old (slice_index target.now.places 0)
        (size_of elem.kind) 0 }
    requires wraps { Wraps (kind_of to) (O.gives (kind_of to)) }
    requires places { IfSome places.now (λ run. run
        ≡ side_by_side (size_of (kind_of to)) 0 8192) }
    ensures { bytes.new ≡ with_bytes bytes.old (slice_index target.now.places 0)
        (replaced elem (O.gives (kind_of to)) (numbers_at elem bytes.old target.now.places)
        (left_beside beside.old bytes.old)) }
{
    // proof: the number of bytes is bounded, by the clause of len().
    let _len = bytes.len();
    let own = side_kind(kind, elem.kind());
    let kinds = Kinds {
        elem,
        own,
        operands: kind,
        results: to,
    };
    let plan = Plan { kinds, places };
    let chunk = chunk_of(to.size() as usize, own.size() as usize, beside.size()) as u64;
    let mut left_buffer = [0; CHUNK];
    let mut right_buffer = [0; CHUNK];
    let mut buffer = [0; CHUNK];
    let count = target.count() as u64;
    let mut walk = Walk::new(target);
    let mut at = 0;
    while at < count {
        let part = walk.next(chunk);
        let some = part.count();
        replace_chunk::<O>(
            bytes,
            &plan,
            &part,
            beside,
            &mut buffer,
            &mut left_buffer,
            &mut right_buffer,
        );
        at += some;
    }
}
