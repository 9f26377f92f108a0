//! `Footprint`: the marked byte offsets of several blocks.

ghost use Rattle.std.specs.Prelude.{◌≡◌, ℕ, ◌+◌, ◌≤◌, ◌^◌, ◌||◌, ◌&&◌, not, false, pos, IfOk, IfSome, OnErr, OnOk};
ghost use Rattle.std.specs.List.{All, flat_map};
ghost use Rattle.nd_marks.specs.Marks.{holds};
ghost use Rattle.nd_model.specs.Cells.Session.{is_in};
ghost use Rattle.nd_model.specs.Arrays.Value as values;
ghost use Rattle.nd_model.specs.Arrays.Value.{same_base};
ghost use Rattle.nd_model.specs.Arrays.View.{item_size, element_places};
ghost use Rattle.nd_types.specs.Types.{type_of};
ghost use Rattle.nd_heap.specs.Values.{base_of};
ghost use Rattle.nd_trace.specs.Contents.{marks_of};
ghost use Rattle.nd_trace.specs.Marked.{is_marked};

use indexmap::IndexMap;
use nd_heap::{Base, OutOfMemory};
use nd_marks::Marks;
use nd_places::{PlaceList, StridedLine};
use nd_types::ElemType;
use std::alloc::{AllocError, Global};

// How many byte offsets are worked out at a time.
const MANY: usize = 512;

// The most rows of elements that are not marked by bits.
const MOST_ROWS: usize = 8;

/// A set of byte offsets for each block. A block without an entry has no marks.
pub type Footprint = IndexMap<Base, Marks>;

/// Returns whether a byte of a block is marked.
pub(crate) fn has_mark(marked: &Footprint, base: Base, place: u64) -> bool
    ensures { result ≡ is_marked (marks_of marked.now.entries) (base_of base) place }
{
    match marked.get(&base) {
        Some(marks) => marks.holds(place),
        None => false,
    }
}

/// Returns the marks of a block, or `nothing` where it has none.
pub(crate) fn marks_in<'a>(marked: &'a Footprint, base: Base, nothing: &'a Marks) -> &'a Marks
    requires { (p : ℕ) → holds nothing.now p ≡ false }
    ensures { (p : ℕ)
        → holds result.now p ≡ is_marked (marks_of marked.now.entries) (base_of base) p }
{
    match marked.get(&base) {
        Some(marks) => marks,
        None => nothing,
    }
}

/// Adds byte offsets of a block to those that are marked. Where memory is wanted, none is added.
pub(crate) fn join(marked: &mut Footprint, base: Base, more: Marks) -> Result<(), OutOfMemory>
    ensures ok { OnOk result ((c : values.Base) (p : ℕ)
        → is_marked (marks_of marked.new.entries) c p
        ≡ (is_marked (marks_of marked.old.entries) c p
        || (same_base (base_of base) c && holds more p))) }
    ensures err { OnErr result ((c : values.Base) (p : ℕ)
        → is_marked (marks_of marked.new.entries) c p
        ≡ is_marked (marks_of marked.old.entries) c p) }
{
    let Some(marks) = marked.get_mut(&base) else {
        marked.insert(base, more)?;
        return Ok(());
    };
    marks.merge(more)?;
    Ok(())
}

// The byte offset of a line's first element, where its elements of `size` bytes are contiguous.
fn row_start(line: StridedLine, size: u64) -> Option<u64>
    ensures { IfSome result (λ start. (line.start ≡ pos start) × ((line.step ≡ pos size)
        × (start ≤ 2 ^ 61))) }
{
    if !line.is_contiguous(size) {
        return None;
    }
    Some(line.start as u64)
}

// Returns the bytes of the elements that a mask selects of a contiguous line, where the list is
// kept as these and nothing is excepted.
fn marks_of_trues(
    alloc: Global,
    elem: &ElemType,
    places: &PlaceList,
    except: &Marks,
) -> Result<Option<Marks>, AllocError>
    ensures { IfOk result (λ o. IfSome o (λ m. (p : ℕ) → holds m p
        ≡ (is_in p (flat_map (element_places (type_of elem.now)) places.now)
        && not (holds except.now p)))) }
{
    let ElemType::One(one) = elem else {
        return Ok(None);
    };
    let Some(trues) = places.trues() else {
        return Ok(None);
    };
    let size = one.size();
    let Some(start) = row_start(trues.line, size) else {
        return Ok(None);
    };
    if !except.is_empty() {
        return Ok(None);
    }
    let marks = Marks::new(alloc).with_trues(start, size, trues.mask.as_slice())?;
    Ok(Some(marks))
}

// Whether the elements at these byte offsets, of `size` bytes each, are few rows without gaps. It
// decides how they are marked, and not which bytes.
fn are_few_rows(places: &PlaceList, size: u64) -> bool {
    let mut rows = 0;
    let mut behind = None;
    let mut some = [0; MANY];
    let mut walk = places.walk();
    while let Some(part) = walk.next(&mut some) {
        for place in part {
            if behind != Some(*place) {
                rows += 1;
            }
            if rows > MOST_ROWS {
                return false;
            }
            behind = place.checked_add(size);
        }
    }
    true
}

// Returns the set with the bytes of the elements at these byte offsets, except those of the other
// set: as rows where these are few, else by bits.
fn with_part(
    marks: Marks,
    elem: &ElemType,
    part: &[u64],
    except: &Marks,
    is_few: bool,
) -> Result<Marks, AllocError>
    requires { All (λ p. p + item_size (type_of elem.now) ≤ 2 ^ 64) part.now }
    ensures { IfOk result (λ m. (p : ℕ) → holds m p ≡ (holds marks p
        || (is_in p (flat_map (element_places (type_of elem.now)) part.now)
        && not (holds except.now p)))) }
{
    if is_few {
        marks.with_elements(elem, part, except)
    } else {
        marks.with_scattered(elem, part, except)
    }
}

// Returns the bytes of the elements at these byte offsets, except those of the other set. They are
// marked a part at a time.
fn marks_of_parts(
    alloc: Global,
    elem: &ElemType,
    places: &PlaceList,
    except: &Marks,
) -> Result<Marks, AllocError>
    requires { All (λ p. p + item_size (type_of elem.now) ≤ 2 ^ 64) places.now }
    ensures { IfOk result (λ m. (p : ℕ) → holds m p
        ≡ (is_in p (flat_map (element_places (type_of elem.now)) places.now)
        && not (holds except.now p))) }
{
    let is_few = are_few_rows(places, elem.size());
    let mut marks = Marks::new(alloc);
    let mut some = [0; MANY];
    let mut walk = places.walk();
    while let Some(part) = walk.next(&mut some) {
        marks = with_part(marks, elem, part, except, is_few)?;
    }
    Ok(marks)
}

// Returns the bytes of the elements at these byte offsets as a set of their own, except those of the
// other set.
fn marks_of_elements(
    alloc: Global,
    elem: &ElemType,
    places: &PlaceList,
    except: &Marks,
) -> Result<Marks, AllocError>
    requires { All (λ p. p + item_size (type_of elem.now) ≤ 2 ^ 64) places.now }
    ensures { IfOk result (λ m. (p : ℕ) → holds m p
        ≡ (is_in p (flat_map (element_places (type_of elem.now)) places.now)
        && not (holds except.now p))) }
{
    if let Some(marks) = marks_of_trues(alloc, elem, places, except)? {
        return Ok(marks);
    }
    marks_of_parts(alloc, elem, places, except)
}

/// Adds the bytes of the elements at these byte offsets of a block to those that are marked, except
/// those of the other set. Where memory is wanted, none is added.
pub(crate) fn join_elements(
    alloc: Global,
    marked: &mut Footprint,
    base: Base,
    elem: &ElemType,
    places: &PlaceList,
    except: &Marks,
) -> Result<(), OutOfMemory>
    requires { All (λ p. p + item_size (type_of elem.now) ≤ 2 ^ 64) places.now }
    ensures ok { OnOk result ((c : values.Base) (p : ℕ)
        → is_marked (marks_of marked.new.entries) c p
        ≡ (is_marked (marks_of marked.old.entries) c p || (same_base (base_of base) c
        && (is_in p (flat_map (element_places (type_of elem.now)) places.now)
        && not (holds except.now p))))) }
    ensures err { OnErr result ((c : values.Base) (p : ℕ)
        → is_marked (marks_of marked.new.entries) c p
        ≡ is_marked (marks_of marked.old.entries) c p) }
{
    let marks = marks_of_elements(alloc, elem, places, except)?;
    join(marked, base, marks)
}
