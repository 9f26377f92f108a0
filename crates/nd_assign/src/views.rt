//! `copy_views`: copies the elements of one view to those of another, in C order.
ghost use Rattle.std.specs.Prelude.{◌≡◌, ◌+◌, ◌≤◌, ◌++◌, length, take, true};
ghost use Rattle.std.specs.List.{All};
ghost use Rattle.nd_model.specs.Making.Conversion.{converts};
ghost use Rattle.nd_model.specs.Arrays.View.{One, item_size};
ghost use Rattle.nd_element.specs.Elements.{AreHeld};
ghost use Rattle.nd_types.specs.Types.{type_of};
ghost use Rattle.nd_assign.specs.Copies.{with_copies};

use crate::columns::copy_crossed;
use crate::grid::crossed_grids;
use crate::pairs::copy_numbers;
use crate::structures::copy_structures;
use crate::walk::Walk;
use crate::whole_run::{copy_whole_run, whole_run};
use nd_types::{Elem, ElemType};
use nd_view::{Run, View};

// Copies the elements of a run to another one.
fn copy_part(
    out: &mut [u8],
    to: &ElemType,
    run: &Run,
    bytes: &[u8],
    from: &ElemType,
    from_run: &Run,
)
    requires types { converts (type_of from.now) (type_of to.now) ≡ true }
    requires counts { length from_run.now ≡ length run.now }
    requires out { All (λ p. p + item_size (type_of to.now) ≤ length out.old) run.now }
    requires held { All (λ p. p + item_size (type_of from.now) ≤ length bytes.now) from_run.now }
    ensures len { length out.new ≡ length out.old }
    ensures bytes { out.new ≡ with_copies (type_of to.now) (type_of from.now) bytes.now run.now
        from_run.now out.old }
{
    match (to, from) {
        (ElemType::One(to), ElemType::One(from)) => {
            copy_numbers(out, *to, run, bytes, *from, from_run);
        }
        (ElemType::Rec(structure), ElemType::Rec(_)) => {
            copy_structures(out, structure, run, bytes, from_run);
        }
        _ => unreachable!(),
    }
}

// Copies the next elements of a walk to a run.
fn copy_next(
    out: &mut [u8],
    to: &ElemType,
    run: &Run,
    bytes: &[u8],
    from: &ElemType,
    walk: &mut Walk<'_>,
)
    requires types { converts (type_of from.now) (type_of to.now) ≡ true }
    requires enough { length run.now ≤ length walk.old }
    requires out { All (λ p. p + item_size (type_of to.now) ≤ length out.old) run.now }
    requires held { All (λ p. p + item_size (type_of from.now) ≤ length bytes.now) walk.old }
    ensures len { length out.new ≡ length out.old }
    ensures walk { walk.old ≡ take (length run.now) walk.old ++ walk.new }
    ensures bytes { out.new ≡ with_copies (type_of to.now) (type_of from.now) bytes.now run.now
        (take (length run.now) walk.old) out.old }
{
    let count = run.count();
    let mut at = 0;
    while at < count {
        let next = walk.next(count - at);
        let some = next.count();
        copy_part(out, to, &run.part(at, some), bytes, from, &next);
        at += some;
    }
}

// Copies the elements of a view to the target, run by run.
fn copy_by_runs(out: &mut [u8], target: &View, bytes: &[u8], source: &View)
    requires types { converts source.now.element target.now.element ≡ true }
    requires counts { length source.now.places ≡ length target.now.places }
    requires out { All (λ p. p + item_size target.now.element ≤ length out.old) target.now.places }
    requires held { All (λ p. p + item_size source.now.element ≤ length bytes.now)
        source.now.places }
    ensures len { length out.new ≡ length out.old }
    ensures bytes { out.new ≡ with_copies target.now.element source.now.element bytes.now
        target.now.places source.now.places out.old }
{
    let mut walk = Walk::new(source);
    let mut runs = target.runs();
    while let Some(run) = runs.next() {
        copy_next(out, target.elem(), &run, bytes, source.elem(), &mut walk);
    }
}

// Copies the numbers of a view to the target, converted, in C order: column by column where one of
// them lies so, by one run where the source is one, and run by run otherwise.
fn copy_view(out: &mut [u8], to: Elem, target: &View, bytes: &[u8], from: Elem, source: &View)
    requires type_is { target.now.element ≡ One to }
    requires from_type { source.now.element ≡ One from }
    requires counts { length source.now.places ≡ length target.now.places }
    requires out { AreHeld to out.old target.now.places }
    requires held { AreHeld from bytes.now source.now.places }
    ensures len { length out.new ≡ length out.old }
    ensures bytes { out.new ≡ with_copies (One to) (One from) bytes.now target.now.places
        source.now.places out.old }
{
    if let Some(grids) = crossed_grids(target, source, to.size()) {
        copy_crossed(out, to, bytes, from, grids);
        return;
    }
    if let Some(run) = whole_run(source) {
        copy_whole_run(out, to, target, bytes, from, &run);
        return;
    }
    copy_by_runs(out, target, bytes, source);
}

/// Copies the elements of a view of these bytes to the target, converted, in C order.
pub(crate) fn copy_views(out: &mut [u8], target: &View, bytes: &[u8], source: &View)
    requires types { converts source.now.element target.now.element ≡ true }
    requires counts { length source.now.places ≡ length target.now.places }
    requires out { All (λ p. p + item_size target.now.element ≤ length out.old) target.now.places }
    requires held { All (λ p. p + item_size source.now.element ≤ length bytes.now)
        source.now.places }
    ensures len { length out.new ≡ length out.old }
    ensures bytes { out.new ≡ with_copies target.now.element source.now.element bytes.now
        target.now.places source.now.places out.old }
{
    if let (ElemType::One(to), ElemType::One(from)) = (target.elem(), source.elem()) {
        copy_view(out, *to, target, bytes, *from, source);
    } else {
        copy_by_runs(out, target, bytes, source);
    }
}
