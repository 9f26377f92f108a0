//! `fresh_label`: a label that no cell of a notebook has.

ghost use Rattle.std.specs.Prelude.{◌≡◌, ◌<◌, ◌≤◌, ◌||◌, ℕ, IfOk, IsTrue, false, length, nat_eq, slice_index_or, true};
ghost use Rattle.nd_model.specs.Book.Book.{is_label};
ghost use Rattle.nd_model.specs.Book.Book as model;
ghost use Rattle.nd_schedule.specs.Cells.Labels.{AreUsed};
ghost use Rattle.nd_schedule.specs.Cells.Source.{cells_of};

use crate::cells::source::KeptCell;
use std::alloc::{AllocError, Global};
use std::rc::Rc;

/// The least number that is the label of no cell, and a number below which each is the label of some cell, or this one.
#[derive(Clone, Copy, Drop)]
pub struct FreeLabel {
    pub(crate) label: u64,
    pub(crate) next: usize,
}

/// Marks a label, if it is below the number of cells.
fn mark_label(used: &mut Vec<bool>, label: u64)
    ensures count { length used.new.items ≡ length used.old.items }
    ensures marks { (n : ℕ) → n < length used.old.items → slice_index_or used.new.items n false
        ≡ (slice_index_or used.old.items n false || nat_eq n label) }
{
    if label < used.len() as u64 {
        used[label as usize] = true;
    }
}

/// For each number below the number of cells, whether it is the label of some cell.
fn mark_labels(alloc: Global, cells: &[Rc<KeptCell>]) -> Result<Vec<bool>, AllocError>
    ensures count { IfOk result (λ v. length v.items ≡ length cells.now) }
    ensures marks { IfOk result (λ v. (n : ℕ) → n < length cells.now
        → slice_index_or v.items n false ≡ is_label n (cells_of cells.now)) }
{
    let mut used = Vec::new(alloc);
    used.resize(cells.len(), false)?;
    for cell in cells {
        mark_label(&mut used, cell.label);
    }
    Ok(used)
}

/// The first place from one on that is not marked. All behind the last are not.
fn first_unused(used: &[bool], from: usize) -> usize
    ensures behind { from ≤ result }
    ensures marked { (n : ℕ) → from ≤ n → n < result → slice_index_or used.now n false ≡ true }
    ensures unmarked { slice_index_or used.now result false ≡ false }
{
    for place in from..used.len() {
        if !used[place] {
            return place;
        }
    }
    from.max(used.len())
}

/// Returns the least number that is the label of no cell, where each below `least` is the label of one. Where `least` is the number of
/// cells it is that, and no cell is looked at.
pub(crate) fn fresh_label(
    alloc: Global,
    cells: &[Rc<KeptCell>],
    least: usize,
) -> Result<FreeLabel, AllocError>
    requires { AreUsed least (cells_of cells.now) }
    ensures label { IfOk result (λ f. f.label ≡ model.fresh_label (cells_of cells.now)) }
    ensures next { IfOk result (λ f. (n : ℕ) → n < f.next
        → IsTrue (is_label n (cells_of cells.now) || nat_eq n f.label)) }
{
    if least == cells.len() {
        return Ok(FreeLabel {
            label: least as u64,
            next: least + 1,
        });
    }
    let used = mark_labels(alloc, cells)?;
    let label = first_unused(&used, least);
    let next = first_unused(&used, label.saturating_add(1));
    Ok(FreeLabel {
        label: label as u64,
        next,
    })
}
