//! What cells leave, in full: `store_writes_its_slice` and its like.

ghost use Rattle.nd_exact.specs.WriteRows.{
  AtomicLeavesNothing,
  BaseWithoutNameIsGone,
  CopyLeavesItsBase,
  DeletionLeavesItsName,
  InPlaceWritesItsArray,
  InPlaceWritesItsElement,
  OwnStoreIsInItsBase,
  PrintLeavesNothing,
  RefusedLeavesItsLines,
  SaveLeavesNothing,
  StoreAtListWritesItsElements,
  StoreByMaskWritesItsElements,
  StoreLeavesGaps,
  StoreWritesItsField,
  StoreWritesItsSlice,
  ViewLeavesItsName,
};

/// A print leaves nothing but its text.
pub fn print_leaves_nothing()
    ensures { PrintLeavesNothing }
{}

/// A save leaves nothing but its file.
pub fn save_leaves_nothing()
    ensures { SaveLeavesNothing }
{}

/// A view leaves its name alone, bound in the base of its array.
pub fn view_leaves_its_name()
    ensures { ViewLeavesItsName }
{}

/// A deletion leaves its name alone, not bound any more.
pub fn deletion_leaves_its_name()
    ensures { DeletionLeavesItsName }
{}

/// A base that no name holds at the end of the cell is gone.
pub fn base_without_name_is_gone()
    ensures { BaseWithoutNameIsGone }
{}

/// A copy leaves its name and a base of its own, and writes no byte elsewhere.
pub fn copy_leaves_its_base()
    ensures { CopyLeavesItsBase }
{}

/// A store into an array of its own is in its base, and writes no byte elsewhere.
pub fn own_store_is_in_its_base()
    ensures { OwnStoreIsInItsBase }
{}

/// A store into a slice writes the bytes of its elements.
pub fn store_writes_its_slice()
    ensures { StoreWritesItsSlice }
{}

/// A store into a slice writes no byte of its gaps.
pub fn store_leaves_gaps()
    ensures { StoreLeavesGaps }
{}

/// A store at a list of positions writes the elements that it chooses.
pub fn store_at_list_writes_its_elements()
    ensures { StoreAtListWritesItsElements }
{}

/// A store by a mask writes the elements that it chooses.
pub fn store_by_mask_writes_its_elements()
    ensures { StoreByMaskWritesItsElements }
{}

/// A store into a field writes its own bytes in each record.
pub fn store_writes_its_field()
    ensures { StoreWritesItsField }
{}

/// An element that is changed in place is written alone.
pub fn in_place_writes_its_element()
    ensures { InPlaceWritesItsElement }
{}

/// An array that is changed in place is written, and its name is not bound again.
pub fn in_place_writes_its_array()
    ensures { InPlaceWritesItsArray }
{}

/// Under Python's rule the lines before a refusal have written.
pub fn refused_leaves_its_lines()
    ensures { RefusedLeavesItsLines }
{}

/// Under the atomic rule a refused cell leaves nothing.
pub fn atomic_leaves_nothing()
    ensures { AtomicLeavesNothing }
{}
