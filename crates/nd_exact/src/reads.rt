//! What cells read, listed in full: `one_element_is_read` and its like.

ghost use Rattle.nd_exact.specs.ReadRows.{
  BroadcastReadsNoByte,
  CopyReadsItsElements,
  DeletionReadsNoByte,
  FieldReadsItsBytes,
  GapsAreNotRead,
  InPlaceReadsItsArray,
  InPlaceReadsItsElement,
  InPlaceReadsItsSlice,
  ListReadsItsElements,
  MaskReadsItsElements,
  MissingInputIsRead,
  MissingNameIsRead,
  NameIsRead,
  NoCellReadsTheRule,
  OneElementIsRead,
  OperatorReadsItsOperands,
  OwnDoingsAreNotRead,
  OwnNameIsNotRead,
  RecordReadsNoByte,
  RefusedReadsItsLines,
  RefusedReadsWhatItCameTo,
  ReshapeReadsNoByte,
  SaveReadsItsValue,
  StoreAtListReadsNoByte,
  StoreByMaskReadsTheMask,
  StoreReadsNoByte,
  SumReadsItsOperand,
  ViewReadsNoByte,
};

/// A number is read by its name alone.
pub fn name_is_read()
    ensures { NameIsRead }
{}

/// A name that is not bound is read, by the refusal the rule, and nothing behind it.
pub fn missing_name_is_read()
    ensures { MissingNameIsRead }
{}

/// The name of an array, the length of its base and the bytes of one element are read where that
/// element is used.
pub fn one_element_is_read()
    ensures { OneElementIsRead }
{}

/// The bytes between the elements of a slice are not read.
pub fn gaps_are_not_read()
    ensures { GapsAreNotRead }
{}

/// A view reads no byte.
pub fn view_reads_no_byte()
    ensures { ViewReadsNoByte }
{}

/// A view in another shape reads no byte.
pub fn reshape_reads_no_byte()
    ensures { ReshapeReadsNoByte }
{}

/// A view that is broadcast reads no byte.
pub fn broadcast_reads_no_byte()
    ensures { BroadcastReadsNoByte }
{}

/// A deletion reads no byte.
pub fn deletion_reads_no_byte()
    ensures { DeletionReadsNoByte }
{}

/// A copy reads the elements that it copies.
pub fn copy_reads_its_elements()
    ensures { CopyReadsItsElements }
{}

/// A list of positions reads the elements that it chooses.
pub fn list_reads_its_elements()
    ensures { ListReadsItsElements }
{}

/// A mask is read whole, and the elements that it chooses.
pub fn mask_reads_its_elements()
    ensures { MaskReadsItsElements }
{}

/// A field reads its own bytes in each record.
pub fn field_reads_its_bytes()
    ensures { FieldReadsItsBytes }
{}

/// A record of an array reads no byte.
pub fn record_reads_no_byte()
    ensures { RecordReadsNoByte }
{}

/// An operator reads the elements of its operands.
pub fn operator_reads_its_operands()
    ensures { OperatorReadsItsOperands }
{}

/// A reduction reads the elements of its operand.
pub fn sum_reads_its_operand()
    ensures { SumReadsItsOperand }
{}

/// What is saved is read.
pub fn save_reads_its_value()
    ensures { SaveReadsItsValue }
{}

/// A store into a slice reads no byte of it.
pub fn store_reads_no_byte()
    ensures { StoreReadsNoByte }
{}

/// A store at a list of positions reads no byte of the target.
pub fn store_at_list_reads_no_byte()
    ensures { StoreAtListReadsNoByte }
{}

/// A store by a mask reads the mask, and no byte of the target.
pub fn store_by_mask_reads_the_mask()
    ensures { StoreByMaskReadsTheMask }
{}

/// An element that is changed in place is read.
pub fn in_place_reads_its_element()
    ensures { InPlaceReadsItsElement }
{}

/// A slice that is changed in place is read, without its gaps.
pub fn in_place_reads_its_slice()
    ensures { InPlaceReadsItsSlice }
{}

/// An array that is changed in place is read whole.
pub fn in_place_reads_its_array()
    ensures { InPlaceReadsItsArray }
{}

/// What the cell itself bound, made or wrote is not read.
pub fn own_doings_are_not_read()
    ensures { OwnDoingsAreNotRead }
{}

/// A name that the cell bound before is not read.
pub fn own_name_is_not_read()
    ensures { OwnNameIsNotRead }
{}

/// A refused statement has read what it came to, and by the refusal the rule.
pub fn refused_reads_what_it_came_to()
    ensures { RefusedReadsWhatItCameTo }
{}

/// A refused cell has read what its lines before read.
pub fn refused_reads_its_lines()
    ensures { RefusedReadsItsLines }
{}

/// A text that is no cell has read the rule alone.
pub fn no_cell_reads_the_rule()
    ensures { NoCellReadsTheRule }
{}

/// An input that is not there is read, and by the refusal the rule.
pub fn missing_input_is_read()
    ensures { MissingInputIsRead }
{}
