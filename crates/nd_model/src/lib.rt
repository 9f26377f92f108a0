//! What a notebook means, in the definitions of this crate, and the laws of it: `frame`, `replay`,
//! `any_pass`, `few_runs` and the others.
#![tactic(auto)]

ghost use Rattle.nd_model.specs.Cells.Bases.{FewBases};
ghost use Rattle.nd_model.specs.Book.Book.{LabelsStayDistinct, AnyLabels as AnyBookLabels};
ghost use Rattle.nd_model.specs.Arrays.Element.{BytesRoundTrip, OneWrap, RoundTrip};
ghost use Rattle.nd_model.specs.Book.Entries.{SameFront, ToldByRecords};
ghost use Rattle.nd_model.specs.Cells.Footprint.{Frame, EffectsAreAll, Replay, RuleIsRead};
ghost use Rattle.nd_model.specs.Book.Notebook.{EditsBook};
ghost use Rattle.nd_model.specs.Cells.Noting.{WritesReadNoMore};
ghost use Rattle.nd_model.specs.Book.Sessions.{NamesStandOnce, SessionsAreSound};
ghost use Rattle.nd_model.specs.Making.Operators.{FloorDivision};
ghost use Rattle.nd_model.specs.Arrays.Promotion.{PromotionTable};
ghost use Rattle.nd_model.specs.Book.Records.{Kept};
ghost use Rattle.nd_model.specs.Book.Renaming.{Rename, AnyLabels};
ghost use Rattle.nd_model.specs.Indexing.Reshaping.{EvenPlaces};
ghost use Rattle.nd_model.specs.Book.Scheduler.{AnyPass};
ghost use Rattle.nd_model.specs.Indexing.Selected.{AdvancedLies, FieldLies, SelectedLies};
ghost use Rattle.nd_model.specs.Indexing.Shaped.{
  RecastLies,
  ReshapedLies,
  ReversedLies,
  StretchedLies,
  TransposedLies,
};
ghost use Rattle.nd_model.specs.Cells.Sound.{ReplaysSound, StaysSound};
ghost use Rattle.nd_model.specs.Book.Stale.{AtMostIsAtMost, FewRuns, FrontIsNotStale};
ghost use Rattle.nd_model.specs.Cells.Storing.{StoresByParts};
ghost use Rattle.nd_model.specs.Arrays.Strides.{PartsAreHeld};

pub mod grammar;

/// A value of an element's kind is read back from its bytes.
pub fn round_trip()
    ensures { RoundTrip }
{}

/// The bytes of an element that is no Boolean are those of its value.
pub fn bytes_round_trip()
    ensures { BytesRoundTrip }
{}

/// A number wraps to the one number of the kind that is equal to it modulo 2 to the power of the
/// width.
pub fn one_wrap()
    ensures { OneWrap }
{}

/// A quotient that is rounded down and its remainder give the number again. The remainder lies
/// between zero and the divisor.
pub fn floor_division()
    ensures { FloorDivision }
{}

/// The rule of promotion gives the table of NEP 50, for each two of the nine kinds.
pub fn promotion_table()
    ensures { PromotionTable }
{}

/// A view that is made of parts has all bytes of its elements in the block.
pub fn parts_are_held()
    ensures { PartsAreHeld }
{}

/// A basic index selects a view that lies in the block in which its source lies.
pub fn selected_lies()
    ensures { SelectedLies }
{}

/// An advanced index, whose arrays have all their contents, selects elements that lie in the block
/// in which its source lies.
pub fn advanced_lies()
    ensures { AdvancedLies }
{}

/// The view of a field lies in the block in which its source lies.
pub fn field_lies()
    ensures { FieldLies }
{}

/// A transposed view lies in the block in which its source lies.
pub fn transposed_lies()
    ensures { TransposedLies }
{}

/// A view with its axes reversed lies in the block in which its source lies.
pub fn reversed_lies()
    ensures { ReversedLies }
{}

/// A view that is broadcast lies in the block in which its source lies.
pub fn stretched_lies()
    ensures { StretchedLies }
{}

/// A reshaped view lies in the block in which its source lies.
pub fn reshaped_lies()
    ensures { ReshapedLies }
{}

/// Elements are a view in a shape exactly where a start and a stride for each axis lead to all
/// their byte offsets.
pub fn even_places()
    ensures { EvenPlaces }
{}

/// A view as numbers of another dtype lies in the block in which its source lies.
pub fn recast_lies()
    ensures { RecastLies }
{}

/// Sessions, inputs and rules that agree on what a cell reads in the first give it the same reads
/// and effects.
pub fn frame()
    ensures { Frame }
{}

/// A cell has read the rule exactly where it is refused. So no other cell runs again where the rule
/// changes, unless something else that it read changes with it.
pub fn rule_is_read()
    ensures { RuleIsRead }
{}

/// The session after a cell is the one before it with the cell's effects.
pub fn effects_are_all()
    ensures { EffectsAreAll }
{}

/// The effects of a run over one session give the session after a run over another that agrees on
/// what was read.
pub fn replay()
    ensures { Replay }
{}

/// A record that still holds is the record of the run that it stands for.
pub fn record_stands()
    ensures { Kept }
{}

/// Whichever cells a pass runs, as long as the records of the others still hold, it gives what
/// running all cells gives.
pub fn any_pass()
    ensures { AnyPass }
{}

/// A pass that runs a cell only where no record of the run before still holds has the records of a
/// fresh run of all cells. It runs stale cells only.
pub fn few_runs()
    ensures { FewRuns }
{}

/// Where each stale cell has a flag, a number of at most the stale cells is at most the number of
/// flags.
pub fn at_most_is_at_most()
    ensures { AtMostIsAtMost }
{}

/// Where the first cells, the inputs and the rule of two notebooks are equal, so are the records of
/// these cells and the sessions around them.
pub fn same_front()
    ensures { SameFront }
{}

/// All that a notebook answers of a cell is in the record of its run and the session after it.
pub fn told_by_records()
    ensures { ToldByRecords }
{}

/// Front cells are not stale: an edit of a cell makes none before it stale, and an edit that
/// changes nothing makes none stale.
pub fn front_is_not_stale()
    ensures { FrontIsNotStale }
{}

/// No answer of a notebook depends on the labels of its cells.
pub fn rename()
    ensures { Rename }
{}

/// Two labellings that tell the cells apart give the same answers.
pub fn any_labels()
    ensures { AnyLabels }
{}

/// No answer of a book of cells depends on their labels, as long as these are distinct.
pub fn any_book_labels()
    ensures { AnyBookLabels }
{}

/// The labels of a book's cells stay distinct, edit after edit.
pub fn labels_stay_distinct()
    ensures { LabelsStayDistinct }
{}

/// The notebook of the contracts after an edit stands for the edited book.
pub fn edits_book()
    ensures { EditsBook }
{}

/// A session in which each array and row lies in its block stays so, at a cell's start, after each
/// statement and after a cell.
pub fn stays_sound()
    ensures { StaysSound }
{}

/// The effects of a run over one sound session, put on another that agrees with what was read, give
/// a sound session.
pub fn replays_sound()
    ensures { ReplaysSound }
{}

/// A statement, refused or not, makes at most as many blocks as it has tokens.
pub fn few_bases()
    ensures { FewBases }
{}

/// What a statement's write notes as read was read before.
pub fn writes_read_no_more()
    ensures { WritesReadNoMore }
{}

/// Noting bytes as written and then writing them is one store.
pub fn stores_by_parts()
    ensures { StoresByParts }
{}

/// No name stands twice in the session before a cell.
pub fn names_stand_once()
    ensures { NamesStandOnce }
{}

/// In the session before a cell each array and each row lies in its block.
pub fn sessions_are_sound()
    ensures { SessionsAreSound }
{}
