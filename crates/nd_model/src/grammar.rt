//! The laws of the grammar of cells: `reading` computes what the grammar says, and that is one
//! thing of each text. Also the laws of a text's tokens, and their number in statements.
ghost use Rattle.std.specs.Prelude.{◌≡◌, ◌↔◌, ◌-◌, ℕ, true, List, length, slice_get, IsSome, Ok, Err};
ghost use Rattle.nd_model.specs.Grammar.Token.{Token};
ghost use Rattle.nd_model.specs.Grammar.Grammar.{Stop};
ghost use Rattle.nd_model.specs.Grammar.Faults.{HasFault};
ghost use Rattle.nd_model.specs.Grammar.Kinds.{kind};
ghost use Rattle.nd_model.specs.Grammar.Cells.{cell};
ghost use Rattle.nd_model.specs.Grammar.Syntax.{Line};
ghost use Rattle.nd_model.specs.Cells.Fault.{ParseFault};
ghost use Rattle.nd_model.specs.Grammar.Reading.{reading, IsCell, HasCellFault};
ghost use Rattle.nd_model.specs.Grammar.Lookahead.{LookaheadChooses};
ghost use Rattle.nd_model.specs.Grammar.Lexing.{AreStatements, FewWords, WholeStatements};
ghost use Rattle.nd_model.specs.Grammar.Few.{FewTokens};

/// No text is a cell in two ways.
pub fn one_meaning()
    ensures { (text : List ℕ) (a b : List Line) → IsCell text a → IsCell text b → a ≡ b }
{}

/// No text has two faults.
pub fn one_fault()
    ensures { (text : List ℕ) (f g : ParseFault) → HasCellFault text f → HasCellFault text g
        → f ≡ g }
{}

/// What is read is a cell exactly for the texts that are one, and the fault of all other texts.
pub fn reading_is_exact()
    ensures statements { (text : List ℕ) (ls : List Line) → (reading text ≡ Ok ls)
        ↔ IsCell text ls }
    ensures fault { (text : List ℕ) (f : ParseFault) → (reading text ≡ Err f)
        ↔ HasCellFault text f }
{}

/// Whole statements have their fault at one of their tokens: at the end of a statement, if nothing
/// else is left.
pub fn faults_are_at_tokens()
    ensures { (ts : List Token) (s : Stop) → AreStatements true ts → HasFault kind cell ts s
        → IsSome (slice_get ts (length ts - s.left)) }
{}

/// A text has at most as many words as bytes. The ends of statements are not counted.
pub fn few_words()
    ensures { FewWords }
{}

/// The tokens of a text are whole statements. The last token, if there is one, is an end; a token
/// starts a statement exactly where it is the first or follows an end.
pub fn whole_statements()
    ensures { WholeStatements }
{}

/// The statements of a text have together at most as many tokens as the text has bytes.
pub fn few_tokens()
    ensures { FewTokens }
{}

/// Wherever the grammar knows one kind of a token it knows all: each is taken there, or is refused
/// for a reason of its own.
pub fn lookahead_chooses()
    ensures { LookaheadChooses }
{}
