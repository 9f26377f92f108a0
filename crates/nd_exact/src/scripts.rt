//! What scripts write, memory aside: `scripts_are_determined` and its like.

ghost use Rattle.nd_exact.specs.Scripts.{
  CommandIsDetermined,
  CommandsAreEdits,
  CutsAreFronts,
  EditsAreCommands,
  RunsAreDetermined,
  ScriptsAreDetermined,
  StopsAreDetermined,
  TellsAreCommands,
  WantStandsForAnAnswer,
};

/// What a notebook answers to an edit, and the book after it, is what a script may answer.
pub fn edits_are_commands()
    ensures { EditsAreCommands }
{}

/// A script answers nothing else to an edit.
pub fn commands_are_edits()
    ensures { CommandsAreEdits }
{}

/// What a notebook tells of names and values is what a script may answer.
pub fn tells_are_commands()
    ensures { TellsAreCommands }
{}

/// Two answers to a command of a script that are no want of memory are the same, and leave the
/// same notebook.
pub fn command_is_determined()
    ensures { CommandIsDetermined }
{}

/// Memory is wanted only in place of `ok` to an edit, or of names or a value that would be shown.
/// It changes nothing.
pub fn want_stands_for_an_answer()
    ensures { WantStandsForAnAnswer }
{}

/// What two whole runs of a script wrote without a want of memory is the same, and so are the
/// notebooks after them.
pub fn scripts_are_determined()
    ensures { ScriptsAreDetermined }
{}

/// So it is with runs that stopped behind the same bytes, at the commands that are complete in
/// these.
pub fn stops_are_determined()
    ensures { StopsAreDetermined }
{}

/// What is written of answers that are cut off is a front of whole ones, with the same notebook
/// after them.
pub fn cuts_are_fronts()
    ensures { CutsAreFronts }
{}

/// Two runs to the end from the same bytes, without a want of memory, wrote the same and left the
/// same notebook.
pub fn runs_are_determined()
    ensures { RunsAreDetermined }
{}
