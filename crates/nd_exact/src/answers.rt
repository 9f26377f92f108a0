//! What edits and queries are answered, memory aside: `answers_are_determined` and its like.

ghost use Rattle.nd_exact.specs.Answers.{
  AnswersAreDetermined,
  CountsAtMostStale,
  EachIsAnswered,
  ListsAreDetermined,
  MemoryComesLast,
  RefusalChangesNothing,
  RefusalCountsNothing,
  TellingIsDetermined,
};

/// Two answers to an edit that are no want of memory are the same, and leave the same notebook.
pub fn answers_are_determined()
    ensures { AnswersAreDetermined }
{}

/// Each edit of each notebook has an answer that is no want of memory.
pub fn each_is_answered()
    ensures { EachIsAnswered }
{}

/// An edit that is refused for another reason is never refused for want of memory.
pub fn memory_comes_last()
    ensures { MemoryComesLast }
{}

/// A refused edit changes nothing, whatever it is refused for.
pub fn refusal_changes_nothing()
    ensures { RefusalChangesNothing }
{}

/// No answer counts more runs than the edit makes cells stale.
pub fn counts_at_most_stale()
    ensures { CountsAtMostStale }
{}

/// A refusal that is no want of memory counts no run.
pub fn refusal_counts_nothing()
    ensures { RefusalCountsNothing }
{}

/// Two lists of answers to the same edits, with no want of memory, are the same, and so are the
/// notebooks after them.
pub fn lists_are_determined()
    ensures { ListsAreDetermined }
{}

/// What a query tells is determined but for a want of memory, which stands for no other refusal.
pub fn telling_is_determined()
    ensures { TellingIsDetermined }
{}
