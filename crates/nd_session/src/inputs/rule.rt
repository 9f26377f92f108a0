//! `CellRule`: what stands of a cell that is refused.

ghost use Rattle.std.specs.Prelude.{◌≡◌, ◌↔◌, IsTrue};
ghost use Rattle.nd_session.specs.Inputs.Values.{rule_of};

/// What stands of a cell that is refused. Its text and its refusal always do.
#[derive(Clone, Copy)]
pub enum CellRule {
    /// All that its statements did before the one that was refused, as in Python.
    Python,
    /// Nothing: names, blocks and saved files are those before the cell.
    Atomic,
}

impl CellRule {
    /// Returns whether both are the same rule.
    pub fn is_same(self, other: CellRule) -> bool
        ensures { IsTrue result ↔ (rule_of self ≡ rule_of other) }
    {
        match (self, other) {
            (CellRule::Python, CellRule::Python) | (CellRule::Atomic, CellRule::Atomic) => true,
            _ => false,
        }
    }
}
