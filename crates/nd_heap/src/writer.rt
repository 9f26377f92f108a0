//! `BlockWriter`: what is written to a block, as a function of its bytes.

ghost use Rattle.std.specs.Prelude.{◌≡◌, ℕ, List, IfOk, length};

use nd_block::RawBlock;
use std::alloc::{AllocError, Global};

/// What is written to a block: a function from the bytes that it has to as many other ones.
pub trait BlockWriter {
    ghost written: { Self → List ℕ → List ℕ };

    /// Writes to a block that nobody else has.
    fn write(self, block: &mut RawBlock)
        ensures { block.new ≡ written self block.old };

    /// Returns what `write` would leave of a block that others have too, as a block of its own. Bytes
    /// that are all overwritten need not be copied first.
    fn write_copy(&self, alloc: Global, block: &RawBlock) -> Result<RawBlock, AllocError>
        ensures { IfOk result (λ b. b ≡ written self.now block.now) };

    ghost keeps_length: { (w : Self) (bytes : List ℕ)
        → length (written w bytes) ≡ length bytes };
}
