//! `Assignment`: a prepared assignment, whose write takes no memory.
ghost use Rattle.std.specs.Prelude.{◌≡◌, Some, length, true, IfOk, IfSome};
ghost use Rattle.nd_model.specs.Making.Conversion.{converts};
ghost use Rattle.nd_assign.specs.Prepared.{written_by};
ghost use Rattle.nd_assign.specs.Ways.{AreIn, IsPrepared, bytes_read};

use crate::gapless::move_gapless;
use crate::rewriting::{convert_to_block, overwriting_dtypes};
use crate::views::copy_views;
use crate::within::{copy_down, copy_up};
use nd_block::RawBlock;
use nd_types::Elem;
use nd_view::{Run, View};
use std::alloc::{AllocError, Global};
use std::marker::Model;

/// Where the elements are read, and how they get to the target.
#[derive(Drop)]
pub(crate) enum Way<'v> {
    /// From bytes that are borrowed.
    Lent(&'v [u8]),
    /// From the bytes of one number.
    Number([u8; 8]),
    /// From a copy of what is read.
    Copied(RawBlock),
    /// In the block: contiguous numbers of one dtype are moved at once, from the second run to the
    /// first one.
    Moved(Elem, Run, Run),
    /// In the block, from below a byte offset to above it: the target is counted from there.
    Up(usize, View),
    /// In the block, from above a byte offset to below it: the source is counted from there.
    Down(usize, View),
}

impl<'v> Way<'v> {
    // The bytes that are read where these are not the block's, and `None` where they are.
    fn other_bytes(&self) -> Option<&[u8]>
        ensures { IfSome result (λ bytes. bytes_read self.now ≡ Some bytes.now) }
    {
        match self {
            Way::Lent(read) => Some(read),
            Way::Number(read) => Some(read),
            Way::Copied(read) => Some(read.as_slice()),
            _ => None,
        }
    }
}

/// A prepared assignment: writing it takes no memory. A clause sees the views of target and source,
/// the bytes read where these are not the block's, and the length of the block.
#[derive(Drop)]
pub struct Assignment<'v> {
    target: &'v View,
    // the view of the value, broadcast to the target's shape
    source: View,
    way: Way<'v>,
    // how many bytes the block has
    len: usize,
}

impl<'v> Model for Assignment<'v> {
    ghost use Rattle.nd_assign.specs.Prepared.{Prepared};

    ghost Value = { Prepared };

    ghost use Rattle.nd_assign.specs.Ways.{prepared_of, IsAssignment};

    ghost view = { prepared_of };

    ghost invariant = { IsAssignment };
}

impl<'v> Assignment<'v> {
    pub(crate) fn new(target: &'v View, source: View, way: Way<'v>, len: usize) -> Assignment<'v>
        requires { IsPrepared target.now source len way }
        ensures { result ≡ record {
          target = target.now;
          source = source;
          bytes = bytes_read way.entry;
          len = len;
        } }
    {
        Assignment {
            target,
            source,
            way,
            len,
        }
    }

    /// Returns the assignment of values in a block of their own: the elements of `source`, for as
    /// many of the target, in C order. It takes no memory.
    pub fn of_block(target: &'v View, source: View, block: RawBlock, len: usize) -> Assignment<'v>
        requires types { converts source.element target.now.element ≡ true }
        requires counts { length source.places ≡ length target.now.places }
        requires target { AreIn len target.now }
        requires source { AreIn (length block) source }
        ensures { result ≡ record {
          target = target.now;
          source = source;
          bytes = Some block;
          len = len;
        } }
    {
        Assignment::new(target, source, Way::Copied(block), len)
    }

    /// Writes the values to a block of the length that they were prepared for; any other block
    /// stays as it is.
    pub fn write(&self, block: &mut RawBlock)
        ensures { block.new ≡ written_by self.now block.old }
    {
        if block.len() != self.len {
            return;
        }
        let (target, source) = (self.target, &self.source);
        let bytes = block.as_mut_slice();
        match &self.way {
            Way::Lent(read) => copy_views(bytes, target, read, source),
            Way::Number(read) => copy_views(bytes, target, read, source),
            Way::Copied(read) => copy_views(bytes, target, read.as_slice(), source),
            Way::Moved(elem, run, from_run) => move_gapless(bytes, *elem, run, from_run),
            Way::Up(middle, target) => copy_up(bytes, *middle, target, source),
            Way::Down(middle, source) => copy_down(bytes, *middle, target, source),
        }
    }

    /// Returns what `write` leaves of a block, as a block of its own. An error means want of memory
    /// for that block, the one allocation.
    ///
    /// Old bytes are not copied where other numbers overwrite all of them in C order, as in
    /// `x[:] = 0` or `x[:] = row`. Otherwise the block is copied and written to.
    pub fn write_copy(&self, alloc: Global, block: &RawBlock) -> Result<RawBlock, AllocError>
        ensures { IfOk result (λ b. b ≡ written_by self.now block.now) }
    {
        if block.len() == self.len {
            if let Some(dtypes) = overwriting_dtypes(self.target, &self.source, self.len) {
                if let Some(bytes) = self.way.other_bytes() {
                    return convert_to_block(alloc, dtypes, bytes, &self.source);
                }
            }
        }
        let mut copy = block.try_clone()?;
        self.write(&mut copy);
        Ok(copy)
    }
}
