//! `Crossed`: a target and a source whose last two axes are copied in the other order, column by
//! column, since one of them lies so in memory, as a transposed array does, or rows are short.
ghost use Rattle.std.specs.Prelude.{◌≡◌, ◌+◌, ◌-◌, ◌*◌, ◌^◌, ◌<◌, ◌≤◌, IsTrue, IfSome};
ghost use Rattle.nd_assign.specs.Grids.{AreColumnsApart, AreCrossed, moved_by, part_of, stack_places};

use nd_view::View;

// The fewest rows that are copied column by column.
const ROWS: u64 = 8;
// The fewest elements that are.
const MANY: usize = 1024;
// The rows that are copied at a time where one grid alone lies column by column in memory.
const BAND: u64 = 16;
// The fewest columns whose lines of the cache are dropped before the next row wants them.
const WIDE: u64 = 2048;
// The bytes of a line of the cache.
const LINE: u64 = 64;
// The most columns of short rows.
const SHORT: u64 = 8;
// The short rows that are copied at a time.
const SHORT_BAND: u64 = 128;

/// The elements of two axes with strides that are not negative, in bytes.
#[derive(Clone, Copy)]
pub(crate) struct Grid {
    pub(crate) start: u64,
    pub(crate) rows: u64,
    // from one row to the next
    pub(crate) across: u64,
    pub(crate) columns: u64,
    // from one column to the next
    pub(crate) along: u64,
}

/// Grids of one shape that lie one step apart: the elements of a view of three axes, or of two.
#[derive(Clone, Copy)]
pub(crate) struct Stack {
    pub(crate) first: Grid,
    pub(crate) count: u64,
    // from one grid to the next
    pub(crate) jump: u64,
}

/// A target and a source of one shape, of which some rows at a time are copied column by column.
#[derive(Clone, Copy)]
pub(crate) struct Crossed {
    pub(crate) target: Stack,
    pub(crate) source: Stack,
    pub(crate) band: u64,
}

impl Grid {
    /// Returns the grid of `count` of the rows, from row `first` on.
    pub(crate) fn part(self, first: u64, count: u64) -> Grid
        requires { self.start + first * self.across < 2 ^ 64 }
        ensures { result ≡ part_of self first count }
    {
        Grid {
            start: self.start + first * self.across,
            rows: count,
            across: self.across,
            columns: self.columns,
            along: self.along,
        }
    }

    /// Returns the grid that lies `bytes` behind this one.
    pub(crate) fn shift(self, bytes: u64) -> Grid
        requires { self.start + bytes < 2 ^ 64 }
        ensures { result ≡ moved_by self bytes }
    {
        Grid {
            start: self.start + bytes,
            rows: self.rows,
            across: self.across,
            columns: self.columns,
            along: self.along,
        }
    }

    // Whether the rows lie one behind another, as one run.
    fn is_one_run(self) -> bool {
        match self.columns.checked_mul(self.along) {
            Some(row) => row == self.across,
            None => false,
        }
    }
}

// The elements of a view of two axes, or `None` where it has others, or a negative stride.
fn one_grid(view: &View) -> Option<Stack>
    ensures { IfSome result (λ s. view.now.places ≡ stack_places s s.count) }
{
    let (shape, strides) = (view.shape(), view.held_strides());
    if shape.len() != 2 || strides.len() != 2 {
        return None;
    }
    let (across, along) = (strides[0], strides[1]);
    if across < 0 || along < 0 {
        return None;
    }
    let first = Grid {
        start: view.offset(),
        rows: shape[0],
        across: across as u64,
        columns: shape[1],
        along: along as u64,
    };
    Some(Stack {
        first,
        count: 1,
        jump: 0,
    })
}

// The elements of a view of three axes, or `None` where it has others, or a negative stride.
fn more_grids(view: &View) -> Option<Stack>
    ensures { IfSome result (λ s. view.now.places ≡ stack_places s s.count) }
{
    let (shape, strides) = (view.shape(), view.held_strides());
    if shape.len() != 3 || strides.len() != 3 {
        return None;
    }
    let (jump, across, along) = (strides[0], strides[1], strides[2]);
    if jump < 0 || across < 0 || along < 0 {
        return None;
    }
    let first = Grid {
        start: view.offset(),
        rows: shape[1],
        across: across as u64,
        columns: shape[2],
        along: along as u64,
    };
    Some(Stack {
        first,
        count: shape[0],
        jump: jump as u64,
    })
}

// The elements of a view of two axes or of three, or `None` where it has others, or a negative
// stride.
fn stack_of(view: &View) -> Option<Stack>
    ensures { IfSome result (λ s. view.now.places ≡ stack_places s s.count) }
{
    if let Some(stack) = one_grid(view) {
        return Some(stack);
    }
    more_grids(view)
}

// Whether `count` elements of `size` bytes, `step` bytes apart, end before `next` bytes from the
// first one on.
fn end_before(count: u64, step: u64, size: u64, next: u64) -> bool
    requires { 0 < count }
    ensures { IsTrue result → (count - 1) * step + size ≤ next }
{
    if next < size {
        return false;
    }
    match (count - 1).checked_mul(step) {
        Some(reach) => reach <= next - size,
        None => false,
    }
}

// How many rows are to be copied column by column at a time, where the target's columns lie in
// rows. `None` where a walk row by row serves as well.
fn band_in_rows(target: Grid, source: Grid) -> Option<u64>
    ensures { IfSome result (λ band. 0 < band) }
{
    if target.columns >= WIDE && source.along >= LINE && source.along > source.across {
        return Some(BAND);
    }
    if target.columns > SHORT || target.is_one_run() && source.is_one_run() {
        return None;
    }
    Some(SHORT_BAND)
}

// How many rows are to be copied column by column at a time: all of them where both grids lie
// column by column in memory, and few where one does. `None` where a walk row by row serves as
// well, or elements of the target may overlap.
fn band_of(target: Grid, source: Grid, size: u64) -> Option<u64>
    requires rows { 0 < target.rows }
    requires columns { 0 < target.columns }
    ensures some { IfSome result (λ band. 0 < band) }
    ensures apart { IfSome result (λ _. AreColumnsApart size target) }
{
    if end_before(target.rows, target.across, size, target.along) {
        return Some(if source.across < LINE {
            target.rows
        } else {
            BAND
        });
    }
    if target.along < size {
        return None;
    }
    let band = band_in_rows(target, source)?;
    if end_before(target.columns, target.along, size, target.across) {
        return Some(band);
    }
    None
}

// Whether both have grids of one shape, and as many of them.
fn have_one_shape(target: Stack, source: Stack) -> bool
    ensures count { IsTrue result → source.count ≡ target.count }
    ensures rows { IsTrue result → source.first.rows ≡ target.first.rows }
    ensures columns { IsTrue result → source.first.columns ≡ target.first.columns }
{
    if source.count != target.count {
        return false;
    }
    source.first.rows == target.first.rows && source.first.columns == target.first.columns
}

/// Returns the grids of a target, whose elements have `size` bytes, and of its source, where they
/// are to be copied column by column: both have two axes, or three, of the same lengths, and one of
/// them lies column by column in memory, as a transposed array does, or the rows are short. `None`
/// where a walk row by row serves as well.
pub(crate) fn crossed_grids(target: &View, source: &View, size: u64) -> Option<Crossed>
    ensures target { IfSome result (λ c. target.now.places
        ≡ stack_places c.target c.target.count) }
    ensures source { IfSome result (λ c. source.now.places
        ≡ stack_places c.source c.source.count) }
    ensures crossed { IfSome result (λ c. AreCrossed size c) }
{
    if target.count() < MANY {
        return None;
    }
    let (target, source) = (stack_of(target)?, stack_of(source)?);
    if !have_one_shape(target, source) {
        return None;
    }
    if target.first.rows < ROWS || target.first.columns == 0 {
        return None;
    }
    let band = band_of(target.first, source.first, size)?;
    Some(Crossed {
        target,
        source,
        band,
    })
}
