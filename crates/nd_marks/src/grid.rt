//! `Grid`: lines of rows of bytes, such as every second pixel of every second line of a picture.
ghost use Rattle.std.specs.Prelude.{◌≡◌, ℕ, ◌+◌, ◌-◌, ◌*◌, ◌^◌, ◌<◌, ◌≤◌, ◌||◌, ◌/◌, ◌%◌, [], false, true, IsTrue, IfSome};
ghost use Rattle.nd_marks.specs.Axes.{repeated};
ghost use Rattle.nd_marks.specs.Kept.{lines_left, rows_left};
ghost use Rattle.nd_marks.specs.Marks.{in_grid, in_strip, in_word, moved};

use crate::strip::{NEAR, Span, Stretch, Strip};
use std::marker::Model;

/// A grid: `lines` equal strips, each `jump` bytes behind the one before it. They do not overlap.
///
/// Every second pixel of every second line of a picture of 10 lines of 100 pixels of 3 bytes is 5
/// lines of 50 rows of width 3 at step 6, and `jump` is 600. A strip alone is a grid of one line.
#[derive(Clone, Copy)]
pub struct Grid {
    strip: Strip,
    jump: u64,
    lines: u64,
}

impl Model for Grid {
    ghost use Rattle.nd_marks.specs.Marks.{Grid, IsGrid};

    ghost Value = { Grid };

    ghost view = { λ g. record { strip = g.strip; jump = g.jump; lines = g.lines } };

    ghost invariant = { λ g. IsGrid (record { strip = g.strip; jump = g.jump; lines = g.lines }) };

    ghost inverse = { λ g. record { strip = g.strip; jump = g.jump; lines = g.lines } };

    ghost inverse_ok = { λ g h i. record { strip = g.strip; jump = g.jump; lines = g.lines } };
}

impl Grid {
    /// Returns a grid of one line.
    pub(crate) fn of(strip: Strip) -> Grid
        ensures places { (p : ℕ) → in_grid result p ≡ in_strip strip p }
        ensures walk { lines_left result 0 ≡ rows_left strip 0 }
    {
        Grid {
            strip,
            jump: 0,
            lines: 1,
        }
    }

    /// Returns a grid without rows.
    pub(crate) fn empty() -> Grid
        ensures places { (p : ℕ) → in_grid result p ≡ false }
        ensures walk { lines_left result 0 ≡ [] }
    {
        Grid::of(Strip::empty())
    }

    /// The count of lines.
    pub(crate) fn lines(&self) -> u64
        ensures { result ≡ self.now.lines }
    {
        self.lines
    }

    /// The first line.
    pub(crate) fn strip(&self) -> &Strip
        ensures { result.now ≡ self.now.strip }
    {
        &self.strip
    }

    /// The line of this index.
    pub(crate) fn line(&self, number: u64) -> Strip
        requires { number < self.now.lines }
        ensures { result ≡ moved self.now.strip (number * self.now.jump) }
    {
        self.strip.shift_by(number * self.jump)
    }

    /// The count of rows in all lines.
    pub(crate) fn rows(&self) -> u128
        ensures { result ≡ self.now.lines * self.now.strip.count }
    {
        u128::from(self.lines) * u128::from(self.strip.count())
    }

    /// Returns true only where no byte offset is in a row.
    pub(crate) fn is_empty(&self) -> bool
        ensures { IsTrue result → (p : ℕ) → in_grid self.now p ≡ false }
    {
        self.strip.count() == 0
    }

    /// The byte offset behind the last row.
    pub(crate) fn end(&self) -> u128
        ensures value { result ≡ self.now.strip.first + (self.now.lines - 1) * self.now.jump
            + (self.now.strip.count * self.now.strip.step
            - (self.now.strip.step - self.now.strip.width)) }
        ensures past { (p : ℕ) → result ≤ p → in_grid self.now p ≡ false }
    {
        self.line(self.lines - 1).end()
    }

    /// The byte offsets from the first row to the end of the last.
    pub(crate) fn span(&self) -> Span
        ensures { (p : ℕ) → in_grid self.now p ≡ true → (result.from ≤ p) × (p < result.to) }
    {
        Span {
            from: u128::from(self.strip.first()),
            to: self.end(),
        }
    }

    /// Returns the bits of the granules that its rows may touch. A grid over 4,096 bytes or more
    /// may touch each.
    pub(crate) fn granules(&self) -> u64
        ensures { (p : ℕ) → in_grid self.now p ≡ true → in_word result (p / 64 % 64) ≡ true }
    {
        self.span().granules()
    }

    /// Returns whether a byte offset is in a row: a division for its line, and one for its row.
    pub(crate) fn holds(&self, place: u64) -> bool
        ensures { result ≡ in_grid self.now place }
    {
        if self.lines == 1 {
            return self.strip.holds(place);
        }
        if place < self.strip.first() {
            return false;
        }
        let number = (place - self.strip.first()) / self.jump;
        number < self.lines && self.line(number).holds(place)
    }

    /// Returns whether a byte offset of `from..to` is in a row. At most two lines are looked at.
    pub(crate) fn meets(&self, from: u128, to: u128) -> bool
        ensures none { result ≡ false → (p : ℕ) → from ≤ p → p < to
            → in_grid self.now p ≡ false }
        ensures some { IsTrue result
            → ((p : ℕ) × (from ≤ p) × (p < to) × IsTrue (in_grid self.now p)) }
    {
        if self.lines == 1 {
            return self.strip.meets(from, to);
        }
        let first = u128::from(self.strip.first());
        let behind = from.max(first) - first;
        let number = behind / u128::from(self.jump);
        if number >= u128::from(self.lines) {
            return false;
        }
        let number = number as u64;
        if self.line(number).meets(from, to) {
            return true;
        }
        let next = number + 1;
        next < self.lines && self.line(next).meets(from, to)
    }

    /// Returns how far all byte offsets from `place` on, or none of them, are in rows.
    pub(crate) fn stretch(&self, place: u64) -> Stretch
        ensures more { place < result.end }
        ensures alike { (p : ℕ) → place ≤ p → p < result.end
            → in_grid self.now p ≡ result.is_held }
    {
        if self.lines == 1 {
            return self.strip.stretch(place);
        }
        let first = self.strip.first();
        if place < first {
            return Stretch {
                is_held: false,
                end: u128::from(first),
            };
        }
        let behind = place - first;
        let number = behind / self.jump;
        if number >= self.lines {
            return Stretch {
                is_held: false,
                end: u128::MAX,
            };
        }
        let stretch = self.line(number).stretch(place);
        let left = self.jump - behind % self.jump;
        Stretch {
            is_held: stretch.is_held,
            end: stretch.end.min(u128::from(place) + u128::from(left)),
        }
    }

    /// Returns true only where both have equal fields.
    pub(crate) fn is_same(&self, other: &Grid) -> bool
        ensures { IsTrue result → self.now ≡ other.now }
    {
        self.strip.is_same(&other.strip) && self.jump == other.jump && self.lines == other.lines
    }

    /// Returns true only where this grid contains the other: an equal one, or one row over all of
    /// its rows.
    pub(crate) fn covers(&self, other: &Grid) -> bool
        ensures { IsTrue result → (p : ℕ) → (in_grid self.now p || in_grid other.now p)
            ≡ in_grid self.now p }
    {
        if self.is_same(other) {
            return true;
        }
        if self.lines != 1 {
            return false;
        }
        if other.lines == 1 {
            return self.strip.covers(&other.strip);
        }
        self.strip.is_over(other.span())
    }

    /// Returns one grid for the union of both, if it is one of the forms that are looked for.
    pub(crate) fn join(&self, other: &Grid) -> Option<Grid>
        ensures { IfSome result (λ g. (p : ℕ) → in_grid g p
            ≡ (in_grid self.now p || in_grid other.now p)) }
    {
        if self.covers(other) {
            return Some(*self);
        }
        if other.covers(self) {
            return Some(*other);
        }
        if self.lines != 1 || other.lines != 1 {
            return None;
        }
        let strip = self.strip.join(&other.strip)?;
        Some(Grid::of(strip))
    }

    /// Returns equal lines, if they do not overlap and end in time.
    fn of_lines(strip: &Strip, jump: u64, lines: u64) -> Option<Grid>
        ensures { IfSome result (λ g. g ≡ record {
          strip = strip.now;
          jump = jump;
          lines = lines;
        }) }
    {
        if lines == 0 || jump == 0 || strip.reach() > u128::from(jump) {
            return None;
        }
        let last = u128::from(strip.first()) + u128::from(lines - 1) * u128::from(jump);
        if last > u128::from(u64::MAX) {
            return None;
        }
        if last + u128::from(strip.count()) * u128::from(strip.step()) > NEAR {
            return None;
        }
        Some(Grid {
            strip: *strip,
            jump,
            lines,
        })
    }

    /// Returns `count` copies of a row, `step` bytes apart: a row where they touch or overlap, else a
    /// strip.
    fn repeat_row(&self, count: u64, step: u64) -> Option<Grid>
        requires one { (self.now.lines ≡ 1) × (self.now.strip.count ≡ 1) }
        requires some { 0 < count }
        ensures { IfSome result (λ g. (p : ℕ) → in_grid g p
            ≡ repeated count step (in_grid self.now) p) }
    {
        if step > self.strip.width() {
            let strip = self.strip.with_rows(step, count)?;
            return Some(Grid::of(strip));
        }
        let behind = (count - 1).checked_mul(step)?;
        let width = behind.checked_add(self.strip.width())?;
        if width == 0 {
            return None;
        }
        Some(Grid::of(Strip::range(self.strip.first(), width)))
    }

    /// Returns `count` copies of a strip, `step` bytes apart: a strip where they go on as its rows do,
    /// else lines.
    fn repeat_strip(&self, count: u64, step: u64) -> Option<Grid>
        requires one { self.now.lines ≡ 1 }
        ensures { IfSome result (λ g. (p : ℕ) → in_grid g p
            ≡ repeated count step (in_grid self.now) p) }
    {
        let rows = self.strip.count();
        if rows.checked_mul(self.strip.step())? != step {
            return Grid::of_lines(&self.strip, step, count);
        }
        let all = count.checked_mul(rows)?;
        let strip = self.strip.with_rows(self.strip.step(), all)?;
        Some(Grid::of(strip))
    }

    /// Returns `count` copies of lines, `step` bytes apart, where they go on as these lines do.
    fn repeat_lines(&self, count: u64, step: u64) -> Option<Grid>
        ensures { IfSome result (λ g. (p : ℕ) → in_grid g p
            ≡ repeated count step (in_grid self.now) p) }
    {
        if self.lines.checked_mul(self.jump)? != step {
            return None;
        }
        let lines = count.checked_mul(self.lines)?;
        Grid::of_lines(&self.strip, self.jump, lines)
    }

    /// Returns the union of `count` copies, each `step` bytes behind the one before it, if it is a
    /// grid.
    ///
    /// A byte, 3 times at step 1, is a row of width 3. Ten such rows at step 6 are a strip, and five
    /// such strips at step 600 are five lines.
    pub(crate) fn repeat(&self, count: u64, step: u64) -> Option<Grid>
        ensures { IfSome result (λ g. (p : ℕ) → in_grid g p
            ≡ repeated count step (in_grid self.now) p) }
    {
        if count == 0 {
            return Some(Grid::empty());
        }
        if count == 1 {
            return Some(*self);
        }
        if self.lines != 1 {
            return self.repeat_lines(count, step);
        }
        if self.strip.count() == 1 {
            return self.repeat_row(count, step);
        }
        self.repeat_strip(count, step)
    }
}
