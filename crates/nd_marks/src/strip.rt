//! `Strip`: rows of bytes at one step, such as every second element of an array, or a
//! column of a table.
ghost use Rattle.std.specs.Prelude.{◌≡◌, ℕ, ◌+◌, ◌-◌, ◌*◌, ◌^◌, ◌<◌, ◌≤◌, ◌||◌, ◌/◌, ◌%◌, ◌⊎◌, [], true, false, IsTrue, IfSome, length, slice_index};
ghost use Rattle.std.specs.List.{flat_map};
ghost use Rattle.nd_model.specs.Cells.Session.{is_in};
ghost use Rattle.nd_model.specs.Arrays.Tuple.{count_up};
ghost use Rattle.nd_marks.specs.Kept.{rows_left};
ghost use Rattle.nd_marks.specs.Marks.{in_row, in_rows, in_strip, in_word, moved};

use nd_view::Run;
use std::marker::Model;

/// All rows of a strip, with the step behind the last, end here at the latest.
pub(crate) const NEAR: u128 = 1 << 65;

// A span of this many bytes or more has all granules.
const MOST_GRANULAR: u128 = 4096;

/// A strip: `count` rows of `width` bytes, each `step` bytes behind the one before it.
///
/// A range is one row. A field of 4 bytes in 100 records of 24 bytes is 100 rows of width 4 at
/// step 24.
#[derive(Clone, Copy)]
pub struct Strip {
    first: u64,
    width: u64,
    step: u64,
    count: u64,
}

impl Model for Strip {
    ghost use Rattle.std.specs.Prelude.{◌+◌, ◌*◌, ◌^◌, ◌<◌, ◌≤◌};
    ghost use Rattle.nd_marks.specs.Marks.{Strip};

    ghost Value = { Strip };

    ghost view = { λ r. record {
      first = r.first;
      width = r.width;
      step = r.step;
      count = r.count;
    } };

    ghost invariant = { λ r. (0 < r.step) × ((r.width ≤ r.step) × (r.first + r.count * r.step
        ≤ 2 ^ 65)) };

    ghost inverse = { λ r. record {
      first = r.first;
      width = r.width;
      step = r.step;
      count = r.count;
    } };

    ghost inverse_ok = { λ r h i. record {
      first = r.first;
      width = r.width;
      step = r.step;
      count = r.count;
    } };
}

/// A stretch of byte offsets that are all in a set, or all outside, up to `end`.
#[derive(Clone, Copy)]
pub(crate) struct Stretch {
    pub(crate) is_held: bool,
    pub(crate) end: u128,
}

impl Stretch {
    /// Returns a stretch of the union of two sets, of each of which one is given.
    pub(crate) fn with(self, other: Stretch) -> Stretch
        ensures held { result.is_held ≡ (self.is_held || other.is_held) }
        ensures end { (p : ℕ) → p < result.end → ((IsTrue self.is_held × (p < self.end))
            ⊎ ((IsTrue other.is_held × (p < other.end)) ⊎ ((self.is_held ≡ false)
            × ((other.is_held ≡ false) × ((p < self.end) × (p < other.end)))))) }
        ensures more { (p : ℕ) → p < self.end → p < other.end → p < result.end }
    {
        if self.is_held == other.is_held {
            Stretch {
                is_held: self.is_held,
                end: self.end.min(other.end),
            }
        } else if self.is_held {
            self
        } else {
            other
        }
    }
}

/// A range of byte offsets that contains a set: from the first of its pieces to the end of the last.
#[derive(Clone, Copy)]
pub(crate) struct Span {
    pub(crate) from: u128,
    pub(crate) to: u128,
}

impl Span {
    /// Returns the span of the union of two sets.
    pub(crate) fn with(self, other: Span) -> Span
        ensures first { (p : ℕ) → self.from ≤ p → p < self.to → (result.from ≤ p)
            × (p < result.to) }
        ensures second { (p : ℕ) → other.from ≤ p → p < other.to → (result.from ≤ p)
            × (p < result.to) }
    {
        Span {
            from: self.from.min(other.from),
            to: self.to.max(other.to),
        }
    }

    /// Returns whether one ends before the other begins.
    pub(crate) fn is_apart(self, other: Span) -> bool
        ensures { IsTrue result → (p : ℕ) → self.from ≤ p → p < self.to → other.from ≤ p
            → other.to ≤ p }
    {
        self.to <= other.from || other.to <= self.from
    }

    /// Returns the bits of its granules of 64 bytes: bit `p / 64 % 64` for each byte offset `p`.
    pub(crate) fn granules(self) -> u64
        ensures { (p : ℕ) → self.from ≤ p → p < self.to → in_word result (p / 64 % 64) ≡ true }
    {
        if self.to <= self.from {
            return 0;
        }
        if self.to - self.from >= MOST_GRANULAR {
            return u64::MAX;
        }
        let mut word = 0_u64;
        for granule in self.from / 64..(self.to - 1) / 64 + 1 {
            let bit = (granule % 64) as u64;
            word = word | 1 << bit;
        }
        word
    }
}

impl Strip {
    /// Returns a strip without rows.
    pub(crate) fn empty() -> Strip
        ensures places { (p : ℕ) → in_strip result p ≡ false }
        ensures walk { rows_left result 0 ≡ [] }
    {
        Strip {
            first: 0,
            width: 1,
            step: 1,
            count: 0,
        }
    }

    /// Returns a strip of one row.
    pub(crate) fn range(first: u64, width: u64) -> Strip
        requires { 0 < width }
        ensures places { (p : ℕ) → in_strip result p ≡ in_row first width p }
        ensures walk { rows_left result 0 ≡ count_up first width }
    {
        Strip {
            first,
            width,
            step: width,
            count: 1,
        }
    }

    /// The byte offset of the first row.
    pub(crate) fn first(&self) -> u64
        ensures { result ≡ self.now.first }
    {
        self.first
    }

    /// The count of rows.
    pub(crate) fn count(&self) -> u64
        ensures { result ≡ self.now.count }
    {
        self.count
    }

    /// The bytes in a row.
    pub(crate) fn width(&self) -> u64
        ensures { result ≡ self.now.width }
    {
        self.width
    }

    /// The bytes from one row to the next.
    pub(crate) fn step(&self) -> u64
        ensures { result ≡ self.now.step }
    {
        self.step
    }

    /// The byte offset at which the row of this index begins.
    pub(crate) fn start(&self, number: u64) -> u128
        requires { number < self.now.count }
        ensures value { result ≡ self.now.first + number * self.now.step }
        ensures end { result + self.now.width ≤ 2 ^ 65 }
    {
        u128::from(self.first) + u128::from(number) * u128::from(self.step)
    }

    /// The bytes from the first row to the end of the last.
    pub(crate) fn reach(&self) -> u128
        ensures value { result
            ≡ self.now.count * self.now.step - (self.now.step - self.now.width) }
        ensures wide { self.now.width ≤ self.now.step }
    {
        let rows = u128::from(self.count) * u128::from(self.step);
        rows.saturating_sub(u128::from(self.step - self.width))
    }

    /// The byte offset behind the last row.
    pub(crate) fn end(&self) -> u128
        ensures value { result ≡ self.now.first
            + (self.now.count * self.now.step - (self.now.step - self.now.width)) }
        ensures past { (p : ℕ) → result ≤ p → in_strip self.now p ≡ false }
        ensures rows { (n : ℕ) → n < self.now.count
            → self.now.first + n * self.now.step + self.now.width ≤ result }
    {
        u128::from(self.first) + self.reach()
    }

    /// The strip that begins `by` bytes behind this one.
    pub(crate) fn shift_by(&self, by: u64) -> Strip
        requires first { self.now.first + by < 2 ^ 64 }
        requires end { self.now.first + by + self.now.count * self.now.step ≤ 2 ^ 65 }
        ensures { result ≡ moved self.now by }
    {
        Strip {
            first: self.first + by,
            width: self.width,
            step: self.step,
            count: self.count,
        }
    }

    /// Returns the strip with other rows of the same width, if they do not overlap and end in time.
    pub(crate) fn with_rows(&self, step: u64, count: u64) -> Option<Strip>
        ensures { IfSome result (λ r. r ≡ record self.now { step = step; count = count }) }
    {
        let end = u128::from(self.first) + u128::from(count) * u128::from(step);
        if step == 0 || self.width > step || end > NEAR {
            return None;
        }
        Some(Strip {
            first: self.first,
            width: self.width,
            step,
            count,
        })
    }

    /// Returns true only where one row contains all byte offsets of a span.
    pub(crate) fn is_over(&self, span: Span) -> bool
        ensures { IsTrue result → (p : ℕ) → span.from ≤ p → p < span.to
            → in_strip self.now p ≡ true }
    {
        let first = u128::from(self.first);
        self.count == 1 && first <= span.from && span.to <= first + u128::from(self.width)
    }

    /// Returns true only where all rows lie in a block of this length.
    pub(crate) fn lies_in(&self, len: usize) -> bool
        ensures { IsTrue result → (k : ℕ) → k < self.now.count
            → self.now.first + k * self.now.step + self.now.width ≤ len }
    {
        u128::from(self.first) + u128::from(self.count) * u128::from(self.step)
            <= len as u128 + u128::from(self.step - self.width)
    }

    /// The byte offset of the row of this index, in a strip that lies in a block.
    pub(crate) fn offset(&self, number: u64) -> usize
        requires { self.now.first + number * self.now.step < 2 ^ 64 }
        ensures { result ≡ self.now.first + number * self.now.step }
    {
        (self.first + number * self.step) as usize
    }

    /// Returns whether a byte offset is in a row: one division.
    pub(crate) fn holds(&self, place: u64) -> bool
        ensures { result ≡ in_strip self.now place }
    {
        if place < self.first {
            return false;
        }
        let behind = place - self.first;
        behind / self.step < self.count && behind % self.step < self.width
    }

    /// Returns whether a byte offset of `from..to` is in a row: one division.
    pub(crate) fn meets(&self, from: u128, to: u128) -> bool
        ensures none { result ≡ false → (p : ℕ) → from ≤ p → p < to
            → in_strip self.now p ≡ false }
        ensures some { IsTrue result
            → ((p : ℕ) × (from ≤ p) × (p < to) × IsTrue (in_strip self.now p)) }
    {
        if self.count == 0 || self.width == 0 || to <= from {
            return false;
        }
        let first = u128::from(self.first);
        if from <= first {
            return first < to;
        }
        let behind = from - first;
        let row = behind / u128::from(self.step);
        if row >= u128::from(self.count) {
            return false;
        }
        if behind % u128::from(self.step) < u128::from(self.width) {
            return true;
        }
        let next = row as u64 + 1;
        next < self.count && self.start(next) < to
    }

    /// Returns how far all byte offsets from `place` on, or none of them, are in rows.
    pub(crate) fn stretch(&self, place: u64) -> Stretch
        ensures more { place < result.end }
        ensures alike { (p : ℕ) → place ≤ p → p < result.end
            → in_strip self.now p ≡ result.is_held }
    {
        if place < self.first {
            return Stretch {
                is_held: false,
                end: u128::from(self.first),
            };
        }
        let behind = place - self.first;
        if behind / self.step >= self.count {
            return Stretch {
                is_held: false,
                end: u128::MAX,
            };
        }
        let inside = behind % self.step;
        let is_held = inside < self.width;
        let length = if is_held { self.width } else { self.step };
        Stretch {
            is_held,
            end: u128::from(place) + u128::from(length - inside),
        }
    }

    /// Returns true only where both have equal fields.
    pub(crate) fn is_same(&self, other: &Strip) -> bool
        ensures { IsTrue result → self.now ≡ other.now }
    {
        self.first == other.first
            && self.width == other.width
            && self.step == other.step
            && self.count == other.count
    }

    /// Returns true only where this strip contains the other: an equal one, or one row over all of
    /// its rows.
    pub(crate) fn covers(&self, other: &Strip) -> bool
        ensures { IsTrue result → (p : ℕ) → (in_strip self.now p || in_strip other.now p)
            ≡ in_strip self.now p }
    {
        if other.count == 0 || self.is_same(other) {
            return true;
        }
        let other_end = u128::from(other.first) + u128::from(other.count) * u128::from(other.step)
            - u128::from(other.step - other.width);
        if self.count != 1 || other.first < self.first {
            return false;
        }
        other_end <= u128::from(self.first) + u128::from(self.width)
    }

    /// Returns one row for two that overlap or touch.
    fn join_ranges(&self, other: &Strip) -> Option<Strip>
        ensures { IfSome result (λ r. (p : ℕ) → in_strip r p
            ≡ (in_strip self.now p || in_strip other.now p)) }
    {
        if self.count != 1 || other.count != 1 {
            return None;
        }
        let end = u128::from(self.first) + u128::from(self.width);
        let other_end = u128::from(other.first) + u128::from(other.width);
        if u128::from(other.first) > end || u128::from(self.first) > other_end {
            return None;
        }
        let from = self.first.min(other.first);
        let width = end.max(other_end) - u128::from(from);
        if width == 0 || width > u128::from(u64::MAX) {
            return None;
        }
        Some(Strip::range(from, width as u64))
    }

    /// Returns one row for a strip without gaps, else the strip.
    fn collapse(&self) -> Strip
        ensures { (p : ℕ) → in_strip result p ≡ in_strip self.now p }
    {
        if self.width != self.step || self.count == 0 {
            return *self;
        }
        match self.count.checked_mul(self.step) {
            Some(width) => Strip::range(self.first, width),
            None => *self,
        }
    }

    /// Returns a strip of wider rows where each row ends at the start of one of the other strip.
    fn join_adjacent(&self, other: &Strip) -> Option<Strip>
        ensures { IfSome result (λ r. (p : ℕ) → in_strip r p
            ≡ (in_strip self.now p || in_strip other.now p)) }
    {
        if self.step != other.step || self.count != other.count {
            return None;
        }
        if self.width > other.first || other.first - self.width != self.first {
            return None;
        }
        if other.width > self.step - self.width {
            return None;
        }
        let wider = Strip {
            first: self.first,
            width: self.width + other.width,
            step: self.step,
            count: self.count,
        };
        Some(wider.collapse())
    }

    /// Returns the strip with the other's row behind it, if the step fits.
    fn join_next(&self, other: &Strip) -> Option<Strip>
        ensures { IfSome result (λ r. (p : ℕ) → in_strip r p
            ≡ (in_strip self.now p || in_strip other.now p)) }
    {
        if other.count != 1 || other.width != self.width || other.first <= self.first {
            return None;
        }
        if self.count == 1 {
            let step = other.first - self.first;
            if self.width > step {
                return None;
            }
            return Some(Strip {
                first: self.first,
                width: self.width,
                step,
                count: 2,
            });
        }
        if u128::from(self.count) * u128::from(self.step) != u128::from(other.first - self.first) {
            return None;
        }
        let count = self.count.checked_add(1)?;
        Some(Strip {
            first: self.first,
            width: self.width,
            step: self.step,
            count,
        })
    }

    /// Returns the strip with the other's row in front of it, if the step fits.
    fn join_previous(&self, other: &Strip) -> Option<Strip>
        ensures { IfSome result (λ r. (p : ℕ) → in_strip r p
            ≡ (in_strip self.now p || in_strip other.now p)) }
    {
        if other.count != 1 || other.width != self.width || self.first <= other.first {
            return None;
        }
        if self.first - other.first != self.step {
            return None;
        }
        let count = self.count.checked_add(1)?;
        Some(Strip {
            first: other.first,
            width: self.width,
            step: self.step,
            count,
        })
    }

    /// Returns one strip for the union of both, if it is one of the forms that are looked for.
    pub(crate) fn join(&self, other: &Strip) -> Option<Strip>
        ensures { IfSome result (λ r. (p : ℕ) → in_strip r p
            ≡ (in_strip self.now p || in_strip other.now p)) }
    {
        if self.covers(other) {
            return Some(*self);
        }
        if other.covers(self) {
            return Some(*other);
        }
        if let Some(joined) = self.join_ranges(other) {
            return Some(joined);
        }
        if let Some(joined) = self.join_adjacent(other) {
            return Some(joined);
        }
        if let Some(joined) = other.join_adjacent(self) {
            return Some(joined);
        }
        if let Some(joined) = self.join_next(other) {
            return Some(joined);
        }
        if let Some(joined) = other.join_next(self) {
            return Some(joined);
        }
        self.join_previous(other)
    }
}

/// Returns true only where the elements of a run lie `step` bytes apart, in decreasing order.
fn are_backwards(run: &Run, step: u64) -> bool
    ensures { IsTrue result → (k : ℕ) → k < length run.now
        → slice_index run.now k + k * step ≡ slice_index run.now 0 }
{
    run.step() == -i128::from(step)
}

/// Returns the bytes of the elements of a run as a strip, where elements of `size` bytes do not
/// overlap.
pub(crate) fn strip_of(run: &Run, size: u64) -> Option<Strip>
    ensures { IfSome result (λ r. (p : ℕ) → in_strip r p
        ≡ is_in p (flat_map (λ q. count_up q size) run.now)) }
{
    let step = run.step().unsigned_abs();
    if step == 0 || step > u128::from(u64::MAX) || u128::from(size) > step {
        return None;
    }
    let step = step as u64;
    let count = run.count();
    let first = run.start();
    let last = run.place(count - 1);
    if run.is_contiguous(step) {
        return Some(Strip {
            first,
            width: size,
            step,
            count,
        }
        .collapse());
    }
    if are_backwards(run, step) {
        return Some(Strip {
            first: last,
            width: size,
            step,
            count,
        }
        .collapse());
    }
    None
}
