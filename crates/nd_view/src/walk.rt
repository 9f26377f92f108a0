//! `advance` and `place_by`: index tuples in C order, and their byte offsets.
ghost use Rattle.std.specs.Prelude.{◌≡◌, ◌+◌, ◌-◌, ◌^◌, ◌<◌, ◌≤◌, pos, ◌+ℤ◌, ◌*ℤ◌, ◌≤ℤ◌, ◌<ℤ◌, ◌++◌, length, take, drop, replicate, slice_index, false, IsTrue, ◌↔◌};
ghost use Rattle.std.specs.List.{AllZip};
ghost use Rattle.nd_model.specs.Arrays.Tuple.{elements_of, number};
ghost use Rattle.nd_model.specs.Arrays.Strides.{place_at};
ghost use Rattle.nd_view.specs.Indexes.{IsIndex};
ghost use Rattle.nd_view.specs.Paths.{IsPath};

// The byte offset `by` strides behind `place`.
#[inline]
pub(crate) fn shift_place(place: u64, by: u64, stride: i128) -> u64
    requires low { pos 0 ≤ℤ (pos place +ℤ (pos by *ℤ stride)) }
    requires high { (pos place +ℤ (pos by *ℤ stride)) <ℤ pos (2 ^ 64) }
    ensures { pos result ≡ pos place +ℤ (pos by *ℤ stride) }
{
    (i128::from(place) + i128::from(by) * stride) as u64
}

// The byte offset of the element of an index tuple, which may lack the last axes: their indices are
// 0.
pub(crate) fn place_by(offset: u64, strides: &[i128], index: &[u64]) -> u64
    requires { IsPath offset strides.now index.now }
    ensures { result ≡ place_at offset strides.now index.now }
{
    let mut place = offset;
    for (axis, by) in index.iter().enumerate() {
        place = shift_place(place, *by, strides[axis]);
    }
    place
}

// Moves the tuple to the next one, and returns whether there is one. The last tuple stays.
pub(crate) fn advance(shape: &[u64], index: &mut [u64]) -> bool
    requires { IsIndex shape.now index.old }
    ensures inside { IsIndex shape.now index.new }
    ensures next { IsTrue result → number shape.now index.new ≡ number shape.now index.old + 1 }
    ensures more { IsTrue result ↔ (number shape.now index.old + 1 < elements_of shape.now) }
    ensures stays { result ≡ false → index.new ≡ index.old }
{
    let axes = count_open_axes(shape, index);
    if axes == 0 {
        return false;
    }
    index[axes - 1] += 1;
    clear_from(index, axes);
    true
}

// The number of axes up to the last one whose index is not at its end.
fn count_open_axes(shape: &[u64], index: &[u64]) -> usize
    requires { IsIndex shape.now index.now }
    ensures inside { result ≤ length index.now }
    ensures ends { AllZip (λ i n. i + 1 ≡ n) (drop result index.now) (drop result shape.now) }
    ensures further { 0 < result → slice_index index.now (result - 1) + 1 < slice_index shape.now
        (result - 1) }
{
    let mut axes = shape.len();
    while axes > 0 && index[axes - 1] + 1 == shape[axes - 1] {
        axes -= 1;
    }
    axes
}

// Sets the indices of the axes from `from` on to 0.
fn clear_from(index: &mut [u64], from: usize)
    requires { from ≤ length index.old }
    ensures { index.new ≡ take from index.old ++ replicate (length index.old - from) 0 }
{
    for axis in from..index.len() {
        index[axis] = 0;
    }
}
