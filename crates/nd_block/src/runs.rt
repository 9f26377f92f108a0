//! `copy_elements`: copies one strided run of elements over another.
ghost use Rattle.std.specs.Prelude.{◌≡◌, ◌^◌, ◌<◌, ◌≤ℤ◌, pos, length};
ghost use Rattle.nd_model.specs.Arrays.Runs.{place_at, spot_at, AreWithin, AreApart, copied};

// The byte offset of an element of a run.
fn spot(start: u64, step: i128, k: u64) -> usize
    requires { (pos 0 ≤ℤ place_at start step k) × (spot_at start step k < 2 ^ 63) }
    ensures { result ≡ spot_at start step k }
{
    (start as i128 + k as i128 * step) as usize
}

// Copies contiguous elements, all at once.
fn copy_block(bytes: &mut [u8], dst: u64, src: u64, size: usize, n: u64)
    requires dst { AreWithin dst (pos size) size n (length bytes.old) }
    requires src { AreWithin src (pos size) size n (length bytes.old) }
    requires some { 0 < n }
    ensures { bytes.new ≡ copied dst (pos size) src (pos size) size n bytes.old }
{
    let (to, from) = (dst as usize, src as usize);
    let count = n as usize * size;
    bytes.copy_within(from..from + count, to);
}

/// Copies `n` elements of `size` bytes, the first one from byte offset `src` to `dst`.
pub(crate) fn copy_elements(
    bytes: &mut [u8],
    dst: u64,
    dst_step: i128,
    src: u64,
    src_step: i128,
    size: usize,
    n: u64,
)
    requires dst { AreWithin dst dst_step size n (length bytes.old) }
    requires src { AreWithin src src_step size n (length bytes.old) }
    requires apart { AreApart dst dst_step src src_step size n }
    ensures { bytes.new ≡ copied dst dst_step src src_step size n bytes.old }
{
    if 0 < n && dst_step == size as i128 && src_step == size as i128 {
        copy_block(bytes, dst, src, size, n);
        return;
    }
    for k in 0..n {
        let to = spot(dst, dst_step, k);
        let from = spot(src, src_step, k);
        bytes.copy_within(from..from + size, to);
    }
}
