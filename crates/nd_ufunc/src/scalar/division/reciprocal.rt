//! `reciprocal_of`: the reciprocal of a divisor, which is found once for many numbers, and tested
//! where it is used.
ghost use Rattle.std.specs.Prelude.{◌≡◌, ℕ, ◌*◌, ◌^◌, ◌<◌, ◌≤◌, pos, IsTrue};
ghost use Rattle.nd_ufunc.specs.Scalar.Division.{IsReciprocal};

// Returns 2 to the power of `shift`.
#[inline(always)]
fn power_of(shift: u32) -> u128
    requires { shift < 64 }
    ensures value { result ≡ 2 ^ shift }
    ensures range { result ≤ 2 ^ 63 }
{
    1 << shift
}

/// Returns the reciprocal of a number above one, in units of 2 to the power of -64. It is scaled by
/// the least power of two that is not below the number, less one, and one unit more. Of another
/// number it is 0.
///
/// `reciprocal_of(3)`, of 4 / 3 - 1, is 2^64 / 3, rounded up, and `reciprocal_of(4)` is 1.
pub(crate) fn reciprocal_of(divisor: i128) -> u64
    ensures { (by : ℕ) → divisor ≡ pos by → by < 2 ^ 64 → (k : ℕ) → 2 ^ k < by
        → by ≤ 2 * 2 ^ k → IsReciprocal (2 ^ 64) (2 ^ k) by result }
{
    match u64::try_from(divisor) {
        Ok(by) if by > 1 => {
            let power = 2 * power_of((by - 1).ilog2());
            let by = u128::from(by);
            ((power - by) * (1 << 64) / by) as u64 + 1
        }
        _ => 0,
    }
}

/// Returns whether `parts` of a whole, and the whole, are the reciprocal of a divisor. A loop over
/// many numbers finds this out once.
#[inline(always)]
pub(super) fn is_reciprocal(whole: u128, divisor: u64, parts: u64, shift: u32) -> bool
    requires whole { whole ≤ 2 ^ 64 }
    requires divisor { 0 < divisor }
    requires shift { shift < 64 }
    ensures { IsTrue result → IsReciprocal whole (2 ^ shift) divisor parts }
{
    let (by, power) = (u128::from(divisor), 2 * power_of(shift));
    if by > power {
        return false;
    }
    let least = (power - by) * whole;
    let product = u128::from(parts) * by;
    least <= product && product - least <= power
}
