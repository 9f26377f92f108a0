//! `split`: cuts a file's bytes in two, or finds it truncated.
ghost use Rattle.std.specs.Prelude.{◌≡◌};
ghost use Rattle.nd_model.specs.Formats.NpyReading as npy;
ghost use Rattle.nd_npy.specs.Header.Gives.{parts_given};

use crate::header::fault::NpyFault;

/// Returns the first `n` bytes and those behind them. Fewer bytes are refused as `Truncated`.
pub fn split(n: usize, bytes: &[u8]) -> Result<(&[u8], &[u8]), NpyFault>
    ensures { parts_given result ≡ npy.split n bytes.now }
{
    if bytes.len() < n {
        return Err(NpyFault::Truncated);
    }
    Ok((&bytes[..n], &bytes[n..]))
}
