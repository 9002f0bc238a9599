//! Numbers and bytes of a line.
ghost use Rattle.std.specs.Prelude.{◌≡◌, length, true, false, MatchOption};
ghost use Rattle.slh_log.specs.Reading.{bytes_value, size_value};

use base64::engine::general_purpose::STANDARD;
use itoa::Buffer;
use line_serve::decimal_value;

/// How many digits a number below 2^64 has at most.
const MAX_DIGITS: usize = 20;

/// The number below 2^64 that a line is, in decimal without leading zeros, as a checkpoint has its
/// size (C2SP, tlog-checkpoint).
pub fn decimal_size(line: &[u8]) -> Option<u64>
    ensures { result ≡ size_value line.now }
{
    let size = decimal_value(line, MAX_DIGITS, u64::MAX)?;
    let mut buffer = Buffer::new();
    if buffer.format(size).as_bytes() != line {
        return None;
    }
    Some(size)
}

/// Fills `out` with the bytes that a line is the base64 of. `false`: it isn't that of so many; what
/// `out` then has isn't said.
pub(crate) fn decode_into(line: &[u8], out: &mut [u8]) -> bool
    ensures { MatchOption (bytes_value (length out.old) line.now) (result ≡ false)
        (λ bytes. (result ≡ true) × (out.new ≡ bytes)) }
{
    if line.len() != out.len().div_ceil(3) * 4 {
        return false;
    }
    match STANDARD.decode_slice(line, out) {
        Ok(len) => len == out.len(),
        Err(_) => false,
    }
}
