//! Bytes from hexadecimal digits.
ghost use Rattle.std.specs.Prelude.{◌≡◌, ◌<◌, length, true, false, MatchOption, MatchResult};
ghost use Rattle.std.specs.Prelude.{ℕ, ◌+◌, ◌*◌, ◌≤◌, Ok, slice_index};
ghost use Rattle.hex.specs.Hex.{decode_sized, hex_digit_value, pair_value};

use std::simd::u8x16;

// The value of each byte as a digit of either case, and 16 where it is none. Digits and letters
// come in no order, so a branch on which it is would be guessed wrong half of the time.
const VALUES: [u8; 256] = [
    16, 16, 16, 16, 16, 16, 16, 16, 16, 16, 16, 16, 16, 16, 16, 16, 16, 16, 16, 16, 16, 16, 16, 16,
    16, 16, 16, 16, 16, 16, 16, 16, 16, 16, 16, 16, 16, 16, 16, 16, 16, 16, 16, 16, 16, 16, 16, 16,
    0, 1, 2, 3, 4, 5, 6, 7, 8, 9, 16, 16, 16, 16, 16, 16, 16, 10, 11, 12, 13, 14, 15, 16, 16, 16,
    16, 16, 16, 16, 16, 16, 16, 16, 16, 16, 16, 16, 16, 16, 16, 16, 16, 16, 16, 16, 16, 16, 16, 10,
    11, 12, 13, 14, 15, 16, 16, 16, 16, 16, 16, 16, 16, 16, 16, 16, 16, 16, 16, 16, 16, 16, 16, 16,
    16, 16, 16, 16, 16, 16, 16, 16, 16, 16, 16, 16, 16, 16, 16, 16, 16, 16, 16, 16, 16, 16, 16, 16,
    16, 16, 16, 16, 16, 16, 16, 16, 16, 16, 16, 16, 16, 16, 16, 16, 16, 16, 16, 16, 16, 16, 16, 16,
    16, 16, 16, 16, 16, 16, 16, 16, 16, 16, 16, 16, 16, 16, 16, 16, 16, 16, 16, 16, 16, 16, 16, 16,
    16, 16, 16, 16, 16, 16, 16, 16, 16, 16, 16, 16, 16, 16, 16, 16, 16, 16, 16, 16, 16, 16, 16, 16,
    16, 16, 16, 16, 16, 16, 16, 16, 16, 16, 16, 16, 16, 16, 16, 16, 16, 16, 16, 16, 16, 16, 16, 16,
    16, 16, 16, 16, 16, 16, 16, 16, 16, 16, 16, 16, 16, 16,
];

// The places of the first digits of sixteen pairs, and of the second.
const FIRST: [usize; 16] = [0, 2, 4, 6, 8, 10, 12, 14, 16, 18, 20, 22, 24, 26, 28, 30];

const SECOND: [usize; 16] = [1, 3, 5, 7, 9, 11, 13, 15, 17, 19, 21, 23, 25, 27, 29, 31];

#[inline(always)]
fn digit_value(c: u8) -> u8
    ensures { MatchOption (hex_digit_value c) (result ≡ 16) (λ v. (result ≡ v) × (v < 16)) }
{
    VALUES[usize::from(c)]
}

// The value of each byte as a digit of either case, and 16 where it is none.
#[inline(always)]
fn digit_values(bytes: u8x16) -> u8x16
    ensures { (j : ℕ) → j < 16 → MatchOption (hex_digit_value (slice_index bytes j))
        (slice_index result j ≡ 16)
        (λ v. (slice_index result j ≡ v) × (v < 16)) }
{
    let decimal = bytes - u8x16::splat(b'0');
    let letter = (bytes | u8x16::splat(0x20)) - u8x16::splat(b'a');
    let of_letter = letter
        .simd_lt(u8x16::splat(6))
        .select(letter + u8x16::splat(10), u8x16::splat(16));
    decimal.simd_lt(u8x16::splat(10)).select(decimal, of_letter)
}

// The first digits of sixteen pairs, and the second ones.
#[inline(always)]
fn digit_pairs(digits: &[u8]) -> (u8x16, u8x16)
    requires { length digits.now ≡ 32 }
    ensures first { (j : ℕ) → j < 16
        → slice_index result.0 j ≡ slice_index digits.now (2 * j) }
    ensures second { (j : ℕ) → j < 16
        → slice_index result.1 j ≡ slice_index digits.now (2 * j + 1) }
{
    let front = u8x16::from_slice(&digits[..16]);
    let back = u8x16::from_slice(&digits[16..]);
    (front.shuffle(back, FIRST), front.shuffle(back, SECOND))
}

#[inline(always)]
fn are_digits(values: u8x16) -> bool
    ensures { result ≡ true → (j : ℕ) → j < 16 → slice_index values j ≤ 15 }
{
    values.simd_gt(u8x16::splat(15)).to_bitmask() == 0
}

#[inline(always)]
fn joined(high: u8x16, low: u8x16) -> u8x16
    ensures lanes { length result ≡ 16 }
    ensures values { (j : ℕ) → j < 16 → slice_index high j ≤ 15 → slice_index low j ≤ 15
        → slice_index result j ≡ slice_index high j * 16 + slice_index low j }
{
    high * u8x16::splat(16) + low
}

// Writes the bytes of 32 digits. `false` where one of them is none.
#[inline(always)]
fn decode_block(digits: &[u8], out: &mut [u8]) -> bool
    requires digits { length digits.now ≡ 32 }
    requires room { length out.old ≡ 16 }
    ensures { result ≡ true → (k i : ℕ) → k < 16
        → pair_value (slice_index digits.now (2 * k)) (slice_index digits.now (2 * k + 1)) i
        ≡ Ok (slice_index out.new k) }
{
    let (first, second) = digit_pairs(digits);
    let high = digit_values(first);
    let low = digit_values(second);
    if !are_digits(high) || !are_digits(low) {
        return false;
    }
    joined(high, low).copy_to_slice(out);
    true
}

// Writes the bytes of digits, sixteen bytes at a time, up to the first sixteen that have a digit
// that is none, and says how many.
fn decode_blocks(digits: &[u8], out: &mut [u8]) -> usize
    requires { length digits.now ≡ 2 * length out.old }
    ensures bound { result ≤ length out.old }
    ensures bytes { (k i : ℕ) → k < result
        → pair_value (slice_index digits.now (2 * k)) (slice_index digits.now (2 * k + 1)) i
        ≡ Ok (slice_index out.new k) }
{
    let mut done = 0;
    while out.len() - done >= 16 {
        let block = &digits[2 * done..2 * done + 32];
        if !decode_block(block, &mut out[done..done + 16]) {
            return done;
        }
        done += 16;
    }
    done
}

/// Writes the bytes that digits stand for. `false` where they aren't digits, or don't fill `out`;
/// what `out` then has isn't said.
pub(crate) fn decode(digits: &[u8], out: &mut [u8]) -> bool
    ensures { MatchResult (decode_sized digits.now (length out.old))
        (λ bytes. (result ≡ true) × (out.new ≡ bytes))
        (λ _. result ≡ false) }
{
    if digits.len() % 2 != 0 || digits.len() / 2 != out.len() {
        return false;
    }
    let done = decode_blocks(digits, out);
    'bytes: for i in done..out.len() {
        let high = digit_value(digits[2 * i]);
        if high > 15 {
            return false;
        }
        let low = digit_value(digits[2 * i + 1]);
        if low > 15 {
            return false;
        }
        out[i] = high * 16 + low;
    }
    true
}
