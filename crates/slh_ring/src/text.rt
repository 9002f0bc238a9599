//! Paths as text: decimal numbers between slashes, as `2/2026`, or `.` for the path of none.
ghost use Rattle.std.specs.Prelude.{◌≡◌, ◌⊎◌, ◌≤◌, ◌++◌, length, take, codes, decimal};
ghost use Rattle.std.specs.Prelude.{None, Some, MatchOption, OnOk, OnErr};
ghost use Rattle.std.specs.List.{flat_map};
ghost use Rattle.line_serve.specs.Decimals.{number_value};
ghost use Rattle.slh_ring.specs.PathTexts.{all_numbers, is_dot, path_parts, path_text, path_value};

use crate::path::{MAX_NUMBERS, Path};
use line_serve::{ByteString, decimal_value, push_number};
use std::alloc::AllocError;

// The number of 1 to 10 decimal digits, below 2^32, that a part of a text stands for.
fn number_of(part: &[u8]) -> Option<u32>
    ensures { result ≡ number_value part.now }
{
    let number = decimal_value(part, 10, u64::from(u32::MAX))?;
    Some(number as u32)
}

// Puts the numbers of a text's parts at the front of `out`, and says how many there are. `None`:
// there are more than 8, or a part is no number.
fn read_numbers(text: &[u8], out: &mut [u32; MAX_NUMBERS]) -> Option<usize>
    ensures { let parts = path_parts text.now in MatchOption result
        ((all_numbers parts ≡ None) ⊎ (9 ≤ length parts))
        (λ count. (count ≤ 8) × (length parts ≡ count)
        × (all_numbers parts ≡ Some (take count out.new))) }
{
    let mut count = 0;
    for part in text.split(|b| *b == b'/') {
        if count >= MAX_NUMBERS {
            return None;
        }
        out[count] = number_of(part)?;
        count += 1;
    }
    Some(count)
}

fn is_only_dot(text: &[u8]) -> bool
    ensures { result ≡ is_dot text.now }
{
    text.len() == 1 && text[0] == b'.'
}

// Puts each number at the end of a text, behind a slash. After an error a part of them is there.
fn push_later(text: &mut ByteString, numbers: &[u32]) -> Result<(), AllocError>
    ensures ok { OnOk result (text.new
        ≡ text.old ++ flat_map (λ number. codes "/" ++ decimal number) numbers.now) }
    ensures front { take (length text.old) text.new ≡ text.old }
{
    for number in numbers {
        text.push_slice(b"/")?;
        push_number(text, u64::from(*number))?;
    }
    Ok(())
}

// Puts the text of a path of these numbers at the end. After an error a part of it is there.
fn push_numbers(text: &mut ByteString, numbers: &[u32]) -> Result<(), AllocError>
    ensures ok { OnOk result (text.new ≡ text.old ++ path_text numbers.now) }
    ensures front { take (length text.old) text.new ≡ text.old }
{
    match numbers {
        [] => text.push_slice(b"."),
        [first, later @ ..] => {
            push_number(text, u64::from(*first))?;
            push_later(text, later)
        }
    }
}

impl Path {
    /// The path of a text: up to 8 numbers of 1 to 10 digits each, below 2^32, with a slash between
    /// two, or `.` alone. `None`: it is no such text.
    pub fn from_text(text: &[u8]) -> Option<Self>
        ensures { result ≡ path_value text.now }
    {
        if is_only_dot(text) {
            return Path::from_slice(&[]);
        }
        let mut numbers = [0u32; MAX_NUMBERS];
        let count = read_numbers(text, &mut numbers)?;
        Path::from_slice(&numbers[..count])
    }

    /// Puts the path's text at the end, its numbers without leading zeros.
    pub fn push_to(&self, text: &mut ByteString) -> Result<(), AllocError>
        ensures ok { OnOk result (text.new ≡ text.old ++ path_text self.now) }
        ensures err { OnErr result (text.new ≡ text.old) }
    {
        let len = text.len();
        let pushed = push_numbers(text, self.as_slice());
        if pushed.is_err() {
            text.truncate(len);
        }
        pushed
    }
}
