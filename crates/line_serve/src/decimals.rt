//! Decimal numbers.
ghost use Rattle.std.specs.Prelude.{◌≡◌, ◌+◌, ◌≤◌, IfSome};
ghost use Rattle.line_serve.specs.Decimals.{decimal_value as spec_decimal_value, number_value};
ghost use Rattle.line_serve.specs.Decimals.{read_digits as spec_read_digits};
ghost use Rattle.line_serve.specs.Fields.{contents, field_at as spec_field_at};

use crate::fields::field_at;

// The number that all bytes stand for as decimal digits, where it is at most `last`.
#[tactic(auto, using(crate::proofs::DecimalDigits::goes_on, crate::proofs::DecimalDigits::below_digits, crate::proofs::DecimalDigits::above_digits, crate::proofs::DecimalDigits::too_big, crate::proofs::DecimalDigits::all_read))]
fn read_digits(text: &[u8], last: u64) -> Option<u64>
    ensures value { result ≡ spec_read_digits (last + 1) 0 text.now }
    ensures within { IfSome result (λ number. number ≤ last) }
{
    let mut number = 0u64;
    for byte in text {
        if *byte < 48 || *byte > 57 {
            return None;
        }
        let next = u128::from(number) * 10 + u128::from(*byte - 48);
        if next > u128::from(last) {
            return None;
        }
        number = next as u64;
    }
    Some(number)
}

/// The number of 1 to so many decimal digits, where it is at most `last`. Leading zeros count as
/// digits.
pub fn decimal_value(text: &[u8], digits: usize, last: u64) -> Option<u64>
    ensures value { result ≡ spec_decimal_value digits (last + 1) text.now }
    ensures within { IfSome result (λ number. number ≤ last) }
{
    if text.is_empty() || text.len() > digits {
        return None;
    }
    read_digits(text, last)
}

/// The number of 1 to 10 decimal digits, below 2^32, that the field at an index stands for.
pub fn number_at(fields: &[&[u8]], i: usize) -> Option<u32>
    ensures { result ≡ number_value (spec_field_at (contents fields.now) i) }
{
    let number = decimal_value(field_at(fields, i), 10, u64::from(u32::MAX))?;
    Some(number as u32)
}
