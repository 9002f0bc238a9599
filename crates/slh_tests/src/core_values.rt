//! Addresses and digits of `slh_core`, worked by hand, and the example of its page.

use crate::shown::shows;
use hybrid_array::TryFromSliceError;
use hybrid_array::sizes::{U1, U16};
use slh_core::address::{Address, WotsHash};
use slh_core::digits::{base_2b, message_digits};
use slh_core::nbytes::NBytes;

fn first_step(message: &[u8]) -> Result<[u8; 22], TryFromSliceError> {
    let message = NBytes::<U16>::from_slice(message)?;
    let digits = message_digits(&message);
    let adrs = WotsHash {
        layer_adrs: 0,
        tree_adrs_low: 2,
        key_pair_adrs: 3,
        chain_adrs: 1,
        hash_adrs: u32::from(digits[1]),
    };
    Ok(adrs.compressed())
}

// Whether the address of the first step is this one.
fn is_first_step(message: &[u8], wanted: &[u8; 22]) -> bool {
    match first_step(message) {
        Ok(bytes) => bytes == *wanted,
        Err(_) => false,
    }
}

// Put together by hand (FIPS 205, sections 4.2 and 11.2): the layer, the tree, the type, the key
// pair, the chain, and the second hexadecimal digit of the message.
#[test]
fn example_of_the_page(rt: HostRuntime) {
    let wanted = [
        0, 0, 0, 0, 0, 0, 0, 0, 2, 0, 0, 0, 0, 3, 0, 0, 0, 1, 0, 0, 0, 12,
    ];
    shows(&rt, is_first_step(&[0x3c; 16], &wanted));
    shows(
        &rt,
        first_step(&[0x3c; 15]).err() == Some(TryFromSliceError),
    );
}

fn has_digits(byte: u8, wanted: &[u16]) -> bool {
    &message_digits(&NBytes::<U1>::exact(&[byte]))[..5] == wanted
}

// The two hexadecimal digits, and the checksum's three.
fn are_digits_of_bytes() -> bool {
    has_digits(0x12, &[1, 2, 0, 1, 11])
        && has_digits(0xff, &[15, 15, 0, 0, 0])
        && has_digits(0x00, &[0, 0, 0, 1, 14])
}

// Digits that end within a byte, and digits over a byte's end.
fn are_digits_of_bits() -> bool {
    let mut by_four = [0; 3];
    base_2b(&[0x12, 0x30], 4, &mut by_four);
    let mut by_six = [0; 2];
    base_2b(&[0xff, 0x00], 6, &mut by_six);
    by_four == [1, 2, 3] && by_six == [63, 48]
}

#[test]
fn digits_are_those_worked_by_hand(rt: HostRuntime) {
    shows(&rt, are_digits_of_bytes() && are_digits_of_bits());
}
