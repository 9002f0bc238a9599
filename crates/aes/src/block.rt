//! The steps of a round over a block of sixteen bytes, column by column (FIPS 197, 3.4).
ghost use Rattle.std.specs.Prelude.{◌≡◌, map};
ghost use Rattle.aes.specs.Block.{added, inverse_mix_columns, inverse_mixed, inverse_shift_rows};
ghost use Rattle.aes.specs.Block.{mix_columns, mixed, shift_rows};
ghost use Rattle.aes.specs.Field.{inverse_s_box, s_box};

use crate::field::{inverse_s_box, s_box, times};

/// How many bytes a block has.
pub const BLOCK_BYTES: usize = 16;

/// A block.
pub type Block = [u8; BLOCK_BYTES];

/// Each byte by the substitution box (5.1.1).
pub(crate) fn substituted(state: &Block) -> Block
    ensures { result ≡ map s_box state.now }
{
    let mut bytes = [0u8; BLOCK_BYTES];
    'each_byte: for i in 0..BLOCK_BYTES {
        bytes[i] = s_box(state[i]);
    }
    bytes
}

/// Each byte by the inverse of the substitution box (5.3.2).
pub(crate) fn inverse_substituted(state: &Block) -> Block
    ensures { result ≡ map inverse_s_box state.now }
{
    let mut bytes = [0u8; BLOCK_BYTES];
    'each_byte: for i in 0..BLOCK_BYTES {
        bytes[i] = inverse_s_box(state[i]);
    }
    bytes
}

/// Row r turned by r places (5.1.2).
pub(crate) fn shift_rows(s: &Block) -> Block
    ensures { result ≡ shift_rows s.now }
{
    [
        s[0], s[5], s[10], s[15], s[4], s[9], s[14], s[3], s[8], s[13], s[2], s[7], s[12], s[1],
        s[6], s[11],
    ]
}

/// Row r turned back by r places (5.3.1).
pub(crate) fn inverse_shift_rows(s: &Block) -> Block
    ensures { result ≡ inverse_shift_rows s.now }
{
    [
        s[0], s[13], s[10], s[7], s[4], s[1], s[14], s[11], s[8], s[5], s[2], s[15], s[12], s[9],
        s[6], s[3],
    ]
}

// A byte of a mixed column, from the column's bytes from its row on.
fn mixed(a: u8, b: u8, c: u8, d: u8) -> u8
    ensures { result ≡ mixed a b c d }
{
    times(a, 2) ^ times(b, 3) ^ c ^ d
}

// A byte of a column whose mixing is undone, from the column's bytes from its row on.
fn inverse_mixed(a: u8, b: u8, c: u8, d: u8) -> u8
    ensures { result ≡ inverse_mixed a b c d }
{
    times(a, 0x0e) ^ times(b, 0x0b) ^ times(c, 0x0d) ^ times(d, 0x09)
}

/// Each column by the matrix of the standard (5.1.3).
pub(crate) fn mix_columns(s: &Block) -> Block
    ensures { result ≡ mix_columns s.now }
{
    [
        mixed(s[0], s[1], s[2], s[3]),
        mixed(s[1], s[2], s[3], s[0]),
        mixed(s[2], s[3], s[0], s[1]),
        mixed(s[3], s[0], s[1], s[2]),
        mixed(s[4], s[5], s[6], s[7]),
        mixed(s[5], s[6], s[7], s[4]),
        mixed(s[6], s[7], s[4], s[5]),
        mixed(s[7], s[4], s[5], s[6]),
        mixed(s[8], s[9], s[10], s[11]),
        mixed(s[9], s[10], s[11], s[8]),
        mixed(s[10], s[11], s[8], s[9]),
        mixed(s[11], s[8], s[9], s[10]),
        mixed(s[12], s[13], s[14], s[15]),
        mixed(s[13], s[14], s[15], s[12]),
        mixed(s[14], s[15], s[12], s[13]),
        mixed(s[15], s[12], s[13], s[14]),
    ]
}

/// Each column by the inverse matrix (5.3.3).
pub(crate) fn inverse_mix_columns(s: &Block) -> Block
    ensures { result ≡ inverse_mix_columns s.now }
{
    [
        inverse_mixed(s[0], s[1], s[2], s[3]),
        inverse_mixed(s[1], s[2], s[3], s[0]),
        inverse_mixed(s[2], s[3], s[0], s[1]),
        inverse_mixed(s[3], s[0], s[1], s[2]),
        inverse_mixed(s[4], s[5], s[6], s[7]),
        inverse_mixed(s[5], s[6], s[7], s[4]),
        inverse_mixed(s[6], s[7], s[4], s[5]),
        inverse_mixed(s[7], s[4], s[5], s[6]),
        inverse_mixed(s[8], s[9], s[10], s[11]),
        inverse_mixed(s[9], s[10], s[11], s[8]),
        inverse_mixed(s[10], s[11], s[8], s[9]),
        inverse_mixed(s[11], s[8], s[9], s[10]),
        inverse_mixed(s[12], s[13], s[14], s[15]),
        inverse_mixed(s[13], s[14], s[15], s[12]),
        inverse_mixed(s[14], s[15], s[12], s[13]),
        inverse_mixed(s[15], s[12], s[13], s[14]),
    ]
}

/// The sum of two blocks, byte by byte.
pub(crate) fn added(x: &Block, y: &Block) -> Block
    ensures { result ≡ added x.now y.now }
{
    let mut bytes = [0u8; BLOCK_BYTES];
    'each_byte: for i in 0..BLOCK_BYTES {
        bytes[i] = x[i] ^ y[i];
    }
    bytes
}
