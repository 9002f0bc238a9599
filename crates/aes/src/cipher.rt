//! The cipher and its inverse over one block (FIPS 197, 5.1 and 5.3).
ghost use Rattle.std.specs.Prelude.{◌≡◌, ◌≤◌, List, ℕ};
ghost use Rattle.aes.specs.Cipher.{HasKey, cipher, inverse_cipher, round_key};
ghost use Rattle.aes.specs.Schedule.{expanded_key};

use crate::block::{
    BLOCK_BYTES, Block, added, inverse_mix_columns, inverse_shift_rows, inverse_substituted,
    mix_columns, shift_rows, substituted,
};
use crate::schedule::RoundKeys;

// The key of round r.
fn round_key(keys: &RoundKeys, r: usize) -> Block
    requires { r ≤ keys.now.rounds }
    ensures { (key : List ℕ) → HasKey keys.now key → result ≡ round_key (expanded_key key) r }
{
    let mut block = [0u8; BLOCK_BYTES];
    block.copy_from_slice(&keys.bytes[BLOCK_BYTES * r..BLOCK_BYTES * r + BLOCK_BYTES]);
    block
}

impl RoundKeys {
    /// A block under the key.
    pub fn encrypt(&self, block: &Block) -> Block
        ensures { (key : List ℕ) → HasKey self.now key → result ≡ cipher key block.now }
    {
        let mut state = added(block, &round_key(self, 0));
        'rounds: for r in 1..self.rounds {
            state = mix_columns(&shift_rows(&substituted(&state)));
            state = added(&state, &round_key(self, r));
        }
        let last = shift_rows(&substituted(&state));
        added(&last, &round_key(self, self.rounds))
    }

    /// The block that gives this one under the key.
    pub fn decrypt(&self, block: &Block) -> Block
        ensures { (key : List ℕ) → HasKey self.now key → result ≡ inverse_cipher key block.now }
    {
        let mut state = added(block, &round_key(self, self.rounds));
        'rounds: for r in 1..self.rounds {
            state = inverse_substituted(&inverse_shift_rows(&state));
            state = added(&state, &round_key(self, self.rounds - r));
            state = inverse_mix_columns(&state);
        }
        let last = inverse_substituted(&inverse_shift_rows(&state));
        added(&last, &round_key(self, 0))
    }
}
