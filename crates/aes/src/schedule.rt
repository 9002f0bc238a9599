//! The key's expansion (FIPS 197, 5.2).
ghost use Rattle.std.specs.Prelude.{◌≡◌, ◌⊎◌, ◌+◌, ◌-◌, ◌*◌, ◌/◌, ◌%◌, ◌<◌, ◌≤◌};
ghost use Rattle.std.specs.Prelude.{◌++◌, length, replicate};
ghost use Rattle.aes.specs.Schedule.{IsKeyLength, added_words, changed_word, next_word};
ghost use Rattle.aes.specs.Schedule.{rotated_word, substituted_word, word_at};

use crate::field::s_box;

// The most bytes that round keys have, those of AES-256.
const MAX_BYTES: usize = 240;

// Of how many bytes a word is made.
const WORD: usize = 4;

type Word = [u8; WORD];

// The first bytes of the round constants (table 5).
const ROUND_CONSTANTS: [u8; 10] = [0x01, 0x02, 0x04, 0x08, 0x10, 0x20, 0x40, 0x80, 0x1b, 0x36];

// The word that begins at an index.
fn word_at(w: &[u8], at: usize) -> Word
    requires { at + 4 ≤ length w.now }
    ensures { result ≡ word_at w.now at }
{
    [w[at], w[at + 1], w[at + 2], w[at + 3]]
}

// ROTWORD of the standard.
fn rotated_word(w: &Word) -> Word
    ensures { result ≡ rotated_word w.now }
{
    [w[1], w[2], w[3], w[0]]
}

// SUBWORD of the standard.
fn substituted_word(w: &Word) -> Word
    ensures { result ≡ substituted_word w.now }
{
    [s_box(w[0]), s_box(w[1]), s_box(w[2]), s_box(w[3])]
}

fn added_words(x: &Word, y: &Word) -> Word
    ensures { result ≡ added_words x.now y.now }
{
    [x[0] ^ y[0], x[1] ^ y[1], x[2] ^ y[2], x[3] ^ y[3]]
}

// What the word at index `i` is made of, from the word before it, for a key of `k` words.
fn changed_word(k: usize, i: usize, before: &Word) -> Word
    requires least { 4 ≤ k }
    requires later { k ≤ i }
    requires few { i < 11 * k }
    ensures { result ≡ changed_word k i before.now }
{
    if i % k == 0 {
        let constant = [ROUND_CONSTANTS[i / k - 1], 0, 0, 0];
        added_words(&substituted_word(&rotated_word(before)), &constant)
    } else if k > 6 && i % k == 4 {
        substituted_word(before)
    } else {
        *before
    }
}

// The bytes, and zeros behind them.
fn zero_padded(bytes: &[u8]) -> [u8; MAX_BYTES]
    requires { length bytes.now ≤ MAX_BYTES }
    ensures { result ≡ bytes.now ++ replicate (MAX_BYTES - length bytes.now) 0 }
{
    let mut padded = [0u8; MAX_BYTES];
    padded[..bytes.len()].copy_from_slice(bytes);
    padded
}

// The word after these.
fn next_word(k: usize, w: &[u8]) -> Word
    requires least { 4 ≤ k }
    requires most { k ≤ 8 }
    requires later { 4 * k ≤ length w.now }
    requires few { length w.now < 44 * k }
    ensures { result ≡ next_word k w.now }
{
    let n = w.len();
    let before = word_at(w, n - WORD);
    added_words(
        &word_at(w, n - WORD * k),
        &changed_word(k, n / WORD, &before),
    )
}

/// The keys of all rounds.
#[derive(Drop)]
pub struct RoundKeys {
    pub(crate) bytes: [u8; MAX_BYTES],
    pub(crate) rounds: usize,

    ghost few: { rounds ≤ 14 },
    ghost some: { 1 ≤ rounds },
}

impl RoundKeys {
    ghost use Rattle.aes.specs.Cipher.{HasKey};

    /// The round keys of a key of 16, 24 or 32 bytes.
    pub fn new(key: &[u8]) -> RoundKeys
        requires { IsKeyLength (length key.now) }
        ensures { HasKey result key.now }
    {
        let k = key.len() / WORD;
        let rounds = k + 6;
        let mut bytes = zero_padded(key);
        'words: for i in k..WORD * (rounds + 1) {
            let word = next_word(k, &bytes[..WORD * i]);
            bytes[WORD * i..WORD * i + WORD].copy_from_slice(&word);
        }
        RoundKeys { bytes, rounds }
    }
}
