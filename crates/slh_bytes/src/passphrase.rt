//! Passphrases, and how often one is hashed.
ghost use Rattle.std.specs.Prelude.{◌≡◌, ◌⊎◌, ◌≤◌, Err, length};
ghost use Rattle.slh_bytes.specs.Passphrases.{first_line as spec_first_line, iterations_of};
ghost use Rattle.slh_bytes.specs.Passphrases.{passphrase_in, without_return as spec_without_return};
ghost use Rattle.slh_bytes.specs.declared.passphrase.PassphraseError.TheVariants.{Memory};

use crate::places::cut;
use encrypted_key::MAX_ITERATIONS;
use slh_jobs::ByteString;
use std::alloc::{AllocError, Global};
use std::marker::Model;

/// Why a file has no passphrase.
#[derive(Clone, Copy, Debug, PartialEq, Eq, thiserror::Error)]
pub enum PassphraseError {
    /// Its first line has no bytes.
    #[error("an empty passphrase")]
    Empty,
    /// Its first line has more than [`Passphrase::MAX_LEN`] bytes.
    #[error("a passphrase of more than 1024 bytes")]
    TooLong,
    /// There was no memory.
    #[error("out of memory")]
    Memory,
}

impl From<AllocError> for PassphraseError {
    ghost from_gives = { λ _ e. e ≡ Memory };

    fn from(_: AllocError) -> Self {
        PassphraseError::Memory
    }
}

/// A passphrase: up to [`Passphrase::MAX_LEN`] bytes, which are secret.
#[derive(Drop)]
pub struct Passphrase {
    bytes: ByteString,
}

impl Model for Passphrase {
    ghost use Rattle.std.specs.Prelude.{List, ℕ, ◌≤◌, length};

    ghost Value = { List ℕ };

    ghost view = { λ p. p.bytes };

    ghost invariant = { λ p. length p.bytes ≤ 1024 };
}

impl Passphrase {
    /// The most bytes of a passphrase.
    pub const MAX_LEN: usize = 1024;

    /// The passphrase of a text: its first line, without its end, which is a line feed or a carriage
    /// return and a line feed.
    pub fn of_text(alloc: Global, text: &[u8]) -> Result<Passphrase, PassphraseError>
        ensures exact { (result ≡ passphrase_in text.now) ⊎ (result ≡ Err Memory) }
    {
        let line = first_line(text);
        if line.is_empty() {
            return Err(PassphraseError::Empty);
        }
        if line.len() > Passphrase::MAX_LEN {
            return Err(PassphraseError::TooLong);
        }
        let bytes = ByteString::from_slice(alloc, line)?;
        Ok(Passphrase { bytes })
    }

    /// Its bytes, for what derives a key of them.
    pub(crate) fn expose(&self) -> &[u8]
        ensures value { result.now ≡ self.now }
        ensures most { length result.now ≤ 1024 }
    {
        self.bytes.as_slice()
    }
}

// A line that ended with a line feed, without the carriage return before that.
fn without_return(line: &[u8]) -> &[u8]
    ensures { result.now ≡ spec_without_return line.now }
{
    let front = line.len().saturating_sub(1);
    if &line[front..] == b"\r".as_slice() {
        &line[..front]
    } else {
        line
    }
}

fn first_line(text: &[u8]) -> &[u8]
    ensures { result.now ≡ spec_first_line text.now }
{
    match cut(text, b"\n") {
        Some((line, _)) => without_return(line),
        None => text,
    }
}

/// How many iterations a key is derived by: 1 to [`MAX_ITERATIONS`].
#[derive(Drop)]
pub struct Iterations {
    count: u32,
}

impl Model for Iterations {
    ghost use Rattle.std.specs.Prelude.{ℕ, ◌≤◌};

    ghost Value = { ℕ };

    ghost view = { λ i. i.count };

    ghost invariant = { λ i. (1 ≤ i.count) × (i.count ≤ 10000000) };
}

impl Iterations {
    /// What a new file has where nobody asks for another count.
    pub fn standard() -> Self
        ensures { result ≡ 600000 }
    {
        Iterations { count: 600_000 }
    }

    /// This count. `None`: it is 0, or more than [`MAX_ITERATIONS`].
    pub fn new(count: u32) -> Option<Self>
        ensures { result ≡ iterations_of count }
    {
        if count == 0 || count > MAX_ITERATIONS {
            return None;
        }
        Some(Iterations { count })
    }

    /// The count.
    pub fn count(&self) -> u32
        ensures value { result ≡ self.now }
        ensures some { 1 ≤ result }
        ensures most { result ≤ MAX_ITERATIONS }
    {
        self.count
    }
}
