//! A string of bytes, and a list of such strings.
ghost use Rattle.std.specs.Prelude.{◌≡◌, ◌==◌, ◌++◌, ◌-◌, ◌∷◌, [], length, slice_get, take};
ghost use Rattle.std.specs.Prelude.{replicate, IfOk, OnOk, OnErr};
ghost use Rattle.std.specs.Option.{option_copied};
ghost use Rattle.std.specs.Borrow.{sem};
ghost use Rattle.line_serve.specs.Lending.{LendsBytes};

use std::alloc::{AllocError, Global};
use std::marker::Model;

/// Bytes, of any values.
#[derive(Drop)]
pub struct ByteString {
    bytes: Vec<u8>,
}

impl Model for ByteString {
    ghost use Rattle.std.specs.Prelude.{List, ℕ};

    ghost Value = { List ℕ };

    ghost view = { λ s. s.bytes.items };
}

impl ByteString {
    /// No bytes. Takes no memory before bytes are put in.
    pub fn new(alloc: Global) -> Self
        ensures { result ≡ [] }
    {
        ByteString {
            bytes: Vec::new(alloc),
        }
    }

    /// A copy of the bytes.
    pub fn from_slice(alloc: Global, bytes: &[u8]) -> Result<Self, AllocError>
        ensures { IfOk result (λ s. s ≡ bytes.now) }
    {
        Ok(ByteString {
            bytes: Vec::from_slice(alloc, bytes)?,
        })
    }

    /// Puts the bytes at the end.
    pub fn push_slice(&mut self, bytes: &[u8]) -> Result<(), AllocError>
        ensures ok { OnOk result (self.new ≡ self.old ++ bytes.now) }
        ensures err { OnErr result (self.new ≡ self.old) }
    {
        self.bytes.extend_from_slice(bytes)
    }

    /// Puts all bytes of another string at the end. Where there were none before it takes over the
    /// other's memory.
    pub fn append(&mut self, other: ByteString) -> Result<(), AllocError>
        ensures ok { OnOk result (self.new ≡ self.old ++ other) }
        ensures err { OnErr result (self.new ≡ self.old) }
    {
        if self.bytes.is_empty() {
            *self = other;
            return Ok(());
        }
        self.push_slice(other.as_slice())
    }

    /// Takes memory for so many bytes more.
    pub fn reserve(&mut self, more: usize) -> Result<(), AllocError>
        ensures { self.new ≡ self.old }
    {
        self.bytes.reserve(more)
    }

    /// The bytes.
    pub fn as_slice(&self) -> &[u8]
        ensures { result.now ≡ self.now }
    {
        self.bytes.as_slice()
    }

    /// How many bytes there are.
    pub fn len(&self) -> usize
        ensures { result ≡ length self.now }
    {
        self.bytes.len()
    }

    /// Whether there are none.
    pub fn is_empty(&self) -> bool
        ensures { result ≡ (length self.now == 0) }
    {
        self.bytes.is_empty()
    }

    /// Bytes that are all zero, so many of them. They are to be written over, by
    /// [`ByteString::as_mut_slice`]: nothing after this call can fail then.
    pub fn zeroed(alloc: Global, len: usize) -> Result<Self, AllocError>
        ensures { IfOk result (λ s. s ≡ replicate len 0) }
    {
        let mut bytes = Vec::new(alloc);
        bytes.resize(len, 0)?;
        Ok(ByteString { bytes })
    }

    /// The bytes, to be written over.
    pub fn as_mut_slice(&mut self) -> &mut [u8]
        ensures* writes_back { sem 𝓛 (LendsBytes self.entry result) }
        ensures value { result.now ≡ self.old }
    {
        self.bytes.as_mut_slice()
    }

    // Keeps the first bytes, at most so many, and puts copies of `byte` at the end until there are.
    pub(crate) fn resize(&mut self, len: usize, byte: u8) -> Result<(), AllocError>
        ensures ok { OnOk result (self.new
            ≡ take len self.old ++ replicate (len - length self.old) byte) }
        ensures err { OnErr result (self.new ≡ self.old) }
    {
        self.bytes.resize(len, byte)
    }

    /// Keeps the first bytes, at most so many.
    pub fn truncate(&mut self, len: usize)
        ensures { self.new ≡ take len self.old }
    {
        self.bytes.truncate(len);
    }

    /// Takes all bytes out, and keeps the memory for others.
    pub fn clear(&mut self)
        ensures { self.new ≡ [] }
    {
        self.bytes.clear();
    }
}

/// Byte strings one after another, such as the words of a command line.
#[derive(Drop)]
pub struct Words {
    words: Vec<ByteString>,
}

impl Model for Words {
    ghost use Rattle.std.specs.Prelude.{List, ℕ};

    ghost Value = { List (List ℕ) };

    ghost view = { λ w. w.words.items };
}

impl Words {
    /// No words. Takes no memory before a word is put in.
    pub fn new(alloc: Global) -> Self
        ensures { result ≡ [] }
    {
        Words {
            words: Vec::new(alloc),
        }
    }

    /// Puts a copy of the word at the end.
    pub fn push(&mut self, word: &[u8]) -> Result<(), AllocError>
        ensures ok { OnOk result (self.new ≡ self.old ++ word.now ∷ []) }
        ensures err { OnErr result (self.new ≡ self.old) }
    {
        let word = ByteString::from_slice(*self.words.allocator(), word)?;
        self.push_string(word)
    }

    /// Puts the word itself at the end.
    pub fn push_string(&mut self, word: ByteString) -> Result<(), AllocError>
        ensures ok { OnOk result (self.new ≡ self.old ++ word ∷ []) }
        ensures err { OnErr result (self.new ≡ self.old) }
    {
        self.words.push(word)?;
        Ok(())
    }

    /// How many words there are.
    pub fn len(&self) -> usize
        ensures { result ≡ length self.now }
    {
        self.words.len()
    }

    /// The word at an index from 0, `None` where there are not so many.
    pub fn get(&self, i: usize) -> Option<&[u8]>
        ensures { option_copied result ≡ slice_get self.now i }
    {
        match self.words.get(i) {
            Some(word) => Some(word.as_slice()),
            None => None,
        }
    }
}
