//! What is signed for a message with a context (FIPS 205, algorithms 22 and 23).
ghost use Rattle.std.specs.Prelude.{◌≡◌, ℕ, ◌+◌, ◌≤◌, ◌^◌, List, [], ◌∷◌, ◌++◌, length, take};
ghost use Rattle.sha256_lanes.specs.Sha256.{sha256};
ghost use Rattle.sha2.specs.Sha512.{sha512};
ghost use Rattle.slh_frames.specs.Frames.{head_of as spec_head_of, kept_tail, tail_of};
ghost use Rattle.slh_frames.specs.Messages.{HasDigestSize, digest_tail};
ghost use Rattle.slh_frames.specs.declared.frame.Mode.TheVariants.{Pure};

use crate::message::{Content, MAX_CONTEXT, MAX_MESSAGE, Message};
use hmac_sha256::Hash;
use sha512_lanes::Hash512;
use slh_core::params::MAX_MESSAGE_LEN;
use std::marker::Model;

/// The bytes of an identifier of a hash function.
const IDENTIFIER_LEN: usize = 11;

/// The object identifier of SHA-256, as what is signed has it (FIPS 205, algorithm 23).
pub const SHA256_IDENTIFIER: [u8; IDENTIFIER_LEN] = [
    0x06, 0x09, 0x60, 0x86, 0x48, 0x01, 0x65, 0x03, 0x04, 0x02, 0x01,
];

/// That of SHA-512.
pub const SHA512_IDENTIFIER: [u8; IDENTIFIER_LEN] = [
    0x06, 0x09, 0x60, 0x86, 0x48, 0x01, 0x65, 0x03, 0x04, 0x02, 0x03,
];

/// The bytes of an identifier and a digest of SHA-256, and of SHA-512.
pub(crate) const SHA256_LEN: usize = IDENTIFIER_LEN + 32;

pub(crate) const SHA512_LEN: usize = IDENTIFIER_LEN + 64;

/// Whether a message is signed as it is, or by its digest and by which (FIPS 205, section 10.2).
#[derive(Clone, Copy, Debug, PartialEq, Eq)]
pub enum Mode {
    /// The message as it is.
    Pure,
    /// Its SHA-256 digest, of 32 bytes.
    Sha256,
    /// Its SHA-512 digest, of 64 bytes.
    Sha512,
}

/// The two bytes before a context: whether a digest is signed, and how long the context is.
pub fn head_of(mode: Mode, ctx: &[u8]) -> [u8; 2]
    requires { length ctx.now ≤ MAX_CONTEXT }
    ensures { result ≡ spec_head_of mode ctx.now }
{
    let first = match mode {
        Mode::Pure => 0,
        Mode::Sha256 | Mode::Sha512 => 1,
    };
    [first, ctx.len() as u8]
}

/// Puts an identifier and a digest at the front of `out`.
pub(crate) fn put_digest(
    identifier: &[u8; IDENTIFIER_LEN],
    digest: &[u8],
    out: &mut [u8; SHA512_LEN],
)
    requires { length digest.now ≤ 64 }
    ensures { take (11 + length digest.now) out.new ≡ identifier.now ++ digest.now }
{
    let (front, back) = out.split_at_mut(IDENTIFIER_LEN);
    front.copy_from_slice(identifier);
    back[..digest.len()].copy_from_slice(digest);
}

// The SHA-256 digest of a message, several blocks at a time in bulk, or one after the other.
fn sha256_of<const IN_BULK: bool>(msg: &[u8]) -> [u8; 32]
    requires { length msg.now ≤ MAX_MESSAGE }
    ensures { result ≡ sha256 msg.now }
{
    if IN_BULK {
        Hash::hash(msg)
    } else {
        Hash::hash_each(msg)
    }
}

// The same of SHA-512.
fn sha512_of<const IN_BULK: bool>(msg: &[u8]) -> [u8; 64]
    ensures { result ≡ sha512 msg.now }
{
    if IN_BULK {
        Hash512::digest(msg)
    } else {
        Hash512::digest_each(msg)
    }
}

// An identifier and a digest, where the mode has one.
fn with_identifier(mode: Mode, digest: &[u8]) -> [u8; SHA512_LEN]
    requires { HasDigestSize mode (length digest.now) }
    ensures value { kept_tail mode digest.now result ≡ digest_tail mode digest.now }
    ensures short { length (kept_tail mode digest.now result) ≤ MAX_MESSAGE }
{
    let mut out = [0u8; SHA512_LEN];
    match mode {
        Mode::Pure => {}
        Mode::Sha256 => put_digest(&SHA256_IDENTIFIER, digest, &mut out),
        Mode::Sha512 => put_digest(&SHA512_IDENTIFIER, digest, &mut out),
    }
    out
}

// The same of a message, where the mode has one.
fn hashed<const IN_BULK: bool>(mode: Mode, msg: &[u8]) -> [u8; SHA512_LEN]
    requires { length msg.now ≤ MAX_MESSAGE }
    ensures value { kept_tail mode msg.now result ≡ tail_of mode msg.now }
    ensures short { length (kept_tail mode msg.now result) ≤ MAX_MESSAGE }
{
    match mode {
        Mode::Pure => [0; SHA512_LEN],
        Mode::Sha256 => with_identifier(mode, &sha256_of::<IN_BULK>(msg)),
        Mode::Sha512 => with_identifier(mode, &sha512_of::<IN_BULK>(msg)),
    }
}

/// What is signed for a message with a context: a head of two bytes, the context, and the message or
/// an identifier and a digest. It takes no memory.
#[derive(Drop)]
pub struct Frame<'a> {
    head: [u8; 2],
    ctx: &'a [u8],
    msg: &'a [u8],
    hashed: [u8; SHA512_LEN],
    mode: Mode,
}

impl<'a> Model for Frame<'a> {
    ghost use Rattle.slh_frames.specs.Frames.{Framed, kept_tail};

    ghost Value = { Framed };

    ghost view = { λ f. record {
      head = f.head;
      ctx = f.ctx.now;
      tail = kept_tail f.mode f.msg.now f.hashed;
    } };
}

impl<'a> Frame<'a> {
    // What is signed, with an identifier and a digest where the mode has one.
    fn kept(mode: Mode, ctx: &'a [u8], msg: &'a [u8], hashed: [u8; SHA512_LEN]) -> Self
        requires ctx { length ctx.now ≤ MAX_CONTEXT }
        requires short { length (kept_tail mode msg.now hashed) ≤ MAX_MESSAGE }
        ensures head { result.head ≡ spec_head_of mode ctx.now }
        ensures ctx { result.ctx ≡ ctx.now }
        ensures tail { result.tail ≡ kept_tail mode msg.now hashed }
        ensures fits { length result.head + length result.ctx + length result.tail
            ≤ MAX_MESSAGE_LEN }
    {
        Frame {
            head: head_of(mode, ctx),
            ctx,
            msg,
            hashed,
            mode,
        }
    }

    /// What is signed for a message of at most 2^60 bytes with a context of at most 255.
    pub fn new(mode: Mode, ctx: &'a [u8], msg: &'a [u8]) -> Self
        requires ctx { length ctx.now ≤ MAX_CONTEXT }
        requires msg { length msg.now ≤ MAX_MESSAGE }
        ensures head { result.head ≡ spec_head_of mode ctx.now }
        ensures ctx { result.ctx ≡ ctx.now }
        ensures tail { result.tail ≡ tail_of mode msg.now }
        ensures fits { length result.head + length result.ctx + length result.tail
            ≤ MAX_MESSAGE_LEN }
    {
        Self::kept(mode, ctx, msg, hashed::<true>(mode, msg))
    }

    /// As `new` in the mode `Pure`, without the code of the other modes.
    pub fn pure(ctx: &'a [u8], msg: &'a [u8]) -> Self
        requires ctx { length ctx.now ≤ MAX_CONTEXT }
        requires msg { length msg.now ≤ MAX_MESSAGE }
        ensures head { result.head ≡ spec_head_of Pure ctx.now }
        ensures ctx { result.ctx ≡ ctx.now }
        ensures tail { result.tail ≡ msg.now }
        ensures fits { length result.head + length result.ctx + length result.tail
            ≤ MAX_MESSAGE_LEN }
    {
        Self::kept(Mode::Pure, ctx, msg, [0; SHA512_LEN])
    }

    /// What is signed of a message, which is hashed here where it is signed by its digest.
    pub fn of(message: &Message<'a>) -> Self
        ensures value { result ≡ message.now }
        ensures fits { length result.head + length result.ctx + length result.tail
            ≤ MAX_MESSAGE_LEN }
    {
        Self::of_content::<true>(message)
    }

    /// The same, where a message is hashed block by block: for programs that are to be small.
    pub fn small(message: &Message<'a>) -> Self
        ensures value { result ≡ message.now }
        ensures fits { length result.head + length result.ctx + length result.tail
            ≤ MAX_MESSAGE_LEN }
    {
        Self::of_content::<false>(message)
    }

    // What is signed of a message or of its digest.
    fn of_content<const IN_BULK: bool>(message: &Message<'a>) -> Self
        ensures value { result ≡ message.now }
        ensures fits { length result.head + length result.ctx + length result.tail
            ≤ MAX_MESSAGE_LEN }
    {
        let (mode, bytes) = (message.mode, message.bytes);
        let hashed = match message.content {
            Content::Whole => hashed::<IN_BULK>(mode, bytes),
            Content::Digest => with_identifier(mode, bytes),
        };
        Self::kept(mode, message.ctx, bytes, hashed)
    }

    /// Whether a digest is signed, and the length of the context.
    pub fn head(&self) -> &[u8]
        ensures { result.now ≡ self.now.head }
    {
        &self.head
    }

    /// The context.
    pub fn ctx(&self) -> &[u8]
        ensures { result.now ≡ self.now.ctx }
    {
        self.ctx
    }

    /// The message, or the identifier of a hash function and the message's digest.
    pub fn tail(&self) -> &[u8]
        ensures { result.now ≡ self.now.tail }
    {
        match self.mode {
            Mode::Pure => self.msg,
            Mode::Sha256 => &self.hashed[..SHA256_LEN],
            Mode::Sha512 => &self.hashed,
        }
    }
}
