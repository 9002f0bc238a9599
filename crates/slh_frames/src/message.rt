//! What is signed: a mode, a context, and a message or its digest.
ghost use Rattle.std.specs.Prelude.{◌≡◌, ◌≤◌, length, IfOk, OnOk};
ghost use Rattle.slh_core.specs.Refusals.{RefusedExactly, context_refusal, message_refusal};
ghost use Rattle.slh_frames.specs.Messages.{HasDigestSize, digest_message, digest_message_refusal};
ghost use Rattle.slh_frames.specs.Messages.{digest_size_refusal, whole_message};
ghost use Rattle.slh_frames.specs.Messages.{whole_message_refusal};

use crate::frame::Mode;
use std::marker::Model;

/// The most bytes of a context (FIPS 205, algorithm 22).
pub const MAX_CONTEXT: usize = 255;

/// The most bytes of a message, well within what the hash functions take.
pub const MAX_MESSAGE: usize = 1 << 60;

/// Why there is no such message. Where several causes stand together, the first in this order is
/// answered.
#[derive(Clone, Copy, Debug, PartialEq, Eq)]
pub enum MessageError {
    /// A digest was given in the mode `Pure`, or of another length than the mode's hash function
    /// has.
    Length,
    /// The context has more than 255 bytes.
    ContextTooLong,
    /// The message has more than 2^60 bytes.
    MessageTooLong,
}

/// What the bytes of a message are.
#[derive(Clone, Copy, PartialEq, Eq)]
pub enum Content {
    /// The message itself.
    Whole,
    /// Its digest, by the hash function of the mode.
    Digest,
}

/// What is signed, or what a signature is of: a mode, a context, and a message or its digest.
/// Clauses see it as what is signed, in three byte strings. Nothing is hashed before a
/// [`Frame`](crate::Frame) is made of it.
#[derive(Drop)]
pub struct Message<'a> {
    pub(crate) mode: Mode,
    pub(crate) ctx: &'a [u8],
    pub(crate) content: Content,
    pub(crate) bytes: &'a [u8],
}

impl<'a> Model for Message<'a> {
    ghost use Rattle.slh_frames.specs.Frames.{Framed};
    ghost use Rattle.slh_frames.specs.declared.message.TheConstants.{MAX_CONTEXT};
    ghost use Rattle.slh_frames.specs.Messages.{HoldsContent, framed_content};
    ghost use Rattle.std.specs.Prelude.{◌≤◌, length};

    ghost Value = { Framed };

    ghost view = { λ m. framed_content m.mode m.content m.ctx.now m.bytes.now };

    ghost invariant = { λ m. (length m.ctx.now ≤ MAX_CONTEXT)
        × HoldsContent m.mode m.content m.bytes.now };
}

/// The error for a context of more than 255 bytes. Each call that takes a context has one of its
/// own.
pub fn check_context<E: Drop>(ctx: &[u8], error: E) -> Result<(), E>
    ensures refusal { RefusedExactly result (context_refusal error ctx.now) }
    ensures fits { OnOk result (length ctx.now ≤ MAX_CONTEXT) }
{
    if ctx.len() > MAX_CONTEXT {
        return Err(error);
    }
    Ok(())
}

/// The error for a message of more than 2^60 bytes.
pub fn check_message<E: Drop>(msg: &[u8], error: E) -> Result<(), E>
    ensures refusal { RefusedExactly result (message_refusal error msg.now) }
    ensures fits { OnOk result (length msg.now ≤ MAX_MESSAGE) }
{
    if msg.len() > MAX_MESSAGE {
        return Err(error);
    }
    Ok(())
}

/// The error for a digest of another length than the mode's hash function has, and for any in the
/// mode `Pure`.
pub fn check_digest<E: Drop>(mode: Mode, digest: &[u8], error: E) -> Result<(), E>
    ensures refusal { RefusedExactly result
        (digest_size_refusal error mode (length digest.now)) }
    ensures fits { OnOk result (HasDigestSize mode (length digest.now)) }
{
    let fits = match mode {
        Mode::Pure => false,
        Mode::Sha256 => digest.len() == 32,
        Mode::Sha512 => digest.len() == 64,
    };
    if fits { Ok(()) } else { Err(error) }
}

impl<'a> Message<'a> {
    /// A message with a context. `ContextTooLong`, `MessageTooLong`.
    pub fn new(mode: Mode, msg: &'a [u8], ctx: &'a [u8]) -> Result<Self, MessageError>
        ensures refusal { RefusedExactly result (whole_message_refusal ctx.now msg.now) }
        ensures value { IfOk result (λ m. m ≡ whole_message mode ctx.now msg.now) }
    {
        check_context(ctx, MessageError::ContextTooLong)?;
        check_message(msg, MessageError::MessageTooLong)?;
        Ok(Self::fitting(mode, msg, ctx))
    }

    /// As `new`, for what it doesn't refuse.
    pub fn fitting(mode: Mode, msg: &'a [u8], ctx: &'a [u8]) -> Self
        requires ctx { length ctx.now ≤ MAX_CONTEXT }
        requires msg { length msg.now ≤ MAX_MESSAGE }
        ensures { result ≡ whole_message mode ctx.now msg.now }
    {
        Message {
            mode,
            ctx,
            content: Content::Whole,
            bytes: msg,
        }
    }

    /// The message that has a digest, with a context. `Length`: the mode is `Pure`, or the digest
    /// doesn't have the bytes of its hash function; `ContextTooLong`.
    pub fn of_digest(mode: Mode, digest: &'a [u8], ctx: &'a [u8]) -> Result<Self, MessageError>
        ensures refusal { RefusedExactly result (digest_message_refusal mode ctx.now digest.now) }
        ensures value { IfOk result (λ m. m ≡ digest_message mode ctx.now digest.now) }
    {
        check_digest(mode, digest, MessageError::Length)?;
        check_context(ctx, MessageError::ContextTooLong)?;
        Ok(Self::of_fitting_digest(mode, digest, ctx))
    }

    /// As `of_digest`, for what it doesn't refuse.
    pub fn of_fitting_digest(mode: Mode, digest: &'a [u8], ctx: &'a [u8]) -> Self
        requires ctx { length ctx.now ≤ MAX_CONTEXT }
        requires digest { HasDigestSize mode (length digest.now) }
        ensures { result ≡ digest_message mode ctx.now digest.now }
    {
        Message {
            mode,
            ctx,
            content: Content::Digest,
            bytes: digest,
        }
    }
}
