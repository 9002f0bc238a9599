//! Jobs, and what is answered to them.
use line_serve::ByteString;
use slh_audit::{Evidence, Verdict};
use slh_dsa::Mode;

/// What is asked for. Its byte strings may have any length; `run` refuses those that don't fit.
#[derive(Drop)]
pub enum Job {
    /// A key of three seeds.
    Keygen {
        /// The secret seed, n bytes.
        sk_seed: ByteString,
        /// The PRF key, n bytes.
        sk_prf: ByteString,
        /// The public seed, n bytes.
        pk_seed: ByteString,
    },
    /// A signature of a message with a context.
    Sign {
        /// Whether the message or its digest is signed.
        mode: Mode,
        /// The signing key, 4n bytes.
        key: ByteString,
        /// The context, at most 255 bytes.
        context: ByteString,
        /// The message itself, in every mode, at most 2^60 bytes.
        message: ByteString,
        /// The bytes that the randomizer is made from, n of them. Without any the public seed
        /// stands in their place.
        randomizer: Option<ByteString>,
    },
    /// Whether a signature is one of a message with a context.
    Verify {
        /// Whether the message or its digest is signed.
        mode: Mode,
        /// The verifying key, 2n bytes.
        key: ByteString,
        /// The context, at most 255 bytes.
        context: ByteString,
        /// The message itself, in every mode, at most 2^60 bytes.
        message: ByteString,
        /// The signature, as many bytes as the set's signatures have.
        signature: ByteString,
    },
    /// Whether the holder of a key made a signature of a message with a context.
    Audit {
        /// Whether the message or its digest is signed.
        mode: Mode,
        /// The signing key, 4n bytes.
        key: ByteString,
        /// The context, at most 255 bytes.
        context: ByteString,
        /// The message itself, in every mode, at most 2^60 bytes.
        message: ByteString,
        /// The signature, as many bytes as the set's signatures have.
        signature: ByteString,
    },
    /// Whether evidence shows against a signature of a message with a context.
    Check {
        /// Whether the message or its digest is signed.
        mode: Mode,
        /// The signing key, 4n bytes.
        key: ByteString,
        /// The context, at most 255 bytes.
        context: ByteString,
        /// The message itself, in every mode, at most 2^60 bytes.
        message: ByteString,
        /// The signature, as many bytes as the set's signatures have.
        signature: ByteString,
        /// The evidence. Numbers of a place that isn't there don't show.
        evidence: Evidence,
    },
}

/// The answer to a job that wasn't refused.
#[derive(Drop)]
pub enum Answer {
    /// To `Keygen`: the signing key, 4n bytes, of which the last 2n are the verifying key.
    Key(ByteString),
    /// To `Sign`: the signature.
    Signature(ByteString),
    /// To `Verify`: the signature leads to the key's root.
    Accepted,
    /// To `Audit`: whether the key made the signature, and evidence where it did not.
    Verdict(Verdict),
    /// To `Check`: whether the evidence shows.
    Shown(bool),
}

/// Why a job was refused. Where several causes stand together, the first in this order is answered.
#[derive(Clone, Copy, Debug, PartialEq, Eq)]
pub enum Error {
    /// A seed, a key or a signature doesn't have the number of bytes that the set asks for.
    Length,
    /// The context has more than 255 bytes.
    ContextTooLong,
    /// A `randomizer` was given that doesn't have n bytes.
    RandomizerLength,
    /// The message has more than 2^60 bytes.
    MessageTooLong,
    /// The signing key's root isn't that of its seeds. Only `Audit` asks for it.
    KeyMismatch,
    /// The signature doesn't lead to the key's root.
    Invalid,
    /// There was no memory for the answer's bytes. Only `Keygen` and `Sign` need any.
    Memory,
}
