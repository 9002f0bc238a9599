//! What is signed for a message with a context: the message as it is, or its digest (FIPS 205,
//! algorithms 22 and 23).
//!
//! A [`Message`] is a [`Mode`], a context of at most [`MAX_CONTEXT`] bytes, and a message of at most
//! [`MAX_MESSAGE`] or its digest: it is made once, with its refusals, and is what keys sign and
//! verify. A [`Frame`] has what is signed as three slices, which joined are the bytes that signing
//! and verifying hash. Where a message comes in pieces, a [`Tail`] takes them. None of these takes
//! memory.
#![tactic(auto)]

pub mod clones;
mod frame;
pub mod laws;
mod message;
pub mod pieces;

pub use frame::{Frame, Mode, SHA256_IDENTIFIER, SHA512_IDENTIFIER, head_of};
pub use message::{
    MAX_CONTEXT, MAX_MESSAGE, Message, MessageError, check_context, check_digest, check_message,
};
pub use pieces::Tail;
