//! The examples of the page of `slh_batch`.
use crate::keys_128f::{key, public};
use crate::shown::shows;
use slh_batch::{Batch, BatchError, Head, HeadError, ReceiptError, Sealed, accept, accept_under};
use slh_dsa::{Sha2_128f, SigningKey, VerifyingKey};
use std::alloc::Global;

const MESSAGES: [&[u8]; 2] = [b"an entry", b"another"];

fn receipt_of_second(
    alloc: Global,
    key: &SigningKey<Sha2_128f>,
    messages: &[&[u8]],
) -> Result<Vec<u8>, BatchError> {
    let mut batch = Batch::new(alloc);
    for message in messages {
        batch.push(message)?;
    }
    let sealed = batch.seal(alloc, key, None)?;
    sealed.receipt(alloc, 1)
}

fn accepted(
    key: &VerifyingKey<Sha2_128f>,
    message: &[u8],
    receipt: &[u8],
) -> Result<(), ReceiptError> {
    accept(key, message, receipt)
}

// Whether a receipt of the second of two messages is accepted for it alone.
fn is_of_second(key: &VerifyingKey<Sha2_128f>, receipt: &[u8]) -> bool {
    accepted(key, b"an entry", receipt) == Err(ReceiptError::Invalid)
        && accepted(key, b"another", receipt) == Ok(())
}

fn runs(alloc: Global) -> bool {
    match receipt_of_second(alloc, &key(3), &MESSAGES) {
        Ok(receipt) => is_of_second(&public(3), &receipt),
        Err(_) => false,
    }
}

#[test]
fn example_of_the_page_of_batches(rt: HostRuntime) {
    shows(&rt, runs(rt.alloc()));
}

#[derive(Drop)]
struct Entry<'a> {
    index: u32,
    message: &'a [u8],
    path: &'a [[u8; 32]],
}

fn are_accepted(
    key: &VerifyingKey<Sha2_128f>,
    head: &[u8],
    entries: &[Entry<'_>],
) -> Result<bool, HeadError> {
    let head = Head::open(key, head)?;
    for entry in entries {
        if accept_under(&head, entry.message, entry.index, entry.path).is_err() {
            return Ok(false);
        }
    }
    Ok(true)
}

/// A batch of some messages.
pub(crate) fn batch_of(alloc: Global, messages: &[&[u8]]) -> Result<Batch, BatchError> {
    let mut batch = Batch::new(alloc);
    for message in messages {
        batch.push(message)?;
    }
    Ok(batch)
}

/// The same, sealed.
pub(crate) fn sealed(alloc: Global, messages: &[&[u8]]) -> Result<Sealed<Sha2_128f>, BatchError> {
    batch_of(alloc, messages)?.seal(alloc, &key(3), None)
}

fn entry_of<'a>(index: u32, message: &'a [u8], path: &'a [[u8; 32]]) -> Entry<'a> {
    Entry {
        index,
        message,
        path,
    }
}

// Whether two entries are accepted under a head, and not the first one twice.
fn accepts_both(head: &[u8], first: &[[u8; 32]], second: &[[u8; 32]]) -> bool {
    are_accepted(
        &public(3),
        head,
        &[
            entry_of(0, b"an entry", first),
            entry_of(1, b"another", second),
        ],
    ) == Ok(true)
        && are_accepted(
            &public(3),
            head,
            &[
                entry_of(0, b"an entry", first),
                entry_of(1, b"an entry", second),
            ],
        ) == Ok(false)
}

fn runs_under_a_head(alloc: Global) -> Result<bool, BatchError> {
    let sealed = sealed(alloc, &MESSAGES)?;
    let head = sealed.head(alloc)?;
    let first = sealed.path(alloc, 0)?;
    let second = sealed.path(alloc, 1)?;
    Ok(accepts_both(&head, &first, &second))
}

#[test]
fn example_of_heads_of_the_page_of_batches(rt: HostRuntime) {
    shows(&rt, runs_under_a_head(rt.alloc()) == Ok(true));
}
