//! A batch that `slh_bytes` seals, its head and its receipts.
use crate::keys::{SET, signing, verifying};
use crate::shown::shows;
use slh_batch::{Batch, Place};
use slh_bytes::{Receipts, SealError, accept_receipt, accept_receipt_under_head, seal_batch};
use std::alloc::{AllocError, Global};

// The head that comes first, and receipts, up to so many.
#[derive(Drop)]
struct Kept {
    alloc: Global,
    head: Vec<u8>,
    receipts: Vec<Vec<u8>>,
    most: usize,
}

impl Receipts for Kept {
    ghost use Rattle.std.specs.Prelude.{None};

    type Error = AllocError;

    ghost taken = { λ _. None };

    fn take_head(&mut self, head: &[u8]) -> Result<(), AllocError> {
        if !self.head.is_empty() || !self.receipts.is_empty() {
            return Err(AllocError);
        }
        self.head = head.to_vec(self.alloc)?;
        Ok(())
    }

    fn take(&mut self, receipt: &[u8]) -> Result<(), AllocError> {
        if self.receipts.len() >= self.most {
            return Err(AllocError);
        }
        self.receipts.push(receipt.to_vec(self.alloc)?)?;
        Ok(())
    }
}

fn taker(alloc: Global, most: usize) -> Kept {
    Kept {
        alloc,
        head: Vec::new(alloc),
        receipts: Vec::new(alloc),
        most,
    }
}

// The head and the receipts of two messages, of which so many are kept.
fn sealed(alloc: Global, most: usize) -> Option<Result<Kept, SealError<AllocError>>> {
    let mut batch = Batch::new(alloc);
    batch.push(b"first").ok()?;
    batch.push(b"second").ok()?;
    Some(seal_batch(alloc, SET, &signing()?, batch, None, taker(alloc, most)))
}

// The number of messages, and the root over them, by Python's hashlib.
const HEAD: &str = "000000023ae5bfa57ffa769d9634a86f3a26286aa69fd50ea0585f8061f902ad5f0327f7";

fn is_head(head: &[u8]) -> Option<bool> {
    let mut front = [0u8; 36];
    hex::decode_to_slice(HEAD, &mut front).ok()?;
    Some(head.starts_with(&front) && head.len() == 36 + 17_088)
}

// Whether a message is accepted by its receipt, alone and under the head.
fn is_accepted(kept: &Kept, i: u32, message: &[u8]) -> Option<bool> {
    let (key, receipt) = (verifying()?, kept.receipts.get(i as usize)?);
    let place = Place { index: i, count: 2 };
    Some(
        accept_receipt(SET, &key, message, receipt) == Ok(place)
            && accept_receipt_under_head(SET, &key, &kept.head, message, receipt) == Ok(place),
    )
}

fn are_accepted(alloc: Global) -> Option<bool> {
    let kept = sealed(alloc, 2)?.ok()?;
    Some(
        is_head(&kept.head)?
            && is_accepted(&kept, 0, b"first")?
            && is_accepted(&kept, 1, b"second")?,
    )
}

#[test]
fn a_batch_has_the_head_of_another_program_and_its_receipts(rt: HostRuntime) {
    shows(&rt, are_accepted(rt.alloc()) == Some(true));
}

#[test]
fn a_taker_may_refuse_a_receipt(rt: HostRuntime) {
    shows(
        &rt,
        matches!(sealed(rt.alloc(), 1), Some(Err(SealError::Receipts(_)))),
    );
}
