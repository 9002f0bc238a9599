//! Batches that are signed, and where their heads and receipts go.
ghost use Rattle.std.specs.Prelude.{◌≡◌, Option, None, IfErr, IfOk, OnOk};
ghost use Rattle.std.specs.Option.{option_copied};
ghost use Rattle.slh_batch.specs.Heads.{head_of};
ghost use Rattle.slh_batch.specs.declared.error.BatchError.TheVariants.{Memory};
ghost use Rattle.slh_bytes.specs.Batches.{IsSealed, RefusedBy, Taken, TookAll, TookHead};
ghost use Rattle.slh_bytes.specs.Batches.{TookReceipt, batch_signature, sealing_refusal};
ghost use Rattle.slh_sets.specs.Sets.{scheme_for};
ghost use Rattle.slh_core.specs.Refusals.{RefusedOrNoMemory};

use slh_batch::{Batch, BatchError, Sealed};
use slh_dsa::{SetSizes, SigningKey};
use slh_sets::{OnSet, Set, SetSuite};
use std::alloc::Global;

/// What takes the head of a batch, and then the receipts in the order of its messages.
pub trait Receipts {
    /// Why the head or a receipt isn't taken.
    type Error: Drop;

    /// What it took, where it tells it.
    ghost taken: { Self → Option Taken };

    /// Takes the head, which comes once and before the receipts.
    fn take_head(&mut self, head: &[u8]) -> Result<(), Self::Error>
        ensures { OnOk result (TookHead head.now (taken self.old) (taken self.new)) };

    /// Takes the next receipt.
    fn take(&mut self, receipt: &[u8]) -> Result<(), Self::Error>
        ensures { OnOk result (TookReceipt receipt.now (taken self.old) (taken self.new)) };
}

/// Why not all of a batch was taken.
#[derive(Drop)]
pub enum SealError<E> {
    /// The batch isn't signed, or there was no memory for its head or a receipt.
    Batch(BatchError),
    /// The head or a receipt wasn't taken.
    Receipts(E),
}

// A batch that is to be signed.
#[derive(Drop)]
struct Sealing<'a, R> {
    alloc: Global,
    key: &'a [u8],
    batch: Batch,
    opt_rand: Option<&'a [u8]>,
    receipts: R,
}

// Hands out the head of a signed batch.
fn hand_out_head<P: SetSizes, R: Receipts>(
    alloc: Global,
    sealed: &Sealed<P>,
    receipts: &mut R,
) -> Result<(), SealError<R::Error>>
    ensures refused { IfErr result (RefusedBy None) }
    ensures taken { OnOk result (TookHead (head_of sealed.now.leaves sealed.now.signature)
        (R.taken receipts.old) (R.taken receipts.new)) }
{
    let head = match sealed.head(alloc) {
        Ok(head) => head,
        Err(error) => return Err(SealError::Batch(BatchError::from(error))),
    };
    match receipts.take_head(&head) {
        Ok(()) => Ok(()),
        Err(error) => Err(SealError::Receipts(error)),
    }
}

// Hands out the head of a signed batch, and each receipt.
fn hand_out<P: SetSizes, R: Receipts>(
    alloc: Global,
    sealed: &Sealed<P>,
    receipts: &mut R,
) -> Result<(), SealError<R::Error>>
    ensures refused { IfErr result (RefusedBy None) }
    ensures taken { OnOk result (TookAll sealed.now.leaves sealed.now.signature
        (R.taken receipts.old) (R.taken receipts.new)) }
{
    hand_out_head(alloc, sealed, receipts)?;
    'each_message: for i in 0..sealed.len() {
        let receipt = match sealed.receipt(alloc, i as u32) {
            Ok(receipt) => receipt,
            Err(error) => return Err(SealError::Batch(error)),
        };
        if let Err(error) = receipts.take(&receipt) {
            return Err(SealError::Receipts(error));
        }
    }
    Ok(())
}

// Signs a batch by the bytes of a key.
fn sealed_by<P: SetSizes>(
    alloc: Global,
    key: &[u8],
    batch: Batch,
    opt_rand: Option<&[u8]>,
) -> Result<Sealed<P>, BatchError>
    ensures refusal { let opt_rand = option_copied opt_rand.entry in
        RefusedOrNoMemory Memory result (sealing_refusal P.scheme key.now batch opt_rand) }
    ensures leaves { IfOk result (λ sealed. sealed.leaves ≡ batch) }
    ensures signature { let opt_rand = option_copied opt_rand.entry in
        IfOk result (λ sealed. sealed.signature
        ≡ batch_signature P.scheme key.now opt_rand batch) }
{
    let Ok(key) = SigningKey::<P>::try_from(key) else {
        return Err(BatchError::Memory);
    };
    batch.seal(alloc, &key, opt_rand)
}

impl<'a, R: Receipts + Drop> OnSet for Sealing<'a, R> {
    type Out = Result<R, SealError<R::Error>>;

    ghost gives = { λ c Z _ result. let opt_rand = option_copied c.opt_rand in
        IfErr result (RefusedBy (sealing_refusal Z c.key.now c.batch opt_rand))
        × IfOk result (λ after. IsSealed Z c.key.now opt_rand c.batch
        (R.taken c.receipts) (R.taken after)) };

    fn on<P: SetSuite>(mut self) -> Result<R, SealError<R::Error>> {
        let sealed = match sealed_by::<P>(self.alloc, self.key, self.batch, self.opt_rand) {
            Ok(sealed) => sealed,
            Err(error) => return Err(SealError::Batch(error)),
        };
        hand_out(self.alloc, &sealed, &mut self.receipts)?;
        Ok(self.receipts)
    }
}

/// Signs a batch by a signing key of a set, as [`Batch::seal`] does, and hands out its head and
/// then the receipt of each message, in order. Answers their taker. `Batch`: `Empty`, `Randomizer`
/// or `Memory`, which bytes that are no key of the set are too; `Receipts`: the head or a receipt
/// wasn't taken, and what comes behind it wasn't handed out.
pub fn seal_batch<R: Receipts + Drop>(
    alloc: Global,
    set: Set,
    key: &[u8],
    batch: Batch,
    opt_rand: Option<&[u8]>,
    receipts: R,
) -> Result<R, SealError<R::Error>>
    ensures refused { let opt_rand = option_copied opt_rand.entry in
        IfErr result (RefusedBy (sealing_refusal (scheme_for set) key.now batch opt_rand)) }
    ensures sealed { let opt_rand = option_copied opt_rand.entry in
        IfOk result (λ after. IsSealed (scheme_for set) key.now opt_rand batch
        (R.taken receipts) (R.taken after)) }
{
    set.run(Sealing {
        alloc,
        key,
        batch,
        opt_rand,
        receipts,
    })
}
