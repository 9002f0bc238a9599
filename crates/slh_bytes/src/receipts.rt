//! Receipts of messages that were signed together, also under the head of their batch.
ghost use Rattle.std.specs.Prelude.{IfOk};
ghost use Rattle.slh_bytes.specs.Receipts.{IsPlaceOf, receipt_refusal, under_head_refusal};
ghost use Rattle.slh_sets.specs.Sets.{scheme_for};
ghost use Rattle.slh_core.specs.Refusals.{RefusedExactly};

use slh_batch::{Head, HeadError, Place, ReceiptError, accept_receipt_under, accepted_place};
use slh_dsa::VerifyingKey;
use slh_sets::{OnSet, Set, SetSuite};

// The receipt of a message.
#[derive(Drop)]
struct Accepting<'a> {
    key: &'a [u8],
    message: &'a [u8],
    receipt: &'a [u8],
}

impl<'a> OnSet for Accepting<'a> {
    type Out = Result<Place, ReceiptError>;

    ghost gives = { λ c Z _ result. RefusedExactly result
        (receipt_refusal Z c.key.now c.message.now c.receipt.now)
        × IfOk result (IsPlaceOf c.receipt.now) };

    fn on<P: SetSuite>(self) -> Result<Place, ReceiptError> {
        let Ok(key) = VerifyingKey::<P>::try_from(self.key) else {
            return Err(ReceiptError::Form);
        };
        accepted_place(&key, self.message, self.receipt)
    }
}

/// Checks the receipt of a message under a verifying key of a set, and answers which message of how
/// many it is. `Form`; `Message`; `Invalid`: as [`slh_batch::accepted_place`] refuses it. Bytes that
/// are no key of the set are `Form`. Takes no memory.
pub fn accept_receipt(
    set: Set,
    key: &[u8],
    message: &[u8],
    receipt: &[u8],
) -> Result<Place, ReceiptError>
    ensures refusal { RefusedExactly result
        (receipt_refusal (scheme_for set) key.now message.now receipt.now) }
    ensures place { IfOk result (IsPlaceOf receipt.now) }
{
    set.run(Accepting {
        key,
        message,
        receipt,
    })
}

/// Why a receipt isn't accepted under the head of a batch, the first of the causes in this order.
#[derive(Clone, Copy, Debug, PartialEq, Eq)]
pub enum UnderHeadError {
    /// The bytes aren't opened: `Form`, they are no head of the set; `Invalid`, the key didn't sign
    /// the head.
    Head(HeadError),
    /// The receipt isn't accepted under the head that they are.
    Receipt(ReceiptError),
}

// The receipt of a message, and a head.
#[derive(Drop)]
struct AcceptingUnder<'a> {
    key: &'a [u8],
    head: &'a [u8],
    message: &'a [u8],
    receipt: &'a [u8],
}

impl<'a> OnSet for AcceptingUnder<'a> {
    type Out = Result<Place, UnderHeadError>;

    ghost gives = { λ c Z _ result. RefusedExactly result
        (under_head_refusal Z c.key.now c.head.now c.message.now c.receipt.now)
        × IfOk result (IsPlaceOf c.receipt.now) };

    fn on<P: SetSuite>(self) -> Result<Place, UnderHeadError> {
        let Ok(key) = VerifyingKey::<P>::try_from(self.key) else {
            return Err(UnderHeadError::Head(HeadError::Form));
        };
        let head = match Head::open(&key, self.head) {
            Ok(head) => head,
            Err(error) => return Err(UnderHeadError::Head(error)),
        };
        match accept_receipt_under::<P>(&head, self.message, self.receipt) {
            Ok(place) => Ok(place),
            Err(error) => Err(UnderHeadError::Receipt(error)),
        }
    }
}

/// Checks the receipt of a message under the head of a batch, which a verifying key of a set has to
/// have signed, and answers which message of how many it is. The receipt's own signature isn't
/// looked at. `Head`: as [`Head::open`] refuses the bytes, and `Form` where the key is none of the
/// set; `Receipt`: as [`slh_batch::accept_receipt_under`] refuses it. Takes no memory.
pub fn accept_receipt_under_head(
    set: Set,
    key: &[u8],
    head: &[u8],
    message: &[u8],
    receipt: &[u8],
) -> Result<Place, UnderHeadError>
    ensures refusal { RefusedExactly result
        (under_head_refusal (scheme_for set) key.now head.now message.now receipt.now) }
    ensures place { IfOk result (IsPlaceOf receipt.now) }
{
    set.run(AcceptingUnder {
        key,
        head,
        message,
        receipt,
    })
}
