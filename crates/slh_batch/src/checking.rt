//! Checking receipts.
ghost use Rattle.std.specs.Prelude.{◌≡◌, length, if◌then◌else◌, None, Some, IfOk};
ghost use Rattle.slh_dsa.specs.Calls.{is_valid};
ghost use Rattle.slh_frames.specs.declared.frame.Mode.TheVariants.{Pure};
ghost use Rattle.slh_trees.specs.Checking.{signature_size};
ghost use Rattle.slh_core.specs.Refusals.{RefusedExactly};
ghost use Rattle.slh_batch.specs.Calls.{accept_digest_error, accept_error};
ghost use Rattle.slh_batch.specs.Parts.{FitsItsPlace, place_of};
ghost use Rattle.slh_batch.specs.Receipts.{batch_context, receipt_count, receipt_index};
ghost use Rattle.slh_batch.specs.Receipts.{root_message};
ghost use Rattle.slh_batch.specs.Tree.{batch_climb};
ghost use Rattle.slh_batch.specs.declared.error.ReceiptError.TheVariants.{Invalid};

use crate::error::ReceiptError;
use crate::parts::{Parts, parts_of};
use merkle_tree::{DIGEST_LEN, Sha256, TreeHash, path_root};
use slh_dsa::{Message, Mode, SetSizes, VerifyingKey};
use slh_frames::MAX_MESSAGE;

/// The context under which the root of a batch is signed.
pub const CONTEXT: &[u8] = b"slh-batch";

/// How many bytes are signed for a batch.
pub(crate) const ROOT_MESSAGE_LEN: usize = 4 + DIGEST_LEN;

/// Which message of how many a receipt is for.
#[derive(Clone, Copy, Debug, PartialEq, Eq)]
pub struct Place {
    /// The message's index, from 0.
    pub index: u32,
    /// How many messages the batch has.
    pub count: u32,
}

/// What is signed for a root over `count` digests.
pub(crate) fn root_message(count: u32, root: &[u8; DIGEST_LEN]) -> [u8; ROOT_MESSAGE_LEN]
    ensures { result ≡ root_message count root.now }
{
    let mut message = [0u8; ROOT_MESSAGE_LEN];
    message[..4].copy_from_slice(&count.to_be_bytes());
    message[4..].copy_from_slice(root);
    message
}

// Whether a signature of a batch's root is the key's. `Invalid`.
fn verify_root<P: SetSizes>(
    vk: &VerifyingKey<P>,
    message: &[u8; ROOT_MESSAGE_LEN],
    sig: &[u8],
) -> Result<(), ReceiptError>
    requires { length sig.now ≡ signature_size P.scheme }
    ensures { RefusedExactly result
        (if is_valid P.scheme Pure vk.now batch_context message.now sig.now then None
        else Some Invalid) }
{
    if !vk.is_valid(&Message::fitting(Mode::Pure, message, CONTEXT), sig) {
        return Err(ReceiptError::Invalid);
    }
    Ok(())
}

// Checks the parts of a receipt for the digest of a message. `Invalid`.
fn check_parts<P: SetSizes>(
    vk: &VerifyingKey<P>,
    leaf: &[u8; DIGEST_LEN],
    parts: &Parts<'_>,
) -> Result<Place, ReceiptError>
    requires { FitsItsPlace P.scheme parts.now }
    ensures refusal { let root
        = batch_climb leaf.now parts.now.index parts.now.count parts.now.path.now in
        let signed = root_message parts.now.count root in
        RefusedExactly result
        (if is_valid P.scheme Pure vk.now batch_context signed parts.now.sig.now then None
        else Some Invalid) }
    ensures place { IfOk result (λ place. place ≡ place_of parts.now) }
{
    let (index, count) = (u64::from(parts.index), u64::from(parts.count));
    let root = path_root::<Sha256>(index, count, leaf, parts.path);
    let message = root_message(parts.count, &root);
    verify_root(vk, &message, parts.sig)?;
    Ok(Place {
        index: parts.index,
        count: parts.count,
    })
}

/// Checks the receipt of a message under the key of its batch, and answers which message of how
/// many it is. `Form`; `Message`; `Invalid`: the signature isn't one of the number and the root that
/// the receipt leads to. Takes no memory.
pub fn accepted_place<P: SetSizes>(
    vk: &VerifyingKey<P>,
    msg: &[u8],
    receipt: &[u8],
) -> Result<Place, ReceiptError>
    ensures refusal { RefusedExactly result (accept_error P.scheme vk.now msg.now receipt.now) }
    ensures index { IfOk result (λ place. place.index ≡ receipt_index receipt.now) }
    ensures count { IfOk result (λ place. place.count ≡ receipt_count receipt.now) }
{
    let Some(parts) = parts_of::<P>(receipt) else {
        return Err(ReceiptError::Form);
    };
    if msg.len() > MAX_MESSAGE {
        return Err(ReceiptError::Message);
    }
    check_parts(vk, &Sha256::leaf(msg), &parts)
}

/// As [`accepted_place`], for a message by its digest, that of the byte 0 and the message, as
/// [`MessageHasher`] gives it. `Form`; `Invalid`.
///
/// [`MessageHasher`]: crate::MessageHasher
pub fn accept_digest<P: SetSizes>(
    vk: &VerifyingKey<P>,
    digest: &[u8; DIGEST_LEN],
    receipt: &[u8],
) -> Result<Place, ReceiptError>
    ensures refusal { RefusedExactly result
        (accept_digest_error P.scheme vk.now digest.now receipt.now) }
    ensures index { IfOk result (λ place. place.index ≡ receipt_index receipt.now) }
    ensures count { IfOk result (λ place. place.count ≡ receipt_count receipt.now) }
{
    let Some(parts) = parts_of::<P>(receipt) else {
        return Err(ReceiptError::Form);
    };
    check_parts(vk, digest, &parts)
}

/// Checks the receipt of a message under the key of its batch. `Form`; `Message`; `Invalid`: the
/// signature isn't one of the number and the root that the receipt leads to. Takes no memory.
pub fn accept<P: SetSizes>(
    vk: &VerifyingKey<P>,
    msg: &[u8],
    receipt: &[u8],
) -> Result<(), ReceiptError>
    ensures { RefusedExactly result (accept_error P.scheme vk.now msg.now receipt.now) }
{
    match accepted_place(vk, msg, receipt) {
        Ok(_) => Ok(()),
        Err(refusal) => Err(refusal),
    }
}
