//! Heads of batches, which are verified once, and messages that are checked under them.
ghost use Rattle.std.specs.Prelude.{◌≡◌, ◌≤◌, ◌&&◌, ◌==◌, ◌^◌, length, nat_le, nat_lt, true};
ghost use Rattle.std.specs.Prelude.{IfOk, IfSome, is_some};
ghost use Rattle.slh_trees.specs.Checking.{signature_size};
ghost use Rattle.slh_core.specs.Refusals.{RefusedExactly};
ghost use Rattle.slh_batch.specs.Calls.{digest_under_error, led_refusal, open_error};
ghost use Rattle.slh_batch.specs.Calls.{receipt_under_error, under_error};
ghost use Rattle.slh_batch.specs.Heads.{has_head_form, head_in, unsigned_head};
ghost use Rattle.slh_batch.specs.Receipts.{path_len as spec_path_len, receipt_count, receipt_index};

use crate::batch::MAX_MESSAGES;
use crate::checking::{CONTEXT, Place, ROOT_MESSAGE_LEN, root_message};
use crate::error::{HeadError, ReceiptError};
use crate::parts::{number_at, parts_of};
use merkle_tree::{DIGEST_LEN, Sha256, TreeHash, path_len, path_root};
use slh_dsa::{Message, Mode, SetSizes, VerifyingKey};
use slh_frames::MAX_MESSAGE;
use std::marker::Model;

/// What is signed for a batch, and the signature: read by `open`, which verifies it, or had again by
/// `reopen`, which doesn't. Clauses see it as its number of messages, its root and its signature.
#[derive(Drop)]
pub struct Head<'a> {
    count: u32,
    root: [u8; DIGEST_LEN],
    signature: &'a [u8],
}

impl<'a> Model for Head<'a> {
    ghost use Rattle.std.specs.Prelude.{◌≤◌, ◌^◌};
    ghost use Rattle.slh_batch.specs.Heads.{BatchHead};

    ghost Value = { BatchHead };

    ghost view = { λ h. record { count = h.count; root = h.root; signature = h.signature.now } };

    ghost invariant = { λ h. (1 ≤ h.count) × (h.count ≤ 2 ^ 20) };
}

// What a head says, before its signature is verified. `None`: the form isn't right.
fn read_head<P: SetSizes>(bytes: &[u8]) -> Option<Head<'_>>
    ensures form { is_some result ≡ has_head_form P.scheme bytes.now }
    ensures head { IfSome result (λ head. head ≡ head_in bytes.now) }
    ensures sig_len { IfSome result (λ head. length head.signature ≡ signature_size P.scheme) }
{
    if bytes.len() < ROOT_MESSAGE_LEN {
        return None;
    }
    let (signed, signature) = bytes.split_at(ROOT_MESSAGE_LEN);
    let count = number_at(signed, 0);
    if count == 0 || count > MAX_MESSAGES || signature.len() != P::SIG_LEN {
        return None;
    }
    let mut root = [0u8; DIGEST_LEN];
    root.copy_from_slice(&signed[4..]);
    Some(Head {
        count,
        root,
        signature,
    })
}

impl<'a> Head<'a> {
    /// Reads a batch's head and verifies its signature, once. `Form`; `Invalid`. Takes no memory.
    pub fn open<P: SetSizes>(vk: &VerifyingKey<P>, bytes: &'a [u8]) -> Result<Self, HeadError>
        ensures refusal { RefusedExactly result (open_error P.scheme vk.now bytes.now) }
        ensures head { IfOk result (λ head. head ≡ head_in bytes.now) }
    {
        let Some(head) = read_head::<P>(bytes) else {
            return Err(HeadError::Form);
        };
        let message = root_message(head.count, &head.root);
        let message = Message::fitting(Mode::Pure, &message, CONTEXT);
        if !vk.is_valid(&message, head.signature) {
            return Err(HeadError::Invalid);
        }
        Ok(head)
    }

    /// A head again that `open` accepted, by what it says and without its signature, for a caller
    /// that keeps these and no borrow of the bytes. It verifies nothing. `None`: no batch has so
    /// many messages.
    pub fn reopen(count: u32, root: &[u8; DIGEST_LEN]) -> Option<Self>
        ensures some { is_some result ≡ (nat_le 1 count && nat_le count (2 ^ 20)) }
        ensures head { IfSome result (λ head. head ≡ unsigned_head count root.now) }
    {
        if count == 0 || count > MAX_MESSAGES {
            return None;
        }
        Some(Head {
            count,
            root: *root,
            signature: &[],
        })
    }

    /// How many messages the batch has.
    pub fn count(&self) -> u32
        ensures value { result ≡ self.now.count }
        ensures some { 1 ≤ result }
        ensures few { result ≤ MAX_MESSAGES }
    {
        self.count
    }

    /// The root over their digests.
    pub fn root(&self) -> &[u8; DIGEST_LEN]
        ensures { result.now ≡ self.now.root }
    {
        &self.root
    }

    /// The signature of both, as each receipt has it.
    pub fn signature(&self) -> &'a [u8]
        ensures { result.now ≡ self.now.signature }
    {
        self.signature
    }

    // Whether there is such a message, and its path has so many digests.
    fn has_place(&self, index: u32, path: &[[u8; DIGEST_LEN]]) -> bool
        ensures { result ≡ (nat_lt index self.now.count
            && length path.now == spec_path_len index self.now.count) }
    {
        index < self.count && path.len() == path_len(u64::from(index), u64::from(self.count))
    }

    // Checks that a path, which fits its place, leads from a digest to the root. `Invalid`.
    fn check_led(
        &self,
        digest: &[u8; DIGEST_LEN],
        index: u32,
        path: &[[u8; DIGEST_LEN]],
    ) -> Result<(), ReceiptError>
        requires { (nat_lt index self.now.count
            && length path.now == spec_path_len index self.now.count) ≡ true }
        ensures { RefusedExactly result (led_refusal self.now digest.now index path.now) }
    {
        let root = path_root::<Sha256>(u64::from(index), u64::from(self.count), digest, path);
        if root != self.root {
            return Err(ReceiptError::Invalid);
        }
        Ok(())
    }
}

/// Checks by a path that message `index` of a batch is `msg`, under a head, as [`accept`] checks
/// the receipt of these and the head's signature, which isn't verified again: the law
/// [`heads_stand_for_receipts`] says how the answers go together. `Form`: the batch has no such
/// message, or the path is too long or too short for it; `Message`; `Invalid`: the path leads to
/// another root. Hashes the message, and once for each digest of the path. Takes no memory.
///
/// [`accept`]: crate::accept
/// [`heads_stand_for_receipts`]: crate::laws::heads_stand_for_receipts
pub fn accept_under(
    head: &Head<'_>,
    msg: &[u8],
    index: u32,
    path: &[[u8; DIGEST_LEN]],
) -> Result<(), ReceiptError>
    ensures { RefusedExactly result (under_error head.now msg.now index path.now) }
{
    if !head.has_place(index, path) {
        return Err(ReceiptError::Form);
    }
    if msg.len() > MAX_MESSAGE {
        return Err(ReceiptError::Message);
    }
    head.check_led(&Sha256::leaf(msg), index, path)
}

/// As [`accept_under`], for a message by its digest, that of the byte 0 and the message. `Form`;
/// `Invalid`.
pub fn accept_digest_under(
    head: &Head<'_>,
    digest: &[u8; DIGEST_LEN],
    index: u32,
    path: &[[u8; DIGEST_LEN]],
) -> Result<(), ReceiptError>
    ensures { RefusedExactly result (digest_under_error head.now digest.now index path.now) }
{
    if !head.has_place(index, path) {
        return Err(ReceiptError::Form);
    }
    head.check_led(digest, index, path)
}

/// As [`accept_under`], by the whole receipt of a message, and answers which message of how many it
/// is. The receipt's own signature isn't looked at: the law [`receipts_stand_for_paths`] says what
/// is accepted so. `Form`; `Message`; `Invalid`: the receipt is for another number of messages than
/// the head's, or leads to another root. Takes no memory.
///
/// [`receipts_stand_for_paths`]: crate::laws::receipts_stand_for_paths
pub fn accept_receipt_under<P: SetSizes>(
    head: &Head<'_>,
    msg: &[u8],
    receipt: &[u8],
) -> Result<Place, ReceiptError>
    ensures refusal { RefusedExactly result
        (receipt_under_error P.scheme head.now msg.now receipt.now) }
    ensures index { IfOk result (λ place. place.index ≡ receipt_index receipt.now) }
    ensures count { IfOk result (λ place. place.count ≡ receipt_count receipt.now) }
{
    let Some(parts) = parts_of::<P>(receipt) else {
        return Err(ReceiptError::Form);
    };
    if msg.len() > MAX_MESSAGE {
        return Err(ReceiptError::Message);
    }
    if parts.count != head.count {
        return Err(ReceiptError::Invalid);
    }
    head.check_led(&Sha256::leaf(msg), parts.index, parts.path)?;
    Ok(Place {
        index: parts.index,
        count: parts.count,
    })
}
