//! Batches of messages under one signature.
ghost use Rattle.std.specs.Prelude.{◌≡◌, ◌≤◌, ◌↔◌, ◌^◌, ◌++◌, ◌∷◌, [], length};
ghost use Rattle.std.specs.Prelude.{IfOk, IsTrue, OnErr, OnOk};
ghost use Rattle.std.specs.Option.{option_copied, ForSome};
ghost use Rattle.slh_frames.specs.Frames.{frame};
ghost use Rattle.slh_trees.specs.Checking.{signature_size};
ghost use Rattle.slh_trees.specs.Signing.{signature_of};
ghost use Rattle.slh_core.specs.Refusals.{RefusedExactly, RefusedOrNoMemory};
ghost use Rattle.slh_batch.specs.Calls.{empty_refusal, full_refusal, push_refusal, seal_refusal};
ghost use Rattle.slh_batch.specs.Receipts.{batch_context, batch_message};
ghost use Rattle.slh_batch.specs.Tree.{batch_leaf};
ghost use Rattle.slh_batch.specs.declared.error.BatchError.TheVariants.{Memory};

use crate::checking::{CONTEXT, ROOT_MESSAGE_LEN, root_message};
use crate::error::BatchError;
use crate::sealed::Sealed;
use merkle_tree::{DIGEST_LEN, Levels, Sha256, TreeHash};
use slh_dsa::{Message, Mode, ParameterSet, SetSizes, Signature, SigningKey, check_opt_rand};
use slh_frames::MAX_MESSAGE;
use std::alloc::{AllocError, Global};
use std::marker::{Model, PhantomData};

/// The largest number of messages of a batch, 2^20.
pub const MAX_MESSAGES: u32 = 1 << 20;

/// Messages that are to be signed together, at most [`MAX_MESSAGES`]. Clauses see it as the list of
/// their digests.
#[derive(Drop)]
pub struct Batch {
    leaves: Vec<[u8; DIGEST_LEN]>,
}

impl Model for Batch {
    ghost use Rattle.std.specs.Prelude.{List, ℕ, ◌^◌, ◌≤◌, length};

    ghost Value = { List (List ℕ) };

    ghost view = { λ b. b.leaves.items };

    ghost invariant = { λ b. length b.leaves.items ≤ 2 ^ 20 };
}

impl Batch {
    /// A batch of no messages. Takes no memory before a message is added.
    pub fn new(alloc: Global) -> Self
        ensures { result ≡ [] }
    {
        Batch {
            leaves: Vec::new(alloc),
        }
    }

    /// How many messages it holds.
    pub fn len(&self) -> usize
        ensures value { result ≡ length self.now }
        ensures few { result ≤ MAX_MESSAGES }
    {
        self.leaves.len()
    }

    /// Whether it holds none.
    pub fn is_empty(&self) -> bool
        ensures { IsTrue result ↔ (length self.now ≡ 0) }
    {
        self.leaves.is_empty()
    }

    /// Whether it holds as many as it may.
    pub fn is_full(&self) -> bool
        ensures { IsTrue result ↔ (length self.now ≡ MAX_MESSAGES) }
    {
        self.leaves.len() >= MAX_MESSAGES as usize
    }

    /// The digests of its messages, to be kept: pushed again in their order they are this batch.
    pub fn digests(&self) -> &[[u8; DIGEST_LEN]]
        ensures { result.now ≡ self.now }
    {
        &self.leaves
    }

    /// Adds a message, which is hashed once and not kept. `Message`; `Full`; `Memory`. After a
    /// refusal the batch is as it was.
    pub fn push(&mut self, msg: &[u8]) -> Result<(), BatchError>
        ensures refusal { RefusedOrNoMemory Memory result (push_refusal self.old msg.now) }
        ensures value { OnOk result (self.new ≡ self.old ++ batch_leaf msg.now ∷ []) }
        ensures same { OnErr result (self.new ≡ self.old) }
    {
        if msg.len() > MAX_MESSAGE {
            return Err(BatchError::Message);
        }
        if self.is_full() {
            return Err(BatchError::Full);
        }
        self.push_digest(&Sha256::leaf(msg))
    }

    /// Adds a message by its digest, that of the byte 0 and the message, as [`MessageHasher`] gives
    /// it. `Full`; `Memory`. After a refusal the batch is as it was.
    ///
    /// [`MessageHasher`]: crate::MessageHasher
    pub fn push_digest(&mut self, digest: &[u8; DIGEST_LEN]) -> Result<(), BatchError>
        ensures refusal { RefusedOrNoMemory Memory result (full_refusal self.old) }
        ensures value { OnOk result (self.new ≡ self.old ++ digest.now ∷ []) }
        ensures same { OnErr result (self.new ≡ self.old) }
    {
        if self.is_full() {
            return Err(BatchError::Full);
        }
        match self.leaves.push(*digest) {
            Ok(()) => Ok(()),
            Err(_) => Err(BatchError::Memory),
        }
    }

    /// Signs the number and the root of the messages. Each node is hashed once. Where no `opt_rand`
    /// is given the public seed stands for it. `Empty`; `Randomizer`; `Memory`.
    pub fn seal<P: SetSizes>(
        self,
        alloc: Global,
        key: &SigningKey<P>,
        opt_rand: Option<&[u8]>,
    ) -> Result<Sealed<P>, BatchError>
        ensures refusal { let opt_rand = option_copied opt_rand.entry in
            RefusedOrNoMemory Memory result (seal_refusal P.scheme self opt_rand) }
        ensures leaves { IfOk result (λ sealed. sealed.leaves ≡ self) }
        ensures signature { let opt_rand = option_copied opt_rand.entry in
            let message = frame batch_context (batch_message self) in
            IfOk result (λ sealed. sealed.signature
            ≡ signature_of P.scheme key.now opt_rand message) }
    {
        let leaves = self.some_leaves()?;
        check_opt_rand::<P, BatchError>(opt_rand, BatchError::Randomizer)?;
        let levels = Levels::<Sha256>::over(leaves)?;
        let message = root_message(levels.len() as u32, levels.root());
        let signature = sign_root(alloc, key, &message, opt_rand)?;
        Ok(Sealed {
            levels,
            signature,
            set: PhantomData,
        })
    }

    /// Seals the batch again by the signature of an earlier seal of the same digests, without a
    /// key. Each node is hashed once. Whether the signature is one of these digests isn't checked:
    /// who opens [`Sealed::head`] checks it. `Empty`; `Memory`.
    pub fn with_signature<P: ParameterSet>(
        self,
        signature: Signature<P>,
    ) -> Result<Sealed<P>, BatchError>
        ensures refusal { RefusedOrNoMemory Memory result (empty_refusal self) }
        ensures leaves { IfOk result (λ sealed. sealed.leaves ≡ self) }
        ensures signature { IfOk result (λ sealed. sealed.signature ≡ signature) }
    {
        let leaves = self.some_leaves()?;
        Ok(Sealed {
            levels: Levels::over(leaves)?,
            signature: signature.into_array().into_vec(),
            set: PhantomData,
        })
    }

    // The digests, of which there are some. `Empty`.
    fn some_leaves(self) -> Result<Vec<[u8; DIGEST_LEN]>, BatchError>
        ensures refusal { RefusedExactly result (empty_refusal self) }
        ensures value { IfOk result (λ leaves. leaves.items ≡ self) }
        ensures few { IfOk result (λ leaves. length leaves.items ≤ MAX_MESSAGES) }
    {
        let leaves = self.leaves;
        if leaves.is_empty() {
            return Err(BatchError::Empty);
        }
        Ok(leaves)
    }
}

// The signature of a batch's root.
fn sign_root<P: SetSizes>(
    alloc: Global,
    key: &SigningKey<P>,
    message: &[u8; ROOT_MESSAGE_LEN],
    opt_rand: Option<&[u8]>,
) -> Result<Vec<u8>, AllocError>
    requires { ForSome (option_copied opt_rand) (λ bytes. length bytes ≡ P.N.USIZE) }
    ensures value { let opt_rand = option_copied opt_rand.entry in
        IfOk result (λ signature. signature.items
        ≡ signature_of P.scheme key.now opt_rand (frame batch_context message.now)) }
    ensures len { IfOk result (λ signature.
        length signature.items ≡ signature_size P.scheme) }
{
    let mut signature = vec![in alloc; 0u8; P::SIG_LEN]?;
    let message = Message::fitting(Mode::Pure, message, CONTEXT);
    key.sign_checked(&message, opt_rand, &mut signature);
    Ok(signature)
}
