//! Verifying keys (FIPS 205, section 9.1).
ghost use Rattle.std.specs.Prelude.{◌≡◌, ◌≢◌, ◌≤◌, ◌+◌, ◌*◌, ◌^◌, ◌++◌, length, IfOk, IfErr, OnOk};
ghost use Rattle.std.specs.Prelude.{◌&&◌};
ghost use Rattle.slh_core.specs.Costs.{slh_verify_bound};
ghost use Rattle.slh_core.specs.Steps.{IsFresh};
ghost use Rattle.slh_core.specs.Bytes.{part};
ghost use Rattle.slh_dsa.specs.Calls.{hash_verify_error, leads_to_root, verify_message_error};
ghost use Rattle.slh_dsa.specs.Calls.{root_refusal, verify_error};
ghost use Rattle.slh_dsa.specs.Calls.{verify_internal_error, verify_refusal};
ghost use Rattle.slh_dsa.specs.Calls.{verifying_key_refusal};
ghost use Rattle.slh_frames.specs.Messages.{joined, whole_message};
ghost use Rattle.slh_trees.specs.Checking.{signature_size};
ghost use Rattle.slh_core.specs.Refusals.{RefusedExactly};
ghost use Rattle.slh_dsa.specs.declared.error.Error.TheVariants.{Invalid};

use crate::checks::{check_signature, zeros};
use crate::error::Error;
use crate::parameter_set::{ParameterSet, SetSizes};
use crate::signature::Signature;
use slh_core::array::{Array, ArraySize};
use slh_core::nbytes::NBytes;
use slh_core::params::{MAX_MESSAGE_LEN, chain_sizes};
use slh_core::steps::Steps;
use slh_frames::{Frame, Message, Mode, check_context, check_message};
use slh_trees::{SigView, check_root};
use std::alloc::{AllocError, Global};
use std::marker::{Brand, Model};
use std::sync::ledger::{Blank, Ledger};

/// A verifying key: the public seed and the root of the top tree, of n bytes each. Clauses see it
/// as these 2n bytes.
#[derive(Drop)]
pub struct VerifyingKey<P: SetSizes> {
    pub(crate) pk_seed: NBytes<P::N>,
    pub(crate) pk_root: NBytes<P::N>,
}

impl<P: SetSizes> Model for VerifyingKey<P> {
    ghost use Rattle.std.specs.Prelude.{◌≡◌, ℕ, List, ◌++◌, length};

    ghost Value = { List ℕ };

    ghost view = { λ k. k.pk_seed ++ k.pk_root };

    ghost invariant = { λ k. (length k.pk_seed ≡ P.N.USIZE) × (length k.pk_root ≡ P.N.USIZE) };
}

impl<P: SetSizes> VerifyingKey<P> {
    /// The key of 2n bytes. `Length`: there are fewer or more.
    pub fn try_from(bytes: &[u8]) -> Result<Self, Error>
        ensures refusal { RefusedExactly result (verifying_key_refusal P.scheme bytes.now) }
        ensures value { IfOk result (λ key. key ≡ bytes.now) }
    {
        chain_sizes::<P>();
        let n = P::N::USIZE;
        if bytes.len() != 2 * n {
            return Err(Error::Length);
        }
        let (seed, root) = bytes.split_at(n);
        Ok(VerifyingKey {
            pk_seed: NBytes::exact(seed),
            pk_root: NBytes::exact(root),
        })
    }

    /// Verifies the bytes of a signature of a message with a context (FIPS 205, algorithm 24),
    /// where they stand. `Length`: they aren't as many as a signature has; `ContextTooLong`,
    /// `MessageTooLong`; `Invalid`: they don't lead to the key's root.
    pub fn slh_verify_counted<L: Ledger>(
        &self,
        msg: &[u8],
        ctx: &[u8],
        sig: &[u8],
        steps: &mut Steps<L>,
    ) -> Result<(), Error>
        ensures value { RefusedExactly result
            (verify_error P.scheme self.now ctx.now msg.now sig.now) }
        ensures bound { steps.new ≤ steps.old + slh_verify_bound P.scheme }
        ensures rises { steps.old ≤ steps.new }
        ensures free { IfErr result (λ e. e ≢ Invalid → steps.new ≡ steps.old) }
    {
        self.hash_verify_counted(Mode::Pure, msg, ctx, sig, steps)
    }

    /// As `slh_verify_counted`, where the message or its digest was signed, as the mode says
    /// (FIPS 205, algorithms 24 and 25).
    pub fn hash_verify_counted<L: Ledger>(
        &self,
        mode: Mode,
        msg: &[u8],
        ctx: &[u8],
        sig: &[u8],
        steps: &mut Steps<L>,
    ) -> Result<(), Error>
        ensures value { RefusedExactly result
            (hash_verify_error P.scheme mode self.now ctx.now msg.now sig.now) }
        ensures bound { steps.new ≤ steps.old + slh_verify_bound P.scheme }
        ensures rises { steps.old ≤ steps.new }
        ensures free { IfErr result (λ e. e ≢ Invalid → steps.new ≡ steps.old) }
    {
        let message = Self::message(mode, msg, ctx, sig)?;
        self.verify_frame(&Frame::of(&message), sig, steps)
    }

    /// As `hash_verify_counted`, without a counter. Takes no memory.
    pub fn hash_verify(&self, mode: Mode, msg: &[u8], ctx: &[u8], sig: &[u8]) -> Result<(), Error>
        ensures { RefusedExactly result
            (hash_verify_error P.scheme mode self.now ctx.now msg.now sig.now) }
    {
        let message = Self::message(mode, msg, ctx, sig)?;
        self.verify_frame_on::<Brand>(&Frame::of(&message), sig, Blank::new(1))
    }

    /// The message that a signature is of: `Length`, `ContextTooLong`, `MessageTooLong`.
    pub fn message<'a>(
        mode: Mode,
        msg: &'a [u8],
        ctx: &'a [u8],
        sig: &[u8],
    ) -> Result<Message<'a>, Error>
        ensures refusal { RefusedExactly result
            (verify_refusal P.scheme ctx.now msg.now sig.now) }
        ensures value { IfOk result (λ m. m ≡ whole_message mode ctx.now msg.now) }
        ensures sig { OnOk result (length sig.now ≡ signature_size P.scheme) }
    {
        check_signature::<P>(sig.len())?;
        check_context(ctx, Error::ContextTooLong)?;
        check_message(msg, Error::MessageTooLong)?;
        Ok(Message::fitting(mode, msg, ctx))
    }

    /// Verifies the bytes of a signature of a message, where they stand. `Length`: they aren't as
    /// many as a signature has; `Invalid`: they don't lead to the key's root.
    pub fn verify_message_counted<L: Ledger>(
        &self,
        message: &Message<'_>,
        sig: &[u8],
        steps: &mut Steps<L>,
    ) -> Result<(), Error>
        ensures value { RefusedExactly result
            (verify_message_error P.scheme self.now (joined message.now) sig.now) }
        ensures bound { steps.new ≤ steps.old + slh_verify_bound P.scheme }
        ensures rises { steps.old ≤ steps.new }
        ensures free { IfErr result (λ e. e ≢ Invalid → steps.new ≡ steps.old) }
    {
        check_signature::<P>(sig.len())?;
        self.verify_frame(&Frame::of(message), sig, steps)
    }

    // Verifies a signature of what is signed. `Invalid`.
    fn verify_frame<L: Ledger>(
        &self,
        frame: &Frame<'_>,
        sig: &[u8],
        steps: &mut Steps<L>,
    ) -> Result<(), Error>
        requires sig { length sig.now ≡ signature_size P.scheme }
        requires fits { length frame.now.head + length frame.now.ctx + length frame.now.tail
            ≤ MAX_MESSAGE_LEN }
        ensures value { RefusedExactly result
            (root_refusal P.scheme self.now (joined frame.now) sig.now) }
        ensures only { IfErr result (λ e. e ≡ Invalid) }
        ensures bound { steps.new ≤ steps.old + slh_verify_bound P.scheme }
        ensures rises { steps.old ≤ steps.new }
    {
        let sig = SigView::exact(sig);
        self.verify_slices(frame.head(), frame.ctx(), frame.tail(), &sig, steps)
    }

    // Verifies a signature of the message that the three slices joined are. `Invalid`.
    fn verify_slices<L: Ledger>(
        &self,
        head: &[u8],
        ctx: &[u8],
        msg: &[u8],
        sig: &SigView<'_, P>,
        steps: &mut Steps<L>,
    ) -> Result<(), Error>
        requires { length head.now + length ctx.now + length msg.now ≤ MAX_MESSAGE_LEN }
        ensures value { let message = head.now ++ ctx.now ++ msg.now in
            RefusedExactly result (root_refusal P.scheme self.now message sig.now) }
        ensures only { IfErr result (λ e. e ≡ Invalid) }
        ensures bound { steps.new ≤ steps.old + slh_verify_bound P.scheme }
        ensures rises { steps.old ≤ steps.new }
    {
        let root = check_root::<P, L>(&self.pk_seed, &self.pk_root, head, ctx, msg, sig, steps);
        if root.as_slice() != self.pk_root.as_slice() {
            return Err(Error::Invalid);
        }
        Ok(())
    }

    /// As `verify_message_counted`, without a counter. Takes no memory.
    pub fn verify_message(&self, message: &Message<'_>, sig: &[u8]) -> Result<(), Error>
        ensures { RefusedExactly result
            (verify_message_error P.scheme self.now (joined message.now) sig.now) }
    {
        check_signature::<P>(sig.len())?;
        self.verify_frame_on::<Brand>(&Frame::of(message), sig, Blank::new(1))
    }

    /// As `hash_verify_counted`, without a counter, and with the message hashed block by block where
    /// it is signed by its digest: for programs that are to be small.
    pub fn verify_small(&self, mode: Mode, msg: &[u8], ctx: &[u8], sig: &[u8]) -> Result<(), Error>
        ensures { RefusedExactly result
            (hash_verify_error P.scheme mode self.now ctx.now msg.now sig.now) }
    {
        let message = Self::message(mode, msg, ctx, sig)?;
        self.verify_frame_on::<Brand>(&Frame::small(&message), sig, Blank::new(1))
    }

    /// The same in the mode `Pure`, without the code of the other modes.
    pub fn verify_pure(&self, msg: &[u8], ctx: &[u8], sig: &[u8]) -> Result<(), Error>
        ensures { RefusedExactly result (verify_error P.scheme self.now ctx.now msg.now sig.now) }
    {
        check_signature::<P>(sig.len())?;
        check_context(ctx, Error::ContextTooLong)?;
        check_message(msg, Error::MessageTooLong)?;
        self.verify_frame_on::<Brand>(&Frame::pure(ctx, msg), sig, Blank::new(1))
    }

    // Verifies a signature of what is signed, on a counter that is made here.
    fn verify_frame_on<L: Ledger>(
        &self,
        frame: &Frame<'_>,
        sig: &[u8],
        blank: Blank,
    ) -> Result<(), Error>
        requires sig { length sig.now ≡ signature_size P.scheme }
        requires fits { length frame.now.head + length frame.now.ctx + length frame.now.tail
            ≤ MAX_MESSAGE_LEN }
        requires fresh { IsFresh blank L.name L.parts }
        ensures { RefusedExactly result
            (root_refusal P.scheme self.now (joined frame.now) sig.now) }
    {
        let mut steps = Steps::<L>::new(blank);
        self.verify_frame(frame, sig, &mut steps)
    }

    /// Whether the bytes of a signature lead to the key's root, for a message.
    pub fn is_valid(&self, message: &Message<'_>, sig: &[u8]) -> bool
        requires { length sig.now ≡ signature_size P.scheme }
        ensures { result ≡ leads_to_root P.scheme self.now (joined message.now) sig.now }
    {
        self.verify_message(message, sig).is_ok()
    }

    /// The public seed, of n bytes.
    pub fn pk_seed(&self) -> &NBytes<P::N>
        ensures { result.now ≡ part P.N.USIZE self.now 0 }
    {
        &self.pk_seed
    }

    /// The root of the top tree, of n bytes.
    pub fn pk_root(&self) -> &NBytes<P::N>
        ensures { result.now ≡ part P.N.USIZE self.now 1 }
    {
        &self.pk_root
    }

    /// Writes the key's 2n bytes.
    pub fn write_to(&self, out: &mut [u8])
        requires { length out.old ≡ 2 * P.N.USIZE }
        ensures { out.new ≡ self.now }
    {
        let (seed, root) = out.split_at_mut(P::N::USIZE);
        seed.copy_from_slice(self.pk_seed.as_slice());
        root.copy_from_slice(self.pk_root.as_slice());
    }

    /// The key's 2n bytes, as a vector.
    pub fn to_vec(&self, alloc: Global) -> Result<Vec<u8>, AllocError>
        ensures { IfOk result (λ bytes. bytes.items ≡ self.now) }
    {
        chain_sizes::<P>();
        let mut bytes = vec![in alloc; 0u8; 2 * P::N::USIZE]?;
        self.write_to(&mut bytes);
        Ok(bytes)
    }

    /// The same key again.
    pub(crate) fn copy(&self) -> Self
        ensures { result ≡ self.now }
    {
        VerifyingKey {
            pk_seed: self.pk_seed.copy(),
            pk_root: self.pk_root.copy(),
        }
    }
}

/// Verifying what a `Signature` holds, and keys as arrays.
impl<P: ParameterSet> VerifyingKey<P> {
    // Verifies a signature of the message that the three slices joined are, on a counter that is
    // made here.
    fn verify_new<L: Ledger>(
        &self,
        head: &[u8],
        ctx: &[u8],
        msg: &[u8],
        signature: &Signature<P>,
        blank: Blank,
    ) -> Result<(), Error>
        requires message { length head.now + length ctx.now + length msg.now ≤ MAX_MESSAGE_LEN }
        requires fresh { IsFresh blank L.name L.parts }
        ensures { let message = head.now ++ ctx.now ++ msg.now in
            RefusedExactly result (root_refusal P.scheme self.now message signature.now) }
    {
        let mut steps = Steps::<L>::new(blank);
        self.verify_slices(head, ctx, msg, &signature.view(), &mut steps)
    }

    /// Verifies a signature of a message as it stands, without a context (FIPS 205, algorithm 20).
    /// `MessageTooLong`; `Invalid`: the signature doesn't lead to the key's root.
    pub fn slh_verify_internal(&self, msg: &[u8], signature: &Signature<P>) -> Result<(), Error>
        ensures { RefusedExactly result
            (verify_internal_error P.scheme self.now msg.now signature.now) }
    {
        check_message(msg, Error::MessageTooLong)?;
        self.verify_new::<Brand>(&[], &[], msg, signature, Blank::new(1))
    }

    /// Verifies a signature of a message with a context (FIPS 205, algorithm 24).
    /// `ContextTooLong`, `MessageTooLong`; `Invalid`: the signature doesn't lead to the key's root.
    pub fn try_verify_with_context(
        &self,
        msg: &[u8],
        ctx: &[u8],
        signature: &Signature<P>,
    ) -> Result<(), Error>
        ensures { RefusedExactly result
            (verify_error P.scheme self.now ctx.now msg.now signature.now) }
    {
        self.hash_verify_with_context(Mode::Pure, msg, ctx, signature)
    }

    /// As `try_verify_with_context`, where the message or its digest was signed, as the mode says
    /// (FIPS 205, algorithms 24 and 25). The message is the message itself in every mode.
    pub fn hash_verify_with_context(
        &self,
        mode: Mode,
        msg: &[u8],
        ctx: &[u8],
        signature: &Signature<P>,
    ) -> Result<(), Error>
        ensures { RefusedExactly result
            (hash_verify_error P.scheme mode self.now ctx.now msg.now signature.now) }
    {
        self.hash_verify(mode, msg, ctx, signature.as_slice())
    }

    /// The key of the 2n bytes of an array.
    pub fn from_array(bytes: &Array<u8, P::VkLen>) -> Self
        ensures { result ≡ bytes.now }
    {
        match Self::try_from(bytes.as_slice()) {
            Ok(key) => key,
            Err(_) => unreachable!(),
        }
    }

    /// The key's 2n bytes, as an array.
    pub fn to_bytes(&self, alloc: Global) -> Result<Array<u8, P::VkLen>, AllocError>
        ensures { IfOk result (λ bytes. bytes ≡ self.now) }
    {
        let mut bytes = zeros::<P::VkLen>(alloc)?;
        self.write_to(bytes.as_mut_slice());
        Ok(bytes)
    }
}

impl<P: SetSizes> Clone for VerifyingKey<P> {
    ghost use Rattle.std.specs.Prelude.{◌≡◌, ⊤};

    ghost is_clone = { λ key copy. copy ≡ key };

    ghost is_infallible = { λ _. ⊤ };

    fn clone(&self) -> Result<Self, AllocError> {
        Ok(self.copy())
    }
}

// Whether the first parts of two keys are equal and the others are too.
pub(crate) fn both(first: bool, rest: bool) -> bool
    ensures { result ≡ (first && rest) }
{
    first && rest
}

impl<P: SetSizes> PartialEq for VerifyingKey<P> {
    ghost use Rattle.std.specs.Prelude.{◌==◌};
    ghost use Rattle.std.specs.Cmp.Rules.{comparing};
    ghost use Rattle.std.specs.Cmp.Lexicographic.{pointwise};
    ghost use Rattle.std.proofs.Common.{rules};

    ghost eq = { pointwise ◌==◌ };

    ghost laws = { Prim.search (comparing, rules) };

    fn eq(&self, other: &Self) -> bool {
        both(self.pk_seed == other.pk_seed, self.pk_root == other.pk_root)
    }
}

impl<P: SetSizes> Eq for VerifyingKey<P> {
    ghost use Rattle.std.specs.Cmp.Rules.{comparing};
    ghost use Rattle.std.proofs.Common.{rules};

    ghost laws = { Prim.search (comparing, rules) };
}
