//! Signing keys (FIPS 205, section 9.1).
ghost use Rattle.std.specs.Prelude.{◌≡◌, ℕ, ◌+◌, ◌*◌, ◌≤◌, List, ◌++◌, Option, length, drop};
ghost use Rattle.std.specs.Prelude.{unwrap_or, IfOk, IfErr, OnOk, OnErr};
ghost use Rattle.std.specs.Option.{option_copied, ForSome};
ghost use Rattle.slh_core.specs.Bytes.{part};
ghost use Rattle.slh_core.specs.Costs.{slh_keygen_cost, slh_sign_cost};
ghost use Rattle.slh_core.specs.Steps.{IsFresh};
ghost use Rattle.slh_trees.specs.Checking.{signature_size};
ghost use Rattle.slh_frames.specs.Frames.{frame, mode_frame};
ghost use Rattle.slh_frames.specs.Messages.{joined, whole_message};
ghost use Rattle.slh_trees.specs.Signing.{signature_of};
ghost use Rattle.slh_core.specs.Refusals.{RefusedExactly, RefusedOrNoMemory};
ghost use Rattle.slh_dsa.specs.Calls.{IsKeygenAnswer, sign_message_refusal};
ghost use Rattle.slh_dsa.specs.Calls.{sign_input_refusal, sign_internal_refusal, sign_refusal};
ghost use Rattle.slh_dsa.specs.Calls.{signing_key_refusal};
ghost use Rattle.slh_dsa.specs.declared.error.Error.TheVariants.{Memory};

use crate::checks::{check_opt_rand, check_signature, zeros};
use crate::error::Error;
use crate::parameter_set::{ParameterSet, SetSizes};
use crate::signature::Signature;
use crate::verifying_key::{VerifyingKey, both};
use slh_core::array::{Array, ArraySize};
use slh_core::nbytes::NBytes;
use slh_core::params::{MAX_MESSAGE_LEN, chain_sizes};
use slh_core::steps::Steps;
use slh_frames::{Frame, Message, Mode, check_context, check_message};
use slh_trees::sign::sign_message;
use slh_trees::top_root;
use std::alloc::{AllocError, Global};
use std::marker::{Brand, Model};
use std::sync::ledger::{Blank, Ledger};

/// A signing key: the secret seed and the PRF key, of n bytes each, and the verifying key. Clauses
/// see it as these 4n bytes.
#[derive(Drop)]
pub struct SigningKey<P: SetSizes> {
    sk_seed: NBytes<P::N>,
    sk_prf: NBytes<P::N>,
    verifying_key: VerifyingKey<P>,
}

impl<P: SetSizes> Model for SigningKey<P> {
    ghost use Rattle.std.specs.Prelude.{◌≡◌, ℕ, List, ◌++◌, ◌*◌, length};

    ghost Value = { List ℕ };

    ghost view = { λ k. k.sk_seed ++ k.sk_prf ++ k.verifying_key };

    ghost invariant = { λ k. (length k.sk_seed ≡ P.N.USIZE) × (length k.sk_prf ≡ P.N.USIZE)
        × (length k.verifying_key ≡ 2 * P.N.USIZE) };
}

impl<P: SetSizes> SigningKey<P> {
    /// The key of three seeds of n bytes each (FIPS 205, algorithm 18). `Length`: a seed has fewer
    /// or more.
    pub fn slh_keygen_internal(sk_seed: &[u8], sk_prf: &[u8], pk_seed: &[u8]) -> Result<Self, Error>
        ensures key { IsKeygenAnswer P.scheme sk_seed.now sk_prf.now pk_seed.now result }
    {
        Self::keygen_on::<Brand>(sk_seed, sk_prf, pk_seed, Blank::new(1))
    }

    // The same, on a counter that is made here.
    fn keygen_on<L: Ledger>(
        sk_seed: &[u8],
        sk_prf: &[u8],
        pk_seed: &[u8],
        blank: Blank,
    ) -> Result<Self, Error>
        requires fresh { IsFresh blank L.name L.parts }
        ensures key { IsKeygenAnswer P.scheme sk_seed.now sk_prf.now pk_seed.now result }
    {
        let mut steps = Steps::<L>::new(blank);
        Self::slh_keygen_counted(sk_seed, sk_prf, pk_seed, &mut steps)
    }

    /// As `slh_keygen_internal`, with its steps counted.
    pub fn slh_keygen_counted<L: Ledger>(
        sk_seed: &[u8],
        sk_prf: &[u8],
        pk_seed: &[u8],
        steps: &mut Steps<L>,
    ) -> Result<Self, Error>
        ensures key { IsKeygenAnswer P.scheme sk_seed.now sk_prf.now pk_seed.now result }
        ensures cost { OnOk result (steps.new ≡ steps.old + slh_keygen_cost P.scheme) }
        ensures free { OnErr result (steps.new ≡ steps.old) }
    {
        chain_sizes::<P>();
        let n = P::N::USIZE;
        if sk_seed.len() != n || sk_prf.len() != n || pk_seed.len() != n {
            return Err(Error::Length);
        }
        let sk_seed = NBytes::exact(sk_seed);
        let pk_seed = NBytes::exact(pk_seed);
        let pk_root = top_root::<P, L>(&sk_seed, &pk_seed, steps);
        Ok(SigningKey {
            sk_seed,
            sk_prf: NBytes::exact(sk_prf),
            verifying_key: VerifyingKey { pk_seed, pk_root },
        })
    }

    /// Writes the signature of a message with a context (FIPS 205, algorithm 22) into `out`. Where
    /// no `opt_rand` is given the public seed stands for it. `Length`: `out` doesn't have the bytes
    /// of a signature; `ContextTooLong`, `RandomizerLength`, `MessageTooLong`. After a refusal
    /// `out` is as it was.
    pub fn slh_sign_counted<L: Ledger>(
        &self,
        msg: &[u8],
        ctx: &[u8],
        opt_rand: Option<&[u8]>,
        out: &mut [u8],
        steps: &mut Steps<L>,
    ) -> Result<(), Error>
        ensures refusal { let opt_rand = option_copied opt_rand.entry in
            RefusedExactly result
            (sign_refusal P.scheme ctx.now opt_rand msg.now (length out.old)) }
        ensures value { let opt_rand = option_copied opt_rand.entry in
            let message = frame ctx.now msg.now in
            OnOk result (out.new ≡ signature_of P.scheme self.now opt_rand message) }
        ensures same { OnErr result (out.new ≡ out.old) }
        ensures cost { OnOk result (steps.new ≡ steps.old + slh_sign_cost P.scheme) }
        ensures free { OnErr result (steps.new ≡ steps.old) }
    {
        self.hash_sign_counted(Mode::Pure, msg, ctx, opt_rand, out, steps)
    }

    /// As `slh_sign_counted`, of the message or of its digest, as the mode says (FIPS 205,
    /// algorithms 22 and 23).
    pub fn hash_sign_counted<L: Ledger>(
        &self,
        mode: Mode,
        msg: &[u8],
        ctx: &[u8],
        opt_rand: Option<&[u8]>,
        out: &mut [u8],
        steps: &mut Steps<L>,
    ) -> Result<(), Error>
        ensures refusal { let opt_rand = option_copied opt_rand.entry in
            RefusedExactly result
            (sign_refusal P.scheme ctx.now opt_rand msg.now (length out.old)) }
        ensures value { let opt_rand = option_copied opt_rand.entry in
            let message = mode_frame mode ctx.now msg.now in
            OnOk result (out.new ≡ signature_of P.scheme self.now opt_rand message) }
        ensures same { OnErr result (out.new ≡ out.old) }
        ensures cost { OnOk result (steps.new ≡ steps.old + slh_sign_cost P.scheme) }
        ensures free { OnErr result (steps.new ≡ steps.old) }
    {
        check_signature::<P>(out.len())?;
        let message = Self::message(mode, msg, ctx, opt_rand)?;
        self.sign_checked_counted(&message, opt_rand, out, steps);
        Ok(())
    }

    /// As `hash_sign_counted`, without a counter. Takes no memory.
    pub fn hash_sign_into(
        &self,
        mode: Mode,
        msg: &[u8],
        ctx: &[u8],
        opt_rand: Option<&[u8]>,
        out: &mut [u8],
    ) -> Result<(), Error>
        ensures refusal { let opt_rand = option_copied opt_rand.entry in
            RefusedExactly result
            (sign_refusal P.scheme ctx.now opt_rand msg.now (length out.old)) }
        ensures value { let opt_rand = option_copied opt_rand.entry in
            let message = mode_frame mode ctx.now msg.now in
            OnOk result (out.new ≡ signature_of P.scheme self.now opt_rand message) }
        ensures same { OnErr result (out.new ≡ out.old) }
    {
        check_signature::<P>(out.len())?;
        let message = Self::message(mode, msg, ctx, opt_rand)?;
        self.sign_checked(&message, opt_rand, out);
        Ok(())
    }

    /// The message that is signed with `opt_rand`: `ContextTooLong`, `RandomizerLength`,
    /// `MessageTooLong`. A caller that takes memory for a signature makes it first, and then calls
    /// [`SigningKey::sign_checked`].
    pub fn message<'a>(
        mode: Mode,
        msg: &'a [u8],
        ctx: &'a [u8],
        opt_rand: Option<&[u8]>,
    ) -> Result<Message<'a>, Error>
        ensures refusal { let opt_rand = option_copied opt_rand.entry in
            RefusedExactly result (sign_input_refusal P.scheme ctx.now opt_rand msg.now) }
        ensures value { IfOk result (λ m. m ≡ whole_message mode ctx.now msg.now) }
        ensures fits { OnOk result
            (ForSome (option_copied opt_rand.entry) (λ bytes. length bytes ≡ P.N.USIZE)) }
    {
        check_context(ctx, Error::ContextTooLong)?;
        check_opt_rand::<P, Error>(opt_rand, Error::RandomizerLength)?;
        check_message(msg, Error::MessageTooLong)?;
        Ok(Message::fitting(mode, msg, ctx))
    }

    /// Writes the signature of a message into `out`. Where no `opt_rand` is given the public seed
    /// stands for it. `Length`: `out` doesn't have the bytes of a signature; `RandomizerLength`.
    /// After a refusal `out` is as it was.
    pub fn sign_message_counted<L: Ledger>(
        &self,
        message: &Message<'_>,
        opt_rand: Option<&[u8]>,
        out: &mut [u8],
        steps: &mut Steps<L>,
    ) -> Result<(), Error>
        ensures refusal { let opt_rand = option_copied opt_rand.entry in
            RefusedExactly result (sign_message_refusal P.scheme opt_rand (length out.old)) }
        ensures value { let opt_rand = option_copied opt_rand.entry in
            let message = joined message.now in
            OnOk result (out.new ≡ signature_of P.scheme self.now opt_rand message) }
        ensures same { OnErr result (out.new ≡ out.old) }
        ensures cost { OnOk result (steps.new ≡ steps.old + slh_sign_cost P.scheme) }
        ensures free { OnErr result (steps.new ≡ steps.old) }
    {
        check_signature::<P>(out.len())?;
        check_opt_rand::<P, Error>(opt_rand, Error::RandomizerLength)?;
        self.sign_checked_counted(message, opt_rand, out, steps);
        Ok(())
    }

    /// As `sign_message_counted`, without a counter. Takes no memory.
    pub fn sign_message(
        &self,
        message: &Message<'_>,
        opt_rand: Option<&[u8]>,
        out: &mut [u8],
    ) -> Result<(), Error>
        ensures refusal { let opt_rand = option_copied opt_rand.entry in
            RefusedExactly result (sign_message_refusal P.scheme opt_rand (length out.old)) }
        ensures value { let opt_rand = option_copied opt_rand.entry in
            let message = joined message.now in
            OnOk result (out.new ≡ signature_of P.scheme self.now opt_rand message) }
        ensures same { OnErr result (out.new ≡ out.old) }
    {
        check_signature::<P>(out.len())?;
        check_opt_rand::<P, Error>(opt_rand, Error::RandomizerLength)?;
        self.sign_checked(message, opt_rand, out);
        Ok(())
    }

    /// As `sign_message`, of what isn't refused.
    pub fn sign_checked(&self, message: &Message<'_>, opt_rand: Option<&[u8]>, out: &mut [u8])
        requires opt_rand { ForSome (option_copied opt_rand) (λ bytes. length bytes ≡ P.N.USIZE) }
        requires room { length out.old ≡ signature_size P.scheme }
        ensures { let opt_rand = option_copied opt_rand.entry in
            out.new ≡ signature_of P.scheme self.now opt_rand (joined message.now) }
    {
        self.sign_checked_on::<Brand>(message, opt_rand, out, Blank::new(1));
    }

    // The same, on a counter that is made here.
    fn sign_checked_on<L: Ledger>(
        &self,
        message: &Message<'_>,
        opt_rand: Option<&[u8]>,
        out: &mut [u8],
        blank: Blank,
    )
        requires opt_rand { ForSome (option_copied opt_rand) (λ bytes. length bytes ≡ P.N.USIZE) }
        requires room { length out.old ≡ signature_size P.scheme }
        requires fresh { IsFresh blank L.name L.parts }
        ensures { let opt_rand = option_copied opt_rand.entry in
            out.new ≡ signature_of P.scheme self.now opt_rand (joined message.now) }
    {
        let mut steps = Steps::<L>::new(blank);
        self.sign_checked_counted(message, opt_rand, out, &mut steps);
    }

    /// As `sign_message_counted`, of what isn't refused.
    pub(crate) fn sign_checked_counted<L: Ledger>(
        &self,
        message: &Message<'_>,
        opt_rand: Option<&[u8]>,
        out: &mut [u8],
        steps: &mut Steps<L>,
    )
        requires opt_rand { ForSome (option_copied opt_rand) (λ bytes. length bytes ≡ P.N.USIZE) }
        requires room { length out.old ≡ signature_size P.scheme }
        ensures value { let opt_rand = option_copied opt_rand.entry in
            out.new ≡ signature_of P.scheme self.now opt_rand (joined message.now) }
        ensures cost { steps.new ≡ steps.old + slh_sign_cost P.scheme }
    {
        let opt_rand = self.opt_rand_or_seed(opt_rand);
        let frame = Frame::of(message);
        self.sign_slices(
            &opt_rand,
            frame.head(),
            frame.ctx(),
            frame.tail(),
            out,
            steps,
        );
    }

    /// Writes the signature of the message that the three slices joined are, as it stands (FIPS 205,
    /// algorithm 19), with the bytes that [`SigningKey::opt_rand_or_seed`] gives.
    pub fn sign_slices<L: Ledger>(
        &self,
        opt_rand: &NBytes<P::N>,
        head: &[u8],
        ctx: &[u8],
        msg: &[u8],
        out: &mut [u8],
        steps: &mut Steps<L>,
    )
        requires message { length head.now + length ctx.now + length msg.now ≤ MAX_MESSAGE_LEN }
        requires room { length out.old ≡ signature_size P.scheme }
        ensures value { (given : Option (List ℕ))
            → opt_rand.now ≡ unwrap_or given (part P.N.USIZE self.now 2)
            → out.new ≡ signature_of P.scheme self.now given (head.now ++ ctx.now ++ msg.now) }
        ensures cost { steps.new ≡ steps.old + slh_sign_cost P.scheme }
    {
        let public = &self.verifying_key;
        sign_message::<P, L>(
            &self.sk_seed,
            &self.sk_prf,
            &public.pk_seed,
            &public.pk_root,
            opt_rand,
            head,
            ctx,
            msg,
            out,
            steps,
        );
    }

    /// The bytes of `opt_rand`, or the public seed where none are given (FIPS 205, algorithm 19).
    pub fn opt_rand_or_seed(&self, opt_rand: Option<&[u8]>) -> NBytes<P::N>
        requires { ForSome (option_copied opt_rand) (λ bytes. length bytes ≡ P.N.USIZE) }
        ensures { result
            ≡ unwrap_or (option_copied opt_rand.entry) (part P.N.USIZE self.now 2) }
    {
        chain_sizes::<P>();
        match opt_rand {
            Some(bytes) => NBytes::exact(bytes),
            None => self.verifying_key.pk_seed.copy(),
        }
    }

    /// The key of 4n bytes, whose root isn't computed again. `Length`: there are fewer or more.
    pub fn try_from(bytes: &[u8]) -> Result<Self, Error>
        ensures refusal { RefusedExactly result (signing_key_refusal P.scheme bytes.now) }
        ensures value { IfOk result (λ key. key ≡ bytes.now) }
    {
        chain_sizes::<P>();
        let n = P::N::USIZE;
        if bytes.len() != 4 * n {
            return Err(Error::Length);
        }
        let (secret, public) = bytes.split_at(2 * n);
        let (sk_seed, sk_prf) = secret.split_at(n);
        Ok(SigningKey {
            sk_seed: NBytes::exact(sk_seed),
            sk_prf: NBytes::exact(sk_prf),
            verifying_key: VerifyingKey::try_from(public)?,
        })
    }

    /// Writes the key's 4n bytes.
    pub fn write_to(&self, out: &mut [u8])
        requires { length out.old ≡ 4 * P.N.USIZE }
        ensures { out.new ≡ self.now }
    {
        let n = P::N::USIZE;
        let (sk_seed, rest) = out.split_at_mut(n);
        let (sk_prf, public) = rest.split_at_mut(n);
        sk_seed.copy_from_slice(self.sk_seed.as_slice());
        sk_prf.copy_from_slice(self.sk_prf.as_slice());
        self.verifying_key.write_to(public);
    }

    /// The key's 4n bytes, as a vector.
    pub fn to_vec(&self, alloc: Global) -> Result<Vec<u8>, AllocError>
        ensures { IfOk result (λ bytes. bytes.items ≡ self.now) }
    {
        chain_sizes::<P>();
        let mut bytes = vec![in alloc; 0u8; 4 * P::N::USIZE]?;
        self.write_to(&mut bytes);
        Ok(bytes)
    }

    /// The secret seed, of n bytes.
    pub fn sk_seed(&self) -> &NBytes<P::N>
        ensures { result.now ≡ part P.N.USIZE self.now 0 }
    {
        &self.sk_seed
    }

    /// The PRF key, of n bytes.
    pub fn sk_prf(&self) -> &NBytes<P::N>
        ensures { result.now ≡ part P.N.USIZE self.now 1 }
    {
        &self.sk_prf
    }

    /// The public seed, of n bytes.
    pub fn pk_seed(&self) -> &NBytes<P::N>
        ensures { result.now ≡ part P.N.USIZE self.now 2 }
    {
        &self.verifying_key.pk_seed
    }

    /// The root of the top tree, of n bytes.
    pub fn pk_root(&self) -> &NBytes<P::N>
        ensures { result.now ≡ part P.N.USIZE self.now 3 }
    {
        &self.verifying_key.pk_root
    }

    /// The verifying key: the key's last 2n bytes.
    pub fn verifying_key(&self) -> VerifyingKey<P>
        ensures { result ≡ drop (2 * P.N.USIZE) self.now }
    {
        self.verifying_key.copy()
    }

    // The same key again.
    fn copy(&self) -> Self
        ensures { result ≡ self.now }
    {
        SigningKey {
            sk_seed: self.sk_seed.copy(),
            sk_prf: self.sk_prf.copy(),
            verifying_key: self.verifying_key.copy(),
        }
    }
}

/// Signatures and bytes in new memory.
impl<P: ParameterSet> SigningKey<P> {
    // The signature of the message that the three slices joined are, in new memory, on a counter
    // that is made here. `Memory`.
    fn sign_new<L: Ledger>(
        &self,
        alloc: Global,
        head: &[u8],
        ctx: &[u8],
        msg: &[u8],
        opt_rand: Option<&[u8]>,
        blank: Blank,
    ) -> Result<Signature<P>, Error>
        requires message { length head.now + length ctx.now + length msg.now ≤ MAX_MESSAGE_LEN }
        requires opt_rand { ForSome (option_copied opt_rand) (λ bytes. length bytes ≡ P.N.USIZE) }
        requires fresh { IsFresh blank L.name L.parts }
        ensures memory { IfErr result (λ e. e ≡ Memory) }
        ensures value { let opt_rand = option_copied opt_rand.entry in
            let message = head.now ++ ctx.now ++ msg.now in
            IfOk result (λ sig. sig ≡ signature_of P.scheme self.now opt_rand message) }
    {
        let mut bytes = zeros::<P::SigLen>(alloc)?;
        let mut steps = Steps::<L>::new(blank);
        let opt_rand = self.opt_rand_or_seed(opt_rand);
        self.sign_slices(&opt_rand, head, ctx, msg, bytes.as_mut_slice(), &mut steps);
        Ok(Signature::from_array(bytes))
    }

    /// The signature of a message as it stands, without a context (FIPS 205, algorithm 19). Where
    /// no `opt_rand` is given the public seed stands for it. `RandomizerLength`, `MessageTooLong`,
    /// `Memory`.
    pub fn slh_sign_internal(
        &self,
        alloc: Global,
        msg: &[u8],
        opt_rand: Option<&[u8]>,
    ) -> Result<Signature<P>, Error>
        ensures refusal { let opt_rand = option_copied opt_rand.entry in
            RefusedOrNoMemory Memory result (sign_internal_refusal P.scheme opt_rand msg.now) }
        ensures value { let opt_rand = option_copied opt_rand.entry in
            IfOk result (λ sig. sig ≡ signature_of P.scheme self.now opt_rand msg.now) }
    {
        check_opt_rand::<P, Error>(opt_rand, Error::RandomizerLength)?;
        check_message(msg, Error::MessageTooLong)?;
        self.sign_new::<Brand>(alloc, &[], &[], msg, opt_rand, Blank::new(1))
    }

    /// The signature of a message with a context (FIPS 205, algorithm 22). Where no `opt_rand` is
    /// given the public seed stands for it. `ContextTooLong`, `RandomizerLength`, `MessageTooLong`,
    /// `Memory`.
    pub fn try_sign_with_context(
        &self,
        alloc: Global,
        msg: &[u8],
        ctx: &[u8],
        opt_rand: Option<&[u8]>,
    ) -> Result<Signature<P>, Error>
        ensures refusal { let opt_rand = option_copied opt_rand.entry in
            RefusedOrNoMemory Memory result (sign_input_refusal P.scheme ctx.now opt_rand msg.now) }
        ensures value { let opt_rand = option_copied opt_rand.entry in
            let message = frame ctx.now msg.now in
            IfOk result (λ sig. sig ≡ signature_of P.scheme self.now opt_rand message) }
    {
        self.hash_sign_with_context(alloc, Mode::Pure, msg, ctx, opt_rand)
    }

    /// As `try_sign_with_context`, of the message or of its digest, as the mode says (FIPS 205,
    /// algorithms 22 and 23). The message is the message itself in every mode.
    pub fn hash_sign_with_context(
        &self,
        alloc: Global,
        mode: Mode,
        msg: &[u8],
        ctx: &[u8],
        opt_rand: Option<&[u8]>,
    ) -> Result<Signature<P>, Error>
        ensures refusal { let opt_rand = option_copied opt_rand.entry in
            RefusedOrNoMemory Memory result (sign_input_refusal P.scheme ctx.now opt_rand msg.now) }
        ensures value { let opt_rand = option_copied opt_rand.entry in
            let message = mode_frame mode ctx.now msg.now in
            IfOk result (λ sig. sig ≡ signature_of P.scheme self.now opt_rand message) }
    {
        let message = Self::message(mode, msg, ctx, opt_rand)?;
        let mut bytes = zeros::<P::SigLen>(alloc)?;
        self.sign_checked(&message, opt_rand, bytes.as_mut_slice());
        Ok(Signature::from_array(bytes))
    }

    /// The key's 4n bytes, as an array.
    pub fn to_bytes(&self, alloc: Global) -> Result<Array<u8, P::SkLen>, AllocError>
        ensures { IfOk result (λ bytes. bytes ≡ self.now) }
    {
        let mut bytes = zeros::<P::SkLen>(alloc)?;
        self.write_to(bytes.as_mut_slice());
        Ok(bytes)
    }
}

impl<P: SetSizes> Clone for SigningKey<P> {
    ghost use Rattle.std.specs.Prelude.{◌≡◌, ⊤};

    ghost is_clone = { λ key copy. copy ≡ key };

    ghost is_infallible = { λ _. ⊤ };

    fn clone(&self) -> Result<Self, AllocError> {
        Ok(self.copy())
    }
}

impl<P: SetSizes> PartialEq for SigningKey<P> {
    ghost use Rattle.std.specs.Prelude.{◌==◌};
    ghost use Rattle.std.specs.Cmp.Rules.{comparing};
    ghost use Rattle.std.specs.Cmp.Lexicographic.{pointwise};
    ghost use Rattle.std.proofs.Common.{rules};

    ghost eq = { pointwise ◌==◌ };

    ghost laws = { Prim.search (comparing, rules) };

    fn eq(&self, other: &Self) -> bool {
        let secret = both(self.sk_seed == other.sk_seed, self.sk_prf == other.sk_prf);
        both(secret, self.verifying_key == other.verifying_key)
    }
}

impl<P: SetSizes> Eq for SigningKey<P> {
    ghost use Rattle.std.specs.Cmp.Rules.{comparing};
    ghost use Rattle.std.proofs.Common.{rules};

    ghost laws = { Prim.search (comparing, rules) };
}
