//! Signing a message that comes in pieces, twice.
ghost use Rattle.std.specs.Prelude.{◌≡◌, ℕ, ◌+◌, ◌≤◌, List, [], ◌++◌, length, Option};
ghost use Rattle.std.specs.Prelude.{◌≢◌, ◌↔◌, IfOk, IfErr, OnOk, OnErr, unwrap_or};
ghost use Rattle.std.specs.Option.{option_copied, ForSome};
ghost use Rattle.slh_core.specs.Bytes.{part};
ghost use Rattle.slh_core.specs.Costs.{slh_sign_cost};
ghost use Rattle.slh_core.specs.Steps.{IsFresh};
ghost use Rattle.slh_dsa.specs.Calls.{sign_input_refusal};
ghost use Rattle.slh_dsa.specs.declared.error.Error.TheVariants.{MessageTooLong};
ghost use Rattle.slh_stream.specs.declared.pass_error.PassError.TheVariants.{Length};
ghost use Rattle.slh_stream.specs.Passes.{IsFirst, IsSecond, IsSigned, pass_refusal, randomizer_for};
ghost use Rattle.slh_trees.specs.Checking.{signature_size};
ghost use Rattle.slh_frames.specs.Frames.{frame, frame_head};
ghost use Rattle.slh_trees.specs.Signing.{signature_of};
ghost use Rattle.slh_core.specs.Refusals.{RefusedExactly, message_refusal};
ghost use Rattle.slh_frames.specs.declared.message.TheConstants.{MAX_MESSAGE};

use crate::context::Context;
use crate::pass_error::PassError;
use slh_core::array::ArraySize;
use slh_core::nbytes::NBytes;
use slh_core::params::{MAX_DIGEST_LEN, forest_sizes};
use slh_core::pieces::MessageSuite;
use slh_core::steps::Steps;
use slh_dsa::{Error, Mode, SetSizes, SigningKey, check_opt_rand};
use slh_frames::pieces::begin_front;
use slh_frames::{MAX_CONTEXT, MAX_MESSAGE, check_context, head_of};
use slh_trees::sign::sign_digest;
use std::marker::Brand;
use std::sync::ledger::{Blank, Ledger};

// PRF_msg of what stands before a message, to go on from.
pub(crate) fn begin_made<P: MessageSuite>(
    sk_prf: &NBytes<P::N>,
    opt_rand: &NBytes<P::N>,
    ctx: &[u8],
) -> P::Mac
    requires { length ctx.now ≤ MAX_CONTEXT }
    ensures begun { P.authenticates result sk_prf.now opt_rand.now
        (frame_head ctx.now ++ ctx.now ++ []) }
    ensures counts { P.mac_count result ≤ 257 }
{
    let mut mac = P::begin_mac(sk_prf, opt_rand);
    P::update_mac(&mut mac, &head_of(Mode::Pure, ctx));
    P::update_mac(&mut mac, ctx);
    mac
}

/// The first pass over a message that is signed as it is: it makes R.
#[derive(Drop)]
pub struct FirstPass<'a, P: SetSizes + MessageSuite> {
    pub(crate) key: &'a SigningKey<P>,
    ctx: Context,
    pub(crate) opt_rand: NBytes<P::N>,
    pub(crate) mac: P::Mac,
    pub(crate) taken: u64,
    ghost short: { taken ≤ MAX_MESSAGE },
    ghost room: { P.mac_count mac ≤ taken + 257 },
}

/// What a pass stands for.
pub trait Passing {
    /// The pass stands for the bytes of a signing key, a randomizer, or none, a context and a
    /// message.
    ghost passes: { Self → List ℕ → Option (List ℕ) → List ℕ → List ℕ → Type 0 };
}

impl<'a, P: SetSizes + MessageSuite> Passing for FirstPass<'a, P> {
    ghost passes = { λ f key opt_rand context m. IsFirst P.N.USIZE (P.authenticates f.mac)
        f.key.now f.ctx f.opt_rand f.taken key opt_rand context m };
}

impl<'a, P: SetSizes + MessageSuite> FirstPass<'a, P> {
    /// The first pass over the empty message, to go on from. `ContextTooLong`, `RandomizerLength`.
    pub fn new(key: &'a SigningKey<P>, ctx: &[u8], opt_rand: Option<&[u8]>) -> Result<Self, Error>
        ensures refusal { let opt_rand = option_copied opt_rand.entry in
            RefusedExactly result (sign_input_refusal P.scheme ctx.now opt_rand []) }
        ensures empty { let opt_rand = option_copied opt_rand.entry in
            IfOk result (λ f. ⟦<FirstPass<'a, P> as Passing>⟧.passes f key.now opt_rand
            ctx.now []) }
    {
        check_context(ctx, Error::ContextTooLong)?;
        check_opt_rand::<P, Error>(opt_rand, Error::RandomizerLength)?;
        let opt_rand = key.opt_rand_or_seed(opt_rand);
        let mac = begin_made::<P>(key.sk_prf(), &opt_rand, ctx);
        Ok(FirstPass {
            key,
            ctx: Context::new(ctx),
            opt_rand,
            mac,
            taken: 0,
        })
    }

    /// Absorbs a piece of the message, after those before. `MessageTooLong`: more than 2^60 bytes
    /// would have come.
    pub fn update(&mut self, piece: &[u8]) -> Result<(), Error>
        ensures refusal { (key : List ℕ) (opt_rand : Option (List ℕ)) (context m : List ℕ)
            → ⟦<FirstPass<'a, P> as Passing>⟧.passes self.old key opt_rand context m
            → RefusedExactly result (message_refusal MessageTooLong (m ++ piece.now)) }
        ensures joins { OnOk result
            ((key : List ℕ) (opt_rand : Option (List ℕ)) (context m : List ℕ)
            → ⟦<FirstPass<'a, P> as Passing>⟧.passes self.old key opt_rand context m
            → ⟦<FirstPass<'a, P> as Passing>⟧.passes self.new key opt_rand
            context (m ++ piece.now)) }
        ensures same { OnErr result (self.new ≡ self.old) }
    {
        if piece.len() > MAX_MESSAGE - self.taken as usize {
            return Err(Error::MessageTooLong);
        }
        P::update_mac(&mut self.mac, piece);
        self.taken += piece.len() as u64;
        Ok(())
    }

    /// The second pass over the empty message, to go on from. It has R of what was absorbed.
    pub fn again(self) -> SecondPass<'a, P>
        ensures rand { (key : List ℕ) (opt_rand : Option (List ℕ)) (context m : List ℕ)
            → ⟦<FirstPass<'a, P> as Passing>⟧.passes self.entry key opt_rand context m
            → result.rand ≡ randomizer_for P.scheme key opt_rand (frame context m) }
        ensures empty { (key : List ℕ) (opt_rand : Option (List ℕ)) (context m : List ℕ)
            → ⟦<FirstPass<'a, P> as Passing>⟧.passes self.entry key opt_rand context m
            → ⟦<SecondPass<'a, P> as Passing>⟧.passes result key opt_rand context [] }
    {
        let FirstPass {
            key,
            ctx,
            opt_rand,
            mac,
            ..
        } = self;
        let rand = P::end_mac(mac);
        let ctx = ctx.as_slice();
        let mac = begin_made::<P>(key.sk_prf(), &opt_rand, ctx);
        let digest = begin_front::<P>(&rand, key.pk_seed(), key.pk_root(), Mode::Pure, ctx);
        SecondPass {
            key,
            opt_rand,
            rand,
            mac,
            digest,
            taken: 0,
        }
    }
}

// Writes the signature with R of what H_msg has absorbed.
fn sign_absorbed<P: SetSizes + MessageSuite, L: Ledger>(
    key: &SigningKey<P>,
    rand: &NBytes<P::N>,
    digest: P::Digest,
    out: &mut [u8],
    steps: &mut Steps<L>,
)
    requires { length out.old ≡ signature_size P.scheme }
    ensures value { (bytes : List ℕ) (opt_rand : Option (List ℕ)) (m : List ℕ)
        → key.now ≡ bytes
        → P.digests digest rand.now (part P.N.USIZE bytes 2) (part P.N.USIZE bytes 3) m
        → rand.now ≡ P.suite.prf_msg (part P.N.USIZE bytes 1)
        (unwrap_or opt_rand (part P.N.USIZE bytes 2)) m
        → out.new ≡ signature_of P.scheme bytes opt_rand m }
    ensures signed { IsSigned P.scheme P.N.USIZE (P.digests digest) key.now rand.now out.new }
    ensures cost { steps.new ≡ steps.old + slh_sign_cost P.scheme }
{
    forest_sizes::<P>();
    let mut store = [0u8; MAX_DIGEST_LEN];
    let hashed = &mut store[..P::M::USIZE];
    P::end_digest(digest, hashed);
    sign_digest::<P, L>(key.sk_seed(), key.pk_seed(), rand, hashed, out, steps);
}

/// The second pass over a message: it makes the MAC again, and the digest that is signed.
#[derive(Drop)]
pub struct SecondPass<'a, P: SetSizes + MessageSuite> {
    pub(crate) key: &'a SigningKey<P>,
    pub(crate) opt_rand: NBytes<P::N>,
    pub(crate) rand: NBytes<P::N>,
    pub(crate) mac: P::Mac,
    pub(crate) digest: P::Digest,
    pub(crate) taken: u64,
    ghost short: { taken ≤ MAX_MESSAGE },
    ghost room: { P.mac_count mac ≤ taken + 257 },
    ghost space: { P.digest_count digest ≤ taken + 257 },
}

impl<'a, P: SetSizes + MessageSuite> Passing for SecondPass<'a, P> {
    ghost passes = { λ p key opt_rand context m. IsSecond P.N.USIZE (P.authenticates p.mac)
        (P.digests p.digest) p.key.now p.opt_rand p.rand p.taken key opt_rand context m };
}

impl<'a, P: SetSizes + MessageSuite> SecondPass<'a, P> {
    /// Absorbs a piece of the message, after those before. `MessageTooLong`: more than 2^60 bytes
    /// would have come.
    pub fn update(&mut self, piece: &[u8]) -> Result<(), Error>
        ensures refusal { (key : List ℕ) (opt_rand : Option (List ℕ)) (context m : List ℕ)
            → ⟦<SecondPass<'a, P> as Passing>⟧.passes self.old key opt_rand context m
            → RefusedExactly result (message_refusal MessageTooLong (m ++ piece.now)) }
        ensures joins { OnOk result
            ((key : List ℕ) (opt_rand : Option (List ℕ)) (context m : List ℕ)
            → ⟦<SecondPass<'a, P> as Passing>⟧.passes self.old key opt_rand context m
            → ⟦<SecondPass<'a, P> as Passing>⟧.passes self.new key opt_rand
            context (m ++ piece.now)) }
        ensures kept { self.new.rand ≡ self.old.rand }
        ensures same { OnErr result (self.new ≡ self.old) }
    {
        if piece.len() > MAX_MESSAGE - self.taken as usize {
            return Err(Error::MessageTooLong);
        }
        P::update_mac(&mut self.mac, piece);
        P::update_digest(&mut self.digest, piece);
        self.taken += piece.len() as u64;
        Ok(())
    }

    /// Writes the signature of what this pass absorbed. `Length`: `out` doesn't have the bytes of a
    /// signature; `Changed`: PRF_msg of what was absorbed isn't R, so the first pass absorbed
    /// something else. After a refusal `out` is as it was.
    pub fn finish_into_counted<L: Ledger>(
        self,
        out: &mut [u8],
        steps: &mut Steps<L>,
    ) -> Result<(), PassError>
        ensures refusal { (key : List ℕ) (opt_rand : Option (List ℕ)) (context m : List ℕ)
            → ⟦<SecondPass<'a, P> as Passing>⟧.passes self.entry key opt_rand context m
            → RefusedExactly result (pass_refusal P.scheme key opt_rand
            (frame context m) self.entry.rand (length out.old)) }
        ensures room { OnOk result (length out.old ≡ signature_size P.scheme) }
        ensures length { IfErr result
            (λ e. e ≡ Length ↔ (length out.old ≢ signature_size P.scheme)) }
        ensures value { OnOk result
            ((key : List ℕ) (opt_rand : Option (List ℕ)) (context m : List ℕ)
            → ⟦<SecondPass<'a, P> as Passing>⟧.passes self.entry key opt_rand context m
            → out.new ≡ signature_of P.scheme key opt_rand (frame context m)) }
        ensures made { OnOk result ((key opt_rand m : List ℕ)
            → P.authenticates self.entry.mac key opt_rand m
            → P.suite.prf_msg key opt_rand m ≡ self.entry.rand) }
        ensures signed { OnOk result (IsSigned P.scheme P.N.USIZE (P.digests self.entry.digest)
            self.entry.key.now self.entry.rand out.new) }
        ensures same { OnErr result (out.new ≡ out.old) }
        ensures cost { OnOk result (steps.new ≡ steps.old + slh_sign_cost P.scheme) }
        ensures free { OnErr result (steps.new ≡ steps.old) }
    {
        let SecondPass {
            key,
            rand,
            mac,
            digest,
            ..
        } = self;
        if out.len() != P::SIG_LEN {
            return Err(PassError::Length);
        }
        if P::end_mac(mac).as_slice() != rand.as_slice() {
            return Err(PassError::Changed);
        }
        sign_absorbed::<P, L>(key, &rand, digest, out, steps);
        Ok(())
    }

    /// As `finish_into_counted`, with no counter.
    pub fn finish_into(self, out: &mut [u8]) -> Result<(), PassError>
        ensures refusal { (key : List ℕ) (opt_rand : Option (List ℕ)) (context m : List ℕ)
            → ⟦<SecondPass<'a, P> as Passing>⟧.passes self.entry key opt_rand context m
            → RefusedExactly result (pass_refusal P.scheme key opt_rand
            (frame context m) self.entry.rand (length out.old)) }
        ensures room { OnOk result (length out.old ≡ signature_size P.scheme) }
        ensures length { IfErr result
            (λ e. e ≡ Length ↔ (length out.old ≢ signature_size P.scheme)) }
        ensures value { OnOk result
            ((key : List ℕ) (opt_rand : Option (List ℕ)) (context m : List ℕ)
            → ⟦<SecondPass<'a, P> as Passing>⟧.passes self.entry key opt_rand context m
            → out.new ≡ signature_of P.scheme key opt_rand (frame context m)) }
        ensures made { OnOk result ((key opt_rand m : List ℕ)
            → P.authenticates self.entry.mac key opt_rand m
            → P.suite.prf_msg key opt_rand m ≡ self.entry.rand) }
        ensures signed { OnOk result (IsSigned P.scheme P.N.USIZE (P.digests self.entry.digest)
            self.entry.key.now self.entry.rand out.new) }
        ensures same { OnErr result (out.new ≡ out.old) }
    {
        self.finish_into_on::<Brand>(out, Blank::new(1))
    }

    // The same, on a counter that is made here.
    fn finish_into_on<L: Ledger>(self, out: &mut [u8], blank: Blank) -> Result<(), PassError>
        requires fresh { IsFresh blank L.name L.parts }
        ensures refusal { (key : List ℕ) (opt_rand : Option (List ℕ)) (context m : List ℕ)
            → ⟦<SecondPass<'a, P> as Passing>⟧.passes self.entry key opt_rand context m
            → RefusedExactly result (pass_refusal P.scheme key opt_rand
            (frame context m) self.entry.rand (length out.old)) }
        ensures room { OnOk result (length out.old ≡ signature_size P.scheme) }
        ensures length { IfErr result
            (λ e. e ≡ Length ↔ (length out.old ≢ signature_size P.scheme)) }
        ensures value { OnOk result
            ((key : List ℕ) (opt_rand : Option (List ℕ)) (context m : List ℕ)
            → ⟦<SecondPass<'a, P> as Passing>⟧.passes self.entry key opt_rand context m
            → out.new ≡ signature_of P.scheme key opt_rand (frame context m)) }
        ensures made { OnOk result ((key opt_rand m : List ℕ)
            → P.authenticates self.entry.mac key opt_rand m
            → P.suite.prf_msg key opt_rand m ≡ self.entry.rand) }
        ensures signed { OnOk result (IsSigned P.scheme P.N.USIZE (P.digests self.entry.digest)
            self.entry.key.now self.entry.rand out.new) }
        ensures same { OnErr result (out.new ≡ out.old) }
    {
        self.finish_into_counted::<L>(out, &mut Steps::new(blank))
    }
}
