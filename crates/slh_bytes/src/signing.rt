//! Signing what an input gives, once or twice.
ghost use Rattle.std.specs.Prelude.{◌≡◌, ◌⊎◌, ℕ, List, Option, IfOk, IfErr, IsTrue};
ghost use Rattle.std.specs.Option.{option_copied};
ghost use Rattle.slh_frames.specs.Frames.{mode_frame};
ghost use Rattle.slh_frames.specs.declared.frame.Mode.{Mode as SigningMode};
ghost use Rattle.slh_bytes.specs.Answers.{EndsPass, IsSigned, IsSignedTwice, digest_answer};
ghost use Rattle.slh_bytes.specs.declared.read_error.ReadError.TheVariants.{Refused};
ghost use Rattle.slh_jobs.specs.declared.job.Error.TheVariants.{Memory};
ghost use Rattle.slh_sets.specs.Sets.{scheme_for};
ghost use Rattle.slh_trees.specs.Signing.{signature_of};

use crate::absorbing::absorb_all;
use crate::input::Input;
use crate::key::Key;
use crate::read_error::ReadError;
use slh_dsa::{Mode, SigningKey};
use slh_jobs::ByteString;
use slh_sets::{OnSet, SetSuite};
use slh_stream::{DigestSigner, Digesting, FirstPass, PassError, Passing, SecondPass};
use std::alloc::Global;

// The signature of what a signer of a digest absorbed.
fn end_digest<'a, P: SetSuite>(
    alloc: Global,
    signer: DigestSigner<'a, P>,
) -> Result<ByteString, ReadError>
    ensures value { IfOk result (λ signature. (mode : SigningMode) (key : List ℕ)
        (opt_rand : Option (List ℕ)) (context m : List ℕ)
        → ⟦<DigestSigner<'a, P> as Digesting>⟧.digests signer.entry mode key opt_rand context m
        → signature ≡ signature_of P.scheme key opt_rand (mode_frame mode context m)) }
    ensures memory { IfErr result (λ e. e ≡ Refused Memory) }
{
    let mut signature = ByteString::zeroed(alloc, P::SIG_LEN)?;
    match signer.finish_into(signature.as_mut_slice()) {
        Ok(()) => Ok(signature),
        Err(_) => unreachable!(),
    }
}

// The signature of what a second pass absorbed.
#[tactic(auto, unfolding(crate::specs::Answers::EndsPass))]
fn end_pass<'a, P: SetSuite>(
    alloc: Global,
    pass: SecondPass<'a, P>,
) -> Result<ByteString, ReadError>
    ensures { EndsPass P.scheme (⟦<SecondPass<'a, P> as Passing>⟧.passes pass.entry)
        pass.entry.rand result }
{
    let mut signature = ByteString::zeroed(alloc, P::SIG_LEN)?;
    match pass.finish_into(signature.as_mut_slice()) {
        Ok(()) => Ok(signature),
        Err(PassError::Changed) => Err(ReadError::Changed),
        Err(PassError::Length) => unreachable!(),
    }
}

// What an input gives, to be signed by its digest.
#[derive(Drop)]
struct ByDigest<'a, R> {
    alloc: Global,
    mode: Mode,
    key: &'a [u8],
    context: &'a [u8],
    opt_rand: Option<&'a [u8]>,
    reader: R,
}

impl<'a, R: Input + Drop> OnSet for ByDigest<'a, R> {
    type Out = Result<ByteString, ReadError>;

    ghost gives = { λ c Z _ result. let opt_rand = option_copied c.opt_rand in
        IsSigned (IsTrue R.may_fail) (R.remaining c.reader)
        (digest_answer Z c.mode c.key.now c.context.now opt_rand) result };

    fn on<P: SetSuite>(self) -> Result<ByteString, ReadError> {
        let key = SigningKey::<P>::try_from(self.key)?;
        let mut signer = DigestSigner::<P>::new(&key, self.mode, self.context, self.opt_rand)?;
        absorb_all(self.reader, &mut signer)?;
        end_digest(self.alloc, signer)
    }
}

/// The signature of what an input gives, by its digest, with these random bytes or without any.
/// `Length`: also where the mode is `Pure`, which reads a message twice.
pub fn sign_digest<R: Input + Drop>(
    alloc: Global,
    key: &Key,
    mode: Mode,
    context: &[u8],
    opt_rand: Option<&[u8]>,
    reader: R,
) -> Result<ByteString, ReadError>
    ensures { let opt_rand = option_copied opt_rand.entry in
        IsSigned (IsTrue R.may_fail) (R.remaining reader) (digest_answer (scheme_for key.now.set) mode
        key.now.bytes context.now opt_rand) result }
{
    key.set.run(ByDigest {
        alloc,
        mode,
        key: key.bytes.as_slice(),
        context,
        opt_rand,
        reader,
    })
}

// What two inputs give, to be signed as it is.
#[derive(Drop)]
struct ByPasses<'a, R, S> {
    alloc: Global,
    key: &'a [u8],
    context: &'a [u8],
    opt_rand: Option<&'a [u8]>,
    first: R,
    second: S,
}

impl<'a, R: Input + Drop, S: Input + Drop> OnSet for ByPasses<'a, R, S> {
    type Out = Result<ByteString, ReadError>;

    ghost gives = { λ c Z _ result. let opt_rand = option_copied c.opt_rand in
        IsSignedTwice Z c.key.now c.context.now opt_rand
        (IsTrue R.may_fail ⊎ IsTrue S.may_fail) (R.remaining c.first) (S.remaining c.second) result };

    fn on<P: SetSuite>(self) -> Result<ByteString, ReadError> {
        let key = SigningKey::<P>::try_from(self.key)?;
        let mut pass = FirstPass::<P>::new(&key, self.context, self.opt_rand)?;
        absorb_all(self.first, &mut pass)?;
        let mut pass = pass.again();
        absorb_all(self.second, &mut pass)?;
        end_pass(self.alloc, pass)
    }
}

/// The signature of what two inputs give, which has to be the same, with these random bytes or
/// without any. What is signed is what the second one gives.
pub fn sign_twice<R: Input + Drop, S: Input + Drop>(
    alloc: Global,
    key: &Key,
    context: &[u8],
    opt_rand: Option<&[u8]>,
    first: R,
    second: S,
) -> Result<ByteString, ReadError>
    ensures { let opt_rand = option_copied opt_rand.entry in
        IsSignedTwice (scheme_for key.now.set) key.now.bytes context.now opt_rand
        (IsTrue R.may_fail ⊎ IsTrue S.may_fail) (R.remaining first) (S.remaining second) result }
{
    key.set.run(ByPasses {
        alloc,
        key: key.bytes.as_slice(),
        context,
        opt_rand,
        first,
        second,
    })
}
