//! A verifier that is put aside between two pieces.
ghost use Rattle.std.specs.Prelude.{◌≡◌, ◌≢◌, ◌↔◌, ℕ, ◌+◌, ◌≤◌, List, ◌++◌};
ghost use Rattle.std.specs.Prelude.{IfSome, IsTrue, MatchOption, OnOk, OnErr, None, Some, Err};
ghost use Rattle.std.specs.Prelude.{◌-◌, ◌<◌, drop, length, replicate, take};
ghost use Rattle.slh_dsa.specs.Calls.{hash_verify_error};
ghost use Rattle.slh_dsa.specs.declared.error.Error.TheVariants.{Length, MessageTooLong};
ghost use Rattle.slh_frames.specs.declared.frame.Mode.{Mode as SigningMode};
ghost use Rattle.slh_stream.specs.Suspended.{HasTail, IsAccepted, IsBlank, IsResumed, IsSuspended};
ghost use Rattle.slh_stream.specs.Suspended.{mode_number};
ghost use Rattle.slh_frames.specs.Tails.{IsTailOf, hashed_count, mode_of};
ghost use Rattle.slh_trees.specs.Checking.{signature_size};
ghost use Rattle.slh_core.specs.Refusals.{RefusedExactly, message_refusal};

use crate::verifier::{MessageVerifier, Verifying};
use slh_core::array::ArraySize;
use slh_core::nbytes::NBytes;
use slh_core::params::forest_sizes;
use slh_dsa::{Error, Mode, SetSizes};
use slh_frames::{MAX_MESSAGE, Tail};
use slh_hash::{Hashes, ResumableSuite};
use slh_trees::SigView;

/// What a verifier goes on from, but for its mode: numbers alone.
#[repr(C)]
#[derive(Drop)]
pub struct VerifierNumbers {
    seed: [u8; 32],
    root: [u8; 32],
    rand: [u8; 32],
    taken: u64,
    front: Hashes,
    tail: Hashes,
}

/// A verifier between two pieces, without its signature and its key, so that a caller keeps it where
/// it likes. Any numbers are one, though of no message that anybody absorbed.
#[repr(C)]
#[derive(Drop)]
pub struct SuspendedVerifier {
    /// The number of the mode: 0 for `Pure`, 1 for `Sha256`, 2 for `Sha512`.
    pub mode: u32,
    /// What it goes on from.
    pub numbers: VerifierNumbers,
}

// The number of no mode.
const NO_MODE: u32 = 3;

// The number of a mode.
fn number_of(mode: Mode) -> u32
    ensures { result ≡ mode_number mode }
{
    match mode {
        Mode::Pure => 0,
        Mode::Sha256 => 1,
        Mode::Sha512 => 2,
    }
}

// A value as the first bytes of 32, before zeros.
pub(crate) fn stored<N: ArraySize>(value: &NBytes<N>) -> [u8; 32]
    ensures front { take N.USIZE result ≡ value.now }
    ensures rest { drop N.USIZE result ≡ replicate (32 - N.USIZE) 0 }
{
    let mut store = [0u8; 32];
    let bytes = value.as_slice();
    store[..bytes.len()].copy_from_slice(bytes);
    store
}

// Puts aside what becomes of the pieces of a message.
fn suspend_tail(tail: Tail, hashes: &mut Hashes)
    ensures { (m : List ℕ) → IsTailOf tail m → HasTail (mode_of tail) hashes.new m }
{
    match tail {
        Tail::Whole => {}
        Tail::By256(hash) => hashes.sha256 = hash,
        Tail::By512(hash) => hashes.sha512 = hash,
    }
}

// Takes it up again. `None`: more bytes were counted than `most`.
fn resume_tail(mode: Mode, hashes: &Hashes, most: u64) -> Option<Tail>
    ensures mode { IfSome result (λ tail. mode_of tail ≡ mode) }
    ensures stands { (m : List ℕ) → length m ≤ most → HasTail mode hashes.now m
        → MatchOption result ⊥ (λ tail. IsTailOf tail m) }
    ensures counts { IfSome result (λ tail. hashed_count tail ≤ most) }
{
    match mode {
        Mode::Pure => Some(Tail::Whole),
        Mode::Sha256 if hashes.sha256.absorbed() > most => None,
        Mode::Sha256 => Some(Tail::By256(hashes.sha256.copy())),
        Mode::Sha512 => Some(Tail::By512(hashes.sha512.copy())),
    }
}

// H_msg and what becomes of the pieces, taken up again.
#[derive(Drop)]
struct Resumed<P: SetSizes + ResumableSuite> {
    rand: NBytes<P::N>,
    pk_seed: NBytes<P::N>,
    pk_root: NBytes<P::N>,
    digest: P::Digest,
    tail: Tail,
}

// `None`: no verifier of the mode was put aside as these numbers.
fn resume<P: SetSizes + ResumableSuite>(state: &SuspendedVerifier, mode: Mode) -> Option<Resumed<P>>
    ensures own { IfSome result (λ _. state.now.mode ≡ mode_number mode) }
    ensures short { IfSome result (λ _. state.now.numbers.taken ≤ MAX_MESSAGE) }
    ensures room { IfSome result (λ r. P.digest_count r.digest ≤ state.now.numbers.taken + 257) }
    ensures hashed { IfSome result (λ r. hashed_count r.tail ≤ state.now.numbers.taken) }
    ensures rand { IfSome result (λ r. r.rand ≡ take P.N.USIZE state.now.numbers.rand) }
    ensures seed { IfSome result (λ r. r.pk_seed ≡ take P.N.USIZE state.now.numbers.seed) }
    ensures root { IfSome result (λ r. r.pk_root ≡ take P.N.USIZE state.now.numbers.root) }
    ensures mode { IfSome result (λ r. mode_of r.tail ≡ mode) }
    ensures stands { (key context rand m : List ℕ)
        → IsSuspended P.N.USIZE state.now mode key context rand m
        → MatchOption result ⊥ (λ r. IsResumed P.N.USIZE (P.digests r.digest) r.tail
        r.rand r.pk_seed r.pk_root mode key context rand m) }
{
    let numbers = &state.numbers;
    if state.mode != number_of(mode) || numbers.taken > MAX_MESSAGE as u64 {
        return None;
    }
    forest_sizes::<P>();
    let rand = NBytes::<P::N>::first_of(numbers.rand);
    let pk_seed = NBytes::<P::N>::first_of(numbers.seed);
    let pk_root = NBytes::<P::N>::first_of(numbers.root);
    let digest = P::resume_digest(&numbers.front, &rand, &pk_seed, numbers.taken + 257)?;
    let tail = resume_tail(mode, &numbers.tail, numbers.taken)?;
    Some(Resumed {
        rand,
        pk_seed,
        pk_root,
        digest,
        tail,
    })
}

// Whether a signature begins with a randomizer.
fn begins_with<N: ArraySize>(sig: &[u8], rand: &NBytes<N>) -> bool
    requires { N.USIZE ≤ length sig.now }
    ensures { IsTrue result ↔ (take N.USIZE sig.now ≡ rand.now) }
{
    &sig[..N::USIZE] == rand.as_slice()
}

// The verifier of a signature that was put aside. `None`: none was as these numbers, or one of a
// signature with another randomizer.
fn resume_for<'a, P: SetSizes + ResumableSuite>(
    state: &SuspendedVerifier,
    mode: Mode,
    sig: &'a [u8],
) -> Option<MessageVerifier<'a, P>>
    requires { length sig.now ≡ signature_size P.scheme }
    ensures stands { (key context m : List ℕ)
        → IsSuspended P.N.USIZE state.now mode key context (take P.N.USIZE sig.now) m
        → MatchOption result ⊥ (λ v.
        ⟦<MessageVerifier<'a, P> as Verifying>⟧.verifies v mode key context sig.now m) }
    ensures other { (key context rand m : List ℕ)
        → IsSuspended P.N.USIZE state.now mode key context rand m
        → take P.N.USIZE sig.now ≢ rand → result ≡ None }
    ensures own { IfSome result (λ _. state.now.mode ≡ mode_number mode) }
    ensures short { IfSome result (λ _. state.now.numbers.taken ≤ MAX_MESSAGE) }
    ensures rand { IfSome result (λ _.
        take P.N.USIZE sig.now ≡ take P.N.USIZE state.now.numbers.rand) }
    ensures seed { IfSome result (λ v. v.pk_seed ≡ take P.N.USIZE state.now.numbers.seed) }
    ensures root { IfSome result (λ v. v.pk_root ≡ take P.N.USIZE state.now.numbers.root) }
    ensures sig { IfSome result (λ v. v.sig ≡ sig.now) }
{
    forest_sizes::<P>();
    let Resumed {
        rand,
        pk_seed,
        pk_root,
        digest,
        tail,
    } = resume::<P>(state, mode)?;
    let view = SigView::exact(sig);
    if !begins_with::<P::N>(sig, &rand) {
        return None;
    }
    Some(MessageVerifier {
        pk_seed,
        pk_root,
        sig: view,
        digest,
        tail,
        taken: state.numbers.taken,
    })
}

impl VerifierNumbers {
    /// The numbers of nothing, to be written over.
    pub fn blank() -> Self
        ensures { IsBlank result }
    {
        VerifierNumbers {
            seed: [0; 32],
            root: [0; 32],
            rand: [0; 32],
            taken: 0,
            front: Hashes::new(),
            tail: Hashes::new(),
        }
    }

    /// The same numbers again.
    pub fn copy(&self) -> Self
        ensures { result ≡ self.now }
    {
        VerifierNumbers {
            seed: self.seed,
            root: self.root,
            rand: self.rand,
            taken: self.taken,
            front: self.front.copy(),
            tail: self.tail.copy(),
        }
    }
}

impl SuspendedVerifier {
    /// No verifier, in no mode, to be written over.
    pub fn blank() -> Self
        ensures mode { result.mode ≡ 3 }
        ensures numbers { IsBlank result.numbers }
    {
        SuspendedVerifier {
            mode: NO_MODE,
            numbers: VerifierNumbers::blank(),
        }
    }

    /// Puts a verifier aside.
    pub fn new<'a, P: SetSizes + ResumableSuite>(verifier: MessageVerifier<'a, P>) -> Self
        ensures { (mode : SigningMode) (key context sig m : List ℕ)
            → ⟦<MessageVerifier<'a, P> as Verifying>⟧.verifies verifier.entry mode key context sig m
            → IsSuspended P.N.USIZE result mode key context (take P.N.USIZE sig) m }
    {
        let MessageVerifier {
            pk_seed,
            pk_root,
            sig,
            digest,
            tail,
            taken,
        } = verifier;
        let rand = NBytes::<P::N>::from_view(sig.randomizer());
        let mode = number_of(tail.mode());
        let mut numbers = VerifierNumbers {
            seed: stored(&pk_seed),
            root: stored(&pk_root),
            rand: stored(&rand),
            taken,
            front: Hashes::new(),
            tail: Hashes::new(),
        };
        P::suspend_digest(digest, &mut numbers.front);
        suspend_tail(tail, &mut numbers.tail);
        SuspendedVerifier { mode, numbers }
    }

    /// The same numbers again.
    pub fn copy(&self) -> Self
        ensures { result ≡ self.now }
    {
        SuspendedVerifier {
            mode: self.mode,
            numbers: self.numbers.copy(),
        }
    }

    /// Absorbs a piece of the message, after those before. `None`: no verifier of the mode was put
    /// aside as these numbers. `MessageTooLong`: more than 2^60 bytes would have come.
    pub fn update<P: SetSizes + ResumableSuite>(
        &mut self,
        mode: Mode,
        piece: &[u8],
    ) -> Option<Result<(), Error>>
        ensures refusal { (key context rand m : List ℕ)
            → IsSuspended P.N.USIZE self.old mode key context rand m
            → MatchOption result ⊥ (λ r.
            RefusedExactly r (message_refusal MessageTooLong (m ++ piece.now))) }
        ensures joins { (key context rand m : List ℕ)
            → IsSuspended P.N.USIZE self.old mode key context rand m
            → MatchOption result ⊥ (λ r. OnOk r
            (IsSuspended P.N.USIZE self.new mode key context rand (m ++ piece.now))) }
        ensures own { self.old.mode ≢ mode_number mode → result ≡ None }
        ensures counted { MAX_MESSAGE < self.old.numbers.taken → result ≡ None }
        ensures kept { self.new.mode ≡ self.old.mode }
        ensures same { MatchOption result (self.new ≡ self.old) (λ r.
            OnErr r (self.new ≡ self.old)) }
    {
        let Resumed { digest, tail, .. } = resume::<P>(self, mode)?;
        if piece.len() > MAX_MESSAGE - self.numbers.taken as usize {
            return Some(Err(Error::MessageTooLong));
        }
        let (mut digest, mut tail) = (digest, tail);
        tail.absorb::<P>(&mut digest, piece);
        P::suspend_digest(digest, &mut self.numbers.front);
        suspend_tail(tail, &mut self.numbers.tail);
        self.numbers.taken += piece.len() as u64;
        Some(Ok(()))
    }

    /// What the call in one piece answers for what was absorbed. `None`: no verifier of the mode was
    /// put aside as these numbers, or one of a signature with another randomizer.
    pub fn finish<P: SetSizes + ResumableSuite>(
        &self,
        mode: Mode,
        sig: &[u8],
    ) -> Option<Result<(), Error>>
        ensures value { (key context m : List ℕ)
            → IsSuspended P.N.USIZE self.now mode key context (take P.N.USIZE sig.now) m
            → MatchOption result ⊥ (λ r.
            RefusedExactly r (hash_verify_error P.scheme mode key context m sig.now)) }
        ensures other { (key context rand m : List ℕ)
            → IsSuspended P.N.USIZE self.now mode key context rand m
            → length sig.now ≡ signature_size P.scheme → take P.N.USIZE sig.now ≢ rand
            → result ≡ None }
        ensures length { length sig.now ≢ signature_size P.scheme → result ≡ Some (Err Length) }
        ensures own { length sig.now ≡ signature_size P.scheme → self.now.mode ≢ mode_number mode
            → result ≡ None }
        ensures accepted { IfSome result (λ r.
            OnOk r (IsAccepted P.scheme P.N.USIZE self.now mode sig.now)) }
    {
        forest_sizes::<P>();
        if sig.len() != P::SIG_LEN {
            return Some(Err(Error::Length));
        }
        let verifier = resume_for::<P>(self, mode, sig)?;
        Some(verifier.finish())
    }
}
