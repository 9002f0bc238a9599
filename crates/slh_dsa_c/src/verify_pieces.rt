//! Verifying a message that comes in pieces.
ghost use Rattle.std.specs.Prelude.{◌≡◌, ◌≢◌, ◌*◌, ◌<◌, ℕ, List, [], ◌++◌, length, take};
ghost use Rattle.std.specs.Prelude.{MatchOption, MatchResult, None, Err};
ghost use Rattle.slh_dsa_c.specs.Numbers.{mode_numbered};
ghost use Rattle.slh_dsa_c.specs.VerifyPieces.{HasOtherLength, HasOtherRandomizer, IsNone, StandsIn, Verifies};
ghost use Rattle.slh_dsa_c.specs.VerifyPieces.{Accepts, IsOverfull, begin_number, begin_status};
ghost use Rattle.slh_dsa_c.specs.VerifyPieces.{update_number};
ghost use Rattle.slh_dsa_c.specs.Status.{number_of_refusal, verify_error_by_key, verify_number};
ghost use Rattle.slh_dsa_c.specs.Status.{verify_status};
ghost use Rattle.slh_stream.specs.Suspended.{IsAccepted, IsBlank, IsSuspended};
ghost use Rattle.slh_trees.specs.Checking.{signature_size};
ghost use Rattle.slh_frames.specs.declared.message.TheConstants.{MAX_MESSAGE};

use crate::mode::mode_of;
use crate::set::read_in_set;
use crate::status::{
    LENGTH, MESSAGE_TOO_LONG, OK, STATE, UNKNOWN_MODE, UNKNOWN_SET, number_of, tell,
};
use slh_dsa::{Error, Mode, VerifyingKey};
use slh_sets::{OnSet, SetSuite};
use slh_stream::{MessageVerifier, SuspendedVerifier};

/// The verification of a message that comes in pieces, between two of them: numbers alone. Those
/// that no call has written are answered by a status.
#[repr(C)]
#[derive(Drop)]
pub struct CVerifier {
    set: u32,
    mode: u32,
    state: SuspendedVerifier,
}

impl CVerifier {
    /// No verification, to be written over by `slh_dsa_sha2_verify_begin`.
    pub fn new() -> Self
        ensures none { IsNone result }
        ensures blank { IsBlank result.state.numbers }
    {
        CVerifier {
            set: 0,
            mode: 0,
            state: SuspendedVerifier::blank(),
        }
    }
}

// A signature whose message is to come.
#[derive(Drop)]
struct Begin<'a> {
    mode: u32,
    public: &'a [u8],
    ctx: &'a [u8],
    sig: &'a [u8],
}

impl<'a> OnSet for Begin<'a> {
    type Out = Result<SuspendedVerifier, u32>;

    ghost gives = { λ c Z _ result. let number = begin_number Z c.mode c.public.now c.ctx.now
        c.sig.now in MatchResult result
        (λ state. (number ≡ 0) × StandsIn Z c.mode state c.public.now c.ctx.now c.sig.now [])
        (λ e. (e ≡ number) × (e ≢ 0)) };

    fn on<P: SetSuite>(self) -> Result<SuspendedVerifier, u32> {
        let Some(mode) = mode_of(self.mode) else {
            return Err(UNKNOWN_MODE);
        };
        let Ok(key) = VerifyingKey::<P>::try_from(self.public) else {
            return Err(LENGTH);
        };
        match MessageVerifier::new(&key, mode, self.ctx, self.sig) {
            Ok(verifier) => Ok(SuspendedVerifier::new(verifier)),
            Err(error) => Err(number_of(error)),
        }
    }
}

/// Begins to verify a signature of a message that comes in pieces, with a context.
#[unsafe(no_mangle)]
pub extern "C" fn slh_dsa_sha2_verify_begin(
    verifier: &mut CVerifier,
    set: u32,
    mode: u32,
    public: &[u8],
    ctx: &[u8],
    sig: &[u8],
) -> u32
    ensures status { result ≡ begin_status set mode public.now ctx.now sig.now }
    ensures chosen { result ≡ 0 → (verifier.new.set ≡ set) × (verifier.new.mode ≡ mode) }
    ensures begun { result ≡ 0 → Verifies verifier.new public.now ctx.now sig.now [] }
    ensures same { result ≢ 0 → verifier.new ≡ verifier.old }
{
    let call = Begin {
        mode,
        public,
        ctx,
        sig,
    };
    match read_in_set(set, call, Err(UNKNOWN_SET)) {
        Ok(state) => {
            *verifier = CVerifier { set, mode, state };
            OK
        }
        Err(number) => number,
    }
}

// A piece of a message.
#[derive(Drop)]
struct Update<'a> {
    mode: u32,
    state: SuspendedVerifier,
    piece: &'a [u8],
}

impl<'a> OnSet for Update<'a> {
    type Out = Result<SuspendedVerifier, u32>;

    ghost gives = { λ c Z _ result.
        ((key context sig m : List ℕ) → StandsIn Z c.mode c.state key context sig m
        → MatchResult result
        (λ state. (update_number (m ++ c.piece.now) ≡ 0)
        × StandsIn Z c.mode state key context sig (m ++ c.piece.now))
        (λ e. e ≡ update_number (m ++ c.piece.now)))
        × (mode_numbered c.mode ≡ None → result ≡ Err 13)
        × (MAX_MESSAGE < c.state.numbers.taken → result ≡ Err 13)
        × MatchResult result (λ _. Unit {0}) (λ e. e ≢ 0) };

    fn on<P: SetSuite>(self) -> Result<SuspendedVerifier, u32> {
        let Some(mode) = mode_of(self.mode) else {
            return Err(STATE);
        };
        let mut state = self.state;
        match state.update::<P>(mode, self.piece) {
            Some(Ok(())) => Ok(state),
            Some(Err(_)) => Err(MESSAGE_TOO_LONG),
            None => Err(STATE),
        }
    }
}

/// Absorbs a piece of the message, after those before.
#[unsafe(no_mangle)]
pub extern "C" fn slh_dsa_sha2_verify_update(verifier: &mut CVerifier, piece: &[u8]) -> u32
    ensures status { (key context sig m : List ℕ) → Verifies verifier.old key context sig m
        → result ≡ update_number (m ++ piece.now) }
    ensures joins { (key context sig m : List ℕ) → Verifies verifier.old key context sig m
        → result ≡ 0 → Verifies verifier.new key context sig (m ++ piece.now) }
    ensures chosen { (verifier.new.set ≡ verifier.old.set)
        × (verifier.new.mode ≡ verifier.old.mode) }
    ensures unknown { IsNone verifier.old → result ≡ 13 }
    ensures overfull { IsOverfull verifier.old → result ≢ 0 }
    ensures same { result ≢ 0 → verifier.new ≡ verifier.old }
{
    let call = Update {
        mode: verifier.mode,
        state: verifier.state.copy(),
        piece,
    };
    let absorbed = read_in_set(verifier.set, call, Err(STATE));
    tell(absorbed, &mut verifier.state)
}

// A verification whose message has come.
#[derive(Drop)]
struct Finish<'a> {
    mode: u32,
    state: SuspendedVerifier,
    sig: &'a [u8],
}

impl<'a> OnSet for Finish<'a> {
    type Out = u32;

    ghost gives = { λ c Z _ result.
        ((key context m : List ℕ) → StandsIn Z c.mode c.state key context c.sig.now m
        → result ≡ verify_number Z c.mode key context m c.sig.now)
        × ((key context sig m : List ℕ) → StandsIn Z c.mode c.state key context sig m
        → length c.sig.now ≡ signature_size Z → take Z.n c.sig.now ≢ take Z.n sig → result ≡ 13)
        × (mode_numbered c.mode ≢ None → length c.sig.now ≢ signature_size Z → result ≡ 5)
        × (mode_numbered c.mode ≡ None → result ≡ 13)
        × (result ≡ 0 → MatchOption (mode_numbered c.mode) ⊥ (λ m.
        IsAccepted Z Z.n c.state m c.sig.now)) };

    fn on<P: SetSuite>(self) -> u32 {
        match mode_of(self.mode) {
            Some(mode) => finish_in::<P>(&self.state, mode, self.sig),
            None => STATE,
        }
    }
}

// The number of what finishing in a mode answers.
#[tactic(auto, unfolding(crate::specs::Status::verify_error_by_key))]
fn finish_in<P: SetSuite>(state: &SuspendedVerifier, mode: Mode, sig: &[u8]) -> u32
    ensures value { (key context m : List ℕ) → length key ≡ 2 * P.N.USIZE
        → IsSuspended P.N.USIZE state.now mode key context (take P.N.USIZE sig.now) m
        → result ≡ number_of_refusal
        (verify_error_by_key P.scheme mode key context m sig.now) }
    ensures other { (key context rand m : List ℕ)
        → IsSuspended P.N.USIZE state.now mode key context rand m
        → length sig.now ≡ signature_size P.scheme → take P.N.USIZE sig.now ≢ rand
        → result ≡ 13 }
    ensures length { length sig.now ≢ signature_size P.scheme → result ≡ 5 }
    ensures accepted { result ≡ 0 → IsAccepted P.scheme P.N.USIZE state.now mode sig.now }
{
    match state.finish::<P>(mode, sig) {
        Some(Ok(())) => OK,
        Some(Err(error)) => number_of(error),
        None => STATE,
    }
}

/// Answers what `slh_dsa_sha2_verify` does for the message that was absorbed. The signature is
/// handed in a second time, and the verifier is used up.
#[unsafe(no_mangle)]
pub extern "C" fn slh_dsa_sha2_verify_finish(verifier: &mut CVerifier, sig: &[u8]) -> u32
    ensures status { (key context m : List ℕ) → Verifies verifier.old key context sig.now m
        → result ≡ verify_status verifier.old.set verifier.old.mode key context m sig.now }
    ensures other { (key context begun m : List ℕ) → Verifies verifier.old key context begun m
        → HasOtherRandomizer verifier.old.set sig.now begun → result ≡ 13 }
    ensures length { mode_numbered verifier.old.mode ≢ None
        → HasOtherLength verifier.old.set sig.now → result ≡ 5 }
    ensures unknown { IsNone verifier.old → result ≡ 13 }
    ensures accepted { result ≡ 0 → Accepts verifier.old sig.now }
    ensures spent { IsNone verifier.new }
    ensures wiped { IsBlank verifier.new.state.numbers }
{
    let call = Finish {
        mode: verifier.mode,
        state: verifier.state.copy(),
        sig,
    };
    let status = read_in_set(verifier.set, call, STATE);
    *verifier = CVerifier::new();
    status
}
