//! Signing a message that comes in pieces, twice.
ghost use Rattle.std.specs.Prelude.{◌≡◌, ◌≢◌, ◌*◌, ◌<◌, ℕ, List, [], ◌++◌, Option, length};
ghost use Rattle.std.specs.Prelude.{IfSome, MatchOption, MatchResult, OnOk};
ghost use Rattle.std.specs.Prelude.{None, Some, Err};
ghost use Rattle.std.specs.Option.{option_copied};
ghost use Rattle.slh_dsa_c.specs.SignPieces.{HasOtherLength, IsAside, IsNone, IsOtherKey, Signs};
ghost use Rattle.slh_dsa_c.specs.SignPieces.{Ends, IsOverfull};
ghost use Rattle.slh_dsa_c.specs.SignPieces.{IsOtherKeyIn, StandsIn, begin_refusal, begin_status};
ghost use Rattle.slh_dsa_c.specs.SignPieces.{finish_number, finish_status, pass_number};
ghost use Rattle.slh_dsa_c.specs.SignPieces.{pass_numbered, randomizer_in};
ghost use Rattle.slh_dsa_c.specs.Status.{number_of_refusal};
ghost use Rattle.slh_dsa_c.specs.VerifyPieces.{update_number};
ghost use Rattle.slh_dsa.specs.declared.error.Error.TheVariants.{ContextTooLong, MessageTooLong};
ghost use Rattle.slh_frames.specs.Frames.{frame};
ghost use Rattle.slh_frames.specs.declared.message.TheConstants.{MAX_MESSAGE};
ghost use Rattle.slh_sets.specs.Sets.{scheme_numbered};
ghost use Rattle.slh_stream.specs.Passes.{randomizer_for};
ghost use Rattle.slh_stream.specs.SuspendedPass.{IsBlank, IsEnded, IsSecondAside};
ghost use Rattle.slh_core.specs.Refusals.{RefusedExactly, context_refusal, message_refusal};
ghost use Rattle.slh_trees.specs.Signing.{signature_of};

use crate::set::{read_in_set, write_in_set};
use crate::status::{CHANGED, LENGTH, MESSAGE_TOO_LONG, OK, STATE, UNKNOWN_SET, number_of, tell};
use slh_dsa::{Error, SigningKey};
use slh_sets::{OnSet, SetSuite, WriteOnSet};
use slh_stream::{FirstPass, PassError, SuspendedPass};

/// The passes over a message.
#[derive(Clone, Copy)]
enum Pass {
    First,
    Second,
}

// The pass of a number, where there is one.
fn pass_of(number: u32) -> Option<Pass>
    ensures { result ≡ pass_numbered number }
{
    match number {
        1 => Some(Pass::First),
        2 => Some(Pass::Second),
        _ => None,
    }
}

/// The signing of a message that comes in pieces, between two of them: numbers alone, and secret, as
/// the key's PRF key is among them. Those that no call has written are answered by a status.
#[repr(C)]
#[derive(Drop)]
pub struct CSigner {
    set: u32,
    pass: u32,
    state: SuspendedPass,
}

impl CSigner {
    /// No signing, to be written over by `slh_dsa_sha2_sign_begin`.
    pub fn new() -> Self
        ensures none { IsNone result }
        ensures blank { IsBlank result.state.numbers }
    {
        CSigner {
            set: 0,
            pass: 0,
            state: SuspendedPass::blank(),
        }
    }
}

// A key to sign a message that is to come.
#[derive(Drop)]
struct Begin<'a> {
    key: &'a [u8],
    ctx: &'a [u8],
    opt_rand: Option<&'a [u8]>,
}

impl<'a> OnSet for Begin<'a> {
    type Out = Result<SuspendedPass, u32>;

    ghost gives = { λ c Z _ result. let opt_rand = option_copied c.opt_rand in
        let number = number_of_refusal (begin_refusal Z c.key.now c.ctx.now opt_rand) in
        MatchResult result
        (λ state. (number ≡ 0) × StandsIn Z 1 state c.key.now opt_rand c.ctx.now [] [])
        (λ e. (e ≡ number) × (e ≢ 0)) };

    fn on<P: SetSuite>(self) -> Result<SuspendedPass, u32> {
        let Ok(key) = SigningKey::<P>::try_from(self.key) else {
            return Err(LENGTH);
        };
        match FirstPass::new(&key, self.ctx, self.opt_rand) {
            Ok(pass) => Ok(SuspendedPass::new(pass)),
            Err(error) => Err(number_of(error)),
        }
    }
}

// Begins, with random bytes or without.
fn begin_by(signer: &mut CSigner, set: u32, key: &[u8], ctx: &[u8], opt_rand: Option<&[u8]>) -> u32
    ensures status { let opt_rand = option_copied opt_rand.entry in
        result ≡ begin_status set key.now ctx.now opt_rand }
    ensures begun { let opt_rand = option_copied opt_rand.entry in
        result ≡ 0 → Signs signer.new key.now opt_rand ctx.now [] [] }
    ensures chosen { result ≡ 0 → (signer.new.set ≡ set) × (signer.new.pass ≡ 1) }
    ensures same { result ≢ 0 → signer.new ≡ signer.old }
{
    let call = Begin { key, ctx, opt_rand };
    match read_in_set(set, call, Err(UNKNOWN_SET)) {
        Ok(state) => {
            *signer = CSigner {
                set,
                pass: 1,
                state,
            };
            OK
        }
        Err(number) => number,
    }
}

/// Begins to sign a message that comes in pieces, as it is, with a context and n random bytes.
#[unsafe(no_mangle)]
pub extern "C" fn slh_dsa_sha2_sign_begin(
    signer: &mut CSigner,
    set: u32,
    key: &[u8],
    ctx: &[u8],
    randomizer: &[u8],
) -> u32
    ensures status { result ≡ begin_status set key.now ctx.now (Some randomizer.now) }
    ensures begun { result ≡ 0 → Signs signer.new key.now (Some randomizer.now) ctx.now [] [] }
    ensures chosen { result ≡ 0 → (signer.new.set ≡ set) × (signer.new.pass ≡ 1) }
    ensures same { result ≢ 0 → signer.new ≡ signer.old }
{
    begin_by(signer, set, key, ctx, Some(randomizer))
}

/// As `slh_dsa_sha2_sign_begin`, with the public seed in place of random bytes.
#[unsafe(no_mangle)]
pub extern "C" fn slh_dsa_sha2_sign_begin_deterministic(
    signer: &mut CSigner,
    set: u32,
    key: &[u8],
    ctx: &[u8],
) -> u32
    ensures status { result ≡ begin_status set key.now ctx.now None }
    ensures begun { result ≡ 0 → Signs signer.new key.now None ctx.now [] [] }
    ensures chosen { result ≡ 0 → (signer.new.set ≡ set) × (signer.new.pass ≡ 1) }
    ensures same { result ≢ 0 → signer.new ≡ signer.old }
{
    begin_by(signer, set, key, ctx, None)
}

// Absorbs a piece of a message in a pass.
fn update_in<P: SetSuite>(
    state: &mut SuspendedPass,
    pass: Pass,
    piece: &[u8],
) -> Option<Result<(), Error>>
    ensures refusal { (key : List ℕ) (opt_rand : Option (List ℕ)) (context rand m : List ℕ)
        → IsAside P.N.USIZE pass state.old key opt_rand context rand m
        → MatchOption result ⊥ (λ r.
        RefusedExactly r (message_refusal MessageTooLong (m ++ piece.now))) }
    ensures joins { (key : List ℕ) (opt_rand : Option (List ℕ)) (context rand m : List ℕ)
        → IsAside P.N.USIZE pass state.old key opt_rand context rand m
        → MatchOption result ⊥ (λ r. OnOk r
        (IsAside P.N.USIZE pass state.new key opt_rand context rand (m ++ piece.now))) }
    ensures overfull { MAX_MESSAGE < state.old.numbers.taken → result ≡ None }
{
    match pass {
        Pass::First => state.update::<P>(piece),
        Pass::Second => state.update_again::<P>(piece),
    }
}

// A piece of a message, in a pass by number.
#[derive(Drop)]
struct Update<'a> {
    pass: u32,
    state: SuspendedPass,
    piece: &'a [u8],
}

impl<'a> OnSet for Update<'a> {
    type Out = Result<SuspendedPass, u32>;

    ghost gives = { λ c Z _ result.
        ((key : List ℕ) (opt_rand : Option (List ℕ)) (context rand m : List ℕ)
        → StandsIn Z c.pass c.state key opt_rand context rand m
        → MatchResult result
        (λ state. (update_number (m ++ c.piece.now) ≡ 0)
        × StandsIn Z c.pass state key opt_rand context rand (m ++ c.piece.now))
        (λ e. e ≡ update_number (m ++ c.piece.now)))
        × (pass_numbered c.pass ≡ None → result ≡ Err 13)
        × (MAX_MESSAGE < c.state.numbers.taken → result ≡ Err 13)
        × MatchResult result (λ _. Unit {0}) (λ e. e ≢ 0) };

    fn on<P: SetSuite>(self) -> Result<SuspendedPass, u32> {
        let Some(pass) = pass_of(self.pass) else {
            return Err(STATE);
        };
        let mut state = self.state;
        match update_in::<P>(&mut state, pass, self.piece) {
            Some(Ok(())) => Ok(state),
            Some(Err(_)) => Err(MESSAGE_TOO_LONG),
            None => Err(STATE),
        }
    }
}

/// Absorbs a piece of the message, after those before, in either pass.
#[unsafe(no_mangle)]
pub extern "C" fn slh_dsa_sha2_sign_update(signer: &mut CSigner, piece: &[u8]) -> u32
    ensures status { (key : List ℕ) (opt_rand : Option (List ℕ)) (context rand m : List ℕ)
        → Signs signer.old key opt_rand context rand m
        → result ≡ update_number (m ++ piece.now) }
    ensures joins { (key : List ℕ) (opt_rand : Option (List ℕ)) (context rand m : List ℕ)
        → Signs signer.old key opt_rand context rand m
        → result ≡ 0 → Signs signer.new key opt_rand context rand (m ++ piece.now) }
    ensures chosen { (signer.new.set ≡ signer.old.set) × (signer.new.pass ≡ signer.old.pass) }
    ensures unknown { IsNone signer.old → result ≡ 13 }
    ensures overfull { IsOverfull signer.old → result ≢ 0 }
    ensures same { result ≢ 0 → signer.new ≡ signer.old }
{
    let call = Update {
        pass: signer.pass,
        state: signer.state.copy(),
        piece,
    };
    let absorbed = read_in_set(signer.set, call, Err(STATE));
    tell(absorbed, &mut signer.state)
}

// A pass that is over, by number.
#[derive(Drop)]
struct Again<'a> {
    pass: u32,
    state: SuspendedPass,
    ctx: &'a [u8],
}

impl<'a> OnSet for Again<'a> {
    type Out = Result<SuspendedPass, u32>;

    ghost gives = { λ c Z _ result. let number = number_of_refusal
        (context_refusal ContextTooLong c.ctx.now) in
        ((key : List ℕ) (opt_rand : Option (List ℕ)) (context rand m : List ℕ) → c.pass ≡ 1
        → StandsIn Z c.pass c.state key opt_rand context rand m
        → MatchResult result
        (λ state. (number ≡ 0) × StandsIn Z 2 state key opt_rand c.ctx.now
        (randomizer_for Z key opt_rand (frame context m)) [])
        (λ e. e ≡ number))
        × (c.pass ≢ 1 → result ≡ Err 13)
        × (MAX_MESSAGE < c.state.numbers.taken → result ≡ Err 13)
        × MatchResult result (λ _. Unit {0}) (λ e. e ≢ 0) };

    fn on<P: SetSuite>(self) -> Result<SuspendedPass, u32> {
        if self.pass != 1 {
            return Err(STATE);
        }
        let mut state = self.state;
        match state.again::<P>(self.ctx) {
            Some(Ok(())) => Ok(state),
            Some(Err(error)) => Err(number_of(error)),
            None => Err(STATE),
        }
    }
}

/// Begins the second pass, over the same pieces once more, with the same context.
#[unsafe(no_mangle)]
pub extern "C" fn slh_dsa_sha2_sign_again(signer: &mut CSigner, ctx: &[u8]) -> u32
    ensures status { (key : List ℕ) (opt_rand : Option (List ℕ)) (context rand m : List ℕ)
        → Signs signer.old key opt_rand context rand m → signer.old.pass ≡ 1
        → result ≡ number_of_refusal (context_refusal ContextTooLong ctx.now) }
    ensures begun { (key : List ℕ) (opt_rand : Option (List ℕ)) (context rand m : List ℕ)
        → Signs signer.old key opt_rand context rand m → signer.old.pass ≡ 1 → result ≡ 0
        → Signs signer.new key opt_rand ctx.now
        (randomizer_in signer.old.set key opt_rand (frame context m)) [] }
    ensures chosen { result ≡ 0 → (signer.new.set ≡ signer.old.set) × (signer.new.pass ≡ 2) }
    ensures unknown { IsNone signer.old → result ≡ 13 }
    ensures late { signer.old.pass ≢ 1 → result ≡ 13 }
    ensures overfull { IsOverfull signer.old → result ≢ 0 }
    ensures same { result ≢ 0 → signer.new ≡ signer.old }
{
    let call = Again {
        pass: signer.pass,
        state: signer.state.copy(),
        ctx,
    };
    match read_in_set(signer.set, call, Err(STATE)) {
        Ok(state) => {
            signer.state = state;
            signer.pass = 2;
            OK
        }
        Err(number) => number,
    }
}

// The number of a refusal of the second pass.
fn number_of_pass(error: PassError) -> u32
    ensures { result ≡ pass_number (Some error) }
{
    match error {
        PassError::Length => LENGTH,
        PassError::Changed => CHANGED,
    }
}

// Ends the second pass by a key of bytes.
#[tactic(auto, unfolding(crate::specs::SignPieces::finish_number))]
fn finish_by<P: SetSuite>(state: &SuspendedPass, key: &[u8], out: &mut [u8]) -> u32
    ensures status { (opt_rand : Option (List ℕ)) (context rand m : List ℕ)
        → IsSecondAside P.scheme.n state.now key.now opt_rand context rand m
        → result ≡ finish_number P.scheme key.now opt_rand (frame context m) rand (length out.old) }
    ensures value { (opt_rand : Option (List ℕ)) (context rand m : List ℕ)
        → IsSecondAside P.scheme.n state.now key.now opt_rand context rand m → result ≡ 0
        → out.new ≡ signature_of P.scheme key.now opt_rand (frame context m) }
    ensures other { (begun : List ℕ) (opt_rand : Option (List ℕ)) (context rand m : List ℕ)
        → IsSecondAside P.scheme.n state.now begun opt_rand context rand m
        → IsOtherKey P.scheme key.now begun → result ≡ 13 }
    ensures length { length key.now ≢ 4 * P.scheme.n → result ≡ 5 }
    ensures ended { result ≡ 0 → IsEnded P.scheme P.scheme.n state.now key.now out.new }
    ensures same { result ≢ 0 → out.new ≡ out.old }
{
    let Ok(key) = SigningKey::<P>::try_from(key) else {
        return LENGTH;
    };
    match state.finish_into::<P>(&key, out) {
        Some(Ok(())) => OK,
        Some(Err(error)) => number_of_pass(error),
        None => STATE,
    }
}

// A pass that is over, by number, and the key again.
#[derive(Drop)]
struct Finish<'a> {
    pass: u32,
    state: SuspendedPass,
    key: &'a [u8],
}

impl<'a> WriteOnSet for Finish<'a> {
    type Out = u32;

    ghost gives = { λ c Z len status.
        ((opt_rand : Option (List ℕ)) (context rand m : List ℕ) → c.pass ≡ 2
        → StandsIn Z c.pass c.state c.key.now opt_rand context rand m
        → status ≡ finish_number Z c.key.now opt_rand (frame context m) rand len)
        × ((begun : List ℕ) (opt_rand : Option (List ℕ)) (context rand m : List ℕ)
        → StandsIn Z c.pass c.state begun opt_rand context rand m
        → IsOtherKey Z c.key.now begun → status ≡ 13)
        × (c.pass ≡ 2 → length c.key.now ≢ 4 * Z.n → status ≡ 5)
        × (c.pass ≢ 2 → status ≡ 13) };

    ghost wrote = { λ status. status ≡ 0 };

    ghost writes = { λ c Z sig. ((opt_rand : Option (List ℕ)) (context rand m : List ℕ)
        → StandsIn Z c.pass c.state c.key.now opt_rand context rand m
        → sig ≡ signature_of Z c.key.now opt_rand (frame context m))
        × IsEnded Z Z.n c.state c.key.now sig };

    fn write<P: SetSuite>(self, out: &mut [u8]) -> u32 {
        if self.pass != 2 {
            return STATE;
        }
        finish_by::<P>(&self.state, self.key, out)
    }
}

/// Writes the signature of what the second pass absorbed. The signing key is handed in a second
/// time, and the signer is used up: its PRF key is written over.
#[unsafe(no_mangle)]
pub extern "C" fn slh_dsa_sha2_sign_finish(signer: &mut CSigner, key: &[u8], sig: &mut [u8]) -> u32
    ensures status { (opt_rand : Option (List ℕ)) (context rand m : List ℕ)
        → Signs signer.old key.now opt_rand context rand m → signer.old.pass ≡ 2 → result
        ≡ finish_status signer.old.set key.now opt_rand (frame context m) rand (length sig.old) }
    ensures value { (opt_rand : Option (List ℕ)) (context rand m : List ℕ)
        → Signs signer.old key.now opt_rand context rand m → result ≡ 0
        → IfSome (scheme_numbered signer.old.set) (λ Z.
        sig.new ≡ signature_of Z key.now opt_rand (frame context m)) }
    ensures other { (begun : List ℕ) (opt_rand : Option (List ℕ)) (context rand m : List ℕ)
        → Signs signer.old begun opt_rand context rand m
        → IsOtherKeyIn signer.old.set key.now begun → result ≡ 13 }
    ensures length { HasOtherLength signer.old.set key.now → signer.old.pass ≡ 2 → result ≡ 5 }
    ensures unknown { IsNone signer.old → result ≡ 13 }
    ensures early { signer.old.pass ≢ 2 → result ≡ 13 }
    ensures ended { result ≡ 0 → Ends signer.old key.now sig.new }
    ensures spent { IsNone signer.new }
    ensures wiped { IsBlank signer.new.state.numbers }
    ensures same { result ≢ 0 → sig.new ≡ sig.old }
{
    let call = Finish {
        pass: signer.pass,
        state: signer.state.copy(),
        key,
    };
    let status = write_in_set(signer.set, call, sig, STATE);
    *signer = CSigner::new();
    status
}
