//! A verifier and a pass that are put aside and then called as another one: in another mode, or in
//! another pass.
use crate::keys_128f::{key, public};
use crate::shown::shows;
use slh_dsa::{Error, Mode, Sha2_128f};
use slh_stream::{FirstPass, MessageVerifier, PassError, SuspendedPass, SuspendedVerifier};

const WHOLE: &[u8] = b"pay 10 to Bob";

const MORE: &[u8] = b" and 1000 to Eve";

const RANDOMIZER: [u8; 16] = [7; 16];

// The signature of the whole message as `slh_dsa` makes it, and zeros where none was made.
fn signed_at_once() -> [u8; 17088] {
    let mut sig = [0; 17088];
    match key(3).hash_sign_into(Mode::Pure, WHOLE, b"", Some(&RANDOMIZER), &mut sig) {
        Ok(()) => sig,
        Err(_) => [0; 17088],
    }
}

fn first_pass() -> Result<SuspendedPass, Error> {
    let key = key(3);
    let pass = FirstPass::<Sha2_128f>::new(&key, b"", Some(&RANDOMIZER))?;
    Ok(SuspendedPass::new(pass))
}

// Whether a call was made.
fn is_done(answer: Option<Result<(), Error>>) -> bool {
    answer == Some(Ok(()))
}

fn takes(state: &mut SuspendedPass, piece: &[u8]) -> bool {
    is_done(state.update::<Sha2_128f>(piece))
}

fn takes_again(state: &mut SuspendedPass, piece: &[u8]) -> bool {
    is_done(state.update_again::<Sha2_128f>(piece))
}

fn begins_again(state: &mut SuspendedPass) -> bool {
    is_done(state.again::<Sha2_128f>(b""))
}

fn finish(state: &SuspendedPass, out: &mut [u8]) -> Option<Result<(), PassError>> {
    state.finish_into::<Sha2_128f>(&key(3), out)
}

// A pass that has absorbed the whole message once, and begun the second time.
fn second_pass() -> Option<SuspendedPass> {
    let mut state = first_pass().ok()?;
    let begun = takes(&mut state, WHOLE) && begins_again(&mut state);
    if begun { Some(state) } else { None }
}

// Whether both passes, put aside before each piece, write what `hash_sign_into` does.
fn is_signed_as_at_once() -> Option<bool> {
    let mut state = second_pass()?;
    let (first, second) = WHOLE.split_at(4);
    if !takes_again(&mut state, first) || !takes_again(&mut state, second) {
        return None;
    }
    let mut sig = [0; 17088];
    let answer = finish(&state.copy(), &mut sig);
    Some(answer == Some(Ok(())) && sig == signed_at_once())
}

#[test]
fn passes_that_are_put_aside_write_what_one_call_does(rt: HostRuntime) {
    shows(&rt, is_signed_as_at_once() == Some(true));
}

// Whether a second pass refuses the calls of the first, and is then refused as one over nothing.
fn is_no_first_pass() -> Option<bool> {
    let mut state = second_pass()?;
    let (piece, pass) = (takes(&mut state, WHOLE), begins_again(&mut state));
    let mut sig = [0; 17088];
    let answer = finish(&state, &mut sig);
    Some(!piece && !pass && answer == Some(Err(PassError::Changed)) && sig == [0; 17088])
}

#[test]
fn a_second_pass_takes_no_piece_of_the_first(rt: HostRuntime) {
    shows(&rt, is_no_first_pass() == Some(true));
}

// Whether a first pass refuses the calls of the second.
fn is_no_second_pass() -> Option<bool> {
    let mut state = first_pass().ok()?;
    let piece = takes_again(&mut state, WHOLE);
    let mut sig = [0; 17088];
    let answer = finish(&state, &mut sig);
    Some(!piece && answer.is_none() && sig == [0; 17088])
}

#[test]
fn a_first_pass_has_no_end(rt: HostRuntime) {
    shows(&rt, is_no_second_pass() == Some(true));
}

fn verifier(mode: Mode, sig: &[u8]) -> Result<SuspendedVerifier, Error> {
    let verifier = MessageVerifier::<Sha2_128f>::new(&public(3), mode, b"", sig)?;
    Ok(SuspendedVerifier::new(verifier))
}

// Whether a verifier that was begun for the mode `Pure` refuses a piece in another, and its end
// there, and is left as it was.
fn is_in_one_mode(sig: &[u8]) -> Option<bool> {
    let mut state = verifier(Mode::Pure, sig).ok()?;
    let whole = is_done(state.update::<Sha2_128f>(Mode::Pure, WHOLE));
    let more = state.update::<Sha2_128f>(Mode::Sha256, MORE);
    let end = state.finish::<Sha2_128f>(Mode::Sha256, sig);
    let good = is_done(state.finish::<Sha2_128f>(Mode::Pure, sig));
    Some(whole && more.is_none() && end.is_none() && good)
}

#[test]
fn a_verifier_takes_no_piece_in_another_mode(rt: HostRuntime) {
    shows(&rt, is_in_one_mode(&signed_at_once()) == Some(true));
}
