//! What the calls on pieces and on digests have to do with the calls in one piece, and what a caller
//! learns who hands in a message in two pieces.
ghost use Rattle.std.specs.Prelude.{◌≡◌, ℕ, ◌*◌, ◌≤◌, List, ◌++◌, drop, length, Option, None};
ghost use Rattle.std.specs.Prelude.{◌↔◌, ◌≢◌, IfOk, IsOk, IsTrue, Ok, OnOk, true};
ghost use Rattle.std.specs.Option.{option_copied};
ghost use Rattle.sha256_lanes.specs.Sha256.{sha256};
ghost use Rattle.sha2.specs.Sha512.{sha512};
ghost use Rattle.slh_dsa.specs.Calls.{hash_verify_error};
ghost use Rattle.slh_core.specs.Refusals.{RefusedExactly};
ghost use Rattle.slh_frames.specs.Frames.{frame, mode_frame};
ghost use Rattle.slh_frames.specs.declared.frame.Mode.TheVariants.{Sha256, Sha512};
ghost use Rattle.slh_stream.specs.Digests.{digest_frame, verify_digest_error};
ghost use Rattle.slh_stream.specs.Passes.{pass_refusal, passes_refusal, randomizer_for};
ghost use Rattle.slh_trees.specs.Checking.{signature_size};
ghost use Rattle.slh_trees.specs.Keys.{IsTrueKey};
ghost use Rattle.slh_trees.specs.Signing.{signature_of};

use crate::digest_signer::{DigestSigner, Digesting};
use crate::pass_error::PassError;
use crate::passes::{FirstPass, Passing, SecondPass};
use crate::verifier::MessageVerifier;
use slh_core::pieces::MessageSuite;
use slh_dsa::laws::signed_is_accepted;
use slh_dsa::{Error, Mode, SetSizes, SigningKey, VerifyingKey};
use slh_frames::{MAX_CONTEXT, MAX_MESSAGE};

/// A second pass over the bytes of the first is never refused as changed.
pub fn same_is_unchanged<P: SetSizes>()
    ensures { (key message : List ℕ) (opt_rand : Option (List ℕ))
        → pass_refusal P.scheme key opt_rand message
        (randomizer_for P.scheme key opt_rand message) (signature_size P.scheme) ≡ None }
{}

/// What is signed for a digest is what is signed for the message that has it, and verifying answers
/// the same.
pub fn digests_agree<P: SetSizes>()
    ensures frame_256 { (context m : List ℕ)
        → digest_frame Sha256 context (sha256 m) ≡ mode_frame Sha256 context m }
    ensures frame_512 { (context m : List ℕ)
        → digest_frame Sha512 context (sha512 m) ≡ mode_frame Sha512 context m }
    ensures answer_256 { (key context m sig : List ℕ) → length m ≤ MAX_MESSAGE
        → verify_digest_error P.scheme Sha256 key context (sha256 m) sig
        ≡ hash_verify_error P.scheme Sha256 key context m sig }
    ensures answer_512 { (key context m sig : List ℕ) → length m ≤ MAX_MESSAGE
        → verify_digest_error P.scheme Sha512 key context (sha512 m) sig
        ≡ hash_verify_error P.scheme Sha512 key context m sig }
{}

/// Verifies a message of two pieces: the answer is that of the call in one piece for the pieces
/// joined.
pub fn verify_two<P: SetSizes + MessageSuite>(
    key: &VerifyingKey<P>,
    mode: Mode,
    ctx: &[u8],
    sig: &[u8],
    first: &[u8],
    second: &[u8],
) -> Result<(), Error>
    ensures { RefusedExactly result
        (hash_verify_error P.scheme mode key.now ctx.now (first.now ++ second.now) sig.now) }
{
    let mut verifier = MessageVerifier::<P>::new(key, mode, ctx, sig)?;
    verifier.update(first)?;
    verifier.update(second)?;
    verifier.finish()
}

/// Signs the two pieces of a second pass, whatever the first pass was given. False: PRF_msg of the
/// two isn't that of what the first pass was given, or `out` doesn't have the bytes of a signature.
pub fn sign_two<P: SetSizes + MessageSuite>(
    key: &SigningKey<P>,
    ctx: &[u8],
    opt_rand: Option<&[u8]>,
    before: &[u8],
    first: &[u8],
    second: &[u8],
    out: &mut [u8],
) -> Result<bool, Error>
    ensures value { let opt_rand = option_copied opt_rand.entry in
        let message = frame ctx.now (first.now ++ second.now) in
        OnOk result (result ≡ Ok true → out.new ≡ signature_of P.scheme key.now opt_rand message) }
    ensures signed { let opt_rand = option_copied opt_rand.entry in
        let message = frame ctx.now (first.now ++ second.now) in
        let rand = randomizer_for P.scheme key.now opt_rand (frame ctx.now before.now) in
        IfOk result (λ is_signed. IsTrue is_signed
        ↔ (pass_refusal P.scheme key.now opt_rand message rand (length out.old) ≡ None)) }
    ensures refusal { let opt_rand = option_copied opt_rand.entry in RefusedExactly result
        (passes_refusal P.scheme ctx.now opt_rand before.now (first.now ++ second.now)) }
    ensures same { result ≢ Ok true → out.new ≡ out.old }
{
    let mut pass = FirstPass::<P>::new(key, ctx, opt_rand)?;
    pass.update(before)?;
    let mut pass = pass.again();
    pass.update(first)?;
    pass.update(second)?;
    match pass.finish_into(out) {
        Ok(()) => Ok(true),
        Err(_) => Ok(false),
    }
}

/// What a second pass over two pieces writes, a verifier of the same pieces accepts, under a key
/// with the root of its own seeds.
pub fn finished_is_accepted<'a, P: SetSizes + MessageSuite>(
    pass: SecondPass<'a, P>,
    key: &VerifyingKey<P>,
    ctx: &[u8],
    first: &[u8],
    second: &[u8],
    out: &mut [u8],
) -> Result<Result<(), Error>, PassError>
    ensures { (signing : List ℕ) (opt_rand : Option (List ℕ))
        → ⟦<SecondPass<'a, P> as Passing>⟧.passes pass.entry signing opt_rand ctx.now
        (first.now ++ second.now)
        → IsTrueKey P.scheme signing
        → length signing ≡ 4 * P.N.USIZE
        → key.now ≡ drop (2 * P.N.USIZE) signing
        → length ctx.now ≤ MAX_CONTEXT
        → length (first.now ++ second.now) ≤ MAX_MESSAGE
        → IfOk result (λ answer. IsOk answer) }
{
    signed_is_accepted::<P>();
    pass.finish_into(out)?;
    Ok(verify_two(key, Mode::Pure, ctx, out, first, second))
}

/// What a signer writes of the digest of two pieces, a verifier of the same pieces accepts in the same
/// mode, under a key with the root of its own seeds.
pub fn digested_is_accepted<'a, P: SetSizes + MessageSuite>(
    signer: DigestSigner<'a, P>,
    key: &VerifyingKey<P>,
    mode: Mode,
    ctx: &[u8],
    first: &[u8],
    second: &[u8],
    out: &mut [u8],
) -> Result<Result<(), Error>, Error>
    ensures { (signing : List ℕ) (opt_rand : Option (List ℕ))
        → ⟦<DigestSigner<'a, P> as Digesting>⟧.digests signer.entry mode signing opt_rand ctx.now
        (first.now ++ second.now)
        → IsTrueKey P.scheme signing
        → length signing ≡ 4 * P.N.USIZE
        → key.now ≡ drop (2 * P.N.USIZE) signing
        → length ctx.now ≤ MAX_CONTEXT
        → length (first.now ++ second.now) ≤ MAX_MESSAGE
        → IfOk result (λ answer. IsOk answer) }
{
    signed_is_accepted::<P>();
    signer.finish_into(out)?;
    Ok(verify_two(key, mode, ctx, out, first, second))
}

/// A clone of a refusal is that refusal, and `==` holds exactly where both are the same.
pub fn clone_and_equality_of_pass_errors(a: &PassError, b: &PassError) -> (PassError, bool)
    ensures clone { result.0 ≡ a.now }
    ensures equal { IsTrue result.1 ↔ (a.now ≡ b.now) }
{
    (a.clone().unwrap(), a == b)
}
