//! Signing and verifying by the digest of a message.
ghost use Rattle.std.specs.Prelude.{◌≡◌, ◌≢◌, length, None, Some, IfSome};
ghost use Rattle.std.specs.Option.{option_copied};
ghost use Rattle.slh_dsa_c.specs.Numbers.{mode_numbered};
ghost use Rattle.slh_dsa_c.specs.Status.{number_of_refusal, sign_digest_refusal_by_key};
ghost use Rattle.slh_dsa_c.specs.Status.{sign_digest_status, verify_digest_error_by_key};
ghost use Rattle.slh_dsa_c.specs.Status.{verify_digest_status};
ghost use Rattle.slh_sets.specs.Sets.{scheme_numbered};
ghost use Rattle.slh_stream.specs.Digests.{digest_frame};
ghost use Rattle.slh_trees.specs.Signing.{signature_of};

use crate::mode::{mode_of, read_in_mode};
use crate::status::{LENGTH, OK, UNKNOWN_MODE, UNKNOWN_SET, number_of, number_of_answer};
use slh_dsa::{Mode, SigningKey, VerifyingKey};
use slh_sets::{OnSet, Set, SetSuite, WriteOnSet};
use slh_stream::{sign_digest, verify_digest};

// A signature to verify by the digest of its message.
#[derive(Drop)]
struct VerifyDigest<'a> {
    mode: Mode,
    public: &'a [u8],
    digest: &'a [u8],
    ctx: &'a [u8],
    sig: &'a [u8],
}

impl<'a> OnSet for VerifyDigest<'a> {
    type Out = u32;

    ghost gives = { λ c Z _ result. result ≡ number_of_refusal
        (verify_digest_error_by_key Z c.mode c.public.now c.ctx.now c.digest.now c.sig.now) };

    fn on<P: SetSuite>(self) -> u32 {
        let Ok(key) = VerifyingKey::<P>::try_from(self.public) else {
            return LENGTH;
        };
        number_of_answer(verify_digest(&key, self.mode, self.digest, self.ctx, self.sig))
    }
}

/// Verifies a signature by the digest of the message, of 32 bytes in the mode of SHA-256 and 64 in
/// that of SHA-512 (FIPS 205, algorithm 25, from line 12 on).
#[unsafe(no_mangle)]
pub extern "C" fn slh_dsa_sha2_verify_digest(
    set: u32,
    mode: u32,
    public: &[u8],
    digest: &[u8],
    ctx: &[u8],
    sig: &[u8],
) -> u32
    ensures { result ≡ verify_digest_status set mode public.now ctx.now digest.now sig.now }
{
    let call = |mode| VerifyDigest {
        mode,
        public,
        digest,
        ctx,
        sig,
    };
    read_in_mode(set, mode, call)
}

// A message to sign by its digest.
#[derive(Drop)]
struct SignDigest<'a> {
    mode: Mode,
    key: &'a [u8],
    digest: &'a [u8],
    ctx: &'a [u8],
    opt_rand: Option<&'a [u8]>,
}

impl<'a> WriteOnSet for SignDigest<'a> {
    type Out = u32;

    ghost gives = { λ c Z len status. let opt_rand = option_copied c.opt_rand in
        status ≡ number_of_refusal
        (sign_digest_refusal_by_key Z c.mode c.key.now c.ctx.now opt_rand c.digest.now len) };

    ghost wrote = { λ status. status ≡ 0 };

    ghost writes = { λ c Z sig. let opt_rand = option_copied c.opt_rand in
        sig ≡ signature_of Z c.key.now opt_rand (digest_frame c.mode c.ctx.now c.digest.now) };

    fn write<P: SetSuite>(self, out: &mut [u8]) -> u32 {
        let Ok(key) = SigningKey::<P>::try_from(self.key) else {
            return LENGTH;
        };
        match sign_digest(&key, self.mode, self.digest, self.ctx, self.opt_rand, out) {
            Ok(()) => OK,
            Err(error) => number_of(error),
        }
    }
}

// Signs in the set of a number, with random bytes or without.
fn sign_in_set(
    set: u32,
    mode: u32,
    key: &[u8],
    digest: &[u8],
    ctx: &[u8],
    opt_rand: Option<&[u8]>,
    sig: &mut [u8],
) -> u32
    ensures status { let opt_rand = option_copied opt_rand.entry in
        result ≡ sign_digest_status set mode key.now ctx.now opt_rand digest.now
        (length sig.old) }
    ensures value { let opt_rand = option_copied opt_rand.entry in
        result ≡ 0 → IfSome (scheme_numbered set) (λ Z. IfSome (mode_numbered mode) (λ m.
        sig.new ≡ signature_of Z key.now opt_rand (digest_frame m ctx.now digest.now))) }
    ensures same { result ≢ 0 → sig.new ≡ sig.old }
{
    let Some(set) = Set::from_number(set) else {
        return UNKNOWN_SET;
    };
    let Some(mode) = mode_of(mode) else {
        return UNKNOWN_MODE;
    };
    let call = SignDigest {
        mode,
        key,
        digest,
        ctx,
        opt_rand,
    };
    set.run_into(call, sig)
}

/// Signs a message by its digest, of 32 bytes in the mode of SHA-256 and 64 in that of SHA-512
/// (FIPS 205, algorithm 23, from line 15 on), with n random bytes. Writes the signature.
#[unsafe(no_mangle)]
pub extern "C" fn slh_dsa_sha2_sign_digest(
    set: u32,
    mode: u32,
    key: &[u8],
    digest: &[u8],
    ctx: &[u8],
    randomizer: &[u8],
    sig: &mut [u8],
) -> u32
    ensures status { result ≡ sign_digest_status set mode key.now ctx.now (Some randomizer.now)
        digest.now (length sig.old) }
    ensures value { result ≡ 0 → IfSome (scheme_numbered set) (λ Z.
        IfSome (mode_numbered mode) (λ m. sig.new ≡ signature_of Z key.now (Some randomizer.now)
        (digest_frame m ctx.now digest.now))) }
    ensures same { result ≢ 0 → sig.new ≡ sig.old }
{
    sign_in_set(set, mode, key, digest, ctx, Some(randomizer), sig)
}

/// As `slh_dsa_sha2_sign_digest`, with the public seed in place of random bytes: the same bytes each
/// time.
#[unsafe(no_mangle)]
pub extern "C" fn slh_dsa_sha2_sign_digest_deterministic(
    set: u32,
    mode: u32,
    key: &[u8],
    digest: &[u8],
    ctx: &[u8],
    sig: &mut [u8],
) -> u32
    ensures status { result ≡ sign_digest_status set mode key.now ctx.now None digest.now
        (length sig.old) }
    ensures value { result ≡ 0 → IfSome (scheme_numbered set) (λ Z.
        IfSome (mode_numbered mode) (λ m. sig.new ≡ signature_of Z key.now None
        (digest_frame m ctx.now digest.now))) }
    ensures same { result ≢ 0 → sig.new ≡ sig.old }
{
    sign_in_set(set, mode, key, digest, ctx, None, sig)
}
