//! Verifying with an export for each parameter set, so that a linker leaves out the sets that a
//! program doesn't call.
ghost use Rattle.std.specs.Prelude.{◌≡◌};
ghost use Rattle.slh_dsa_c.specs.Status.{verify_number, verify_status};

use crate::mode::mode_of;
use crate::status::{LENGTH, UNKNOWN_MODE, number_of_answer};
use slh_dsa::{
    SetSizes, Sha2_128f, Sha2_128s, Sha2_192f, Sha2_192s, Sha2_256f, Sha2_256s, VerifyingKey,
};

// The status of a signature in a set.
#[tactic(auto, unfolding(crate::specs::Status::verify_error_by_key))]
fn verify_in<P: SetSizes>(mode: u32, public: &[u8], msg: &[u8], ctx: &[u8], sig: &[u8]) -> u32
    ensures { result ≡ verify_number P.scheme mode public.now ctx.now msg.now sig.now }
{
    let Some(mode) = mode_of(mode) else {
        return UNKNOWN_MODE;
    };
    let Ok(key) = VerifyingKey::<P>::try_from(public) else {
        return LENGTH;
    };
    number_of_answer(key.hash_verify(mode, msg, ctx, sig))
}

/// As `slh_dsa_sha2_verify`, in SLH-DSA-SHA2-128s.
#[unsafe(no_mangle)]
pub extern "C" fn slh_dsa_sha2_128s_verify(
    mode: u32,
    public: &[u8; 32],
    msg: &[u8],
    ctx: &[u8],
    sig: &[u8; 7856],
) -> u32
    ensures { result ≡ verify_status 1 mode public.now ctx.now msg.now sig.now }
{
    verify_in::<Sha2_128s>(mode, public, msg, ctx, sig)
}

/// As `slh_dsa_sha2_verify`, in SLH-DSA-SHA2-128f.
#[unsafe(no_mangle)]
pub extern "C" fn slh_dsa_sha2_128f_verify(
    mode: u32,
    public: &[u8; 32],
    msg: &[u8],
    ctx: &[u8],
    sig: &[u8; 17088],
) -> u32
    ensures { result ≡ verify_status 2 mode public.now ctx.now msg.now sig.now }
{
    verify_in::<Sha2_128f>(mode, public, msg, ctx, sig)
}

/// As `slh_dsa_sha2_verify`, in SLH-DSA-SHA2-192s.
#[unsafe(no_mangle)]
pub extern "C" fn slh_dsa_sha2_192s_verify(
    mode: u32,
    public: &[u8; 48],
    msg: &[u8],
    ctx: &[u8],
    sig: &[u8; 16224],
) -> u32
    ensures { result ≡ verify_status 3 mode public.now ctx.now msg.now sig.now }
{
    verify_in::<Sha2_192s>(mode, public, msg, ctx, sig)
}

/// As `slh_dsa_sha2_verify`, in SLH-DSA-SHA2-192f.
#[unsafe(no_mangle)]
pub extern "C" fn slh_dsa_sha2_192f_verify(
    mode: u32,
    public: &[u8; 48],
    msg: &[u8],
    ctx: &[u8],
    sig: &[u8; 35664],
) -> u32
    ensures { result ≡ verify_status 4 mode public.now ctx.now msg.now sig.now }
{
    verify_in::<Sha2_192f>(mode, public, msg, ctx, sig)
}

/// As `slh_dsa_sha2_verify`, in SLH-DSA-SHA2-256s.
#[unsafe(no_mangle)]
pub extern "C" fn slh_dsa_sha2_256s_verify(
    mode: u32,
    public: &[u8; 64],
    msg: &[u8],
    ctx: &[u8],
    sig: &[u8; 29792],
) -> u32
    ensures { result ≡ verify_status 5 mode public.now ctx.now msg.now sig.now }
{
    verify_in::<Sha2_256s>(mode, public, msg, ctx, sig)
}

/// As `slh_dsa_sha2_verify`, in SLH-DSA-SHA2-256f.
#[unsafe(no_mangle)]
pub extern "C" fn slh_dsa_sha2_256f_verify(
    mode: u32,
    public: &[u8; 64],
    msg: &[u8],
    ctx: &[u8],
    sig: &[u8; 49856],
) -> u32
    ensures { result ≡ verify_status 6 mode public.now ctx.now msg.now sig.now }
{
    verify_in::<Sha2_256f>(mode, public, msg, ctx, sig)
}
