//! Verifying in one parameter set by little code: values one after the other, and messages block by
//! block.
ghost use Rattle.std.specs.Prelude.{◌≡◌};
ghost use Rattle.slh_dsa_c.specs.Status.{number_of_refusal, verify_error_by_key, verify_number};
ghost use Rattle.slh_dsa_c.specs.Status.{verify_status};
ghost use Rattle.slh_frames.specs.declared.frame.Mode.TheVariants.{Pure};

use crate::mode::mode_of;
use crate::one_by_one::OneByOne;
use crate::status::{LENGTH, UNKNOWN_MODE, number_of_answer};
use slh_dsa::{
    SetSizes, Sha2_128f, Sha2_128s, Sha2_192f, Sha2_192s, Sha2_256f, Sha2_256s, VerifyingKey,
};

// The status of a signature in a set.
#[tactic(auto, unfolding(crate::specs::Status::verify_error_by_key))]
fn small_in<P: SetSizes>(mode: u32, public: &[u8], msg: &[u8], ctx: &[u8], sig: &[u8]) -> u32
    ensures { result ≡ verify_number P.scheme mode public.now ctx.now msg.now sig.now }
{
    let Some(mode) = mode_of(mode) else {
        return UNKNOWN_MODE;
    };
    let Ok(key) = VerifyingKey::<P>::try_from(public) else {
        return LENGTH;
    };
    number_of_answer(key.verify_small(mode, msg, ctx, sig))
}

// The status of a signature of a message as it is in a set.
#[tactic(auto, unfolding(crate::specs::Status::verify_error_by_key))]
fn pure_in<P: SetSizes>(public: &[u8], msg: &[u8], ctx: &[u8], sig: &[u8]) -> u32
    ensures { result ≡ number_of_refusal
        (verify_error_by_key P.scheme Pure public.now ctx.now msg.now sig.now) }
{
    let Ok(key) = VerifyingKey::<P>::try_from(public) else {
        return LENGTH;
    };
    number_of_answer(key.verify_pure(msg, ctx, sig))
}

/// As `slh_dsa_sha2_128s_verify`, in less code and more time.
#[unsafe(no_mangle)]
pub extern "C" fn slh_dsa_sha2_128s_verify_small(
    mode: u32,
    public: &[u8; 32],
    msg: &[u8],
    ctx: &[u8],
    sig: &[u8; 7856],
) -> u32
    ensures { result ≡ verify_status 1 mode public.now ctx.now msg.now sig.now }
{
    small_in::<OneByOne<Sha2_128s>>(mode, public, msg, ctx, sig)
}

/// As `slh_dsa_sha2_128f_verify`, in less code and more time.
#[unsafe(no_mangle)]
pub extern "C" fn slh_dsa_sha2_128f_verify_small(
    mode: u32,
    public: &[u8; 32],
    msg: &[u8],
    ctx: &[u8],
    sig: &[u8; 17088],
) -> u32
    ensures { result ≡ verify_status 2 mode public.now ctx.now msg.now sig.now }
{
    small_in::<OneByOne<Sha2_128f>>(mode, public, msg, ctx, sig)
}

/// As `slh_dsa_sha2_192s_verify`, in less code and more time.
#[unsafe(no_mangle)]
pub extern "C" fn slh_dsa_sha2_192s_verify_small(
    mode: u32,
    public: &[u8; 48],
    msg: &[u8],
    ctx: &[u8],
    sig: &[u8; 16224],
) -> u32
    ensures { result ≡ verify_status 3 mode public.now ctx.now msg.now sig.now }
{
    small_in::<OneByOne<Sha2_192s>>(mode, public, msg, ctx, sig)
}

/// As `slh_dsa_sha2_192f_verify`, in less code and more time.
#[unsafe(no_mangle)]
pub extern "C" fn slh_dsa_sha2_192f_verify_small(
    mode: u32,
    public: &[u8; 48],
    msg: &[u8],
    ctx: &[u8],
    sig: &[u8; 35664],
) -> u32
    ensures { result ≡ verify_status 4 mode public.now ctx.now msg.now sig.now }
{
    small_in::<OneByOne<Sha2_192f>>(mode, public, msg, ctx, sig)
}

/// As `slh_dsa_sha2_256s_verify`, in less code and more time.
#[unsafe(no_mangle)]
pub extern "C" fn slh_dsa_sha2_256s_verify_small(
    mode: u32,
    public: &[u8; 64],
    msg: &[u8],
    ctx: &[u8],
    sig: &[u8; 29792],
) -> u32
    ensures { result ≡ verify_status 5 mode public.now ctx.now msg.now sig.now }
{
    small_in::<OneByOne<Sha2_256s>>(mode, public, msg, ctx, sig)
}

/// As `slh_dsa_sha2_256f_verify`, in less code and more time.
#[unsafe(no_mangle)]
pub extern "C" fn slh_dsa_sha2_256f_verify_small(
    mode: u32,
    public: &[u8; 64],
    msg: &[u8],
    ctx: &[u8],
    sig: &[u8; 49856],
) -> u32
    ensures { result ≡ verify_status 6 mode public.now ctx.now msg.now sig.now }
{
    small_in::<OneByOne<Sha2_256f>>(mode, public, msg, ctx, sig)
}

/// As `slh_dsa_sha2_128s_verify_small` in the mode `SLH_DSA_PURE`, in still less code.
#[unsafe(no_mangle)]
pub extern "C" fn slh_dsa_sha2_128s_verify_pure_small(
    public: &[u8; 32],
    msg: &[u8],
    ctx: &[u8],
    sig: &[u8; 7856],
) -> u32
    ensures { result ≡ verify_status 1 0 public.now ctx.now msg.now sig.now }
{
    pure_in::<OneByOne<Sha2_128s>>(public, msg, ctx, sig)
}

/// As `slh_dsa_sha2_128f_verify_small` in the mode `SLH_DSA_PURE`, in still less code.
#[unsafe(no_mangle)]
pub extern "C" fn slh_dsa_sha2_128f_verify_pure_small(
    public: &[u8; 32],
    msg: &[u8],
    ctx: &[u8],
    sig: &[u8; 17088],
) -> u32
    ensures { result ≡ verify_status 2 0 public.now ctx.now msg.now sig.now }
{
    pure_in::<OneByOne<Sha2_128f>>(public, msg, ctx, sig)
}

/// As `slh_dsa_sha2_192s_verify_small` in the mode `SLH_DSA_PURE`, in still less code.
#[unsafe(no_mangle)]
pub extern "C" fn slh_dsa_sha2_192s_verify_pure_small(
    public: &[u8; 48],
    msg: &[u8],
    ctx: &[u8],
    sig: &[u8; 16224],
) -> u32
    ensures { result ≡ verify_status 3 0 public.now ctx.now msg.now sig.now }
{
    pure_in::<OneByOne<Sha2_192s>>(public, msg, ctx, sig)
}

/// As `slh_dsa_sha2_192f_verify_small` in the mode `SLH_DSA_PURE`, in still less code.
#[unsafe(no_mangle)]
pub extern "C" fn slh_dsa_sha2_192f_verify_pure_small(
    public: &[u8; 48],
    msg: &[u8],
    ctx: &[u8],
    sig: &[u8; 35664],
) -> u32
    ensures { result ≡ verify_status 4 0 public.now ctx.now msg.now sig.now }
{
    pure_in::<OneByOne<Sha2_192f>>(public, msg, ctx, sig)
}

/// As `slh_dsa_sha2_256s_verify_small` in the mode `SLH_DSA_PURE`, in still less code.
#[unsafe(no_mangle)]
pub extern "C" fn slh_dsa_sha2_256s_verify_pure_small(
    public: &[u8; 64],
    msg: &[u8],
    ctx: &[u8],
    sig: &[u8; 29792],
) -> u32
    ensures { result ≡ verify_status 5 0 public.now ctx.now msg.now sig.now }
{
    pure_in::<OneByOne<Sha2_256s>>(public, msg, ctx, sig)
}

/// As `slh_dsa_sha2_256f_verify_small` in the mode `SLH_DSA_PURE`, in still less code.
#[unsafe(no_mangle)]
pub extern "C" fn slh_dsa_sha2_256f_verify_pure_small(
    public: &[u8; 64],
    msg: &[u8],
    ctx: &[u8],
    sig: &[u8; 49856],
) -> u32
    ensures { result ≡ verify_status 6 0 public.now ctx.now msg.now sig.now }
{
    pure_in::<OneByOne<Sha2_256f>>(public, msg, ctx, sig)
}
