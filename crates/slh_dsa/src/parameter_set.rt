//! The parameter sets (FIPS 205, section 11).
ghost use Rattle.std.specs.Prelude.{◌≡◌, ◌*◌, ◌≤◌, ℕ, List, length};
ghost use Rattle.slh_trees.specs.Checking.{signature_size};

use slh_core::array::ArraySize;
use slh_core::params::{ForsParams, ForsSizes};

/// A parameter set: a name, a suite and all sizes, those of keys and signatures among them.
pub trait ParameterSet: ForsParams {
    /// The name of the set.
    const NAME: &'static str;

    /// How many bytes a signing key has.
    type SkLen: ArraySize;

    /// How many bytes a verifying key has.
    type VkLen: ArraySize;

    /// How many bytes a signature has.
    type SigLen: ArraySize;

    ghost set_name: { List ℕ };

    /// `NAME`, for generic code, whose contracts can't know what a constant reference points to.
    fn set_name() -> &'static str
        ensures { result.now ≡ set_name };

    ghost name_len: { length set_name ≤ 255 };

    ghost sk_len: { Self.SkLen.USIZE ≡ 4 * Self.N.USIZE };

    ghost vk_len: { Self.VkLen.USIZE ≡ 2 * Self.N.USIZE };

    ghost sig_len: { Self.SigLen.USIZE ≡ signature_size Self.scheme };
}

/// The name of a parameter set, its suite and all sizes, as numbers. Who has [`ParameterSet`] has
/// this, too; the calls that make no array ask for no more.
pub trait SetSizes: ForsSizes {
    /// How many bytes a signature has.
    const SIG_LEN: usize;

    ghost SIG_LEN: { ℕ };

    ghost set_name: { List ℕ };

    /// The name of the set.
    fn set_name() -> &'static str
        ensures { result.now ≡ set_name };

    ghost name_len: { length set_name ≤ 255 };

    ghost sig_len: { SIG_LEN ≡ signature_size Self.scheme };
}

impl<P: ParameterSet> SetSizes for P {
    const SIG_LEN: usize = P::SigLen::USIZE;

    ghost SIG_LEN = { P.SigLen.USIZE };

    ghost set_name = { P.set_name };

    fn set_name() -> &'static str {
        <P as ParameterSet>::set_name()
    }

    ghost name_len = { P.name_len };

    ghost sig_len = { P.sig_len };
}
