//! How many bytes keys and signatures of a set have.
ghost use Rattle.std.specs.Prelude.{◌≡◌, ◌*◌, ◌≤◌};
ghost use Rattle.slh_core.specs.Parameters.{Scheme};
ghost use Rattle.slh_core.specs.declared.params.TheConstants.{MAX_N};
ghost use Rattle.slh_sets.specs.Sets.{scheme_for};
ghost use Rattle.slh_trees.specs.Checking.{signature_size};

use crate::dispatch::{OnSet, SetSuite};
use crate::set::Set;
use slh_core::array::ArraySize;
use slh_core::params::{MAX_N, forest_sizes};

#[derive(Drop)]
struct N;

impl OnSet for N {
    type Out = usize;

    ghost gives = { λ _ Z _ result. (result ≡ Z.n) × (result ≤ MAX_N) };

    fn on<P: SetSuite>(self) -> usize {
        forest_sizes::<P>();
        P::N::USIZE
    }
}

#[derive(Drop)]
struct SignatureLen;

impl OnSet for SignatureLen {
    type Out = usize;

    ghost gives = { λ _ Z _ result. result ≡ signature_size Z };

    fn on<P: SetSuite>(self) -> usize {
        P::SIG_LEN
    }
}

impl Set {
    /// n, the bytes of a seed, a hash and a randomizer.
    pub fn n(self) -> usize
        ensures value { result ≡ (scheme_for self).n }
        ensures most { result ≤ MAX_N }
    {
        self.run(N)
    }

    /// The bytes of a signing key.
    pub fn signing_key_len(self) -> usize
        ensures value { result ≡ 4 * (scheme_for self).n }
        ensures most { result ≤ 128 }
    {
        4 * self.n()
    }

    /// The bytes of a verifying key.
    pub fn verifying_key_len(self) -> usize
        ensures value { result ≡ 2 * (scheme_for self).n }
        ensures most { result ≤ 64 }
    {
        2 * self.n()
    }

    /// The bytes of a signature.
    pub fn signature_len(self) -> usize
        ensures { result ≡ signature_size (scheme_for self) }
    {
        self.run(SignatureLen)
    }
}
