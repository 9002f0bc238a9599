//! The bytes of a signature, and where its values stand in them.
ghost use Rattle.std.specs.Prelude.{◌≡◌, ◌↔◌, ◌+◌, ◌*◌, ◌≤◌, ◌<◌, length, take, drop};
ghost use Rattle.std.specs.Prelude.{IsSome, IfSome};
ghost use Rattle.slh_core.specs.Bytes.{part};
ghost use Rattle.slh_core.specs.Parameters.{chain_count};
ghost use Rattle.slh_trees.specs.Checking.{forest_of, layers_of, signature_size};
ghost use Rattle.slh_merkle.specs.Checking.{forest_size};
ghost use Rattle.slh_merkle.specs.Hypertree.{layer_size};
ghost use Rattle.slh_trees.specs.SignatureParts.{chain_value_of, fors_secret_of, fors_sibling_of};
ghost use Rattle.slh_trees.specs.SignatureParts.{layer_of, opened_of, randomizer_of};
ghost use Rattle.slh_trees.specs.SignatureParts.{sibling_node_of};

use crate::sizes::signature_len;
use slh_core::array::{ArrayRef, ArraySize};
use slh_core::equal_parts::piece;
use slh_core::params::{ForsSizes, forest_sizes, layer_sizes};
use slh_core::wots::ends_len;
use slh_merkle::fors::{forest_len, opened_len};
use slh_merkle::hypertree::layer_len;
use std::marker::{Model, PhantomData};

/// The bytes of a signature where they stand (FIPS 205, section 9.2). Contracts see it as these
/// bytes; the definitions in `SignatureParts` say which of them a call gives.
#[derive(Drop)]
pub struct SigView<'a, P: ForsSizes> {
    bytes: &'a [u8],
    params: PhantomData<P>,
}

impl<'a, P: ForsSizes> Model for SigView<'a, P> {
    ghost use Rattle.std.specs.Prelude.{◌≡◌, ℕ, List, length};
    ghost use Rattle.slh_trees.specs.Checking.{signature_size};

    ghost Value = { List ℕ };

    ghost view = { λ v. v.bytes.now };

    ghost invariant = { λ v. length v.bytes.now ≡ signature_size P.scheme };
}

// A view of a slice that is known to have the length.
fn exact<N: ArraySize>(bytes: &[u8]) -> ArrayRef<'_, u8, N>
    requires { length bytes.now ≡ N.USIZE }
    ensures { result ≡ bytes.now }
{
    match ArrayRef::try_from(bytes) {
        Ok(view) => view,
        Err(_) => unreachable!(),
    }
}

// A view of a value of n bytes, by its number in a slice of such values.
fn value<N: ArraySize>(bytes: &[u8], i: usize) -> ArrayRef<'_, u8, N>
    requires { (i + 1) * N.USIZE ≤ length bytes.now }
    ensures { result ≡ part N.USIZE bytes.now i }
{
    exact(piece(bytes, N::USIZE, i))
}

impl<'a, P: ForsSizes> SigView<'a, P> {
    /// A view of all of `bytes`, refused where they aren't as many as a signature has.
    pub fn new(bytes: &'a [u8]) -> Option<Self>
        ensures some { IsSome result ↔ (length bytes.now ≡ signature_size P.scheme) }
        ensures value { IfSome result (λ view. view ≡ bytes.now) }
    {
        if bytes.len() != signature_len::<P>() {
            return None;
        }
        Some(Self::exact(bytes))
    }

    /// A view of bytes that are known to be as many as a signature has.
    pub fn exact(bytes: &'a [u8]) -> Self
        requires { length bytes.now ≡ signature_size P.scheme }
        ensures { result ≡ bytes.now }
    {
        SigView {
            bytes,
            params: PhantomData,
        }
    }

    /// All bytes, for as long as the slice that was viewed.
    pub fn as_slice(&self) -> &'a [u8]
        ensures value { result.now ≡ self.now }
        ensures len { length result.now ≡ signature_size P.scheme }
    {
        self.bytes
    }

    /// The randomizer R.
    pub fn randomizer(&self) -> ArrayRef<'a, u8, P::N>
        ensures { result ≡ randomizer_of P.scheme self.now }
    {
        forest_sizes::<P>();
        exact(&self.bytes[..P::N::USIZE])
    }

    /// The forest's part: for each tree a secret and its siblings, k(1 + a) values. That the
    /// signature is whole is known once this was called.
    pub fn fors(&self) -> &'a [u8]
        ensures whole { length self.now ≡ signature_size P.scheme }
        ensures value { result.now ≡ forest_of P.scheme self.now }
        ensures len { length result.now ≡ forest_size P.N.USIZE P.K P.A }
    {
        forest_sizes::<P>();
        layer_sizes::<P>();
        let n = P::N::USIZE;
        &self.bytes[n..n + forest_len::<P>()]
    }

    /// The parts of all layers, from layer 0 up: d(len + h') values.
    pub fn layers(&self) -> &'a [u8]
        ensures value { result.now ≡ layers_of P.scheme self.now }
        ensures len { length result.now
            ≡ P.D * layer_size P.N.USIZE P.H_PRIME }
    {
        forest_sizes::<P>();
        layer_sizes::<P>();
        self.bytes.split_at(P::N::USIZE + forest_len::<P>()).1
    }

    // What is opened in tree `i` of the forest.
    fn opened(&self, i: usize) -> &'a [u8]
        requires { i < P.K }
        ensures value { result.now ≡ opened_of P.scheme self.now i }
        ensures len { length result.now ≡ (1 + P.A) * P.N.USIZE }
    {
        piece(self.fors(), opened_len::<P>(), i)
    }

    // The siblings on the way up from the secret in tree `i`.
    fn fors_siblings(&self, i: usize) -> &'a [u8]
        requires { i < P.K }
        ensures value { result.now ≡ drop P.N.USIZE (opened_of P.scheme self.now i) }
        ensures len { length result.now ≡ P.A * P.N.USIZE }
    {
        &self.opened(i)[P::N::USIZE..]
    }

    /// The secret that is opened in tree `i` of the forest.
    pub fn fors_secret(&self, i: usize) -> ArrayRef<'a, u8, P::N>
        requires { i < P.K }
        ensures { result ≡ fors_secret_of P.scheme self.now i }
    {
        exact(&self.opened(i)[..P::N::USIZE])
    }

    /// The sibling at height `z`, from 0 to a - 1, on the way up from the secret in tree `i`.
    pub fn fors_auth(&self, i: usize, z: usize) -> ArrayRef<'a, u8, P::N>
        requires tree { i < P.K }
        requires height { z < P.A }
        ensures { result ≡ fors_sibling_of P.scheme self.now i z }
    {
        value(self.fors_siblings(i), z)
    }

    /// The part of layer `j`: len chain values and h' siblings.
    pub fn xmss(&self, j: usize) -> &'a [u8]
        requires { j < P.D }
        ensures value { result.now ≡ layer_of P.scheme self.now j }
        ensures len { length result.now ≡ (P.WOTS_SIG_LEN + P.H_PRIME) * P.N.USIZE }
    {
        piece(self.layers(), layer_len::<P>(), j)
    }

    // The chain values of layer `j`, and the siblings on the way up from its leaf.
    fn layer_values(&self, j: usize) -> (&'a [u8], &'a [u8])
        requires { j < P.D }
        ensures chains { let chains = chain_count P.N.USIZE * P.N.USIZE in
            result.0.now ≡ take chains (layer_of P.scheme self.now j) }
        ensures siblings { let chains = chain_count P.N.USIZE * P.N.USIZE in
            result.1.now ≡ drop chains (layer_of P.scheme self.now j) }
        ensures chains_len { length result.0.now ≡ P.WOTS_SIG_LEN * P.N.USIZE }
        ensures siblings_len { length result.1.now ≡ P.H_PRIME * P.N.USIZE }
    {
        layer_sizes::<P>();
        self.xmss(j).split_at(ends_len::<P>())
    }

    /// The value of chain `c` of layer `j`.
    pub fn chain(&self, j: usize, c: usize) -> ArrayRef<'a, u8, P::N>
        requires layer { j < P.D }
        requires chain { c < P.WOTS_SIG_LEN }
        ensures { result ≡ chain_value_of P.scheme self.now j c }
    {
        let (chains, _) = self.layer_values(j);
        value(chains, c)
    }

    /// The sibling at height `z`, from 0 to h' - 1, on the way up from the leaf of layer `j`.
    pub fn auth(&self, j: usize, z: usize) -> ArrayRef<'a, u8, P::N>
        requires layer { j < P.D }
        requires height { z < P.H_PRIME }
        ensures { result ≡ sibling_node_of P.scheme self.now j z }
    {
        let (_, siblings) = self.layer_values(j);
        value(siblings, z)
    }
}
