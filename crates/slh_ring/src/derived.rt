//! The keys that a master secret and a path give, by HKDF (RFC 5869).
ghost use Rattle.std.specs.Prelude.{◌≡◌, ◌+◌, ◌*◌, ◌≤◌, drop, length, take};
ghost use Rattle.sha256_lanes.specs.Sha256.{sha256};
ghost use Rattle.slh_core.specs.Costs.{slh_keygen_cost};
ghost use Rattle.slh_core.specs.Steps.{IsFresh};
ghost use Rattle.slh_trees.specs.Keys.{IsTrueKey};
ghost use Rattle.slh_ring.specs.Keys.{key_info, key_tag as spec_key_tag, path_seeds, ring_key};
ghost use Rattle.slh_ring.specs.Records.{numbers_bytes, path_bytes};

use crate::entry::TAG_LEN;
use crate::path::{MAX_NUMBERS, Path};
use hmac_sha256::{HKDF, Hash};
use slh_core::array::ArraySize;
use slh_core::params::{MAX_N, chain_sizes};
use slh_core::steps::Steps;
use slh_dsa::{SetSizes, SigningKey};
use std::marker::{Brand, Model};
use std::sync::ledger::{Blank, Ledger};

/// The most bytes of a master.
pub const MAX_MASTER: usize = 1 << 60;

/// The most bytes of a path: how many numbers it has, and 4 bytes for each.
pub(crate) const MAX_PATH_LEN: usize = 1 + 4 * MAX_NUMBERS;

/// The most bytes that a key is expanded with: `key`, a name of up to 255 bytes after its length,
/// and the path.
const MAX_INFO_LEN: usize = 3 + 1 + 255 + MAX_PATH_LEN;

// Writes the numbers, 4 bytes each.
fn write_numbers(numbers: &[u32], out: &mut [u8])
    requires { length out.old ≡ 4 * length numbers.now }
    ensures { out.new ≡ numbers_bytes numbers.now }
{
    for (i, number) in numbers.iter().enumerate() {
        out[4 * i..4 * i + 4].copy_from_slice(&number.to_be_bytes());
    }
}

/// Writes how many numbers a path has and the numbers, 4 bytes each.
pub(crate) fn write_path(path: &Path, out: &mut [u8])
    requires { length out.old ≡ 1 + 4 * length path.now }
    ensures { out.new ≡ path_bytes path.now }
{
    let numbers = path.as_slice();
    let (count, rest) = out.split_at_mut(1);
    count[0] = numbers.len() as u8;
    write_numbers(numbers, rest);
}

// Writes what the key of a path is expanded with.
fn write_info(name: &[u8], path: &Path, out: &mut [u8])
    requires name { length name.now ≤ 255 }
    requires room { length out.old ≡ 5 + length name.now + 4 * length path.now }
    ensures { out.new ≡ key_info name.now path.now }
{
    let (head, rest) = out.split_at_mut(4);
    let (front, back) = rest.split_at_mut(name.len());
    head[..3].copy_from_slice(b"key");
    head[3] = name.len() as u8;
    front.copy_from_slice(name);
    write_path(path, back);
}

/// A master secret, of which the pseudorandom key is extracted once. Clauses see it as its bytes.
#[derive(Drop)]
pub(crate) struct Master<'a> {
    bytes: &'a [u8],
    prk: [u8; 32],
}

impl<'a> Model for Master<'a> {
    ghost use Rattle.std.specs.Prelude.{◌≡◌, List, ℕ};
    ghost use Rattle.slh_ring.specs.Keys.{ring_prk};

    ghost Value = { List ℕ };

    ghost view = { λ m. m.bytes.now };

    ghost invariant = { λ m. m.prk ≡ ring_prk m.bytes.now };
}

impl<'a> Master<'a> {
    /// The master of these bytes.
    #[tactic(auto, unfolding(crate::specs::Keys::ring_prk))]
    pub(crate) fn new(bytes: &'a [u8]) -> Self
        requires { length bytes.now ≤ MAX_MASTER }
        ensures { result ≡ bytes.now }
    {
        Master {
            bytes,
            prk: HKDF::extract(b"slh-ring", bytes),
        }
    }
}

// Fills `out` with the three seeds of a path's key, of n bytes each.
#[tactic(auto, unfolding(crate::specs::Keys::path_seeds))]
fn write_seeds(name: &[u8], master: &Master<'_>, path: &Path, n: usize, out: &mut [u8])
    requires name { length name.now ≤ 255 }
    requires n { n ≤ 32 }
    requires room { length out.old ≡ 3 * n }
    ensures { out.new ≡ path_seeds name.now master.now path.now n }
{
    let mut store = [0u8; MAX_INFO_LEN];
    let info = &mut store[..5 + name.len() + 4 * path.as_slice().len()];
    write_info(name, path, info);
    HKDF::expand(out, &master.prk, info);
}

/// The key at a path under a master secret of at most [`MAX_MASTER`] bytes, whose root is that of its own
/// seeds. Takes no memory.
pub fn derive<P: SetSizes>(master: &[u8], path: &Path) -> SigningKey<P>
    requires { length master.now ≤ MAX_MASTER }
    ensures key { result ≡ ring_key P.scheme P.set_name master.now path.now }
    ensures true_key { IsTrueKey P.scheme result }
{
    derive_on::<P, Brand>(master, path, Blank::new(1))
}

// The same, on a counter that is made here.
fn derive_on<P: SetSizes, L: Ledger>(master: &[u8], path: &Path, blank: Blank) -> SigningKey<P>
    requires master { length master.now ≤ MAX_MASTER }
    requires fresh { IsFresh blank L.name L.parts }
    ensures key { result ≡ ring_key P.scheme P.set_name master.now path.now }
    ensures true_key { IsTrueKey P.scheme result }
{
    let mut steps = Steps::<L>::new(blank);
    derive_counted(master, path, &mut steps)
}

/// As [`derive`], with its steps counted: those of one key.
pub fn derive_counted<P: SetSizes, L: Ledger>(
    master: &[u8],
    path: &Path,
    steps: &mut Steps<L>,
) -> SigningKey<P>
    requires { length master.now ≤ MAX_MASTER }
    ensures key { result ≡ ring_key P.scheme P.set_name master.now path.now }
    ensures true_key { IsTrueKey P.scheme result }
    ensures cost { steps.new ≡ steps.old + slh_keygen_cost P.scheme }
{
    key_at(&Master::new(master), path, steps)
}

// The key at a path.
fn key_at<P: SetSizes, L: Ledger>(
    master: &Master<'_>,
    path: &Path,
    steps: &mut Steps<L>,
) -> SigningKey<P>
    ensures key { result ≡ ring_key P.scheme P.set_name master.now path.now }
    ensures true_key { IsTrueKey P.scheme result }
    ensures cost { steps.new ≡ steps.old + slh_keygen_cost P.scheme }
{
    chain_sizes::<P>();
    let n = P::N::USIZE;
    let mut store = [0u8; 3 * MAX_N];
    let seeds = &mut store[..3 * n];
    write_seeds(P::set_name().as_bytes(), master, path, n, seeds);
    let (sk_seed, rest) = seeds.split_at(n);
    let (sk_prf, pk_seed) = rest.split_at(n);
    SigningKey::slh_keygen_counted(sk_seed, sk_prf, pk_seed, steps).unwrap()
}

/// The 8 bytes that tell a key.
pub(crate) fn tag_of<P: SetSizes>(key: &SigningKey<P>) -> [u8; TAG_LEN]
    ensures { result ≡ take 8 (sha256 (drop (2 * P.N.USIZE) key.now)) }
{
    chain_sizes::<P>();
    let mut store = [0u8; 2 * MAX_N];
    let public = &mut store[..2 * P::N::USIZE];
    key.verifying_key().write_to(public);
    let digest = Hash::hash(public);
    let mut tag = [0u8; TAG_LEN];
    tag.copy_from_slice(&digest[..TAG_LEN]);
    tag
}

/// The 8 bytes that tell the key at a path.
#[tactic(auto, unfolding(crate::specs::Keys::key_tag))]
pub(crate) fn key_tag<P: SetSizes, L: Ledger>(
    master: &Master<'_>,
    path: &Path,
    steps: &mut Steps<L>,
) -> [u8; TAG_LEN]
    ensures tag { result ≡ spec_key_tag P.scheme P.set_name master.now path.now }
    ensures cost { steps.new ≡ steps.old + slh_keygen_cost P.scheme }
{
    tag_of(&key_at::<P, L>(master, path, steps))
}
