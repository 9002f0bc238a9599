//! The states of the suite of security categories 3 and 5 (FIPS 205, section 11.2.2).
ghost use Rattle.slh_core.specs.declared.params.TheConstants.{MAX_N};
ghost use Rattle.std.specs.Prelude.{◌≡◌, ℕ, ◌≤◌, List, ◌++◌};
ghost use Rattle.hmac_sha256.specs.Hmac.{masked};
ghost use Rattle.sha512_lanes.specs.Hash.{StandsFor};
ghost use Rattle.slh_hash.specs.HmacSha512.{key_block};
ghost use Rattle.slh_hash.specs.States.{Authenticates512, Digests512};

use crate::join::put_three;
use crate::mac::Hmac512;
use crate::mgf1::mgf1_512;
use crate::resumable::{Hashes, ResumableSuite};
use crate::sha2_l35::Sha2L35;
use sha512_lanes::Hash512;
use slh_core::array::ArraySize;
use slh_core::array::sizes::{U24, U32};
use slh_core::nbytes::NBytes;
use slh_core::pieces::MessageSuite;
use std::marker::PhantomData;

/// HMAC-SHA-512 under a PRF key, which has absorbed a randomizer and a message after it.
#[derive(Drop)]
pub struct Mac512<N: ArraySize> {
    mac: Hmac512,
    size: PhantomData<N>,
    ghost small: { N.USIZE ≤ MAX_N },
}

/// SHA-512 that has absorbed a randomizer, a public seed, a root and a message after them, and the
/// first two of these.
#[derive(Drop)]
pub struct Digest512<N: ArraySize> {
    rand: NBytes<N>,
    pk_seed: NBytes<N>,
    hash: Hash512,
}

#[tactic(auto, unfolding(crate::specs::Sha2::message_digest_512))]
impl<N: ArraySize, M: ArraySize> MessageSuite for Sha2L35<N, M> {
    type Mac = Mac512<N>;

    type Digest = Digest512<N>;

    ghost authenticates = { λ state key opt_rand m.
        Authenticates512 state.mac.inner state.mac.outer key (opt_rand ++ m) };

    ghost digests = { λ state r s root m.
        Digests512 state.rand state.pk_seed state.hash r s root m };

    ghost mac_count = { λ _. 0 };

    ghost digest_count = { λ _. 0 };

    fn begin_mac(sk_prf: &NBytes<N>, opt_rand: &NBytes<N>) -> Mac512<N> {
        let mut mac = Hmac512::new(sk_prf.as_slice());
        mac.update(opt_rand.as_slice());
        Mac512 {
            mac,
            size: PhantomData,
        }
    }

    fn update_mac(mac: &mut Mac512<N>, piece: &[u8]) {
        mac.mac.update(piece);
    }

    fn end_mac(mac: Mac512<N>) -> NBytes<N> {
        let code = mac.mac.finalize();
        NBytes::exact(&code[..N::USIZE])
    }

    fn begin_digest(rand: &NBytes<N>, pk_seed: &NBytes<N>, pk_root: &NBytes<N>) -> Digest512<N> {
        let mut hash = Hash512::new_with_prefix(rand.as_slice());
        hash.update(pk_seed.as_slice());
        hash.update(pk_root.as_slice());
        Digest512 {
            rand: rand.copy(),
            pk_seed: pk_seed.copy(),
            hash,
        }
    }

    fn update_digest(digest: &mut Digest512<N>, piece: &[u8]) {
        digest.hash.update(piece);
    }

    fn end_digest(digest: Digest512<N>, out: &mut [u8]) {
        let Digest512 {
            rand,
            pk_seed,
            hash,
        } = digest;
        let hashed = hash.finalize();
        let mut seed = [0u8; 128];
        let end = put_three(rand.as_slice(), pk_seed.as_slice(), &hashed, &mut seed);
        mgf1_512(&seed[..end], out);
    }
}

// H_msg, with a hash that was put aside.
fn resumed_digest<N: ArraySize>(
    hashes: &Hashes,
    rand: &NBytes<N>,
    pk_seed: &NBytes<N>,
) -> Digest512<N>
    ensures { (root m : List ℕ)
        → StandsFor hashes.now.sha512 (rand.now ++ pk_seed.now ++ root ++ m)
        → Digests512 result.rand result.pk_seed result.hash rand.now pk_seed.now root m }
{
    Digest512 {
        rand: rand.copy(),
        pk_seed: pk_seed.copy(),
        hash: hashes.sha512.copy(),
    }
}

// PRF_msg, with a hash that was put aside.
fn resumed_mac<N: ArraySize>(hashes: &Hashes, sk_prf: &NBytes<N>) -> Mac512<N>
    ensures { (m : List ℕ)
        → StandsFor hashes.now.sha512 (masked 0x36 (key_block sk_prf.now) ++ m)
        → Authenticates512 result.mac.inner result.mac.outer sk_prf.now m }
{
    Mac512 {
        mac: Hmac512::with_inner(sk_prf.as_slice(), hashes.sha512.copy()),
        size: PhantomData,
    }
}

impl<M: ArraySize> ResumableSuite for Sha2L35<U24, M> {
    fn suspend_digest(digest: Digest512<U24>, hashes: &mut Hashes) {
        hashes.sha512 = digest.hash;
        hashes.sha512.clear_rest();
    }

    fn resume_digest(
        hashes: &Hashes,
        rand: &NBytes<U24>,
        pk_seed: &NBytes<U24>,
        _most: u64,
    ) -> Option<Digest512<U24>> {
        Some(resumed_digest(hashes, rand, pk_seed))
    }

    fn suspend_mac(mac: Mac512<U24>, hashes: &mut Hashes) {
        hashes.sha512 = mac.mac.into_inner();
        hashes.sha512.clear_rest();
    }

    fn resume_mac(hashes: &Hashes, sk_prf: &NBytes<U24>, _most: u64) -> Option<Mac512<U24>> {
        Some(resumed_mac(hashes, sk_prf))
    }
}

impl<M: ArraySize> ResumableSuite for Sha2L35<U32, M> {
    fn suspend_digest(digest: Digest512<U32>, hashes: &mut Hashes) {
        hashes.sha512 = digest.hash;
        hashes.sha512.clear_rest();
    }

    fn resume_digest(
        hashes: &Hashes,
        rand: &NBytes<U32>,
        pk_seed: &NBytes<U32>,
        _most: u64,
    ) -> Option<Digest512<U32>> {
        Some(resumed_digest(hashes, rand, pk_seed))
    }

    fn suspend_mac(mac: Mac512<U32>, hashes: &mut Hashes) {
        hashes.sha512 = mac.mac.into_inner();
        hashes.sha512.clear_rest();
    }

    fn resume_mac(hashes: &Hashes, sk_prf: &NBytes<U32>, _most: u64) -> Option<Mac512<U32>> {
        Some(resumed_mac(hashes, sk_prf))
    }
}
