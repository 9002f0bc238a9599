//! The states of the suite of security category 1 (FIPS 205, section 11.2.1).
ghost use Rattle.slh_core.specs.declared.params.TheConstants.{MAX_N};
ghost use Rattle.std.specs.Prelude.{◌-◌, ◌+◌, ◌*◌, ◌≤◌, ◌++◌};
ghost use Rattle.hmac_sha256.specs.Hash.{absorbed_bytes};
ghost use Rattle.hmac_sha256.specs.Mac.{Authenticates, mac_absorbed_bytes};
ghost use Rattle.slh_hash.specs.States.{Digests256};

use crate::join::put_three;
use crate::mgf1::mgf1_256;
use crate::resumable::{Hashes, ResumableSuite};
use crate::sha2_l1::Sha2L1;
use hmac_sha256::{HMAC, Hash};
use slh_core::array::ArraySize;
use slh_core::array::sizes::U16;
use slh_core::nbytes::NBytes;
use slh_core::pieces::MessageSuite;
use std::marker::PhantomData;

/// HMAC-SHA-256 under a PRF key, which has absorbed a randomizer and a message after it.
#[derive(Drop)]
pub struct Mac256<N: ArraySize> {
    mac: HMAC,
    size: PhantomData<N>,
    ghost small: { N.USIZE ≤ MAX_N },
}

/// SHA-256 that has absorbed a randomizer, a public seed, a root and a message after them, and the
/// first two of these.
#[derive(Drop)]
pub struct Digest256<N: ArraySize> {
    rand: NBytes<N>,
    pk_seed: NBytes<N>,
    hash: Hash,
    ghost small: { N.USIZE ≤ MAX_N },
}

#[tactic(auto, unfolding(crate::specs::Sha2::message_digest_256))]
impl<N: ArraySize, M: ArraySize> MessageSuite for Sha2L1<N, M> {
    type Mac = Mac256<N>;

    type Digest = Digest256<N>;

    ghost authenticates = { λ state key opt_rand m. Authenticates state.mac key (opt_rand ++ m) };

    ghost digests = { λ state r s root m.
        Digests256 state.rand state.pk_seed state.hash r s root m };

    ghost mac_count = { λ state. mac_absorbed_bytes state.mac - (64 + N.USIZE) };

    ghost digest_count = { λ state. absorbed_bytes state.hash - 3 * N.USIZE };

    fn begin_mac(sk_prf: &NBytes<N>, opt_rand: &NBytes<N>) -> Mac256<N> {
        let mut mac = HMAC::new(sk_prf.as_slice());
        mac.update(opt_rand.as_slice());
        Mac256 {
            mac,
            size: PhantomData,
        }
    }

    fn update_mac(mac: &mut Mac256<N>, piece: &[u8]) {
        mac.mac.update(piece);
    }

    fn end_mac(mac: Mac256<N>) -> NBytes<N> {
        NBytes::first_of(mac.mac.finalize())
    }

    fn begin_digest(rand: &NBytes<N>, pk_seed: &NBytes<N>, pk_root: &NBytes<N>) -> Digest256<N> {
        let mut hash = Hash::new();
        hash.update(rand.as_slice());
        hash.update(pk_seed.as_slice());
        hash.update(pk_root.as_slice());
        Digest256 {
            rand: rand.copy(),
            pk_seed: pk_seed.copy(),
            hash,
        }
    }

    fn update_digest(digest: &mut Digest256<N>, piece: &[u8]) {
        digest.hash.update(piece);
    }

    fn end_digest(digest: Digest256<N>, out: &mut [u8]) {
        let Digest256 {
            rand,
            pk_seed,
            hash,
            ..
        } = digest;
        let hashed = hash.finalize();
        let mut seed = [0u8; 96];
        let end = put_three(rand.as_slice(), pk_seed.as_slice(), &hashed, &mut seed);
        mgf1_256(&seed[..end], out);
    }
}

impl<M: ArraySize> ResumableSuite for Sha2L1<U16, M> {
    fn suspend_digest(digest: Digest256<U16>, hashes: &mut Hashes) {
        hashes.sha256 = digest.hash;
        hashes.sha256.clear_rest();
    }

    fn resume_digest(
        hashes: &Hashes,
        rand: &NBytes<U16>,
        pk_seed: &NBytes<U16>,
        most: u64,
    ) -> Option<Digest256<U16>> {
        // (R, the seed and the root stand before the message)
        let front = 2 * rand.as_slice().len() + pk_seed.as_slice().len();
        if hashes.sha256.absorbed() > most + front as u64 {
            return None;
        }
        Some(Digest256 {
            rand: rand.copy(),
            pk_seed: pk_seed.copy(),
            hash: hashes.sha256.copy(),
        })
    }

    fn suspend_mac(mac: Mac256<U16>, hashes: &mut Hashes) {
        hashes.sha256 = mac.mac.into_inner();
        hashes.sha256.clear_rest();
    }

    fn resume_mac(hashes: &Hashes, sk_prf: &NBytes<U16>, most: u64) -> Option<Mac256<U16>> {
        let mac = HMAC::with_inner(sk_prf.as_slice(), hashes.sha256.copy());
        // (the key's block and the randomizer stand before the message)
        if mac.absorbed() > most + 80 {
            return None;
        }
        Some(Mac256 {
            mac,
            size: PhantomData,
        })
    }
}
