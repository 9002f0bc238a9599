//! What a hash suite is whose states can be put aside between the pieces of a message.
ghost use Rattle.std.specs.Prelude.{◌≡◌, ℕ, ◌≤◌, ◌^◌, List, ◌++◌, length};
ghost use Rattle.std.specs.Prelude.{IfSome, MatchOption};
ghost use Rattle.slh_hash.specs.Suspended.{HasClearRest, HasHashed, is_category_1, mac_block};
ghost use Rattle.slh_hash.specs.Suspended.{new_hashes, other_hash};

use hmac_sha256::Hash;
use sha512_lanes::Hash512;
use slh_core::nbytes::NBytes;
use slh_core::pieces::MessageSuite;

/// A hash of each function, of which a message takes one. They hold numbers alone, and any numbers
/// make two hashes, though perhaps of no message.
#[repr(C)]
#[derive(Drop)]
pub struct Hashes {
    /// SHA-256: of the messages of security category 1, and of those signed by such a digest.
    pub sha256: Hash,
    /// SHA-512: of the categories 3 and 5, and of those signed by such a digest.
    pub sha512: Hash512,
}

impl Hashes {
    /// Two hashes that have absorbed nothing.
    pub fn new() -> Self
        ensures { result ≡ new_hashes }
    {
        Hashes {
            sha256: Hash::new(),
            sha512: Hash512::new(),
        }
    }

    /// Two hashes that have absorbed the same bytes.
    pub fn copy(&self) -> Self
        ensures { result ≡ self.now }
    {
        Hashes {
            sha256: self.sha256.copy(),
            sha512: self.sha512.copy(),
        }
    }
}

/// A hash suite whose states are put aside as numbers, and taken up again. Which hash function is
/// used follows from n.
pub trait ResumableSuite: MessageSuite {
    /// Puts H_msg aside: zeros behind the bytes that its hash holds, and nothing in the other one.
    fn suspend_digest(digest: Self::Digest, hashes: &mut Hashes)
        ensures hashed { (r s root m : List ℕ) → Self.digests digest r s root m
            → HasHashed (is_category_1 Self.N.USIZE) hashes.new (r ++ s ++ root ++ m) }
        ensures clear { HasClearRest (is_category_1 Self.N.USIZE) hashes.new }
        ensures other { other_hash (is_category_1 Self.N.USIZE) hashes.new
            ≡ other_hash (is_category_1 Self.N.USIZE) hashes.old };

    /// Takes H_msg up again. `None`: more bytes of a message were counted than `most`.
    fn resume_digest(
        hashes: &Hashes,
        rand: &NBytes<Self::N>,
        pk_seed: &NBytes<Self::N>,
        most: u64,
    ) -> Option<Self::Digest>
        requires { most ≤ 2 ^ 61 }
        ensures stands { (root m : List ℕ) → length root ≡ Self.N.USIZE → length m ≤ most
            → HasHashed (is_category_1 Self.N.USIZE) hashes.now
            (rand.now ++ pk_seed.now ++ root ++ m)
            → MatchOption result ⊥ (λ d. Self.digests d rand.now pk_seed.now root m) }
        ensures counts { IfSome result (λ d. Self.digest_count d ≤ most) };

    /// Puts PRF_msg aside in the same way.
    fn suspend_mac(mac: Self::Mac, hashes: &mut Hashes)
        ensures hashed { (key opt_rand m : List ℕ) → Self.authenticates mac key opt_rand m
            → HasHashed (is_category_1 Self.N.USIZE) hashes.new
            (mac_block (is_category_1 Self.N.USIZE) key ++ opt_rand ++ m) }
        ensures clear { HasClearRest (is_category_1 Self.N.USIZE) hashes.new }
        ensures other { other_hash (is_category_1 Self.N.USIZE) hashes.new
            ≡ other_hash (is_category_1 Self.N.USIZE) hashes.old };

    /// Takes PRF_msg up again. `None`: more bytes of a message were counted than `most`.
    fn resume_mac(hashes: &Hashes, sk_prf: &NBytes<Self::N>, most: u64) -> Option<Self::Mac>
        requires { most ≤ 2 ^ 61 }
        ensures stands { (opt_rand m : List ℕ) → length opt_rand ≡ Self.N.USIZE → length m ≤ most
            → HasHashed (is_category_1 Self.N.USIZE) hashes.now
            (mac_block (is_category_1 Self.N.USIZE) sk_prf.now ++ opt_rand ++ m)
            → MatchOption result ⊥ (λ mac. Self.authenticates mac sk_prf.now opt_rand m) }
        ensures counts { IfSome result (λ mac. Self.mac_count mac ≤ most) };
}
