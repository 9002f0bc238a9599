//! What a hash suite is that is hashed in little code.
ghost use Rattle.std.specs.Prelude.{◌≡◌, ℕ, ◌+◌, ◌≤◌, List, ◌++◌, length};

use slh_core::address::Address;
use slh_core::nbytes::NBytes;
use slh_core::params::{MAX_DIGEST_LEN, MAX_ENDS_LEN, MAX_MESSAGE_LEN};
use slh_core::suite::HashSuite;

/// A hash suite whose values and messages are also hashed block by block, one after the other: the
/// same values in less code and more time. No step is counted.
pub trait SmallSuite: HashSuite {
    /// A state for one public seed.
    type Small: Drop;

    /// The public seed that a state stands for.
    ghost small_seed: { Self.Small → List ℕ };

    /// The state for a public seed.
    fn small_keyed(pk_seed: &NBytes<Self::N>) -> Self::Small
        ensures { small_seed result ≡ pk_seed.now };

    /// F: the hash of one value.
    fn small_f<A: Address>(keyed: &Self::Small, adrs: &A, m: &NBytes<Self::N>) -> NBytes<Self::N>
        ensures { result ≡ Self.suite.f (small_seed keyed.now) (A.bytes adrs.now) m.now };

    /// H: the hash of a left and a right value.
    fn small_h<A: Address>(
        keyed: &Self::Small,
        adrs: &A,
        m1: &NBytes<Self::N>,
        m2: &NBytes<Self::N>,
    ) -> NBytes<Self::N>
        ensures { let seed = small_seed keyed.now in
            result ≡ Self.suite.h seed (A.bytes adrs.now) m1.now m2.now };

    /// T: the hash of many values, joined. There are at most as many as a key pair has chains.
    fn small_t<A: Address>(keyed: &Self::Small, adrs: &A, m: &[u8]) -> NBytes<Self::N>
        requires { length m.now ≤ MAX_ENDS_LEN }
        ensures { result ≡ Self.suite.t (small_seed keyed.now) (A.bytes adrs.now) m.now };

    /// PRF: a secret value, made from the secret seed.
    fn small_prf<A: Address>(
        keyed: &Self::Small,
        adrs: &A,
        sk_seed: &NBytes<Self::N>,
    ) -> NBytes<Self::N>
        ensures { let seed = small_seed keyed.now in
            result ≡ Self.suite.prf seed (A.bytes adrs.now) sk_seed.now };

    /// H_msg: the digest of the message that the three slices joined are, written into `out`.
    fn small_h_msg(
        rand: &NBytes<Self::N>,
        pk_seed: &NBytes<Self::N>,
        pk_root: &NBytes<Self::N>,
        head: &[u8],
        ctx: &[u8],
        msg: &[u8],
        out: &mut [u8],
    )
        requires message { length head.now + length ctx.now + length msg.now ≤ MAX_MESSAGE_LEN }
        requires room { length out.old ≡ Self.M.USIZE }
        requires small { Self.M.USIZE ≤ MAX_DIGEST_LEN }
        ensures { let message = head.now ++ ctx.now ++ msg.now in
            out.new ≡ Self.suite.h_msg rand.now pk_seed.now pk_root.now message };
}
