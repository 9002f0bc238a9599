//! What a hash suite is whose messages come in pieces.
ghost use Rattle.std.specs.Prelude.{◌≡◌, ℕ, ◌+◌, ◌≤◌, List, [], ◌++◌, length};

use crate::nbytes::NBytes;
use crate::params::{MAX_DIGEST_LEN, MAX_MESSAGE_LEN};
use crate::suite::HashSuite;

/// A hash suite that takes a message piece by piece. What a state stands for is said by a relation:
/// for each message for which it stood it stands, after a piece, for that message and the piece.
pub trait MessageSuite: HashSuite {
    /// PRF_msg, begun for a PRF key and a randomizer.
    type Mac: Drop;

    /// H_msg, begun for the randomizer of a signature, a public seed and a root.
    type Digest: Drop;

    /// The state stands for a PRF key, a randomizer and a message.
    ghost authenticates: { Self.Mac → List ℕ → List ℕ → List ℕ → Type 0 };

    /// The state stands for a randomizer, a public seed, a root and a message.
    ghost digests: { Self.Digest → List ℕ → List ℕ → List ℕ → List ℕ → Type 0 };

    /// As many bytes of a message as a state has counted, if it counts them.
    ghost mac_count: { Self.Mac → ℕ };

    ghost digest_count: { Self.Digest → ℕ };

    /// PRF_msg of the empty message, to go on from.
    fn begin_mac(sk_prf: &NBytes<Self::N>, opt_rand: &NBytes<Self::N>) -> Self::Mac
        ensures empty { authenticates result sk_prf.now opt_rand.now [] }
        ensures none { mac_count result ≡ 0 };

    /// Absorbs a piece of the message, after those before.
    fn update_mac(mac: &mut Self::Mac, piece: &[u8])
        requires { mac_count mac.old + length piece.now ≤ MAX_MESSAGE_LEN }
        ensures joins { (key opt_rand m : List ℕ) → authenticates mac.old key opt_rand m
            → authenticates mac.new key opt_rand (m ++ piece.now) }
        ensures counts { mac_count mac.new ≤ mac_count mac.old + length piece.now };

    /// PRF_msg of what was absorbed.
    fn end_mac(mac: Self::Mac) -> NBytes<Self::N>
        ensures { (key opt_rand m : List ℕ) → authenticates mac key opt_rand m
            → result ≡ Self.suite.prf_msg key opt_rand m };

    /// H_msg of the empty message, to go on from.
    fn begin_digest(
        rand: &NBytes<Self::N>,
        pk_seed: &NBytes<Self::N>,
        pk_root: &NBytes<Self::N>,
    ) -> Self::Digest
        ensures empty { digests result rand.now pk_seed.now pk_root.now [] }
        ensures none { digest_count result ≡ 0 };

    /// Absorbs a piece of the message, after those before.
    fn update_digest(digest: &mut Self::Digest, piece: &[u8])
        requires { digest_count digest.old + length piece.now ≤ MAX_MESSAGE_LEN }
        ensures joins { (r s root m : List ℕ) → digests digest.old r s root m
            → digests digest.new r s root (m ++ piece.now) }
        ensures counts { digest_count digest.new ≤ digest_count digest.old + length piece.now };

    /// Writes H_msg of what was absorbed into `out`.
    fn end_digest(digest: Self::Digest, out: &mut [u8])
        requires room { length out.old ≡ Self.M.USIZE }
        requires small { Self.M.USIZE ≤ MAX_DIGEST_LEN }
        ensures { (r s root m : List ℕ) → digests digest r s root m
            → out.new ≡ Self.suite.h_msg r s root m };
}
