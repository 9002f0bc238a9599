//! The states of the suite of one byte for messages in pieces.
ghost use Rattle.std.specs.Prelude.{◌≡◌, ◌+◌, ◌%◌, ◌<◌, sum, slice_index};

use crate::toy::{Toy, byte_of, sum_of};
use slh_core::array::sizes::U1;
use slh_core::nbytes::NBytes;
use slh_core::pieces::MessageSuite;

/// The sum of two values and of the bytes that were absorbed, modulo 256.
#[derive(Drop)]
pub struct ToySum {
    total: u32,
    ghost small: { total < 256 },
}

// The sum of two values and no byte of a message.
fn begin(first: &NBytes<U1>, second: &NBytes<U1>) -> ToySum
    ensures { result.total ≡ (slice_index first.now 0 + slice_index second.now 0) % 256 }
{
    ToySum {
        total: (byte_of(first) + byte_of(second)) % 256,
    }
}

// Adds the bytes of a piece.
fn add(state: &mut ToySum, piece: &[u8])
    ensures { state.new.total ≡ (state.old.total + sum piece.now) % 256 }
{
    state.total = (state.total + sum_of(piece)) % 256;
}

#[tactic(auto, using(std::proofs::lemmas::Grind::common_steps))]
impl MessageSuite for Toy {
    type Mac = ToySum;

    type Digest = ToySum;

    ghost authenticates = { λ state key opt_rand m.
        state.total ≡ (slice_index key 0 + slice_index opt_rand 0 + sum m) % 256 };

    ghost digests = { λ state r s root m.
        state.total ≡ (slice_index r 0 + slice_index s 0 + sum m) % 256 };

    ghost mac_count = { λ _. 0 };

    ghost digest_count = { λ _. 0 };

    fn begin_mac(sk_prf: &NBytes<U1>, opt_rand: &NBytes<U1>) -> ToySum {
        begin(sk_prf, opt_rand)
    }

    fn update_mac(mac: &mut ToySum, piece: &[u8]) {
        add(mac, piece);
    }

    fn end_mac(mac: ToySum) -> NBytes<U1> {
        NBytes::exact(&[mac.total as u8])
    }

    fn begin_digest(rand: &NBytes<U1>, pk_seed: &NBytes<U1>, _pk_root: &NBytes<U1>) -> ToySum {
        begin(rand, pk_seed)
    }

    fn update_digest(digest: &mut ToySum, piece: &[u8]) {
        add(digest, piece);
    }

    fn end_digest(digest: ToySum, out: &mut [u8]) {
        out[0] = digest.total as u8;
        out[1] = ((digest.total + 37) % 256) as u8;
        out[2] = ((digest.total + 74) % 256) as u8;
    }
}
