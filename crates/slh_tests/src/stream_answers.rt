//! Signatures that another program made, of messages in pieces and by their digests. The key is
//! that of three seeds, which repeat 1, 2 and 3.
ghost use Rattle.std.specs.Prelude.{◌≤◌};

use crate::digests::has_digest;
use crate::shown::shows;
use crate::stream_pieces::{Signing, is_accepted, is_signed, key};
use hmac_sha256::Hash;
use hybrid_array::ArraySize;
use sha2::{Digest, Sha512};
use slh_core::params::chain_sizes;
use slh_dsa::{Mode, SetSizes, SigningKey};
use slh_sets::{OnSet, Set, SetSuite};
use slh_stream::{sign_digest, verify_digest};

// The numbers from 0 on, of which the first n are a randomizer.
const NUMBERS: [u8; 32] = [
    0, 1, 2, 3, 4, 5, 6, 7, 8, 9, 10, 11, 12, 13, 14, 15, 16, 17, 18, 19, 20, 21, 22, 23, 24, 25,
    26, 27, 28, 29, 30, 31,
];

// As many bytes as the longest signatures have.
const MOST: usize = 49_856;

// Whether the digest of a message gets the wanted signature, and it is accepted.
fn is_known_by_digest<P: SetSizes>(
    key: &SigningKey<P>,
    signing: &Signing<'_>,
    wanted: &str,
    out: &mut [u8],
) -> bool {
    let Signing {
        mode,
        ctx,
        digest,
        ..
    } = *signing;
    sign_digest(key, mode, digest, ctx, signing.opt_rand, out).is_ok()
        && has_digest(out, wanted)
        && verify_digest(&key.verifying_key(), mode, digest, ctx, out).is_ok()
}

// Whether the pieces of a message get the wanted signature, and it is accepted, and so by its
// digest where that is signed.
fn is_known<P: SetSuite>(
    key: &SigningKey<P>,
    signing: &Signing<'_>,
    wanted: &str,
    out: &mut [u8],
) -> bool {
    is_signed(key, signing, out)
        && has_digest(out, wanted)
        && is_accepted(&key.verifying_key(), signing, out)
        && (signing.mode == Mode::Pure || is_known_by_digest(key, signing, wanted, out))
}

// The wanted signatures of a message that is signed as it is, one by SHA-256 and one by SHA-512.
#[derive(Drop)]
struct Known {
    wanted: [&'static str; 3],
}

impl OnSet for Known {
    ghost use Rattle.std.specs.Prelude.{⊤};

    type Out = bool;

    ghost gives = { λ _ _ _ _. ⊤ };

    fn on<P: SetSuite>(self) -> bool {
        match key::<P>() {
            Ok(key) => are_known_of(&key, self.wanted),
            Err(_) => false,
        }
    }
}

fn is_whole_known<P: SetSuite>(key: &SigningKey<P>, wanted: &str, out: &mut [u8]) -> bool {
    let signing = Signing {
        mode: Mode::Pure,
        ctx: b"",
        opt_rand: None,
        message: b"Hello",
        digest: b"",
    };
    is_known(key, &signing, wanted, out)
}

fn is_known_by_sha256<P: SetSuite>(key: &SigningKey<P>, wanted: &str, out: &mut [u8]) -> bool {
    let digest = Hash::hash(b"Hello, world!");
    let signing = Signing {
        mode: Mode::Sha256,
        ctx: b"Test context!",
        opt_rand: None,
        message: b"Hello, world!",
        digest: &digest,
    };
    is_known(key, &signing, wanted, out)
}

fn is_known_by_sha512<P: SetSuite>(key: &SigningKey<P>, wanted: &str, out: &mut [u8]) -> bool {
    chain_sizes::<P>();
    let digest = Sha512::digest(b"abc");
    let signing = Signing {
        mode: Mode::Sha512,
        ctx: b"",
        opt_rand: Some(&NUMBERS[..P::N::USIZE]),
        message: b"abc",
        digest: &digest,
    };
    is_known(key, &signing, wanted, out)
}

fn are_known_of<P: SetSuite>(key: &SigningKey<P>, wanted: [&str; 3]) -> bool {
    let mut out = [0; MOST];
    let (out, _) = out.split_at_mut(P::SIG_LEN.min(MOST));
    let [whole, by_sha256, by_sha512] = wanted;
    is_whole_known(key, whole, out)
        && is_known_by_sha256(key, by_sha256, out)
        && is_known_by_sha512(key, by_sha512, out)
}

fn are_known(set: Set, wanted: [&'static str; 3]) -> bool {
    set.run(Known { wanted })
}

#[test]
fn known_signatures_of_128s(rt: HostRuntime) {
    let wanted = [
        "b461db2c7fb7c5c9c11f1a5c9ae5f77e84ebf066647a1857db4dafe301e18cb4",
        "c9e54733c3a099b6dfa9ff4cca3efeffd7dc9a9225fe8bfa9db3c5df2cbd1a88",
        "dd39b882d2d426a293186de4471ac3465d0b71d9d8fb34cf6c7ad6939a1f2c20",
    ];
    shows(&rt, are_known(Set::Sha2_128s, wanted));
}

#[test]
fn known_signatures_of_128f(rt: HostRuntime) {
    let wanted = [
        "2349cc54f79b5c1b7d51f2352cf6872bb947ebeb165d1c9f808e7e5a6163df44",
        "6ede90ccaf41b9fb616a9d264d2f3098bc6ebe374c12ea86c5c89b85084bef74",
        "cf156a3cbbea4b6726a994fbc1b5d11c2ec56d661a230319163b0a1333b99d65",
    ];
    shows(&rt, are_known(Set::Sha2_128f, wanted));
}

#[test]
fn known_signatures_of_192s(rt: HostRuntime) {
    let wanted = [
        "e1d8059d7d6992cfd7b970a3fa1a4d14181388bd7949f615f588980cbab695f3",
        "db5e01ad5214eb20fbf37ff3f46236f60fb5ec75103fdf8fb4725ef8b2bb919f",
        "477e9d4e31aaeab9da494fb19b36f8f2f8f99b5a248ae4f11a7b53968edebfe2",
    ];
    shows(&rt, are_known(Set::Sha2_192s, wanted));
}

#[test]
fn known_signatures_of_192f(rt: HostRuntime) {
    let wanted = [
        "7d13dbdecce0835a30c2771654a8e6bf95f3e1230119e4c46d93b0f9b976ada9",
        "176095491b7a1ebeb6b783525487f275dd2eac40c85dd2bfa2f6725c676a8a65",
        "ab9f477affcc4e24f8f8513b2990b839879afcee7f87d1c4dec2b49a689ada0a",
    ];
    shows(&rt, are_known(Set::Sha2_192f, wanted));
}

#[test]
fn known_signatures_of_256s(rt: HostRuntime) {
    let wanted = [
        "264781a6524380ac3014a50e389f230e86dc2e25943c92bd48d9732c90fb17e4",
        "ca077538a8afce078fc20dd316efd2e505b6fd5d81fba2c65ece886f93679db6",
        "c9a4c1e9e9a62f17fad59befa324359191f4ce806053543a3221b1aec31afe96",
    ];
    shows(&rt, are_known(Set::Sha2_256s, wanted));
}

#[test]
fn known_signatures_of_256f(rt: HostRuntime) {
    let wanted = [
        "18cfb9e4881f67ec091c657e218e7f487d897b5d13a7e6d2c6760e10935a894e",
        "19bdb2cad368f264330b3ab1c9203e67aaa54718b3a42267ad7b258a7080b14f",
        "c2132921bd4857782fd0d8e301fa702029d039dc044054060dbfabd3183cb21b",
    ];
    shows(&rt, are_known(Set::Sha2_256f, wanted));
}
