// Changes of a signature, a message and a context of SLH-DSA-SHA2-128f, none of which is accepted:
// the cases of the Rust crate's own tests, with given bytes in place of random ones.
use crate::keys_128f::key_of;
use crate::shown::shows;
use slh_dsa::{Error, Mode, Sha2_128f, VerifyingKey};

// The root of the key whose secret seed is sixteen bytes 01 and whose public seed is sixteen 03.
const ROOT: [u8; 16] = [
    0x40, 0x52, 0xe0, 0x73, 0x3e, 0x69, 0xe7, 0x87, 0x39, 0xd6, 0xe6, 0x7c, 0x77, 0xf9, 0xa3, 0x7d,
];

const MESSAGE: &[u8] = b"Hello, world!";

const CONTEXT: &[u8] = b"Test context!";

// Each operation on the set stands here once: a call that names a set is dear to prove.
fn sign(sk_seed: u8, opt_rand: Option<&[u8]>, out: &mut [u8]) -> Result<(), Error> {
    key_of(sk_seed, 3).hash_sign_into(Mode::Pure, MESSAGE, CONTEXT, opt_rand, out)
}

fn verify(public: &[u8], message: &[u8], context: &[u8], sig: &[u8]) -> Result<(), Error> {
    let key = VerifyingKey::<Sha2_128f>::try_from(public)?;
    key.hash_verify(Mode::Pure, message, context, sig)
}

// The signature by the key of a secret seed, and zeros where none was made.
fn signed(sk_seed: u8, opt_rand: Option<&[u8]>) -> [u8; 17088] {
    let mut sig = [0; 17088];
    match sign(sk_seed, opt_rand, &mut sig) {
        Ok(()) => sig,
        Err(_) => [0; 17088],
    }
}

// A public seed before the root of the key of the secret seed 1 and the public seed 3, which is the
// one that the Rust crate `slh-dsa` 0.1.0 gives.
fn public(pk_seed: u8) -> [u8; 32] {
    let mut bytes = [pk_seed; 32];
    bytes[16..].copy_from_slice(&ROOT);
    bytes
}

fn is_invalid(pk_seed: u8, message: &[u8], context: &[u8], sig: &[u8; 17088]) -> bool {
    verify(&public(pk_seed), message, context, sig) == Err(Error::Invalid)
}

#[test]
fn message_context_and_key_are_those_of_the_signature(rt: HostRuntime) {
    let sig = signed(1, None);
    shows(
        &rt,
        verify(&public(3), MESSAGE, CONTEXT, &sig) == Ok(())
            && is_invalid(3, b"Goodbye, world!", CONTEXT, &sig)
            && is_invalid(3, MESSAGE, b"Wrong context", &sig)
            && is_invalid(4, MESSAGE, CONTEXT, &sig)
            && is_invalid(3, MESSAGE, CONTEXT, &signed(4, None)),
    );
}

fn is_invalid_with_inverted(sig: &[u8; 17088], place: usize) -> bool {
    let mut bytes = *sig;
    if let Some(byte) = bytes.get_mut(place) {
        *byte = !*byte;
    }
    is_invalid(3, MESSAGE, CONTEXT, &bytes)
}

// A byte of the randomizer, of the forest's part and of the top layer's.
#[test]
fn a_changed_byte_is_refused(rt: HostRuntime) {
    let sig = signed(1, None);
    shows(
        &rt,
        is_invalid_with_inverted(&sig, 0)
            && is_invalid_with_inverted(&sig, 16)
            && is_invalid_with_inverted(&sig, 17087),
    );
}

#[test]
fn other_randomizers_make_other_signatures(rt: HostRuntime) {
    shows(&rt, signed(1, Some(&[8; 16])) != signed(1, Some(&[9; 16])));
}
