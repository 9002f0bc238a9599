// Signatures and keys of the toy suite by value, and what is signed in each mode.
ghost use Rattle.std.specs.Prelude.{◌≤◌, length};

use crate::digests::is_hex;
use crate::shown::shows;
use crate::worked::{KEY, MESSAGE, SIGNATURE, signing_key};
use hybrid_array::{Array, ArraySize};
use signature_core::SignatureEncoding;
use slh_dsa::{Error, Frame, Mode, ParameterSet, Signature, SigningKey};
use slh_merkle::toy::Toy;
use std::alloc::{AllocError, Global};

// The identifiers of SHA-256 and SHA-512, and the digests of `abc`.
const BY_SHA256: &str = "\
0609608648016503040201ba7816bf8f01cfea414140de5dae2223b00361a396\
177a9cb410ff61f20015ad";

const BY_SHA512: &str = "\
0609608648016503040203ddaf35a193617abacc417349ae20413112e6fa4e89\
a97ea20a9eeee64b55d39a2192992a274fc1a836ba3c23a3feebbd454d442364\
3ce80e2a9ac94fa54ca49f";

// The bytes 0 and 0 before the message are the frame of an empty context.
fn made_as_it_stands(alloc: Global) -> Result<Signature<Toy>, Error> {
    signing_key(&KEY)?.slh_sign_internal(alloc, &[0, 0, 0x48], None)
}

fn made_in_pure_mode(alloc: Global) -> Result<Signature<Toy>, Error> {
    signing_key(&KEY)?.hash_sign_with_context(alloc, Mode::Pure, &MESSAGE, &[], None)
}

// Whether bytes were given, and are these.
fn is_array<N: ArraySize>(given: Result<Array<u8, N>, AllocError>, bytes: &[u8]) -> bool {
    match given {
        Ok(given) => given.as_slice() == bytes,
        Err(_) => false,
    }
}

fn is_vector(given: Result<Vec<u8>, AllocError>, bytes: &[u8]) -> bool {
    match given {
        Ok(given) => given.as_slice() == bytes,
        Err(_) => false,
    }
}

fn is_cloned<P: ParameterSet>(alloc: Global, sig: &Signature<P>) -> bool {
    match sig.clone(alloc) {
        Ok(copy) => copy == *sig,
        Err(_) => false,
    }
}

// Whether the bytes of a signature by the bound, as an array and as a vector, are these.
fn encodes<S: SignatureEncoding>(alloc: Global, sig: &S, bytes: &[u8]) -> bool {
    is_array(sig.to_bytes(alloc), bytes) && is_vector(sig.to_vec(alloc), bytes)
}

// Whether a signature was made that is the worked one, and gives its bytes back.
fn is_worked(alloc: Global, made: Result<Signature<Toy>, Error>) -> bool {
    match made {
        Ok(sig) => {
            is_array(sig.to_bytes(alloc), &SIGNATURE)
                && is_cloned(alloc, &sig)
                && encodes(alloc, &sig, &SIGNATURE)
        }
        Err(_) => false,
    }
}

#[test]
fn a_framed_message_is_signed_as_in_pure_mode(rt: HostRuntime) {
    shows(&rt, is_worked(rt.alloc(), made_as_it_stands(rt.alloc())));
    shows(&rt, is_worked(rt.alloc(), made_in_pure_mode(rt.alloc())));
}

fn are_bytes<P: ParameterSet>(alloc: Global, key: &SigningKey<P>) -> bool {
    is_array(key.to_bytes(alloc), &KEY)
        && is_vector(key.to_vec(alloc), &KEY)
        && is_array(key.verifying_key().to_bytes(alloc), &KEY[2..])
}

fn are_keys_their_bytes(alloc: Global) -> bool {
    match signing_key(&KEY) {
        Ok(key) => are_bytes(alloc, &key),
        Err(_) => false,
    }
}

#[test]
fn keys_give_their_bytes_back(rt: HostRuntime) {
    shows(&rt, are_keys_their_bytes(rt.alloc()));
}

// Whether what is signed of `abc` has these bytes before the context, and these after it, in
// hexadecimal.
fn is_frame(mode: Mode, ctx: &[u8], head: [u8; 2], tail: &str) -> bool
    requires { length ctx.now ≤ 255 }
{
    let frame = Frame::new(mode, ctx, b"abc");
    frame.head() == head.as_slice() && frame.ctx() == ctx && is_hex(frame.tail(), tail)
}

// What is signed of `abc` by its digest: 1, the context's length, the identifier, and the digest
// that FIPS 180-4's examples give.
#[test]
fn a_frame_has_an_identifier_and_a_digest(rt: HostRuntime) {
    shows(&rt, is_frame(Mode::Pure, &[7, 8], [0, 2], "616263"));
    shows(&rt, is_frame(Mode::Sha256, &[], [1, 0], BY_SHA256));
    shows(&rt, is_frame(Mode::Sha512, &[7, 8], [1, 2], BY_SHA512));
}
