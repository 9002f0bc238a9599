//! SHA-512 in pieces: NIST's examples.

use crate::hexadecimal::is_hex;
use crate::shown::shows;
use sha512_lanes::Hash512;

fn are_examples_of_one_block() -> bool {
    let of_nothing =
        "cf83e1357eefb8bdf1542850d66d8007d620e4050b5715dc83f4a921d36ce9ce47d0d13c5d85f2b0ff8318d2877eec2f63b931bd47417a81a538327af927da3e";
    let of_abc =
        "ddaf35a193617abacc417349ae20413112e6fa4e89a97ea20a9eeee64b55d39a2192992a274fc1a836ba3c23a3feebbd454d4423643ce80e2a9ac94fa54ca49f";
    is_hex(of_nothing, &Hash512::digest(b"")) && is_hex(of_abc, &Hash512::digest(b"abc"))
}

fn is_example_of_896_bits() -> bool {
    let digest =
        "8e959b75dae313da8cf4f72814fc143f8f7779c6eb9f7fa17299aeadb6889018501d289e4900f7e4331b99dec4b5433ac7d329eeb6dd26545e96e55b874be909";
    let message = b"abcdefghbcdefghicdefghijdefghijkefghijklfghijklmghijklmn\
hijklmnoijklmnopjklmnopqklmnopqrlmnopqrsmnopqrstnopqrstu";
    is_hex(digest, &Hash512::digest(message))
}

// Of a million letters, in pieces of 10,000.
fn is_example_of_letters() -> bool {
    let digest =
        "e718483d0ce769644e2e42c7bc15b4638e1f98b13b2044285632a803afa973ebde0ff244877ea60a4cb0432ce577c31beb009c5c2c49aa2e4eadb217ad8cc09b";
    let mut hash = Hash512::new();
    for _ in 0..100 {
        hash.update(&[b'a'; 10_000]);
    }
    is_hex(digest, &hash.finalize())
}

#[test]
fn examples_of_the_standard(rt: HostRuntime) {
    shows(
        &rt,
        are_examples_of_one_block() && is_example_of_896_bits() && is_example_of_letters(),
    );
}
