//! Digests and authentication codes against published ones, and against Python's `hashlib` and
//! `hmac`.

ghost use Rattle.std.specs.Prelude.{◌≤◌, ◌^◌, length};

use crate::hexadecimal::is_hex;
use crate::shown::shows;
use hmac_sha256::{HMAC, Hash};

fn has_digest(message: &[u8], text: &str) -> bool
    requires { length message.now ≤ 2 ^ 60 }
{
    is_hex(text, &Hash::hash(message))
}

// FIPS 180-4's examples, and the digest of nothing.
#[test]
fn digests_of_the_standard(rt: HostRuntime) {
    let of_abc = "ba7816bf8f01cfea414140de5dae2223b00361a396177a9cb410ff61f20015ad";
    let of_nothing = "e3b0c44298fc1c149afbf4c8996fb92427ae41e4649b934ca495991b7852b855";
    let of_two_blocks = "248d6a61d20638b8e5c026930c3e6039a33ce45964ff2167f6ecedd419db06c1";
    let two_blocks = b"abcdbcdecdefdefgefghfghighijhijkijkljklmklmnlmnomnopnopq";
    shows(
        &rt,
        has_digest(b"abc", of_abc)
            && has_digest(b"", of_nothing)
            && has_digest(two_blocks, of_two_blocks),
    );
}

// The bytes of which byte `i` is `7 * i + 3`.
fn message() -> [u8; 4096] {
    let mut message = [0u8; 4096];
    for i in 0..4096usize {
        message[i] = ((7 * i + 3) % 256) as u8;
    }
    message
}

// Of the digest before and a longer piece of the message each.
fn digest_of_all_lengths(message: &[u8; 4096]) -> [u8; 32] {
    let mut digest = [0u8; 32];
    for n in 0..301usize {
        let mut hash = Hash::new();
        hash.update(&digest);
        hash.update(&message[..n / 3]);
        digest = hash.finalize_with(&message[n / 3..n]);
    }
    digest
}

// The digests of a digest and then more of a message, or the other way round, each 37 or 64 bytes
// longer than the last.
fn digest_of_pieces(message: &[u8; 4096]) -> [u8; 32] {
    let mut digest = [0u8; 32];
    for n in 0..111usize {
        let mut hash = Hash::new();
        hash.update(&digest);
        hash.update(&message[..37 * n]);
        digest = hash.finalize();
    }
    digest
}

fn digest_of_blocks(message: &[u8; 4096]) -> [u8; 32] {
    let mut digest = [0u8; 32];
    for n in 0..65usize {
        let mut hash = Hash::new();
        hash.update(&message[..64 * n]);
        hash.update(&digest);
        digest = hash.finalize();
    }
    digest
}

// Messages of up to 332 bytes, and of more than sixteen blocks, of which eight are taken at a time.
// Each digest is of the one before it, too, and the last is from Python's `hashlib`.
#[test]
fn digests_of_all_lengths_and_of_long_messages(rt: HostRuntime) {
    let of_lengths = "ba6f82458402eac3a7efe79237fa695b92dc91244efde7f934c5b707acac8974";
    let of_pieces = "c098a17709a00fe41b39d7c8ea15bd3fd02fc78a6a5c7bda8e5c70defaad8829";
    let of_blocks = "fca89b97d94f70774d9d82776121c16a89599b28157cc01948d003148083fa06";
    let message = message();
    shows(
        &rt,
        is_hex(of_lengths, &digest_of_all_lengths(&message))
            && is_hex(of_pieces, &digest_of_pieces(&message))
            && is_hex(of_blocks, &digest_of_blocks(&message)),
    );
}

fn has_code(message: &[u8], key: &[u8], text: &str) -> bool
    requires message { length message.now ≤ 2 ^ 60 }
    requires key { length key.now ≤ 2 ^ 60 }
{
    is_hex(text, &HMAC::mac(message, key))
}

fn are_codes_of_the_rfc() -> bool {
    let case_1 = "b0344c61d8db38535ca8afceaf0bf12b881dc200c9833da726e9376c2e32cff7";
    let case_2 = "5bdcc146bf60754e6a042426089575c75a003f089d2739839dec58b964ec3843";
    let case_6 = "60e431591ee0b67f0d8a26aacbf5b77f8e0bc6213728c5140546040f0ee37f54";
    let long = b"Test Using Larger Than Block-Size Key - Hash Key First";
    has_code(b"Hi There", &[0x0b; 20], case_1)
        && has_code(b"what do ya want for nothing?", b"Jefe", case_2)
        && has_code(long, &[0xaa; 131], case_6)
}

// The cases 1, 2 and 6 of RFC 4231.
#[test]
fn codes_of_the_rfc(rt: HostRuntime) {
    shows(&rt, are_codes_of_the_rfc());
}

fn is_code_of_two_pieces(code: &str) -> bool {
    let mut mac = HMAC::new(&[0x2a; 50]);
    mac.update(&[0x45; 150]);
    mac.update(&[0x45; 100]);
    is_hex(code, &mac.finalize())
}

// Byte `i` of the key is `5 * i + 1`, and each code is that of the one before it under a longer
// piece of the key.
fn code_of_all_key_lengths() -> [u8; 32] {
    let mut key = [0u8; 131];
    for i in 0..131usize {
        key[i] = ((5 * i + 1) % 256) as u8;
    }
    let mut code = [0u8; 32];
    for n in 0..132usize {
        code = HMAC::mac(&code, &key[..n]);
    }
    code
}

// The code of the Rust crate's own test, and from Python's `hmac` those of no message, under no key
// and under keys of all lengths.
#[test]
fn codes_of_the_crate_and_of_python(rt: HostRuntime) {
    let of_the_crate = "709c78d856194fd29bc120787486ed0ec60140297cc4675b6dd8248504eadae4";
    let of_nothing = "b613679a0814d9ec772f95d778c35fc5ff1697c493715653c6c712144292c5ad";
    let under_nothing = "e15823084eb9a506eb7c1cfa707c9f779f58b83d0725a6e5479a539997b5b648";
    let of_all = "fa0801af4e06a6b58fb0711aef5fdfc8f7cb108a450bdb2324f8e69cc994cfbe";
    shows(
        &rt,
        is_code_of_two_pieces(of_the_crate)
            && has_code(b"", &[0; 32], of_nothing)
            && has_code(&[0x2a; 69], b"", under_nothing)
            && is_hex(of_all, &code_of_all_key_lengths()),
    );
}
