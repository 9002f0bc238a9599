//! `Hash` and `WrappedHash` by the traits of hashes, against published digests and against Python's
//! `hashlib`.

ghost use Rattle.std.specs.Prelude.{◌≡◌, ◌+◌, ◌≤◌, length};

use crate::hexadecimal::is_hex;
use crate::shown::shows;
use digest_core::FixedOutput;
use hmac_sha256::{Hash, WrappedHash};

// The digest of two pieces, by any hash of 32 bytes.
fn digest_of_two<H: FixedOutput>(mut hash: H, first: &[u8], second: &[u8]) -> [u8; 32]
    requires room { H.count hash + length first.now + length second.now ≤ H.MAX_BYTES }
    requires size { H.OutputSize.USIZE ≡ 32 }
{
    let mut digest = [0; 32];
    hash.update(first);
    hash.update(second);
    hash.finalize_into(&mut digest);
    digest
}

// Whether the two pieces have this digest, by a core and by a hash.
fn is_digest(first: &[u8], second: &[u8], expected: &str) -> bool
    requires { length first.now + length second.now ≤ 200 }
{
    let wrapped = WrappedHash::from_core(Hash::new());
    is_hex(expected, &digest_of_two(Hash::new(), first, second))
        && is_hex(expected, &digest_of_two(wrapped, first, second))
}

#[test]
fn core_and_hash_give_published_digests(rt: HostRuntime) {
    let of_abc = "ba7816bf8f01cfea414140de5dae2223b00361a396177a9cb410ff61f20015ad";
    let of_nothing = "e3b0c44298fc1c149afbf4c8996fb92427ae41e4649b934ca495991b7852b855";
    let of_200_bytes = "65c16504dd0dbd70f5c4e43865f85cbdb1639b42bcdd192408f96b38fba4b8d6";
    shows(
        &rt,
        is_digest(b"a", b"bc", of_abc)
            && is_digest(b"", b"", of_nothing)
            && is_digest(&[0x2a; 145], &[0x2a; 55], of_200_bytes),
    );
}
