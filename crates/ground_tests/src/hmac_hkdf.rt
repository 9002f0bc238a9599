//! Derived keys against those of RFC 5869 and of Python's `hmac`.

ghost use Rattle.std.specs.Prelude.{◌≤◌, ◌^◌, length};

use crate::hexadecimal::is_hex;
use crate::shown::shows;
use hmac_sha256::{HKDF, HMAC, Hash};

const SALT: [u8; 13] = [0, 1, 2, 3, 4, 5, 6, 7, 8, 9, 10, 11, 12];

const INFO: [u8; 10] = [0xf0, 0xf1, 0xf2, 0xf3, 0xf4, 0xf5, 0xf6, 0xf7, 0xf8, 0xf9];

// Bytes that count up from the first.
fn counted(first: u8) -> [u8; 80] {
    let mut bytes = [0u8; 80];
    for i in 0..80 {
        bytes[i] = first.wrapping_add(i as u8);
    }
    bytes
}

// Whether this key is extracted, and these bytes are derived from it.
fn derives(
    salt: &[u8],
    secret: &[u8],
    key: &str,
    info: &[u8],
    out: &mut [u8],
    expected: &str,
) -> bool
    requires salt { length salt.now ≤ 2 ^ 60 }
    requires secret { length secret.now ≤ 2 ^ 60 }
    requires out { length out.old ≤ 8160 }
    requires info { length info.now ≤ 2 ^ 60 }
{
    let prk = HKDF::extract(salt, secret);
    HKDF::expand(out, &prk, info);
    is_hex(key, &prk) && is_hex(expected, out)
}

fn is_case_1() -> bool {
    let key = "077709362c2e32df0ddc3f0dc47bba6390b6c73bb50f9c3122ec844ad7c2b3e5";
    let output =
        "3cb25f25faacd57a90434f64d0362f2a2d2d0a90cf1a5a4c5db02d56ecc4c5bf34007208d5b887185865";
    derives(&SALT, &[0x0b; 22], key, &INFO, &mut [0; 42], output)
}

// Longer inputs and a longer output.
fn is_case_2() -> bool {
    let key = "06a6b88c5853361a06104c9ceb35b45cef760014904671014a193f40c15fc244";
    let output = "b11e398dc80327a1c8e7f78c596a49344f012eda2d4efad8a050cc4c19afa97c\
59045a99cac7827271cb41c65e590e09da3275600c2f09b8367793a9aca3db71cc30c58179ec3e87c14c01d5c1f3434f1d87";
    let (salt, secret, info) = (counted(0x60), counted(0), counted(0xb0));
    derives(&salt, &secret, key, &info, &mut [0; 82], output)
}

// No salt and no context.
fn is_case_3() -> bool {
    let key = "19ef24a32c717b167f33a91d6f648bdf96596776afdb6377ac434c1c293ccb04";
    let output =
        "8da4e775a563c18f715f802a063c5a31b8a11f5c5ee1879ec3454e5f3c738d2d9d201395faa4b61a96c8";
    derives(&[], &[0x0b; 22], key, &[], &mut [0; 42], output)
}

#[test]
fn cases_of_the_rfc(rt: HostRuntime) {
    shows(&rt, is_case_1() && is_case_2() && is_case_3());
}

fn derived_key() -> [u8; 32] {
    let prk = HKDF::extract(b"salt", b"secret");
    let mut key = [0; 32];
    HKDF::expand(&mut key, &prk, b"key of codes");
    key
}

fn code_under(key: &[u8; 32]) -> [u8; 32] {
    let mut mac = HMAC::new(key);
    mac.update(b"a message ");
    mac.update(b"in two pieces");
    mac.finalize()
}

fn are_code_and_digest(key: &[u8; 32]) -> bool {
    let code = code_under(key);
    let of_code = "117dc7b687a21abbd8cbdeb174c7b26128529029f5141c77af6dad5c725685ed";
    let of_digest = "3d9d1a9ab435b0bfe3ddbeb4287b03b67c1a63a984d80ca1a834484c3405f27f";
    is_hex(of_code, &code)
        && HMAC::verify(b"a message in two pieces", key, &code)
        && is_hex(of_digest, &Hash::hash(b"a message in two pieces"))
}

// The example of the crate's first page. The values are from Python's `hmac` and `hashlib`.
#[test]
fn a_code_under_a_derived_key(rt: HostRuntime) {
    shows(&rt, are_code_and_digest(&derived_key()));
}

// The SHA-256 of outputs, by their lengths, from Python's `hmac` and `hashlib`.
const DIGESTS: &str = "\
0 e3b0c44298fc1c149afbf4c8996fb92427ae41e4649b934ca495991b7852b855
1 dabd3aff769f07eb2965401eb029974ebba3407afd02b26ddb564ea5f8efae72
31 10ea1b681cfe6ff92ab3f9d25848cb39c6635a88d855d445a21a26f2e9a8b509
32 8368ec2ea306ad2d2c4526cb18926e5f2d0fa95f9fb87a640d39e80b2bea41bf
33 a4f0d7aa02bb5d1a1ae603067574cad28352de571a2fe130df633347ce5babf8
8159 5e11b236dadf5e72c4369876f689119ef10b07d82a27e224d6201a8ebec862f8
8160 06ce7419405a88a66ba5c9795579cb05130c85101924d187552a0f7f57deb091";

fn derives_row(prk: &[u8; 32], row: &str) -> bool {
    let mut out = [0; 8160];
    match row.split_once(' ') {
        Some((len, digest)) => match len.parse::<usize>() {
            Ok(len) => {
                let len = len.min(8160);
                HKDF::expand(&mut out[..len], prk, &INFO);
                is_hex(digest, &Hash::hash(&out[..len]))
            }
            Err(_) => false,
        },
        None => false,
    }
}

fn derives_each_length() -> bool {
    let prk = HKDF::extract(&SALT, &[0x0b; 22]);
    let mut all = true;
    for row in DIGESTS.lines() {
        all = all && derives_row(&prk, row);
    }
    all
}

#[test]
fn outputs_of_each_length(rt: HostRuntime) {
    shows(&rt, derives_each_length());
}
