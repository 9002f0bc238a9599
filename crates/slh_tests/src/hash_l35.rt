// The wanted values of SHA-512 were computed with Python's `hashlib` and `hmac` from the formulas
// of FIPS 205, section 11.2.2, or stand where the test says.
ghost use Rattle.slh_core.specs.Steps.{IsFresh};

use crate::digests::is_hex;
use crate::hash_l1::has_ends;
use crate::shown::shows;
use hybrid_array::sizes::{U24, U32};
use slh_core::address::WotsHash;
use slh_core::nbytes::NBytes;
use slh_core::steps::Steps;
use slh_core::suite::HashSuite;
use slh_hash::{Sha2_192f, Sha2_192s, Sha2_256f, Sha2Keyed512, hmac_sha512, mgf1_512};
use std::marker::Brand;
use std::sync::ledger::{Blank, Ledger};

// RFC 4231, test case 2.
const CODE_OF_SHORT_KEY: &str = "\
164b7a7bfcf819e2e395fbe73b56e0a387bd64222e831fd610270cd7ea250554\
9758bf75c05a994a6d034f65f8f0e6fdcaeab1a34d4a6b4b636e070a38bce737";

// RFC 4231, test case 7: a key of 131 bytes, longer than a block.
const CODE_OF_LONG_KEY: &str = "\
e37b6a775dc87dbaa4dfa9f96e5e3ffddebd71f8867289865df5a32d20cdc944\
b6022cac3c4982b10d5eeb55c3e4de15134676fb6de0446065c97440fa8c6a58";

fn is_code_of_short_key() -> bool {
    let code = hmac_sha512(b"Jefe", b"what do ya ", b"want ", b"for ", b"nothing?");
    is_hex(&code, CODE_OF_SHORT_KEY)
}

fn is_code_of_long_key() -> bool {
    let code = hmac_sha512(
        &[0xaa; 131],
        b"This is a test using a larger than block-size key ",
        b"and a larger than block-size data. ",
        b"The key needs to be hashed before being used ",
        b"by the HMAC algorithm.",
    );
    is_hex(&code, CODE_OF_LONG_KEY)
}

#[test]
fn codes_of_the_rfc(rt: HostRuntime) {
    shows(&rt, is_code_of_short_key() && is_code_of_long_key());
}

// The first 24 bytes of the HMAC-SHA-512 of 24 bytes 01 and 32 bytes 02 under 24 bytes 00.
const RANDOMIZER: &str = "4b9c0daad13da81369264ce45d7a24230d57401be0df9173";

fn of_24(value: u8) -> NBytes<U24> {
    NBytes::exact(&[value; 24])
}

fn of_32(value: u8) -> NBytes<U32> {
    NBytes::exact(&[value; 32])
}

fn is_wide_randomizer() -> bool {
    let made = Sha2_192s::prf_msg(&of_24(0), &of_24(1), &[2; 2], &[2; 7], &[2; 23]);
    is_hex(made.as_slice(), RANDOMIZER)
}

// The Rust crate's test: a randomizer of 32 bytes 00, a seed of 32 bytes 01, a root of 32 bytes 02
// and a message of 32 bytes 03.
const DIGEST: &str = "\
8c86dfb66392d1b647df0deab90be68fb6f988513e84d3ef75fa68591122bb5d\
74f6413672db5164e56492b7ca2c2e0335";

fn is_wide_digest() -> bool {
    let mut digest = [0; 49];
    let (rand, seed, root) = (of_32(0), of_32(1), of_32(2));
    Sha2_256f::h_msg(&rand, &seed, &root, &[3; 2], &[3; 7], &[3; 23], &mut digest);
    is_hex(&digest, DIGEST)
}

#[test]
fn wide_randomizer_and_digest_of_a_message(rt: HostRuntime) {
    shows(&rt, is_wide_randomizer() && is_wide_digest());
}

const SEED: [u8; 24] = [
    0, 1, 2, 3, 4, 5, 6, 7, 8, 9, 10, 11, 12, 13, 14, 15, 16, 17, 18, 19, 20, 21, 22, 23,
];

// The address has layer 1, tree 0x0203, key pair 4, chain 5 and
// step 6. F of 24 bytes 07: the first bytes of SHA-256.
const F_VALUE: &str = "9a6c11409c1820ed29f29f2b071b8c6cfa2999d294065390";

// H of 24 bytes 07 and 24 bytes 08: the first bytes of SHA-512.
const H_VALUE: &str = "b75ec48b3897b72a53db5da91232993b3e7ea3bb625493c2";

// T of 100 bytes 09: SHA-512.
const T_VALUE: &str = "6771d1bf40df994a70565e23fa536534448a11f9a06ae6e3";

// PRF of 24 bytes 0a: SHA-256.
const PRF_VALUE: &str = "b4f9f632687feaeb5c863cbd22c74b155515bc7aee5109e4";

const ADRS: WotsHash = WotsHash {
    layer_adrs: 1,
    tree_adrs_low: 0x0203,
    key_pair_adrs: 4,
    chain_adrs: 5,
    hash_adrs: 6,
};

fn is_f<L: Ledger>(keyed: &Sha2Keyed512<U24>, steps: &mut Steps<L>) -> bool {
    is_hex(
        Sha2_192f::f(keyed, &ADRS, &of_24(7), steps).as_slice(),
        F_VALUE,
    )
}

fn is_h<L: Ledger>(keyed: &Sha2Keyed512<U24>, steps: &mut Steps<L>) -> bool {
    let h = Sha2_192f::h(keyed, &ADRS, &of_24(7), &of_24(8), steps);
    is_hex(h.as_slice(), H_VALUE)
}

fn is_t<L: Ledger>(keyed: &Sha2Keyed512<U24>, steps: &mut Steps<L>) -> bool {
    is_hex(
        Sha2_192f::t(keyed, &ADRS, &[9; 100], steps).as_slice(),
        T_VALUE,
    )
}

fn is_prf<L: Ledger>(keyed: &Sha2Keyed512<U24>, steps: &mut Steps<L>) -> bool {
    let prf = Sha2_192f::prf_sk(keyed, &of_24(10), &ADRS, steps);
    is_hex(prf.as_slice(), PRF_VALUE)
}

fn are_wide_hashes<L: Ledger>(blank: Blank) -> bool
    requires fresh { IsFresh blank L.name L.parts }
{
    let mut steps = Steps::<L>::new(blank);
    let keyed = Sha2_192f::keyed(&NBytes::exact(&SEED));
    is_f(&keyed, &mut steps)
        && is_h(&keyed, &mut steps)
        && is_t(&keyed, &mut steps)
        && is_prf(&keyed, &mut steps)
}

#[test]
fn wide_hashes_of_an_address(rt: HostRuntime) {
    shows(&rt, are_wide_hashes::<Brand>(Blank::new(1)));
}

// MGF1 of the four bytes of "seed": its first 65 bytes, and the last 32 of 256.
const MASK_START: &str = "\
b76f0d507aafecd10f1a1f9893059f9d691de22082c56b9057c38ea555a50614\
8fda313e51515d18522c4e70066f8adfc773cde314d480b9521773495e3069ad\
24";

const MASK_END: &str = "857a67246f2172357b85d7c548d38939a37ddb0c2134a362f7cdfd41d0b9aad6";

#[test]
fn longest_wide_mask(rt: HostRuntime) {
    let mut mask = [0; 256];
    mgf1_512(b"seed", &mut mask);
    shows(&rt, has_ends(&mask, MASK_START, MASK_END));
}
