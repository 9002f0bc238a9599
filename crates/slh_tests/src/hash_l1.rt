// The wanted values were computed with Python's `hashlib` and `hmac` from the formulas of FIPS 205,
// section 11.2.1.
ghost use Rattle.slh_core.specs.Steps.{IsFresh};

use crate::digests::is_hex;
use crate::shown::shows;
use hybrid_array::sizes::U16;
use slh_core::address::WotsHash;
use slh_core::nbytes::NBytes;
use slh_core::steps::Steps;
use slh_core::suite::HashSuite;
use slh_hash::{Sha2_128f, Sha2_128s, Sha2Keyed, mgf1_256};
use std::marker::Brand;
use std::sync::ledger::{Blank, Ledger};

fn filled(value: u8) -> NBytes<U16> {
    NBytes::exact(&[value; 16])
}

// The first 16 bytes of the HMAC-SHA-256 of 16 bytes 01 and 32 bytes 02 under 16 bytes 00.
const RANDOMIZER: &str = "6a4b5cf23911d4f3a6591d7003445316";

fn is_randomizer() -> bool {
    let made = Sha2_128s::prf_msg(&filled(0), &filled(1), &[2; 2], &[2; 7], &[2; 23]);
    is_hex(made.as_slice(), RANDOMIZER)
}

// MGF1 over 16 bytes 00, 16 bytes 01 and the hash of these, 16 bytes 02 and 32 bytes 03.
const DIGEST: &str = "56658221f675d907a309255e8faef639d11e6a1118fa05d3bbd26179a7e0a54a7f5b";

fn is_digest() -> bool {
    let mut digest = [0; 34];
    let (rand, seed, root) = (filled(0), filled(1), filled(2));
    Sha2_128f::h_msg(&rand, &seed, &root, &[3; 2], &[3; 7], &[3; 23], &mut digest);
    is_hex(&digest, DIGEST)
}

#[test]
fn randomizer_and_digest_of_a_message(rt: HostRuntime) {
    shows(&rt, is_randomizer() && is_digest());
}

const SEED: [u8; 16] = [0, 1, 2, 3, 4, 5, 6, 7, 8, 9, 10, 11, 12, 13, 14, 15];

// Of SHA-256 of the seed, 48 zeros, the address in 22 bytes and 16 bytes 07, the first 16 bytes.
const F_VALUE: &str = "c470488d9dfb34a8169f6dd4067a4479";

// The same of 16 bytes 07 and 16 bytes 08.
const H_VALUE: &str = "441f5e7ea8c93ab385e670ad6d3bc513";

// The same of 100 bytes 09.
const T_VALUE: &str = "57c764e2d874a639698394f512e00cbb";

// The same of 16 bytes 0a.
const PRF_VALUE: &str = "af5b32086b9dcbf67ecaa83c04ea27c7";

const ADRS: WotsHash = WotsHash {
    layer_adrs: 1,
    tree_adrs_low: 0x0203,
    key_pair_adrs: 4,
    chain_adrs: 5,
    hash_adrs: 6,
};

fn is_h<L: Ledger>(keyed: &Sha2Keyed<U16>, steps: &mut Steps<L>) -> bool {
    let h = Sha2_128f::h(keyed, &ADRS, &filled(7), &filled(8), steps);
    is_hex(h.as_slice(), H_VALUE)
}

fn is_t<L: Ledger>(keyed: &Sha2Keyed<U16>, steps: &mut Steps<L>) -> bool {
    is_hex(
        Sha2_128f::t(keyed, &ADRS, &[9; 100], steps).as_slice(),
        T_VALUE,
    )
}

fn is_prf<L: Ledger>(keyed: &Sha2Keyed<U16>, steps: &mut Steps<L>) -> bool {
    let prf = Sha2_128f::prf_sk(keyed, &filled(10), &ADRS, steps);
    is_hex(prf.as_slice(), PRF_VALUE)
}

fn are_hashes<L: Ledger>(blank: Blank) -> bool
    requires fresh { IsFresh blank L.name L.parts }
{
    let mut steps = Steps::<L>::new(blank);
    let keyed = Sha2_128f::keyed(&NBytes::exact(&SEED));
    is_h(&keyed, &mut steps) && is_t(&keyed, &mut steps) && is_prf(&keyed, &mut steps)
}

// F is that of the page's example below.
#[test]
fn hashes_of_an_address(rt: HostRuntime) {
    shows(&rt, are_hashes::<Brand>(Blank::new(1)));
}

fn next_value<L: Ledger>(pk_seed: &[u8; 16], value: &[u8; 16], blank: Blank) -> NBytes<U16>
    requires fresh { IsFresh blank L.name L.parts }
{
    let mut steps = Steps::<L>::new(blank);
    let keyed = Sha2_128f::keyed(&NBytes::exact(pk_seed));
    let adrs = WotsHash {
        layer_adrs: 1,
        tree_adrs_low: 0x0203,
        key_pair_adrs: 4,
        chain_adrs: 5,
        hash_adrs: 6,
    };
    Sha2_128f::f(&keyed, &adrs, &NBytes::exact(value), &mut steps)
}

#[test]
fn example_of_the_page(rt: HostRuntime) {
    let f = next_value::<Brand>(&SEED, &[7; 16], Blank::new(1));
    shows(&rt, is_hex(f.as_slice(), F_VALUE));
}

// MGF1 of the four bytes of "seed": its first 33 bytes, and the last 32 of 256.
const MASK_START: &str = "336f28a022193939585a1b4edc989f870917f3a5f6ddd16e4fb357084a6bdfc273";

const MASK_END: &str = "f1400982dfd93472f6351597cce5606ff3d0e507d306c5d0abbbed6ad1b4b53d";

/// Whether a mask begins and ends with these bytes.
pub(crate) fn has_ends(mask: &[u8; 256], start: &str, end: &str) -> bool {
    let len = (start.len() / 2).min(256);
    is_hex(&mask[..len], start) && is_hex(&mask[224..], end)
}

#[test]
fn longest_mask(rt: HostRuntime) {
    let mut mask = [0; 256];
    mgf1_256(b"seed", &mut mask);
    shows(&rt, has_ends(&mask, MASK_START, MASK_END));
}
