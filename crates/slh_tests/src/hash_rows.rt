// The wanted values were computed with Python's `hashlib` from the formulas of FIPS 205,
// sections 11.2.1 and 11.2.2, value by value.
ghost use Rattle.slh_core.specs.Steps.{IsFresh};

use crate::digests::is_hex;
use crate::shown::shows;
use hybrid_array::sizes::U16;
use slh_core::address::{ForsTree, HashTree, WotsHash};
use slh_core::nbytes::NBytes;
use slh_core::steps::Steps;
use slh_core::suite::HashSuite;
use slh_hash::{Sha2_128f, Sha2_256f, Sha2Keyed};
use std::marker::Brand;
use std::sync::ledger::{Blank, Ledger};

// A whole group of eight values and five of the next.
const LONGEST: usize = 13;

// The bytes of so many values of 16.
const ROW_LEN: usize = LONGEST * 16;

// The numbers of a row, which stand in no order.
const NUMBERS: [u32; LONGEST] = [7, 0, 0x0102_0304, 34, 2, 33, 5, 6, 1, 12, 3, 0xffff_ffff, 8];

// A public seed of 16 bytes is the start of it.
const SEED: [u8; 32] = [
    0, 1, 2, 3, 4, 5, 6, 7, 8, 9, 10, 11, 12, 13, 14, 15, 16, 17, 18, 19, 20, 21, 22, 23, 24, 25,
    26, 27, 28, 29, 30, 31,
];

// Writes the bytes from 0 on, and after 255 from 0 again.
fn count(bytes: &mut [u8]) {
    for i in 0..bytes.len() {
        bytes[i] = (i % 256) as u8;
    }
}

// The steps 6 of the chains of key pair 4 of tree 0x0203 of layer 1.
fn chains() -> WotsHash {
    WotsHash {
        layer_adrs: 1,
        tree_adrs_low: 0x0203,
        key_pair_adrs: 4,
        chain_adrs: 0,
        hash_adrs: 6,
    }
}

// F of the bytes from 0 on, 16 a chain.
const F_ROW: &str = "\
a5c6657e2ed23954ff6cc5f292032da523ac27df848a7b80f398be5564587910\
d94e6640139ba376ceeb494fe803f302484cf3376ed11cd9659b2e6242d76515\
05160dfb32b344316f9e525d09aa3c45e58c267673e22d801611639cc0d7eb11\
050b00c36f917a04186fb349d57883486c0dfee9a37ebf4049f4a0b9ed4db689\
b517776fc9a57eaef2ce2b9f0f7d55da9590a5705d9dfb3b6764ea19caefdc96\
917b6160d8c2814b1c9499e502aafbdf8e417009ec3b02ea36852d7f6533b4f9\
a2e5c70e8590e393461e6a8c9fb76f28";

fn are_steps<L: Ledger>(keyed: &Sha2Keyed<U16>, steps: &mut Steps<L>) -> bool {
    let mut values = [0; ROW_LEN];
    count(&mut values);
    Sha2_128f::f_each(keyed, &chains(), &NUMBERS, &mut values, steps);
    is_hex(&values, F_ROW)
}

// PRF of 16 bytes 0a at the secrets of the same chains.
const PRF_ROW: &str = "\
669d5f43f5485147015b5695c07a112b26291c439c8a3178fbc074783efd164e\
7210fc19275114f471216067ad4929891476134965f1acc4b55890d927ce5754\
3cc9ac69f7f1ab3c4dd1386d64ae96ecaa4e4d31e77cd5873fad5a954764598b\
640117cf1cb0298a1f9d2851e34cbcb670a8d926cbe8ac7b1052132ff297bb15\
e73aababe493cd4aee2a945a54a07213224f54199473cd6b961e5f4327662ff8\
fd2fde28adcf7e71f96d6222b2c3757980d03cfb055c9ff84397783e493aea6f\
d754d388eba5b8bca48a5fd463807a4f";

fn are_secrets<L: Ledger>(keyed: &Sha2Keyed<U16>, steps: &mut Steps<L>) -> bool {
    let (seed, adrs) = (NBytes::exact(&[10; 16]), chains().prf_adrs());
    let mut secrets = [0; ROW_LEN];
    Sha2_128f::prf_each(keyed, &seed, &adrs, &NUMBERS, &mut secrets, steps);
    is_hex(&secrets, PRF_ROW)
}

// H of the bytes from 0 on, 32 a node, at height 6 of the forest of key pair 4 of tree 0x0203.
const H_ROW: &str = "\
65128db725f88a87b57952ed71bb35c6e06df7b7aca9b9a9fb408748dfcd4be7\
080f4aa2a304c38933200274ff9e30e8be867665f28bd0798facf47a64d8ce16\
4584f6bbc1f806cd94f9fcc6e4a6c14e06dd76caa9a8c6eb48f81f9e4da9a9e5\
0375bed1e551663a9663e5a42fa4c29490d3f926fb9aec04ea76ca6d969acec7\
4de98159d98347c2a1dfe4fe02a307e18ce09921c6e1ac3b0efdc7541a70ea96\
3157ff1100ff4e30ab88f66e9c163e07d4bc266fcae85412f2cd0f389238515b\
3dcc05020e0ad9890bac880aa5dcc872";

fn are_parents<L: Ledger>(keyed: &Sha2Keyed<U16>, steps: &mut Steps<L>) -> bool {
    let adrs = ForsTree {
        tree_adrs_low: 0x0203,
        key_pair_adrs: 4,
        tree_height: 6,
        tree_index: 0,
    };
    let mut pairs = [0; 2 * ROW_LEN];
    count(&mut pairs);
    let mut parents = [0; ROW_LEN];
    Sha2_128f::h_each(keyed, &adrs, &NUMBERS, &pairs, &mut parents, steps);
    is_hex(&parents, H_ROW)
}

fn are_rows<L: Ledger>(blank: Blank) -> bool
    requires fresh { IsFresh blank L.name L.parts }
{
    let mut steps = Steps::<L>::new(blank);
    let keyed = Sha2_128f::keyed(&NBytes::exact(&SEED[..16]));
    are_steps(&keyed, &mut steps)
        && are_secrets(&keyed, &mut steps)
        && are_parents(&keyed, &mut steps)
}

#[test]
fn steps_secrets_and_parents_of_a_row(rt: HostRuntime) {
    shows(&rt, are_rows::<Brand>(Blank::new(1)));
}

// A whole group of four pairs and two of the next.
const WIDE_PAIRS: usize = 6;

// H of the bytes from 0 on, 64 a node, at height 6 of tree 0x0203 of layer 1: SHA-512.
const WIDE_H_ROW: &str = "\
ce0662c61bacfc920c141e0b2027ed1abe19d7931cfb56727f2227c193e6bc56\
0ca420fe6fe554fb029c4bf634687e17d80e8667437be65219d5a984aa64c742\
8e7df83e342876bee233173a2506dbb96e016b44e624e9e567ba8857c8a49066\
69723450bcbd13ed28fa31dd3ec6aa43b0e29214c3cc667af0dd284964bea207\
5f313abb415ac53f3cc302fb474e93a9144be6a03d2dd8833a094757ca6d9cff\
3eb5d8fc1d78befc083b717bcf83bf75ff8c1d5c7252376ade4c70dfec442aa8";

fn are_wide_parents<L: Ledger>(blank: Blank) -> bool
    requires fresh { IsFresh blank L.name L.parts }
{
    let mut steps = Steps::<L>::new(blank);
    let keyed = Sha2_256f::keyed(&NBytes::exact(&SEED));
    let adrs = HashTree {
        layer_adrs: 1,
        tree_adrs_low: 0x0203,
        tree_height: 6,
        tree_index: 0,
    };
    let mut pairs = [0; 64 * WIDE_PAIRS];
    count(&mut pairs);
    let mut parents = [0; 32 * WIDE_PAIRS];
    let numbers = &NUMBERS[..WIDE_PAIRS];
    Sha2_256f::h_each(&keyed, &adrs, numbers, &pairs, &mut parents, &mut steps);
    is_hex(&parents, WIDE_H_ROW)
}

#[test]
fn wide_parents_of_a_row(rt: HostRuntime) {
    shows(&rt, are_wide_parents::<Brand>(Blank::new(1)));
}
