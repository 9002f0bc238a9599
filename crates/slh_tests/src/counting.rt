//! The toy suite with a count in its state, which each hash call raises. It shows that no call is
//! hidden behind a step counter of its own: the wanted numbers are those of the standard's
//! algorithms, by hand. Each call that is handed a state is made here, or by one that is made here,
//! whose number counts it.
ghost use Rattle.std.specs.Prelude.{refl};
ghost use Rattle.slh_core.specs.Parameters.{scheme_of};
ghost use Rattle.slh_core.specs.Suite.{seeded};
ghost use Rattle.slh_core.specs.Steps.{IsFresh};
ghost use Rattle.slh_merkle.specs.ToySuite.{toy, toy_lengths, toy_bytes, toy_digest_length};

use crate::shown::shows;
use hybrid_array::sizes::{U1, U2, U3, U4, U5};
use slh_core::address::{Address, ForsTree, WotsHash};
use slh_core::nbytes::NBytes;
use slh_core::params::{ForsParams, HypertreeParams, WotsParams, XmssParams};
use slh_core::steps::Steps;
use slh_core::suite::HashSuite;
use slh_core::wots::wots_chain;
use slh_merkle::toy::Toy;
use slh_merkle::{fors_node, fors_sign_root, ht_sign, ht_verify, xmss_node, xmss_sign};
use std::cell::Cell;
use std::marker::Brand;
use std::sync::ledger::{Blank, Ledger};

struct Counting;

#[derive(Drop)]
struct CountingKeyed {
    seed: NBytes<U1>,
    calls: Cell<u32>,
}

fn count(keyed: &CountingKeyed) {
    keyed.calls.set(keyed.calls.get().wrapping_add(1));
}

impl HashSuite for Counting {
    type N = U1;

    type M = U3;

    type Keyed = CountingKeyed;

    ghost suite = { toy };

    ghost seed_of = { λ keyed. keyed.seed };

    ghost keyed_suite = { λ keyed. seeded toy 1 keyed.seed };

    fn keyed(pk_seed: &NBytes<U1>) -> CountingKeyed {
        CountingKeyed {
            seed: pk_seed.copy(),
            calls: Cell::new(0),
        }
    }

    fn f<A: Address, L: Ledger>(
        keyed: &CountingKeyed,
        adrs: &A,
        m: &NBytes<U1>,
        steps: &mut Steps<L>,
    ) -> NBytes<U1> {
        count(keyed);
        Toy::f(&keyed.seed, adrs, m, steps)
    }

    fn h<A: Address, L: Ledger>(
        keyed: &CountingKeyed,
        adrs: &A,
        m1: &NBytes<U1>,
        m2: &NBytes<U1>,
        steps: &mut Steps<L>,
    ) -> NBytes<U1> {
        count(keyed);
        Toy::h(&keyed.seed, adrs, m1, m2, steps)
    }

    fn t<A: Address, L: Ledger>(
        keyed: &CountingKeyed,
        adrs: &A,
        m: &[u8],
        steps: &mut Steps<L>,
    ) -> NBytes<U1> {
        count(keyed);
        Toy::t(&keyed.seed, adrs, m, steps)
    }

    fn prf_sk<A: Address, L: Ledger>(
        keyed: &CountingKeyed,
        sk_seed: &NBytes<U1>,
        adrs: &A,
        steps: &mut Steps<L>,
    ) -> NBytes<U1> {
        count(keyed);
        Toy::prf_sk(&keyed.seed, sk_seed, adrs, steps)
    }

    fn prf_msg(
        sk_prf: &NBytes<U1>,
        opt_rand: &NBytes<U1>,
        head: &[u8],
        ctx: &[u8],
        msg: &[u8],
    ) -> NBytes<U1> {
        Toy::prf_msg(sk_prf, opt_rand, head, ctx, msg)
    }

    fn h_msg(
        rand: &NBytes<U1>,
        pk_seed: &NBytes<U1>,
        pk_root: &NBytes<U1>,
        head: &[u8],
        ctx: &[u8],
        msg: &[u8],
        out: &mut [u8],
    ) {
        Toy::h_msg(rand, pk_seed, pk_root, head, ctx, msg, out);
    }

    ghost keyed_suite_is = { λ _. refl };

    ghost lengths = { λ _. toy_lengths };

    ghost digest_length = { λ _. toy_digest_length };

    ghost value_bytes = { toy_bytes };
}

impl WotsParams for Counting {
    ghost use Rattle.std.proofs.Common.{rules};

    type WotsMsgLen = U2;

    type WotsSigLen = U5;

    ghost valid_wots = { Prim.search rules };
}

impl XmssParams for Counting {
    ghost use Rattle.std.proofs.Common.{lit≤};

    type HPrime = U2;

    ghost valid_xmss = { record { height_low = lit≤ tt; height_high = lit≤ tt } };
}

impl HypertreeParams for Counting {
    ghost use Rattle.std.proofs.Common.{rules};

    type D = U2;

    type H = U4;

    ghost valid_hypertree = { Prim.search rules };
}

impl ForsParams for Counting {
    ghost use Rattle.std.proofs.Common.{rules};

    type K = U2;

    type A = U2;

    type MD = U1;

    ghost scheme = { scheme_of toy 1 2 2 2 2 };

    ghost scheme_is = { refl };

    ghost valid_fors = { Prim.search rules };
}

fn byte(value: u8) -> NBytes<U1> {
    NBytes::exact(&[value])
}

fn keyed() -> CountingKeyed {
    Counting::keyed(&byte(3))
}

// Tree 2 and leaf 3 of the lowest layer.
fn lowest() -> WotsHash {
    WotsHash {
        layer_adrs: 0,
        tree_adrs_low: 2,
        key_pair_adrs: 3,
        chain_adrs: 0,
        hash_adrs: 0,
    }
}

// A chain of fifteen steps.
fn chain_calls<L: Ledger>(steps: &mut Steps<L>) -> u32 {
    let keyed = keyed();
    wots_chain::<Counting, L>(&byte(23), 0, 15, &keyed, &lowest(), steps);
    keyed.calls.get()
}

// Four key pairs of 81 calls, and three nodes above them.
fn tree_calls<L: Ledger>(steps: &mut Steps<L>) -> u32 {
    let keyed = keyed();
    xmss_node::<Counting, L>(&byte(5), 0, 2, &keyed, &lowest(), steps);
    keyed.calls.get()
}

// A signature of the byte 2c under leaf 3: 20 calls of its chains, a key pair, and the node above
// two.
fn tree_signature_calls<L: Ledger>(steps: &mut Steps<L>) -> u32 {
    let keyed = keyed();
    let mut sig = [0; 7];
    xmss_sign::<Counting, L>(&byte(0x2c), &byte(5), &keyed, 3, &lowest(), &mut sig, steps);
    keyed.calls.get()
}

// A signature of the byte 2c under tree 2 and leaf 3: two trees, each whole.
fn layers_signature_calls<L: Ledger>(sig: &mut [u8; 14], steps: &mut Steps<L>) -> u32 {
    let keyed = keyed();
    ht_sign::<Counting, L>(&byte(0x2c), &byte(5), &keyed, 2, 3, sig, steps);
    keyed.calls.get()
}

// A check of it: 61 calls of the lower chains and 46 of the upper ones, and two nodes each.
fn layers_check_calls<L: Ledger>(sig: &[u8; 14], steps: &mut Steps<L>) -> u32 {
    let keyed = keyed();
    ht_verify::<Counting, L>(&byte(0x2c), sig, &keyed, 2, 3, &byte(225), steps);
    keyed.calls.get()
}

// A tree of the forest: four secrets, four leaves, and three nodes above them.
fn forest_tree_calls<L: Ledger>(steps: &mut Steps<L>) -> u32 {
    let keyed = keyed();
    fors_node::<Counting, L>(&byte(5), 1, 2, &keyed, &ForsTree::new(2, 3), steps);
    keyed.calls.get()
}

// A signature of the byte 9d with the key: two whole trees and the hash of their roots.
fn forest_key_calls<L: Ledger>(steps: &mut Steps<L>) -> u32 {
    let (keyed, adrs) = (keyed(), ForsTree::new(2, 3));
    let mut sig = [0; 6];
    fors_sign_root::<Counting, L>(&[0x9d], &byte(5), &keyed, &adrs, &mut sig, steps);
    keyed.calls.get()
}

fn are_calls<L: Ledger>(blank: Blank) -> bool
    requires fresh { IsFresh blank L.name L.parts }
{
    let mut steps = Steps::<L>::new(blank);
    let mut sig = [0; 14];
    chain_calls(&mut steps) == 15
        && tree_calls(&mut steps) == 327
        && tree_signature_calls(&mut steps) == 264
        && layers_signature_calls(&mut sig, &mut steps) == 654
        && layers_check_calls(&sig, &mut steps) == 111
        && forest_tree_calls(&mut steps) == 11
        && forest_key_calls(&mut steps) == 23
}

#[test]
fn calls_are_those_of_the_algorithms(rt: HostRuntime) {
    shows(&rt, are_calls::<Brand>(Blank::new(1)));
}
