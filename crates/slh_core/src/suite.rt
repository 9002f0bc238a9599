//! What a hash suite is.
ghost use Rattle.std.specs.Prelude.{◌≡◌, ℕ, ◌+◌, ◌*◌, ◌^◌, ◌≤◌, ◌<◌, List, ◌++◌, length, sum};
ghost use Rattle.std.specs.Prelude.{slice_index, EachIndex};
ghost use Rattle.slh_core.specs.Address.{address_bytes, fors_prf_type, fors_tree_type};
ghost use Rattle.slh_core.specs.Bytes.{joined, part};
ghost use Rattle.slh_core.specs.Costs.{fors_leaf_cost, wots_pk_cost};
ghost use Rattle.slh_core.specs.Parameters.{chain_count};
ghost use Rattle.slh_core.specs.Suite.{Suite, HasLength, HasBytes, HasDigestLength, Seeded, seeded};
ghost use Rattle.slh_core.specs.Wots.{chain_value, value_or, wots_pk, checked_ends};
ghost use Rattle.slh_core.specs.declared.params.TheConstants.{MAX_N};

use crate::active_chains::ActiveChains;
use crate::address::{Address, ForsTree, RowAddress, WotsHash};
use crate::chain_rows::{chain_numbers, copy_reached, first_numbers};
use crate::digits::no_digits;
use crate::equal_parts::{part_of, put_part};
use crate::nbytes::NBytes;
use crate::params::{MAX_DIGEST_LEN, MAX_ENDS_LEN, MAX_MESSAGE_LEN, MAX_N};
use crate::steps::Steps;
use hybrid_array::ArraySize;
use std::sync::ledger::Ledger;

/// The hash functions of a parameter set (FIPS 205, section 4.1). Those that take an address also
/// take a state that stands for a public seed, and count one step each. A message comes as three
/// slices, which are hashed one after the other.
pub trait HashSuite {
    ghost use Rattle.slh_core.specs.declared.params.TheConstants.{MAX_DIGEST_LEN};

    /// How many bytes a value has.
    type N: ArraySize;

    /// How many bytes the digest of a message has.
    type M: ArraySize;

    /// A state for one public seed.
    type Keyed: Drop;

    /// What the functions compute.
    ghost suite: { Suite };

    /// The public seed that a state stands for.
    ghost seed_of: { Self.Keyed → List ℕ };

    /// The functions with that seed.
    ghost keyed_suite: { Self.Keyed → Seeded };

    /// The state for a public seed.
    fn keyed(pk_seed: &NBytes<Self::N>) -> Self::Keyed
        ensures { keyed_suite result ≡ seeded suite Self.N.USIZE pk_seed.now };

    /// F: the hash of one value.
    fn f<A: Address, L: Ledger>(
        keyed: &Self::Keyed,
        adrs: &A,
        m: &NBytes<Self::N>,
        steps: &mut Steps<L>,
    ) -> NBytes<Self::N>
        ensures value { let K = keyed_suite keyed.now in
            result ≡ K.suite.f K.seed (A.bytes adrs.now) m.now }
        ensures step { steps.new ≡ steps.old + 1 };

    /// H: the hash of a left and a right value.
    fn h<A: Address, L: Ledger>(
        keyed: &Self::Keyed,
        adrs: &A,
        m1: &NBytes<Self::N>,
        m2: &NBytes<Self::N>,
        steps: &mut Steps<L>,
    ) -> NBytes<Self::N>
        ensures value { let K = keyed_suite keyed.now in
            result ≡ K.suite.h K.seed (A.bytes adrs.now) m1.now m2.now }
        ensures step { steps.new ≡ steps.old + 1 };

    /// T: the hash of many values, joined. There are at most as many as a key pair has chains.
    fn t<A: Address, L: Ledger>(
        keyed: &Self::Keyed,
        adrs: &A,
        m: &[u8],
        steps: &mut Steps<L>,
    ) -> NBytes<Self::N>
        requires { length m.now ≤ MAX_ENDS_LEN }
        ensures value { let K = keyed_suite keyed.now in
            result ≡ K.suite.t K.seed (A.bytes adrs.now) m.now }
        ensures step { steps.new ≡ steps.old + 1 };

    /// PRF: a secret value, made from the secret seed.
    fn prf_sk<A: Address, L: Ledger>(
        keyed: &Self::Keyed,
        sk_seed: &NBytes<Self::N>,
        adrs: &A,
        steps: &mut Steps<L>,
    ) -> NBytes<Self::N>
        ensures value { let K = keyed_suite keyed.now in
            result ≡ K.suite.prf K.seed (A.bytes adrs.now) sk_seed.now }
        ensures step { steps.new ≡ steps.old + 1 };

    /// F of values that stand one after the other, in their places. Their addresses are those of a
    /// row with the numbers. A suite may hash several side by side.
    #[tactic(auto, unfolding(crate::specs::Bytes::joined))]
    fn f_each<A: RowAddress + Drop, L: Ledger>(
        keyed: &Self::Keyed,
        adrs: &A,
        numbers: &[u32],
        values: &mut [u8],
        steps: &mut Steps<L>,
    )
        requires small { Self.N.USIZE ≤ MAX_N }
        requires room { length values.old ≡ length numbers.now * Self.N.USIZE }
        ensures value { let K = keyed_suite keyed.now in
            let at : ℕ → List ℕ = λ k. A.numbered adrs.now (slice_index numbers.now k) in
            let count = length numbers.now in
            values.new
            ≡ joined (λ k. K.suite.f K.seed (at k) (part Self.N.USIZE values.old k)) count }
        ensures step { steps.new ≡ steps.old + length numbers.now }
    {
        let n = Self::N::USIZE;
        for (k, number) in numbers.iter().enumerate() {
            let value = part_of::<Self::N>(values, k);
            let next = Self::f(keyed, &adrs.at_number(*number), &value, steps);
            put_part(values, n, k, next.as_slice());
        }
    }

    /// H of pairs of values that stand one after the other, each a left and a right one. Their
    /// addresses are those of a row with the numbers. A suite may hash several side by side.
    #[tactic(auto, unfolding(crate::specs::Bytes::joined))]
    fn h_each<A: RowAddress + Drop, L: Ledger>(
        keyed: &Self::Keyed,
        adrs: &A,
        numbers: &[u32],
        pairs: &[u8],
        out: &mut [u8],
        steps: &mut Steps<L>,
    )
        requires small { Self.N.USIZE ≤ MAX_N }
        requires pairs { length pairs.now ≡ length numbers.now * (2 * Self.N.USIZE) }
        requires room { length out.old ≡ length numbers.now * Self.N.USIZE }
        ensures value { let K = keyed_suite keyed.now in
            let at : ℕ → List ℕ = λ k. A.numbered adrs.now (slice_index numbers.now k) in
            let child : ℕ → List ℕ = λ k. part Self.N.USIZE pairs.now k in
            let count = length numbers.now in
            let parent : ℕ → List ℕ = λ k.
            K.suite.h K.seed (at k) (child (2 * k)) (child (2 * k + 1)) in
            out.new ≡ joined parent count }
        ensures step { steps.new ≡ steps.old + length numbers.now }
    {
        let n = Self::N::USIZE;
        for (k, number) in numbers.iter().enumerate() {
            let left = part_of::<Self::N>(pairs, 2 * k);
            let right = part_of::<Self::N>(pairs, 2 * k + 1);
            let parent = Self::h(keyed, &adrs.at_number(*number), &left, &right, steps);
            put_part(out, n, k, parent.as_slice());
        }
    }

    /// PRF at the addresses of a row with the numbers: the secret values, one after the other. A
    /// suite may make several side by side.
    #[tactic(auto, unfolding(crate::specs::Bytes::joined))]
    fn prf_each<A: RowAddress + Drop, L: Ledger>(
        keyed: &Self::Keyed,
        sk_seed: &NBytes<Self::N>,
        adrs: &A,
        numbers: &[u32],
        out: &mut [u8],
        steps: &mut Steps<L>,
    )
        requires { length out.old ≡ length numbers.now * Self.N.USIZE }
        ensures value { let K = keyed_suite keyed.now in
            let at : ℕ → List ℕ = λ k. A.numbered adrs.now (slice_index numbers.now k) in
            let secret : ℕ → List ℕ = λ k. K.suite.prf K.seed (at k) sk_seed.now in
            out.new ≡ joined secret (length numbers.now) }
        ensures step { steps.new ≡ steps.old + length numbers.now }
    {
        let n = Self::N::USIZE;
        for (k, number) in numbers.iter().enumerate() {
            let secret = Self::prf_sk(keyed, sk_seed, &adrs.at_number(*number), steps);
            put_part(out, n, k, secret.as_slice());
        }
    }

    /// Takes the chains of a key pair from their secrets to their ends, all together. Each chain
    /// leaves its value at its digit in `sig`, but none at `NO_DIGIT`, where the bytes stay.
    #[tactic(auto, unfolding(crate::specs::Bytes::joined))]
    fn run_chains<L: Ledger>(
        keyed: &Self::Keyed,
        sk_seed: &NBytes<Self::N>,
        adrs: &WotsHash,
        digits: &[u16],
        sig: &mut [u8],
        ends: &mut [u8],
        steps: &mut Steps<L>,
    )
        requires small { Self.N.USIZE ≤ MAX_N }
        requires count { length digits.now ≡ chain_count Self.N.USIZE }
        requires whole { length sig.old ≡ length digits.now * Self.N.USIZE }
        requires room { length ends.old ≡ length digits.now * Self.N.USIZE }
        ensures values { let K = keyed_suite keyed.now in
            let sk = sk_seed.now in
            let a = adrs.now in
            let j = a.layer_adrs in
            let t = a.tree_adrs_low in
            let value = value_or K sk j t a.key_pair_adrs sig.old digits.now in
            sig.new ≡ joined value (length digits.now) }
        ensures ends { let K = keyed_suite keyed.now in
            let sk = sk_seed.now in
            let a = adrs.now in
            let j = a.layer_adrs in
            let t = a.tree_adrs_low in
            let end : ℕ → List ℕ = λ c. chain_value K sk j t a.key_pair_adrs c 15 in
            ends.new ≡ joined end (length digits.now) }
        ensures cost { steps.new ≡ steps.old + 16 * length digits.now }
    {
        let n = Self::N::USIZE;
        let all = chain_numbers();
        let numbers = first_numbers(&all, digits.len());
        Self::prf_each(keyed, sk_seed, &adrs.prf_adrs(), numbers, ends, steps);
        copy_reached(digits, 0, n, ends, sig);
        for q in 0..15u16 {
            let at = adrs.at_step(0, u32::from(q));
            Self::f_each(keyed, &at, numbers, ends, steps);
            copy_reached(digits, q + 1, n, ends, sig);
        }
    }

    /// The public keys of eight key pairs of a tree, one after the other from that of an address on
    /// (FIPS 205, algorithm 6). Number `signer` of them, from 0, leaves the values of its chains at
    /// digits in `sig`, but none at `NO_DIGIT`, where the bytes stay. A suite may make the eight
    /// side by side.
    fn pairs_eight<L: Ledger>(
        keyed: &Self::Keyed,
        sk_seed: &NBytes<Self::N>,
        adrs: &WotsHash,
        signer: usize,
        digits: &[u16],
        sig: &mut [u8],
        out: &mut [u8],
        steps: &mut Steps<L>,
    )
        requires small { Self.N.USIZE ≤ MAX_N }
        requires signer { signer < 8 }
        requires inside { adrs.now.key_pair_adrs + 8 ≤ 2 ^ 32 }
        requires count { length digits.now ≡ chain_count Self.N.USIZE }
        requires whole { length sig.old ≡ length digits.now * Self.N.USIZE }
        requires room { length out.old ≡ 8 * Self.N.USIZE }
        ensures keys { let K = keyed_suite keyed.now in
            let a = adrs.now in
            let key = wots_pk K sk_seed.now a.layer_adrs a.tree_adrs_low in
            out.new ≡ joined (λ k. key (a.key_pair_adrs + k)) 8 }
        ensures values { let K = keyed_suite keyed.now in
            let sk = sk_seed.now in
            let a = adrs.now in
            let j = a.layer_adrs in
            let t = a.tree_adrs_low in
            let value = value_or K sk j t (a.key_pair_adrs + signer) sig.old digits.now in
            sig.new ≡ joined value (length digits.now) }
        ensures cost { steps.new ≡ steps.old + 8 * wots_pk_cost (length digits.now) }
    {
        let n = Self::N::USIZE;
        let none = no_digits(digits.len());
        let mut store = [0u8; MAX_ENDS_LEN];
        let ends = &mut store[..digits.len() * n];
        for k in 0..8 {
            let at = adrs.at_key_pair(adrs.key_pair_adrs + k as u32);
            let asked = if k == signer { digits } else { none };
            Self::run_chains(keyed, sk_seed, &at, asked, sig, ends, steps);
            let key = Self::t(keyed, &at.pk_adrs(), ends, steps);
            put_part(out, n, k, key.as_slice());
        }
    }

    /// Takes the chain values of a signature, which belong to digits, to the ends of their chains.
    /// A suite may take several on side by side.
    #[tactic(auto, unfolding(crate::specs::Wots::checked_ends))]
    fn finish_each<L: Ledger>(
        keyed: &Self::Keyed,
        digits: &[u16],
        sig: &[u8],
        adrs: &WotsHash,
        out: &mut [u8],
        steps: &mut Steps<L>,
    )
        requires small { Self.N.USIZE ≤ MAX_N }
        requires count { length digits.now ≡ chain_count Self.N.USIZE }
        requires below { EachIndex digits.now (λ k. slice_index digits.now k < 16) }
        requires whole { length sig.now ≡ length digits.now * Self.N.USIZE }
        requires room { length out.old ≡ length digits.now * Self.N.USIZE }
        ensures value { let K = keyed_suite keyed.now in
            let a = adrs.now in
            let j = a.layer_adrs in
            let t = a.tree_adrs_low in
            out.new ≡ checked_ends K j t a.key_pair_adrs sig.now digits.now }
        ensures cost { steps.new + sum digits.now ≡ steps.old + 15 * length digits.now }
    {
        let n = Self::N::USIZE;
        let mut active = ActiveChains::new();
        let mut values = [0u8; MAX_ENDS_LEN];
        for q in 0..15u16 {
            active.enter(digits, q, sig, n, &mut values);
            let count = active.count;
            let at = adrs.at_step(0, u32::from(q));
            let row = &mut values[..count * n];
            Self::f_each(keyed, &at, &active.numbers[..count], row, steps);
        }
        active.enter(digits, 15, sig, n, &mut values);
        active.write_to(&values, n, out);
    }

    /// Eight leaves of a forest, from the index `first` on: F of their secrets. A suite may make
    /// them side by side.
    #[tactic(auto, unfolding(crate::specs::Bytes::joined))]
    fn leaves_eight<L: Ledger>(
        keyed: &Self::Keyed,
        sk_seed: &NBytes<Self::N>,
        adrs: &ForsTree,
        first: u32,
        out: &mut [u8],
        steps: &mut Steps<L>,
    )
        requires small { Self.N.USIZE ≤ MAX_N }
        requires inside { first + 8 ≤ 2 ^ 32 }
        requires room { length out.old ≡ 8 * Self.N.USIZE }
        ensures value { let K = keyed_suite keyed.now in
            let t = adrs.now.tree_adrs_low in
            let l = adrs.now.key_pair_adrs in
            let secret : ℕ → List ℕ = λ i.
            K.suite.prf K.seed (address_bytes 0 t fors_prf_type l 0 i) sk_seed.now in
            let leaf : ℕ → List ℕ = λ i.
            K.suite.f K.seed (address_bytes 0 t fors_tree_type l 0 i) (secret i) in
            out.new ≡ joined (λ k. leaf (first + k)) 8 }
        ensures cost { steps.new ≡ steps.old + 8 * fors_leaf_cost }
    {
        let n = Self::N::USIZE;
        let forest = ForsTree::new(adrs.tree_adrs_low, adrs.key_pair_adrs);
        let secrets = forest.prf_adrs();
        for k in 0..8 {
            let i = first + k as u32;
            let secret = Self::prf_sk(keyed, sk_seed, &secrets.at_number(i), steps);
            let leaf = Self::f(keyed, &forest.at_number(i), &secret, steps);
            put_part(out, n, k, leaf.as_slice());
        }
    }

    /// PRF_msg: the randomizer of a signature.
    fn prf_msg(
        sk_prf: &NBytes<Self::N>,
        opt_rand: &NBytes<Self::N>,
        head: &[u8],
        ctx: &[u8],
        msg: &[u8],
    ) -> NBytes<Self::N>
        requires { length head.now + length ctx.now + length msg.now ≤ MAX_MESSAGE_LEN }
        ensures { let message = head.now ++ ctx.now ++ msg.now in
            result ≡ suite.prf_msg sk_prf.now opt_rand.now message };

    /// H_msg: the digest of a message, written into `out`.
    fn h_msg(
        rand: &NBytes<Self::N>,
        pk_seed: &NBytes<Self::N>,
        pk_root: &NBytes<Self::N>,
        head: &[u8],
        ctx: &[u8],
        msg: &[u8],
        out: &mut [u8],
    )
        requires message { length head.now + length ctx.now + length msg.now ≤ MAX_MESSAGE_LEN }
        requires room { length out.old ≡ Self.M.USIZE }
        requires small { Self.M.USIZE ≤ MAX_DIGEST_LEN }
        ensures { let message = head.now ++ ctx.now ++ msg.now in
            out.new ≡ suite.h_msg rand.now pk_seed.now pk_root.now message };

    /// What the functions with the seed of a state are.
    ghost keyed_suite_is: { (k : Self.Keyed)
        → keyed_suite k ≡ seeded suite Self.N.USIZE (seed_of k) };

    /// Each function gives as many bytes as its type says.
    ghost lengths: { Self.N.USIZE ≤ MAX_N → HasLength suite Self.N.USIZE };

    /// So does the digest of a message.
    ghost digest_length: { Self.M.USIZE ≤ MAX_DIGEST_LEN → HasDigestLength suite Self.M.USIZE };

    /// What H and T give is bytes.
    ghost value_bytes: { HasBytes suite };
}
