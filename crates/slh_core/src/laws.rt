//! Laws of digits and chains, each the contract of a function that does nothing.
ghost use Rattle.std.specs.Prelude.{◌≡◌, ◌≢◌, ℕ, ◌+◌, ◌<◌, ◌≤◌, List, length, slice_index};
ghost use Rattle.slh_core.specs.Digits.{IsBelowSomewhere};
ghost use Rattle.slh_core.specs.Wots.{chain, wots_pk, wots_sig, wots_pk_from_sig};
ghost use Rattle.slh_core.specs.Suite.{Seeded, seeded};

use crate::params::{MAX_N, WotsSizes};

/// The digits of two different messages of n bytes are incomparable: some digit of each is below
/// the other's. So no signature of the one gives all chain values for the other.
pub fn digits_are_incomparable()
    ensures { (n : ℕ) (x y : List ℕ)
        → n ≤ MAX_N
        → length x ≡ n
        → length y ≡ n
        → ((k : ℕ) → slice_index x k < 256)
        → ((k : ℕ) → slice_index y k < 256)
        → x ≢ y
        → IsBelowSomewhere n x y × IsBelowSomewhere n y x }
{}

/// A chain of `q` steps and then of `r` more is the chain of `q + r` steps.
pub fn chain_continues()
    ensures { (K : Seeded) (x : List ℕ) (j t l c i q r : ℕ)
        → chain K j t l c x i (q + r) ≡ chain K j t l c (chain K j t l c x i q) (i + q) r }
{}

/// The signature of a message leads to the key pair's own public key.
pub fn signature_leads_to_leaf<P: WotsSizes>()
    ensures { (s sk m : List ℕ) (j t l : ℕ)
        → let K = seeded P.suite P.N.USIZE s in
        wots_pk_from_sig K j t l (wots_sig K sk j t l m) m ≡ wots_pk K sk j t l }
{}
