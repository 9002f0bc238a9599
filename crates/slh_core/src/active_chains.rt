//! Chains that are taken to their ends together.
ghost use Rattle.std.specs.Prelude.{◌≡◌, ℕ, ◌+◌, ◌*◌, ◌≤◌, ◌<◌, List, ◌++◌, length, take};
ghost use Rattle.std.specs.Prelude.{slice_index};
ghost use Rattle.std.specs.Prelude.{slice_set};
ghost use Rattle.slh_core.specs.Bytes.{joined, part};
ghost use Rattle.slh_core.specs.ActiveChains.{AreActive, count_below};

use crate::equal_parts::put_part;
use crate::params::{MAX_CHAINS, MAX_ENDS_LEN, MAX_N};

/// The chains of a signature that are under way, in the order of their digits. Their values stand
/// in that order too, so that each step goes over a row without gaps.
#[derive(Drop)]
pub struct ActiveChains {
    pub numbers: [u32; MAX_CHAINS],
    pub count: usize,
    places: [usize; MAX_CHAINS],
}

impl ActiveChains {
    /// No chain is under way.
    pub fn new() -> ActiveChains
        ensures active { (digits : List ℕ) → AreActive digits 0 0 result }
        ensures none { result.count ≡ 0 }
    {
        ActiveChains {
            numbers: [0; MAX_CHAINS],
            count: 0,
            places: [0; MAX_CHAINS],
        }
    }

    // Takes in one chain, with its value.
    fn take_in(&mut self, c: usize, value: &[u8], n: usize, values: &mut [u8])
        requires small { n ≤ MAX_N }
        requires room { self.old.count < MAX_CHAINS }
        requires chain { c < MAX_CHAINS }
        requires len { length value.now ≡ n }
        requires values { length values.old ≡ MAX_ENDS_LEN }
        ensures count { self.new.count ≡ self.old.count + 1 }
        ensures numbers { self.new.numbers ≡ slice_set self.old.numbers self.old.count c }
        ensures places { self.new.places ≡ slice_set self.old.places c self.old.count }
        ensures values { take ((self.old.count + 1) * n) values.new
            ≡ take (self.old.count * n) values.old ++ value.now }
    {
        let count = self.count;
        self.numbers[count] = c as u32;
        self.places[c] = count;
        put_part(values, n, count, value);
        self.count = count + 1;
    }

    /// Takes in the chains whose digit is `q`, with their values of `n` bytes from a signature.
    #[tactic(auto, unfolding(crate::specs::Bytes::joined))]
    pub fn enter(&mut self, digits: &[u16], q: u16, sig: &[u8], n: usize, values: &mut [u8])
        requires small { n ≤ MAX_N }
        requires few { length digits.now ≤ MAX_CHAINS }
        requires whole { length sig.now ≡ length digits.now * n }
        requires active { AreActive digits.now q 0 self.old }
        requires values { length values.old ≡ MAX_ENDS_LEN }
        ensures active { AreActive digits.now (q + 1) 0 self.new }
        ensures counted { self.new.count ≡ count_below (q + 1) digits.now }
        ensures few { self.new.count ≤ length digits.now }
        ensures values { (value : ℕ → List ℕ)
            → ((c : ℕ) → slice_index digits.now c ≡ q → value c ≡ part n sig.now c)
            → let held : List ℕ → ℕ → List ℕ = λ numbers k. value (slice_index numbers k) in
            take (self.old.count * n) values.old
            ≡ joined (held self.old.numbers) self.old.count
            → take (self.new.count * n) values.new
            ≡ joined (held self.new.numbers) self.new.count }
    {
        for (c, digit) in digits.iter().enumerate() {
            if *digit == q {
                self.take_in(c, &sig[c * n..c * n + n], n, values);
            }
        }
    }

    /// Writes the values of all chains, in the order of their numbers.
    #[tactic(auto, unfolding(crate::specs::Bytes::joined))]
    pub fn write_to(&self, values: &[u8], n: usize, out: &mut [u8])
        requires small { n ≤ MAX_N }
        requires few { self.now.count ≤ MAX_CHAINS }
        requires values { length values.now ≡ MAX_ENDS_LEN }
        requires places { (c : ℕ) → c < self.now.count
            → slice_index self.now.places c < self.now.count }
        requires whole { length out.old ≡ self.now.count * n }
        ensures { let value : ℕ → List ℕ = λ c.
            part n values.now (slice_index self.now.places c) in
            out.new ≡ joined value self.now.count }
    {
        for c in 0..self.count {
            let place = self.places[c];
            put_part(out, n, c, &values[place * n..(place + 1) * n]);
        }
    }
}
