//! A generator of no random bytes, for tests and examples.
ghost use Rattle.std.specs.Prelude.{◌≡◌, ◌+◌, ◌%◌, ◌^◌, ℕ};
ghost use Rattle.rand_core.specs.Steps.{steps_u32, stream_of};

use rand_core::Rng;
use rand_core::utils::{self, NextWord};
use std::marker::Model;

/// A generator whose words of 32 bits count up from one, and begin again at 0 after the last. Fit to
/// make no key.
#[derive(Drop)]
pub struct Counter {
    next: u32,
}

impl Counter {
    /// The generator whose first word this is.
    pub fn new(first: u32) -> Self
        ensures { result ≡ first }
    {
        Counter { next: first }
    }
}

impl Model for Counter {
    ghost Value = { ℕ };

    ghost view = { λ c. c.next };
}

impl NextWord<u32> for Counter {
    ghost step = { λ s. (s, (s + 1) % 2 ^ 32) };

    fn next_word(&mut self) -> u32 {
        let word = self.next;
        self.next = word.wrapping_add(1);
        word
    }
}

impl Rng for Counter {
    ghost stream = { stream_of (steps_u32 (λ s. (s, (s + 1) % 2 ^ 32))) };

    fn next_u32(&mut self) -> u32 {
        self.next_word()
    }

    fn next_u64(&mut self) -> u64 {
        utils::next_u64_via_u32(self)
    }

    fn fill_bytes(&mut self, dst: &mut [u8]) {
        utils::fill_bytes_via_u32(self, dst)
    }
}
