//! A count of hash calls that takes no bytes.
ghost use Rattle.std.specs.Prelude.{◌≡◌, ◌+◌};
ghost use Rattle.slh_core.specs.Steps.{IsFresh};

use std::marker::Model;
use std::sync::ledger::{Blank, Book, Ledger, Share};

/// How many steps were taken: a step is one value of F, H, T or PRF that is asked for. Lanes that
/// only fill up a group of values hashed side by side count none. Only `tick` changes the count, and
/// it has no bytes and no code when the program runs.
///
/// A caller that counts nothing calls the functions without a counter (`slh_trees::uncounted`,
/// those of keys in `slh_dsa`), or passes `Blank::new(1)` to a function that makes the count, and
/// `Brand` for its ledger.
#[derive(Drop)]
pub struct Steps<L: Ledger> {
    book: Book<L>,
    share: Share<L>,
}

impl<L: Ledger> Model for Steps<L> {
    ghost use Rattle.std.specs.Prelude.{ℕ, ◌<◌};

    ghost Value = { ℕ };

    ghost view = { λ s. s.book.total };

    ghost invariant = { λ s. 0 < s.share.parts };
}

impl<L: Ledger> Steps<L> {
    /// A count of no steps.
    pub fn new(blank: Blank) -> Self
        requires fresh { IsFresh blank L.name L.parts }
        ensures { result ≡ 0 }
    {
        let (book, share) = blank.open::<L>();
        Steps { book, share }
    }

    /// One step more.
    #[inline]
    pub fn tick(&mut self)
        ensures { self.new ≡ self.old + 1 }
    {
        self.book.add(&mut self.share, 1);
    }
}
