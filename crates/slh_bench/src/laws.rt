//! What benches report, as a contract.
ghost use Rattle.std.specs.Prelude.{◌≡◌, ℕ, List};
ghost use Rattle.slh_bench.specs.Bench.{accepted_count};
ghost use Rattle.slh_sets.specs.Sets.{scheme_for};

use slh_dsa::SetSizes;
use slh_dsa::laws::signed_is_accepted;
use slh_sets::{OnSet, Set, SetSuite};

fn accepts_all_in<P: SetSizes>()
    ensures { (prk : List ℕ) (count : ℕ) → accepted_count P.scheme prk count ≡ count }
{
    signed_is_accepted::<P>();
}

#[derive(Drop)]
struct AcceptsAll;

impl OnSet for AcceptsAll {
    type Out = ();

    ghost gives = { λ _ Z _ _. (prk : List ℕ) (count : ℕ) → accepted_count Z prk count ≡ count };

    fn on<P: SetSuite>(self) {
        accepts_all_in::<P>();
    }
}

/// Each signature of a bench is accepted: the two numbers of the last line are equal, for each set
/// and key.
pub fn bench_accepts_all(set: Set)
    ensures { (prk : List ℕ) (count : ℕ) → accepted_count (scheme_for set) prk count ≡ count }
{
    set.run(AcceptsAll);
}
