//! The calls of the scheme for callers that count no hash calls: those of the same names in
//! [`crate::root`] and [`crate::check`], without their counter, by the same clauses.
ghost use Rattle.std.specs.Prelude.{◌≡◌, ◌+◌, ◌≤◌, ◌++◌, length};
ghost use Rattle.slh_core.specs.Steps.{IsFresh};
ghost use Rattle.slh_trees.specs.Checking.{checked_root};
ghost use Rattle.slh_trees.specs.Keys.{top_root as spec_top_root};

use crate::sig_view::SigView;
use crate::{check, root};
use slh_core::nbytes::NBytes;
use slh_core::params::{ForsSizes, MAX_MESSAGE_LEN};
use slh_core::steps::Steps;
use std::marker::Brand;
use std::sync::ledger::{Blank, Ledger};

// A function whose name ends in `_on` is the one before it over any ledger, on a counter that it
// makes of a blank. A proof picks the blank's own ledger at the call.

/// The root of the top tree of a key's seeds (FIPS 205, algorithm 18, line 3).
pub fn top_root<P: ForsSizes>(sk_seed: &NBytes<P::N>, pk_seed: &NBytes<P::N>) -> NBytes<P::N>
    ensures value { result ≡ spec_top_root P.scheme pk_seed.now sk_seed.now }
{
    top_root_on::<P, Brand>(sk_seed, pk_seed, Blank::new(1))
}

fn top_root_on<P: ForsSizes, L: Ledger>(
    sk_seed: &NBytes<P::N>,
    pk_seed: &NBytes<P::N>,
    blank: Blank,
) -> NBytes<P::N>
    requires fresh { IsFresh blank L.name L.parts }
    ensures value { result ≡ spec_top_root P.scheme pk_seed.now sk_seed.now }
{
    root::top_root::<P, L>(sk_seed, pk_seed, &mut Steps::new(blank))
}

/// The root that the bytes of a signature lead to, for the message that the three slices joined are
/// (FIPS 205, algorithm 20). The signature is valid where it is the key's root.
pub fn check_root<P: ForsSizes>(
    pk_seed: &NBytes<P::N>,
    pk_root: &NBytes<P::N>,
    head: &[u8],
    ctx: &[u8],
    msg: &[u8],
    sig: &SigView<'_, P>,
) -> NBytes<P::N>
    requires { length head.now + length ctx.now + length msg.now ≤ MAX_MESSAGE_LEN }
    ensures value { let message = head.now ++ ctx.now ++ msg.now in
        result ≡ checked_root P.scheme pk_seed.now pk_root.now message sig.now }
{
    check_root_on::<P, Brand>(pk_seed, pk_root, head, ctx, msg, sig, Blank::new(1))
}

fn check_root_on<P: ForsSizes, L: Ledger>(
    pk_seed: &NBytes<P::N>,
    pk_root: &NBytes<P::N>,
    head: &[u8],
    ctx: &[u8],
    msg: &[u8],
    sig: &SigView<'_, P>,
    blank: Blank,
) -> NBytes<P::N>
    requires message { length head.now + length ctx.now + length msg.now ≤ MAX_MESSAGE_LEN }
    requires fresh { IsFresh blank L.name L.parts }
    ensures value { let message = head.now ++ ctx.now ++ msg.now in
        result ≡ checked_root P.scheme pk_seed.now pk_root.now message sig.now }
{
    let steps = &mut Steps::new(blank);
    check::check_root::<P, L>(pk_seed, pk_root, head, ctx, msg, sig, steps)
}
