//! The checks of sizes that come before anything is hashed.
ghost use Rattle.std.specs.Prelude.{◌≡◌, length, OnOk};
ghost use Rattle.std.specs.Option.{option_copied, ForSome};
ghost use Rattle.slh_trees.specs.Checking.{signature_size};
ghost use Rattle.slh_core.specs.Refusals.{RefusedExactly, randomizer_refusal};
ghost use Rattle.slh_dsa.specs.Calls.{signature_refusal};

use crate::error::Error;
use crate::parameter_set::SetSizes;
use slh_core::array::{Array, ArraySize};
use slh_core::params::chain_sizes;
use std::alloc::{AllocError, Global};

/// `Length` for another number of bytes than a signature has.
pub(crate) fn check_signature<P: SetSizes>(len: usize) -> Result<(), Error>
    ensures refusal { RefusedExactly result (signature_refusal P.scheme len) }
    ensures fits { OnOk result (len ≡ signature_size P.scheme) }
{
    if len != P::SIG_LEN {
        return Err(Error::Length);
    }
    Ok(())
}

/// The error for a randomizer that is given and doesn't have n bytes. Each call that signs has an
/// error of its own for it.
pub fn check_opt_rand<P: SetSizes, E: Drop>(opt_rand: Option<&[u8]>, error: E) -> Result<(), E>
    ensures refusal { let opt_rand = option_copied opt_rand.entry in
        RefusedExactly result (randomizer_refusal error P.N.USIZE opt_rand) }
    ensures fits { OnOk result
        (ForSome (option_copied opt_rand.entry) (λ bytes. length bytes ≡ P.N.USIZE)) }
{
    if let Some(bytes) = opt_rand
        && bytes.len() != P::N::USIZE
    {
        return Err(error);
    }
    Ok(())
}

/// So many zeros in new memory, to be written over.
pub(crate) fn zeros<U: ArraySize>(alloc: Global) -> Result<Array<u8, U>, AllocError> {
    Array::from_fn(alloc, |_| 0)
}
