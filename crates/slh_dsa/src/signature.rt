//! Signatures (FIPS 205, section 9.2).
ghost use Rattle.std.specs.Prelude.{◌≡◌, length, IfOk};
ghost use Rattle.slh_dsa.specs.Calls.{signature_refusal};
ghost use Rattle.slh_trees.specs.Checking.{signature_size};
ghost use Rattle.slh_core.specs.Refusals.{RefusedOrNoMemory};
ghost use Rattle.slh_dsa.specs.declared.error.Error.TheVariants.{Memory};

use crate::error::Error;
use crate::parameter_set::ParameterSet;
use slh_core::array::{Array, ArraySize, SliceError};
use slh_trees::SigView;
use std::alloc::{AllocError, Global};
use std::marker::Model;

/// A signature: the randomizer, the forest's part and the layers' parts. Clauses see it as its
/// bytes.
#[derive(Drop)]
pub struct Signature<P: ParameterSet> {
    bytes: Array<u8, P::SigLen>,
}

impl<P: ParameterSet> Model for Signature<P> {
    ghost use Rattle.std.specs.Prelude.{◌≡◌, ℕ, List, length};
    ghost use Rattle.slh_trees.specs.Checking.{signature_size};

    ghost Value = { List ℕ };

    ghost view = { λ s. s.bytes };

    ghost invariant = { λ s. length s.bytes ≡ signature_size P.scheme };
}

impl<P: ParameterSet> Signature<P> {
    /// The signature of a slice's bytes. `Length`: they aren't as many as a signature has; `Memory`.
    pub fn try_from(alloc: Global, bytes: &[u8]) -> Result<Self, Error>
        ensures refusal { RefusedOrNoMemory Memory result
            (signature_refusal P.scheme (length bytes.now)) }
        ensures value { IfOk result (λ sig. sig ≡ bytes.now) }
    {
        match Array::clone_from_slice(alloc, bytes) {
            Ok(bytes) => Ok(Self::from_array(bytes)),
            Err(SliceError::Length(_)) => Err(Error::Length),
            Err(SliceError::Memory(_)) => Err(Error::Memory),
        }
    }

    /// The signature of these bytes, without copying.
    pub fn from_array(bytes: Array<u8, P::SigLen>) -> Self
        ensures { result ≡ bytes }
    {
        Signature { bytes }
    }

    /// The bytes, without copying.
    pub fn into_array(self) -> Array<u8, P::SigLen>
        ensures { result ≡ self }
    {
        self.bytes
    }

    /// The bytes.
    pub fn as_slice(&self) -> &[u8]
        ensures value { result.now ≡ self.now }
        ensures len { length result.now ≡ signature_size P.scheme }
    {
        self.bytes.as_slice()
    }

    /// The bytes by their places.
    pub fn view(&self) -> SigView<'_, P>
        ensures { result ≡ self.now }
    {
        SigView::exact(self.as_slice())
    }

    /// A second signature of the same bytes.
    pub fn clone(&self, alloc: Global) -> Result<Self, AllocError>
        ensures { IfOk result (λ copy. copy ≡ self.now) }
    {
        Ok(Self::from_array(self.to_bytes(alloc)?))
    }

    /// The bytes again, as an array.
    pub fn to_bytes(&self, alloc: Global) -> Result<Array<u8, P::SigLen>, AllocError>
        ensures { IfOk result (λ bytes. bytes ≡ self.now) }
    {
        self.bytes.clone(alloc)
    }

    /// The bytes again, as a vector.
    pub fn to_vec(&self, alloc: Global) -> Result<Vec<u8>, AllocError>
        ensures { IfOk result (λ bytes. bytes.items ≡ self.now) }
    {
        self.bytes.to_vec(alloc)
    }

    /// How many bytes there are (FIPS 205, table 2).
    pub fn encoded_len(&self) -> usize
        ensures { result ≡ signature_size P.scheme }
    {
        P::SigLen::USIZE
    }
}

impl<P: ParameterSet> PartialEq for Signature<P> {
    ghost use Rattle.std.specs.Prelude.{◌==◌};
    ghost use Rattle.std.specs.Cmp.Rules.{comparing};
    ghost use Rattle.std.specs.Cmp.Lexicographic.{pointwise};
    ghost use Rattle.std.proofs.Common.{rules};

    ghost eq = { pointwise ◌==◌ };

    ghost laws = { Prim.search (comparing, rules) };

    fn eq(&self, other: &Self) -> bool {
        self.as_slice() == other.as_slice()
    }
}

impl<P: ParameterSet> Eq for Signature<P> {
    ghost use Rattle.std.specs.Cmp.Rules.{comparing};
    ghost use Rattle.std.proofs.Common.{rules};

    ghost laws = { Prim.search (comparing, rules) };
}
