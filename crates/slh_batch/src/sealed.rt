//! Signed batches, and the receipts of their messages.
ghost use Rattle.std.specs.Prelude.{◌≡◌, ◌≤◌, ◌++◌, length, IfOk};
ghost use Rattle.std.specs.List.{concat};
ghost use Rattle.slh_core.specs.Bytes.{big_endian};
ghost use Rattle.slh_trees.specs.Checking.{signature_size};
ghost use Rattle.slh_batch.specs.Calls.{index_refusal};
ghost use Rattle.slh_batch.specs.Heads.{head_of};
ghost use Rattle.slh_batch.specs.Receipts.{receipt_of};
ghost use Rattle.slh_batch.specs.Tree.{batch_path, batch_tree};
ghost use Rattle.slh_core.specs.Refusals.{RefusedOrNoMemory};
ghost use Rattle.slh_batch.specs.declared.error.BatchError.TheVariants.{Memory};

use crate::batch::MAX_MESSAGES;
use crate::checking::{ROOT_MESSAGE_LEN, root_message};
use crate::error::BatchError;
use crate::parts::NUMBERS_LEN;
use merkle_tree::{DIGEST_LEN, Levels, Sha256, path_len};
use slh_dsa::SetSizes;
use std::alloc::{AllocError, Global};
use std::marker::{Model, PhantomData};

/// A signed batch. Clauses see it as the list of its messages' digests and the signature.
#[derive(Drop)]
pub struct Sealed<P: SetSizes> {
    pub(crate) levels: Levels<Sha256>,
    pub(crate) signature: Vec<u8>,
    pub(crate) set: PhantomData<P>,
}

impl<P: SetSizes> Model for Sealed<P> {
    ghost use Rattle.std.specs.Prelude.{◌≡◌, ◌≤◌, ◌^◌, length};
    ghost use Rattle.slh_batch.specs.Sealing.{SealedBatch};
    ghost use Rattle.slh_trees.specs.Checking.{signature_size};

    ghost Value = { SealedBatch };

    ghost view = { λ s. record { leaves = s.levels; signature = s.signature.items } };

    ghost invariant = { λ s. (1 ≤ length s.levels) × (length s.levels ≤ 2 ^ 20)
        × (length s.signature.items ≡ signature_size P.scheme) };
}

// The receipt of message `i` of `count` by a path.
fn write_receipt(
    alloc: Global,
    i: u32,
    count: u32,
    path: &[[u8; DIGEST_LEN]],
    signature: &[u8],
) -> Result<Vec<u8>, AllocError>
    requires { length path.now ≤ 20 }
    ensures { IfOk result (λ receipt. receipt.items
        ≡ big_endian i 4 ++ big_endian count 4 ++ concat path.now ++ signature.now) }
{
    let path = path.as_flattened();
    let mut out = Vec::with_capacity(alloc, NUMBERS_LEN + path.len() + signature.len())?;
    out.extend_from_slice(&i.to_be_bytes())?;
    out.extend_from_slice(&count.to_be_bytes())?;
    out.extend_from_slice(path)?;
    out.extend_from_slice(signature)?;
    Ok(out)
}

impl<P: SetSizes> Sealed<P> {
    /// How many messages it has.
    pub fn len(&self) -> usize
        ensures value { result ≡ length self.now.leaves }
        ensures some { 1 ≤ result }
        ensures few { result ≤ MAX_MESSAGES }
    {
        self.levels.len()
    }

    /// The root over their digests.
    pub fn root(&self) -> &[u8; DIGEST_LEN]
        ensures { result.now ≡ batch_tree self.now.leaves }
    {
        self.levels.root()
    }

    /// The bytes of the signature of their number and root, as each receipt has it.
    pub fn signature(&self) -> &[u8]
        ensures value { result.now ≡ self.now.signature }
        ensures len { length result.now ≡ signature_size P.scheme }
    {
        self.signature.as_slice()
    }

    /// The head, which [`Head::open`] verifies once for all messages: their number, the root and
    /// the signature.
    ///
    /// [`Head::open`]: crate::Head::open
    pub fn head(&self, alloc: Global) -> Result<Vec<u8>, AllocError>
        ensures { IfOk result (λ head. head.items
            ≡ head_of self.now.leaves self.now.signature) }
    {
        let message = root_message(self.levels.len() as u32, self.levels.root());
        let signature = self.signature.as_slice();
        let mut out = Vec::with_capacity(alloc, ROOT_MESSAGE_LEN + signature.len())?;
        out.extend_from_slice(&message)?;
        out.extend_from_slice(signature)?;
        Ok(out)
    }

    /// The path of message `i`, counted from 0: at most 20 digests, the one beside the message's
    /// own first. Hashes nothing. `Index`; `Memory`.
    pub fn path(&self, alloc: Global, i: u32) -> Result<Vec<[u8; DIGEST_LEN]>, BatchError>
        ensures refusal { RefusedOrNoMemory Memory result (index_refusal self.now.leaves i) }
        ensures value { IfOk result (λ path. path.items ≡ batch_path self.now.leaves i) }
        ensures few { IfOk result (λ path. length path.items ≤ 20) }
    {
        if i as usize >= self.levels.len() {
            return Err(BatchError::Index);
        }
        let len = path_len(u64::from(i), self.levels.len() as u64);
        let mut path = Vec::with_capacity(alloc, len)?;
        self.levels.push_path(&mut path, i as usize)?;
        Ok(path)
    }

    /// The receipt of message `i`, counted from 0: 8 bytes, at most 20 digests of 32 bytes, and the
    /// signature. Hashes nothing. `Index`; `Memory`.
    pub fn receipt(&self, alloc: Global, i: u32) -> Result<Vec<u8>, BatchError>
        ensures refusal { RefusedOrNoMemory Memory result (index_refusal self.now.leaves i) }
        ensures value { IfOk result (λ receipt. receipt.items
            ≡ receipt_of self.now.leaves self.now.signature i) }
    {
        let path = self.path(alloc, i)?;
        let count = self.levels.len() as u32;
        Ok(write_receipt(alloc, i, count, &path, self.signature.as_slice())?)
    }
}
