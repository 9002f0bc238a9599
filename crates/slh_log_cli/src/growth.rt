//! `growth OLDSIZE OLDROOT NEWSIZE NEWROOT PROOF ..` says whether a log grew.
ghost use Rattle.std.specs.Prelude.{◌≡◌, ◌⊎◌, Err};
ghost use Rattle.line_serve.specs.Fields.{contents};
ghost use Rattle.slh_line.specs.declared.line_error.LineError.TheVariants.{Memory};
ghost use Rattle.slh_log.specs.Calls.{growth_refusal};
ghost use Rattle.slh_log_cli.specs.Proofs.{growth_answer};
ghost use Rattle.slh_log_cli.specs.Proofs.{growth_request as spec_growth_request};
ghost use Rattle.slh_log_cli.specs.Proofs.{growth_text as spec_growth_text};

use crate::digests::{digest_of, digests_of, has_proof, size_at};
use line_serve::{ByteString, Words};
use slh_line::{LineError, all_bytes_at, bytes_at};
use slh_log::{Checkpoint, GrowthError, check_growth};
use std::alloc::Global;

// The text of what a check of a growth answers.
fn growth_text(old: &Checkpoint, new: &Checkpoint, proof: &[[u8; 32]]) -> &'static [u8]
    ensures { result.now ≡ spec_growth_text
        (growth_refusal old.now.size old.now.root new.now.size new.now.root proof.now) }
{
    match check_growth(old, new, proof) {
        Ok(()) => b"grown\n",
        Err(GrowthError::Empty) => b"error empty\n",
        Err(GrowthError::Smaller) => b"error smaller\n",
        Err(GrowthError::Length) => b"error proof\n",
        Err(GrowthError::Invalid) => b"error invalid\n",
    }
}

// The reply to the bytes of a line, and its sizes.
fn growth_request(
    alloc: Global,
    old_size: u64,
    old_root: &[u8],
    new_size: u64,
    new_root: &[u8],
    proof: &Words,
) -> Result<ByteString, LineError>
    ensures { (result ≡ spec_growth_request old_size old_root.now new_size new_root.now proof.now)
        ⊎ (result ≡ Err Memory) }
{
    let old_root = digest_of(old_root)?;
    let new_root = digest_of(new_root)?;
    let proof = digests_of(alloc, proof)?;
    let old = Checkpoint {
        size: old_size,
        root: old_root,
    };
    let new = Checkpoint {
        size: new_size,
        root: new_root,
    };
    Ok(ByteString::from_slice(alloc, growth_text(&old, &new, proof.as_slice()))?)
}

/// The reply to a `growth` line.
pub(crate) fn growth_line(alloc: Global, fields: &[&[u8]]) -> Result<ByteString, LineError>
    ensures { (result ≡ growth_answer (contents fields.now)) ⊎ (result ≡ Err Memory) }
{
    if !has_proof(fields, 5) {
        return Err(LineError::Fields);
    }
    let old_size = size_at(fields, 1)?;
    let new_size = size_at(fields, 3)?;
    let old_root = bytes_at(alloc, fields, 2)?;
    let new_root = bytes_at(alloc, fields, 4)?;
    let proof = all_bytes_at(alloc, fields, 5)?;
    growth_request(
        alloc,
        old_size,
        old_root.as_slice(),
        new_size,
        new_root.as_slice(),
        &proof,
    )
}
