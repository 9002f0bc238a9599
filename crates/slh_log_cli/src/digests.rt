//! Sizes, roots and proofs in the fields of a line.
ghost use Rattle.std.specs.Prelude.{◌≡◌, ◌≤◌, ◌⊎◌, ◌++◌, ◌∷◌, [], Err, Ok, IfErr, IfOk, OnOk};
ghost use Rattle.line_serve.specs.Fields.{contents};
ghost use Rattle.slh_line.specs.declared.line_error.LineError.TheVariants.{Memory};
ghost use Rattle.slh_log_cli.specs.Proofs.{digest_of, digests_of, has_proof, size_at};

use line_serve::{Words, field_at};
use slh_line::{LineError, word_at};
use slh_log::decimal_size;
use std::alloc::Global;

/// The most digests of a proof: those of a growth between logs of 64 bits, and the first.
const MAX_PROOF: usize = 65;

/// The bytes of a digest.
const DIGEST_LEN: usize = 32;

/// Whether a line has so many fields, and after them those of a proof.
pub(crate) fn has_proof(fields: &[&[u8]], before: usize) -> bool
    requires { before ≤ 5 }
    ensures { result ≡ has_proof before (contents fields.now) }
{
    before <= fields.len() && fields.len() <= before + MAX_PROOF
}

/// The size or the index that a field stands for. `Fields`: it stands for none.
pub(crate) fn size_at(fields: &[&[u8]], i: usize) -> Result<u64, LineError>
    ensures { result ≡ size_at (contents fields.now) i }
{
    match decimal_size(field_at(fields, i)) {
        Some(size) => Ok(size),
        None => Err(LineError::Fields),
    }
}

/// The digest of these bytes. `Length`: they aren't 32.
pub(crate) fn digest_of(bytes: &[u8]) -> Result<[u8; DIGEST_LEN], LineError>
    ensures { result ≡ digest_of bytes.now }
{
    if bytes.len() != DIGEST_LEN {
        return Err(LineError::Length);
    }
    let mut digest = [0u8; DIGEST_LEN];
    digest.copy_from_slice(bytes);
    Ok(digest)
}

// Puts a digest at the end.
fn push(all: &mut Vec<[u8; DIGEST_LEN]>, digest: [u8; DIGEST_LEN]) -> Result<(), LineError>
    ensures ok { OnOk result (all.new.items ≡ all.old.items ++ digest ∷ []) }
    ensures err { IfErr result (λ e. e ≡ Memory) }
{
    match all.push(digest) {
        Ok(()) => Ok(()),
        Err(_) => Err(LineError::Memory),
    }
}

/// The digests of these words. `Length`: one of them hasn't 32 bytes.
pub(crate) fn digests_of(alloc: Global, words: &Words) -> Result<Vec<[u8; DIGEST_LEN]>, LineError>
    ensures ok { IfOk result (λ all. digests_of words.now ≡ Ok all.items) }
    ensures err { IfErr result (λ e. (e ≡ Memory) ⊎ (digests_of words.now ≡ Err e)) }
{
    let mut all = Vec::new(alloc);
    'each_word: for i in 0..words.len() {
        let digest = digest_of(word_at(words, i))?;
        push(&mut all, digest)?;
    }
    Ok(all)
}
