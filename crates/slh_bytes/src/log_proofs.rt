//! Proofs as the text that they are kept and sent in.
ghost use Rattle.std.specs.Prelude.{◌≡◌, ℕ, ◌+◌, ◌≤◌, ◌++◌, ◌∷◌, [], List, length, take, decimal};
ghost use Rattle.std.specs.Prelude.{IfErr, IfOk, IfSome, MatchOption, MatchResult, OnOk};
ghost use Rattle.line_serve.specs.Lines.{parts};
ghost use Rattle.slh_log.specs.Reading.{bytes_value};
ghost use Rattle.slh_log.specs.Texts.{base64_of};
ghost use Rattle.slh_bytes.specs.LogProofs.{AreDigests, IsProofText, digest_line};
ghost use Rattle.slh_bytes.specs.LogProofs.{digest_lines, front_of};
ghost use Rattle.slh_bytes.specs.LogProofs.{proof_text as spec_proof_text};
ghost use Rattle.slh_bytes.specs.declared.log_proofs.ProofError.TheVariants.{Memory};

use base64::engine::general_purpose::STANDARD;
use itoa::Buffer;
use memchr::memchr;
use merkle_tree::DIGEST_LEN;
use slh_log::decimal_size;
use std::alloc::{AllocError, Global};

// The most digests of a proof.
const MAX_DIGESTS: usize = 64;

/// What a proof shows.
#[derive(Clone, Copy, Debug, PartialEq, Eq)]
pub enum Purpose {
    /// That an entry is in a log: the text of C2SP's `tlog-proof`.
    Presence,
    /// That a log grew: the text of a request of C2SP's `tlog-witness` to add a checkpoint.
    Growth,
}

impl Purpose {
    // What stands before the number.
    fn front(self) -> &'static [u8]
        ensures { result.now ≡ front_of self }
    {
        match self {
            Purpose::Presence => b"c2sp.org/tlog-proof@v1\nindex ",
            Purpose::Growth => b"old ",
        }
    }
}

/// A proof that was read.
#[derive(Drop)]
pub struct Proof<'a> {
    /// The index of the entry, or the size of the old log.
    pub number: u64,
    /// The path, or the proof of growth.
    pub digests: Vec<[u8; DIGEST_LEN]>,
    /// The checkpoint that it leads to.
    pub checkpoint: &'a [u8],
}

/// Why bytes aren't read as a proof.
#[derive(Clone, Copy, Debug, PartialEq, Eq)]
pub enum ProofError {
    /// They aren't the text of a proof with this purpose.
    Form,
    /// Memory ran out.
    Memory,
}

impl From<AllocError> for ProofError {
    ghost use Rattle.std.specs.Prelude.{◌≡◌};
    ghost use Rattle.slh_bytes.specs.declared.log_proofs.ProofError.TheVariants.{Memory};

    ghost from_gives = { λ _ e. e ≡ Memory };

    fn from(_error: AllocError) -> Self {
        ProofError::Memory
    }
}

// Puts the line of a digest at the end.
fn push_digest(
    alloc: Global,
    text: &mut Vec<u8>,
    digest: &[u8; DIGEST_LEN],
) -> Result<(), AllocError>
    ensures { OnOk result (text.new.items ≡ text.old.items ++ digest_line digest.now) }
{
    let symbols = STANDARD.encode(alloc, digest)?;
    text.extend_from_slice(symbols.as_bytes())?;
    text.extend_from_slice(b"\n")
}

// Puts the lines of digests at the end.
fn push_digests(
    alloc: Global,
    text: &mut Vec<u8>,
    digests: &[[u8; DIGEST_LEN]],
) -> Result<(), AllocError>
    ensures { OnOk result (text.new.items ≡ text.old.items ++ digest_lines digests.now) }
{
    for digest in digests {
        push_digest(alloc, text, digest)?;
    }
    Ok(())
}

/// The text of a proof: what it shows and of which number, the digests in base64 a line each, an
/// empty line, and the checkpoint.
pub fn proof_text(
    alloc: Global,
    purpose: Purpose,
    number: u64,
    digests: &[[u8; DIGEST_LEN]],
    checkpoint: &[u8],
) -> Result<Vec<u8>, AllocError>
    ensures { IfOk result (λ text. text.items
        ≡ spec_proof_text purpose number digests.now checkpoint.now) }
{
    let mut text = Vec::from_slice(alloc, purpose.front())?;
    let mut digits = Buffer::new();
    text.extend_from_slice(digits.format(number).as_bytes())?;
    text.extend_from_slice(b"\n")?;
    push_digests(alloc, &mut text, digests)?;
    text.extend_from_slice(b"\n")?;
    text.extend_from_slice(checkpoint)?;
    Ok(text)
}

// The first line, and what follows its line feed. `None`: there is no line feed.
fn cut_line(bytes: &[u8]) -> Option<(&[u8], &[u8])>
    ensures cut { MatchOption result (parts bytes.now ≡ bytes.now ∷ [])
        (λ cut. parts bytes.now ≡ cut.0.now ∷ parts cut.1.now) }
    ensures shorter { IfSome result
        (λ cut. length cut.0.now + 1 + length cut.1.now ≡ length bytes.now) }
{
    match memchr(b'\n', bytes) {
        Some(at) => Some((&bytes[..at], &bytes[at + 1..])),
        None => None,
    }
}

// The digest that a line is the base64 of.
fn digest_of(line: &[u8]) -> Option<[u8; DIGEST_LEN]>
    ensures { result ≡ bytes_value 32 line.now }
{
    let mut digest = [0u8; DIGEST_LEN];
    if line.len() != DIGEST_LEN.div_ceil(3) * 4 {
        return None;
    }
    let Ok(len) = STANDARD.decode_slice(line, &mut digest) else {
        return None;
    };
    if len == DIGEST_LEN {
        Some(digest)
    } else {
        None
    }
}

// Puts a digest at the end.
fn push(all: &mut Vec<[u8; DIGEST_LEN]>, digest: [u8; DIGEST_LEN]) -> Result<(), ProofError>
    ensures ok { OnOk result (all.new.items ≡ all.old.items ++ digest ∷ []) }
    ensures err { IfErr result (λ e. e ≡ Memory) }
{
    match all.push(digest) {
        Ok(()) => Ok(()),
        Err(_) => Err(ProofError::Memory),
    }
}

// The digests before an empty line, and what follows that line.
fn read_digests<'a>(
    alloc: Global,
    bytes: &'a [u8],
) -> Result<(Vec<[u8; DIGEST_LEN]>, &'a [u8]), ProofError>
    ensures few { IfOk result (λ read. length read.0.items ≤ 64) }
    ensures read { (digests : List (List ℕ)) (rest : List ℕ) → AreDigests digests
        → bytes.now ≡ digest_lines digests ++ 10 ∷ rest
        → MatchResult result (λ read. (read.0.items ≡ digests) × (read.1.now ≡ rest))
        (λ e. e ≡ Memory) }
{
    let mut digests = Vec::new(alloc);
    let mut rest = bytes;
    'each_line: while let Some((line, later)) = cut_line(rest) {
        if line.is_empty() {
            return Ok((digests, later));
        }
        let Some(digest) = digest_of(line) else {
            return Err(ProofError::Form);
        };
        if digests.len() == MAX_DIGESTS {
            return Err(ProofError::Form);
        }
        push(&mut digests, digest)?;
        rest = later;
    }
    Err(ProofError::Form)
}

// What a proof has, where its text is written again as it stands.
fn parts_of<'a>(alloc: Global, purpose: Purpose, bytes: &'a [u8]) -> Result<Proof<'a>, ProofError>
    ensures few { IfOk result (λ proof. length proof.digests.items ≤ 64) }
    ensures read { (number : ℕ) (digests : List (List ℕ)) (checkpoint : List ℕ)
        → IsProofText purpose bytes.now number digests checkpoint
        → MatchResult result
        (λ proof. (proof.number ≡ number) × (proof.digests.items ≡ digests)
        × (proof.checkpoint.now ≡ checkpoint))
        (λ e. e ≡ Memory) }
{
    let Some(rest) = bytes.strip_prefix(purpose.front()) else {
        return Err(ProofError::Form);
    };
    let Some((line, rest)) = cut_line(rest) else {
        return Err(ProofError::Form);
    };
    let Some(number) = decimal_size(line) else {
        return Err(ProofError::Form);
    };
    let (digests, checkpoint) = read_digests(alloc, rest)?;
    Ok(Proof {
        number,
        digests,
        checkpoint,
    })
}

/// What the text of a proof has. It is the one text of what was read: no other spelling passes, and
/// each such text does. `Form`; `Memory`.
pub fn read_proof<'a>(
    alloc: Global,
    purpose: Purpose,
    bytes: &'a [u8],
) -> Result<Proof<'a>, ProofError>
    ensures text { IfOk result (λ proof. bytes.now
        ≡ spec_proof_text purpose proof.number proof.digests.items proof.checkpoint.now) }
    ensures few { IfOk result (λ proof. length proof.digests.items ≤ 64) }
    ensures read { (number : ℕ) (digests : List (List ℕ)) (checkpoint : List ℕ)
        → IsProofText purpose bytes.now number digests checkpoint
        → MatchResult result
        (λ proof. (proof.number ≡ number) × (proof.digests.items ≡ digests)
        × (proof.checkpoint.now ≡ checkpoint))
        (λ e. e ≡ Memory) }
{
    let proof = parts_of(alloc, purpose, bytes)?;
    let digests = proof.digests.as_slice();
    let text = proof_text(alloc, purpose, proof.number, digests, proof.checkpoint)?;
    if text.as_slice() != bytes {
        return Err(ProofError::Form);
    }
    Ok(proof)
}
