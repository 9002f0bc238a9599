//! Making checkpoints.
ghost use Rattle.std.specs.Prelude.{◌≡◌, ◌≤◌, ◌++◌, ◌∷◌, [], length, IfOk, OnOk};
ghost use Rattle.std.specs.Option.{option_copied, ForSome};
ghost use Rattle.slh_core.specs.Refusals.{RefusedExactly, RefusedOrNoMemory};
ghost use Rattle.slh_log.specs.Calls.{checkpoint_refusal};
ghost use Rattle.slh_log.specs.Texts.{base64_of, checkpoint_text, dash};
ghost use Rattle.slh_log.specs.Texts.{log_context, signed_checkpoint, text_signature};
ghost use Rattle.slh_log.specs.declared.error.CheckpointError.TheVariants.{Memory};

use crate::error::CheckpointError;
use crate::lines::DASH;
use crate::opening::signature_bound;
use crate::origin::{ID_LEN, is_origin, key_id};
use base64::engine::general_purpose::STANDARD;
use itoa::Buffer;
use merkle_tree::DIGEST_LEN;
use slh_dsa::{Message, Mode, SetSizes, SigningKey, check_opt_rand};
use slh_frames::MAX_MESSAGE;
use std::alloc::{AllocError, Global};

/// The context that texts are signed with.
pub const CONTEXT: &[u8] = b"slh-log";

// The refusals of making a checkpoint.
fn check_checkpoint<P: SetSizes>(
    origin: &str,
    opt_rand: Option<&[u8]>,
) -> Result<(), CheckpointError>
    ensures refusal { let opt_rand = option_copied opt_rand.entry in
        RefusedExactly result (checkpoint_refusal P.scheme origin.now opt_rand) }
    ensures origin { OnOk result (length origin.now ≤ 255) }
    ensures fits { OnOk result
        (ForSome (option_copied opt_rand.entry) (λ bytes. length bytes ≡ P.N.USIZE)) }
{
    if !is_origin(origin) {
        return Err(CheckpointError::Origin);
    }
    check_opt_rand::<P, CheckpointError>(opt_rand, CheckpointError::Randomizer)
}

// The text of a checkpoint.
fn text_of(
    alloc: Global,
    origin: &str,
    size: u64,
    root: &[u8; DIGEST_LEN],
) -> Result<Vec<u8>, AllocError>
    ensures { IfOk result (λ text. text.items ≡ checkpoint_text origin.now size root.now) }
{
    let mut text = Vec::from_slice(alloc, origin.as_bytes())?;
    text.extend_from_slice(b"\n")?;
    let mut digits = Buffer::new();
    text.extend_from_slice(digits.format(size).as_bytes())?;
    text.extend_from_slice(b"\n")?;
    let symbols = STANDARD.encode(alloc, root)?;
    text.extend_from_slice(symbols.as_bytes())?;
    text.extend_from_slice(b"\n")?;
    Ok(text)
}

// The id of a key, and its signature of a text.
fn signed_text<P: SetSizes>(
    alloc: Global,
    key: &SigningKey<P>,
    id: &[u8; ID_LEN],
    text: &[u8],
    opt_rand: Option<&[u8]>,
) -> Result<Vec<u8>, AllocError>
    requires text { length text.now ≤ MAX_MESSAGE }
    requires opt_rand { ForSome (option_copied opt_rand) (λ bytes. length bytes ≡ P.N.USIZE) }
    ensures { let opt_rand = option_copied opt_rand.entry in
        IfOk result (λ signed. signed.items
        ≡ id.now ++ text_signature P.scheme key.now opt_rand text.now) }
{
    signature_bound::<P>();
    let mut signed = vec![in alloc; 0u8; ID_LEN + P::SIG_LEN]?;
    let (front, sig) = signed.as_mut_slice().split_at_mut(ID_LEN);
    front.copy_from_slice(id);
    key.sign_checked(&Message::fitting(Mode::Pure, text, CONTEXT), opt_rand, sig);
    Ok(signed)
}

// Puts an empty line, and the line of an id and a signature, after a text.
fn push_line(
    alloc: Global,
    note: &mut Vec<u8>,
    origin: &str,
    signed: &[u8],
) -> Result<(), AllocError>
    ensures { OnOk result (note.new.items ≡ note.old.items
        ++ 10 ∷ (dash ++ (origin.now ++ 32 ∷ (base64_of signed.now ++ 10 ∷ [])))) }
{
    note.extend_from_slice(b"\n")?;
    note.extend_from_slice(DASH)?;
    note.extend_from_slice(origin.as_bytes())?;
    note.extend_from_slice(b" ")?;
    let symbols = STANDARD.encode(alloc, signed)?;
    note.extend_from_slice(symbols.as_bytes())?;
    note.extend_from_slice(b"\n")
}

/// The checkpoint of a log's size and root under an origin, signed in mode `Pure` (FIPS 205,
/// algorithm 22) with the context `slh-log`. Where no `opt_rand` is given the key's public seed
/// stands for it. `Origin`; `Randomizer`; `Memory`.
pub fn checkpoint<P: SetSizes>(
    alloc: Global,
    key: &SigningKey<P>,
    origin: &str,
    size: u64,
    root: &[u8; DIGEST_LEN],
    opt_rand: Option<&[u8]>,
) -> Result<Vec<u8>, CheckpointError>
    ensures refusal { let opt_rand = option_copied opt_rand.entry in
        RefusedOrNoMemory Memory result (checkpoint_refusal P.scheme origin.now opt_rand) }
    ensures value { let opt_rand = option_copied opt_rand.entry in
        IfOk result (λ note. note.items
        ≡ signed_checkpoint P.scheme P.set_name key.now opt_rand origin.now size root.now) }
{
    check_checkpoint::<P>(origin, opt_rand)?;
    let mut note = text_of(alloc, origin, size, root)?;
    let id = key_id(origin, &key.verifying_key());
    let signed = signed_text(alloc, key, &id, note.as_slice(), opt_rand)?;
    push_line(alloc, &mut note, origin, signed.as_slice())?;
    Ok(note)
}
