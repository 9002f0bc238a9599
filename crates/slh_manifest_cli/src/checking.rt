//! `SET check VK MANIFEST NAME BYTES ..` says whether the pairs are what a manifest says.
ghost use Rattle.std.specs.Prelude.{◌≡◌, ◌⊎◌, Ok, Err};
ghost use Rattle.std.specs.FinMap as map;
ghost use Rattle.line_serve.specs.Fields.{contents};
ghost use Rattle.line_serve.specs.Texts.{number_line};
ghost use Rattle.slh_manifest.specs.Checking.{check_error};
ghost use Rattle.slh_manifest_cli.specs.Replies.{check_answer, files_with};
ghost use Rattle.slh_manifest_cli.specs.Replies.{check_request as spec_check_request};
ghost use Rattle.slh_manifest_cli.specs.Replies.{check_text as spec_check_text};
ghost use Rattle.slh_line.specs.declared.line_error.LineError.TheVariants.{Memory};

use crate::pairs::{FIRST_NAME, has_pairs, store_of};
use line_serve::{ByteString, Words, push_number_line};
use slh_dsa::{SetSizes, VerifyingKey};
use slh_line::{LineError, all_bytes_at, bytes_at, verifying_key};
use slh_manifest::{CheckError, check};
use std::alloc::Global;

// A line for an entry that isn't right.
fn entry_line(alloc: Global, word: &[u8], entry: u32) -> Result<ByteString, LineError>
    ensures { (result ≡ Ok (number_line word.now entry)) ⊎ (result ≡ Err Memory) }
{
    let mut text = ByteString::new(alloc);
    push_number_line(&mut text, word, u64::from(entry))?;
    Ok(text)
}

// The text of what checking a manifest over the pairs answers.
fn check_text<P: SetSizes>(
    alloc: Global,
    key: &VerifyingKey<P>,
    manifest: &[u8],
    pairs: &Words,
) -> Result<ByteString, LineError>
    ensures { let files = files_with map.empty pairs.now in
        (result ≡ Ok (spec_check_text (check_error P.scheme key.now manifest.now files)))
        ⊎ (result ≡ Err Memory) }
{
    let mut store = store_of(alloc, pairs)?;
    match check(key, manifest, &mut store) {
        Ok(()) => Ok(ByteString::from_slice(alloc, b"accepted\n")?),
        Err(CheckError::Form) => Ok(ByteString::from_slice(alloc, b"error form\n")?),
        Err(CheckError::Invalid) => Ok(ByteString::from_slice(alloc, b"error invalid\n")?),
        Err(CheckError::Missing(entry)) => entry_line(alloc, b"missing ", entry),
        Err(CheckError::Differs(entry)) => entry_line(alloc, b"differs ", entry),
        Err(CheckError::Fault) => unreachable!(),
    }
}

// The reply to a verifying key, a manifest and pairs.
fn check_request<P: SetSizes>(
    alloc: Global,
    key: &[u8],
    manifest: &[u8],
    pairs: &Words,
) -> Result<ByteString, LineError>
    ensures { (result ≡ spec_check_request P.scheme key.now manifest.now pairs.now)
        ⊎ (result ≡ Err Memory) }
{
    let key = verifying_key::<P>(key)?;
    check_text(alloc, &key, manifest, pairs)
}

/// The reply to a `check` line.
pub(crate) fn check_line<P: SetSizes>(
    alloc: Global,
    fields: &[&[u8]],
) -> Result<ByteString, LineError>
    ensures { (result ≡ check_answer P.scheme (contents fields.now)) ⊎ (result ≡ Err Memory) }
{
    if !has_pairs(fields, FIRST_NAME) {
        return Err(LineError::Fields);
    }
    let key = bytes_at(alloc, fields, 2)?;
    let manifest = bytes_at(alloc, fields, 3)?;
    let pairs = all_bytes_at(alloc, fields, FIRST_NAME)?;
    check_request::<P>(alloc, key.as_slice(), manifest.as_slice(), &pairs)
}
