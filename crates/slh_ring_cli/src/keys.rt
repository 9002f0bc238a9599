//! `SET derive MASTER PATH` gives the key at a path. `master_of` reads the master of any line.
ghost use Rattle.std.specs.Prelude.{◌≡◌, ◌⊎◌, ◌≤◌, length, Ok, Err, IfOk};
ghost use Rattle.line_serve.specs.Fields.{contents};
ghost use Rattle.slh_line.specs.Readings.{bytes_at as spec_bytes_at};
ghost use Rattle.slh_line.specs.declared.line_error.LineError.TheVariants.{Memory};
ghost use Rattle.slh_ring.specs.Keys.{ring_key};
ghost use Rattle.slh_ring_cli.specs.Replies.{derive_line_answer, key_text as spec_key_text};

use crate::path_fields::path_of;
use line_serve::{ByteString, field_at, push_hex};
use slh_dsa::{SetSizes, SigningKey};
use slh_line::{LineError, bytes_at};
use slh_ring::{MAX_MASTER, Path, derive};
use std::alloc::Global;

/// The master of a line: the bytes of its third field. No line holds more than a master may have, so
/// more are as good as want of memory.
pub(crate) fn master_of(alloc: Global, fields: &[&[u8]]) -> Result<ByteString, LineError>
    ensures value { (result ≡ spec_bytes_at (contents fields.now) 2) ⊎ (result ≡ Err Memory) }
    ensures few { IfOk result (λ master. length master ≤ MAX_MASTER) }
{
    let master = bytes_at(alloc, fields, 2)?;
    if master.len() > MAX_MASTER {
        return Err(LineError::Memory);
    }
    Ok(master)
}

// The line for a key.
fn key_text<P: SetSizes>(alloc: Global, key: &SigningKey<P>) -> Result<ByteString, LineError>
    ensures { (result ≡ Ok (spec_key_text P.scheme key.now)) ⊎ (result ≡ Err Memory) }
{
    let mut text = ByteString::from_slice(alloc, b"key ")?;
    push_hex(&mut text, &key.to_vec(alloc)?)?;
    text.push_slice(b" ")?;
    push_hex(&mut text, &key.verifying_key().to_vec(alloc)?)?;
    text.push_slice(b"\n")?;
    Ok(text)
}

// The line for the key at a path.
fn derive_text<P: SetSizes>(
    alloc: Global,
    master: &[u8],
    path: &Path,
) -> Result<ByteString, LineError>
    requires { length master.now ≤ MAX_MASTER }
    ensures { let key = ring_key P.scheme P.set_name master.now path.now in
        (result ≡ Ok (spec_key_text P.scheme key)) ⊎ (result ≡ Err Memory) }
{
    key_text(alloc, &derive::<P>(master, path))
}

/// The reply to a `derive` line.
pub(crate) fn derive_line<P: SetSizes>(
    alloc: Global,
    fields: &[&[u8]],
) -> Result<ByteString, LineError>
    ensures { (result ≡ derive_line_answer P.scheme P.set_name (contents fields.now))
        ⊎ (result ≡ Err Memory) }
{
    if fields.len() != 4 {
        return Err(LineError::Fields);
    }
    let path = path_of(field_at(fields, 3))?;
    let master = master_of(alloc, fields)?;
    derive_text::<P>(alloc, master.as_slice(), &path)
}
