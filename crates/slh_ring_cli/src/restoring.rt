//! `SET restore MASTER RECORD` gives the paths of a record, or tells why it has none.
ghost use Rattle.std.specs.Prelude.{◌≡◌, ◌⊎◌, ◌≤◌, length, Ok, Err};
ghost use Rattle.line_serve.specs.Fields.{contents};
ghost use Rattle.slh_line.specs.declared.line_error.LineError.TheVariants.{Memory};
ghost use Rattle.slh_ring.specs.Restores.{restore_answer};
ghost use Rattle.slh_ring.specs.declared.error.RestoreError.TheVariants.{Mismatch};
ghost use Rattle.slh_ring_cli.specs.Replies.{restore_line_answer};
ghost use Rattle.slh_ring_cli.specs.Replies.{restore_text as spec_restore_text};
ghost use Rattle.slh_ring_cli.specs.Replies.{ring_text as spec_ring_text};

use crate::keys::master_of;
use line_serve::{ByteString, push_number_line};
use slh_dsa::SetSizes;
use slh_line::{LineError, bytes_at};
use slh_ring::{MAX_MASTER, RestoreError, Ring};
use std::alloc::Global;

// The line for the paths of a ring.
fn ring_text<P: SetSizes>(alloc: Global, ring: &Ring<P>) -> Result<ByteString, LineError>
    ensures { (result ≡ Ok (spec_ring_text ring.now)) ⊎ (result ≡ Err Memory) }
{
    let mut text = ByteString::from_slice(alloc, b"ring")?;
    for i in 0..ring.len() {
        let Some(path) = ring.get(i) else {
            unreachable!()
        };
        text.push_slice(b" ")?;
        path.push_to(&mut text)?;
    }
    text.push_slice(b"\n")?;
    Ok(text)
}

// The line for the path whose key isn't the recorded one.
fn mismatch_text(alloc: Global, i: u32) -> Result<ByteString, LineError>
    ensures { (result ≡ Ok (spec_restore_text (Err (Mismatch i)))) ⊎ (result ≡ Err Memory) }
{
    let mut text = ByteString::new(alloc);
    push_number_line(&mut text, b"mismatch ", u64::from(i))?;
    Ok(text)
}

// The line for what restoring a record answers.
fn restore_text<P: SetSizes>(
    alloc: Global,
    master: &[u8],
    bytes: &[u8],
) -> Result<ByteString, LineError>
    requires { length master.now ≤ MAX_MASTER }
    ensures { let answer = restore_answer P.scheme P.set_name master.now bytes.now in
        (result ≡ Ok (spec_restore_text answer)) ⊎ (result ≡ Err Memory) }
{
    match Ring::<P>::restore(alloc, master, bytes) {
        Ok(ring) => ring_text(alloc, &ring),
        Err(RestoreError::Form) => Ok(ByteString::from_slice(alloc, b"error form\n")?),
        Err(RestoreError::Mismatch(i)) => mismatch_text(alloc, i),
        Err(RestoreError::Memory) => Err(LineError::Memory),
    }
}

/// The reply to a `restore` line.
pub(crate) fn restore_line<P: SetSizes>(
    alloc: Global,
    fields: &[&[u8]],
) -> Result<ByteString, LineError>
    ensures { (result ≡ restore_line_answer P.scheme P.set_name (contents fields.now))
        ⊎ (result ≡ Err Memory) }
{
    if fields.len() != 4 {
        return Err(LineError::Fields);
    }
    let master = master_of(alloc, fields)?;
    let bytes = bytes_at(alloc, fields, 3)?;
    restore_text::<P>(alloc, master.as_slice(), bytes.as_slice())
}
