//! `SET record MASTER PATH ..` gives the record of a ring of paths.
ghost use Rattle.std.specs.Prelude.{◌≡◌, ◌⊎◌, ◌≤◌, [], length, None, Some, Ok, Err};
ghost use Rattle.std.specs.Prelude.{IfOk, IfErr};
ghost use Rattle.line_serve.specs.Fields.{contents};
ghost use Rattle.slh_line.specs.declared.line_error.LineError.TheVariants.{Memory};
ghost use Rattle.slh_ring.specs.declared.error.RingError.TheVariants.{Present, Memory as NoMemory};
ghost use Rattle.slh_ring_cli.specs.Replies.{all_added, record_line_answer};
ghost use Rattle.slh_ring_cli.specs.Replies.{record_text as spec_record_text};

use crate::keys::master_of;
use crate::path_fields::all_paths;
use line_serve::{ByteString, push_hex_line};
use slh_dsa::SetSizes;
use slh_line::LineError;
use slh_ring::{MAX_MASTER, Path, Ring, RingError};
use std::alloc::Global;

// A line has a set, the command, a master, and 0 to 64 paths.
const FIRST_PATH: usize = 3;

const MAX_FIELDS: usize = FIRST_PATH + 64;

// The ring of these paths, of which there are few enough. `Present`: one of them is there twice.
fn ring_of<P: SetSizes>(alloc: Global, paths: &[Path]) -> Result<Ring<P>, RingError>
    requires few { length paths.now ≤ 64 }
    ensures ring { IfOk result (λ ring. all_added [] paths.now ≡ Some ring) }
    ensures twice { result ≡ Err Present → all_added [] paths.now ≡ None }
    ensures only { IfErr result (λ e. (e ≡ Present) ⊎ (e ≡ NoMemory)) }
{
    let mut ring = Ring::new(alloc);
    for path in paths {
        ring.add(path.clone().unwrap())?;
    }
    Ok(ring)
}

// The line for the record of a ring.
fn ring_record<P: SetSizes>(
    alloc: Global,
    master: &[u8],
    ring: &Ring<P>,
) -> Result<ByteString, LineError>
    requires { length master.now ≤ MAX_MASTER }
    ensures { (result ≡ Ok (spec_record_text P.scheme P.set_name master.now (Some ring.now)))
        ⊎ (result ≡ Err Memory) }
{
    let mut text = ByteString::new(alloc);
    push_hex_line(&mut text, b"record ", &ring.to_record(alloc, master)?)?;
    Ok(text)
}

// The line for the record of the ring of these paths, or for a path that is there twice.
fn record_text<P: SetSizes>(
    alloc: Global,
    master: &[u8],
    paths: &[Path],
) -> Result<ByteString, LineError>
    requires master { length master.now ≤ MAX_MASTER }
    requires few { length paths.now ≤ 64 }
    ensures { (result ≡ Ok (spec_record_text P.scheme P.set_name master.now
        (all_added [] paths.now))) ⊎ (result ≡ Err Memory) }
{
    match ring_of::<P>(alloc, paths) {
        Ok(ring) => ring_record(alloc, master, &ring),
        Err(RingError::Present) => Ok(ByteString::from_slice(alloc, b"error present\n")?),
        Err(RingError::Full) => unreachable!(),
        Err(RingError::Memory) => Err(LineError::Memory),
    }
}

/// The reply to a `record` line.
pub(crate) fn record_line<P: SetSizes>(
    alloc: Global,
    fields: &[&[u8]],
) -> Result<ByteString, LineError>
    ensures { (result ≡ record_line_answer P.scheme P.set_name (contents fields.now))
        ⊎ (result ≡ Err Memory) }
{
    if fields.len() < FIRST_PATH || fields.len() > MAX_FIELDS {
        return Err(LineError::Fields);
    }
    let paths = all_paths(alloc, &fields[FIRST_PATH..])?;
    let master = master_of(alloc, fields)?;
    record_text::<P>(alloc, master.as_slice(), &paths)
}
