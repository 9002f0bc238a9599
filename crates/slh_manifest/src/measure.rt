//! How many bytes a name has in a store, and their SHA-256.
ghost use Rattle.std.specs.Prelude.{◌≡◌, ◌≤◌, ◌<◌, ◌+◌, ◌^◌, length, IfSome, IfOk};
ghost use Rattle.hmac_sha256.specs.Hash.{absorbed_bytes};
ghost use Rattle.line_serve.specs.Causes.{HasCause};
ghost use Rattle.slh_manifest.specs.Files.{Reads, ReadsWithin, bytes_of};
ghost use Rattle.slh_manifest.specs.Measuring.{Absorbs, AbsorbsWithin, FitsWithin, found_within};

use crate::store::Store;
use hmac_sha256::Hash;
use line_serve::Failed;

// How many bytes are read at once, at most.
const BUFFER: u64 = 4096;

/// What stands under a name.
#[derive(Clone, Copy)]
pub(crate) enum Found {
    /// There is no such name.
    Missing,
    /// It has more bytes than were asked for.
    Longer,
    /// It has so many bytes, with this SHA-256.
    Whole { len: u64, digest: [u8; 32] },
}

// Reads from the place on into the buffer, and absorbs what was read.
fn absorb_next<T: Store>(
    store: &mut T,
    name: &[u8],
    at: u64,
    buf: &mut [u8],
    hash: &mut Hash,
) -> Result<Option<usize>, Failed>
    requires room { absorbed_bytes hash.old + length buf.old < 2 ^ 60 }
    ensures bound { ReadsWithin result buf.new }
    ensures counts { AbsorbsWithin (absorbed_bytes hash.old) (absorbed_bytes hash.new) result }
    ensures bytes { IfSome (T.files store.old) (λ files. IfOk result
        (Absorbs (bytes_of files name.now) at (length buf.old) hash.old hash.new)) }
    ensures kept { T.files store.new ≡ T.files store.old }
    ensures cause { HasCause (T.faults store.old) (T.faults store.new) result }
{
    let answer = store.read(name, at, buf)?;
    if let Some(count) = answer {
        hash.update(&buf[..count]);
    }
    Ok(answer)
}

/// Reads what stands under a name, up to one byte more than `limit`.
pub(crate) fn measure<T: Store>(store: &mut T, name: &[u8], limit: u64) -> Result<Found, Failed>
    requires limit { limit ≤ 2 ^ 32 }
    ensures value { IfSome (T.files store.old) (λ files. IfOk result
        (λ found. found ≡ found_within limit (bytes_of files name.now))) }
    ensures fits { IfOk result (FitsWithin limit) }
    ensures kept { T.files store.new ≡ T.files store.old }
    ensures cause { HasCause (T.faults store.old) (T.faults store.new) result }
{
    let mut hash = Hash::new();
    let mut buf = [0u8; BUFFER as usize];
    let mut at = 0u64;
    while at <= limit {
        let room = (limit + 1 - at).min(BUFFER) as usize;
        match absorb_next(store, name, at, &mut buf[..room], &mut hash)? {
            None => return Ok(Found::Missing),
            Some(0) => {
                return Ok(Found::Whole {
                    len: at,
                    digest: hash.finalize(),
                });
            }
            Some(count) => at += count as u64,
        }
    }
    Ok(Found::Longer)
}
