//! The bytes of an input, to its end, in pieces.
ghost use Rattle.std.specs.Prelude.{◌≡◌, ◌<◌, ℕ, length, take, IfErr, IfOk, IsTrue};
ghost use Rattle.std.specs.Io.{ReadsAtMost};
ghost use Rattle.std.specs.Io.KnownBytes.{Consumes, IsAtEnd};
ghost use Rattle.slh_bytes.specs.Absorbing.{Absorbs, AbsorbsAll};

use crate::absorber::Absorber;
use crate::input::Input;
use crate::read_error::ReadError;
use slh_jobs::Error;
use std::io::{self, ErrorKind};

// The most bytes that are read at once.
const PIECE: usize = 1 << 16;

// One read, tried again where a signal interrupts it.
fn read_some<R: Input>(reader: &mut R, buf: &mut [u8]) -> io::Result<usize>
    ensures bound { ReadsAtMost result buf.new }
    ensures bytes { IfOk result
        (λ n. Consumes (R.remaining reader.old) (R.remaining reader.new) (take n buf.new)) }
    ensures end { IfOk result
        (λ n. n ≡ 0 → 0 < length buf.old → IsAtEnd (R.remaining reader.new)) }
    ensures fault { IfErr result (λ _. IsTrue R.may_fail) }
{
    for _ in 0..u64::MAX {
        match reader.read(buf) {
            Err(error) if error.kind() == ErrorKind::Interrupted => (),
            read => return read,
        }
    }
    reader.read(buf)
}

// Reads a piece, and hands it on. How many bytes it has: none at the end.
fn absorb_some<R: Input, T: Absorber>(
    reader: &mut R,
    absorber: &mut T,
    buf: &mut [u8],
) -> Result<usize, ReadError>
    requires { 0 < length buf.old }
    ensures { Absorbs T.stands absorber.old absorber.new (IsTrue R.may_fail)
        (R.remaining reader.old) (R.remaining reader.new) result }
{
    let count = read_some(reader, buf)?;
    absorber.absorb(&buf[..count])?;
    Ok(count)
}

/// Hands on all that an input gives, to its end.
#[tactic(auto, unfolding(crate::specs::Absorbing::AbsorbsAll))]
pub(crate) fn absorb_all<R: Input + Drop, T: Absorber>(
    mut reader: R,
    absorber: &mut T,
) -> Result<(), ReadError>
    ensures { AbsorbsAll T.stands absorber.old absorber.new (IsTrue R.may_fail)
        (R.remaining reader) result }
{
    let mut buf = [0u8; PIECE];
    'each_piece: for _pieces in 0..u64::MAX {
        if absorb_some(&mut reader, absorber, &mut buf)? == 0 {
            return Ok(());
        }
    }
    // (each piece has a byte, and no message has so many)
    Err(ReadError::Refused(Error::MessageTooLong))
}
