//! All that a reader gives.
ghost use Rattle.std.specs.Prelude.{◌≡◌, IfOk, IfSome};

use slh_jobs::ByteString;
use std::alloc::Global;
use std::io::{self, Error, ErrorKind, Read, Write};

// The bytes that are read.
#[derive(Drop)]
struct Gathered {
    bytes: ByteString,
}

impl Write for Gathered {
    ghost use Rattle.std.specs.Prelude.{Some};

    ghost contents = { λ g. Some g.bytes };

    fn write(&mut self, piece: &[u8]) -> io::Result<usize> {
        match self.bytes.push_slice(piece) {
            Ok(()) => Ok(piece.len()),
            Err(_) => Err(Error::from(ErrorKind::OutOfMemory)),
        }
    }

    fn flush(&mut self) -> io::Result<()> {
        Ok(())
    }
}

/// All bytes of a reader, to its end. A fault is its own, or that memory is short.
pub fn gather<R: Read>(alloc: Global, reader: &mut R) -> io::Result<ByteString>
    ensures { IfOk result (λ bytes. IfSome (R.remaining reader.old) (λ all. bytes ≡ all)) }
{
    let mut gathered = Gathered {
        bytes: ByteString::new(alloc),
    };
    io::copy(reader, &mut gathered)?;
    Ok(gathered.bytes)
}
