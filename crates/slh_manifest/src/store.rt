//! Where bytes stand under names.
ghost use Rattle.std.specs.Prelude.{◌≡◌, ◌≤◌, Option, Some, ℕ, length};
ghost use Rattle.line_serve.specs.Causes.{HasCause};
ghost use Rattle.slh_manifest.specs.Files.{Files, Reads, ReadsFrom, ReadsWithin};
ghost use Rattle.slh_manifest.specs.Files.{read_count};

use line_serve::Failed;

/// Bytes under names. A store counts its faults, so that a caller can tell a fault of its store
/// from other causes.
pub trait Store {
    /// The names that are there with their bytes, where the store tells them.
    ghost files: { Self → Option Files };

    /// How many reads failed, up to 2^64 - 1.
    ghost faults: { Self → ℕ };

    /// Puts bytes of a name, from the place `at` on, at the front of `buf`, and says how many, or
    /// `None` where there is no such name. No bytes at all are the end, if `buf` has room for one.
    fn read(&mut self, name: &[u8], at: u64, buf: &mut [u8]) -> Result<Option<usize>, Failed>
        ensures bound { ReadsWithin result buf.new }
        ensures bytes { Reads (files self.old) name.now at result buf.new }
        ensures kept { files self.new ≡ files self.old }
        ensures cause { HasCause (faults self.old) (faults self.new) result };
}

/// Copies the bytes from a place on, as many as fit, and says how many: what [`Store::read`] answers
/// for a name that has these bytes.
pub fn copy_from(bytes: &[u8], at: u64, buf: &mut [u8]) -> usize
    ensures bound { result ≤ length buf.new }
    ensures count { result ≡ read_count at (length buf.new) bytes.now }
    ensures reads { ReadsFrom (Some bytes.now) at (Some result) buf.new }
{
    if at >= bytes.len() as u64 {
        return 0;
    }
    let rest = &bytes[at as usize..];
    let count = rest.len().min(buf.len());
    buf[..count].copy_from_slice(&rest[..count]);
    count
}
