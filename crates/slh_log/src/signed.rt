//! Lines of signatures.
ghost use Rattle.std.specs.Prelude.{◌≡◌, length, true, false, MatchOption};
ghost use Rattle.line_serve.specs.Lines.{parts};
ghost use Rattle.slh_log.specs.Reading.{own_signature, signature_in};

use crate::decoding::decode_into;
use crate::lines::{DASH, cut_line};
use crate::origin::ID_LEN;

// Fills `out` with the id and the signature of a line. `false`: it isn't one of the key.
fn take_line(line: &[u8], name: &[u8], id: &[u8; ID_LEN], out: &mut [u8]) -> bool
    ensures { MatchOption (signature_in (length out.old) name.now id.now line.now)
        (result ≡ false) (λ bytes. (result ≡ true) × (out.new ≡ bytes)) }
{
    let Some(rest) = line.strip_prefix(DASH) else {
        return false;
    };
    let Some(rest) = rest.strip_prefix(name) else {
        return false;
    };
    let Some(symbols) = rest.strip_prefix(b" ") else {
        return false;
    };
    decode_into(symbols, out) && out.starts_with(id)
}

/// Fills `out` with the id and the signature of the first line that is one of the key with a name
/// and an id. `false`: there is none.
pub(crate) fn find_signature(bytes: &[u8], name: &[u8], id: &[u8; ID_LEN], out: &mut [u8]) -> bool
    ensures { MatchOption (own_signature (length out.old) name.now id.now (parts bytes.now))
        (result ≡ false) (λ bytes. (result ≡ true) × (out.new ≡ bytes)) }
{
    let mut rest = bytes;
    'each_line: while let Some((line, later)) = cut_line(rest) {
        if take_line(line, name, id, out) {
            return true;
        }
        rest = later;
    }
    false
}
