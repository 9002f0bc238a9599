//! Lines of a note.
ghost use Rattle.std.specs.Prelude.{◌≡◌, ◌∷◌, ◌+◌, [], length, take, false, MatchOption, IfSome};
ghost use Rattle.line_serve.specs.Lines.{parts};
ghost use Rattle.slh_log.specs.Reading.{after_text, are_signatures as spec_are_signatures};
ghost use Rattle.slh_log.specs.Reading.{text_len};

use memchr::memchr;

/// What a line of a signature begins with: an em dash in UTF-8, and a space.
pub(crate) const DASH: &[u8] = b"\xe2\x80\x94 ";

/// The first line, and what follows its line feed. `None`: there is no line feed.
pub(crate) fn cut_line(bytes: &[u8]) -> Option<(&[u8], &[u8])>
    ensures cut { MatchOption result (parts bytes.now ≡ bytes.now ∷ [])
        (λ cut. parts bytes.now ≡ cut.0.now ∷ parts cut.1.now) }
    ensures shorter { IfSome result
        (λ cut. length cut.0.now + 1 + length cut.1.now ≡ length bytes.now) }
{
    match memchr(b'\n', bytes) {
        Some(at) => Some((&bytes[..at], &bytes[at + 1..])),
        None => None,
    }
}

/// The text before the first empty line, and what follows that line. `None`: no line is empty.
pub(crate) fn cut_text(bytes: &[u8]) -> Option<(&[u8], &[u8])>
    ensures cut { MatchOption result (spec_are_signatures (after_text (parts bytes.now)) ≡ false)
        (λ cut. after_text (parts bytes.now) ≡ parts cut.1.now) }
    ensures text { IfSome result (λ cut. cut.0.now ≡ take (text_len (parts bytes.now)) bytes.now) }
{
    let mut rest = bytes;
    'each_line: while let Some((line, later)) = cut_line(rest) {
        if line.is_empty() {
            return Some((&bytes[..bytes.len() - rest.len()], later));
        }
        rest = later;
    }
    None
}

/// Whether each line begins as one of a signature, and a line feed ends the last.
pub(crate) fn are_signatures(bytes: &[u8]) -> bool
    ensures { result ≡ spec_are_signatures (parts bytes.now) }
{
    let mut rest = bytes;
    'each_line: while let Some((line, later)) = cut_line(rest) {
        if !line.starts_with(DASH) {
            return false;
        }
        rest = later;
    }
    rest.is_empty()
}
