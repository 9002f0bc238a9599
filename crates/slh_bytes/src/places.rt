//! Where a mark stands in a text.
ghost use Rattle.std.specs.Prelude.{◌≡◌, ◌+◌, ◌≤◌, None, Some, IfSome, MatchOption, length};
ghost use Rattle.slh_bytes.specs.Places.{cut_at, first_place};

/// The first place of a mark.
pub fn place_of(text: &[u8], mark: &[u8]) -> Option<usize>
    ensures value { result ≡ first_place mark.now text.now }
    ensures within { IfSome result (λ at. at + length mark.now ≤ length text.now) }
{
    for at in 0..text.len() {
        if text[at..].starts_with(mark) {
            return Some(at);
        }
    }
    None
}

/// What stands before the first place of a mark, and what stands behind it.
pub(crate) fn cut<'a>(text: &'a [u8], mark: &[u8]) -> Option<(&'a [u8], &'a [u8])>
    ensures { MatchOption result (cut_at mark.now text.now ≡ None)
        (λ parts. cut_at mark.now text.now ≡ Some (parts.0.now, parts.1.now)) }
{
    let at = place_of(text, mark)?;
    Some((&text[..at], &text[at + mark.len()..]))
}
