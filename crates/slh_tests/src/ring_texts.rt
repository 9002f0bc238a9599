//! Paths of a ring as text.
use crate::shown::shows_at;
use line_serve::ByteString;
use slh_ring::Path;
use std::alloc::Global;

const TEXTS: &str = "\
.
0
2/2026
10/0/100
4294967295
4294967295/4294967295/4294967295/4294967295/4294967295/4294967295/4294967295/4294967295";

// Whether the path of a text has this text. Where there was no memory nothing was put, and the call
// is made again.
fn is_put(alloc: Global, text: &[u8]) -> Option<bool> {
    let path = Path::from_text(text)?;
    let mut put = ByteString::new(alloc);
    if path.push_to(&mut put).is_err() {
        if !put.is_empty() {
            return Some(false);
        }
        path.push_to(&mut put).ok()?;
    }
    Some(put.as_slice() == text)
}

// Run with each allocation failing in turn, too (`rt try --test --fail-alloc`).
#[test]
fn paths_are_put_as_they_are_read(rt: HostRuntime) {
    for text in TEXTS.lines() {
        shows_at(&rt, text, is_put(rt.alloc(), text.as_bytes()) == Some(true));
    }
}
