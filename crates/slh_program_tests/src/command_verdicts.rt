//! Verdicts of `slh_bytes` in JSON, by the text that RFC 8259 has for them.
use crate::shown::shows;
use slh_bytes::{Detail, verdict_json};
use std::alloc::Global;

fn is_told(alloc: Global, word: &str, detail: Detail<'_>, line: &str) -> bool {
    match verdict_json(alloc, word, detail) {
        Ok(told) => told.as_slice() == line.as_bytes(),
        Err(_) => false,
    }
}

fn are_told(alloc: Global) -> bool {
    is_told(
        alloc,
        "not shown",
        Detail::Nothing,
        "{\"verdict\":\"not shown\"}\n",
    ) && is_told(
        alloc,
        "accepted",
        Detail::Place(4294967295, 1048576),
        "{\"verdict\":\"accepted\",\"index\":4294967295,\"count\":1048576}\n",
    ) && is_told(
        alloc,
        "foreign",
        Detail::Evidence(b"early 0 1"),
        "{\"verdict\":\"foreign\",\"evidence\":\"early 0 1\"}\n",
    ) && is_told(
        alloc,
        "missing",
        Detail::Name("\"\\/\u{0}\n\u{1f}\u{7f} ä"),
        "{\"verdict\":\"missing\",\"name\":\"\\\"\\\\/\\u0000\\u000a\\u001f\\u007f ä\"}\n",
    ) && is_told(
        alloc,
        "missing",
        Detail::OtherName(b"a\xff"),
        "{\"verdict\":\"missing\",\"name_hex\":\"61ff\"}\n",
    )
}

#[test]
fn verdicts_are_words_with_what_they_have_besides(rt: HostRuntime) {
    shows(&rt, are_told(rt.alloc()));
}
