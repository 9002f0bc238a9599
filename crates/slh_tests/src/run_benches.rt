//! The words of a bench, against the reports that the Rust crate gives for them, and words that are
//! none. In a text a bar stands between words.
use crate::shown::shows_at;
use slh_run::{MemSink, QuietSource, Words, serve};
use std::alloc::{AllocError, Global};

const USAGE: &str = "usage: slh_cli [bench SET NUMBER COUNT]\n";

// The words of a text, between which bars stand.
fn words_of(alloc: Global, text: &str) -> Result<Words, AllocError> {
    let mut words = Words::new(alloc);
    for word in text.split('|') {
        words.push(word.as_bytes())?;
    }
    Ok(words)
}

// Whether these words get this status, and this is written.
fn tells(alloc: Global, text: &str, status: u8, written: &str) -> bool {
    let Ok(words) = words_of(alloc, text) else {
        return false;
    };
    let mut source = QuietSource::new(Vec::new(alloc));
    let mut sink = MemSink::new(alloc, Vec::new(alloc));
    serve(alloc, &words, &mut source, &mut sink) == status && sink.bytes() == written.as_bytes()
}

const REPORTS: [(&str, &str); 3] = [
    (
        "bench|SLH-DSA-SHA2-128f|7|2",
        "bench SLH-DSA-SHA2-128f 7 2\ndigest b5a0e7f4d657919e66685123cdde280bb116177a668247d5ef17734c605c9631\nsigned 2 accepted 2\n",
    ),
    (
        "bench|SLH-DSA-SHA2-128f|00000000000000000007|01",
        "bench SLH-DSA-SHA2-128f 7 1\ndigest d624a31d9b4c9540f168865743df7f40a5b36aeeaecb9b10e6ab4f784dbecf53\nsigned 1 accepted 1\n",
    ),
    (
        "bench|SLH-DSA-SHA2-128f|18446744073709551615|1",
        "bench SLH-DSA-SHA2-128f 18446744073709551615 1\ndigest 0c2ad28d9f97265a88949f0eac490e4b4dc9a2f7f443620684b88c802d153040\nsigned 1 accepted 1\n",
    ),
];

#[test]
fn reports_are_those_of_the_rust_crate(rt: HostRuntime) {
    for (words, report) in &REPORTS {
        shows_at(&rt, words, tells(rt.alloc(), words, 0, report));
    }
}

const OTHER_WORDS: &str = "\
help

bench
bench|SLH-DSA-SHA2-128f
bench|SLH-DSA-SHA2-128f|7
bench|SLH-DSA-SHA2-128f|7|1|1
bench|SLH-DSA-SHA2-128f|7|1|
bench|SLH-DSA-SHA2-128F|7|1
bench||7|1
Bench|SLH-DSA-SHA2-128f|7|1
|SLH-DSA-SHA2-128f|7|1
SLH-DSA-SHA2-128f|bench|7|1
bench|SLH-DSA-SHA2-128f|18446744073709551616|1
bench|SLH-DSA-SHA2-128f|99999999999999999999|1
bench|SLH-DSA-SHA2-128f|000000000000000000007|1
bench|SLH-DSA-SHA2-128f||1
bench|SLH-DSA-SHA2-128f|-|1
bench|SLH-DSA-SHA2-128f|+7|1
bench|SLH-DSA-SHA2-128f|7 |1
bench|SLH-DSA-SHA2-128f|7|
bench|SLH-DSA-SHA2-128f|7|0
bench|SLH-DSA-SHA2-128f|7|00
bench|SLH-DSA-SHA2-128f|7|65
bench|SLH-DSA-SHA2-128f|7|99
bench|SLH-DSA-SHA2-128f|7|001
bench|SLH-DSA-SHA2-128f|7|-1
bench|SLH-DSA-SHA2-128f|7|1a
";

#[test]
fn other_words_get_the_usage(rt: HostRuntime) {
    for words in OTHER_WORDS.lines() {
        shows_at(&rt, words, tells(rt.alloc(), words, 2, USAGE));
    }
}
