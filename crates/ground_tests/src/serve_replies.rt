//! What no clause of `line_serve` says: that answers come where there is memory, and what single
//! texts give.
ghost use Rattle.std.specs.Prelude.{◌<◌, ◌++◌, ◌∷◌, [], Some, unwrap_or, slice_get, replicate};
ghost use Rattle.std.specs.Option.{option_map};
ghost use Rattle.line_serve.specs.Fields.{fields};

use crate::shown::shows;
use line_serve::{
    ByteString, Failed, MemSink, MemSource, NullSink, QuietSource, Replier, Source, Words,
    all_fields, count_fields, field, field_at, hex_field, push_hex_line, push_number_line,
    read_some, serve_lines, serve_words, write_all,
};
use std::alloc::{AllocError, Global};

// The longest line that is answered, in bytes.
const LIMIT: usize = 4_194_304;

// Replies with the first field of the line, and with nothing where there is none.
struct First;

impl Replier for First {
    ghost reply_of = { λ _ line.
        unwrap_or (option_map (λ x. x ++ 10 ∷ []) (slice_get (fields line) 0)) [] };

    fn reply(&self, alloc: Global, line: &[u8], out: &mut ByteString) -> Result<(), AllocError> {
        let Some(first) = field(line, 0) else {
            return Ok(());
        };
        let mut text = ByteString::from_slice(alloc, first)?;
        text.push_slice(b"\n")?;
        out.push_slice(text.as_slice())
    }
}

// Replies to each line with so many zero bytes.
struct Zeros {
    count: usize,
}

impl Replier for Zeros {
    ghost reply_of = { λ r _. replicate r.count 0 };

    fn reply(&self, alloc: Global, _line: &[u8], out: &mut ByteString) -> Result<(), AllocError> {
        let text = ByteString::zeroed(alloc, self.count)?;
        out.push_slice(text.as_slice())
    }
}

// Gives one byte a read, and keeps the most that a read asked for.
#[derive(Drop)]
struct Slow {
    quiet: QuietSource,
    most: usize,
}

impl Source for Slow {
    ghost use Rattle.line_serve.specs.Memory.{quiet_left};

    ghost left = { λ s. Some (quiet_left s.quiet) };

    ghost faults = { λ _. 0 };

    fn read(&mut self, buf: &mut [u8]) -> Result<usize, Failed> {
        self.most = self.most.max(buf.len());
        let count = buf.len().min(1);
        self.quiet.read(&mut buf[..count])
    }
}

// Whether `First` answers this input by so many bytes, of which these are the last.
fn answers_by(alloc: Global, input: Vec<u8>, count: usize, end: &[u8]) -> bool {
    let mut source = MemSource::new(input, Vec::new(alloc));
    let mut sink = MemSink::new(alloc, Vec::new(alloc));
    serve_lines(alloc, &First, &mut source, &mut sink) == 0
        && sink.bytes().len() == count
        && sink.bytes().ends_with(end)
}

fn answers(alloc: Global, input: &[u8], output: &[u8]) -> bool {
    match input.to_vec(alloc) {
        Ok(input) => answers_by(alloc, input, output.len(), output),
        Err(_) => false,
    }
}

fn answers_into_nothing(alloc: Global) -> bool {
    match b"a\n".to_vec(alloc) {
        Ok(input) => serve_lines(alloc, &First, &mut QuietSource::new(input), &mut NullSink) == 0,
        Err(_) => false,
    }
}

#[test]
fn lines_are_answered_in_turn(rt: HostRuntime) {
    let alloc = rt.alloc();
    shows(
        &rt,
        answers(alloc, b"", b"")
            && answers(alloc, b"\n\r\n \n", b"")
            && answers(alloc, b"a b\nc", b"a\nc\n")
            && answers(alloc, b" a \r\n\rb\r\r\n", b"a\n\rb\r\n")
            && answers(alloc, b"a\n\nb\n", b"a\nb\n")
            && answers_into_nothing(alloc),
    );
}

// So many bytes `a`, and then these.
fn long_line(alloc: Global, length: usize, end: &[u8]) -> Result<Vec<u8>, AllocError> {
    let mut line = vec![in alloc; b'a'; length]?;
    line.extend_from_slice(end)?;
    Ok(line)
}

// Whether `First` answers a long line by so many bytes, of which these are the last.
fn answers_long(alloc: Global, length: usize, end: &[u8], count: usize, last: &[u8]) -> bool {
    match long_line(alloc, length, end) {
        Ok(input) => answers_by(alloc, input, count, last),
        Err(_) => false,
    }
}

#[test]
fn a_line_is_too_long_past_the_limit(rt: HostRuntime) {
    let alloc = rt.alloc();
    shows(
        &rt,
        answers_long(alloc, LIMIT + 1, b"\nb\n", 13, b"error line\nb\n")
            && answers_long(alloc, LIMIT, b"\r\nb\n", 13, b"error line\nb\n")
            && answers_long(alloc, LIMIT + 1, b"", 11, b"error line\n")
            && answers_long(alloc, LIMIT, b"\n", LIMIT + 1, b"a\n")
            && answers_long(alloc, LIMIT - 1, b"\r\n", LIMIT, b"a\n"),
    );
}

// A thousand lines of seven bytes are two pieces of at most 4096 bytes, and a third read finds the
// end.
fn thousand_lines(alloc: Global) -> Result<Vec<u8>, AllocError> {
    let mut input = Vec::new(alloc);
    for _ in 0..1000 {
        input.extend_from_slice(b"ab cd\r\n")?;
    }
    Ok(input)
}

// A number that no call has.
const NEVER: u64 = u64::MAX;

// Whether bytes are lines `ab`, of which the last may be cut.
fn are_replies(bytes: &[u8]) -> bool {
    let mut all = true;
    for i in 0..bytes.len() {
        all = all && bytes[i] == b"ab\n"[i % 3];
    }
    all
}

// Whether a run over a thousand lines of which this read and this write fail ends with this status,
// and has written so many bytes of the replies.
fn ends_by(
    alloc: Global,
    read: u64,
    write: u64,
    status: u8,
    length: usize,
) -> Result<bool, AllocError> {
    let mut source = MemSource::new(thousand_lines(alloc)?, vec![in alloc; read]?);
    let mut sink = MemSink::new(alloc, vec![in alloc; write]?);
    let ended = serve_lines(alloc, &First, &mut source, &mut sink);
    Ok(ended == status && sink.bytes().len() == length && are_replies(sink.bytes()))
}

const ENDS: [(u64, u64, u8, usize); 8] = [
    (NEVER, NEVER, 0, 3000),
    (0, NEVER, 3, 0),
    (1, NEVER, 3, 1755),
    (2, NEVER, 3, 3000),
    (3, NEVER, 0, 3000),
    (NEVER, 0, 4, 0),
    (NEVER, 1, 4, 1755),
    (NEVER, 2, 0, 3000),
];

fn ends_by_each(alloc: Global) -> bool {
    let mut all = true;
    for (read, write, status, length) in ENDS {
        all = ends_by(alloc, read, write, status, length) == Ok(true) && all;
    }
    all
}

#[test]
fn each_fault_in_turn(rt: HostRuntime) {
    shows(&rt, ends_by_each(rt.alloc()));
}

fn slow_source(alloc: Global, bytes: &[u8]) -> Result<Slow, AllocError> {
    Ok(Slow {
        quiet: QuietSource::new(bytes.to_vec(alloc)?),
        most: 0,
    })
}

fn runs_slowly(alloc: Global) -> bool {
    let Ok(mut source) = slow_source(alloc, b"ab c\r\n\nd\n  e f") else {
        return false;
    };
    let mut sink = MemSink::new(alloc, Vec::new(alloc));
    serve_lines(alloc, &First, &mut source, &mut sink) == 0
        && sink.bytes() == b"ab\nd\ne\n".as_slice()
        && source.most == 4096
}

#[test]
fn one_byte_a_read(rt: HostRuntime) {
    shows(&rt, runs_slowly(rt.alloc()));
}

// Whether a read of at most `most` bytes asks for so many.
fn asks_for(alloc: Global, most: u64, asked: usize) -> bool
    requires { 0 < most }
{
    match slow_source(alloc, b"a") {
        Ok(mut source) => {
            read_some(&mut source, &mut [0; 4096], most) == Ok(1) && source.most == asked
        }
        Err(_) => false,
    }
}

// The last read before the limit asks for what is left up to it.
#[test]
fn no_read_asks_for_more_than_is_left(rt: HostRuntime) {
    let alloc = rt.alloc();
    shows(
        &rt,
        asks_for(alloc, 5, 5)
            && asks_for(alloc, 4095, 4095)
            && asks_for(alloc, 4096, 4096)
            && asks_for(alloc, 1 << 40, 4096),
    );
}

fn is_cause(sink: &MemSink, status: u8) -> bool {
    match sink.refused() {
        0 => status == 0 && sink.bytes() == b"a\nc\n".as_slice() || status == 6,
        _ => status == 4 && sink.bytes().is_empty(),
    }
}

fn takes_more(sink: &mut MemSink) -> bool {
    let before = sink.bytes().len();
    write_all(sink, b"more").is_ok() && sink.bytes().len() == before + 4
}

// Whether a run over a sink in memory ends with 4 where the sink found no memory, with 6 where
// something else found none, and with 0 where all had enough, and whether its ends go on
// afterwards.
fn ends_by_its_cause(alloc: Global) -> Result<bool, AllocError> {
    let mut source = QuietSource::new(b"a b\nc\n".to_vec(alloc)?);
    let mut sink = MemSink::new(alloc, Vec::new(alloc));
    let status = serve_lines(alloc, &First, &mut source, &mut sink);
    Ok(is_cause(&sink, status) && takes_more(&mut sink))
}

// Run with each allocation failing in turn, too (`rt try --test --fail-alloc`).
#[test]
fn memory_that_a_sink_was_refused_is_its_fault(rt: HostRuntime) {
    shows(&rt, ends_by_its_cause(rt.alloc()).unwrap_or(true));
}

// Whether a whole program of lines ends with this status and text.
fn serves(alloc: Global, words: &Words, status: u8, text: &[u8]) -> bool {
    let Ok(input) = b"a b\nc".to_vec(alloc) else {
        return false;
    };
    let mut source = QuietSource::new(input);
    let mut sink = MemSink::new(alloc, Vec::new(alloc));
    serve_words(alloc, &First, b"usage: x\n", words, &mut source, &mut sink) == status
        && sink.bytes() == text
}

fn refuses(alloc: Global, word: &[u8]) -> bool {
    let mut words = Words::new(alloc);
    words.push(word).is_ok() && serves(alloc, &words, 2, b"usage: x\n")
}

#[test]
fn a_program_of_lines_takes_no_words(rt: HostRuntime) {
    let alloc = rt.alloc();
    shows(&rt, serves(alloc, &Words::new(alloc), 0, b"a\nc\n"));
    shows(&rt, refuses(alloc, b"help") && refuses(alloc, b""));
}

// Long replies to 200 lines of one piece don't all wait for its end: the second write fails
// here.
fn writes_early(alloc: Global) -> Result<bool, AllocError> {
    let mut source = QuietSource::new(vec![in alloc; b'\n'; 200]?);
    let mut sink = MemSink::new(alloc, vec![in alloc; 1]?);
    let status = serve_lines(alloc, &Zeros { count: 1000 }, &mut source, &mut sink);
    Ok(status == 4 && sink.bytes().len() == 66_000 && sink.refused() == 0)
}

#[test]
fn long_replies_are_written_early(rt: HostRuntime) {
    shows(&rt, writes_early(rt.alloc()) == Ok(true));
}

fn is_end_put(alloc: Global, text: &mut ByteString) -> bool {
    match ByteString::from_slice(alloc, b"end\n") {
        Ok(end) => text.append(end).is_ok(),
        Err(_) => false,
    }
}

fn are_lines_put(alloc: Global) -> bool {
    let mut text = ByteString::new(alloc);
    push_number_line(&mut text, b"differs ", 0).is_ok()
        && push_number_line(&mut text, b"", u64::MAX).is_ok()
        && push_hex_line(&mut text, b"record ", b"\x00\xff\xab").is_ok()
        && is_end_put(alloc, &mut text)
        && text.as_slice() == b"differs 0\n18446744073709551615\nrecord 00ffab\nend\n".as_slice()
}

// Whether these are the bytes of the second of the fields in hexadecimal.
fn is_second_field(alloc: Global, line: &[u8], wanted: &[u8]) -> bool {
    let Ok(fields) = all_fields(alloc, line) else {
        return false;
    };
    let mut bytes = ByteString::new(alloc);
    hex_field(alloc, field_at(&fields, 1), &mut bytes).is_ok() && bytes.as_slice() == wanted
}

#[test]
fn numbers_and_bytes_as_text(rt: HostRuntime) {
    let alloc = rt.alloc();
    let bytes = b"\x00\xff\xab";
    shows(
        &rt,
        are_lines_put(alloc) && is_second_field(alloc, b"record 00fFAb\r", bytes),
    );
}

struct Pairs;

impl Replier for Pairs {
    ghost use Rattle.std.specs.Prelude.{◌==◌, if◌then◌else◌, codes, length};
    ghost use Rattle.line_serve.specs.Fields.{fields};

    ghost reply_of = { λ _ line.
        if length (fields line) == 2 then codes "pair\n" else codes "other\n" };

    fn reply(&self, _: Global, line: &[u8], out: &mut ByteString) -> Result<(), AllocError> {
        if count_fields(line) == 2 {
            return out.push_slice(b"pair\n");
        }
        out.push_slice(b"other\n")
    }
}

fn replies(alloc: Global, input: &[u8]) -> Result<(u8, Vec<u8>), AllocError> {
    let mut source = QuietSource::new(input.to_vec(alloc)?);
    let mut sink = MemSink::new(alloc, Vec::new(alloc));
    let status = serve_lines(alloc, &Pairs, &mut source, &mut sink);
    Ok((status, sink.bytes().to_vec(alloc)?))
}

fn is_reply_of_pairs(alloc: Global, input: &[u8], text: &[u8]) -> bool {
    match replies(alloc, input) {
        Ok((status, written)) => status == 0 && written.as_slice() == text,
        Err(_) => false,
    }
}

#[test]
fn example_of_the_page(rt: HostRuntime) {
    let text = b"pair\nother\nother\npair\n";
    shows(
        &rt,
        is_reply_of_pairs(rt.alloc(), b"a b\n\nc d e\r\n f  g\r", text),
    );
}
