//! `slh chain`: keys that sign keys.
use clap::ArgMatches;
use slh_arguments::bytes::chain::{ChainError, LinkError};
use slh_arguments::bytes::{
    ByteString, Detail, Key, Kind, LinkText, Outcome, Set, WalkError, digits_of, last_key,
    links_of, new_link, push_hex, push_number, shown,
};
use slh_arguments::host::{Failure, files, outputs};
use slh_arguments::{
    Randomness, WordError, check_inputs, check_output, context, key_of_kind, names, report,
    required, signing_key, tell_verdict, verifying_file, verifying_key,
};
use std::alloc::{AllocError, Global};

// What is wrong with a chain, whose links have numbers from 0, or with a link that is to be made.
#[derive(Clone, Copy, Debug, thiserror::Error)]
enum Refusal {
    #[error("an empty file, not a chain")]
    Empty,
    #[error("a key of another set than the one that delegates")]
    OtherSet,
    #[error("it has 1 to 64 bytes")]
    Name,
    #[error("it is 0 to 15")]
    Depth,
    #[error("a wrong randomizer")]
    Randomizer,
    #[error("link {0}: cut short, or no link")]
    NoLink(u32),
    #[error("link {0}: deeper than the one before lets it be")]
    TooDeep(u32),
    #[error("link {0}: not signed by the key before it")]
    NotByKeyBefore(u32),
}

// The bytes of a chain, which may be written in hexadecimal: a link ends with a signature, which is
// never all digits and blanks, but by chance.
fn chain<'a>(rt: &HostRuntime, path: &'a str) -> Result<ByteString, Failure<'a>> {
    let file = files::read_limited(rt, path)?;
    let links = match digits_of(rt.alloc(), file.as_slice())? {
        Some(bytes) => bytes,
        None => file,
    };
    if links.is_empty() {
        return Err(Failure::told(path, Refusal::Empty));
    }
    Ok(links)
}

/// Lets another key act: writes the chain, if there is one, and the link behind it.
pub fn delegate<'a>(rt: &HostRuntime, words: &ArgMatches<'a>) -> Result<Outcome, Failure<'a>> {
    check_inputs(words, &[])?;
    let output = required(words, names::OUTPUT)?;
    let inputs = [names::KEY, names::PASSPHRASE_FILE, names::SUBJECT];
    check_output(rt, words, &inputs, output)?;
    let links = delegated(rt, words)?;
    outputs::put(rt, output, links.as_slice())?;
    Ok(Outcome::Done)
}

// The chain with the new link.
fn delegated<'a>(rt: &HostRuntime, words: &ArgMatches<'a>) -> Result<ByteString, Failure<'a>> {
    let Some(depth) = words.get_one::<u8>(names::DEPTH) else {
        return Err(Failure::option(names::DEPTH, WordError::Missing));
    };
    let key = signing_key(rt, words)?;
    let subject = subject_of(rt, words, key.set)?;
    let links = old_chain(rt, words)?;
    let randomness = Randomness::new(rt, words)?;
    let link = link_of(rt, words, depth, &key, &subject, randomness.of_set(key.set))?;
    with_link(links, &link)
}

fn with_link(mut links: ByteString, link: &[u8]) -> Result<ByteString, Failure<'static>> {
    links.push_slice(link)?;
    Ok(links)
}

// The key of `--subject`, which is of the set of the key that delegates.
fn subject_of<'a>(rt: &HostRuntime, words: &ArgMatches<'a>, set: Set) -> Result<Key, Failure<'a>> {
    let path = required(words, names::SUBJECT)?;
    let subject = key_of_kind(rt, Kind::Verifying, path)?;
    if subject.set != set {
        return Err(Failure::told(path, Refusal::OtherSet));
    }
    Ok(subject)
}

// The chain that there is.
fn old_chain<'a>(rt: &HostRuntime, words: &ArgMatches<'a>) -> Result<ByteString, Failure<'a>> {
    match words.get_str(names::CHAIN) {
        Some(path) => chain(rt, path),
        None => Ok(ByteString::new(rt.alloc())),
    }
}

// The link by which a key lets the subject act.
fn link_of(
    rt: &HostRuntime,
    words: &ArgMatches<'_>,
    depth: u8,
    key: &Key,
    subject: &Key,
    random: Option<&[u8]>,
) -> Result<Vec<u8>, Failure<'static>> {
    let name = required(words, names::NAME)?.as_bytes();
    let (bytes, other) = (key.bytes.as_slice(), subject.bytes.as_slice());
    match new_link(rt.alloc(), key.set, bytes, name, depth, other, random) {
        Ok(link) => Ok(link),
        Err(LinkError::Name) => Err(Failure::option(names::NAME, Refusal::Name)),
        Err(LinkError::Depth) => Err(Failure::option(names::DEPTH, Refusal::Depth)),
        Err(LinkError::Randomizer) => Err(Failure::option(names::KEY, Refusal::Randomizer)),
        Err(LinkError::Memory) => Err(Failure::Memory),
    }
}

// A chain, and the key that it begins with.
#[derive(Drop)]
struct Rooted<'a> {
    path: &'a str,
    root: Key,
    links: ByteString,
}

impl<'a> Rooted<'a> {
    // The chain of `--chain` under the key of `--key`.
    fn open(rt: &HostRuntime, words: &ArgMatches<'a>) -> Result<Self, Failure<'a>> {
        let root = verifying_key(rt, words)?;
        let path = required(words, names::CHAIN)?;
        Ok(Rooted {
            path,
            root,
            links: chain(rt, path)?,
        })
    }

    // The key at its end.
    fn end(&self, alloc: Global) -> Result<Key, WalkError> {
        let (set, root) = (self.root.set, self.root.bytes.as_slice());
        let bytes = last_key(alloc, set, root, self.links.as_slice())?;
        Ok(Key { set, bytes })
    }

    // Why it tells nothing.
    fn failure(&self, error: WalkError) -> Failure<'a> {
        match error {
            WalkError::Link(error) => Failure::told(self.path, refusal_of(error)),
            WalkError::Memory => Failure::Memory,
        }
    }
}

fn refusal_of(error: ChainError) -> Refusal {
    match error {
        ChainError::Form(i) => Refusal::NoLink(i),
        ChainError::Budget(i) => Refusal::TooDeep(i),
        ChainError::Invalid(i) => Refusal::NotByKeyBefore(i),
    }
}

/// Writes the key at the end of a chain.
pub fn walk<'a>(rt: &HostRuntime, words: &ArgMatches<'a>) -> Result<Outcome, Failure<'a>> {
    check_inputs(words, &[])?;
    let output = words.get_str(names::OUTPUT).unwrap_or(files::STANDARD);
    check_output(rt, words, &[names::KEY, names::CHAIN], output)?;
    let chain = Rooted::open(rt, words)?;
    let key = match chain.end(rt.alloc()) {
        Ok(key) => key,
        Err(error) => return Err(chain.failure(error)),
    };
    let file = verifying_file(rt, &key, chain.path)?;
    outputs::put_verifying_key(rt, output, file.as_slice())?;
    Ok(Outcome::Done)
}

// The links of a chain, a line for each.
fn links_text(alloc: Global, links: &[LinkText<'_>]) -> Result<ByteString, AllocError> {
    let mut text = ByteString::new(alloc);
    for link in links {
        push_link(alloc, &mut text, link)?;
    }
    Ok(text)
}

// Puts a line for a link at the end: its depth, its key and its name.
fn push_link(alloc: Global, text: &mut ByteString, link: &LinkText<'_>) -> Result<(), AllocError> {
    push_number(text, u64::from(link.depth))?;
    text.push_slice(b" ")?;
    push_hex(text, &link.subject)?;
    text.push_slice(b" ")?;
    text.push_slice(shown(alloc, link.name)?.as_bytes())?;
    text.push_slice(b"\n")
}

/// Writes a line for each link of a chain.
pub fn show<'a>(rt: &HostRuntime, words: &ArgMatches<'a>) -> Result<Outcome, Failure<'a>> {
    check_inputs(words, &[])?;
    let chain = Rooted::open(rt, words)?;
    let (set, root) = (chain.root.set, chain.root.bytes.as_slice());
    let links = match links_of(rt.alloc(), set, root, chain.links.as_slice()) {
        Ok(links) => links,
        Err(error) => return Err(chain.failure(error)),
    };
    let text = links_text(rt.alloc(), &links)?;
    outputs::put(rt, files::STANDARD, text.as_slice())?;
    Ok(Outcome::Done)
}

/// The key at the end of `--chain`, or that of `--key` where there is no chain. Where a link isn't
/// good there is none, and which link that is goes to standard error.
pub fn acting_key<'a>(
    rt: &HostRuntime,
    words: &ArgMatches<'a>,
) -> Result<Option<Key>, Failure<'a>> {
    if words.get_str(names::CHAIN).is_none() {
        return Ok(Some(verifying_key(rt, words)?));
    }
    let chain = Rooted::open(rt, words)?;
    match chain.end(rt.alloc()) {
        Ok(key) => Ok(Some(key)),
        Err(WalkError::Link(error)) => {
            let failure = chain.failure(WalkError::Link(error));
            let _ = eprintln!(rt; "slh: {failure}");
            Ok(None)
        }
        Err(WalkError::Memory) => Err(Failure::Memory),
    }
}

/// Tells whether a signature of a file is one of the key at the end of a chain.
pub fn verify<'a>(rt: &HostRuntime, words: &ArgMatches<'a>) -> Result<Outcome, Failure<'a>> {
    check_inputs(words, &[])?;
    let context = context(rt, words)?;
    match acting_key(rt, words)? {
        Some(key) => {
            let file = required(words, names::FILE)?;
            tell_verdict(rt, words, &key, context.as_slice(), file)
        }
        None => report(rt, words, Outcome::Invalid, Detail::Nothing),
    }
}
