//! `slh batch`: one signature for many files, and a receipt for each.
use clap::ArgMatches;
use slh_arguments::bytes::batch::{Batch, BatchError, Place, ReceiptError};
use slh_arguments::bytes::{
    ByteString, Detail, Key, Outcome, Receipts, SealError, UnderHeadError, accept_receipt,
    accept_receipt_under_head, seal_batch,
};
use slh_arguments::host::files::{self, FileId};
use slh_arguments::host::{Failure, Progress, outputs};
use slh_arguments::{
    RECEIPT_END, Randomness, check_inputs, check_output, names, receipt_name, report, required,
    required_all, signing_key, verifying_key,
};
use std::alloc::AllocError;

// What is wrong with the files of a batch, its head or a receipt.
#[derive(Clone, Copy, Debug, thiserror::Error)]
enum Refusal {
    #[error("it has a receipt and no file for it")]
    NoReceiptFile,
    #[error("it has more than 2^60 bytes")]
    MessageTooLong,
    #[error("a batch holds 2^20 files")]
    Full,
    #[error("it has no files")]
    Empty,
    #[error("it has no such file")]
    NoSuchFile,
    #[error("the randomizer has a wrong length")]
    Randomizer,
    #[error("a file of a batch has a name, for its receipt")]
    NeedsName,
    #[error("no regular file, and nothing is written beside it")]
    NowhereBeside,
    #[error("it stands twice")]
    Twice,
    #[error("its receipt would be written over a file")]
    ReceiptOverFile,
    #[error("it is one of the files, or the receipt of one")]
    HeadOverFile,
    #[error("not a head of the key's set")]
    NotHead,
    #[error("not a receipt of the key's set")]
    NotReceipt,
}

// The head of a batch of files, which goes where the words say, if they do, and the receipts, each
// of which goes beside its file.
#[derive(Drop)]
struct Beside<'s, 'a> {
    rt: &'s HostRuntime,
    head: Option<&'a str>,
    paths: &'s [&'a str],
    // how many receipts were written
    count: usize,
}

impl<'s, 'a> Receipts for Beside<'s, 'a> {
    ghost use Rattle.std.specs.Prelude.{None};

    type Error = Failure<'a>;

    ghost taken = { λ _. None };

    fn take_head(&mut self, head: &[u8]) -> Result<(), Failure<'a>> {
        match self.head {
            Some(path) => outputs::put(self.rt, path, head),
            None => Ok(()),
        }
    }

    fn take(&mut self, receipt: &[u8]) -> Result<(), Failure<'a>> {
        let Some(path) = self.paths.get(self.count) else {
            return Err(Failure::told("the batch", Refusal::NoReceiptFile));
        };
        outputs::put_beside(self.rt, *path, RECEIPT_END, receipt)?;
        self.count = self.count.saturating_add(1);
        Ok(())
    }
}

fn batch_failure<'a>(path: &'a str, error: BatchError) -> Failure<'a> {
    match error {
        BatchError::Message => Failure::told(path, Refusal::MessageTooLong),
        BatchError::Full => Failure::told(path, Refusal::Full),
        BatchError::Empty => Failure::told(path, Refusal::Empty),
        BatchError::Randomizer => Failure::told(path, Refusal::Randomizer),
        BatchError::Index => Failure::told(path, Refusal::NoSuchFile),
        BatchError::Memory => Failure::Memory,
    }
}

fn batch_of<'a>(rt: &HostRuntime, paths: &[&'a str]) -> Result<Batch, Failure<'a>> {
    let mut batch = Batch::new(rt.alloc());
    let mut progress = Progress::new(rt);
    for path in paths {
        let bytes = files::read(rt, *path)?;
        progress.add(bytes.len() as u64);
        if let Err(error) = batch.push(bytes.as_slice()) {
            progress.clear();
            return Err(batch_failure(*path, error));
        }
    }
    progress.clear();
    Ok(batch)
}

// Which files stand at these paths, in order.
fn ids_of(rt: &HostRuntime, paths: &[&str]) -> Result<Vec<FileId>, AllocError> {
    let mut ids = Vec::new(rt.alloc());
    for path in paths {
        if let Some(id) = FileId::of(rt, *path) {
            ids.push(id)?;
        }
    }
    ids.sort()?;
    Ok(ids)
}

// Whether a file stands twice among sorted ones.
fn is_twice(ids: &[FileId], id: FileId) -> bool {
    let Ok(at) = ids.binary_search(&id) else {
        return false;
    };
    let before = at > 0 && ids.get(at - 1) == Some(&id);
    before || ids.get(at.saturating_add(1)) == Some(&id)
}

// What names an input of `batch sign` besides its files, which no output is written over.
const SIGN_INPUTS: [&str; 2] = [names::KEY, names::PASSPHRASE_FILE];

// A receipt goes beside its file, so each file is a regular one with a name, stands once, and is not
// another one's receipt.
fn check_names<'a>(
    rt: &HostRuntime,
    words: &ArgMatches<'a>,
    paths: &[&'a str],
) -> Result<(), Failure<'a>> {
    let ids = ids_of(rt, paths)?;
    for path in paths {
        if *path == files::STANDARD {
            return Err(Failure::told(*path, Refusal::NeedsName));
        }
        if files::is_stream(rt, *path) {
            return Err(Failure::told(*path, Refusal::NowhereBeside));
        }
        if let Some(id) = FileId::of(rt, *path)
            && is_twice(&ids, id)
        {
            return Err(Failure::told(*path, Refusal::Twice));
        }
        let output = format!(in rt.alloc(); "{path}{RECEIPT_END}")?;
        check_output(rt, words, &SIGN_INPUTS, output.as_str())?;
        if let Some(id) = FileId::of(rt, output.as_str())
            && ids.binary_search(&id).is_ok()
        {
            return Err(Failure::told(*path, Refusal::ReceiptOverFile));
        }
    }
    Ok(())
}

// Whether two paths are one place, whether or not a file is there, or lead to one file.
fn are_one_place(rt: &HostRuntime, path: &str, other: &str) -> Result<bool, AllocError> {
    if files::are_one(rt, path, other) {
        return Ok(true);
    }
    match (files::place_of(rt, path)?, files::place_of(rt, other)?) {
        (Some(place), Some(other)) => Ok(place == other),
        (None, _) | (_, None) => Ok(false),
    }
}

// The head goes to no place of the key, of its passphrase, of a file or of a receipt.
fn check_head<'a>(
    rt: &HostRuntime,
    words: &ArgMatches<'a>,
    paths: &[&'a str],
) -> Result<(), Failure<'a>> {
    let Some(head) = words.get_str(names::HEAD) else {
        return Ok(());
    };
    check_output(rt, words, &SIGN_INPUTS, head)?;
    for path in paths {
        let receipt = format!(in rt.alloc(); "{path}{RECEIPT_END}")?;
        if files::are_one(rt, head, *path) || are_one_place(rt, head, receipt.as_str())? {
            return Err(Failure::told(head, Refusal::HeadOverFile));
        }
    }
    Ok(())
}

/// Signs files under one signature.
pub fn sign<'s, 'a>(
    rt: &'s HostRuntime,
    words: &'s ArgMatches<'a>,
) -> Result<Outcome, Failure<'a>> {
    let paths = required_all(words, names::FILES)?;
    check_inputs(words, &[])?;
    check_names(rt, words, paths)?;
    check_head(rt, words, paths)?;
    let key = signing_key(rt, words)?;
    let randomness = Randomness::new(rt, words)?;
    let batch = batch_of(rt, paths)?;
    let (key_bytes, random) = (key.bytes.as_slice(), randomness.of_set(key.set));
    let receipts = Beside {
        rt,
        head: words.get_str(names::HEAD),
        paths,
        count: 0,
    };
    match seal_batch(rt.alloc(), key.set, key_bytes, batch, random, receipts) {
        Ok(_) => Ok(Outcome::Done),
        Err(SealError::Batch(error)) => Err(batch_failure("the batch", error)),
        Err(SealError::Receipts(failure)) => Err(failure),
    }
}

// A file and its receipt, as they were read.
#[derive(Drop)]
struct Receipted<'a> {
    // the receipt's name, as a path and an ending
    name: (&'a str, &'static str),
    receipt: ByteString,
    file: &'a str,
    message: ByteString,
}

// The file that the words name, and its receipt.
fn read_receipted<'a>(
    rt: &HostRuntime,
    words: &ArgMatches<'a>,
) -> Result<Receipted<'a>, Failure<'a>> {
    let (path, end) = receipt_name(words)?;
    let file = required(words, names::FILE)?;
    Ok(Receipted {
        name: (path, end),
        receipt: files::read_beside(rt, path, end)?,
        file,
        message: files::read(rt, file)?,
    })
}

/// Tells whether a receipt is one of a file, and with a head, whether the file is in its batch.
pub fn verify<'a>(rt: &HostRuntime, words: &ArgMatches<'a>) -> Result<Outcome, Failure<'a>> {
    check_inputs(words, &[])?;
    let key = verifying_key(rt, words)?;
    let file = read_receipted(rt, words)?;
    match words.get_str(names::HEAD) {
        Some(head) => verify_under(rt, words, &key, head, &file),
        None => verify_alone(rt, words, &key, &file),
    }
}

// Tells whether a receipt is one of a file.
fn verify_alone<'a>(
    rt: &HostRuntime,
    words: &ArgMatches<'a>,
    key: &Key,
    file: &Receipted<'a>,
) -> Result<Outcome, Failure<'a>> {
    let (message, receipt) = (file.message.as_slice(), file.receipt.as_slice());
    let accepted = accept_receipt(key.set, key.bytes.as_slice(), message, receipt);
    match (Outcome::of_receipt(accepted), accepted) {
        (Some(outcome), Ok(place)) => report(rt, words, outcome, place_detail(place)),
        (Some(outcome), Err(_)) => report(rt, words, outcome, Detail::Nothing),
        (None, Err(error)) => Err(receipt_failure(file, error)),
        (None, Ok(_)) => unreachable!(),
    }
}

// Tells whether a file is in the batch of a head, by its receipt.
fn verify_under<'a>(
    rt: &HostRuntime,
    words: &ArgMatches<'a>,
    key: &Key,
    path: &'a str,
    file: &Receipted<'a>,
) -> Result<Outcome, Failure<'a>> {
    let head = files::read_limited(rt, path)?;
    let (message, receipt) = (file.message.as_slice(), file.receipt.as_slice());
    let key_bytes = key.bytes.as_slice();
    let accepted = accept_receipt_under_head(key.set, key_bytes, head.as_slice(), message, receipt);
    match (Outcome::of_receipt_under_head(accepted), accepted) {
        (Some(outcome), Ok(place)) => report(rt, words, outcome, place_detail(place)),
        (Some(outcome), Err(_)) => report(rt, words, outcome, Detail::Nothing),
        (None, Err(UnderHeadError::Receipt(error))) => Err(receipt_failure(file, error)),
        (None, Err(UnderHeadError::Head(_))) => Err(Failure::told(path, Refusal::NotHead)),
        (None, Ok(_)) => unreachable!(),
    }
}

fn place_detail(place: Place) -> Detail<'static> {
    Detail::Place(place.index, place.count)
}

// Why there is no verdict on a file and its receipt.
fn receipt_failure<'a>(file: &Receipted<'a>, error: ReceiptError) -> Failure<'a> {
    match error {
        ReceiptError::Message => Failure::told(file.file, Refusal::MessageTooLong),
        ReceiptError::Form | ReceiptError::Invalid => {
            let (path, end) = file.name;
            Failure::beside(path, end, Refusal::NotReceipt)
        }
    }
}
