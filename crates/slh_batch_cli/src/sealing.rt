//! `SET seal KEY RAND MSG ..` gives a receipt for each message.
ghost use Rattle.std.specs.Prelude.{◌≡◌, ◌⊎◌, ◌≤◌, length, map};
ghost use Rattle.std.specs.Prelude.{true, false, Ok, Err, IfOk, IfErr};
ghost use Rattle.std.specs.List.{list_any};
ghost use Rattle.std.specs.Option.{option_copied, ForSome};
ghost use Rattle.line_serve.specs.Fields.{contents};
ghost use Rattle.slh_batch.specs.Tree.{batch_leaf};
ghost use Rattle.slh_batch.specs.declared.error.BatchError.TheVariants.{Message};
ghost use Rattle.slh_batch.specs.declared.error.BatchError.TheVariants.{Memory as NoMemory};
ghost use Rattle.slh_batch_cli.specs.Replies.{is_long, receipt_lines, seal_answer};
ghost use Rattle.slh_batch_cli.specs.Replies.{seal_request as spec_seal_request};
ghost use Rattle.slh_batch_cli.specs.Replies.{seal_text as spec_seal_text};
ghost use Rattle.slh_line.specs.declared.line_error.LineError.TheVariants.{Memory};

use line_serve::{ByteString, Words, push_hex_line};
use slh_batch::{Batch, BatchError, Sealed};
use slh_dsa::{SetSizes, SigningKey};
use slh_line::{
    LineError, all_bytes_at, as_bytes, bytes_at, checked_randomizer, randomizer_at, signing_key,
    word_at,
};
use std::alloc::Global;

// A line has a set, the command, a key, a randomizer, and 1 to 64 messages.
const FIRST_MESSAGE: usize = 4;

const MAX_FIELDS: usize = FIRST_MESSAGE + 64;

// The batch of these messages, of which there are few enough. `Message`: one of them is too long.
fn batch_of(alloc: Global, messages: &Words) -> Result<Batch, BatchError>
    requires few { length messages.now ≤ 64 }
    ensures value { IfOk result (λ batch. batch ≡ map batch_leaf messages.now) }
    ensures fits { IfOk result (λ _. list_any is_long messages.now ≡ false) }
    ensures long { result ≡ Err Message → list_any is_long messages.now ≡ true }
    ensures only { IfErr result (λ e. (e ≡ Message) ⊎ (e ≡ NoMemory)) }
{
    let mut batch = Batch::new(alloc);
    'each_message: for i in 0..messages.len() {
        batch.push(word_at(messages, i))?;
    }
    Ok(batch)
}

// A line for each of the first receipts, so many, of which there are enough.
fn lines_of<P: SetSizes>(
    alloc: Global,
    sealed: &Sealed<P>,
    count: u32,
) -> Result<ByteString, LineError>
    requires enough { count ≤ length sealed.now.leaves }
    ensures { (result ≡ Ok (receipt_lines sealed.now.leaves sealed.now.signature count))
        ⊎ (result ≡ Err Memory) }
{
    let mut text = ByteString::new(alloc);
    'each_message: for i in 0..count {
        match sealed.receipt(alloc, i) {
            Ok(receipt) => push_hex_line(&mut text, b"receipt ", &receipt)?,
            Err(BatchError::Memory) => return Err(LineError::Memory),
            Err(_) => unreachable!(),
        }
    }
    Ok(text)
}

// The lines for a batch of these messages, of which there are some, and few enough.
fn seal_text<P: SetSizes>(
    alloc: Global,
    key: &SigningKey<P>,
    opt_rand: Option<&[u8]>,
    messages: &Words,
) -> Result<ByteString, LineError>
    requires some { 1 ≤ length messages.now }
    requires few { length messages.now ≤ 64 }
    requires opt_rand { ForSome (option_copied opt_rand) (λ bytes. length bytes ≡ P.N.USIZE) }
    ensures { let opt_rand = option_copied opt_rand.entry in
        (result ≡ Ok (spec_seal_text P.scheme key.now opt_rand messages.now))
        ⊎ (result ≡ Err Memory) }
{
    let batch = match batch_of(alloc, messages) {
        Ok(batch) => batch,
        Err(BatchError::Message) => {
            return Ok(ByteString::from_slice(alloc, b"error message\n")?);
        }
        Err(BatchError::Memory) => return Err(LineError::Memory),
        Err(_) => unreachable!(),
    };
    match batch.seal(alloc, key, opt_rand) {
        Ok(sealed) => lines_of(alloc, &sealed, messages.len() as u32),
        Err(BatchError::Memory) => Err(LineError::Memory),
        Err(_) => unreachable!(),
    }
}

// The reply to a key, a randomizer and messages.
fn seal_request<P: SetSizes>(
    alloc: Global,
    key: &[u8],
    opt_rand: Option<ByteString>,
    messages: &Words,
) -> Result<ByteString, LineError>
    requires some { 1 ≤ length messages.now }
    requires few { length messages.now ≤ 64 }
    ensures { (result ≡ spec_seal_request P.scheme key.now opt_rand messages.now)
        ⊎ (result ≡ Err Memory) }
{
    let key = signing_key::<P>(key)?;
    let opt_rand = checked_randomizer::<P>(opt_rand)?;
    seal_text(alloc, &key, as_bytes(&opt_rand), messages)
}

/// The reply to a `seal` line.
pub(crate) fn seal_line<P: SetSizes>(
    alloc: Global,
    fields: &[&[u8]],
) -> Result<ByteString, LineError>
    ensures { (result ≡ seal_answer P.scheme (contents fields.now)) ⊎ (result ≡ Err Memory) }
{
    if fields.len() <= FIRST_MESSAGE || fields.len() > MAX_FIELDS {
        return Err(LineError::Fields);
    }
    let key = bytes_at(alloc, fields, 2)?;
    let opt_rand = randomizer_at(alloc, fields, 3)?;
    let messages = all_bytes_at(alloc, fields, FIRST_MESSAGE)?;
    seal_request::<P>(alloc, key.as_slice(), opt_rand, &messages)
}
