//! `SET walk VK CHAIN` tells where a chain ends, or which link isn't good.
ghost use Rattle.std.specs.Prelude.{◌≡◌, ◌⊎◌, Ok, Err};
ghost use Rattle.line_serve.specs.Fields.{contents};
ghost use Rattle.line_serve.specs.Texts.{number_line};
ghost use Rattle.slh_chain.specs.Walks.{walk_answer};
ghost use Rattle.slh_chain_cli.specs.Replies.{end_text as spec_end_text, walk_line_answer};
ghost use Rattle.slh_chain_cli.specs.Replies.{walk_request as spec_walk_request};
ghost use Rattle.slh_chain_cli.specs.Replies.{walk_text as spec_walk_text};
ghost use Rattle.slh_line.specs.declared.line_error.LineError.TheVariants.{Memory};

use line_serve::{ByteString, push_hex, push_number, push_number_line};
use slh_chain::{ChainError, End, walk};
use slh_dsa::{SetSizes, VerifyingKey};
use slh_line::{LineError, bytes_at, verifying_key};
use std::alloc::Global;

// The text for the end of a chain.
fn end_text<P: SetSizes>(alloc: Global, end: &End<P>) -> Result<ByteString, LineError>
    ensures { (result ≡ Ok (spec_end_text (record {
      key = end.now.key;
      budget = end.now.budget;
      links = end.now.links;
    }))) ⊎ (result ≡ Err Memory) }
{
    let mut text = ByteString::from_slice(alloc, b"end ")?;
    push_hex(&mut text, &end.key.to_vec(alloc)?)?;
    text.push_slice(b" ")?;
    push_number(&mut text, u64::from(end.budget))?;
    text.push_slice(b" ")?;
    push_number(&mut text, u64::from(end.links))?;
    text.push_slice(b"\n")?;
    Ok(text)
}

// A line for a link that isn't good.
fn fault_line(alloc: Global, word: &[u8], link: u32) -> Result<ByteString, LineError>
    ensures { (result ≡ Ok (number_line word.now link)) ⊎ (result ≡ Err Memory) }
{
    let mut text = ByteString::new(alloc);
    push_number_line(&mut text, word, u64::from(link))?;
    Ok(text)
}

// The text for the first link that isn't good.
fn fault_text(alloc: Global, fault: ChainError) -> Result<ByteString, LineError>
    ensures { (result ≡ Ok (spec_walk_text (Err fault))) ⊎ (result ≡ Err Memory) }
{
    match fault {
        ChainError::Form(link) => fault_line(alloc, b"bad form ", link),
        ChainError::Budget(link) => fault_line(alloc, b"bad budget ", link),
        ChainError::Invalid(link) => fault_line(alloc, b"bad invalid ", link),
    }
}

// The text for what walking a chain answers.
fn walk_text<P: SetSizes>(
    alloc: Global,
    root: &VerifyingKey<P>,
    chain: &[u8],
) -> Result<ByteString, LineError>
    ensures { (result ≡ Ok (spec_walk_text (walk_answer P.scheme root.now chain.now)))
        ⊎ (result ≡ Err Memory) }
{
    match walk(root, chain) {
        Ok(end) => end_text(alloc, &end),
        Err(fault) => fault_text(alloc, fault),
    }
}

// The reply to a root key and a chain.
fn walk_request<P: SetSizes>(
    alloc: Global,
    root: &[u8],
    chain: &[u8],
) -> Result<ByteString, LineError>
    ensures { (result ≡ spec_walk_request P.scheme root.now chain.now) ⊎ (result ≡ Err Memory) }
{
    let root = verifying_key::<P>(root)?;
    walk_text(alloc, &root, chain)
}

/// The reply to a `walk` line.
pub(crate) fn walk_line<P: SetSizes>(
    alloc: Global,
    fields: &[&[u8]],
) -> Result<ByteString, LineError>
    ensures { (result ≡ walk_line_answer P.scheme (contents fields.now)) ⊎ (result ≡ Err Memory) }
{
    if fields.len() != 4 {
        return Err(LineError::Fields);
    }
    let root = bytes_at(alloc, fields, 2)?;
    let chain = bytes_at(alloc, fields, 3)?;
    walk_request::<P>(alloc, root.as_slice(), chain.as_slice())
}
