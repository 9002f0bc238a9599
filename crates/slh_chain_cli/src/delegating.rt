//! `SET delegate KEY NAME DEPTH VK RAND` gives a link.
ghost use Rattle.std.specs.Prelude.{◌≡◌, ◌≤◌, ◌⊎◌, Ok, Err, IfOk, length};
ghost use Rattle.std.specs.Option.{option_copied, ForSome};
ghost use Rattle.line_serve.specs.Fields.{contents};
ghost use Rattle.slh_chain_cli.specs.Replies.{delegate_answer, depth_at as spec_depth_at};
ghost use Rattle.slh_chain_cli.specs.Replies.{delegate_request as spec_delegate_request};
ghost use Rattle.slh_chain_cli.specs.Replies.{delegate_text as spec_delegate_text};
ghost use Rattle.slh_line.specs.declared.line_error.LineError.TheVariants.{Memory};

use line_serve::{ByteString, decimal_value, field_at, push_hex_line};
use slh_chain::{LinkError, delegate};
use slh_dsa::{SetSizes, SigningKey, VerifyingKey};
use slh_line::{
    LineError, as_bytes, bytes_at, checked_randomizer, randomizer_at, signing_key, verifying_key,
};
use std::alloc::Global;

// The depth that a field stands for. `Fields`: it stands for none.
fn depth_at(fields: &[&[u8]], i: usize) -> Result<u8, LineError>
    ensures value { result ≡ spec_depth_at (contents fields.now) i }
    ensures most { IfOk result (λ depth. depth ≤ 15) }
{
    match decimal_value(field_at(fields, i), 10, 15) {
        Some(depth) => Ok(depth as u8),
        None => Err(LineError::Fields),
    }
}

// The text for the link of these parts, or for a name that no link has.
#[tactic(auto, using(crate::proofs::Told::told_link, crate::proofs::Told::told_name))]
fn delegate_text<P: SetSizes>(
    alloc: Global,
    key: &SigningKey<P>,
    name: &[u8],
    depth: u8,
    subject: &VerifyingKey<P>,
    opt_rand: Option<&[u8]>,
) -> Result<ByteString, LineError>
    requires depth { depth ≤ 15 }
    requires opt_rand { ForSome (option_copied opt_rand) (λ bytes. length bytes ≡ P.N.USIZE) }
    ensures { let opt_rand = option_copied opt_rand.entry in
        (result ≡ Ok (spec_delegate_text P.scheme key.now name.now depth subject.now opt_rand))
        ⊎ (result ≡ Err Memory) }
{
    match delegate(alloc, key, name, depth, subject, opt_rand) {
        Ok(link) => {
            let mut text = ByteString::new(alloc);
            push_hex_line(&mut text, b"link ", &link)?;
            Ok(text)
        }
        Err(LinkError::Name) => Ok(ByteString::from_slice(alloc, b"error name\n")?),
        Err(LinkError::Depth | LinkError::Randomizer) => unreachable!(),
        Err(LinkError::Memory) => Err(LineError::Memory),
    }
}

// The reply to the bytes of a line, and its depth.
fn delegate_request<P: SetSizes>(
    alloc: Global,
    key: &[u8],
    name: &[u8],
    depth: u8,
    subject: &[u8],
    opt_rand: Option<ByteString>,
) -> Result<ByteString, LineError>
    requires { depth ≤ 15 }
    ensures { (result ≡ spec_delegate_request P.scheme key.now name.now depth subject.now opt_rand)
        ⊎ (result ≡ Err Memory) }
{
    let key = signing_key::<P>(key)?;
    let subject = verifying_key::<P>(subject)?;
    let opt_rand = checked_randomizer::<P>(opt_rand)?;
    delegate_text(alloc, &key, name, depth, &subject, as_bytes(&opt_rand))
}

/// The reply to a `delegate` line.
pub(crate) fn delegate_line<P: SetSizes>(
    alloc: Global,
    fields: &[&[u8]],
) -> Result<ByteString, LineError>
    ensures { (result ≡ delegate_answer P.scheme (contents fields.now)) ⊎ (result ≡ Err Memory) }
{
    if fields.len() != 7 {
        return Err(LineError::Fields);
    }
    let depth = depth_at(fields, 4)?;
    let key = bytes_at(alloc, fields, 2)?;
    let name = bytes_at(alloc, fields, 3)?;
    let subject = bytes_at(alloc, fields, 5)?;
    let opt_rand = randomizer_at(alloc, fields, 6)?;
    delegate_request::<P>(
        alloc,
        key.as_slice(),
        name.as_slice(),
        depth,
        subject.as_slice(),
        opt_rand,
    )
}
