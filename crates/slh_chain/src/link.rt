//! Links: making them, and finding their parts.
ghost use Rattle.std.specs.Prelude.{◌≡◌, ◌↔◌, ◌+◌, ◌*◌, ◌^◌, ◌≤◌, ◌++◌, length};
ghost use Rattle.std.specs.Prelude.{IfOk, IfSome, IsSome, IsTrue};
ghost use Rattle.std.specs.Option.{option_copied, ForSome};
ghost use Rattle.slh_trees.specs.Checking.{signature_size};
ghost use Rattle.slh_frames.specs.Frames.{frame};
ghost use Rattle.slh_trees.specs.Signing.{signature_of};
ghost use Rattle.slh_core.specs.Refusals.{RefusedExactly, RefusedOrNoMemory};
ghost use Rattle.slh_chain.specs.Links.{after_link, body_of, body_size, chain_context};
ghost use Rattle.slh_chain.specs.Links.{delegate_refusal, has_form, link_body, link_depth};
ghost use Rattle.slh_chain.specs.Links.{link_name};
ghost use Rattle.slh_chain.specs.Links.{link_signature, link_subject, signed_link};
ghost use Rattle.slh_chain.specs.declared.error.LinkError.TheVariants.{Memory};

use crate::error::LinkError;
use slh_core::array::ArraySize;
use slh_core::params::{MAX_N, chain_sizes, forest_sizes, layer_sizes};
use slh_dsa::{Message, Mode, SetSizes, SigningKey, VerifyingKey, check_opt_rand};
use slh_frames::MAX_MESSAGE;
use std::alloc::Global;

/// The context that bodies are signed with.
pub const CONTEXT: &[u8] = b"slh-chain";

/// The most bytes of a name.
const MAX_NAME: usize = 64;

/// The highest depth.
const MAX_DEPTH: u8 = 15;

// No link has more bytes.
fn link_bound<P: SetSizes>()
    ensures n { P.N.USIZE ≤ MAX_N }
    ensures signature { signature_size P.scheme ≤ 2 ^ 18 }
{
    chain_sizes::<P>();
    layer_sizes::<P>();
    forest_sizes::<P>();
}

// The refusals of making a link.
fn check_link<P: SetSizes>(name: &[u8], depth: u8, opt_rand: Option<&[u8]>) -> Result<(), LinkError>
    ensures refusal { let opt_rand = option_copied opt_rand.entry in
        RefusedExactly result (delegate_refusal P.scheme name.now depth opt_rand) }
{
    chain_sizes::<P>();
    if name.is_empty() || name.len() > MAX_NAME {
        return Err(LinkError::Name);
    }
    if depth > MAX_DEPTH {
        return Err(LinkError::Depth);
    }
    check_opt_rand::<P, LinkError>(opt_rand, LinkError::Randomizer)
}

// Writes the body of a link.
fn write_body<P: SetSizes>(name: &[u8], depth: u8, subject: &VerifyingKey<P>, out: &mut [u8])
    requires name { length name.now ≤ 64 }
    requires room { length out.old ≡ 2 + length name.now + 2 * P.N.USIZE }
    ensures { out.new ≡ link_body depth name.now subject.now }
{
    chain_sizes::<P>();
    let (head, rest) = out.split_at_mut(2);
    let (front, back) = rest.split_at_mut(name.len());
    head[0] = depth;
    head[1] = name.len() as u8;
    front.copy_from_slice(name);
    subject.write_to(back);
}

// Writes a link's signature after its body.
fn sign_body<P: SetSizes>(key: &SigningKey<P>, body: &[u8], opt_rand: Option<&[u8]>, out: &mut [u8])
    requires body { length body.now ≤ MAX_MESSAGE }
    requires opt_rand { ForSome (option_copied opt_rand) (λ bytes. length bytes ≡ P.N.USIZE) }
    requires room { length out.old ≡ signature_size P.scheme }
    ensures { let opt_rand = option_copied opt_rand.entry in
        out.new ≡ signature_of P.scheme key.now opt_rand (frame chain_context body.now) }
{
    key.sign_checked(&Message::fitting(Mode::Pure, body, CONTEXT), opt_rand, out);
}

// Writes a whole link.
fn write_link<P: SetSizes>(
    key: &SigningKey<P>,
    name: &[u8],
    depth: u8,
    subject: &VerifyingKey<P>,
    opt_rand: Option<&[u8]>,
    out: &mut [u8],
)
    requires name { length name.now ≤ 64 }
    requires opt_rand { ForSome (option_copied opt_rand) (λ bytes. length bytes ≡ P.N.USIZE) }
    requires room { length out.old
        ≡ 2 + length name.now + 2 * P.N.USIZE + signature_size P.scheme }
    ensures { let opt_rand = option_copied opt_rand.entry in
        let body = link_body depth name.now subject.now in
        out.new ≡ signed_link P.scheme key.now opt_rand body }
{
    link_bound::<P>();
    let (body, signature) = out.split_at_mut(2 + name.len() + 2 * P::N::USIZE);
    write_body(name, depth, subject, body);
    sign_body(key, body, opt_rand, signature);
}

/// The link by which a key lets the subject act under a name of 1 to 64 bytes, and delegate with
/// depths below `depth`, which is 0 to 15. It has 2 bytes and the name's, 2n of the subject, and
/// those of a signature, which is made in mode `Pure` (FIPS 205, algorithm 22) with the context
/// `slh-chain`. Where no `opt_rand` is given the key's public seed stands for it. `Name`; `Depth`;
/// `Randomizer`; `Memory`.
pub fn delegate<P: SetSizes>(
    alloc: Global,
    key: &SigningKey<P>,
    name: &[u8],
    depth: u8,
    subject: &VerifyingKey<P>,
    opt_rand: Option<&[u8]>,
) -> Result<Vec<u8>, LinkError>
    ensures refusal { let opt_rand = option_copied opt_rand.entry in
        RefusedOrNoMemory Memory result (delegate_refusal P.scheme name.now depth opt_rand) }
    ensures link { let opt_rand = option_copied opt_rand.entry in
        let body = link_body depth name.now subject.now in
        IfOk result (λ link. link.items ≡ signed_link P.scheme key.now opt_rand body) }
{
    link_bound::<P>();
    check_link::<P>(name, depth, opt_rand)?;
    let size = 2 + name.len() + 2 * P::N::USIZE + P::SIG_LEN;
    let mut link = vec![in alloc; 0u8; size]?;
    write_link(key, name, depth, subject, opt_rand, link.as_mut_slice());
    Ok(link)
}

/// The parts of a link that some bytes begin with, and the bytes after it.
#[derive(Drop)]
pub(crate) struct Link<'a> {
    pub(crate) depth: u8,
    pub(crate) name: &'a [u8],
    pub(crate) subject: &'a [u8],
    pub(crate) body: &'a [u8],
    pub(crate) signature: &'a [u8],
    pub(crate) rest: &'a [u8],
}

// How many bytes the body of the link has that the bytes begin with. `None`: they begin with none.
fn body_len<P: SetSizes>(bytes: &[u8]) -> Option<usize>
    ensures form { IsSome result ↔ IsTrue (has_form P.scheme bytes.now) }
    ensures len { IfSome result (λ len. len ≡ body_size P.scheme bytes.now) }
{
    link_bound::<P>();
    if bytes.len() < 2 || bytes[0] > MAX_DEPTH {
        return None;
    }
    let name_len = bytes[1] as usize;
    if name_len == 0 || name_len > MAX_NAME {
        return None;
    }
    let len = 2 + name_len + 2 * P::N::USIZE;
    if bytes.len() < len + P::SIG_LEN {
        return None;
    }
    Some(len)
}

/// The link that the bytes begin with. `None`: they begin with none.
pub(crate) fn read_link<P: SetSizes>(bytes: &[u8]) -> Option<Link<'_>>
    ensures form { IsSome result ↔ IsTrue (has_form P.scheme bytes.now) }
    ensures depth { IfSome result (λ link. link.depth ≡ link_depth bytes.now) }
    ensures name { IfSome result (λ link. link.name.now ≡ link_name bytes.now) }
    ensures subject { IfSome result
        (λ link. link.subject.now ≡ link_subject P.scheme bytes.now) }
    ensures body { IfSome result (λ link. link.body.now ≡ body_of P.scheme bytes.now) }
    ensures signature { IfSome result
        (λ link. link.signature.now ≡ link_signature P.scheme bytes.now) }
    ensures rest { IfSome result (λ link. link.rest.now ≡ after_link P.scheme bytes.now) }
    ensures body_len { IfSome result (λ link. length link.body.now ≤ 130) }
    ensures signature_len { IfSome result
        (λ link. length link.signature.now ≡ signature_size P.scheme) }
    ensures shorter { IfSome result (λ link. length link.rest.now + 2 ≤ length bytes.now) }
    ensures key { IfSome result (λ link. length link.subject.now ≡ 2 * P.N.USIZE) }
{
    link_bound::<P>();
    let len = body_len::<P>(bytes)?;
    let (body, after) = bytes.split_at(len);
    let (signature, rest) = after.split_at(P::SIG_LEN);
    Some(Link {
        depth: bytes[0],
        name: &bytes[2..2 + bytes[1] as usize],
        subject: &body[len - 2 * P::N::USIZE..],
        body,
        signature,
        rest,
    })
}
