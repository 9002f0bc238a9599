//! Chains of delegations.
ghost use Rattle.std.specs.Prelude.{◌≡◌, ◌⊎◌, Ok, Err, IfOk, IfErr, map};
ghost use Rattle.std.specs.Option.{option_copied};
ghost use Rattle.slh_chain.specs.Links.{link_body, signed_link};
ghost use Rattle.slh_chain.specs.declared.error.LinkError.TheVariants.{Memory as NoMemory};
ghost use Rattle.slh_bytes.specs.Chains.{chain_links, end_key, link_refusal, parts_of};
ghost use Rattle.slh_bytes.specs.declared.chains.WalkError.TheVariants.{Memory};
ghost use Rattle.slh_sets.specs.Sets.{scheme_for};
ghost use Rattle.slh_core.specs.Refusals.{RefusedOrNoMemory};

use line_serve::ByteString;
use slh_chain::{Chain, ChainError, LinkError, LinkRef, Links, delegate, walk};
use slh_dsa::{SetSizes, SigningKey, VerifyingKey};
use slh_sets::{OnSet, Set, SetSuite};
use std::alloc::{AllocError, Global};

/// Why a chain tells nothing.
#[derive(Clone, Copy, Debug, PartialEq, Eq)]
pub enum WalkError {
    /// A link isn't good: the first one.
    Link(ChainError),
    /// There was no memory.
    Memory,
}

impl From<AllocError> for WalkError {
    ghost use Rattle.std.specs.Prelude.{◌≡◌};
    ghost use Rattle.slh_bytes.specs.declared.chains.WalkError.TheVariants.{Memory};

    ghost from_gives = { λ _ e. e ≡ Memory };

    fn from(_error: AllocError) -> Self {
        WalkError::Memory
    }
}

// A chain from a root key.
#[derive(Drop)]
struct Walking<'a> {
    alloc: Global,
    root: &'a [u8],
    chain: &'a [u8],
}

impl<'a> OnSet for Walking<'a> {
    type Out = Result<ByteString, WalkError>;

    ghost gives = { λ c Z _ result. (result ≡ end_key Z c.root.now c.chain.now)
        ⊎ (result ≡ Err Memory) };

    fn on<P: SetSuite>(self) -> Result<ByteString, WalkError> {
        let Ok(root) = VerifyingKey::<P>::try_from(self.root) else {
            return Err(WalkError::Link(ChainError::Form(0)));
        };
        match walk(&root, self.chain) {
            Ok(end) => Ok(ByteString::from_slice(self.alloc, &end.key.to_vec(self.alloc)?)?),
            Err(fault) => Err(WalkError::Link(fault)),
        }
    }
}

/// The verifying key at the end of a chain from a root key of a set, as [`slh_chain::walk`] finds
/// it. `Link`; `Memory`. Bytes that are no key of the set are `Form` of link 0.
pub fn last_key(alloc: Global, set: Set, root: &[u8], chain: &[u8]) -> Result<ByteString, WalkError>
    ensures { (result ≡ end_key (scheme_for set) root.now chain.now) ⊎ (result ≡ Err Memory) }
{
    set.run(Walking { alloc, root, chain })
}

/// A link of a chain, with its key as bytes.
#[derive(Drop)]
pub struct LinkText<'a> {
    /// How deep the subject may delegate in turn.
    pub depth: u8,
    pub name: &'a [u8],
    /// The verifying key that may act.
    pub subject: Vec<u8>,
}

// A link of a chain that was walked, with its key as bytes.
fn text_of<'a, P: SetSizes>(alloc: Global, link: LinkRef<'a, P>) -> Result<LinkText<'a>, AllocError>
    ensures { let link = link.entry in IfOk result (λ text. parts_of text
        ≡ record { depth = link.depth; name = link.name.now; subject = link.subject }) }
{
    Ok(LinkText {
        depth: link.depth,
        name: link.name,
        subject: link.subject.to_vec(alloc)?,
    })
}

// The links of a chain that was walked.
fn texts_of<'a, P: SetSizes>(
    alloc: Global,
    links: Links<'a, P>,
) -> Result<Vec<LinkText<'a>>, AllocError>
    ensures { IfOk result (λ texts. map parts_of texts.items ≡ links.entry) }
{
    let mut texts = Vec::new(alloc);
    for link in links {
        let text = text_of(alloc, link)?;
        if texts.push(text).is_err() {
            return Err(AllocError);
        }
    }
    Ok(texts)
}

// A chain whose links are to be told.
#[derive(Drop)]
struct Showing<'a>(Walking<'a>);

impl<'a> OnSet for Showing<'a> {
    type Out = Result<Vec<LinkText<'a>>, WalkError>;

    ghost gives = { λ c Z _ result. let answer = chain_links Z c.0.root.now c.0.chain.now in
        IfOk result (λ texts. answer ≡ Ok (map parts_of texts.items))
        × IfErr result (λ e. (answer ≡ Err e) ⊎ (e ≡ Memory)) };

    fn on<P: SetSuite>(self) -> Result<Vec<LinkText<'a>>, WalkError> {
        let Showing(Walking { alloc, root, chain }) = self;
        let Ok(root) = VerifyingKey::<P>::try_from(root) else {
            return Err(WalkError::Link(ChainError::Form(0)));
        };
        match Chain::open(&root, chain) {
            Ok(walked) => Ok(texts_of(alloc, walked.links())?),
            Err(fault) => Err(WalkError::Link(fault)),
        }
    }
}

/// The links of a chain from a root key of a set, where each is good. `Link`; `Memory`. Bytes that
/// are no key of the set are `Form` of link 0.
pub fn links_of<'a>(
    alloc: Global,
    set: Set,
    root: &'a [u8],
    chain: &'a [u8],
) -> Result<Vec<LinkText<'a>>, WalkError>
    ensures links { IfOk result (λ texts. chain_links (scheme_for set) root.now chain.now
        ≡ Ok (map parts_of texts.items)) }
    ensures error { IfErr result
        (λ e. (chain_links (scheme_for set) root.now chain.now ≡ Err e) ⊎ (e ≡ Memory)) }
{
    set.run(Showing(Walking { alloc, root, chain }))
}

// A link that is to be made.
#[derive(Drop)]
struct Delegating<'a> {
    alloc: Global,
    key: &'a [u8],
    name: &'a [u8],
    depth: u8,
    subject: &'a [u8],
    opt_rand: Option<&'a [u8]>,
}

impl<'a> OnSet for Delegating<'a> {
    type Out = Result<Vec<u8>, LinkError>;

    ghost gives = { λ c Z _ result. let opt_rand = option_copied c.opt_rand in
        RefusedOrNoMemory NoMemory result
        (link_refusal Z c.key.now c.name.now c.depth c.subject.now opt_rand)
        × IfOk result (λ link. link.items
        ≡ signed_link Z c.key.now opt_rand (link_body c.depth c.name.now c.subject.now)) };

    fn on<P: SetSuite>(self) -> Result<Vec<u8>, LinkError> {
        let Ok(key) = SigningKey::<P>::try_from(self.key) else {
            return Err(LinkError::Memory);
        };
        let Ok(subject) = VerifyingKey::<P>::try_from(self.subject) else {
            return Err(LinkError::Memory);
        };
        delegate(
            self.alloc,
            &key,
            self.name,
            self.depth,
            &subject,
            self.opt_rand,
        )
    }
}

/// The link by which a signing key of a set lets a verifying key of it act, as
/// [`slh_chain::delegate`] makes it. `Name`; `Depth`; `Randomizer`; `Memory`, which bytes that are
/// no keys of the set are too.
pub fn new_link(
    alloc: Global,
    set: Set,
    key: &[u8],
    name: &[u8],
    depth: u8,
    subject: &[u8],
    opt_rand: Option<&[u8]>,
) -> Result<Vec<u8>, LinkError>
    ensures refusal { let opt_rand = option_copied opt_rand.entry in
        RefusedOrNoMemory NoMemory result
        (link_refusal (scheme_for set) key.now name.now depth subject.now opt_rand) }
    ensures link { let opt_rand = option_copied opt_rand.entry in
        let body = link_body depth name.now subject.now in
        IfOk result (λ link. link.items ≡ signed_link (scheme_for set) key.now opt_rand body) }
{
    set.run(Delegating {
        alloc,
        key,
        name,
        depth,
        subject,
        opt_rand,
    })
}
