//! What is signed of a message that comes in pieces.
ghost use Rattle.std.specs.Prelude.{◌≡◌, ℕ, ◌+◌, ◌-◌, ◌≤◌, ◌^◌, List, [], ◌++◌, length, take};
ghost use Rattle.slh_frames.specs.Frames.{head_of as spec_head_of, tail_of};
ghost use Rattle.slh_frames.specs.Tails.{HasDigest, IsTailOf, StandsAfter, hashed_count, mode_of};
ghost use Rattle.slh_frames.specs.Tails.{passed_on};

use crate::frame::{
    Mode, SHA256_IDENTIFIER, SHA256_LEN, SHA512_IDENTIFIER, SHA512_LEN, head_of, put_digest,
};
use crate::message::MAX_CONTEXT;
use hmac_sha256::Hash;
use sha512_lanes::Hash512;
use slh_core::nbytes::NBytes;
use slh_core::params::MAX_MESSAGE_LEN;
use slh_core::pieces::MessageSuite;

/// The most bytes of an identifier and a digest.
pub const MAX_TAIL: usize = SHA512_LEN;

/// What becomes of a message's pieces: they are signed as they are, or a hash of them is.
#[derive(Drop)]
pub enum Tail {
    /// The pieces are signed.
    Whole,
    /// Their SHA-256 digest is.
    By256(Hash),
    /// Their SHA-512 digest is.
    By512(Hash512),
}

/// H_msg of what stands before a message, to go on from.
pub fn begin_front<P: MessageSuite>(
    rand: &NBytes<P::N>,
    pk_seed: &NBytes<P::N>,
    pk_root: &NBytes<P::N>,
    mode: Mode,
    ctx: &[u8],
) -> P::Digest
    requires { length ctx.now ≤ MAX_CONTEXT }
    ensures begun { P.digests result rand.now pk_seed.now pk_root.now
        (spec_head_of mode ctx.now ++ ctx.now) }
    ensures counts { P.digest_count result ≤ 257 }
{
    let mut digest = P::begin_digest(rand, pk_seed, pk_root);
    P::update_digest(&mut digest, &head_of(mode, ctx));
    P::update_digest(&mut digest, ctx);
    digest
}

impl Tail {
    /// No piece yet of a message that is signed in a mode.
    pub fn new(mode: Mode) -> Self
        ensures mode { mode_of result ≡ mode }
        ensures none { hashed_count result ≡ 0 }
        ensures empty { IsTailOf result [] }
        ensures nothing { passed_on result [] ≡ [] }
    {
        match mode {
            Mode::Pure => Tail::Whole,
            Mode::Sha256 => Tail::By256(Hash::new()),
            Mode::Sha512 => Tail::By512(Hash512::new()),
        }
    }

    /// The mode in which the message is signed.
    pub fn mode(&self) -> Mode
        ensures { result ≡ mode_of self.now }
    {
        match self {
            Tail::Whole => Mode::Pure,
            Tail::By256(_) => Mode::Sha256,
            Tail::By512(_) => Mode::Sha512,
        }
    }

    /// Absorbs a piece of the message, after those before, in the hash where there is one.
    pub fn hash(&mut self, piece: &[u8])
        requires { hashed_count self.old + length piece.now ≤ 2 ^ 61 - 1 }
        ensures joins { (m : List ℕ) → IsTailOf self.old m → IsTailOf self.new (m ++ piece.now) }
        ensures mode { mode_of self.new ≡ mode_of self.old }
        ensures hashes { hashed_count self.new ≤ hashed_count self.old + length piece.now }
    {
        match self {
            Tail::Whole => {}
            Tail::By256(hash) => hash.update(piece),
            Tail::By512(hash) => hash.update(piece),
        }
    }

    /// Absorbs a piece of the message, after those before, in the hash or in H_msg.
    pub fn absorb<P: MessageSuite>(&mut self, digest: &mut P::Digest, piece: &[u8])
        requires room { P.digest_count digest.old + length piece.now ≤ MAX_MESSAGE_LEN }
        requires hashed { hashed_count self.old + length piece.now ≤ 2 ^ 61 - 1 }
        ensures joins { (r s root front m : List ℕ)
            → StandsAfter (P.digests digest.old r s root) self.old front m
            → StandsAfter (P.digests digest.new r s root) self.new front (m ++ piece.now) }
        ensures mode { mode_of self.new ≡ mode_of self.old }
        ensures counts { P.digest_count digest.new ≤ P.digest_count digest.old + length piece.now }
        ensures hashes { hashed_count self.new ≤ hashed_count self.old + length piece.now }
    {
        match self {
            Tail::Whole => P::update_digest(digest, piece),
            Tail::By256(hash) => hash.update(piece),
            Tail::By512(hash) => hash.update(piece),
        }
    }

    /// Absorbs the digest of the message in H_msg where it is signed by one: all that is signed has
    /// come.
    pub fn end<P: MessageSuite>(self, digest: P::Digest) -> P::Digest
        requires { P.digest_count digest + MAX_TAIL ≤ MAX_MESSAGE_LEN }
        ensures { (r s root front m : List ℕ) → StandsAfter (P.digests digest r s root) self front m
            → P.digests result r s root (front ++ tail_of (mode_of self) m) }
    {
        let mut digest = digest;
        match self {
            Tail::Whole => {}
            Tail::By256(hash) => {
                P::update_digest(&mut digest, &SHA256_IDENTIFIER);
                P::update_digest(&mut digest, &hash.finalize());
            }
            Tail::By512(hash) => {
                P::update_digest(&mut digest, &SHA512_IDENTIFIER);
                P::update_digest(&mut digest, &hash.finalize());
            }
        }
        digest
    }

    /// Puts the identifier and the digest of what was absorbed at the front of `out`, and says how
    /// many bytes they have: none in the mode `Pure`.
    pub fn end_hash(self, out: &mut [u8; MAX_TAIL]) -> usize
        ensures len { result ≤ MAX_TAIL }
        ensures bytes { (m : List ℕ) → IsTailOf self m → HasDigest (mode_of self)
            → take result out.new ≡ tail_of (mode_of self) m }
    {
        match self {
            Tail::Whole => 0,
            Tail::By256(hash) => {
                put_digest(&SHA256_IDENTIFIER, &hash.finalize(), out);
                SHA256_LEN
            }
            Tail::By512(hash) => {
                put_digest(&SHA512_IDENTIFIER, &hash.finalize(), out);
                SHA512_LEN
            }
        }
    }
}
