//! A pass over a message that is signed, put aside between two pieces.
ghost use Rattle.std.specs.Prelude.{◌≡◌, ◌≢◌, ◌↔◌, ℕ, ◌+◌, ◌<◌, ◌≤◌, List, [], ◌++◌};
ghost use Rattle.std.specs.Prelude.{IfSome, IsTrue, MatchOption, OnOk, OnErr, None, Option};
ghost use Rattle.std.specs.Prelude.{length, take};
ghost use Rattle.slh_core.specs.Bytes.{part};
ghost use Rattle.slh_dsa.specs.declared.error.Error.TheVariants.{MessageTooLong, ContextTooLong};
ghost use Rattle.slh_frames.specs.Frames.{frame};
ghost use Rattle.slh_hash.specs.Suspended.{HasClearRest, HasHashed, is_category_1, mac_block};
ghost use Rattle.slh_hash.specs.Suspended.{other_hash};
ghost use Rattle.slh_stream.specs.Passes.{pass_refusal, randomizer_for};
ghost use Rattle.slh_stream.specs.SuspendedPass.{IsBlank, IsEnded, IsFirstAside, IsPassing};
ghost use Rattle.slh_stream.specs.SuspendedPass.{IsSecondAside};
ghost use Rattle.slh_core.specs.Refusals.{RefusedExactly, context_refusal, message_refusal};
ghost use Rattle.slh_trees.specs.Signing.{signature_of};

use crate::pass_error::PassError;
use crate::passes::{FirstPass, Passing, SecondPass, begin_made};
use crate::suspended::stored;
use slh_core::nbytes::NBytes;
use slh_core::params::{MAX_MESSAGE_LEN, forest_sizes};
use slh_dsa::{Error, Mode, SetSizes, SigningKey};
use slh_frames::pieces::begin_front;
use slh_frames::{MAX_CONTEXT, MAX_MESSAGE};
use slh_hash::{Hashes, ResumableSuite};

/// What a pass goes on from: numbers alone. They are secret, as a key's PRF key is among them.
#[repr(C)]
#[derive(Drop)]
pub struct PassNumbers {
    prf: [u8; 32],
    seed: [u8; 32],
    root: [u8; 32],
    opt_rand: [u8; 32],
    rand: [u8; 32],
    taken: u64,
    mac: Hashes,
    digest: Hashes,
}

/// A pass between two pieces, without the secret seed of its key, so that a caller keeps it where it
/// likes. It is secret, as its numbers are. Any numbers are one, though of no message that anybody
/// absorbed.
#[repr(C)]
#[derive(Drop)]
pub struct SuspendedPass {
    /// The number of the pass: 1 for the first, 2 for the second, another one for neither.
    pub pass: u32,
    /// What it goes on from.
    pub numbers: PassNumbers,
}

// The number of the first pass.
const FIRST: u32 = 1;

// The number of the second.
const SECOND: u32 = 2;

// PRF_msg of what was absorbed. `None`: no pass was put aside as these numbers.
fn resume_made<P: SetSizes + ResumableSuite>(numbers: &PassNumbers) -> Option<P::Mac>
    ensures short { IfSome result (λ _. numbers.now.taken ≤ MAX_MESSAGE) }
    ensures room { IfSome result (λ mac. P.mac_count mac ≤ numbers.now.taken + 257) }
    ensures resumed { IfSome result (λ mac. (m : List ℕ) → length m ≤ numbers.now.taken + 257
        → HasHashed (is_category_1 P.N.USIZE) numbers.now.mac
        (mac_block (is_category_1 P.N.USIZE) (take P.N.USIZE numbers.now.prf)
        ++ take P.N.USIZE numbers.now.opt_rand ++ m)
        → P.authenticates mac (take P.N.USIZE numbers.now.prf)
        (take P.N.USIZE numbers.now.opt_rand) m) }
    ensures stands { (key : List ℕ) (opt_rand : Option (List ℕ)) (context m : List ℕ)
        → IsPassing P.N.USIZE numbers.now key opt_rand context m
        → MatchOption result ⊥ (λ mac. P.authenticates mac (take P.N.USIZE numbers.now.prf)
        (take P.N.USIZE numbers.now.opt_rand) (frame context m)) }
{
    if numbers.taken > MAX_MESSAGE as u64 {
        return None;
    }
    forest_sizes::<P>();
    let sk_prf = NBytes::<P::N>::first_of(numbers.prf);
    P::resume_mac(&numbers.mac, &sk_prf, numbers.taken + 257)
}

// H_msg of the same. `None`: no second pass was put aside as these numbers.
fn resume_front<P: SetSizes + ResumableSuite>(state: &SuspendedPass) -> Option<P::Digest>
    requires { state.now.numbers.taken ≤ MAX_MESSAGE }
    ensures room { IfSome result (λ digest.
        P.digest_count digest ≤ state.now.numbers.taken + 257) }
    ensures resumed { IfSome result (λ digest. (m : List ℕ)
        → length m ≤ state.now.numbers.taken + 257
        → HasHashed (is_category_1 P.N.USIZE) state.now.numbers.digest
        (take P.N.USIZE state.now.numbers.rand ++ take P.N.USIZE state.now.numbers.seed
        ++ take P.N.USIZE state.now.numbers.root ++ m)
        → P.digests digest (take P.N.USIZE state.now.numbers.rand)
        (take P.N.USIZE state.now.numbers.seed) (take P.N.USIZE state.now.numbers.root) m) }
    ensures stands { (key : List ℕ) (opt_rand : Option (List ℕ)) (context rand m : List ℕ)
        → IsSecondAside P.N.USIZE state.now key opt_rand context rand m
        → MatchOption result ⊥ (λ digest.
        P.digests digest (take P.N.USIZE state.now.numbers.rand)
        (take P.N.USIZE state.now.numbers.seed) (take P.N.USIZE state.now.numbers.root)
        (frame context m)) }
{
    forest_sizes::<P>();
    let numbers = &state.numbers;
    let rand = NBytes::<P::N>::first_of(numbers.rand);
    let pk_seed = NBytes::<P::N>::first_of(numbers.seed);
    P::resume_digest(&numbers.digest, &rand, &pk_seed, numbers.taken + 257)
}

// Absorbs a piece in PRF_msg, and puts it aside.
fn absorb_made<P: ResumableSuite>(mac: P::Mac, piece: &[u8], hashes: &mut Hashes)
    requires { P.mac_count mac + length piece.now ≤ MAX_MESSAGE_LEN }
    ensures hashed { (key opt_rand m : List ℕ) → P.authenticates mac key opt_rand m
        → HasHashed (is_category_1 P.N.USIZE) hashes.new
        (mac_block (is_category_1 P.N.USIZE) key ++ opt_rand ++ m ++ piece.now) }
    ensures clear { HasClearRest (is_category_1 P.N.USIZE) hashes.new }
    ensures other { other_hash (is_category_1 P.N.USIZE) hashes.new
        ≡ other_hash (is_category_1 P.N.USIZE) hashes.old }
{
    let mut mac = mac;
    P::update_mac(&mut mac, piece);
    P::suspend_mac(mac, hashes);
}

// The same in H_msg.
fn absorb_front<P: ResumableSuite>(digest: P::Digest, piece: &[u8], hashes: &mut Hashes)
    requires { P.digest_count digest + length piece.now ≤ MAX_MESSAGE_LEN }
    ensures hashed { (r s root m : List ℕ) → P.digests digest r s root m
        → HasHashed (is_category_1 P.N.USIZE) hashes.new
        (r ++ s ++ root ++ m ++ piece.now) }
    ensures clear { HasClearRest (is_category_1 P.N.USIZE) hashes.new }
    ensures other { other_hash (is_category_1 P.N.USIZE) hashes.new
        ≡ other_hash (is_category_1 P.N.USIZE) hashes.old }
{
    let mut digest = digest;
    P::update_digest(&mut digest, piece);
    P::suspend_digest(digest, hashes);
}

impl PassNumbers {
    /// The numbers of nothing, to be written over.
    pub fn blank() -> Self
        ensures { IsBlank result }
    {
        PassNumbers {
            prf: [0; 32],
            seed: [0; 32],
            root: [0; 32],
            opt_rand: [0; 32],
            rand: [0; 32],
            taken: 0,
            mac: Hashes::new(),
            digest: Hashes::new(),
        }
    }

    /// The same numbers again.
    pub fn copy(&self) -> Self
        ensures { result ≡ self.now }
    {
        PassNumbers {
            prf: self.prf,
            seed: self.seed,
            root: self.root,
            opt_rand: self.opt_rand,
            rand: self.rand,
            taken: self.taken,
            mac: self.mac.copy(),
            digest: self.digest.copy(),
        }
    }
}

impl SuspendedPass {
    /// Neither pass, to be written over.
    pub fn blank() -> Self
        ensures pass { result.pass ≡ 0 }
        ensures numbers { IsBlank result.numbers }
    {
        SuspendedPass {
            pass: 0,
            numbers: PassNumbers::blank(),
        }
    }

    /// The same numbers again.
    pub fn copy(&self) -> Self
        ensures { result ≡ self.now }
    {
        SuspendedPass {
            pass: self.pass,
            numbers: self.numbers.copy(),
        }
    }

    /// Puts a first pass aside.
    pub fn new<'a, P: SetSizes + ResumableSuite>(pass: FirstPass<'a, P>) -> Self
        ensures { (key : List ℕ) (opt_rand : Option (List ℕ)) (context m : List ℕ)
            → ⟦<FirstPass<'a, P> as Passing>⟧.passes pass.entry key opt_rand context m
            → IsFirstAside P.N.USIZE result key opt_rand context m }
    {
        let FirstPass {
            key,
            opt_rand,
            mac,
            taken,
            ..
        } = pass;
        let mut numbers = PassNumbers {
            prf: stored(key.sk_prf()),
            seed: stored(key.pk_seed()),
            root: stored(key.pk_root()),
            opt_rand: stored(&opt_rand),
            rand: [0; 32],
            taken,
            mac: Hashes::new(),
            digest: Hashes::new(),
        };
        P::suspend_mac(mac, &mut numbers.mac);
        SuspendedPass {
            pass: FIRST,
            numbers,
        }
    }

    /// Absorbs a piece of the message in the first pass, after those before. `None`: no first pass
    /// was put aside as these numbers. `MessageTooLong`: more than 2^60 bytes would have come.
    pub fn update<P: SetSizes + ResumableSuite>(
        &mut self,
        piece: &[u8],
    ) -> Option<Result<(), Error>>
        ensures refusal { (key : List ℕ) (opt_rand : Option (List ℕ)) (context m : List ℕ)
            → IsFirstAside P.N.USIZE self.old key opt_rand context m
            → MatchOption result ⊥ (λ r.
            RefusedExactly r (message_refusal MessageTooLong (m ++ piece.now))) }
        ensures joins { (key : List ℕ) (opt_rand : Option (List ℕ)) (context m : List ℕ)
            → IsFirstAside P.N.USIZE self.old key opt_rand context m
            → MatchOption result ⊥ (λ r. OnOk r
            (IsFirstAside P.N.USIZE self.new key opt_rand context (m ++ piece.now))) }
        ensures own { self.old.pass ≢ 1 → result ≡ None }
        ensures counted { MAX_MESSAGE < self.old.numbers.taken → result ≡ None }
        ensures kept { self.new.pass ≡ self.old.pass }
        ensures same { MatchOption result (self.new ≡ self.old) (λ r.
            OnErr r (self.new ≡ self.old)) }
    {
        if self.pass != FIRST {
            return None;
        }
        let mac = resume_made::<P>(&self.numbers)?;
        if piece.len() > MAX_MESSAGE - self.numbers.taken as usize {
            return Some(Err(Error::MessageTooLong));
        }
        absorb_made::<P>(mac, piece, &mut self.numbers.mac);
        self.numbers.taken += piece.len() as u64;
        Some(Ok(()))
    }

    /// The second pass over the empty message, with R of what the first absorbed. The context is
    /// handed in a second time: with another one, `finish_into` answers `Changed`. `None`: no first
    /// pass was put aside as these numbers. `ContextTooLong`.
    pub fn again<P: SetSizes + ResumableSuite>(&mut self, ctx: &[u8]) -> Option<Result<(), Error>>
        ensures refusal { (key : List ℕ) (opt_rand : Option (List ℕ)) (context m : List ℕ)
            → IsFirstAside P.N.USIZE self.old key opt_rand context m
            → MatchOption result ⊥ (λ r.
            RefusedExactly r (context_refusal ContextTooLong ctx.now)) }
        ensures empty { (key : List ℕ) (opt_rand : Option (List ℕ)) (context m : List ℕ)
            → IsFirstAside P.N.USIZE self.old key opt_rand context m
            → MatchOption result ⊥ (λ r. OnOk r
            (IsSecondAside P.N.USIZE self.new key opt_rand ctx.now
            (randomizer_for P.scheme key opt_rand (frame context m)) [])) }
        ensures own { self.old.pass ≢ 1 → result ≡ None }
        ensures counted { MAX_MESSAGE < self.old.numbers.taken → result ≡ None }
        ensures second { IfSome result (λ r. OnOk r (self.new.pass ≡ 2)) }
        ensures same { MatchOption result (self.new ≡ self.old) (λ r.
            OnErr r (self.new ≡ self.old)) }
    {
        if self.pass != FIRST {
            return None;
        }
        let mac = resume_made::<P>(&self.numbers)?;
        if ctx.len() > MAX_CONTEXT {
            return Some(Err(Error::ContextTooLong));
        }
        forest_sizes::<P>();
        let numbers = &mut self.numbers;
        let sk_prf = NBytes::<P::N>::first_of(numbers.prf);
        let pk_seed = NBytes::<P::N>::first_of(numbers.seed);
        let pk_root = NBytes::<P::N>::first_of(numbers.root);
        let opt_rand = NBytes::<P::N>::first_of(numbers.opt_rand);
        let rand = P::end_mac(mac);
        let made = begin_made::<P>(&sk_prf, &opt_rand, ctx);
        let digest = begin_front::<P>(&rand, &pk_seed, &pk_root, Mode::Pure, ctx);
        P::suspend_mac(made, &mut numbers.mac);
        P::suspend_digest(digest, &mut numbers.digest);
        numbers.rand = stored(&rand);
        numbers.taken = 0;
        self.pass = SECOND;
        Some(Ok(()))
    }

    /// Absorbs a piece of the message in the second pass, after those before. `None`: no second
    /// pass was put aside as these numbers. `MessageTooLong`: more than 2^60 bytes would have come.
    pub fn update_again<P: SetSizes + ResumableSuite>(
        &mut self,
        piece: &[u8],
    ) -> Option<Result<(), Error>>
        ensures refusal { (key : List ℕ) (opt_rand : Option (List ℕ)) (context rand m : List ℕ)
            → IsSecondAside P.N.USIZE self.old key opt_rand context rand m
            → MatchOption result ⊥ (λ r.
            RefusedExactly r (message_refusal MessageTooLong (m ++ piece.now))) }
        ensures joins { (key : List ℕ) (opt_rand : Option (List ℕ)) (context rand m : List ℕ)
            → IsSecondAside P.N.USIZE self.old key opt_rand context rand m
            → MatchOption result ⊥ (λ r. OnOk r
            (IsSecondAside P.N.USIZE self.new key opt_rand context rand (m ++ piece.now))) }
        ensures own { self.old.pass ≢ 2 → result ≡ None }
        ensures counted { MAX_MESSAGE < self.old.numbers.taken → result ≡ None }
        ensures kept { self.new.pass ≡ self.old.pass }
        ensures same { MatchOption result (self.new ≡ self.old) (λ r.
            OnErr r (self.new ≡ self.old)) }
    {
        if self.pass != SECOND {
            return None;
        }
        let mac = resume_made::<P>(&self.numbers)?;
        let digest = resume_front::<P>(self)?;
        if piece.len() > MAX_MESSAGE - self.numbers.taken as usize {
            return Some(Err(Error::MessageTooLong));
        }
        absorb_made::<P>(mac, piece, &mut self.numbers.mac);
        absorb_front::<P>(digest, piece, &mut self.numbers.digest);
        self.numbers.taken += piece.len() as u64;
        Some(Ok(()))
    }

    // Whether the pass is one under a key: all parts but the secret seed are the key's.
    fn is_under<P: SetSizes + ResumableSuite>(&self, key: &SigningKey<P>) -> bool
        ensures { IsTrue result
            ↔ ((take P.N.USIZE self.now.numbers.prf ≡ part P.N.USIZE key.now 1)
            × (take P.N.USIZE self.now.numbers.seed ≡ part P.N.USIZE key.now 2)
            × (take P.N.USIZE self.now.numbers.root ≡ part P.N.USIZE key.now 3)) }
    {
        forest_sizes::<P>();
        let sk_prf = NBytes::<P::N>::first_of(self.numbers.prf);
        let pk_seed = NBytes::<P::N>::first_of(self.numbers.seed);
        let pk_root = NBytes::<P::N>::first_of(self.numbers.root);
        sk_prf.as_slice() == key.sk_prf().as_slice()
            && pk_seed.as_slice() == key.pk_seed().as_slice()
            && pk_root.as_slice() == key.pk_root().as_slice()
    }

    /// Writes the signature of what the second pass absorbed, as `SecondPass::finish_into` does. The
    /// key is handed in a second time. `None`: no second pass under this key was put aside as these
    /// numbers.
    pub fn finish_into<P: SetSizes + ResumableSuite>(
        &self,
        key: &SigningKey<P>,
        out: &mut [u8],
    ) -> Option<Result<(), PassError>>
        ensures refusal { (opt_rand : Option (List ℕ)) (context rand m : List ℕ)
            → IsSecondAside P.N.USIZE self.now key.now opt_rand context rand m
            → MatchOption result ⊥ (λ r. RefusedExactly r (pass_refusal P.scheme key.now
            opt_rand (frame context m) rand (length out.old))) }
        ensures value { (opt_rand : Option (List ℕ)) (context rand m : List ℕ)
            → IsSecondAside P.N.USIZE self.now key.now opt_rand context rand m
            → MatchOption result ⊥ (λ r. OnOk r
            (out.new ≡ signature_of P.scheme key.now opt_rand (frame context m))) }
        ensures other { (other : List ℕ) (opt_rand : Option (List ℕ)) (context rand m : List ℕ)
            → IsSecondAside P.N.USIZE self.now other opt_rand context rand m
            → ((part P.N.USIZE other 1 ≡ part P.N.USIZE key.now 1)
            × (part P.N.USIZE other 2 ≡ part P.N.USIZE key.now 2)
            × (part P.N.USIZE other 3 ≡ part P.N.USIZE key.now 3) → ⊥) → result ≡ None }
        ensures own { self.now.pass ≢ 2 → result ≡ None }
        ensures ended { IfSome result (λ r.
            OnOk r (IsEnded P.scheme P.N.USIZE self.now key.now out.new)) }
        ensures same { MatchOption result (out.new ≡ out.old) (λ r.
            OnErr r (out.new ≡ out.old)) }
    {
        let numbers = &self.numbers;
        if self.pass != SECOND {
            return None;
        }
        let mac = resume_made::<P>(numbers)?;
        let digest = resume_front::<P>(self)?;
        if !self.is_under(key) {
            return None;
        }
        forest_sizes::<P>();
        let pass = SecondPass {
            key,
            opt_rand: NBytes::<P::N>::first_of(numbers.opt_rand),
            rand: NBytes::<P::N>::first_of(numbers.rand),
            mac,
            digest,
            taken: numbers.taken,
        };
        Some(pass.finish_into(out))
    }
}
