//! Manifests made from what a store has.
ghost use Rattle.std.specs.Prelude.{◌≡◌, ◌≢◌, ◌↔◌, ◌≤◌, ◌<◌, ◌^◌, ◌++◌, ◌∷◌, ◌==◌, []};
ghost use Rattle.std.specs.Prelude.{Some, IsSome};
ghost use Rattle.std.specs.Prelude.{IsErrOf, OnOk, OnErr, IfOk, IfErr, IfSome, IsTrue, length};
ghost use Rattle.std.specs.Option.{option_copied, ForSome};
ghost use Rattle.line_serve.specs.Causes.{Rose};
ghost use Rattle.slh_frames.specs.Frames.{frame};
ghost use Rattle.slh_trees.specs.Signing.{signature_of};
ghost use Rattle.slh_core.specs.Refusals.{RefusedExactly, RefusedOrNoMemory};
ghost use Rattle.slh_manifest.specs.Building.{IsAdded, IsBuilt, RefusedOrFault};
ghost use Rattle.slh_manifest.specs.Building.{add_refusal, digest_refusal, empty_refusal, entry_of};
ghost use Rattle.slh_manifest.specs.Building.{manifest_of, name_refusal};
ghost use Rattle.slh_manifest.specs.Building.{last_name as spec_last_name};
ghost use Rattle.slh_manifest.specs.Building.{seal_refusal};
ghost use Rattle.slh_manifest.specs.Files.{bytes_of};
ghost use Rattle.slh_manifest.specs.Manifest.{HasForm, body_bytes, entry_bytes, manifest_context};
ghost use Rattle.slh_manifest.specs.Manifest.{may_follow as spec_may_follow};
ghost use Rattle.slh_manifest.specs.declared.error.BuildError.TheVariants.{Name, Full, Fault};
ghost use Rattle.slh_manifest.specs.declared.error.BuildError.TheVariants.{Empty, Randomizer};
ghost use Rattle.slh_manifest.specs.declared.error.BuildError.TheVariants.{Memory};

use crate::entry::{Entry, MAX_ENTRIES, MAX_LEN, may_follow};
use crate::error::BuildError;
use crate::measure::{Found, measure};
use crate::store::Store;
use line_serve::ByteString;
use slh_dsa::{Message, Mode, ParameterSet, SetSizes, Signature, SigningKey, check_opt_rand};
use std::alloc::{AllocError, Global};
use std::marker::Model;

/// The context under which bodies are signed.
pub const CONTEXT: &[u8] = b"slh-manifest";

/// Entries of a manifest to be. Clauses see it as their list.
#[derive(Drop)]
pub struct Builder {
    entries: Vec<Entry>,
}

impl Model for Builder {
    ghost use Rattle.std.specs.Prelude.{List};
    ghost use Rattle.slh_manifest.specs.declared.entry.Entry.{Entry};
    ghost use Rattle.slh_manifest.specs.Building.{IsBuilt};

    ghost Value = { List Entry };

    ghost view = { λ b. b.entries.items };

    ghost invariant = { λ b. IsBuilt b.entries.items };
}

impl Builder {
    /// No entries. Takes no memory before one is added.
    pub fn new(alloc: Global) -> Self
        ensures { result ≡ [] }
    {
        Builder {
            entries: Vec::new(alloc),
        }
    }

    /// Adds an entry of what the store has under a name, which is read once, to its end. `Name`;
    /// `Full`; `Fault`; `Missing`; `TooLarge`; `Memory`. After a refusal there are the entries that
    /// there were.
    pub fn add<T: Store>(&mut self, name: &[u8], store: &mut T) -> Result<(), BuildError>
        ensures name { IsErrOf result Name ↔ (name_refusal self.old name.now ≡ Some Name) }
        ensures full { IsErrOf result Full ↔ (name_refusal self.old name.now ≡ Some Full) }
        ensures only { IfErr result (λ e. (e ≢ Empty) × (e ≢ Randomizer)) }
        ensures fault { IsErrOf result Fault → Rose (T.faults store.old) (T.faults store.new) }
        ensures told { IfSome (T.files store.old)
            (λ files. RefusedOrFault result (add_refusal self.old name.now files)) }
        ensures exact { IfSome (T.files store.old) (λ files.
            ¬ Rose (T.faults store.old) (T.faults store.new)
            → RefusedOrNoMemory Memory result (add_refusal self.old name.now files)) }
        ensures entry { OnOk result (IfSome (T.files store.old) (λ files.
            IfSome (bytes_of files name.now)
            (λ bytes. self.new ≡ self.old ++ entry_of name.now bytes ∷ []))) }
        ensures added { OnOk result (IsAdded self.old name.now self.new) }
        ensures same { OnErr result (self.new ≡ self.old) }
        ensures unread { IsSome (name_refusal self.old name.now) → store.new ≡ store.old }
        ensures kept { T.files store.new ≡ T.files store.old }
        ensures later { T.faults store.old ≤ T.faults store.new }
    {
        self.check_name(name)?;
        match measure(store, name, MAX_LEN) {
            Err(_) => Err(BuildError::Fault),
            Ok(Found::Missing) => Err(BuildError::Missing),
            Ok(Found::Longer) => Err(BuildError::TooLarge),
            Ok(Found::Whole { len, digest }) => Ok(self.push(name, len, &digest)?),
        }
    }

    /// Adds an entry of a name by the length and the SHA-256 of its bytes, which stand elsewhere.
    /// `Name`; `Full`; `TooLarge`; `Memory`. After a refusal there are the entries that there were.
    pub fn add_digest(&mut self, name: &[u8], len: u64, digest: &[u8; 32]) -> Result<(), BuildError>
        ensures refusal { RefusedOrNoMemory Memory result (digest_refusal self.old name.now len) }
        ensures added { OnOk result (self.new
            ≡ self.old ++ record { name = name.now; len = len; digest = digest.now } ∷ []) }
        ensures same { OnErr result (self.new ≡ self.old) }
    {
        self.check_name(name)?;
        if len > MAX_LEN {
            return Err(BuildError::TooLarge);
        }
        Ok(self.push(name, len, digest)?)
    }

    /// How many entries there are, at most 4096.
    pub fn len(&self) -> usize
        ensures value { result ≡ length self.now }
        ensures few { result ≤ 4096 }
    {
        self.entries.len()
    }

    /// Whether there are none.
    pub fn is_empty(&self) -> bool
        ensures { result ≡ (length self.now == 0) }
    {
        self.entries.is_empty()
    }

    /// The body of the manifest, for a key that is elsewhere, as in a module or on another machine:
    /// it signs these bytes in mode `Pure` (FIPS 205, algorithm 22) under [`CONTEXT`]. `Empty`;
    /// `Memory`.
    pub fn body(&self, alloc: Global) -> Result<Vec<u8>, BuildError>
        ensures refusal { RefusedOrNoMemory Memory result (empty_refusal self.now) }
        ensures value { IfOk result (λ body. body.items ≡ body_bytes self.now) }
        ensures form { OnOk result (HasForm self.now) }
        ensures context { CONTEXT.now ≡ manifest_context }
    {
        self.check_some()?;
        Ok(body(alloc, &self.entries)?)
    }

    /// The manifest of the entries and a signature of their body that was made elsewhere, as
    /// [`Builder::body`] says. Whether it is one isn't checked: who opens the manifest checks it.
    /// `Empty`; `Memory`.
    pub fn with_signature<P: ParameterSet>(
        &self,
        alloc: Global,
        signature: &Signature<P>,
    ) -> Result<Vec<u8>, BuildError>
        ensures refusal { RefusedOrNoMemory Memory result (empty_refusal self.now) }
        ensures value { IfOk result
            (λ manifest. manifest.items ≡ body_bytes self.now ++ signature.now) }
        ensures form { OnOk result (HasForm self.now) }
    {
        self.check_some()?;
        let mut manifest = body(alloc, &self.entries)?;
        manifest.extend_from_slice(signature.as_slice())?;
        Ok(manifest)
    }

    /// The manifest of the entries: their body, signed in mode `Pure` (FIPS 205, algorithm 22)
    /// under the context `slh-manifest`. Where no `opt_rand` is given the public seed stands for
    /// it. `Empty`; `Randomizer`; `Memory`.
    pub fn seal<P: SetSizes>(
        self,
        alloc: Global,
        key: &SigningKey<P>,
        opt_rand: Option<&[u8]>,
    ) -> Result<Vec<u8>, BuildError>
        ensures refusal { let opt_rand = option_copied opt_rand.entry in
            RefusedOrNoMemory Memory result (seal_refusal P.scheme self opt_rand) }
        ensures value { let opt_rand = option_copied opt_rand.entry in
            IfOk result (λ manifest. manifest.items
            ≡ manifest_of P.scheme key.now opt_rand self) }
        ensures form { OnOk result (HasForm self) }
    {
        self.check_some()?;
        check_opt_rand::<P, BuildError>(opt_rand, BuildError::Randomizer)?;
        let mut manifest = body(alloc, &self.entries)?;
        let signature = sign_body(alloc, key, &manifest, opt_rand)?;
        manifest.extend_from_slice(&signature)?;
        Ok(manifest)
    }

    // Whether there are entries.
    fn check_some(&self) -> Result<(), BuildError>
        ensures refusal { RefusedExactly result (empty_refusal self.now) }
        ensures some { OnOk result (1 ≤ length self.now) }
    {
        if self.entries.is_empty() {
            return Err(BuildError::Empty);
        }
        Ok(())
    }

    // Whether an entry of this name may stand at the end.
    fn check_name(&self, name: &[u8]) -> Result<(), BuildError>
        ensures refusal { RefusedExactly result (name_refusal self.now name.now) }
        ensures room { OnOk result (length self.now < 4096) }
        ensures follows { OnOk result
            (IsTrue (spec_may_follow (spec_last_name [] self.now) name.now)) }
    {
        if !may_follow(last_name(&self.entries), name) {
            return Err(BuildError::Name);
        }
        if self.entries.len() >= MAX_ENTRIES {
            return Err(BuildError::Full);
        }
        Ok(())
    }

    // Puts an entry at the end.
    fn push(&mut self, name: &[u8], len: u64, digest: &[u8; 32]) -> Result<(), AllocError>
        requires room { length self.old < 4096 }
        requires name { IsTrue (spec_may_follow (spec_last_name [] self.old) name.now) }
        requires len { len ≤ 2 ^ 32 }
        ensures ok { OnOk result (self.new
            ≡ self.old ++ record { name = name.now; len = len; digest = digest.now } ∷ []) }
        ensures err { OnErr result (self.new ≡ self.old) }
    {
        let name = ByteString::from_slice(*self.entries.allocator(), name)?;
        let digest = *digest;
        self.entries.push(Entry { name, len, digest })?;
        Ok(())
    }
}

// The signature of a body.
fn sign_body<P: SetSizes>(
    alloc: Global,
    key: &SigningKey<P>,
    body: &[u8],
    opt_rand: Option<&[u8]>,
) -> Result<Vec<u8>, AllocError>
    requires body { length body.now ≤ 2 ^ 60 }
    requires opt_rand { ForSome (option_copied opt_rand) (λ bytes. length bytes ≡ P.N.USIZE) }
    ensures { let opt_rand = option_copied opt_rand.entry in
        IfOk result (λ signature. signature.items
        ≡ signature_of P.scheme key.now opt_rand (frame manifest_context body.now)) }
{
    let mut signature = vec![in alloc; 0u8; P::SIG_LEN]?;
    let message = Message::fitting(Mode::Pure, body, CONTEXT);
    key.sign_checked(&message, opt_rand, &mut signature);
    Ok(signature)
}

// The name of the last entry, or the empty one.
fn last_name(entries: &[Entry]) -> &[u8]
    ensures { result.now ≡ spec_last_name [] entries.now }
{
    match entries.last() {
        Some(entry) => entry.name.as_slice(),
        None => &[],
    }
}

// The body of a manifest with these entries.
fn body(alloc: Global, entries: &[Entry]) -> Result<Vec<u8>, AllocError>
    requires built { IsBuilt entries.now }
    ensures value { IfOk result (λ body. body.items ≡ body_bytes entries.now) }
    ensures short { IfOk result (λ body. length body.items ≤ 2 ^ 60) }
{
    let mut body = Vec::new(alloc);
    body.extend_from_slice(&(entries.len() as u32).to_be_bytes())?;
    for entry in entries {
        put_entry(&mut body, entry)?;
    }
    Ok(body)
}

// Puts an entry at the end of a body.
fn put_entry(body: &mut Vec<u8>, entry: &Entry) -> Result<(), AllocError>
    requires name { length entry.now.name ≤ 255 }
    ensures ok { OnOk result (body.new.items ≡ body.old.items ++ entry_bytes entry.now) }
{
    body.push(entry.name.len() as u8)?;
    body.extend_from_slice(entry.name.as_slice())?;
    body.extend_from_slice(&entry.len.to_be_bytes())?;
    body.extend_from_slice(&entry.digest)
}
