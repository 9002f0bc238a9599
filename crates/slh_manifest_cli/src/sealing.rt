//! `SET seal KEY RAND NAME BYTES ..` gives the manifest of the pairs.
ghost use Rattle.std.specs.Prelude.{◌≡◌, ◌≤◌, ◌*◌, ◌⊎◌, ◌++◌, ◌∷◌, [], length, Ok, Err, None, Some};
ghost use Rattle.std.specs.Prelude.{OnOk, IfOk, IfErr};
ghost use Rattle.std.specs.Option.{option_copied, ForSome};
ghost use Rattle.line_serve.specs.Fields.{contents};
ghost use Rattle.slh_manifest.specs.Building.{entry_of};
ghost use Rattle.slh_manifest.specs.declared.error.BuildError.TheVariants.{Name, TooLarge};
ghost use Rattle.slh_manifest.specs.declared.error.BuildError.TheVariants.{Memory as NoMemory};
ghost use Rattle.slh_manifest_cli.specs.Replies.{entries_with, pair_refusal, seal_answer};
ghost use Rattle.slh_manifest_cli.specs.Replies.{seal_request as spec_seal_request};
ghost use Rattle.slh_manifest_cli.specs.Replies.{seal_text as spec_seal_text};
ghost use Rattle.slh_line.specs.declared.line_error.LineError.TheVariants.{Memory};

use crate::pairs::{FIRST_NAME, PairStore, has_pairs};
use line_serve::{ByteString, Words, push_hex_line};
use slh_dsa::{SetSizes, SigningKey};
use slh_line::{
    LineError, all_bytes_at, as_bytes, bytes_at, checked_randomizer, randomizer_at, signing_key,
    word_at,
};
use slh_manifest::{BuildError, Builder};
use std::alloc::Global;

// Puts a pair into the store, and adds the name from there.
fn add_pair(
    builder: &mut Builder,
    store: &mut PairStore,
    name: &[u8],
    bytes: &[u8],
) -> Result<(), BuildError>
    ensures fits { OnOk result (pair_refusal builder.old name.now bytes.now ≡ None) }
    ensures refused { IfErr result
        (λ e. (e ≡ NoMemory) ⊎ (pair_refusal builder.old name.now bytes.now ≡ Some e)) }
    ensures entry { OnOk result
        (builder.new ≡ builder.old ++ entry_of name.now bytes.now ∷ []) }
{
    store.put(name, bytes)?;
    builder.add(name, store)
}

// The entries of the pairs, of which there are some, and few enough.
fn entries_of(alloc: Global, pairs: &Words) -> Result<Builder, BuildError>
    requires some { 2 ≤ length pairs.now }
    requires few { length pairs.now ≤ 2 * 4096 }
    ensures ok { IfOk result (λ builder. entries_with [] pairs.now ≡ Ok builder) }
    ensures err { IfErr result (λ e. (e ≡ NoMemory) ⊎ (entries_with [] pairs.now ≡ Err e)) }
    ensures some { IfOk result (λ builder. 1 ≤ length builder) }
    ensures only { IfErr result (λ e. (e ≡ Name) ⊎ (e ≡ TooLarge) ⊎ (e ≡ NoMemory)) }
{
    let mut store = PairStore::new(alloc);
    let mut builder = Builder::new(alloc);
    'each_pair: for i in 0..pairs.len() / 2 {
        let name = word_at(pairs, 2 * i);
        let bytes = word_at(pairs, 2 * i + 1);
        if let Err(error) = add_pair(&mut builder, &mut store, name, bytes) {
            return Err(error);
        }
    }
    Ok(builder)
}

// The text for the manifest of the entries, of which there are some.
fn manifest_text<P: SetSizes>(
    alloc: Global,
    key: &SigningKey<P>,
    opt_rand: Option<&[u8]>,
    builder: Builder,
) -> Result<ByteString, LineError>
    requires some { 1 ≤ length builder }
    requires opt_rand { ForSome (option_copied opt_rand) (λ bytes. length bytes ≡ P.N.USIZE) }
    ensures { let opt_rand = option_copied opt_rand.entry in
        (result ≡ Ok (spec_seal_text P.scheme key.now opt_rand (Ok builder)))
        ⊎ (result ≡ Err Memory) }
{
    match builder.seal(alloc, key, opt_rand) {
        Ok(manifest) => {
            let mut text = ByteString::new(alloc);
            push_hex_line(&mut text, b"manifest ", &manifest)?;
            Ok(text)
        }
        Err(BuildError::Memory) => Err(LineError::Memory),
        Err(_) => unreachable!(),
    }
}

// The text for the manifest of the pairs, or for one that isn't added.
fn seal_text<P: SetSizes>(
    alloc: Global,
    key: &SigningKey<P>,
    opt_rand: Option<&[u8]>,
    pairs: &Words,
) -> Result<ByteString, LineError>
    requires some { 2 ≤ length pairs.now }
    requires few { length pairs.now ≤ 2 * 4096 }
    requires opt_rand { ForSome (option_copied opt_rand) (λ bytes. length bytes ≡ P.N.USIZE) }
    ensures { let opt_rand = option_copied opt_rand.entry in
        (result ≡ Ok (spec_seal_text P.scheme key.now opt_rand (entries_with [] pairs.now)))
        ⊎ (result ≡ Err Memory) }
{
    match entries_of(alloc, pairs) {
        Ok(builder) => manifest_text(alloc, key, opt_rand, builder),
        Err(BuildError::Name) => Ok(ByteString::from_slice(alloc, b"error name\n")?),
        Err(BuildError::TooLarge) => Ok(ByteString::from_slice(alloc, b"error large\n")?),
        Err(BuildError::Memory) => Err(LineError::Memory),
        Err(_) => unreachable!(),
    }
}

// The reply to a key, a randomizer and pairs.
fn seal_request<P: SetSizes>(
    alloc: Global,
    key: &[u8],
    opt_rand: Option<ByteString>,
    pairs: &Words,
) -> Result<ByteString, LineError>
    requires some { 2 ≤ length pairs.now }
    requires few { length pairs.now ≤ 2 * 4096 }
    ensures { (result ≡ spec_seal_request P.scheme key.now opt_rand pairs.now)
        ⊎ (result ≡ Err Memory) }
{
    let key = signing_key::<P>(key)?;
    let opt_rand = checked_randomizer::<P>(opt_rand)?;
    seal_text(alloc, &key, as_bytes(&opt_rand), pairs)
}

/// The reply to a `seal` line.
pub(crate) fn seal_line<P: SetSizes>(
    alloc: Global,
    fields: &[&[u8]],
) -> Result<ByteString, LineError>
    ensures { (result ≡ seal_answer P.scheme (contents fields.now)) ⊎ (result ≡ Err Memory) }
{
    if !has_pairs(fields, FIRST_NAME + 2) {
        return Err(LineError::Fields);
    }
    let key = bytes_at(alloc, fields, 2)?;
    let opt_rand = randomizer_at(alloc, fields, 3)?;
    let pairs = all_bytes_at(alloc, fields, FIRST_NAME)?;
    seal_request::<P>(alloc, key.as_slice(), opt_rand, &pairs)
}
