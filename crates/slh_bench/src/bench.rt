//! The words of a bench, and its report (docs/LINES.md).
ghost use Rattle.std.specs.Prelude.{◌≡◌, ◌+◌, ◌*◌, ◌^◌, ◌++◌, ◌<◌, ◌≤◌, length, decimal};
ghost use Rattle.std.specs.Prelude.{IfOk, IfSome, OnOk, IsErrOf};
ghost use Rattle.sha256_lanes.specs.Sha256.{sha256};
ghost use Rattle.line_serve.specs.Causes.{Rose};
ghost use Rattle.line_serve.specs.Engine.{Takes};
ghost use Rattle.line_serve.specs.Fields.{field_at};
ghost use Rattle.slh_bench.specs.Bench.{TellsBench, accepted_count, bench_accepts, bench_count};
ghost use Rattle.slh_bench.specs.Bench.{bench_key as spec_bench_key, bench_message};
ghost use Rattle.slh_bench.specs.Bench.{bench_of, bench_prk as spec_bench_prk, bench_signature};
ghost use Rattle.slh_bench.specs.Bench.{bench_signatures, counts_line, digest_line, head_line};
ghost use Rattle.slh_bench.specs.Bench.{bench_report, message_size, outcome_lines};
ghost use Rattle.slh_sets.specs.Sets.{scheme_for};
ghost use Rattle.slh_bench.specs.declared.bench.Stop.TheVariants.{NoMemory, SinkFault};
ghost use Rattle.slh_trees.specs.Checking.{signature_size};

use hmac_sha256::{HKDF, Hash};
use line_serve::{
    ByteString, Failed, Sink, Words, decimal_value, push_hex_line, push_number, push_number_line,
    write_all,
};
use slh_core::array::ArraySize;
use slh_core::params::{chain_sizes, forest_sizes, layer_sizes};
use slh_dsa::{Message, Mode, SetSizes, SigningKey};
use slh_sets::{OnSet, Set, SetSuite};
use std::alloc::{AllocError, Global};

// How many bytes the longest message has.
const MAX_MESSAGE: usize = 128;

// How many bytes the three seeds of the largest set have.
const MAX_SEEDS: usize = 96;

/// What the words of a bench ask for.
#[derive(Clone, Copy, Debug, PartialEq, Eq)]
pub struct Bench {
    /// The parameter set.
    pub set: Set,
    /// What the key and the messages are derived from.
    pub number: u64,
    /// How many messages are signed, 1 to 64 where words ask for them.
    pub count: u32,
}

// Why a report wasn't written to its end.
#[derive(Clone, Copy, Debug, PartialEq, Eq)]
enum Stop {
    SinkFault,
    NoMemory,
}

impl From<Failed> for Stop {
    ghost from_gives = { λ _ e. e ≡ SinkFault };

    fn from(_: Failed) -> Self {
        Stop::SinkFault
    }
}

impl From<AllocError> for Stop {
    ghost from_gives = { λ _ e. e ≡ NoMemory };

    fn from(_: AllocError) -> Self {
        Stop::NoMemory
    }
}

// The word at an index, with no bytes where there are not so many.
fn word_at(words: &Words, i: usize) -> &[u8]
    ensures { result.now ≡ field_at words.now i }
{
    match words.get(i) {
        Some(found) => found,
        None => &[],
    }
}

fn read_count(word: &[u8]) -> Option<u32>
    ensures value { result ≡ bench_count word.now }
    ensures few { IfSome result (λ count. count ≤ 64) }
{
    let count = decimal_value(word, 2, 64)?;
    if count == 0 {
        return None;
    }
    Some(count as u32)
}

/// What the words ask for, where they are those of a bench.
pub fn read_bench(words: &Words) -> Option<Bench>
    ensures value { result ≡ bench_of words.now }
    ensures few { IfSome result (λ bench. bench.count ≤ 64) }
{
    if words.len() != 4 || word_at(words, 0) != b"bench".as_slice() {
        return None;
    }
    let set = Set::from_name(word_at(words, 1))?;
    let number = decimal_value(word_at(words, 2), 20, u64::MAX)?;
    let count = read_count(word_at(words, 3))?;
    Some(Bench { set, number, count })
}

// The key that all bytes of the bench are derived from.
#[tactic(auto, unfolding(crate::specs::Bench::bench_prk))]
fn bench_prk(number: u64) -> [u8; 32]
    ensures { result ≡ spec_bench_prk number }
{
    HKDF::extract(b"slh-bench", &number.to_be_bytes())
}

fn bench_key<P: SetSizes>(prk: &[u8; 32]) -> SigningKey<P>
    ensures { result ≡ spec_bench_key P.scheme prk.now }
{
    chain_sizes::<P>();
    let n = P::N::USIZE;
    let mut store = [0u8; MAX_SEEDS];
    let seeds = &mut store[..3 * n];
    HKDF::expand(seeds, prk, b"seeds");
    let (sk_seed, rest) = seeds.split_at(n);
    let (sk_prf, pk_seed) = rest.split_at(n);
    SigningKey::slh_keygen_internal(sk_seed, sk_prf, pk_seed).unwrap()
}

// Writes message i.
fn write_message(prk: &[u8; 32], i: u32, msg: &mut [u8])
    requires { length msg.old ≡ message_size i }
    ensures { msg.new ≡ bench_message prk.now i }
{
    let mut info = *b"message\0\0\0\0";
    info[7..].copy_from_slice(&i.to_be_bytes());
    HKDF::expand(msg, prk, &info);
}

// Writes the signature of message i, and says whether it is accepted.
fn sign_one<P: SetSizes>(key: &SigningKey<P>, prk: &[u8; 32], i: u32, signature: &mut [u8]) -> bool
    requires few { i < 64 }
    requires key { key.now ≡ spec_bench_key P.scheme prk.now }
    requires room { length signature.old ≡ signature_size P.scheme }
    ensures signature { signature.new ≡ bench_signature P.scheme prk.now i }
    ensures accepted { result ≡ bench_accepts P.scheme prk.now i }
{
    let len = 32 + 61 * i as usize % 97;
    let mut store = [0u8; MAX_MESSAGE];
    write_message(prk, i, &mut store[..len]);
    let message = Message::fitting(Mode::Pure, &store[..len], b"");
    key.sign_checked(&message, None, signature);
    key.verifying_key().is_valid(&message, signature)
}

// No signature has more bytes.
fn signature_bound<P: SetSizes>()
    ensures { signature_size P.scheme ≤ 2 ^ 18 }
{
    layer_sizes::<P>();
    forest_sizes::<P>();
}

// The digest of all signatures, and how many of them are accepted.
#[derive(Drop)]
struct Outcome {
    digest: [u8; 32],
    accepted: u32,
}

// Signs and verifies the messages, one after the other. The bytes of one signature are kept.
fn sign_all<P: SetSizes>(prk: &[u8; 32], count: u32, signature: &mut [u8]) -> Outcome
    requires few { count ≤ 64 }
    requires room { length signature.old ≡ signature_size P.scheme }
    ensures digest { result.digest ≡ sha256 (bench_signatures P.scheme prk.now count) }
    ensures accepted { result.accepted ≡ accepted_count P.scheme prk.now count }
{
    signature_bound::<P>();
    let key = bench_key::<P>(prk);
    let mut hash = Hash::new();
    let mut accepted = 0u32;
    for i in 0..count {
        if sign_one::<P>(&key, prk, i, signature) {
            accepted += 1;
        }
        hash.update(signature);
    }
    Outcome {
        digest: hash.finalize(),
        accepted,
    }
}

// Puts the first line at the end.
#[tactic(auto, unfolding(crate::specs::Bench::head_line))]
fn push_head_line(text: &mut ByteString, bench: Bench) -> Result<(), AllocError>
    ensures { OnOk result (text.new ≡ text.old ++ head_line bench) }
{
    text.push_slice(b"bench ")?;
    text.push_slice(bench.set.name().as_bytes())?;
    text.push_slice(b" ")?;
    push_number(text, bench.number)?;
    push_number_line(text, b" ", u64::from(bench.count))
}

// Puts the last line at the end.
fn push_counts_line(text: &mut ByteString, signed: u32, accepted: u32) -> Result<(), AllocError>
    ensures { OnOk result (text.new ≡ text.old ++ counts_line signed accepted) }
{
    text.push_slice(b"signed ")?;
    push_number(text, u64::from(signed))?;
    push_number_line(text, b" accepted ", u64::from(accepted))
}

fn head_text(alloc: Global, bench: Bench) -> Result<ByteString, AllocError>
    ensures { IfOk result (λ text. text ≡ head_line bench) }
{
    let mut text = ByteString::new(alloc);
    push_head_line(&mut text, bench)?;
    Ok(text)
}

fn outcome_text(alloc: Global, count: u32, outcome: &Outcome) -> Result<ByteString, AllocError>
    ensures { IfOk result (λ text. text
        ≡ digest_line outcome.now.digest ++ counts_line count outcome.now.accepted) }
{
    let mut text = ByteString::new(alloc);
    push_hex_line(&mut text, b"digest ", &outcome.digest)?;
    push_counts_line(&mut text, count, outcome.accepted)?;
    Ok(text)
}

// Signs and verifies, and puts together the lines after the first.
#[tactic(auto, unfolding(crate::specs::Bench::outcome_lines))]
fn outcome_in<P: SetSizes>(alloc: Global, bench: Bench) -> Result<ByteString, AllocError>
    requires few { bench.count ≤ 64 }
    ensures { IfOk result (λ text. text
        ≡ outcome_lines P.scheme (spec_bench_prk bench.number) bench.count) }
{
    let mut signature = ByteString::zeroed(alloc, P::SIG_LEN)?;
    let prk = bench_prk(bench.number);
    let outcome = sign_all::<P>(&prk, bench.count, signature.as_mut_slice());
    outcome_text(alloc, bench.count, &outcome)
}

// What is left to do of a bench once its first line is written.
#[derive(Drop)]
struct Signing {
    alloc: Global,
    bench: Bench,
    ghost few: { bench.count ≤ 64 },
}

impl OnSet for Signing {
    type Out = Result<ByteString, AllocError>;

    ghost gives = { λ task Z _ result. IfOk result (λ text. text
        ≡ outcome_lines Z (spec_bench_prk task.bench.number) task.bench.count) };

    fn on<P: SetSuite>(self) -> Result<ByteString, AllocError> {
        outcome_in::<P>(self.alloc, self.bench)
    }
}

fn write_head<K: Sink>(alloc: Global, bench: Bench, sink: &mut K) -> Result<(), Stop>
    ensures bytes { Takes (K.taken sink.old) (K.taken sink.new) result (head_line bench) }
    ensures cause { IsErrOf result SinkFault → Rose (K.faults sink.old) (K.faults sink.new) }
    ensures later { K.faults sink.old ≤ K.faults sink.new }
{
    let text = head_text(alloc, bench)?;
    write_all(sink, text.as_slice())?;
    Ok(())
}

// Signs and verifies, and writes the lines after the first.
fn write_outcome<K: Sink>(alloc: Global, bench: Bench, sink: &mut K) -> Result<(), Stop>
    requires few { bench.count ≤ 64 }
    ensures bytes { Takes (K.taken sink.old) (K.taken sink.new) result
        (outcome_lines (scheme_for bench.set) (spec_bench_prk bench.number) bench.count) }
    ensures cause { IsErrOf result SinkFault → Rose (K.faults sink.old) (K.faults sink.new) }
{
    let text = bench.set.run(Signing { alloc, bench })?;
    write_all(sink, text.as_slice())?;
    Ok(())
}

// Writes the report, the first line before anything is signed.
fn write_report<K: Sink>(alloc: Global, bench: Bench, sink: &mut K) -> Result<(), Stop>
    requires few { bench.count ≤ 64 }
    ensures bytes { Takes (K.taken sink.old) (K.taken sink.new) result (bench_report bench) }
    ensures cause { IsErrOf result SinkFault → Rose (K.faults sink.old) (K.faults sink.new) }
{
    write_head(alloc, bench, sink)?;
    write_outcome(alloc, bench, sink)
}

/// Writes the report of a bench, and answers the status of the program: 0 where it was written, 4
/// where the sink failed, and 6 where there was no memory.
pub fn run_bench<K: Sink>(alloc: Global, bench: Bench, sink: &mut K) -> u8
    requires few { bench.count ≤ 64 }
    ensures told { TellsBench (K.taken sink.old) (K.taken sink.new) result bench }
    ensures cause { result ≡ 4 → Rose (K.faults sink.old) (K.faults sink.new) }
{
    match write_report(alloc, bench, sink) {
        Ok(()) => 0,
        Err(Stop::SinkFault) => 4,
        Err(Stop::NoMemory) => 6,
    }
}
