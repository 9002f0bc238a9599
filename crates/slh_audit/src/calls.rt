//! Audits: whether a key made the bytes that lead to its root.
ghost use Rattle.std.specs.Prelude.{◌≡◌, ◌≤◌, ◌*◌, ◌+◌, ◌++◌, length, take};
ghost use Rattle.std.specs.Prelude.{◌↔◌, IfOk, IsTrue};
ghost use Rattle.slh_audit.specs.Evidence.{dispute, dispute_of, shows};
ghost use Rattle.slh_audit.specs.Verdicts.{IsGenuineExactly, audit_answer, check_answer};
ghost use Rattle.slh_audit.specs.Verdicts.{digest_audit, digest_audit_answer};
ghost use Rattle.slh_audit.specs.Verdicts.{digest_check_answer, digest_of, key_dispute};
ghost use Rattle.slh_audit.specs.Verdicts.{message_audit};
ghost use Rattle.slh_audit.specs.Verdicts.{framed_audit_answer, framed_check_answer};
ghost use Rattle.slh_audit.specs.Verdicts.{hash_audit_answer, hash_check_answer};
ghost use Rattle.slh_audit.specs.Verdicts.{digest_verdict as spec_digest_verdict};
ghost use Rattle.slh_audit.specs.Verdicts.{foreign_by as spec_foreign_by};
ghost use Rattle.slh_core.specs.Bytes.{part};
ghost use Rattle.slh_core.specs.Steps.{IsFresh};
ghost use Rattle.slh_trees.specs.Checking.{signature_size};
ghost use Rattle.slh_frames.specs.Frames.{frame, mode_frame};
ghost use Rattle.slh_frames.specs.Messages.{joined};

use crate::dispute::set_against;
use crate::evidence::{AuditError, Evidence, Verdict};
use crate::layer::same_value;
use crate::size_checks::{check_lengths, message};
use slh_core::array::ArraySize;
use slh_core::equal_parts::part_of;
use slh_core::nbytes::NBytes;
use slh_core::params::{ForsSizes, MAX_DIGEST_LEN, MAX_MESSAGE_LEN, forest_sizes};
use slh_core::steps::Steps;
use slh_frames::{Frame, Message, Mode};
use slh_trees::check::{root_for_digest, write_digest};
use slh_trees::{SigView, top_root};
use std::marker::Brand;
use std::sync::ledger::{Blank, Ledger};

/// The verdict by the first evidence.
fn foreign_by(found: Option<Evidence>) -> Verdict
    ensures { result ≡ spec_foreign_by found }
{
    match found {
        Some(evidence) => Verdict::Foreign(evidence),
        None => Verdict::Genuine,
    }
}

/// Whether the forest's part and all layers are the key's own.
fn all_made(forest: bool, lowest: u32) -> bool
    ensures { IsTrue result ↔ (IsTrue forest × (lowest ≡ 0)) }
{
    forest && lowest == 0
}

/// The verdict on accepted bytes, for a digest. It searches for evidence only where the bytes
/// aren't those that the key makes, and not on the upper layers that are.
fn digest_verdict<P: ForsSizes, L: Ledger>(
    sk_seed: &NBytes<P::N>,
    pk_seed: &NBytes<P::N>,
    digest: &[u8],
    sig: &SigView<'_, P>,
    steps: &mut Steps<L>,
) -> Verdict
    requires { length digest.now ≡ P.M.USIZE }
    ensures { result ≡ spec_digest_verdict P.scheme pk_seed.now sk_seed.now digest.now sig.now }
{
    let dispute = &set_against::<P>(sk_seed, pk_seed, digest, sig);
    let (made, key) = dispute.compare_forest::<L>(steps);
    let lowest = dispute.own_from::<L>(&key, steps);
    if all_made(made, lowest) {
        return Verdict::Genuine;
    }
    foreign_by(dispute.first_evidence::<L>(lowest, steps))
}

/// Whether evidence shows, for a digest.
fn digest_shows<P: ForsSizes, L: Ledger>(
    sk_seed: &NBytes<P::N>,
    pk_seed: &NBytes<P::N>,
    digest: &[u8],
    sig: &SigView<'_, P>,
    evidence: Evidence,
    steps: &mut Steps<L>,
) -> bool
    requires { length digest.now ≡ P.M.USIZE }
    ensures { let D = dispute P.scheme pk_seed.now sk_seed.now digest.now sig.now in
        result ≡ shows D evidence }
{
    let dispute = set_against::<P>(sk_seed, pk_seed, digest, sig);
    dispute.shows::<L>(evidence, steps)
}

// The audit of the bytes of a signature, for a digest.
fn audit_by_digest<P: ForsSizes, L: Ledger>(
    key: &[u8],
    digest: &[u8],
    sig: &SigView<'_, P>,
    blank: Blank,
) -> Result<Verdict, AuditError>
    requires fresh { IsFresh blank L.name L.parts }
    requires key { length key.now ≡ 4 * P.N.USIZE }
    requires digest { length digest.now ≡ P.M.USIZE }
    ensures { result ≡ digest_audit P.scheme key.now digest.now sig.now }
{
    forest_sizes::<P>();
    let mut steps = Steps::<L>::new(blank);
    let sk_seed = part_of::<P::N>(key, 0);
    let pk_seed = part_of::<P::N>(key, 2);
    let pk_root = part_of::<P::N>(key, 3);
    let own = top_root::<P, L>(&sk_seed, &pk_seed, &mut steps);
    if !same_value(&pk_root, &own) {
        return Err(AuditError::KeyMismatch);
    }
    let root = root_for_digest::<P, L>(&pk_seed, digest, sig, &mut steps);
    if !same_value(&root, &pk_root) {
        return Err(AuditError::Invalid);
    }
    Ok(digest_verdict::<P, L>(&sk_seed, &pk_seed, digest, sig, &mut steps))
}

// Whether evidence shows against the bytes of a signature, for a digest.
fn check_by_digest<P: ForsSizes, L: Ledger>(
    key: &[u8],
    digest: &[u8],
    sig: &SigView<'_, P>,
    evidence: Evidence,
    blank: Blank,
) -> bool
    requires fresh { IsFresh blank L.name L.parts }
    requires key { length key.now ≡ 4 * P.N.USIZE }
    requires digest { length digest.now ≡ P.M.USIZE }
    ensures { result ≡ shows (key_dispute P.scheme key.now digest.now sig.now) evidence }
{
    forest_sizes::<P>();
    let mut steps = Steps::<L>::new(blank);
    let sk_seed = part_of::<P::N>(key, 0);
    let pk_seed = part_of::<P::N>(key, 2);
    digest_shows::<P, L>(&sk_seed, &pk_seed, digest, sig, evidence, &mut steps)
}

// Writes H_msg of the message that the three slices joined are, under a key's public parts.
fn write_message_digest<P: ForsSizes>(
    key: &[u8],
    head: &[u8],
    ctx: &[u8],
    msg: &[u8],
    sig: &SigView<'_, P>,
    out: &mut [u8],
)
    requires key { length key.now ≡ 4 * P.N.USIZE }
    requires message { length head.now + length ctx.now + length msg.now ≤ MAX_MESSAGE_LEN }
    requires room { length out.old ≡ P.M.USIZE }
    ensures { let message = head.now ++ ctx.now ++ msg.now in
        out.new ≡ digest_of P.scheme key.now message sig.now }
{
    forest_sizes::<P>();
    let pk_seed = part_of::<P::N>(key, 2);
    let pk_root = part_of::<P::N>(key, 3);
    write_digest::<P>(&pk_seed, &pk_root, head, ctx, msg, sig, out);
}

/// The audit of the bytes of a signature of the message that the three slices joined are.
fn audit_slices<P: ForsSizes, L: Ledger>(
    key: &[u8],
    head: &[u8],
    ctx: &[u8],
    msg: &[u8],
    sig: &SigView<'_, P>,
    blank: Blank,
) -> Result<Verdict, AuditError>
    requires fresh { IsFresh blank L.name L.parts }
    requires key { length key.now ≡ 4 * P.N.USIZE }
    requires message { length head.now + length ctx.now + length msg.now ≤ MAX_MESSAGE_LEN }
    ensures { let message = head.now ++ ctx.now ++ msg.now in
        result ≡ message_audit P.scheme key.now message sig.now }
{
    let mut store = [0u8; MAX_DIGEST_LEN];
    let digest = &mut store[..P::M::USIZE];
    write_message_digest::<P>(key, head, ctx, msg, sig, digest);
    audit_by_digest::<P, L>(key, digest, sig, blank)
}

/// Whether evidence shows against the bytes of a signature of the message that the three slices
/// joined are.
fn check_slices<P: ForsSizes, L: Ledger>(
    key: &[u8],
    head: &[u8],
    ctx: &[u8],
    msg: &[u8],
    sig: &SigView<'_, P>,
    evidence: Evidence,
    blank: Blank,
) -> bool
    requires fresh { IsFresh blank L.name L.parts }
    requires key { length key.now ≡ 4 * P.N.USIZE }
    requires message { length head.now + length ctx.now + length msg.now ≤ MAX_MESSAGE_LEN }
    ensures { let message = head.now ++ ctx.now ++ msg.now in
        result ≡ shows (dispute_of P.scheme key.now message sig.now) evidence }
{
    let mut store = [0u8; MAX_DIGEST_LEN];
    let digest = &mut store[..P::M::USIZE];
    write_message_digest::<P>(key, head, ctx, msg, sig, digest);
    check_by_digest::<P, L>(key, digest, sig, evidence, blank)
}

/// Audits the bytes of a signature of a message with a context, by the signing key of 4n bytes
/// whose holder is said to have made it. `Length`: the key or the signature has a wrong number of
/// bytes; `ContextTooLong`, `MessageTooLong`; `KeyMismatch`: the key's root isn't that of its
/// seeds; `Invalid`: the key doesn't accept the bytes. Bytes that the key makes cost about as much
/// as signing and verifying, others a search of one layer or of the forest more.
pub fn audit<P: ForsSizes>(
    key: &[u8],
    ctx: &[u8],
    msg: &[u8],
    sig: &[u8],
) -> Result<Verdict, AuditError>
    ensures value { result ≡ audit_answer P.scheme key.now ctx.now msg.now sig.now }
    ensures genuine { let message = frame ctx.now msg.now in
        IfOk result (λ verdict. IsGenuineExactly P.scheme key.now message sig.now verdict) }
{
    hash_audit::<P>(Mode::Pure, key, msg, ctx, sig)
}

/// As `audit`, of what was signed in a mode: of the message, or of its digest.
pub fn hash_audit<P: ForsSizes>(
    mode: Mode,
    key: &[u8],
    msg: &[u8],
    ctx: &[u8],
    sig: &[u8],
) -> Result<Verdict, AuditError>
    ensures value { result ≡ hash_audit_answer P.scheme mode key.now ctx.now msg.now sig.now }
    ensures genuine { let message = mode_frame mode ctx.now msg.now in
        IfOk result (λ verdict. IsGenuineExactly P.scheme key.now message sig.now verdict) }
{
    let message = message::<P>(mode, key, msg, ctx, sig)?;
    audit_message::<P>(key, &message, sig)
}

/// As `audit`, of a signature of a message that was made. `Length`, `KeyMismatch`, `Invalid`.
pub fn audit_message<P: ForsSizes>(
    key: &[u8],
    message: &Message<'_>,
    sig: &[u8],
) -> Result<Verdict, AuditError>
    ensures value { result ≡ framed_audit_answer P.scheme key.now (joined message.now) sig.now }
    ensures genuine { let message = joined message.now in
        IfOk result (λ verdict. IsGenuineExactly P.scheme key.now message sig.now verdict) }
{
    let frame = Frame::of(message);
    audit_framed::<P>(key, frame.head(), frame.ctx(), frame.tail(), sig)
}

/// Whether evidence shows against the bytes of a signature, of any key and whether they are
/// accepted or not. `Length`, `ContextTooLong`, `MessageTooLong` as in `audit`. Numbers of a place
/// that isn't there give false.
pub fn check_evidence<P: ForsSizes>(
    key: &[u8],
    ctx: &[u8],
    msg: &[u8],
    sig: &[u8],
    evidence: &Evidence,
) -> Result<bool, AuditError>
    ensures { result ≡ check_answer P.scheme key.now ctx.now msg.now sig.now evidence.now }
{
    hash_check_evidence::<P>(Mode::Pure, key, msg, ctx, sig, evidence)
}

/// As `check_evidence`, of what was signed in a mode.
pub fn hash_check_evidence<P: ForsSizes>(
    mode: Mode,
    key: &[u8],
    msg: &[u8],
    ctx: &[u8],
    sig: &[u8],
    evidence: &Evidence,
) -> Result<bool, AuditError>
    ensures { let e = evidence.now in
        result ≡ hash_check_answer P.scheme mode key.now ctx.now msg.now sig.now e }
{
    let message = message::<P>(mode, key, msg, ctx, sig)?;
    check_message_evidence::<P>(key, &message, sig, evidence)
}

/// As `check_evidence`, of a signature of a message that was made. `Length`.
pub fn check_message_evidence<P: ForsSizes>(
    key: &[u8],
    message: &Message<'_>,
    sig: &[u8],
    evidence: &Evidence,
) -> Result<bool, AuditError>
    ensures { let message = joined message.now in
        result ≡ framed_check_answer P.scheme key.now message sig.now evidence.now }
{
    let frame = Frame::of(message);
    check_evidence_framed::<P>(key, frame.head(), frame.ctx(), frame.tail(), sig, evidence)
}

/// As `audit`, of a signature of the message that `head`, `ctx` and `msg` joined are, as a `Frame`
/// has them. `Length`, `KeyMismatch`, `Invalid`.
pub fn audit_framed<P: ForsSizes>(
    key: &[u8],
    head: &[u8],
    ctx: &[u8],
    msg: &[u8],
    sig: &[u8],
) -> Result<Verdict, AuditError>
    requires { length head.now + length ctx.now + length msg.now ≤ MAX_MESSAGE_LEN }
    ensures value { let message = head.now ++ ctx.now ++ msg.now in
        result ≡ framed_audit_answer P.scheme key.now message sig.now }
    ensures genuine { let message = head.now ++ ctx.now ++ msg.now in
        IfOk result (λ verdict. IsGenuineExactly P.scheme key.now message sig.now verdict) }
{
    let sig = check_lengths::<P>(key, sig)?;
    audit_slices::<P, Brand>(key, head, ctx, msg, &sig, Blank::new(1))
}

/// As `check_evidence`, of a signature of the message that `head`, `ctx` and `msg` joined are, as a
/// `Frame` has them. `Length`.
pub fn check_evidence_framed<P: ForsSizes>(
    key: &[u8],
    head: &[u8],
    ctx: &[u8],
    msg: &[u8],
    sig: &[u8],
    evidence: &Evidence,
) -> Result<bool, AuditError>
    requires { length head.now + length ctx.now + length msg.now ≤ MAX_MESSAGE_LEN }
    ensures { let message = head.now ++ ctx.now ++ msg.now in
        result ≡ framed_check_answer P.scheme key.now message sig.now evidence.now }
{
    match check_lengths::<P>(key, sig) {
        Ok(sig) => {
            let place = *evidence;
            Ok(check_slices::<P, Brand>(key, head, ctx, msg, &sig, place, Blank::new(1)))
        }
        Err(refusal) => Err(refusal),
    }
}

/// As `audit`, of a signature of the message whose digest, as H_msg gives it with the signature's
/// randomizer under the key, is given: for a message that came in pieces. `Length`, `KeyMismatch`,
/// `Invalid`.
pub fn audit_for_digest<P: ForsSizes>(
    key: &[u8],
    digest: &[u8],
    sig: &[u8],
) -> Result<Verdict, AuditError>
    requires { length digest.now ≡ P.M.USIZE }
    ensures { result ≡ digest_audit_answer P.scheme key.now digest.now sig.now }
{
    match check_lengths::<P>(key, sig) {
        Ok(sig) => audit_by_digest::<P, Brand>(key, digest, &sig, Blank::new(1)),
        Err(refusal) => Err(refusal),
    }
}

/// As `check_evidence`, of a signature of the message whose digest is given, as `audit_for_digest`
/// has it. `Length`.
pub fn check_evidence_for_digest<P: ForsSizes>(
    key: &[u8],
    digest: &[u8],
    sig: &[u8],
    evidence: &Evidence,
) -> Result<bool, AuditError>
    requires { length digest.now ≡ P.M.USIZE }
    ensures { result ≡ digest_check_answer P.scheme key.now digest.now sig.now evidence.now }
{
    match check_lengths::<P>(key, sig) {
        Ok(sig) => {
            let place = *evidence;
            Ok(check_by_digest::<P, Brand>(key, digest, &sig, place, Blank::new(1)))
        }
        Err(refusal) => Err(refusal),
    }
}
