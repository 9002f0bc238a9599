//! Checkpoints by the bytes of keys, in a set that is known only when the program runs.
ghost use Rattle.std.specs.Prelude.{◌≡◌, IfOk};
ghost use Rattle.std.specs.Option.{option_copied};
ghost use Rattle.slh_log.specs.Texts.{signed_checkpoint};
ghost use Rattle.slh_bytes.specs.LogHeads.{IsHeadBy, no_memory, sign_refusal};
ghost use Rattle.slh_sets.specs.Sets.{name_of, scheme_for};
ghost use Rattle.slh_core.specs.Refusals.{RefusedOrNoMemory};

use slh_dsa::{SigningKey, VerifyingKey};
use slh_log::{Checkpoint, CheckpointError, OpenError, checkpoint, open};
use slh_sets::{OnSet, Set, SetSuite};
use std::alloc::Global;

// A checkpoint that is to be opened.
#[derive(Drop)]
struct Opening<'a> {
    key: &'a [u8],
    origin: &'a str,
    bytes: &'a [u8],
}

impl<'a> OnSet for Opening<'a> {
    type Out = Result<Checkpoint, OpenError>;

    ghost gives = { λ c Z name result. IsHeadBy Z name c.key.now c.origin.now c.bytes.now result };

    fn on<P: SetSuite>(self) -> Result<Checkpoint, OpenError> {
        let Ok(key) = VerifyingKey::<P>::try_from(self.key) else {
            return Err(OpenError::Unsigned);
        };
        open(&key, self.origin, self.bytes)
    }
}

/// What a checkpoint says that is signed by a verifying key of a set under an origin, as
/// [`slh_log::open`] tells it. Bytes that are no key of the set signed nothing: `Unsigned`. Takes no
/// memory, and keeps 256 KiB on the stack.
pub fn open_head(set: Set, key: &[u8], origin: &str, bytes: &[u8]) -> Result<Checkpoint, OpenError>
    ensures { IsHeadBy (scheme_for set) (name_of set) key.now origin.now bytes.now result }
{
    set.run(Opening { key, origin, bytes })
}

/// Why a head isn't signed, the first of the causes in this order.
#[derive(Clone, Copy, Debug, PartialEq, Eq)]
pub enum SignHeadError {
    /// The bytes are no key of the set.
    Key,
    /// The checkpoint isn't made.
    Head(CheckpointError),
}

// A head that is to be signed.
#[derive(Drop)]
struct Signing<'a> {
    alloc: Global,
    key: &'a [u8],
    origin: &'a str,
    head: Checkpoint,
    opt_rand: Option<&'a [u8]>,
}

impl<'a> OnSet for Signing<'a> {
    type Out = Result<Vec<u8>, SignHeadError>;

    ghost gives = { λ c Z name result. let opt_rand = option_copied c.opt_rand in
        RefusedOrNoMemory no_memory result (sign_refusal Z c.key.now c.origin.now opt_rand)
        × IfOk result (λ note. note.items ≡ signed_checkpoint Z name c.key.now opt_rand c.origin.now
        c.head.size c.head.root) };

    fn on<P: SetSuite>(self) -> Result<Vec<u8>, SignHeadError> {
        let Ok(key) = SigningKey::<P>::try_from(self.key) else {
            return Err(SignHeadError::Key);
        };
        let Signing {
            alloc,
            origin,
            head,
            opt_rand,
            ..
        } = self;
        match checkpoint(alloc, &key, origin, head.size, &head.root, opt_rand) {
            Ok(note) => Ok(note),
            Err(error) => Err(SignHeadError::Head(error)),
        }
    }
}

/// The checkpoint of a head under an origin, by a signing key of a set, as [`slh_log::checkpoint`]
/// makes it. `Key`; `Head` with the cause that it tells.
pub fn sign_head(
    alloc: Global,
    set: Set,
    key: &[u8],
    origin: &str,
    head: Checkpoint,
    opt_rand: Option<&[u8]>,
) -> Result<Vec<u8>, SignHeadError>
    ensures refusal { let opt_rand = option_copied opt_rand.entry in
        RefusedOrNoMemory no_memory result
        (sign_refusal (scheme_for set) key.now origin.now opt_rand) }
    ensures value { let opt_rand = option_copied opt_rand.entry in
        IfOk result (λ note. note.items ≡ signed_checkpoint (scheme_for set) (name_of set)
        key.now opt_rand origin.now head.size head.root) }
{
    set.run(Signing {
        alloc,
        key,
        origin,
        head,
        opt_rand,
    })
}
