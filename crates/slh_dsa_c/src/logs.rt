//! Heads of logs, and proofs that are checked against them.
ghost use Rattle.std.specs.Prelude.{◌≡◌, ◌≢◌, length, Some};
ghost use Rattle.slh_dsa_c.specs.Logs.{IsOpened, growth_number, growth_status, log_open_status};
ghost use Rattle.slh_dsa_c.specs.Logs.{open_number, presence_number, presence_status};
ghost use Rattle.slh_log.specs.Reading.{read_root, read_size};

use crate::status::{
    EMPTY, FORM, INVALID, LENGTH, MESSAGE_TOO_LONG, NO_ENTRY, OK, ORIGIN, SMALLER, UNKNOWN_SET,
    UNSIGNED, tell,
};
use slh_dsa::VerifyingKey;
use slh_log::{
    Checkpoint, GrowthError, OpenError, PresenceError, check_growth, check_presence, open_in,
    text_of,
};
use slh_sets::{OnSetInScratch, Set, SetSuite};

/// What the head of a log says.
#[repr(C)]
#[derive(Drop)]
pub struct CHead {
    /// How many entries the log has.
    pub size: u64,
    /// The root of the tree over them.
    pub root: [u8; 32],
}

impl CHead {
    // The head as the library has it.
    fn read(&self) -> Checkpoint
        ensures size { result.size ≡ self.now.size }
        ensures root { result.root ≡ self.now.root }
    {
        Checkpoint {
            size: self.size,
            root: self.root,
        }
    }
}

// The number of a refusal to open.
fn number_of_open(error: OpenError) -> u32
    ensures value { result ≡ open_number error }
    ensures some { result ≢ 0 }
{
    match error {
        OpenError::Form => FORM,
        OpenError::Origin => ORIGIN,
        OpenError::Unsigned => UNSIGNED,
        OpenError::Invalid => INVALID,
    }
}

// The number of a refusal of an entry.
fn number_of_presence(error: PresenceError) -> u32
    ensures { result ≡ presence_number error }
{
    match error {
        PresenceError::Index => NO_ENTRY,
        PresenceError::Entry => MESSAGE_TOO_LONG,
        PresenceError::Length => LENGTH,
        PresenceError::Invalid => INVALID,
    }
}

// The number of a refusal of a growth.
fn number_of_growth(error: GrowthError) -> u32
    ensures { result ≡ growth_number error }
{
    match error {
        GrowthError::Empty => EMPTY,
        GrowthError::Smaller => SMALLER,
        GrowthError::Length => LENGTH,
        GrowthError::Invalid => INVALID,
    }
}

// A checkpoint of a log with an origin.
#[derive(Clone, Copy)]
struct Open<'a> {
    public: &'a [u8],
    origin: &'a [u8],
    checkpoint: &'a [u8],
}

impl<'a> OnSetInScratch for Open<'a> {
    type Out = Result<CHead, u32>;

    ghost gives = { λ c Z name len result. IsOpened Z name c.public.now c.origin.now
        c.checkpoint.now len result };

    fn on<P: SetSuite>(self, scratch: &mut [u8]) -> Result<CHead, u32> {
        let Ok(key) = VerifyingKey::<P>::try_from(self.public) else {
            return Err(LENGTH);
        };
        if scratch.len() < 4 || scratch.len() - 4 < P::SIG_LEN {
            return Err(LENGTH);
        }
        let signed = &mut scratch[..4 + P::SIG_LEN];
        match open_in(&key, text_of(self.origin), self.checkpoint, signed) {
            Ok(head) => {
                let root = head.root;
                Ok(CHead {
                    size: head.size,
                    root,
                })
            }
            Err(error) => Err(number_of_open(error)),
        }
    }
}

/// Opens a checkpoint that a key signed for the log of an origin, in a buffer of the caller's of at
/// least 4 bytes more than a signature of the set has. What the buffer holds afterwards isn't said.
#[unsafe(no_mangle)]
pub extern "C" fn slh_log_open(
    set: u32,
    public: &[u8],
    origin: &[u8],
    checkpoint: &[u8],
    scratch: &mut [u8],
    head: &mut CHead,
) -> u32
    ensures status { result ≡ log_open_status set public.now origin.now checkpoint.now
        (length scratch.old) }
    ensures size { result ≡ 0 → read_size checkpoint.now ≡ Some head.new.size }
    ensures root { result ≡ 0 → read_root checkpoint.now ≡ Some head.new.root }
    ensures same { result ≢ 0 → head.new ≡ head.old }
{
    let call = Open {
        public,
        origin,
        checkpoint,
    };
    let Some(set) = Set::from_number(set) else {
        return UNKNOWN_SET;
    };
    tell(set.run_in_scratch(call, scratch), head)
}

/// Checks by an inclusion proof, of 32 bytes a digest, that entry `index` of a log is `entry` (RFC 9162,
/// 2.1.3.2).
#[unsafe(no_mangle)]
pub extern "C" fn slh_log_check_presence(
    head: &CHead,
    index: u64,
    entry: &[u8],
    proof: &[u8],
) -> u32
    ensures { result ≡ presence_status head.now index entry.now proof.now }
{
    let (digests, rest) = proof.as_chunks();
    if !rest.is_empty() {
        return LENGTH;
    }
    match check_presence(&head.read(), index, entry, digests) {
        Ok(()) => OK,
        Err(error) => number_of_presence(error),
    }
}

/// Checks by a consistency proof, of 32 bytes a digest, that a log grew from an old head to a new one and kept
/// all entries (RFC 9162, 2.1.4.2).
#[unsafe(no_mangle)]
pub extern "C" fn slh_log_check_growth(old: &CHead, new: &CHead, proof: &[u8]) -> u32
    ensures { result ≡ growth_status old.now new.now proof.now }
{
    let (digests, rest) = proof.as_chunks();
    if !rest.is_empty() {
        return LENGTH;
    }
    match check_growth(&old.read(), &new.read(), digests) {
        Ok(()) => OK,
        Err(error) => number_of_growth(error),
    }
}
