//! Receipts of messages that were signed together, heads, and messages under them.
ghost use Rattle.std.specs.Prelude.{◌≡◌, ◌≢◌, Err};
ghost use Rattle.slh_batch.specs.Heads.{head_count, head_root};
ghost use Rattle.slh_dsa_c.specs.Batches.{accept_number, accept_status, head_answer, head_number};
ghost use Rattle.slh_dsa_c.specs.Batches.{head_status, receipt_number, under_status};

use crate::set::read_in_set;
use crate::status::{FORM, INVALID, LENGTH, MESSAGE_TOO_LONG, OK, UNKNOWN_SET};
use slh_batch::{Head, HeadError, ReceiptError, accept, accept_under};
use slh_dsa::VerifyingKey;
use slh_sets::{OnSet, SetSuite};

// The number of a refusal.
fn number_of_receipt(error: ReceiptError) -> u32
    ensures { result ≡ receipt_number error }
{
    match error {
        ReceiptError::Form => FORM,
        ReceiptError::Message => MESSAGE_TOO_LONG,
        ReceiptError::Invalid => INVALID,
    }
}

// The receipt of a message.
#[derive(Drop)]
struct Accept<'a> {
    public: &'a [u8],
    msg: &'a [u8],
    receipt: &'a [u8],
}

impl<'a> OnSet for Accept<'a> {
    type Out = u32;

    ghost gives = { λ c Z _ result. result
        ≡ accept_number Z c.public.now c.msg.now c.receipt.now };

    fn on<P: SetSuite>(self) -> u32 {
        let Ok(key) = VerifyingKey::<P>::try_from(self.public) else {
            return LENGTH;
        };
        match accept(&key, self.msg, self.receipt) {
            Ok(()) => OK,
            Err(error) => number_of_receipt(error),
        }
    }
}

/// Checks the receipt of a message under the key of its batch.
#[unsafe(no_mangle)]
pub extern "C" fn slh_batch_accept(set: u32, public: &[u8], msg: &[u8], receipt: &[u8]) -> u32
    ensures { result ≡ accept_status set public.now msg.now receipt.now }
{
    let call = Accept {
        public,
        msg,
        receipt,
    };
    read_in_set(set, call, UNKNOWN_SET)
}

/// What the head of a batch says.
#[repr(C)]
#[derive(Drop)]
pub struct CBatchHead {
    /// How many messages the batch has.
    pub count: u32,
    /// The root of the tree over them.
    pub root: [u8; 32],
}

// The number of a refusal of a head.
fn number_of_head(error: HeadError) -> u32
    ensures value { result ≡ head_number error }
    ensures some { result ≢ 0 }
{
    match error {
        HeadError::Form => FORM,
        HeadError::Invalid => INVALID,
    }
}

// A head under a verifying key.
#[derive(Drop)]
struct Open<'a> {
    public: &'a [u8],
    head: &'a [u8],
}

impl<'a> OnSet for Open<'a> {
    type Out = Result<CBatchHead, u32>;

    ghost gives = { λ c Z _ result. result ≡ head_answer Z c.public.now c.head.now };

    fn on<P: SetSuite>(self) -> Result<CBatchHead, u32> {
        let Ok(key) = VerifyingKey::<P>::try_from(self.public) else {
            return Err(LENGTH);
        };
        match Head::open(&key, self.head) {
            Ok(opened) => Ok(CBatchHead {
                count: opened.count(),
                root: *opened.root(),
            }),
            Err(error) => Err(number_of_head(error)),
        }
    }
}

/// Reads a batch's head and verifies its signature, once. Writes what it says.
#[unsafe(no_mangle)]
pub extern "C" fn slh_batch_open(
    set: u32,
    public: &[u8],
    bytes: &[u8],
    head: &mut CBatchHead,
) -> u32
    ensures status { result ≡ head_status set public.now bytes.now }
    ensures count { result ≡ 0 → head.new.count ≡ head_count bytes.now }
    ensures root { result ≡ 0 → head.new.root ≡ head_root bytes.now }
    ensures same { result ≢ 0 → head.new ≡ head.old }
{
    let call = Open {
        public,
        head: bytes,
    };
    match read_in_set(set, call, Err(UNKNOWN_SET)) {
        Ok(opened) => {
            *head = opened;
            OK
        }
        Err(number) => number,
    }
}

/// Checks by a path, of 32 bytes a digest, that message `index` of a batch is this one, under a head
/// that was opened.
#[unsafe(no_mangle)]
pub extern "C" fn slh_batch_accept_under(
    head: &CBatchHead,
    msg: &[u8],
    index: u32,
    path: &[u8],
) -> u32
    ensures { result ≡ under_status head.now index msg.now path.now }
{
    let (digests, rest) = path.as_chunks();
    if !rest.is_empty() {
        return LENGTH;
    }
    let Some(opened) = Head::reopen(head.count, &head.root) else {
        return FORM;
    };
    match accept_under(&opened, msg, index, digests) {
        Ok(()) => OK,
        Err(error) => number_of_receipt(error),
    }
}
