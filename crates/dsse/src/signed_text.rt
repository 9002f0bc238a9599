//! What is signed.
ghost use Rattle.std.specs.Prelude.{◌≡◌, ◌++◌, IfOk, OnOk};
ghost use Rattle.dsse.specs.Encoding.{field, pae};

use itoa::Buffer;
use std::alloc::{AllocError, Global};

// More than what stands around the payload, but for its type.
const FRAME: usize = 64;

/// The text that is signed of a payload and its type: DSSE's pre-authentication encoding.
pub fn encoding(alloc: Global, payload_type: &[u8], payload: &[u8]) -> Result<Vec<u8>, AllocError>
    ensures { IfOk result (λ text. text.items ≡ pae payload_type.now payload.now) }
{
    let mut text = Vec::with_capacity(alloc, payload.len() + FRAME)?;
    text.extend_from_slice(b"DSSEv1")?;
    push_field(&mut text, payload_type)?;
    push_field(&mut text, payload)?;
    Ok(text)
}

// A space, the length of the bytes in decimal, another space, and the bytes.
fn push_field(text: &mut Vec<u8>, bytes: &[u8]) -> Result<(), AllocError>
    ensures { OnOk result (text.new.items ≡ text.old.items ++ field bytes.now) }
{
    let mut digits = Buffer::new();
    text.extend_from_slice(b" ")?;
    text.extend_from_slice(digits.format(bytes.len()).as_bytes())?;
    text.extend_from_slice(b" ")?;
    text.extend_from_slice(bytes)
}
