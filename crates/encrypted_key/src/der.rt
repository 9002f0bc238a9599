//! Elements of DER, read and written.
ghost use Rattle.std.specs.Prelude.{◌≡◌, ◌+◌, ◌<◌, ◌≤◌, ◌++◌, None, Some};
ghost use Rattle.std.specs.Prelude.{IfOk, MatchOption, length};
ghost use Rattle.encrypted_key.specs.Der.{alone, cut, element, length_bytes, number_of};
ghost use Rattle.encrypted_key.specs.Der.{parted, sized};

use std::alloc::{AllocError, Global};

// Tags of elements.
pub(crate) const INTEGER: u8 = 0x02;

pub(crate) const OCTETS: u8 = 0x04;

pub(crate) const IDENTIFIER: u8 = 0x06;

pub(crate) const SEQUENCE: u8 = 0x30;

// The first n bytes, and what stands behind them.
fn parted(n: usize, bytes: &[u8]) -> Option<(&[u8], &[u8])>
    ensures { MatchOption result (parted n bytes.now ≡ None)
        (λ parts. parted n bytes.now ≡ Some (parts.0.now, parts.1.now)) }
{
    if n <= bytes.len() {
        Some((&bytes[..n], &bytes[n..]))
    } else {
        None
    }
}

// The content and what stands behind it, of bytes that begin with a length.
#[tactic(auto, unfolding(crate::specs::Der::sized))]
fn sized(bytes: &[u8]) -> Option<(&[u8], &[u8])>
    ensures { MatchOption result (sized bytes.now ≡ None)
        (λ parts. sized bytes.now ≡ Some (parts.0.now, parts.1.now)) }
{
    if bytes.len() == 0 {
        return None;
    }
    if bytes[0] < 128 {
        return parted(bytes[0] as usize, &bytes[1..]);
    }
    if bytes[0] == 0x81 {
        if bytes.len() < 2 || bytes[1] < 128 {
            return None;
        }
        return parted(bytes[1] as usize, &bytes[2..]);
    }
    if bytes[0] == 0x82 {
        if bytes.len() < 3 || bytes[1] == 0 {
            return None;
        }
        return parted(256 * bytes[1] as usize + bytes[2] as usize, &bytes[3..]);
    }
    None
}

/// The content of the first element, if it has this tag, and what stands behind the element.
#[tactic(auto, unfolding(crate::specs::Der::cut))]
pub(crate) fn cut(tag: u8, bytes: &[u8]) -> Option<(&[u8], &[u8])>
    ensures { MatchOption result (cut tag bytes.now ≡ None)
        (λ parts. cut tag bytes.now ≡ Some (parts.0.now, parts.1.now)) }
{
    if bytes.len() == 0 {
        return None;
    }
    if bytes[0] == tag {
        sized(&bytes[1..])
    } else {
        None
    }
}

/// The content of the only element.
pub(crate) fn alone(tag: u8, bytes: &[u8]) -> Option<&[u8]>
    ensures { MatchOption result (alone tag bytes.now ≡ None)
        (λ content. alone tag bytes.now ≡ Some content.now) }
{
    let Some((content, rest)) = cut(tag, bytes) else {
        return None;
    };
    if rest.len() == 0 { Some(content) } else { None }
}

/// The number of an INTEGER's content of at most four bytes.
#[tactic(auto, unfolding(crate::specs::Der::number_of))]
pub(crate) fn number_of(bytes: &[u8]) -> Option<u32>
    ensures { result ≡ number_of bytes.now }
{
    let n = bytes.len();
    if n == 0 || bytes[0] >= 128 {
        return None;
    }
    let first = bytes[0] as u32;
    if n == 1 {
        return Some(first);
    }
    if bytes[0] == 0 && bytes[1] < 128 {
        return None;
    }
    let two = 256 * first + bytes[1] as u32;
    match n {
        2 => Some(two),
        3 => Some(256 * two + bytes[2] as u32),
        4 => Some(256 * (256 * two + bytes[2] as u32) + bytes[3] as u32),
        _ => None,
    }
}

/// An element.
#[tactic(auto, unfolding(crate::specs::Der::element, crate::specs::Der::length_bytes))]
pub(crate) fn element(alloc: Global, tag: u8, content: &[u8]) -> Result<Vec<u8>, AllocError>
    requires { length content.now < 65536 }
    ensures value { IfOk result (λ bytes. bytes.items ≡ element tag content.now) }
    ensures length { IfOk result (λ bytes. length bytes.items ≤ length content.now + 4) }
{
    let mut bytes = Vec::new(alloc);
    let n = content.len();
    bytes.push(tag)?;
    if n < 128 {
        bytes.push(n as u8)?;
    } else if n < 256 {
        bytes.push(0x81)?;
        bytes.push(n as u8)?;
    } else {
        bytes.push(0x82)?;
        bytes.push((n / 256) as u8)?;
        bytes.push((n % 256) as u8)?;
    }
    bytes.extend_from_slice(content)?;
    Ok(bytes)
}

/// Bytes behind others.
pub(crate) fn joined(alloc: Global, front: &[u8], back: &[u8]) -> Result<Vec<u8>, AllocError>
    ensures { IfOk result (λ bytes. bytes.items ≡ front.now ++ back.now) }
{
    let mut bytes = Vec::from_slice(alloc, front)?;
    bytes.extend_from_slice(back)?;
    Ok(bytes)
}
