//! A key of one byte, whose signatures are one byte too, by the traits' bounds.
ghost use Rattle.std.specs.Prelude.{◌≡◌, ◌≢◌, ◌+◌, ◌%◌, ◌^◌, ◌≤◌, ◌<◌, ℕ, length};
ghost use Rattle.slh_tests.specs.declared.signature_traits.TooLong.{TooLong};

use crate::shown::shows;
use signature_core::{KeypairRef, Signer, Verifier};
use std::alloc::Global;

// A message of more than three bytes.
#[derive(Clone, Copy)]
struct TooLong;

#[derive(Clone, Copy)]
struct Tag {
    byte: u8,
}

#[derive(Clone, Copy)]
struct Key {
    byte: u8,
}

#[derive(Clone, Copy)]
struct Public {
    byte: u8,
}

impl Signer<Tag> for Key {
    type Error = TooLong;

    ghost signs = { λ _ msg. length msg ≤ 3 };

    ghost signature = { λ key msg. record { byte = (key.byte + length msg) % 256 } };

    ghost may_refuse = { λ _ msg _. 3 < length msg };

    fn try_sign(&self, _alloc: Global, msg: &[u8]) -> Result<Tag, TooLong> {
        if msg.len() > 3 {
            return Err(TooLong);
        }
        Ok(Tag {
            byte: self.byte.wrapping_add(msg.len() as u8),
        })
    }
}

impl KeypairRef for Key {
    type VerifyingKey = Public;

    ghost verifying_key = { λ key. record { byte = key.byte } };

    fn verifying_key(&self) -> Public {
        Public { byte: self.byte }
    }
}

impl Verifier<Tag> for Public {
    type Error = TooLong;

    ghost accepts = { λ key msg tag. tag.byte ≡ (key.byte + length msg) % 256 };

    ghost may_refuse = { λ key msg tag _. tag.byte ≢ (key.byte + length msg) % 256 };

    fn verify(&self, msg: &[u8], signature: &Tag) -> Result<(), TooLong> {
        let len = (msg.len() % 256) as u8;
        if signature.byte != self.byte.wrapping_add(len) {
            return Err(TooLong);
        }
        Ok(())
    }
}

// Whether what the key signs is accepted.
fn accepts_own<S: Drop, K: Signer<S> + KeypairRef>(alloc: Global, key: &K, msg: &[u8]) -> bool
where
    K::Error: Drop,
    K::VerifyingKey: Verifier<S> + Drop,
    <K::VerifyingKey as Verifier<S>>::Error: Drop,
{
    match key.try_sign(alloc, msg) {
        Ok(signature) => key.verifying_key().verify(msg, &signature).is_ok(),
        Err(_) => false,
    }
}

#[test]
fn example_of_the_page(rt: HostRuntime) {
    let key = Key { byte: 255 };
    shows(
        &rt,
        accepts_own(rt.alloc(), &key, b"abc") && !accepts_own(rt.alloc(), &key, b"abcd"),
    );
}
