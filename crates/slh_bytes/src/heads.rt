//! The bytes that stand before a key in DER (RFC 9909).
ghost use Rattle.std.specs.Prelude.{◌≡◌, ◌≤◌, ◌++◌, ℕ, List, length};
ghost use Rattle.slh_bytes.specs.Heads.{algorithm, der_of, key_len};
ghost use Rattle.slh_bytes.specs.declared.key.Kind.TheVariants.{Signing, Verifying};

use crate::key::Kind;
use slh_sets::Set;

/// The bytes before a key.
pub(crate) fn head(kind: Kind, set: Set) -> &'static [u8]
    ensures value { (key : List ℕ) → length key ≡ key_len kind set
        → result.now ++ key ≡ der_of kind set key }
    ensures most { length result.now ≤ 22 }
{
    match kind {
        Kind::Signing => signing_head(set),
        Kind::Verifying => verifying_head(set),
    }
}

/// The AlgorithmIdentifier of a set.
pub(crate) fn algorithm(set: Set) -> &'static [u8]
    ensures { result.now ≡ algorithm set }
{
    match set {
        Set::Sha2_128s => b"\x30\x0b\x06\x09\x60\x86\x48\x01\x65\x03\x04\x03\x14",
        Set::Sha2_128f => b"\x30\x0b\x06\x09\x60\x86\x48\x01\x65\x03\x04\x03\x15",
        Set::Sha2_192s => b"\x30\x0b\x06\x09\x60\x86\x48\x01\x65\x03\x04\x03\x16",
        Set::Sha2_192f => b"\x30\x0b\x06\x09\x60\x86\x48\x01\x65\x03\x04\x03\x17",
        Set::Sha2_256s => b"\x30\x0b\x06\x09\x60\x86\x48\x01\x65\x03\x04\x03\x18",
        Set::Sha2_256f => b"\x30\x0b\x06\x09\x60\x86\x48\x01\x65\x03\x04\x03\x19",
    }
}

fn signing_head(set: Set) -> &'static [u8]
    ensures value { (key : List ℕ) → length key ≡ key_len Signing set
        → result.now ++ key ≡ der_of Signing set key }
    ensures most { length result.now ≤ 22 }
{
    match set {
        Set::Sha2_128s =>
            b"\x30\x52\x02\x01\x00\x30\x0b\x06\x09\x60\x86\x48\x01\x65\x03\x04\x03\x14\x04\x40",
        Set::Sha2_128f =>
            b"\x30\x52\x02\x01\x00\x30\x0b\x06\x09\x60\x86\x48\x01\x65\x03\x04\x03\x15\x04\x40",
        Set::Sha2_192s =>
            b"\x30\x72\x02\x01\x00\x30\x0b\x06\x09\x60\x86\x48\x01\x65\x03\x04\x03\x16\x04\x60",
        Set::Sha2_192f =>
            b"\x30\x72\x02\x01\x00\x30\x0b\x06\x09\x60\x86\x48\x01\x65\x03\x04\x03\x17\x04\x60",
        Set::Sha2_256s => {
            b"\x30\x81\x93\x02\x01\x00\x30\x0b\x06\x09\x60\x86\x48\x01\x65\x03\x04\x03\x18\
              \x04\x81\x80"
        }
        Set::Sha2_256f => {
            b"\x30\x81\x93\x02\x01\x00\x30\x0b\x06\x09\x60\x86\x48\x01\x65\x03\x04\x03\x19\
              \x04\x81\x80"
        }
    }
}

fn verifying_head(set: Set) -> &'static [u8]
    ensures value { (key : List ℕ) → length key ≡ key_len Verifying set
        → result.now ++ key ≡ der_of Verifying set key }
    ensures most { length result.now ≤ 22 }
{
    match set {
        Set::Sha2_128s =>
            b"\x30\x30\x30\x0b\x06\x09\x60\x86\x48\x01\x65\x03\x04\x03\x14\x03\x21\x00",
        Set::Sha2_128f =>
            b"\x30\x30\x30\x0b\x06\x09\x60\x86\x48\x01\x65\x03\x04\x03\x15\x03\x21\x00",
        Set::Sha2_192s =>
            b"\x30\x40\x30\x0b\x06\x09\x60\x86\x48\x01\x65\x03\x04\x03\x16\x03\x31\x00",
        Set::Sha2_192f =>
            b"\x30\x40\x30\x0b\x06\x09\x60\x86\x48\x01\x65\x03\x04\x03\x17\x03\x31\x00",
        Set::Sha2_256s =>
            b"\x30\x50\x30\x0b\x06\x09\x60\x86\x48\x01\x65\x03\x04\x03\x18\x03\x41\x00",
        Set::Sha2_256f =>
            b"\x30\x50\x30\x0b\x06\x09\x60\x86\x48\x01\x65\x03\x04\x03\x19\x03\x41\x00",
    }
}
