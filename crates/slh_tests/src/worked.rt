// A key of the toy suite with secret seed 5, PRF key 7 and public seed 3, and its signature of the
// message 48 under an empty context without a randomizer. The values were worked by hand from the
// definitions.
// Each operation on keys of the suite stands here once: a call that names a set is dear to prove.

use slh_dsa::{Error, SigningKey};
use slh_merkle::toy::Toy;

pub(crate) const KEY: [u8; 4] = [5, 7, 3, 0xe1];

pub(crate) const MESSAGE: [u8; 1] = [0x48];

// The randomizer, the forest's part, and the two layers' parts.
pub(crate) const SIGNATURE: [u8; 21] = [
    0x52, 0x52, 0x34, 0x89, 0x73, 0x3b, 0x15, 0x14, 0x1a, 0x49, 0x2b, 0x57, 0xa3, 0x3e, 0x1e, 0x17,
    0x2f, 0x36, 0x20, 0xa3, 0x3e,
];

// The signature with some of its bytes changed, and zeros where it has no such place.
pub(crate) fn changed(changes: &[(usize, u8)]) -> [u8; 21] {
    let mut sig = SIGNATURE;
    for (place, value) in changes {
        if *place >= 21 {
            return [0; 21];
        }
        sig[*place] = *value;
    }
    sig
}

pub(crate) fn signing_key(bytes: &[u8]) -> Result<SigningKey<Toy>, Error> {
    SigningKey::try_from(bytes)
}
