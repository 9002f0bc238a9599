//! HKDF with SHA-256 (RFC 5869).

ghost use Rattle.std.specs.Prelude.{◌≡◌, ℕ, ◌+◌, ◌^◌, ◌≤◌, List, [], ◌∷◌, ◌++◌, length};
ghost use Rattle.hmac_sha256.specs.Hkdf.{hkdf_expand, hkdf_extract};
ghost use Rattle.hmac_sha256.specs.Hmac.{hmac_sha256};
ghost use Rattle.hmac_sha256.specs.Mac.{Authenticates, mac_absorbed_bytes};

use crate::mac::HMAC;

/// How many bytes one step of the expansion gives.
const STEP_BYTES: usize = 32;

/// Keys derived from keying material: `extract` makes a pseudorandom key of it, and `expand` makes
/// as many bytes from that key as are wanted.
pub struct HKDF;

impl HKDF {
    /// The pseudorandom key of the keying material `ikm` under a salt, which may be empty
    /// (RFC 5869, 2.2). Each has at most 2^60 bytes.
    pub fn extract(salt: &[u8], ikm: &[u8]) -> [u8; 32]
        requires salt { length salt.now ≤ 2 ^ 60 }
        requires ikm { length ikm.now ≤ 2 ^ 60 }
        ensures { result ≡ hkdf_extract salt.now ikm.now }
    {
        HMAC::mac(ikm, salt)
    }

    /// Fills `out` with output keying material (RFC 5869, 2.3): at most 255 steps of 32 bytes. The
    /// key `prk` and the context `info`, which may be empty, have at most 2^60 bytes each.
    pub fn expand(out: &mut [u8], prk: &[u8], info: &[u8])
        requires out { length out.old ≤ 8160 }
        requires prk { length prk.now ≤ 2 ^ 60 }
        requires info { length info.now ≤ 2 ^ 60 }
        ensures { out.new ≡ hkdf_expand prk.now info.now (length out.old) }
    {
        let keyed = HMAC::new(prk);
        let len = out.len();
        'each_step: for i in 0..len.div_ceil(STEP_BYTES) {
            let start = STEP_BYTES * i;
            let end = len.min(start + STEP_BYTES);
            let previous = &out[start.saturating_sub(STEP_BYTES)..start];
            let step = output_step(&keyed, previous, info, i as u8 + 1);
            out[start..end].copy_from_slice(&step[..end - start]);
        }
    }
}

// One step of the expansion, from the HMAC of nothing under the key.
fn output_step(keyed: &HMAC, previous: &[u8], info: &[u8], number: u8) -> [u8; 32]
    requires begins { mac_absorbed_bytes keyed.now ≡ 64 }
    requires previous { length previous.now ≤ 32 }
    requires info { length info.now ≤ 2 ^ 60 }
    ensures { (key : List ℕ) → Authenticates keyed.now key []
        → result ≡ hmac_sha256 key (previous.now ++ info.now ++ number ∷ []) }
{
    let mut mac = keyed.copy();
    mac.update(previous);
    mac.update(info);
    mac.update(&[number]);
    mac.finalize()
}
