//! The derivation of a key.
ghost use Rattle.std.specs.Prelude.{◌≡◌, ℕ, ◌-◌, ◌^◌, ◌≤◌, List, length, take};
ghost use Rattle.pbkdf2.specs.Keyed.{IsKeyed};
ghost use Rattle.pbkdf2.specs.Pbkdf2.{added, block, first_code, pbkdf2, summed};

use crate::keyed::{CODE_BYTES, Code, Keyed};
use hmac_sha256::HMAC;

// The sum of two codes.
#[inline(always)]
fn added(x: &Code, y: &Code) -> Code
    ensures { result ≡ added x.now y.now }
{
    let mut bytes = [0u8; CODE_BYTES];
    'each_byte: for i in 0..CODE_BYTES {
        bytes[i] = x[i] ^ y[i];
    }
    bytes
}

// The sum of a code and of those after it, of so many.
fn summed(keyed: &Keyed, first: &Code, count: u32) -> Code
    requires { 1 ≤ count }
    ensures { (key : List ℕ) → IsKeyed keyed.now key → result ≡ summed key first.now (count - 1) }
{
    let mut code = *first;
    let mut sum = *first;
    'codes: for k in 1..count {
        code = keyed.next(&code);
        sum = added(&sum, &code);
    }
    sum
}

// The first code of block i.
fn first_code(password: &[u8], salt: &[u8], i: u32) -> Code
    requires password { length password.now ≤ 2 ^ 60 }
    requires salt { length salt.now ≤ 2 ^ 60 }
    ensures { result ≡ first_code password.now salt.now i }
{
    let mut mac = HMAC::new(password);
    mac.update(salt);
    mac.update(&i.to_be_bytes());
    mac.finalize()
}

/// The key of at most 32 bytes that a password, a salt and a count of iterations give: the first of
/// these bytes.
pub fn derive(password: &[u8], salt: &[u8], count: u32) -> [u8; 32]
    requires password { length password.now ≤ 2 ^ 60 }
    requires salt { length salt.now ≤ 2 ^ 60 }
    requires some { 1 ≤ count }
    ensures { (n : ℕ) → n ≤ 32 → pbkdf2 password.now salt.now count n ≡ take n result }
{
    let first = first_code(password, salt, 1);
    summed(&Keyed::new(password), &first, count)
}
