//! Object identifiers (X.660), as the octets of X.690, 8.19.

ghost use Rattle.std.specs.Prelude.{◌≡◌, ℕ, ◌+◌, ◌*◌, ◌^◌, ◌≤◌, ◌<◌, ◌↔◌, List, [], ◌∷◌, ◌++◌};
ghost use Rattle.std.specs.Prelude.{length, take, drop, IsOk, IfOk, IfErr, IfSome, IfNone, OnErr};
ghost use Rattle.std.specs.Prelude.{Some, None, false};
ghost use Rattle.digest_core.specs.Oid.{AllSmall, arcs_of, base_128, base_128_all, encoding};
ghost use Rattle.digest_core.specs.Oid.{first_arc, numbers, second_arc};
ghost use Rattle.digest_core.specs.OidRefusals.{is_out_of_range, refusal};
ghost use Rattle.digest_core.specs.declared.oid.OidError.TheVariants.{TooLong};

use std::marker::Model;

/// The most octets of an object identifier.
const MAX_OCTETS: usize = 39;

/// The most octets of a number below 2^35.
const MAX_GROUPS: usize = 5;

/// The tag of an object identifier (X.690, 8.19 and 8.1.2).
const OID_TAG: u8 = 0x06;

/// Why arcs are no object identifier, in the order of the checks.
#[derive(Clone, Copy, Debug, PartialEq, Eq)]
pub enum OidError {
    /// There are fewer than two arcs.
    TooFew,
    /// The first arc is over 2, or the second over 39 under a first of 0 or 1.
    Range,
    /// There are more than 39 octets.
    TooLong,
}

// The groups of seven bits of a number, and how many of them are left out.
fn base_128(n: u64) -> ([u8; MAX_GROUPS], usize)
    requires { n < 2 ^ 35 }
    ensures value { drop result.1 result.0 ≡ base_128 n }
    ensures count { result.1 < 5 }
{
    let groups = [
        128 + (n / (1 << 28) % 128) as u8,
        128 + (n / (1 << 21) % 128) as u8,
        128 + (n / (1 << 14) % 128) as u8,
        128 + (n / (1 << 7) % 128) as u8,
        (n % 128) as u8,
    ];
    if n < 1 << 7 {
        (groups, 4)
    } else if n < 1 << 14 {
        (groups, 3)
    } else if n < 1 << 21 {
        (groups, 2)
    } else if n < 1 << 28 {
        (groups, 1)
    } else {
        (groups, 0)
    }
}

// Octets that are put together.
#[derive(Drop)]
struct Octets {
    bytes: [u8; MAX_OCTETS],
    len: usize,
}

impl Model for Octets {
    ghost use Rattle.std.specs.Prelude.{ℕ, List, take, ◌≤◌};

    ghost Value = { List ℕ };

    ghost view = { λ s. take s.len s.bytes };

    ghost invariant = { λ s. s.len ≤ 39 };
}

impl Octets {
    fn new() -> Self
        ensures { result ≡ [] }
    {
        Octets {
            bytes: [0; MAX_OCTETS],
            len: 0,
        }
    }

    // Puts a number after the octets.
    fn put_number(&mut self, n: u64) -> Result<(), OidError>
        requires { n < 2 ^ 35 }
        ensures ok { IsOk result ↔ (length self.old + length (base_128 n) ≤ 39) }
        ensures value { IfOk result (λ _. self.new ≡ self.old ++ base_128 n) }
        ensures err { IfErr result (λ e. e ≡ TooLong) }
        ensures long { OnErr result (39 < length self.old + length (base_128 n)) }
    {
        let (groups, skipped) = base_128(n);
        let octets = &groups[skipped..];
        let end = self.len + octets.len();
        if end > MAX_OCTETS {
            return Err(OidError::TooLong);
        }
        self.bytes[self.len..end].copy_from_slice(octets);
        self.len = end;
        Ok(())
    }
}

/// An object identifier of at most 39 octets. Contracts see it as the list of its octets.
#[derive(Drop)]
pub struct ObjectIdentifier {
    octets: Octets,
}

impl Model for ObjectIdentifier {
    ghost use Rattle.std.specs.Prelude.{ℕ, List};
    ghost use Rattle.digest_core.specs.Oid.{AllSmall, arcs_of};

    ghost Value = { List ℕ };

    ghost view = { λ s. s.octets };

    ghost invariant = { λ s. AllSmall (arcs_of s.octets) };
}

impl ObjectIdentifier {
    /// The object identifier of these arcs.
    pub fn from_arcs(arcs: &[u32]) -> Result<Self, OidError>
        ensures err { IfErr result (λ e. refusal arcs.now ≡ Some e) }
        ensures ok { IfOk result (λ _. refusal arcs.now ≡ None) }
        ensures octets { IfOk result (λ id. id ≡ encoding arcs.now) }
        ensures arcs { IfOk result (λ id. arcs_of id ≡ arcs.now) }
    {
        if arcs.len() < 2 {
            return Err(OidError::TooFew);
        }
        let (first, second) = (arcs[0], arcs[1]);
        if is_out_of_range(first, second) {
            return Err(OidError::Range);
        }
        let octets = octets_of(first, second, &arcs[2..])?;
        Ok(ObjectIdentifier { octets })
    }

    /// The identifier of SHA-512: joint-iso-itu-t(2) country(16) us(840) organization(1) gov(101)
    /// csor(3) nistAlgorithm(4) hashAlgs(2) sha512(3).
    pub fn sha512() -> Self
        ensures { result ≡ encoding (2 ∷ 16 ∷ 840 ∷ 1 ∷ 101 ∷ 3 ∷ 4 ∷ 2 ∷ 3 ∷ []) }
    {
        match ObjectIdentifier::from_arcs(&[2, 16, 840, 1, 101, 3, 4, 2, 3]) {
            Ok(id) => id,
            Err(_) => unreachable!(),
        }
    }

    /// The encoding.
    pub fn octets(&self) -> &[u8]
        ensures value { result.now ≡ self.now }
        ensures len { length result.now ≤ 39 }
        ensures arcs { AllSmall (arcs_of self.now) }
    {
        let Octets { bytes, len } = &self.octets;
        &bytes[..*len]
    }

    /// The arcs, one after another.
    pub fn arcs(&self) -> Arcs<'_>
        ensures { result ≡ arcs_of self.now }
    {
        match read_number(self.octets()) {
            Some((number, rest)) => Arcs::of_number(number, rest),
            None => Arcs {
                first: None,
                second: None,
                rest: &[],
            },
        }
    }

    /// Writes the identifier as a whole to the front of `out`: the tag 0x06, the number of octets
    /// and the octets (X.690). Answers how many bytes these are.
    pub fn der(&self, out: &mut [u8; MAX_OCTETS + 2]) -> usize
        ensures count { result ≡ 2 + length self.now }
        ensures within { result ≤ 41 }
        ensures written { take result out.new ≡ 0x06 ∷ length self.now ∷ self.now }
        ensures rest { drop result out.new ≡ drop result out.old }
    {
        let octets = self.octets();
        let end = 2 + octets.len();
        put_der(&mut out[..end], octets);
        end
    }
}

/// The arcs of an object identifier. Contracts see it as the list of the arcs to come.
#[derive(Drop)]
pub struct Arcs<'a> {
    first: Option<u32>,
    second: Option<u32>,
    // The octets of the arcs after the first two.
    rest: &'a [u8],
}

impl<'a> Model for Arcs<'a> {
    ghost use Rattle.std.specs.Prelude.{ℕ, List};
    ghost use Rattle.digest_core.specs.Oid.{AllSmall, arcs_to_come, numbers};

    ghost Value = { List ℕ };

    ghost view = { λ s. arcs_to_come s.first s.second s.rest.now };

    ghost invariant = { λ s. AllSmall (numbers 0 s.rest.now) };
}

impl<'a> Arcs<'a> {
    // The two arcs of a number, and those of the octets after it.
    fn of_number(number: u64, rest: &'a [u8]) -> Self
        requires second { second_arc number < 2 ^ 32 }
        requires rest { AllSmall (numbers 0 rest.now) }
        ensures { result ≡ first_arc number ∷ second_arc number ∷ numbers 0 rest.now }
    {
        let first = (number / 40).min(2);
        Arcs {
            first: Some(first as u32),
            second: Some((number - 40 * first) as u32),
            rest,
        }
    }
}

impl<'a> Iterator for Arcs<'a> {
    ghost use Rattle.std.specs.Iterator.{YieldsFirst, item_count};

    type Item = u32;

    ghost next_gives = { YieldsFirst (λ s. s) };

    ghost remaining = { item_count (λ s. s) };

    fn next(&mut self) -> Option<u32> {
        if let Some(arc) = self.first {
            self.first = None;
            return Some(arc);
        }
        if let Some(arc) = self.second {
            self.second = None;
            return Some(arc);
        }
        let (number, rest) = read_number(self.rest)?;
        self.rest = rest;
        Some(number as u32)
    }
}

/// Has an object identifier.
pub trait AssociatedOid {
    ghost arcs: { List ℕ };

    fn oid() -> ObjectIdentifier
        ensures { result ≡ encoding arcs };
}

// Fills `out` with the tag, the number of octets and the octets.
fn put_der(out: &mut [u8], octets: &[u8])
    requires room { length out.old ≡ 2 + length octets.now }
    requires few { length octets.now < 128 }
    ensures { out.new ≡ 0x06 ∷ length octets.now ∷ octets.now }
{
    let (front, back) = out.split_at_mut(2);
    front.copy_from_slice(&[OID_TAG, octets.len() as u8]);
    back.copy_from_slice(octets);
}

// The first number of these octets, and the octets after it.
fn read_number(octets: &[u8]) -> Option<(u64, &[u8])>
    ensures some { IfSome result (λ r. numbers 0 octets.now ≡ r.0 ∷ numbers 0 r.1.now) }
    ensures none { IfNone result (numbers 0 octets.now ≡ []) }
{
    let mut begun = 0u64;
    'each_octet: for i in 0..octets.len() {
        let octet = u64::from(octets[i]);
        if octet < 128 {
            return Some((
                begun.wrapping_mul(128).wrapping_add(octet),
                &octets[i + 1..],
            ));
        }
        begun = begun.wrapping_mul(128).wrapping_add(octet - 128);
    }
    None
}

fn is_out_of_range(first: u32, second: u32) -> bool
    ensures { result ≡ is_out_of_range first second }
{
    first > 2 || first < 2 && second > 39
}

// The octets of the first two arcs, which are in their ranges, and of the others.
fn octets_of(first: u32, second: u32, rest: &[u32]) -> Result<Octets, OidError>
    requires { is_out_of_range first second ≡ false }
    ensures ok { IsOk result ↔ (length (encoding (first ∷ second ∷ rest.now)) ≤ 39) }
    ensures value { IfOk result (λ octets. octets ≡ encoding (first ∷ second ∷ rest.now)) }
    ensures arcs { IfOk result (λ octets. arcs_of octets ≡ first ∷ second ∷ rest.now) }
    ensures err { IfErr result (λ e. e ≡ TooLong) }
{
    let mut octets = Octets::new();
    octets.put_number(40 * u64::from(first) + u64::from(second))?;
    'each_arc: for i in 0..rest.len() {
        octets.put_number(u64::from(rest[i]))?;
    }
    Ok(octets)
}
