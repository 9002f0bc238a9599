//! Walking a chain of delegations from a root key to its end.
ghost use Rattle.std.specs.Prelude.{◌≡◌, ◌≢◌, ◌*◌, length, IfOk, IfSome, IsOk, Result, Ok, Err};
ghost use Rattle.slh_chain.specs.Walks.{walk_answer};
ghost use Rattle.slh_dsa_c.specs.Chains.{c_end, end_or_number, fault_number, walk_answer_by_key};
ghost use Rattle.slh_dsa_c.specs.Chains.{walk_status};
ghost use Rattle.slh_sets.specs.Sets.{scheme_numbered};

use crate::set::write_in_set;
use crate::status::{BUDGET, FORM, INVALID, LENGTH, OK, UNKNOWN_SET};
use slh_chain::{ChainError, walk};
use slh_core::array::ArraySize;
use slh_core::params::chain_sizes;
use slh_dsa::{SetSizes, VerifyingKey};
use slh_sets::{SetSuite, WriteOnSet};

/// Where a chain ends, beside the key.
#[repr(C)]
#[derive(Drop)]
pub struct CEnd {
    /// The last link's depth, or 16. The key may delegate further with depths below it.
    pub budget: u32,
    /// How many links there are, at most 16.
    pub links: u32,
}

// The number of a fault.
fn number_of_fault(error: ChainError) -> u32
    ensures { result ≡ fault_number error }
{
    match error {
        ChainError::Form(_) => FORM,
        ChainError::Budget(_) => BUDGET,
        ChainError::Invalid(_) => INVALID,
    }
}

// A chain under a root key.
#[derive(Drop)]
struct Walk<'a> {
    root: &'a [u8],
    chain: &'a [u8],
}

// Writes the key at the end of a chain.
fn write_end<P: SetSizes>(root: &VerifyingKey<P>, chain: &[u8], key: &mut [u8]) -> Result<CEnd, u32>
    requires { length key.old ≡ 2 * P.N.USIZE }
    ensures end { result ≡ end_or_number (walk_answer P.scheme root.now chain.now) }
    ensures key { IsOk result → IfOk (walk_answer P.scheme root.now chain.now)
        (λ end. key.new ≡ end.key) }
    ensures same { (IsOk result → ⊥) → key.new ≡ key.old }
{
    match walk(root, chain) {
        Ok(end) => {
            end.key.write_to(key);
            Ok(CEnd {
                budget: u32::from(end.budget),
                links: end.links,
            })
        }
        Err(error) => Err(number_of_fault(error)),
    }
}

impl<'a> WriteOnSet for Walk<'a> {
    type Out = Result<CEnd, u32>;

    ghost gives = { λ c Z len result. result ≡ walk_answer_by_key Z c.root.now c.chain.now len };

    ghost wrote = { λ result. IsOk result };

    ghost writes = { λ c Z key. IfOk (walk_answer Z c.root.now c.chain.now)
        (λ end. key ≡ end.key) };

    fn write<P: SetSuite>(self, out: &mut [u8]) -> Result<CEnd, u32> {
        chain_sizes::<P>();
        let Ok(root) = VerifyingKey::<P>::try_from(self.root) else {
            return Err(LENGTH);
        };
        if out.len() != 2 * P::N::USIZE {
            return Err(LENGTH);
        }
        write_end(&root, self.chain, out)
    }
}

/// Walks a chain of delegations from a root key to its end. Writes the key there, of 2n bytes, and
/// what it may do.
#[unsafe(no_mangle)]
pub extern "C" fn slh_chain_walk(
    set: u32,
    root: &[u8],
    chain: &[u8],
    key: &mut [u8],
    end: &mut CEnd,
) -> u32
    ensures status { result ≡ walk_status set root.now chain.now (length key.old) }
    ensures key { result ≡ 0 → IfSome (scheme_numbered set) (λ Z.
        IfOk (walk_answer Z root.now chain.now) (λ walked. key.new ≡ walked.key)) }
    ensures end { result ≡ 0 → IfSome (scheme_numbered set) (λ Z.
        IfOk (walk_answer Z root.now chain.now) (λ walked. end.new ≡ c_end walked)) }
    ensures same { result ≢ 0 → (key.new ≡ key.old) × (end.new ≡ end.old) }
{
    match write_in_set(set, Walk { root, chain }, key, Err(UNKNOWN_SET)) {
        Ok(walked) => {
            *end = walked;
            OK
        }
        Err(number) => number,
    }
}
