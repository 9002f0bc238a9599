// A key and a signature of the toy suite, whose values were worked by hand from its definitions,
// with their numbers of steps.
ghost use Rattle.std.specs.Prelude.{◌≡◌, ◌+◌, ◌≤◌, OnOk};
ghost use Rattle.slh_core.specs.Steps.{IsFresh};

use crate::shown::shows;
use crate::worked::{KEY, MESSAGE, SIGNATURE};
use slh_core::steps::Steps;
use slh_dsa::{Error, SigningKey, VerifyingKey};
use slh_merkle::toy::Toy;
use std::marker::Brand;
use std::sync::ledger::{Blank, Ledger};

// The numbers of steps of a key, a signature and a check are those of the algorithms, by hand.
fn new_key<L: Ledger>(steps: &mut Steps<L>) -> Result<SigningKey<Toy>, Error>
    ensures { OnOk result (steps.new ≡ steps.old + 327) }
{
    SigningKey::slh_keygen_counted(&[5], &[7], &[3], steps)
}

fn sign<L: Ledger>(key: &SigningKey<Toy>, out: &mut [u8], steps: &mut Steps<L>) -> Result<(), Error>
    ensures { OnOk result (steps.new ≡ steps.old + 677) }
{
    key.slh_sign_counted(&MESSAGE, &[], None, out, steps)
}

fn verify<L: Ledger>(key: &VerifyingKey<Toy>, sig: &[u8], steps: &mut Steps<L>) -> Result<(), Error>
    ensures { steps.new ≤ steps.old + 163 }
{
    key.slh_verify_counted(&MESSAGE, &[], sig, steps)
}

fn is_key(key: &SigningKey<Toy>) -> bool {
    let mut bytes = [0; 4];
    key.write_to(&mut bytes);
    bytes == KEY
}

// Whether the key makes the worked signature and accepts it.
fn makes_signature<L: Ledger>(key: &SigningKey<Toy>, steps: &mut Steps<L>) -> bool {
    let mut sig = [0; 21];
    sign(key, &mut sig, steps) == Ok(())
        && sig == SIGNATURE
        && verify(&key.verifying_key(), &sig, steps) == Ok(())
}

fn are_key_and_signature<L: Ledger>(blank: Blank) -> bool
    requires fresh { IsFresh blank L.name L.parts }
{
    let mut steps = Steps::<L>::new(blank);
    match new_key(&mut steps) {
        Ok(key) => is_key(&key) && makes_signature(&key, &mut steps),
        Err(_) => false,
    }
}

#[test]
fn a_key_and_its_signature_are_those_worked_by_hand(rt: HostRuntime) {
    shows(&rt, are_key_and_signature::<Brand>(Blank::new(1)));
}
