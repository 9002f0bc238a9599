//! Which calls fail.
ghost use Rattle.std.specs.Prelude.{◌≡◌, ◌↔◌, ◌+◌, ◌≤◌, ◌^◌, min, unwrap_or, Contains, is_ok};
ghost use Rattle.std.specs.Prelude.{IsErr, IsTrue, if◌then◌else◌};
ghost use Rattle.line_serve.specs.Causes.{HasCause, Rose};
ghost use Rattle.line_serve.specs.Scripts.{script_fails, script_number, script_faults, one_more};

use crate::stream::Failed;

// Whether the list has the number, of which there is none past the last of 64 bits.
fn is_listed(numbers: &[u64], number: Option<u64>) -> bool
    ensures { IsTrue result ↔ Contains numbers.now (unwrap_or number (2 ^ 64)) }
{
    match number {
        Some(number) => numbers.contains(&number),
        None => false,
    }
}

/// Which calls of a source, a sink or a store fail, so that a test can try each fault in turn.
/// Calls are numbered from 0, and those fail whose numbers it was given.
#[derive(Drop)]
pub struct Script {
    fails: Vec<u64>,
    next: Option<u64>,
    faults: u64,
}

impl Script {
    /// The calls with these numbers fail.
    pub fn new(fails: Vec<u64>) -> Self
        ensures fails { script_fails result ≡ fails.items }
        ensures number { script_number result ≡ 0 }
        ensures faults { script_faults result ≡ 0 }
    {
        Script {
            fails,
            next: Some(0),
            faults: 0,
        }
    }

    /// How many calls failed, up to 2^64 - 1: those that were to fail, and those that
    /// [`Script::fault`] counted.
    pub fn faults(&self) -> u64
        ensures { result ≡ script_faults self.now }
    {
        self.faults
    }

    /// Counts a call, and says whether it fails, which is a fault then.
    pub fn next(&mut self) -> Result<(), Failed>
        ensures cause { HasCause (script_faults self.old) (script_faults self.new) result }
        ensures listed { IsErr result ↔ Contains (script_fails self.old) (script_number self.old) }
        ensures counted { script_faults self.new ≡ (if is_ok result
            then script_faults self.old else one_more (script_faults self.old)) }
        ensures number { script_number self.new ≡ min (script_number self.old + 1) (2 ^ 64) }
        ensures fails { script_fails self.new ≡ script_fails self.old }
    {
        let fails = is_listed(&self.fails, self.next);
        self.next = match self.next {
            Some(number) => number.checked_add(1),
            None => None,
        };
        if fails {
            return Err(self.fault());
        }
        Ok(())
    }

    /// Counts a fault of a call that was counted already, as one for want of memory.
    pub fn fault(&mut self) -> Failed
        ensures counted { script_faults self.new ≡ one_more (script_faults self.old) }
        ensures rose { Rose (script_faults self.old) (script_faults self.new) }
        ensures later { script_faults self.old ≤ script_faults self.new }
        ensures number { script_number self.new ≡ script_number self.old }
        ensures fails { script_fails self.new ≡ script_fails self.old }
    {
        self.faults = self.faults.saturating_add(1);
        Failed
    }
}
