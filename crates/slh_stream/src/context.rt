//! A context that is kept.
ghost use Rattle.std.specs.Prelude.{◌≡◌, ◌≤◌, length};

use slh_frames::MAX_CONTEXT;
use std::marker::Model;

/// The bytes of a context, of which there are at most 255.
#[derive(Drop)]
pub struct Context {
    store: [u8; MAX_CONTEXT],
    len: usize,
}

impl Model for Context {
    ghost use Rattle.std.specs.Prelude.{ℕ, List, take, ◌≤◌};
    ghost use Rattle.slh_frames.specs.declared.message.TheConstants.{MAX_CONTEXT};

    ghost Value = { List ℕ };

    ghost view = { λ c. take c.len c.store };

    ghost invariant = { λ c. c.len ≤ MAX_CONTEXT };
}

impl Context {
    /// The context of these bytes.
    pub(crate) fn new(ctx: &[u8]) -> Self
        requires { length ctx.now ≤ MAX_CONTEXT }
        ensures { result ≡ ctx.now }
    {
        let mut store = [0u8; MAX_CONTEXT];
        store[..ctx.len()].copy_from_slice(ctx);
        Context {
            store,
            len: ctx.len(),
        }
    }

    /// Its bytes.
    pub(crate) fn as_slice(&self) -> &[u8]
        ensures value { result.now ≡ self.now }
        ensures few { length result.now ≤ MAX_CONTEXT }
    {
        &self.store[..self.len]
    }
}
