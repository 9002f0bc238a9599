//! What takes a message in pieces.
ghost use Rattle.std.specs.Prelude.{◌≡◌, List, ℕ, ◌++◌, OnOk};
ghost use Rattle.slh_dsa.specs.declared.error.Error.TheVariants.{MessageTooLong};
ghost use Rattle.slh_bytes.specs.Terms.{Terms};
ghost use Rattle.slh_core.specs.Refusals.{RefusedExactly, message_refusal};

use slh_core::pieces::MessageSuite;
use slh_dsa::{Error, SetSizes};
use slh_stream::{
    DigestSigner, Digesting, FirstPass, MessageVerifier, Passing, SecondPass, Verifying,
};

/// What takes a message in pieces. For each message for which it stands it stands, after a piece,
/// for that message and the piece.
pub(crate) trait Absorber {
    /// It stands for what it was begun for, and for a message.
    ghost stands: { Self → Terms → List ℕ → Type 0 };

    /// Takes a piece, after those before. `MessageTooLong`: more than 2^60 bytes would have come.
    fn absorb(&mut self, piece: &[u8]) -> Result<(), Error>
        ensures refusal { (terms : Terms) (m : List ℕ) → stands self.old terms m
            → RefusedExactly result (message_refusal MessageTooLong (m ++ piece.now)) }
        ensures joins { OnOk result ((terms : Terms) (m : List ℕ) → stands self.old terms m
            → stands self.new terms (m ++ piece.now)) };
}

impl<'a, P: SetSizes + MessageSuite> Absorber for MessageVerifier<'a, P> {
    ghost stands = { λ v t m. ⟦<MessageVerifier<'a, P> as Verifying>⟧.verifies v
        t.mode t.key t.context t.signature m };

    fn absorb(&mut self, piece: &[u8]) -> Result<(), Error> {
        self.update(piece)
    }
}

impl<'a, P: SetSizes> Absorber for DigestSigner<'a, P> {
    ghost stands = { λ s t m. ⟦<DigestSigner<'a, P> as Digesting>⟧.digests s
        t.mode t.key t.opt_rand t.context m };

    fn absorb(&mut self, piece: &[u8]) -> Result<(), Error> {
        self.update(piece)
    }
}

impl<'a, P: SetSizes + MessageSuite> Absorber for FirstPass<'a, P> {
    ghost stands = { λ f t m. ⟦<FirstPass<'a, P> as Passing>⟧.passes f
        t.key t.opt_rand t.context m };

    fn absorb(&mut self, piece: &[u8]) -> Result<(), Error> {
        self.update(piece)
    }
}

impl<'a, P: SetSizes + MessageSuite> Absorber for SecondPass<'a, P> {
    ghost stands = { λ p t m. ⟦<SecondPass<'a, P> as Passing>⟧.passes p
        t.key t.opt_rand t.context m × (p.rand ≡ t.rand) };

    fn absorb(&mut self, piece: &[u8]) -> Result<(), Error> {
        self.update(piece)
    }
}
