//! Keys that verify.
ghost use Rattle.std.specs.Prelude.{◌↔◌, ℕ, List, IsOk, IfErr};

/// A key that tells whether it accepts a signature of a message.
pub trait Verifier<S> {
    /// Why a signature isn't accepted.
    type Error;

    // The key accepts a signature of a message.
    ghost accepts: { Self → List ℕ → S → Type 0 };

    // The errors that the key may give for a message and a signature.
    ghost may_refuse: { Self → List ℕ → S → Self.Error → Type 0 };

    /// Whether the signature is accepted: `Ok` exactly where it is.
    fn verify(&self, msg: &[u8], signature: &S) -> Result<(), Self::Error>
        ensures accepts { IsOk result ↔ accepts self.now msg.now signature.now }
        ensures refusal { IfErr result (λ e. may_refuse self.now msg.now signature.now e) };
}
