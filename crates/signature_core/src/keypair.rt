//! Signing keys that have their verifying key.
ghost use Rattle.std.specs.Prelude.{◌≡◌};

/// A signing key from which its verifying key is had.
pub trait KeypairRef {
    /// The type of the verifying key.
    type VerifyingKey;

    // The verifying key of a signing key.
    ghost verifying_key: { Self → Self.VerifyingKey };

    /// A copy of the verifying key.
    fn verifying_key(&self) -> Self::VerifyingKey
        ensures { result ≡ verifying_key self.now };
}
