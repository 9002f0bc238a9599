//! Texts of secrets, apart from all others.
ghost use Rattle.std.specs.Prelude.{◌≡◌};

use line_serve::ByteString;

/// What stands in the file of a secret. Only what writes secrets takes it, so that it goes to no
/// place where a public text is wanted.
#[derive(Drop)]
pub struct SecretText {
    text: ByteString,
}

impl SecretText {
    /// The secret with this text.
    pub fn new(text: ByteString) -> SecretText
        ensures { result.text ≡ text }
    {
        SecretText { text }
    }

    /// Its bytes, for what writes them to a file that nobody else reads.
    pub fn expose(&self) -> &[u8]
        ensures { result.now ≡ self.now.text }
    {
        self.text.as_slice()
    }
}
