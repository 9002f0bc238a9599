//! What is written is read back, as the contracts of functions that do nothing.
ghost use Rattle.std.specs.Prelude.{◌≡◌, ◌≤◌, ◌*◌, ◌+◌, ℕ, List, Ok, length, true};
ghost use Rattle.aes.specs.Bytes.{AreBytes};
ghost use Rattle.encrypted_key.specs.Reading.{decrypted, is_private_key, max_iterations};
ghost use Rattle.encrypted_key.specs.Reading.{told, told_in};
ghost use Rattle.encrypted_key.specs.Writing.{encrypted, file_of};
ghost use Rattle.encrypted_key.specs.declared.cipher.Cipher.TheVariants.{Aes256};

/// A file tells the salt, the count of iterations, the initial vector and the blocks that it was
/// written of.
pub fn files_tell_their_parts()
    ensures { (salt iv text : List ℕ) (count more : ℕ) → length salt ≡ 16 → length iv ≡ 16
        → 1 ≤ count → count ≤ max_iterations → length text ≡ 16 * more + 16
        → told_in (file_of salt count iv text) ≡ Ok (told Aes256 salt count iv text) }
{}

/// A private key that was encrypted is decrypted with the same passphrase.
pub fn written_is_read()
    ensures { (passphrase salt iv private_key : List ℕ) (count : ℕ)
        → length salt ≡ 16 → length iv ≡ 16 → AreBytes iv
        → 1 ≤ count → count ≤ max_iterations
        → AreBytes private_key → is_private_key private_key ≡ true
        → decrypted passphrase (encrypted passphrase salt count iv private_key) ≡ Ok private_key }
{}
