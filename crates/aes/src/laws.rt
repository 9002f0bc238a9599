//! What AES encrypts it decrypts, as the contracts of functions that do nothing.
ghost use Rattle.std.specs.Prelude.{◌≡◌, ◌%◌, ◌<◌, ℕ, List, Some, length, slice_index};
ghost use Rattle.aes.specs.Bytes.{AreBytes};
ghost use Rattle.aes.specs.Cbc.{cbc, inverse_cbc, padded, unpadded_len};
ghost use Rattle.aes.specs.Cipher.{cipher, inverse_cipher};
ghost use Rattle.aes.specs.Field.{s_box};
ghost use Rattle.aes.specs.Schedule.{IsKeyLength};
ghost use Rattle.aes.specs.Table.{s_box_table};

/// The substitution box, which is defined in GF(2^8), is the one that the standard prints.
pub fn box_is_table()
    ensures { (b : ℕ) → b < 256 → s_box b ≡ slice_index s_box_table b }
{}

/// The inverse cipher gives back each block that the cipher took, under each key of 16, 24 or 32
/// bytes.
pub fn blocks_are_given_back()
    ensures { (key block : List ℕ) → IsKeyLength (length key) → AreBytes key
        → length block ≡ 16 → AreBytes block
        → inverse_cipher key (cipher key block) ≡ block }
{}

/// A message of whole blocks that was chained is given back.
pub fn messages_are_given_back()
    ensures { (key iv message : List ℕ) → IsKeyLength (length key) → AreBytes key
        → length iv ≡ 16 → AreBytes iv → AreBytes message → length message % 16 ≡ 0
        → inverse_cbc key iv (cbc key iv message) ≡ message }
{}

/// The padding of a message is taken off, and no more.
pub fn padding_is_taken_off()
    ensures { (message : List ℕ) → unpadded_len (padded message) ≡ Some (length message) }
{}
