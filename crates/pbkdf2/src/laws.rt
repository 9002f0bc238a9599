//! What a derived key is, as the contract of a function that does nothing.
ghost use Rattle.std.specs.Prelude.{◌≡◌, ◌≤◌, ◌<◌, ℕ, List, length, slice_index};
ghost use Rattle.pbkdf2.specs.Pbkdf2.{pbkdf2};

/// A key of at most 32 bytes has as many bytes as it was asked for.
pub fn keys_have_their_size()
    ensures size { (password salt : List ℕ) (count n : ℕ) → n ≤ 32
        → length (pbkdf2 password salt count n) ≡ n }
    ensures bytes { (password salt : List ℕ) (count n : ℕ) → n ≤ 32
        → (i : ℕ) → slice_index (pbkdf2 password salt count n) i < 256 }
{}
