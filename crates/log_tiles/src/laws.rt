//! What the bytes of bundles are read back to.
ghost use Rattle.std.specs.Prelude.{◌≡◌, ◌<◌, List, [], ℕ, None, Some, length, All};
ghost use Rattle.log_tiles.specs.declared.entries.BundleError.{BundleError};
ghost use Rattle.log_tiles.specs.Entries.{IsAtEnd, IsBehind, IsRefusedAs, Unread, before};
ghost use Rattle.log_tiles.specs.Entries.{bundle_bytes, read_entries};

/// The entries of a bundle are read back from its bytes, and no other bytes are read as them.
pub fn bundles_are_read_back()
    ensures back { (es : List (List ℕ)) → read_entries (length es) (bundle_bytes es) ≡ Some es }
    ensures only { (n : ℕ) (bytes : List ℕ) (es : List (List ℕ)) → All (λ b. b < 256) bytes
        → read_entries n bytes ≡ Some es → bytes ≡ bundle_bytes es }
{}

/// What a reader gives is what its bytes hold: an entry before what it goes on to, no more entries
/// at the end, and nothing where it refuses.
pub fn readers_give_the_entries()
    ensures behind { (old new : Unread) (entry : List ℕ) → IsBehind old entry new
        → read_entries old.left old.rest ≡ before entry (read_entries new.left new.rest) }
    ensures end { (old new : Unread) → IsAtEnd old new → read_entries old.left old.rest ≡ Some [] }
    ensures refused { (old : Unread) (error : BundleError) → IsRefusedAs old error
        → read_entries old.left old.rest ≡ None }
{}
