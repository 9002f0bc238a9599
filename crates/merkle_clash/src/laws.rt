//! When clashes are found, as the contracts of functions that do nothing.
ghost use Rattle.std.specs.Prelude.{◌≡◌, ◌≢◌, ℕ, List, [], length, take, map, slice_index_or, All};
ghost use Rattle.std.specs.Prelude.{true, Some};
ghost use Rattle.sha256_lanes.specs.Sha256.{sha256};
ghost use Rattle.merkle_tree.specs.Clashes.{Inputs};
ghost use Rattle.merkle_tree.specs.Climb.{is_included};
ghost use Rattle.merkle_tree.specs.Consistency.{is_consistent};
ghost use Rattle.merkle_tree.specs.Hashes.{HashFunction, HasDigests};
ghost use Rattle.merkle_tree.specs.Tree.{entries_root, leaf_hash, tree_root};
ghost use Rattle.merkle_clash.specs.Answers.{entries_answer, entry_answer, growth_answer};
ghost use Rattle.merkle_clash.specs.Answers.{inclusion_answer, roots_answer};

/// Where two lists of equally many digests have one root and differ, a clash is found: two
/// different inputs with one digest.
pub fn roots_show_a_clash()
    ensures found { (H : HashFunction) → HasDigests H → (p q : List (List ℕ))
        → All (λ d. length d ≡ 32) p
        → All (λ d. length d ≡ 32) q
        → length p ≡ length q
        → tree_root H p ≡ tree_root H q
        → p ≢ q
        → (c : Inputs) × (roots_answer H p q ≡ Some c) × (c.first ≢ c.second)
        × (H c.first ≡ H c.second) }
{}

/// Where a proof passes the check from the root over p to the root over q, and p isn't the front
/// of q, a clash is found.
pub fn growth_shows_a_clash()
    ensures found { (H : HashFunction) → HasDigests H → (p q proof : List (List ℕ))
        → All (λ d. length d ≡ 32) p
        → All (λ d. length d ≡ 32) q
        → All (λ d. length d ≡ 32) proof
        → is_consistent H (length p) (length q) (tree_root H p) (tree_root H q) proof ≡ true
        → p ≢ take (length p) q
        → (c : Inputs) × (growth_answer H p q proof ≡ Some c) × (c.first ≢ c.second)
        × (H c.first ≡ H c.second) }
    ensures sha256 { (p q proof : List (List ℕ))
        → All (λ d. length d ≡ 32) p
        → All (λ d. length d ≡ 32) q
        → All (λ d. length d ≡ 32) proof
        → is_consistent sha256 (length p) (length q) (tree_root sha256 p) (tree_root sha256 q) proof
        ≡ true
        → p ≢ take (length p) q
        → (c : Inputs) × (growth_answer sha256 p q proof ≡ Some c) × (c.first ≢ c.second)
        × (sha256 c.first ≡ sha256 c.second) }
{}

/// Where a path passes the check from x, as digest i, to the root over q, and x isn't that digest,
/// a clash is found.
pub fn inclusion_shows_a_clash()
    ensures found { (H : HashFunction) → HasDigests H → (i : ℕ) (q : List (List ℕ)) (x : List ℕ)
        (path : List (List ℕ))
        → All (λ d. length d ≡ 32) q
        → All (λ d. length d ≡ 32) path
        → is_included H i (length q) x (tree_root H q) path ≡ true
        → x ≢ slice_index_or q i []
        → (c : Inputs) × (inclusion_answer H q i x path ≡ Some c) × (c.first ≢ c.second)
        × (H c.first ≡ H c.second) }
{}

/// Where a path passes the check from the digest of m, as entry i, to the root over the entries a,
/// and m isn't that entry, a clash is found: that of the two entries, or one above them.
pub fn entry_shows_a_clash()
    ensures found { (H : HashFunction) → HasDigests H → (i : ℕ) (a : List (List ℕ)) (m : List ℕ)
        (path : List (List ℕ))
        → All (λ d. length d ≡ 32) path
        → is_included H i (length a) (leaf_hash H m) (entries_root H a) path ≡ true
        → m ≢ slice_index_or a i []
        → let q = map (leaf_hash H) a in
        (c : Inputs) × (entry_answer H q i (slice_index_or a i []) m path ≡ Some c)
        × (c.first ≢ c.second) × (H c.first ≡ H c.second) }
{}

/// Where a proof passes the check from the root over the entries a to the root over the entries b,
/// and a isn't the front of b, a clash is found: that of two entries at one index, or one that the
/// growth of their digests shows.
pub fn entries_show_a_clash()
    ensures found { (H : HashFunction) → HasDigests H → (a b proof : List (List ℕ))
        → All (λ d. length d ≡ 32) proof
        → is_consistent H (length a) (length b) (entries_root H a) (entries_root H b) proof ≡ true
        → a ≢ take (length a) b
        → (c : Inputs) × (entries_answer H a b proof ≡ Some c) × (c.first ≢ c.second)
        × (H c.first ≡ H c.second) }
{}
