//! What trees and proofs of growth have to do with one another, as the contracts of functions that
//! do nothing.
ghost use Rattle.std.specs.Prelude.{◌≡◌, ◌≢◌, ℕ, ◌+◌, ◌-◌, ◌^◌, ◌<◌, ◌≤◌, List, [], ◌∷◌, ◌++◌};
ghost use Rattle.std.specs.Prelude.{length, take, drop, All, Bool, false};
ghost use Rattle.std.specs.Prelude.{slice_index_or, true, None, Some};
ghost use Rattle.merkle_tree.specs.Binding.{entries_clash, entries_root_clash, entry_clash};
ghost use Rattle.merkle_tree.specs.Binding.{growth_clash, inclusion_clash, paths_clash};
ghost use Rattle.merkle_tree.specs.Binding.{roots_clash};
ghost use Rattle.merkle_tree.specs.Climb.{is_included, path_climb, path_sides};
ghost use Rattle.merkle_tree.specs.Clashes.{Inputs, clash_place, clashes, first_clash};
ghost use Rattle.merkle_tree.specs.Consistency.{consistency_proof, is_consistent, proof_len, subproof};
ghost use Rattle.merkle_tree.specs.Consistency.{proof_roots, roots_of};
ghost use Rattle.merkle_tree.specs.Peaks.{bag, peaks_of};
ghost use Rattle.merkle_tree.specs.Hashes.{HashFunction, HasDigests};
ghost use Rattle.merkle_tree.specs.Tree.{entries_root, inclusion_path, leaf_hash, node_hash};
ghost use Rattle.merkle_tree.specs.Tree.{tree_root};

/// A list of digests is split at the largest power of two below its length.
pub fn trees_split()
    ensures none { (H : HashFunction) → tree_root H [] ≡ H [] }
    ensures leaf { (H : HashFunction) (x : List ℕ) → tree_root H (x ∷ []) ≡ x }
    ensures node { (H : HashFunction) (k : ℕ) (q : List (List ℕ)) → 2 ^ k < length q → length q ≤ 2 ^ (k + 1)
        → tree_root H q ≡ node_hash H (tree_root H (take (2 ^ k) q)) (tree_root H (drop (2 ^ k) q)) }
    ensures empty { (H : HashFunction) (x : List ℕ) → inclusion_path H (x ∷ []) 0 ≡ [] }
    ensures front { (H : HashFunction) (k i : ℕ) (q : List (List ℕ)) → 2 ^ k < length q → length q ≤ 2 ^ (k + 1)
        → i < 2 ^ k
        → inclusion_path H q i
        ≡ inclusion_path H (take (2 ^ k) q) i ++ tree_root H (drop (2 ^ k) q) ∷ [] }
    ensures rest { (H : HashFunction) (k i : ℕ) (q : List (List ℕ)) → 2 ^ k < length q → length q ≤ 2 ^ (k + 1)
        → 2 ^ k ≤ i
        → inclusion_path H q i
        ≡ inclusion_path H (drop (2 ^ k) q) (i - 2 ^ k) ++ tree_root H (take (2 ^ k) q) ∷ [] }
{}

/// A climb goes the same way back.
pub fn climbs_split()
    ensures leaf { (H : HashFunction) (x : List ℕ) (path : List (List ℕ)) → path_climb H x 0 1 path ≡ x }
    ensures front { (H : HashFunction) (k i n : ℕ) (x e : List ℕ) (r : List (List ℕ))
        → 2 ^ k < n → n ≤ 2 ^ (k + 1) → i < 2 ^ k
        → path_climb H x i n (r ++ e ∷ []) ≡ node_hash H (path_climb H x i (2 ^ k) r) e }
    ensures rest { (H : HashFunction) (k i n : ℕ) (x e : List ℕ) (r : List (List ℕ))
        → 2 ^ k < n → n ≤ 2 ^ (k + 1) → 2 ^ k ≤ i
        → path_climb H x i n (r ++ e ∷ []) ≡ node_hash H e (path_climb H x (i - 2 ^ k) (n - 2 ^ k) r) }
{}

/// A proof of growth is split likewise. It has nothing for a subtree of all old digests, and the
/// root for any other subtree of old digests alone.
pub fn proofs_split()
    ensures whole { (H : HashFunction) (q : List (List ℕ)) → subproof H q (length q) true ≡ [] }
    ensures part { (H : HashFunction) (q : List (List ℕ)) → subproof H q (length q) false ≡ tree_root H q ∷ [] }
    ensures front { (H : HashFunction) (k m : ℕ) (q : List (List ℕ)) (whole : Bool)
        → 2 ^ k < length q → length q ≤ 2 ^ (k + 1) → m ≤ 2 ^ k
        → subproof H q m whole
        ≡ subproof H (take (2 ^ k) q) m whole ++ tree_root H (drop (2 ^ k) q) ∷ [] }
    ensures rest { (H : HashFunction) (k m : ℕ) (q : List (List ℕ)) (whole : Bool)
        → 2 ^ k < m → m < length q → length q ≤ 2 ^ (k + 1)
        → subproof H q m whole
        ≡ subproof H (drop (2 ^ k) q) (m - 2 ^ k) false ++ tree_root H (take (2 ^ k) q) ∷ [] }
{}

/// The proof that a tree grew from its first m digests leads to both roots, has as many digests as
/// is asked, and passes the check.
pub fn proofs_lead_to_roots()
    ensures roots { (H : HashFunction) (m : ℕ) (q : List (List ℕ)) → 0 < m → m ≤ length q
        → proof_roots H m (length q) (tree_root H (take m q)) (consistency_proof H q m) ≡ roots_of H q m }
    ensures len { (H : HashFunction) (m : ℕ) (q : List (List ℕ)) → 0 < m → m ≤ length q
        → length (consistency_proof H q m) ≡ proof_len m (length q) }
    ensures checks { (H : HashFunction) (m : ℕ) (q : List (List ℕ)) → 0 < m → m ≤ length q
        → is_consistent H m (length q) (tree_root H (take m q)) (tree_root H q) (consistency_proof H q m)
        ≡ true }
{}

/// Different lists of equally many digests that have one root show two different inputs with one
/// digest. The same for entries in the place of digests.
pub fn roots_bind()
    ensures digests { (H : HashFunction) → HasDigests H → (p q : List (List ℕ))
        → All (λ d. length d ≡ 32) p
        → All (λ d. length d ≡ 32) q
        → length p ≡ length q
        → tree_root H p ≡ tree_root H q
        → p ≢ q
        → (c : Inputs) × (roots_clash H p q ≡ Some c) }
    ensures entries { (H : HashFunction) → HasDigests H → (a b : List (List ℕ))
        → length a ≡ length b
        → entries_root H a ≡ entries_root H b
        → a ≢ b
        → (c : Inputs) × (entries_root_clash H a b ≡ Some c) }
{}

/// Where a proof passes the check from the root over p to the root over q, p is the front of q, or
/// two different inputs with one digest are found. The same for entries in the place of
/// digests.
pub fn growth_binds()
    ensures digests { (H : HashFunction) → HasDigests H → (p q proof : List (List ℕ))
        → All (λ d. length d ≡ 32) p
        → All (λ d. length d ≡ 32) q
        → All (λ d. length d ≡ 32) proof
        → is_consistent H (length p) (length q) (tree_root H p) (tree_root H q) proof ≡ true
        → p ≢ take (length p) q
        → (c : Inputs) × (growth_clash H p q proof ≡ Some c) }
    ensures entries { (H : HashFunction) → HasDigests H → (a b proof : List (List ℕ))
        → All (λ d. length d ≡ 32) proof
        → is_consistent H (length a) (length b) (entries_root H a) (entries_root H b) proof ≡ true
        → a ≢ take (length a) b
        → (c : Inputs) × (entries_clash H a b proof ≡ Some c) }
{}

/// The path of a digest leads from it to the root, has as many digests as its place asks, and
/// passes the check.
pub fn paths_lead_to_root()
    ensures root { (H : HashFunction) (i : ℕ) (q : List (List ℕ)) → i < length q
        → path_climb H (slice_index_or q i []) i (length q) (inclusion_path H q i) ≡ tree_root H q }
    ensures len { (H : HashFunction) (i : ℕ) (q : List (List ℕ)) → i < length q
        → length (inclusion_path H q i) ≡ length (path_sides i (length q)) }
    ensures checks { (H : HashFunction) (i : ℕ) (q : List (List ℕ)) → i < length q
        → is_included H i (length q) (slice_index_or q i []) (tree_root H q) (inclusion_path H q i)
        ≡ true }
{}

/// Where a path passes the check from x, as digest i, to the root over q, x is that digest, or two
/// different inputs with one digest are found. The same for entries in the place of
/// digests, and for two paths to one root.
pub fn inclusion_binds()
    ensures digests { (H : HashFunction) → HasDigests H → (i : ℕ) (q : List (List ℕ)) (x : List ℕ) (path : List (List ℕ))
        → All (λ d. length d ≡ 32) q
        → All (λ d. length d ≡ 32) path
        → is_included H i (length q) x (tree_root H q) path ≡ true
        → x ≢ slice_index_or q i []
        → (c : Inputs) × (inclusion_clash H q i x path ≡ Some c) }
    ensures entries { (H : HashFunction) → HasDigests H → (i : ℕ) (a : List (List ℕ)) (m : List ℕ) (path : List (List ℕ))
        → All (λ d. length d ≡ 32) path
        → is_included H i (length a) (leaf_hash H m) (entries_root H a) path ≡ true
        → m ≢ slice_index_or a i []
        → (c : Inputs) × (entry_clash H a i m path ≡ Some c) }
    ensures paths { (H : HashFunction) (i n : ℕ) (x y root : List ℕ) (p r : List (List ℕ))
        → All (λ d. length d ≡ 32) p
        → All (λ d. length d ≡ 32) r
        → is_included H i n x root p ≡ true
        → is_included H i n y root r ≡ true
        → x ≢ y
        → (c : Inputs) × (paths_clash H i n x y p r ≡ Some c) }
{}

/// The root is made from the peaks.
pub fn peaks_make_the_root()
    ensures { (H : HashFunction) (q : List (List ℕ)) → bag H (peaks_of H q) ≡ tree_root H q }
{}

/// A clash that is found is one: the inputs differ, and have one digest.
pub fn clash_is_one()
    ensures differ { (H : HashFunction) (ps : List Inputs) (c : Inputs) → first_clash H ps ≡ Some c
        → c.first ≢ c.second }
    ensures digest { (H : HashFunction) (ps : List Inputs) (c : Inputs) → first_clash H ps ≡ Some c
        → H c.first ≡ H c.second }
{}

/// The first clash of two lists is a place at which they clash, and they clash at no earlier one.
pub fn clash_is_least()
    ensures clash { (H : HashFunction) (xs ys : List (List ℕ)) (h : ℕ)
        → clash_place H xs ys ≡ Some h
        → clashes H (slice_index_or xs h []) (slice_index_or ys h []) ≡ true }
    ensures least { (H : HashFunction) (xs ys : List (List ℕ)) (h k : ℕ)
        → clash_place H xs ys ≡ Some h → k < h
        → clashes H (slice_index_or xs k []) (slice_index_or ys k []) ≡ false }
    ensures none { (H : HashFunction) (xs ys : List (List ℕ)) (k : ℕ)
        → clash_place H xs ys ≡ None → k < length xs → k < length ys
        → clashes H (slice_index_or xs k []) (slice_index_or ys k []) ≡ false }
{}
