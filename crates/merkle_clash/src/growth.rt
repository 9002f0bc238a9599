//! Two lists of digests, and a proof that leads from the root over one to that over the other.
ghost use Rattle.std.specs.Prelude.{◌≡◌, ◌+◌, ◌-◌, ◌<◌, ◌≤◌, ◌^◌, [], ◌∷◌, length, false, None, Some};
ghost use Rattle.std.specs.Prelude.{MatchOption};
ghost use Rattle.merkle_tree.specs.Binding.{grown_within, left_pairs, right_pair};
ghost use Rattle.merkle_tree.specs.Clashes.{first_clash};
ghost use Rattle.merkle_tree.specs.Consistency.{proof_len_within, roots_within};
ghost use Rattle.merkle_clash.specs.Answers.{growth_answer};

use crate::inputs::{MAX_HEIGHT, clash_of, front_len, top_of};
use crate::proof_roots::{proof_len, proof_roots};
use crate::roots::trees_clash;
use merkle_tree::{Clash, DIGEST_LEN, NodeInput, TreeHash, root_of};

// The clash at the top where old digests stand on both sides: `sibling` is on the left.
fn left_clash<H: TreeHash>(
    height: u32,
    p: &[[u8; DIGEST_LEN]],
    q: &[[u8; DIGEST_LEN]],
    old_root: &[u8; DIGEST_LEN],
    proof: &[[u8; DIGEST_LEN]],
    sibling: &[u8; DIGEST_LEN],
) -> Option<Clash>
    requires some { 0 < height }
    requires low { height ≤ MAX_HEIGHT }
    requires past { 2 ^ (height - 1) < length p.now }
    requires more { length p.now ≤ length q.now }
    requires few { length q.now ≤ 2 ^ height }
    requires size { let s = 2 ^ (height - 1) in
        length proof.now
        ≡ proof_len_within (height - 1) (length p.now - s) (length q.now - s) false }
    ensures { let s = 2 ^ (height - 1) in
        let roots = roots_within H.hash (height - 1) (length p.now - s) (length q.now - s) false
        old_root.now proof.now in
        let clash = first_clash H.hash
        (left_pairs H.hash (height - 1) p.now q.now sibling.now roots) in
        MatchOption result (clash ≡ None) (λ c. clash ≡ Some c) }
{
    let (below, front) = (height - 1, front_len(height));
    let (old_rest, new_rest) = (p.len() - front, q.len() - front);
    let (old, new) = proof_roots::<H>(below, old_rest, new_rest, false, old_root, proof);
    let left = NodeInput {
        left: *sibling,
        right: old,
    };
    let in_old = clash_of::<H>(left, top_of::<H>(height, p));
    let left = NodeInput {
        left: *sibling,
        right: new,
    };
    in_old.or(clash_of::<H>(left, top_of::<H>(height, q)))
}

// The clash at the top where new digests alone stand on the right: `sibling` is there.
fn right_clash<H: TreeHash>(
    height: u32,
    old_size: usize,
    q: &[[u8; DIGEST_LEN]],
    whole: bool,
    old_root: &[u8; DIGEST_LEN],
    proof: &[[u8; DIGEST_LEN]],
    sibling: &[u8; DIGEST_LEN],
) -> Option<Clash>
    requires tall { 0 < height }
    requires low { height ≤ MAX_HEIGHT }
    requires some { 0 < old_size }
    requires inside { old_size ≤ 2 ^ (height - 1) }
    requires high { 2 ^ (height - 1) < length q.now }
    requires few { length q.now ≤ 2 ^ height }
    requires size { length proof.now
        ≡ proof_len_within (height - 1) old_size (2 ^ (height - 1)) whole }
    ensures { let roots = roots_within H.hash (height - 1) old_size (2 ^ (height - 1)) whole
        old_root.now proof.now in
        let clash = first_clash H.hash
        (right_pair H.hash (height - 1) q.now sibling.now roots ∷ []) in
        MatchOption result (clash ≡ None) (λ c. clash ≡ Some c) }
{
    let (below, front) = (height - 1, front_len(height));
    let (_, new) = proof_roots::<H>(below, old_size, front, whole, old_root, proof);
    let right = NodeInput {
        left: new,
        right: *sibling,
    };
    clash_of::<H>(right, top_of::<H>(height, q))
}

// The first clash where a proof leads from the root over p to that over q, at most 2^`height`
// digests. `whole` says that p has all old digests, and `old_root` is their root.
fn grown_clash<H: TreeHash>(
    height: u32,
    p: &[[u8; DIGEST_LEN]],
    q: &[[u8; DIGEST_LEN]],
    whole: bool,
    old_root: &[u8; DIGEST_LEN],
    proof: &[[u8; DIGEST_LEN]],
) -> Option<Clash>
    requires low { height ≤ MAX_HEIGHT }
    requires some { 0 < length p.now }
    requires more { length p.now ≤ length q.now }
    requires few { length q.now ≤ 2 ^ height }
    requires size { length proof.now
        ≡ proof_len_within height (length p.now) (length q.now) whole }
    ensures { let clash = first_clash H.hash
        (grown_within H.hash height p.now q.now whole old_root.now proof.now) in
        MatchOption result (clash ≡ None) (λ c. clash ≡ Some c) }
{
    if p.len() == q.len() {
        return trees_clash::<H>(height, p, q);
    }
    let (below, front) = (height - 1, front_len(height));
    if q.len() <= front {
        return grown_clash::<H>(below, p, q, whole, old_root, proof);
    }
    let last = proof.len() - 1;
    let (sibling, proof) = (&proof[last], &proof[..last]);
    let (q_front, q_rest) = q.split_at(front);
    if p.len() <= front {
        let top = right_clash::<H>(height, p.len(), q, whole, old_root, proof, sibling);
        return top.or(grown_clash::<H>(below, p, q_front, whole, old_root, proof));
    }
    let (p_front, p_rest) = p.split_at(front);
    let top = left_clash::<H>(height, p, q, old_root, proof, sibling);
    let in_front = trees_clash::<H>(below, p_front, q_front);
    let in_rest = grown_clash::<H>(below, p_rest, q_rest, false, old_root, proof);
    top.or(in_front).or(in_rest)
}

/// The first clash of two lists of digests and a proof. There is one where the proof passes
/// `check_consistency` from the root over `p` to that over `q`, and `p` isn't the front of `q`.
/// `None` where `p` is empty or longer than `q`, or the proof not as long as one from `p` to `q`.
/// Hashes at most some ten times for each digest of `q`, and takes no memory.
pub fn growth_clash<H: TreeHash>(
    p: &[[u8; DIGEST_LEN]],
    q: &[[u8; DIGEST_LEN]],
    proof: &[[u8; DIGEST_LEN]],
) -> Option<Clash>
    ensures { let clash = growth_answer H.hash p.now q.now proof.now in
        MatchOption result (clash ≡ None) (λ c. clash ≡ Some c) }
{
    if p.is_empty() || q.len() < p.len() {
        return None;
    }
    if proof.len() != proof_len(MAX_HEIGHT, p.len(), q.len(), true) {
        return None;
    }
    grown_clash::<H>(MAX_HEIGHT, p, q, true, &root_of::<H>(p), proof)
}
