//! The roots that a proof of growth leads to.
ghost use Rattle.std.specs.Prelude.{◌≡◌, ◌+◌, ◌<◌, ◌≤◌, ◌^◌, length};
ghost use Rattle.merkle_tree.specs.Consistency.{proof_len_within, roots_within};

use crate::inputs::{MAX_HEIGHT, front_len};
use merkle_tree::{DIGEST_LEN, TreeHash};

/// How many digests a proof has that shows how `old_size` of at most 2^`height` digests grew into
/// `new_size`. `whole` says that these are all old digests.
pub(crate) fn proof_len(height: u32, old_size: usize, new_size: usize, whole: bool) -> usize
    requires low { height ≤ MAX_HEIGHT }
    requires some { 0 < old_size }
    requires more { old_size ≤ new_size }
    requires few { new_size ≤ 2 ^ height }
    ensures value { result ≡ proof_len_within height old_size new_size whole }
    ensures few { result ≤ height + 1 }
{
    if old_size == new_size {
        return if whole { 0 } else { 1 };
    }
    let (below, front) = (height - 1, front_len(height));
    if new_size <= front {
        return proof_len(below, old_size, new_size, whole);
    }
    if old_size <= front {
        proof_len(below, old_size, front, whole) + 1
    } else {
        proof_len(below, old_size - front, new_size - front, false) + 1
    }
}

/// The old root and the new that a proof leads to.
pub(crate) fn proof_roots<H: TreeHash>(
    height: u32,
    old_size: usize,
    new_size: usize,
    whole: bool,
    old_root: &[u8; DIGEST_LEN],
    proof: &[[u8; DIGEST_LEN]],
) -> ([u8; DIGEST_LEN], [u8; DIGEST_LEN])
    requires low { height ≤ MAX_HEIGHT }
    requires some { 0 < old_size }
    requires more { old_size ≤ new_size }
    requires few { new_size ≤ 2 ^ height }
    requires size { length proof.now ≡ proof_len_within height old_size new_size whole }
    ensures old { let roots
        = roots_within H.hash height old_size new_size whole old_root.now proof.now in
        result.0 ≡ roots.old }
    ensures new { let roots
        = roots_within H.hash height old_size new_size whole old_root.now proof.now in
        result.1 ≡ roots.new }
{
    if old_size == new_size {
        let seed = if whole { *old_root } else { proof[0] };
        return (seed, seed);
    }
    let (below, front) = (height - 1, front_len(height));
    if new_size <= front {
        return proof_roots::<H>(below, old_size, new_size, whole, old_root, proof);
    }
    let last = proof.len() - 1;
    let sibling = &proof[last];
    if old_size <= front {
        let (old, new) = proof_roots::<H>(below, old_size, front, whole, old_root, &proof[..last]);
        (old, H::node(&new, sibling))
    } else {
        let (old_rest, new_rest) = (old_size - front, new_size - front);
        let (old, new) = proof_roots::<H>(
            below,
            old_rest,
            new_rest,
            false,
            old_root,
            &proof[..last],
        );
        (H::node(sibling, &old), H::node(sibling, &new))
    }
}
