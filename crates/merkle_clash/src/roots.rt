//! Two lists of digests that have one root.
ghost use Rattle.std.specs.Prelude.{◌≡◌, ◌<◌, ◌≤◌, ◌^◌, length, None, Some, MatchOption};
ghost use Rattle.merkle_tree.specs.Binding.{tree_pairs};
ghost use Rattle.merkle_tree.specs.Clashes.{first_clash};
ghost use Rattle.merkle_tree.specs.Tree.{tree_within};
ghost use Rattle.merkle_clash.specs.Answers.{roots_answer};

use crate::inputs::{MAX_HEIGHT, clash_of, front_len};
use merkle_tree::{Clash, DIGEST_LEN, NodeInput, TreeHash};

/// What comes of comparing two trees.
#[derive(Drop)]
struct Compared {
    first: [u8; DIGEST_LEN],
    second: [u8; DIGEST_LEN],
    clash: Option<Clash>,
}

// The roots of two trees of at most 2^`height` digests, and their first clash.
fn compare<H: TreeHash>(height: u32, p: &[[u8; DIGEST_LEN]], q: &[[u8; DIGEST_LEN]]) -> Compared
    requires low { height ≤ MAX_HEIGHT }
    requires same { length p.now ≡ length q.now }
    requires some { 0 < length q.now }
    requires few { length q.now ≤ 2 ^ height }
    ensures first { result.first ≡ tree_within H.hash height p.now }
    ensures second { result.second ≡ tree_within H.hash height q.now }
    ensures clash { let clash = first_clash H.hash (tree_pairs H.hash height p.now q.now) in
        MatchOption result.clash (clash ≡ None) (λ c. clash ≡ Some c) }
{
    if height == 0 {
        return Compared {
            first: p[0],
            second: q[0],
            clash: None,
        };
    }
    let (below, len) = (height - 1, front_len(height));
    if q.len() <= len {
        return compare::<H>(below, p, q);
    }
    let (p_front, p_rest) = p.split_at(len);
    let (q_front, q_rest) = q.split_at(len);
    let front = compare::<H>(below, p_front, q_front);
    let rest = compare::<H>(below, p_rest, q_rest);
    let first = H::node(&front.first, &rest.first);
    let second = H::node(&front.second, &rest.second);
    let first_input = NodeInput {
        left: front.first,
        right: rest.first,
    };
    let second_input = NodeInput {
        left: front.second,
        right: rest.second,
    };
    let top = clash_of::<H>(first_input, second_input);
    let clash = top.or(front.clash).or(rest.clash);
    Compared {
        first,
        second,
        clash,
    }
}

/// The first clash of two trees of at most 2^`height` digests.
pub(crate) fn trees_clash<H: TreeHash>(
    height: u32,
    p: &[[u8; DIGEST_LEN]],
    q: &[[u8; DIGEST_LEN]],
) -> Option<Clash>
    requires low { height ≤ MAX_HEIGHT }
    requires same { length p.now ≡ length q.now }
    requires some { 0 < length q.now }
    requires few { length q.now ≤ 2 ^ height }
    ensures { let clash = first_clash H.hash (tree_pairs H.hash height p.now q.now) in
        MatchOption result (clash ≡ None) (λ c. clash ≡ Some c) }
{
    compare::<H>(height, p, q).clash
}

/// The first clash of two lists of digests, which there is where they differ and have one root.
/// `None` where they aren't of one length. Hashes at most four times for each digest of a list, and
/// takes no memory.
pub fn roots_clash<H: TreeHash>(p: &[[u8; DIGEST_LEN]], q: &[[u8; DIGEST_LEN]]) -> Option<Clash>
    ensures { let clash = roots_answer H.hash p.now q.now in
        MatchOption result (clash ≡ None) (λ c. clash ≡ Some c) }
{
    if p.len() != q.len() || q.is_empty() {
        return None;
    }
    trees_clash::<H>(MAX_HEIGHT, p, q)
}
