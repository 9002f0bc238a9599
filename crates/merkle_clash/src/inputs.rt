//! What is hashed into nodes, compared.
ghost use Rattle.std.specs.Prelude.{◌≡◌, ◌-◌, ◌*◌, ◌<◌, ◌≤◌, ◌^◌, [], ◌∷◌, length, None, Some};
ghost use Rattle.std.specs.Prelude.{MatchOption};
ghost use Rattle.std.specs.Str.{bytes_eq};
ghost use Rattle.merkle_tree.specs.Binding.{top_input};
ghost use Rattle.merkle_tree.specs.Clashes.{clashes, first_clash};

use merkle_tree::{Clash, DIGEST_LEN, NodeInput, TreeHash, root_of};

/// How high a tree is at most.
pub(crate) const MAX_HEIGHT: u32 = 64;

/// How many digests the front of a tree has that is higher than it by one.
pub(crate) fn front_len(height: u32) -> usize
    requires some { 0 < height }
    requires low { height ≤ MAX_HEIGHT }
    ensures value { result ≡ 2 ^ (height - 1) }
    ensures twice { 2 ^ height ≡ 2 * result }
{
    2usize.pow(height - 1)
}

/// What is hashed at the top of a tree of at most 2^`height` digests, and more than half of that.
pub(crate) fn top_of<H: TreeHash>(height: u32, digests: &[[u8; DIGEST_LEN]]) -> NodeInput
    requires some { 0 < height }
    requires low { height ≤ MAX_HEIGHT }
    requires high { 2 ^ (height - 1) < length digests.now }
    requires few { length digests.now ≤ 2 ^ height }
    ensures { result ≡ top_input H.hash (height - 1) digests.now }
{
    let (front, rest) = digests.split_at(front_len(height));
    NodeInput {
        left: root_of::<H>(front),
        right: root_of::<H>(rest),
    }
}

// Whether two inputs are the same.
fn are_same(first: &NodeInput, second: &NodeInput) -> bool
    ensures { result ≡ bytes_eq first.now second.now }
{
    first.left == second.left && first.right == second.right
}

// Whether two inputs clash.
fn do_clash<H: TreeHash>(first: &NodeInput, second: &NodeInput) -> bool
    ensures { result ≡ clashes H.hash first.now second.now }
{
    !are_same(first, second)
        && H::node(&first.left, &first.right) == H::node(&second.left, &second.right)
}

/// The clash of two inputs, where they clash.
pub(crate) fn clash_of<H: TreeHash>(first: NodeInput, second: NodeInput) -> Option<Clash>
    ensures { let clash = first_clash H.hash (record { first = first; second = second } ∷ []) in
        MatchOption result (clash ≡ None) (λ c. clash ≡ Some c) }
{
    if do_clash::<H>(&first, &second) {
        return Some(Clash { first, second });
    }
    None
}
