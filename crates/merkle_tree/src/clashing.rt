//! Where two ways up clash: different inputs that are hashed to one digest.
ghost use Rattle.std.specs.Prelude.{◌≡◌, ◌<◌, ◌+◌, ◌&&◌, length, not, Some, None};
ghost use Rattle.std.specs.Prelude.{IfSome, MatchOption};
ghost use Rattle.std.specs.Str.{bytes_eq};
ghost use Rattle.merkle_tree.specs.Binding.{climb_pairs, paths_clash};
ghost use Rattle.merkle_tree.specs.Clashes.{clash_place, first_clash};
ghost use Rattle.merkle_tree.specs.Climb.{inputs_along, path_sides};

use crate::hashing::{DIGEST_LEN, TreeHash};
use crate::node_input::{NodeInput, digest_of, input_of};
use crate::sides::{Sides, sides_of};
use std::marker::Model;

/// Two different inputs with one digest.
#[derive(Drop)]
pub struct Clash {
    /// What one of the two is made of.
    pub first: NodeInput,
    /// What the other is made of.
    pub second: NodeInput,
}

impl Model for Clash {
    ghost use Rattle.merkle_tree.specs.Clashes.{Inputs};

    ghost Value = { Inputs };

    ghost view = { λ s. record { first = s.first; second = s.second } };
}

/// Where two ways up clash first, and by which inputs.
#[derive(Drop)]
pub struct WayClash {
    /// The height above the leaves at which the digests below stand, 0 for the leaves.
    pub height: u32,
    /// The inputs.
    pub clash: Clash,
}

// Whether two inputs are the same.
fn are_same(first: &NodeInput, second: &NodeInput) -> bool
    ensures { result ≡ bytes_eq first.now second.now }
{
    first.left == second.left && first.right == second.right
}

// Whether inputs that are the same or not have these digests in a clash.
fn is_clash(same: bool, first: &[u8; DIGEST_LEN], second: &[u8; DIGEST_LEN]) -> bool
    ensures { result ≡ (not same && bytes_eq first.now second.now) }
{
    !same && first == second
}

// Where the ways up from `x` and `y` along the same sides clash first.
fn first_on_the_way<H: TreeHash>(
    sides: &Sides,
    x: &[u8; DIGEST_LEN],
    path_x: &[[u8; DIGEST_LEN]],
    y: &[u8; DIGEST_LEN],
    path_y: &[[u8; DIGEST_LEN]],
) -> Option<WayClash>
    requires path_x { length path_x.now ≡ length sides.now }
    requires path_y { length path_y.now ≡ length sides.now }
    ensures low { IfSome result (λ found. found.height < 64) }
    ensures height { let place = clash_place H.hash
        (inputs_along H.hash x.now sides.now path_x.now)
        (inputs_along H.hash y.now sides.now path_y.now) in
        MatchOption result (place ≡ None) (λ found. place ≡ Some found.height) }
    ensures inputs { let clash = first_clash H.hash
        (climb_pairs H.hash x.now y.now sides.now path_x.now path_y.now) in
        MatchOption result (clash ≡ None) (λ found. clash ≡ Some found.clash) }
{
    let (mut node_x, mut node_y) = (*x, *y);
    'each_side: for h in 0..sides.len() {
        let left = sides.is_left(h);
        let first = input_of(left, &node_x, &path_x[h]);
        let second = input_of(left, &node_y, &path_y[h]);
        let (above_x, above_y) = (digest_of::<H>(&first), digest_of::<H>(&second));
        if is_clash(are_same(&first, &second), &above_x, &above_y) {
            return Some(WayClash {
                height: h as u32,
                clash: Clash { first, second },
            });
        }
        node_x = above_x;
        node_y = above_y;
    }
    None
}

/// Where the ways up from two digests, each as leaf `index` of `size` by a path of its own, hash
/// different inputs to one digest first. There is such a place where the digests differ and the
/// ways lead to one root. Takes no memory.
pub fn paths_clash<H: TreeHash>(
    index: u64,
    size: u64,
    x: &[u8; DIGEST_LEN],
    path_x: &[[u8; DIGEST_LEN]],
    y: &[u8; DIGEST_LEN],
    path_y: &[[u8; DIGEST_LEN]],
) -> Option<WayClash>
    requires inside { index < size }
    requires path_x { length path_x.now ≡ length (path_sides index size) }
    requires path_y { length path_y.now ≡ length (path_sides index size) }
    ensures low { IfSome result (λ found. found.height < 64) }
    ensures height { let sides = path_sides index size in
        let place = clash_place H.hash (inputs_along H.hash x.now sides path_x.now)
        (inputs_along H.hash y.now sides path_y.now) in
        MatchOption result (place ≡ None) (λ found. place ≡ Some found.height) }
    ensures inputs { let clash
        = paths_clash H.hash index size x.now y.now path_x.now path_y.now in
        MatchOption result (clash ≡ None) (λ found. clash ≡ Some found.clash) }
{
    let sides = sides_of(index, size - 1);
    first_on_the_way::<H>(&sides, x, path_x, y, path_y)
}
