//! A list of digests, and a path that leads from another digest to its root.
ghost use Rattle.std.specs.Prelude.{◌≡◌, ◌<◌, ◌≤◌, length, drop, None, Some, MatchOption};
ghost use Rattle.merkle_tree.specs.Tree.{inclusion_path};
ghost use Rattle.merkle_clash.specs.Answers.{inclusion_answer};

use merkle_tree::{Clash, DIGEST_LEN, TreeHash, path_len, paths_clash, root_of};

/// How many digests a path has at most.
const MAX_PATH: usize = 64;

// Puts the path of digest `index` at the end of `path`, and answers where it begins.
fn put_path<H: TreeHash>(
    path: &mut [[u8; DIGEST_LEN]; MAX_PATH],
    digests: &[[u8; DIGEST_LEN]],
    index: usize,
) -> usize
    requires { index < length digests.now }
    ensures few { result ≤ MAX_PATH }
    ensures path { drop result path.new ≡ inclusion_path H.hash digests.now index }
{
    let (mut part, mut at) = (digests, index);
    let mut start = MAX_PATH;
    let mut height = MAX_PATH as u32;
    'each_height: while height > 0 {
        height -= 1;
        let len = 2usize.pow(height);
        if part.len() > len {
            let (front, rest) = part.split_at(len);
            start -= 1;
            if at < len {
                path[start] = root_of::<H>(rest);
                part = front;
            } else {
                path[start] = root_of::<H>(front);
                part = rest;
                at -= len;
            }
        }
    }
    start
}

/// The first clash on the way up from `x` by a path and on that from digest `index` by its own,
/// the lowest first. There is one where the path passes `check_inclusion` from `x` to the root over
/// the digests, and `x` isn't that digest. `None` where there is no such digest, or the path isn't
/// as long as its own. Hashes less than twice for each digest, and takes no memory.
pub fn inclusion_clash<H: TreeHash>(
    digests: &[[u8; DIGEST_LEN]],
    index: usize,
    x: &[u8; DIGEST_LEN],
    path: &[[u8; DIGEST_LEN]],
) -> Option<Clash>
    ensures { let clash = inclusion_answer H.hash digests.now index x.now path.now in
        MatchOption result (clash ≡ None) (λ c. clash ≡ Some c) }
{
    if index >= digests.len() {
        return None;
    }
    let (i, n) = (index as u64, digests.len() as u64);
    if path.len() != path_len(i, n) {
        return None;
    }
    let mut own = [[0; DIGEST_LEN]; MAX_PATH];
    let start = put_path::<H>(&mut own, digests, index);
    match paths_clash::<H>(i, n, x, path, &digests[index], &own[start..]) {
        Some(found) => Some(found.clash),
        None => None,
    }
}
