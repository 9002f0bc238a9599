use crate::hexadecimal::{are_hex, digest};
use crate::shown::{shows, shows_at};
use merkle_store::{Leaves, push_path, push_proof};
use merkle_tree::{Frontier, Levels, Sha256, TreeHash, check_consistency, check_inclusion};
use std::alloc::Global;

// A line each. The first has no bytes.
const ENTRIES: &str = "
00
10
2021
3031
40414243
5051525354555657
606162636465666768696a6b6c6d6e6f";

// The root over no entries, the first, the first two and so on.
const ROOTS: &str = "\
e3b0c44298fc1c149afbf4c8996fb92427ae41e4649b934ca495991b7852b855
6e340b9cffb37a989ca544e6bb780a2c78901d3fb33738768511a30617afa01d
fac54203e7cc696cf0dfcb42c92a1d9dbaf70ad9e621f4bd8d98662f00e3c125
aeb6bcfe274b70a14fb067a5e5578264db0fa9b51af5e0ba159158f329e06e77
d37ee418976dd95753c1c73862b9398fa2a2cf9b4ff0fdfe8b30cd95209614b7
4e3bbb1f7b478dcfe71fb631631519a3bca12c9aefca1612bfce4c13a86264d4
76e67dadbcdf1e10e1b74ddc608abd2f98dfb16fbce75277b5232a127f2087ef
ddb89be403809e325750d3d263cd78929c2942b7942a34b77e122c9594a74c8c
5dc9da79a70659a9ad559cb701ded9a2ab9d823aad2f4960cfe370eff4604328";

// The paths of an entry, and the proofs that a tree grew.
const PATH_5_OF_8: &str = "\
bc1a0643b12e4d2d7c77918f44e0f4f79a838b6cf9ec5b5c283e1f4d88599e6b
ca854ea128ed050b41b35ffc1b87b8eb2bde461e9e3b5596ece6b9d5975a0ae0
d37ee418976dd95753c1c73862b9398fa2a2cf9b4ff0fdfe8b30cd95209614b7";

const PROOF_6_OF_8: &str = "\
0ebc5d3437fbe2db158b9f126a1d118e308181031d0a949f8dededebc558ef6a
ca854ea128ed050b41b35ffc1b87b8eb2bde461e9e3b5596ece6b9d5975a0ae0
d37ee418976dd95753c1c73862b9398fa2a2cf9b4ff0fdfe8b30cd95209614b7";

const PATH_2_OF_7: &str = "\
07506a85fd9dd2f120eb694f86011e5bb4662e5c415a62917033d4a9624487e7
fac54203e7cc696cf0dfcb42c92a1d9dbaf70ad9e621f4bd8d98662f00e3c125
837dbb152e9b079010717e84e865da4ebc0fa198a806d59d31bf15accef22d0e";

const PROOF_3_OF_7: &str = "\
0298d122906dcfc10892cb53a73992fc5b9f493ea4c9badb27b791b4127a7fe7
07506a85fd9dd2f120eb694f86011e5bb4662e5c415a62917033d4a9624487e7
fac54203e7cc696cf0dfcb42c92a1d9dbaf70ad9e621f4bd8d98662f00e3c125
837dbb152e9b079010717e84e865da4ebc0fa198a806d59d31bf15accef22d0e";

const PATH_4_OF_5: &str = "d37ee418976dd95753c1c73862b9398fa2a2cf9b4ff0fdfe8b30cd95209614b7";

const PROOF_2_OF_5: &str = "\
5f083f0a1a33ca076a95279832580db3e0ef4584bdff1f54c8a360f50de3031e
bc1a0643b12e4d2d7c77918f44e0f4f79a838b6cf9ec5b5c283e1f4d88599e6b";

const PATH_5_OF_6: &str = "\
bc1a0643b12e4d2d7c77918f44e0f4f79a838b6cf9ec5b5c283e1f4d88599e6b
d37ee418976dd95753c1c73862b9398fa2a2cf9b4ff0fdfe8b30cd95209614b7";

const PROOF_5_OF_6: &str = "\
bc1a0643b12e4d2d7c77918f44e0f4f79a838b6cf9ec5b5c283e1f4d88599e6b
4271a26be0d8a84f0bd54c8c302e7cb3a3b5d1fa6780a40bcce2873477dab658
d37ee418976dd95753c1c73862b9398fa2a2cf9b4ff0fdfe8b30cd95209614b7";

const PROOF_4_OF_5: &str = "bc1a0643b12e4d2d7c77918f44e0f4f79a838b6cf9ec5b5c283e1f4d88599e6b";

fn line(text: &str, n: usize) -> &str {
    text.lines().nth(n).unwrap_or("")
}

fn root(n: usize) -> [u8; 32] {
    digest(line(ROOTS, n))
}

// The digest of an entry of at most 16 bytes.
fn leaf(n: usize) -> [u8; 32] {
    let text = line(ENTRIES, n);
    let mut entry = [0; 16];
    let len = text.len() / 2;
    if len > 16 || hex::decode_to_slice(text, &mut entry[..len]).is_err() {
        return [0; 32];
    }
    Sha256::leaf(&entry[..len])
}

#[test]
fn roots_of_a_growing_tree(rt: HostRuntime) {
    let mut tree = Frontier::<Sha256>::new();
    shows(&rt, tree.root() == root(0));
    for n in 0..8usize {
        if tree.len() < 8 {
            tree.push(&leaf(n));
        }
        shows_at(&rt, n, tree.root() == root(n + 1));
    }
    shows(&rt, tree.len() == 8);
}

// Whether a path shows that an entry is the one at an index, under the root over so many.
fn is_in(index: u64, size: u64, over: usize, entry: usize, path: &[[u8; 32]]) -> bool {
    check_inclusion::<Sha256>(index, size, &leaf(entry), &root(over), path)
}

// The path of entry 5 of 8, and that of entry 4 of 5; another index or entry, an index past the
// end, another sibling or size.
fn are_paths_for_one_entry() -> bool {
    let path = [
        digest("bc1a0643b12e4d2d7c77918f44e0f4f79a838b6cf9ec5b5c283e1f4d88599e6b"),
        digest("ca854ea128ed050b41b35ffc1b87b8eb2bde461e9e3b5596ece6b9d5975a0ae0"),
        root(4),
    ];
    is_in(5, 8, 8, 5, &path)
        && !is_in(4, 8, 8, 5, &path)
        && !is_in(5, 8, 8, 4, &path)
        && !is_in(8, 8, 8, 5, &path)
        && is_in(4, 5, 5, 4, &path[2..])
        && !is_in(4, 5, 5, 4, &path[1..2])
        && !is_in(4, 6, 5, 4, &path[2..])
}

#[test]
fn a_path_is_for_one_entry(rt: HostRuntime) {
    shows(&rt, are_paths_for_one_entry());
}

// Whether the proof shows that the tree of m entries grew into that of n.
fn grew(m: usize, n: usize, proof: &[[u8; 32]]) -> bool {
    check_consistency::<Sha256>(m as u64, n as u64, &root(m), &root(n), proof)
}

// Whether a proof is for this growth alone: not from fewer or more entries, into fewer, the other
// way round, without its last digest or its first.
fn is_for_one_growth(m: usize, n: usize, proof: &[[u8; 32]]) -> bool {
    grew(m, n, proof)
        && !grew(m.wrapping_sub(1), n, proof)
        && !grew(m.wrapping_add(1), n, proof)
        && !grew(m, n.wrapping_sub(1), proof)
        && !grew(n, m, proof)
        && !grew(m, n, &proof[..proof.len().saturating_sub(1)])
        && !grew(m, n, &proof[proof.len().min(1)..])
}

// Whether the proof of these lines is.
fn are_lines_for_one_growth(m: usize, n: usize, lines: &str) -> bool {
    let mut proof = [[0; 32]; 4];
    let mut len = 0;
    for line in lines.lines() {
        if len < 4 {
            proof[len] = digest(line);
            len += 1;
        }
    }
    is_for_one_growth(m, n, &proof[..len.min(4)])
}

fn are_for_one_growth() -> bool {
    are_lines_for_one_growth(6, 8, PROOF_6_OF_8)
        && are_lines_for_one_growth(3, 7, PROOF_3_OF_7)
        && are_lines_for_one_growth(2, 5, PROOF_2_OF_5)
}

// A full tree, an equal one, and no old tree.
#[test]
fn a_proof_is_for_one_growth(rt: HostRuntime) {
    let sibling = digest("837dbb152e9b079010717e84e865da4ebc0fa198a806d59d31bf15accef22d0e");
    shows(
        &rt,
        are_for_one_growth()
            && grew(4, 7, &[sibling])
            && !grew(4, 7, &[])
            && grew(5, 5, &[])
            && !grew(5, 5, &[sibling])
            && !grew(0, 5, &[])
            && !check_consistency::<Sha256>(5, 5, &root(5), &root(6), &[]),
    );
}

fn leaves() -> [[u8; 32]; 8] {
    let mut digests = [[0; 32]; 8];
    for k in 0..8usize {
        digests[k] = leaf(k);
    }
    digests
}

// Whether digests are those of a path and then those of a proof.
fn are_path_and_proof(made: &[[u8; 32]], path: &str, proof: &str) -> bool {
    let (first, rest) = made.split_at((path.len() / 64).min(made.len()));
    are_hex(path, first) && are_hex(proof, rest)
}

// Whether the path of entry i and the proof that the tree grew from m entries are put.
fn are_put(levels: &Levels<Sha256>, out: &mut Vec<[u8; 32]>, i: usize, m: usize) -> bool {
    i < levels.len()
        && m > 0
        && m <= levels.len()
        && levels.push_path(out, i).is_ok()
        && levels.push_proof(out, m).is_ok()
}

// Whether they are these, of the levels of the tree of n entries.
fn are_of_levels(alloc: Global, n: usize, i: usize, m: usize, path: &str, proof: &str) -> bool {
    if n == 0 || n > 8 {
        return false;
    }
    let Ok(digests) = leaves()[..n].to_vec(alloc) else {
        return false;
    };
    let Ok(levels) = Levels::<Sha256>::over(digests) else {
        return false;
    };
    let mut out = Vec::new(alloc);
    are_put(&levels, &mut out, i, m) && are_path_and_proof(&out, path, proof)
}

// The same of a store of all eight.
fn are_of_store(alloc: Global, n: u64, i: u64, m: u64, path: &str, proof: &str) -> bool {
    let digests = leaves();
    let store = Leaves { digests: &digests };
    let mut out = Vec::new(alloc);
    n <= 8
        && i < n
        && m > 0
        && m <= n
        && push_path::<Sha256, Leaves<'_>>(&store, &mut out, i, n).is_ok()
        && push_proof::<Sha256, Leaves<'_>>(&store, &mut out, m, n).is_ok()
        && are_path_and_proof(&out, path, proof)
}

fn is_made(alloc: Global, n: usize, i: usize, m: usize, path: &str, proof: &str) -> bool {
    are_of_levels(alloc, n, i, m, path, proof)
        && are_of_store(alloc, n as u64, i as u64, m as u64, path, proof)
}

fn are_made(alloc: Global) -> bool {
    is_made(alloc, 8, 5, 6, PATH_5_OF_8, PROOF_6_OF_8)
        && is_made(alloc, 7, 2, 3, PATH_2_OF_7, PROOF_3_OF_7)
        && is_made(alloc, 5, 4, 2, PATH_4_OF_5, PROOF_2_OF_5)
        && is_made(alloc, 6, 5, 5, PATH_5_OF_6, PROOF_5_OF_6)
        && is_made(alloc, 5, 4, 4, PATH_4_OF_5, PROOF_4_OF_5)
        && is_made(alloc, 1, 0, 1, "", "")
}

#[test]
fn paths_and_proofs_are_made(rt: HostRuntime) {
    shows(&rt, are_made(rt.alloc()));
}
