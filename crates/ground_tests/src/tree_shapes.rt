//! The paths and proofs of all trees of up to 33 entries, against a reference program that follows
//! RFC 9162 to the letter: all of them hashed into one digest.
use crate::shown::shows;
use crate::tiles_proofs::with_proof;
use merkle_store::{Leaves, StoreError, push_path, push_proof};
use merkle_tree::{Sha256, TreeHash, check_consistency, check_inclusion, root_of};
use std::alloc::Global;

const COUNT: usize = 33;

// The digests of the entries 0, 1 and so on, of one byte each.
fn digests() -> [[u8; 32]; COUNT] {
    let mut digests = [[0; 32]; COUNT];
    for (k, digest) in digests.iter_mut().enumerate() {
        *digest = Sha256::leaf(&[(k % 256) as u8]);
    }
    digests
}

// What the path of digest m - 1 of n and the proof for m of n add to a digest; all zeros where one
// of them doesn't pass its check.
fn add(
    alloc: Global,
    before: &[u8; 32],
    digests: &[[u8; 32]],
    m: usize,
) -> Result<[u8; 32], StoreError> {
    let n = digests.len();
    if m == 0 || m > n {
        return Ok([0; 32]);
    }
    let store = Leaves { digests };
    let root = root_of::<Sha256>(digests);
    let mut path = Vec::new(alloc);
    push_path::<Sha256, Leaves<'_>>(&store, &mut path, (m - 1) as u64, n as u64)?;
    let mut proof = Vec::new(alloc);
    push_proof::<Sha256, Leaves<'_>>(&store, &mut proof, m as u64, n as u64)?;
    let old_root = root_of::<Sha256>(&digests[..m]);
    if !check_inclusion::<Sha256>((m - 1) as u64, n as u64, &digests[m - 1], &root, &path)
        || !check_consistency::<Sha256>(m as u64, n as u64, &old_root, &root, &proof)
    {
        return Ok([0; 32]);
    }
    let after = with_proof(&with_proof(before, &path), &proof);
    Ok(Sha256::node(&after, &root))
}

fn all_shapes(alloc: Global) -> Result<[u8; 32], StoreError> {
    let digests = digests();
    let mut all = [0; 32];
    for n in 1..COUNT + 1 {
        for m in 1..n + 1 {
            all = add(alloc, &all, &digests[..n], m)?;
        }
    }
    Ok(all)
}

#[test]
fn paths_and_proofs_of_all_shapes(rt: HostRuntime) {
    let expected = crate::hexadecimal::digest(
        "86104a43c583ec5566f9e40ce022ee9b3f259ec3809ad9264de831b160d7facc",
    );
    shows(&rt, all_shapes(rt.alloc()) == Ok(expected));
}
