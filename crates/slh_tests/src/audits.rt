// The worked signature with bytes changed so that it is still accepted. All values were worked by
// hand.
use crate::page_of_audits::verdict;
use crate::shown::shows;
use crate::worked::changed;
use slh_audit::{Evidence, Verdict};

fn fors_node(tree: u32, height: u32) -> Evidence {
    Evidence::ForsNode { tree, height }
}

// Whether changed bytes are accepted, and foreign by this evidence.
fn is_foreign(changes: &[(usize, u8)], evidence: Evidence) -> bool {
    verdict(&changed(changes)) == Ok(Verdict::Foreign(evidence))
}

fn is_forest_foreign() -> bool {
    // Secrets 83 and 82 both give 46.
    is_foreign(&[(1, 0x53)], fors_node(0, 0))
        // The children (47, 52) and (46, 52) both give 184.
        && is_foreign(&[(1, 0x54)], fors_node(0, 1))
        // The roots (116, 181) and (113, 184) both give 44.
        && is_foreign(&[(3, 0x8f), (6, 0x14)], Evidence::ForsRoots)
}

fn is_layer_foreign() -> bool {
    let (layer, chain, step) = (0, 2, 0);
    // 72 and 73 both give 39.
    is_foreign(&[(9, 0x48)], Evidence::ChainStep { layer, chain, step })
        // The ends 31, 32, 32, 32, 33 and five times 32 both give 163.
        && is_foreign(&[(14, 0x1c), (18, 0x21)], Evidence::Leaf { layer: 1 })
        // The children (63, 63) and (62, 63) both give 225.
        && is_foreign(
            &[(20, 0x3f)],
            Evidence::TreeNode {
                layer: 1,
                height: 2,
            },
        )
        // The forest's key is 41, with digits 2, 9, 0, 1, 3: 9 is below 12.
        && is_foreign(
            &[(6, 0x14), (8, 0x14), (11, 0x12)],
            Evidence::Early { layer: 0, chain: 1 },
        )
}

#[test]
fn accepted_bytes_that_were_not_made_are_foreign(rt: HostRuntime) {
    shows(&rt, is_forest_foreign() && is_layer_foreign());
}
