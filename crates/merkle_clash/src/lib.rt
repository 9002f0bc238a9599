//! Where digests that a root should bind are replaced by others, two different inputs were hashed
//! to one digest: these calls find them.
//!
//! [`roots_clash`] compares two lists of digests that have one root, [`growth_clash`] two lists and
//! a proof that leads from the root over one to that over the other, [`inclusion_clash`] a list and
//! a path that leads from another digest to its root. [`entry_clash`] and [`leaves_clash`] begin at
//! the entries that digests are of. They answer the first clash in the order of `merkle_tree`'s
//! definitions: of trees from the top on, of a path from the leaf on.
#![tactic(auto)]

mod entries;
mod growth;
mod inclusion;
mod inputs;
pub mod laws;
mod proof_roots;
mod roots;

pub use entries::{EntryClash, are_short, entry_clash, leaves_clash};
pub use growth::growth_clash;
pub use inclusion::inclusion_clash;
pub use roots::roots_clash;
