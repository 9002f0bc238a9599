//! Evidence that accepted bytes are not a key's own, what an audit finds, and why it finds nothing.

/// Where a signature's check and its key's own computation come together though they started apart,
/// or where a signature opens a chain earlier than the key does.
#[derive(Clone, Copy, PartialEq, Eq, Drop)]
pub enum Evidence {
    /// A secret of a tree of the forest (height 0), or the two children of one of its nodes.
    ForsNode { tree: u32, height: u32 },
    /// The roots of all trees of the forest.
    ForsRoots,
    /// A value of a chain, before a step.
    ChainStep { layer: u32, chain: u32, step: u32 },
    /// The ends of all chains of a key pair.
    Leaf { layer: u32 },
    /// The two children of a node of a layer's tree.
    TreeNode { layer: u32, height: u32 },
    /// A chain's value at a digit that is smaller than the key's.
    Early { layer: u32, chain: u32 },
}

/// What an audit finds of bytes that lead to the root of a key with the root of its own seeds.
#[derive(Clone, Copy, PartialEq, Eq, Drop)]
pub enum Verdict {
    /// The key makes these bytes with their own randomizer.
    Genuine,
    /// It doesn't: the first evidence that shows.
    Foreign(Evidence),
}

/// Why there is no verdict.
#[derive(Clone, Copy, PartialEq, Eq, Drop)]
pub enum AuditError {
    /// The key or the signature has a wrong number of bytes.
    Length,
    /// The context has more than 255 bytes.
    ContextTooLong,
    /// The message has more than 2^60 bytes.
    MessageTooLong,
    /// The key's root isn't the root of its seeds.
    KeyMismatch,
    /// The signature doesn't lead to the key's root.
    Invalid,
}
