//! Why the second pass of signing wrote no signature.

/// Why the second pass of signing wrote no signature.
#[derive(Clone, Copy, Debug, PartialEq, Eq)]
pub enum PassError {
    /// The output doesn't have the bytes of a signature.
    Length,
    /// The second pass was given other bytes than the first.
    Changed,
}
