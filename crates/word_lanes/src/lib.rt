//! Lemmas on words of any width, alone and in the lanes of vectors, for the crates that hash with
//! them. There is no code here: what is proved stands in `proofs/`, once for each width.
//!
//! - `Words`: choices, majorities and rotations in fewer operations than the standard's.
//! - `Vectors`: what an operation on vectors does in each lane.
//! - `Windows`: sixteen words of a schedule at a time.
//! - `Blocks`: bytes at the front of a block, and where their padding begins.
#![tactic(auto)]
