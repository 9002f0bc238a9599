//! Two definitions of SHA-256 (FIPS 180-4) are one function: that of `hmac_sha256` and that of the
//! library's `sha2`. Nothing here runs.
//!
//! They are apart in their recursions: how the schedule grows, how the rounds take their constants
//! and words, from which end the blocks are taken, and how words are read from bytes and written;
//! and in the formula for the zeros of the padding. They are the same, but for names, in the
//! constants, the hash value before the first block, the functions and sums of words, the formulas
//! of a round and of a later word, and the end of a block: a mistake there would stand in both.
#![tactic(auto)]

ghost use Rattle.sha256_law.specs.Law.{DefinitionsAgree};

/// Does nothing: its clause is the law.
pub fn definitions_agree()
    ensures { DefinitionsAgree }
{}
