//! Tests from outside of what stands below the scheme: `hybrid_array` (`array_`), `block_buffer`
//! (`buffer_`), `digest_core`, `hmac_sha256` (`hmac_`), `sha256_lanes`, `sha512_lanes`, `line_serve`
//! (`serve_`), `line_stdio` (`stdio_`), `merkle_tree` and `merkle_store` (`tree_`), `merkle_clash`
//! (`clash_`), `log_tiles` (`tiles_`), `log_files` (`log_`) and `whole_files` (`whole_`).
//!
//! Of trees and tiles these are the entries, roots, paths and proofs of the Certificate Transparency
//! project's own tests, all shapes of small trees and tiles about the first full one against another
//! program, clashes under a hash function that has them, and names of tiles by hand from the rule;
//! of files, each call on them failing in turn, and everything stopping at each.
#![tactic(auto)]

#[cfg(test)]
mod array_items;
#[cfg(test)]
mod array_lending;
#[cfg(test)]
mod array_views;
#[cfg(test)]
mod buffer_blocks;
#[cfg(test)]
mod buffer_reads;
#[cfg(test)]
mod clash_found;
#[cfg(test)]
mod clash_hash;
#[cfg(test)]
mod digest_cores;
#[cfg(test)]
mod hexadecimal;
#[cfg(test)]
mod hmac_digests;
#[cfg(test)]
mod hmac_hkdf;
#[cfg(test)]
mod hmac_wrapped;
#[cfg(test)]
mod log_appending;
#[cfg(test)]
mod log_folders;
#[cfg(test)]
mod serve_replies;
#[cfg(test)]
mod sha256_tails;
#[cfg(test)]
mod sha512_pieces;
#[cfg(test)]
mod sha512_tails;
#[cfg(test)]
mod shown;
#[cfg(test)]
mod stdio_ends;
#[cfg(test)]
mod texts;
#[cfg(test)]
mod tiles_entries;
#[cfg(test)]
mod tiles_growing;
#[cfg(test)]
mod tiles_names;
#[cfg(test)]
mod tiles_proofs;
#[cfg(test)]
mod tree_shapes;
#[cfg(test)]
mod tree_vectors;
#[cfg(test)]
mod whole_memory;
#[cfg(test)]
mod whole_writes;
