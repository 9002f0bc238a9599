//! Tests of `slh_merkle`, `slh_audit` and `slh_dsa` from outside: the toy suite, whose values were
//! worked by hand, and a known key of SLH-DSA-SHA2-128f. Below them those of `slh_core` (`core_`),
//! `slh_hash` (`hash_`) and `signature_core` (`signature_traits`), above them those of `slh_sets`
//! (`sets`) and, over its six sets, of `slh_stream` (`stream_`).
//!
//! Then those of `slh_batch` (`batch_`), `slh_chain` (`chain_`), `slh_ring` (`ring_`),
//! `slh_manifest` (`manifest_`) and `slh_run` (`run_`): what other programs computed, reports of
//! benches, and faults of stores and of ends. Links, walks and faults of chains are in the stored
//! run of `slh_chain_cli`, replies to lines in that of `slh_cli`.
//!
//! The examples of the crates' pages are in `page_of_`, that of docs/KEYS.md in `chain_policy`.
#![tactic(auto)]

#[cfg(test)]
mod audits;
#[cfg(test)]
mod batch_pieces;
#[cfg(test)]
mod batch_trees;
#[cfg(test)]
mod chain_policy;
#[cfg(test)]
mod changed;
#[cfg(test)]
mod core_values;
#[cfg(test)]
mod counting;
#[cfg(test)]
mod digests;
#[cfg(test)]
mod hash_l1;
#[cfg(test)]
mod hash_l35;
#[cfg(test)]
mod hash_rows;
#[cfg(test)]
mod keys;
#[cfg(test)]
mod keys_128f;
#[cfg(test)]
mod manifest_elsewhere;
#[cfg(test)]
mod manifest_reads;
#[cfg(test)]
mod page_of_audits;
#[cfg(test)]
mod page_of_batches;
#[cfg(test)]
mod page_of_chains;
#[cfg(test)]
mod page_of_keys;
#[cfg(test)]
mod page_of_manifests;
#[cfg(test)]
mod page_of_pieces;
#[cfg(test)]
mod page_of_rings;
#[cfg(test)]
mod page_of_runs;
#[cfg(test)]
mod page_of_trees;
#[cfg(test)]
mod ring_records;
#[cfg(test)]
mod ring_texts;
#[cfg(test)]
mod run_benches;
#[cfg(test)]
mod run_faults;
#[cfg(test)]
mod sets;
#[cfg(test)]
mod shown;
#[cfg(test)]
mod signature_traits;
#[cfg(test)]
mod signatures;
#[cfg(test)]
mod stream_answers;
#[cfg(test)]
mod stream_aside;
#[cfg(test)]
mod stream_by_key;
#[cfg(test)]
mod stream_pieces;
#[cfg(test)]
mod traits;
#[cfg(test)]
mod worked;
