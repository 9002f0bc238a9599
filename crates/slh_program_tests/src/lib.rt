//! Tests from outside of what the program `slh` is made of: of `slh_bytes` what is done with keys
//! (`key_files`), with what is read in pieces (`reader_`), with batches, chains, manifests and rings
//! (`command_`) and with logs (`log_`: heads under a key of the Rust crate, the tree of the Certificate
//! Transparency project, texts of proofs that Python made), and the outputs of `slh_host` (`path_`).
#![tactic(auto)]

#[cfg(test)]
mod command_groups;
#[cfg(test)]
mod command_receipts;
#[cfg(test)]
mod command_verdicts;
#[cfg(test)]
mod key_files;
#[cfg(test)]
mod keys;
#[cfg(test)]
mod log_heads;
#[cfg(test)]
mod log_proofs;
#[cfg(test)]
mod page_of_logs;
#[cfg(test)]
mod page_of_readers;
#[cfg(test)]
mod path_fronts;
#[cfg(test)]
mod path_outputs;
#[cfg(test)]
mod reader_refusals;
#[cfg(test)]
mod reader_signatures;
#[cfg(test)]
mod readers;
#[cfg(test)]
mod shown;
