//! How evidence stands on a line.
ghost use Rattle.std.specs.Prelude.{◌≡◌, ◌==◌, ◌+◌, ◌<◌, ◌++◌, length, OnOk};
ghost use Rattle.std.specs.Prelude.{if◌then◌else◌, None, Some};
ghost use Rattle.line_serve.specs.Fields.{contents};
ghost use Rattle.slh_jobs.specs.EvidenceWords.{evidence_in, evidence_text, spaced};

use line_serve::{ByteString, field_at, number_at, push_number};
use slh_audit::Evidence;
use std::alloc::AllocError;

// `None`: behind the kind stand more numbers, or fewer.
fn check_count(words: &[&[u8]], numbers: usize) -> Option<()>
    requires { numbers < 4 }
    ensures { result ≡ (if length words.now == numbers + 1 then Some tt else None) }
{
    if words.len() == numbers + 1 {
        Some(())
    } else {
        None
    }
}

/// The evidence of these words: a kind, and its numbers. `None`: no such kind, more numbers or fewer
/// than it has, or one that isn't 1 to 10 decimal digits with a value below 2^32.
pub fn read_evidence(words: &[&[u8]]) -> Option<Evidence>
    ensures { result ≡ evidence_in (contents words.now) }
{
    let kind = field_at(words, 0);
    if kind == b"fors-node".as_slice() {
        check_count(words, 2)?;
        let tree = number_at(words, 1)?;
        let height = number_at(words, 2)?;
        Some(Evidence::ForsNode { tree, height })
    } else if kind == b"fors-roots".as_slice() {
        check_count(words, 0)?;
        Some(Evidence::ForsRoots)
    } else if kind == b"chain-step".as_slice() {
        check_count(words, 3)?;
        let layer = number_at(words, 1)?;
        let chain = number_at(words, 2)?;
        let step = number_at(words, 3)?;
        Some(Evidence::ChainStep { layer, chain, step })
    } else if kind == b"leaf".as_slice() {
        check_count(words, 1)?;
        let layer = number_at(words, 1)?;
        Some(Evidence::Leaf { layer })
    } else if kind == b"tree-node".as_slice() {
        check_count(words, 2)?;
        let layer = number_at(words, 1)?;
        let height = number_at(words, 2)?;
        Some(Evidence::TreeNode { layer, height })
    } else if kind == b"early".as_slice() {
        check_count(words, 2)?;
        let layer = number_at(words, 1)?;
        let chain = number_at(words, 2)?;
        Some(Evidence::Early { layer, chain })
    } else {
        None
    }
}

// Puts a space and a number at the end.
fn push_spaced(text: &mut ByteString, number: u32) -> Result<(), AllocError>
    ensures { OnOk result (text.new ≡ text.old ++ spaced number) }
{
    text.push_slice(b" ")?;
    push_number(text, u64::from(number))
}

/// Puts the text of evidence at the end.
pub fn push_evidence(text: &mut ByteString, evidence: Evidence) -> Result<(), AllocError>
    ensures { OnOk result (text.new ≡ text.old ++ evidence_text evidence) }
{
    match evidence {
        Evidence::ForsNode { tree, height } => {
            text.push_slice(b"fors-node")?;
            push_spaced(text, tree)?;
            push_spaced(text, height)
        }
        Evidence::ForsRoots => text.push_slice(b"fors-roots"),
        Evidence::ChainStep { layer, chain, step } => {
            text.push_slice(b"chain-step")?;
            push_spaced(text, layer)?;
            push_spaced(text, chain)?;
            push_spaced(text, step)
        }
        Evidence::Leaf { layer } => {
            text.push_slice(b"leaf")?;
            push_spaced(text, layer)
        }
        Evidence::TreeNode { layer, height } => {
            text.push_slice(b"tree-node")?;
            push_spaced(text, layer)?;
            push_spaced(text, height)
        }
        Evidence::Early { layer, chain } => {
            text.push_slice(b"early")?;
            push_spaced(text, layer)?;
            push_spaced(text, chain)
        }
    }
}
