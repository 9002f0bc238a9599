//! Texts of proofs of a log: those of a number, digests of bytes that are 0, 1 and so on, and a
//! checkpoint have the SHA-256 digests of the texts that Python's standard library makes of them.
use crate::log_heads::digest;
use crate::shown::{shows, shows_at};
use hmac_sha256::Hash;
use slh_bytes::{ProofError, Purpose, proof_text, read_proof};
use std::alloc::Global;

const CHECKPOINT: &[u8] = b"example.com/log\n8\nXcnaeacGWamtVZy3Ad7ZoqudgjqtL0lgz+Nw7/RgQyg=\n\n\
    \xe2\x80\x94 example.com/log AAAA\n";

// How many digests there are, the number, and the SHA-256 of the text.
const PRESENCE: &str = "\
0 0 d32af29da61a8276639ebc5a154b9f354ac96c83a5841ec2abcb2cf01dc65aae
1 0 b498f7f3c5c758c6b10b5dbaa309f641e02de98f486297124be1a144c56b9740
64 0 51d47b67b3cadfcdf1563615122de69d62a10b084f7fd77abe5d6780300a4920
0 4294967296 cfd489183b0205f2b1e29d8e8a30286c3cbab8a7d3ab7c1676b5b0d5554f0f17
1 4294967296 ba59e14212a3f12e064cee2c720f6bdaad5c6c81d6aa57c5ddbea1f988286e17
64 4294967296 ee8fde119215c0e9e41cc604194cda272b925969a719efc1f8ae16739e91058a
0 18446744073709551615 ae0c97c4ba671e0915c16d41f63a6b58f2024486ea805216af67c19aee6f4b2e
1 18446744073709551615 31349bbf28d006f184c7857ab149a09df47154f19ae6cdfca891f6696b27360a
64 18446744073709551615 573b78785c1a66a8dcf6b437075d840c21f20fdbf275a78effb1e1de1b683c16";

const GROWTH: &str = "\
0 0 8962c1fdb080ff0282dbde29cdbde5c3be76c32e8622564c7ec1d623eabf4078
1 0 c15038c0cacff32abe088aa6a01a89b7584d61871a4beb1b8cfcc7af5df5660e
64 0 8352c973be99e73d66cd79318068346c60f55454cd03b22cc7a093f45064fea5
0 4294967296 e08988baa5c1c1a91fa4affc86a015714c9635306cd4bd0bf93a486b7a717453
1 4294967296 5b69661b84a343357d03d25b35953ec0f2befba9324a6f6a276a25fd27697d89
64 4294967296 18c0eac8d7f3caf793307af630f9fd3216ea8fcc7db3c87f89981ea361577fbd
0 18446744073709551615 179fec612ba024f2ec1f1114c844d5975ba11c857fdddcaf61506092db5cbc4a
1 18446744073709551615 084ba7b4b1e42bfdcc070bb6443f2b875a2ffc814ba8ad18313a000d49386dc1
64 18446744073709551615 7f5b7c1a463d5029bc2082c63fffab4991486dddc23c45bb12157dec42a7f07e";

// So many digests, each of bytes that are its place.
fn digests(alloc: Global, count: u8) -> Option<Vec<[u8; 32]>> {
    let mut all = Vec::new(alloc);
    for place in 0..count {
        all.push([place; 32]).ok()?;
    }
    Some(all)
}

// Whether a text is read as that of a number, digests and the checkpoint.
fn is_read(
    alloc: Global,
    purpose: Purpose,
    text: &[u8],
    number: u64,
    digests: &[[u8; 32]],
) -> Option<bool> {
    let proof = read_proof(alloc, purpose, text).ok()?;
    Some(
        proof.number == number
            && proof.digests.as_slice() == digests
            && proof.checkpoint == CHECKPOINT,
    )
}

fn is_known(alloc: Global, purpose: Purpose, row: &str) -> Option<bool> {
    let (count, rest) = row.split_once(' ')?;
    let (number, known) = rest.split_once(' ')?;
    let number = number.parse::<u64>().ok()?;
    let digests = digests(alloc, count.parse::<u8>().ok()?)?;
    let text = proof_text(alloc, purpose, number, &digests, CHECKPOINT).ok()?;
    let is_known = text.len() < 1 << 20 && Hash::hash(&text) == digest(known);
    Some(is_known && is_read(alloc, purpose, &text, number, &digests)?)
}

#[test]
fn texts_of_presence_are_known_and_read_back(rt: HostRuntime) {
    for row in PRESENCE.lines() {
        shows_at(
            &rt,
            row,
            is_known(rt.alloc(), Purpose::Presence, row) == Some(true),
        );
    }
}

#[test]
fn texts_of_growth_are_known_and_read_back(rt: HostRuntime) {
    for row in GROWTH.lines() {
        shows_at(
            &rt,
            row,
            is_known(rt.alloc(), Purpose::Growth, row) == Some(true),
        );
    }
}

// Texts that are none of a proof, each behind a mark.
const OTHER_PRESENCE: &str = "#\n\
#index 5\n\n\
#old 5\n\n\
#c2sp.org/tlog-proof@v2\nindex 5\n\n\
#c2sp.org/tlog-proof@v1\nindex 5\
#c2sp.org/tlog-proof@v1\nindex 5\n\
#c2sp.org/tlog-proof@v1\nindex \n\n\
#c2sp.org/tlog-proof@v1\nindex 05\n\n\
#c2sp.org/tlog-proof@v1\nindex +5\n\n\
#c2sp.org/tlog-proof@v1\nindex -5\n\n\
#c2sp.org/tlog-proof@v1\nindex 5 \n\n\
#c2sp.org/tlog-proof@v1\nindex 18446744073709551616\n\n\
#c2sp.org/tlog-proof@v1\r\nindex 5\r\n\r\n";

const OTHER_GROWTH: &str = "\
#old 5\nAQEBAQEBAQEBAQEBAQEBAQEBAQEBAQEBAQEBAQEBAQE=\
#old 5\nAQEBAQEBAQEBAQEBAQEBAQEBAQEBAQEBAQEBAQEBAQE=\n\
#old 5\nAQEBAQEBAQEBAQEBAQEBAQEBAQEBAQEBAQEBAQEBAQE\n\n\
#old 5\nAQEBAQEBAQEBAQEBAQEBAQEBAQEBAQEBAQEBAQEBAQF=\n\n\
#old 5\nAQEBAQEBAQEBAQEBAQEBAQEBAQEBAQEBAQEBAQEBAQEB\n\n\
#old 5\nAQEBAQEBAQEBAQEBAQEBAQEBAQEBAQEBAQEBAQEBAQ==\n\n\
#old 5\n-QEBAQEBAQEBAQEBAQEBAQEBAQEBAQEBAQEBAQEBAQE=\n\n\
#old 5\nAQEBAQEBAQEBAQEBAQEBAQEBAQEBAQEBAQEBAQEBAQE= \n\n\
#old 5\nAQEBAQEBAQEBAQEBAQEBAQEBAQEBAQEBAQEBAQEBAQE=\r\n\n";

fn have_no_form(alloc: Global, purpose: Purpose, texts: &str) -> bool {
    for text in texts.split('#') {
        match read_proof(alloc, purpose, text.as_bytes()) {
            Err(ProofError::Form) => {}
            _ => return false,
        }
    }
    true
}

#[test]
fn other_texts_have_no_form(rt: HostRuntime) {
    shows(
        &rt,
        have_no_form(rt.alloc(), Purpose::Presence, OTHER_PRESENCE),
    );
    shows(&rt, have_no_form(rt.alloc(), Purpose::Growth, OTHER_GROWTH));
}
