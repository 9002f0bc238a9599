//! Heads of a log that are signed and opened by the bytes of keys.
use crate::shown::shows_at;
use hex::FromHex;
use hmac_sha256::Hash;
use slh_bytes::{open_head, sign_head};
use slh_log::Checkpoint;
use slh_sets::Set;
use std::alloc::Global;

// Three seeds of bytes that are 1, 2 and 3, and the root that the Rust crate `slh-dsa` gives them.
const SIGNING: &str = "0101010101010101010101010101010102020202020202020202020202020202\
    030303030303030303030303030303034052e0733e69e78739d6e67c77f9a37d";

const VERIFYING: &str = "030303030303030303030303030303034052e0733e69e78739d6e67c77f9a37d";

// SHA-256 of checkpoints whose text comes from Python's standard library, and whose signature from
// the Rust crate, with their origins, their numbers of entries, their roots (those of 6 and of 8
// entries are of the reference tree of the Certificate Transparency project), and the byte that a
// randomizer repeats, or a dash.
const SIZES: &str = "\
851d4421ff8ece9ac84f8454e997c6462ec6fea8936abd32229471daf4d7fa71 example.com/log \
0 e3b0c44298fc1c149afbf4c8996fb92427ae41e4649b934ca495991b7852b855 -
a2ce62f429f1300aef5c0c4003b824f446370adc49043c1e01c3f570e0ff8d81 example.com/log \
6 76e67dadbcdf1e10e1b74ddc608abd2f98dfb16fbce75277b5232a127f2087ef -
b633cd74509fac950370d2ed254c597026573a93bd27449ed4844863607a3031 example.com/log \
18446744073709551615 5dc9da79a70659a9ad559cb701ded9a2ab9d823aad2f4960cfe370eff4604328 -";

const OTHERS: &str = "\
932f1e6ec9b22cf578a36f9d571f138f50592afce57d2b406de590899a9a1ae0 example.com/log \
8 5dc9da79a70659a9ad559cb701ded9a2ab9d823aad2f4960cfe370eff4604328 -
31e00efae79181962765ee02cbbe6c47e3b2b4517a67ef3951d60479785a3aa0 example.com/log \
8 5dc9da79a70659a9ad559cb701ded9a2ab9d823aad2f4960cfe370eff4604328 42
f03ead7ee1454c29bf408d9c3d0813d3eab9e73e5b8fac7aaccca2146e4255fa protokoll.example/übung \
1 5dc9da79a70659a9ad559cb701ded9a2ab9d823aad2f4960cfe370eff4604328 -";

/// 32 bytes.
pub(crate) fn digest(text: &str) -> [u8; 32] {
    match <[u8; 32] as FromHex>::from_hex(text) {
        Ok(bytes) => bytes,
        Err(_) => [0; 32],
    }
}

// The head with this origin, a randomizer of such bytes, or none.
fn signed(alloc: Global, origin: &str, head: Checkpoint, byte: &str) -> Option<Vec<u8>> {
    let mut key = [0u8; 64];
    hex::decode_to_slice(SIGNING, &mut key).ok()?;
    let random = [byte.parse::<u8>().unwrap_or(0); 16];
    let opt_rand = if byte == "-" {
        None
    } else {
        Some(random.as_slice())
    };
    sign_head(alloc, Set::Sha2_128f, &key, origin, head, opt_rand).ok()
}

// Whether a head has a digest, and opens to what it was made of.
fn is_head(note: &[u8], known: &str, origin: &str, head: Checkpoint) -> bool {
    note.len() < 1 << 20
        && Hash::hash(note) == digest(known)
        && open_head(Set::Sha2_128f, &digest(VERIFYING), origin, note) == Ok(head)
}

fn is_known(alloc: Global, row: &str) -> Option<bool> {
    let (known, rest) = row.split_once(' ')?;
    let (origin, rest) = rest.split_once(' ')?;
    let (size, rest) = rest.split_once(' ')?;
    let (root, byte) = rest.split_once(' ')?;
    let head = Checkpoint {
        size: size.parse::<u64>().ok()?,
        root: digest(root),
    };
    let note = signed(alloc, origin, head, byte)?;
    Some(is_head(&note, known, origin, head))
}

#[test]
fn heads_of_no_entries_of_6_and_of_the_most(rt: HostRuntime) {
    for row in SIZES.lines() {
        shows_at(&rt, row, is_known(rt.alloc(), row) == Some(true));
    }
}

#[test]
fn heads_of_8_entries_with_a_randomizer_and_with_an_umlaut(rt: HostRuntime) {
    for row in OTHERS.lines() {
        shows_at(&rt, row, is_known(rt.alloc(), row) == Some(true));
    }
}
