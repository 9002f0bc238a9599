//! Digests side by side against those of Python's `hashlib`.

ghost use Rattle.std.specs.Prelude.{◌≤◌};

use crate::hexadecimal::{are_hex, is_hex};
use crate::shown::shows;
use hmac_sha256::Hash;
use sha256_lanes::{BLOCK_BYTES, Begun, Eight, Heads, MAX_TAIL, Midstate};

// After 64 bytes 07.
fn after_block() -> Midstate {
    Midstate::new(&[7; BLOCK_BYTES])
}

// 64 bytes 07 and then 38 bytes 00, 01, .. or 07. From Python's `hashlib`.
const DIGESTS_OF_TAILS: &str = "\
9cf8e383a90bbe16ca586be4452b70db3dbfc4133f49f50a5da9d236bdc947ca
bec37cf5bba70ea55451c6c8f076310cbcb50d39ab9ab98f65277e73def535e6
2888fad4d29974e5e6c9d14184ec7741efb772e4d5a0ffb304e4b15ba7b643a2
721e6c8fcb654f2ce7d130e520ec0582eb602f8d6064f4685f065a9520a8156e
1eb0f80b3c516bdaff1ebcacedc2cb774037e7c8ee69d856d433b66f0ba51656
fa1398abb4ba0d7f0e6c69d62033e4f11c6f7c631073ff904196a3de1dfbb3e3
a9e13e6c5cb4fdc83a9858c831ad7257f321533bb8ba61c3aad9949e144d7a39
32a89e39291a71601e16694f1b03903a6e251be80cefeaa618161ccd69b4e0b1";

fn numbered_tails() -> [[u8; 64]; 8] {
    let mut tails = [[0; 64]; 8];
    for j in 0..8 {
        tails[j] = [j as u8; 64];
    }
    tails
}

fn are_digests_of_tails(midstate: &Midstate) -> bool {
    are_hex(
        DIGESTS_OF_TAILS,
        &midstate.finalize_eight(&numbered_tails(), 38),
    )
}

fn are_digests_by_four(midstate: &Midstate) -> bool {
    let tails = [[2; 64]; 4];
    let of_longest = "8d4393857f6cecd5c31bf511ac3b0d31a8c4330c2e7e2a5386cdc3a57a6f70e6";
    let of_none = "6cfeeb3aa25d3f411dae5eec17d7369ca7153e72dcf54bcf4c3daec0f5b21fc7";
    is_hex(of_longest, &midstate.finalize_four(&tails, 55)[3])
        && is_hex(of_none, &midstate.finalize_four(&tails, 0)[0])
}

// Eight tails, and of four the longest that ends in its block, and none. From Python's `hashlib`.
#[test]
fn digests_of_tails_side_by_side(rt: HostRuntime) {
    let midstate = after_block();
    shows(
        &rt,
        are_digests_of_tails(&midstate) && are_digests_by_four(&midstate),
    );
}

// 64 bytes 07 and then 582 bytes, as many as T hashes after the seed where values have 16 bytes.
// Byte `i` of all eight rows is `7 * i + 3`. From Python's `hashlib`.
const DIGESTS_OF_ROWS: &str = "\
2ad9f7cd5e75091a2e5ca776d23a43a42dc8f9e90d679e90d593907e83b4eb21
ef751edaf54927e8cf4cacb02c1ade1baf629807fd75156d37fbef7e3fd223ff
5c7ecc0546842bff0502e6a35bcacfeb972a725322e42ebf2072bb65271538d9
c6a7092135489114a5b84fffdba90d561fb06824f9a485ed1904ca234e6734c4
cb578eae6f4de014adf3b0ba0b72f2528fdb2f59f9d30d62dbb2fdebf2c1ccae
d66f6339aeb9847dd34b685608224ccb0964d16d386d65abbbb65dbf2de71938
1b314a114ce43d5a754fb5d83cd004d2ea801268cee68bb578d099f2bc004d98
15f59724e49b48733c4ff26b92dfa8bc6551d029f0b013f07f3b93fe11592412";

fn counted_rows() -> [u8; 8 * 582] {
    let mut rows = [0u8; 8 * 582];
    for i in 0..8 * 582usize {
        rows[i] = ((7 * i + 3) % 256) as u8;
    }
    rows
}

fn are_digests_of_rows(midstate: &Midstate) -> bool {
    are_hex(
        DIGESTS_OF_ROWS,
        &midstate.finalize_rows(&counted_rows(), 582),
    )
}

// The digest of a digest and those of eight rows.
fn chained_digest(digest: &[u8; 32], digests: &[[u8; 32]; 8]) -> [u8; 32] {
    let mut all = [0u8; 288];
    all[..32].copy_from_slice(digest);
    for j in 0..8usize {
        all[32 * j + 32..32 * j + 64].copy_from_slice(&digests[j]);
    }
    Hash::hash(&all)
}

fn digest_of_rows_of_all_lengths(midstate: &Midstate) -> [u8; 32] {
    let rows = counted_rows();
    let mut digest = [0u8; 32];
    for n in 0..131usize {
        digest = chained_digest(&digest, &midstate.finalize_rows(&rows[..8 * n], n));
    }
    digest
}

fn is_digest_of_rows_of_all_lengths(midstate: &Midstate) -> bool {
    let last = "90daf5c27ea74264be4605b05977a1968b89baf4c9567f0ae0e62a554678a31f";
    is_hex(last, &digest_of_rows_of_all_lengths(midstate))
}

// Rows as a suite hashes, and of each length: then each digest is that of the one before it and
// those of eight longer rows. The last is from Python's `hashlib`.
#[test]
fn digests_of_rows_side_by_side(rt: HostRuntime) {
    let midstate = after_block();
    shows(
        &rt,
        are_digests_of_rows(&midstate) && is_digest_of_rows_of_all_lengths(&midstate),
    );
}

// Whether the digest in lane 5 is that of what was begun, the number 258 in 4 bytes, and `n` bytes
// of the value.
fn is_step(begun: &Begun, values: &Eight, n: usize, expected: &str) -> bool
    requires { n ≤ 32 }
{
    let mut digest = [0u8; 32];
    begun
        .finalize_words(258, values, n)
        .write_lane(5, &mut digest);
    is_hex(expected, &digest)
}

// Heads of bytes 00, 01, .. 07, and values of bytes 64, 65, .. 6b.
fn numbered_steps() -> (Heads, Eight) {
    let mut heads = [[0u8; 22]; 8];
    let mut values = [[0u8; 32]; 8];
    for j in 0..8 {
        heads[j] = [j as u8; 22];
        values[j] = [100 + j as u8; 32];
    }
    (Heads::of(&heads), Eight::of(&values))
}

fn are_steps(begun: &Begun, values: &Eight) -> bool {
    let of_16 = "2c5e5371d5e5d9156a60a2d552cc80d9962dde1c89245bfdc4aa96fbefbd9601";
    let of_20 = "6150849153821b112a98b1f2f7f34b06d98654c3e71961664e9344d7087dee79";
    let of_24 = "98029aa14bd6200b1251d3f4d89d0010d54dd73a76349cb95b0c3163a972fbad";
    let of_32 = "f678582a650a09a8f9425439e0258cd141619da38924f12f34e38183a7b4826d";
    is_step(begun, values, 16, of_16)
        && is_step(begun, values, 20, of_20)
        && is_step(begun, values, 24, of_24)
        && is_step(begun, values, 32, of_32)
}

// In lane 5: 64 bytes 07, 18 bytes 05, the number, and bytes 69. From Python's `hashlib`.
#[test]
fn digests_of_steps(rt: HostRuntime) {
    let (heads, values) = numbered_steps();
    shows(&rt, are_steps(&after_block().begin(&heads), &values));
}

// The bytes 00, 01, and so on.
fn counted() -> [u8; BLOCK_BYTES] {
    let mut block = [0u8; BLOCK_BYTES];
    for i in 0..BLOCK_BYTES {
        block[i] = i as u8;
    }
    block
}

fn is_digest_of_one(midstate: &Midstate, len: usize, text: &str) -> bool
    requires { len ≤ MAX_TAIL }
{
    let [digest] = midstate.finalize_one(&[counted()], len);
    is_hex(text, &digest)
}

// The digests of the bytes 00, 01, up to 3f and no tail, and the first 55 of them again.
fn are_digests_of_one(midstate: &Midstate) -> bool {
    let of_block = "fdeab9acf3710362bd2658cdc9a29e8f9c757fcf9811603a8c447cd1d9151108";
    let of_longest = "bd1cf05f5abe6dc4e42f23611a83442553de9096e6b46575e934166b5bc986c9";
    is_digest_of_one(midstate, 0, of_block) && is_digest_of_one(midstate, MAX_TAIL, of_longest)
}

#[test]
fn one_alone(rt: HostRuntime) {
    shows(&rt, are_digests_of_one(&Midstate::new(&counted())));
}

fn tail_of(bytes: &[u8; 3]) -> [u8; BLOCK_BYTES] {
    let mut tail = [0; BLOCK_BYTES];
    tail[..3].copy_from_slice(bytes);
    tail
}

fn four_digests(block: &[u8; BLOCK_BYTES]) -> [[u8; 32]; 4] {
    let midstate = Midstate::new(block);
    let tails = [
        tail_of(b"one"),
        tail_of(b"two"),
        tail_of(b"six"),
        tail_of(b"ten"),
    ];
    midstate.finalize_four(&tails, 3)
}

// The digests of 64 bytes 07 and then `one`, `two`, `six` or `ten`.
const DIGESTS_OF_WORDS: &str = "\
131c4d522e73e2a89042e214fe93e667f08e9ff824600672492d9b1cd4648b21
8e49ded878a4555c2316b28e3d8672200c70af51aadf75b608f58efde53ce689
46b282663828f22dc47cfe019c1b8c68cecc9f2e62cf4be2ed9be9c9b0bc97e6
165e3c508b27392312aa79c7ef4e252494529cd5c48f5be94a5e076bd1cb9ef7";

#[test]
fn example_of_the_page(rt: HostRuntime) {
    shows(
        &rt,
        are_hex(DIGESTS_OF_WORDS, &four_digests(&[7; BLOCK_BYTES])),
    );
}
