//! Digests against those of Python's `hashlib`.

use crate::hexadecimal::are_hex;
use crate::shown::shows;
use sha512_lanes::{BLOCK_BYTES, MAX_TAIL, Midstate};

// The digests of 128 bytes 07 and then 86 bytes 00, 01, 02 or 03.
const DIGESTS_OF_TAILS: &str = "\
1f525aac55f3de7e7e752cec16df5d7ab91976a8b42abc1e5aecfd76bd2fcbe1f74289d499f90a122507dd55ebac007d9e7f932a350cfb37aa79842e5652178b
658e7f1fb861921bd9af248cd0c7472c6ae0cff43addba50b864b8a2da3840704436647cd9fde3c2c419efe35e7b95fc451e0b879149d5786c83f5e3a6176d69
f7c9872d3acf83b02625a5eb798cd67608bff8194226885b2db0d30eb0f04c498933c6c2eb69eeb7b31c9f85f967f6d3e51885c211affec083de3d937bd16695
df02bd5cf82e2375b6e5e4fff522ce60f1b769486a4ec45b4aa9441387d0e76e08e00c54b00c65824326b7c898206ebd9e934b62461d9c466de22d72a1809bda";

// The digests of the bytes 00, 01, up to 7f, and no tail, and the first 111 of them again.
const DIGESTS_OF_ONE: &str = "\
1dffd5e3adb71d45d2245939665521ae001a317a03720a45732ba1900ca3b8351fc5c9b4ca513eba6f80bc7b1d1fdad4abd13491cb824d61b08d8c0e1561b3f7
77d6c19fe89ebad7fc65b2106c6be2710888e2dfc81744061dfa9616231bd488d1ee8bae82ed4ac14588f4c0309af42df2316fb97821ed9266f7f2a4feb97a0c";

// The bytes 00, 01, and so on.
fn counted() -> [u8; BLOCK_BYTES] {
    let mut block = [0u8; BLOCK_BYTES];
    for i in 0..BLOCK_BYTES {
        block[i] = i as u8;
    }
    block
}

fn are_digests_of_tails() -> bool {
    let midstate = Midstate::new(&[7; BLOCK_BYTES]);
    let tails = [[0; 128], [1; 128], [2; 128], [3; 128]];
    are_hex(DIGESTS_OF_TAILS, &midstate.finalize_four(&tails, 86))
}

fn are_digests_of_one() -> bool {
    let midstate = Midstate::new(&counted());
    let [of_block] = midstate.finalize_one(&[counted()], 0);
    let [of_longest] = midstate.finalize_one(&[counted()], MAX_TAIL);
    are_hex(DIGESTS_OF_ONE, &[of_block, of_longest])
}

#[test]
fn four_side_by_side_and_one_alone(rt: HostRuntime) {
    shows(&rt, are_digests_of_tails() && are_digests_of_one());
}

fn tail_of(bytes: &[u8; 3]) -> [u8; BLOCK_BYTES] {
    let mut tail = [0; BLOCK_BYTES];
    tail[..3].copy_from_slice(bytes);
    tail
}

fn four_digests(block: &[u8; BLOCK_BYTES]) -> [[u8; 64]; 4] {
    let midstate = Midstate::new(block);
    let tails = [
        tail_of(b"one"),
        tail_of(b"two"),
        tail_of(b"six"),
        tail_of(b"ten"),
    ];
    midstate.finalize_four(&tails, 3)
}

// The digests of 128 bytes 07 and then `one`, `two`, `six` or `ten`.
const DIGESTS_OF_WORDS: &str = "\
6983498b59908ba751b2547e47c9242720c068900c04adcf796ac48ed3200bab92edf08264f387f481b576792873c2a6f907876fc174b1f3450705885f8260fd
84983316e545d1587226adb4d9b0e824aa985197db75292e8afb65f69bb1b8e0c7e8d91d1c050e744a504f868849d15828bf830de35ebc6593f4a04c7915ee2d
e09a0e2b52e72b257cba505fd6bd896fd9e1be6b8895c0a3a2d5f22108eadef7741cd09571e554004994591a833b05cf5ba55cac3ce10208635bee6f90831d44
30accd0798c32948aa6a22223b85faa93e428108325d67ec579e14039357e1aad6e70eb19afba4d443203a1b3d6797935de2a87845276f7a50dd0eee9b6a3713";

#[test]
fn example_of_the_page(rt: HostRuntime) {
    shows(
        &rt,
        are_hex(DIGESTS_OF_WORDS, &four_digests(&[7; BLOCK_BYTES])),
    );
}
