// The sets of `slh_sets` against FIPS 205, section 11, table 2.
use crate::shown::shows;
use slh_sets::Set;

// Whether the set at this place of the table has this name, and the number after the place, and its
// n, the bytes of a verifying key, and those of a signature are these.
fn is_row(place: usize, name: &'static str, sizes: [usize; 3]) -> bool {
    match Set::ALL.get(place).copied() {
        Some(set) => {
            Set::NAMES.get(place).copied() == Some(name)
                && set.name() == name
                && Set::from_name(name.as_bytes()) == Some(set)
                && set.number() as usize == place.wrapping_add(1)
                && Set::from_number(set.number()) == Some(set)
                && [set.n(), set.verifying_key_len(), set.signature_len()] == sizes
                && set.signing_key_len() == 4 * set.n()
        }
        None => false,
    }
}

fn are_rows() -> bool {
    is_row(0, "SLH-DSA-SHA2-128s", [16, 32, 7856])
        && is_row(1, "SLH-DSA-SHA2-128f", [16, 32, 17088])
        && is_row(2, "SLH-DSA-SHA2-192s", [24, 48, 16224])
        && is_row(3, "SLH-DSA-SHA2-192f", [24, 48, 35664])
        && is_row(4, "SLH-DSA-SHA2-256s", [32, 64, 29792])
        && is_row(5, "SLH-DSA-SHA2-256f", [32, 64, 49856])
}

#[test]
fn names_numbers_and_sizes_are_those_of_the_table(rt: HostRuntime) {
    shows(&rt, are_rows());
}

fn signature_len_of(name: &[u8]) -> Option<usize> {
    Some(Set::from_name(name)?.signature_len())
}

#[test]
fn example_of_the_page(rt: HostRuntime) {
    shows(&rt, signature_len_of(b"SLH-DSA-SHA2-192s") == Some(16224));
}
