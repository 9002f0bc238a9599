//! The example of the page of `slh_trees`.
use crate::shown::shows;
use crate::worked::{SIGNATURE, changed};
use slh_core::nbytes::NBytes;
use slh_merkle::toy::Toy;
use slh_trees::SigView;
use slh_trees::uncounted::check_root;

// what stands before an empty context (FIPS 205, algorithm 22)
const HEAD: [u8; 2] = [0, 0];

fn accepts(signature: &[u8]) -> bool {
    let Some(view) = SigView::<Toy>::new(signature) else {
        return false;
    };
    let (seed, root) = (NBytes::exact(&[3]), NBytes::exact(&[0xe1]));
    let found = check_root::<Toy>(&seed, &root, &HEAD, &[], &[0x48], &view);
    found == root
}

// The root that a signature leads to.
fn root_of(signature: &[u8]) -> Option<u8> {
    let view = SigView::<Toy>::new(signature)?;
    let (seed, root) = (NBytes::exact(&[3]), NBytes::exact(&[0xe1]));
    let found = check_root::<Toy>(&seed, &root, &HEAD, &[], &[0x48], &view);
    Some(found.as_slice()[0])
}

#[test]
fn example_of_the_page_of_trees(rt: HostRuntime) {
    let other = changed(&[(18, 0x21)]);
    shows(
        &rt,
        accepts(&SIGNATURE) && !accepts(&SIGNATURE[..20]) && !accepts(&other),
    );
    shows(&rt, root_of(&other) == Some(228));
}
