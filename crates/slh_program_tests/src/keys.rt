//! A key of SLH-DSA-SHA2-128f that OpenSSL made, from examples/data/openssl_keys.pem.
use slh_sets::Set;
use std::alloc::Global;

pub(crate) const SET: Set = Set::Sha2_128f;

const SIGNING: &str = "d33a28578322bac115d236181088f7e59a3c6eb408fa689ae449a4b182987d59\
    cd6504272444ef6813a09266dc981621fa007d70834ea0864cbe677d4b005ba9";

const VERIFYING: &str = "cd6504272444ef6813a09266dc981621fa007d70834ea0864cbe677d4b005ba9";

/// The signing key.
pub(crate) fn signing() -> Option<[u8; 64]> {
    let mut key = [0u8; 64];
    hex::decode_to_slice(SIGNING, &mut key).ok()?;
    Some(key)
}

/// The verifying key.
pub(crate) fn verifying() -> Option<[u8; 32]> {
    let mut key = [0u8; 32];
    hex::decode_to_slice(VERIFYING, &mut key).ok()?;
    Some(key)
}
