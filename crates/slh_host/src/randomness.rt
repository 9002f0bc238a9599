//! The system's random source.
use crate::error::HostError;
use crate::failure::Failure;
use std::random::RandomSource;

/// So many bytes of the system's random source.
pub fn random<const N: usize>(rt: &HostRuntime) -> Result<[u8; N], Failure<'static>> {
    let mut bytes = [0; N];
    match rt.fill_bytes(&mut bytes) {
        Ok(()) => Ok(bytes),
        Err(error) => Err(Failure::alone(HostError::Random(error))),
    }
}
