use crate::fault::Fault;
use std::random::RandomSource;

/// A seed that who chooses the keys of rows can't know: eight bytes of the system's randomness.
pub fn draw_seed(rt: &impl RandomSource) -> Result<u64, Fault> {
    let mut bytes = [0; 8];
    match rt.fill_bytes(&mut bytes) {
        Ok(()) => Ok(u64::from_le_bytes(bytes)),
        Err(error) => Err(Fault::Seed(error)),
    }
}
