//! Vectors with one byte changed.
use std::alloc::Global;
use std::test::Fail;

/// The vector with a change of the byte at a place.
pub fn changed(alloc: Global, vector: &[u8], at: usize, change: u8) -> Result<Vec<u8>, Fail> {
    let mut bytes = vector.to_vec(alloc)?;
    if let Some(byte) = bytes.get_mut(at) {
        *byte ^= change;
    }
    Ok(bytes)
}
