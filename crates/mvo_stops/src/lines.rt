use std::alloc::{AllocError, Global};

/// The lines of a script, without their line feeds. A last line feed starts no further line.
pub fn lines_of(alloc: Global, text: &[u8]) -> Result<Vec<Vec<u8>>, AllocError> {
    let mut lines = Vec::new(alloc);
    let mut line = Vec::new(alloc);
    for byte in text {
        if *byte == b'\n' {
            lines.push(line)?;
            line = Vec::new(alloc);
        } else {
            line.push(*byte)?;
        }
    }
    if !line.is_empty() {
        lines.push(line)?;
    }
    Ok(lines)
}
