//! Bytes as hexadecimal digits.

use crate::bytes::bytes_of;
use enum_base::MemoryFault;
use std::alloc::Global;

/// The bytes of hexadecimal digits; none where they are no digits.
pub fn digits_of(alloc: Global, text: &str) -> Result<Vec<u8>, MemoryFault> {
    let digits = bytes_of(alloc, text)?;
    match hex::decode(alloc, digits.as_slice()) {
        Ok(bytes) => Ok(bytes),
        Err(_) => Ok(Vec::new(alloc)),
    }
}

/// The digits of bytes; `empty` where there are none.
pub fn hex_of(alloc: Global, bytes: &[u8]) -> Result<String, MemoryFault> {
    if bytes.is_empty() {
        return Ok("empty".to_string(alloc)?);
    }
    Ok(hex::encode(alloc, bytes)?)
}
