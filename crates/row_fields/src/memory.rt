//! Bytes of memory.

use std::alloc::AllocError;

/// A byte of memory.
#[derive(Clone, Copy, Debug, PartialEq, Eq)]
pub struct MemoryByte {
    /// Its address, by which the rows go.
    pub address: u64,
    pub byte: u8,
}

/// Appends the bytes from an address on.
///
/// Fails with want of memory.
pub fn push_bytes(
    memory: &mut Vec<MemoryByte>,
    address: u64,
    bytes: &[u8],
) -> Result<(), AllocError> {
    let mut address = address;
    for byte in bytes {
        memory.push(MemoryByte {
            address,
            byte: *byte,
        })?;
        address = address.wrapping_add(1);
    }
    Ok(())
}

/// The first byte with this address.
pub fn byte_at(bytes: &[MemoryByte], address: u64) -> Option<u8> {
    let found = bytes.iter().find(|it| it.address == address)?;
    Some(found.byte)
}
