//! What a file has, said in short.

use nk_host::FetchFault;
use std::alloc::Global;

/// A file's bytes, or a part of them.
#[derive(Clone, Copy)]
pub(crate) enum Content {
    /// These bytes.
    Text(&'static [u8]),
    /// So many zeros.
    Zeros(usize),
    /// From a place on, so many bytes of a file whose bytes are their places modulo 251.
    Counting(usize, usize),
}

fn is_counting(bytes: &[u8], from: usize) -> bool {
    for (index, byte) in bytes.iter().enumerate() {
        if *byte != (from.wrapping_add(index) % 251) as u8 {
            return false;
        }
    }
    true
}

fn is_zero(bytes: &[u8]) -> bool {
    for byte in bytes {
        if *byte != 0 {
            return false;
        }
    }
    true
}

/// Whether the bytes are the content.
pub(crate) fn has(bytes: &[u8], content: Content) -> bool {
    match content {
        Content::Text(text) => bytes == text,
        Content::Zeros(len) => bytes.len() == len && is_zero(bytes),
        Content::Counting(from, len) => bytes.len() == len && is_counting(bytes, from),
    }
}

/// Whether a fetch answers the content or the fault that is wanted.
pub(crate) fn is_file(
    answer: Result<Vec<u8>, FetchFault>,
    wanted: Result<Content, FetchFault>,
) -> bool {
    match wanted {
        Ok(content) => answer.is_ok_and(|file| has(&file, content)),
        Err(fault) => answer.err() == Some(fault),
    }
}

/// A byte, so many times.
pub(crate) fn repeated(alloc: Global, byte: u8, len: usize) -> Option<Vec<u8>> {
    vec![in alloc; byte; len].ok()
}

fn count(bytes: &mut [u8], from: usize) {
    for (index, byte) in bytes.iter_mut().enumerate() {
        *byte = (from.wrapping_add(index) % 251) as u8;
    }
}

fn counting(alloc: Global, from: usize, len: usize) -> Option<Vec<u8>> {
    let mut bytes = repeated(alloc, 0, len)?;
    count(&mut bytes, from);
    Some(bytes)
}

/// The content's bytes, where there is memory for them.
pub(crate) fn bytes_of(alloc: Global, content: Content) -> Option<Vec<u8>> {
    match content {
        Content::Text(text) => text.to_vec(alloc).ok(),
        Content::Zeros(len) => repeated(alloc, 0, len),
        Content::Counting(from, len) => counting(alloc, from, len),
    }
}
