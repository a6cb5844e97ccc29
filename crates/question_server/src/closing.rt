//! How a server is asked to end before its last session.
use std::io::{self, Read};
use std::sync::atomic::{AtomicU64, Ordering};

/// The number of bytes dropped per read.
const PIECE: usize = 4096;

/// Reads the input to its end, drops what it reads, and then sets `closing` to 1. An error ends the
/// input, too.
pub fn close_at_end<I: Read>(input: &mut I, closing: &AtomicU64) {
    let mut dropped = [0u8; PIECE];
    for _ in 0..u64::MAX {
        match input.read(&mut dropped) {
            Ok(0) => break,
            Ok(_) => {}
            Err(error) if error.kind() == io::ErrorKind::Interrupted => {}
            Err(_) => break,
        }
    }
    closing.store(1, Ordering::SeqCst);
}
