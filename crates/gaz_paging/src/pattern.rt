//! Made bytes and keys.
ghost use Rattle.std.specs.Prelude.{◌≡◌, ◌<◌, length};

use crate::stopped::{Stopped, had};
use std::alloc::Global;

/// The longest record.
pub const LONGEST: usize = 65535;

/// A buffer for a record.
pub fn buffer(alloc: Global) -> Result<Vec<u8>, Stopped> {
    had(vec![in alloc; 0; LONGEST])
}

/// Bytes that no other seed has.
pub fn fill(bytes: &mut [u8], seed: u32) {
    let mut x: u32 = seed;
    for byte in bytes.iter_mut() {
        x = x.wrapping_mul(1_664_525).wrapping_add(1_013_904_223);
        *byte = (x >> 24) as u8;
    }
}

/// The key of an id: 1, the id in four bytes, zeros.
pub fn id_key(id: u32) -> [u8; 32] {
    let mut key = [0; 32];
    key[0] = 1;
    key[1..5].copy_from_slice(&id.to_be_bytes());
    key
}

/// A key that shares 28 bytes with the others, and 31 with its neighbours.
pub fn late_key(id: u32) -> [u8; 32] {
    let mut key = [255; 32];
    key[28..32].copy_from_slice(&id.to_be_bytes());
    key
}

/// The next of a row of numbers that seem random.
pub fn next(x: u64) -> u64
    ensures { result < 2147483647 }
{
    x.wrapping_mul(16807) % 2147483647
}
