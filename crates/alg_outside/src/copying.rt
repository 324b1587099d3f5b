//! The front of some bytes, copied into a buffer.

ghost use Rattle.std.specs.Prelude.{◌≡◌, length, take, min};

/// Copies the front of the bytes to the front of the buffer, as many as it has room for and at most
/// `most`, and gives their number.
pub(crate) fn copy_front(bytes: &[u8], most: usize, into: &mut [u8]) -> usize
    ensures count { result ≡ min (min most (length bytes.now)) (length into.new) }
    ensures copied { take result into.new ≡ take result bytes.now }
{
    let count = most.min(bytes.len()).min(into.len());
    into[..count].copy_from_slice(&bytes[..count]);
    count
}
