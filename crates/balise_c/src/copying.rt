//! Bytes copied to the front of others.

ghost use Rattle.std.specs.Prelude.{◌≡◌, length, min, take, drop};

/// Copies what there is room for, and returns how many bytes that was.
pub(crate) fn copy_front(from: &[u8], to: &mut [u8]) -> usize
    ensures count { result ≡ min (length from.now) (length to.old) }
    ensures copied { take result to.new ≡ take result from.now }
    ensures kept { drop result to.new ≡ drop result to.old }
{
    let count = from.len().min(to.len());
    to[..count].copy_from_slice(&from[..count]);
    count
}
