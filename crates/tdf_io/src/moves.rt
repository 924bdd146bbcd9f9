ghost use Rattle.std.specs.Prelude.{◌≡◌, min, take, length};

/// Copies bytes to the front of `buf`, as many as there are and fit but at most `most`, and says how many.
pub(crate) fn fill(buf: &mut [u8], bytes: &[u8], most: usize) -> usize
    ensures count { result ≡ min (min most (length buf.old)) (length bytes.now) }
    ensures front { take result buf.new ≡ take result bytes.now }
{
    let count = most.min(buf.len()).min(bytes.len());
    buf[..count].copy_from_slice(&bytes[..count]);
    count
}
