// Bytes from a place of a list on, which the files in memory and those of the system both hand out.
ghost use Rattle.std.specs.Prelude.{◌≡◌, length, take, drop, min};

/// Copies the bytes that stand from a place on into the front of a buffer, as many as it has room for.
pub fn copy_from(bytes: &[u8], at: u64, into: &mut [u8]) -> usize
    ensures count { result ≡ min (length into.old) (length (drop at bytes.now)) }
    ensures bytes { take result into.new ≡ take result (drop at bytes.now) }
{
    let from = at as usize;
    if from >= bytes.len() {
        return 0;
    }
    let rest = &bytes[from..];
    let count = rest.len().min(into.len());
    into[..count].copy_from_slice(&rest[..count]);
    count
}
